// The reads that take a membership, from those that are held.
ghost use Rattle.std.specs.Prelude.{◌≡◌};
ghost use Rattle.state.specs.Table.{table_of};
ghost use Rattle.reads.specs.Reads.{listed_of};
ghost use Rattle.groups.specs.Groups.{groups_of};
ghost use Rattle.asking.specs.Asking.{view_asking, lookup_asking, membership_asking};
ghost use Rattle.host_numbers.specs.Numbers.{transition_of};

use asking::AskingHandler;
use groups::GroupsState;
use host_numbers::transition;
use reads::{ListRead, SceneRead};
use state::ScenesState;
use words::{GroupKey, SceneKey};

// A scene's time and position.
#[unsafe(no_mangle)]
pub extern "C" fn scenes_view_asking(
    state: ScenesState,
    keys: &[u64],
    times: &[u32],
    fields: &[u8],
    records: &[u64],
    groups: GroupsState,
    words: &[u64],
    key: SceneKey,
) -> SceneRead
    ensures { let table = table_of state keys.now times.now fields.now records.now in
        let held = groups_of groups words.now in
        result ≡ view_asking key held table }
{
    AskingHandler { state, groups }.view_scene(keys, times, fields, records, words, key)
}

// What a recall applies: the time, by the override where `given` is not 0, and the scene's position.
#[unsafe(no_mangle)]
pub extern "C" fn scenes_recall_lookup_asking(
    state: ScenesState,
    keys: &[u64],
    times: &[u32],
    fields: &[u8],
    records: &[u64],
    groups: GroupsState,
    words: &[u64],
    key: SceneKey,
    given: u8,
    time: u32,
) -> SceneRead
    ensures { let table = table_of state keys.now times.now fields.now records.now in
        let held = groups_of groups words.now in
        result ≡ lookup_asking key (transition_of given time) held table }
{
    AskingHandler { state, groups }.recall_lookup(
        keys,
        times,
        fields,
        records,
        words,
        key,
        transition(given, time),
    )
}

// The remaining capacity, and the scene ids of a group in the front of a lent buffer.
#[unsafe(no_mangle)]
pub extern "C" fn scenes_get_membership_asking(
    state: ScenesState,
    keys: &[u64],
    times: &[u32],
    fields: &[u8],
    records: &[u64],
    groups: GroupsState,
    words: &[u64],
    ids: &mut [u8],
    key: GroupKey,
) -> ListRead
    ensures { let table = table_of state keys.now times.now fields.now records.now in
        let held = groups_of groups words.now in
        listed_of result ids.new ≡ membership_asking key ids.old held table }
{
    AskingHandler { state, groups }.get_scene_membership(
        keys, times, fields, records, words, ids, key,
    )
}
