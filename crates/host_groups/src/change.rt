// The commands that change the table, with the membership taken from those that are held.
ghost use Rattle.std.specs.Prelude.{◌≡◌};
ghost use Rattle.state.specs.Table.{table_of};
ghost use Rattle.state.specs.Answer.{result_of};
ghost use Rattle.commands.specs.Counted.{counted_of};
ghost use Rattle.groups.specs.Groups.{groups_of};
ghost use Rattle.asking.specs.Asking.{add_asking, add_read_asking, store_asking, remove_asking, remove_all_asking, recall_asking, copy_asking};
ghost use Rattle.host_numbers.specs.Numbers.{applied_of};

use asking::AskingHandler;
use commands::Stored;
use groups::GroupsState;
use host_numbers::application;
use requests::CopyRequest;
use state::{Outcome, ScenesState};
use words::{GroupKey, SceneKey};

// Adds a scene, or gives it a new time and new fields.
#[unsafe(no_mangle)]
pub extern "C" fn scenes_add_asking(
    state: ScenesState,
    keys: &mut [u64],
    times: &mut [u32],
    fields: &mut [u8],
    records: &mut [u64],
    groups: GroupsState,
    words: &[u64],
    key: SceneKey,
    time: u32,
    pairs: &[u8],
    ext: &[u8],
) -> Outcome
    ensures { let before = table_of state keys.old times.old fields.old records.old in
        let after = table_of result.state keys.new times.new fields.new records.new in
        let held = groups_of groups words.now in
        result_of result.status result.save after ≡ add_asking key time pairs.now ext.now held before }
{
    AskingHandler { state, groups }.add_scene(
        keys, times, fields, records, words, key, time, pairs, ext,
    )
}

// Adds a scene by its raw field bytes, each of whose pairs the host answered with one pair byte.
#[unsafe(no_mangle)]
pub extern "C" fn scenes_add_read_asking(
    state: ScenesState,
    keys: &mut [u64],
    times: &mut [u32],
    fields: &mut [u8],
    records: &mut [u64],
    groups: GroupsState,
    words: &[u64],
    key: SceneKey,
    time: u32,
    pairs: &[u8],
    ext: &[u8],
) -> Outcome
    ensures { let before = table_of state keys.old times.old fields.old records.old in
        let after = table_of result.state keys.new times.new fields.new records.new in
        let held = groups_of groups words.now in
        result_of result.status result.save after ≡ add_read_asking key time pairs.now ext.now held before }
{
    AskingHandler { state, groups }.add_scene_read(
        keys, times, fields, records, words, key, time, pairs, ext,
    )
}

// Stores captured bytes as a scene, which becomes the fabric's current one, and counts the key words that it compared.
#[unsafe(no_mangle)]
pub extern "C" fn scenes_store_asking(
    state: ScenesState,
    keys: &mut [u64],
    times: &mut [u32],
    fields: &mut [u8],
    records: &mut [u64],
    groups: GroupsState,
    words: &[u64],
    key: SceneKey,
    captured: &[u8],
) -> Stored
    ensures { let before = table_of state keys.old times.old fields.old records.old in
        let after = table_of result.state keys.new times.new fields.new records.new in
        let held = groups_of groups words.now in
        counted_of (result_of result.status result.save after) result.compared ≡ store_asking key captured.now held before }
{
    AskingHandler { state, groups }.store_scene(keys, times, fields, records, words, key, captured)
}

// Ends a recall, once the host has applied the scene or could not.
#[unsafe(no_mangle)]
pub extern "C" fn scenes_recall_asking(
    state: ScenesState,
    keys: &[u64],
    times: &[u32],
    fields: &[u8],
    records: &mut [u64],
    groups: GroupsState,
    words: &[u64],
    key: SceneKey,
    applied: u8,
) -> Outcome
    ensures { let before = table_of state keys.now times.now fields.now records.old in
        let after = table_of result.state keys.now times.now fields.now records.new in
        let held = groups_of groups words.now in
        result_of result.status result.save after ≡ recall_asking key (applied_of applied) held before }
{
    AskingHandler { state, groups }.recall_scene(
        keys,
        times,
        fields,
        records,
        words,
        key,
        application(applied),
    )
}

// Removes a scene.
#[unsafe(no_mangle)]
pub extern "C" fn scenes_remove_asking(
    state: ScenesState,
    keys: &mut [u64],
    times: &mut [u32],
    fields: &mut [u8],
    records: &mut [u64],
    groups: GroupsState,
    words: &[u64],
    key: SceneKey,
) -> Outcome
    ensures { let before = table_of state keys.old times.old fields.old records.old in
        let after = table_of result.state keys.new times.new fields.new records.new in
        let held = groups_of groups words.now in
        result_of result.status result.save after ≡ remove_asking key held before }
{
    AskingHandler { state, groups }.remove_scene(keys, times, fields, records, words, key)
}

// Removes all scenes of a group on an endpoint.
#[unsafe(no_mangle)]
pub extern "C" fn scenes_remove_all_asking(
    state: ScenesState,
    keys: &mut [u64],
    times: &mut [u32],
    fields: &mut [u8],
    records: &mut [u64],
    groups: GroupsState,
    words: &[u64],
    key: GroupKey,
) -> Outcome
    ensures { let before = table_of state keys.old times.old fields.old records.old in
        let after = table_of result.state keys.new times.new fields.new records.new in
        let held = groups_of groups words.now in
        result_of result.status result.save after ≡ remove_all_asking key held before }
{
    AskingHandler { state, groups }.remove_all_scenes(keys, times, fields, records, words, key)
}

// Copies a scene, or with bit 0 of the mode a whole group.
#[unsafe(no_mangle)]
pub extern "C" fn scenes_copy_asking(
    state: ScenesState,
    keys: &mut [u64],
    times: &mut [u32],
    fields: &mut [u8],
    records: &mut [u64],
    groups: GroupsState,
    words: &[u64],
    request: CopyRequest,
) -> Outcome
    ensures { let before = table_of state keys.old times.old fields.old records.old in
        let after = table_of result.state keys.new times.new fields.new records.new in
        let held = groups_of groups words.now in
        result_of result.status result.save after ≡ copy_asking request held before }
{
    AskingHandler { state, groups }.copy_scene(keys, times, fields, records, words, request)
}
