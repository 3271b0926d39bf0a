// The calls of the scene table for hosts in C or Rust whose table nobody else can write. Each is the export of the crate `host` whose name it
// has, without the test: it asks instead that the table is sound, which holds before every call on a table that began sound and that only
// calls have written (`stays_sound` of the crate observation).
#![tactic(auto)]

ghost use Rattle.std.specs.Prelude.{◌≡◌, true};
ghost use Rattle.state.specs.Table.{table_of};
ghost use Rattle.state.specs.Sound.{sound};
ghost use Rattle.state.specs.Answer.{result_of};
ghost use Rattle.commands.specs.Commands.{add_scene, remove_scene, remove_all_scenes, recall_scene};
ghost use Rattle.commands.specs.Counted.{counted_of, store_counted};
ghost use Rattle.copies.specs.Copy.{copy_scene};
ghost use Rattle.reads.specs.Reads.{view_scene, recall_lookup, listed_of, get_scene_membership, read_fabric_scene_info};
ghost use Rattle.lifecycle.specs.Lifecycle.{scenable_attribute_changed, remove_for_fabric, factory_reset, startup, fail_safe};
ghost use Rattle.image_save.specs.Saving.{saved_of, save_image};
ghost use Rattle.image_load.specs.Loading.{load_image};
ghost use Rattle.requests.specs.Requests.{membership_of};
ghost use Rattle.host_numbers.specs.Numbers.{applied_of, transition_of, truth_of};
ghost use Rattle.host_numbers.specs.Fields.{field_place};

use commands::{Commands, Stored};
use copies::Copies;
use host_numbers::{FieldBytes, application, transition, truth};
use image_load::load_sound;
use image_save::{ImageSaved, save_sound};
use lifecycle::Lifecycle;
use reads::{InfoRead, ListRead, Reads, SceneRead};
use requests::{CopyRequest, Membership};
use state::{Outcome, ScenesState};
use words::{GroupKey, SceneKey};

// Adds a scene, or gives it a new time and new fields.
#[unsafe(no_mangle)]
pub extern "C" fn scenes_add_unchecked(
    state: ScenesState,
    keys: &mut [u64],
    times: &mut [u32],
    fields: &mut [u8],
    records: &mut [u64],
    key: SceneKey,
    time: u32,
    member: u8,
    pairs: &[u8],
    ext: &[u8],
) -> Outcome
    requires { sound (table_of state keys.old times.old fields.old records.old) ≡ true }
    ensures { let before = table_of state keys.old times.old fields.old records.old in
        let after = table_of result.state keys.new times.new fields.new records.new in
        result_of result.status result.save after ≡ add_scene key time (membership_of member) pairs.now ext.now before }
{
    Commands { state }.add_scene(
        keys,
        times,
        fields,
        records,
        key,
        time,
        Membership::from(member),
        pairs,
        ext,
    )
}

// Stores captured bytes as a scene, which becomes the fabric's current one, and counts the key words that it compared.
#[unsafe(no_mangle)]
pub extern "C" fn scenes_store_unchecked(
    state: ScenesState,
    keys: &mut [u64],
    times: &mut [u32],
    fields: &mut [u8],
    records: &mut [u64],
    key: SceneKey,
    member: u8,
    captured: &[u8],
) -> Stored
    requires { sound (table_of state keys.old times.old fields.old records.old) ≡ true }
    ensures { let before = table_of state keys.old times.old fields.old records.old in
        let after = table_of result.state keys.new times.new fields.new records.new in
        counted_of (result_of result.status result.save after) result.compared ≡ store_counted key (membership_of member) captured.now before }
{
    Commands { state }.store_scene(
        keys,
        times,
        fields,
        records,
        key,
        Membership::from(member),
        captured,
    )
}

// A scene's time and position.
#[unsafe(no_mangle)]
pub extern "C" fn scenes_view_unchecked(
    state: ScenesState,
    keys: &[u64],
    times: &[u32],
    fields: &[u8],
    records: &[u64],
    key: SceneKey,
    member: u8,
) -> SceneRead
    requires { sound (table_of state keys.now times.now fields.now records.now) ≡ true }
    ensures { let table = table_of state keys.now times.now fields.now records.now in
        result ≡ view_scene key (membership_of member) table }
{
    Reads { state }.view_scene(keys, times, fields, records, key, Membership::from(member))
}

// What a recall applies: the time, by the override where `given` is not 0, and the scene's position.
#[unsafe(no_mangle)]
pub extern "C" fn scenes_recall_lookup_unchecked(
    state: ScenesState,
    keys: &[u64],
    times: &[u32],
    fields: &[u8],
    records: &[u64],
    key: SceneKey,
    member: u8,
    given: u8,
    time: u32,
) -> SceneRead
    requires { sound (table_of state keys.now times.now fields.now records.now) ≡ true }
    ensures { let table = table_of state keys.now times.now fields.now records.now in
        result ≡ recall_lookup key (membership_of member) (transition_of given time) table }
{
    Reads { state }.recall_lookup(
        keys,
        times,
        fields,
        records,
        key,
        Membership::from(member),
        transition(given, time),
    )
}

// Ends a recall, once the host has applied the scene or could not.
#[unsafe(no_mangle)]
pub extern "C" fn scenes_recall_unchecked(
    state: ScenesState,
    keys: &[u64],
    times: &[u32],
    fields: &[u8],
    records: &mut [u64],
    key: SceneKey,
    member: u8,
    applied: u8,
) -> Outcome
    requires { sound (table_of state keys.now times.now fields.now records.old) ≡ true }
    ensures { let before = table_of state keys.now times.now fields.now records.old in
        let after = table_of result.state keys.now times.now fields.now records.new in
        result_of result.status result.save after ≡ recall_scene key (membership_of member) (applied_of applied) before }
{
    Commands { state }.recall_scene(
        keys,
        times,
        fields,
        records,
        key,
        Membership::from(member),
        application(applied),
    )
}

// Removes a scene.
#[unsafe(no_mangle)]
pub extern "C" fn scenes_remove_unchecked(
    state: ScenesState,
    keys: &mut [u64],
    times: &mut [u32],
    fields: &mut [u8],
    records: &mut [u64],
    key: SceneKey,
    member: u8,
) -> Outcome
    requires { sound (table_of state keys.old times.old fields.old records.old) ≡ true }
    ensures { let before = table_of state keys.old times.old fields.old records.old in
        let after = table_of result.state keys.new times.new fields.new records.new in
        result_of result.status result.save after ≡ remove_scene key (membership_of member) before }
{
    Commands { state }.remove_scene(keys, times, fields, records, key, Membership::from(member))
}

// Removes all scenes of a group on an endpoint.
#[unsafe(no_mangle)]
pub extern "C" fn scenes_remove_all_unchecked(
    state: ScenesState,
    keys: &mut [u64],
    times: &mut [u32],
    fields: &mut [u8],
    records: &mut [u64],
    key: GroupKey,
    member: u8,
) -> Outcome
    requires { sound (table_of state keys.old times.old fields.old records.old) ≡ true }
    ensures { let before = table_of state keys.old times.old fields.old records.old in
        let after = table_of result.state keys.new times.new fields.new records.new in
        result_of result.status result.save after ≡ remove_all_scenes key (membership_of member) before }
{
    Commands { state }.remove_all_scenes(
        keys,
        times,
        fields,
        records,
        key,
        Membership::from(member),
    )
}

// Copies a scene, or with bit 0 of the mode a whole group.
#[unsafe(no_mangle)]
pub extern "C" fn scenes_copy_unchecked(
    state: ScenesState,
    keys: &mut [u64],
    times: &mut [u32],
    fields: &mut [u8],
    records: &mut [u64],
    request: CopyRequest,
    source: u8,
    target: u8,
) -> Outcome
    requires { sound (table_of state keys.old times.old fields.old records.old) ≡ true }
    ensures { let before = table_of state keys.old times.old fields.old records.old in
        let after = table_of result.state keys.new times.new fields.new records.new in
        result_of result.status result.save after ≡ copy_scene request (membership_of source) (membership_of target) before }
{
    Copies { state }.copy_scene(
        keys,
        times,
        fields,
        records,
        request,
        Membership::from(source),
        Membership::from(target),
    )
}

// The remaining capacity, and the scene ids of a group in the front of a lent buffer.
#[unsafe(no_mangle)]
pub extern "C" fn scenes_get_membership_unchecked(
    state: ScenesState,
    keys: &[u64],
    times: &[u32],
    fields: &[u8],
    records: &[u64],
    ids: &mut [u8],
    key: GroupKey,
    member: u8,
) -> ListRead
    requires { sound (table_of state keys.now times.now fields.now records.now) ≡ true }
    ensures { let table = table_of state keys.now times.now fields.now records.now in
        listed_of result ids.new ≡ get_scene_membership key (membership_of member) ids.old table }
{
    Reads { state }.get_scene_membership(
        keys,
        times,
        fields,
        records,
        ids,
        key,
        Membership::from(member),
    )
}

// The fabric's row of FabricSceneInfo on an endpoint; refused where `single` asks for one list element.
#[unsafe(no_mangle)]
pub extern "C" fn scenes_read_info_unchecked(
    state: ScenesState,
    keys: &[u64],
    times: &[u32],
    fields: &[u8],
    records: &[u64],
    fabric: u8,
    endpoint: u16,
    single: u8,
) -> InfoRead
    requires { sound (table_of state keys.now times.now fields.now records.now) ≡ true }
    ensures { let table = table_of state keys.now times.now fields.now records.now in
        result ≡ read_fabric_scene_info fabric endpoint (truth_of single) table }
{
    Reads { state }.read_fabric_scene_info(
        keys,
        times,
        fields,
        records,
        fabric,
        endpoint,
        truth(single),
    )
}

// Where the field bytes of the entry at a position lie in the lent slice: 0 and 0 past the entries, and with length 0.
#[unsafe(no_mangle)]
pub extern "C" fn scenes_field_bytes_unchecked(
    state: ScenesState,
    keys: &[u64],
    times: &[u32],
    fields: &[u8],
    records: &[u64],
    at: usize,
) -> FieldBytes
    requires { sound (table_of state keys.now times.now fields.now records.now) ≡ true }
    ensures { result ≡ field_place at (table_of state keys.now times.now fields.now records.now) }
{
    let len = Reads { state }
        .field_bytes(keys, times, fields, records, at)
        .len();
    FieldBytes::of_entry(at, len)
}

// A scenable attribute changed on an endpoint.
#[unsafe(no_mangle)]
pub extern "C" fn scenes_attribute_changed_unchecked(
    state: ScenesState,
    keys: &[u64],
    times: &[u32],
    fields: &[u8],
    records: &mut [u64],
    endpoint: u16,
) -> Outcome
    requires { sound (table_of state keys.now times.now fields.now records.old) ≡ true }
    ensures { let before = table_of state keys.now times.now fields.now records.old in
        let after = table_of result.state keys.now times.now fields.now records.new in
        result_of result.status result.save after ≡ scenable_attribute_changed endpoint before }
{
    Lifecycle { state }.scenable_attribute_changed(keys, times, fields, records, endpoint)
}

// A fabric left.
#[unsafe(no_mangle)]
pub extern "C" fn scenes_remove_fabric_unchecked(
    state: ScenesState,
    keys: &mut [u64],
    times: &mut [u32],
    fields: &mut [u8],
    records: &mut [u64],
    fabric: u8,
) -> Outcome
    requires { sound (table_of state keys.old times.old fields.old records.old) ≡ true }
    ensures { let before = table_of state keys.old times.old fields.old records.old in
        let after = table_of result.state keys.new times.new fields.new records.new in
        result_of result.status result.save after ≡ remove_for_fabric fabric before }
{
    Lifecycle { state }.remove_for_fabric(keys, times, fields, records, fabric)
}

// A factory reset.
#[unsafe(no_mangle)]
pub extern "C" fn scenes_factory_reset_unchecked(
    state: ScenesState,
    keys: &[u64],
    times: &[u32],
    fields: &[u8],
    records: &[u64],
) -> Outcome
    requires { sound (table_of state keys.now times.now fields.now records.now) ≡ true }
    ensures { let before = table_of state keys.now times.now fields.now records.now in
        let after = table_of result.state keys.now times.now fields.now records.now in
        result_of result.status result.save after ≡ factory_reset before }
{
    Lifecycle { state }.factory_reset(keys, times, fields, records)
}

// Writes the table's image into the front of a buffer.
#[unsafe(no_mangle)]
pub extern "C" fn scenes_save_image_unchecked(
    state: ScenesState,
    keys: &[u64],
    times: &[u32],
    fields: &[u8],
    records: &[u64],
    buffer: &mut [u8],
) -> ImageSaved
    requires { sound (table_of state keys.now times.now fields.now records.now) ≡ true }
    ensures { let table = table_of state keys.now times.now fields.now records.now in
        saved_of result buffer.new ≡ save_image buffer.old table }
{
    save_sound(state, keys, times, fields, records, buffer)
}

// Replaces the table's entries and records by those of an image.
#[unsafe(no_mangle)]
pub extern "C" fn scenes_load_image_unchecked(
    state: ScenesState,
    keys: &mut [u64],
    times: &mut [u32],
    fields: &mut [u8],
    records: &mut [u64],
    image: &[u8],
) -> Outcome
    requires { sound (table_of state keys.old times.old fields.old records.old) ≡ true }
    ensures { let before = table_of state keys.old times.old fields.old records.old in
        let after = table_of result.state keys.new times.new fields.new records.new in
        result_of result.status result.save after ≡ load_image image.now before }
{
    load_sound(state, keys, times, fields, records, image)
}

// A startup without a saved table.
#[unsafe(no_mangle)]
pub extern "C" fn scenes_startup_unchecked(
    state: ScenesState,
    keys: &[u64],
    times: &[u32],
    fields: &[u8],
    records: &[u64],
) -> Outcome
    requires { sound (table_of state keys.now times.now fields.now records.now) ≡ true }
    ensures { let before = table_of state keys.now times.now fields.now records.now in
        let after = table_of result.state keys.now times.now fields.now records.now in
        result_of result.status result.save after ≡ startup before }
{
    Lifecycle { state }.startup(keys, times, fields, records)
}

// The fail-safe was committed.
#[unsafe(no_mangle)]
pub extern "C" fn scenes_fail_safe_commit_unchecked(
    state: ScenesState,
    keys: &[u64],
    times: &[u32],
    fields: &[u8],
    records: &[u64],
) -> Outcome
    requires { sound (table_of state keys.now times.now fields.now records.now) ≡ true }
    ensures { let before = table_of state keys.now times.now fields.now records.now in
        let after = table_of result.state keys.now times.now fields.now records.now in
        result_of result.status result.save after ≡ fail_safe before }
{
    Lifecycle { state }.fail_safe_commit(keys, times, fields, records)
}

// The fail-safe expired.
#[unsafe(no_mangle)]
pub extern "C" fn scenes_fail_safe_expiry_unchecked(
    state: ScenesState,
    keys: &[u64],
    times: &[u32],
    fields: &[u8],
    records: &[u64],
) -> Outcome
    requires { sound (table_of state keys.now times.now fields.now records.now) ≡ true }
    ensures { let before = table_of state keys.now times.now fields.now records.now in
        let after = table_of result.state keys.now times.now fields.now records.now in
        result_of result.status result.save after ≡ fail_safe before }
{
    Lifecycle { state }.fail_safe_expiry(keys, times, fields, records)
}
