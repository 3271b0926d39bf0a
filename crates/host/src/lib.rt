// The calls of the scene table for hosts in C or Rust. Each is one call of the table; numbers stand for enums, and no reference
// comes back. A lent slice is a pointer and a count of elements.
#![tactic(auto)]

ghost use Rattle.std.specs.Prelude.{◌≡◌};
ghost use Rattle.state.specs.Table.{table_of, new_state, new_state_with};
ghost use Rattle.state.specs.Sound.{sound};
ghost use Rattle.state.specs.Answer.{result_of};
ghost use Rattle.commands.specs.Commands.{add_scene, remove_scene, remove_all_scenes, recall_scene};
ghost use Rattle.commands.specs.Counted.{counted_of, store_counted};
ghost use Rattle.copies.specs.Copy.{copy_scene};
ghost use Rattle.reads.specs.Reads.{view_scene, recall_lookup, listed_of, get_scene_membership, read_fabric_scene_info};
ghost use Rattle.lifecycle.specs.Lifecycle.{scenable_attribute_changed, remove_for_fabric, factory_reset, startup, fail_safe};
ghost use Rattle.image_save.specs.Saving.{saved_of, save_image};
ghost use Rattle.image_load.specs.Loading.{load_image};
ghost use Rattle.requests.specs.Requests.{membership_of};
ghost use Rattle.host_numbers.specs.Numbers.{applied_of, transition_of, truth_of};
ghost use Rattle.host_numbers.specs.Fields.{field_place};
ghost use Rattle.host.specs.Version.{interface_version};

use commands::Stored;
use host_numbers::{FieldBytes, application, transition, truth};
use image_load::load_image;
use image_save::{ImageSaved, save_image};
use reads::{InfoRead, ListRead, SceneRead};
use requests::{CopyRequest, Membership};
use scenes::ScenesHandler;
use state::{Outcome, ScenesState};
use words::{GroupKey, SceneKey};

// What a host is compiled for: a change of a struct, an answer or a call of the C header steps the version, here and there.
pub struct Interface;

impl Interface {
    pub const VERSION: u32 = 8;
}

// The version of the interface that the library has, for a host that may have been compiled for another.
#[unsafe(no_mangle)]
pub extern "C" fn scenes_version() -> u32
    ensures { result ≡ interface_version }
{
    Interface::VERSION
}

// The head of an empty table of `size` places without modes, at data version 0.
#[unsafe(no_mangle)]
pub extern "C" fn scenes_new(size: usize) -> ScenesState
    ensures { result ≡ new_state size }
{
    ScenesState::new(size)
}

// The same, with modes, which every call keeps: bit 0 is the share mode, the other bits mean nothing.
#[unsafe(no_mangle)]
pub extern "C" fn scenes_new_with_modes(size: usize, modes: u8) -> ScenesState
    ensures { result ≡ new_state_with size modes }
{
    ScenesState::with_modes(size, modes)
}

// Whether the table is sound. Where it is not, the calls that answer a status answer 6.
#[unsafe(no_mangle)]
pub extern "C" fn scenes_is_sound(
    state: ScenesState,
    keys: &[u64],
    times: &[u32],
    fields: &[u8],
    records: &[u64],
) -> bool
    ensures { result ≡ sound (table_of state keys.now times.now fields.now records.now) }
{
    state.is_sound(keys, times, fields, records)
}

// Adds a scene, or gives it a new time and new fields.
#[unsafe(no_mangle)]
pub extern "C" fn scenes_add(
    state: ScenesState,
    keys: &mut [u64],
    times: &mut [u32],
    fields: &mut [u8],
    records: &mut [u64],
    key: SceneKey,
    time: u32,
    member: u8,
    pairs: &[u8],
    ext: &[u8],
) -> Outcome
    ensures { let before = table_of state keys.old times.old fields.old records.old in
        let after = table_of result.state keys.new times.new fields.new records.new in
        result_of result.status result.save after ≡ add_scene key time (membership_of member) pairs.now ext.now before }
{
    ScenesHandler { state }.add_scene(
        keys,
        times,
        fields,
        records,
        key,
        time,
        Membership::from(member),
        pairs,
        ext,
    )
}

// Stores captured bytes as a scene, which becomes the fabric's current one, and counts the key words that it compared.
#[unsafe(no_mangle)]
pub extern "C" fn scenes_store(
    state: ScenesState,
    keys: &mut [u64],
    times: &mut [u32],
    fields: &mut [u8],
    records: &mut [u64],
    key: SceneKey,
    member: u8,
    captured: &[u8],
) -> Stored
    ensures { let before = table_of state keys.old times.old fields.old records.old in
        let after = table_of result.state keys.new times.new fields.new records.new in
        counted_of (result_of result.status result.save after) result.compared ≡ store_counted key (membership_of member) captured.now before }
{
    ScenesHandler { state }.store_scene(
        keys,
        times,
        fields,
        records,
        key,
        Membership::from(member),
        captured,
    )
}

// A scene's time and position.
#[unsafe(no_mangle)]
pub extern "C" fn scenes_view(
    state: ScenesState,
    keys: &[u64],
    times: &[u32],
    fields: &[u8],
    records: &[u64],
    key: SceneKey,
    member: u8,
) -> SceneRead
    ensures { let table = table_of state keys.now times.now fields.now records.now in
        result ≡ view_scene key (membership_of member) table }
{
    ScenesHandler { state }.view_scene(keys, times, fields, records, key, Membership::from(member))
}

// What a recall applies: the time, by the override where `given` is not 0, and the scene's position.
#[unsafe(no_mangle)]
pub extern "C" fn scenes_recall_lookup(
    state: ScenesState,
    keys: &[u64],
    times: &[u32],
    fields: &[u8],
    records: &[u64],
    key: SceneKey,
    member: u8,
    given: u8,
    time: u32,
) -> SceneRead
    ensures { let table = table_of state keys.now times.now fields.now records.now in
        result ≡ recall_lookup key (membership_of member) (transition_of given time) table }
{
    ScenesHandler { state }.recall_lookup(
        keys,
        times,
        fields,
        records,
        key,
        Membership::from(member),
        transition(given, time),
    )
}

// Ends a recall, once the host has applied the scene or could not.
#[unsafe(no_mangle)]
pub extern "C" fn scenes_recall(
    state: ScenesState,
    keys: &[u64],
    times: &[u32],
    fields: &[u8],
    records: &mut [u64],
    key: SceneKey,
    member: u8,
    applied: u8,
) -> Outcome
    ensures { let before = table_of state keys.now times.now fields.now records.old in
        let after = table_of result.state keys.now times.now fields.now records.new in
        result_of result.status result.save after ≡ recall_scene key (membership_of member) (applied_of applied) before }
{
    ScenesHandler { state }.recall_scene(
        keys,
        times,
        fields,
        records,
        key,
        Membership::from(member),
        application(applied),
    )
}

// Removes a scene.
#[unsafe(no_mangle)]
pub extern "C" fn scenes_remove(
    state: ScenesState,
    keys: &mut [u64],
    times: &mut [u32],
    fields: &mut [u8],
    records: &mut [u64],
    key: SceneKey,
    member: u8,
) -> Outcome
    ensures { let before = table_of state keys.old times.old fields.old records.old in
        let after = table_of result.state keys.new times.new fields.new records.new in
        result_of result.status result.save after ≡ remove_scene key (membership_of member) before }
{
    ScenesHandler { state }.remove_scene(
        keys,
        times,
        fields,
        records,
        key,
        Membership::from(member),
    )
}

// Removes all scenes of a group on an endpoint.
#[unsafe(no_mangle)]
pub extern "C" fn scenes_remove_all(
    state: ScenesState,
    keys: &mut [u64],
    times: &mut [u32],
    fields: &mut [u8],
    records: &mut [u64],
    key: GroupKey,
    member: u8,
) -> Outcome
    ensures { let before = table_of state keys.old times.old fields.old records.old in
        let after = table_of result.state keys.new times.new fields.new records.new in
        result_of result.status result.save after ≡ remove_all_scenes key (membership_of member) before }
{
    ScenesHandler { state }.remove_all_scenes(
        keys,
        times,
        fields,
        records,
        key,
        Membership::from(member),
    )
}

// Copies a scene, or with bit 0 of the mode a whole group.
#[unsafe(no_mangle)]
pub extern "C" fn scenes_copy(
    state: ScenesState,
    keys: &mut [u64],
    times: &mut [u32],
    fields: &mut [u8],
    records: &mut [u64],
    request: CopyRequest,
    source: u8,
    target: u8,
) -> Outcome
    ensures { let before = table_of state keys.old times.old fields.old records.old in
        let after = table_of result.state keys.new times.new fields.new records.new in
        result_of result.status result.save after ≡ copy_scene request (membership_of source) (membership_of target) before }
{
    ScenesHandler { state }.copy_scene(
        keys,
        times,
        fields,
        records,
        request,
        Membership::from(source),
        Membership::from(target),
    )
}

// The remaining capacity, and the scene ids of a group in the front of a lent buffer.
#[unsafe(no_mangle)]
pub extern "C" fn scenes_get_membership(
    state: ScenesState,
    keys: &[u64],
    times: &[u32],
    fields: &[u8],
    records: &[u64],
    ids: &mut [u8],
    key: GroupKey,
    member: u8,
) -> ListRead
    ensures { let table = table_of state keys.now times.now fields.now records.now in
        listed_of result ids.new ≡ get_scene_membership key (membership_of member) ids.old table }
{
    ScenesHandler { state }.get_scene_membership(
        keys,
        times,
        fields,
        records,
        ids,
        key,
        Membership::from(member),
    )
}

// The fabric's row of FabricSceneInfo on an endpoint; refused where `single` asks for one list element.
#[unsafe(no_mangle)]
pub extern "C" fn scenes_read_info(
    state: ScenesState,
    keys: &[u64],
    times: &[u32],
    fields: &[u8],
    records: &[u64],
    fabric: u8,
    endpoint: u16,
    single: u8,
) -> InfoRead
    ensures { let table = table_of state keys.now times.now fields.now records.now in
        result ≡ read_fabric_scene_info fabric endpoint (truth_of single) table }
{
    ScenesHandler { state }.read_fabric_scene_info(
        keys,
        times,
        fields,
        records,
        fabric,
        endpoint,
        truth(single),
    )
}

// Where the field bytes of the entry at a position lie in the lent slice: 0 and 0 past the entries, with length 0, or in a table that is
// not sound.
#[unsafe(no_mangle)]
pub extern "C" fn scenes_field_bytes(
    state: ScenesState,
    keys: &[u64],
    times: &[u32],
    fields: &[u8],
    records: &[u64],
    at: usize,
) -> FieldBytes
    ensures { result ≡ field_place at (table_of state keys.now times.now fields.now records.now) }
{
    let len = ScenesHandler { state }
        .field_bytes(keys, times, fields, records, at)
        .len();
    FieldBytes::of_entry(at, len)
}

// A scenable attribute changed on an endpoint.
#[unsafe(no_mangle)]
pub extern "C" fn scenes_attribute_changed(
    state: ScenesState,
    keys: &[u64],
    times: &[u32],
    fields: &[u8],
    records: &mut [u64],
    endpoint: u16,
) -> Outcome
    ensures { let before = table_of state keys.now times.now fields.now records.old in
        let after = table_of result.state keys.now times.now fields.now records.new in
        result_of result.status result.save after ≡ scenable_attribute_changed endpoint before }
{
    ScenesHandler { state }.scenable_attribute_changed(keys, times, fields, records, endpoint)
}

// A fabric left.
#[unsafe(no_mangle)]
pub extern "C" fn scenes_remove_fabric(
    state: ScenesState,
    keys: &mut [u64],
    times: &mut [u32],
    fields: &mut [u8],
    records: &mut [u64],
    fabric: u8,
) -> Outcome
    ensures { let before = table_of state keys.old times.old fields.old records.old in
        let after = table_of result.state keys.new times.new fields.new records.new in
        result_of result.status result.save after ≡ remove_for_fabric fabric before }
{
    ScenesHandler { state }.remove_for_fabric(keys, times, fields, records, fabric)
}

// A factory reset.
#[unsafe(no_mangle)]
pub extern "C" fn scenes_factory_reset(
    state: ScenesState,
    keys: &[u64],
    times: &[u32],
    fields: &[u8],
    records: &[u64],
) -> Outcome
    ensures { let before = table_of state keys.now times.now fields.now records.now in
        let after = table_of result.state keys.now times.now fields.now records.now in
        result_of result.status result.save after ≡ factory_reset before }
{
    ScenesHandler { state }.factory_reset(keys, times, fields, records)
}

// Writes the table's image into the front of a buffer.
#[unsafe(no_mangle)]
pub extern "C" fn scenes_save_image(
    state: ScenesState,
    keys: &[u64],
    times: &[u32],
    fields: &[u8],
    records: &[u64],
    buffer: &mut [u8],
) -> ImageSaved
    ensures { let table = table_of state keys.now times.now fields.now records.now in
        saved_of result buffer.new ≡ save_image buffer.old table }
{
    save_image(state, keys, times, fields, records, buffer)
}

// Replaces the table's entries and records by those of an image.
#[unsafe(no_mangle)]
pub extern "C" fn scenes_load_image(
    state: ScenesState,
    keys: &mut [u64],
    times: &mut [u32],
    fields: &mut [u8],
    records: &mut [u64],
    image: &[u8],
) -> Outcome
    ensures { let before = table_of state keys.old times.old fields.old records.old in
        let after = table_of result.state keys.new times.new fields.new records.new in
        result_of result.status result.save after ≡ load_image image.now before }
{
    load_image(state, keys, times, fields, records, image)
}

// A startup without a saved table.
#[unsafe(no_mangle)]
pub extern "C" fn scenes_startup(
    state: ScenesState,
    keys: &[u64],
    times: &[u32],
    fields: &[u8],
    records: &[u64],
) -> Outcome
    ensures { let before = table_of state keys.now times.now fields.now records.now in
        let after = table_of result.state keys.now times.now fields.now records.now in
        result_of result.status result.save after ≡ startup before }
{
    ScenesHandler { state }.startup(keys, times, fields, records)
}

// The fail-safe was committed.
#[unsafe(no_mangle)]
pub extern "C" fn scenes_fail_safe_commit(
    state: ScenesState,
    keys: &[u64],
    times: &[u32],
    fields: &[u8],
    records: &[u64],
) -> Outcome
    ensures { let before = table_of state keys.now times.now fields.now records.now in
        let after = table_of result.state keys.now times.now fields.now records.now in
        result_of result.status result.save after ≡ fail_safe before }
{
    ScenesHandler { state }.fail_safe_commit(keys, times, fields, records)
}

// The fail-safe expired.
#[unsafe(no_mangle)]
pub extern "C" fn scenes_fail_safe_expiry(
    state: ScenesState,
    keys: &[u64],
    times: &[u32],
    fields: &[u8],
    records: &[u64],
) -> Outcome
    ensures { let before = table_of state keys.now times.now fields.now records.now in
        let after = table_of result.state keys.now times.now fields.now records.now in
        result_of result.status result.save after ≡ fail_safe before }
{
    ScenesHandler { state }.fail_safe_expiry(keys, times, fields, records)
}
