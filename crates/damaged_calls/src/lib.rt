// Every call of the scene table, by its number, in the order that `damaged` prints them.
#![tactic(auto)]

use commands::Applied;
use requests::{CopyRequest, GroupScene, Membership};
use scenes::ScenesHandler;
use state::{Outcome, ScenesState};
use words::{GroupKey, SceneId, SceneKey};

// The calls that change the table come first. A call is a number and no enum: `make` takes any number, and a narrower type would ask more
// of its callers.
const CHANGES: u8 = 12;

pub const CALLS: u8 = 18;

// What a call answered, with the head that it handed back, and whether it wrote to a scene list buffer.
#[derive(Clone, Copy)]
pub struct Done {
    pub status: u8,
    pub save: bool,
    pub listed: bool,
    pub state: ScenesState,
}

// The scene that the calls name.
pub fn key() -> SceneKey {
    SceneKey {
        fabric: 1,
        endpoint: 1,
        group: 0,
        scene: 5,
    }
}

// Every byte of a scene list buffer is 255 before a call, which is no scene's id.
fn ids_kept(ids: &[u8]) -> bool {
    ids.iter().all(|id| *id == SceneId::RESERVED_SCENE_ID)
}

fn outcome(o: Outcome) -> Done {
    let state = o.state;
    Done {
        status: o.status,
        save: o.save,
        listed: false,
        state,
    }
}

fn read(status: u8, state: ScenesState) -> Done {
    Done {
        status,
        save: false,
        listed: false,
        state,
    }
}

fn group() -> GroupKey {
    GroupKey {
        fabric: 1,
        endpoint: 1,
        group: 0,
    }
}

fn copied() -> CopyRequest {
    let from = GroupScene { group: 0, scene: 5 };
    let to = GroupScene { group: 1, scene: 6 };
    CopyRequest {
        fabric: 1,
        endpoint: 1,
        mode: 0,
        from,
        to,
    }
}

// The number of a table that is not sound, or 0.
fn sound_status(sound: bool) -> u8 {
    if sound {
        return words::Status::SUCCESS;
    }
    u8::from(words::Refusal::Unsound)
}

fn list(state: ScenesState, keys: &[u64], times: &[u32], fields: &[u8], records: &[u64]) -> Done {
    let yes = Membership::Yes;
    let mut ids = [SceneId::RESERVED_SCENE_ID; 3];
    let read = ScenesHandler { state }.get_scene_membership(
        keys,
        times,
        fields,
        records,
        &mut ids,
        group(),
        yes,
    );
    let after = read.state;
    Done {
        status: read.status,
        save: false,
        listed: !ids_kept(&ids),
        state: after,
    }
}

// The two calls that answer no status. The field bytes of the second entry are one byte in a sound table and none in any other.
fn test(
    call: u8,
    state: ScenesState,
    keys: &[u64],
    times: &[u32],
    fields: &[u8],
    records: &[u64],
) -> Done {
    if call == 16 {
        let sound = state.is_sound(keys, times, fields, records);
        return read(sound_status(sound), state);
    }
    let bytes = ScenesHandler { state }.field_bytes(keys, times, fields, records, 1);
    read(sound_status(bytes.len() == 1), state)
}

// The reads.
fn query(
    call: u8,
    state: ScenesState,
    keys: &[u64],
    times: &[u32],
    fields: &[u8],
    records: &[u64],
) -> Done {
    let yes = Membership::Yes;
    let stored = None;
    match call {
        12 => {
            let found = ScenesHandler { state }.view_scene(
                keys,
                times,
                fields,
                records,
                key(),
                yes,
            );
            let after = found.state;
            read(found.status, after)
        }
        13 => {
            let found = ScenesHandler { state }.recall_lookup(
                keys,
                times,
                fields,
                records,
                key(),
                yes,
                stored,
            );
            let after = found.state;
            read(found.status, after)
        }
        14 => list(state, keys, times, fields, records),
        15 => {
            let row = ScenesHandler { state }.read_fabric_scene_info(
                keys, times, fields, records, 1, 1, false,
            );
            let after = row.state;
            read(row.status, after)
        }
        _ => test(call, state, keys, times, fields, records),
    }
}

// Store, without its count.
fn store(
    state: ScenesState,
    keys: &mut [u64],
    times: &mut [u32],
    fields: &mut [u8],
    records: &mut [u64],
) -> Outcome {
    let yes = Membership::Yes;
    let done = ScenesHandler { state }.store_scene(keys, times, fields, records, key(), yes, b"");
    let after = done.state;
    Outcome {
        status: done.status,
        save: done.save,
        state: after,
    }
}

// Add, store, remove.
fn scene_command(
    call: u8,
    state: ScenesState,
    keys: &mut [u64],
    times: &mut [u32],
    fields: &mut [u8],
    records: &mut [u64],
) -> Outcome {
    let yes = Membership::Yes;
    match call {
        0 => ScenesHandler { state }.add_scene(
            keys,
            times,
            fields,
            records,
            key(),
            9,
            yes,
            b"",
            b"\x18",
        ),
        1 => store(state, keys, times, fields, records),
        _ => ScenesHandler { state }.remove_scene(keys, times, fields, records, key(), yes),
    }
}

// Remove all, copy, recall.
fn table_command(
    call: u8,
    state: ScenesState,
    keys: &mut [u64],
    times: &mut [u32],
    fields: &mut [u8],
    records: &mut [u64],
) -> Outcome {
    let yes = Membership::Yes;
    match call {
        3 => ScenesHandler { state }.remove_all_scenes(keys, times, fields, records, group(), yes),
        4 => ScenesHandler { state }.copy_scene(keys, times, fields, records, copied(), yes, yes),
        _ => ScenesHandler { state }.recall_scene(
            keys,
            times,
            fields,
            records,
            key(),
            yes,
            Applied::Yes,
        ),
    }
}

// The notice, fabric removal, factory reset.
fn event(
    call: u8,
    state: ScenesState,
    keys: &mut [u64],
    times: &mut [u32],
    fields: &mut [u8],
    records: &mut [u64],
) -> Outcome {
    match call {
        6 => ScenesHandler { state }.scenable_attribute_changed(keys, times, fields, records, 1),
        7 => ScenesHandler { state }.remove_for_fabric(keys, times, fields, records, 1),
        _ => ScenesHandler { state }.factory_reset(keys, times, fields, records),
    }
}

// Startup, and the two ends of a fail-safe.
fn restart(
    call: u8,
    state: ScenesState,
    keys: &mut [u64],
    times: &mut [u32],
    fields: &mut [u8],
    records: &mut [u64],
) -> Outcome {
    match call {
        9 => ScenesHandler { state }.startup(keys, times, fields, records),
        10 => ScenesHandler { state }.fail_safe_commit(keys, times, fields, records),
        _ => ScenesHandler { state }.fail_safe_expiry(keys, times, fields, records),
    }
}

// The calls that change the table.
fn change(
    call: u8,
    state: ScenesState,
    keys: &mut [u64],
    times: &mut [u32],
    fields: &mut [u8],
    records: &mut [u64],
) -> Outcome {
    match call {
        0..=2 => scene_command(call, state, keys, times, fields, records),
        3..=5 => table_command(call, state, keys, times, fields, records),
        6..=8 => event(call, state, keys, times, fields, records),
        _ => restart(call, state, keys, times, fields, records),
    }
}

// A call on a table, by its number.
pub fn make(
    call: u8,
    state: ScenesState,
    keys: &mut [u64],
    times: &mut [u32],
    fields: &mut [u8],
    records: &mut [u64],
) -> Done {
    if call < CHANGES {
        return outcome(change(call, state, keys, times, fields, records));
    }
    query(call, state, keys, times, fields, records)
}
