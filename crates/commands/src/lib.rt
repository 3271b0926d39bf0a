// The commands that change a table that is known to be sound, apart from copies. Each has that one condition, and the outward call of the same
// name meets it by its test. Beside them is `store_found`, for a caller that has found the scene too, as the test of the outward store does.
#![tactic(auto)]

ghost use Rattle.std.specs.Prelude.{◌≡◌, true, false, [], ◌∷◌, ◌++◌, ◌+◌, ◌<◌, ◌≤◌, length, take};
ghost use Rattle.words.specs.Constants.{end_of_container, max_fields};
ghost use Rattle.words.specs.Refusals.{number_of};
ghost use Rattle.words.specs.Words.{word_of};
ghost use Rattle.slots.specs.Slots.{first_key};
ghost use Rattle.state.specs.Table.{table_of, Room};
ghost use Rattle.state.specs.Sound.{sound};
ghost use Rattle.state.specs.Answer.{result_of};
ghost use Rattle.commands.specs.Commands.{add_scene, prior_time, store_captured, remove_scene, remove_all_scenes, recall_scene};
ghost use Rattle.commands.specs.Counted.{keys_compared, counted_of, counted, store_counted};

use records::Scope;
use requests::Membership;
use state::{Outcome, ScenesState};
use words::{GroupKey, KeyRange, Limits, Refusal, SceneKey, Slot, Status};

// The head of a table that is known to be sound.
#[derive(Clone, Copy)]
pub struct Commands {
    pub state: ScenesState,
}

// Whether the host applied a recalled scene.
#[derive(Clone, Copy)]
pub enum Applied {
    Yes,
    Failed,
}

// What a store answers: as an outcome and, for the host alone, how many key words it held against the wanted one.
#[repr(C)]
#[derive(Clone, Copy)]
pub struct Stored {
    pub state: ScenesState,
    pub status: u8,
    pub save: bool,
    pub compared: usize,
}

impl Stored {
    // A refusal counts none.
    pub fn refused(status: u8, state: ScenesState) -> Stored
        ensures { result ≡ record { status = status; save = false; state = state; compared = 0 } }
    {
        Stored {
            status,
            save: false,
            compared: 0,
            state,
        }
    }

    // The same, by the refusal itself.
    pub fn refused_by(refusal: Refusal, state: ScenesState) -> Stored
        ensures { result ≡ record { status = number_of refusal; save = false; state = state; compared = 0 } }
    {
        Stored::refused(u8::from(refusal), state)
    }
}

// How many of n key words were held against the wanted one: up to the first match, or all.
fn keys_compared(found: Option<usize>, n: usize) -> usize
    requires { keys_compared found n ≤ n }
    ensures { result ≡ keys_compared found n }
{
    match found {
        Some(at) => at + 1,
        None => n,
    }
}

// The time of the entry that was found, or 0.
fn prior_time(found: Option<usize>, times: &[u32]) -> u32
    ensures { result ≡ prior_time found times.now }
{
    let Some(at) = found else {
        return 0;
    };
    if at < times.len() {
        return times[at];
    }
    0
}

// Copies captured bytes to the front of a scratch buffer, and the end of a TLV array behind them. How many bytes they are then.
fn end_capture(scratch: &mut [u8], captured: &[u8]) -> usize
    requires { length captured.now < length scratch.old }
    ensures { (result ≡ length captured.now + 1) × (take result scratch.new ≡ captured.now ++ (end_of_container ∷ [])) }
{
    let len = captured.len();
    scratch[..len].copy_from_slice(captured);
    scratch[len] = Slot::END_OF_CONTAINER;
    len + 1
}

impl Commands {
    // Adds a scene, or gives it a new time and new fields.
    pub fn add_scene(
        self,
        keys: &mut [u64],
        times: &mut [u32],
        fields: &mut [u8],
        records: &mut [u64],
        key: SceneKey,
        time: u32,
        member: Membership,
        pairs: &[u8],
        ext: &[u8],
    ) -> Outcome
        requires { sound (table_of self.state keys.old times.old fields.old records.old) ≡ true }
        ensures { let before = table_of self.state keys.old times.old fields.old records.old in
            let after = table_of result.state keys.new times.new fields.new records.new in
            result_of result.status result.save after ≡ add_scene key time member pairs.now ext.now before }
    {
        let state = self.state;
        let limit = Limits::MAX_EXT_FIELDS_LEN;
        if let Err(refusal) = requests::add_gate(key, time, member, pairs, limit, ext.len()) {
            return Outcome::refused_by(refusal, state);
        }
        let n = state.entries;
        let found = slots::find(keys, n, key.word());
        let place = state.place(keys, found, key.fabric);
        state.upsert_scene(keys, times, fields, records, place, key, time, ext)
    }

    // Stores captured bytes as a scene, and remembers it as the fabric's current one.
    pub fn store_scene(
        self,
        keys: &mut [u64],
        times: &mut [u32],
        fields: &mut [u8],
        records: &mut [u64],
        key: SceneKey,
        member: Membership,
        captured: &[u8],
    ) -> Stored
        requires { sound (table_of self.state keys.old times.old fields.old records.old) ≡ true }
        ensures { let before = table_of self.state keys.old times.old fields.old records.old in
            let after = table_of result.state keys.new times.new fields.new records.new in
            counted_of (result_of result.status result.save after) result.compared ≡ store_counted key member captured.now before }
    {
        let n = self.state.entries;
        let found = slots::find(keys, n, key.word());
        self.store_found(keys, times, fields, records, found, key, member, captured)
    }

    // Stores captured bytes as a scene, and remembers it as the fabric's current one. Whoever calls has found where the scene stands.
    pub fn store_found(
        self,
        keys: &mut [u64],
        times: &mut [u32],
        fields: &mut [u8],
        records: &mut [u64],
        found: Option<usize>,
        key: SceneKey,
        member: Membership,
        captured: &[u8],
    ) -> Stored
        requires records_value { sound (table_of self.state keys.old times.old fields.old records.old) ≡ true }
        requires found_value { found ≡ first_key keys.old self.state.entries (word_of key) }
        ensures { let before = table_of self.state keys.old times.old fields.old records.old in
            let after = table_of result.state keys.new times.new fields.new records.new in
            counted_of (result_of result.status result.save after) result.compared ≡ store_counted key member captured.now before }
    {
        let state = self.state;
        let limit = Limits::MAX_EXT_FIELDS_LEN;
        if let Err(refusal) = requests::store_gate(key, member, limit, captured.len()) {
            return Stored::refused_by(refusal, state);
        }
        self.store_captured(keys, times, fields, records, found, key, captured)
    }

    // Stores captured bytes over the scene, or as a new one with time 0.
    fn store_captured(
        self,
        keys: &mut [u64],
        times: &mut [u32],
        fields: &mut [u8],
        records: &mut [u64],
        found: Option<usize>,
        key: SceneKey,
        captured: &[u8],
    ) -> Stored
        requires room { Room (table_of self.state keys.old times.old fields.old records.old) }
        requires found_value { found ≡ first_key keys.old self.state.entries (word_of key) }
        requires captured_len_bound { length captured.now < max_fields }
        ensures { let before = table_of self.state keys.old times.old fields.old records.old in
            let after = table_of result.state keys.new times.new fields.new records.new in
            let answered = counted_of (result_of result.status result.save after) result.compared in
            answered ≡ counted key before (store_captured key captured.now before) }
    {
        let mut scratch = [0u8; Limits::MAX_EXT_FIELDS_LEN];
        let len = end_capture(&mut scratch, captured);
        let before = self.state;
        let time = prior_time(found, times);
        let place = before.place(keys, found, key.fabric);
        let done = before.upsert_scene(
            keys,
            times,
            fields,
            records,
            place,
            key,
            time,
            &scratch[..len],
        );
        let status = done.status;
        let state = done.state;
        if status != Status::SUCCESS {
            return Stored::refused(status, state);
        }
        Stored {
            status: Status::SUCCESS,
            save: true,
            compared: keys_compared(found, before.entries),
            state: state.remember_current(records, key),
        }
    }

    // Removes a scene: the last entry takes its place.
    pub fn remove_scene(
        self,
        keys: &mut [u64],
        times: &mut [u32],
        fields: &mut [u8],
        records: &mut [u64],
        key: SceneKey,
        member: Membership,
    ) -> Outcome
        requires { sound (table_of self.state keys.old times.old fields.old records.old) ≡ true }
        ensures { let before = table_of self.state keys.old times.old fields.old records.old in
            let after = table_of result.state keys.new times.new fields.new records.new in
            result_of result.status result.save after ≡ remove_scene key member before }
    {
        let state = self.state;
        if let Err(refusal) = requests::lookup_gate(key, member) {
            return Outcome::refused_by(refusal, state);
        }
        let n = state.entries;
        let Some(at) = slots::find(keys, n, key.word()) else {
            return Outcome::refused_by(Refusal::NotFound, state);
        };
        let shorter = state.swap_remove(keys, times, fields, at);
        Outcome::saved(shorter.invalidate_current(records, Scope::Scene(key)))
    }

    // Removes all scenes of a group on an endpoint.
    pub fn remove_all_scenes(
        self,
        keys: &mut [u64],
        times: &mut [u32],
        fields: &mut [u8],
        records: &mut [u64],
        key: GroupKey,
        member: Membership,
    ) -> Outcome
        requires { sound (table_of self.state keys.old times.old fields.old records.old) ≡ true }
        ensures { let before = table_of self.state keys.old times.old fields.old records.old in
            let after = table_of result.state keys.new times.new fields.new records.new in
            result_of result.status result.save after ≡ remove_all_scenes key member before }
    {
        let state = self.state;
        if let Err(refusal) = requests::group_gate(key, member) {
            return Outcome::refused_by(refusal, state);
        }
        let before = state.entries;
        let left = state.retain(keys, times, fields, KeyRange::Group(key));
        if left.entries == before {
            return Outcome::unsaved(Status::SUCCESS, left);
        }
        Outcome::saved(left.invalidate_current(records, Scope::Group(key)))
    }

    // Ends a recall: a scene that the host has applied becomes the fabric's current one.
    pub fn recall_scene(
        self,
        keys: &[u64],
        times: &[u32],
        fields: &[u8],
        records: &mut [u64],
        key: SceneKey,
        member: Membership,
        applied: Applied,
    ) -> Outcome
        requires { sound (table_of self.state keys.now times.now fields.now records.old) ≡ true }
        ensures { let before = table_of self.state keys.now times.now fields.now records.old in
            let after = table_of result.state keys.now times.now fields.now records.new in
            result_of result.status result.save after ≡ recall_scene key member applied before }
    {
        let state = self.state;
        if let Err(refusal) = requests::lookup_gate(key, member) {
            return Outcome::refused_by(refusal, state);
        }
        let n = state.entries;
        let Some(_) = slots::find(keys, n, key.word()) else {
            return Outcome::refused_by(Refusal::NotFound, state);
        };
        match applied {
            Applied::Yes => Outcome::saved(state.remember_current(records, key)),
            Applied::Failed => Outcome::refused_by(Refusal::ApplyFailed, state),
        }
    }
}
