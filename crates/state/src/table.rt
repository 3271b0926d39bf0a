// The entries of a table: soundness, capacity, upsert, remove and retain.
ghost use Rattle.std.specs.Prelude.{◌≡◌, ◌+◌, ◌-◌, ◌*◌, ◌<◌, ◌≤◌, length, if◌then◌else◌, nat_eq};
ghost use Rattle.words.specs.Constants.{stride, max_fields};
ghost use Rattle.words.specs.Words.{word_of};
ghost use Rattle.slots.specs.Slots.{first_key, searched};
ghost use Rattle.state.specs.Table.{table_of, entries_of, with_entry_count, Room};
ghost use Rattle.state.specs.Sound.{in_bounds, sound};
ghost use Rattle.state.specs.Capacity.{room_for, remaining, share_mode, may_append, place_for};
ghost use Rattle.state.specs.Answer.{result_of};
ghost use Rattle.state.specs.Change.{saved, upsert, swap_remove, retain_outside};

use crate::{Modes, Outcome, ScenesState};
use records::Scope;
use slots::Unsound;
use words::{KeyRange, Limits, Refusal, SceneKey, Slot};

impl ScenesState {
    // Whether the counts are within the size, and the size within slices of these lengths.
    fn in_bounds(self, keys: usize, times: usize, fields: usize, records: usize) -> bool
        ensures { result ≡ in_bounds self keys times fields records }
    {
        let size = self.size;
        let entries = self.entries;
        let recorded = self.recorded;
        if Limits::MAX_SCENES < size {
            return false;
        }
        if size < entries {
            return false;
        }
        if size < recorded {
            return false;
        }
        if keys < size {
            return false;
        }
        if times < size {
            return false;
        }
        if fields < size * Slot::STRIDE {
            return false;
        }
        if records < size {
            return false;
        }
        true
    }

    // Whether the table is sound.
    pub fn is_sound(self, keys: &[u64], times: &[u32], fields: &[u8], records: &[u64]) -> bool
        ensures { result ≡ sound (table_of self keys.now times.now fields.now records.now) }
    {
        let entries = self.entries;
        let recorded = self.recorded;
        if self.in_bounds(keys.len(), times.len(), fields.len(), records.len()) {
            if slots::entries_sound(keys, fields, entries) {
                return records::records_sound(records, recorded);
            }
        }
        false
    }

    // Whether the table is sound and, if so, where a key word stands: one walk over the key words tells both.
    pub fn search(
        self,
        keys: &[u64],
        times: &[u32],
        fields: &[u8],
        records: &[u64],
        key: u64,
    ) -> Result<Option<usize>, Unsound>
        ensures { let table = table_of self keys.now times.now fields.now records.now in
            result ≡ searched (sound table) (first_key keys.now self.entries key) }
    {
        let entries = self.entries;
        let recorded = self.recorded;
        if self.in_bounds(keys.len(), times.len(), fields.len(), records.len()) {
            if records::records_sound(records, recorded) {
                return slots::search_entries(keys, fields, entries, key);
            }
        }
        Err(Unsound)
    }

    // How many scenes a fabric may still copy and, in share mode, add, before that is cut. A full table has room for none, whatever the fabric uses.
    pub fn room_for_fab(self, keys: &[u64], fabric: u8) -> usize
        requires { self.entries ≤ length keys.now }
        ensures { result ≡ room_for self keys.now fabric }
    {
        let size = self.size;
        let entries = self.entries;
        if size <= entries {
            return 0;
        }
        let used = slots::count(keys, entries, KeyRange::Fabric(fabric));
        let per_fab_remaining = ((size - 1) / 2).saturating_sub(used);
        let global_remaining = size - entries;
        per_fab_remaining.min(global_remaining)
    }

    // A fabric's remaining capacity, as it is reported. A copy looks at the room itself.
    pub fn remaining_capacity_for_fab(self, keys: &[u64], fabric: u8) -> u8
        requires { self.entries ≤ length keys.now }
        ensures { result ≡ remaining self keys.now fabric }
    {
        let room = self.room_for_fab(keys, fabric);
        room.min(Limits::MAX_REMAINING_CAPACITY) as u8
    }

    // Whether a fabric's share limits every new scene.
    fn share_mode(self) -> bool
        ensures { result ≡ share_mode self }
    {
        self.modes % 2 == Modes::SHARE
    }

    // Whether one more entry of a fabric fits: in share mode if the fabric has room, else if a place is free.
    fn may_append(self, keys: &[u64], fabric: u8) -> bool
        requires { self.entries ≤ length keys.now }
        ensures { result ≡ may_append self keys.now fabric }
    {
        if self.share_mode() {
            return 0 < self.room_for_fab(keys, fabric);
        }
        self.entries < self.size
    }

    // Where a scene of a fabric is written: where its key was found, or behind the last entry, if one more fits.
    pub fn place(self, keys: &[u64], found: Option<usize>, fabric: u8) -> Option<usize>
        requires { self.entries ≤ length keys.now }
        ensures { result ≡ place_for self keys.now fabric found }
    {
        let Some(at) = found else {
            let n = self.entries;
            if self.may_append(keys, fabric) {
                return Some(n);
            }
            return None;
        };
        Some(at)
    }

    // The head of a table with an entry written at a position: one more, if it is behind the last.
    fn with_entry(mut self, at: usize) -> ScenesState
        requires { at < self.size }
        ensures { result ≡ with_entry_count (if nat_eq at self.entries then at + 1 else self.entries) self }
    {
        if at == self.entries {
            self.entries = at + 1;
            return self;
        }
        self
    }

    // Writes a scene at its place, if it has one, and invalidates its records. The caller has decided the place: what is left here is small
    // enough that the compiler inlines it, and the table is not handed over once more.
    pub fn upsert_scene(
        self,
        keys: &mut [u64],
        times: &mut [u32],
        fields: &mut [u8],
        records: &mut [u64],
        place: Option<usize>,
        key: SceneKey,
        time: u32,
        ext: &[u8],
    ) -> Outcome
        requires room { Room (table_of self keys.old times.old fields.old records.old) }
        requires place_value { place ≡ place_for self keys.old key.fabric (first_key keys.old self.entries (word_of key)) }
        requires ext_len_bound { length ext.now ≤ max_fields }
        ensures { let before = table_of self keys.old times.old fields.old records.old in
            let after = table_of result.state keys.new times.new fields.new records.new in
            result_of result.status result.save after ≡ saved (upsert key time ext.now before) }
    {
        let Some(at) = place else {
            return Outcome::refused_by(Refusal::InsufficientSpace, self);
        };
        slot_writes::put(keys, times, fields, at, key.word(), time, ext);
        let state = self.with_entry(at);
        Outcome::saved(state.invalidate_current(records, Scope::Scene(key)))
    }

    // Removes the entry at a position: the last one takes its place.
    pub fn swap_remove(
        mut self,
        keys: &mut [u64],
        times: &mut [u32],
        fields: &mut [u8],
        at: usize,
    ) -> ScenesState
        requires at_lt_entries { at < self.entries }
        requires entries_in_bounds { self.entries ≤ length keys.old }
        requires entries_in_bounds_2 { self.entries ≤ length times.old }
        requires stride_in_bounds { self.entries * stride ≤ length fields.old }
        ensures { let before = entries_of self keys.old times.old fields.old in
            let after = entries_of result keys.new times.new fields.new in
            after ≡ swap_remove at before }
    {
        let last = self.entries - 1;
        slot_writes::copy_slot(keys, times, fields, last, at);
        self.entries = last;
        self
    }

    // Drops the entries whose key word lies in a range, and keeps the order of the others. The version does not step.
    pub fn retain(
        mut self,
        keys: &mut [u64],
        times: &mut [u32],
        fields: &mut [u8],
        range: KeyRange,
    ) -> ScenesState
        requires entries_in_bounds { self.entries ≤ length keys.old }
        requires entries_in_bounds_2 { self.entries ≤ length times.old }
        requires stride_in_bounds { self.entries * stride ≤ length fields.old }
        ensures { let before = entries_of self keys.old times.old fields.old in
            let after = entries_of result keys.new times.new fields.new in
            after ≡ retain_outside range before }
    {
        let entries = self.entries;
        let left = slot_writes::retain(keys, times, fields, entries, range);
        self.entries = left;
        self
    }
}
