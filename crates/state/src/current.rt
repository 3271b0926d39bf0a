// The current records of a table: remembered and invalidated, with the steps of the data version.
ghost use Rattle.std.specs.Prelude.{◌≡◌, ◌≤◌, true, length};
ghost use Rattle.state.specs.Table.{current_of, bump_if};
ghost use Rattle.state.specs.Current.{remember_current, invalidate_current};

use crate::ScenesState;
use records::Scope;
use words::SceneKey;

impl ScenesState {
    // One step of the data version, which wraps.
    pub fn bump_info_dataver(mut self) -> ScenesState
        ensures { result ≡ bump_if true self }
    {
        self.dataver = std::num::wrapping_add_u32(self.dataver, 1);
        self
    }

    // Makes a scene its fabric's valid current record, or drops it where the list is full. The version steps either way.
    pub fn remember_current(mut self, records: &mut [u64], key: SceneKey) -> ScenesState
        requires recorded_le_size { self.recorded ≤ self.size }
        requires size_in_bounds { self.size ≤ length records.old }
        ensures { current_of result records.new ≡ remember_current key (current_of self records.old) }
    {
        let n = self.recorded;
        let size = self.size;
        let count = records::remember(records, n, size, key);
        self.recorded = count;
        self.bump_info_dataver()
    }

    // Makes each valid record in a scope invalid, with one version step if there was one
    // (`invalidate_current_if_match_scene`, `invalidate_current_if_match_group` and the body of `scenable_attribute_changed`).
    pub fn invalidate_current(self, records: &mut [u64], scope: Scope) -> ScenesState
        requires { self.recorded ≤ length records.old }
        ensures { current_of result records.new ≡ invalidate_current scope (current_of self records.old) }
    {
        let n = self.recorded;
        if records::clear(records, n, scope) {
            return self.bump_info_dataver();
        }
        self
    }
}
