// The attribute notice and the lifecycle calls on a table that is known to be sound. Each has that one condition, which the outward call of
// the same name meets by a test.
#![tactic(auto)]

ghost use Rattle.std.specs.Prelude.{◌≡◌, true};
ghost use Rattle.state.specs.Table.{table_of};
ghost use Rattle.state.specs.Sound.{sound};
ghost use Rattle.state.specs.Answer.{result_of};
ghost use Rattle.lifecycle.specs.Lifecycle.{scenable_attribute_changed, remove_for_fabric, factory_reset, startup, fail_safe};

use records::Scope;
use state::{Outcome, ScenesState};
use words::{KeyRange, Status};

// The head of a table that is known to be sound.
#[derive(Clone, Copy)]
pub struct Lifecycle {
    pub state: ScenesState,
}

impl Lifecycle {
    // A scenable attribute changed on an endpoint: all fabrics' valid records there become invalid.
    pub fn scenable_attribute_changed(
        self,
        keys: &[u64],
        times: &[u32],
        fields: &[u8],
        records: &mut [u64],
        endpoint: u16,
    ) -> Outcome
        requires { sound (table_of self.state keys.now times.now fields.now records.old) ≡ true }
        ensures { let before = table_of self.state keys.now times.now fields.now records.old in
            let after = table_of result.state keys.now times.now fields.now records.new in
            result_of result.status result.save after ≡ scenable_attribute_changed endpoint before }
    {
        let state = self.state;
        Outcome::unsaved(
            Status::SUCCESS,
            state.invalidate_current(records, Scope::Endpoint(endpoint)),
        )
    }

    // A fabric left: its entries and its records go.
    pub fn remove_for_fabric(
        self,
        keys: &mut [u64],
        times: &mut [u32],
        fields: &mut [u8],
        records: &mut [u64],
        fabric: u8,
    ) -> Outcome
        requires { sound (table_of self.state keys.old times.old fields.old records.old) ≡ true }
        ensures { let before = table_of self.state keys.old times.old fields.old records.old in
            let after = table_of result.state keys.new times.new fields.new records.new in
            result_of result.status result.save after ≡ remove_for_fabric fabric before }
    {
        let before = self.state;
        if let Err(refusal) = requests::fabric_gate(fabric) {
            return Outcome::refused_by(refusal, before);
        }
        let entries = before.entries;
        let recorded = before.recorded;
        let mut state = before.retain(keys, times, fields, KeyRange::Fabric(fabric));
        let left = records::retain(records, recorded, fabric);
        state.recorded = left;
        if state.entries + left < entries + recorded {
            return Outcome::saved(state.bump_info_dataver());
        }
        Outcome::unsaved(Status::SUCCESS, state)
    }

    // A factory reset: an empty table, and a step of the data version. The host drops its image.
    pub fn factory_reset(
        self,
        keys: &[u64],
        times: &[u32],
        fields: &[u8],
        records: &[u64],
    ) -> Outcome
        requires { sound (table_of self.state keys.now times.now fields.now records.now) ≡ true }
        ensures { let before = table_of self.state keys.now times.now fields.now records.now in
            let after = table_of result.state keys.now times.now fields.now records.now in
            result_of result.status result.save after ≡ factory_reset before }
    {
        let state = self.state;
        Outcome::unsaved(Status::SUCCESS, state.emptied().bump_info_dataver())
    }

    // A startup without a saved table: an empty table at the data version that it had.
    pub fn startup(self, keys: &[u64], times: &[u32], fields: &[u8], records: &[u64]) -> Outcome
        requires { sound (table_of self.state keys.now times.now fields.now records.now) ≡ true }
        ensures { let before = table_of self.state keys.now times.now fields.now records.now in
            let after = table_of result.state keys.now times.now fields.now records.now in
            result_of result.status result.save after ≡ startup before }
    {
        let state = self.state;
        Outcome::unsaved(Status::SUCCESS, state.emptied())
    }

    // The fail-safe was committed: nothing changes.
    pub fn fail_safe_commit(
        self,
        keys: &[u64],
        times: &[u32],
        fields: &[u8],
        records: &[u64],
    ) -> Outcome
        requires { sound (table_of self.state keys.now times.now fields.now records.now) ≡ true }
        ensures { let before = table_of self.state keys.now times.now fields.now records.now in
            let after = table_of result.state keys.now times.now fields.now records.now in
            result_of result.status result.save after ≡ fail_safe before }
    {
        let state = self.state;
        Outcome::unsaved(Status::SUCCESS, state)
    }

    // The fail-safe expired: nothing changes.
    pub fn fail_safe_expiry(
        self,
        keys: &[u64],
        times: &[u32],
        fields: &[u8],
        records: &[u64],
    ) -> Outcome
        requires { sound (table_of self.state keys.now times.now fields.now records.now) ≡ true }
        ensures { let before = table_of self.state keys.now times.now fields.now records.now in
            let after = table_of result.state keys.now times.now fields.now records.now in
            result_of result.status result.save after ≡ fail_safe before }
    {
        let state = self.state;
        Outcome::unsaved(Status::SUCCESS, state)
    }
}
