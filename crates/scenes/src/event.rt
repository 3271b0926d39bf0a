// The attribute notice and the lifecycle calls.
ghost use Rattle.std.specs.Prelude.{◌≡◌};
ghost use Rattle.state.specs.Table.{table_of};
ghost use Rattle.state.specs.Answer.{result_of};
ghost use Rattle.lifecycle.specs.Lifecycle.{scenable_attribute_changed, remove_for_fabric, factory_reset, startup, fail_safe};

use crate::ScenesHandler;
use lifecycle::Lifecycle;
use state::Outcome;

impl ScenesHandler {
    // A scenable attribute changed on an endpoint: all fabrics' valid records there become invalid.
    pub fn scenable_attribute_changed(
        self,
        keys: &[u64],
        times: &[u32],
        fields: &[u8],
        records: &mut [u64],
        endpoint: u16,
    ) -> Outcome
        ensures { let before = table_of self.state keys.now times.now fields.now records.old in
            let after = table_of result.state keys.now times.now fields.now records.new in
            result_of result.status result.save after ≡ scenable_attribute_changed endpoint before }
    {
        let state = self.state;
        if state.is_sound(keys, times, fields, records) {
            return Lifecycle { state }.scenable_attribute_changed(
                keys, times, fields, records, endpoint,
            );
        }
        self.unsound()
    }

    // A fabric left: its entries and its records go.
    pub fn remove_for_fabric(
        self,
        keys: &mut [u64],
        times: &mut [u32],
        fields: &mut [u8],
        records: &mut [u64],
        fabric: u8,
    ) -> Outcome
        ensures { let before = table_of self.state keys.old times.old fields.old records.old in
            let after = table_of result.state keys.new times.new fields.new records.new in
            result_of result.status result.save after ≡ remove_for_fabric fabric before }
    {
        let state = self.state;
        if state.is_sound(keys, times, fields, records) {
            return Lifecycle { state }.remove_for_fabric(keys, times, fields, records, fabric);
        }
        self.unsound()
    }

    // A factory reset: an empty table, and a step of the data version. The host drops its image.
    pub fn factory_reset(
        self,
        keys: &[u64],
        times: &[u32],
        fields: &[u8],
        records: &[u64],
    ) -> Outcome
        ensures { let before = table_of self.state keys.now times.now fields.now records.now in
            let after = table_of result.state keys.now times.now fields.now records.now in
            result_of result.status result.save after ≡ factory_reset before }
    {
        let state = self.state;
        if state.is_sound(keys, times, fields, records) {
            return Lifecycle { state }.factory_reset(keys, times, fields, records);
        }
        self.unsound()
    }

    // A startup without a saved table: an empty table at the data version that it had.
    pub fn startup(self, keys: &[u64], times: &[u32], fields: &[u8], records: &[u64]) -> Outcome
        ensures { let before = table_of self.state keys.now times.now fields.now records.now in
            let after = table_of result.state keys.now times.now fields.now records.now in
            result_of result.status result.save after ≡ startup before }
    {
        let state = self.state;
        if state.is_sound(keys, times, fields, records) {
            return Lifecycle { state }.startup(keys, times, fields, records);
        }
        self.unsound()
    }

    // The fail-safe was committed: nothing changes.
    pub fn fail_safe_commit(
        self,
        keys: &[u64],
        times: &[u32],
        fields: &[u8],
        records: &[u64],
    ) -> Outcome
        ensures { let before = table_of self.state keys.now times.now fields.now records.now in
            let after = table_of result.state keys.now times.now fields.now records.now in
            result_of result.status result.save after ≡ fail_safe before }
    {
        let state = self.state;
        if state.is_sound(keys, times, fields, records) {
            return Lifecycle { state }.fail_safe_commit(keys, times, fields, records);
        }
        self.unsound()
    }

    // The fail-safe expired: nothing changes.
    pub fn fail_safe_expiry(
        self,
        keys: &[u64],
        times: &[u32],
        fields: &[u8],
        records: &[u64],
    ) -> Outcome
        ensures { let before = table_of self.state keys.now times.now fields.now records.now in
            let after = table_of result.state keys.now times.now fields.now records.now in
            result_of result.status result.save after ≡ fail_safe before }
    {
        let state = self.state;
        if state.is_sound(keys, times, fields, records) {
            return Lifecycle { state }.fail_safe_expiry(keys, times, fields, records);
        }
        self.unsound()
    }
}
