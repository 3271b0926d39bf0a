// The calls that change scenes and memberships together: leaving a group, a fabric's removal and a factory reset.
ghost use Rattle.std.specs.Prelude.{◌≡◌, false, ◌≤◌, length};
ghost use Rattle.words.specs.Refusals.{number_of, status_of};
ghost use Rattle.state.specs.Table.{table_of};
ghost use Rattle.state.specs.Answer.{result_of};
ghost use Rattle.groups.specs.Groups.{groups_of};
ghost use Rattle.asking.specs.Asking.{both_of, leave_gate, leave_group, remove_for_fabric_both, factory_reset_both};

use crate::{AskingHandler, BothOutcome};
use commands::Commands;
use groups::GroupsState;
use requests::Membership;
use scenes::ScenesHandler;
use state::Outcome;
use words::{GroupKey, KeyRange, Refusal, Status};

impl AskingHandler {
    // An answer, with the heads that it leaves.
    fn ended(done: Outcome, groups: GroupsState) -> BothOutcome
        ensures { result ≡ record { state = done.state; groups = groups; status = done.status; save = done.save } }
    {
        let state = done.state;
        BothOutcome {
            state,
            groups,
            status: done.status,
            save: done.save,
        }
    }

    // A refusal changes neither.
    fn refused(self, refusal: Refusal) -> BothOutcome
        ensures { result ≡ record { state = self.state; groups = self.groups; status = number_of refusal; save = false } }
    {
        let state = self.state;
        AskingHandler::ended(Outcome::refused_by(refusal, state), self.groups)
    }

    // The tests of a leave on sound tables.
    #[tactic(auto, using(requests::proofs::Laws::first_refusals), unfolding(crate::specs::Asking::leave_gate))]
    fn leave_gate(self, words: &[u64], key: GroupKey) -> Result<(), Refusal>
        requires { self.groups.held ≤ length words.now }
        ensures { status_of result ≡ leave_gate key (groups_of self.groups words.now) }
    {
        requests::fabric_gate(key.fabric)?;
        if key.group == 0 {
            return Err(Refusal::ConstraintError);
        }
        if self.groups.is_member(words, key) {
            return Ok(());
        }
        Err(Refusal::NotFound)
    }

    // Leaves a group: every match of the membership goes, and its scenes and records as by a remove all.
    pub fn leave(
        self,
        keys: &mut [u64],
        times: &mut [u32],
        fields: &mut [u8],
        records: &mut [u64],
        words: &mut [u64],
        key: GroupKey,
    ) -> BothOutcome
        ensures { let before = table_of self.state keys.old times.old fields.old records.old in
            let after = table_of result.state keys.new times.new fields.new records.new in
            let groups = groups_of self.groups words.old in
            let left = groups_of result.groups words.new in
            both_of (result_of result.status result.save after) left ≡ leave_group key groups before }
    {
        let state = self.state;
        if !self.groups.is_sound(words) {
            return self.refused(Refusal::Unsound);
        }
        if !state.is_sound(keys, times, fields, records) {
            return self.refused(Refusal::Unsound);
        }
        if let Err(refusal) = self.leave_gate(words, key) {
            return self.refused(refusal);
        }
        let done = Commands { state }.remove_all_scenes(
            keys,
            times,
            fields,
            records,
            key,
            Membership::Yes,
        );
        AskingHandler::ended(done, self.groups.retain(words, KeyRange::Group(key)))
    }

    // A fabric left: its entries, its records and its memberships go.
    pub fn remove_for_fabric(
        self,
        keys: &mut [u64],
        times: &mut [u32],
        fields: &mut [u8],
        records: &mut [u64],
        words: &mut [u64],
        fabric: u8,
    ) -> BothOutcome
        ensures { let before = table_of self.state keys.old times.old fields.old records.old in
            let after = table_of result.state keys.new times.new fields.new records.new in
            let groups = groups_of self.groups words.old in
            let left = groups_of result.groups words.new in
            both_of (result_of result.status result.save after) left ≡ remove_for_fabric_both fabric groups before }
    {
        let state = self.state;
        if !self.groups.is_sound(words) {
            return self.refused(Refusal::Unsound);
        }
        let done = ScenesHandler { state }.remove_for_fabric(keys, times, fields, records, fabric);
        if done.status == Status::SUCCESS {
            return AskingHandler::ended(done, self.groups.retain(words, KeyRange::Fabric(fabric)));
        }
        AskingHandler::ended(done, self.groups)
    }

    // A factory reset: no scenes and no memberships.
    pub fn factory_reset(
        self,
        keys: &[u64],
        times: &[u32],
        fields: &[u8],
        records: &[u64],
        words: &[u64],
    ) -> BothOutcome
        ensures { let before = table_of self.state keys.now times.now fields.now records.now in
            let after = table_of result.state keys.now times.now fields.now records.now in
            let groups = groups_of self.groups words.now in
            let left = groups_of result.groups words.now in
            both_of (result_of result.status result.save after) left ≡ factory_reset_both groups before }
    {
        let state = self.state;
        if !self.groups.is_sound(words) {
            return self.refused(Refusal::Unsound);
        }
        let done = ScenesHandler { state }.factory_reset(keys, times, fields, records);
        if done.status == Status::SUCCESS {
            return AskingHandler::ended(done, GroupsState::new());
        }
        AskingHandler::ended(done, self.groups)
    }
}
