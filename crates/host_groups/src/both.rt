// The calls that change scenes and memberships together: leaving a group, a fabric's removal and a factory reset.
ghost use Rattle.std.specs.Prelude.{◌≡◌};
ghost use Rattle.state.specs.Table.{table_of};
ghost use Rattle.state.specs.Answer.{result_of};
ghost use Rattle.groups.specs.Groups.{groups_of};
ghost use Rattle.asking.specs.Asking.{both_of, leave_group, remove_for_fabric_both, factory_reset_both};

use asking::{AskingHandler, BothOutcome};
use groups::GroupsState;
use state::ScenesState;
use words::GroupKey;

// Leaves a group: every match of the membership goes, and its scenes and records as by a remove all.
#[unsafe(no_mangle)]
pub extern "C" fn scenes_leave(
    state: ScenesState,
    keys: &mut [u64],
    times: &mut [u32],
    fields: &mut [u8],
    records: &mut [u64],
    groups: GroupsState,
    words: &mut [u64],
    key: GroupKey,
) -> BothOutcome
    ensures { let before = table_of state keys.old times.old fields.old records.old in
        let after = table_of result.state keys.new times.new fields.new records.new in
        let held = groups_of groups words.old in
        let left = groups_of result.groups words.new in
        both_of (result_of result.status result.save after) left ≡ leave_group key held before }
{
    AskingHandler { state, groups }.leave(keys, times, fields, records, words, key)
}

// A fabric left: its scenes, its records and its memberships go.
#[unsafe(no_mangle)]
pub extern "C" fn scenes_remove_fabric_and_groups(
    state: ScenesState,
    keys: &mut [u64],
    times: &mut [u32],
    fields: &mut [u8],
    records: &mut [u64],
    groups: GroupsState,
    words: &mut [u64],
    fabric: u8,
) -> BothOutcome
    ensures { let before = table_of state keys.old times.old fields.old records.old in
        let after = table_of result.state keys.new times.new fields.new records.new in
        let held = groups_of groups words.old in
        let left = groups_of result.groups words.new in
        both_of (result_of result.status result.save after) left ≡ remove_for_fabric_both fabric held before }
{
    AskingHandler { state, groups }.remove_for_fabric(keys, times, fields, records, words, fabric)
}

// A factory reset: no scenes and no memberships.
#[unsafe(no_mangle)]
pub extern "C" fn scenes_factory_reset_and_groups(
    state: ScenesState,
    keys: &[u64],
    times: &[u32],
    fields: &[u8],
    records: &[u64],
    groups: GroupsState,
    words: &[u64],
) -> BothOutcome
    ensures { let before = table_of state keys.now times.now fields.now records.now in
        let after = table_of result.state keys.now times.now fields.now records.now in
        let held = groups_of groups words.now in
        let left = groups_of result.groups words.now in
        both_of (result_of result.status result.save after) left ≡ factory_reset_both held before }
{
    AskingHandler { state, groups }.factory_reset(keys, times, fields, records, words)
}
