// The letters of memberships: joining, leaving, asking, a raw write, and the events that drop them.
ghost use Rattle.std.specs.Prelude.{ℕ, ◌≡◌, false, List};
ghost use Rattle.state.specs.Table.{table_of};
ghost use Rattle.groups.specs.Groups.{groups_of};
ghost use Rattle.script_answers.specs.Done.{done_of};
ghost use Rattle.script_groups.specs.Memberships.{group_done, join, leave, held_tail, held, group_fits, push_group, removal, reset, group_event};

use crate::calls::GroupAnswer;
use asking::{AskingHandler, BothOutcome};
use groups::{GroupRead, GroupsState};
use script_answers::{Answer, Tail};
use script_lines::{Line, byte, group_key};
use state::ScenesState;
use words::{Limits, Refusal, Status};

// An answer that leaves the table as it was, and nothing to save.
fn unsaved(status: u8, state: ScenesState, tail: Tail, groups: GroupsState) -> GroupAnswer
    ensures { result ≡ record { answer = record { status = status; save = false; state = state; tail = tail }; groups = groups } }
{
    let answer = Answer {
        status,
        save: false,
        state,
        tail,
    };
    GroupAnswer { answer, groups }
}

// The answer of a call that may change both.
fn both(done: BothOutcome) -> GroupAnswer
    ensures { result ≡ record {
      answer = record { status = done.status; save = done.save; state = done.state; tail = Tail.Nothing };
      groups = done.groups;
    } }
{
    let state = done.state;
    let groups = done.groups;
    let answer = Answer {
        status: done.status,
        save: done.save,
        state,
        tail: Tail::Nothing,
    };
    GroupAnswer { answer, groups }
}

// J: join.
fn join(asking: AskingHandler, words: &mut [u64], read: Line) -> GroupAnswer
    ensures { (k t f w : List ℕ) →
        group_done (done_of result.answer (table_of result.answer.state k t f w)) (groups_of result.groups words.new)
        ≡ join read.values (groups_of asking.groups words.old) (table_of asking.state k t f w) }
{
    let state = asking.state;
    let done = asking.groups.join(words, group_key(read));
    let groups = done.state;
    unsaved(done.status, state, Tail::Nothing, groups)
}

// Q: leave.
fn leave(
    asking: AskingHandler,
    keys: &mut [u64],
    times: &mut [u32],
    fields: &mut [u8],
    records: &mut [u64],
    words: &mut [u64],
    read: Line,
) -> GroupAnswer
    ensures { let before = table_of asking.state keys.old times.old fields.old records.old in
        let after = table_of result.answer.state keys.new times.new fields.new records.new in
        let groups = groups_of asking.groups words.old in
        let left = groups_of result.groups words.new in
        group_done (done_of result.answer after) left ≡ leave read.values groups before }
{
    let key = group_key(read);
    both(asking.leave(keys, times, fields, records, words, key))
}

// 1 where a membership is held, else 0; nothing at a refusal.
fn held_tail(found: GroupRead) -> Tail
    ensures { result ≡ held_tail found }
{
    if found.status == Status::SUCCESS {
        if found.held {
            return Tail::Number(1);
        }
        return Tail::Number(0);
    }
    Tail::Nothing
}

// H: held or not.
fn held(asking: AskingHandler, words: &[u64], read: Line) -> GroupAnswer
    ensures { (k t f w : List ℕ) →
        group_done (done_of result.answer (table_of result.answer.state k t f w)) (groups_of result.groups words.now)
        ≡ held read.values (groups_of asking.groups words.now) (table_of asking.state k t f w) }
{
    let state = asking.state;
    let groups = asking.groups;
    let found = groups.read(words, group_key(read));
    unsaved(found.status, state, held_tail(found), groups)
}

// Whether one more membership has a fabric, and fits the most that are held and a slice of this length.
fn group_fits(groups: GroupsState, fabric: u8, words: usize) -> bool
    ensures { result ≡ group_fits groups fabric words }
{
    if fabric == 0 {
        return false;
    }
    if Limits::MAX_MEMBERSHIPS <= groups.held {
        return false;
    }
    groups.held < words
}

// m: the host writes a membership behind the last one, as it stands.
fn push_group(asking: AskingHandler, words: &mut [u64], read: Line) -> GroupAnswer
    ensures { (k t f w : List ℕ) →
        group_done (done_of result.answer (table_of result.answer.state k t f w)) (groups_of result.groups words.new)
        ≡ push_group read.values (groups_of asking.groups words.old) (table_of asking.state k t f w) }
{
    let state = asking.state;
    let mut groups = asking.groups;
    let key = group_key(read);
    let n = groups.held;
    if group_fits(groups, key.fabric, words.len()) {
        words[n] = groups::word(key);
        groups.held = n + 1;
        return unsaved(Status::SUCCESS, state, Tail::Nothing, groups);
    }
    unsaved(u8::from(Refusal::Unsound), state, Tail::Nothing, groups)
}

// F: a fabric's removal.
fn removal(
    asking: AskingHandler,
    keys: &mut [u64],
    times: &mut [u32],
    fields: &mut [u8],
    records: &mut [u64],
    words: &mut [u64],
    read: Line,
) -> GroupAnswer
    ensures { let before = table_of asking.state keys.old times.old fields.old records.old in
        let after = table_of result.answer.state keys.new times.new fields.new records.new in
        let groups = groups_of asking.groups words.old in
        let left = groups_of result.groups words.new in
        group_done (done_of result.answer after) left ≡ removal read.values groups before }
{
    let fabric = byte(read.values[0]);
    both(asking.remove_for_fabric(keys, times, fields, records, words, fabric))
}

// Z: a factory reset.
fn reset(
    asking: AskingHandler,
    keys: &[u64],
    times: &[u32],
    fields: &[u8],
    records: &[u64],
    words: &[u64],
) -> GroupAnswer
    ensures { let before = table_of asking.state keys.now times.now fields.now records.now in
        let after = table_of result.answer.state keys.now times.now fields.now records.now in
        let groups = groups_of asking.groups words.now in
        let left = groups_of result.groups words.now in
        group_done (done_of result.answer after) left ≡ reset groups before }
{
    both(asking.factory_reset(keys, times, fields, records, words))
}

// A letter of memberships.
pub(crate) fn group_event(
    asking: AskingHandler,
    keys: &mut [u64],
    times: &mut [u32],
    fields: &mut [u8],
    records: &mut [u64],
    words: &mut [u64],
    read: Line,
) -> GroupAnswer
    ensures { let before = table_of asking.state keys.old times.old fields.old records.old in
        let after = table_of result.answer.state keys.new times.new fields.new records.new in
        let groups = groups_of asking.groups words.old in
        let left = groups_of result.groups words.new in
        group_done (done_of result.answer after) left ≡ group_event read.letter read.values groups before }
{
    let letter = read.letter;
    match letter {
        b'J' => join(asking, words, read),
        b'Q' => leave(asking, keys, times, fields, records, words, read),
        b'H' => held(asking, words, read),
        b'm' => push_group(asking, words, read),
        b'F' => removal(asking, keys, times, fields, records, words, read),
        _ => reset(asking, keys, times, fields, records, words),
    }
}
