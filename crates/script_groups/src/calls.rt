// The calls that need the memberships: each letter asks for its membership, or belongs to the memberships.
ghost use Rattle.std.specs.Prelude.{◌≡◌};
ghost use Rattle.state.specs.Table.{table_of};
ghost use Rattle.groups.specs.Groups.{groups_of};
ghost use Rattle.script_lines.specs.Values.{bytes_at};
ghost use Rattle.script_answers.specs.Done.{done_of, called_of};
ghost use Rattle.script_groups.specs.Calls.{needs_groups, group_called, group_call};

use crate::memberships::group_event;
use asking::AskingHandler;
use groups::GroupsState;
use script_answers::Answer;
use script_asking::{asked_command, asked_query};
use script_lines::{Line, asks, one_of};

// An answer, with the head of the memberships that it leaves.
#[derive(Clone, Copy)]
pub struct GroupAnswer {
    pub answer: Answer,
    pub groups: GroupsState,
}

// Whether a line needs the memberships.
pub fn needs_groups(read: Line) -> bool
    ensures { result ≡ needs_groups read.letter read.values }
{
    if one_of(read.letter, b"JQHmFZ") {
        return true;
    }
    asks(read)
}

// What a line's letter asks for that needs the memberships.
pub fn group_call(
    asking: AskingHandler,
    keys: &mut [u64],
    times: &mut [u32],
    fields: &mut [u8],
    records: &mut [u64],
    words: &mut [u64],
    buffer: &mut [u8],
    line: &[u8],
    read: Line,
) -> GroupAnswer
    ensures { let before = table_of asking.state keys.old times.old fields.old records.old in
        let after = table_of result.answer.state keys.new times.new fields.new records.new in
        let groups = groups_of asking.groups words.old in
        let left = groups_of result.groups words.new in
        let bytes = bytes_at read line.now in
        group_called (called_of (done_of result.answer after) buffer.new) left
        ≡ group_call read.letter read.values bytes buffer.old groups before }
{
    let letter = read.letter;
    let groups = asking.groups;
    if one_of(letter, b"ABSRXC") {
        let answer = asked_command(asking, keys, times, fields, records, words, line, read);
        return GroupAnswer { answer, groups };
    }
    if one_of(letter, b"VLM") {
        let answer = asked_query(asking, keys, times, fields, records, words, buffer, read);
        return GroupAnswer { answer, groups };
    }
    group_event(asking, keys, times, fields, records, words, read)
}
