// The calls of the table: each letter belongs to the commands, the reads, the raw writes, the images or the events, or needs the memberships.
ghost use Rattle.std.specs.Prelude.{◌≡◌};
ghost use Rattle.state.specs.Table.{table_of};
ghost use Rattle.script_lines.specs.Values.{bytes_at};
ghost use Rattle.script_answers.specs.Done.{done_of, called_of};
ghost use Rattle.groups.specs.Groups.{groups_of};
ghost use Rattle.script_groups.specs.Calls.{group_called};
ghost use Rattle.script.specs.Calls.{call, any_call};

use asking::AskingHandler;
use script_answers::Answer;
use script_commands::command;
use script_events::{event, host_write};
use script_groups::{GroupAnswer, group_call, needs_groups};
use script_images::image;
use script_lines::{Line, one_of};
use script_reads::query;
use state::ScenesState;

// What a line's letter asks for that needs no memberships.
fn call(
    state: ScenesState,
    keys: &mut [u64],
    times: &mut [u32],
    fields: &mut [u8],
    records: &mut [u64],
    buffer: &mut [u8],
    line: &[u8],
    read: Line,
) -> Answer
    ensures { let before = table_of state keys.old times.old fields.old records.old in
        let after = table_of result.state keys.new times.new fields.new records.new in
        let bytes = bytes_at read line.now in
        called_of (done_of result after) buffer.new ≡ call read.letter read.values bytes buffer.old before }
{
    let letter = read.letter;
    if one_of(letter, b"ABSRXC") {
        return command(state, keys, times, fields, records, line, read);
    }
    if one_of(letter, b"VLMI") {
        return query(state, keys, times, fields, records, buffer, read);
    }
    if one_of(letter, b"Ker") {
        return host_write(state, keys, times, fields, records, line, read);
    }
    if one_of(letter, b"PG") {
        return image(state, keys, times, fields, records, buffer, line, read);
    }
    event(state, keys, times, fields, records, read)
}

// What a line asks for, with the memberships where it needs them.
pub(crate) fn any_call(
    asking: AskingHandler,
    keys: &mut [u64],
    times: &mut [u32],
    fields: &mut [u8],
    records: &mut [u64],
    words: &mut [u64],
    buffer: &mut [u8],
    line: &[u8],
    read: Line,
) -> GroupAnswer
    ensures { let before = table_of asking.state keys.old times.old fields.old records.old in
        let after = table_of result.answer.state keys.new times.new fields.new records.new in
        let groups = groups_of asking.groups words.old in
        let left = groups_of result.groups words.new in
        let bytes = bytes_at read line.now in
        group_called (called_of (done_of result.answer after) buffer.new) left
        ≡ any_call read.letter read.values bytes buffer.old groups before }
{
    if needs_groups(read) {
        return group_call(
            asking, keys, times, fields, records, words, buffer, line, read,
        );
    }
    let state = asking.state;
    let groups = asking.groups;
    let answer = call(state, keys, times, fields, records, buffer, line, read);
    GroupAnswer { answer, groups }
}
