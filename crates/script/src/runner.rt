// A line is read, run on the table and answered.
ghost use Rattle.std.specs.Prelude.{◌≡◌};
ghost use Rattle.text_output.specs.Writing.{sheet};
ghost use Rattle.script_lines.specs.Values.{bytes_at};
ghost use Rattle.script_machine.specs.Machines.{counted};
ghost use Rattle.script.specs.Running.{session, called, obeyed, run_line};

use crate::calls::any_call;
use asking::AskingHandler;
use script_answers::put_answer;
use script_lines::{Line, asks_half, read_line};
use script_machine::{Machine, Ran};
use text_output::Reason;

// A call of the table.
fn called(
    mut machine: Machine,
    keys: &mut [u64],
    times: &mut [u32],
    fields: &mut [u8],
    records: &mut [u64],
    words: &mut [u64],
    buffer: &mut [u8],
    line: &[u8],
    out: &mut [u8],
    at: usize,
    read: Line,
) -> Ran
    ensures { let before = session machine keys.old times.old fields.old records.old
        words.old buffer.old line.now (sheet out.old at) in
        let after = session result.machine keys.new times.new fields.new records.new
        words.new buffer.new line.now (sheet out.new result.at) in
        after ≡ called read.letter read.values (bytes_at read line.now) before }
{
    let state = machine.state;
    let groups = machine.groups;
    let asking = AskingHandler { state, groups };
    let done = any_call(
        asking, keys, times, fields, records, words, buffer, line, read,
    );
    let answer = done.answer;
    let after = answer.state;
    let left = done.groups;
    machine.state = after;
    machine.groups = left;
    Ran {
        machine,
        at: put_answer(out, at, machine.trace, read.letter, answer, fields, buffer),
    }
}

// What an understood line asks for.
fn obeyed(
    machine: Machine,
    keys: &mut [u64],
    times: &mut [u32],
    fields: &mut [u8],
    records: &mut [u64],
    words: &mut [u64],
    buffer: &mut [u8],
    line: &[u8],
    out: &mut [u8],
    at: usize,
    read: Line,
) -> Ran
    ensures { let before = session machine keys.old times.old fields.old records.old
        words.old buffer.old line.now (sheet out.old at) in
        let after = session result.machine keys.new times.new fields.new records.new
        words.new buffer.new line.now (sheet out.new result.at) in
        after ≡ obeyed read.letter read.values (bytes_at read line.now) before }
{
    if read.letter == b'N' {
        return machine.sized(out, at, read.values[0], read.values[1]);
    }
    if asks_half(read) {
        return machine.wrong(out, at, Reason::NotANumber);
    }
    if machine.present {
        if read.letter == b'D' {
            return machine.dumped(keys, times, fields, records, words, out, at);
        }
        if read.letter == b'Y' {
            return machine.parsed(line, out, at, read);
        }
        return called(
            machine, keys, times, fields, records, words, buffer, line, out, at, read,
        );
    }
    machine.wrong(out, at, Reason::NoTable)
}

// Runs one line, which is all that `line` holds, and answers it from a position of the output on. A line that is not understood is
// answered by `error`, its number and a reason, and changes nothing. The line's words are changed in place: one of digits or of
// hexadecimal digits then has the bytes that it spells in its front, up to the first word that is not understood; all else stays.
pub fn run_line(
    machine: Machine,
    keys: &mut [u64],
    times: &mut [u32],
    fields: &mut [u8],
    records: &mut [u64],
    words: &mut [u64],
    buffer: &mut [u8],
    line: &mut [u8],
    out: &mut [u8],
    at: usize,
) -> Ran
    ensures { let before = session (counted machine) keys.old times.old fields.old records.old
        words.old buffer.old line.old (sheet out.old at) in
        let after = session result.machine keys.new times.new fields.new records.new
        words.new buffer.new line.new (sheet out.new result.at) in
        after ≡ run_line before }
{
    let m = machine.counted();
    match read_line(line, m.trace) {
        Ok(None) => Ran { machine: m, at },
        Err(reason) => m.wrong(out, at, reason),
        Ok(Some(read)) => obeyed(
            m, keys, times, fields, records, words, buffer, line, out, at, read,
        ),
    }
}
