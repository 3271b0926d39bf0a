// Runs a script from standard input and writes its answers to standard output: scenebench and scenetrace are a call of it each.
#![tactic(auto)]

ghost use Rattle.std.specs.Prelude.{◌+◌, ◌≤◌, IfOk, length};
ghost use Rattle.words.specs.Constants.{max_scenes, max_memberships};
ghost use Rattle.script_lines.specs.Lines.{most_image};
ghost use Rattle.console.specs.Whole.{longest, line_room, most_held, held_answer, Whole};

use script_machine::{Machine, Ran};
use std::io::{self, Input, Print, Read};

// A line has fewer bytes than this: the longest image takes 350,224 digits, and longer ones are to be refused by the table.
const LINE: usize = 0x6_0000;

const CHUNK: usize = 0x1_0000;

// The output buffer, and how much is held before it is written out: the longest answer to a line fits in what is left.
const OUT: usize = 0x9_0000;

const HELD: usize = 0x1_0000;

// What a part of the input leaves: the machine, how many bytes the line buffer holds, and whether the output still takes bytes.
#[derive(Clone, Copy)]
struct Fed {
    machine: Machine,
    held: usize,
    open: bool,
}

// What a line leaves: the machine, the next position of the output, and whether the output still takes bytes.
#[derive(Clone, Copy)]
struct Stepped {
    machine: Machine,
    at: usize,
    open: bool,
}

// How many bytes were read, and whether they are the last.
#[derive(Clone, Copy)]
struct Part {
    n: usize,
    last: bool,
}

// Writes out what the buffer holds up to a position.
fn flush(rt: &impl Print, out: &[u8], at: usize) -> bool {
    if at <= out.len() {
        return rt.write_all(&out[..at]).is_ok();
    }
    rt.write_all(out).is_ok()
}

// Runs the line that the buffer holds. A line that fills it is too long. The answer stands whole in the output.
fn run_held(
    machine: Machine,
    keys: &mut [u64],
    times: &mut [u32],
    fields: &mut [u8],
    records: &mut [u64],
    words: &mut [u64],
    buffer: &mut [u8],
    line: &mut [u8],
    held: usize,
    out: &mut [u8],
    at: usize,
) -> Ran
    requires keys_len_bound { length keys.old ≤ max_scenes }
    requires records_len_bound { length records.old ≤ max_scenes }
    requires words_len_bound { length words.old ≤ max_memberships }
    requires buffer_len_bound { length buffer.old ≤ most_image }
    requires line_len_bound { length line.old ≤ line_room }
    requires longest_in_bounds { at + longest ≤ length out.old }
    ensures { let answer = held_answer machine keys.old times.old fields.old records.old
        words.old buffer.old line.old held in
        Whole answer out.old at out.new result.at }
{
    if held < line.len() {
        return script::run_line(
            machine,
            keys,
            times,
            fields,
            records,
            words,
            buffer,
            &mut line[..held],
            out,
            at,
        );
    }
    script_machine::too_long(machine, out, at)
}

// Runs the line that the buffer holds, and writes the output out if much of it is held.
fn step(
    rt: &impl Print,
    machine: Machine,
    keys: &mut [u64],
    times: &mut [u32],
    fields: &mut [u8],
    records: &mut [u64],
    words: &mut [u64],
    buffer: &mut [u8],
    line: &mut [u8],
    held: usize,
    out: &mut [u8],
    at: usize,
) -> Stepped
    requires keys_len_bound { length keys.old ≤ max_scenes }
    requires records_len_bound { length records.old ≤ max_scenes }
    requires words_len_bound { length words.old ≤ max_memberships }
    requires buffer_len_bound { length buffer.old ≤ most_image }
    requires line_len_bound { length line.old ≤ line_room }
    requires at_le_most_held { at ≤ most_held }
    requires longest_in_bounds { most_held + longest ≤ length out.old }
    ensures { result.at ≤ most_held }
{
    let ran = run_held(
        machine, keys, times, fields, records, words, buffer, line, held, out, at,
    );
    let m = ran.machine;
    let next = ran.at;
    if next <= HELD {
        return Stepped {
            machine: m,
            at: next,
            open: true,
        };
    }
    Stepped {
        machine: m,
        at: 0,
        open: flush(rt, out, next),
    }
}

// Runs the lines that end in a chunk, as long as the output takes their answers.
fn feed(
    rt: &impl Print,
    mut m: Machine,
    keys: &mut [u64],
    times: &mut [u32],
    fields: &mut [u8],
    records: &mut [u64],
    words: &mut [u64],
    buffer: &mut [u8],
    line: &mut [u8],
    before: usize,
    chunk: &[u8],
    out: &mut [u8],
) -> Fed
    requires keys_len_bound { length keys.old ≤ max_scenes }
    requires records_len_bound { length records.old ≤ max_scenes }
    requires words_len_bound { length words.old ≤ max_memberships }
    requires buffer_len_bound { length buffer.old ≤ most_image }
    requires line_len_bound { length line.old ≤ line_room }
    requires longest_in_bounds { most_held + longest ≤ length out.old }
{
    let mut held = before;
    let mut from = 0;
    let mut at = 0;
    let mut takes = true;
    while (from < chunk.len()) & takes {
        let got = text_input::gather(chunk, from, line, held);
        from = got.next;
        held = got.held;
        if got.ended {
            let done = step(
                rt, m, keys, times, fields, records, words, buffer, line, held, out, at,
            );
            m = done.machine;
            at = done.at;
            takes = done.open;
            held = 0;
        }
    }
    let wrote = flush(rt, out, at);
    Fed {
        machine: m,
        held,
        open: takes & wrote,
    }
}

// Reads a chunk. At the end of the input stands the end that a last line lacks. No signal is handled here, so that no read is
// interrupted: one that fails is the last.
fn read_part(input: &mut impl Read, chunk: &mut [u8], held: usize) -> io::Result<Part>
    ensures { IfOk result (λ part. part.n ≤ length chunk.new) }
{
    let n = input.read(chunk)?;
    if 0 < n {
        return Ok(Part { n, last: false });
    }
    if held == 0 {
        return Ok(Part { n: 0, last: true });
    }
    text_output::put(chunk, 0, b'\n');
    Ok(Part {
        n: chunk.len().min(1),
        last: true,
    })
}

// Tells that the input cannot be read on. A line that was gathered in part is not run: nobody knows its rest.
fn tell_failed(rt: &impl Print, machine: Machine, out: &mut [u8]) -> bool {
    let told = script_machine::read_failed(machine, out, 0);
    let end = told.at;
    flush(rt, out, end)
}

// Reads standard input to its end, in chunks, and runs its lines.
fn run(
    rt: &(impl Input + Print),
    machine: Machine,
    keys: &mut [u64],
    times: &mut [u32],
    fields: &mut [u8],
    records: &mut [u64],
    words: &mut [u64],
    buffer: &mut [u8],
    line: &mut [u8],
    chunk: &mut [u8],
    out: &mut [u8; OUT],
)
    requires keys_len_bound { length keys.old ≤ max_scenes }
    requires records_len_bound { length records.old ≤ max_scenes }
    requires words_len_bound { length words.old ≤ max_memberships }
    requires buffer_len_bound { length buffer.old ≤ most_image }
    requires line_len_bound { length line.old ≤ line_room }
{
    let room: &mut [u8] = out;
    let mut input = rt.reader();
    let mut m = machine;
    let mut held = 0;
    // An input need not end: the turns are counted, and no run uses so many up.
    for _ in 0..u64::MAX {
        let Ok(got) = read_part(&mut input, chunk, held) else {
            tell_failed(rt, m, room);
            return;
        };
        let part = &chunk[..got.n];
        let fed = feed(
            rt, m, keys, times, fields, records, words, buffer, line, held, part, room,
        );
        if got.last | !fed.open {
            return;
        }
        m = fed.machine;
        held = fed.held;
    }
}

// Lends the buffers of lines, input and output.
fn buffered(
    rt: &(impl Input + Print),
    machine: Machine,
    keys: &mut [u64],
    times: &mut [u32],
    fields: &mut [u8],
    records: &mut [u64],
    words: &mut [u64],
    buffer: &mut [u8],
)
    requires keys_len_bound { length keys.old ≤ max_scenes }
    requires records_len_bound { length records.old ≤ max_scenes }
    requires words_len_bound { length words.old ≤ max_memberships }
    requires buffer_len_bound { length buffer.old ≤ most_image }
{
    let mut line = [0u8; LINE];
    let mut chunk = [0u8; CHUNK];
    let mut out = [0u8; OUT];
    run(
        rt, machine, keys, times, fields, records, words, buffer, &mut line, &mut chunk, &mut out,
    );
}

// scenebench: adds, stores and views on a table of at most 256 scenes. No contract can say what is read and written; that it ends and
// stays within its memory is proved of it as of any function.
pub fn bench(rt: &(impl Input + Print)) {
    let mut keys = [0u64; 256];
    let mut times = [0u32; 256];
    let mut fields = [0u8; 33_024];
    let mut records = [0u64; 256];
    let mut words = [0u64; 256];
    let mut buffer = [0u8; 256];
    buffered(
        rt,
        Machine::new(false),
        &mut keys,
        &mut times,
        &mut fields,
        &mut records,
        &mut words,
        &mut buffer,
    );
}

// scenetrace: every call, on a table of at most 1,024 scenes. No contract, as above.
pub fn trace(rt: &(impl Input + Print)) {
    let mut keys = [0u64; 1024];
    let mut times = [0u32; 1024];
    let mut fields = [0u8; 132_096];
    let mut records = [0u64; 1024];
    let mut words = [0u64; 256];
    let mut buffer = [0u8; 175_112];
    buffered(
        rt,
        Machine::new(true),
        &mut keys,
        &mut times,
        &mut fields,
        &mut records,
        &mut words,
        &mut buffer,
    );
}
