// The lines of answers.
ghost use Rattle.std.specs.Prelude.{◌≡◌, [], ◌∷◌, min, ◌≤◌, length, get_or};
ghost use Rattle.words.specs.Constants.{max_scenes};
ghost use Rattle.text_output.specs.Writing.{sheet, puts, writes, writes_below, number};
ghost use Rattle.script_answers.specs.Answers.{size_word, modes_text, size_line, head_texts, row_texts, scene_bytes, scene_texts, list_texts, image_text, trace_number, fits, tail_of, answer_line};

use crate::{Answer, Row, Tail};
use script_lines::Bounds;
use text_input::part;
use text_output::{end_line, put, put_bytes, put_flag, put_number, put_status, put_text};
use words::Slot;

// `N` in a trace, else `scenes`.
fn put_size_word(out: &mut [u8], at: usize, trace: bool) -> usize
    ensures { sheet out.new result ≡ puts (size_word trace) (sheet out.old at) }
{
    if trace {
        return put_text(out, at, b"N");
    }
    put_text(out, at, b"scenes")
}

// The modes of a table, if they were given.
fn put_modes(out: &mut [u8], at: usize, modes: u64) -> usize
    ensures { sheet out.new result ≡ puts (modes_text modes) (sheet out.old at) }
{
    if modes == Bounds::NOT_GIVEN {
        return at;
    }
    put_number(out, at, modes)
}

// The answer to N.
pub fn put_size(out: &mut [u8], at: usize, trace: bool, size: u64, modes: u64) -> usize
    ensures { sheet out.new result ≡ writes (size_line trace size modes) (sheet out.old at) }
{
    let word = put_size_word(out, at, trace);
    let number = put_number(out, word, size);
    let end = put_modes(out, number, modes);
    end_line(out, end)
}

fn put_row(out: &mut [u8], at: usize, row: Row) -> usize
    ensures { sheet out.new result ≡ writes (row_texts row) (sheet out.old at) }
{
    let count = put_number(out, at, row.count as u64);
    let group = put_number(out, count, row.group as u64);
    let scene = put_number(out, group, row.scene as u64);
    let valid = put_flag(out, scene, row.valid);
    let remaining = put_number(out, valid, row.remaining as u64);
    put_number(out, remaining, row.fabric as u64)
}

// The first ids of a list, each behind a blank.
fn put_ids(out: &mut [u8], at: usize, buffer: &[u8], len: usize) -> usize
    ensures { let listed = buffer.now in
        sheet out.new result ≡ writes_below (λ i. number (get_or listed i 0) ∷ []) (min len (length listed)) (sheet out.old at) }
{
    let mut next = at;
    for id in &buffer[..len.min(buffer.len())] {
        next = put_number(out, next, *id as u64);
    }
    next
}

// The time of the scene at a position, and the field bytes there, of a length.
fn put_scene(
    out: &mut [u8],
    at: usize,
    time: u32,
    position: usize,
    len: usize,
    fields: &[u8],
) -> usize
    requires { position ≤ max_scenes }
    ensures { let bytes = scene_bytes position len fields.now in
        sheet out.new result ≡ writes (scene_texts time bytes) (sheet out.old at) }
{
    let start = position * Slot::STRIDE + 1;
    let next = put_number(out, at, time as u64);
    put_bytes(out, next, part(fields, start, len))
}

// The remaining capacity and a list of buffer.
fn put_list(out: &mut [u8], at: usize, remaining: u8, buffer: &[u8], len: usize) -> usize
    ensures { sheet out.new result ≡ list_texts remaining buffer.now len (sheet out.old at) }
{
    let next = put_number(out, at, remaining as u64);
    put_ids(out, next, buffer, len)
}

// The image in the front of the buffer.
fn put_image(out: &mut [u8], at: usize, buffer: &[u8], len: usize) -> usize
    ensures { sheet out.new result ≡ puts (image_text buffer.now len) (sheet out.old at) }
{
    put_bytes(out, at, part(buffer, 0, len))
}

// A number, in a trace alone.
fn put_trace_number(out: &mut [u8], at: usize, trace: bool, n: usize) -> usize
    ensures { sheet out.new result ≡ puts (trace_number trace n) (sheet out.old at) }
{
    if trace {
        return put_number(out, at, n as u64);
    }
    at
}

// What an answer has beyond its status.
fn put_tail(
    out: &mut [u8],
    at: usize,
    trace: bool,
    tail: Tail,
    fields: &[u8],
    buffer: &[u8],
) -> usize
    requires { fits tail }
    ensures { sheet out.new result ≡ tail_of trace tail buffer.now fields.now (sheet out.old at) }
{
    match tail {
        Tail::Nothing => at,
        Tail::Scene(time, position, len) => put_scene(out, at, time, position, len, fields),
        Tail::Ids(remaining, len) => put_list(out, at, remaining, buffer, len),
        Tail::NoRow => put_text(out, at, b" none"),
        Tail::Info(row) => put_row(out, at, row),
        Tail::Image(len) => put_image(out, at, buffer, len),
        Tail::Number(n) => put_trace_number(out, at, trace, n),
    }
}

// What every answer starts with: letter, status, with the save mark in a trace, entries, with the records in a trace, version.
pub fn put_head(out: &mut [u8], at: usize, trace: bool, letter: u8, answer: Answer) -> usize
    ensures { sheet out.new result ≡ writes (head_texts trace letter answer) (sheet out.old at) }
{
    let state = answer.state;
    let name = put(out, at, letter);
    let status = put_status(out, name, answer.status);
    if trace {
        let save = put_flag(out, status, answer.save);
        let entries = put_number(out, save, state.entries as u64);
        let records = put_number(out, entries, state.recorded as u64);
        return put_number(out, records, state.dataver as u64);
    }
    let entries = put_number(out, status, state.entries as u64);
    put_number(out, entries, state.dataver as u64)
}

// An answer line.
pub fn put_answer(
    out: &mut [u8],
    at: usize,
    trace: bool,
    letter: u8,
    answer: Answer,
    fields: &[u8],
    buffer: &[u8],
) -> usize
    requires { fits answer.tail }
    ensures { let line = answer_line trace letter answer buffer.now fields.now in
        sheet out.new result ≡ line (sheet out.old at) }
{
    let tail = answer.tail;
    let head = put_head(out, at, trace, letter, answer);
    let end = put_tail(out, head, trace, tail, fields, buffer);
    end_line(out, end)
}
