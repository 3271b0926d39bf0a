// The lines of a table as it stands, and of memberships.
ghost use Rattle.std.specs.Prelude.{◌≡◌, ◌≤◌, min, length, get_or};
ghost use Rattle.words.specs.Constants.{max_scenes};
ghost use Rattle.state.specs.Table.{table_of};
ghost use Rattle.text_output.specs.Writing.{sheet, writes, writes_below};
ghost use Rattle.script_answers.specs.Dump.{key_texts, entry_texts, stored_in, shown_bytes, entry_shown, counts_line, record_line, table_lines, group_line, group_lines};

use state::ScenesState;
use text_input::part;
use text_output::{end_line, put_bytes, put_flag, put_number, put_text};
use words::Slot;

// The parts of a key word.
fn put_key(out: &mut [u8], at: usize, word: u64) -> usize
    ensures { sheet out.new result ≡ writes (key_texts word) (sheet out.old at) }
{
    let fabric = put_number(out, at, words::fabric_of(word));
    let endpoint = put_number(out, fabric, words::endpoint_of(word) as u64);
    let group = put_number(out, endpoint, words::group_of(word) as u64);
    put_number(out, group, words::scene_of(word) as u64)
}

// An entry's line.
fn put_entry(out: &mut [u8], at: usize, word: u64, time: u32, bytes: &[u8]) -> usize
    ensures { sheet out.new result ≡ writes (entry_texts word time bytes.now) (sheet out.old at) }
{
    let letter = put_text(out, at, b" e");
    let key = put_key(out, letter, word);
    let number = put_number(out, key, time as u64);
    let end = put_bytes(out, number, bytes);
    end_line(out, end)
}

// How many entries have fields to show: all those of a sound table, and none of another. The table is tested once for a dump.
fn stored(state: ScenesState, keys: &[u64], times: &[u32], fields: &[u8], records: &[u64]) -> usize
    ensures { let table = table_of state keys.now times.now fields.now records.now in
        result ≡ stored_in table }
{
    if state.is_sound(keys, times, fields, records) {
        return state.entries;
    }
    0
}

// The fields of the entry at a position: none from `stored` on.
fn shown_bytes(fields: &[u8], stored: usize, i: usize) -> &[u8]
    requires { stored ≤ max_scenes }
    ensures { result.now ≡ shown_bytes stored fields.now i }
{
    if i < stored {
        let base = i * Slot::STRIDE;
        let len = fields.get(base).copied().unwrap_or(0);
        return part(fields, base + 1, len as usize);
    }
    &fields[..0]
}

// The line of the entry at a position.
fn put_entry_at(
    out: &mut [u8],
    at: usize,
    stored: usize,
    keys: &[u64],
    times: &[u32],
    fields: &[u8],
    i: usize,
) -> usize
    requires { stored ≤ max_scenes }
    ensures { let line = entry_shown stored keys.now times.now fields.now i in
        sheet out.new result ≡ writes line (sheet out.old at) }
{
    let word = keys.get(i).copied().unwrap_or(0);
    let time = times.get(i).copied().unwrap_or(0);
    let bytes = shown_bytes(fields, stored, i);
    put_entry(out, at, word, time, bytes)
}

// A record's line.
fn put_record(out: &mut [u8], at: usize, word: u64) -> usize
    ensures { sheet out.new result ≡ writes (record_line word) (sheet out.old at) }
{
    let letter = put_text(out, at, b" r");
    let key = put_key(out, letter, words::key_of_record(word));
    let valid = put_flag(out, key, words::is_valid(word));
    end_line(out, valid)
}

// The first line of a table: entries, records and version.
fn put_counts(out: &mut [u8], at: usize, state: ScenesState) -> usize
    ensures { sheet out.new result ≡ writes (counts_line state) (sheet out.old at) }
{
    let letter = put_text(out, at, b"D");
    let entries = put_number(out, letter, state.entries as u64);
    let recorded = put_number(out, entries, state.recorded as u64);
    let version = put_number(out, recorded, state.dataver as u64);
    end_line(out, version)
}

// The lines of the first n entries.
fn put_entries(
    out: &mut [u8],
    at: usize,
    n: usize,
    stored: usize,
    keys: &[u64],
    times: &[u32],
    fields: &[u8],
) -> usize
    requires { stored ≤ max_scenes }
    ensures { let line = entry_shown stored keys.now times.now fields.now in
        sheet out.new result ≡ writes_below line n (sheet out.old at) }
{
    let mut next = at;
    for i in 0..n {
        next = put_entry_at(out, next, stored, keys, times, fields, i);
    }
    next
}

// The lines of the records below the count, as far as the lent slice has them.
fn put_records(out: &mut [u8], at: usize, recorded: usize, records: &[u64]) -> usize
    ensures { let n = min recorded (length records.now) in
        sheet out.new result ≡ writes_below (λ i. record_line (get_or records.now i 0)) n (sheet out.old at) }
{
    let mut next = at;
    for word in &records[..recorded.min(records.len())] {
        next = put_record(out, next, *word);
    }
    next
}

// The table as it stands: as many entries and records as the counts say and the lent slices have.
pub fn put_table(
    out: &mut [u8],
    at: usize,
    state: ScenesState,
    keys: &[u64],
    times: &[u32],
    fields: &[u8],
    records: &[u64],
) -> usize
    ensures { let table = table_of state keys.now times.now fields.now records.now in
        sheet out.new result ≡ table_lines table (sheet out.old at) }
{
    let shown = state.entries.min(keys.len());
    let stored = stored(state, keys, times, fields, records);
    let counts = put_counts(out, at, state);
    let entries = put_entries(out, counts, shown, stored, keys, times, fields);
    put_records(out, entries, state.recorded, records)
}

// A membership's line.
fn put_group(out: &mut [u8], at: usize, word: u64) -> usize
    ensures { sheet out.new result ≡ writes (group_line word) (sheet out.old at) }
{
    let letter = put_text(out, at, b" m");
    let fabric = put_number(out, letter, words::fabric_of(word));
    let endpoint = put_number(out, fabric, words::endpoint_of(word) as u64);
    let group = put_number(out, endpoint, words::group_of(word) as u64);
    end_line(out, group)
}

// The lines of memberships: of as many as are held and the lent slice has.
pub fn put_groups(out: &mut [u8], at: usize, held: usize, words: &[u64]) -> usize
    ensures { sheet out.new result ≡ group_lines held words.now (sheet out.old at) }
{
    let mut next = at;
    for word in &words[..held.min(words.len())] {
        next = put_group(out, next, *word);
    }
    next
}
