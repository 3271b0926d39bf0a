// The raw writes of the host: the data version, an entry and a record behind the last ones, as they stand.
ghost use Rattle.std.specs.Prelude.{ℕ, ◌≡◌, false, List};
ghost use Rattle.words.specs.Refusals.{status_of};
ghost use Rattle.state.specs.Table.{table_of};
ghost use Rattle.script_lines.specs.Values.{bytes_at};
ghost use Rattle.script_answers.specs.Done.{done_of};
ghost use Rattle.script_events.specs.Writes.{set_version, entry_fits, push_entry, record_word, record_fits, push_record, host_write};

use script_answers::{Answer, Tail};
use script_lines::{Line, long, scene_key};
use state::ScenesState;
use text_input::part;
use words::{Limits, Refusal, SceneKey, Slot};

// What a write of the host answers.
fn raw(answer: Result<(), Refusal>, state: ScenesState) -> Answer
    ensures { result ≡ record { status = status_of answer; save = false; state = state; tail = Tail.Nothing } }
{
    Answer {
        status: words::status_of(answer),
        save: false,
        state,
        tail: Tail::Nothing,
    }
}

// K: the host sets the data version.
fn set_version(mut state: ScenesState, read: Line) -> Answer
    ensures { (k t f w : List ℕ) → done_of result (table_of result.state k t f w) ≡ set_version read.values (table_of state k t f w) }
{
    state.dataver = long(read.values[0]);
    raw(Ok(()), state)
}

// Whether one more entry has a fabric, and fits its fields, the table and slices of these lengths.
fn entry_fits(
    state: ScenesState,
    fabric: u8,
    ext: usize,
    keys: usize,
    times: usize,
    fields: usize,
) -> bool
    ensures { result ≡ entry_fits state fabric ext keys times fields }
{
    let n = state.entries;
    if fabric == 0 {
        return false;
    }
    if Limits::MAX_EXT_FIELDS_LEN < ext {
        return false;
    }
    if state.size <= n {
        return false;
    }
    if Limits::MAX_SCENES <= n {
        return false;
    }
    if keys <= n {
        return false;
    }
    if times <= n {
        return false;
    }
    n * Slot::STRIDE + Slot::STRIDE <= fields
}

// e: the host writes an entry behind the last one, as it stands.
fn push_entry(
    mut state: ScenesState,
    keys: &mut [u64],
    times: &mut [u32],
    fields: &mut [u8],
    line: &[u8],
    read: Line,
) -> Answer
    ensures { (w : List ℕ) →
        done_of result (table_of result.state keys.new times.new fields.new w)
        ≡ push_entry read.values (bytes_at read line.now 5)
        (table_of state keys.old times.old fields.old w) }
{
    let ext = part(line, read.starts[5], read.values[5] as usize);
    let key = scene_key(read);
    let time = long(read.values[4]);
    let n = state.entries;
    if entry_fits(
        state,
        key.fabric,
        ext.len(),
        keys.len(),
        times.len(),
        fields.len(),
    ) {
        slot_writes::put(keys, times, fields, n, key.word(), time, ext);
        state.entries = n + 1;
        return raw(Ok(()), state);
    }
    raw(Err(Refusal::Unsound), state)
}

// The word of a record that is valid or not.
fn record_word(key: SceneKey, valid: u64) -> u64
    ensures { result ≡ record_word key valid }
{
    if valid == 0 {
        return key.word();
    }
    key.valid_record()
}

// Whether one more record has a fabric, and fits the table and a slice of this length.
fn record_fits(state: ScenesState, fabric: u8, records: usize) -> bool
    ensures { result ≡ record_fits state fabric records }
{
    let n = state.recorded;
    if fabric == 0 {
        return false;
    }
    if state.size <= n {
        return false;
    }
    n < records
}

// r: the host writes a record behind the last one, as it stands.
fn push_record(mut state: ScenesState, records: &mut [u64], read: Line) -> Answer
    ensures { (k t f : List ℕ) →
        done_of result (table_of result.state k t f records.new)
        ≡ push_record read.values (table_of state k t f records.old) }
{
    let key = scene_key(read);
    let word = record_word(key, read.values[4]);
    let n = state.recorded;
    if record_fits(state, key.fabric, records.len()) {
        records[n] = word;
        state.recorded = n + 1;
        return raw(Ok(()), state);
    }
    raw(Err(Refusal::Unsound), state)
}

// A raw write of the host.
pub fn host_write(
    state: ScenesState,
    keys: &mut [u64],
    times: &mut [u32],
    fields: &mut [u8],
    records: &mut [u64],
    line: &[u8],
    read: Line,
) -> Answer
    ensures { let before = table_of state keys.old times.old fields.old records.old in
        let after = table_of result.state keys.new times.new fields.new records.new in
        done_of result after ≡ host_write read.letter read.values (bytes_at read line.now) before }
{
    let letter = read.letter;
    match letter {
        b'K' => set_version(state, read),
        b'e' => push_entry(state, keys, times, fields, line, read),
        _ => push_record(state, records, read),
    }
}
