// Runs the notice on record structs and the notice on record words on the same four records, row by row: `check::expect` holds both to
// the same outcome, which is proved for every head, record and endpoint; what is written is what the structs' pass answered.
#![tactic(auto)]

ghost use Rattle.std.specs.Prelude.{◌≡◌, true, map};
ghost use Rattle.notices.specs.Notice.{answer_of, notice_records};
ghost use Rattle.notices.specs.Packed.{pack};
ghost use Rattle.state.specs.Answer.{result_of};
ghost use Rattle.lifecycle.specs.Lifecycle.{scenable_attribute_changed};
ghost use Rattle.notices_run.specs.Rows.{table_for};

use notices::CurrentScene;
use scenes::ScenesHandler;
use state::{Outcome, ScenesState};
use std::io::Print;
use words::{KeyWord, SceneKey};

// What the pass over structs left.
#[derive(Clone, Copy)]
struct Passed {
    outcome: Outcome,
    records: [CurrentScene; 4],
}

// What the pass over words left.
#[derive(Clone, Copy)]
struct PassedWords {
    outcome: Outcome,
    words: [u64; 4],
}

// The record word of a struct.
fn pack(c: CurrentScene) -> u64
    ensures { result ≡ pack c }
{
    let key = SceneKey {
        fabric: c.fab_idx,
        endpoint: c.endpoint_id,
        group: c.group_id,
        scene: c.scene_id,
    };
    if c.valid {
        return key.valid_record();
    }
    key.word()
}

fn pack_all(records: [CurrentScene; 4]) -> [u64; 4]
    ensures { result ≡ map pack records }
{
    [
        pack(records[0]),
        pack(records[1]),
        pack(records[2]),
        pack(records[3]),
    ]
}

// The pass over structs.
fn on_structs(state: ScenesState, records: [CurrentScene; 4], endpoint: u16) -> Passed
    ensures { answer_of result.outcome result.records ≡ notice_records endpoint state records }
{
    let mut after = records;
    let outcome = notices::notice_records(state, &mut after, endpoint);
    Passed {
        outcome,
        records: after,
    }
}

// The pass over words, on a table with room for eight sound entries.
fn on_words(state: ScenesState, words: [u64; 4], endpoint: u16) -> PassedWords
    ensures { result_of result.outcome.status result.outcome.save (table_for result.outcome.state result.words) ≡ scenable_attribute_changed endpoint (table_for state words) }
{
    let keys = [KeyWord::FABRIC; 8];
    let times = [0u32; 8];
    let fields = [0u8; 1032];
    let mut after = words;
    let outcome = ScenesHandler { state }.scenable_attribute_changed(
        &keys, &times, &fields, &mut after, endpoint,
    );
    PassedWords {
        outcome,
        words: after,
    }
}

// Whether both passes answer the same and leave the same words.
fn agree(state: ScenesState, records: [CurrentScene; 4], endpoint: u16) -> bool
    ensures { result ≡ true }
{
    let s = on_structs(state, records, endpoint);
    let w = on_words(state, pack_all(records), endpoint);
    let after = s.records;
    let words = w.words;
    (s.outcome == w.outcome) & (pack_all(after) == words)
}

// Writes what the pass over structs left: status, data version, and a digit for each record, 1 while it is valid. A write that fails ends
// nothing, here and below: the rows after it are run all the same.
fn show(rt: &impl Print, name: &[u8], passed: Passed) {
    let outcome = passed.outcome;
    let state = outcome.state;
    let records = passed.records;
    let status = outcome.status;
    let dataver = state.dataver;
    let _ = rt.write_all(name);
    let _ = print!(rt; ": {status} {dataver} ");
    show_mark(rt, records[0]);
    show_mark(rt, records[1]);
    show_mark(rt, records[2]);
    show_mark(rt, records[3]);
    let _ = rt.write_all(b"\n");
}

fn show_mark(rt: &impl Print, c: CurrentScene) {
    let _ = rt.print(c.valid as u8);
}

// A row: both passes agree, and what they left is written.
fn row(
    rt: &impl Print,
    name: &[u8],
    state: ScenesState,
    records: [CurrentScene; 4],
    endpoint: u16,
) {
    check::expect(agree(state, records, endpoint));
    show(rt, name, on_structs(state, records, endpoint));
}

// Modes that no pass looks at: both hand them back.
const MODES: u8 = 0xA5;

fn head(size: usize, entries: usize, recorded: usize, dataver: u32) -> ScenesState {
    ScenesState {
        size,
        entries,
        recorded,
        dataver,
        modes: MODES,
    }
}

// A record on scene 5 of group 7.
fn current(fab_idx: u8, endpoint_id: u16, valid: bool) -> CurrentScene {
    CurrentScene {
        fab_idx,
        endpoint_id,
        group_id: 7,
        scene_id: 5,
        valid,
    }
}

// Four fabrics' valid records on endpoint 1.
fn all_valid() -> [CurrentScene; 4] {
    [
        current(1, 1, true),
        current(2, 1, true),
        current(3, 1, true),
        current(255, 1, true),
    ]
}

// One record on endpoint 2, and one that is invalid.
fn mixed() -> [CurrentScene; 4] {
    [
        current(1, 1, true),
        current(2, 1, false),
        current(3, 2, true),
        current(4, 1, true),
    ]
}

// The third record has no fabric.
fn nameless() -> [CurrentScene; 4] {
    [
        current(1, 1, true),
        current(2, 1, true),
        current(0, 1, true),
        current(4, 1, true),
    ]
}

fn passes(rt: &impl Print) {
    row(rt, b"none hit", head(4, 0, 4, 7), mixed(), 3);
    row(rt, b"one hit", head(4, 0, 4, 7), mixed(), 2);
    row(rt, b"all hit", head(4, 0, 4, 7), all_valid(), 1);
    row(rt, b"invalid stays", head(4, 4, 4, 7), mixed(), 1);
    row(rt, b"other endpoint", head(4, 0, 4, 7), all_valid(), 65535);
    row(
        rt,
        b"version wraps",
        head(4, 0, 4, 4_294_967_295),
        all_valid(),
        1,
    );
    row(rt, b"past the count", head(4, 0, 2, 7), all_valid(), 1);
    row(rt, b"no record", head(3, 0, 0, 7), all_valid(), 1);
    row(
        rt,
        b"no fabric past the count",
        head(4, 0, 2, 7),
        nameless(),
        1,
    );
}

fn refusals(rt: &impl Print) {
    row(rt, b"N above 1024", head(1025, 0, 0, 7), all_valid(), 1);
    row(rt, b"entries above N", head(3, 4, 3, 7), all_valid(), 1);
    row(rt, b"records above N", head(3, 0, 4, 7), all_valid(), 1);
    row(
        rt,
        b"slice shorter than N",
        head(5, 0, 4, 7),
        all_valid(),
        1,
    );
    row(rt, b"no fabric", head(4, 0, 4, 7), nameless(), 1);
}

fn main(rt: HostRuntime) {
    passes(&rt);
    refusals(&rt);
}
