// Makes every call on tables that are not sound, each in one way only, and says what was answered and whether anything changed. Beside
// them a sound table, and one that holds no sense past its counts, which is sound too.
#![tactic(auto)]

ghost use Rattle.std.specs.Prelude.{◌≤◌};

use damaged_calls::{CALLS, key, make};
use state::ScenesState;
use std::io::Print;
use text_output::{end_line, put, put_status, put_text};

// What is damaged: nothing in the first row and in the last.
#[derive(Clone, Copy, PartialEq, Eq)]
enum Row {
    Sound,
    LargeTable,
    MoreEntries,
    MoreRecords,
    ShortKeys,
    ShortTimes,
    ShortFields,
    ShortRecords,
    LargeKey,
    EntryOfNoFabric,
    LongFields,
    LargeRecord,
    RecordOfNoFabric,
    NoSensePast,
}

const ROWS: [Row; 14] = [
    Row::Sound,
    Row::LargeTable,
    Row::MoreEntries,
    Row::MoreRecords,
    Row::ShortKeys,
    Row::ShortTimes,
    Row::ShortFields,
    Row::ShortRecords,
    Row::LargeKey,
    Row::EntryOfNoFabric,
    Row::LongFields,
    Row::LargeRecord,
    Row::RecordOfNoFabric,
    Row::NoSensePast,
];

// Room for the N of a table that is too large, which is one more than a table may have, and for the field bytes of as many entries.
const ROOM: usize = 1025;

const FIELD_ROOM: usize = 132_225;

// What a row shows of a call.
#[derive(Clone, Copy)]
struct Shown {
    status: u8,
    changed: bool,
}

// The share mode, and bits that mean nothing: every call hands them back.
const MODES: u8 = 0xA5;

// N 3 with two entries and two records, unless the head is what is damaged.
fn head(row: Row) -> ScenesState {
    let mut state = ScenesState::with_modes(3, MODES);
    state.entries = 2;
    state.recorded = 2;
    state.dataver = 7;
    match row {
        Row::LargeTable => {
            state.size = 1025;
        }
        Row::MoreEntries => {
            state.entries = 4;
        }
        Row::MoreRecords => {
            state.recorded = 4;
        }
        _ => {}
    }
    state
}

// What stands past the counts.
fn past(row: Row) -> u64 {
    if row == Row::NoSensePast {
        return 0xFFFF_FFFF_FFFF_FFFF;
    }
    0
}

// The key words, by position: the second one can be 2^48 too large, or of fabric 0.
fn key_at(row: Row, i: usize) -> u64 {
    match i {
        0 => key().word(),
        1 => match row {
            Row::LargeKey => 0x1_0200_0100_0005,
            Row::EntryOfNoFabric => 0x0000_0100_0005,
            _ => 0x0200_0100_0005,
        },
        _ => past(row),
    }
}

// The record words, by position: the second one can be 2^49 too large, or of fabric 0.
fn record_at(row: Row, i: usize) -> u64 {
    match i {
        0 => key().valid_record(),
        1 => match row {
            Row::LargeRecord => 0x2_0200_0100_0005,
            Row::RecordOfNoFabric => 0x1_0000_0100_0005,
            _ => 0x1_0200_0100_0005,
        },
        _ => past(row),
    }
}

// The field bytes, by position: no fields, then one byte, or 129 of them where these are damaged.
fn field_at(row: Row, i: usize) -> u8 {
    match i {
        129 => {
            if row == Row::LongFields {
                return 129;
            }
            1
        }
        258 => (past(row) % 256) as u8,
        _ => 0,
    }
}

// Fills a slice with what stands at each position.
fn fill<T: Copy, F: Fn(usize) -> T>(items: &mut [T], at: F)
    requires { F.IsAlwaysCallable at }
{
    for (i, item) in items.iter_mut().enumerate() {
        *item = at(i);
    }
}

// Whether a row's memory is as it was before a call, when every time was 0.
fn kept(row: Row, keys: &[u64], times: &[u32], fields: &[u8], records: &[u64]) -> bool {
    keys.iter().enumerate().all(|(i, k)| *k == key_at(row, i))
        && times.iter().all(|t| *t == 0)
        && fields
            .iter()
            .enumerate()
            .all(|(i, b)| *b == field_at(row, i))
        && records
            .iter()
            .enumerate()
            .all(|(i, r)| *r == record_at(row, i))
}

// A call on the memory of a row, and whether it left head, memory and scene list buffer as they were, without a save mark.
fn show(
    row: Row,
    call: u8,
    keys: &mut [u64],
    times: &mut [u32],
    fields: &mut [u8],
    records: &mut [u64],
) -> Shown {
    fill(keys, |i| key_at(row, i));
    fill(fields, |i| field_at(row, i));
    fill(records, |i| record_at(row, i));
    let done = make(call, head(row), keys, times, fields, records);
    let after = done.state;
    let kept = kept(row, keys, times, fields, records) & (after == head(row));
    Shown {
        status: done.status,
        changed: !kept | done.save | done.listed,
    }
}

// How much of a slice is lent: all of it, or a little less than three entries take up if it is this row's that is too short.
fn lent(row: Row, short: Row, few: usize, all: usize) -> usize
    requires { few ≤ all }
    ensures { result ≤ all }
{
    if row == short {
        return few;
    }
    all
}

// A call on memory of its own, one slice of which can be too short.
fn seen(row: Row, call: u8) -> Shown {
    let mut keys = [0u64; ROOM];
    let mut times = [0u32; ROOM];
    let mut fields = [0u8; FIELD_ROOM];
    let mut records = [0u64; ROOM];
    let k = lent(row, Row::ShortKeys, 2, ROOM);
    let t = lent(row, Row::ShortTimes, 2, ROOM);
    let f = lent(row, Row::ShortFields, 386, FIELD_ROOM);
    let r = lent(row, Row::ShortRecords, 2, ROOM);
    show(
        row,
        call,
        &mut keys[..k],
        &mut times[..t],
        &mut fields[..f],
        &mut records[..r],
    )
}

// The name of a row.
fn put_name(out: &mut [u8], at: usize, row: Row) -> usize {
    match row {
        Row::Sound => put_text(out, at, b"sound:"),
        Row::LargeTable => put_text(out, at, b"N 1,025:"),
        Row::MoreEntries => put_text(out, at, b"more entries than N:"),
        Row::MoreRecords => put_text(out, at, b"more records than N:"),
        Row::ShortKeys => put_text(out, at, b"keys too short:"),
        Row::ShortTimes => put_text(out, at, b"times too short:"),
        Row::ShortFields => put_text(out, at, b"fields too short:"),
        Row::ShortRecords => put_text(out, at, b"records too short:"),
        Row::LargeKey => put_text(out, at, b"key word of 2^48:"),
        Row::EntryOfNoFabric => put_text(out, at, b"entry of fabric 0:"),
        Row::LongFields => put_text(out, at, b"129 field bytes:"),
        Row::LargeRecord => put_text(out, at, b"record word of 2^49:"),
        Row::RecordOfNoFabric => put_text(out, at, b"record of fabric 0:"),
        Row::NoSensePast => put_text(out, at, b"no sense past the counts:"),
    }
}

// A status, with a mark behind it if something changed.
fn put_shown(out: &mut [u8], at: usize, shown: Shown) -> usize {
    let next = put_status(out, at, shown.status);
    if shown.changed {
        return put(out, next, b'*');
    }
    next
}

// A row: its name, and what each call shows.
fn put_row(out: &mut [u8], at: usize, row: Row) -> usize {
    let mut next = put_name(out, at, row);
    for call in 0..CALLS {
        next = put_shown(out, next, seen(row, call));
    }
    end_line(out, next)
}

// A write that fails ends nothing, here and below: the calls of the rows after it are made all the same.
fn print_row(rt: &impl Print, row: Row) {
    let mut out = [0u8; 256];
    let n = put_row(&mut out, 0, row);
    if n <= 256 {
        let _ = rt.write_all(&out[..n]);
    }
}

fn main(rt: HostRuntime) {
    let _ = rt.write_all(
        b"add, store, remove, remove all, copy, recall, notice, fabric removal, \
          factory reset, startup, fail-safe commit, fail-safe expiry, view, recall's lookup, \
          membership, info, is_sound, field_bytes; * something changed\n",
    );
    for row in ROWS {
        print_row(&rt, row);
    }
}
