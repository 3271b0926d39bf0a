// What a load writes: the entries and the records of an image that nothing refuses.
ghost use Rattle.std.specs.Prelude.{◌≡◌, true, ◌*◌, ◌≤◌, length, Some};
ghost use Rattle.words.specs.Constants.{stride};
ghost use Rattle.slots.specs.Slots.{slots_of, laid};
ghost use Rattle.state.specs.Table.{table_of, Room};
ghost use Rattle.image_reader.specs.Image.{entries_from, records_from};
ghost use Rattle.image_load.specs.Loading.{put_entries, restored};
ghost use Rattle.image_gate.specs.Deciding.{readable, listed, image_with};

use image_reader::{Arrays, entry_at, record_at};
use state::ScenesState;
use tlv::{Step, member_at};

// Writes the entries of an array to the front of the slices. How many they are.
fn put_entries(
    keys: &mut [u64],
    times: &mut [u32],
    fields: &mut [u8],
    bytes: &[u8],
    first: usize,
) -> usize
    requires first_value { readable (entries_from bytes.now first) ≡ true }
    requires first_in_bounds { length (listed (entries_from bytes.now first)) ≤ length keys.old }
    requires first_in_bounds_2 { length (listed (entries_from bytes.now first)) ≤ length times.old }
    requires stride_in_bounds { length (listed (entries_from bytes.now first)) * stride ≤ length fields.old }
    ensures { let before = slots_of keys.old times.old fields.old in
        let after = slots_of keys.new times.new fields.new in
        let entries = listed (entries_from bytes.now first) in
        (result ≡ length entries) × (after ≡ put_entries 0 entries before) }
{
    let mut i = first;
    let mut n: usize = 0;
    while let Step::Member(_, next) = member_at(bytes, i) {
        let Some(slot) = entry_at(bytes, i) else {
            return n;
        };
        let ext = &bytes[slot.from..slot.to];
        slot_writes::put(keys, times, fields, n, slot.key, slot.time, ext);
        n += 1;
        i = next;
    }
    n
}

// Writes the record words of an array to the front of the slice. How many they are.
fn put_records(records: &mut [u64], bytes: &[u8], first: usize) -> usize
    requires first_value { readable (records_from bytes.now first) ≡ true }
    requires first_in_bounds { length (listed (records_from bytes.now first)) ≤ length records.old }
    ensures { let words = listed (records_from bytes.now first) in
        (result ≡ length words) × (records.new ≡ laid words records.old) }
{
    let mut i = first;
    let mut n: usize = 0;
    while let Step::Member(_, next) = member_at(bytes, i) {
        let Some(word) = record_at(bytes, i) else {
            return n;
        };
        records[n] = word;
        n += 1;
        i = next;
    }
    n
}

// The table of an image whose arrays start at two positions, in place of what it held.
pub(crate) fn restore(
    mut state: ScenesState,
    keys: &mut [u64],
    times: &mut [u32],
    fields: &mut [u8],
    records: &mut [u64],
    bytes: &[u8],
    arrays: Arrays,
) -> ScenesState
    requires room { Room (table_of state keys.old times.old fields.old records.old) }
    requires first_value { readable (entries_from bytes.now arrays.entries) ≡ true }
    requires first_len_bound { length (listed (entries_from bytes.now arrays.entries)) ≤ state.size }
    requires second_value { readable (records_from bytes.now arrays.records) ≡ true }
    requires second_len_bound { length (listed (records_from bytes.now arrays.records)) ≤ state.size }
    ensures { let before = table_of state keys.old times.old fields.old records.old in
        let after = table_of result keys.new times.new fields.new records.new in
        let image = image_with (listed (entries_from bytes.now arrays.entries)) (listed (records_from bytes.now arrays.records)) in
        after ≡ restored (Some image) before }
{
    let count = put_entries(keys, times, fields, bytes, arrays.entries);
    let recorded = put_records(records, bytes, arrays.records);
    state.entries = count;
    state.recorded = recorded;
    state.bump_info_dataver()
}
