// An image written into a lent buffer, from a position on: each function answers the next one.
ghost use Rattle.std.specs.Prelude.{◌≡◌, true, ◌*◌, ◌≤◌, length, take};
ghost use mathlib.Core.List.{map, flat_map};
ghost use Rattle.words.specs.Constants.{stride};
ghost use Rattle.words.specs.Below.{positions};
ghost use Rattle.slots.specs.Slots.{slots_of, entry_at, lengths_sound};
ghost use Rattle.text_output.specs.Writing.{sheet, puts};
ghost use Rattle.image_writer.specs.Image.{key_bytes, entry_of, entry_bytes, record_bytes, array_bytes, image_bytes};

use tlv::{ValueType, put_bool, put_head, put_number, put_octets, put_plain};
use words::{endpoint_of, fabric_of, group_of, is_valid, key_of_record, scene_of};

// The context tags in an image.
struct Tag;

impl Tag {
    const ENTRIES: u8 = 0;

    const RECORDS: u8 = 1;

    const FABRIC: u8 = 0;

    const ENDPOINT: u8 = 1;

    const GROUP: u8 = 2;

    const SCENE: u8 = 3;

    const TIME: u8 = 4;

    const FIELDS: u8 = 5;

    const VALID: u8 = 4;
}

fn put_key(out: &mut [u8], at: usize, key: u64) -> usize
    ensures { sheet out.new result ≡ puts (key_bytes key) (sheet out.old at) }
{
    let a = put_number(out, at, Tag::FABRIC, fabric_of(key));
    let b = put_number(out, a, Tag::ENDPOINT, u64::from(endpoint_of(key)));
    let c = put_number(out, b, Tag::GROUP, u64::from(group_of(key)));
    put_number(out, c, Tag::SCENE, u64::from(scene_of(key)))
}

fn put_entry(out: &mut [u8], at: usize, key: u64, time: u32, fields: &[u8]) -> usize
    ensures { sheet out.new result ≡ puts (entry_bytes (entry_of key time fields.now)) (sheet out.old at) }
{
    let a = put_plain(out, at, ValueType::STRUCT);
    let b = put_key(out, a, key);
    let c = put_number(out, b, Tag::TIME, u64::from(time));
    let d = put_octets(out, c, Tag::FIELDS, fields);
    put_plain(out, d, ValueType::END_CNT)
}

fn put_record(out: &mut [u8], at: usize, word: u64) -> usize
    ensures { sheet out.new result ≡ puts (record_bytes word) (sheet out.old at) }
{
    let a = put_plain(out, at, ValueType::STRUCT);
    let b = put_key(out, a, key_of_record(word));
    let c = put_bool(out, b, Tag::VALID, is_valid(word));
    put_plain(out, c, ValueType::END_CNT)
}

// The first n entries.
fn put_entries(
    out: &mut [u8],
    at: usize,
    keys: &[u64],
    times: &[u32],
    fields: &[u8],
    n: usize,
) -> usize
    requires n_in_bounds { n ≤ length keys.now }
    requires n_in_bounds_2 { n ≤ length times.now }
    requires stride_in_bounds { n * stride ≤ length fields.now }
    requires n_value { lengths_sound fields.now n ≡ true }
    ensures { let slots = slots_of keys.now times.now fields.now in
        sheet out.new result ≡ puts (flat_map entry_bytes (map (entry_at slots) (positions n))) (sheet out.old at) }
{
    let mut next = at;
    for i in 0..n {
        next = put_entry(out, next, keys[i], times[i], slots::field_bytes(fields, i));
    }
    next
}

// The first n records.
fn put_records(out: &mut [u8], at: usize, records: &[u64], n: usize) -> usize
    requires { n ≤ length records.now }
    ensures { sheet out.new result ≡ puts (flat_map record_bytes (take n records.now)) (sheet out.old at) }
{
    let mut next = at;
    for word in &records[..n] {
        next = put_record(out, next, *word);
    }
    next
}

// The array of the first n entries.
fn put_entry_array(
    out: &mut [u8],
    at: usize,
    keys: &[u64],
    times: &[u32],
    fields: &[u8],
    n: usize,
) -> usize
    requires n_in_bounds { n ≤ length keys.now }
    requires n_in_bounds_2 { n ≤ length times.now }
    requires stride_in_bounds { n * stride ≤ length fields.now }
    requires n_value { lengths_sound fields.now n ≡ true }
    ensures { let slots = slots_of keys.now times.now fields.now in
        sheet out.new result ≡ puts (array_bytes 0 (flat_map entry_bytes (map (entry_at slots) (positions n)))) (sheet out.old at) }
{
    let a = put_head(out, at, Tag::ENTRIES, ValueType::ARRAY);
    let b = put_entries(out, a, keys, times, fields, n);
    put_plain(out, b, ValueType::END_CNT)
}

// The array of the first n records.
fn put_record_array(out: &mut [u8], at: usize, records: &[u64], n: usize) -> usize
    requires { n ≤ length records.now }
    ensures { sheet out.new result ≡ puts (array_bytes 1 (flat_map record_bytes (take n records.now))) (sheet out.old at) }
{
    let a = put_head(out, at, Tag::RECORDS, ValueType::ARRAY);
    let b = put_records(out, a, records, n);
    put_plain(out, b, ValueType::END_CNT)
}

// Writes the image of the first entries and the first records into the front of a buffer, and answers where it ends.
pub fn put_image(
    out: &mut [u8],
    keys: &[u64],
    times: &[u32],
    fields: &[u8],
    entries: usize,
    records: &[u64],
    recorded: usize,
) -> usize
    requires entries_in_bounds { entries ≤ length keys.now }
    requires entries_in_bounds_2 { entries ≤ length times.now }
    requires stride_in_bounds { entries * stride ≤ length fields.now }
    requires entries_value { lengths_sound fields.now entries ≡ true }
    requires recorded_in_bounds { recorded ≤ length records.now }
    ensures { let slots = slots_of keys.now times.now fields.now in
        let image = image_bytes (map (entry_at slots) (positions entries)) (take recorded records.now) in
        sheet out.new result ≡ puts image (sheet out.old 0) }
{
    let a = put_plain(out, 0, ValueType::STRUCT);
    let b = put_entry_array(out, a, keys, times, fields, entries);
    let c = put_record_array(out, b, records, recorded);
    put_plain(out, c, ValueType::END_CNT)
}
