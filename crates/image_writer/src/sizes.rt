// How many bytes an image takes. Of the field bytes only the lengths are looked at.
ghost use Rattle.std.specs.Prelude.{◌≡◌, true, ◌*◌, ◌≤◌, length, take};
ghost use mathlib.Core.List.{map, flat_map};
ghost use Rattle.words.specs.Constants.{stride, max_scenes, max_fields};
ghost use Rattle.words.specs.Below.{positions};
ghost use Rattle.slots.specs.Slots.{slots_of, entry_at, lengths_sound};
ghost use Rattle.image_writer.specs.Image.{entry_bytes, record_bytes, image_bytes, key_length, entry_length, record_length, image_length_max};

use tlv::{number_size, octets_size};
use words::{endpoint_of, fabric_of, group_of, key_of_record, scene_of};

// How long an image can be.
pub struct ImageLength;

impl ImageLength {
    // The most bytes that an entry and a record take together.
    const SCENE_MAX: usize = 171;

    // What the containers around them take.
    const FRAME: usize = 8;

    // What the structure of an entry takes, and that of a record with its mark.
    const ENTRY_FRAME: usize = 2;

    const RECORD_FRAME: usize = 4;

    // No image of a table of so many places has more bytes than this.
    pub fn most(size: usize) -> usize
        requires { size ≤ max_scenes }
        ensures { result ≡ image_length_max size }
    {
        ImageLength::SCENE_MAX * size + ImageLength::FRAME
    }
}

#[tactic(auto, using(tlv::proofs::Codes::number_size_le))]
fn key_len(key: u64) -> usize
    ensures { result ≡ key_length key }
{
    number_size(fabric_of(key))
        + number_size(u64::from(endpoint_of(key)))
        + number_size(u64::from(group_of(key)))
        + number_size(u64::from(scene_of(key)))
}

// An entry with so many field bytes.
#[tactic(auto, using(tlv::proofs::Codes::number_size_le))]
fn entry_len(key: u64, time: u32, fields: usize) -> usize
    requires { fields ≤ max_fields }
    ensures { result ≡ entry_length key time fields }
{
    ImageLength::ENTRY_FRAME + key_len(key) + number_size(u64::from(time)) + octets_size(fields)
}

#[tactic(auto, using(tlv::proofs::Codes::number_size_le))]
fn record_len(word: u64) -> usize
    ensures { result ≡ record_length word }
{
    ImageLength::RECORD_FRAME + key_len(key_of_record(word))
}

// The first n entries.
fn entries_len(keys: &[u64], times: &[u32], fields: &[u8], n: usize) -> usize
    requires n_le_max_scenes { n ≤ max_scenes }
    requires n_in_bounds { n ≤ length keys.now }
    requires n_in_bounds_2 { n ≤ length times.now }
    requires stride_in_bounds { n * stride ≤ length fields.now }
    requires n_value { lengths_sound fields.now n ≡ true }
    ensures { let slots = slots_of keys.now times.now fields.now in
        result ≡ length (flat_map entry_bytes (map (entry_at slots) (positions n))) }
{
    let mut len = 0;
    for i in 0..n {
        len += entry_len(keys[i], times[i], slots::length_at(fields, i));
    }
    len
}

// The first n records.
fn records_len(records: &[u64], n: usize) -> usize
    requires n_le_max_scenes { n ≤ max_scenes }
    requires n_in_bounds { n ≤ length records.now }
    ensures { result ≡ length (flat_map record_bytes (take n records.now)) }
{
    let mut len = 0;
    for word in &records[..n] {
        len += record_len(*word);
    }
    len
}

// How many bytes the image of the first entries and the first records takes.
pub fn image_len(
    keys: &[u64],
    times: &[u32],
    fields: &[u8],
    entries: usize,
    records: &[u64],
    recorded: usize,
) -> usize
    requires entries_le_max_scenes { entries ≤ max_scenes }
    requires entries_in_bounds { entries ≤ length keys.now }
    requires entries_in_bounds_2 { entries ≤ length times.now }
    requires stride_in_bounds { entries * stride ≤ length fields.now }
    requires entries_value { lengths_sound fields.now entries ≡ true }
    requires recorded_le_max_scenes { recorded ≤ max_scenes }
    requires recorded_in_bounds { recorded ≤ length records.now }
    ensures { let slots = slots_of keys.now times.now fields.now in
        result ≡ length (image_bytes (map (entry_at slots) (positions entries)) (take recorded records.now)) }
{
    ImageLength::FRAME + entries_len(keys, times, fields, entries) + records_len(records, recorded)
}
