// Entries written to the lent slices: a new one, a copy under another key, one moved to an earlier position, and all of a range dropped.
#![tactic(auto)]

ghost use Rattle.std.specs.Prelude.{◌≡◌, ◌+◌, ◌*◌, ◌<◌, ◌≤◌, length, get_or};
ghost use Rattle.words.specs.Constants.{stride, max_fields};
ghost use Rattle.slots.specs.Slots.{length_at, fields_at, overlay, slots_of, put_slot, copy_slot, length_then, part, outside, gathered};

use words::{KeyRange, Limits, Slot};

// Writes a length byte and as many bytes from base on. A loop: `copy_from_slice` would have the libraries for C call `memmove`.
fn put_bytes(fields: &mut [u8], base: usize, ext: &[u8])
    requires ext_len_bound { length ext.now ≤ max_fields }
    requires stride_in_bounds { base + stride ≤ length fields.old }
    ensures { fields.new ≡ overlay base (length_then ext.now) fields.old }
{
    fields[base] = ext.len() as u8;
    for i in 0..ext.len() {
        fields[base + 1 + i] = ext[i];
    }
}

// Writes an entry at a position: its field bytes past the new length stay.
pub fn put(
    keys: &mut [u64],
    times: &mut [u32],
    fields: &mut [u8],
    at: usize,
    key: u64,
    time: u32,
    ext: &[u8],
)
    requires ext_len_bound { length ext.now ≤ max_fields }
    requires at_in_bounds { at < length keys.old }
    requires at_in_bounds_2 { at < length times.old }
    requires stride_in_bounds { at * stride + stride ≤ length fields.old }
    ensures { let before = slots_of keys.old times.old fields.old in
        let after = slots_of keys.new times.new fields.new in
        after ≡ put_slot at key time ext.now before }
{
    keys[at] = key;
    times[at] = time;
    put_bytes(fields, at * Slot::STRIDE, ext);
}

// Copies the bytes of an entry from one place to an earlier one, or to the same. The last byte is apart, so that the others are whole
// vectors: 37 instructions in place of the 50 of `copy_within`, or of a loop over all 129.
fn copy_bytes(fields: &mut [u8], from: usize, to: usize)
    requires to_le_from { to ≤ from }
    requires stride_in_bounds { from + stride ≤ length fields.old }
    ensures { fields.new ≡ overlay to (part from stride fields.old) fields.old }
{
    for i in 0..Limits::MAX_EXT_FIELDS_LEN {
        fields[to + i] = fields[from + i];
    }
    let last = Limits::MAX_EXT_FIELDS_LEN;
    fields[to + last] = fields[from + last];
}

// Copies an entry with all its bytes to an earlier position, or to the same.
pub fn copy_slot(keys: &mut [u64], times: &mut [u32], fields: &mut [u8], from: usize, to: usize)
    requires to_le_from { to ≤ from }
    requires from_in_bounds { from < length keys.old }
    requires from_in_bounds_2 { from < length times.old }
    requires stride_in_bounds { from * stride + stride ≤ length fields.old }
    ensures { let before = slots_of keys.old times.old fields.old in
        let after = slots_of keys.new times.new fields.new in
        after ≡ copy_slot from to before }
{
    if to < from {
        keys[to] = keys[from];
        times[to] = times[from];
        copy_bytes(fields, from * Slot::STRIDE, to * Slot::STRIDE);
    }
}

// Drops those of the first n entries whose key word lies in a range: the others move to the front, in order. How many they are.
pub fn retain(
    keys: &mut [u64],
    times: &mut [u32],
    fields: &mut [u8],
    n: usize,
    range: KeyRange,
) -> usize
    requires n_in_bounds { n ≤ length keys.old }
    requires n_in_bounds_2 { n ≤ length times.old }
    requires stride_in_bounds { n * stride ≤ length fields.old }
    ensures { let before = slots_of keys.old times.old fields.old in
        let after = slots_of keys.new times.new fields.new in
        let kept = outside keys.old n range in
        (result ≡ length kept) × (after ≡ gathered kept before) }
{
    let mut j = 0;
    for i in 0..n {
        if !range.holds(keys[i]) {
            copy_slot(keys, times, fields, i, j);
            j += 1;
        }
    }
    j
}

// Writes a length byte and the bytes up to it from one place of the field bytes to another, of which no byte is part of the first
// unless they are the same.
fn put_bytes_of(fields: &mut [u8], from: usize, to: usize)
    requires stride_in_bounds { from * stride + stride ≤ length fields.old }
    requires stride_in_bounds_2 { to * stride + stride ≤ length fields.old }
    requires from_bound { length_at fields.old from ≤ max_fields }
    ensures { fields.new ≡ overlay (to * stride) (length_then (fields_at fields.old from)) fields.old }
{
    let source = from * Slot::STRIDE;
    let size = fields[source] as usize;
    fields.copy_within(source..source + 1 + size, to * Slot::STRIDE);
}

// Writes the time and the fields of one entry at another position, under a key word: there the bytes past the new length stay.
pub fn put_copy(
    keys: &mut [u64],
    times: &mut [u32],
    fields: &mut [u8],
    from: usize,
    to: usize,
    key: u64,
)
    requires to_in_bounds { to < length keys.old }
    requires from_in_bounds { from < length times.old }
    requires to_in_bounds_2 { to < length times.old }
    requires stride_in_bounds { from * stride + stride ≤ length fields.old }
    requires stride_in_bounds_2 { to * stride + stride ≤ length fields.old }
    requires from_bound { length_at fields.old from ≤ max_fields }
    ensures { let before = slots_of keys.old times.old fields.old in
        let after = slots_of keys.new times.new fields.new in
        after ≡ put_slot to key (get_or times.old from 0) (fields_at fields.old from) before }
{
    let time = times[from];
    keys[to] = key;
    times[to] = time;
    put_bytes_of(fields, from, to);
}
