// The lent slices of the entries: key words, times, and for each entry a length byte with room for its fields. Here they are read; the crate
// slot_writes writes them.
#![tactic(auto)]

ghost use Rattle.std.specs.Prelude.{◌≡◌, true, not, ◌&&◌, ◌+◌, ◌*◌, ◌<◌, ◌≤◌, length, get_or, eqb, leb, None};
ghost use Rattle.words.specs.Constants.{stride, max_fields};
ghost use Rattle.words.specs.Below.{every_below};
ghost use Rattle.slots.specs.Slots.{first_key, count_keys, keys_sound, lengths_sound, entry_sound, searched, of_four, of_eight, length_at, fields_at, laid, scenes_inside};

use words::{KeyRange, KeyWord, Limits, Slot};

// What a walk over the entries that also looks for a key word answers where one of them is not sound.
#[derive(Clone, Copy)]
pub struct Unsound;

// Whether one of the eight key words from a position on is this one.
fn in_block(keys: &[u64], at: usize, key: u64) -> bool
    requires { at + 8 ≤ length keys.now }
    ensures { result ≡ of_eight (λ i. eqb (get_or keys.now i 0) key) at }
{
    (keys[at] == key)
        | (keys[at + 1] == key)
        | (keys[at + 2] == key)
        | (keys[at + 3] == key)
        | (keys[at + 4] == key)
        | (keys[at + 5] == key)
        | (keys[at + 6] == key)
        | (keys[at + 7] == key)
}

// The first of the first n positions that holds the key word, if it does not stand below a position.
fn find_from(keys: &[u64], from: usize, n: usize, key: u64) -> Option<usize>
    requires from_le_n { from ≤ n }
    requires n_in_bounds { n ≤ length keys.now }
    requires key_value { first_key keys.now from key ≡ None }
    ensures { result ≡ first_key keys.now n key }
{
    for i in from..n {
        if keys[i] == key {
            return Some(i);
        }
    }
    None
}

// The first of the positions up to the fourth from one on that holds the key word, if it does not stand below that one.
fn find_in_four(keys: &[u64], at: usize, key: u64) -> Option<usize>
    requires at_in_bounds { at + 4 ≤ length keys.now }
    requires key_value { first_key keys.now at key ≡ None }
    ensures { result ≡ first_key keys.now (at + 4) key }
{
    if keys[at] == key {
        return Some(at);
    }
    if keys[at + 1] == key {
        return Some(at + 1);
    }
    if keys[at + 2] == key {
        return Some(at + 2);
    }
    if keys[at + 3] == key {
        return Some(at + 3);
    }
    None
}

// The same of eight positions.
fn find_in_eight(keys: &[u64], at: usize, key: u64) -> Option<usize>
    requires at_in_bounds { at + 8 ≤ length keys.now }
    requires key_value { first_key keys.now at key ≡ None }
    ensures { result ≡ first_key keys.now (at + 8) key }
{
    if let Some(found) = find_in_four(keys, at, key) {
        return Some(found);
    }
    find_in_four(keys, at + 4, key)
}

// The first of the first n positions that holds the key word, in steps of eight: `position` over the key words takes 5.0 instructions an
// entry in place of 2.5, and 14 ns in place of 8 at 16 entries.
pub fn find(keys: &[u64], n: usize, key: u64) -> Option<usize>
    requires { n ≤ length keys.now }
    ensures { result ≡ first_key keys.now n key }
{
    let mut i = 0;
    while 8 <= n - i {
        if let Some(found) = find_in_eight(keys, i, key) {
            return Some(found);
        }
        i += 8;
    }
    find_from(keys, i, n, key)
}

// How many of the first n key words lie in a range. A loop, since `filter` and `count` take 8.2 instructions an entry in place of 2.8.
pub fn count(keys: &[u64], n: usize, range: KeyRange) -> usize
    requires { n ≤ length keys.now }
    ensures { result ≡ count_keys keys.now n range }
{
    let mut count: usize = 0;
    for word in &keys[..n] {
        if range.holds(*word) {
            count += 1;
        }
    }
    count
}

// Whether at most so many of the first n key words lie in a range. Nothing is counted where that is plain.
pub fn count_fits(keys: &[u64], n: usize, range: KeyRange, most: usize) -> bool
    requires { n ≤ length keys.now }
    ensures { result ≡ leb (count_keys keys.now n range) most }
{
    if n <= most {
        return true;
    }
    count(keys, n, range) <= most
}

// Whether the entry at a position is not sound: a key word that is not below 2^48 or has fabric 0, or more field bytes than there is room
// for. How far its upper half lies past the first sound one, modulo 2^32, tells of a key word in one comparison, and of four at once.
fn is_unsound(keys: &[u64], fields: &[u8], at: usize) -> bool
    requires at_in_bounds { at < length keys.now }
    requires stride_in_bounds { at * stride + stride ≤ length fields.now }
    ensures { result ≡ not (entry_sound keys.now fields.now at) }
{
    let upper = keys[at] / KeyWord::UPPER;
    let past_first = (upper + (KeyWord::UPPER - KeyWord::FIRST_UPPER)) % KeyWord::UPPER;
    let len = fields[at * Slot::STRIDE] as usize;
    (KeyWord::UPPERS <= past_first as u32) | (Limits::MAX_EXT_FIELDS_LEN < len)
}

// Whether one of the four entries from a position on is not sound.
fn unsound_in_block(keys: &[u64], fields: &[u8], at: usize) -> bool
    requires at_in_bounds { at + 4 ≤ length keys.now }
    requires stride_in_bounds { (at + 4) * stride ≤ length fields.now }
    ensures { result ≡ of_four (λ i. not (entry_sound keys.now fields.now i)) at }
{
    is_unsound(keys, fields, at)
        | is_unsound(keys, fields, at + 1)
        | is_unsound(keys, fields, at + 2)
        | is_unsound(keys, fields, at + 3)
}

// A position of the first n, found in steps of four from one on below which every entry is sound, of which the same holds. One entry at a
// time takes 13.0 instructions each in place of 5.8, and 1,327 ns in place of 702 at 1,023 entries.
fn sound_blocks(keys: &[u64], fields: &[u8], from: usize, n: usize) -> usize
    requires from_le_n { from ≤ n }
    requires n_in_bounds { n ≤ length keys.now }
    requires stride_in_bounds { n * stride ≤ length fields.now }
    requires from_value { every_below (λ i. entry_sound keys.now fields.now i) from ≡ true }
    ensures { (result ≤ n) × (every_below (λ i. entry_sound keys.now fields.now i) result ≡ true) }
{
    let mut i = from;
    while 4 <= n - i {
        if unsound_in_block(keys, fields, i) {
            return i;
        }
        i += 4;
    }
    i
}

// Whether each of the first n entries is sound, its key word and its length, if those below a position are.
fn sound_from(keys: &[u64], fields: &[u8], from: usize, n: usize) -> bool
    requires from_le_n { from ≤ n }
    requires n_in_bounds { n ≤ length keys.now }
    requires stride_in_bounds { n * stride ≤ length fields.now }
    requires from_value { every_below (λ i. entry_sound keys.now fields.now i) from ≡ true }
    ensures { result ≡ (keys_sound keys.now n && lengths_sound fields.now n) }
{
    for i in from..n {
        if is_unsound(keys, fields, i) {
            return false;
        }
    }
    true
}

// Whether each of the first n entries is sound: its key word, and its length.
pub fn entries_sound(keys: &[u64], fields: &[u8], n: usize) -> bool
    requires n_in_bounds { n ≤ length keys.now }
    requires stride_in_bounds { n * stride ≤ length fields.now }
    ensures { result ≡ (keys_sound keys.now n && lengths_sound fields.now n) }
{
    let from = sound_blocks(keys, fields, 0, n);
    sound_from(keys, fields, from, n)
}

// A position of the first n, found in steps of eight, below which every entry is sound and the key word does not stand. One entry at a time
// the search that begins here takes 23.0 instructions each in place of 7.1, and 1,673 ns in place of 806 at 1,023 entries.
fn pass_blocks(keys: &[u64], fields: &[u8], n: usize, key: u64) -> usize
    requires n_in_bounds { n ≤ length keys.now }
    requires stride_in_bounds { n * stride ≤ length fields.now }
    ensures { let every = every_below (λ i. entry_sound keys.now fields.now i) result in
        (result ≤ n) × (every ≡ true) × (first_key keys.now result key ≡ None) }
{
    let mut at = 0;
    while 8 <= n - at {
        if in_block(keys, at, key) {
            return at;
        }
        if unsound_in_block(keys, fields, at) {
            return at;
        }
        if unsound_in_block(keys, fields, at + 4) {
            return at;
        }
        at += 8;
    }
    at
}

// Whether each of the first n entries is sound and, if so, the first position that holds the key word: one walk over the key words.
pub fn search_entries(
    keys: &[u64],
    fields: &[u8],
    n: usize,
    key: u64,
) -> Result<Option<usize>, Unsound>
    requires n_in_bounds { n ≤ length keys.now }
    requires stride_in_bounds { n * stride ≤ length fields.now }
    ensures { let every = keys_sound keys.now n && lengths_sound fields.now n in
        result ≡ searched every (first_key keys.now n key) }
{
    let from = pass_blocks(keys, fields, n, key);
    let tested = sound_blocks(keys, fields, from, n);
    if sound_from(keys, fields, tested, n) {
        return Ok(find_from(keys, from, n, key));
    }
    Err(Unsound)
}

// How many field bytes the entry at a position has.
pub fn length_at(fields: &[u8], at: usize) -> usize
    requires { at * stride + stride ≤ length fields.now }
    ensures { result ≡ length_at fields.now at }
{
    let base = at * Slot::STRIDE;
    fields[base] as usize
}

// The field bytes of the entry at a position, up to its length: a part of the lent slice.
pub fn field_bytes(fields: &[u8], at: usize) -> &[u8]
    requires stride_in_bounds { at * stride + stride ≤ length fields.now }
    requires at_bound { length_at fields.now at ≤ max_fields }
    ensures { result.now ≡ fields_at fields.now at }
{
    let size = length_at(fields, at);
    let from = at * Slot::STRIDE + 1;
    &fields[from..from + size]
}

// Writes the scene ids of those of the first n key words that lie in a range, in order, into the front of a buffer. How many they are.
pub fn list_scenes(keys: &[u64], n: usize, range: KeyRange, ids: &mut [u8]) -> usize
    requires n_in_bounds { n ≤ length keys.now }
    requires range_in_bounds { count_keys keys.now n range ≤ length ids.old }
    ensures { let listed = scenes_inside keys.now n range in
        (result ≡ count_keys keys.now n range) × (ids.new ≡ laid listed ids.old) }
{
    let mut j = 0;
    for i in 0..n {
        let word = keys[i];
        if range.holds(word) {
            ids[j] = words::scene_of(word);
            j += 1;
        }
    }
    j
}
