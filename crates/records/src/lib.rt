// Record words: the key word of a fabric's current scene, with a mark while it is valid.
#![tactic(auto)]

ghost use Rattle.std.specs.Prelude.{◌≡◌, ◌≤◌, length, ◌&&◌, eqb};
ghost use Rattle.words.specs.Words.{group_of, scene_of, owns};
ghost use Rattle.records.specs.Records.{record_sound, records_sound, first_owned, records_of, remember, in_scope, hits, any_hit, invalidated, others_of, moved};

use words::{GroupKey, KeyWord, SceneKey};

// Which records are invalidated: by scene those of its fabric, group and scene, by group those of its fabric and group, neither
// by endpoint; by endpoint those of all fabrics.
#[derive(Clone, Copy)]
pub enum Scope {
    Scene(SceneKey),
    Group(GroupKey),
    Endpoint(u16),
}

// Whether a record word is sound: below 2^49, with a fabric from 1 to 255.
pub fn is_sound(word: u64) -> bool
    ensures { result ≡ record_sound word }
{
    (word < KeyWord::RECORD_END) & (1 <= words::fabric_of(words::key_of_record(word)))
}

// Whether each of the first n record words is sound. Without a branch: `all` ends at the first that is not, but then the words are taken one
// by one, and 256 take 260 ns in place of 117.
pub fn records_sound(records: &[u64], n: usize) -> bool
    requires { n ≤ length records.now }
    ensures { result ≡ records_sound records.now n }
{
    let mut sound = true;
    for word in &records[..n] {
        sound = sound & is_sound(*word);
    }
    sound
}

// Whose record it is: the endpoint does not count.
pub fn is_owned(word: u64, fabric: u8, endpoint: u16) -> bool
    ensures { result ≡ owns word fabric endpoint }
{
    words::fabric_of(words::key_of_record(word)) == fabric as u64
}

// The first of the first n records that a fabric owns.
pub fn find(records: &[u64], n: usize, fabric: u8, endpoint: u16) -> Option<usize>
    requires { n ≤ length records.now }
    ensures { result ≡ first_owned records.now n fabric endpoint }
{
    for (at, word) in records[..n].iter().enumerate() {
        if is_owned(*word, fabric, endpoint) {
            return Some(at);
        }
    }
    None
}

// Makes a scene its fabric's valid current record, over the one it has or behind the n others; dropped if these fill the size.
// How many records there are then.
pub fn remember(records: &mut [u64], n: usize, size: usize, key: SceneKey) -> usize
    requires n_le_size { n ≤ size }
    requires size_in_bounds { size ≤ length records.old }
    ensures { records_of result records.new ≡ remember key size (records_of n records.old) }
{
    let word = key.valid_record();
    let Some(at) = find(records, n, key.fabric, key.endpoint) else {
        if n < size {
            records[n] = word;
            return n + 1;
        }
        return n;
    };
    records[at] = word;
    n
}

// Whether a key word has a scene's group and id: the endpoint does not count.
fn is_scene(word: u64, key: SceneKey) -> bool
    ensures { result ≡ (eqb (group_of word) key.group && eqb (scene_of word) key.scene) }
{
    (words::group_of(word) == key.group) & (words::scene_of(word) == key.scene)
}

// Whether a record is meant, valid or not.
pub fn is_in_scope(scope: Scope, word: u64) -> bool
    ensures { result ≡ in_scope scope word }
{
    let record = words::key_of_record(word);
    match scope {
        Scope::Scene(key) => {
            if is_owned(word, key.fabric, key.endpoint) {
                return is_scene(record, key);
            }
            false
        }
        Scope::Group(key) => {
            if is_owned(word, key.fabric, key.endpoint) {
                return words::group_of(record) == key.group;
            }
            false
        }
        Scope::Endpoint(endpoint) => words::endpoint_of(record) == endpoint,
    }
}

// Makes each valid record of the first n that is meant invalid. Whether there was one.
pub fn clear(records: &mut [u64], n: usize, scope: Scope) -> bool
    requires { n ≤ length records.old }
    ensures { (result ≡ any_hit scope records.old n) × (records.new ≡ invalidated scope n records.old) }
{
    let mut any = false;
    for word in &mut records[..n] {
        if is_hit(scope, *word) {
            *word = words::key_of_record(*word);
            any = true;
        }
    }
    any
}

// Whether a record is valid and meant.
fn is_hit(scope: Scope, word: u64) -> bool
    ensures { result ≡ hits scope word }
{
    if words::is_valid(word) {
        return is_in_scope(scope, word);
    }
    false
}

// Drops those of the first n records that are a fabric's: the others move to the front, in order. How many they are.
pub fn retain(records: &mut [u64], n: usize, fabric: u8) -> usize
    requires { n ≤ length records.old }
    ensures { let kept = others_of records.old n fabric in
        (result ≡ length kept) × (records.new ≡ moved kept records.old) }
{
    let mut j = 0;
    for i in 0..n {
        let word = records[i];
        if words::fabric_of(words::key_of_record(word)) != fabric as u64 {
            records[j] = word;
            j += 1;
        }
    }
    j
}
