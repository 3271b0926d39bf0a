// What refuses an image, 9 and 10: decided by reading alone.
#![tactic(auto)]

ghost use Rattle.std.specs.Prelude.{◌≡◌, ℕ, ◌<◌, ◌≤◌, Bool, List, Option, length};
ghost use Rattle.words.specs.Constants.{max_scenes};
ghost use Rattle.words.specs.Refusals.{status_of};
ghost use Rattle.image_reader.specs.Entries.{entry_at, record_at};
ghost use Rattle.image_reader.specs.Image.{members_from};
ghost use Rattle.image_gate.specs.Verdict.{barred, key_clashes, record_clashes, verdict};
ghost use Rattle.image_gate.specs.Deciding.{Local, key_in, judged, image_from};

use image_reader::{entry_at, record_at};
use tlv::{Step, member_at};
use words::{Limits, Refusal, SceneId};

// Whether a key word has scene 0 or 255.
fn is_barred(key: u64) -> bool
    ensures { result ≡ barred key }
{
    let scene = words::scene_of(key);
    (scene == SceneId::GLOBAL_SCENE_ID) | (scene == SceneId::RESERVED_SCENE_ID)
}

// Whether the key word at a position has such a scene, or stands before it too.
fn key_clashes(keys: &[u64], at: usize) -> bool
    requires { at < length keys.now }
    ensures { result ≡ key_clashes keys.now at }
{
    let key = keys[at];
    if is_barred(key) {
        return true;
    }
    slots::find(keys, at, key).is_some()
}

// Whether the record word at a position has such a scene, or a record of its owner stands before it.
fn record_clashes(records: &[u64], at: usize) -> bool
    requires { at < length records.now }
    ensures { result ≡ record_clashes records.now at }
{
    let key = words::key_of_record(records[at]);
    if is_barred(key) {
        return true;
    }
    let fabric = words::fabric_of(key) as u8;
    records::find(records, at, fabric, words::endpoint_of(key)).is_some()
}

// What an array of an image holds: each member is one word, and a word clashes with those in front of it or by itself.
trait Listed {
    // The word of the member at a position, if it can be read.
    ghost reads: { List ℕ → ℕ → Option ℕ };

    // Whether the word at a position clashes.
    ghost clashing: { List ℕ → ℕ → Bool };

    fn word_at(bytes: &[u8], at: usize) -> Option<u64>
        ensures { result ≡ reads bytes.now at };

    fn clashes(words: &[u64], at: usize) -> bool
        requires { at < length words.now }
        ensures { result ≡ clashing words.now at };
}

// The entries, by their key words.
struct Entries;

impl Listed for Entries {
    ghost reads = { λ bytes at. key_in (entry_at bytes at) };

    ghost clashing = { key_clashes };

    fn word_at(bytes: &[u8], at: usize) -> Option<u64> {
        let slot = entry_at(bytes, at)?;
        Some(slot.key)
    }

    fn clashes(words: &[u64], at: usize) -> bool {
        key_clashes(words, at)
    }
}

// The record words.
struct Records;

impl Listed for Records {
    ghost reads = { record_at };

    ghost clashing = { record_clashes };

    fn word_at(bytes: &[u8], at: usize) -> Option<u64> {
        record_at(bytes, at)
    }

    fn clashes(words: &[u64], at: usize) -> bool {
        record_clashes(words, at)
    }
}

// Whether a word of an array clashes, from its first member on; nothing where a word cannot be read or they are too many. They are gathered
// in `seen`.
fn scan<L: Listed>(bytes: &[u8], first: usize, most: usize, seen: &mut [u64]) -> Option<bool>
    requires most_in_bounds { most ≤ length seen.old }
    requires looks_back { Local L.clashing }
    ensures { result ≡ judged L.clashing most (members_from (L.reads bytes.now) bytes.now first) }
{
    let mut i = first;
    let mut n: usize = 0;
    let mut clash = false;
    loop {
        match member_at(bytes, i) {
            Step::Member(_, next) => {
                let Some(word) = L::word_at(bytes, i) else {
                    return None;
                };
                if most <= n {
                    return None;
                }
                seen[n] = word;
                clash |= L::clashes(seen, n);
                n += 1;
                i = next;
            }
            Step::End => return Some(clash),
            Step::Damaged => return None,
        }
    }
}

// What refuses the image whose arrays start at two positions, for a table of so many places.
pub fn image_gate(bytes: &[u8], entries: usize, records: usize, size: usize) -> Result<(), Refusal>
    requires { size ≤ max_scenes }
    ensures { status_of result ≡ verdict (image_from size bytes.now entries records) }
{
    let mut seen = [0u64; Limits::MAX_SCENES];
    let Some(keys_clash) = scan::<Entries>(bytes, entries, size, &mut seen) else {
        return Err(Refusal::BadImage);
    };
    let Some(records_clash) = scan::<Records>(bytes, records, size, &mut seen) else {
        return Err(Refusal::BadImage);
    };
    if keys_clash | records_clash {
        return Err(Refusal::ClashingImage);
    }
    Ok(())
}
