// The pairs of field bytes, as a list in a lent buffer.
#![tactic(auto)]

ghost use Rattle.std.specs.Prelude.{◌≡◌, true, [], ◌∷◌};
ghost use Rattle.text_output.specs.Writing.{sheet, put_byte, puts};
ghost use Rattle.words.specs.Refusals.{number_of};
ghost use Rattle.field_sets.specs.Reader.{pair_word, sets_in};
ghost use Rattle.field_pairs.specs.Listing.{answered, listing_of, list_pairs};
ghost use Rattle.field_pairs.specs.Words.{readable, words_in};

use field_sets::{Cursor, Item, count_pairs};
use words::{Refusal, Status};

// The answer: how many pairs stand in the buffer's front.
#[repr(C)]
#[derive(Clone, Copy)]
pub struct PairsRead {
    pub status: u8,
    pub len: usize,
}

impl PairsRead {
    fn refused(refusal: Refusal) -> PairsRead
        ensures { result ≡ answered (number_of refusal) 0 }
    {
        PairsRead {
            status: u8::from(refusal),
            len: 0,
        }
    }
}

// A pair as one word.
fn pair_word(cluster: u32, attribute: u32) -> u64
    ensures { result ≡ pair_word cluster attribute }
{
    u64::from(cluster) * 0x1_0000_0000 + u64::from(attribute)
}

// A word at a position: the next position.
fn put_word(out: &mut [u64], at: usize, word: u64) -> usize
    ensures { sheet out.new result ≡ put_byte word (sheet out.old at) }
{
    if at < out.len() {
        out[at] = word;
        return at + 1;
    }
    at
}

// The words of all pairs from the buffer's start on.
fn put_pairs(out: &mut [u64], bytes: &[u8]) -> usize
    requires { readable (sets_in bytes.now) ≡ true }
    ensures { sheet out.new result ≡ puts (words_in (sets_in bytes.now)) (sheet out.old 0) }
{
    let mut cursor = Cursor::start();
    let mut cluster: u32 = 0;
    let mut n: usize = 0;
    loop {
        match cursor.next(bytes) {
            Item::Cluster(c, next) => {
                cluster = c;
                cursor = next;
            }
            Item::Attribute(a, next) => {
                n = put_word(out, n, pair_word(cluster, a));
                cursor = next;
            }
            Item::Done | Item::Refused => return n,
        }
    }
}

// Writes the pairs into the front of a buffer, in order. One that is too short is answered 8, with nothing written.
pub fn list_pairs(bytes: &[u8], pairs: &mut [u64]) -> PairsRead
    ensures { listing_of result pairs.new ≡ list_pairs bytes.now pairs.old }
{
    let Some(n) = count_pairs(bytes) else {
        return PairsRead::refused(Refusal::BadFieldSets);
    };
    if pairs.len() < n {
        return PairsRead::refused(Refusal::BufferTooShort);
    }
    let len = put_pairs(pairs, bytes);
    PairsRead {
        status: Status::SUCCESS,
        len,
    }
}
