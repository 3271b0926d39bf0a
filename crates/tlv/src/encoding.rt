// What is written into a lent buffer, from a position on: each function answers the next one. What does not fit is left out; whoever
// writes asks for the sizes first.
ghost use Rattle.std.specs.Prelude.{◌≡◌, [], ◌∷◌, ◌^◌, ◌+◌, ◌<◌};
ghost use Rattle.text_output.specs.Writing.{sheet, puts};
ghost use Rattle.tlv.specs.Encoding.{low_first, smallest, context, number_bytes, octets_bytes, bool_bytes, number_size, octets_size};

use crate::elements::width_of;
use crate::types::{TagType, ValueType};
use text_output::{put, put_text};

// The type of the smallest unsigned width that holds a number.
#[tactic(auto, unfolding(crate::specs::Encoding::smallest))]
fn smallest_of(v: u64) -> u8
    ensures { result ≡ smallest v }
{
    if v < 256 {
        return ValueType::U8;
    }
    if v < 65536 {
        return ValueType::U16;
    }
    if v < 4294967296 {
        return ValueType::U32;
    }
    ValueType::U64
}

// A type under a context tag: all of a null, a boolean or the start of a container.
#[tactic(auto, unfolding(text_output::specs::Writing::puts))]
pub fn put_head(out: &mut [u8], at: usize, tag: u8, kind: u8) -> usize
    requires { kind < 32 }
    ensures { sheet out.new result ≡ puts (context tag kind) (sheet out.old at) }
{
    let next = put(out, at, TagType::CONTEXT_CONTROL + kind);
    put(out, next, tag)
}

// The bytes of a number, the lowest first.
fn put_low(out: &mut [u8], at: usize, v: u64, size: usize) -> usize
    ensures { sheet out.new result ≡ puts (low_first size v) (sheet out.old at) }
{
    let mut next = at;
    let mut rest = v;
    for _ in 0..size {
        next = put(out, next, (rest % 256) as u8);
        rest /= 256;
    }
    next
}

// A number in its smallest width.
pub fn put_number(out: &mut [u8], at: usize, tag: u8, v: u64) -> usize
    ensures { sheet out.new result ≡ puts (number_bytes tag v) (sheet out.old at) }
{
    let kind = smallest_of(v);
    let next = put_head(out, at, tag, kind);
    put_low(out, next, v, width_of(kind))
}

// An octet string.
pub fn put_octets(out: &mut [u8], at: usize, tag: u8, bytes: &[u8]) -> usize
    ensures { sheet out.new result ≡ puts (octets_bytes tag bytes.now) (sheet out.old at) }
{
    let size = bytes.len() as u64;
    let kind = smallest_of(size);
    let head = put_head(out, at, tag, kind + 12);
    let next = put_low(out, head, size, width_of(kind));
    put_text(out, next, bytes)
}

// A boolean.
pub fn put_bool(out: &mut [u8], at: usize, tag: u8, flag: bool) -> usize
    ensures { sheet out.new result ≡ puts (bool_bytes tag flag) (sheet out.old at) }
{
    if flag {
        return put_head(out, at, tag, ValueType::TRUE);
    }
    put_head(out, at, tag, ValueType::FALSE)
}

// A type without a tag: the start of a container, or its end.
#[tactic(auto, unfolding(text_output::specs::Writing::puts))]
pub fn put_plain(out: &mut [u8], at: usize, kind: u8) -> usize
    ensures { sheet out.new result ≡ puts (kind ∷ []) (sheet out.old at) }
{
    put(out, at, kind)
}

// How many bytes a number takes.
#[tactic(auto, using(crate::proofs::Heads::width_le))]
pub fn number_size(v: u64) -> usize
    ensures { result ≡ number_size v }
{
    2 + width_of(smallest_of(v))
}

// How many bytes an octet string of n bytes takes. No slice is as long as half the numbers of 64 bits.
#[tactic(auto, using(crate::proofs::Codes::number_size_le))]
pub fn octets_size(n: usize) -> usize
    requires { n < 2 ^ 63 }
    ensures { result ≡ octets_size n }
{
    number_size(n as u64) + n
}
