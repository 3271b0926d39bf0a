// What an element says.
ghost use Rattle.std.specs.Prelude.{◌≡◌};
ghost use Rattle.tlv.specs.Values.{unsigned, number_at, bool_at, octets, octets_at, inside_at};

use crate::elements::{element_at, number, width_of};
use crate::types::ValueType;

// The positions of an octet string: from the first on, and below the second.
#[derive(Clone, Copy)]
pub struct Span {
    pub from: usize,
    pub to: usize,
}

// Whether a type is an unsigned number's, and no wider than `most`.
#[tactic(auto, unfolding(crate::specs::Values::unsigned))]
fn is_unsigned(kind: u8, most: u8) -> bool
    ensures { result ≡ unsigned most kind }
{
    matches!(kind, ValueType::U8..=ValueType::U64) && kind <= most
}

// An unsigned number of a type up to `most`: `ValueType::U8` takes what the Rust's `u8` takes, and so on.
#[tactic(auto, using(crate::proofs::Heads::width_le, crate::proofs::Heads::element_number, crate::proofs::Says::unsigned_small), unfolding(crate::specs::Values::number_at))]
pub fn number_at(bytes: &[u8], at: usize, most: u8) -> Option<u64>
    ensures { result ≡ number_at most bytes.now at }
{
    let h = element_at(bytes, at)?;
    if is_unsigned(h.kind, most) {
        let from = h.value;
        return Some(number(bytes, from, width_of(h.kind)));
    }
    None
}

// A boolean.
#[tactic(auto, unfolding(crate::specs::Values::bool_at))]
pub fn bool_at(bytes: &[u8], at: usize) -> Option<bool>
    ensures { result ≡ bool_at bytes.now at }
{
    let h = element_at(bytes, at)?;
    match h.kind {
        ValueType::FALSE => Some(false),
        ValueType::TRUE => Some(true),
        _ => None,
    }
}

// Whether a type is an octet string's.
#[tactic(auto, unfolding(crate::specs::Values::octets))]
fn is_octets(kind: u8) -> bool
    ensures { result ≡ octets kind }
{
    matches!(kind, ValueType::STR8L..=ValueType::STR64L)
}

// An octet string; text is none.
#[tactic(auto, unfolding(crate::specs::Values::octets_at))]
pub fn octets_at(bytes: &[u8], at: usize) -> Option<Span>
    ensures { result ≡ octets_at bytes.now at }
{
    let h = element_at(bytes, at)?;
    if is_octets(h.kind) {
        return Some(Span {
            from: h.value,
            to: h.next,
        });
    }
    None
}

// The position of the first member of a container of the type `kind`.
#[tactic(auto, unfolding(crate::specs::Values::inside_at))]
pub fn inside_at(bytes: &[u8], at: usize, kind: u8) -> Option<usize>
    ensures { result ≡ inside_at kind bytes.now at }
{
    let h = element_at(bytes, at)?;
    if h.kind == kind {
        return Some(h.next);
    }
    None
}
