// A pair, and an array of pairs.
ghost use Rattle.std.specs.Prelude.{◌≡◌};
ghost use Rattle.tlv.specs.Members.{tagged};
ghost use Rattle.field_sets.specs.Pairs.{structure_at, number_once, pair_from, pair_at, pairs_at};

use tlv::{Element, TagType, ValueType, element_at, number_at};
use tlv_skip::skip;

// The context tags of sets and pairs, and how deep containers may stand in a value that is skipped.
pub struct Layout;

impl Layout {
    // A set's cluster number, and a pair's attribute number.
    pub const NUMBER: u8 = 0;

    pub const PAIRS: u8 = 1;

    pub const MAX_DEPTH: u8 = 16;
}

// A pair's attribute number, and the position behind the pair.
#[derive(Clone, Copy)]
pub struct Pair {
    pub attribute: u32,
    pub next: usize,
}

// An array of pairs: the position of the first, how many there are, and the position behind the array's end.
#[derive(Clone, Copy)]
pub struct Pairs {
    pub first: usize,
    pub count: usize,
    pub next: usize,
}

// Whether an element has a context tag of this number.
#[tactic(auto, unfolding(tlv::specs::Members::tagged))]
pub(crate) fn is_tagged(h: Element, tag: u8) -> bool
    ensures { result ≡ tagged tag h }
{
    h.form == TagType::CONTEXT && h.tag == tag
}

// The position of the first member of an anonymous structure.
#[tactic(auto, unfolding(crate::specs::Pairs::structure_at))]
pub(crate) fn structure_at(bytes: &[u8], at: usize) -> Option<usize>
    ensures { result ≡ structure_at bytes.now at }
{
    let h = element_at(bytes, at)?;
    if h.kind == ValueType::STRUCT && h.form == TagType::ANONYMOUS {
        return Some(h.next);
    }
    None
}

// An unsigned number below 2^32 in any width, where none was read before.
pub(crate) fn number_once(bytes: &[u8], at: usize, so: Option<u32>) -> Option<u32>
    ensures { result ≡ number_once bytes.now at so }
{
    if so.is_some() {
        return None;
    }
    let v = number_at(bytes, at, ValueType::U64)?;
    if v < 0x1_0000_0000 {
        return Some(v as u32);
    }
    None
}

// A pair from its first member on.
#[tactic(auto, using(crate::proofs::PairLaws::pair_laws))]
fn pair_from(bytes: &[u8], at: usize) -> Option<Pair>
    ensures { result ≡ pair_from bytes.now at }
{
    let mut i = at;
    let mut so = None;
    loop {
        let h = element_at(bytes, i)?;
        if h.kind == ValueType::END_CNT {
            return Some(Pair {
                attribute: so?,
                next: h.next,
            });
        }
        if is_tagged(h, Layout::NUMBER) {
            so = Some(number_once(bytes, i, so)?);
            i = h.next;
        } else {
            i = skip(bytes, i, Layout::MAX_DEPTH)?;
        }
    }
}

// The pair at a position.
#[tactic(auto, unfolding(crate::specs::Pairs::pair_at))]
pub(crate) fn pair_at(bytes: &[u8], at: usize) -> Option<Pair>
    ensures { result ≡ pair_at bytes.now at }
{
    let from = structure_at(bytes, at)?;
    pair_from(bytes, from)
}

// The pairs from a position up to the array's end.
#[tactic(auto, using(crate::proofs::PairLaws::array_laws))]
pub(crate) fn pairs_at(bytes: &[u8], first: usize) -> Option<Pairs>
    ensures { result ≡ pairs_at bytes.now first }
{
    let mut i = first;
    let mut count: usize = 0;
    loop {
        let h = element_at(bytes, i)?;
        if h.kind == ValueType::END_CNT {
            return Some(Pairs {
                first,
                count,
                next: h.next,
            });
        }
        let pair = pair_at(bytes, i)?;
        count += 1;
        i = pair.next;
    }
}
