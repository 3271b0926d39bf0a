// An extension field set.
ghost use Rattle.std.specs.Prelude.{◌≡◌};
ghost use Rattle.field_sets.specs.Sets.{array_once, whole_set, set_from, set_at, next_set};

use crate::pairs::{Layout, Pairs, is_tagged, number_once, pairs_at, structure_at};
use tlv::{Element, ValueType, element_at};
use tlv_skip::skip;

// A set's cluster number, the position of its first pair, how many pairs it has and the position behind it.
#[derive(Clone, Copy)]
pub struct FieldSet {
    pub cluster: u32,
    pub first: usize,
    pub count: usize,
    pub next: usize,
}

// What stands at a position in the list of sets: a set, the list's end, or neither.
#[derive(Clone, Copy)]
pub enum NextSet {
    Set(FieldSet),
    End,
    NoSet,
}

// An array of pairs, where none was read before.
fn array_once(bytes: &[u8], h: Element, so: Option<Pairs>) -> Option<Pairs>
    ensures { result ≡ array_once bytes.now h so }
{
    if so.is_some() {
        return None;
    }
    if h.kind == ValueType::ARRAY {
        let first = h.next;
        return pairs_at(bytes, first);
    }
    None
}

// The set that ends before a position, if its number and its array were read.
fn whole_set(cluster: Option<u32>, array: Option<Pairs>, next: usize) -> Option<FieldSet>
    ensures { result ≡ whole_set cluster array next }
{
    let cluster = cluster?;
    let pairs = array?;
    Some(FieldSet {
        cluster,
        first: pairs.first,
        count: pairs.count,
        next,
    })
}

// A set from its first member on.
#[tactic(auto, using(crate::proofs::SetLaws::set_laws))]
fn set_from(bytes: &[u8], at: usize) -> Option<FieldSet>
    ensures { result ≡ set_from bytes.now at }
{
    let mut i = at;
    let mut cluster = None;
    let mut array = None;
    loop {
        let h = element_at(bytes, i)?;
        if h.kind == ValueType::END_CNT {
            return whole_set(cluster, array, h.next);
        }
        if is_tagged(h, Layout::NUMBER) {
            cluster = Some(number_once(bytes, i, cluster)?);
            i = h.next;
        } else if is_tagged(h, Layout::PAIRS) {
            let pairs = array_once(bytes, h, array)?;
            array = Some(pairs);
            i = pairs.next;
        } else {
            i = skip(bytes, i, Layout::MAX_DEPTH)?;
        }
    }
}

// The set at a position.
#[tactic(auto, unfolding(crate::specs::Sets::set_at))]
fn set_at(bytes: &[u8], at: usize) -> Option<FieldSet>
    ensures { result ≡ set_at bytes.now at }
{
    let from = structure_at(bytes, at)?;
    set_from(bytes, from)
}

// The set at a position, or the end of the list: the bytes' own end, or no bytes at all.
#[tactic(auto, unfolding(crate::specs::Sets::next_set))]
pub(crate) fn next_set(bytes: &[u8], at: usize) -> NextSet
    ensures { result ≡ next_set bytes.now at }
{
    if bytes.is_empty() {
        return NextSet::End;
    }
    let Some(h) = element_at(bytes, at) else {
        return NextSet::NoSet;
    };
    if h.kind != ValueType::END_CNT {
        return match set_at(bytes, at) {
            Some(set) => NextSet::Set(set),
            None => NextSet::NoSet,
        };
    }
    if h.next == bytes.len() {
        return NextSet::End;
    }
    NextSet::NoSet
}
