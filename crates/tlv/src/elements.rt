// The element at a position: its type, its tag and where its value stands.
ghost use Rattle.std.specs.Prelude.{◌≡◌, ◌+◌, ◌≤◌, ◌<◌, length};
ghost use Rattle.tlv.specs.Elements.{known, tag_size, measured, length_size, plain_size, little, width, context_tag, size_of, element_at};

use crate::types::{TagType, ValueType};

// An element: its type, its tag control, the number of a context tag, where its value starts, and what stands behind it. A container's
// value is empty here: its first member stands behind its head.
#[derive(Clone, Copy)]
pub struct Element {
    pub kind: u8,
    pub form: u8,
    pub tag: u8,
    pub value: usize,
    pub next: usize,
}

// Whether a control byte is of a known type: an end has no tag.
#[tactic(auto, unfolding(crate::specs::Elements::known))]
fn is_known(control: u8) -> bool
    ensures { result ≡ known control }
{
    control % ValueType::COUNT < ValueType::END_CNT || control == ValueType::END_CNT
}

// How many bytes a tag has.
#[tactic(auto, unfolding(crate::specs::Elements::tag_size))]
fn tag_size(form: u8) -> usize
    requires { form < 8 }
    ensures { result ≡ tag_size form }
{
    if form <= TagType::CONTEXT {
        return form as usize;
    }
    match form {
        TagType::COMMON_PRF16 => 2,
        TagType::COMMON_PRF32 => 4,
        TagType::IMPL_PRF16 => 2,
        TagType::IMPL_PRF32 => 4,
        TagType::FULL_QUAL48 => 6,
        _ => 8,
    }
}

// Whether a value stands behind its length, as text and octet strings do.
#[tactic(auto, unfolding(crate::specs::Elements::measured))]
fn is_measured(kind: u8) -> bool
    ensures { result ≡ measured kind }
{
    matches!(kind, ValueType::UTF8L..=ValueType::STR64L)
}

// 1, 2, 4 or 8, as the low two bits of a type say.
#[tactic(auto, using(crate::proofs::Heads::width_shifted), unfolding(crate::specs::Elements::width))]
pub(crate) fn width_of(kind: u8) -> usize
    ensures { result ≡ width kind }
{
    1 << (kind % ValueType::WIDTHS)
}

// How many bytes the length of a value has.
#[tactic(auto, unfolding(crate::specs::Elements::length_size))]
fn length_size(kind: u8) -> usize
    ensures { result ≡ length_size kind }
{
    if is_measured(kind) {
        return width_of(kind);
    }
    0
}

// How many bytes a value without a length has.
#[tactic(auto, unfolding(crate::specs::Elements::plain_size))]
fn plain_size(kind: u8) -> usize
    ensures { result ≡ plain_size kind }
{
    if kind < ValueType::FALSE {
        return width_of(kind);
    }
    if kind == ValueType::F32 {
        return 4;
    }
    if kind == ValueType::F64 {
        return 8;
    }
    0
}

// The number that up to eight bytes hold from a position on, the lowest first.
#[tactic(auto, unfolding(crate::specs::Elements::little))]
pub(crate) fn number(bytes: &[u8], at: usize, size: usize) -> u64
    requires size_in_bounds { at + size ≤ length bytes.now }
    requires size_bound { size ≤ 8 }
    ensures { result ≡ little size bytes.now at }
{
    if size == 1 {
        return u64::from(bytes[at]);
    }
    let mut value: u64 = 0;
    for i in (0..size).rev() {
        value = value * 256 + u64::from(bytes[at + i]);
    }
    value
}

// The number of a context tag, or 0. The tag stands behind the control byte at `at`.
#[tactic(auto, unfolding(crate::specs::Elements::context_tag, crate::specs::Elements::tag_size))]
fn context_tag(bytes: &[u8], at: usize, form: u8) -> u8
    requires { at + tag_size form < length bytes.now }
    ensures { result ≡ context_tag bytes.now at form }
{
    if form == TagType::CONTEXT {
        return bytes[at + 1];
    }
    0
}

// How many bytes a value has whose length, if it has one, stands at a position.
#[tactic(auto, using(crate::proofs::Heads::width_le), unfolding(crate::specs::Elements::size_of, crate::specs::Elements::length_size))]
fn value_size(bytes: &[u8], from: usize, kind: u8) -> u64
    requires { from + length_size kind ≤ length bytes.now }
    ensures { result ≡ size_of bytes.now kind from }
{
    if is_measured(kind) {
        return number(bytes, from, width_of(kind));
    }
    plain_size(kind) as u64
}

// The element at a position, if one can be read there.
#[tactic(auto, using(crate::proofs::Heads::element_heads))]
pub fn element_at(bytes: &[u8], at: usize) -> Option<Element>
    ensures { result ≡ element_at bytes.now at }
{
    if bytes.len() <= at {
        return None;
    }
    let control = bytes[at];
    if !is_known(control) {
        return None;
    }
    let kind = control % ValueType::COUNT;
    let form = control / ValueType::COUNT;
    let tag_bytes = tag_size(form);
    let length_bytes = length_size(kind);
    if bytes.len() - at - 1 < tag_bytes + length_bytes {
        return None;
    }
    let from = at + 1 + tag_bytes;
    let value = from + length_bytes;
    let size = value_size(bytes, from, kind) as usize;
    if bytes.len() - value < size {
        return None;
    }
    let tag = context_tag(bytes, at, form);
    Some(Element {
        kind,
        form,
        tag,
        value,
        next: value + size,
    })
}
