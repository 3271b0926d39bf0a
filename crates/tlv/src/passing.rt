// Passing over an element with whatever it holds.
ghost use Rattle.std.specs.Prelude.{◌≡◌, ◌<◌};
ghost use Rattle.tlv.specs.Elements.{opens};
ghost use Rattle.tlv.specs.Passing.{nested, passed_at};

use crate::elements::element_at;
use crate::types::ValueType;

// Whether a type is a container's.
#[tactic(auto, unfolding(crate::specs::Elements::opens))]
pub fn is_container(kind: u8) -> bool
    ensures { result ≡ opens kind }
{
    matches!(kind, ValueType::STRUCT..=ValueType::LIST)
}

// How many containers are open behind the head of an element.
#[tactic(auto, unfolding(crate::specs::Passing::nested))]
fn nested_by(kind: u8, level: usize) -> usize
    requires { level < 18446744073709551615 }
    ensures { result ≡ nested kind level }
{
    if is_container(kind) {
        return level + 1;
    }
    if kind == ValueType::END_CNT {
        return level.saturating_sub(1);
    }
    level
}

// The position behind an element, whatever the depth of its containers; none where the bytes are broken.
#[tactic(auto, using(crate::proofs::Passes::passes))]
pub fn container_next(bytes: &[u8], at: usize) -> Option<usize>
    ensures { result ≡ passed_at bytes.now at }
{
    let mut i = at;
    let mut level: usize = 0;
    loop {
        let h = element_at(bytes, i)?;
        level = nested_by(h.kind, level);
        i = h.next;
        if level == 0 {
            return Some(i);
        }
    }
}
