// The members of a container, one after the other.
ghost use Rattle.std.specs.Prelude.{◌≡◌};
ghost use Rattle.tlv.specs.Members.{member_at};

use crate::elements::{Element, element_at};
use crate::passing::{container_next, is_container};
use crate::types::ValueType;

// What stands at a position in a container: a member and the position behind all of it, the end, or nothing that can be read.
#[derive(Clone, Copy)]
pub enum Step {
    Member(Element, usize),
    End,
    Damaged,
}

// The member at a position. Only a container is passed over element by element.
#[tactic(auto, using(crate::proofs::Walks::member_plain), unfolding(crate::specs::Members::member_at))]
pub fn member_at(bytes: &[u8], at: usize) -> Step
    ensures { result ≡ member_at bytes.now at }
{
    if bytes.len() <= at {
        return Step::End;
    }
    let Some(h) = element_at(bytes, at) else {
        return Step::Damaged;
    };
    if h.kind == ValueType::END_CNT {
        return Step::End;
    }
    if !is_container(h.kind) {
        return Step::Member(h, h.next);
    }
    let Some(next) = container_next(bytes, at) else {
        return Step::Damaged;
    };
    Step::Member(h, next)
}
