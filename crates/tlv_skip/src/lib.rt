// Skipping an element with whatever it holds, to a depth.
#![tactic(auto)]

ghost use Rattle.std.specs.Prelude.{◌≡◌};
ghost use Rattle.tlv_skip.specs.Skipping.{skipped};

use tlv::{ValueType, element_at, is_container};

// The position behind an element in which containers stand no deeper than `depth`: the depth that is left falls with each that is entered.
#[tactic(auto, using(crate::proofs::Skips::skips))]
pub fn skip(bytes: &[u8], at: usize, depth: u8) -> Option<usize>
    ensures { result ≡ skipped depth bytes.now at }
{
    let h = element_at(bytes, at)?;
    let mut i = h.next;
    if !is_container(h.kind) {
        return Some(i);
    }
    if depth == 0 {
        return None;
    }
    loop {
        let member = element_at(bytes, i)?;
        if member.kind == ValueType::END_CNT {
            return Some(member.next);
        }
        i = skip(bytes, i, depth - 1)?;
    }
}
