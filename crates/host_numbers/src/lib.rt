// What hosts pass and get as numbers, where the calls take an enum, a truth value or hand out a part of a slice: every number means something,
// and no reference crosses the boundary.
#![tactic(auto)]

ghost use Rattle.std.specs.Prelude.{◌≡◌, ◌<◌};
ghost use Rattle.words.specs.Constants.{max_scenes};
ghost use Rattle.host_numbers.specs.Numbers.{applied_of, transition_of, truth_of};
ghost use Rattle.host_numbers.specs.Fields.{place_of};

use commands::Applied;
use words::Slot;

// Where field bytes lie in the lent field slice.
#[repr(C)]
#[derive(Clone, Copy)]
pub struct FieldBytes {
    pub offset: usize,
    pub len: usize,
}

impl FieldBytes {
    // So many field bytes of the entry at a position, right behind its length byte. None are 0 and 0, whatever the position.
    pub fn of_entry(at: usize, len: usize) -> FieldBytes
        requires { (len ≡ 0 → ⊥) → at < max_scenes }
        ensures { result ≡ place_of at len }
    {
        if len == 0 {
            return FieldBytes { offset: 0, len: 0 };
        }
        let offset = at * Slot::STRIDE + 1;
        FieldBytes { offset, len }
    }
}

// Whether the host applied a recalled scene: 1 is yes, any other number is no.
pub fn application(answer: u8) -> Applied
    ensures { result ≡ applied_of answer }
{
    if answer == 1 {
        return Applied::Yes;
    }
    Applied::Failed
}

// The time of a recall: the scene's own where `given` is 0, else the override.
pub fn transition(given: u8, time: u32) -> Option<u32>
    ensures { result ≡ transition_of given time }
{
    if given == 0 {
        return None;
    }
    Some(time)
}

// 0 is no, any other number is yes: a byte that a host wrote need not be a truth value.
pub fn truth(answer: u8) -> bool
    ensures { result ≡ truth_of answer }
{
    if answer == 0 {
        return false;
    }
    true
}
