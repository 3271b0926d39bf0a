// Answers to the lines of a script: what they hold, and their text.
#![tactic(auto)]

mod answers;
mod dump;

ghost use Rattle.std.specs.Prelude.{◌≡◌};

pub use answers::{put_answer, put_head, put_size};
pub use dump::{put_groups, put_table};
use state::{Outcome, ScenesState};

// The row of an info read.
#[derive(Clone, Copy)]
pub struct Row {
    pub count: u8,
    pub group: u16,
    pub scene: u8,
    pub valid: bool,
    pub remaining: u8,
    pub fabric: u8,
}

// What an answer has beyond its status: nothing, the time, position and length of a scene, the remaining capacity and the count of a
// list, an info read with or without a row, the length of an image, or a number that only a trace shows: how many key words a store
// compared, or whether a membership is held, 1 or 0.
#[derive(Clone, Copy)]
pub enum Tail {
    Nothing,
    Scene(u32, usize, usize),
    Ids(u8, usize),
    NoRow,
    Info(Row),
    Image(usize),
    Number(usize),
}

// An answer, with the head that it leaves.
#[derive(Clone, Copy)]
pub struct Answer {
    pub status: u8,
    pub save: bool,
    pub state: ScenesState,
    pub tail: Tail,
}

impl Answer {
    // A command's, which has no tail.
    pub fn plain(o: Outcome) -> Answer
        ensures { result ≡ record { status = o.status; save = o.save; state = o.state; tail = Tail.Nothing } }
    {
        let state = o.state;
        Answer {
            status: o.status,
            save: o.save,
            state,
            tail: Tail::Nothing,
        }
    }
}
