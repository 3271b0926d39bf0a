// The scene table of Scenes Management, as a host uses it: every call there is, total. Each tests the table, answers 6 if it is not sound,
// and makes the call of the same name on a sound table otherwise: for a store `store_found`, since the test finds the scene on its way.
#![tactic(auto)]

mod change;
mod event;
mod query;

ghost use Rattle.std.specs.Prelude.{◌≡◌, false};
ghost use Rattle.words.specs.Constants.{unsound};

use state::{Outcome, ScenesState};
use words::Refusal;

// The head of a table about which nothing is known. The head's own operations are methods of `ScenesState`; a call takes the handler and
// hands the head back.
#[derive(Clone, Copy)]
pub struct ScenesHandler {
    pub state: ScenesState,
}

impl ScenesHandler {
    // What a command or an event answers on a table that is not sound.
    pub(crate) fn unsound(self) -> Outcome
        ensures { result ≡ record { status = unsound; save = false; state = self.state } }
    {
        let state = self.state;
        Outcome::refused_by(Refusal::Unsound, state)
    }
}
