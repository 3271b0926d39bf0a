// The head of a scene table and its own operations. The head is passed by value, its memory is lent, and each operation is a method that
// hands the head back. An operation that writes has conditions, which the calls of the crates above meet.
#![tactic(auto)]

mod current;
mod table;

ghost use Rattle.std.specs.Prelude.{◌≡◌, true, false};
ghost use Rattle.words.specs.Constants.{success};
ghost use Rattle.words.specs.Refusals.{number_of};
ghost use Rattle.state.specs.Table.{new_state, new_state_with, with_entry_count, with_record_count};

use words::{Refusal, Status};

// The head of a scene table. Its memory is lent to each operation: a key word, a time and 129 field bytes for each of `size`
// entries, and a record word for each of `size` records.
#[repr(C)]
#[derive(Clone, Copy, PartialEq, Eq)]
pub struct ScenesState {
    // N: how many entries, and how many records, the table can hold.
    pub size: usize,
    pub entries: usize,
    pub recorded: usize,
    // The data version of FabricSceneInfo (`info_dataver`).
    pub dataver: u32,
    // Set by whoever makes the head, and kept by every call: see `Modes`.
    pub modes: u8,
}

// The modes of a table. Bit 0 is the share mode; the other bits are kept and mean nothing.
pub struct Modes;

impl Modes {
    pub const NONE: u8 = 0;

    // A fabric's share limits every new scene, not only a copied one.
    pub const SHARE: u8 = 1;
}

// What a command answers: the head, its status or fault, and whether the host has to save the table. The head is in front, here and
// below: behind single bytes it would be copied across the words it consists of.
#[repr(C)]
#[derive(Clone, Copy, PartialEq, Eq)]
pub struct Outcome {
    pub state: ScenesState,
    pub status: u8,
    pub save: bool,
}

impl Outcome {
    // An answer without a save mark: every refusal, and a success after which there is nothing to save.
    pub fn unsaved(status: u8, state: ScenesState) -> Outcome
        ensures { result ≡ record { status = status; save = false; state = state } }
    {
        Outcome {
            status,
            save: false,
            state,
        }
    }

    // The same, by the refusal itself.
    pub fn refused_by(refusal: Refusal, state: ScenesState) -> Outcome
        ensures { result ≡ record { status = number_of refusal; save = false; state = state } }
    {
        Outcome::unsaved(u8::from(refusal), state)
    }

    // A success after which the host has to save the table.
    pub fn saved(state: ScenesState) -> Outcome
        ensures { result ≡ record { status = success; save = true; state = state } }
    {
        Outcome {
            status: Status::SUCCESS,
            save: true,
            state,
        }
    }
}

impl ScenesState {
    // The head of an empty table without modes, at data version 0. A size above 1,024 is kept: such a table is not sound.
    pub fn new(size: usize) -> ScenesState
        ensures { result ≡ new_state size }
    {
        ScenesState::with_modes(size, Modes::NONE)
    }

    // The same, with modes.
    pub fn with_modes(size: usize, modes: u8) -> ScenesState
        ensures { result ≡ new_state_with size modes }
    {
        ScenesState {
            size,
            entries: 0,
            recorded: 0,
            dataver: 0,
            modes,
        }
    }

    // The head without entries and records, at the data version that it had.
    pub fn emptied(mut self) -> ScenesState
        ensures { result ≡ with_record_count 0 (with_entry_count 0 self) }
    {
        self.entries = 0;
        self.recorded = 0;
        self
    }
}
