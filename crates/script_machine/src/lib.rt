// What a run of a script keeps from line to line, and the lines that need no call of the table: a new table, the table as it stands, the sets in
// field bytes, and a line that is not understood.
#![tactic(auto)]

ghost use Rattle.std.specs.Prelude.{◌≡◌};
ghost use Rattle.state.specs.Table.{table_of};
ghost use Rattle.text_output.specs.Writing.{writes};
ghost use Rattle.text_output.specs.Errors.{error_line};
ghost use Rattle.script_answers.specs.Answers.{size_line};
ghost use Rattle.groups.specs.Groups.{groups_of};
ghost use Rattle.script_lines.specs.Values.{bytes_at};
ghost use Rattle.script_sets.specs.Texts.{sets_line};
ghost use Rattle.script_machine.specs.Machines.{new_machine, counted, new_head, sized, dump_lines, Ended};

use groups::GroupsState;
use script_answers::{put_groups, put_size, put_table};
use script_lines::{Bounds, Line, byte};
use script_sets::put_sets;
use state::ScenesState;
use text_input::part;
use text_output::{Reason, put_error};

// What a run keeps from line to line: the heads of the table and of the memberships, whether there is a table, whether every call may be
// made or only those of scenebench, and how many lines were read.
#[derive(Clone, Copy)]
pub struct Machine {
    pub state: ScenesState,
    pub groups: GroupsState,
    // No `Option` of the head: a run has one before its first table too, and its definition speaks of it (`table_in`, script/specs/Running.antt).
    pub present: bool,
    pub trace: bool,
    pub lines: u64,
}

// What a line leaves: the machine, and the next position of the output.
#[derive(Clone, Copy)]
pub struct Ran {
    pub machine: Machine,
    pub at: usize,
}

// The head of a new table, without modes if they are not given.
fn new_head(size: u64, modes: u64) -> ScenesState
    ensures { result ≡ new_head size modes }
{
    if modes == Bounds::NOT_GIVEN {
        return ScenesState::new(size as usize);
    }
    ScenesState::with_modes(size as usize, byte(modes))
}

impl Machine {
    // Before the first line of scenebench, or with `trace` of scenetrace.
    pub fn new(trace: bool) -> Machine
        ensures { result ≡ new_machine trace }
    {
        Machine {
            state: ScenesState::new(0),
            groups: GroupsState::new(),
            present: false,
            trace,
            lines: 0,
        }
    }

    // One more line was read.
    pub fn counted(mut self) -> Machine
        ensures { result ≡ counted self }
    {
        self.lines = std::num::wrapping_add_u64(self.lines, 1);
        self
    }

    // The line is not understood.
    pub fn wrong(self, out: &mut [u8], at: usize, reason: Reason) -> Ran
        ensures { Ended self (writes (error_line self.lines reason)) out.old at out.new result }
    {
        Ran {
            machine: self,
            at: put_error(out, at, self.lines, reason),
        }
    }

    // N: a new table, and no memberships.
    pub fn sized(mut self, out: &mut [u8], at: usize, size: u64, modes: u64) -> Ran
        ensures { Ended (sized size modes self) (writes (size_line self.trace size modes)) out.old at out.new result }
    {
        self.state = new_head(size, modes);
        self.groups = GroupsState::new();
        self.present = true;
        Ran {
            machine: self,
            at: put_size(out, at, self.trace, size, modes),
        }
    }

    // D: the table and the memberships as they stand.
    pub fn dumped(
        self,
        keys: &[u64],
        times: &[u32],
        fields: &[u8],
        records: &[u64],
        words: &[u64],
        out: &mut [u8],
        at: usize,
    ) -> Ran
        ensures { let table = table_of self.state keys.now times.now fields.now records.now in
            let groups = groups_of self.groups words.now in
            Ended self (dump_lines groups table) out.old at out.new result }
    {
        let state = self.state;
        let table = put_table(out, at, state, keys, times, fields, records);
        Ran {
            machine: self,
            at: put_groups(out, table, self.groups.held, words),
        }
    }

    // Y: the sets in field bytes. It leaves the table alone.
    pub fn parsed(self, line: &[u8], out: &mut [u8], at: usize, read: Line) -> Ran
        ensures { let written = sets_line self.trace self.state (bytes_at read line.now 0) in
            Ended self written out.old at out.new result }
    {
        let state = self.state;
        let bytes = part(line, read.starts[0], read.values[0] as usize);
        Ran {
            machine: self,
            at: put_sets(out, at, self.trace, state, bytes),
        }
    }
}

// Answers a line that is longer than the buffer for lines.
pub fn too_long(machine: Machine, out: &mut [u8], at: usize) -> Ran
    ensures { Ended (counted machine) (writes (error_line (counted machine).lines Reason.TooLong)) out.old at out.new result }
{
    machine.counted().wrong(out, at, Reason::TooLong)
}

// Answers an input that cannot be read on. Its number is that of the line that would have been read next.
pub fn read_failed(machine: Machine, out: &mut [u8], at: usize) -> Ran
    ensures { Ended (counted machine) (writes (error_line (counted machine).lines Reason.ReadFailed)) out.old at out.new result }
{
    machine.counted().wrong(out, at, Reason::ReadFailed)
}
