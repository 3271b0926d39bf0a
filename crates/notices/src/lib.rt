// The attribute notice over a lent slice of record structs. `CurrentScene::notice` is the step on one record, `Pass::visit` what a
// pass does at it; `notice_records` only walks. It has the outcome of the notice on the record words.
#![tactic(auto)]

ghost use Rattle.std.specs.Prelude.{◌≡◌, ◌<◌};
ghost use Rattle.notices.specs.Notice.{hits, noticed, head_sound, answer_of, notice_records};
ghost use Rattle.notices.specs.Pass.{begun, visit, outcome_of};

use state::{Outcome, ScenesState};
use words::{Limits, Refusal};

// A fabric's current scene (the Rust's struct of that name).
#[repr(C)]
#[derive(Clone, Copy)]
pub struct CurrentScene {
    pub fab_idx: u8,
    pub endpoint_id: u16,
    pub group_id: u16,
    pub scene_id: u8,
    pub valid: bool,
}

// A record after a notice, and whether it changed.
#[repr(C)]
#[derive(Clone, Copy)]
pub struct Noticed {
    pub record: CurrentScene,
    pub changed: bool,
}

// A pass over the records below the count. A first round looks at each; only where all are sound does a second one clear.
#[derive(Clone, Copy)]
struct Pass {
    state: ScenesState,
    endpoint: u16,
    answer: Result<(), Refusal>,
    clears: bool,
    changed: bool,
    // The record to visit next: the pass is over at the count.
    at: usize,
}

// A record after a visit, and the pass.
#[derive(Clone, Copy)]
struct Visited {
    record: CurrentScene,
    pass: Pass,
}

impl CurrentScene {
    // A notice on an endpoint: a valid record there becomes invalid.
    pub fn notice(self, endpoint: u16) -> Noticed
        ensures { (result.«record» ≡ noticed endpoint self) × (result.changed ≡ hits endpoint self) }
    {
        let hit = self.valid & (self.endpoint_id == endpoint);
        let mut after = self;
        if hit {
            after.valid = false;
        }
        Noticed {
            record: after,
            changed: hit,
        }
    }
}

// Whether the head and the number of lent records are those of a sound table.
fn is_head_sound(state: ScenesState, lent: usize) -> bool
    ensures { result ≡ head_sound state lent }
{
    let size = state.size;
    if Limits::MAX_SCENES < size {
        return false;
    }
    if size < state.entries {
        return false;
    }
    if size < state.recorded {
        return false;
    }
    size <= lent
}

impl Pass {
    // A pass at its start; it is over at once where the head or the number of lent records is not sound.
    fn begin(state: ScenesState, lent: usize, endpoint: u16) -> Pass
        ensures { result ≡ begun state lent endpoint }
    {
        let mut answer = Ok(());
        let mut at = 0;
        if !is_head_sound(state, lent) {
            answer = Err(Refusal::Unsound);
            at = state.recorded;
        }
        Pass {
            state,
            endpoint,
            answer,
            clears: false,
            changed: false,
            at,
        }
    }

    // The next record is looked at in the first round, and noticed in the second. One without a fabric ends the pass.
    fn visit(mut self, record: CurrentScene) -> Visited
        requires { self.at < self.state.recorded }
        ensures { result ≡ visit self «record» }
    {
        let n = self.state.recorded;
        let next = self.at + 1;
        if self.clears {
            let done = record.notice(self.endpoint);
            let after = done.record;
            self.changed = self.changed | done.changed;
            self.at = next;
            return Visited {
                record: after,
                pass: self,
            };
        }
        if record.fab_idx == 0 {
            self.answer = Err(Refusal::Unsound);
            self.at = n;
        } else if next < n {
            self.at = next;
        } else {
            self.clears = true;
            self.at = 0;
        }
        Visited { record, pass: self }
    }

    // What the call answers: the version steps once if a record changed.
    fn outcome(self) -> Outcome
        ensures { result ≡ outcome_of self }
    {
        let mut state = self.state;
        if self.changed {
            state = state.bump_info_dataver();
        }
        Outcome::unsaved(words::status_of(self.answer), state)
    }
}

// A scenable attribute changed on an endpoint: each valid record there becomes invalid in place, those of all fabrics.
pub fn notice_records(state: ScenesState, records: &mut [CurrentScene], endpoint: u16) -> Outcome
    ensures { answer_of result records.new ≡ notice_records endpoint state records.old }
{
    let mut pass = Pass::begin(state, records.len(), endpoint);
    while pass.at < pass.state.recorded {
        let at = pass.at;
        let done = pass.visit(records[at]);
        records[at] = done.record;
        pass = done.pass;
    }
    pass.outcome()
}
