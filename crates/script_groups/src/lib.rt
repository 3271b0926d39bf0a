// The lines of a script that need the memberships: joining, leaving, asking, a raw write, the events that drop them, and `?`.
#![tactic(auto)]

mod calls;
mod memberships;

pub use calls::{GroupAnswer, group_call, needs_groups};
