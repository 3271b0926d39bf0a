// The letters of a script that take a membership, where `?` stands for it: the same inputs from the words of a line, one call that asks.
#![tactic(auto)]

mod command;
mod query;

pub use command::asked_command;
pub use query::asked_query;
