// Lines of a script: a letter and the words behind it, as they are read from text, and what the words name. No table.
#![tactic(auto)]

mod reader;
mod values;

pub use reader::{Bounds, Line, one_of, read_line};
pub use values::{asks, asks_half, byte, group_key, long, member, scene_key, short};
