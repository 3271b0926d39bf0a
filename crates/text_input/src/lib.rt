// Text that is read out of lent buffers: lines out of chunks of input, and the words of a line. It knows nothing of scenes.
#![tactic(auto)]

mod input;
mod lines;

pub use input::{Span, digits, hex, next_word, number, part};
pub use lines::{Gathered, gather};
