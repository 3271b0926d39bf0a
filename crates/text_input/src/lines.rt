// Lines out of chunks of input.
ghost use Rattle.text_input.specs.Gathering.{Gathers};

use crate::input::{part, rest};
use text_output::put_text;

// Where the chunk was left, how many bytes the line has so far, and whether its end was met.
#[derive(Clone, Copy)]
pub struct Gathered {
    pub next: usize,
    pub held: usize,
    pub ended: bool,
}

// Moves bytes of a chunk, from a position on, behind those that a line buffer holds, up to the end of the line. What does not fit is
// left out: a line that fills the buffer is too long.
pub fn gather(chunk: &[u8], from: usize, line: &mut [u8], held: usize) -> Gathered
    ensures { Gathers chunk.now from line.old held line.new result }
{
    let behind = rest(chunk, from);
    let end = from + behind.iter().take_while(|b| **b != b'\n').count();
    let ended = end < chunk.len();
    Gathered {
        next: if ended { end + 1 } else { end },
        held: put_text(line, held, part(chunk, from, end - from)),
        ended,
    }
}
