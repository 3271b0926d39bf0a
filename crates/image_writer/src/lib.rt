// The image of a table: how many bytes it takes, and writing it into a lent buffer. The caller sees to it that the buffer is long enough.
#![tactic(auto)]

mod sizes;
mod writing;

pub use sizes::{ImageLength, image_len};
pub use writing::put_image;
