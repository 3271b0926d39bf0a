// TLV in lent bytes: elements, members of containers, and what is written. It knows nothing of scenes.
#![tactic(auto)]

mod elements;
mod encoding;
mod members;
mod passing;
mod types;
mod values;

pub use elements::{Element, element_at};
pub use encoding::{
    number_size, octets_size, put_bool, put_head, put_number, put_octets, put_plain,
};
pub use members::{Step, member_at};
pub use passing::{container_next, is_container};
pub use types::{TagType, ValueType};
pub use values::{Span, bool_at, inside_at, number_at, octets_at};
