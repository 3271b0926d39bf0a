// The extension field sets in raw field bytes: each cluster with its attribute numbers, in order. It knows nothing of scenes.
#![tactic(auto)]

mod pairs;
mod reader;
mod sets;

pub use reader::{Cursor, Item, count_pairs};
