// The reader: it yields each cluster, then the attribute numbers of its pairs, in order.
ghost use Rattle.std.specs.Prelude.{◌≡◌};
ghost use Rattle.field_sets.specs.Reader.{start, set_at_cursor, next_item, total_of, sets_in};

use crate::pairs::pair_at;
use crate::sets::{NextSet, next_set};

// Where the reader stands: `left` pairs are to come of the set that was yielded last, the next at `pair`, and behind them the next set
// at `set`.
#[repr(C)]
#[derive(Clone, Copy)]
pub struct Cursor {
    pub pair: usize,
    pub left: usize,
    pub set: usize,
}

// What the reader yields: a cluster or one of its attributes, with the cursor behind it; that it is done; or that the bytes are no list of
// sets.
#[derive(Clone, Copy)]
pub enum Item {
    Cluster(u32, Cursor),
    Attribute(u32, Cursor),
    Done,
    Refused,
}

impl Cursor {
    // Before the first set.
    pub fn start() -> Cursor
        ensures { result ≡ start }
    {
        Cursor {
            pair: 0,
            left: 0,
            set: 0,
        }
    }

    // What the reader yields there.
    #[tactic(auto, unfolding(crate::specs::Reader::next_item))]
    pub fn next(self, bytes: &[u8]) -> Item
        ensures { result ≡ next_item bytes.now self }
    {
        if self.left == 0 {
            return set_at_cursor(bytes, self);
        }
        let Some(pair) = pair_at(bytes, self.pair) else {
            return Item::Refused;
        };
        Item::Attribute(
            pair.attribute,
            Cursor {
                pair: pair.next,
                left: self.left - 1,
                set: self.set,
            },
        )
    }
}

// The next set, or the end of the list.
fn set_at_cursor(bytes: &[u8], cursor: Cursor) -> Item
    ensures { result ≡ set_at_cursor bytes.now cursor }
{
    match next_set(bytes, cursor.set) {
        NextSet::Set(set) => Item::Cluster(
            set.cluster,
            Cursor {
                pair: set.first,
                left: set.count,
                set: set.next,
            },
        ),
        NextSet::End => Item::Done,
        NextSet::NoSet => Item::Refused,
    }
}

// How many pairs there are in all; none where the bytes are no list of sets.
#[tactic(auto, using(crate::proofs::ReaderLaws::total_laws))]
pub fn count_pairs(bytes: &[u8]) -> Option<usize>
    ensures { result ≡ total_of (sets_in bytes.now) }
{
    let mut at = 0;
    let mut total: usize = 0;
    loop {
        match next_set(bytes, at) {
            NextSet::Set(set) => {
                total += set.count;
                at = set.next;
            }
            NextSet::End => return Some(total),
            NextSet::NoSet => return None,
        }
    }
}
