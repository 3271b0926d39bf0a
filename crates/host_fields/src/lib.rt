// The calls on raw field bytes for hosts in C or Rust: the reader, its pairs as a list, and the add through it.
#![tactic(auto)]

mod unchecked;

ghost use Rattle.std.specs.Prelude.{◌≡◌};
ghost use Rattle.state.specs.Table.{table_of};
ghost use Rattle.state.specs.Answer.{result_of};
ghost use Rattle.requests.specs.Requests.{membership_of};
ghost use Rattle.field_sets.specs.Reader.{next_item};
ghost use Rattle.field_pairs.specs.Listing.{listing_of, list_pairs};
ghost use Rattle.add_read.specs.Adding.{add_scene_read};
ghost use Rattle.host_fields.specs.Items.{field_item, item_numbers};

use add_read::add_scene_read;
use field_pairs::{PairsRead, list_pairs};
use field_sets::{Cursor, Item};
use requests::Membership;
use state::{Outcome, ScenesState};
use words::SceneKey;

// What the reader yields: its kind, the number of a cluster or an attribute, and the cursor behind it.
#[repr(C)]
#[derive(Clone, Copy)]
pub struct FieldItem {
    pub kind: u8,
    pub number: u32,
    pub cursor: Cursor,
}

impl FieldItem {
    pub const DONE: u8 = 0;

    pub const CLUSTER: u8 = 1;

    pub const ATTRIBUTE: u8 = 2;

    pub const REFUSED: u8 = 3;

    fn new(kind: u8, number: u32, cursor: Cursor) -> FieldItem
        ensures { result ≡ field_item kind number cursor }
    {
        FieldItem {
            kind,
            number,
            cursor,
        }
    }
}

// The next cluster or attribute of field bytes. The first cursor is all zeros.
#[unsafe(no_mangle)]
pub extern "C" fn scenes_next_item(bytes: &[u8], cursor: Cursor) -> FieldItem
    ensures { result ≡ item_numbers cursor (next_item bytes.now cursor) }
{
    match cursor.next(bytes) {
        Item::Cluster(v, next) => FieldItem::new(FieldItem::CLUSTER, v, next),
        Item::Attribute(v, next) => FieldItem::new(FieldItem::ATTRIBUTE, v, next),
        Item::Done => FieldItem::new(FieldItem::DONE, 0, cursor),
        Item::Refused => FieldItem::new(FieldItem::REFUSED, 0, cursor),
    }
}

// The pairs of field bytes, in the front of a lent buffer.
#[unsafe(no_mangle)]
pub extern "C" fn scenes_list_pairs(bytes: &[u8], pairs: &mut [u64]) -> PairsRead
    ensures { listing_of result pairs.new ≡ list_pairs bytes.now pairs.old }
{
    list_pairs(bytes, pairs)
}

// Adds a scene by its raw field bytes, each of whose pairs the host answered with one pair byte.
#[unsafe(no_mangle)]
pub extern "C" fn scenes_add_read(
    state: ScenesState,
    keys: &mut [u64],
    times: &mut [u32],
    fields: &mut [u8],
    records: &mut [u64],
    key: SceneKey,
    time: u32,
    member: u8,
    pairs: &[u8],
    ext: &[u8],
) -> Outcome
    ensures { let before = table_of state keys.old times.old fields.old records.old in
        let after = table_of result.state keys.new times.new fields.new records.new in
        result_of result.status result.save after ≡ add_scene_read key time (membership_of member) pairs.now ext.now before }
{
    add_scene_read(
        state,
        keys,
        times,
        fields,
        records,
        key,
        time,
        Membership::from(member),
        pairs,
        ext,
    )
}
