// Entries and records of an image, as `from_tlv` takes them. The image is lent, and nothing is written.
#![tactic(auto)]

ghost use Rattle.std.specs.Prelude.{◌≡◌};
ghost use Rattle.image_reader.specs.Entries.{entry_at, record_at};
ghost use Rattle.image_reader.specs.Image.{arrays_in};
ghost use Rattle.image_reader.specs.Places.{places_from, noted, key_at};

use tlv::{Element, Step, TagType, ValueType, bool_at, inside_at, member_at, number_at, octets_at};
use words::{KeyWord, Limits};

// An entry: its key word, its time, and where its field bytes stand in the image.
#[derive(Clone, Copy)]
pub struct Slot {
    pub key: u64,
    pub time: u32,
    pub from: usize,
    pub to: usize,
}

// Where the first member of each array stands.
#[derive(Clone, Copy)]
pub struct Arrays {
    pub entries: usize,
    pub records: usize,
}

// The context tags in an image.
struct Tag;

impl Tag {
    const ENTRIES: usize = 0;

    const RECORDS: usize = 1;

    const FABRIC: usize = 0;

    const ENDPOINT: usize = 1;

    const GROUP: usize = 2;

    const SCENE: usize = 3;

    const TIME: usize = 4;

    const VALID: usize = 4;

    const FIELDS: usize = 5;

    // How many there are.
    const TAGS: usize = 6;
}

// A member noted in its place, if it is the first with one of the tags: `none` stands where none was found yet.
#[tactic(auto, using(crate::proofs::Finding::notes))]
fn note(places: &mut [usize; 6], e: Element, at: usize, none: usize)
    ensures { places.new ≡ noted places.old e at none }
{
    if e.form != TagType::CONTEXT {
        return;
    }
    let tag = e.tag as usize;
    if tag < Tag::TAGS && places[tag] == none {
        places[tag] = at;
    }
}

// Where the first member with each of the tags stands, from the first member of a structure on; the end of the bytes for none.
#[tactic(auto, using(crate::proofs::Finding::places))]
fn find_places(bytes: &[u8], from: usize) -> [usize; 6]
    ensures { result ≡ places_from bytes.now from }
{
    let none = bytes.len();
    let mut places = [none; 6];
    let mut i = from;
    while let Step::Member(e, next) = member_at(bytes, i) {
        note(&mut places, e, i, none);
        i = next;
    }
    places
}

// The key word of members 0 to 3.
#[tactic(auto, unfolding(crate::specs::Places::key_at))]
fn key_at(bytes: &[u8], places: [usize; 6]) -> Option<u64>
    ensures { result ≡ key_at bytes.now places }
{
    let fabric = number_at(bytes, places[Tag::FABRIC], ValueType::U8)?;
    if fabric == 0 {
        return None;
    }
    let endpoint = number_at(bytes, places[Tag::ENDPOINT], ValueType::U16)?;
    let group = number_at(bytes, places[Tag::GROUP], ValueType::U16)?;
    let scene = number_at(bytes, places[Tag::SCENE], ValueType::U8)?;
    Some(fabric * KeyWord::FABRIC + endpoint * KeyWord::ENDPOINT + group * KeyWord::GROUP + scene)
}

// The entry at a position, if one can be read.
#[tactic(auto, using(crate::proofs::Finding::founds), unfolding(crate::specs::Entries::entry_at))]
pub fn entry_at(bytes: &[u8], at: usize) -> Option<Slot>
    ensures { result ≡ entry_at bytes.now at }
{
    let inside = inside_at(bytes, at, ValueType::STRUCT)?;
    let places = find_places(bytes, inside);
    let key = key_at(bytes, places)?;
    let time = number_at(bytes, places[Tag::TIME], ValueType::U32)?;
    let fields = octets_at(bytes, places[Tag::FIELDS])?;
    if Limits::MAX_EXT_FIELDS_LEN < fields.to - fields.from {
        return None;
    }
    Some(Slot {
        key,
        time: time as u32,
        from: fields.from,
        to: fields.to,
    })
}

// The record word of the record at a position, if one can be read.
#[tactic(auto, using(crate::proofs::Finding::founds), unfolding(crate::specs::Entries::record_at))]
pub fn record_at(bytes: &[u8], at: usize) -> Option<u64>
    ensures { result ≡ record_at bytes.now at }
{
    let inside = inside_at(bytes, at, ValueType::STRUCT)?;
    let places = find_places(bytes, inside);
    let key = key_at(bytes, places)?;
    let valid = bool_at(bytes, places[Tag::VALID])?;
    if valid {
        return Some(key + KeyWord::VALID);
    }
    Some(key)
}

// Where the entries and the records of an image start, if it has both.
#[tactic(auto, using(crate::proofs::Finding::founds), unfolding(crate::specs::Image::arrays_in))]
pub fn arrays_in(bytes: &[u8]) -> Option<Arrays>
    ensures { result ≡ arrays_in bytes.now }
{
    let inside = inside_at(bytes, 0, ValueType::STRUCT)?;
    let places = find_places(bytes, inside);
    let entries = inside_at(bytes, places[Tag::ENTRIES], ValueType::ARRAY)?;
    let records = inside_at(bytes, places[Tag::RECORDS], ValueType::ARRAY)?;
    Some(Arrays { entries, records })
}
