// Key words, record words and ranges of key words, with the constants of the scene table.
#![tactic(auto)]

ghost use Rattle.std.specs.Prelude.{◌≡◌};
ghost use Rattle.words.specs.Refusals.{number_of, status_of};
ghost use Rattle.words.specs.Words.{word_of, fabric_of, endpoint_of, group_of, scene_of, key_of_record, is_valid, valid_record, within};

// Status bytes that a command answers.
pub struct Status;

impl Status {
    pub const SUCCESS: u8 = 0;

    pub const SC_INVALID_COMMAND: u8 = 0x85;

    pub const SC_CONSTRAINT_ERROR: u8 = 0x87;

    pub const SC_INSUFFICIENT_SPACE: u8 = 0x89;

    pub const SC_NOT_FOUND: u8 = 0x8B;
}

// What a call refuses with: Matter's status or a fault, each at its number. The host, or whoever lends the memory, causes the faults, 1 to 12,
// but for 5, which a member causes.
#[derive(Clone, Copy, PartialEq, Eq)]
pub enum Refusal {
    NoFabric = 1,
    MembershipFailed = 2,
    CaptureTooLong = 3,
    ApplyFailed = 4,
    SingleElement = 5,
    Unsound = 6,
    BadPair = 7,
    BufferTooShort = 8,
    BadImage = 9,
    ClashingImage = 10,
    BadFieldSets = 11,
    MembershipsFull = 12,
    InvalidCommand = Status::SC_INVALID_COMMAND as isize,
    ConstraintError = Status::SC_CONSTRAINT_ERROR as isize,
    InsufficientSpace = Status::SC_INSUFFICIENT_SPACE as isize,
    NotFound = Status::SC_NOT_FOUND as isize,
}

// The number that is answered.
impl From<Refusal> for u8 {
    ghost from_gives = { λ refusal n. n ≡ number_of refusal };

    fn from(refusal: Refusal) -> u8 {
        refusal as u8
    }
}

// Scene ids that no command may name.
pub struct SceneId;

impl SceneId {
    pub const GLOBAL_SCENE_ID: u8 = 0;

    pub const RESERVED_SCENE_ID: u8 = 0xFF;
}

// What a pair byte of an add says of an attribute: 1 is scenable.
pub struct Pair;

impl Pair {
    pub const NOT_SCENABLE: u8 = 0;

    pub const CLUSTER_UNKNOWN: u8 = 2;
}

pub struct Limits;

impl Limits {
    pub const MAX_TRANSITION_TIME_MS: u32 = 60_000_000;

    // The most field bytes of a scene.
    pub const MAX_EXT_FIELDS_LEN: usize = 128;

    // The largest table.
    pub const MAX_SCENES: usize = 1024;

    // The most that a byte of an answer can say.
    pub const MAX_SHOWN: usize = 0xFF;

    // The most that is reported of a remaining capacity.
    pub const MAX_REMAINING_CAPACITY: usize = 253;

    // The most memberships that are held.
    pub const MAX_MEMBERSHIPS: usize = 256;
}

// How an entry lies in the lent field bytes: its length, then room for its fields.
pub struct Slot;

impl Slot {
    pub const STRIDE: usize = 129;

    // The end of a TLV array, which stands behind captured bytes.
    pub const END_OF_CONTAINER: u8 = 0x18;
}

// The units of a key word's parts, the marks of record words, and what a sound key word's upper half is.
pub struct KeyWord;

impl KeyWord {
    pub const GROUP: u64 = 0x100;

    pub const ENDPOINT: u64 = 0x100_0000;

    pub const FABRIC: u64 = 0x100_0000_0000;

    // The mark of a valid record word: key words are below it.
    pub const VALID: u64 = 0x1_0000_0000_0000;

    pub const RECORD_END: u64 = 0x2_0000_0000_0000;

    // What the upper half of a word counts. Key words with a fabric from 1 to 255 have one of UPPERS halves, from FIRST_UPPER on.
    pub const UPPER: u64 = 0x1_0000_0000;

    pub const FIRST_UPPER: u64 = 0x100;

    pub const UPPERS: u32 = 0xFF00;

    // How many endpoints, and how many groups, a part can tell apart.
    pub const PART: u64 = 0x1_0000;
}

// The scene that a command names, or that a record remembers.
#[repr(C)]
#[derive(Clone, Copy)]
pub struct SceneKey {
    pub fabric: u8,
    pub endpoint: u16,
    pub group: u16,
    pub scene: u8,
}

// A group of a fabric on an endpoint.
#[repr(C)]
#[derive(Clone, Copy)]
pub struct GroupKey {
    pub fabric: u8,
    pub endpoint: u16,
    pub group: u16,
}

// A fabric on an endpoint.
#[derive(Clone, Copy)]
pub struct EndpointKey {
    pub fabric: u8,
    pub endpoint: u16,
}

// The key words of a fabric, of a fabric on an endpoint, or of a fabric in a group on an endpoint.
#[derive(Clone, Copy)]
pub enum KeyRange {
    Fabric(u8),
    Endpoint(EndpointKey),
    Group(GroupKey),
}

impl SceneKey {
    // The key word.
    pub fn word(self) -> u64
        ensures { result ≡ word_of self }
    {
        (self.fabric as u64) * KeyWord::FABRIC
            + (self.endpoint as u64) * KeyWord::ENDPOINT
            + (self.group as u64) * KeyWord::GROUP
            + (self.scene as u64)
    }

    // The record word of a valid current scene.
    pub fn valid_record(self) -> u64
        ensures { result ≡ valid_record self }
    {
        self.word() + KeyWord::VALID
    }
}

impl KeyRange {
    // Whether a key word lies in the range: its upper part decides, which is one comparison.
    pub fn holds(self, word: u64) -> bool
        ensures { result ≡ within self word }
    {
        match self {
            KeyRange::Fabric(fabric) => fabric_of(word) == fabric as u64,
            KeyRange::Endpoint(key) => {
                word / KeyWord::ENDPOINT
                    == (key.fabric as u64) * KeyWord::PART + (key.endpoint as u64)
            }
            KeyRange::Group(key) => {
                word / KeyWord::GROUP
                    == ((key.fabric as u64) * KeyWord::PART + (key.endpoint as u64)) * KeyWord::PART
                        + (key.group as u64)
            }
        }
    }
}

// The fabric of a key word: below 256 where the word is below VALID.
pub fn fabric_of(word: u64) -> u64
    ensures { result ≡ fabric_of word }
{
    word / KeyWord::FABRIC
}

pub fn endpoint_of(word: u64) -> u16
    ensures { result ≡ endpoint_of word }
{
    (word / KeyWord::ENDPOINT % KeyWord::PART) as u16
}

pub fn group_of(word: u64) -> u16
    ensures { result ≡ group_of word }
{
    (word / KeyWord::GROUP % KeyWord::PART) as u16
}

pub fn scene_of(word: u64) -> u8
    ensures { result ≡ scene_of word }
{
    (word % KeyWord::GROUP) as u8
}

// The key word of a record word, valid or not.
pub fn key_of_record(word: u64) -> u64
    ensures { result ≡ key_of_record word }
{
    word % KeyWord::VALID
}

// Whether a record word carries the valid mark.
pub fn is_valid(word: u64) -> bool
    ensures { result ≡ is_valid word }
{
    KeyWord::VALID <= word
}

// The status of what may be refused: 0, or the refusal's number.
pub fn status_of(answer: Result<(), Refusal>) -> u8
    ensures { result ≡ status_of answer }
{
    match answer {
        Ok(()) => Status::SUCCESS,
        Err(refusal) => u8::from(refusal),
    }
}
