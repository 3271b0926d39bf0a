// The element types and the tag controls, by the names of the Rust's `TLVValueType` and `TLVTagType`. They stay numbers: a width is read off the
// low two bits (`kind % WIDTHS`), an octet string's type is its length's plus 12, and readers compare by order (`kind <= most`): an enum would be
// turned back into its number at each of these places.
pub struct ValueType;

impl ValueType {
    pub const S8: u8 = 0;

    pub const S16: u8 = 1;

    pub const S32: u8 = 2;

    pub const S64: u8 = 3;

    pub const U8: u8 = 4;

    pub const U16: u8 = 5;

    pub const U32: u8 = 6;

    pub const U64: u8 = 7;

    pub const FALSE: u8 = 8;

    pub const TRUE: u8 = 9;

    pub const F32: u8 = 10;

    pub const F64: u8 = 11;

    pub const UTF8L: u8 = 12;

    pub const UTF16L: u8 = 13;

    pub const UTF32L: u8 = 14;

    pub const UTF64L: u8 = 15;

    pub const STR8L: u8 = 16;

    pub const STR16L: u8 = 17;

    pub const STR32L: u8 = 18;

    pub const STR64L: u8 = 19;

    pub const NULL: u8 = 20;

    pub const STRUCT: u8 = 21;

    pub const ARRAY: u8 = 22;

    pub const LIST: u8 = 23;

    pub const END_CNT: u8 = 24;

    // How many control bytes share a tag control: the type is the low five bits.
    pub const COUNT: u8 = 32;

    // One, two, four or eight octets, by the low two bits of the types of numbers, and of strings for their lengths.
    pub const WIDTHS: u8 = 4;
}

pub struct TagType;

impl TagType {
    pub const ANONYMOUS: u8 = 0;

    pub const CONTEXT: u8 = 1;

    pub const COMMON_PRF16: u8 = 2;

    pub const COMMON_PRF32: u8 = 3;

    pub const IMPL_PRF16: u8 = 4;

    pub const IMPL_PRF32: u8 = 5;

    pub const FULL_QUAL48: u8 = 6;

    pub const FULL_QUAL64: u8 = 7;

    // What a context tag adds to the type in a control byte.
    pub const CONTEXT_CONTROL: u8 = ValueType::COUNT * TagType::CONTEXT;
}
