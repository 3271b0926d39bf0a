// Why a line is not understood.
#[derive(Clone, Copy)]
pub enum Reason {
    Unknown,
    Missing,
    TooMany,
    NotANumber,
    TooLarge,
    NotHex,
    NotDigits,
    NoTable,
    TooLong,
    ReadFailed,
}
