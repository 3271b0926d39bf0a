// Output in a lent buffer: each function writes from a position on and answers the next one. What does not fit is left out; whoever
// lends the buffer empties it in time.
ghost use Rattle.std.specs.Prelude.{◌≡◌, [], ◌∷◌, ◌%◌};
ghost use Rattle.text_output.specs.Writing.{sheet, put_byte, puts, writes, decimal, spaced, flag_text, hex_digit, hex_byte, hex_text, bytes_text, is_fault, status_text};
ghost use Rattle.text_output.specs.Errors.{reason_text, error_line};

use crate::reason::Reason;

// No fault is so large, and no status but 0 is less.
const FIRST_STATUS: u8 = 0x10;

pub fn put(out: &mut [u8], at: usize, b: u8) -> usize
    ensures { sheet out.new result ≡ put_byte b (sheet out.old at) }
{
    if at < out.len() {
        out[at] = b;
        return at + 1;
    }
    at
}

pub fn put_text(out: &mut [u8], at: usize, text: &[u8]) -> usize
    ensures { sheet out.new result ≡ puts text.now (sheet out.old at) }
{
    let mut next = at;
    for b in text {
        next = put(out, next, *b);
    }
    next
}

pub fn end_line(out: &mut [u8], at: usize) -> usize
    ensures { sheet out.new result ≡ puts (10 ∷ []) (sheet out.old at) }
{
    put(out, at, b'\n')
}

// A number in decimal.
pub fn put_decimal(out: &mut [u8], at: usize, n: u64) -> usize
    ensures { sheet out.new result ≡ puts (decimal n) (sheet out.old at) }
{
    if n < 10 {
        return put(out, at, b'0' + (n as u8));
    }
    let next = put_decimal(out, at, n / 10);
    put(out, next, b'0' + ((n % 10) as u8))
}

// A number in decimal, behind a blank.
pub fn put_number(out: &mut [u8], at: usize, n: u64) -> usize
    ensures { sheet out.new result ≡ puts (spaced (decimal n)) (sheet out.old at) }
{
    let next = put(out, at, b' ');
    put_decimal(out, next, n)
}

// 1 or 0, behind a blank.
pub fn put_flag(out: &mut [u8], at: usize, flag: bool) -> usize
    ensures { sheet out.new result ≡ puts (spaced (flag_text flag)) (sheet out.old at) }
{
    if flag {
        return put_number(out, at, 1);
    }
    put_number(out, at, 0)
}

fn hex_digit(n: u8) -> u8
    ensures { result ≡ hex_digit (n % 16) }
{
    if n % 16 < 10 {
        return b'0' + n % 16;
    }
    b'A' + (n % 16 - 10)
}

fn put_hex_byte(out: &mut [u8], at: usize, b: u8) -> usize
    ensures { sheet out.new result ≡ puts (hex_byte b) (sheet out.old at) }
{
    let next = put(out, at, hex_digit(b / 16));
    put(out, next, hex_digit(b))
}

// Bytes in hexadecimal.
fn put_hex(out: &mut [u8], at: usize, bytes: &[u8]) -> usize
    ensures { sheet out.new result ≡ puts (hex_text bytes.now) (sheet out.old at) }
{
    let mut next = at;
    for b in bytes {
        next = put_hex_byte(out, next, *b);
    }
    next
}

// Bytes in hexadecimal, or `-`, behind a blank.
pub fn put_bytes(out: &mut [u8], at: usize, bytes: &[u8]) -> usize
    ensures { sheet out.new result ≡ puts (spaced (bytes_text bytes.now)) (sheet out.old at) }
{
    let next = put(out, at, b' ');
    if bytes.len() == 0 {
        return put(out, next, b'-');
    }
    put_hex(out, next, bytes)
}

// Whether a status is a fault's number.
fn is_fault(status: u8) -> bool
    ensures { result ≡ is_fault status }
{
    if status < FIRST_STATUS {
        return 0 < status;
    }
    false
}

// A status in two hexadecimal digits, a fault as F and its number, behind a blank.
pub fn put_status(out: &mut [u8], at: usize, status: u8) -> usize
    ensures { sheet out.new result ≡ puts (spaced (status_text status)) (sheet out.old at) }
{
    let next = put(out, at, b' ');
    if is_fault(status) {
        let fault = put(out, next, b'F');
        return put_decimal(out, fault, status as u64);
    }
    put_hex_byte(out, next, status)
}

fn put_reason(out: &mut [u8], at: usize, reason: Reason) -> usize
    ensures { sheet out.new result ≡ puts (reason_text reason) (sheet out.old at) }
{
    match reason {
        Reason::Unknown => put_text(out, at, b" unknown command"),
        Reason::Missing => put_text(out, at, b" missing word"),
        Reason::TooMany => put_text(out, at, b" too many words"),
        Reason::NotANumber => put_text(out, at, b" not a number"),
        Reason::TooLarge => put_text(out, at, b" number too large"),
        Reason::NotHex => put_text(out, at, b" bad hexadecimal"),
        Reason::NotDigits => put_text(out, at, b" bad digits"),
        Reason::NoTable => put_text(out, at, b" no table"),
        Reason::TooLong => put_text(out, at, b" line too long"),
        Reason::ReadFailed => put_text(out, at, b" input cannot be read"),
    }
}

// The answer to a line that is not understood: its number in the input and why.
pub fn put_error(out: &mut [u8], at: usize, line: u64, reason: Reason) -> usize
    ensures { sheet out.new result ≡ writes (error_line line reason) (sheet out.old at) }
{
    let word = put_text(out, at, b"error");
    let number = put_number(out, word, line);
    let why = put_reason(out, number, reason);
    end_line(out, why)
}
