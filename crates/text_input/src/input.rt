// The words of a line: numbers, hexadecimal bytes and digits.
ghost use Rattle.std.specs.Prelude.{◌≡◌, ◌<◌, true, Ok, map, take, drop};
ghost use Rattle.text_input.specs.Reading.{blank, word_from, digit_value, hex_value, number_of, all_digits, all_pairs, pair_bytes, hex_pairs, digit_bytes, dash_of, or_dash, turned, spelled_in};

use text_output::Reason;

// The positions of a word: from `from` on and below `to`. None where the line has no further word.
#[derive(Clone, Copy)]
pub struct Span {
    pub from: usize,
    pub to: usize,
}

// A blank, a tab, or the return before the end of a line.
fn is_blank(b: u8) -> bool
    ensures { result ≡ blank b }
{
    matches!(b, b' ' | b'\t' | b'\r')
}

// What a line holds from a position on. A slice, since `skip` takes a step for each byte that it passes over.
pub(crate) fn rest(line: &[u8], at: usize) -> &[u8]
    ensures { result.now ≡ drop at line.now }
{
    &line[at.min(line.len())..]
}

// The next word from a position on.
pub fn next_word(line: &[u8], at: usize) -> Span
    ensures { result ≡ word_from line.now at }
{
    let behind = rest(line, at);
    let from = at + behind.iter().take_while(|b| is_blank(**b)).count();
    let word = rest(line, from);
    let to = from + word.iter().take_while(|b| !is_blank(**b)).count();
    Span { from, to }
}

// Some bytes of a line from a position on, as many as it has.
pub fn part(line: &[u8], from: usize, count: usize) -> &[u8]
    ensures { result.now ≡ take count (drop from line.now) }
{
    let behind = rest(line, from);
    &behind[..count.min(behind.len())]
}

// A decimal number of at most `most`.
pub fn number(word: &[u8], most: u64) -> Result<u64, Reason>
    ensures { result ≡ number_of most word.now }
{
    if word.len() == 0 {
        return Err(Reason::Missing);
    }
    let mut value: u64 = 0;
    for b in word {
        let Some(digit) = (*b as char).to_digit(10) else {
            return Err(Reason::NotANumber);
        };
        let digit = u64::from(digit);
        if most / 10 < value {
            return Err(Reason::TooLarge);
        }
        if most - value * 10 < digit {
            return Err(Reason::TooLarge);
        }
        value = value * 10 + digit;
    }
    Ok(value)
}

// Whether a word is pairs of hexadecimal digits.
fn all_pairs(word: &[u8]) -> bool
    ensures { result ≡ all_pairs word.now }
{
    word.len() % 2 == 0 && word.iter().all(|b| b.is_ascii_hexdigit())
}

// The value of a hexadecimal digit.
fn hex_value(b: u8) -> u8
    requires { hex_value b < 16 }
    ensures { result ≡ hex_value b }
{
    (b as char).to_digit(16).unwrap() as u8
}

// Turns pairs of hexadecimal digits into the bytes that they spell, in their front, and says how many.
fn lay_pairs(word: &mut [u8]) -> u64
    requires { all_pairs word.old ≡ true }
    ensures { turned (Ok result) word.new ≡ spelled_in (Ok (pair_bytes word.old)) word.old }
{
    let n = word.len() / 2;
    for i in 0..n {
        let high = hex_value(word[2 * i]);
        let low = hex_value(word[2 * i + 1]);
        word[i] = high * 16 + low;
    }
    n as u64
}

// Whether a word is digits.
fn all_digits(word: &[u8]) -> bool
    ensures { result ≡ all_digits word.now }
{
    word.iter().all(|b| b.is_ascii_digit())
}

// Turns digits into bytes of their values, and says how many.
fn lay_digits(word: &mut [u8]) -> u64
    requires { all_digits word.old ≡ true }
    ensures { turned (Ok result) word.new ≡ spelled_in (Ok (map digit_value word.old)) word.old }
{
    for b in word.iter_mut() {
        *b -= b'0';
    }
    word.len() as u64
}

// Whether a word is `-`, which spells no bytes. A word that is missing is refused.
fn is_dash(word: &[u8]) -> Result<bool, Reason>
    ensures { result ≡ dash_of word.now }
{
    if word.len() == 0 {
        return Err(Reason::Missing);
    }
    Ok(word == b"-".as_slice())
}

// Turns a word of hexadecimal digits, or `-`, into the bytes that it spells, in its front. A word that is refused stays as it was.
pub fn hex(word: &mut [u8]) -> Result<u64, Reason>
    ensures { turned result word.new ≡ spelled_in (or_dash word.old (hex_pairs word.old)) word.old }
{
    if is_dash(word)? {
        return Ok(0);
    }
    if !all_pairs(word) {
        return Err(Reason::NotHex);
    }
    Ok(lay_pairs(word))
}

// Turns a word of digits, or `-`, into bytes of their values, in its front. A word that is refused stays as it was.
pub fn digits(word: &mut [u8]) -> Result<u64, Reason>
    ensures { turned result word.new ≡ spelled_in (or_dash word.old (digit_bytes word.old)) word.old }
{
    if is_dash(word)? {
        return Ok(0);
    }
    if !all_digits(word) {
        return Err(Reason::NotDigits);
    }
    Ok(lay_digits(word))
}
