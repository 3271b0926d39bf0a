// A line of a script: a letter and the words that belong to it.
ghost use Rattle.std.specs.Prelude.{◌≤◌, ◌≡◌, ◌++◌, length, take, drop};
ghost use Rattle.text_input.specs.Reading.{turned};
ghost use Rattle.script_lines.specs.Lines.{one_of, known, two_words, scene_and, kinds_of, override_of, most_scenes, modes_of, member_word, read_as, word_says, words_say, words_left, words_said, line_says, line_left, said_of, ReadsNext, ReadsLine};

use text_input::{digits, hex, next_word, number};
use text_output::Reason;

// The kinds of words.
#[derive(Clone, Copy)]
enum Kind {
    // No further word.
    End,
    // Numbers of one, two and four bytes.
    Byte,
    Short,
    Long,
    // 1 yes, 0 no, 2 failed; in scenetrace `?` too, where the memberships that are held are asked.
    Member,
    // 0 or 1.
    Flag,
    // The size of a table.
    Size,
    // The modes of a table, which may be missing: a byte in scenetrace, no further word in scenebench.
    Modes,
    Digits,
    Hex,
    // A transition time, or `-` or `null` for none.
    Override,
    // The length of a buffer, at most so much; so much if it is missing.
    Length(u64),
}

pub struct Bounds;

impl Bounds {
    // The largest table of scenebench, and of scenetrace.
    pub const BENCH: u64 = 256;

    pub const TRACE: u64 = 1024;

    // The scene list buffer.
    pub const LIST: u64 = 1024;

    // The image buffer: as long as the image of 1,024 scenes can be.
    pub const IMAGE: u64 = 175_112;

    // What stands for no override: no time is so large. These three stay numbers and no Option: `line_says` has them among the numbers
    // that a line says.
    pub const STORED: u64 = 0x1_0000_0000;

    // What stands for modes that are not given: no byte is so large.
    pub const NOT_GIVEN: u64 = 0x100;

    // What stands for a membership that is asked for.
    pub const ASKS: u64 = 3;
}

// What a line says: its letter and, for each word, its number or its count of bytes, and where it starts.
#[derive(Clone, Copy)]
pub struct Line {
    pub letter: u8,
    pub values: [u64; 10],
    pub starts: [usize; 10],
}

// The kinds of two words.
fn two_words(a: Kind, b: Kind) -> [Kind; 10]
    ensures { result ≡ two_words a b }
{
    let end = Kind::End;
    [a, b, end, end, end, end, end, end, end, end]
}

// The kinds of the four words of a scene, and of up to four words behind them.
fn scene_and(a: Kind, b: Kind, c: Kind, d: Kind) -> [Kind; 10]
    ensures { result ≡ scene_and a b c d }
{
    let end = Kind::End;
    let byte = Kind::Byte;
    let short = Kind::Short;
    [byte, short, short, byte, a, b, c, d, end, end]
}

// The kinds of the words that a letter takes.
fn kinds_of(letter: u8) -> [Kind; 10]
    ensures { result ≡ kinds_of letter }
{
    let end = Kind::End;
    let byte = Kind::Byte;
    let short = Kind::Short;
    let long = Kind::Long;
    let member = Kind::Member;
    let flag = Kind::Flag;
    let list = Kind::Length(Bounds::LIST);
    let image = Kind::Length(Bounds::IMAGE);
    match letter {
        b'N' => two_words(Kind::Size, Kind::Modes),
        b'A' => scene_and(long, member, Kind::Digits, Kind::Hex),
        b'B' => scene_and(long, member, Kind::Digits, Kind::Hex),
        b'S' => scene_and(member, Kind::Hex, end, end),
        b'V' | b'R' => scene_and(member, end, end, end),
        b'X' => [byte, short, short, member, end, end, end, end, end, end],
        b'C' => [
            byte, short, byte, short, byte, short, byte, member, member, end,
        ],
        b'L' => scene_and(member, Kind::Override, flag, end),
        b'M' => [byte, short, short, member, list, end, end, end, end, end],
        b'I' => [byte, short, flag, end, end, end, end, end, end, end],
        b'T' => [short, end, end, end, end, end, end, end, end, end],
        b'F' => [byte, end, end, end, end, end, end, end, end, end],
        b'K' => [long, end, end, end, end, end, end, end, end, end],
        b'P' => [image, end, end, end, end, end, end, end, end, end],
        b'G' | b'Y' => [Kind::Hex, end, end, end, end, end, end, end, end, end],
        b'e' => scene_and(long, Kind::Hex, end, end),
        b'r' => scene_and(flag, end, end, end),
        b'J' | b'Q' | b'H' | b'm' => [byte, short, short, end, end, end, end, end, end, end],
        _ => [end, end, end, end, end, end, end, end, end, end],
    }
}

// Whether a letter is one of some.
pub fn one_of(letter: u8, letters: &[u8]) -> bool
    ensures { result ≡ one_of letter letters.now }
{
    letters.contains(&letter)
}

// Whether a letter is a command: of both programs, or of scenetrace alone.
fn is_known(letter: u8, trace: bool) -> bool
    ensures { result ≡ known letter trace }
{
    if one_of(letter, b"NASV") {
        return true;
    }
    if trace {
        return one_of(letter, b"RXCLMITFZUWEDKerPGBYJQHm");
    }
    false
}

// The largest table of a program.
fn most_scenes(trace: bool) -> u64
    ensures { result ≡ most_scenes trace }
{
    if trace {
        return Bounds::TRACE;
    }
    Bounds::BENCH
}

// The modes of a table, or that they are not given.
fn modes(word: &[u8], trace: bool) -> Result<u64, Reason>
    ensures { result ≡ modes_of trace word.now }
{
    if word.len() == 0 {
        return Ok(Bounds::NOT_GIVEN);
    }
    if trace {
        return number(word, 0xFF);
    }
    Err(Reason::TooMany)
}

// A membership that is told, or `?` for one that is asked for.
fn membership(word: &[u8], trace: bool) -> Result<u64, Reason>
    ensures { result ≡ member_word trace word.now }
{
    if trace && word == b"?".as_slice() {
        return Ok(Bounds::ASKS);
    }
    number(word, 2)
}

// A transition time, or none.
fn transition(word: &[u8]) -> Result<u64, Reason>
    ensures { result ≡ override_of word.now }
{
    if word == b"-".as_slice() || word == b"null".as_slice() {
        return Ok(Bounds::STORED);
    }
    number(word, 0xFFFF_FFFF)
}

// Reads a word of a kind, and turns its bytes into those that it spells, in its front.
fn read_word(word: &mut [u8], kind: Kind, trace: bool) -> Result<u64, Reason>
    ensures { turned result word.new ≡ read_as (word_says trace kind word.old) word.old }
{
    match kind {
        Kind::End => {
            if word.len() == 0 {
                return Ok(0);
            }
            Err(Reason::TooMany)
        }
        Kind::Byte => number(word, 0xFF),
        Kind::Short => number(word, 0xFFFF),
        Kind::Long => number(word, 0xFFFF_FFFF),
        Kind::Member => membership(word, trace),
        Kind::Flag => number(word, 1),
        Kind::Size => number(word, most_scenes(trace)),
        Kind::Modes => modes(word, trace),
        Kind::Digits => digits(word),
        Kind::Hex => hex(word),
        Kind::Override => transition(word),
        Kind::Length(most) => {
            if word.len() == 0 {
                return Ok(most);
            }
            number(word, most)
        }
    }
}

// A word that was read, and its positions.
#[derive(Clone, Copy)]
struct Reading {
    word: Result<u64, Reason>,
    from: usize,
    to: usize,
}

// Reads the next word from a position on.
fn read_next(line: &mut [u8], at: usize, kind: Kind, trace: bool) -> Reading
    requires { at ≤ length line.old }
    ensures { ReadsNext trace kind line.old at line.new result }
{
    let span = next_word(line, at);
    let from = span.from;
    let to = span.to;
    let word = read_word(&mut line[from..to], kind, trace);
    Reading { word, from, to }
}

// Reads the words behind a letter.
fn read_words(line: &mut [u8], start: usize, letter: u8, trace: bool) -> Result<Line, Reason>
    requires { start ≤ length line.old }
    ensures { let text = drop start line.old in
        let left = take start line.old ++ words_left trace (kinds_of letter) text in
        ReadsLine (words_say trace letter (kinds_of letter) text) left line.new (words_said result line.new) }
{
    let kinds = kinds_of(letter);
    let mut values = [0u64; 10];
    let mut starts = [0usize; 10];
    let mut at = start;
    for (i, kind) in kinds.iter().enumerate() {
        let got = read_next(line, at, *kind, trace);
        values[i] = got.word?;
        starts[i] = got.from;
        at = got.to;
    }
    Ok(Line {
        letter,
        values,
        starts,
    })
}

// Reads a line, and leaves its words as they were read. Empty lines and lines that start with `#` say nothing.
pub fn read_line(line: &mut [u8], trace: bool) -> Result<Option<Line>, Reason>
    ensures { ReadsLine (line_says trace line.old) (line_left trace line.old) line.new (said_of result line.new) }
{
    let span = next_word(line, 0);
    let from = span.from;
    let to = span.to;
    if line.len() <= from {
        return Ok(None);
    }
    let letter = line[from];
    if letter == b'#' {
        return Ok(None);
    }
    if from + 1 != to {
        return Err(Reason::Unknown);
    }
    if is_known(letter, trace) {
        return Ok(Some(read_words(line, to, letter, trace)?));
    }
    Err(Reason::Unknown)
}
