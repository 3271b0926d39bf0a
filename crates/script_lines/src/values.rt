// What the words of a line name: numbers of a width, a scene, a group.
ghost use Rattle.std.specs.Prelude.{◌≡◌};
ghost use Rattle.requests.specs.Requests.{membership_of};
ghost use Rattle.script_lines.specs.Values.{byte, short, long, scene_key, group_key, asking, half_asking};

use crate::reader::{Bounds, Line, one_of};
use requests::Membership;
use words::{GroupKey, SceneKey};

pub fn byte(value: u64) -> u8
    ensures { result ≡ byte value }
{
    (value % 0x100) as u8
}

pub fn short(value: u64) -> u16
    ensures { result ≡ short value }
{
    (value % 0x1_0000) as u16
}

pub fn long(value: u64) -> u32
    ensures { result ≡ long value }
{
    (value % 0x1_0000_0000) as u32
}

// The membership that a word tells.
pub fn member(value: u64) -> Membership
    ensures { result ≡ membership_of (byte value) }
{
    Membership::from(byte(value))
}

// The scene that the first four words name.
pub fn scene_key(read: Line) -> SceneKey
    ensures { result ≡ scene_key read.values }
{
    SceneKey {
        fabric: byte(read.values[0]),
        endpoint: short(read.values[1]),
        group: short(read.values[2]),
        scene: byte(read.values[3]),
    }
}

// The group that the first three words name.
pub fn group_key(read: Line) -> GroupKey
    ensures { result ≡ group_key read.values }
{
    GroupKey {
        fabric: byte(read.values[0]),
        endpoint: short(read.values[1]),
        group: short(read.values[2]),
    }
}

// Whether the membership of a line is asked for, and not told.
pub fn asks(read: Line) -> bool
    ensures { result ≡ asking read.letter read.values }
{
    let letter = read.letter;
    if one_of(letter, b"AB") {
        return read.values[5] == Bounds::ASKS;
    }
    if one_of(letter, b"SVRL") {
        return read.values[4] == Bounds::ASKS;
    }
    if one_of(letter, b"XM") {
        return read.values[3] == Bounds::ASKS;
    }
    if letter == b'C' {
        return read.values[7] == Bounds::ASKS;
    }
    false
}

// Whether a copy asks for one of its memberships and is told the other.
pub fn asks_half(read: Line) -> bool
    ensures { result ≡ half_asking read.letter read.values }
{
    if read.letter == b'C' {
        if read.values[7] == Bounds::ASKS {
            return read.values[8] != Bounds::ASKS;
        }
        return read.values[8] == Bounds::ASKS;
    }
    false
}
