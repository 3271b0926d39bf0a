// The answer to a line of a script that asks for the sets in field bytes.
#![tactic(auto)]

ghost use Rattle.std.specs.Prelude.{◌≡◌, [], IsSome, unwrap_or};
ghost use Rattle.text_output.specs.Writing.{sheet, puts};
ghost use Rattle.field_sets.specs.Reader.{sets_in};
ghost use Rattle.script_sets.specs.Texts.{cluster_text, attribute_text, each_text, no_sets, sets_text, sets_line};

use field_sets::{Cursor, Item, count_pairs};
use script_answers::{Answer, Tail, put_head};
use state::ScenesState;
use text_output::{end_line, put, put_decimal, put_number, put_text};
use words::{Refusal, Status};

// A cluster number between a blank and a colon, and `-` where no pair follows.
fn put_cluster(out: &mut [u8], at: usize, cluster: u32, pairs: usize) -> usize
    ensures { sheet out.new result ≡ puts (cluster_text cluster pairs) (sheet out.old at) }
{
    let name = put_number(out, at, cluster as u64);
    if pairs == 0 {
        return put_text(out, name, b":-");
    }
    put(out, name, b':')
}

// An attribute number, and a comma where more of them follow.
fn put_attribute(out: &mut [u8], at: usize, attribute: u32, left: usize) -> usize
    ensures { sheet out.new result ≡ puts (attribute_text attribute left) (sheet out.old at) }
{
    let name = put_decimal(out, at, attribute as u64);
    if left == 0 {
        return name;
    }
    put(out, name, b',')
}

// The sets, one behind the other.
fn put_each(out: &mut [u8], at: usize, bytes: &[u8]) -> usize
    requires { IsSome (sets_in bytes.now) }
    ensures { let sets = unwrap_or (sets_in bytes.now) [] in
        sheet out.new result ≡ puts (each_text sets) (sheet out.old at) }
{
    let mut next = at;
    let mut cursor = Cursor::start();
    loop {
        match cursor.next(bytes) {
            Item::Cluster(cluster, behind) => {
                next = put_cluster(out, next, cluster, behind.left);
                cursor = behind;
            }
            Item::Attribute(attribute, behind) => {
                next = put_attribute(out, next, attribute, behind.left);
                cursor = behind;
            }
            Item::Done | Item::Refused => return next,
        }
    }
}

// Whether the reader has nothing to yield.
fn has_none(bytes: &[u8]) -> bool
    ensures { result ≡ no_sets (sets_in bytes.now) }
{
    matches!(Cursor::start().next(bytes), Item::Done)
}

// All sets, or ` -` where there are none.
fn put_all(out: &mut [u8], at: usize, bytes: &[u8]) -> usize
    requires { IsSome (sets_in bytes.now) }
    ensures { sheet out.new result ≡ puts (sets_text (sets_in bytes.now)) (sheet out.old at) }
{
    if has_none(bytes) {
        return put_text(out, at, b" -");
    }
    put_each(out, at, bytes)
}

// Y: the sets in field bytes, or that these are no list of sets.
pub fn put_sets(out: &mut [u8], at: usize, trace: bool, state: ScenesState, bytes: &[u8]) -> usize
    ensures { sheet out.new result ≡ sets_line trace state bytes.now (sheet out.old at) }
{
    let Some(_) = count_pairs(bytes) else {
        let refused = Answer {
            status: u8::from(Refusal::BadFieldSets),
            save: false,
            state,
            tail: Tail::Nothing,
        };
        let head = put_head(out, at, trace, b'Y', refused);
        return end_line(out, head);
    };
    let answer = Answer {
        status: Status::SUCCESS,
        save: false,
        state,
        tail: Tail::Nothing,
    };
    let head = put_head(out, at, trace, b'Y', answer);
    let end = put_all(out, head, bytes);
    end_line(out, end)
}
