// Runs the readers on the bytes of the rows of `tlv`'s table of worked encodings (specs/Worked.antt), in its order, and writes a line for
// each: the bytes; every element's type, tag control, context tag, value's position and position behind, and what an unsigned number, a
// boolean or an octet string says; the position behind all of the first element.
#![tactic(auto)]

use std::io::Print;
use tlv::{Element, ValueType, bool_at, container_next, element_at, number_at, octets_at};

// A write that fails ends nothing, here and below: the rows after it are tried all the same.
fn text(rt: &impl Print, t: &[u8]) {
    let _ = rt.write_all(t);
}

fn number(rt: &impl Print, n: u64) {
    let _ = print!(rt; " {n}");
}

// The bytes themselves.
fn hex(rt: &impl Print, bytes: &[u8]) {
    for b in bytes {
        let _ = print!(rt; "{b:02x}");
    }
    text(rt, b":");
}

// What the readers make of the element at a position.
fn said(rt: &impl Print, bytes: &[u8], at: usize) {
    if let Some(v) = number_at(bytes, at, ValueType::U64) {
        text(rt, b" =");
        number(rt, v);
    }
    if let Some(b) = bool_at(bytes, at) {
        text(rt, b" is");
        number(rt, u64::from(b));
    }
    if let Some(span) = octets_at(bytes, at) {
        text(rt, b" octets");
        number(rt, span.from as u64);
        number(rt, span.to as u64);
    }
}

fn head(rt: &impl Print, h: Element) {
    number(rt, u64::from(h.kind));
    number(rt, u64::from(h.form));
    number(rt, u64::from(h.tag));
    number(rt, h.value as u64);
    number(rt, h.next as u64);
}

// Every element, up to the first that cannot be read.
fn elements(rt: &impl Print, bytes: &[u8]) {
    let mut i = 0;
    while i < bytes.len() {
        let Some(h) = element_at(bytes, i) else {
            text(rt, b" refused;");
            return;
        };
        head(rt, h);
        said(rt, bytes, i);
        text(rt, b";");
        i = h.next;
    }
}

fn row(rt: &impl Print, bytes: &[u8]) {
    hex(rt, bytes);
    elements(rt, bytes);
    match container_next(bytes, 0) {
        Some(next) => {
            text(rt, b" behind");
            number(rt, next as u64);
        }
        None => {
            text(rt, b" broken");
        }
    }
    text(rt, b"\n");
}

// False, true and null.
fn constants(rt: &impl Print) {
    row(rt, b"\x08");
    row(rt, b"\x09");
    row(rt, b"\x14");
}

// Numbers, signed and unsigned, and floats.
fn numbers(rt: &impl Print) {
    row(rt, b"\x00\x2A");
    row(rt, b"\x00\xEF");
    row(rt, b"\x04\x2A");
    row(rt, b"\x01\x2A\x00");
    row(rt, b"\x02\xF0\x67\xFD\xFF");
    row(rt, b"\x03\x00\x90\x2F\x50\x09\x00\x00\x00");
    row(rt, b"\x05\x10\x27");
    row(rt, b"\x06\xA0\x86\x01\x00");
    row(rt, b"\x07\x00\x90\x2F\x50\x09\x00\x00\x00");
    row(rt, b"\x0A\x00\x00\x00\x00");
    row(rt, b"\x0B\x66\x66\x66\x66\x66\xE6\x31\x40");
}

// Text and octet strings.
fn strings(rt: &impl Print) {
    row(rt, b"\x0C\x06\x48\x65\x6C\x6C\x6F\x21");
    row(rt, b"\x0C\x07\x54\x73\x63\x68\xC3\xBC\x73");
    row(rt, b"\x10\x05\x00\x01\x02\x03\x04");
    row(rt, b"\x11\x02\x00\x01\x02");
}

// An empty structure, array and list.
fn empties(rt: &impl Print) {
    row(rt, b"\x15\x18");
    row(rt, b"\x16\x18");
    row(rt, b"\x17\x18");
}

// Containers with members.
fn containers(rt: &impl Print) {
    row(rt, b"\x15\x20\x00\x2A\x20\x01\xEF\x18");
    row(rt, b"\x16\x00\x00\x00\x01\x00\x02\x00\x03\x00\x04\x18");
    row(
        rt,
        b"\x17\x00\x01\x20\x00\x2A\x00\x02\x00\x03\x20\x00\xEF\x18",
    );
    row(
        rt,
        b"\x16\x00\x2A\x02\xF0\x67\xFD\xFF\x15\x18\x0A\x33\x33\x8F\x41\x0C\x06\x48\x65\x6C\x6C\x6F\x21\x18",
    );
}

// Tags of every control.
fn tags(rt: &impl Print) {
    row(rt, b"\x24\x01\x2A");
    row(rt, b"\x44\x01\x00\x2A");
    row(rt, b"\x64\xA0\x86\x01\x00\x2A");
    row(rt, b"\x84\x01\x00\x2A");
    row(rt, b"\xA4\xA0\x86\x01\x00\x2A");
    row(rt, b"\xC4\xF1\xFF\xED\xDE\x01\x00\x2A");
    row(rt, b"\xE4\xF1\xFF\xED\xDE\xED\xFE\x55\xAA\x2A");
    row(
        rt,
        b"\xD5\xF1\xFF\xED\xDE\x01\x00\xC4\xF1\xFF\xED\xDE\xAA\x00\x2A\x18",
    );
}

// What is refused.
fn refusals(rt: &impl Print) {
    row(rt, b"\x38\x00");
    row(rt, b"\x15\x38\x00");
    row(rt, b"\x19");
    row(rt, b"\x1F");
    row(rt, b"\x11\x00");
    row(rt, b"\x10\x05\x00");
    row(rt, b"\x13\xFF\xFF\xFF\xFF\xFF\xFF\xFF\xFF");
    row(rt, b"\x24");
    row(rt, b"\x05\x2A");
    row(rt, b"\x15");
}

fn main(rt: HostRuntime) {
    constants(&rt);
    numbers(&rt);
    strings(&rt);
    empties(&rt);
    containers(&rt);
    tags(&rt);
    refusals(&rt);
}
