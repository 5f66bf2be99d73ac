// Lists one document from standard input: a line for each event and then their number, or the refusal.
// With the argument --places each event's line starts with the event's place.
// A program: it prints what the reader found, and decides nothing.
#![tactic(auto)]

mod block;

use block::Block;
use events::{Event, EventString, RECORD};
use format::StringForm;
use forms::Said;
use std::env::{Env, FillError};
use std::io::{self, Write};
use tables::Counts;

// An octet as two hex digits. Most of a listing is these, and `write!` takes ten times as long for them.
fn put_hex<P: Print>(out: &mut Block<'_, P>, o: u8) -> io::Result<()> {
    let digits = b"0123456789abcdef";
    out.push_both(digits[usize::from(o / 16)], digits[usize::from(o % 16)])
}

fn put_octets<P: Print>(out: &mut Block<'_, P>, octets: &[u8]) -> io::Result<()> {
    for o in octets {
        put_hex(out, *o)?;
    }
    Ok(())
}

// A stretch by its octets in UTF-8. The reader hands out none that reaches beyond s or is no text in its form; the test
// stands in for a contract that says so.
fn put_stretch<P: Print>(
    out: &mut Block<'_, P>,
    s: &[u8],
    form: StringForm,
    place: u32,
    size: u32,
) -> io::Result<()> {
    let from = place as usize;
    let to = from + size as usize;
    if to <= s.len() && forms::is_text(s, form, from, to) {
        for o in Said::over(s, form, from, to) {
            put_hex(out, o)?;
        }
    }
    Ok(())
}

// One string of an event: "-" for absent, else "=" and its octets in UTF-8.
fn put_string<P: Print>(out: &mut Block<'_, P>, s: &[u8], x: EventString) -> io::Result<()> {
    out.push(b' ')?;
    if x.is_absent() {
        return out.push(b'-');
    }
    out.push(b'=')?;
    match x {
        EventString::Absent | EventString::Empty => Ok(()),
        EventString::XmlPrefix => put_octets(out, b"xml"),
        EventString::XmlNamespace => put_octets(out, b"http://www.w3.org/XML/1998/namespace"),
        EventString::Stretch(form, place, size) => put_stretch(out, s, form, place, size),
    }
}

fn put_event<P: Print>(out: &mut Block<'_, P>, s: &[u8], e: Event) -> io::Result<()> {
    out.push(lines::letter(e.kind) as u8)?;
    let strings = [e.prefix, e.namespace, e.name, e.value];
    for x in &strings[lines::strings_of(e.kind)] {
        put_string(out, s, *x)?;
    }
    out.push(b'\n')
}

// The lines of the first n records, and their number.
fn put_events<P: Print>(
    out: &mut Block<'_, P>,
    s: &[u8],
    records: &[u32],
    n: usize,
    places: bool,
) -> io::Result<()> {
    for record in records.chunks_exact(RECORD).take(n) {
        let e = events::from_words(record, 0);
        if places {
            write!(out, "{} ", e.place)?;
        }
        put_event(out, s, e)?;
    }
    writeln!(out, "end {n}")
}

fn list<R: Input + Print>(rt: &R, places: bool) -> io::Result<()> {
    // One octet more than a document may have, so that a longer one is seen to be longer; 512 event records.
    let mut s = [0u8; fields::OCTETS + 1];
    let mut records = [0u32; 512 * RECORD];
    let mut tables = [0u32; Counts::WORDS];
    let mut counts = [0u32; Counts::TABLES];
    let n = lines::read_full(&mut rt.reader(), &mut s)?;
    let s = &s[..n];
    let answer = lomphachit::lomphachit_read(s, &mut records, &mut tables, &mut counts);
    let mut out = Block::new(rt);
    match lines::outcome(answer) {
        Ok(n) => put_events(&mut out, s, &records, n, places)?,
        Err(refused) => writeln!(out, "{refused}")?,
    }
    out.flush()
}

// Whether there is an argument of this number, the program's own name being number 0.
fn is_given(rt: &impl Env, i: usize) -> bool {
    !matches!(rt.arg(i, &mut [0u8; 1]), Err(FillError::NotPresent))
}

// Whether places are asked for, and none where the arguments ask for something else.
fn asks_places(rt: &impl Env) -> Option<bool> {
    if !is_given(rt, 1) {
        return Some(false);
    }
    let mut word = [0u8; 8];
    let n = rt.arg(1, &mut word).ok()?;
    if is_given(rt, 2) || &word[..n] != b"--places".as_slice() {
        return None;
    }
    Some(true)
}

fn main(rt: HostRuntime) -> io::Result<()> {
    match asks_places(&rt) {
        Some(places) => list(&rt, places),
        None => eprintln!(rt; "usage: listing [--places]; the document is standard input"),
    }
}
