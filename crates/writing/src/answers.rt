// What is printed of a list: its document, or the writer's refusal.
use crate::area::Room;
use crate::event_lines::Line;
use crate::head_lines;
use std::io;
use tables::Counts;

// One octet more than a text area may have, so that the writer sees a longer one to be longer.
pub const LENT: usize = fields::OCTETS + 1;

// The document, whose output is lent as long as it was measured.
fn put_written(
    to: &impl Print,
    out: &mut [u8],
    given: &[u32],
    records: &[u32],
    text: &[u8],
) -> io::Result<()> {
    let mut tables = [0u32; Counts::WORDS];
    let mut counts = [0u32; Counts::TABLES];
    let answer = lomphachit::lomphachit_write(given, records, text, out, &mut tables, &mut counts);
    match lines::outcome(answer) {
        Ok(n) => to.write_all(&out[..n.min(out.len())]),
        Err(refused) => println!(to; "{refused}"),
    }
}

// Measured first: what that refuses is not written.
fn put_measured(to: &impl Print, given: &[u32], records: &[u32], text: &[u8]) -> io::Result<()> {
    let mut tables = [0u32; Counts::WORDS];
    let mut counts = [0u32; Counts::TABLES];
    let answer = lomphachit::lomphachit_measure(given, records, text, &mut tables, &mut counts);
    match lines::outcome(answer) {
        Ok(n) => {
            let mut out = [0u8; fields::OCTETS];
            let n = n.min(fields::OCTETS);
            put_written(to, &mut out[..n], given, records, text)
        }
        Err(refused) => println!(to; "{refused}"),
    }
}

// Without head lines nothing is given for the head.
pub fn put_document(to: &impl Print, line: Line, room: &Room) -> io::Result<()> {
    let words = &room.words[..line.from.min(room.words.len())];
    let text = &room.text[..line.fill.min(LENT).min(room.text.len())];
    let first = head_lines::WORDS.min(words.len());
    let given = if line.entries == 0 {
        0
    } else {
        head_lines::word_of(line.entries)
    };
    put_measured(to, &words[..given.min(first)], &words[first..], text)
}
