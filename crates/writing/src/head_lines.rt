// Head lines, which come before the first event line: one for each entry that the head is to list, table by table.
// The words of what they give stand in front of those of the records.
use crate::area::Room;
use crate::event_lines::{Fault, Line, Phase, Step};
use format::table;
use tables::Counts;

// The most head lines. A document's tables have 2,560 entries at most.
pub const LINES: usize = 32768;

// Words that are given: a count for each table, three for each entry. The records start after them.
pub const WORDS: usize = Counts::TABLES + 3 * LINES;

fn table_of(letter: u8) -> Option<usize> {
    match letter {
        b'p' => Some(table::PREFIX),
        b'n' => Some(table::NAMESPACE_NAME),
        b'l' => Some(table::LOCAL_NAME),
        b'o' => Some(table::OTHER_NCNAME),
        b'u' => Some(table::OTHER_URI),
        b'v' => Some(table::ATTRIBUTE_VALUE),
        b'c' => Some(table::CONTENT_CHARACTER_CHUNK),
        b's' => Some(table::OTHER_STRING),
        b'E' => Some(table::ELEMENT_NAME),
        b'A' => Some(table::ATTRIBUTE_NAME),
        _ => None,
    }
}

// The word where the next entry starts; that of a line's first string or number.
pub fn word_of(entries: usize) -> usize {
    entries.saturating_mul(3).saturating_add(Counts::TABLES)
}

// After the H.
pub fn begin(line: Line) -> Step {
    if 0 < line.events {
        return Err(line.wrong(Fault::Late));
    }
    if LINES <= line.entries {
        return Err(line.wrong(Fault::Many));
    }
    Ok(line.at(Phase::Head))
}

// The space after the H, and the table's letter.
pub fn space(line: Line, b: u8) -> Step {
    if b != b' ' {
        return Err(line.wrong(Fault::Space));
    }
    Ok(line.at(Phase::Table))
}

pub fn letter(mut line: Line, b: u8) -> Step {
    let t = table_of(b).ok_or(line.wrong(Fault::Table))?;
    if t < line.table {
        return Err(line.wrong(Fault::Order));
    }
    line.table = t;
    line.heading = true;
    line.numbers = table::ELEMENT_NAME <= t;
    line.word = word_of(line.entries);
    line.left = if line.numbers { 3 } else { 1 };
    Ok(line.at(Phase::Gap))
}

// A number of a name, of one digit at least.
pub fn number(line: Line, b: u8) -> Step {
    match b {
        b'0'..=b'9' => Ok(line.at(Phase::Digits((b - b'0') as u32))),
        _ => Err(line.wrong(Fault::Number)),
    }
}

// One that passes 32 bits is beyond every table, as their highest number is.
pub fn digits(mut line: Line, n: u32, b: u8, room: &mut Room) -> Step {
    match b {
        b' ' | b'\n' => {
            room.put(line.word, n);
            line.word = line.word.saturating_add(1);
            line.gap(b, room)
        }
        b'0'..=b'9' => {
            let more = n.saturating_mul(10).saturating_add((b - b'0') as u32);
            Ok(line.at(Phase::Digits(more)))
        }
        _ => Err(line.wrong(Fault::Number)),
    }
}

// The line's end: an entry more, of its table.
pub fn end(mut line: Line, room: &mut Room) -> Line {
    if let Some(count) = room.words.get_mut(line.table) {
        *count = count.saturating_add(1);
    }
    line.entries = line.entries.saturating_add(1);
    line.heading = false;
    line.numbers = false;
    line
}
