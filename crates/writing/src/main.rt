// Writes the document of the event lines in standard input, which are as the program `listing` prints them, with a
// last line "end n" or without, and with head lines before them or without; or the writer's refusal, or which line is
// not so. A program: it puts lines into words and strings into a text area, and decides nothing about documents.
#![tactic(auto)]

mod answers;
mod area;
mod event_lines;
mod head_lines;

use crate::area::Room;
use crate::event_lines::{Line, Phase, State, Step};
use events::RECORD;
use std::io::{self, Read};

// The octets of a block of input.
const BLOCK: usize = 65536;

fn steps(from: State, s: &[u8], room: &mut Room) -> Step {
    let mut st = from;
    for b in s {
        st = st.step(*b, room)?;
    }
    Ok(st)
}

// Reads to the end of the input, of which nothing counts after a line that is not in the format: a block that is not
// full is the last. A proved loop has to end and nothing says that the input does, so the turns are counted, to a
// number that no run uses up.
fn lines_of<R: Read>(from: &mut R, room: &mut Room) -> io::Result<Step> {
    let mut block = [0u8; BLOCK];
    let mut step = Ok(Line::first().at(Phase::Start));
    for _ in 0..u64::MAX {
        let n = lines::read_full(from, &mut block)?;
        if let Ok(st) = step {
            step = steps(st, &block[..n], room);
        }
        if n < BLOCK {
            break;
        }
    }
    Ok(step)
}

fn main(rt: HostRuntime) -> io::Result<()> {
    // What is given for the head, and 21,839 records. A start and its end take three halves of an octet and any other
    // event two, so that 21,838 events are the most that fit a document: the writer refuses each longer list at a
    // record that is here, and lists of any length are answered right.
    let mut room = Room {
        text: &mut [0u8; 2 * answers::LENT],
        known: &mut [None; 16381],
        words: &mut [0u32; head_lines::WORDS + 21839 * RECORD],
    };
    let step = lines_of(&mut rt.reader(), &mut room)?;
    match step.and_then(|st| st.finished()) {
        Ok(line) => answers::put_document(&rt, line, &room),
        Err(wrong) => println!(rt; "{wrong}"),
    }
}
