// What the programs `listing` and `writing` share: which letter and which strings an event's line has, what a call's
// answer says, and reading until there is no room. Decides nothing about documents.
// May depend on events.
#![tactic(auto)]

ghost use Rattle.std.specs.Prelude.{◌≡◌, ◌≤◌, length, IfOk, IfSome, IsNone};
ghost use Rattle.lines.specs.Lines.{letter_of, first_of, end_of, Says};

use events::Kind;
use std::fmt;
use std::io::{self, Read};
use std::ops::Range;

// The letter that an event's line starts with.
pub fn letter(kind: Kind) -> char
    ensures { result ≡ letter_of kind }
{
    match kind {
        Kind::Namespace => 'N',
        Kind::Start => 'S',
        Kind::Attribute => 'A',
        Kind::Chunk => 'T',
        Kind::Comment => 'C',
        Kind::Instruction => 'P',
        Kind::Blank | Kind::End => 'E',
    }
}

// The kind that a line's first octet says, and none for one that no event has.
pub fn kind_of(letter: u8) -> Option<Kind>
    ensures found { IfSome result (λ kind. letter_of kind ≡ letter) }
    ensures none { IsNone result → (kind : Kind) → letter_of kind ≡ letter → ⊥ }
{
    match letter {
        b'N' => Some(Kind::Namespace),
        b'S' => Some(Kind::Start),
        b'A' => Some(Kind::Attribute),
        b'T' => Some(Kind::Chunk),
        b'C' => Some(Kind::Comment),
        b'P' => Some(Kind::Instruction),
        b'E' => Some(Kind::End),
        _ => None,
    }
}

// Which of a record's strings the line of a kind has: of prefix, namespace, name and value, by number.
pub fn strings_of(kind: Kind) -> Range<usize>
    ensures strings { (result.start ≡ first_of kind) × (result.end ≡ end_of kind) }
    ensures ordered { result.start ≤ result.end }
    ensures bound { result.end ≤ 4 }
{
    match kind {
        Kind::Namespace => 0..2,
        Kind::Start => 0..3,
        Kind::Attribute => 0..4,
        Kind::Instruction => 2..4,
        Kind::Chunk | Kind::Comment => 3..4,
        Kind::Blank | Kind::End => 4..4,
    }
}

// A refusal by its number, and the place that it names.
#[derive(Clone, Copy)]
pub struct Refused {
    number: u64,
    place: u64,
}

impl fmt::Display for Refused {
    fn fmt<W: fmt::Write>(&self, f: &mut fmt::Formatter<W>) -> fmt::Result {
        write!(f, "refused {} at {}", self.number, self.place)
    }
}

// A call's answer has the refusal in its low 32 bits, or 0 there and above them a number of events or octets.
pub fn outcome(answer: u64) -> Result<usize, Refused>
    ensures { Says answer result }
{
    let refusal = answer % 0x1_0000_0000;
    if refusal != 0 {
        return Err(Refused {
            number: refusal % 32,
            place: refusal / 32,
        });
    }
    Ok((answer / 0x1_0000_0000) as usize)
}

// Reads until the slice is full or the input ends, and answers how many octets came.
pub fn read_full<R: Read>(from: &mut R, s: &mut [u8]) -> io::Result<usize>
    ensures { IfOk result (λ n. n ≤ length s.new) }
{
    let mut done = 0;
    while done < s.len() {
        let n = from.read(&mut s[done..])?;
        if n == 0 {
            break;
        }
        done += n;
    }
    Ok(done)
}
