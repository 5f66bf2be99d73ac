// One octet of a line after the other: each goes to the words of a record, or of what is given for the head, or to
// the text area.
use crate::area::{Room, Stretch, part, put_octet};
use crate::head_lines;
use events::{RECORD, strings, tags};
use itoa::Buffer;
use std::fmt;

// What is wrong with a line.
#[derive(Clone, Copy)]
pub enum Fault {
    Letter,
    Space,
    String,
    Digit,
    Fewer,
    More,
    Last,
    After,
    Cut,
    // Of head lines: no table's letter, tables out of their order, no number, too many lines, a line after an event
    // line.
    Table,
    Order,
    Number,
    Many,
    Late,
}

impl fmt::Display for Fault {
    fn fmt<W: fmt::Write>(&self, f: &mut fmt::Formatter<W>) -> fmt::Result {
        f.write_str(match self {
            Fault::Letter => "a line starts with H, N, S, A, T, C, P, E or end",
            Fault::Space => "one space stands before a string",
            Fault::String => "a string starts with - or =",
            Fault::Digit => "a string's octets are pairs of hex digits",
            Fault::Fewer => "the line ends before its last string",
            Fault::More => "the line goes on after its last string",
            Fault::Last => "the last line is end and the number of event lines",
            Fault::After => "no line follows end",
            Fault::Cut => "its line end is missing",
            Fault::Table => "a head line names its table by p, n, l, o, u, v, c, s, E or A",
            Fault::Order => "the tables of head lines come in the order p n l o u v c s E A",
            Fault::Number => "a listed name is three numbers",
            Fault::Many => "there are at most 32768 head lines",
            Fault::Late => "head lines come before event lines",
        })
    }
}

// The first line that is not in the format, by its number, and what is wrong with it.
#[derive(Clone, Copy)]
pub struct Wrong {
    number: u64,
    fault: Fault,
}

impl fmt::Display for Wrong {
    fn fmt<W: fmt::Write>(&self, f: &mut fmt::Formatter<W>) -> fmt::Result {
        write!(
            f,
            "line {} is not in the format: {}",
            self.number, self.fault
        )
    }
}

// What the next octet belongs to.
#[derive(Clone, Copy)]
pub enum Phase {
    Start,
    Gap,
    String,
    // A pair of digits, or what follows a string.
    Pair,
    // The second digit of a pair, with the value of the first.
    Half(u8),
    // A head line: the space after its H, its table's letter, a number's first digit, and its next with the value so
    // far.
    Head,
    Table,
    Number,
    Digits(u32),
    // The last line, with how many octets are there after its e.
    Last(usize),
    Over,
}

// The line at hand, and what the lines before it filled. Sums stop at the top, which no input reaches; so none needs a
// contract.
#[derive(Clone, Copy)]
pub struct Line {
    // From 1.
    pub number: u64,
    // Event lines before this one.
    pub events: u64,
    // Where this line's record starts, and where the words of its next string do.
    pub from: usize,
    pub word: usize,
    // Strings or numbers that the line still has to have, and whether it has numbers.
    pub left: usize,
    pub numbers: bool,
    // The line at hand is a head line; the table of the last one, and how many there were.
    pub heading: bool,
    pub table: usize,
    pub entries: usize,
    // Octets in the text area, and where those of the string at hand start.
    pub fill: usize,
    pub place: usize,
    pub hash: u32,
}

#[derive(Clone, Copy)]
pub struct State {
    pub line: Line,
    pub phase: Phase,
}

pub type Step = Result<State, Wrong>;

// The value of a hex digit.
fn digit(b: u8) -> Option<u8> {
    match b {
        b'0'..=b'9' => Some(b - b'0'),
        b'a'..=b'f' => Some(b - b'a' + 10),
        b'A'..=b'F' => Some(b - b'A' + 10),
        _ => None,
    }
}

// An octet of a line's part, or the line end after it.
fn octet_or_end(s: &[u8], i: usize) -> u8 {
    s.get(i).copied().unwrap_or(b'\n')
}

// What the last line has after its e: "nd", a space, and the number of events.
fn last_octet(events: u64, i: usize) -> u8 {
    if i < 3 {
        return octet_or_end(b"nd ", i);
    }
    let mut digits = Buffer::new();
    octet_or_end(digits.format(events).as_bytes(), i - 3)
}

impl Line {
    pub fn first() -> Line {
        Line {
            number: 1,
            events: 0,
            from: head_lines::WORDS,
            word: 0,
            left: 0,
            numbers: false,
            heading: false,
            table: 0,
            entries: 0,
            fill: 0,
            place: 0,
            hash: 0,
        }
    }

    pub fn at(self, phase: Phase) -> State {
        State { line: self, phase }
    }

    pub fn wrong(self, fault: Fault) -> Wrong {
        Wrong {
            number: self.number,
            fault,
        }
    }

    fn start(mut self, b: u8, room: &mut Room) -> Step {
        if b == b'e' {
            return Ok(self.at(Phase::Last(0)));
        }
        if b == b'H' {
            return head_lines::begin(self);
        }
        let kind = lines::kind_of(b).ok_or(self.wrong(Fault::Letter))?;
        room.put(self.from, kind.number());
        let has = lines::strings_of(kind);
        self.word = self.from.saturating_add(strings::PREFIX + 3 * has.start);
        self.left = has.len();
        Ok(self.at(Phase::Gap))
    }

    // The space before a string or a number, or the line end after the last.
    pub fn gap(mut self, b: u8, room: &mut Room) -> Step {
        if self.left == 0 {
            return self.end(b, room);
        }
        match b {
            b' ' => {
                self.left -= 1;
                Ok(self.at(if self.numbers {
                    Phase::Number
                } else {
                    Phase::String
                }))
            }
            b'\n' => Err(self.wrong(Fault::Fewer)),
            _ => Err(self.wrong(Fault::Space)),
        }
    }

    fn end(mut self, b: u8, room: &mut Room) -> Step {
        if b != b'\n' {
            return Err(self.wrong(Fault::More));
        }
        self.number = self.number.saturating_add(1);
        if self.heading {
            return Ok(head_lines::end(self, room).at(Phase::Start));
        }
        self.events = self.events.saturating_add(1);
        self.from = self.from.saturating_add(RECORD);
        Ok(self.at(Phase::Start))
    }

    fn string(mut self, b: u8) -> Step {
        match b {
            b'-' => {
                self.word = self.word.saturating_add(3);
                Ok(self.at(Phase::Gap))
            }
            b'=' => {
                self.place = self.fill;
                self.hash = 0;
                Ok(self.at(Phase::Pair))
            }
            _ => Err(self.wrong(Fault::String)),
        }
    }

    fn pair(self, b: u8, room: &mut Room) -> Step {
        if let Some(high) = digit(b) {
            return Ok(self.at(Phase::Half(high)));
        }
        match b {
            b' ' | b'\n' => self.kept(room).gap(b, room),
            _ => Err(self.wrong(Fault::Digit)),
        }
    }

    fn half(self, high: u8, b: u8, room: &mut Room) -> Step {
        let low = digit(b).ok_or(self.wrong(Fault::Digit))?;
        Ok(self.octet(high << 4 | low, room).at(Phase::Pair))
    }

    fn octet(mut self, b: u8, room: &mut Room) -> Line {
        self.fill = put_octet(room.text, self.fill, b);
        self.hash = self.hash.wrapping_mul(16777619).wrapping_add(b as u32);
        self
    }

    // The tag of a built-in string in its own place. The text area of a document's events has room for what the
    // document spells, and not for these.
    fn built_in(self, text: &[u8]) -> Option<u32> {
        let string = part(text, self.place, self.fill);
        if self.word == self.from.saturating_add(strings::PREFIX) && string == b"xml".as_slice() {
            return Some(tags::XML_PREFIX);
        }
        if self.word == self.from.saturating_add(strings::NAMESPACE)
            && string == b"http://www.w3.org/XML/1998/namespace".as_slice()
        {
            return Some(tags::XML_NAMESPACE);
        }
        None
    }

    // The string that has ended, into its three words.
    fn kept(mut self, room: &mut Room) -> Line {
        let word = self.word;
        let place = self.place;
        let built_in = self.built_in(room.text);
        self.word = word.saturating_add(3);
        if self.fill <= place {
            room.put(word, tags::EMPTY);
            return self;
        }
        if let Some(tag) = built_in {
            room.put(word, tag);
            self.fill = place;
            return self;
        }
        let mine = Stretch::new(place, self.fill - place);
        let one = room.first_same(self.hash, mine);
        if one != mine {
            self.fill = place;
        }
        room.put(word, tags::STRETCH);
        room.put(word.saturating_add(1), one.place);
        room.put(word.saturating_add(2), one.size);
        self
    }

    fn last(mut self, i: usize, b: u8) -> Step {
        if b != last_octet(self.events, i) {
            return Err(self.wrong(Fault::Last));
        }
        if b == b'\n' {
            self.number = self.number.saturating_add(1);
            return Ok(self.at(Phase::Over));
        }
        Ok(self.at(Phase::Last(i.saturating_add(1))))
    }
}

impl State {
    pub fn step(self, b: u8, room: &mut Room) -> Step {
        let line = self.line;
        match self.phase {
            Phase::Start => line.start(b, room),
            Phase::Gap => line.gap(b, room),
            Phase::String => line.string(b),
            Phase::Pair => line.pair(b, room),
            Phase::Half(high) => line.half(high, b, room),
            Phase::Head => head_lines::space(line, b),
            Phase::Table => head_lines::letter(line, b),
            Phase::Number => head_lines::number(line, b),
            Phase::Digits(n) => head_lines::digits(line, n, b, room),
            Phase::Last(i) => line.last(i, b),
            Phase::Over => Err(line.wrong(Fault::After)),
        }
    }

    // A document ends with a line end, or with the last line.
    pub fn finished(self) -> Result<Line, Wrong> {
        match self.phase {
            Phase::Start | Phase::Over => Ok(self.line),
            _ => Err(self.line.wrong(Fault::Cut)),
        }
    }
}
