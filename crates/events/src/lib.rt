// Event records as callers lend them.
// May depend on format and tables (for specs/ and proofs/).
#![tactic(auto)]

pub mod kinds;
pub mod strings;
pub mod tags;
mod words;

ghost use Rattle.std.specs.Prelude.{◌≡◌, ◌&&◌, ◌<◌, ◌+◌, ◌-◌, ◌++◌, eqb, ltb, leb, length, set, get_or, take, replicate};
ghost use Rattle.events.specs.Records.{blank, namespace_record, start_record, attribute_record, chunk_record, comment_record, instruction_record, end_record};
ghost use Rattle.events.specs.Words.{kind_number, string_tag, string_form, string_place, string_size};

use format::StringForm;
pub use words::{from_words, has_record, is_kind, keep, names_in_utf8};

// Words of a record: one for the kind, three for each of the four strings, and one for the place.
pub const RECORD: usize = 14;

// The word of a record that has its place.
pub const PLACE: usize = 13;

// A string of an event: none; the empty one; octets of the document or text area by form, place and length; one of the
// two built-in strings.
#[derive(Clone, Copy)]
pub enum EventString {
    Absent,
    Empty,
    Stretch(StringForm, u32, u32),
    XmlPrefix,
    XmlNamespace,
}

#[derive(Clone, Copy, PartialEq, Eq)]
pub enum Kind {
    Blank,
    Namespace,
    Start,
    Attribute,
    Chunk,
    Comment,
    Instruction,
    End,
}

// `name` is a local name or a target; `value` a value, chunk, comment or content. What a kind does not have is absent.
// `place` is the octet of the document at which the event was read, and 0 in a record that was not read; it says nothing
// to a writer.
#[derive(Clone, Copy)]
pub struct Event {
    pub kind: Kind,
    pub prefix: EventString,
    pub namespace: EventString,
    pub name: EventString,
    pub value: EventString,
    pub place: u32,
}

// The word that stands for a kind where a record is words, and the three that stand for a string.
impl Kind {
    pub fn number(self) -> u32
        ensures { result ≡ kind_number self }
    {
        self as u32
    }
}

impl EventString {
    // Which of the five the string is, and a stretch's form. The form is asked first, so that the rest is the variant's
    // own number and costs nothing.
    pub fn tag(self) -> u32
        ensures { result ≡ string_tag self }
    {
        let form = self.form();
        let other = form.number();
        if other != 0 {
            return other + tags::BEFORE_FORMS;
        }
        match self {
            EventString::Absent => tags::ABSENT,
            EventString::Empty => tags::EMPTY,
            EventString::Stretch(_, _, _) => tags::STRETCH,
            EventString::XmlPrefix => tags::XML_PREFIX,
            EventString::XmlNamespace => tags::XML_NAMESPACE,
        }
    }

    // There is no string: told by the variant alone, where the tag asks the form too.
    pub fn is_absent(self) -> bool
        ensures { result ≡ eqb (string_tag self) 0 }
    {
        matches!(self, EventString::Absent)
    }

    // utf-8 unless the string is a stretch.
    pub fn form(self) -> StringForm
        ensures { result ≡ string_form self }
    {
        match self {
            EventString::Stretch(form, _, _) => form,
            _ => StringForm::Utf8,
        }
    }

    // 0 unless the string is a stretch.
    pub fn place(self) -> u32
        ensures { result ≡ string_place self }
    {
        match self {
            EventString::Stretch(_, place, _) => place,
            _ => 0,
        }
    }

    // 0 unless the string is a stretch.
    pub fn size(self) -> u32
        ensures { result ≡ string_size self }
    {
        match self {
            EventString::Stretch(_, _, size) => size,
            _ => 0,
        }
    }
}

// A stretch is not empty and lies in the octets. Place and size are the caller's and may be any numbers.
pub fn lies_in(text: &[u8], place: u32, size: u32) -> bool
    ensures { result ≡ (ltb 0 size && leb (place + size) (length text.now)) }
{
    0 < size && place as usize + size as usize <= text.len()
}

// No kind, no strings and no place.
const BLANK: Event = Event {
    kind: Kind::Blank,
    prefix: EventString::Absent,
    namespace: EventString::Absent,
    name: EventString::Absent,
    value: EventString::Absent,
    place: 0,
};

// The records, from their strings: `keep` gives them their place.
pub fn blank() -> Event
    ensures { result ≡ blank }
{
    BLANK
}

pub fn namespace(prefix: EventString, namespace: EventString) -> Event
    ensures { result ≡ namespace_record prefix namespace }
{
    Event {
        kind: Kind::Namespace,
        prefix,
        namespace,
        ..BLANK
    }
}

pub fn start(prefix: EventString, namespace: EventString, name: EventString) -> Event
    ensures { result ≡ start_record prefix namespace name }
{
    Event {
        kind: Kind::Start,
        prefix,
        namespace,
        name,
        ..BLANK
    }
}

pub fn attribute(
    prefix: EventString,
    namespace: EventString,
    name: EventString,
    value: EventString,
) -> Event
    ensures { result ≡ attribute_record prefix namespace name value }
{
    Event {
        kind: Kind::Attribute,
        prefix,
        namespace,
        name,
        value,
        ..BLANK
    }
}

pub fn chunk(value: EventString) -> Event
    ensures { result ≡ chunk_record value }
{
    Event {
        kind: Kind::Chunk,
        value,
        ..BLANK
    }
}

pub fn comment(value: EventString) -> Event
    ensures { result ≡ comment_record value }
{
    Event {
        kind: Kind::Comment,
        value,
        ..BLANK
    }
}

pub fn instruction(name: EventString, value: EventString) -> Event
    ensures { result ≡ instruction_record name value }
{
    Event {
        kind: Kind::Instruction,
        name,
        value,
        ..BLANK
    }
}

pub fn end() -> Event
    ensures { result ≡ end_record }
{
    Event {
        kind: Kind::End,
        ..BLANK
    }
}

// Record i of a row.
pub fn load(events: &[Event], i: usize) -> Event
    requires { i < length events.now }
    ensures { result ≡ get_or events.now i blank }
{
    events[i]
}

// The record is stored where the row has a place for it.
pub fn store(events: &mut [Event], i: usize, e: Event)
    ensures { events.new ≡ set events.old i e }
{
    if i < events.len() {
        events[i] = e;
    }
}

// Every record from number `from` on is made blank.
pub fn blank_from(events: &mut [Event], from: usize)
    ensures { events.new ≡ take from events.old ++ replicate (length events.old - from) blank }
{
    if from < events.len() {
        events[from..].fill(blank());
    }
}
