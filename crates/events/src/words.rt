// Event records from words and into words, for callers that have no enums.
ghost use Rattle.std.specs.Prelude.{◌≡◌, true, false, ◌&&◌, ◌+◌, ◌*◌, ◌/◌, ◌≤◌, ◌<◌, Some, None, is_some, length, drop, ltb, leb};
ghost use Rattle.format.specs.Numbers.{pick};
ghost use Rattle.std.proofs.lemmas.List.Edits.{sets};
ghost use Rattle.events.specs.Words.{kind_number, string_words};
ghost use Rattle.events.specs.Kept.{kept};
ghost use Rattle.events.specs.FromWords.{kind_of, told_by, told_at, record_at, records_of, begins_with, Misnamed};

use crate::{Event, EventString, Kind, PLACE, RECORD, kinds, strings, tags};
use format::StringForm;

// The kind that has this number, from 1 to 7. 0 is that of Blank, and a record of it stands for no event.
#[tactic(auto, unfolding(crate::specs::FromWords::kind_of))]
fn kind_of(number: u32) -> Option<Kind>
    ensures { result ≡ pick (leb 1 number && leb number 7) (Some (kind_of number)) None }
{
    match number {
        kinds::NAMESPACE => Some(Kind::Namespace),
        kinds::START => Some(Kind::Start),
        kinds::ATTRIBUTE => Some(Kind::Attribute),
        kinds::CHUNK => Some(Kind::Chunk),
        kinds::COMMENT => Some(Kind::Comment),
        kinds::INSTRUCTION => Some(Kind::Instruction),
        kinds::END => Some(Kind::End),
        _ => None,
    }
}

// Three words are well formed: they say a string. Beside the tag of a stretch any place and length may stand, beside
// another tag that says a string both are 0.
#[tactic(auto, unfolding(crate::specs::FromWords::told_by, crate::specs::FromWords::told_by_tag))]
fn is_told(tag: u32, place: u32, size: u32) -> bool
    ensures { result ≡ is_some (told_by tag place size) }
{
    match tag {
        tags::STRETCH | tags::UTF16..=tags::LONG => true,
        tags::ABSENT..=tags::XML_NAMESPACE => place == 0 && size == 0,
        _ => false,
    }
}

fn is_told_at(w: &[u32], at: usize) -> bool
    requires { at + 3 ≤ length w.now }
    ensures { result ≡ is_some (told_at w.now at) }
{
    is_told(w[at], w[at + 1], w[at + 2])
}

// What three words say that are well formed. Whether they are is tested apart: an Option for each string costs the
// writer up to a quarter more than a test and a string.
#[tactic(auto, unfolding(crate::specs::FromWords::told_by, crate::specs::FromWords::told_by_tag))]
fn string_by(tag: u32, place: u32, size: u32) -> EventString
    requires { is_some (told_by tag place size) ≡ true }
    ensures { told_by tag place size ≡ Some result }
{
    match tag {
        tags::ABSENT => EventString::Absent,
        tags::EMPTY => EventString::Empty,
        tags::STRETCH => EventString::Stretch(StringForm::Utf8, place, size),
        tags::XML_PREFIX => EventString::XmlPrefix,
        tags::XML_NAMESPACE => EventString::XmlNamespace,
        _ => EventString::Stretch(StringForm::of(tag - tags::BEFORE_FORMS), place, size),
    }
}

fn string_at(w: &[u32], at: usize) -> EventString
    requires { (at + 3 ≤ length w.now) × (is_some (told_at w.now at) ≡ true) }
    ensures { told_at w.now at ≡ Some result }
{
    string_by(w[at], w[at + 1], w[at + 2])
}

// Record n of the words, blank where it is not well formed.
#[tactic(auto, unfolding(crate::specs::FromWords::record_at))]
pub fn from_words(w: &[u32], n: usize) -> Event
    requires { 14 * n + 14 ≤ length w.now }
    ensures { result ≡ record_at w.now (14 * n) }
{
    let at = RECORD * n;
    let Some(kind) = kind_of(w[at]) else {
        return crate::blank();
    };
    if !(is_told_at(w, at + strings::PREFIX)
        && is_told_at(w, at + strings::NAMESPACE)
        && is_told_at(w, at + strings::NAME)
        && is_told_at(w, at + strings::VALUE))
    {
        return crate::blank();
    }
    Event {
        kind,
        prefix: string_at(w, at + strings::PREFIX),
        namespace: string_at(w, at + strings::NAMESPACE),
        name: string_at(w, at + strings::NAME),
        value: string_at(w, at + strings::VALUE),
        place: w[at + PLACE],
    }
}

// None of the three strings of a name is in another form than utf-8, by their tags. A record where one is stands for no
// event; one that is told apart here needs no form for them.
pub fn names_in_utf8(w: &[u32], n: usize) -> bool
    requires { 14 * n + 14 ≤ length w.now }
    ensures { result ≡ false → Misnamed (record_at w.now (14 * n)) }
{
    let at = RECORD * n;
    w[at + strings::PREFIX] < tags::UTF16
        && (w[at + strings::NAMESPACE] < tags::UTF16 && w[at + strings::NAME] < tags::UTF16)
}

// There is a record n in the words.
pub fn has_record(w: &[u32], n: usize) -> bool
    ensures { result ≡ ltb n (length w.now / 14) }
{
    n < w.len() / RECORD
}

// The three words of a string.
fn put_string(w: &mut [u32], at: usize, x: EventString)
    requires { at + 3 ≤ length w.old }
    ensures { w.new ≡ sets w.old at (string_words x) }
{
    w[at] = x.tag();
    w[at + 1] = x.place();
    w[at + 2] = x.size();
}

// An event that was read at a place, in record n of the words, where they have one.
#[tactic(auto, unfolding(crate::specs::Kept::kept))]
pub fn keep(w: &mut [u32], n: usize, place: usize, e: Event)
    requires { place < 0x1_0000_0000 }
    ensures { w.new ≡ kept w.old n place e }
{
    if !has_record(w, n) {
        return;
    }
    let at = RECORD * n;
    w[at] = e.kind.number();
    put_string(w, at + strings::PREFIX, e.prefix);
    put_string(w, at + strings::NAMESPACE, e.namespace);
    put_string(w, at + strings::NAME, e.name);
    put_string(w, at + strings::VALUE, e.value);
    w[at + PLACE] = place as u32;
}

// There is a record n in the words, and it is well formed and of this kind, which is not Blank: what a look ahead asks,
// so no record is made.
#[tactic(auto, using(crate::proofs::KindLaws::none_begins, crate::proofs::KindLaws::same_begins))]
pub fn is_kind(w: &[u32], n: usize, kind: Kind) -> bool
    requires { 1 ≤ kind_number kind }
    ensures { result ≡ begins_with (kind_number kind) (drop n (records_of w.now)) }
{
    if !has_record(w, n) {
        return false;
    }
    let at = RECORD * n;
    if w[at] != kind.number() {
        return false;
    }
    is_told_at(w, at + strings::PREFIX)
        && (is_told_at(w, at + strings::NAMESPACE)
            && (is_told_at(w, at + strings::NAME) && is_told_at(w, at + strings::VALUE)))
}
