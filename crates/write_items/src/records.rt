// Which event records the writer takes: what is wrong with one is found before anything is written.
ghost use Rattle.std.specs.Prelude.{◌≡◌, ◌+◌, ◌&&◌, ◌||◌, length, ltb, leb};
ghost use Rattle.fields.specs.Utf8.{is_text};
ghost use Rattle.format.specs.Tables.{Vocabulary, link};
ghost use Rattle.format.specs.Items.{may_start};
ghost use Rattle.tables.specs.Located.{Located, octets_of};
ghost use Rattle.events.specs.declared.Event.{Event};
ghost use Rattle.write_items.specs.Events.{is_absent, is_stretch, is_string, is_prefix, is_namespace, is_value, is_name, no_name, well_made, located_of, name_of, event_of, among_children, is_declaring, is_listing, goes_on, name_text, all_text};
ghost use Rattle.write_items.specs.Steps.{opens};
ghost use Rattle.states.specs.States.{mode_of, state_of};
ghost use Rattle.write_items.specs.Promises.{Lies, LiesPlain, Placed, fault_of};

use events::{Event, EventString, Kind, lies_in};
use fields::is_text;
use format::StringForm;
use format::refusals::Refusal;
use states::State;

fn is_absent(x: EventString) -> bool
    ensures { result ≡ is_absent x }
{
    matches!(x, EventString::Absent)
}

// A string in the text area and in utf-8.
fn is_stretch(text: &[u8], x: EventString) -> bool
    ensures { result ≡ is_stretch text.now x }
{
    match x {
        EventString::Stretch(StringForm::Utf8, place, size) => lies_in(text, place, size),
        _ => false,
    }
}

fn is_prefix(text: &[u8], x: EventString) -> bool
    ensures { result ≡ is_prefix text.now x }
{
    match x {
        EventString::Absent | EventString::XmlPrefix => true,
        _ => is_stretch(text, x),
    }
}

fn is_namespace(text: &[u8], x: EventString) -> bool
    ensures { result ≡ is_namespace text.now x }
{
    match x {
        EventString::Absent | EventString::XmlNamespace => true,
        _ => is_stretch(text, x),
    }
}

// A string in the text area, in any form.
fn is_string(text: &[u8], x: EventString) -> bool
    ensures { result ≡ is_string text.now x }
{
    match x {
        EventString::Stretch(_, place, size) => lies_in(text, place, size),
        _ => false,
    }
}

fn is_value(text: &[u8], x: EventString) -> bool
    ensures { result ≡ is_value text.now x }
{
    match x {
        EventString::Empty => true,
        _ => is_string(text, x),
    }
}

// A name's strings: a prefix only with a namespace.
#[tactic(auto, unfolding(crate::specs::Events::is_name))]
fn is_name(text: &[u8], e: Event) -> bool
    ensures { result ≡ is_name text.now e }
{
    is_prefix(text, e.prefix)
        && is_namespace(text, e.namespace)
        && is_stretch(text, e.name)
        && (is_absent(e.prefix) || !is_absent(e.namespace))
}

#[tactic(auto, unfolding(crate::specs::Events::no_name))]
fn no_name(e: Event) -> bool
    ensures { result ≡ no_name e }
{
    is_absent(e.prefix) && is_absent(e.namespace)
}

// The strings of a record are as its kind has them.
#[tactic(auto, unfolding(crate::specs::Events::well_made))]
fn well_made(text: &[u8], e: Event) -> bool
    ensures { result ≡ well_made text.now e.kind e }
{
    match e.kind {
        Kind::Blank => false,
        Kind::Namespace => {
            is_prefix(text, e.prefix)
                && is_namespace(text, e.namespace)
                && is_absent(e.name)
                && is_absent(e.value)
        }
        Kind::Start => is_name(text, e) && is_absent(e.value),
        Kind::Attribute => is_name(text, e) && is_value(text, e.value),
        Kind::Chunk => no_name(e) && is_absent(e.name) && is_string(text, e.value),
        Kind::Comment => no_name(e) && is_absent(e.name) && is_value(text, e.value),
        Kind::Instruction => no_name(e) && is_stretch(text, e.name) && is_value(text, e.value),
        Kind::End => no_name(e) && is_absent(e.name) && is_absent(e.value),
    }
}

// The identifying string is text; only a stretch has to be looked at, and it is in utf-8.
fn is_text_string(text: &[u8], x: EventString) -> bool
    requires { LiesPlain text.now x }
    ensures { result ≡ is_text (octets_of text.now (located_of x)) }
{
    match x {
        EventString::Stretch(_, place, size) => {
            let from = place as usize;
            is_text(text, from, from + size as usize)
        }
        _ => true,
    }
}

// The same of a string in any form.
fn is_text_value(text: &[u8], x: EventString) -> bool
    requires { Lies text.now x }
    ensures { result ≡ is_text (octets_of text.now (located_of x)) }
{
    match x {
        EventString::Stretch(form, place, size) => {
            let from = place as usize;
            if form.number() == 0 {
                return is_text(text, from, from + size as usize);
            }
            forms::is_text(text, form, from, from + size as usize)
        }
        _ => true,
    }
}

#[tactic(auto, using(crate::proofs::RecordLaws::name_text_lem))]
fn name_text(text: &[u8], e: Event) -> bool
    requires { Placed text.now e }
    ensures { result ≡ name_text text.now (name_of e) }
{
    is_text_string(text, e.prefix)
        && is_text_string(text, e.namespace)
        && is_text_string(text, e.name)
}

// Every string of the record is text.
#[tactic(auto, using(crate::proofs::RecordLaws::declaration_text), unfolding(crate::specs::Events::event_of, crate::specs::Events::all_text))]
fn all_text(text: &[u8], e: Event) -> bool
    requires { Placed text.now e }
    ensures { result ≡ all_text text.now (event_of e.kind e) }
{
    match e.kind {
        Kind::Blank | Kind::End => true,
        Kind::Namespace => is_text_string(text, e.prefix) && is_text_string(text, e.namespace),
        Kind::Start => name_text(text, e),
        Kind::Attribute => name_text(text, e) && is_text_value(text, e.value),
        Kind::Chunk | Kind::Comment => is_text_value(text, e.value),
        Kind::Instruction => is_text_string(text, e.name) && is_text_value(text, e.value),
    }
}

// A child may stand here, also after a list of attributes that has a member.
fn among_children(mode: usize) -> bool
    ensures { result ≡ among_children (mode_of mode) }
{
    mode == State::CONTENT || mode == State::LISTED
}

fn is_declaring(mode: usize) -> bool
    ensures { result ≡ is_declaring (mode_of mode) }
{
    State::DECLARING <= mode
}

pub fn is_listing(mode: usize) -> bool
    ensures { result ≡ is_listing (mode_of mode) }
{
    mode == State::LISTING || mode == State::LISTED
}

// The record is the first of an element.
#[tactic(auto, unfolding(crate::specs::Events::event_of))]
fn opens(mode: usize, kind: Kind) -> bool
    ensures { (e : Event) → result ≡ opens (mode_of mode) (event_of kind e) }
{
    matches!(kind, Kind::Namespace | Kind::Start) && !is_declaring(mode)
}

// An element may start here, or one that started goes on.
fn takes_element(st: State) -> bool
    ensures { (v : Vocabulary Located) → result ≡ (is_declaring (mode_of st.mode) || (among_children (mode_of st.mode) && may_start (state_of st v))) }
{
    is_declaring(st.mode) || (among_children(st.mode) && st.may_start())
}

// Among the children of an element, where a chunk or the element's end may stand.
fn in_element(st: State) -> bool
    ensures { result ≡ (among_children (mode_of st.mode) && ltb 0 st.level) }
{
    among_children(st.mode) && 0 < st.level
}

// A document goes on with a record of this kind. What is said of a blank one does not matter: none is well made.
#[tactic(auto, unfolding(crate::specs::Events::event_of, crate::specs::Events::goes_on))]
fn goes_on(st: State, kind: Kind) -> bool
    ensures { (v : Vocabulary Located) (e : Event) → result ≡ goes_on (state_of st v) (event_of kind e) }
{
    match kind {
        Kind::Namespace | Kind::Start => takes_element(st),
        Kind::Attribute => is_listing(st.mode),
        Kind::Comment | Kind::Instruction => among_children(st.mode),
        Kind::Blank | Kind::Chunk | Kind::End => in_element(st),
    }
}

// A record of this kind opens an element, and no more may be open.
#[tactic(auto, unfolding(format::specs::Tables::link))]
fn too_deep(st: State, kind: Kind) -> bool
    ensures { (e : Event) → result ≡ (opens (mode_of st.mode) (event_of kind e) && leb link.depth st.level) }
{
    opens(st.mode, kind) && State::LEVELS <= st.level
}

// What is wrong with a record before anything is written.
#[tactic(auto, unfolding(crate::specs::Promises::fault_of))]
pub fn judge(st: State, text: &[u8], e: Event) -> Result<(), Refusal>
    ensures { (v : Vocabulary Located) → result ≡ fault_of text.now (state_of st v) e }
{
    if !well_made(text, e) || !goes_on(st, e.kind) {
        return Err(Refusal::Event);
    }
    if !all_text(text, e) {
        return Err(Refusal::Text);
    }
    if too_deep(st, e.kind) {
        return Err(Refusal::Depth);
    }
    Ok(())
}
