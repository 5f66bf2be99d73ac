// One event as octets: judged, written after the end that an attribute list owes, and held against the room.
ghost use Rattle.std.specs.Prelude.{◌≡◌, Bool, ◌+◌, ◌*◌, ◌/◌, ◌<◌, ◌≤◌, length};
ghost use Rattle.format.specs.Octets.{Octets, Words};
ghost use Rattle.format.specs.Events as E;
ghost use Rattle.format.specs.Strings.{bit};
ghost use Rattle.format.specs.Document.{aligned};
ghost use Rattle.fields.specs.PutContracts.{Puts};
ghost use Rattle.states.specs.States.{farthest, mode_of};
ghost use Rattle.events.specs.declared.Event.{Event};
ghost use Rattle.events.specs.declared.Kind.TheVariants.{Namespace, Start, Attribute, Chunk, Comment, Instruction, End};
ghost use Rattle.write_names.specs.Promises.{InOrder};
ghost use Rattle.write_items.specs.Events.{event_of};
ghost use Rattle.write_items.specs.Items.{before_declaration, before_name, name_lead};
ghost use Rattle.write_items.specs.StepContracts.{Ready, Steps};
ghost use Rattle.write_items.specs.ItemContracts.{owes, list_ended, end_put, qualified_of, Fit, Lands, holding};

use crate::output::put_end;
use crate::records::{is_listing, judge};
use events::{Event, Kind};
use fields::put::put;
use format::refusals::Refusal;
use format::table::{ATTRIBUTE_NAME, ATTRIBUTE_VALUE, ELEMENT_NAME, OTHER_NCNAME, OTHER_STRING};
use states::State;
use write_names::QualifiedName;

// The bit of an element's first octet that announces attributes.
pub fn attribute_bit(a: bool) -> u8
    ensures { (result ≡ 64 * bit a) × (result ≤ 64) }
{
    if a { 0x40 } else { 0 }
}

// The octet in front of an element's first declaration.
fn before_declaration(out: &mut [u8], at: usize, mode: usize, a: bool) -> usize
    requires { at ≤ farthest }
    ensures { Puts out.old at result out.new (before_declaration (mode_of mode) a) × (result ≤ at + 1) }
{
    if mode != State::CONTENT {
        return at;
    }
    put(out, at, attribute_bit(a) + 0x38);
    at + 1
}

// The octet after an element's last declaration.
fn before_name(out: &mut [u8], at: usize, mode: usize) -> usize
    requires { at ≤ farthest }
    ensures { Puts out.old at result out.new (before_name (mode_of mode)) × (result ≤ at + 1) }
{
    if mode < State::DECLARING {
        return at;
    }
    put(out, at, 0xF0);
    at + 1
}

// The bits before an element's name.
fn name_lead(mode: usize, a: bool) -> u8
    ensures { (result ≡ name_lead (mode_of mode) a) × (result ≤ 64) }
{
    if mode == State::CONTENT {
        attribute_bit(a)
    } else {
        0
    }
}

// The name of an event, in a table and after the bits `lead`.
fn name_of(e: Event, table: usize, lead: u8) -> QualifiedName
    ensures { result ≡ qualified_of table lead e }
{
    QualifiedName {
        table,
        lead,
        prefix: e.prefix,
        namespace: e.namespace,
        local: e.name,
    }
}

// The octet that an item starts with, from the half `at`.
fn octet(at: usize) -> usize
    requires { at ≤ 32769 }
    ensures { (result ≡ aligned at / 2) × (result ≤ 16385) }
{
    (at + 1) / 2
}

// The end of an attribute list, before a record that is no member of it.
fn settle(st: State, out: &mut [u8], e: Event) -> State
    requires { st.at ≤ 32768 }
    ensures { (result ≡ list_ended (owes st e) st) × (out.new ≡ end_put (owes st e) out.old st.at) }
{
    if !is_listing(st.mode) {
        return st;
    }
    match e.kind {
        Kind::Attribute => st,
        _ => {
            put_end(out, st.at);
            st.behind_end(st.level)
        }
    }
}

// The place is after what fits the room and the limit of a document.
fn held(st: State, room: usize) -> Result<State, Refusal>
    requires { st.at ≤ 2 * farthest }
    ensures { (text : Octets) → result ≡ holding text room st }
{
    if room.min(fields::OCTETS) < (st.at + 1) / 2 {
        return Err(Refusal::Room);
    }
    Ok(st)
}

// An element's end.
fn close(st: State, out: &mut [u8]) -> Result<State, Refusal>
    requires { (st.at ≤ 32769) × (0 < st.level) × (st.level ≤ 32) }
    ensures { (text : Octets) (a : Bool) (c w : Words) (index : Octets) → InOrder text c w index → Lands text a st c out.old w E.End result out.new c w index }
{
    put_end(out, st.at);
    Ok(st.behind_end(st.level - 1))
}

fn chunk(
    st: State,
    text: &[u8],
    t: &mut [u32],
    counts: &mut [u32],
    index: &mut [u8],
    out: &mut [u8],
    e: Event,
    a: bool,
) -> Result<State, Refusal>
    requires { Fit text.now st counts.old t.old index.old Chunk e }
    ensures { Lands text.now a st counts.old out.old t.old (event_of Chunk e) result out.new counts.new t.new index.new }
{
    let next = write_names::chunk(text, t, counts, index, out, octet(st.at), e.value);
    Ok(st.moved(next, st.mode))
}

fn comment(
    st: State,
    text: &[u8],
    t: &mut [u32],
    counts: &mut [u32],
    index: &mut [u8],
    out: &mut [u8],
    e: Event,
    a: bool,
) -> Result<State, Refusal>
    requires { Fit text.now st counts.old t.old index.old Comment e }
    ensures { Lands text.now a st counts.old out.old t.old (event_of Comment e) result out.new counts.new t.new index.new }
{
    let at = octet(st.at);
    put(out, at, 0xE2);
    let next = write_names::value(text, t, counts, index, out, at + 1, OTHER_STRING, e.value);
    Ok(st.moved(next, st.mode))
}

fn instruction(
    st: State,
    text: &[u8],
    t: &mut [u32],
    counts: &mut [u32],
    index: &mut [u8],
    out: &mut [u8],
    e: Event,
    a: bool,
) -> Result<State, Refusal>
    requires { Fit text.now st counts.old t.old index.old Instruction e }
    ensures { Lands text.now a st counts.old out.old t.old (event_of Instruction e) result out.new counts.new t.new index.new }
{
    let at = octet(st.at);
    put(out, at, 0xE1);
    let after = write_names::identified(text, t, counts, index, out, at + 1, OTHER_NCNAME, e.name)?;
    let next = write_names::value(text, t, counts, index, out, after, OTHER_STRING, e.value);
    Ok(st.moved(next, st.mode))
}

// A namespace declaration.
fn declare(
    st: State,
    text: &[u8],
    t: &mut [u32],
    counts: &mut [u32],
    index: &mut [u8],
    out: &mut [u8],
    e: Event,
    a: bool,
) -> Result<State, Refusal>
    requires { Fit text.now st counts.old t.old index.old Namespace e }
    ensures { Lands text.now a st counts.old out.old t.old (event_of Namespace e) result out.new counts.new t.new index.new }
{
    let at = before_declaration(out, octet(st.at), st.mode, a);
    let next = write_names::declared(text, t, counts, index, out, at, e.prefix, e.namespace)?;
    Ok(st.moved(next, states::declaring(a)))
}

fn start(
    st: State,
    text: &[u8],
    t: &mut [u32],
    counts: &mut [u32],
    index: &mut [u8],
    out: &mut [u8],
    e: Event,
    a: bool,
) -> Result<State, Refusal>
    requires { Fit text.now st counts.old t.old index.old Start e }
    ensures { Lands text.now a st counts.old out.old t.old (event_of Start e) result out.new counts.new t.new index.new }
{
    let name = name_of(e, ELEMENT_NAME, name_lead(st.mode, a));
    let at = before_name(out, octet(st.at), st.mode);
    let next = write_names::name(text, t, counts, index, out, at, name)?;
    Ok(st.opened(next, a))
}

fn attribute(
    st: State,
    text: &[u8],
    t: &mut [u32],
    counts: &mut [u32],
    index: &mut [u8],
    out: &mut [u8],
    e: Event,
    a: bool,
) -> Result<State, Refusal>
    requires { Fit text.now st counts.old t.old index.old Attribute e }
    ensures { Lands text.now a st counts.old out.old t.old (event_of Attribute e) result out.new counts.new t.new index.new }
{
    let name = name_of(e, ATTRIBUTE_NAME, 0);
    let after = write_names::name(text, t, counts, index, out, octet(st.at), name)?;
    let next = write_names::value(text, t, counts, index, out, after, ATTRIBUTE_VALUE, e.value);
    Ok(st.moved(next, State::LISTED))
}

// The item of an event, with no end owed before it. A blank record is no event, and none is well made.
fn item(
    st: State,
    text: &[u8],
    t: &mut [u32],
    counts: &mut [u32],
    index: &mut [u8],
    out: &mut [u8],
    e: Event,
    a: bool,
) -> Result<State, Refusal>
    requires { Fit text.now st counts.old t.old index.old e.kind e }
    ensures { Lands text.now a st counts.old out.old t.old (event_of e.kind e) result out.new counts.new t.new index.new }
{
    match e.kind {
        Kind::Blank | Kind::End => close(st, out),
        Kind::Namespace => declare(st, text, t, counts, index, out, e, a),
        Kind::Start => start(st, text, t, counts, index, out, e, a),
        Kind::Attribute => attribute(st, text, t, counts, index, out, e, a),
        Kind::Chunk => chunk(st, text, t, counts, index, out, e, a),
        Kind::Comment => comment(st, text, t, counts, index, out, e, a),
        Kind::Instruction => instruction(st, text, t, counts, index, out, e, a),
    }
}

// One event: judged, then written after the end that an attribute list owes, then held against the room. This is not the
// output's length where the document is only measured. The answer is where the writer stands then.
pub fn step(
    st: State,
    text: &[u8],
    t: &mut [u32],
    counts: &mut [u32],
    index: &mut [u8],
    out: &mut [u8],
    room: usize,
    e: Event,
    a: bool,
) -> Result<State, Refusal>
    requires { Ready text.now st counts.old t.old index.old }
    ensures { Steps text.now room a st counts.old out.old t.old e result out.new counts.new t.new index.new }
{
    judge(st, text, e)?;
    let settled = settle(st, out, e);
    let next = item(settled, text, t, counts, index, out, e, a)?;
    held(next, room)
}
