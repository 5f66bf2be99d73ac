// Items: one step from where the reader stands, by the first octet of what stands there.
ghost use Rattle.std.specs.Prelude.{◌≡◌, ◌+◌, ◌<◌, ◌≤◌, length, get_or, Ok};
ghost use Rattle.format.specs.Octets.{Octets};
ghost use Rattle.format.specs.Tables.{link};
ghost use Rattle.states.specs.States.{mode_of, coming};
ghost use Rattle.read_items.specs.Items.{name_padding, element_at, named_at, namespace_at, attribute_at, chunk_at};
ghost use Rattle.read_items.specs.Items.{comment_at, instruction_at, child_at, item_at};
ghost use Rattle.read_items.specs.Steps.{step};
ghost use Rattle.read_items.specs.Promises.{lent, Good, Meets, Met};
ghost use Rattle.read_items.specs.ItemContracts.{StartsBy, named_record, other_refusal};
ghost use Rattle.read_items.specs.HeadContracts.{SpotNamed, named_by, Tells};
ghost use Rattle.events.specs.Kept.{kept};
ghost use Rattle.read_names.specs.Promises.{name_strings_at, NameThere};

use crate::{Step, ends};
use events::{Event, EventString, Kind};
use fields::{Read, bits};
use format::refusals::{Fault, Refusal};
use format::table::{
    ATTRIBUTE_NAME, ATTRIBUTE_VALUE, ELEMENT_NAME, NAMESPACE_NAME, OTHER_NCNAME, OTHER_STRING,
    PREFIX,
};
use read_names::{octet, value};
use states::State;

// A Start or an attribute at octet k, whose name has this number, in record n. Its strings are looked up only where there
// is a record to keep them.
fn keep_named(
    t: &[u32],
    records: &mut [u32],
    n: usize,
    k: usize,
    table: usize,
    number: u32,
    kind: Kind,
    value: EventString,
)
    requires { NameThere t.now table number × (k < 0x1_0000_0000) }
    ensures { records.new ≡ kept records.old n k (named_record kind (name_strings_at t.now table number) value) }
{
    if !events::has_record(records, n) {
        return;
    }
    let x = read_names::strings_of(t, table, number);
    let e = Event {
        kind,
        prefix: x.prefix,
        namespace: x.namespace,
        name: x.local,
        value,
        place: 0,
    };
    events::keep(records, n, k, e);
}

// The six bits of an element's name hold padding: after 110, or after 1110.
fn name_padding(b: u8) -> bool
    requires { b < 64 }
    ensures { result ≡ name_padding b }
{
    if bits(b, 3, 5) == 6 {
        return bits(b, 6, 8) != 0;
    }
    if bits(b, 3, 6) == 14 {
        return bits(b, 7, 8) != 0;
    }
    false
}

// Why o starts no item of this profile. Another format has some: entity references inside elements, type declarations
// outside. 1111 is an end that stands where none is due. To all else no rule assigns a meaning.
fn other(level: usize, o: u8) -> Refusal
    ensures { result ≡ other_refusal level o }
{
    if 0xF0 <= o {
        return Refusal::Padding;
    }
    let unread = if 0 < level { 0x32 } else { 0x31 };
    if bits(o, 1, 6) == unread {
        return Refusal::Format;
    }
    Refusal::Code
}

// A Start at octet k, whose name is read.
fn start_of(
    st: State,
    t: &[u32],
    records: &mut [u32],
    n: usize,
    k: usize,
    a: bool,
    name: Read<u32>,
) -> Result<Step, Fault>
    requires { NameThere t.now 8 name.value × (name.next.at ≤ 16384) × (k ≤ 16384) }
    ensures { StartsBy st k a t.now name records.old n result records.new }
{
    if st.level >= State::LEVELS {
        return Err(Refusal::Depth.at(k));
    }
    keep_named(
        t,
        records,
        n,
        k,
        ELEMENT_NAME,
        name.value,
        Kind::Start,
        EventString::Absent,
    );
    Ok(Step::Event(st.opened(name.next.at, a), k))
}

// A chunk at octet k, whose bits start with 10.
fn chunk_at(
    st: State,
    s: &[u8],
    t: &mut [u32],
    counts: &mut [u32],
    index: &mut [u8],
    records: &mut [u32],
    n: usize,
    k: usize,
) -> Result<Step, Fault>
    requires { (Good s.now st (lent t.old counts.old index.old records.old)) × (k < length s.now) × (0x80 ≤ get_or s.now k 0) × (get_or s.now k 0 < 0xC0) }
    ensures { Meets s.now st n (lent t.old counts.old index.old records.old) result (lent t.new counts.new index.new records.new) (chunk_at link s.now k) }
{
    let text = read_names::chunk(s, t, counts, k)?;
    let e = events::chunk(text.value);
    events::keep(records, n, k, e);
    Ok(Step::Event(st.moved(text.next.at, st.mode), k))
}

// A comment, after the octet k.
fn comment_at(
    st: State,
    s: &[u8],
    t: &mut [u32],
    counts: &mut [u32],
    index: &mut [u8],
    records: &mut [u32],
    n: usize,
    k: usize,
) -> Result<Step, Fault>
    requires { (Good s.now st (lent t.old counts.old index.old records.old)) × (k < length s.now) }
    ensures { Meets s.now st n (lent t.old counts.old index.old records.old) result (lent t.new counts.new index.new records.new) (comment_at link s.now k) }
{
    let text = value(s, t, counts, OTHER_STRING, k + 1)?;
    let e = events::comment(text.value);
    events::keep(records, n, k, e);
    Ok(Step::Event(st.moved(text.next.at, st.mode), k))
}

// An instruction: the target and the content, after the octet k.
fn instruction_at(
    st: State,
    s: &[u8],
    t: &mut [u32],
    counts: &mut [u32],
    index: &mut [u8],
    records: &mut [u32],
    n: usize,
    k: usize,
) -> Result<Step, Fault>
    requires { (Good s.now st (lent t.old counts.old index.old records.old)) × (k < length s.now) }
    ensures { Meets s.now st n (lent t.old counts.old index.old records.old) result (lent t.new counts.new index.new records.new) (instruction_at link s.now k) }
{
    let target = read_names::id(s, t, counts, index, OTHER_NCNAME, k + 1)?;
    let content = value(s, t, counts, OTHER_STRING, target.next.at)?;
    let e = events::instruction(
        read_names::string_at(t, OTHER_NCNAME, target.value),
        content.value,
    );
    events::keep(records, n, k, e);
    Ok(Step::Event(st.moved(content.next.at, st.mode), k))
}

// A declaration at octet k, of an element whose attribute bit is a.
fn namespace_at(
    st: State,
    s: &[u8],
    t: &mut [u32],
    counts: &mut [u32],
    index: &mut [u8],
    records: &mut [u32],
    n: usize,
    k: usize,
    a: bool,
) -> Result<Step, Fault>
    requires { (Good s.now st (lent t.old counts.old index.old records.old)) × (k ≤ length s.now) × (st.level < 32) }
    ensures { Meets s.now st n (lent t.old counts.old index.old records.old) result (lent t.new counts.new index.new records.new) (λ v. namespace_at link s.now k v a) }
{
    let binding = read_names::declared(s, t, counts, index, k)?;
    let e = events::namespace(
        read_names::string_at(t, PREFIX, binding.value.prefix),
        read_names::string_at(t, NAMESPACE_NAME, binding.value.namespace),
    );
    events::keep(records, n, k, e);
    Ok(Step::Event(st.moved(binding.next.at, states::declaring(a)), k))
}

// A name that is read here: an element's, or an attribute's, and then its value.
fn named(
    st: State,
    s: &[u8],
    t: &mut [u32],
    counts: &mut [u32],
    index: &mut [u8],
    records: &mut [u32],
    n: usize,
    x: Spot,
) -> Result<Step, Fault>
    requires { (Good s.now st (lent t.old counts.old index.old records.old)) × SpotNamed s.now x }
    ensures { Meets s.now st n (lent t.old counts.old index.old records.old) result (lent t.new counts.new index.new records.new) (named_by s.now x) }
{
    let k = x.at;
    let name = read_names::name(s, t, counts, index, x.table, k, x.first)?;
    if x.table == ELEMENT_NAME {
        return start_of(st, t, records, n, k, x.listing, name);
    }
    let v = value(s, t, counts, ATTRIBUTE_VALUE, name.next.at)?;
    keep_named(
        t,
        records,
        n,
        k,
        ATTRIBUTE_NAME,
        name.value,
        Kind::Attribute,
        v.value,
    );
    Ok(Step::Event(st.moved(v.next.at, State::LISTED), k))
}

// A child that is no element by its first octet, k: 10 chunk, which is inside elements only, E1 instruction, E2 comment.
fn child_at(
    st: State,
    s: &[u8],
    t: &mut [u32],
    counts: &mut [u32],
    index: &mut [u8],
    records: &mut [u32],
    n: usize,
    k: usize,
) -> Result<Step, Fault>
    requires { (Good s.now st (lent t.old counts.old index.old records.old)) × (k ≤ length s.now) × (k < length s.now → 0x80 ≤ get_or s.now k 0) }
    ensures { Meets s.now st n (lent t.old counts.old index.old records.old) result (lent t.new counts.new index.new records.new) (child_at link s.now k) }
{
    if s.len() <= k {
        return Err(Refusal::Truncated.at(k));
    }
    let o = s[k];
    if bits(o, 1, 2) == 2 {
        if st.level == 0 {
            return Err(Refusal::Code.at(k));
        }
        return chunk_at(st, s, t, counts, index, records, n, k);
    }
    if o == 0xE1 {
        return instruction_at(st, s, t, counts, index, records, n, k);
    }
    if o == 0xE2 {
        return comment_at(st, s, t, counts, index, records, n, k);
    }
    Err(other(st.level, o).at(k))
}

// Where an item starts with a name: the item's octet, the name's table, what of that octet starts the name, and an
// element's attribute bit.
#[derive(Clone, Copy)]
struct Spot {
    at: usize,
    table: usize,
    first: u8,
    listing: bool,
}

// What an item's first octets say: it starts with a name; it is a declaration, of an element with this attribute bit; it
// is a child that is no element. One place reads names, so that it is inlined.
#[derive(Clone, Copy)]
enum Head {
    Named(Spot),
    Declared { at: usize, listing: bool },
    Child(usize),
}

// An element by its first octet, at k, whose attribute bit is a and other six bits are b: a number; or declarations,
// 1110 00, or a name in parts.
fn element_head(st: State, k: usize, b: u8, a: bool) -> Result<Head, Fault>
    requires { (b < 64) × (k < 16384) }
    ensures { (s : Octets) → k < length s → Tells s st result (element_at link s k b a) }
{
    if name_padding(b) {
        return Err(Refusal::Padding.at(k));
    }
    if !st.may_start() {
        return Err(Refusal::Structure.at(k));
    }
    let named = Head::Named(Spot {
        at: k,
        table: ELEMENT_NAME,
        first: b,
        listing: a,
    });
    if b < 0x38 {
        return Ok(named);
    }
    // A prefix without a namespace.
    if bits(b, 7, 8) == 2 {
        return Err(Refusal::Structure.at(k));
    }
    if State::LEVELS <= st.level {
        return Err(Refusal::Depth.at(k));
    }
    if b == 0x38 {
        return Ok(Head::Declared {
            at: k + 1,
            listing: a,
        });
    }
    Ok(named)
}

// The name after the declarations, whose first octet is k: 00, then a number or parts; 1110 is no name.
fn named_head(s: &[u8], k: usize, a: bool) -> Result<Head, Fault>
    ensures { (st : State) → st.level < 32 → Tells s.now st result (named_at link s.now k a) }
{
    if s.len() <= k {
        return Err(Refusal::Truncated.at(k));
    }
    let o = s[k];
    if bits(o, 3, 6) == 14 {
        return Err(Refusal::Code.at(k));
    }
    if bits(o, 1, 2) != 0 {
        return Err(Refusal::Padding.at(k));
    }
    if name_padding(o) {
        return Err(Refusal::Padding.at(k));
    }
    Ok(Head::Named(Spot {
        at: k,
        table: ELEMENT_NAME,
        first: o,
        listing: a,
    }))
}

// An attribute at octet k: 0, its name and its value.
fn attribute_head(s: &[u8], k: usize) -> Result<Head, Fault>
    ensures { (st : State) → Tells s.now st result (attribute_at link s.now k) }
{
    if s.len() <= k {
        return Err(Refusal::Truncated.at(k));
    }
    let o = s[k];
    if bits(o, 1, 1) != 0 {
        return Err(Refusal::Code.at(k));
    }
    if bits(o, 2, 6) == 31 {
        return Err(Refusal::Padding.at(k));
    }
    Ok(Head::Named(Spot {
        at: k,
        table: ATTRIBUTE_NAME,
        first: o,
        listing: false,
    }))
}

// A child at octet k: 0 element, or another.
fn child_head(st: State, s: &[u8], k: usize) -> Result<Head, Fault>
    requires { (k ≤ length s.now) × (length s.now ≤ 16384) }
    ensures { Tells s.now st result (child_at link s.now k) }
{
    if k < s.len() {
        let o = s[k];
        let code = bits(o, 1, 2);
        if code < 2 {
            return element_head(st, k, bits(o, 3, 8), code == 1);
        }
    }
    Ok(Head::Child(k))
}

// The item at octet k, by where the reader is; after a declaration F0 and the name, or another declaration.
fn head_at(st: State, s: &[u8], k: usize) -> Result<Head, Fault>
    requires { (k ≤ length s.now) × (length s.now ≤ 16384) × (st.level + coming st.mode ≤ 32) }
    ensures { Tells s.now st result (λ v. item_at link s.now k v (mode_of st.mode)) }
{
    if st.mode == State::CONTENT {
        return child_head(st, s, k);
    }
    if st.mode < State::DECLARING {
        return attribute_head(s, k);
    }
    let a = st.mode != State::DECLARING;
    if octet(s, k) == 0xF0 {
        return named_head(s, k + 1, a);
    }
    Ok(Head::Declared { at: k, listing: a })
}

// The item at octet k.
fn item_at(
    st: State,
    s: &[u8],
    t: &mut [u32],
    counts: &mut [u32],
    index: &mut [u8],
    records: &mut [u32],
    n: usize,
    k: usize,
) -> Result<Step, Fault>
    requires { (Good s.now st (lent t.old counts.old index.old records.old)) × (k ≤ length s.now) }
    ensures { Meets s.now st n (lent t.old counts.old index.old records.old) result (lent t.new counts.new index.new records.new) (λ v. item_at link s.now k v (mode_of st.mode)) }
{
    match head_at(st, s, k)? {
        Head::Named(x) => named(st, s, t, counts, index, records, n, x),
        Head::Declared { at, listing } => {
            namespace_at(st, s, t, counts, index, records, n, at, listing)
        }
        Head::Child(at) => child_at(st, s, t, counts, index, records, n, at),
    }
}

// An end, or the item at the next octet after padding that is right. An event is kept in record n, where there is one.
pub fn step(
    st: State,
    s: &[u8],
    t: &mut [u32],
    counts: &mut [u32],
    index: &mut [u8],
    records: &mut [u32],
    n: usize,
) -> Result<Step, Fault>
    requires { Good s.now st (lent t.old counts.old index.old records.old) }
    ensures { Met s.now st n (lent t.old counts.old index.old records.old) result (lent t.new counts.new index.new records.new) (step link s.now) }
{
    let at = st.at;
    if ends::ends_here(st, s) {
        return ends::end_at(st, s, records, n);
    }
    if !ends::pads_at(s, at) {
        return Err(Refusal::Padding.at(at / 2));
    }
    item_at(st, s, t, counts, index, records, n, (at + 1) / 2)
}
