// Strings and names as octets, by the choices that the requirements fix: by number where the table holds them, else spelled.
// May depend on format, fields, decimal, forms, tables, index and events.
#![tactic(auto)]

mod naming;

ghost use Rattle.std.specs.Prelude.{◌≡◌, ◌+◌, ◌*◌, ◌^◌, ◌-◌, ◌<◌, ◌≤◌, length};
ghost use Rattle.format.specs.Numbers.{lengths, spell};
ghost use Rattle.format.specs.Tables.{link, CONTENT_CHARACTER_CHUNK as CHUNKS};
ghost use Rattle.format.specs.Strings.{with_length, c15};
ghost use Rattle.format.specs.Names.{has};
ghost use Rattle.format.specs.declared.StringForm.TheVariants.{Utf8};
ghost use Rattle.fields.specs.PutContracts.{Puts};
ghost use Rattle.forms.specs.Reading.{places_of};
ghost use Rattle.forms.specs.Streams.{part};
ghost use Rattle.tables.specs.Located.{stretch, octets_of};
ghost use Rattle.tables.specs.Rows.{table_of};
ghost use Rattle.tables.specs.Kept.{layout_of};
ghost use Rattle.events.specs.Records.{located_of, optional_of};
ghost use Rattle.events.specs.Words.{string_tag};
ghost use Rattle.write_names.specs.Choices.{write_id, write_optional, field_in, form_for, write_literal, write_value};
ghost use Rattle.write_names.specs.Promises.{string_most, said_most, value_most, last_place, LayoutBit, plain_most, format_bits, less_one, with_width, FewIntegers, or_integers, HasForm, Chosen, chosen_field, tables_in, InOrder, Suits, Fills, held_as, Looked, Enters, Added, Spells, Fitting, spelled_as, Stands, Meets};

use decimal::scanning::Integers;
use events::EventString;
use fields::put::{put, put_length, put_number, put_number_at_bit_2, put_part};
use format::StringForm;
use format::refusals::Refusal;
use format::table::{CONTENT_CHARACTER_CHUNK, ELEMENT_NAME};
pub use naming::{declared, name};
use tables::{Counts, Row};

// A value, comment, content or chunk that is not longer in UTF-8 is added to its table.
const SHORT: usize = 5;

// A string that was looked up in its table, and its number there; 0 where it has none.
#[derive(Clone, Copy)]
pub struct Sought {
    pub table: usize,
    pub string: EventString,
    pub number: u32,
}

// How a string of a table is spelled: its length from bit `bit` behind the bits `lead` and the format, and `add` more where it is added to the table.
#[derive(Clone, Copy)]
pub struct Spelling {
    pub table: usize,
    pub bit: u32,
    pub lead: u8,
    pub add: u8,
}

// The two bits of a form's format (C.19, C.20), and the number less 1 of its alphabet or algorithm (C.29).
#[derive(Clone, Copy)]
struct Format {
    bits: u8,
    number: u8,
}

// The form in which a string is spelled, and how many octets it has there.
#[derive(Clone, Copy)]
struct Formed {
    form: StringForm,
    size: usize,
}

// A name of table 8 or 9: the bits before it, and its strings.
#[derive(Clone, Copy)]
pub struct QualifiedName {
    pub table: usize,
    pub lead: u8,
    pub prefix: EventString,
    pub namespace: EventString,
    pub local: EventString,
}

// The number of an identifying string in its table; 0 where it has none, or there is no string.
pub fn number_of(
    text: &[u8],
    t: &[u32],
    counts: &[u32],
    index: &[u8],
    table: usize,
    x: EventString,
) -> u32
    requires { InOrder text.now counts.now t.now index.now × (table < 5) × Suits text.now table x }
    ensures { (result ≡ held_as text.now (table_of table) (tables_in counts.now t.now) x) × (result ≤ 256) }
{
    match x {
        EventString::Absent => 0,
        EventString::Empty => 0,
        EventString::Stretch(_, place, size) => index::find(
            text,
            t,
            index,
            table,
            counts[table],
            place as usize,
            size as usize,
        ),
        EventString::XmlPrefix => 1,
        EventString::XmlNamespace => 1,
    }
}

// The same of another string, which is not empty.
pub fn number_said(
    text: &[u8],
    t: &[u32],
    counts: &[u32],
    index: &[u8],
    table: usize,
    x: EventString,
) -> u32
    requires { InOrder text.now counts.now t.now index.now × (5 ≤ table) × (table < 8) × Spells text.now x }
    ensures { (result ≡ held_as text.now (table_of table) (tables_in counts.now t.now) x) × (result ≤ 256) }
{
    let EventString::Stretch(form, place, size) = x else {
        return 0;
    };
    index::find_said(
        text,
        t,
        index,
        table,
        counts[table],
        form,
        place as usize,
        size as usize,
    )
}

// A length from bit `bit` behind `lead`, and the octets.
fn spelled(
    out: &mut [u8],
    at: usize,
    bit: u32,
    lead: u8,
    text: &[u8],
    place: u32,
    size: u32,
) -> usize
    requires { (at ≤ last_place) × (1 ≤ bit) × (bit ≤ 7) × (lead + 2 ^ (9 - bit) ≤ 256) × (0 < size) × (place + size ≤ length text.now) × (length text.now ≤ 16384) }
    ensures { Puts out.old at result out.new (with_length (lengths bit) lead (octets_of text.now (stretch Utf8 place size))) × (result ≤ at + string_most) }
{
    let n = size as usize;
    let behind = put_length(out, at, bit, lead, n);
    put_part(out, behind, text, place as usize, n)
}

// 1 where there is a string.
fn has(x: EventString) -> u8
    ensures { (result ≡ has (optional_of x)) × (result ≤ 1) }
{
    if x.is_absent() {
        return 0;
    }
    1
}

// The number of a name of table 8 or 9, C.27 or C.25.
fn put_name_number(out: &mut [u8], at: usize, table: usize, lead: u8, n: u32) -> usize
    requires { (at ≤ last_place) × (lead ≤ 0x80) × (1 ≤ n) × (n ≤ 256) }
    ensures { Puts out.old at result out.new (spell (layout_of table).number_forms lead n) × (result ≤ at + 4) }
{
    if table == ELEMENT_NAME {
        return put_number(out, at, 3, lead, n);
    }
    put_number_at_bit_2(out, at, lead, n)
}

// The string of a row, which its table does not hold, becomes an entry of it; h is its bucket.
fn added(
    text: &[u8],
    t: &mut [u32],
    counts: &mut [u32],
    index: &mut [u8],
    table: usize,
    row: Row,
    h: usize,
)
    requires { (length counts.old ≡ 10) × Enters text.now counts.old t.old index.old table row h }
    ensures { Added text.now table row counts.old t.old index.old counts.new t.new index.new }
{
    let n = counts[table];
    index::enter_in(text, t, index, table, n, row, 0, h);
    counts[table] = n + 1;
}

// C.13: an identifying string. Without a number it is spelled and added.
fn id(
    text: &[u8],
    t: &mut [u32],
    counts: &mut [u32],
    index: &mut [u8],
    out: &mut [u8],
    at: usize,
    x: Sought,
) -> Result<usize, Refusal>
    requires { InOrder text.now counts.old t.old index.old × (at ≤ last_place) × (1 ≤ string_tag x.string) × Looked text.now counts.old t.old x }
    ensures { Meets text.now out.old at string_most result out.new counts.new t.new index.new (write_id text.now (table_of x.table) (tables_in counts.old t.old) (located_of x.string)) }
{
    if x.number != 0 {
        return Ok(put_number_at_bit_2(out, at, 0x80, x.number));
    }
    let table = x.table;
    if Counts::ENTRIES <= counts[table] {
        return Err(Refusal::Full);
    }
    let string = x.string;
    let place = string.place();
    let size = string.size();
    let behind = spelled(out, at, 2, 0, text, place, size);
    let row = Row {
        a: place,
        b: size,
        c: 0,
    };
    let h = index::bucket_of(text, place as usize, size as usize);
    added(text, t, counts, index, table, row, h);
    Ok(behind)
}

// One that may be absent.
fn optional(
    text: &[u8],
    t: &mut [u32],
    counts: &mut [u32],
    index: &mut [u8],
    out: &mut [u8],
    at: usize,
    x: Sought,
) -> Result<usize, Refusal>
    requires { InOrder text.now counts.old t.old index.old × (at ≤ last_place) × Looked text.now counts.old t.old x }
    ensures { Meets text.now out.old at string_most result out.new counts.new t.new index.new (write_optional text.now (table_of x.table) (tables_in counts.old t.old) (optional_of x.string)) }
{
    let string = x.string;
    if string.is_absent() {
        return Ok(at);
    }
    id(text, t, counts, index, out, at, x)
}

// C.13: one of the table, by its number or spelled.
pub fn identified(
    text: &[u8],
    t: &mut [u32],
    counts: &mut [u32],
    index: &mut [u8],
    out: &mut [u8],
    at: usize,
    table: usize,
    x: EventString,
) -> Result<usize, Refusal>
    requires { InOrder text.now counts.old t.old index.old × (at ≤ last_place) × (1 ≤ string_tag x) × (table < 4) × Suits text.now table x }
    ensures { Meets text.now out.old at string_most result out.new counts.new t.new index.new (write_id text.now (table_of table) (tables_in counts.old t.old) (located_of x)) }
{
    let number = number_of(text, t, counts, index, table, x);
    let sought = Sought {
        table,
        string: x,
        number,
    };
    id(text, t, counts, index, out, at, sought)
}

// How many characters these octets of an alphabet are, each one octet in UTF-8: two in each octet, but one in the last where its lower half only fills up.
fn letters_in(text: &[u8], from: usize, size: usize) -> usize
    requires { (0 < size) × (from + size ≤ length text.now) × (length text.now ≤ 16384) }
    ensures { result ≡ length (places_of (part text.now from (from + size))) }
{
    let n = 2 * size;
    if text[from + size - 1] % 16 == 15 {
        return n - 1;
    }
    n
}

// How many octets a string has in UTF-8.
pub fn octets_of(text: &[u8], x: EventString) -> usize
    requires { Spells text.now x × (length text.now ≤ 16384) }
    ensures { (result ≡ length (octets_of text.now (located_of x))) × (1 ≤ result) × (result ≤ said_most) }
{
    let form = x.form();
    let size = x.size() as usize;
    if form.number() == 0 {
        return size;
    }
    let from = x.place() as usize;
    let format = format_of(form);
    if format.bits == 2 {
        return letters_in(text, from, size);
    }
    let mut none = [0; 1];
    forms::put_said(&mut none, 0, text, form, from, from + size)
}

// The form of integers of w octets each.
fn with_width(w: usize) -> StringForm
    ensures { result ≡ with_width w }
{
    match w {
        2 => StringForm::Short,
        4 => StringForm::Int,
        _ => StringForm::Long,
    }
}

// The form for a string of n characters of an alphabet: integers where they have fewer octets, of which a length takes no more, and on a tie the alphabet.
fn or_integers(n: usize, found: Option<Integers>) -> Formed
    requires { (n ≤ said_most) × FewIntegers n found }
    ensures { result ≡ or_integers n found }
{
    let packed = (n + 1) / 2;
    if let Some(integers) = found {
        let size = integers.count * integers.width;
        if size < packed {
            return Formed {
                form: with_width(integers.width),
                size,
            };
        }
    }
    Formed {
        form: StringForm::Numeric,
        size: packed,
    }
}

// How many octets of a string no other form saves.
fn plain_most(bit: u32) -> usize
    ensures { result ≡ plain_most bit }
{
    if bit == 7 {
        return 2;
    }
    3
}

// The form in which a string of n octets in UTF-8 is spelled. What integers say has characters of the first alphabet alone.
fn form_for(text: &[u8], bit: u32, x: EventString, n: usize) -> Formed
    requires { Spells text.now x × (length text.now ≤ 16384) × LayoutBit bit × (n ≡ length (octets_of text.now (located_of x))) }
    ensures { Chosen bit (octets_of text.now (located_of x)) result }
{
    if n <= plain_most(bit) {
        return Formed {
            form: StringForm::Utf8,
            size: n,
        };
    }
    let given = x.form();
    let from = x.place() as usize;
    let to = from + x.size() as usize;
    let letters = forms::alphabet_for(text, given, from, to);
    match letters.number() {
        0 => Formed {
            form: letters,
            size: n,
        },
        2 => or_integers(n, forms::integers_for(text, given, from, to)),
        _ => Formed {
            form: letters,
            size: (n + 1) / 2,
        },
    }
}

// In UTF-8: n octets behind their length.
fn in_utf8(
    out: &mut [u8],
    at: usize,
    bit: u32,
    lead: u8,
    text: &[u8],
    x: EventString,
    n: usize,
) -> usize
    requires { Spells text.now x × (length text.now ≤ 16384) × (at < 2 ^ 31) × LayoutBit bit × (lead + 4 * 2 ^ (9 - bit) ≤ 256) × (n ≡ length (octets_of text.now (located_of x))) }
    ensures { Puts out.old at result out.new (field_in bit Utf8 lead (octets_of text.now (located_of x))) × (result ≤ at + value_most) }
{
    let form = x.form();
    let from = x.place() as usize;
    let size = x.size() as usize;
    let behind = put_length(out, at, bit, lead, n);
    if form.number() == 0 {
        return put_part(out, behind, text, from, size);
    }
    forms::put_said(out, behind, text, form, from, from + size)
}

// What the last bit is worth before a length that starts at `bit`.
fn unit_before(bit: u32) -> u8
    requires { LayoutBit bit }
    ensures { (result ≡ 2 ^ (9 - bit)) × (1 ≤ result) × (result ≤ 16) }
{
    if bit == 7 {
        return 4;
    }
    16
}

fn format_of(form: StringForm) -> Format
    ensures { (result.bits ≡ format_bits form) × (result.number ≡ less_one form) × (result.bits ≤ 3) × (result.number ≤ 4) }
{
    match form {
        StringForm::Utf8 => Format { bits: 0, number: 0 },
        StringForm::Utf16 => Format { bits: 1, number: 0 },
        StringForm::Numeric => Format { bits: 2, number: 0 },
        StringForm::Dates => Format { bits: 2, number: 1 },
        StringForm::Short => Format { bits: 3, number: 2 },
        StringForm::Int => Format { bits: 3, number: 3 },
        StringForm::Long => Format { bits: 3, number: 4 },
    }
}

// In an alphabet that has all its characters, or as its integers: the bits of the format, those of the number, the length, and the octets. A string has one spelling in a form: one that is given in this form is copied.
fn in_other(
    out: &mut [u8],
    at: usize,
    bit: u32,
    lead: u8,
    text: &[u8],
    x: EventString,
    formed: Formed,
) -> usize
    requires { Spells text.now x × (length text.now ≤ 16384) × (at < 2 ^ 31) × LayoutBit bit × (lead + 4 * 2 ^ (9 - bit) ≤ 256) × HasForm (octets_of text.now (located_of x)) formed }
    ensures { Puts out.old at result out.new (field_in bit formed.form lead (octets_of text.now (located_of x))) × (result ≤ at + value_most) }
{
    let unit = unit_before(bit);
    let form = formed.form;
    let format = format_of(form);
    let given = x.form();
    let from = x.place() as usize;
    let size = x.size() as usize;
    put(out, at, lead + format.bits * unit);
    let behind = put_length(out, at + 1, bit, format.number * unit, formed.size);
    if given.number() == form.number() {
        return put_part(out, behind, text, from, size);
    }
    let to = from + size;
    if format.bits == 2 {
        return forms::put_packed(out, behind, text, given, from, to, form);
    }
    forms::put_integers(out, behind, text, given, from, to, form)
}

// A string of n octets in UTF-8 in the form that is chosen by all its characters, its length from bit `bit` behind `lead` and the format.
fn put_formed(
    out: &mut [u8],
    at: usize,
    bit: u32,
    lead: u8,
    text: &[u8],
    x: EventString,
    n: usize,
) -> usize
    requires { Spells text.now x × (length text.now ≤ 16384) × (at < 2 ^ 31) × LayoutBit bit × (lead + 4 * 2 ^ (9 - bit) ≤ 256) × (n ≡ length (octets_of text.now (located_of x))) }
    ensures { Puts out.old at result out.new (chosen_field bit lead (octets_of text.now (located_of x))) × (result ≤ at + value_most) }
{
    let formed = form_for(text, bit, x, n);
    let form = formed.form;
    if form.number() == 0 {
        return in_utf8(out, at, bit, lead, text, x, n);
    }
    in_other(out, at, bit, lead, text, x, formed)
}

// A string of n octets in UTF-8 as the writer spells it, its length from bit `bit` behind `lead` and the format. Most strings are given in utf-8 and stay so, which their first octet tells.
pub fn put_string(
    out: &mut [u8],
    at: usize,
    bit: u32,
    lead: u8,
    text: &[u8],
    x: EventString,
    n: usize,
) -> usize
    requires { Spells text.now x × (length text.now ≤ 16384) × (at < 2 ^ 31) × LayoutBit bit × (lead + 4 * 2 ^ (9 - bit) ≤ 256) × (n ≡ length (octets_of text.now (located_of x))) }
    ensures { Puts out.old at result out.new (chosen_field bit lead (octets_of text.now (located_of x))) × (result ≤ at + value_most) }
{
    let form = x.form();
    if form.number() != 0 {
        return put_formed(out, at, bit, lead, text, x, n);
    }
    let from = x.place() as usize;
    if forms::may_begin(text[from]) {
        return put_formed(out, at, bit, lead, text, x, n);
    }
    let behind = put_length(out, at, bit, lead, n);
    put_part(out, behind, text, from, n)
}

// C.14 or C.15, spelled: a string of 1 to 5 octets in UTF-8 is added where its table has room, and its add bit says so.
fn literal(
    text: &[u8],
    t: &mut [u32],
    counts: &mut [u32],
    index: &mut [u8],
    out: &mut [u8],
    at: usize,
    q: Spelling,
    x: EventString,
) -> usize
    requires { InOrder text.now counts.old t.old index.old × (at ≤ last_place) × Spells text.now x × (0 ≡ held_as text.now (table_of q.table) (tables_in counts.old t.old) x) × Fitting q }
    ensures { Stands text.now out.old at value_most result out.new counts.new t.new index.new (spelled_as q text.now (tables_in counts.old t.old) (located_of x)) }
{
    let EventString::Stretch(form, place, size) = x else {
        return at;
    };
    let table = q.table;
    let n = octets_of(text, x);
    let adds = n <= SHORT && counts[table] < Counts::ENTRIES;
    let lead = if adds { q.lead + q.add } else { q.lead };
    let behind = put_string(out, at, q.bit, lead, text, x, n);
    if !adds {
        return behind;
    }
    let row = Row {
        a: place,
        b: size,
        c: form.number(),
    };
    let h = index::bucket_said(text, form, place as usize, size as usize);
    added(text, t, counts, index, table, row, h);
    behind
}

// C.14: a value, comment or content. FF is the empty string.
pub fn value(
    text: &[u8],
    t: &mut [u32],
    counts: &mut [u32],
    index: &mut [u8],
    out: &mut [u8],
    at: usize,
    table: usize,
    x: EventString,
) -> usize
    requires { InOrder text.now counts.old t.old index.old × (at ≤ last_place) × (5 ≤ table) × (table < 8) × Fills text.now x }
    ensures { Stands text.now out.old at value_most result out.new counts.new t.new index.new (write_value link text.now (table_of table) (tables_in counts.old t.old) (located_of x)) }
{
    if x.size() == 0 {
        put(out, at, 0xFF);
        return at + 1;
    }
    let k = number_said(text, t, counts, index, table, x);
    if k != 0 {
        return put_number_at_bit_2(out, at, 0x80, k);
    }
    let q = Spelling {
        table,
        bit: 5,
        lead: 0,
        add: 0x40,
    };
    literal(text, t, counts, index, out, at, q, x)
}

// C.15: a chunk.
pub fn chunk(
    text: &[u8],
    t: &mut [u32],
    counts: &mut [u32],
    index: &mut [u8],
    out: &mut [u8],
    at: usize,
    x: EventString,
) -> usize
    requires { InOrder text.now counts.old t.old index.old × (at ≤ last_place) × Spells text.now x }
    ensures { Stands text.now out.old at value_most result out.new counts.new t.new index.new (write_literal link c15 text.now CHUNKS (tables_in counts.old t.old) (located_of x)) }
{
    let table = CONTENT_CHARACTER_CHUNK;
    let k = number_said(text, t, counts, index, table, x);
    if k != 0 {
        return put_number(out, at, 4, 0xA0, k);
    }
    let q = Spelling {
        table,
        bit: 7,
        lead: 0x80,
        add: 0x10,
    };
    literal(text, t, counts, index, out, at, q, x)
}
