// Strings: C.13, C.14, C.15. Each function reads one string from octet `at` on.
ghost use Rattle.std.specs.Prelude.{◌≡◌, suc, ◌+◌, ◌-◌, ◌*◌, ◌%◌, ◌^◌, ◌<◌, ◌≤◌, length, get_or, Ok};
ghost use Rattle.format.specs.Tables.{link, CONTENT_CHARACTER_CHUNK as CHUNKS};
ghost use Rattle.format.specs.Strings.{c15};
ghost use Rattle.tables.specs.Counts.{table_words};
ghost use Rattle.tables.specs.Rows.{table_of, string_at};
ghost use Rattle.tables.specs.Kept.{count_of, unlisted};
ghost use Rattle.events.specs.Records.{event_string};
ghost use Rattle.fields.specs.Fields.{bits_of, value_from};
ghost use Rattle.read_names.specs.Strings.{method_at, is_read, method_behind, method_length, id_at, optional_at, literal_at, value_at};
ghost use Rattle.read_names.specs.Promises.{Tidy, ReadsId, ReadsOptional, ReadsField};
ghost use Rattle.read_names.specs.StringContracts.{LengthRead, judged_of, held_by, said_of, added_of, added_counts, added_words, ReadsFormed, ReadsSpelled};

use events::EventString;
use fields::{Cursor, Read, Reading, bits};
use format::StringForm;
use format::refusals::{Fault, Refusal};
use format::table::{CONTENT_CHARACTER_CHUNK, NAMESPACE_NAME, OTHER_URI, PREFIX};
use tables::Counts;

// The octet at a place, 0 behind the last.
pub fn octet(s: &[u8], at: usize) -> u8
    ensures { result ≡ get_or s.now at 0 }
{
    s.get(at).copied().unwrap_or(0)
}

// The octets of a string whose length was read at a place: they are there, and are text in its form.
#[tactic(auto, using(tables::proofs::Search::octets_stretch), unfolding(crate::specs::StringContracts::judged_of))]
fn judge(s: &[u8], at: usize, form: StringForm, len: Read<u64>) -> Result<(), Fault>
    requires { LengthRead s.now (Ok len) }
    ensures { result ≡ judged_of form s.now at len }
{
    let first = len.next.at;
    let size = len.value as usize;
    if s.len() - first < size {
        return Err(Refusal::Truncated.at(at));
    }
    if !forms::is_text(s, form, first, first + size) {
        return Err(Refusal::Text.at(at));
    }
    Ok(())
}

// Entry i of a table of strings, from 0. One without octets is built in, and an identifying string has no other form than utf-8.
pub fn string_of(t: &[u32], table: usize, i: u32) -> EventString
    requires { (length t.now ≡ table_words) × (table < 8) × (i < 256) }
    ensures { result ≡ event_string (string_at (table_of table) t.now (768 * table + 3 * i)) }
{
    let e = tables::entry(t, table, i);
    if e.b == 0 {
        return match table {
            PREFIX => EventString::XmlPrefix,
            NAMESPACE_NAME => EventString::XmlNamespace,
            _ => EventString::Empty,
        };
    }
    let form = if table <= OTHER_URI {
        StringForm::Utf8
    } else {
        StringForm::of(e.c)
    };
    EventString::Stretch(form, e.a, e.b)
}

// A number that was read at a place is that of an entry; its refusal is handed on.
#[tactic(auto, using(index::proofs::Counted::count_at), unfolding(crate::specs::StringContracts::held_of))]
pub fn held(counts: &[u32], table: usize, at: usize, number: Reading<u64>) -> Reading<u32>
    requires { (length counts.now ≡ 10) × (table < 10) × (count_of (unlisted counts.now) table ≤ 256) }
    ensures { result ≡ held_by (count_of (unlisted counts.now) table) at number }
{
    let number = number?;
    if (counts[table] as u64) < number.value {
        return Err(Refusal::Index.at(at));
    }
    Ok(Read {
        value: number.value as u32,
        next: number.next,
    })
}

// C.13, spelled: octets that are no entry yet, and become one.
fn fresh(
    s: &[u8],
    t: &mut [u32],
    counts: &mut [u32],
    index: &mut [u8],
    table: usize,
    at: usize,
) -> Reading<u32>
    requires { (Tidy s.now counts.old t.old index.old) × (table < 5) × (get_or s.now at 0 < 0x80) }
    ensures { ReadsId s.now counts.old t.old table result counts.new t.new index.new (id_at link s.now (table_of table) at) }
{
    let len = Cursor { at }.length(s, 2)?;
    let first = len.next.at;
    let size = len.value as usize;
    if s.len() - first < size {
        return Err(Refusal::Truncated.at(at));
    }
    let m = index::mark(s, first, size);
    if !m.text {
        return Err(Refusal::Text.at(at));
    }
    let count = counts[table];
    if let Err(refusal) = index::add_new(s, t, index, table, count, first, size, m.bucket) {
        return Err(refusal.at(at));
    }
    counts[table] = count + 1;
    Ok(Read {
        value: count + 1,
        next: Cursor { at: first + size },
    })
}

// C.13: an identifying string of a table: its number.
pub fn id(
    s: &[u8],
    t: &mut [u32],
    counts: &mut [u32],
    index: &mut [u8],
    table: usize,
    at: usize,
) -> Reading<u32>
    requires { (Tidy s.now counts.old t.old index.old) × (at ≤ length s.now) × (table < 5) }
    ensures { ReadsId s.now counts.old t.old table result counts.new t.new index.new (id_at link s.now (table_of table) at) }
{
    if bits(octet(s, at), 1, 1) == 0 {
        return fresh(s, t, counts, index, table, at);
    }
    held(counts, table, at, Cursor { at }.number_at_bit_2(s))
}

// One that is there if its presence bit says so; its number is 0 where it is not.
#[tactic(auto, using(crate::proofs::StringLaws::optional_there, crate::proofs::StringLaws::optional_absent))]
pub fn optional(
    there: bool,
    s: &[u8],
    t: &mut [u32],
    counts: &mut [u32],
    index: &mut [u8],
    table: usize,
    at: usize,
) -> Reading<u32>
    requires { (Tidy s.now counts.old t.old index.old) × (at ≤ length s.now) × (table < 5) }
    ensures { ReadsOptional s.now counts.old t.old table result counts.new t.new index.new (optional_at link there s.now (table_of table) at) }
{
    if there {
        return id(s, t, counts, index, table, at);
    }
    Ok(Read {
        value: 0,
        next: Cursor { at },
    })
}

// The string of the entry that has a number, which was read at a place.
#[tactic(auto, unfolding(crate::specs::StringContracts::held_of, crate::specs::StringContracts::said_of))]
fn said(
    t: &[u32],
    counts: &[u32],
    table: usize,
    at: usize,
    number: Read<u64>,
) -> Reading<EventString>
    requires { (length t.now ≡ table_words) × (length counts.now ≡ 10) × (table < 8) × (count_of (unlisted counts.now) table ≤ 256) × (1 ≤ number.value) }
    ensures { result ≡ said_of t.now table (count_of (unlisted counts.now) table) at number }
{
    let number = held(counts, table, at, Ok(number))?;
    Ok(Read {
        value: string_of(t, table, number.value - 1),
        next: number.next,
    })
}

// The octets at a place, which become an entry of their table where their add bit says so.
#[tactic(auto, unfolding(crate::specs::StringContracts::added_of, crate::specs::StringContracts::added_counts, crate::specs::StringContracts::added_words))]
fn added(
    t: &mut [u32],
    counts: &mut [u32],
    table: usize,
    at: usize,
    form: StringForm,
    place: usize,
    size: usize,
    add: bool,
) -> Reading<EventString>
    requires { (length t.old ≡ table_words) × (length counts.old ≡ 10) × (table < 8) × (place + size ≤ 16384) }
    ensures { (result ≡ added_of counts.old table at form place size add) × (counts.new ≡ added_counts counts.old table add) × (t.new ≡ added_words counts.old t.old table form place size add) }
{
    let first = place as u32;
    let len = size as u32;
    if add {
        let count = counts[table];
        if Counts::ENTRIES <= count {
            return Err(Refusal::Full.at(at));
        }
        tables::add(t, table, count, first, len, form.number());
        counts[table] = count + 1;
    }
    Ok(Read {
        value: EventString::Stretch(form, first, len),
        next: Cursor { at: place + size },
    })
}

// A spelled string in a form, by its length; it is added where its add bit says so. The length's refusal is handed on.
pub fn formed(
    s: &[u8],
    t: &mut [u32],
    counts: &mut [u32],
    table: usize,
    at: usize,
    form: StringForm,
    len: Reading<u64>,
    add: bool,
) -> Reading<EventString>
    requires { (length t.old ≡ table_words) × (length counts.old ≡ 10) × (length s.now ≤ 16384) × (table < 8) × LengthRead s.now len }
    ensures { ReadsFormed s.now counts.old t.old table at form len add result counts.new t.new }
{
    let len = len?;
    judge(s, at, form, len)?;
    let size = len.value as usize;
    added(t, counts, table, at, form, len.next.at, size, add)
}

// The eight bits of the alphabet's or algorithm's number less 1, which stand before the length.
fn method(s: &[u8], at: usize, bit: u32) -> u32
    requires { (5 ≤ bit) × (bit ≤ 7) × (at ≤ 16384) }
    ensures { (result ≡ method_at bit s.now at) × (result < 256) }
{
    let high = bits(octet(s, at), bit, 8) as u32;
    let low = (octet(s, at + 1) >> (9 - bit)) as u32;
    (high << (bit - 1)) + low
}

// Alphabets 1 and 2 are read, by format 2, and algorithms 3, 4 and 5.
#[tactic(auto, unfolding(crate::specs::Strings::is_read))]
fn is_read(format: u8, method: u32) -> bool
    ensures { result ≡ is_read format method }
{
    if format == 2 {
        return method < 2;
    }
    2 <= method && method < 5
}

// The length of a string in such a format has `more` octets behind the second, from `low` on: all octets of the field are there, the alphabet or algorithm is one that is read, and the padding is right.
#[tactic(auto, unfolding(crate::specs::Strings::method_behind))]
fn method_behind(
    s: &[u8],
    at: usize,
    bit: u32,
    format: u8,
    more: usize,
    low: u64,
    clean: bool,
) -> Reading<u64>
    requires { (5 ≤ bit) × (bit ≤ 7) × (more ≤ 4) × (low < 2 ^ 40) × (at ≤ length s.now) × (length s.now ≤ 16384) }
    ensures { result ≡ method_behind bit format s.now at more (low + value_from s.now (at + 2) 0 more) clean }
{
    let next = at + 2 + more;
    if s.len() < next {
        return Err(Refusal::Truncated.at(at));
    }
    let n = low + fields::value_from(s, at + 2, 0, more);
    if ((s.len() - next) as u64) < n {
        return Err(Refusal::Truncated.at(at));
    }
    if !is_read(format, method(s, at, bit)) {
        return Err(Refusal::Format.at(at));
    }
    if !clean {
        return Err(Refusal::Padding.at(at));
    }
    Ok(Read {
        value: n,
        next: Cursor { at: next },
    })
}

// C.19, C.20 behind that number: a length from a bit of the second octet, coded 0, 10 or 11. `half` is as many values as the bits behind 10 and 11 have.
fn method_length(s: &[u8], at: usize, bit: u32, format: u8) -> Reading<u64>
    requires { (5 ≤ bit) × (bit ≤ 7) × (at ≤ length s.now) × (length s.now ≤ 16384) }
    ensures { result ≡ method_length bit format s.now at (get_or s.now (suc at) 0 % 2 ^ (9 - bit)) }
{
    let b = bits(octet(s, at + 1), bit, 8) as u64;
    let half = 1u64 << (7 - bit);
    if b < 2 * half {
        return method_behind(s, at, bit, format, 0, 1 + b, true);
    }
    if b < 3 * half {
        return method_behind(s, at, bit, format, 1, 1 + 2 * half, b == 2 * half);
    }
    method_behind(s, at, bit, format, 4, 1 + 2 * half + 256, b == 3 * half)
}

// C.19, C.20 in another form than utf-8, by the format, the two bits before the length.
pub fn in_form(
    s: &[u8],
    t: &mut [u32],
    counts: &mut [u32],
    table: usize,
    at: usize,
    bit: u32,
    add: bool,
) -> Reading<EventString>
    requires { (length t.old ≡ table_words) × (length counts.old ≡ 10) × (length s.now ≤ 16384) × (at ≤ length s.now) × (table < 8) × (5 ≤ bit) × (bit ≤ 7) × (bits_of (get_or s.now at 0) (bit - 2) (bit - 1) ≡ 0 → ⊥) }
    ensures { ReadsSpelled s.now counts.old t.old table at bit add result counts.new t.new }
{
    let format = bits(octet(s, at), bit - 2, bit - 1);
    if format == 1 {
        let len = Cursor { at }.length(s, bit);
        return formed(s, t, counts, table, at, StringForm::Utf16, len, add);
    }
    let form = StringForm::of(2 + method(s, at, bit));
    let len = method_length(s, at, bit, format);
    formed(s, t, counts, table, at, form, len, add)
}

// C.14, spelled: o is the first octet. The length's bits count only where the format is one that is read.
fn spelled(
    s: &[u8],
    t: &mut [u32],
    counts: &mut [u32],
    table: usize,
    at: usize,
    o: u8,
    add: bool,
) -> Reading<EventString>
    requires { (length t.old ≡ table_words) × (length counts.old ≡ 10) × (length s.now ≤ 16384) × (at ≤ length s.now) × (table < 8) × (o ≡ get_or s.now at 0) }
    ensures { ReadsSpelled s.now counts.old t.old table at 5 add result counts.new t.new }
{
    if bits(o, 3, 4) != 0 {
        return in_form(s, t, counts, table, at, 5, add);
    }
    let len = Cursor { at }.length(s, 5);
    formed(s, t, counts, table, at, StringForm::Utf8, len, add)
}

// C.14: a value, comment or content. FF is the empty string.
pub fn value(
    s: &[u8],
    t: &mut [u32],
    counts: &mut [u32],
    table: usize,
    at: usize,
) -> Reading<EventString>
    requires { (length t.old ≡ table_words) × (length counts.old ≡ 10) × (length s.now ≤ 16384) × (at ≤ length s.now) × (5 ≤ table) × (table < 8) × (count_of (unlisted counts.old) table ≤ 256) }
    ensures { ReadsField s.now counts.old t.old result counts.new t.new (value_at link s.now (table_of table) at) }
{
    let o = octet(s, at);
    if o == 0xFF {
        return Ok(Read {
            value: EventString::Empty,
            next: Cursor { at: at + 1 },
        });
    }
    if bits(o, 1, 1) == 1 {
        let number = Cursor { at }.number_at_bit_2(s)?;
        return said(t, counts, table, at, number);
    }
    spelled(s, t, counts, table, at, o, bits(o, 2, 2) == 1)
}

// C.15: a chunk, whose first octet starts with 10.
pub fn chunk(s: &[u8], t: &mut [u32], counts: &mut [u32], at: usize) -> Reading<EventString>
    requires { (length t.old ≡ table_words) × (length counts.old ≡ 10) × (length s.now ≤ 16384) × (at ≤ length s.now) × (count_of (unlisted counts.old) 6 ≤ 256) × (0x80 ≤ get_or s.now at 0) × (get_or s.now at 0 < 0xC0) }
    ensures { ReadsField s.now counts.old t.old result counts.new t.new (literal_at link c15 s.now CHUNKS at) }
{
    let o = octet(s, at);
    if bits(o, 3, 3) == 1 {
        let number = Cursor { at }.number::<4>(s)?;
        return said(t, counts, CONTENT_CHARACTER_CHUNK, at, number);
    }
    let add = bits(o, 4, 4) == 1;
    if bits(o, 5, 6) != 0 {
        return in_form(s, t, counts, CONTENT_CHARACTER_CHUNK, at, 7, add);
    }
    let len = Cursor { at }.length(s, 7);
    let form = StringForm::Utf8;
    formed(s, t, counts, CONTENT_CHARACTER_CHUNK, at, form, len, add)
}
