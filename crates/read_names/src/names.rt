// Names, C.17 and C.18, and namespace declarations, C.12. Each function reads one from octet `at` on.
ghost use Rattle.std.specs.Prelude.{◌≡◌, ◌*◌, ◌<◌, ◌≤◌, length};
ghost use Rattle.format.specs.Numbers.{top};
ghost use Rattle.format.specs.Tables.{link};
ghost use Rattle.fields.specs.Fields.{field_at};
ghost use Rattle.tables.specs.Counts.{table_words};
ghost use Rattle.tables.specs.Search.{number_of_triple};
ghost use Rattle.tables.specs.Rows.{triple_at, entries};
ghost use Rattle.tables.specs.Kept.{count_of, unlisted, layout_of, triple_of};
ghost use Rattle.index.specs.Indexed.{NamesIndexed};
ghost use Rattle.read_names.specs.Names.{name_bit, parts_at, name_at, declared_at};
ghost use Rattle.read_names.specs.Promises.{Tidy, Positive, event_string_at, name_strings_at, ReadsName, ReadsDeclared, NameThere};
ghost use Rattle.read_names.specs.NameContracts.{Addable, NewAbove, AddsName, ReadsNumbered};

use crate::strings::{held, id, optional, string_of};
use crate::{Binding, Parts};
use events::EventString;
use fields::{Cursor, Read, Reading, bits};
use format::refusals::Refusal;
use format::table::{ELEMENT_NAME, LOCAL_NAME, NAMESPACE_NAME, PREFIX};
use tables::{Counts, Row};

// The number of a name of table 8 or 9, C.27 or C.25.
#[tactic(auto, unfolding(tables::specs::Kept::layout_of, format::specs::Names::of_element, format::specs::Names::of_attribute))]
fn number(s: &[u8], at: usize, table: usize) -> Reading<u64>
    ensures { result ≡ field_at (layout_of table).number_forms top (name_bit (layout_of table).table) s.now at }
{
    let cursor = Cursor { at };
    if table == ELEMENT_NAME {
        return cursor.number::<3>(s);
    }
    cursor.number_at_bit_2(s)
}

// The string behind a number of a table of identifying strings; 0 is none.
#[tactic(auto, using(crate::proofs::StringLaws::string_none, crate::proofs::StringLaws::string_there))]
pub fn string_at(t: &[u32], table: usize, number: u32) -> EventString
    requires { (length t.now ≡ table_words) × (table < 5) × (number ≤ 256) }
    ensures { result ≡ event_string_at t.now table number }
{
    if number == 0 {
        return EventString::Absent;
    }
    string_of(t, table, number - 1)
}

// The strings behind a name's number.
#[tactic(auto, using(crate::proofs::NameLaws::row_is, crate::proofs::NameLaws::strings_are_lem))]
pub fn strings_of(t: &[u32], table: usize, number: u32) -> Parts
    requires { NameThere t.now table number }
    ensures { result ≡ name_strings_at t.now table number }
{
    let x = tables::entry(t, table, number - 1);
    Parts {
        prefix: string_at(t, PREFIX, x.a),
        namespace: string_at(t, NAMESPACE_NAME, x.b),
        local: string_at(t, LOCAL_NAME, x.c),
    }
}

// A name's number in its table, 0 if it has none. A local name above `locals` is in no entry, so that it is not searched for.
fn find_name(t: &[u32], index: &[u8], table: usize, n: u32, x: Row, locals: u32) -> u32
    requires { (length t.now ≡ table_words) × (length index.now ≡ 3840) × (table < 10) × (n ≤ 256) × NamesIndexed t.now index.now table n × (locals < x.c → 0 ≡ number_of_triple (entries (triple_at t.now) (768 * table) n) (triple_of x)) }
    ensures { result ≡ number_of_triple (entries (triple_at t.now) (768 * table) n) (triple_of x) }
{
    if locals < x.c {
        return 0;
    }
    index::find_name(t, index, table, n, x.a, x.b, x.c)
}

// A name whose strings end before `next`: its triple is new, and is added. Names that are there have local names up to `locals`.
fn triple(
    t: &mut [u32],
    counts: &mut [u32],
    index: &mut [u8],
    table: usize,
    place: usize,
    next: usize,
    x: Row,
    locals: u32,
) -> Reading<u32>
    requires { Addable counts.old t.old index.old table x × NewAbove counts.old t.old table x locals }
    ensures { AddsName counts.old t.old index.old table place next x result counts.new t.new index.new }
{
    let n = counts[table];
    if find_name(t, index, table, n, x, locals) != 0 {
        return Err(Refusal::Repeat.at(place));
    }
    if Counts::ENTRIES <= n {
        return Err(Refusal::Full.at(place));
    }
    index::enter_name(t, index, table, n, x.a, x.b, x.c, 0);
    counts[table] = n + 1;
    Ok(Read {
        value: n + 1,
        next: Cursor { at: next },
    })
}

// A name in parts, its p and n in the octet b; table 8 is the elements', 9 the attributes'.
pub fn in_parts(
    s: &[u8],
    t: &mut [u32],
    counts: &mut [u32],
    index: &mut [u8],
    table: usize,
    at: usize,
    b: u8,
) -> Reading<u32>
    requires { (Tidy s.now counts.old t.old index.old) × (at < length s.now) × (8 ≤ table) × (table < 10) }
    ensures { ReadsName s.now counts.old t.old table result counts.new t.new index.new (parts_at link (layout_of table) s.now b at) }
{
    let pn = bits(b, 7, 8);
    if pn == 2 {
        return Err(Refusal::Structure.at(at));
    }
    let first = optional(2 <= pn, s, t, counts, index, PREFIX, at + 1);
    let Ok(prefix) = first else {
        return first;
    };
    let there = bits(b, 8, 8) == 1;
    let second = optional(there, s, t, counts, index, NAMESPACE_NAME, prefix.next.at);
    let Ok(namespace) = second else {
        return second;
    };
    let locals = counts[LOCAL_NAME];
    let third = id(s, t, counts, index, LOCAL_NAME, namespace.next.at);
    let Ok(local) = third else {
        return third;
    };
    let x = Row {
        a: prefix.value,
        b: namespace.value,
        c: local.value,
    };
    triple(t, counts, index, table, at, local.next.at, x, locals)
}

// A name by number.
pub fn numbered(s: &[u8], counts: &[u32], table: usize, at: usize) -> Reading<u32>
    requires { (length counts.now ≡ 10) × (8 ≤ table) × (table < 10) × (count_of (unlisted counts.now) table ≤ 256) }
    ensures { ReadsNumbered s.now counts.now table at result × Positive result }
{
    held(counts, table, at, number(s, at, table))
}

// A name whose part of its first octet is b: by number, or in parts.
pub fn name(
    s: &[u8],
    t: &mut [u32],
    counts: &mut [u32],
    index: &mut [u8],
    table: usize,
    at: usize,
    b: u8,
) -> Reading<u32>
    requires { (Tidy s.now counts.old t.old index.old) × (at < length s.now) × (8 ≤ table) × (table < 10) }
    ensures { ReadsName s.now counts.old t.old table result counts.new t.new index.new (name_at link (layout_of table) s.now b at) }
{
    if b < tables::parts_bits(table) {
        return numbered(s, counts, table, at);
    }
    in_parts(s, t, counts, index, table, at, b)
}

// A namespace declaration, 110011pn. F0 ends a list of them that has no member.
pub fn declared(
    s: &[u8],
    t: &mut [u32],
    counts: &mut [u32],
    index: &mut [u8],
    at: usize,
) -> Reading<Binding>
    requires { (Tidy s.now counts.old t.old index.old) × (at ≤ length s.now) }
    ensures { ReadsDeclared s.now counts.old t.old result counts.new t.new index.new (declared_at link s.now at) }
{
    if s.len() <= at {
        return Err(Refusal::Truncated.at(at));
    }
    let b = s[at];
    if b == 0xF0 {
        return Err(Refusal::Structure.at(at));
    }
    if 0xF0 < b {
        return Err(Refusal::Padding.at(at));
    }
    if bits(b, 1, 6) != 0x33 {
        return Err(Refusal::Code.at(at));
    }
    let prefix = optional(2 <= bits(b, 7, 8), s, t, counts, index, PREFIX, at + 1)?;
    let there = bits(b, 8, 8) == 1;
    let namespace = optional(there, s, t, counts, index, NAMESPACE_NAME, prefix.next.at)?;
    Ok(Read {
        value: Binding {
            prefix: prefix.value,
            namespace: namespace.value,
        },
        next: namespace.next,
    })
}
