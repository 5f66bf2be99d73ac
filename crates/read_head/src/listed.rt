// One entry of a table that the head lists: C.2.5.3, C.2.5.4, C.2.5.5. Each function reads one from octet `at` on.
ghost use Rattle.std.specs.Prelude.{◌≡◌, ◌<◌, ◌≤◌, length, get_or};
ghost use Rattle.format.specs.Tables.{link};
ghost use Rattle.tables.specs.Counts.{table_words};
ghost use Rattle.tables.specs.Rows.{table_of};
ghost use Rattle.tables.specs.Kept.{count_of, unlisted, name_table_of};
ghost use Rattle.read_names.specs.Promises.{Tidy};
ghost use Rattle.read_names.specs.NameContracts.{Addable, AddsName};
ghost use Rattle.read_head.specs.Head.{identifying_at, another_at, surrogate_at, entry_at};
ghost use Rattle.read_head.specs.Promises.{Passes, PassesBeside, ReadsPart, table_at};

use fields::{Cursor, Read, Reading, bits};
use format::StringForm;
use format::refusals::{Fault, Refusal};
use format::table::{ATTRIBUTE_VALUE, ELEMENT_NAME, LOCAL_NAME, NAMESPACE_NAME, PREFIX};
use tables::{Counts, Row};

// An identifying string, of one of the tables 0 to 4: it is spelled.
fn identifying(
    s: &[u8],
    t: &mut [u32],
    counts: &mut [u32],
    index: &mut [u8],
    table: usize,
    at: usize,
) -> Result<usize, Fault>
    requires { (Tidy s.now counts.old t.old index.old) × (at ≤ length s.now) × (table < 5) }
    ensures { Passes s.now counts.old t.old result counts.new t.new index.new (identifying_at link (table_of table) s.now at) }
{
    if 0x80 <= read_names::octet(s, at) {
        return Err(Refusal::Padding.at(at));
    }
    let read = read_names::id(s, t, counts, index, table, at)?;
    Ok(read.next.at)
}

// Another string, of one of the tables 5 to 7, which are not searched.
fn another(
    s: &[u8],
    t: &mut [u32],
    counts: &mut [u32],
    table: usize,
    at: usize,
) -> Result<usize, Fault>
    requires { (length t.old ≡ table_words) × (length counts.old ≡ 10) × (length s.now ≤ 16384) × (at ≤ length s.now) × (5 ≤ table) × (table < 8) }
    ensures { PassesBeside s.now counts.old t.old result counts.new t.new (another_at link (table_of table) s.now at) }
{
    let o = read_names::octet(s, at);
    if 0x40 <= o {
        return Err(Refusal::Padding.at(at));
    }
    if bits(o, 3, 4) != 0 {
        let read = read_names::in_form(s, t, counts, table, at, 5, true)?;
        return Ok(read.next.at);
    }
    let length = Cursor { at }.length(s, 5);
    let read = read_names::formed(s, t, counts, table, at, StringForm::Utf8, length, true)?;
    Ok(read.next.at)
}

// C.16: a part of a name, by its number, if its presence bit says that it is there; else its number is 0.
fn part(s: &[u8], counts: &[u32], table: usize, at: usize, there: bool) -> Reading<u32>
    requires { (length counts.now ≡ 10) × (table < 10) × (count_of (unlisted counts.now) table ≤ 256) × (at ≤ length s.now) }
    ensures { ReadsPart s.now counts.now table at there result }
{
    if !there {
        return Ok(Read {
            value: 0,
            next: Cursor { at },
        });
    }
    let o = read_names::octet(s, at);
    // The code 111 is none, whatever bit 1 is.
    if bits(o, 2, 4) == 7 {
        return Err(Refusal::Code.at(at));
    }
    if 0x80 <= o {
        return Err(Refusal::Padding.at(at));
    }
    read_names::held(counts, table, at, Cursor { at }.number_at_bit_2(s))
}

// A name whose parts end before `next`: its triple is new, and is added. It does not share `triple` of read_names: with
// a second caller the compiler would no longer put that in line, and a new name of a body would cost up to a tenth more.
fn triple(
    t: &mut [u32],
    counts: &mut [u32],
    index: &mut [u8],
    table: usize,
    place: usize,
    next: usize,
    x: Row,
) -> Reading<u32>
    requires { Addable counts.old t.old index.old table x }
    ensures { AddsName counts.old t.old index.old table place next x result counts.new t.new index.new }
{
    let n = counts[table];
    if index::find_name(t, index, table, n, x.a, x.b, x.c) != 0 {
        return Err(Refusal::Repeat.at(place));
    }
    if Counts::ENTRIES <= n {
        return Err(Refusal::Full.at(place));
    }
    index::enter_name(t, index, table, n, x.a, x.b, x.c, 0);
    counts[table] = n + 1;
    Ok(Read {
        value: n + 1,
        next: Cursor { at: next },
    })
}

// A name whose first octet is b, 0, 1 or 3: its parts, and then it is added.
fn parts(
    s: &[u8],
    t: &mut [u32],
    counts: &mut [u32],
    index: &mut [u8],
    table: usize,
    at: usize,
    b: u8,
) -> Result<usize, Fault>
    requires { (Tidy s.now counts.old t.old index.old) × (at < length s.now) × (8 ≤ table) × (table < 10) × (b ≡ get_or s.now at 0) × (b < 4) × (b ≡ 2 → ⊥) }
    ensures { Passes s.now counts.old t.old result counts.new t.new index.new (surrogate_at link (name_table_of table) s.now at) }
{
    let prefix = part(s, counts, PREFIX, at + 1, 2 <= b)?;
    let namespace = part(
        s,
        counts,
        NAMESPACE_NAME,
        prefix.next.at,
        bits(b, 8, 8) == 1,
    )?;
    let local = part(s, counts, LOCAL_NAME, namespace.next.at, true)?;
    let x = Row {
        a: prefix.value,
        b: namespace.value,
        c: local.value,
    };
    let added = triple(t, counts, index, table, at, local.next.at, x)?;
    Ok(added.next.at)
}

// A name of table 8 or 9.
fn surrogate(
    s: &[u8],
    t: &mut [u32],
    counts: &mut [u32],
    index: &mut [u8],
    table: usize,
    at: usize,
) -> Result<usize, Fault>
    requires { (Tidy s.now counts.old t.old index.old) × (at ≤ length s.now) × (8 ≤ table) × (table < 10) }
    ensures { Passes s.now counts.old t.old result counts.new t.new index.new (surrogate_at link (name_table_of table) s.now at) }
{
    if s.len() <= at {
        return Err(Refusal::Truncated.at(at));
    }
    let b = s[at];
    if 4 <= b {
        return Err(Refusal::Padding.at(at));
    }
    if b == 2 {
        return Err(Refusal::Structure.at(at));
    }
    parts(s, t, counts, index, table, at, b)
}

// An entry of a table.
pub fn entry(
    s: &[u8],
    t: &mut [u32],
    counts: &mut [u32],
    index: &mut [u8],
    table: usize,
    at: usize,
) -> Result<usize, Fault>
    requires { (Tidy s.now counts.old t.old index.old) × (at ≤ length s.now) × (table < 10) }
    ensures { Passes s.now counts.old t.old result counts.new t.new index.new (entry_at link (table_at table) s.now at) }
{
    if table < ATTRIBUTE_VALUE {
        return identifying(s, t, counts, index, table, at);
    }
    if table < ELEMENT_NAME {
        return another(s, t, counts, table, at);
    }
    surrogate(s, t, counts, index, table, at)
}
