// A document's head read: the entries that it lists become the tables' first ones, after the built-in entries. Each
// function answers where the next field starts, or the refusal; what was listed is in the tables.
// May depend on format, fields, tables, index, events and read_names.
#![tactic(auto)]

mod listed;

ghost use Rattle.std.specs.Prelude.{◌≡◌, ◌-◌, ◌/◌, ◌%◌, ◌^◌, ◌<◌, ◌≤◌, length, eqb};
ghost use Rattle.format.specs.Tables.{link};
ghost use Rattle.format.specs.Head.{ten_tables};
ghost use Rattle.read_names.specs.Promises.{Tidy};
ghost use Rattle.read_head.specs.Head.{entries_at, tables_at, head_at};
ghost use Rattle.read_head.specs.Promises.{Passes, table_at, present_at};

use crate::listed::entry;
use fields::Cursor;
use format::refusals::{Fault, Refusal};
use tables::Counts;

// The presence bit of a table; the last one's is the lowest.
fn present(presence: u32, table: usize) -> bool
    requires { table < 10 }
    ensures { result ≡ eqb (presence / 2 ^ (9 - table) % 2) 1 }
{
    let below = 9 - table;
    (presence >> below) % 2 == 1
}

// So many entries of a table.
fn entries(
    s: &[u8],
    t: &mut [u32],
    counts: &mut [u32],
    index: &mut [u8],
    table: usize,
    n: u64,
    at: usize,
) -> Result<usize, Fault>
    requires { (Tidy s.now counts.old t.old index.old) × (at ≤ length s.now) × (table < 10) }
    ensures { Passes s.now counts.old t.old result counts.new t.new index.new (entries_at link (table_at table) s.now n at) }
{
    let mut place = at;
    for _i in 0..n {
        place = entry(s, t, counts, index, table, place)?;
    }
    Ok(place)
}

// A table, if its presence bit says that it is there: how many entries it lists, and these.
fn table(
    s: &[u8],
    t: &mut [u32],
    counts: &mut [u32],
    index: &mut [u8],
    presence: u32,
    table: usize,
    at: usize,
) -> Result<usize, Fault>
    requires { (Tidy s.now counts.old t.old index.old) × (at ≤ length s.now) × (table < 10) }
    ensures { Passes s.now counts.old t.old result counts.new t.new index.new (present_at (table_at table) (presence / 2 ^ (9 - table) % 2) s.now at) }
{
    if !present(presence, table) {
        return Ok(at);
    }
    let n = Cursor { at }.count(s)?;
    entries(s, t, counts, index, table, n.value, n.next.at)
}

// The ten tables, one after the other.
fn tables(
    s: &[u8],
    t: &mut [u32],
    counts: &mut [u32],
    index: &mut [u8],
    presence: u32,
    at: usize,
) -> Result<usize, Fault>
    requires { (Tidy s.now counts.old t.old index.old) × (at ≤ length s.now) }
    ensures { Passes s.now counts.old t.old result counts.new t.new index.new (tables_at link ten_tables presence s.now at) }
{
    let mut place = at;
    for i in 0..Counts::TABLES {
        place = table(s, t, counts, index, presence, i, place)?;
    }
    Ok(place)
}

// The head, from the octet after the one that announces it.
// Wrong would be: an entry that the head lists twice and that is accepted, in a table of identifying strings or of
// names.
// Wrong would be: the entries of a table put into the one before it, as when the presence bits are read from the wrong
// end.
pub fn head(
    s: &[u8],
    t: &mut [u32],
    counts: &mut [u32],
    index: &mut [u8],
    at: usize,
) -> Result<usize, Fault>
    requires { (Tidy s.now counts.old t.old index.old) × (at ≤ length s.now) }
    ensures { Passes s.now counts.old t.old result counts.new t.new index.new (head_at link s.now at) }
{
    if s.len() <= at {
        return Err(Refusal::Truncated.at(at));
    }
    let first = s[at];
    if 0x20 <= first {
        return Err(Refusal::Padding.at(at));
    }
    if 4 <= first {
        return Err(Refusal::OptionalPart.at(at));
    }
    if s.len() <= at + 1 {
        return Err(Refusal::Truncated.at(at));
    }
    let presence = 256 * u32::from(first) + u32::from(s[at + 1]);
    if presence == 0 {
        return Err(Refusal::Structure.at(at));
    }
    tables(s, t, counts, index, presence, at + 2)
}
