// The given entries as the first entries of the tables, behind the built-in ones. The index that takes an entry tells whether it was there: no search of its own looks for repeats.
ghost use Rattle.std.specs.Prelude.{◌≡◌, true, ℕ, ◌+◌, ◌≤◌, ◌<◌, length, get_or};
ghost use Rattle.format.specs.Tables.{adding, adding_name};
ghost use Rattle.tables.specs.Rows.{table_of, triple_at};
ghost use Rattle.format.specs.declared.StringForm.TheVariants.{Utf8};
ghost use Rattle.events.specs.Words.{string_form};
ghost use Rattle.tables.specs.Kept.{name_table_of};
ghost use Rattle.write_names.specs.Promises.{tables_in, InOrder, Spells, held_as};
ghost use Rattle.write_head.specs.RowContracts.{Laid, located, Right, Texts, IsRow, Few, start_count, new_in, keeps_table, keeps, add_row, add_rows, add_tables, Grown, Tells};

use crate::given::{ROW, form_given, rows_of};
use events::EventString;
use format::refusals::Refusal;
use format::table::{ATTRIBUTE_VALUE, ELEMENT_NAME};
use tables::{Counts, Row};

// What is given is new, or it is a repeat.
fn new_if(new: bool) -> Result<(), Refusal>
    ensures { Tells new result }
{
    if new { Ok(()) } else { Err(Refusal::Repeat) }
}

// The number of a string in its table, 0 where it has none.
fn number_of(
    text: &[u8],
    t: &[u32],
    counts: &[u32],
    index: &[u8],
    table: usize,
    x: EventString,
) -> u32
    requires { InOrder text.now counts.now t.now index.now × (table < 8) × Spells text.now x × (table < 5 → string_form x ≡ Utf8) }
    ensures { (result ≡ held_as text.now (table_of table) (tables_in counts.now t.now) x) × (result ≤ 256) }
{
    if table < ATTRIBUTE_VALUE {
        return write_names::number_of(text, t, counts, index, table, x);
    }
    write_names::number_said(text, t, counts, index, table, x)
}

// The string in the row at a word; one that its table holds already gets a number of its own, and keeps the lowest. Only a value, a chunk or another string may be
// a repeat. By `number_of`, as the writer of strings does it: with a second caller of what that calls, documents without a head cost more to write.
fn add_string(
    text: &[u8],
    given: &[u32],
    t: &mut [u32],
    counts: &mut [u32],
    index: &mut [u8],
    table: usize,
    at: usize,
) -> Result<(), Refusal>
    requires { InOrder text.now counts.old t.old index.old × (table < 8) × (get_or counts.old table 0 < 256) × (at + 3 ≤ length given.now) × IsRow text.now given.now table at }
    ensures { Grown text.now table 1 (adding (tables_in counts.old t.old) (table_of table) (located given.now at)) counts.old counts.new t.new index.new × Tells (new_in text.now given.now (tables_in counts.old t.old) table at) result }
{
    let form = form_given(given[at]);
    let place = given[at + 1];
    let size = given[at + 2];
    let h = index::bucket_said(text, form, place as usize, size as usize);
    let n = counts[table];
    let known = number_of(
        text,
        t,
        counts,
        index,
        table,
        EventString::Stretch(form, place, size),
    );
    let row = Row {
        a: place,
        b: size,
        c: form.number(),
    };
    index::enter_in(text, t, index, table, n, row, known, h);
    counts[table] = n + 1;
    new_if(known == 0 || ATTRIBUTE_VALUE <= table)
}

// The name in the row at a word.
fn add_name(
    text: &[u8],
    given: &[u32],
    t: &mut [u32],
    counts: &mut [u32],
    index: &mut [u8],
    table: usize,
    at: usize,
) -> Result<(), Refusal>
    requires { InOrder text.now counts.old t.old index.old × (8 ≤ table) × (table < 10) × (get_or counts.old table 0 < 256) × (at + 3 ≤ length given.now) }
    ensures { Grown text.now table 1 (adding_name (tables_in counts.old t.old) (name_table_of table) (triple_at given.now at)) counts.old counts.new t.new index.new × Tells (new_in text.now given.now (tables_in counts.old t.old) table at) result }
{
    let a = given[at];
    let b = given[at + 1];
    let c = given[at + 2];
    let n = counts[table];
    let found = index::find_name(t, index, table, n, a, b, c);
    index::enter_name(t, index, table, n, a, b, c, found);
    counts[table] = n + 1;
    new_if(found == 0)
}

fn add_row(
    text: &[u8],
    given: &[u32],
    t: &mut [u32],
    counts: &mut [u32],
    index: &mut [u8],
    table: usize,
    at: usize,
) -> Result<(), Refusal>
    requires { InOrder text.now counts.old t.old index.old × (table < 10) × (get_or counts.old table 0 < 256) × (at + 3 ≤ length given.now) × (table < 8 → IsRow text.now given.now table at) }
    ensures { Grown text.now table 1 (add_row given.now (tables_in counts.old t.old) table at) counts.old counts.new t.new index.new × Tells (new_in text.now given.now (tables_in counts.old t.old) table at) result }
{
    if table < ELEMENT_NAME {
        return add_string(text, given, t, counts, index, table, at);
    }
    add_name(text, given, t, counts, index, table, at)
}

// The rows of a table, up to one that is held already.
fn add_rows(
    text: &[u8],
    given: &[u32],
    t: &mut [u32],
    counts: &mut [u32],
    index: &mut [u8],
    table: usize,
) -> Result<(), Refusal>
    requires { InOrder text.now counts.old t.old index.old × (table < 10) × Laid given.now × Right text.now given.now × (get_or counts.old table 0 + get_or given.now table 0 ≤ 256) × (tables_in counts.old t.old ≡ add_tables given.now table) × Texts text.now given.now }
    ensures { Tells (keeps_table 11 text.now given.now table) result × (keeps_table 11 text.now given.now table ≡ true → Grown text.now table (get_or given.now table 0) (add_rows given.now (tables_in counts.old t.old) table (get_or given.now table 0)) counts.old counts.new t.new index.new) }
{
    let rows = rows_of(given, table);
    for i in 0..given[table] as usize {
        add_row(text, given, t, counts, index, table, rows + ROW * i)?;
    }
    Ok(())
}

// The rows of all tables, on tables as every document starts with them; or up to one that is held already, and what is in the tables then is not told.
pub fn add_tables(
    text: &[u8],
    given: &[u32],
    t: &mut [u32],
    counts: &mut [u32],
    index: &mut [u8],
) -> Result<(), Refusal>
    requires { InOrder text.now counts.old t.old index.old × Laid given.now × Right text.now given.now × Few given.now × (tables_in counts.old t.old ≡ add_tables given.now 0) × ((j : ℕ) → get_or counts.old j 0 ≡ start_count j) × Texts text.now given.now }
    ensures { Tells (keeps 11 text.now given.now) result × (keeps 11 text.now given.now ≡ true → (tables_in counts.new t.new ≡ add_tables given.now 10) × InOrder text.now counts.new t.new index.new) }
{
    for table in 0..Counts::TABLES {
        add_rows(text, given, t, counts, index, table)?;
    }
    Ok(())
}
