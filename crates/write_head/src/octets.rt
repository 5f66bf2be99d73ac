// The head into the output. Its octets are counted on where the output has no room for them.
ghost use Rattle.std.specs.Prelude.{◌≡◌, ◌+◌, ◌-◌, ◌*◌, ◌^◌, ◌≤◌, ◌<◌, length, get_or};
ghost use Rattle.format.specs.Numbers.{top};
ghost use Rattle.format.specs.declared.StringForm.TheVariants.{Utf8};
ghost use Rattle.tables.specs.Located.{octets_of};
ghost use Rattle.tables.specs.Rows.{table_of};
ghost use Rattle.events.specs.Records.{located_of};
ghost use Rattle.events.specs.Words.{string_form};
ghost use Rattle.write_names.specs.Promises.{Spells};
ghost use Rattle.fields.specs.PutContracts.{Puts};
ghost use Rattle.write_head.specs.Head.{entry_octets, listing, part_octets, name_octets};
ghost use Rattle.write_head.specs.RowContracts.{Laid, Right, Texts, Few, Fits, join_below, row_most, table_most, row_octets, rows_octets, table_octets_of, head_of};

use crate::given::{ROW, form_given, presence, rows_of};
use events::EventString;
use fields::put::{put, put_count, put_length, put_number_at_bit_2, put_part};
use format::table::{ATTRIBUTE_VALUE, ELEMENT_NAME};
use tables::Counts;

// A string: an identifying one as C.22 has it, its length and its octets; another as C.19 does, in the form that is chosen for it.
fn put_string(out: &mut [u8], at: usize, table: usize, text: &[u8], x: EventString) -> usize
    requires { (at < 2 ^ 31) × (table < 8) × Spells text.now x × (table < 5 → string_form x ≡ Utf8) × (length text.now ≤ 16384) }
    ensures { Puts out.old at result out.new (entry_octets (table_of table) (listing (table_of table) (octets_of text.now (located_of x)))) × (result ≤ at + row_most) }
{
    let n = write_names::octets_of(text, x);
    if ATTRIBUTE_VALUE <= table {
        return write_names::put_string(out, at, 5, 0, text, x, n);
    }
    let behind = put_length(out, at, 2, 0, n);
    put_part(out, behind, text, x.place() as usize, n)
}

// A part of a name: its number, unless there is none.
fn put_number(out: &mut [u8], at: usize, n: u32) -> usize
    requires { (at < 2 ^ 32) × (n ≤ top) }
    ensures { Puts out.old at result out.new (part_octets n) × (result ≤ at + 3) }
{
    if n == 0 {
        return at;
    }
    put_number_at_bit_2(out, at, 0, n)
}

// A name: an octet that says which of prefix and namespace it has, and the numbers of its parts.
fn put_name(out: &mut [u8], at: usize, prefix: u32, namespace: u32, local: u32) -> usize
    requires { (at < 2 ^ 31) × (prefix ≤ top) × (namespace ≤ top) × (local ≤ top) }
    ensures { Puts out.old at result out.new (name_octets (record { prefix = prefix; namespace = namespace; local = local })) × (result ≤ at + row_most) }
{
    put(
        out,
        at,
        2 * u8::from(prefix != 0) + u8::from(namespace != 0),
    );
    let behind = put_number(out, at + 1, prefix);
    let then = put_number(out, behind, namespace);
    put_number(out, then, local)
}

fn put_row(out: &mut [u8], at: usize, given: &[u32], text: &[u8], table: usize, row: usize) -> usize
    requires { (at < 2 ^ 31) × (table < 10) × (row + 3 ≤ length given.now) × (length text.now ≤ 16384) × Fits text.now given.now table row }
    ensures { Puts out.old at result out.new (row_octets text.now given.now table row) × (result ≤ at + row_most) }
{
    if table < ELEMENT_NAME {
        let form = form_given(given[row]);
        let x = EventString::Stretch(form, given[row + 1], given[row + 2]);
        return put_string(out, at, table, text, x);
    }
    put_name(out, at, given[row], given[row + 1], given[row + 2])
}

fn put_rows(out: &mut [u8], from: usize, given: &[u32], text: &[u8], table: usize) -> usize
    requires { (from < 2 ^ 30) × (table < 10) × Laid given.now × Right text.now given.now × Few given.now × (length text.now ≤ 16384) × Texts text.now given.now }
    ensures { Puts out.old from result out.new (rows_octets text.now given.now table (get_or given.now table 0)) × (result ≤ from + 256 * row_most) }
{
    let rows = rows_of(given, table);
    let mut at = from;
    for i in 0..given[table] as usize {
        at = put_row(out, at, given, text, table, rows + ROW * i);
    }
    at
}

// A table: how many entries it lists, and these; nothing of one that lists none.
fn put_table(out: &mut [u8], at: usize, given: &[u32], text: &[u8], table: usize) -> usize
    requires { (at < 2 ^ 29) × (table < 10) × Laid given.now × Right text.now given.now × Few given.now × (length text.now ≤ 16384) × Texts text.now given.now }
    ensures { Puts out.old at result out.new (table_octets_of text.now given.now table) × (result ≤ at + table_most) }
{
    let n = given[table];
    if n == 0 {
        return at;
    }
    let behind = put_count(out, at, n);
    put_rows(out, behind, given, text, table)
}

fn put_tables(out: &mut [u8], from: usize, given: &[u32], text: &[u8]) -> usize
    requires { (from ≤ 7) × Laid given.now × Right text.now given.now × Few given.now × (length text.now ≤ 16384) × Texts text.now given.now }
    ensures { Puts out.old from result out.new (join_below (table_octets_of text.now given.now) 10) }
{
    let mut at = from;
    for table in 0..Counts::TABLES {
        at = put_table(out, at, given, text, table);
    }
    at
}

// All octets before the body: the identification, the bit of the head, the presence bits and the tables.
pub fn put_head(out: &mut [u8], given: &[u32], text: &[u8]) -> usize
    requires { Laid given.now × Right text.now given.now × Few given.now × (length text.now ≤ 16384) × Texts text.now given.now }
    ensures { Puts out.old 0 result out.new (head_of text.now given.now) }
{
    let header = fields::HEADER;
    let fifth = put_part(out, 0, &header, 0, 4);
    put(out, fifth, fields::HEAD);
    let bits = presence(given);
    put(out, fifth + 1, (bits / 256) as u8);
    put(out, fifth + 2, (bits % 256) as u8);
    put_tables(out, fifth + 3, given, text)
}
