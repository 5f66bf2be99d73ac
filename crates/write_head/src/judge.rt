// Which given entries are right: each rule is asked of every row, and has the refusal of what breaks it.
ghost use Rattle.std.specs.Prelude.{◌≡◌, ℕ, true, false, ◌+◌, ◌*◌, ◌≤◌, ◌<◌, length, get_or};
ghost use Rattle.tables.specs.Rows.{triple_at};
ghost use Rattle.events.specs.FromWords.{string_from};
ghost use Rattle.events.specs.WellMade.{is_stretch, is_string};
ghost use Rattle.write_head.specs.RowContracts.{below, Laid, is_right_name, keeps_row, few_table, Right, Judged};

use crate::given::{ROW, form_given, rows_of};
use crate::repeats::is_new;
use events::{lies_in, tags};
use format::refusals::Refusal;
use format::table::{ATTRIBUTE_VALUE, ELEMENT_NAME, LOCAL_NAME, NAMESPACE_NAME, PREFIX};
use tables::Counts;

// An identifying string is a stretch of the text in utf-8: no mark, neither absent nor empty.
fn is_stretch(given: &[u32], text: &[u8], at: usize) -> bool
    requires { at + 3 ≤ length given.now }
    ensures { result ≡ is_stretch text.now (string_from given.now at) }
{
    given[at] == tags::STRETCH && lies_in(text, given[at + 1], given[at + 2])
}

// Another string is one in any form; the tags of the other forms are the last.
fn is_string(given: &[u32], text: &[u8], at: usize) -> bool
    requires { at + 3 ≤ length given.now }
    ensures { result ≡ is_string text.now (string_from given.now at) }
{
    let tag = given[at];
    let is_stretch = tag == tags::STRETCH || (tags::UTF16 <= tag && tag <= tags::LONG);
    is_stretch && lies_in(text, given[at + 1], given[at + 2])
}

// A name's numbers are those of entries, built-in or given, whatever the tables take; it has a local name, and a prefix only with a namespace.
fn is_name(given: &[u32], at: usize) -> bool
    requires { (at + 3 ≤ length given.now) × (10 ≤ length given.now) }
    ensures { result ≡ is_right_name given.now (triple_at given.now at) }
{
    let prefix = given[at];
    let namespace = given[at + 1];
    let local = given[at + 2];
    prefix as usize <= 1 + given[PREFIX] as usize
        && namespace as usize <= 1 + given[NAMESPACE_NAME] as usize
        && local != 0
        && local <= given[LOCAL_NAME]
        && (prefix == 0 || namespace != 0)
}

// EVENT: row i of a table is one by its kind.
fn is_right(given: &[u32], text: &[u8], table: usize, i: usize) -> bool
    requires { Laid given.now × (table < 10) × (i < get_or given.now table 0) }
    ensures { result ≡ keeps_row 16 text.now given.now table i }
{
    let at = rows_of(given, table) + ROW * i;
    if table < ATTRIBUTE_VALUE {
        return is_stretch(given, text, at);
    }
    if table < ELEMENT_NAME {
        return is_string(given, text, at);
    }
    is_name(given, at)
}

// TEXT: row i of a table is text, if it is a string.
fn is_text(given: &[u32], text: &[u8], table: usize, i: usize) -> bool
    requires { Laid given.now × (table < 10) × (i < get_or given.now table 0) × Right text.now given.now }
    ensures { result ≡ keeps_row 9 text.now given.now table i }
{
    if ELEMENT_NAME <= table {
        return true;
    }
    let at = rows_of(given, table) + ROW * i;
    let place = given[at + 1] as usize;
    let size = given[at + 2] as usize;
    forms::is_text(text, form_given(given[at]), place, place + size)
}

// Every row of every table keeps to a rule.
fn all_keep<F: Fn(usize, usize) -> bool>(given: &[u32], keeps: F) -> bool
    requires counts { 10 ≤ length given.now }
    requires rows { (t i : ℕ) → t < 10 → i < get_or given.now t 0 → F.pre keeps t i }
    ensures all { result ≡ true → (t i : ℕ) → t < 10 → i < get_or given.now t 0 → F.post keeps t i true }
    ensures one { result ≡ false → (t : ℕ) × (i : ℕ) × (t < 10) × (i < get_or given.now t 0) × F.post keeps t i false }
{
    for table in 0..Counts::TABLES {
        for i in 0..given[table] as usize {
            if !keeps(table, i) {
                return false;
            }
        }
    }
    true
}

// No table would have more entries than it takes. One entry is built into each of the first two.
fn are_few(given: &[u32]) -> bool
    requires { 10 ≤ length given.now }
    ensures { result ≡ below (few_table given.now) 10 }
{
    for table in 0..Counts::TABLES {
        let built_in = usize::from(table < LOCAL_NAME);
        if (Counts::ENTRIES as usize) < built_in + given[table] as usize {
            return false;
        }
    }
    true
}

// What is wrong with the entries, one judgement over all of them; Ok if nothing is, but that one may be a repeat. Adding finds that out at less cost, which needs
// room for all: where a table has none, repeats are looked for here.
pub fn judge(given: &[u32], text: &[u8]) -> Result<(), Refusal>
    requires { Laid given.now }
    ensures { Judged text.now given.now result }
{
    if !all_keep(given, |table, i| is_right(given, text, table, i)) {
        return Err(Refusal::Event);
    }
    if !all_keep(given, |table, i| is_text(given, text, table, i)) {
        return Err(Refusal::Text);
    }
    if are_few(given) {
        return Ok(());
    }
    if !all_keep(given, |table, i| is_new(given, text, table, i)) {
        return Err(Refusal::Repeat);
    }
    Err(Refusal::Full)
}
