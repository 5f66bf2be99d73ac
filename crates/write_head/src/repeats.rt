// Whether a given entry is built in or is given before: each is looked for among those before it. Only where a table would be too full: elsewhere `adding` finds it with the index.
ghost use Rattle.std.specs.Prelude.{◌≡◌, ◌+◌, ◌*◌, ◌≤◌, ◌<◌, length, get_or};
ghost use Rattle.write_head.specs.Given.{rows_of};
ghost use Rattle.write_head.specs.RowContracts.{Laid, starts_row, same_row, held_row, keeps_row, Right};

use crate::given::{ROW, rows_of};
use format::table::{ATTRIBUTE_VALUE, ELEMENT_NAME};

fn is_built_in(given: &[u32], text: &[u8], table: usize, at: usize) -> bool
    requires { (at + 3 ≤ length given.now) × (table < 8 → (get_or given.now at 0 ≡ 2) × (get_or given.now (at + 1) 0 + get_or given.now (at + 2) 0 ≤ length text.now)) }
    ensures { result ≡ starts_row text.now given.now table at }
{
    table < ELEMENT_NAME
        && tables::is_built_in(text, table, given[at + 1] as usize, given[at + 2] as usize)
}

fn is_same(given: &[u32], text: &[u8], table: usize, a: usize, b: usize) -> bool
    requires { (a + 3 ≤ length given.now) × (b + 3 ≤ length given.now) × (table < 8 → (get_or given.now a 0 ≡ 2) × (get_or given.now (a + 1) 0 + get_or given.now (a + 2) 0 ≤ length text.now) × (get_or given.now b 0 ≡ 2) × (get_or given.now (b + 1) 0 + get_or given.now (b + 2) 0 ≤ length text.now)) }
    ensures { result ≡ same_row text.now given.now table a b }
{
    if table < ELEMENT_NAME {
        return tables::same_octets(
            text,
            given[a + 1] as usize,
            given[a + 2] as usize,
            text,
            given[b + 1] as usize,
            given[b + 2] as usize,
        );
    }
    given[a] == given[b] && given[a + 1] == given[b + 1] && given[a + 2] == given[b + 2]
}

// Identifying strings and names alone: these are in utf-8.
fn is_held(given: &[u32], text: &[u8], table: usize, i: usize) -> bool
    requires { Laid given.now × (table < 10) × (i < get_or given.now table 0) × Right text.now given.now × (table < 8 → table < 5) }
    ensures { result ≡ held_row text.now given.now table i }
{
    let rows = rows_of(given, table);
    if is_built_in(given, text, table, rows + ROW * i) {
        return true;
    }
    for j in 0..i {
        if is_same(given, text, table, rows + ROW * j, rows + ROW * i) {
            return true;
        }
    }
    false
}

// Row i of a table is new, or may be a repeat: a value, a chunk, another string.
pub fn is_new(given: &[u32], text: &[u8], table: usize, i: usize) -> bool
    requires { Laid given.now × (table < 10) × (i < get_or given.now table 0) × Right text.now given.now }
    ensures { result ≡ keeps_row 11 text.now given.now table i }
{
    let may_repeat = ATTRIBUTE_VALUE <= table && table < ELEMENT_NAME;
    may_repeat || !is_held(given, text, table, i)
}
