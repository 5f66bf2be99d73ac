// Where the given words have what: ten counts, then three words for each entry, table by table.
ghost use Rattle.std.specs.Prelude.{◌≡◌, ◌+◌, ◌*◌, ◌≤◌, ◌<◌, length, get_or};
ghost use Rattle.write_head.specs.Given.{entries_before, is_given, rows_of};
ghost use Rattle.write_head.specs.RowContracts.{form_given, Laid, presence_of};

use events::tags;
use format::StringForm;
use tables::Counts;

// Words of an entry.
pub const ROW: usize = 3;

// The form of a string by its tag, if it is one that a stretch has.
#[tactic(auto, unfolding(crate::specs::RowContracts::form_given))]
pub fn form_given(tag: u32) -> StringForm
    ensures { result ≡ form_given tag }
{
    StringForm::of(tag.saturating_sub(tags::BEFORE_FORMS))
}

// How many entries are given before those of a table. Counts may be any numbers; ten of them are summed without overflow.
fn entries_before(given: &[u32], table: usize) -> usize
    requires { (10 ≤ length given.now) × (table ≤ 10) }
    ensures { (result ≡ entries_before given.now table) × (result ≤ table * 0x1_0000_0000) }
{
    let mut n = 0;
    for count in &given[..table] {
        n += *count as usize;
    }
    n
}

// Whether the words have the length that their counts say, or there are none.
#[tactic(auto, unfolding(crate::specs::Given::is_given))]
pub fn is_given(given: &[u32]) -> bool
    ensures { result ≡ is_given given.now }
{
    let n = given.len();
    n == 0
        || (Counts::TABLES <= n
            && n == Counts::TABLES + ROW * entries_before(given, Counts::TABLES))
}

// The word where the entries of a table start.
pub fn rows_of(given: &[u32], table: usize) -> usize
    requires { Laid given.now × (table < 10) }
    ensures { (result ≡ rows_of given.now table) × (result + 3 * get_or given.now table 0 ≤ length given.now) }
{
    Counts::TABLES + ROW * entries_before(given, table)
}

// A presence bit for each table, that of the first the highest: 1 if it lists an entry.
pub fn presence(given: &[u32]) -> u32
    requires { 10 ≤ length given.now }
    ensures { (result ≡ presence_of given.now) × (result < 1024) }
{
    let mut bits = 0;
    for count in &given[..Counts::TABLES] {
        bits = 2 * bits + u32::from(*count != 0);
    }
    bits
}
