// A hash index over the tables, local to a run: the lowest number of a string or a name, in a few comparisons.
// May depend on format, fields, forms and tables.
#![tactic(auto)]

ghost use Rattle.std.specs.Prelude.{◌≡◌, true, List, map, ℕ, ◌+◌, ◌-◌, ◌*◌, ◌/◌, ◌<◌, ◌≤◌, length, get_or};
ghost use Rattle.format.specs.Tables.{same, OTHER_STRING};
ghost use Rattle.format.specs.declared.StringForm.TheVariants.{Utf8};
ghost use Rattle.fields.specs.WeightContracts.{Plain};
ghost use Rattle.fields.specs.Utf8.{is_text};
ghost use Rattle.tables.specs.Located.{stretch, octets_of};
ghost use Rattle.tables.specs.Counts.{table_words};
ghost use Rattle.tables.specs.Rows.{table_of, built_in, string_at, triple_at, entries};
ghost use Rattle.tables.specs.Search.{number_in, number_of_triple};
ghost use Rattle.format.specs.Characters.{All};
ghost use Rattle.format.specs.Forms.{form_of};
ghost use Rattle.tables.specs.Kept.{Inside, IsSound};
ghost use Rattle.index.specs.Hash.{summed, blended, spread, bucket, name_bucket, Takes};
ghost use Rattle.index.specs.Chain.{last_row, pushed};
ghost use Rattle.index.specs.Indexed.{slots, strings, strings_at, names, StringsIndexed, NamesIndexed, StringEntered, NameEntered, listed, NewString, Sought, SoughtInChain, SoughtToAdd, SoughtSaid};

use format::StringForm;
use format::refusals::Refusal;
use tables::{Counts, Row};

// Octets of the index: PART for each table.
pub const SLOTS: usize = 3840;

// Of a table, HEADS heads, one for a bucket, and 256 links, one for a row. An octet is a row's number, 0 for none.
const PART: usize = 384;

const HEADS: usize = 128;

// The row whose number does not fit an octet: it is in no chain, and is looked at apart.
const LAST: u32 = 255;

// Of a longer string so many octets count: a long chunk is not looked through, and of a string in another form no more are put in UTF-8.
const COUNTED: usize = 65;

// Five spaces above three octets: with them a number of eight octets that is plain where these are.
const FIVE: u64 = 0x2020_2020_2000_0000;

// A cast, proved here alone.
fn wide(x: u32) -> usize
    ensures { result ≡ x }
{
    x as usize
}

fn sum(h: u64, x: u64) -> u64
    requires { h < 0x1_0000_0000 }
    ensures { result ≡ summed h x }
{
    559_461_615 * h + 678_962_597 * (x % 0x1_0000_0000) + 655_011_477 * (x / 0x1_0000_0000)
}

// One number more taken into a number of 32 bits.
fn blend(h: u64, x: u64) -> u64
    requires { h < 0x1_0000_0000 }
    ensures { (result ≡ blended h x) × (result < 0x1_0000_0000) }
{
    sum(h, x) / 0x100 % 0x1_0000_0000
}

// A bucket for two numbers.
fn spread(h: u64, x: u64) -> usize
    requires { h < 0x1_0000_0000 }
    ensures { (result ≡ spread h x) × (result < 128) }
{
    (sum(h, x) / 0x100_0000 % 128) as usize
}

// What the octets of a string come to: two numbers, of which its bucket is made; and one that tells, as `fields::not_plain` does, whether each is plain.
#[derive(Clone, Copy)]
struct Taken {
    number: u64,
    last: u64,
    other: u64,
}

// Up to three octets.
fn few(s: &[u8], place: usize, len: usize) -> Taken
    requires { (1 ≤ len) × (len < 4) × (place + len ≤ length s.now) }
    ensures { Takes s.now place len result.number result.last result.other }
{
    let middle = u64::from(s[place + len / 2]);
    let end = u64::from(s[place + (len - 1)]);
    let last = u64::from(s[place]) + 0x100 * middle + 0x1_0000 * end;
    Taken {
        number: 0,
        last,
        other: fields::not_plain(last + FIVE),
    }
}

// Four to eight.
fn fours(s: &[u8], place: usize, len: usize) -> Taken
    requires { (4 ≤ len) × (len ≤ 8) × (place + len ≤ length s.now) }
    ensures { Takes s.now place len result.number result.last result.other }
{
    let end = fields::four(s, place + (len - 4));
    let last = fields::four(s, place) + 0x1_0000_0000 * end;
    Taken {
        number: 0,
        last,
        other: fields::not_plain(last),
    }
}

// Nine or more: eights, of which the last may overlap.
fn eights(s: &[u8], place: usize, len: usize) -> Taken
    requires { (9 ≤ len) × (place + len ≤ length s.now) }
    ensures { Takes s.now place len result.number result.last result.other }
{
    let n = len.min(COUNTED);
    let last = fields::eight(s, place + (n - 8));
    let mut number = 0;
    let mut other = fields::not_plain(last);
    let mut i = 0;
    while 8 < n - i {
        let x = fields::eight(s, place + i);
        number = blend(number, x);
        other = other | fields::not_plain(x);
        i += 8;
    }
    Taken {
        number,
        last,
        other,
    }
}

// The string of s at place.
fn take(s: &[u8], place: usize, len: usize) -> Taken
    requires { (1 ≤ len) × (place + len ≤ length s.now) }
    ensures { Takes s.now place len result.number result.last result.other }
{
    if len < 4 {
        return few(s, place, len);
    }
    if len <= 8 {
        return fours(s, place, len);
    }
    eights(s, place, len)
}

// What one look at the octets of a string tells: its bucket, and whether it is plain: each octet is. A long one is never said to be plain.
#[derive(Clone, Copy)]
struct Seen {
    bucket: usize,
    plain: bool,
}

// The string of s at place.
fn look(s: &[u8], place: usize, len: usize) -> Seen
    requires { (1 ≤ len) × (place + len ≤ length s.now) }
    ensures { (result.bucket ≡ bucket (octets_of s.now (stretch Utf8 place len))) × (result.bucket < 128) × (result.plain ≡ true → Plain s.now place (place + len)) }
{
    let x = take(s, place, len);
    Seen {
        bucket: spread(x.number, x.last),
        plain: x.other & fields::HIGH == 0 && len <= COUNTED,
    }
}

// The bucket of the string of s at place.
pub fn bucket_of(s: &[u8], place: usize, len: usize) -> usize
    requires { (1 ≤ len) × (place + len ≤ length s.now) }
    ensures { (result ≡ bucket (octets_of s.now (stretch Utf8 place len))) × (result < 128) }
{
    look(s, place, len).bucket
}

// A string's bucket, and whether it is text.
#[derive(Clone, Copy)]
pub struct Marked {
    pub bucket: usize,
    pub text: bool,
}

// The string of s at place. One look tells both of most strings.
pub fn mark(s: &[u8], place: usize, len: usize) -> Marked
    requires { (1 ≤ len) × (place + len ≤ length s.now) }
    ensures { (result.bucket ≡ bucket (octets_of s.now (stretch Utf8 place len))) × (result.bucket < 128) × (result.text ≡ is_text (octets_of s.now (stretch Utf8 place len))) }
{
    let x = look(s, place, len);
    Marked {
        bucket: x.bucket,
        text: x.plain || fields::is_text(s, place, place + len),
    }
}

// The number of the string of s at place in row 255 of a full table, 0 elsewhere: what is left where a chain ends.
fn find_last(s: &[u8], t: &[u32], table: usize, n: u32, place: usize, len: usize) -> u32
    requires { (length t.now ≡ table_words) × (table < 5) × (n ≤ 256) × (place + len ≤ length s.now) × Inside s.now (entries (string_at (table_of table) t.now) (768 * table) n) }
    ensures { result ≡ last_row (strings s.now table) (strings_at s.now t.now table) (768 * table) n (octets_of s.now (stretch Utf8 place len)) }
{
    if n <= LAST {
        return 0;
    }
    if tables::is_string(s, t, table, LAST, place, len) {
        return n;
    }
    0
}

// The lowest number of the string of s at place, which is not built in, by its chain, that of bucket h; 0 if it has none. n is the table's count.
fn find_chained(
    s: &[u8],
    t: &[u32],
    index: &[u8],
    table: usize,
    n: u32,
    place: usize,
    len: usize,
    h: usize,
) -> u32
    requires { SoughtInChain s.now t.now index.now table n place len h }
    ensures { result ≡ number_in (map (octets_of s.now) (entries (string_at (table_of table) t.now) (768 * table) n)) (octets_of s.now (stretch Utf8 place len)) }
{
    let last = s[place + (len - 1)];
    let head = PART * table + h;
    let mut k = usize::from(index[head]);
    while 0 < k {
        if tables::is_spelled(s, t, 768 * table + 3 * (k - 1), place, len, last) {
            return k as u32;
        }
        k = usize::from(index[PART * table + HEADS + (k - 1)]);
    }
    find_last(s, t, table, n, place, len)
}

// The lowest number of a table's first n entries that is the string of s at place, whose bucket is h; 0 if none is. A built-in string is looked for row by
// row: it is in the first row.
pub fn find_in(
    s: &[u8],
    t: &[u32],
    index: &[u8],
    table: usize,
    n: u32,
    place: usize,
    len: usize,
    h: usize,
) -> u32
    requires { Sought s.now t.now index.now table n place len h }
    ensures { result ≡ number_in (map (octets_of s.now) (entries (string_at (table_of table) t.now) (768 * table) n)) (octets_of s.now (stretch Utf8 place len)) }
{
    if tables::is_built_in(s, table, place, len) {
        return tables::find_any(s, t, table, n, place, len);
    }
    find_chained(s, t, index, table, n, place, len, h)
}

// The same where the bucket is not known. An empty string is looked for row by row.
pub fn find(
    s: &[u8],
    t: &[u32],
    index: &[u8],
    table: usize,
    n: u32,
    place: usize,
    len: usize,
) -> u32
    requires { (length t.now ≡ table_words) × (length index.now ≡ slots) × (table < 5) × (n ≤ 256) × (place + len ≤ length s.now) × Inside s.now (entries (string_at (table_of table) t.now) (768 * table) n) × StringsIndexed s.now t.now index.now table n }
    ensures { result ≡ number_in (map (octets_of s.now) (entries (string_at (table_of table) t.now) (768 * table) n)) (octets_of s.now (stretch Utf8 place len)) }
{
    if len == 0 {
        return tables::find_any(s, t, table, n, place, len);
    }
    find_in(s, t, index, table, n, place, len, bucket_of(s, place, len))
}

// Row n of a table in front of the chain of bucket h.
fn push(index: &mut [u8], table: usize, h: usize, n: u32)
    requires { (length index.old ≡ slots) × (table < 10) × (h < 128) × (n < 255) }
    ensures { index.new ≡ pushed index.old (384 * table) h n }
{
    let front = PART * table + h;
    let link = PART * table + HEADS + wide(n);
    index[link] = index[front];
    index[front] = (n + 1) as u8;
}

// The string of s in a row's words, whose bucket is h, becomes an entry behind a table's n. `known` is the number that it has there already: the index keeps the
// lowest, so it is put in its chain only where it has none.
pub fn enter_in(
    s: &[u8],
    t: &mut [u32],
    index: &mut [u8],
    table: usize,
    n: u32,
    x: Row,
    known: u32,
    h: usize,
)
    requires { (length t.old ≡ table_words) × (length index.old ≡ slots) × (table < 8) × (n < 256) × (1 ≤ x.b) × (x.a + x.b ≤ length s.now) × (table < 5 → x.c ≡ 0) × (known ≡ number_in (map (octets_of s.now) (entries (string_at (table_of table) t.old) (768 * table) n)) (octets_of s.now (stretch (form_of x.c) x.a x.b))) × (h ≡ bucket (octets_of s.now (stretch (form_of x.c) x.a x.b))) × (h < 128) }
    ensures { StringEntered s.now table n x t.old index.old t.new index.new }
{
    tables::add(t, table, n, x.a, x.b, x.c);
    if known != 0 {
        return;
    }
    if LAST <= n {
        return;
    }
    if tables::is_built_in(s, table, wide(x.a), wide(x.b)) {
        return;
    }
    push(index, table, h, n);
}

// The bucket of what the octets of s at place say in another form than utf-8: they are put in UTF-8 as far as they count.
fn bucket_other(s: &[u8], form: StringForm, place: usize, len: usize) -> usize
    requires { (1 ≤ len) × (place + len ≤ length s.now) × (length s.now ≤ 16384) × IsSound s.now (stretch form place len) }
    ensures { (result ≡ bucket (octets_of s.now (stretch form place len))) × (result < 128) }
{
    let mut first = [0; COUNTED];
    let n = forms::put_said(&mut first, 0, s, form, place, place + len);
    bucket_of(&first, 0, n.min(COUNTED))
}

// The same in any form.
pub fn bucket_said(s: &[u8], form: StringForm, place: usize, len: usize) -> usize
    requires { (1 ≤ len) × (place + len ≤ length s.now) × (length s.now ≤ 16384) × IsSound s.now (stretch form place len) }
    ensures { (result ≡ bucket (octets_of s.now (stretch form place len))) × (result < 128) }
{
    match form {
        StringForm::Utf8 => bucket_of(s, place, len),
        _ => bucket_other(s, form, place, len),
    }
}

// The number of what a string says in row 255 of a full table of other strings, 0 elsewhere.
fn find_last_said(
    s: &[u8],
    t: &[u32],
    table: usize,
    n: u32,
    form: StringForm,
    place: usize,
    len: usize,
) -> u32
    requires { (length t.now ≡ table_words) × (5 ≤ table) × (table < 8) × (n ≤ 256) × (1 ≤ len) × (place + len ≤ length s.now) × IsSound s.now (stretch form place len) × Inside s.now (entries (string_at (table_of table) t.now) (768 * table) n) × All (IsSound s.now) (entries (string_at (table_of table) t.now) (768 * table) n) }
    ensures { result ≡ last_row (strings s.now table) (strings_at s.now t.now table) (768 * table) n (octets_of s.now (stretch form place len)) }
{
    if n <= LAST {
        return 0;
    }
    if tables::is_said(s, t, 768 * table + 765, form, place, len) {
        return n;
    }
    0
}

// Whether the row at word j, of a table of other strings, says what the octets of s at place say in their form, of which `last` is the last. Most rows are in that form, and are told by length and last octet.
fn is_alike(
    s: &[u8],
    t: &[u32],
    j: usize,
    form: StringForm,
    place: usize,
    len: usize,
    last: u8,
) -> bool
    requires { (length t.now ≡ table_words) × (j + 3 ≤ table_words) × (1 ≤ len) × (place + len ≤ length s.now) × (last ≡ get_or s.now (place + (len - 1)) 0) × IsSound s.now (stretch form place len) × ((get_or t.now (j + 1) 0 ≡ 0 → ⊥) → (get_or t.now j 0 + get_or t.now (j + 1) 0 ≤ length s.now) × IsSound s.now (stretch (form_of (get_or t.now (j + 2) 0)) (get_or t.now j 0) (get_or t.now (j + 1) 0))) }
    ensures { result ≡ same (octets_of s.now (string_at OTHER_STRING t.now j)) (octets_of s.now (stretch form place len)) }
{
    if t[j + 2] == form.number() {
        return tables::is_spelled(s, t, j, place, len, last);
    }
    tables::is_said(s, t, j, form, place, len)
}

// The lowest number of the first n entries of a table of other strings that say what the octets of s at place say in their form; 0 if none does.
pub fn find_said(
    s: &[u8],
    t: &[u32],
    index: &[u8],
    table: usize,
    n: u32,
    form: StringForm,
    place: usize,
    len: usize,
) -> u32
    requires { SoughtSaid s.now t.now index.now table n form place len }
    ensures { result ≡ number_in (map (octets_of s.now) (entries (string_at (table_of table) t.now) (768 * table) n)) (octets_of s.now (stretch form place len)) }
{
    let h = bucket_said(s, form, place, len);
    let last = s[place + (len - 1)];
    let head = PART * table + h;
    let mut i = usize::from(index[head]);
    while 0 < i {
        if is_alike(s, t, 768 * table + 3 * (i - 1), form, place, len, last) {
            return i as u32;
        }
        i = usize::from(index[PART * table + HEADS + (i - 1)]);
    }
    find_last_said(s, t, table, n, form, place, len)
}

// Whether the string of s at place, which is not built in, is an entry, by its chain, that of bucket h. The walk of `find_chained` a second time: with one place
// that calls each of them, both are inlined.
fn is_listed(
    s: &[u8],
    t: &[u32],
    index: &[u8],
    table: usize,
    n: u32,
    place: usize,
    len: usize,
    h: usize,
) -> bool
    requires { SoughtInChain s.now t.now index.now table n place len h }
    ensures { result ≡ listed s.now t.now table n place len }
{
    let last = s[place + (len - 1)];
    let first = PART * table + h;
    let mut row = usize::from(index[first]);
    while 0 < row {
        if tables::is_spelled(s, t, 768 * table + 3 * (row - 1), place, len, last) {
            return true;
        }
        row = usize::from(index[PART * table + HEADS + (row - 1)]);
    }
    find_last(s, t, table, n, place, len) != 0
}

fn narrow(x: usize) -> u32
    requires { x < 0x1_0000_0000 }
    ensures { result ≡ x }
{
    x as u32
}

// The same of the built-in string, which is in no chain.
fn add_built_in(
    s: &[u8],
    t: &mut [u32],
    table: usize,
    n: u32,
    place: usize,
    len: usize,
) -> Result<(), Refusal>
    requires { (length t.old ≡ table_words) × (table < 5) × (n ≤ 256) × (1 ≤ len) × (place + len ≤ length s.now) × (length s.now < 0x1_0000_0000) × Inside s.now (entries (string_at (table_of table) t.old) (768 * table) n) × (same (octets_of s.now (built_in (table_of table))) (octets_of s.now (stretch Utf8 place len)) ≡ true) }
    ensures { (index : List ℕ) → NewString s.now table n place len t.old index result t.new index }
{
    if tables::find_any(s, t, table, n, place, len) != 0 {
        return Err(Refusal::Repeat);
    }
    if Counts::ENTRIES <= n {
        return Err(Refusal::Full);
    }
    tables::add(t, table, n, narrow(place), narrow(len), 0);
    Ok(())
}

// The string of s at place, whose bucket is h, becomes an entry behind a table's n: refused where it is one already (Repeat), or has no room (Full).
pub fn add_new(
    s: &[u8],
    t: &mut [u32],
    index: &mut [u8],
    table: usize,
    n: u32,
    place: usize,
    len: usize,
    h: usize,
) -> Result<(), Refusal>
    requires { SoughtToAdd s.now t.old index.old table n place len h }
    ensures { NewString s.now table n place len t.old index.old result t.new index.new }
{
    if tables::is_built_in(s, table, place, len) {
        return add_built_in(s, t, table, n, place, len);
    }
    if is_listed(s, t, index, table, n, place, len, h) {
        return Err(Refusal::Repeat);
    }
    if Counts::ENTRIES <= n {
        return Err(Refusal::Full);
    }
    tables::add(t, table, n, narrow(place), narrow(len), 0);
    if n < LAST {
        push(index, table, h, n);
    }
    Ok(())
}

// The bucket of a name.
fn name_bucket(prefix: u32, namespace: u32, local: u32) -> usize
    ensures { (result ≡ name_bucket (record { prefix = prefix; namespace = namespace; local = local })) × (result < 128) }
{
    spread(
        u64::from(prefix),
        u64::from(local) + 0x1_0000_0000 * u64::from(namespace),
    )
}

// The number of the name with these numbers in row 255 of a full table, 0 elsewhere.
fn find_last_name(t: &[u32], table: usize, n: u32, prefix: u32, namespace: u32, local: u32) -> u32
    requires { (length t.now ≡ table_words) × (table < 10) × (n ≤ 256) }
    ensures { result ≡ last_row names (triple_at t.now) (768 * table) n (record { prefix = prefix; namespace = namespace; local = local }) }
{
    if n <= LAST {
        return 0;
    }
    if tables::is_name(t, 768 * table + 765, prefix, namespace, local) {
        return n;
    }
    0
}

// The lowest number of a table's first n entries that is the name with these numbers; 0 if none is.
pub fn find_name(
    t: &[u32],
    index: &[u8],
    table: usize,
    n: u32,
    prefix: u32,
    namespace: u32,
    local: u32,
) -> u32
    requires { (length t.now ≡ table_words) × (length index.now ≡ slots) × (table < 10) × (n ≤ 256) × NamesIndexed t.now index.now table n }
    ensures { result ≡ number_of_triple (entries (triple_at t.now) (768 * table) n) (record { prefix = prefix; namespace = namespace; local = local }) }
{
    let first = PART * table + name_bucket(prefix, namespace, local);
    let mut j = usize::from(index[first]);
    while 0 < j {
        if tables::is_name(t, 768 * table + 3 * (j - 1), prefix, namespace, local) {
            return j as u32;
        }
        j = usize::from(index[PART * table + HEADS + (j - 1)]);
    }
    find_last_name(t, table, n, prefix, namespace, local)
}

// The name with these numbers becomes an entry behind a table's n; `found` is as `known` for `enter_in`.
pub fn enter_name(
    t: &mut [u32],
    index: &mut [u8],
    table: usize,
    n: u32,
    prefix: u32,
    namespace: u32,
    local: u32,
    found: u32,
)
    requires { (length t.old ≡ table_words) × (length index.old ≡ slots) × (8 ≤ table) × (table < 10) × (n < 256) × (found ≡ number_of_triple (entries (triple_at t.old) (768 * table) n) (record { prefix = prefix; namespace = namespace; local = local })) }
    ensures { (s : List ℕ) → NameEntered s table n (record { prefix = prefix; namespace = namespace; local = local }) t.old index.old t.new index.new }
{
    tables::add(t, table, n, prefix, namespace, local);
    if found != 0 {
        return;
    }
    if LAST <= n {
        return;
    }
    push(index, table, name_bucket(prefix, namespace, local), n);
}
