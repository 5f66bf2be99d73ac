// The ten tables in lent room: how many entries each has, and what is found and added there.
// May depend on format, fields and forms.
#![tactic(auto)]

ghost use Rattle.std.specs.Prelude.{◌≡◌, map, ◌+◌, ◌-◌, ◌*◌, ◌<◌, ◌≤◌, length, get_or, replicate};
ghost use Rattle.format.specs.Tables.{OTHER_STRING, link, same, same_triple};
ghost use Rattle.format.specs.declared.StringForm.TheVariants.{Utf8};
ghost use Rattle.format.specs.Forms.{form_of};
ghost use Rattle.tables.specs.Located.{stretch, octets_of, start};
ghost use Rattle.tables.specs.Counts.{counts_of, table_words};
ghost use Rattle.tables.specs.Rows.{table_of, built_in, string_at, triple_at, entries};
ghost use Rattle.tables.specs.Search.{number_in};
ghost use Rattle.tables.specs.Kept.{listed, unlisted, count_of, one_more, row_at, stored, Ends, Inside, IsSound, layout_of};

use format::StringForm;
use format::table::ELEMENT_NAME;

// How many entries each table has, in the required order.
#[derive(Clone, Copy)]
pub struct Counts {
    pub prefix: u32,
    pub namespace: u32,
    pub local: u32,
    pub ncname: u32,
    pub uri: u32,
    pub value: u32,
    pub chunk: u32,
    pub other: u32,
    pub element: u32,
    pub attribute: u32,
}

impl Counts {
    // Entries in each table, the built-in ones counted.
    pub const ENTRIES: u32 = 256;
    // Words in the room of all ten tables, three for an entry.
    pub const WORDS: usize = 7680;

    pub const TABLES: usize = 10;

    // PREFIX and NAMESPACE NAME start with their built-in entry, the others empty.
    pub fn start() -> Counts
        ensures { result ≡ counts_of (start link) }
    {
        Counts {
            prefix: 1,
            namespace: 1,
            local: 0,
            ncname: 0,
            uri: 0,
            value: 0,
            chunk: 0,
            other: 0,
            element: 0,
            attribute: 0,
        }
    }

    // The count of a table by its number, from 0 in the required order.
    pub fn of(self, table: usize) -> u32
        requires { table < 10 }
        ensures { result ≡ count_of self table }
    {
        match table {
            0 => self.prefix,
            1 => self.namespace,
            2 => self.local,
            3 => self.ncname,
            4 => self.uri,
            5 => self.value,
            6 => self.chunk,
            7 => self.other,
            8 => self.element,
            _ => self.attribute,
        }
    }

    // One entry more.
    pub fn more(mut self, table: usize) -> Counts
        requires { (table < 10) × (count_of self table < 256) }
        ensures { result ≡ one_more self table }
    {
        let n = self.of(table) + 1;
        match table {
            0 => self.prefix = n,
            1 => self.namespace = n,
            2 => self.local = n,
            3 => self.ncname = n,
            4 => self.uri = n,
            5 => self.value = n,
            6 => self.chunk = n,
            7 => self.other = n,
            8 => self.element = n,
            _ => self.attribute = n,
        }
        self
    }
}

// The ten counts, in the required order.
pub fn put_counts(w: &mut [u32], c: Counts)
    requires { length w.old ≡ 10 }
    ensures { w.new ≡ listed c }
{
    w.copy_from_slice(&[
        c.prefix,
        c.namespace,
        c.local,
        c.ncname,
        c.uri,
        c.value,
        c.chunk,
        c.other,
        c.element,
        c.attribute,
    ]);
}

// The same from ten words.
pub fn counts_in(w: &[u32]) -> Counts
    requires { length w.now ≡ 10 }
    ensures { result ≡ unlisted w.now }
{
    Counts {
        prefix: w[0],
        namespace: w[1],
        local: w[2],
        ncname: w[3],
        uri: w[4],
        value: w[5],
        chunk: w[6],
        other: w[7],
        element: w[8],
        attribute: w[9],
    }
}

// A row's words: a string's place, its length and its form, or the numbers of a name's prefix, namespace and local name.
#[derive(Clone, Copy)]
pub struct Row {
    pub a: u32,
    pub b: u32,
    pub c: u32,
}

// A word as a place, so that casts are proved here alone.
fn wide(x: u32) -> usize
    ensures { result ≡ x }
{
    x as usize
}

// The word where a table's row starts.
fn at(table: usize, i: u32) -> usize
    requires { (table < 10) × (i < 256) }
    ensures { result ≡ 768 * table + 3 * i }
{
    768 * table + 3 * wide(i)
}

// Entry i of a table, from 0.
pub fn entry(t: &[u32], table: usize, i: u32) -> Row
    requires { (length t.now ≡ table_words) × (table < 10) × (i < 256) }
    ensures { result ≡ row_at t.now (768 * table + 3 * i) }
{
    let j = at(table, i);
    Row {
        a: t[j],
        b: t[j + 1],
        c: t[j + 2],
    }
}

// One entry more behind a table's n.
pub fn add(t: &mut [u32], table: usize, n: u32, a: u32, b: u32, c: u32)
    requires { (length t.old ≡ table_words) × (table < 10) × (n < 256) }
    ensures { t.new ≡ stored t.old table n a b c }
{
    let j = at(table, n);
    t[j] = a;
    t[j + 1] = b;
    t[j + 2] = c;
}

// Every word is 0.
pub fn clear(t: &mut [u32])
    ensures { t.new ≡ replicate (length t.old) 0 }
{
    t.fill(0);
}

// Whether n octets of x, from a on, are those of y, from b on: octet by octet, from the last one back, for strings that have no four.
fn same_few(x: &[u8], a: usize, y: &[u8], b: usize, n: usize) -> bool
    requires { (a + n ≤ length x.now) × (b + n ≤ length y.now) }
    ensures { result ≡ same (octets_of x.now (stretch Utf8 a n)) (octets_of y.now (stretch Utf8 b n)) }
{
    for i in (0..n).rev() {
        if x[a + i] != y[b + i] {
            return false;
        }
    }
    true
}

// The same for strings that have no eight: the last four octets, then the first four, some of them a second time.
fn same_short(x: &[u8], a: usize, y: &[u8], b: usize, n: usize) -> bool
    requires { (a + n ≤ length x.now) × (b + n ≤ length y.now) × (n ≤ 8) }
    ensures { result ≡ same (octets_of x.now (stretch Utf8 a n)) (octets_of y.now (stretch Utf8 b n)) }
{
    if n < 4 {
        return same_few(x, a, y, b, n);
    }
    if fields::four(x, a + (n - 4)) != fields::four(y, b + (n - 4)) {
        return false;
    }
    fields::four(x, a) == fields::four(y, b)
}

// Whether m octets of x, from a on, are n octets of y, from b on. Lengths are compared before octets, and octets from the last ones back: names
// that are alike, as those of ports, mostly differ at their end. The first eight are compared at once as well, some of them a second time where n is
// no multiple of eight: that is cheaper than the few octet by octet.
pub fn same_octets(x: &[u8], a: usize, m: usize, y: &[u8], b: usize, n: usize) -> bool
    requires { (a + m ≤ length x.now) × (b + n ≤ length y.now) }
    ensures { result ≡ same (octets_of x.now (stretch Utf8 a m)) (octets_of y.now (stretch Utf8 b n)) }
{
    if m != n {
        return false;
    }
    if n < 8 {
        return same_short(x, a, y, b, n);
    }
    let mut i = n;
    while 8 < i {
        i -= 8;
        if fields::eight(x, a + i) != fields::eight(y, b + i) {
            return false;
        }
    }
    fields::eight(x, a) == fields::eight(y, b)
}

// Whether the string that is built into a table, empty where none is, is that of s at place.
pub fn is_built_in(s: &[u8], table: usize, place: usize, len: usize) -> bool
    requires { place + len ≤ length s.now }
    ensures { result ≡ same (octets_of s.now (built_in (table_of table))) (octets_of s.now (stretch Utf8 place len)) }
{
    match table {
        0 => same_octets(b"xml", 0, 3, s, place, len),
        1 => same_octets(
            b"http://www.w3.org/XML/1998/namespace",
            0,
            36,
            s,
            place,
            len,
        ),
        _ => len == 0,
    }
}

// Whether entry i of a table of identifying strings, from 0, is the string of s at place. The length of a built-in entry is 0.
pub fn is_string(s: &[u8], t: &[u32], table: usize, i: u32, place: usize, len: usize) -> bool
    requires { (length t.now ≡ table_words) × (table < 5) × (i < 256) × (place + len ≤ length s.now) × Ends s.now (string_at (table_of table) t.now (768 * table + 3 * i)) }
    ensures { result ≡ same (octets_of s.now (string_at (table_of table) t.now (768 * table + 3 * i))) (octets_of s.now (stretch Utf8 place len)) }
{
    let e = entry(t, table, i);
    if e.b == 0 {
        return is_built_in(s, table, place, len);
    }
    same_octets(s, wide(e.a), wide(e.b), s, place, len)
}

// The lowest number of the first n entries of such a table that is the string of s at place, whatever an entry may be; 0 if none is.
pub fn find_any(s: &[u8], t: &[u32], table: usize, n: u32, place: usize, len: usize) -> u32
    requires { (length t.now ≡ table_words) × (table < 5) × (n ≤ 256) × (place + len ≤ length s.now) × Inside s.now (entries (string_at (table_of table) t.now) (768 * table) n) }
    ensures { result ≡ number_in (map (octets_of s.now) (entries (string_at (table_of table) t.now) (768 * table) n)) (octets_of s.now (stretch Utf8 place len)) }
{
    for i in 0..n {
        if is_string(s, t, table, i, place, len) {
            return i + 1;
        }
    }
    0
}

// Whether the row at word j has the octets of s at place, of which `last` is the last. A built-in entry has no length, so it is none of these.
pub fn is_spelled(s: &[u8], t: &[u32], j: usize, place: usize, len: usize, last: u8) -> bool
    requires { (length t.now ≡ table_words) × (j + 3 ≤ table_words) × (1 ≤ len) × (place + len ≤ length s.now) × (last ≡ get_or s.now (place + (len - 1)) 0) × ((get_or t.now (j + 1) 0 ≡ 0 → ⊥) → get_or t.now j 0 + get_or t.now (j + 1) 0 ≤ length s.now) }
    ensures { result ≡ same (octets_of s.now (stretch Utf8 (get_or t.now j 0) (get_or t.now (j + 1) 0))) (octets_of s.now (stretch Utf8 place len)) }
{
    if wide(t[j + 1]) != len {
        return false;
    }
    let at = wide(t[j]);
    if s[at + (len - 1)] != last {
        return false;
    }
    same_octets(s, at, len, s, place, len)
}

// Whether the row at word j, of a table of other strings, says what the octets of s at place say in their form. In one form equal strings have equal octets. A
// row that has no length is none of these.
pub fn is_said(s: &[u8], t: &[u32], j: usize, form: StringForm, place: usize, len: usize) -> bool
    requires { (length t.now ≡ table_words) × (j + 3 ≤ table_words) × (1 ≤ len) × (place + len ≤ length s.now) × IsSound s.now (stretch form place len) × ((get_or t.now (j + 1) 0 ≡ 0 → ⊥) → (get_or t.now j 0 + get_or t.now (j + 1) 0 ≤ length s.now) × IsSound s.now (stretch (form_of (get_or t.now (j + 2) 0)) (get_or t.now j 0) (get_or t.now (j + 1) 0))) }
    ensures { result ≡ same (octets_of s.now (string_at OTHER_STRING t.now j)) (octets_of s.now (stretch form place len)) }
{
    let n = wide(t[j + 1]);
    if n == 0 {
        return false;
    }
    let a = wide(t[j]);
    let number = t[j + 2];
    if number == form.number() {
        return same_octets(s, a, n, s, place, len);
    }
    forms::same(
        s,
        StringForm::of(number),
        a,
        a + n,
        form,
        place,
        place + len,
    )
}

// Whether the row at word j is the name with these numbers. Most names of a document have the same prefix and namespace.
pub fn is_name(t: &[u32], j: usize, prefix: u32, namespace: u32, local: u32) -> bool
    requires { (length t.now ≡ table_words) × (j + 3 ≤ table_words) }
    ensures { result ≡ same_triple (triple_at t.now j) (record { prefix = prefix; namespace = namespace; local = local }) }
{
    t[j + 2] == local && t[j + 1] == namespace && t[j] == prefix
}

// The octet's part that begins a name of table 8 or 9 in parts: 1111pn, or 11110pn.
pub fn parts_bits(table: usize) -> u8
    ensures { (result ≡ (layout_of table).in_parts_bits) × (result ≤ 0x78) }
{
    if table == ELEMENT_NAME {
        return 0x3C;
    }
    0x78
}
