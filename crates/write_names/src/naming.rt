// Names and namespace declarations as octets: by number where the table holds them, else in parts.
ghost use Rattle.std.specs.Prelude.{◌≡◌, ◌+◌, ◌*◌, ◌<◌, ◌≤◌, length, get_or};
ghost use Rattle.tables.specs.Counts.{table_words};
ghost use Rattle.tables.specs.Search.{number_of_triple};
ghost use Rattle.tables.specs.Rows.{triple_at, entries};
ghost use Rattle.tables.specs.Kept.{layout_of, triple_of};
ghost use Rattle.index.specs.Indexed.{slots};
ghost use Rattle.events.specs.Records.{optional_of};
ghost use Rattle.write_names.specs.Choices.{write_name};
ghost use Rattle.write_names.specs.Promises.{pair_most, name_most, last_place, tables_in, InOrder, Suits, Looked, Proper, New, named_of, number_then, Tripled, pair_behind, declared_by, Meets};

use crate::{QualifiedName, Sought, has, id, number_of, optional, put_name_number};
use events::EventString;
use fields::put::put;
use format::refusals::Refusal;
use format::table::{LOCAL_NAME, NAMESPACE_NAME, PREFIX};
use tables::{Counts, Row};

// An octet, and the prefix and the namespace behind it.
#[derive(Clone, Copy)]
pub struct Opening {
    pub first: u8,
    pub prefix: Sought,
    pub namespace: Sought,
}

// The numbers that a name's strings have in their tables, 0 where they have none; and those that they have once they are written.
#[derive(Clone, Copy)]
pub struct Numbers {
    pub found: Row,
    pub then: Row,
}

// A string's number once it is written: k, or the next of its table, which has n entries; 0 where there is no string.
fn number_then(n: u32, x: EventString, k: u32) -> u32
    requires { n ≤ 256 }
    ensures { result ≡ number_then n x k }
{
    if k != 0 {
        return k;
    }
    if x.is_absent() {
        return 0;
    }
    n + 1
}

// The name, which its table does not hold, becomes an entry of it, unless that is full; `at` is the place behind it.
fn triple(
    t: &mut [u32],
    counts: &mut [u32],
    index: &mut [u8],
    at: usize,
    table: usize,
    x: Row,
) -> Result<usize, Refusal>
    requires { (length t.old ≡ table_words) × (length counts.old ≡ 10) × (length index.old ≡ slots) × (8 ≤ table) × (table < 10) × (0 ≡ number_of_triple (entries (triple_at t.old) (768 * table) (get_or counts.old table 0)) (triple_of x)) }
    ensures { Tripled at counts.old t.old index.old table x result counts.new t.new index.new }
{
    let n = counts[table];
    if Counts::ENTRIES <= n {
        return Err(Refusal::Full);
    }
    index::enter_name(t, index, table, n, x.a, x.b, x.c, 0);
    counts[table] = n + 1;
    Ok(at)
}

// An octet, and the strings that are there.
fn pair(
    text: &[u8],
    t: &mut [u32],
    counts: &mut [u32],
    index: &mut [u8],
    out: &mut [u8],
    at: usize,
    x: Opening,
) -> Result<usize, Refusal>
    requires { InOrder text.now counts.old t.old index.old × (at + name_most ≤ last_place) × (x.prefix.table ≡ 0) × (x.namespace.table ≡ 1) × Looked text.now counts.old t.old x.prefix × Looked text.now counts.old t.old x.namespace }
    ensures { Meets text.now out.old at pair_most result out.new counts.new t.new index.new (pair_behind x.first text.now (tables_in counts.old t.old) (optional_of x.prefix.string) (optional_of x.namespace.string)) }
{
    put(out, at, x.first);
    let prefix = x.prefix;
    let namespace = x.namespace;
    let behind = optional(text, t, counts, index, out, at + 1, prefix)?;
    optional(text, t, counts, index, out, behind, namespace)
}

// A name in parts, which its table does not hold.
fn parts(
    text: &[u8],
    t: &mut [u32],
    counts: &mut [u32],
    index: &mut [u8],
    out: &mut [u8],
    at: usize,
    name: QualifiedName,
    k: Numbers,
) -> Result<usize, Refusal>
    requires { InOrder text.now counts.old t.old index.old × (at + name_most ≤ last_place) × New text.now (tables_in counts.old t.old) name k × Proper text.now name }
    ensures { Meets text.now out.old at name_most result out.new counts.new t.new index.new (write_name (layout_of name.table) name.lead text.now (tables_in counts.old t.old) (named_of name)) }
{
    let prefix = name.prefix;
    let namespace = name.namespace;
    let local = name.local;
    let table = name.table;
    let found = k.found;
    let then = k.then;
    let opening = Opening {
        first: name.lead + tables::parts_bits(table) + 2 * has(prefix) + has(namespace),
        prefix: Sought {
            table: PREFIX,
            string: prefix,
            number: found.a,
        },
        namespace: Sought {
            table: NAMESPACE_NAME,
            string: namespace,
            number: found.b,
        },
    };
    let behind = pair(text, t, counts, index, out, at, opening)?;
    let sought = Sought {
        table: LOCAL_NAME,
        string: local,
        number: found.c,
    };
    let next = id(text, t, counts, index, out, behind, sought)?;
    triple(t, counts, index, next, table, then)
}

// A name (C.17, C.18): by number if its table holds its triple, else in parts, and added.
pub fn name(
    text: &[u8],
    t: &mut [u32],
    counts: &mut [u32],
    index: &mut [u8],
    out: &mut [u8],
    at: usize,
    name: QualifiedName,
) -> Result<usize, Refusal>
    requires { InOrder text.now counts.old t.old index.old × (at + name_most ≤ last_place) × Proper text.now name }
    ensures { Meets text.now out.old at name_most result out.new counts.new t.new index.new (write_name (layout_of name.table) name.lead text.now (tables_in counts.old t.old) (named_of name)) }
{
    let prefix = name.prefix;
    let namespace = name.namespace;
    let local = name.local;
    let table = name.table;
    let found = Row {
        a: number_of(text, t, counts, index, PREFIX, prefix),
        b: number_of(text, t, counts, index, NAMESPACE_NAME, namespace),
        c: number_of(text, t, counts, index, LOCAL_NAME, local),
    };
    let then = Row {
        a: number_then(counts[PREFIX], prefix, found.a),
        b: number_then(counts[NAMESPACE_NAME], namespace, found.b),
        c: number_then(counts[LOCAL_NAME], local, found.c),
    };
    let n = index::find_name(t, index, table, counts[table], then.a, then.b, then.c);
    if n != 0 {
        return Ok(put_name_number(out, at, table, name.lead, n));
    }
    let numbers = Numbers { found, then };
    parts(text, t, counts, index, out, at, name, numbers)
}

// A namespace declaration (C.12): 110011pn and the strings that are there.
pub fn declared(
    text: &[u8],
    t: &mut [u32],
    counts: &mut [u32],
    index: &mut [u8],
    out: &mut [u8],
    at: usize,
    prefix: EventString,
    namespace: EventString,
) -> Result<usize, Refusal>
    requires { InOrder text.now counts.old t.old index.old × (at + name_most ≤ last_place) × Suits text.now 0 prefix × Suits text.now 1 namespace }
    ensures { Meets text.now out.old at pair_most result out.new counts.new t.new index.new (declared_by text.now (tables_in counts.old t.old) (optional_of prefix) (optional_of namespace)) }
{
    let k = number_of(text, t, counts, index, PREFIX, prefix);
    let n = number_of(text, t, counts, index, NAMESPACE_NAME, namespace);
    let opening = Opening {
        first: 0xCC + 2 * has(prefix) + has(namespace),
        prefix: Sought {
            table: PREFIX,
            string: prefix,
            number: k,
        },
        namespace: Sought {
            table: NAMESPACE_NAME,
            string: namespace,
            number: n,
        },
    };
    pair(text, t, counts, index, out, at, opening)
}
