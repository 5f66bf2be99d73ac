// A document's head written: tables that a caller gives are judged as one thing, become the tables' first entries, and go into the output.
// May depend on format, fields, forms, tables, index, events and write_names.
#![tactic(auto)]

mod adding;
mod given;
mod judge;
mod octets;
mod repeats;

ghost use Rattle.std.specs.Prelude.{◌≡◌, ◌∷◌, [], ◌≤◌, length, replicate};
ghost use Rattle.std.proofs.lemmas.List.Edits.{sets};
ghost use Rattle.format.specs.Tables.{link};
ghost use Rattle.tables.specs.Located.{start};
ghost use Rattle.tables.specs.Counts.{counts_of, table_words};
ghost use Rattle.tables.specs.Kept.{listed};
ghost use Rattle.index.specs.Indexed.{slots};
ghost use Rattle.write_head.specs.Promises.{Opens};
ghost use Rattle.write_head.specs.RowContracts.{Laid, presence_of};

use adding::add_tables;
use fields::put::put_part;
use format::refusals::Refusal;
use given::{is_given, presence};
use judge::judge;
use octets::put_head;
use tables::{Counts, put_counts};

// No tables: the header, as far as the output reaches, and the counts with which every document starts.
fn put_header(out: &mut [u8], counts: &mut [u32])
    requires { length counts.old ≡ 10 }
    ensures { (out.new ≡ sets out.old 0 (0xE0 ∷ 0x00 ∷ 0x00 ∷ 0x01 ∷ 0x00 ∷ [])) × (counts.new ≡ listed (counts_of (start link))) }
{
    let header = fields::HEADER;
    put_part(out, 0, &header, 0, fields::BODY);
    put_counts(counts, Counts::start());
}

// Tables that list something.
fn begin_head(
    given: &[u32],
    text: &[u8],
    out: &mut [u8],
    room: usize,
    t: &mut [u32],
    counts: &mut [u32],
    index: &mut [u8],
) -> Result<usize, Refusal>
    requires { (length text.now ≤ 16384) × (out.old ≡ replicate (length out.old) 0) × (t.old ≡ replicate table_words 0) × (length counts.old ≡ 10) × (index.old ≡ replicate slots 0) × Laid given.now × (presence_of given.now ≡ 0 → ⊥) }
    ensures { Opens given.now text.now room result out.new counts.new t.new index.new }
{
    judge(given, text)?;
    put_counts(counts, Counts::start());
    add_tables(text, given, t, counts, index)?;
    let at = put_head(out, given, text);
    if room < at || fields::OCTETS < at {
        return Err(Refusal::Room);
    }
    Ok(at)
}

// The octets before the body, judged by `room`, on output, tables and index that are clear; what the output has no place for is left out. A refusal leaves anything
// in them.
// Wrong would be: FULL for a table that is too full, where another lists something twice, which is REPEAT; a presence bit for a table that lists nothing.
pub fn begin(
    given: &[u32],
    text: &[u8],
    out: &mut [u8],
    room: usize,
    t: &mut [u32],
    counts: &mut [u32],
    index: &mut [u8],
) -> Result<usize, Refusal>
    requires { (length text.now ≤ 16384) × (out.old ≡ replicate (length out.old) 0) × (t.old ≡ replicate table_words 0) × (length counts.old ≡ 10) × (index.old ≡ replicate slots 0) }
    ensures { Opens given.now text.now room result out.new counts.new t.new index.new }
{
    if !is_given(given) {
        return Err(Refusal::Event);
    }
    if given.is_empty() || presence(given) == 0 {
        put_header(out, counts);
        return Ok(fields::BODY);
    }
    begin_head(given, text, out, room, t, counts, index)
}
