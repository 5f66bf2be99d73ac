// A run: the head, then the events one by one, then the document's end. `steps` takes the records out of words, and crate
// `write_rows` out of a row. The writer for C is such a run.
ghost use Rattle.std.specs.Prelude.{◌≡◌, ◌&&◌, ◌≤◌, ◌+◌, ◌*◌, eqb, length, replicate};
ghost use Rattle.format.specs.Tables.{link};
ghost use Rattle.format.specs.Refusals.{refusal_number};
ghost use Rattle.index.specs.Indexed.{slots};
ghost use Rattle.states.specs.States.{mode_of, root_of};
ghost use Rattle.events.specs.FromWords.{records_of};
ghost use Rattle.write_items.specs.Events.{is_content};
ghost use Rattle.writer.specs.Words.{leaving, write_words, measured, measure_words};
ghost use Rattle.writer.specs.RanContracts.{ran_of, ran_words};
ghost use Rattle.writer.specs.RunContracts.{Finishes, Readies, Small, left_by, remains};

use crate::steps::steps;
use events::RECORD;
use format::refusals::{Fault, Refusal};
use states::State;
use tables::Counts;
use write_items::output;

// After the root, where the document may end.
fn complete(st: State) -> bool
    ensures { result ≡ (is_content (mode_of st.mode) && (eqb st.level 0 && root_of st.root)) }
{
    st.mode == State::CONTENT && (st.level == 0 && st.root != 0)
}

// The document's end after i events: owed too soon, no room, or written. The answer is the number of octets.
pub fn ended(st: State, out: &mut [u8], room: usize, i: usize) -> Result<u32, Fault>
    requires { (st.at ≤ 32768) × (i ≤ 32768) }
    ensures { Finishes room st out.old i result out.new × Small result }
{
    if !complete(st) {
        return Err(Refusal::Event.at(i));
    }
    let octets = (st.at + 2) / 2;
    if room.min(fields::OCTETS) < octets {
        return Err(Refusal::Room.at(i));
    }
    output::put_end(out, st.at);
    Ok(octets as u32)
}

// The size, then the table room, then the head, judged by `room`, into output and tables that are clear. The index is empty at
// first. The answer is where the writer stands then.
pub fn begun(
    given: &[u32],
    text: &[u8],
    out: &mut [u8],
    room: usize,
    t: &mut [u32],
    counts: &mut [u32],
    index: &mut [u8],
) -> Result<State, Fault>
    requires { (out.old ≡ replicate (length out.old) 0) × (t.old ≡ replicate (length t.old) 0) × (length counts.old ≡ 10) × (index.old ≡ replicate slots 0) }
    ensures { Readies given.now text.now room (length t.old) result counts.new out.new t.new index.new × Small result }
{
    if fields::OCTETS < text.len() {
        return Err(Refusal::Size.at(0));
    }
    if t.len() != Counts::WORDS {
        return Err(Refusal::Room.at(0));
    }
    match write_head::begin(given, text, out, room, t, counts, index) {
        Ok(body) => Ok(State::begin(body)),
        Err(refusal) => Err(refusal.at(0)),
    }
}

// All that was lent is made 0.
pub fn wipe(out: &mut [u8], tables: &mut [u32])
    ensures { (out.new ≡ replicate (length out.old) 0) × (tables.new ≡ replicate (length tables.old) 0) }
{
    output::clear(out);
    tables::clear(tables);
}

// The records of words, into output and tables that are 0. On a refusal, what was written before it is left in them.
fn written(
    given: &[u32],
    records: &[u32],
    text: &[u8],
    out: &mut [u8],
    room: usize,
    t: &mut [u32],
    counts: &mut [u32],
) -> Result<u32, Fault>
    requires { (out.old ≡ replicate (length out.old) 0) × (t.old ≡ replicate (length t.old) 0) × (length counts.old ≡ 10) }
    ensures { (remains (length out.old) (length t.old) result counts.new out.new t.new ≡ ran_of given.now (records_of records.now) text.now room (length out.old) (length t.old)) × Small result }
{
    let mut index = [0u8; index::SLOTS];
    let first = begun(given, text, out, room, t, counts, &mut index)?;
    let last = steps(records, text, out, room, t, counts, &mut index, first)?;
    ended(last, out, room, records.len() / RECORD)
}

// The same with any room, whatever stood there: it is wiped where something is to be written, so that a refusal of the
// lengths alone wipes it once.
fn into_words(
    given: &[u32],
    records: &[u32],
    text: &[u8],
    out: &mut [u8],
    room: usize,
    tables: &mut [u32],
    counts: &mut [u32],
) -> Result<u32, Fault>
    ensures { (left_by result (length out.old) (length tables.old) (length counts.old) out.new tables.new counts.new ≡ ran_words given.now records.now text.now room (length out.old) (length tables.old) (length counts.old)) × Small result }
{
    if fields::OCTETS < text.len() {
        return Err(Refusal::Size.at(0));
    }
    if counts.len() != Counts::TABLES {
        return Err(Refusal::Room.at(0));
    }
    if tables.len() != Counts::WORDS {
        return Err(Refusal::Room.at(0));
    }
    wipe(out, tables);
    written(given, records, text, out, room, tables, counts)
}

// A refusal for C: the event's number times 32 plus the refusal's.
fn number(f: Fault) -> u32
    requires { f.at ≤ 32768 }
    ensures { result ≡ f.at * 32 + refusal_number f.refusal }
{
    f.at as u32 * 32 + f.refusal.number()
}

// Tables for the head in words, records in words, and a text area, into octets, the tables and the ten counts. The answer has the
// octet count above its low 32 bits, and in them 0 or the refusal for C, which leaves every octet and word 0. What fits is judged
// by `room`; of a document that is longer than the output, this holds the first octets.
fn in_words(
    given: &[u32],
    records: &[u32],
    text: &[u8],
    out: &mut [u8],
    room: usize,
    tables: &mut [u32],
    counts: &mut [u32],
) -> u64
    ensures { leaving result out.new tables.new counts.new ≡ ran_words given.now records.now text.now room (length out.old) (length tables.old) (length counts.old) }
{
    match into_words(given, records, text, out, room, tables, counts) {
        Ok(octets) => u64::from(octets) << 32,
        Err(f) => {
            wipe(out, tables);
            tables::clear(counts);
            u64::from(number(f))
        }
    }
}

// Writing: the room is the output that is lent.
// Wrong would be: on a refusal, octets that are left of the head or of events before the fault; on acceptance, an octet after the
// document that stood there before the call.
pub fn write_words(
    given: &[u32],
    records: &[u32],
    text: &[u8],
    out: &mut [u8],
    tables: &mut [u32],
    counts: &mut [u32],
) -> u64
    ensures { leaving result out.new tables.new counts.new ≡ write_words link given.now records.now text.now (length out.old) (length tables.old) (length counts.old) }
{
    in_words(given, records, text, out, out.len(), tables, counts)
}

// Measuring: the room is that of the longest document, and no output is lent.
// Wrong would be: ROOM by the length of the output, which is 0; a count without the last octet, where the document's end fills only
// half of it.
pub fn measure_words(
    given: &[u32],
    records: &[u32],
    text: &[u8],
    tables: &mut [u32],
    counts: &mut [u32],
) -> u64
    ensures { measured result tables.new counts.new ≡ measure_words link given.now records.now text.now (length tables.old) (length counts.old) }
{
    in_words(
        given,
        records,
        text,
        &mut [],
        fields::OCTETS,
        tables,
        counts,
    )
}
