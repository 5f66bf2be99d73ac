// Reading into a lent row of records: each event into the next one, the tables into their words, by the same steps as
// the reader for C.
// May depend on format, fields, tables, index, states, events, read_names, read_head, read_items and reader.
#![tactic(auto)]

ghost use Rattle.std.specs.Prelude.{◌≡◌, ◌≤◌, length, replicate};
ghost use Rattle.format.specs.Tables.{link};
ghost use Rattle.tables.specs.Rows.{vocabulary};
ghost use Rattle.tables.specs.Kept.{listed};
ghost use Rattle.events.specs.Records.{blank};
ghost use Rattle.read_names.specs.Promises.{Tidy};
ghost use Rattle.read_items.specs.Steps.{step};
ghost use Rattle.read_items.specs.Promises.{lent, Good, Met};
ghost use Rattle.reader.specs.Reading.{origin, Leaves, read_of};
ghost use Rattle.reader.specs.LaneContracts.{whole};
ghost use Rattle.read_rows.specs.Promises.{Filled, left_by};

use events::{Event, RECORD};
use format::refusals::{Fault, Refusal};
use read_items::Step;
use reader::Accepted;
use states::State;
use tables::Counts;

// What a step leaves of the counts, and its answer.
#[derive(Clone, Copy)]
struct Stepped {
    counts: Counts,
    step: Result<Step, Fault>,
}

// One step on counts by value, whose event is kept in the record.
fn advance(
    st: State,
    s: &[u8],
    tables: &mut [u32],
    counts: Counts,
    index: &mut [u8],
    record: &mut [u32],
) -> Stepped
    requires { Good s.now st (lent tables.old (listed counts) index.old record.old) }
    ensures { Met s.now st 0 (lent tables.old (listed counts) index.old record.old) result.step (lent tables.new (listed result.counts) index.new record.new) (step link s.now) }
{
    let mut words = [0u32; Counts::TABLES];
    tables::put_counts(&mut words, counts);
    let step = read_items::items::step(st, s, tables, &mut words, index, record, 0);
    Stepped {
        counts: tables::counts_in(&words),
        step,
    }
}

// The same on counts that are lent.
fn step(
    st: State,
    s: &[u8],
    tables: &mut [u32],
    counts: &mut Counts,
    index: &mut [u8],
    record: &mut [u32],
) -> Result<Step, Fault>
    requires { Good s.now st (lent tables.old (listed counts.old) index.old record.old) }
    ensures { Met s.now st 0 (lent tables.old (listed counts.old) index.old record.old) result (lent tables.new (listed counts.new) index.new record.new) (step link s.now) }
{
    let stepped = advance(st, s, tables, *counts, index, record);
    *counts = stepped.counts;
    stepped.step
}

// Steps from the first item to the document's end, each event into the next record of a row that is blank. The answer
// is the number of events.
fn fill(
    s: &[u8],
    events: &mut [Event],
    tables: &mut [u32],
    counts: &mut Counts,
    index: &mut [u8],
    body: usize,
) -> Result<u32, Fault>
    requires { (body ≤ length s.now) × Tidy s.now (listed counts.old) tables.old index.old × (events.old ≡ replicate (length events.old) blank) }
    ensures { Filled result counts.new events.new tables.new (whole s.now (length events.old) (origin body (vocabulary counts.old tables.old))) (length events.old) }
{
    let mut st = State::begin(body);
    let mut n = 0;
    for _ in 0..2 * s.len() + 1 {
        let mut record = [0u32; RECORD];
        match step(st, s, tables, counts, index, &mut record)? {
            Step::Event(next, place) => {
                if n == events.len() {
                    return Err(Refusal::Room.at(place));
                }
                events::store(events, n, events::from_words(&record, 0));
                n += 1;
                st = next;
            }
            Step::Quiet(next) => {
                st = next;
            }
            Step::Done => {
                return Ok(n as u32);
            }
        }
    }
    Err(Refusal::Truncated.at(st.at / 2))
}

// A document, into a row and tables. On a refusal, what was read before it is left in them, or what stood there.
fn into_row(octets: &[u8], events: &mut [Event], tables: &mut [u32]) -> Result<Accepted, Fault>
    ensures { left_by result (length events.old) (length tables.old) events.new tables.new ≡ read_of link octets.now (length events.old) (length tables.old) }
{
    if !reader::sized(octets) {
        return Err(Refusal::Size.at(0));
    }
    if tables.len() != Counts::WORDS {
        return Err(Refusal::Room.at(0));
    }
    wipe(events, tables);
    let mut words = [0u32; Counts::TABLES];
    let mut index = [0u8; index::SLOTS];
    let body = reader::begun(octets, tables, &mut words, &mut index)?;
    let mut counts = tables::counts_in(&words);
    let events = fill(octets, events, tables, &mut counts, &mut index, body)?;
    Ok(Accepted { events, counts })
}

// All the room that was lent is made blank.
fn wipe(events: &mut [Event], tables: &mut [u32])
    ensures { (events.new ≡ replicate (length events.old) blank) × (tables.new ≡ replicate (length tables.old) 0) }
{
    events::blank_from(events, 0);
    tables::clear(tables);
}

// Any octets, any room. Nothing of what was in the room before is left in it.
// Wrong would be: on a refusal, records that are left of events before the fault; on acceptance, counts that go on
// from those of an earlier document.
pub fn read(octets: &[u8], events: &mut [Event], tables: &mut [u32]) -> Result<Accepted, Fault>
    ensures { Leaves result events.new tables.new (read_of link octets.now (length events.old) (length tables.old)) }
{
    let answer = into_row(octets, events, tables);
    if answer.is_err() {
        wipe(events, tables);
    }
    answer
}
