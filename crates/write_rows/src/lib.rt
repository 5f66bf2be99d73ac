// Writing from a lent row of records: its records one by one, into lent output and tables, by the same steps as the writer for C.
// May depend on format, fields, forms, tables, index, states, events, write_names, write_head, write_items and writer.
#![tactic(auto)]

mod ahead;

ghost use Rattle.std.specs.Prelude.{◌≡◌, length, replicate};
ghost use Rattle.format.specs.Tables.{link};
ghost use Rattle.writer.specs.Writing.{Leaves, write_of};
ghost use Rattle.write_rows.specs.Promises.{left_by};

use ahead::announces;
use events::Event;
use format::refusals::Fault;
use tables::Counts;
use write_items::items::step;
use writer::Accepted;

// The records of a row, one by one, into output and tables that are 0. On a refusal, what was written before it is left in them.
fn written(
    given: &[u32],
    events: &[Event],
    text: &[u8],
    out: &mut [u8],
    tables: &mut [u32],
) -> Result<Accepted, Fault>
    requires { (out.old ≡ replicate (length out.old) 0) × (tables.old ≡ replicate (length tables.old) 0) }
    ensures { left_by result (length out.old) (length tables.old) out.new tables.new ≡ write_of link given.now events.now text.now (length out.old) (length tables.old) }
{
    let room = out.len();
    let mut index = [0u8; index::SLOTS];
    let mut counts = [0u32; Counts::TABLES];
    let mut st = writer::begun(given, text, out, room, tables, &mut counts, &mut index)?;
    for i in 0..events.len() {
        let a = announces(st.mode, events, i);
        match step(
            st,
            text,
            tables,
            &mut counts,
            &mut index,
            out,
            room,
            events::load(events, i),
            a,
        ) {
            Ok(next) => st = next,
            Err(refusal) => return Err(refusal.at(i)),
        }
    }
    let octets = writer::ended(st, out, room, events.len())?;
    Ok(Accepted {
        octets,
        counts: tables::counts_in(&counts),
    })
}

// Any words for the head, any row of records, any text area, any room. Nothing of what was in the room before is left in it.
// Wrong would be: on a refusal, octets that are left of events before the fault; on acceptance, tables that go on from those of an
// earlier document.
pub fn write(
    given: &[u32],
    events: &[Event],
    text: &[u8],
    out: &mut [u8],
    tables: &mut [u32],
) -> Result<Accepted, Fault>
    ensures { Leaves result out.new tables.new (write_of link given.now events.now text.now (length out.old) (length tables.old)) }
{
    writer::wipe(out, tables);
    let answer = written(given, events, text, out, tables);
    if answer.is_err() {
        writer::wipe(out, tables);
    }
    answer
}
