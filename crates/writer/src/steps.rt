// The records of words one by one: a step, then the quick lane as far as it goes.
ghost use Rattle.std.specs.Prelude.{◌≡◌, ◌/◌, ◌<◌, ◌≤◌, length};
ghost use Rattle.events.specs.FromWords.{records_of};
ghost use Rattle.writer.specs.LaneContracts.{Filed};
ghost use Rattle.writer.specs.RunContracts.{Small};
ghost use Rattle.writer.specs.RideContracts.{arrived_at, Learns, Rides, Leading, Through};

use crate::ahead::announces;
use crate::lane::{Lane, SLOTS, remember};
use events::{Kind, RECORD, is_kind, names_in_utf8};
use format::refusals::{Fault, Refusal};
use format::table::ELEMENT_NAME;
use states::State;
use write_items::items::step;

// Record i, with which the names of elements became n, is remembered if it is a Start that added its name: there were fewer before.
fn learn(memory: &mut [u32; SLOTS], records: &[u32], i: usize, before: u32, n: u32)
    requires { (i < length records.now / 14) × (i ≤ 32768) × (n ≤ 256) }
    ensures { Learns records.now i before n memory.old memory.new }
{
    if before < n && is_kind(records, i, Kind::Start) {
        remember(memory, records, i, n);
    }
}

// The records that the quick lane takes from number i on: it goes inside the root, among children.
fn ride(
    st: State,
    records: &[u32],
    memory: &[u32; SLOTS],
    out: &mut [u8],
    room: usize,
    i: usize,
) -> Lane
    requires { (st.at ≤ 32768) × (st.level ≤ 32) × Filed memory.now (length records.now / 14) }
    ensures { Rides records.now memory.now room i st out.old result out.new }
{
    let from = Lane {
        at: st.at,
        level: st.level,
        i,
        listing: false,
    };
    if st.mode != State::CONTENT || st.root == 0 {
        return from;
    }
    from.run(records, memory, out, room)
}

// Where the lane let the writer off: in an attribute list, if it ends with a Start that has attributes.
fn arrived(st: State, l: Lane) -> State
    ensures { result ≡ arrived_at st l }
{
    State {
        at: l.at,
        level: l.level,
        root: st.root,
        mode: if l.listing { State::LISTING } else { st.mode },
    }
}

// From the state before the first record to that after the last. The lane takes any number of records between two steps.
pub fn steps(
    records: &[u32],
    text: &[u8],
    out: &mut [u8],
    room: usize,
    t: &mut [u32],
    counts: &mut [u32],
    index: &mut [u8],
    first: State,
) -> Result<State, Fault>
    requires { Leading (records_of records.now) text.now room first counts.old out.old t.old index.old }
    ensures { Through (records_of records.now) text.now room first counts.old out.old t.old index.old result counts.new out.new t.new index.new × Small result }
{
    let n = records.len() / RECORD;
    let mut memory = [0u32; SLOTS];
    let mut st = first;
    let mut i = 0;
    while i < n {
        if !names_in_utf8(records, i) {
            return Err(Refusal::Event.at(i));
        }
        let e = events::from_words(records, i);
        let a = announces(st.mode, records, i);
        let before = counts[ELEMENT_NAME];
        let next = match step(st, text, t, counts, index, out, room, e, a) {
            Ok(next) => next,
            Err(refusal) => return Err(refusal.at(i)),
        };
        learn(&mut memory, records, i, before, counts[ELEMENT_NAME]);
        let l = ride(next, records, &memory, out, room, i + 1);
        st = arrived(next, l);
        i = l.i;
    }
    Ok(st)
}
