// A quick lane for what most of a document is: elements and chunks by number, spelled chunks, and ends. It takes as
// many of them as it can, each as a step would, without a step's answer around it. All else is left to the step:
// other items, strings that are not in utf-8, every fault, the root's end, and an event for which there is no record.
ghost use Rattle.std.specs.Prelude.{◌≡◌, ◌+◌, ◌-◌, ◌*◌, ◌/◌, ◌<◌, ◌≤◌, length, get_or, slice_range};
ghost use Rattle.fields.specs.Utf8.{is_text};
ghost use Rattle.tables.specs.Counts.{table_words};
ghost use Rattle.tables.specs.Rows.{triple_at};
ghost use Rattle.events.specs.declared.EventString.TheVariants.{Absent};
ghost use Rattle.events.specs.declared.Kind.TheVariants.{Start};
ghost use Rattle.events.specs.Kept.{kept};
ghost use Rattle.read_names.specs.Promises.{name_strings_at, NameThere};
ghost use Rattle.read_items.specs.ItemContracts.{named_record};
ghost use Rattle.reader.specs.LaneContracts.{Tidied, enters_lane, Stands, Skims, Takes, Advances, ReadsShort, AddsChunk, KeepsChunk};

use events::EventString;
use fields::{Cursor, Read, bits};
use format::StringForm;
use format::table::{CONTENT_CHARACTER_CHUNK, ELEMENT_NAME, LOCAL_NAME};
use states::State;
use tables::Counts;

// Where the lane stands: at an octet among children, inside the root, after n events.
#[derive(Clone, Copy)]
struct Lane {
    at: usize,
    level: usize,
    n: usize,
}

// Where the reader stands after the lane, and the number of events.
#[derive(Clone, Copy)]
pub struct Ahead {
    pub state: State,
    pub n: usize,
}

// The row that a number of one octet or two names: b is what its bits of the first octet hold, of which those below
// `ones` stand alone.
fn row_at(s: &[u8], at: usize, b: u8, ones: u8) -> Read<u32>
    requires { (at + 1 < length s.now) × (ones ≤ 64) × (b < ones + ones / 4) }
    ensures { ReadsShort s.now at b ones result }
{
    if b < ones {
        return Read {
            value: u32::from(b),
            next: Cursor { at: at + 1 },
        };
    }
    Read {
        value: 256 * u32::from(b - ones) + u32::from(s[at + 1]) + u32::from(ones),
        next: Cursor { at: at + 2 },
    }
}

// The Start at octet k of the element whose name is in row i, where there is a record for it. Most names have a local
// name alone.
fn keep_start(t: &[u32], records: &mut [u32], n: usize, k: usize, i: u32)
    requires { (k < 0x1_0000_0000) × NameThere t.now 8 (i + 1) × (1 ≤ (triple_at t.now (768 * 8 + 3 * (i + 1 - 1))).local) }
    ensures { records.new ≡ kept records.old n k (named_record Start (name_strings_at t.now 8 (i + 1)) Absent) }
{
    if !events::has_record(records, n) {
        return;
    }
    let x = tables::entry(t, ELEMENT_NAME, i);
    if x.a == 0 && x.b == 0 {
        let y = tables::entry(t, LOCAL_NAME, x.c - 1);
        if y.b != 0 {
            let e = events::start(
                EventString::Absent,
                EventString::Absent,
                EventString::Stretch(StringForm::Utf8, y.a, y.b),
            );
            events::keep(records, n, k, e);
            return;
        }
    }
    let z = read_names::strings_of(t, ELEMENT_NAME, i + 1);
    let e = events::start(z.prefix, z.namespace, z.local);
    events::keep(records, n, k, e);
}

// The chunk at octet k that is in row i, where there is a record for it; one that is not in utf-8 is left to the step.
fn keep_chunk(t: &[u32], records: &mut [u32], n: usize, k: usize, i: u32) -> Option<()>
    requires { (k < 0x1_0000_0000) × (length t.now ≡ table_words) × (i < 256) }
    ensures { KeepsChunk result t.now i records.old n k records.new }
{
    if !events::has_record(records, n) {
        return Some(());
    }
    let x = tables::entry(t, CONTENT_CHARACTER_CHUNK, i);
    if x.c != 0 || x.b == 0 {
        return None;
    }
    let e = events::chunk(EventString::Stretch(StringForm::Utf8, x.a, x.b));
    events::keep(records, n, k, e);
    Some(())
}

// An element by a number of one octet or two, whose first is o.
fn element(
    s: &[u8],
    t: &[u32],
    counts: &[u32],
    records: &mut [u32],
    lane: Lane,
    o: u8,
) -> Option<Lane>
    requires { Stands s.now counts.now t.now lane × (o ≡ get_or s.now lane.at 0) × (o < 0x28) }
    ensures { Takes s.now (lane.n + 1) lane t.now counts.now records.old result t.now counts.now records.new }
{
    let name = row_at(s, lane.at, o, 0x20);
    if counts[ELEMENT_NAME] <= name.value || State::LEVELS <= lane.level {
        return None;
    }
    keep_start(t, records, lane.n, lane.at, name.value);
    Some(Lane {
        at: name.next.at,
        level: lane.level + 1,
        n: lane.n + 1,
    })
}

// A chunk by a number of one octet or two, whose first is o.
fn chunk(
    s: &[u8],
    t: &[u32],
    counts: &[u32],
    records: &mut [u32],
    lane: Lane,
    o: u8,
) -> Option<Lane>
    requires { Stands s.now counts.now t.now lane × (o ≡ get_or s.now lane.at 0) × (0xA0 ≤ o) × (o < 0xB4) }
    ensures { Takes s.now (lane.n + 1) lane t.now counts.now records.old result t.now counts.now records.new }
{
    let string = row_at(s, lane.at, o - 0xA0, 0x10);
    if counts[CONTENT_CHARACTER_CHUNK] <= string.value {
        return None;
    }
    keep_chunk(t, records, lane.n, lane.at, string.value)?;
    Some(Lane {
        at: string.next.at,
        level: lane.level,
        n: lane.n + 1,
    })
}

// An end that is not the root's, with an item after its padding.
fn end(s: &[u8], t: &[u32], counts: &[u32], records: &mut [u32], lane: Lane) -> Option<Lane>
    requires { Stands s.now counts.now t.now lane × (get_or s.now lane.at 0 ≡ 0xF0) }
    ensures { Takes s.now (lane.n + 1) lane t.now counts.now records.old result t.now counts.now records.new }
{
    let next = lane.at + 1;
    if lane.level < 2 || 0xF0 <= s[next] {
        return None;
    }
    let e = events::end();
    events::keep(records, lane.n, lane.at, e);
    Some(Lane {
        at: next,
        level: lane.level - 1,
        n: lane.n + 1,
    })
}

// The octets from `from` to before `to` are text. One or two are looked at here, so that they cost no call. Others are
// told where they stand: short ones are loaded with the octets after them, which a part of s does not have.
fn is_text(s: &[u8], from: usize, to: usize) -> bool
    requires { (from ≤ to) × (to ≤ length s.now) }
    ensures { result ≡ is_text (slice_range s.now from to) }
{
    match &s[from..to] {
        [a] if fields::is_plain(*a) => true,
        [a, b] if fields::is_plain(*a) && fields::is_plain(*b) => true,
        _ => fields::is_text(s, from, to),
    }
}

// A row more of chunks, where one is to be added and there is room for it.
#[tactic(auto, unfolding(read_names::specs::StringContracts::added_of, read_names::specs::StringContracts::added_counts, read_names::specs::StringContracts::added_words))]
fn added(t: &mut [u32], counts: &mut [u32], place: u32, size: u32, add: bool) -> Option<()>
    requires { (length t.old ≡ table_words) × (length counts.old ≡ 10) }
    ensures { AddsChunk result counts.old t.old place size add counts.new t.new }
{
    if !add {
        return Some(());
    }
    let count = counts[CONTENT_CHARACTER_CHUNK];
    if Counts::ENTRIES <= count {
        return None;
    }
    tables::add(t, CONTENT_CHARACTER_CHUNK, count, place, size, 0);
    counts[CONTENT_CHARACTER_CHUNK] = count + 1;
    Some(())
}

// A spelled chunk, whose first octet is o.
fn spelled(
    s: &[u8],
    t: &mut [u32],
    counts: &mut [u32],
    records: &mut [u32],
    lane: Lane,
    o: u8,
) -> Option<Lane>
    requires { Stands s.now counts.old t.old lane × (o ≡ get_or s.now lane.at 0) × (0x80 ≤ o) × (o < 0xA0) }
    ensures { Takes s.now (lane.n + 1) lane t.old counts.old records.old result t.new counts.new records.new }
{
    if bits(o, 5, 6) != 0 {
        return None;
    }
    let length = Cursor { at: lane.at }.length(s, 7).ok()?;
    let place = length.next.at;
    let size = length.value as usize;
    if s.len() - place < size || !is_text(s, place, place + size) {
        return None;
    }
    added(t, counts, place as u32, size as u32, bits(o, 4, 4) == 1)?;
    let e = events::chunk(EventString::Stretch(StringForm::Utf8, place as u32, size as u32));
    events::keep(records, lane.n, lane.at, e);
    Some(Lane {
        at: place + size,
        level: lane.level,
        n: lane.n + 1,
    })
}

// One item, where the lane takes it: another octet stands after its first, and there are fewer than `full` events.
fn item(
    s: &[u8],
    t: &mut [u32],
    counts: &mut [u32],
    records: &mut [u32],
    full: usize,
    lane: Lane,
) -> Option<Lane>
    requires { Tidied s.now counts.old t.old × (1 ≤ lane.level) × (lane.at ≤ 16384) × (full ≤ 65536) }
    ensures { Takes s.now full lane t.old counts.old records.old result t.new counts.new records.new }
{
    if s.len() <= lane.at + 1 || full <= lane.n {
        return None;
    }
    let o = s[lane.at];
    match o {
        0x00..=0x27 => element(s, t, counts, records, lane, o),
        0x80..=0x9F => spelled(s, t, counts, records, lane, o),
        0xA0..=0xB3 => chunk(s, t, counts, records, lane, o),
        0xF0 => end(s, t, counts, records, lane),
        _ => None,
    }
}

// Items as long as the lane takes them and there are fewer than `full` events.
fn items(
    s: &[u8],
    t: &mut [u32],
    counts: &mut [u32],
    records: &mut [u32],
    full: usize,
    from: Lane,
) -> Lane
    requires { Tidied s.now counts.old t.old × (1 ≤ from.level) × (from.at ≤ 16384) × (from.n ≤ full) × (full ≤ 65536) }
    ensures { Skims s.now full from t.old counts.old records.old result t.new counts.new records.new }
{
    let mut lane = from;
    while let Some(next) = item(s, t, counts, records, full, lane) {
        lane = next;
    }
    lane
}

// The lane may be entered: at the start of an octet among children, inside the root.
#[tactic(auto, unfolding(crate::specs::LaneContracts::enters_lane))]
fn enters(st: State) -> bool
    ensures { result ≡ enters_lane st }
{
    st.mode == State::CONTENT && st.root == 1 && 0 < st.level && st.at % 2 == 0
}

// From a state and n events on, with records for `room` events and `left` steps that may still be taken, of which one
// is left after the lane.
pub fn skim(
    s: &[u8],
    t: &mut [u32],
    counts: &mut [u32],
    records: &mut [u32],
    room: usize,
    left: usize,
    st: State,
    n: usize,
) -> Ahead
    requires { Tidied s.now counts.old t.old × (0 < left) × (n + left ≤ 65536) × (n ≤ room) × (st.at ≤ 32768) }
    ensures { Advances s.now room left st n t.old counts.old records.old result.state result.n t.new counts.new records.new }
{
    if !enters(st) {
        return Ahead { state: st, n };
    }
    let from = Lane {
        at: st.at / 2,
        level: st.level,
        n,
    };
    let to = items(s, t, counts, records, room.min(n + left - 1), from);
    let state = State {
        at: 2 * to.at,
        level: to.level,
        root: 1,
        mode: State::CONTENT,
    };
    Ahead { state, n: to.n }
}
