// A quick lane over words: Ends, and Starts whose words, but for the place, are those of an earlier one that is remembered with its
// name's number. Such records need no judging and no search; any other is left to the step.
ghost use Rattle.std.specs.Prelude.{◌≡◌, true, ◌+◌, ◌*◌, ◌/◌, ◌^◌, ◌<◌, ◌≤◌, length, get_or, replicate};
ghost use Rattle.events.specs.Records.{placed, unplaced, end_record};
ghost use Rattle.events.specs.FromWords.{record_at};
ghost use Rattle.writer.specs.LaneContracts.{SameWords, Filed, RecalledBy, Kept, Safe, Passes, Next, Started, Ended, Passable, Passed, Onward};

use events::{Kind, RECORD, is_kind, kinds, strings};
use fields::put::put_number;
use states::State;
use write_items::items::attribute_bit;
use write_items::output::put_end;

// The word of a record that has the place of its name.
const NAME_PLACE: usize = events::strings::NAME + 1;

// The bit of an element's first octet with which its name's number begins.
const NAME_BIT: u32 = 3;

// Octets of a Start by number, at most, with the one that the end before it may leave half filled.
const START_OCTETS: usize = 5;

// Starts that are remembered, at most.
pub const SLOTS: usize = 128;

// A remembered Start is the record's number times this, plus its name's number.
const NAMES: u32 = 512;

// What the lane takes: an End, or a Start by its name's number.
#[derive(Clone, Copy)]
enum Taken {
    End,
    Start(u32),
}

// Where the writer stands inside the root, after a Start or among children: the place in halves, the open elements, the next record,
// and whether attributes follow.
#[derive(Clone, Copy)]
pub struct Lane {
    pub at: usize,
    pub level: usize,
    pub i: usize,
    pub listing: bool,
}

// The three words say that there is no string.
fn no_string(w: &[u32], at: usize) -> bool
    requires { at + 3 ≤ length w.now }
    ensures { result ≡ true → SameWords w.now at (replicate 3 0) 0 }
{
    w[at] == 0 && (w[at + 1] == 0 && w[at + 2] == 0)
}

// Record i is that of an End.
fn is_end(w: &[u32], i: usize) -> bool
    requires { i < length w.now / 14 }
    ensures { result ≡ true → record_at w.now (14 * i) ≡ placed (get_or w.now (14 * i + 13) 0) end_record }
{
    let at = RECORD * i;
    w[at] == kinds::END
        && (no_string(w, at + strings::PREFIX)
            && (no_string(w, at + strings::NAMESPACE)
                && (no_string(w, at + strings::NAME) && no_string(w, at + strings::VALUE))))
}

fn same_string(w: &[u32], a: usize, b: usize) -> bool
    requires { (a + 3 ≤ length w.now) × (b + 3 ≤ length w.now) }
    ensures { result ≡ true → SameWords w.now a w.now b }
{
    w[a] == w[b] && (w[a + 1] == w[b + 1] && w[a + 2] == w[b + 2])
}

// Two records are of the same event: all words but the place are the same.
fn same_record(w: &[u32], i: usize, j: usize) -> bool
    requires { (i < length w.now / 14) × (j < length w.now / 14) }
    ensures { result ≡ true → unplaced (record_at w.now (14 * i)) ≡ unplaced (record_at w.now (14 * j)) }
{
    let a = RECORD * i;
    let b = RECORD * j;
    w[a] == w[b]
        && (same_string(w, a + strings::NAME, b + strings::NAME)
            && (same_string(w, a + strings::PREFIX, b + strings::PREFIX)
                && (same_string(w, a + strings::NAMESPACE, b + strings::NAMESPACE)
                    && same_string(w, a + strings::VALUE, b + strings::VALUE))))
}

// Where a Start is remembered, by the place of its local name.
fn slot(w: &[u32], i: usize) -> usize
    requires { i < length w.now / 14 }
    ensures { result < 128 }
{
    let place = w[RECORD * i + NAME_PLACE] as usize;
    (place + place / 64) % SLOTS
}

// The number of a record that is remembered.
fn record_of(m: u32) -> usize
    ensures { result ≡ m / 512 }
{
    (m / NAMES) as usize
}

// The number of the name of record i, if it is the same as a Start that is remembered.
fn recalled(w: &[u32], memory: &[u32; SLOTS], i: usize) -> Option<u32>
    requires { (i < length w.now / 14) × Filed memory.now (length w.now / 14) }
    ensures { RecalledBy w.now memory.now i result }
{
    let m = memory[slot(w, i)];
    if m != 0 && same_record(w, i, record_of(m)) {
        return Some(m % NAMES);
    }
    None
}

// The kinds that the lane takes. Most records are of another, and are left to the step at once.
fn is_of_lane(kind: u32) -> bool {
    kind == kinds::START || kind == kinds::END
}

// What is next. In front of the last octets that the room has everything is left to the step, which finds out what does not fit.
fn next(w: &[u32], memory: &[u32; SLOTS], l: Lane, room: usize) -> Option<Taken>
    requires { Safe w.now memory.now l }
    ensures { Next w.now memory.now l room result }
{
    if l.listing || w.len() / RECORD <= l.i {
        return None;
    }
    if !is_of_lane(w[RECORD * l.i]) || l.level == 0 {
        return None;
    }
    if room.min(fields::OCTETS) < l.at / 2 + START_OCTETS {
        return None;
    }
    if is_end(w, l.i) {
        return Some(Taken::End);
    }
    if State::LEVELS <= l.level {
        return None;
    }
    Some(Taken::Start(recalled(w, memory, l.i)?))
}

impl Lane {
    // A Start, by its name's number.
    fn opened(self, w: &[u32], out: &mut [u8], k: u32) -> Lane
        requires { (self.at ≤ 32768) × (self.level ≤ 32) × (self.i < length w.now / 14) × (1 ≤ k) × (k ≤ 256) }
        ensures { Started w.now self out.old k result out.new }
    {
        let a = is_kind(w, self.i + 1, Kind::Attribute);
        let at = put_number(out, (self.at + 1) / 2, NAME_BIT, attribute_bit(a), k);
        Lane {
            at: 2 * at,
            level: self.level + 1,
            i: self.i + 1,
            listing: a,
        }
    }

    fn closed(self, out: &mut [u8]) -> Lane
        requires { (self.at ≤ 32768) × (0 < self.level) × (self.i ≤ 2 ^ 60) }
        ensures { Ended self out.old result out.new }
    {
        put_end(out, self.at);
        Lane {
            at: self.at + 1,
            level: self.level - 1,
            i: self.i + 1,
            listing: false,
        }
    }

    // The record that is next.
    fn pass(self, w: &[u32], out: &mut [u8], next: Taken) -> Lane
        requires { Passable w.now self next }
        ensures { Passed w.now self out.old next result out.new }
    {
        match next {
            Taken::End => self.closed(out),
            Taken::Start(k) => self.opened(w, out, k),
        }
    }

    // As far as the lane goes.
    pub fn run(self, w: &[u32], memory: &[u32; SLOTS], out: &mut [u8], room: usize) -> Lane
        requires { Safe w.now memory.now self }
        ensures { Safe w.now memory.now result × Onward self.i result.i (length w.now / 14) × Passes w.now memory.now room self out.old result out.new }
    {
        let mut l = self;
        while let Some(taken) = next(w, memory, l, room) {
            l = l.pass(w, out, taken);
        }
        l
    }
}

// Start i, whose name has the number k, is remembered in place of the one before it there.
pub fn remember(memory: &mut [u32; SLOTS], w: &[u32], i: usize, k: u32)
    requires { (i < length w.now / 14) × (i ≤ 32768) × (k ≤ 256) }
    ensures { Kept memory.old i k memory.new }
{
    let s = slot(w, i);
    memory[s] = i as u32 * NAMES + k;
}
