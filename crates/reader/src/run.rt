// A run: what stands before the first item, then steps until the document's end. Each turn takes what the quick lane
// takes, which is some steps at once, and then one step; the lane decides and refuses nothing of its own. The check
// and the reader for C are such runs.
ghost use Rattle.std.specs.Prelude.{◌≡◌, ◌≤◌, length, replicate};
ghost use Rattle.format.specs.Tables.{link};
ghost use Rattle.tables.specs.Counts.{table_words};
ghost use Rattle.tables.specs.Rows.{vocabulary};
ghost use Rattle.tables.specs.Kept.{unlisted};
ghost use Rattle.index.specs.Indexed.{slots};
ghost use Rattle.read_names.specs.Promises.{Tidy};
ghost use Rattle.reader.specs.Reading.{sized, opening, origin, reading, check_of};
ghost use Rattle.reader.specs.RunContracts.{Opened, Starts, Ran, Small, fault_number, left_by};
ghost use Rattle.reader.specs.LaneContracts.{whole};
ghost use Rattle.reader.specs.Words.{leaving, read_words};

use crate::lane;
use events::RECORD;
use format::refusals::{Fault, Refusal};
use read_items::Step;
use states::State;
use tables::Counts;

// Event records that the check counts: one for each half of the longest document.
const CHECKED: usize = 2 * fields::OCTETS;

// Octets of the identification. After them, the header has one more.
const FIRST: usize = fields::BODY - 1;

// The octet after the header: a head starts there, or the body.
#[derive(Clone, Copy)]
enum Front {
    Head(usize),
    Body(usize),
}

#[tactic(auto, unfolding(crate::specs::Reading::sized, format::specs::Tables::link))]
pub fn sized(s: &[u8]) -> bool
    ensures { result ≡ sized link s.now }
{
    !s.is_empty() && s.len() <= fields::OCTETS
}

// The header: the size, the identification, the octet after it.
#[tactic(auto, unfolding(crate::specs::Reading::opening, format::specs::Tables::link))]
fn opened(s: &[u8]) -> Result<Front, Fault>
    ensures { Opened s.now result (opening link s.now) }
{
    if !sized(s) {
        return Err(Refusal::Size.at(0));
    }
    if s.len() < FIRST {
        return Err(Refusal::Truncated.at(0));
    }
    if !s.starts_with(&fields::HEADER[..FIRST]) {
        return Err(Refusal::Header.at(0));
    }
    if s.len() == FIRST {
        return Err(Refusal::Truncated.at(FIRST));
    }
    match s[FIRST] {
        0 => Ok(Front::Body(fields::BODY)),
        fields::HEAD => Ok(Front::Head(fields::BODY)),
        0x80..=0xFF => Err(Refusal::Padding.at(FIRST)),
        _ => Err(Refusal::OptionalPart.at(FIRST)),
    }
}

// What stands before the first item, into tables and an index that are clear: where the body starts, with the starting
// tables or those of a head.
pub fn begun(s: &[u8], t: &mut [u32], counts: &mut [u32], index: &mut [u8]) -> Result<usize, Fault>
    requires { (t.old ≡ replicate table_words 0) × (length counts.old ≡ 10) × (index.old ≡ replicate slots 0) }
    ensures { Starts s.now result counts.new t.new index.new }
{
    tables::put_counts(counts, Counts::start());
    match opened(s)? {
        Front::Body(at) => Ok(at),
        Front::Head(at) => read_head::head(s, t, counts, index, at),
    }
}

// Steps from the first item to the document's end, with records for `room` events; `records` keeps those for which it
// has words. The answer is the number of events.
fn steps(
    s: &[u8],
    t: &mut [u32],
    counts: &mut [u32],
    index: &mut [u8],
    records: &mut [u32],
    room: usize,
    body: usize,
) -> Result<u32, Fault>
    requires { (body ≤ length s.now) × Tidy s.now counts.old t.old index.old }
    ensures { Ran room records.old result counts.new t.new records.new (whole s.now room (origin body (vocabulary (unlisted counts.old) t.old))) }
{
    let mut st = State::begin(body);
    let mut n = 0;
    let mut left = 2 * s.len() + 1;
    while 0 < left {
        let y = lane::skim(s, t, counts, records, room, left, st, n);
        left = n + left - y.n - 1;
        n = y.n;
        match read_items::items::step(y.state, s, t, counts, index, records, n)? {
            Step::Event(next, place) => {
                if n == room {
                    return Err(Refusal::Room.at(place));
                }
                n += 1;
                st = next;
            }
            Step::Quiet(next) => {
                st = next;
            }
            Step::Done => {
                return Ok(n as u32);
            }
        }
    }
    Err(Refusal::Truncated.at(st.at / 2))
}

// A document, with tables that are clear.
fn reading(
    s: &[u8],
    t: &mut [u32],
    counts: &mut [u32],
    records: &mut [u32],
    room: usize,
) -> Result<u32, Fault>
    requires { (t.old ≡ replicate table_words 0) × (length counts.old ≡ 10) }
    ensures { Ran room records.old result counts.new t.new records.new (reading link s.now room) }
{
    let mut index = [0u8; index::SLOTS];
    let body = begun(s, t, counts, &mut index)?;
    steps(s, t, counts, &mut index, records, room, body)
}

// A refusal for C: the place times 32 plus the number.
fn number(f: Fault) -> u32
    requires { f.at ≤ 16384 }
    ensures { result ≡ fault_number f }
{
    f.at as u32 * 32 + f.refusal.number()
}

// Any octets, as a reader with 32,768 event records, of which none is held: 0, or the refusal for C.
// Wrong would be: ROOM, since it needs no records; 0 for a document with octets after its end, which is STRUCTURE.
pub fn check(octets: &[u8]) -> u32
    ensures { result ≡ check_of link octets.now }
{
    let mut t = [0u32; Counts::WORDS];
    let mut counts = [0u32; Counts::TABLES];
    match reading(octets, &mut t, &mut counts, &mut [], CHECKED) {
        Ok(_) => 0,
        Err(f) => number(f),
    }
}

// All words are made 0.
fn wipe(records: &mut [u32], tables: &mut [u32], counts: &mut [u32])
    ensures { (records.new ≡ replicate (length records.old) 0) × (tables.new ≡ replicate (length tables.old) 0) × (counts.new ≡ replicate (length counts.old) 0) }
{
    tables::clear(records);
    tables::clear(tables);
    tables::clear(counts);
}

// A document into words. On a refusal, what was read before it is left in them, or what stood there.
fn into_words(
    octets: &[u8],
    records: &mut [u32],
    tables: &mut [u32],
    counts: &mut [u32],
) -> Result<u32, Fault>
    ensures { (left_by result (length records.old) (length tables.old) (length counts.old) records.new tables.new counts.new ≡ read_words link octets.now (length records.old) (length tables.old) (length counts.old)) × Small result }
{
    if !sized(octets) {
        return Err(Refusal::Size.at(0));
    }
    if tables.len() != Counts::WORDS || counts.len() != Counts::TABLES {
        return Err(Refusal::Room.at(0));
    }
    let room = records.len() / RECORD;
    wipe(records, tables, counts);
    reading(octets, tables, counts, records, room)
}

// A document into words: a record for each event, the tables, the ten counts. The answer has the event count above
// its low 32 bits, and in them 0 or the refusal for C, which leaves every word 0.
// Wrong would be: on a refusal, tables that are left from before the fault; on acceptance, a word after the last
// whole record that stood there before the call.
pub fn read_words(octets: &[u8], records: &mut [u32], tables: &mut [u32], counts: &mut [u32]) -> u64
    ensures { leaving result records.new tables.new counts.new ≡ read_words link octets.now (length records.old) (length tables.old) (length counts.old) }
{
    match into_words(octets, records, tables, counts) {
        Ok(n) => u64::from(n) << 32,
        Err(f) => {
            wipe(records, tables, counts);
            u64::from(number(f))
        }
    }
}
