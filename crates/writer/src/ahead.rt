// Whether an element has attributes: its first octet says so, before its declarations and its name are written.
ghost use Rattle.std.specs.Prelude.{◌≡◌, ◌+◌, ◌≤◌, ◌<◌, ◌&&◌, drop, length};
ghost use Rattle.states.specs.States.{mode_of};
ghost use Rattle.events.specs.FromWords.{begins_with, records_of};
ghost use Rattle.write_items.specs.Steps.{announced};
ghost use Rattle.writer.specs.RunContracts.{bit_of};

use events::{Kind, RECORD, is_kind};
use states::State;

// Record k is a Start, and an attribute follows.
fn is_attributed(records: &[u32], k: usize) -> bool
    requires { k < length records.now }
    ensures { result ≡ (begins_with 2 (drop k (records_of records.now)) && begins_with 3 (drop (k + 1) (records_of records.now))) }
{
    is_kind(records, k, Kind::Start) && is_kind(records, k + 1, Kind::Attribute)
}

// The element whose first record is number i of the words: no more than a kind is looked at, mostly.
fn announced(records: &[u32], i: usize) -> bool
    ensures { result ≡ announced (drop i (records_of records.now)) }
{
    for k in i..records.len() / RECORD {
        if !is_kind(records, k, Kind::Namespace) {
            return is_attributed(records, k);
        }
    }
    false
}

// The same where the writer stands in this mode. Among declarations no record is looked at a second time: their bit is known.
pub fn announces(mode: usize, records: &[u32], i: usize) -> bool
    ensures { result ≡ bit_of (mode_of mode) (announced (drop i (records_of records.now))) }
{
    if State::DECLARING <= mode {
        return mode != State::DECLARING;
    }
    announced(records, i)
}
