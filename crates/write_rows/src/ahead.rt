// Whether an element has attributes, by the records of a row.
ghost use Rattle.std.specs.Prelude.{◌≡◌, ◌+◌, ◌<◌, ◌&&◌, drop, length};
ghost use Rattle.states.specs.States.{mode_of};
ghost use Rattle.events.specs.FromWords.{begins_with};
ghost use Rattle.events.specs.Words.{kind_number};
ghost use Rattle.write_items.specs.Steps.{announced};
ghost use Rattle.writer.specs.RunContracts.{bit_of};

use events::{Event, Kind};
use states::State;

// There is a record k in the row, and it is of the kind.
fn is_kind(events: &[Event], k: usize, kind: Kind) -> bool
    ensures { result ≡ begins_with (kind_number kind) (drop k events.now) }
{
    k < events.len() && events::load(events, k).kind == kind
}

// Record k is a Start, and an attribute follows.
fn is_attributed(events: &[Event], k: usize) -> bool
    requires { k < length events.now }
    ensures { result ≡ (begins_with 2 (drop k events.now) && begins_with 3 (drop (k + 1) events.now)) }
{
    is_kind(events, k, Kind::Start) && is_kind(events, k + 1, Kind::Attribute)
}

// The element whose first record is number i of the row.
fn announced(events: &[Event], i: usize) -> bool
    ensures { result ≡ announced (drop i events.now) }
{
    for k in i..events.len() {
        if !is_kind(events, k, Kind::Namespace) {
            return is_attributed(events, k);
        }
    }
    false
}

// The same where the writer stands in this mode. Among declarations no record is looked at a second time: their bit is known.
pub fn announces(mode: usize, events: &[Event], i: usize) -> bool
    ensures { result ≡ bit_of (mode_of mode) (announced (drop i events.now)) }
{
    if State::DECLARING <= mode {
        return mode != State::DECLARING;
    }
    announced(events, i)
}
