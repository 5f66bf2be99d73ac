// One step of reading: an item, by the first octet of what stands there, or an end.
// May depend on format, fields, tables, index, states, events and read_names.
#![tactic(auto)]

mod ends;
pub mod items;

use states::State;

// Where the reader stands after an event, and the event's place; where it stands after an end that is no event; the
// document's end.
#[derive(Clone, Copy)]
pub enum Step {
    Event(State, usize),
    Quiet(State),
    Done,
}
