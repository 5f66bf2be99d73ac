// Reading a document: octets in, events and tables out, or a refusal and its place.
// May depend on format, fields, tables, index, states, events, read_names, read_head and read_items.
#![tactic(auto)]

mod lane;
mod run;

pub use run::{begun, check, read_words, sized};
use tables::Counts;

// An accepted document: the number of its events, and how many entries each of its ten tables has.
#[derive(Clone, Copy)]
pub struct Accepted {
    pub events: u32,
    pub counts: Counts,
}
