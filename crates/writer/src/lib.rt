// Writing a document: tables for its head, events and a text area in, octets and tables out, or a refusal and the event's number.
// May depend on format, fields, forms, tables, index, states, events, write_names, write_head and write_items.
#![tactic(auto)]

mod ahead;
mod lane;
mod run;
mod steps;

pub use run::{begun, ended, measure_words, wipe, write_words};
use tables::Counts;

// An accepted document: the number of its octets, and how many entries each of its ten tables has.
#[derive(Clone, Copy)]
pub struct Accepted {
    pub octets: u32,
    pub counts: Counts,
}
