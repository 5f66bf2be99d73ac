// One event written: its record judged, then its item into the output behind the end that an attribute list owes.
// May depend on format, fields, forms, tables, index, states, events and write_names.
#![tactic(auto)]

pub mod items;
pub mod output;
mod records;
