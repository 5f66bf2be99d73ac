// Strings and names read from a document: each function reads one field from an octet on, and the first refusal is handed on.
// May depend on format, fields, forms, tables, index and events.
#![tactic(auto)]

mod names;
mod strings;

use events::EventString;
pub use names::{declared, in_parts, name, numbered, string_at, strings_of};
pub use strings::{chunk, formed, held, id, in_form, octet, value};

// What a declaration binds: the numbers of its prefix and its namespace, 0 where there is none, as in a name's row of its table.
#[derive(Clone, Copy)]
pub struct Binding {
    pub prefix: u32,
    pub namespace: u32,
}

// A name's strings.
#[derive(Clone, Copy)]
pub struct Parts {
    pub prefix: EventString,
    pub namespace: EventString,
    pub local: EventString,
}
