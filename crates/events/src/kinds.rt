// Kinds by number, as a record's first word has them. A blank record has none of these, but 0.
pub const BLANK: u32 = 0;

pub const NAMESPACE: u32 = 1;

pub const START: u32 = 2;

pub const ATTRIBUTE: u32 = 3;

pub const CHUNK: u32 = 4;

pub const COMMENT: u32 = 5;

pub const INSTRUCTION: u32 = 6;

pub const END: u32 = 7;
