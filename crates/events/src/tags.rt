// Tags: which of the five a string is, as the first of its three words has it.
pub const ABSENT: u32 = 0;

pub const EMPTY: u32 = 1;

pub const STRETCH: u32 = 2;

pub const XML_PREFIX: u32 = 3;

pub const XML_NAMESPACE: u32 = 4;

// A stretch in another form than utf-8 has this and the form's number.
pub const BEFORE_FORMS: u32 = 4;

pub const UTF16: u32 = 5;

pub const NUMERIC: u32 = 6;

pub const DATES: u32 = 7;

pub const SHORT: u32 = 8;

pub const INT: u32 = 9;

pub const LONG: u32 = 10;
