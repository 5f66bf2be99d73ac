// The words of a record at which its strings start, behind the kind: tag, place and length of each.
pub const PREFIX: usize = 1;

pub const NAMESPACE: usize = 4;

pub const NAME: usize = 7;

pub const VALUE: usize = 10;
