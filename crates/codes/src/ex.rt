// Rows of `ex` lines in the table of forms. Those before UN refer to no line that is folded, and folds of those behind LEN fail.
pub const INT: usize = 8;

pub const REAL: usize = 9;

pub const ID: usize = 11;

pub const QUAL: usize = 12;

pub const UN: usize = 13;

pub const BIN: usize = 14;

pub const CAST: usize = 15;

pub const LEN: usize = 16;

pub const ALLOC: usize = 17;

pub const LIT: usize = 18;
