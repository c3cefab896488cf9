// Rows of `ty` lines in the table of forms. Those before REAL are integers, those behind it pointers.
pub const INT: usize = 0;

pub const BYTE: usize = 1;

pub const BIG: usize = 2;

pub const REAL: usize = 3;

pub const STRING: usize = 4;

pub const ARRAY: usize = 6;

pub const TUPLE: usize = 7;
