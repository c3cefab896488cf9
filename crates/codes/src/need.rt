// Rows of `need` lines in the table of forms.
pub const ADT: usize = 34;

pub const INT: usize = 35;

pub const BYTE: usize = 36;

pub const BIG: usize = 37;

pub const REAL: usize = 38;

pub const STRING: usize = 39;

pub const BLOCK: usize = 40;

pub const OPAQUE: usize = 41;
