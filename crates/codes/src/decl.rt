// Rows of lines that declare something, in the table of forms.
pub const ADT: usize = 26;

pub const PICK: usize = 27;

pub const VAR: usize = 29;
