// Rows of `el` lines in the table of forms; a line of neither form has selectors.
pub const NEXT: usize = 20;

pub const STAR: usize = 21;
