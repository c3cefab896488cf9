// Letters of kinds of lines in the table of forms.
pub const ADT: u8 = b'A';

pub const PICK: u8 = b'B';

pub const PC: u8 = b'C';

pub const CON: u8 = b'D';

pub const FRAME: u8 = b'G';

pub const VAR: u8 = b'H';

pub const IMPL: u8 = b'I';

pub const MOD: u8 = b'M';

pub const NEED: u8 = b'N';

pub const END: u8 = b'O';
