// The lent working space has a table of lines first, of 3,072 bytes, and then the bytes of a `Space`.
pub const SPACE: usize = 62464;

pub type Space = [u8; SPACE];

// Where its tables begin. Used lines and depths are free after the checks.
pub const USED: usize = 3072;

pub const DEPTHS: usize = 4096;

pub const CONSTANTS: usize = 5120;

// The bytes of an entry there.
pub const CONSTANT: usize = 16;

pub const GLOBALS: usize = 7168;

pub const RECORDS: usize = 9216;

// For each need its line from 0, low and high byte, and the position of its key among the distinct keys; for each kind of element 0
// where it is not used, or its position plus 1; for each need the digest of its line's text, its link 128 bytes after that, and the
// head of a chain 128 bytes after the link.
pub const NEED_LOW: usize = 10240;

pub const NEED_HIGH: usize = 10368;

pub const NEED_POSITIONS: usize = 10496;

pub const KIND_POSITIONS: usize = 10624;

pub const NEED_DIGESTS: usize = 10752;

// For each index of the literal in work the element that gave its value last; and the values of its elements.
pub const PLACEMENTS: usize = 11264;

pub const ELEMENTS: usize = 12288;

// The strings of constants.
pub const STRINGS: usize = 16384;

// The stack of folds; and, while no fold is in progress, a pointer map.
pub const STACK: usize = 49152;

pub const MAP: usize = 49152;

// While a listing is replayed, from the first lent byte on: the sizes of descriptors, a byte for each.
pub const SIZES: usize = 5120;

pub const SIZES_END: usize = 6144;
