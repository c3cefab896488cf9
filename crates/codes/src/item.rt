// What a `dat` row lays, by its keyword.
#[derive(Clone, Copy, PartialEq, Eq)]
pub enum Item {
    Bytes,
    Words,
    Bigs,
    Reals,
    Str,
    Array,
    Set,
    Back,
}
