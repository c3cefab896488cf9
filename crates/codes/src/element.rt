// Kinds of elements of arrays, in the order of their numbers.
ghost use Rattle.std.specs.Prelude.{◌≡◌};
ghost use Rattle.semantics.specs.Array.{kind_number};
ghost use Rattle.codes.specs.Kinds.{element_kind};

#[derive(Clone, Copy, PartialEq, Eq)]
pub enum Element {
    Byte,
    Word,
    Big,
    Real,
    Pointer,
}

// How many kinds there are.
pub const KINDS: usize = 5;

pub const ALL: [Element; KINDS] = [
    Element::Byte,
    Element::Word,
    Element::Big,
    Element::Real,
    Element::Pointer,
];

// The number by which tables keep what they hold of a kind.
pub fn number(k: Element) -> usize
    ensures { result ≡ kind_number (element_kind k) }
{
    match k {
        Element::Byte => 0,
        Element::Word => 1,
        Element::Big => 2,
        Element::Real => 3,
        Element::Pointer => 4,
    }
}
