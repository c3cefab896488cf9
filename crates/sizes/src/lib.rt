// Sizes of types and places of fields, over the lines of a checked sheet.
#![tactic(auto)]

pub mod place;

ghost use Rattle.std.specs.Prelude.{◌≡◌, ◌+◌, ◌≤◌, max};
ghost use Rattle.semantics.specs.Layout.{align_up, rounded_size, is_ptr};
ghost use Rattle.sizes.specs.Sizes.{is_long, type_at, TypeLine, TupleLine, Measures};

use codes::ty;
use lines::Sheet;

#[derive(Clone, Copy)]
pub struct SizeAlign {
    pub size: u32,
    pub align: u32,
}

// The size of a block whose fields end at `end`.
pub fn rounded_size(end: u32) -> u32
    requires { end ≤ 2147483648 }
    ensures { result ≡ rounded_size end }
{
    layout::align::align_up(end.max(4), 4) as u32
}

// Fields that end at t.size, aligned by t.align, and one more of size and alignment x.
fn behind(t: SizeAlign, x: SizeAlign) -> SizeAlign
    requires { (t.size ≤ 8192) × (x.size ≤ 8192) × (x.align ≤ 8) }
    ensures { (result.size ≡ align_up x.align t.size + x.size) × (result.align ≡ max t.align x.align) }
{
    let at = layout::align::align_up(t.size, x.align) as u32;
    SizeAlign {
        size: at + x.size,
        align: t.align.max(x.align),
    }
}

// Whether form f is a type of two words.
fn is_long(f: usize) -> bool
    ensures { result ≡ is_long f }
{
    matches!(f, ty::BIG | ty::REAL)
}

// Whether the type of line r marks its first word as a pointer: all but int, byte, big and real do.
pub fn is_pointer(sheet: &Sheet, r: usize) -> bool
    requires { TypeLine sheet.now r }
    ensures { result ≡ is_ptr (type_at sheet.now r) }
{
    ty::REAL < sheet.form_at(r - 1)
}

// Size and alignment of the type of line r, both in one descent: a tuple's fields are measured once each.
#[cycle(tuple_size_align_type_size_align)]
pub fn type_size_align(sheet: &Sheet, r: usize) -> SizeAlign
    requires { TypeLine sheet.now r }
    ensures { Measures (type_at sheet.now r) result.size result.align }
{
    let f = sheet.form_at(r - 1);
    if f == ty::TUPLE {
        return tuple_size_align(sheet, r);
    }
    if is_long(f) {
        return SizeAlign { size: 8, align: 8 };
    }
    // a byte takes a word too
    SizeAlign { size: 4, align: 4 }
}

// The same of a tuple: each field is aligned, and the whole is rounded up to words only.
#[cycle(tuple_size_align_type_size_align)]
fn tuple_size_align(sheet: &Sheet, r: usize) -> SizeAlign
    requires { TupleLine sheet.now r }
    ensures { Measures (type_at sheet.now r) result.size result.align }
{
    let count = sheet.number_at(r - 1, 0);
    let mut t = SizeAlign { size: 0, align: 4 };
    for j in 0..count {
        let field = sheet.number_at(r - 1, j + 1);
        t = behind(t, type_size_align(sheet, field));
    }
    SizeAlign {
        size: rounded_size(t.size),
        align: t.align,
    }
}
