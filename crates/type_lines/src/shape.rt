// The size and the offsets that a `frame` or `need,block` line writes out.
ghost use Rattle.std.specs.Prelude.{◌≡◌, true, ◌≤◌, ◌<◌, pos, length, get_or};
ghost use Rattle.semantics.specs.Text.{or_else, int_of};
ghost use Rattle.semantics.specs.Form.{holds};
ghost use Rattle.semantics.specs.Form.Atom.{offset};
ghost use Rattle.type_lines.specs.Shapes.{written_shape, ShapeLine, raised};

use decimal::Signed;
use lines::Sheet;

// What is added to an offset, so that none is below 0.
pub const RAISE: usize = 4096;

// An offset, from -4096 on, raised.
fn read_offset(f: &[u8]) -> usize
    requires { holds offset f.now ≡ true }
    ensures { (result ≡ raised (or_else (pos 0) (int_of f.now))) × (result ≤ 8192) }
{
    match decimal::read_signed(f) {
        Some(Signed::Plus(m)) => RAISE + m as usize,
        Some(Signed::Minus(m)) => RAISE - m as usize,
        None => RAISE,
    }
}

// The size that line i, from 0, writes out.
pub fn size_at(sheet: &Sheet, i: usize) -> u32
    requires { ShapeLine sheet.now i }
    ensures { (result ≡ (written_shape sheet.now i).size) × (result ≤ 4096) }
{
    sheet.number_at(i, 0) as u32
}

// How many offsets it has.
pub fn offset_count(sheet: &Sheet, i: usize) -> usize
    requires { ShapeLine sheet.now i }
    ensures { (result ≡ length (written_shape sheet.now i).pointers) × (result ≤ 16) }
{
    sheet.number_at(i, 1)
}

// Offset j, raised.
pub fn offset_at(sheet: &Sheet, i: usize, j: usize) -> usize
    requires { (ShapeLine sheet.now i) × (j < length (written_shape sheet.now i).pointers) }
    ensures { (result ≡ raised (get_or (written_shape sheet.now i).pointers j (pos 0))) × (result ≤ 8192) }
{
    read_offset(sheet.field_at(i, 2 + j))
}
