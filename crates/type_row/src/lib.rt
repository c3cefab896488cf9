// One `typ` row: the map is made in the working space, and what is printed is that map and its ones.
#![tactic(auto)]

ghost use Rattle.std.specs.Prelude.{◌≡◌, true, List, [], ◌∷◌, ◌+◌, ◌≤◌, ◌<◌, ℤ, length};
ghost use Rattle.semantics.specs.Form.{between};
ghost use Rattle.semantics.specs.Types.{opaque_shape, elem_shape};
ghost use Rattle.semantics.specs.Listing.{type_rows};
ghost use Rattle.write.specs.Writes.{Writes};
ghost use Rattle.codes.specs.Kinds.{element_kind};
ghost use Rattle.maps.specs.Maps.{MapRoom, Mapped, Marks, MapMade};
ghost use Rattle.type_lines.specs.Shapes.{written_shape, ShapeLine, raised};
ghost use Rattle.type_row.specs.Row.{word_offsets, TypesWrote};

use codes::area::{self, Space};
use codes::element::Element;
use lines::Sheet;
use type_lines::shape::RAISE;
use write::Writer;

// The row of a block of this size whose map stands in the working space. As all that write `typ` rows it takes the ID of the first and
// returns the ID behind the last.
pub fn put_type(work: &Space, size: u32, w: &mut Writer, id: usize) -> usize
    requires { (MapRoom work.now size) × (id < 2048) }
    ensures { ((offs : List ℤ) → Mapped work.now size offs → Writes w.old (type_rows id (record { size = size; pointers = offs } ∷ [])) w.new) × (result ≡ id + 1) }
{
    let end = area::MAP + layout::map::map_bytes(size);
    w.put_part(b"typ");
    rows::comma_nat(w, id as u64);
    rows::comma_nat(w, size as u64);
    rows::comma_nat(w, maps::map_ones(work, size) as u64);
    rows::comma_hex(w, &work[area::MAP..end]);
    rows::lf(w);
    id + 1
}

// ---- blocks that begin with pointers

// Makes the map of a block whose first `count` words are pointers.
fn map_words(work: &mut Space, size: u32, count: u32)
    requires { (MapRoom work.old size) × (count ≤ 12) }
    ensures { MapMade size (word_offsets count) work.old work.new }
{
    maps::clear_map(work, size);
    for k in 0..count {
        maps::mark_at(work, size, 4 * k);
    }
}

// The row of such a block.
pub fn put_words(work: &mut Space, size: u32, count: u32, w: &mut Writer, id: usize) -> usize
    requires { (MapRoom work.old size) × (count ≤ 12) × (id < 2048) }
    ensures { TypesWrote ((record { size = size; pointers = word_offsets count }) ∷ []) id result w.old w.new work.old work.new }
{
    map_words(work, size, count);
    put_type(work, size, w, id)
}

// The words of an opaque record, all of them pointers.
const OPAQUE_WORDS: u32 = 12;

// An opaque record.
pub fn put_opaque(work: &mut Space, w: &mut Writer, id: usize) -> usize
    requires { id < 2048 }
    ensures { TypesWrote (opaque_shape ∷ []) id result w.old w.new work.old work.new }
{
    put_words(work, 4 * OPAQUE_WORDS, OPAQUE_WORDS, w, id)
}

fn elem_size(kind: Element) -> u32
    ensures { (result ≡ (elem_shape (element_kind kind)).size) × (result ≤ 8) }
{
    match kind {
        Element::Byte => 1,
        Element::Word | Element::Pointer => 4,
        Element::Big | Element::Real => 8,
    }
}

// How many words of an element are pointers, 0 or 1.
#[tactic(auto, unfolding(crate::specs::Row::word_offsets))]
fn elem_pointers(kind: Element) -> u32
    ensures { (word_offsets result ≡ (elem_shape (element_kind kind)).pointers) × (result ≤ 1) }
{
    match kind {
        Element::Pointer => 1,
        _ => 0,
    }
}

// An array's elements.
pub fn put_elem(work: &mut Space, kind: Element, w: &mut Writer, id: usize) -> usize
    requires { id < 2048 }
    ensures { TypesWrote ((elem_shape (element_kind kind)) ∷ []) id result w.old w.new work.old work.new }
{
    put_words(work, elem_size(kind), elem_pointers(kind), w, id)
}

// ---- what a line writes out

// Marks an offset that is raised; one below 0 marks nothing.
fn mark_raised(work: &mut Space, size: u32, z: usize)
    requires { (MapRoom work.old size) × (z ≤ 8192) }
    ensures { (y : ℤ) → between 4096 4096 y ≡ true → z ≡ raised y → Marks size (y ∷ []) work.old work.new }
{
    if z < RAISE {
        return;
    }
    maps::mark_at(work, size, (z - RAISE) as u32);
}

// Makes the map of the offsets of line i, for a block of this size.
fn map_line(sheet: &Sheet, work: &mut Space, i: usize, size: u32)
    requires { (ShapeLine sheet.now i) × (MapRoom work.old size) }
    ensures { MapMade size (written_shape sheet.now i).pointers work.old work.new }
{
    maps::clear_map(work, size);
    let count = type_lines::shape::offset_count(sheet, i);
    for j in 0..count {
        mark_raised(work, size, type_lines::shape::offset_at(sheet, i, j));
    }
}

// A frame, or a block that a need writes out.
pub fn put_line(sheet: &Sheet, work: &mut Space, i: usize, w: &mut Writer, id: usize) -> usize
    requires { (ShapeLine sheet.now i) × (id < 2048) }
    ensures { TypesWrote ((written_shape sheet.now i) ∷ []) id result w.old w.new work.old work.new }
{
    let size = type_lines::shape::size_at(sheet, i);
    map_line(sheet, work, i, size);
    put_type(work, size, w, id)
}
