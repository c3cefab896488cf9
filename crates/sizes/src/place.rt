// Where the fields of a record lie.
ghost use Rattle.std.specs.Prelude.{◌+◌, ◌≤◌, List, ◌≡◌, length, Some};
ghost use Rattle.semantics.specs.Text.{Bytes};
ghost use Rattle.semantics.specs.Tree.{Ty};
ghost use Rattle.sizes.specs.Sizes.{Measures};
ghost use Rattle.sizes.specs.Places.{fd_at, fds_of_refs, common_fields, case_fields, FieldLine, FieldRefs, RecordLine, CaseLine, LinePlaced, AllPlaced, case_end, common_end, group_bytes, line_bytes};

use crate::{SizeAlign, is_pointer, type_size_align};
use layout::align::align_up;
use lines::Sheet;

// The `count` fields of a line from field `from` on, which refer to `fd` lines.
#[derive(Clone, Copy)]
pub struct Refs {
    pub line: usize,
    pub from: usize,
    pub count: usize,
}

// Those of the `adt` or `pick` line r that are no case's.
pub fn common_refs(sheet: &Sheet, r: usize) -> Refs
    requires { RecordLine sheet.now r }
    ensures { (FieldRefs sheet.now result) × (fds_of_refs sheet.now result ≡ common_fields sheet.now r) }
{
    let count = sheet.number_at(r - 1, 1);
    Refs {
        line: r,
        from: 2,
        count,
    }
}

// Those of the `pc` line r, which follow its tags.
pub fn case_refs(sheet: &Sheet, r: usize) -> Refs
    requires { CaseLine sheet.now r }
    ensures { (FieldRefs sheet.now result) × (fds_of_refs sheet.now result ≡ case_fields sheet.now r) }
{
    let at = sheet.number_at(r - 1, 0) + 1;
    let count = sheet.number_at(r - 1, at);
    Refs {
        line: r,
        from: at + 1,
        count,
    }
}

// Where the fields placed so far end, and the furthest end of one of them: a line without names aligns, and places none.
#[derive(Clone, Copy)]
pub struct Reached {
    pub end: u32,
    pub furthest: u32,
}

// Behind one more `fd` line, with so many names of a type of size and alignment x. Its fields are gathered in a list, and the list is lent.
fn place_line(p: Reached, x: SizeAlign, pointer: bool, names: usize) -> Reached
    requires { (p.end ≤ case_end) × (x.size ≤ 8192) × (x.align ≤ 8) × (names ≤ 16) }
    ensures { ((t : Ty) (ns : List Bytes) → Measures t x.size x.align → names ≡ length ns → LinePlaced (Some t) ns p result) × (result.end ≤ p.end + line_bytes) }
{
    let at = align_up(p.end, x.align) as u32;
    let fields = field_list::line_fields(at, x.size, pointer, names);
    let furthest = field_list::furthest_of(u64::from(p.furthest), fields, names);
    Reached {
        end: at + (names as u32) * x.size,
        furthest: furthest as u32,
    }
}

// Behind the `fd` line r. An untyped one is skipped.
fn place_field(sheet: &Sheet, r: usize, p: Reached) -> Reached
    requires { (FieldLine sheet.now r) × (p.end ≤ case_end) }
    ensures { (LinePlaced (fd_at sheet.now r).ty (fd_at sheet.now r).names p result) × (result.end ≤ p.end + line_bytes) }
{
    let t = sheet.number_at(r - 1, 0);
    if t == 0 {
        return p;
    }
    let x = type_size_align(sheet, t);
    let pointer = is_pointer(sheet, t);
    place_line(p, x, pointer, sheet.number_at(r - 1, 1))
}

// Behind the `fd` lines to which these fields refer.
fn place_fields(sheet: &Sheet, f: Refs, p: Reached) -> Reached
    requires { (FieldRefs sheet.now f) × (p.end ≤ common_end) }
    ensures { (AllPlaced (fds_of_refs sheet.now f) p result) × (result.end ≤ p.end + group_bytes) }
{
    let mut q = p;
    for j in 0..f.count {
        let r = sheet.number_at(f.line - 1, f.from + j);
        q = place_field(sheet, r, q);
    }
    q
}

// Behind the fields of the `adt` or `pick` line r that are no case's. They begin at 0, or behind a pick's tag at 4.
pub fn place_common(sheet: &Sheet, r: usize, p: Reached) -> Reached
    requires { (RecordLine sheet.now r) × (p.end ≤ 4) }
    ensures { (AllPlaced (common_fields sheet.now r) p result) × (result.end ≤ common_end) }
{
    let f = common_refs(sheet, r);
    place_fields(sheet, f, p)
}

// Behind the fields of the `pc` line r.
pub fn place_case(sheet: &Sheet, r: usize, p: Reached) -> Reached
    requires { (CaseLine sheet.now r) × (p.end ≤ common_end) }
    ensures { (AllPlaced (case_fields sheet.now r) p result) × (result.end ≤ case_end) }
{
    let f = case_refs(sheet, r);
    place_fields(sheet, f, p)
}
