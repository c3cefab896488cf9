// Marks the pointers of fields in the map that stands in the working space. The fields of an `fd` line are gathered in a list, and the list is lent.
#![tactic(auto)]

ghost use Rattle.std.specs.Prelude.{◌+◌, ◌*◌, ◌≤◌, ◌≡◌, take};
ghost use Rattle.sizes.specs.Places.{fd_at, fds_of_refs, common_fields, case_fields, FieldLine, FieldRefs, RecordLine, CaseLine, case_end, common_end, group_bytes, line_bytes};
ghost use Rattle.field_list.specs.Fields.{line_fields_from, pointers_in};
ghost use Rattle.maps.specs.Maps.{MapRoom, Marks};
ghost use Rattle.marks.specs.Fields.{LineMarked, AllMarked};

use codes::area::Space;
use field_list::Field;
use layout::align::align_up;
use lines::Sheet;
use sizes::place::Refs;

// Marks the pointers of a lent list of fields.
pub fn mark_list(size: u32, fields: &[Field], work: &mut Space)
    requires { MapRoom work.old size }
    ensures { Marks size (pointers_in fields.now) work.old work.new }
{
    for f in fields {
        maps::mark_if(work, size, f.offset, f.pointer);
    }
}

// The same of the first fields of an array, which are lent here.
fn mark_first(size: u32, a: [Field; 16], count: usize, work: &mut Space)
    requires { (count ≤ 16) × (MapRoom work.old size) }
    ensures { Marks size (pointers_in (take count a)) work.old work.new }
{
    mark_list(size, &a[..count], work)
}

// So many fields of size `step`, one behind the other. Returns where they end.
fn mark_names(work: &mut Space, size: u32, off: u32, step: u32, pointer: bool, names: usize) -> u32
    requires { (MapRoom work.old size) × (step ≤ 8192) × (names ≤ 16) × (off ≤ 4600000) }
    ensures { (result ≡ off + names * step) × (Marks size (pointers_in (line_fields_from off step pointer names)) work.old work.new) }
{
    let a = field_list::line_fields(off, step, pointer, names);
    mark_first(size, a, names, work);
    off + (names as u32) * step
}

// The fields of the `fd` line r, from `off` on. An untyped line has none.
fn mark_field(sheet: &Sheet, work: &mut Space, r: usize, size: u32, off: u32) -> u32
    requires { (FieldLine sheet.now r) × (MapRoom work.old size) × (off ≤ case_end) }
    ensures { (LineMarked (fd_at sheet.now r).ty (fd_at sheet.now r).names size off result work.old work.new) × (result ≤ off + line_bytes) }
{
    let t = sheet.number_at(r - 1, 0);
    if t == 0 {
        return off;
    }
    let x = sizes::type_size_align(sheet, t);
    let names = sheet.number_at(r - 1, 1);
    let at = align_up(off, x.align) as u32;
    let pointer = sizes::is_pointer(sheet, t);
    mark_names(work, size, at, x.size, pointer, names)
}

// The fields of the `fd` lines to which these fields refer.
fn mark_fields(sheet: &Sheet, work: &mut Space, f: Refs, size: u32, off: u32) -> u32
    requires { (FieldRefs sheet.now f) × (MapRoom work.old size) × (off ≤ common_end) }
    ensures { (AllMarked (fds_of_refs sheet.now f) size off result work.old work.new) × (result ≤ off + group_bytes) }
{
    let mut q = off;
    for j in 0..f.count {
        let r = sheet.number_at(f.line - 1, f.from + j);
        q = mark_field(sheet, work, r, size, q);
    }
    q
}

// The fields of the `adt` or `pick` line r that are no case's.
pub fn mark_common(sheet: &Sheet, work: &mut Space, r: usize, size: u32, off: u32) -> u32
    requires { (RecordLine sheet.now r) × (MapRoom work.old size) × (off ≤ 4) }
    ensures { (AllMarked (common_fields sheet.now r) size off result work.old work.new) × (result ≤ common_end) }
{
    let f = sizes::place::common_refs(sheet, r);
    mark_fields(sheet, work, f, size, off)
}

// The fields of the `pc` line r.
pub fn mark_case(sheet: &Sheet, work: &mut Space, r: usize, size: u32, off: u32) -> u32
    requires { (CaseLine sheet.now r) × (MapRoom work.old size) × (off ≤ common_end) }
    ensures { AllMarked (case_fields sheet.now r) size off result work.old work.new }
{
    let f = sizes::place::case_refs(sheet, r);
    mark_fields(sheet, work, f, size, off)
}
