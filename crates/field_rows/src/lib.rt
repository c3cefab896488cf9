// `fld` rows: where each field of a record lies, and its size.
#![tactic(auto)]

ghost use Rattle.std.specs.Prelude.{◌+◌, ◌≤◌};
ghost use Rattle.write.specs.Writes.{Writes};
ghost use Rattle.sizes.specs.Places.{fd_at, fds_of_refs, common_fields, case_fields, FieldLine, FieldRefs, RecordLine, CaseLine, case_end, common_end, group_bytes, line_bytes};
ghost use Rattle.field_rows.specs.Rows.{field_text, LineWrote, AllWrote};

use lines::Sheet;
use sizes::place::Refs;
use write::Writer;

fn put_row(w: &mut Writer, name: &[u8], offset: u32, size: u32)
    ensures { Writes w.old (field_text name.now offset size) w.new }
{
    w.put_part(b"fld");
    rows::comma_part(w, name);
    rows::comma_nat(w, offset as u64);
    rows::comma_nat(w, size as u64);
    rows::lf(w);
}

// The names of the `fd` line r, one behind the other, from `end` on. Returns where they end. An untyped line has no fields.
fn put_line(sheet: &Sheet, r: usize, w: &mut Writer, end: u32) -> u32
    requires { (FieldLine sheet.now r) × (end ≤ case_end) }
    ensures { (LineWrote (fd_at sheet.now r) end result w.old w.new) × (result ≤ end + line_bytes) }
{
    let t = sheet.number_at(r - 1, 0);
    if t == 0 {
        return end;
    }
    let x = sizes::type_size_align(sheet, t);
    let size = x.size;
    let count = sheet.number_at(r - 1, 1);
    let mut offset = layout::align::align_up(end, x.align) as u32;
    for j in 0..count {
        let name = sheet.field_at(r - 1, 2 + j);
        put_row(w, name, offset, size);
        offset += size;
    }
    offset
}

// Those of the `fd` lines to which these fields refer.
fn put_fields(sheet: &Sheet, f: Refs, w: &mut Writer, end: u32) -> u32
    requires { (FieldRefs sheet.now f) × (end ≤ common_end) }
    ensures { (AllWrote (fds_of_refs sheet.now f) end result w.old w.new) × (result ≤ end + group_bytes) }
{
    let mut offset = end;
    for j in 0..f.count {
        let r = sheet.number_at(f.line - 1, f.from + j);
        offset = put_line(sheet, r, w, offset);
    }
    offset
}

// The fields of the `adt` or `pick` line r that are no case's.
pub fn put_common(sheet: &Sheet, r: usize, w: &mut Writer, end: u32) -> u32
    requires { (RecordLine sheet.now r) × (end ≤ 4) }
    ensures { (AllWrote (common_fields sheet.now r) end result w.old w.new) × (result ≤ common_end) }
{
    let f = sizes::place::common_refs(sheet, r);
    put_fields(sheet, f, w, end)
}

// The fields of the `pc` line r.
pub fn put_case(sheet: &Sheet, r: usize, w: &mut Writer, end: u32) -> u32
    requires { (CaseLine sheet.now r) × (end ≤ common_end) }
    ensures { AllWrote (case_fields sheet.now r) end result w.old w.new }
{
    let f = sizes::place::case_refs(sheet, r);
    put_fields(sheet, f, w, end)
}
