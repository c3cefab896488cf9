// The rows of records: `rec`, and `fld` for each field.
#![tactic(auto)]

ghost use Rattle.std.specs.Prelude.{◌≡◌, ◌∷◌, ◌≤◌, ◌<◌, length};
ghost use Rattle.semantics.specs.Listing.{record_rows};
ghost use Rattle.write.specs.Writes.{Writes};
ghost use Rattle.maps.specs.Maps.{MapRoom, MapMade};
ghost use Rattle.records.specs.Log.{recorded_at, EntryIn, RecordsLogged, LogEntry};
ghost use Rattle.field_rows.specs.Rows.{placed_rows};
ghost use Rattle.record_rows.specs.Rows.{TagWrote, rec_text, shape_text, key_rows, all_rows, Printed};

use codes::area::{self, Space};
use codes::decl;
use layout::map::map_bytes;
use lines::Sheet;
use records::key::{case_of, is_first, line_of, name_of, newest_of, number_of, tag_of};
use shapes::TAG_BYTES;
use write::Writer;

// KEY, with its comma: T, or T.tag.
fn put_key(sheet: &Sheet, work: &Space, i: usize, w: &mut Writer)
    requires { EntryIn sheet.now work.now i }
    ensures { Writes w.old (44 ∷ (recorded_at sheet.now work.now i).key) w.new }
{
    rows::comma_part(w, name_of(sheet, work, i));
    if case_of(work, i) == 0 {
        return;
    }
    w.put(b'.');
    w.put_part(tag_of(sheet, work, i));
}

// TAG and GROUP, with their commas: -1 for T itself.
fn put_tag(work: &Space, i: usize, w: &mut Writer)
    requires { i < 128 }
    ensures { TagWrote work.now i w.old w.new }
{
    let c = case_of(work, i);
    if c == 0 {
        w.put_part(b",-1,-1");
        return;
    }
    rows::comma_nat(w, number_of(work, i) as u64);
    rows::comma_nat(w, (c - 1) as u64);
}

fn put_head(sheet: &Sheet, work: &Space, i: usize, w: &mut Writer)
    requires { EntryIn sheet.now work.now i }
    ensures { Writes w.old (rec_text (recorded_at sheet.now work.now i)) w.new }
{
    w.put_part(b"rec");
    put_key(sheet, work, i, w);
    put_tag(work, i, w);
}

// The size of the record of entry i.
pub fn entry_size(sheet: &Sheet, work: &Space, i: usize) -> u32
    requires { LogEntry sheet.now work.now i }
    ensures { (result ≡ (recorded_at sheet.now work.now i).shape.size) × (result ≤ 131080) }
{
    let r = line_of(work, i);
    let case = case_of(work, i);
    if case == 0 {
        return shapes::record_size(sheet, r);
    }
    shapes::variant_size(sheet, r, case - 1)
}

// Makes its pointer map, for a block of this size.
pub fn map_entry(sheet: &Sheet, work: &mut Space, i: usize, size: u32)
    requires { (EntryIn sheet.now work.old i) × (MapRoom work.old size) }
    ensures { MapMade size (recorded_at sheet.now work.old i).shape.pointers work.old work.new }
{
    let r = line_of(work, i);
    let c = case_of(work, i);
    if c == 0 {
        shapes::map_record(sheet, work, r, size);
        return;
    }
    shapes::map_variant(sheet, work, r, c - 1, size);
}

// SIZE and MAP, and the end of the row.
fn put_shape(sheet: &Sheet, work: &mut Space, i: usize, w: &mut Writer)
    requires { LogEntry sheet.now work.old i }
    ensures { Printed (shape_text (recorded_at sheet.now work.old i).shape) w.old w.new work.old work.new }
{
    let size = entry_size(sheet, work, i);
    map_entry(sheet, work, i, size);
    rows::comma_nat(w, size as u64);
    let end = area::MAP + map_bytes(size);
    rows::comma_hex(w, &work[area::MAP..end]);
    rows::lf(w);
}

// The rows of the fields: T's are the common ones, a variant's the common ones and then its own.
fn put_fields(sheet: &Sheet, work: &Space, i: usize, w: &mut Writer)
    requires { EntryIn sheet.now work.now i }
    ensures { Writes w.old (placed_rows (recorded_at sheet.now work.now i).fields) w.new }
{
    let r = line_of(work, i);
    if sheet.form_at(r - 1) == decl::ADT {
        field_rows::put_common(sheet, r, w, 0);
        return;
    }
    let end = field_rows::put_common(sheet, r, w, TAG_BYTES);
    let c = case_of(work, i);
    if c == 0 {
        return;
    }
    let v = shapes::case_line(sheet, r, c - 1);
    field_rows::put_case(sheet, v, w, end);
}

// The rows of the record of entry i.
fn put_record(sheet: &Sheet, work: &mut Space, i: usize, w: &mut Writer)
    requires { LogEntry sheet.now work.old i }
    ensures { Printed (record_rows (recorded_at sheet.now work.old i)) w.old w.new work.old work.new }
{
    put_head(sheet, work, i, w);
    put_shape(sheet, work, i, w);
    put_fields(sheet, work, i, w);
}

// The rows of entry i's key, where entry i is the first of that key: those of its newest entry.
fn put_newest(sheet: &Sheet, work: &mut Space, entries: usize, i: usize, w: &mut Writer)
    requires { (RecordsLogged sheet.now work.old entries) × (i < entries) }
    ensures { Printed (key_rows sheet.now i) w.old w.new work.old work.new }
{
    if is_first(sheet, work, i) {
        let j = newest_of(sheet, work, entries, i);
        put_record(sheet, work, j, w);
    }
}

// The rows of all records: each key once, where it was first recorded.
pub fn record_rows(sheet: &Sheet, work: &mut Space, entries: usize, w: &mut Writer)
    requires { RecordsLogged sheet.now work.old entries }
    ensures { Printed (all_rows sheet.now) w.old w.new work.old work.new }
{
    for i in 0..entries {
        put_newest(sheet, work, entries, i, w);
    }
}
