// `typ` rows.
#![tactic(auto)]

pub mod kinds;
pub mod record;

ghost use Rattle.std.specs.Prelude.{◌≡◌, List, [], ℕ, ◌∷◌, ◌++◌, ◌+◌, ◌≤◌, ◌<◌, length};
ghost use Rattle.semantics.specs.Text.{Bytes};
ghost use Rattle.semantics.specs.Sheet.{sheet_source, concat_map};
ghost use Rattle.semantics.specs.Global.{Item};
ghost use Rattle.semantics.specs.Types.{opaque_shape, key_shape, distinct, array_key, descriptors};
ghost use Rattle.semantics.specs.Listing.{type_rows};
ghost use Rattle.write.specs.declared.Writer.{Writer};
ghost use Rattle.write.specs.Writes.{Writes};
ghost use Rattle.checks.specs.Checks.{Checked, Kept};
ghost use Rattle.source.specs.Walk.{declares_at};
ghost use Rattle.lines.specs.Lines.{lines_in, nodes_in};
ghost use Rattle.records.specs.Log.{log_of, RecordsLogged};
ghost use Rattle.type_lines.specs.Needs.{need_at, NeedLine};
ghost use Rattle.type_keys.specs.Table.{Kinds};
ghost use Rattle.type_row.specs.Row.{TypesWrote};
ghost use Rattle.type_rows.specs.Rows.{keys_to, shapes_of, TypeTables};

use codes::area::Space;
use codes::need;
use lines::Sheet;
use write::Writer;

// How many needs there are, and how many keys: those of needs, then those of array elements.
#[derive(Clone, Copy)]
pub struct KeyCounts {
    pub needs: usize,
    pub keys: usize,
}

// Two opaque records.
fn opaque_rows(work: &mut Space, w: &mut Writer) -> usize
    ensures { TypesWrote (opaque_shape ∷ opaque_shape ∷ []) 0 result w.old w.new work.old work.new }
{
    let id = type_row::put_opaque(work, w, 0);
    type_row::put_opaque(work, w, id)
}

// ---- frames

// The row of line i, where it is a frame.
fn next_frame(sheet: &Sheet, work: &mut Space, i: usize, w: &mut Writer, id: usize) -> usize
    requires { (Checked sheet.now) × (i < lines_in sheet.now) × (id < 1024) }
    ensures { TypesWrote (declares_at (nodes_in sheet.now) i).frames id result w.old w.new work.old work.new }
{
    if type_lines::frame::is_frame(sheet, i) {
        return type_row::put_line(sheet, work, i, w, id);
    }
    id
}

// Frames are never shared.
fn frame_rows(sheet: &Sheet, work: &mut Space, w: &mut Writer, id: usize) -> usize
    requires { (Checked sheet.now) × (id ≤ 2) }
    ensures { TypesWrote (sheet_source sheet.now).frames id result w.old w.new work.old work.new }
{
    let mut next = id;
    for i in 0..sheet.count() {
        next = next_frame(sheet, work, i, w, next);
    }
    next
}

// ---- needs

// The row of what the `need` line i asks for.
fn put_need(
    sheet: &Sheet,
    work: &mut Space,
    entries: usize,
    i: usize,
    w: &mut Writer,
    id: usize,
) -> usize
    requires { (RecordsLogged sheet.now work.old entries) × (NeedLine sheet.now i) × (id < 2048) }
    ensures { TypesWrote ((key_shape (log_of sheet.now) (need_at sheet.now i)) ∷ []) id result w.old w.new work.old work.new }
{
    let f = sheet.form_at(i);
    if let Some(kind) = type_lines::kind_needed(f) {
        return type_row::put_elem(work, kind, w, id);
    }
    match f {
        need::ADT => record::put_record(sheet, work, entries, i, w, id),
        need::BLOCK => type_row::put_line(sheet, work, i, w, id),
        _ => type_row::put_opaque(work, w, id),
    }
}

// The row of need q, where its key is new; `base` is the ID of the first key.
fn next_need(
    sheet: &Sheet,
    work: &mut Space,
    entries: usize,
    q: usize,
    base: usize,
    w: &mut Writer,
    id: usize,
) -> usize
    requires { (TypeTables sheet.now work.old entries) × (q < length (sheet_source sheet.now).needs) × (base < 1024) × (id ≡ base + length (keys_to sheet.now q)) }
    ensures { ((a : ℕ) (v : Writer) (t : Bytes) → TypesWrote (shapes_of sheet.now (keys_to sheet.now q)) a id v w.old t work.old → TypesWrote (shapes_of sheet.now (keys_to sheet.now (q + 1))) a result v w.new t work.new) × (result ≡ base + length (keys_to sheet.now (q + 1))) }
{
    if base + type_keys::need_position(work, q) != id {
        return id;
    }
    let i = type_keys::need_line(work, q);
    put_need(sheet, work, entries, i, w, id)
}

// Each key of a need once, where it first comes.
fn need_rows(
    sheet: &Sheet,
    work: &mut Space,
    entries: usize,
    needs: usize,
    w: &mut Writer,
    base: usize,
) -> usize
    requires { (TypeTables sheet.now work.old entries) × (needs ≡ length (sheet_source sheet.now).needs) × (base < 1024) }
    ensures { TypesWrote (shapes_of sheet.now (distinct [] (sheet_source sheet.now).needs)) base result w.old w.new work.old work.new }
{
    let mut id = base;
    for q in 0..needs {
        id = next_need(sheet, work, entries, q, base, w, id);
    }
    id
}

// ---- all types

// Two opaque records, the frames, and the keys, those of array elements, which are entered before, last: the Rust's `build_types`.
pub fn type_rows(sheet: &Sheet, work: &mut Space, entries: usize, k: KeyCounts, w: &mut Writer)
    requires { (TypeTables sheet.now work.old entries) × (k.needs ≡ length (sheet_source sheet.now).needs) × (k.keys < 1024) }
    ensures { ((is : List Item) → Kinds work.old ((sheet_source sheet.now).needs ++ concat_map array_key is) k.keys → Writes w.old (type_rows 0 (descriptors (sheet_source sheet.now) is)) w.new) × (Kept 49152 work.old work.new) }
{
    let frames = opaque_rows(work, w);
    let base = frame_rows(sheet, work, w, frames);
    let id = need_rows(sheet, work, entries, k.needs, w, base);
    kinds::kind_rows(work, base, k.keys, w, id);
}
