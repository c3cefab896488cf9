// The row of a record that a need names.
ghost use Rattle.std.specs.Prelude.{◌≡◌, [], ◌∷◌, ◌<◌};
ghost use Rattle.semantics.specs.Types.{key_shape};
ghost use Rattle.lines.specs.Lines.{form_at};
ghost use Rattle.records.specs.Log.{recorded_at, log_of, RecordsLogged, LogEntry};
ghost use Rattle.type_lines.specs.Needs.{need_at, NeedLine};
ghost use Rattle.type_row.specs.Row.{TypesWrote};

use codes::area::Space;
use lines::Sheet;
use type_row::{put_type, put_words};
use write::Writer;

// The record of entry e of the log.
fn put_entry(sheet: &Sheet, work: &mut Space, e: usize, w: &mut Writer, id: usize) -> usize
    requires { (LogEntry sheet.now work.old e) × (id < 2048) }
    ensures { TypesWrote ((recorded_at sheet.now work.old e).shape ∷ []) id result w.old w.new work.old work.new }
{
    let size = record_rows::entry_size(sheet, work, e);
    record_rows::map_entry(sheet, work, e, size);
    put_type(work, size, w, id)
}

// The last record of the key on the `need,adt` line i. An unknown one takes 4 bytes, without pointers.
pub fn put_record(
    sheet: &Sheet,
    work: &mut Space,
    entries: usize,
    i: usize,
    w: &mut Writer,
    id: usize,
) -> usize
    requires { (RecordsLogged sheet.now work.old entries) × (NeedLine sheet.now i) × (form_at sheet.now i ≡ 34) × (id < 2048) }
    ensures { TypesWrote ((key_shape (log_of sheet.now) (need_at sheet.now i)) ∷ []) id result w.old w.new work.old work.new }
{
    let key = sheet.field_at(i, 0);
    match records::key::newest(sheet, work, entries, key) {
        Some(e) => put_entry(sheet, work, e, w, id),
        None => put_words(work, 4, 0, w, id),
    }
}
