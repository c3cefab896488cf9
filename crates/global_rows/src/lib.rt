// The `glo` rows of globals.
#![tactic(auto)]

ghost use Rattle.semantics.specs.Sheet.{concat_map};
ghost use Rattle.semantics.specs.Listing.{global_row};
ghost use Rattle.write.specs.Writes.{Writes};
ghost use Rattle.global_table.specs.Table.{global_at, places_in, GlobalEntry, Tabled};

use codes::area::Space;
use global_table::{global_size, line, line_of, name_of, offset_of};
use lines::Sheet;
use write::Writer;

// The row of entry i.
fn global_row(sheet: &Sheet, work: &Space, i: usize, w: &mut Writer)
    requires { GlobalEntry sheet.now work.now i }
    ensures { Writes w.old (global_row (global_at sheet.now work.now i)) w.new }
{
    let ty = line::type_of(sheet, line_of(work, i));
    w.put_part(b"glo");
    rows::comma_part(w, name_of(sheet, work, i));
    rows::comma_nat(w, offset_of(work, i) as u64);
    rows::comma_nat(w, global_size(sheet, ty) as u64);
    rows::comma_flag(w, sizes::is_pointer(sheet, ty));
    rows::lf(w);
}

// The rows of all g entries.
pub fn global_rows(sheet: &Sheet, work: &Space, g: usize, w: &mut Writer)
    requires { Tabled sheet.now work.now g }
    ensures { Writes w.old (concat_map global_row (places_in sheet.now work.now g)) w.new }
{
    for i in 0..g {
        global_row(sheet, work, i, w);
    }
}
