// The listing of a checked sheet in two parts; `pend` rows come between them.
#![tactic(auto)]

ghost use Rattle.write.specs.Writes.{Writes};
ghost use Rattle.checks.specs.Checks.{Checked};
ghost use Rattle.parts.specs.Parts.{Listable, declared_text, types_text};

use codes::area::Space;
use data_rows::Counts;
use lines::Sheet;
use tables::Tables;
use type_rows::KeyCounts;
use write::Writer;

// The first part: records, constants and globals.
pub fn put_declared(sheet: &Sheet, work: &mut Space, x: Tables, w: &mut Writer)
    requires { Listable sheet.now work.old x }
    ensures { (Writes w.old (declared_text sheet.now) w.new) × (Listable sheet.now work.new x) }
{
    record_rows::record_rows(sheet, work, x.records, w);
    const_rows::const_rows(sheet, work, x.consts, w);
    global_rows::global_rows(sheet, work, x.globals, w);
}

// The second part: items, types and uses.
pub fn put_types(sheet: &Sheet, work: &mut Space, x: Tables, w: &mut Writer)
    requires { Listable sheet.now work.old x }
    ensures { (Writes w.old (types_text sheet.now) w.new) × (Checked sheet.now) }
{
    let frames = type_lines::frame::frame_count(sheet);
    let c = Counts {
        consts: x.consts,
        globals: x.globals,
        frames,
    };
    let keys = data_rows::data_rows(sheet, work, c, w, x.keys);
    let counts = KeyCounts {
        needs: x.needs,
        keys,
    };
    type_rows::type_rows(sheet, work, x.records, counts, w);
    uses::use_rows(work, x.needs, frames, w);
}
