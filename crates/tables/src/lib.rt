// All tables of a checked sheet: its constants, the places of its globals, its record log, and the keys of its needs.
#![tactic(auto)]

ghost use Rattle.std.specs.Prelude.{◌≡◌};
ghost use Rattle.checks.specs.Checks.{Checked, Kept};
ghost use Rattle.names.specs.Table.{log_in, ConstsLogged};
ghost use Rattle.tables.specs.Tables.{TablesHeld, MakesTables};

use answers::Refusal;
use codes::area::Space;
use lines::Sheet;

// How many entries each table has, where allocation ends, and how many keys the needs have.
#[derive(Clone, Copy)]
pub struct Tables {
    pub consts: usize,
    pub globals: usize,
    pub end: u32,
    pub records: usize,
    pub needs: usize,
    pub keys: usize,
}

// The tables beside that of the m constants.
fn make_others(sheet: &Sheet, work: &mut Space, m: usize) -> Tables
    requires { (Checked sheet.now) × (ConstsLogged sheet.now work.old m) }
    ensures { (TablesHeld sheet.now work.new result) × (result.consts ≡ m) × (log_in sheet.now work.new m ≡ log_in sheet.now work.old m) × (Kept 5120 work.old work.new) }
{
    let g = globals::collect_globals(sheet, work);
    let r = record_log::collect_adts(sheet, work);
    let d = need_keys::collect_needs(sheet, work);
    Tables {
        consts: m,
        globals: g.count,
        end: g.end,
        records: r,
        needs: d.needs,
        keys: d.keys,
    }
}

// All tables, the constants first.
pub fn make_tables(sheet: &Sheet, work: &mut Space) -> Result<Tables, Refusal>
    requires { Checked sheet.now }
    ensures { (MakesTables sheet.now work.new result) × (Kept 5120 work.old work.new) }
{
    let m = consts::collect_consts(sheet, work)?;
    Ok(make_others(sheet, work, m))
}
