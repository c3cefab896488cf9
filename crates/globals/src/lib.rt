// Globals collected: a place for each in the table of globals, in the order of their `var` lines.
#![tactic(auto)]

ghost use Rattle.std.specs.Prelude.{◌≡◌, ◌+◌, ◌≤◌, ◌<◌, length, IfSome};
ghost use Rattle.checks.specs.Checks.{Checked, Outside};
ghost use Rattle.implement.specs.Modules.{Open};
ghost use Rattle.global_table.specs.Table.{VarLine, name_on, type_on, names_on};
ghost use Rattle.globals.specs.Allocation.{lay_name, lay_names};
ghost use Rattle.globals.specs.Collect.{allocation_in, PlacesEntered, PlacesLaid, names_at, lay_line, GlobalsCollected};
ghost use Rattle.globals.specs.Vars.{laid_at, laid_on};
ghost use Rattle.lines.specs.Lines.{lines_in};

use codes::area::Space;
use codes::decl;
use global_table::line;
use layout::align::align_up;
use lines::Sheet;

// How many globals have a place, and where allocation ends.
#[derive(Clone, Copy)]
pub struct Globals {
    pub count: usize,
    pub end: u32,
}

// Name j of the `var` line r gets a place, unless it is `nil` or has one.
fn declare_name(sheet: &Sheet, work: &mut Space, r: usize, j: usize, g: Globals) -> Globals
    requires { (PlacesEntered sheet.now work.old g) × (VarLine sheet.now r) × (j < 16) × (g.count < 256) }
    ensures { PlacesLaid sheet.now work.old work.new (lay_name (type_on sheet.now r) (name_on sheet.now r j) (allocation_in sheet.now work.old g)) result (g.count + 1) }
{
    let name = line::name_at(sheet, r, j);
    if line::is_nil(name) {
        return g;
    }
    if global_table::entry_number(sheet, work, g.count, name).is_some() {
        return g;
    }
    let ty = line::type_of(sheet, r);
    let size = global_table::global_size(sheet, ty);
    let offset = align_up(g.end, size) as u32;
    global_table::enter(work, g.count, r, j, offset as usize, words::digest(name));
    Globals {
        count: g.count + 1,
        end: offset + size,
    }
}

// The names of the `var` line r.
fn declare_global(sheet: &Sheet, work: &mut Space, r: usize, g: Globals) -> Globals
    requires { (PlacesEntered sheet.now work.old g) × (VarLine sheet.now r) × (g.count + length (names_on sheet.now r) ≤ 256) }
    ensures { PlacesLaid sheet.now work.old work.new (lay_names (type_on sheet.now r) (names_on sheet.now r) (allocation_in sheet.now work.old g)) result (g.count + length (names_on sheet.now r)) }
{
    let count = line::name_count(sheet, r);
    let mut h = g;
    for j in 0..count {
        h = declare_name(sheet, work, r, j, h);
    }
    h
}

// Line i, from 0, where the module of line k is open before it: its number from 1 where it is a `var` line that counts.
pub fn laid_line(sheet: &Sheet, i: usize, k: Option<usize>) -> Option<usize>
    requires { (Open sheet.now i k) × (i < lines_in sheet.now) }
    ensures { (laid_on sheet.now result ≡ laid_at sheet.now i) × (IfSome result (VarLine sheet.now)) }
{
    if sheet.form_at(i) == decl::VAR && implement::is_own(sheet, k) {
        Some(i + 1)
    } else {
        None
    }
}

// What line i declares, where the module of line k is open before it.
fn declare_line(sheet: &Sheet, work: &mut Space, i: usize, k: Option<usize>, g: Globals) -> Globals
    requires { (PlacesEntered sheet.now work.old g) × (Open sheet.now i k) × (i < lines_in sheet.now) × (g.count + names_at sheet.now i ≤ 256) }
    ensures { PlacesLaid sheet.now work.old work.new (lay_line sheet.now i (allocation_in sheet.now work.old g)) result (g.count + names_at sheet.now i) }
{
    match laid_line(sheet, i, k) {
        Some(r) => declare_global(sheet, work, r, g),
        None => g,
    }
}

// A place for every global, in the order of lines and names.
pub fn collect_globals(sheet: &Sheet, work: &mut Space) -> Globals
    requires { Checked sheet.now }
    ensures { (GlobalsCollected sheet.now work.new result) × (Outside 7168 9216 work.old work.new) }
{
    let mut g = Globals { count: 0, end: 0 };
    let mut k = None;
    for i in 0..sheet.count() {
        g = declare_line(sheet, work, i, k, g);
        k = implement::open_after(sheet, i, k);
    }
    g
}
