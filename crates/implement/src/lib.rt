// The modules of a checked sheet: which one is open before a line, and whether the sheet implements it.
#![tactic(auto)]

ghost use Rattle.std.specs.Prelude.{◌≡◌, ◌+◌, ◌≤◌, ◌<◌, Some};
ghost use Rattle.semantics.specs.Sheet.{sheet_source};
ghost use Rattle.semantics.specs.Fold.{same_option};
ghost use Rattle.checks.specs.Checks.{Checked};
ghost use Rattle.implement.specs.Modules.{line_number, is_own, Open};
ghost use Rattle.lines.specs.Lines.{lines_in};

use codes::kind;
use lines::Sheet;

// Whether the sheet implements a module of this name.
pub fn is_implemented(sheet: &Sheet, name: &[u8]) -> bool
    requires { Checked sheet.now }
    ensures { result ≡ same_option (sheet_source sheet.now).implement (Some name.now) }
{
    let n = sheet.count();
    if n == 0 {
        return false;
    }
    form::kind(sheet.form_at(0)) == kind::IMPL && words::same(sheet.field_at(0, 0), name)
}

// Whether names of the module of line k, from 0, are the sheet's own: those outside modules, and those of the implemented one.
pub fn is_own(sheet: &Sheet, k: Option<usize>) -> bool
    requires { (Checked sheet.now) × (line_number k ≤ lines_in sheet.now) }
    ensures { result ≡ is_own sheet.now (line_number k) }
{
    match k {
        None => true,
        Some(i) => is_implemented(sheet, sheet.field_at(i, 0)),
    }
}

// The line of the module that is open behind line i, where that of line k is open before it; all from 0.
pub fn open_after(sheet: &Sheet, i: usize, k: Option<usize>) -> Option<usize>
    requires { (Open sheet.now i k) × (i < lines_in sheet.now) }
    ensures { Open sheet.now (i + 1) result }
{
    match form::kind(sheet.form_at(i)) {
        kind::MOD => Some(i),
        kind::END => None,
        _ => k,
    }
}

// The number of a line that is counted from 0; 0 for none.
pub fn line_number(k: Option<usize>) -> usize
    requires { line_number k < 65536 }
    ensures { result ≡ line_number k }
{
    match k {
        None => 0,
        Some(i) => i + 1,
    }
}
