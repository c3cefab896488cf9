// First values of globals.
#![tactic(auto)]

ghost use Rattle.std.specs.Prelude.{◌≡◌, not};
ghost use Rattle.semantics.specs.Tree.{elem_of};
ghost use Rattle.semantics.specs.Array.{const_array};
ghost use Rattle.semantics.specs.Global.{array_value, init_of, plain_init, laid_names, none_of, var_value};
ghost use Rattle.names.specs.Table.{ConstsLogged, names_in};
ghost use Rattle.leaf.specs.Folds.{ex_at};
ghost use Rattle.arrays.specs.Arrays.{declared_type, DeclaredElement};
ghost use Rattle.global_table.specs.Table.{VarLine, var_on, names_on};
ghost use Rattle.vars.specs.First.{Inits, Valued, or_pending};

use arrays::{Arrayed, NoItem};
use codes::area::{self, Space};
use codes::ty;
use global_table::line;
use lines::Sheet;
use values::{ConstVal, NoValue};

// The first value of a global: a folded one, or an array. Strings and the values of a literal stand in the working space.
#[derive(Clone, Copy)]
pub enum First {
    Value(ConstVal),
    Array(Arrayed),
}

// The line of the element type that the type of the `var` line r has, where it is an array.
fn element_type(sheet: &Sheet, r: usize) -> Option<usize>
    requires { VarLine sheet.now r }
    ensures { (declared_type sheet.now result ≡ elem_of (var_on sheet.now r).ty) × (DeclaredElement sheet.now result) }
{
    let ty = line::type_of(sheet, r);
    if sheet.form_at(ty - 1) != ty::ARRAY {
        return None;
    }
    Some(sheet.number_at(ty - 1, 0))
}

// The value of line q as an array.
fn array_value(
    sheet: &Sheet,
    work: &mut Space,
    consts: usize,
    r: usize,
    q: usize,
) -> Result<Option<First>, NoItem>
    requires { (Valued sheet.now r q) × (ConstsLogged sheet.now work.old consts) }
    ensures { Inits work.old (array_value (const_array (names_in sheet.now work.old consts) (elem_of (var_on sheet.now r).ty) (ex_at sheet.now q))) result work.new }
{
    let declared = element_type(sheet, r);
    let x = arrays::const_array(sheet, work, consts, declared, q)?;
    Ok(Some(First::Array(x)))
}

// The first value of the `var` line r, where it has one: only one that does not fold is looked at as an array.
pub fn first_value(
    sheet: &Sheet,
    work: &mut Space,
    consts: usize,
    r: usize,
) -> Result<Option<First>, NoItem>
    requires { (VarLine sheet.now r) × (ConstsLogged sheet.now work.old consts) }
    ensures { Inits work.old (init_of (names_in sheet.now work.old consts) (var_on sheet.now r).ty (var_on sheet.now r).init) result work.new }
{
    let q = sheet.number_at(r - 1, 1);
    if q == 0 {
        return Ok(None);
    }
    match fold::fold_const(sheet, work, consts, 0, q, area::STACK) {
        Ok(v) => Ok(Some(First::Value(v))),
        Err(NoValue::Failed) => array_value(sheet, work, consts, r, q),
        Err(NoValue::LongString) => Err(NoItem::LongString),
    }
}

// Whether line r has a name that is laid out: `nil` is not.
fn has_names(sheet: &Sheet, r: usize) -> bool
    requires { VarLine sheet.now r }
    ensures { result ≡ not (none_of (laid_names (names_on sheet.now r))) }
{
    let count = line::name_count(sheet, r);
    for j in 0..count {
        if !line::is_nil(line::name_at(sheet, r, j)) {
            return true;
        }
    }
    false
}

// The value of line r without regard to arrays: one that fails is pending, one that is too long refuses the sheet.
fn plain_value(
    sheet: &Sheet,
    work: &mut Space,
    consts: usize,
    r: usize,
) -> Result<Option<First>, NoItem>
    requires { (VarLine sheet.now r) × (ConstsLogged sheet.now work.old consts) }
    ensures { Inits work.old (or_pending (plain_init (names_in sheet.now work.old consts) (var_on sheet.now r).init)) result work.new }
{
    let q = sheet.number_at(r - 1, 1);
    if q == 0 {
        return Ok(None);
    }
    let v = fold::fold_const(sheet, work, consts, 0, q, area::STACK)?;
    Ok(Some(First::Value(v)))
}

// What the work on line r meets: a value is folded once for the line, and arrays are looked at only for a name.
pub fn var_value(
    sheet: &Sheet,
    work: &mut Space,
    consts: usize,
    r: usize,
) -> Result<Option<First>, NoItem>
    requires { (VarLine sheet.now r) × (ConstsLogged sheet.now work.old consts) }
    ensures { Inits work.old (or_pending (var_value (names_in sheet.now work.old consts) (var_on sheet.now r))) result work.new }
{
    if has_names(sheet, r) {
        return first_value(sheet, work, consts, r);
    }
    plain_value(sheet, work, consts, r)
}
