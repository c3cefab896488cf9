// Expressions folded: the value of an `ex` line of a checked sheet, left first. Strings stand in the working space as on a stack.
#![tactic(auto)]

ghost use Rattle.std.specs.Prelude.{◌≡◌, ◌-◌};
ghost use Rattle.values.specs.Values.{value_in, Answers};
ghost use Rattle.checks.specs.Checks.{Kept};
ghost use Rattle.leaf.specs.Folds.{ex_at, Foldable, Folds};
ghost use Rattle.fold.specs.Operators.{on_one, operand_of, OperatorLine, Applies};

use codes::{binary, ex, unary};
use lines::Sheet;
use values::{ConstVal, Folded, NoValue};

// The line of the only or left operand of line r.
fn operand(sheet: &Sheet, r: usize) -> usize
    requires { OperatorLine sheet.now r }
    ensures { result ≡ operand_of sheet.now r }
{
    if sheet.form_at(r - 1) == ex::LEN {
        sheet.number_at(r - 1, 0)
    } else {
        sheet.number_at(r - 1, 1)
    }
}

// What line r makes of the value of its only operand, which stands at `top` where it is a string.
fn apply(sheet: &Sheet, work: &mut [u8], r: usize, v: ConstVal, top: usize) -> Folded
    requires { Applies sheet.now work.old r v top }
    ensures { (Answers work.new top result (on_one (ex_at sheet.now r) (value_in work.old v))) × (Kept top work.old work.new) }
{
    match sheet.form_at(r - 1) {
        ex::UN => {
            let op = unary::of_number(sheet.number_at(r - 1, 0));
            values::fold_unary(op, v)
        }
        ex::CAST => {
            let code = sheet.form_at(sheet.number_at(r - 1, 0) - 1);
            Ok(values::fold_cast(work, code, v, top))
        }
        _ => values::fold_len(work, v),
    }
}

// The value of line r, by the constants that are known: a string stands at `top`. Each line under r is visited once.
pub fn fold_const(
    sheet: &Sheet,
    work: &mut [u8],
    consts: usize,
    iota: u32,
    r: usize,
    top: usize,
) -> Folded
    requires { Foldable sheet.now work.old consts r top }
    ensures { Folds sheet.now work.old consts iota r top work.new result }
{
    let f = sheet.form_at(r - 1);
    if f < ex::UN {
        return leaf::leaf(sheet, work, consts, iota, r, top);
    }
    if ex::LEN < f {
        return Err(NoValue::Failed);
    }
    let v = fold_const(sheet, work, consts, iota, operand(sheet, r), top)?;
    if f != ex::BIN {
        return apply(sheet, work, r, v, top);
    }
    let right = sheet.number_at(r - 1, 2);
    let w = fold_const(sheet, work, consts, iota, right, top + values::size(v))?;
    let op = binary::of_number(sheet.number_at(r - 1, 0));
    values::fold_binary(op, v, w)
}
