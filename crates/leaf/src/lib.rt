// Expressions without an operand that is folded: numbers, strings, names, and names of a module.
#![tactic(auto)]

ghost use Rattle.std.specs.Prelude.{◌≡◌, true, [], ℕ, ◌+◌, ◌-◌, ◌≤◌, pos, length, get_or};
ghost use Rattle.std.specs.Float.{binary64};
ghost use Rattle.std.specs.Float.Ieee.{of_bits};
ghost use Rattle.semantics.specs.Text.{Bytes, or_else, int_of, unhex, from_big_endian};
ghost use Rattle.semantics.specs.Tree.ConstVal.{v_int, v_real, v_str};
ghost use Rattle.semantics.specs.Form as Form;
ghost use Rattle.semantics.specs.Fold.{from_option};
ghost use Rattle.lines.specs.Lines.{read_at, form_at};
ghost use Rattle.checks.specs.Checks.{Kept};
ghost use Rattle.values.specs.Values.{value_in, At, Answers, Casts};
ghost use Rattle.names.specs.Table.{found};
ghost use Rattle.leaf.specs.Folds.{scalar_of, Folds, Leaf, ScalarLine, Ident, Qualified, AnsweredAt};

use codes::ex;
use codes::value::{self, Value};
use lines::Sheet;
use names::Key;
use values::{ConstVal, Folded, NoValue};
use write::Writer;

fn integer(x: &[u8]) -> ConstVal
    requires { Form.holds Form.Atom.i64 x.now ≡ true }
    ensures { (t : Bytes) (top : ℕ) → (value_in t result ≡ v_int (or_else (pos 0) (int_of x.now))) × At top result }
{
    ConstVal::Int(decimal::read_integer(x).unwrap_or(0))
}

fn real(x: &[u8]) -> ConstVal
    requires { Form.holds Form.Atom.real x.now ≡ true }
    ensures { (t : Bytes) (top : ℕ) → (value_in t result ≡ v_real (of_bits binary64 (from_big_endian 0 (or_else [] (unhex x.now))))) × At top result }
{
    ConstVal::Real(reals::of_bits(hex_field::read_bits(x).unwrap_or(0)))
}

// The bytes that pairs of digits write, put at `top`.
fn string(x: &[u8], work: &mut [u8], top: usize) -> ConstVal
    requires { (Form.holds Form.Atom.text x.now ≡ true) × (length x.now ≤ 255) × (top + 256 ≤ length work.old) }
    ensures { Casts work.old top (v_str (or_else [] (unhex x.now))) work.new result }
{
    let l = x.len() / 2;
    let mut w = Writer::from(work, top);
    for i in 0..l {
        w.put(hex_field::byte(x, i).unwrap_or(0));
    }
    ConstVal::Str(top, l)
}

fn scalar(sheet: &Sheet, work: &mut [u8], r: usize, top: usize) -> ConstVal
    requires { ScalarLine sheet.now work.old r top }
    ensures { Casts work.old top (scalar_of (form_at sheet.now (r - 1)) (get_or (read_at sheet.now (r - 1)).fields 0 [])) work.new result }
{
    let x = sheet.field_at(r - 1, 0);
    match sheet.form_at(r - 1) {
        ex::INT => integer(x),
        ex::REAL => real(x),
        _ => string(x, work, top),
    }
}

// The value of the constant that a look-up found: a string is put at `top`.
fn constant(work: &mut [u8], k: Option<usize>, top: usize) -> Folded
    requires { AnsweredAt work.old k top }
    ensures { (Answers work.new top result (from_option (found work.old k))) × (Kept top work.old work.new) }
{
    let Some(i) = k else {
        return Err(NoValue::Failed);
    };
    let b = names::slot_bits(work, i);
    match value::of_number(names::slot_kind(work, i)) {
        Some(Value::Int) => Ok(ConstVal::Int(ints::of_bits(b))),
        Some(Value::Real) => Ok(ConstVal::Real(reals::of_bits(b))),
        Some(Value::Str) => {
            let l = (b / 65536) as usize;
            values::copy(work, (b % 65536) as usize, top, l);
            Ok(ConstVal::Str(top, l))
        }
        None => Err(NoValue::Failed),
    }
}

// `iota` outranks a constant of that name.
fn ident(sheet: &Sheet, work: &mut [u8], consts: usize, iota: u32, r: usize, top: usize) -> Folded
    requires { Ident sheet.now work.old consts r top }
    ensures { Folds sheet.now work.old consts iota r top work.new result }
{
    let name = sheet.field_at(r - 1, 0);
    if words::same(name, b"iota") {
        return Ok(ConstVal::Int(iota as i64));
    }
    let k = names::look_up(sheet, work, consts, Key { within: None, name });
    constant(work, k, top)
}

// The module must be named; its line is not folded.
fn qualified(sheet: &Sheet, work: &mut [u8], consts: usize, r: usize, top: usize) -> Folded
    requires { Qualified sheet.now work.old consts r top }
    ensures { (iota : ℕ) → Folds sheet.now work.old consts iota r top work.new result }
{
    let q = sheet.number_at(r - 1, 0);
    if sheet.form_at(q - 1) != ex::ID {
        return Err(NoValue::Failed);
    }
    let within = sheet.field_at(q - 1, 0);
    let name = sheet.field_at(r - 1, 1);
    let key = Key {
        within: Some(within),
        name,
    };
    let k = names::look_up(sheet, work, consts, key);
    constant(work, k, top)
}

// The value of line r, by the constants that are known: a string stands at `top`.
pub fn leaf(
    sheet: &Sheet,
    work: &mut [u8],
    consts: usize,
    iota: u32,
    r: usize,
    top: usize,
) -> Folded
    requires { Leaf sheet.now work.old consts r top }
    ensures { Folds sheet.now work.old consts iota r top work.new result }
{
    match sheet.form_at(r - 1) {
        ex::ID => ident(sheet, work, consts, iota, r, top),
        ex::QUAL => qualified(sheet, work, consts, r, top),
        _ => Ok(scalar(sheet, work, r, top)),
    }
}
