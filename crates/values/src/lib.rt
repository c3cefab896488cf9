// Folded values, and what operators make of them. Bytes of strings stand in the working space, as on a stack.
#![tactic(auto)]

ghost use Rattle.std.specs.Prelude.{◌≡◌, ℕ, ◌+◌, ◌≤◌, length, take, drop};
ghost use Rattle.semantics.specs.Text.{Bytes};
ghost use Rattle.semantics.specs.Tree.ConstVal.{v_int, v_real};
ghost use Rattle.semantics.specs.Fold.{int_unary, real_unary, fold_unary, int_binary, real_binary, str_binary, fold_binary, fold_cast, fold_len};
ghost use Rattle.codes.specs.Operators.{unary_op, binary_op};
ghost use Rattle.codes.specs.Kinds.{value_number};
ghost use Rattle.write.specs.Wrote.{over};
ghost use Rattle.values.specs.Values.{value_in, string_in, basic_at, string_size, kind_for, bits_for, Small, InRange, At, Within, Answers, Casts, RunsApart};

use codes::binary::Binary;
use codes::ty;
use codes::unary::Unary;
use codes::value::Value;
use write::Writer;

// The longest string that a fold may build.
pub const LONGEST_STRING: usize = 256;

// An integer, a real, or a string's place in the working space and its length.
#[derive(Clone, Copy)]
pub enum ConstVal {
    Int(i64),
    Real(f64),
    Str(usize, usize),
}

// Why a fold has no value: it fails, or a string grows too long, which refuses the sheet.
#[derive(Clone, Copy, PartialEq, Eq)]
pub enum NoValue {
    Failed,
    LongString,
}

// What a fold gives.
pub type Folded = Result<ConstVal, NoValue>;

// Bytes copied inside the working space.
pub fn copy(work: &mut [u8], from: usize, to: usize, len: usize)
    requires { RunsApart (length work.old) from to len }
    ensures { work.new ≡ over work.old to (take len (drop from work.old)) }
{
    work.copy_within(from..from + len, to);
}

// How many bytes of the working space a value takes.
pub fn size(v: ConstVal) -> usize
    ensures { result ≡ string_size v }
{
    match v {
        ConstVal::Int(_) | ConstVal::Real(_) => 0,
        ConstVal::Str(_, l) => l,
    }
}

// Its kind.
pub fn kind_of(v: ConstVal) -> Value
    ensures { value_number result ≡ kind_for v }
{
    match v {
        ConstVal::Int(_) => Value::Int,
        ConstVal::Real(_) => Value::Real,
        ConstVal::Str(_, _) => Value::Str,
    }
}

// Its bits in a slot.
pub fn bits_of(v: ConstVal) -> u64
    requires { Small v }
    ensures { (result ≡ bits_for v) × (InRange v) }
{
    match v {
        ConstVal::Int(z) => ints::bits(z),
        ConstVal::Real(x) => reals::bits(x),
        ConstVal::Str(p, l) => p as u64 + 65536 * l as u64,
    }
}

#[tactic(auto, unfolding(crate::specs::Values::result_in, crate::specs::Values::value_in))]
fn int_unary(op: Unary, x: i64) -> Folded
    ensures { (t : Bytes) (top : ℕ) → Answers t top result (int_unary (unary_op op) x) }
{
    let n = match op {
        Unary::Neg => ints::neg(x),
        Unary::Not => ints::not(x),
        Unary::BitNot => ints::bit_not(x),
        Unary::Ref => return Err(NoValue::Failed),
    };
    Ok(ConstVal::Int(n))
}

#[tactic(auto, unfolding(crate::specs::Values::result_in, crate::specs::Values::value_in))]
fn real_unary(op: Unary, x: f64) -> Folded
    ensures { (t : Bytes) (top : ℕ) → Answers t top result (real_unary (unary_op op) x) }
{
    match op {
        Unary::Neg => Ok(ConstVal::Real(reals::neg(x))),
        _ => Err(NoValue::Failed),
    }
}

#[tactic(auto, unfolding(crate::specs::Values::result_in, crate::specs::Values::value_in))]
pub fn fold_unary(op: Unary, v: ConstVal) -> Folded
    ensures { (t : Bytes) (top : ℕ) → Answers t top result (fold_unary (unary_op op) (value_in t v)) }
{
    match v {
        ConstVal::Int(x) => int_unary(op, x),
        ConstVal::Real(x) => real_unary(op, x),
        ConstVal::Str(_, _) => Err(NoValue::Failed),
    }
}

// Power, `LogAnd` and `LogOr` fail.
#[tactic(auto, unfolding(crate::specs::Values::result_in, crate::specs::Values::value_in))]
fn int_binary(op: Binary, x: i64, y: i64) -> Folded
    ensures { (t : Bytes) (top : ℕ) → Answers t top result (int_binary (binary_op op) x y) }
{
    let n = match op {
        Binary::Add => ints::add(x, y),
        Binary::Sub => ints::sub(x, y),
        Binary::Mul => ints::mul(x, y),
        Binary::Div => ints::div(x, y).ok_or(NoValue::Failed)?,
        Binary::Rem => ints::rem(x, y).ok_or(NoValue::Failed)?,
        Binary::And => ints::and(x, y),
        Binary::Or => ints::or(x, y),
        Binary::Xor => ints::xor(x, y),
        Binary::Lshift => ints::shl(x, y),
        Binary::Rshift => ints::shr(x, y),
        Binary::Eq => ints::eq(x, y),
        Binary::Neq => ints::neq(x, y),
        Binary::Lt => ints::lt(x, y),
        Binary::Gt => ints::gt(x, y),
        Binary::Leq => ints::leq(x, y),
        Binary::Geq => ints::geq(x, y),
        Binary::Power | Binary::LogAnd | Binary::LogOr => return Err(NoValue::Failed),
    };
    Ok(ConstVal::Int(n))
}

#[tactic(auto, unfolding(crate::specs::Values::result_in, crate::specs::Values::value_in))]
fn real_binary(op: Binary, x: f64, y: f64) -> Folded
    ensures { (t : Bytes) (top : ℕ) → Answers t top result (real_binary (binary_op op) x y) }
{
    match op {
        Binary::Add => Ok(ConstVal::Real(reals::add(x, y))),
        Binary::Sub => Ok(ConstVal::Real(reals::sub(x, y))),
        Binary::Mul => Ok(ConstVal::Real(reals::mul(x, y))),
        Binary::Div => Ok(ConstVal::Real(reals::div(x, y))),
        _ => Err(NoValue::Failed),
    }
}

// A string of l bytes at p, and one of m bytes behind it: their join stands there already.
#[tactic(auto, unfolding(crate::specs::Values::result_in, crate::specs::Values::value_in))]
fn str_binary(op: Binary, p: usize, l: usize, m: usize) -> Folded
    ensures { (t : Bytes) → p + l + m ≤ length t → Answers t p result (str_binary (binary_op op) (string_in t p l) (string_in t (p + l) m)) }
{
    match op {
        Binary::Add => {
            let joined = l.saturating_add(m);
            if LONGEST_STRING < joined {
                return Err(NoValue::LongString);
            }
            Ok(ConstVal::Str(p, joined))
        }
        _ => Err(NoValue::Failed),
    }
}

// A string x stands at `top`, and a string y behind x.
#[tactic(auto, unfolding(crate::specs::Values::result_in, crate::specs::Values::value_in))]
pub fn fold_binary(op: Binary, x: ConstVal, y: ConstVal) -> Folded
    ensures { (t : Bytes) (top : ℕ) → At top x → At (top + string_size x) y → top + 512 ≤ length t → Answers t top result (fold_binary (binary_op op) (value_in t x) (value_in t y)) }
{
    match (x, y) {
        (ConstVal::Int(a), ConstVal::Int(b)) => int_binary(op, a, b),
        (ConstVal::Int(a), ConstVal::Real(b)) => real_binary(op, reals::from_i64(a), b),
        (ConstVal::Real(a), ConstVal::Int(b)) => real_binary(op, a, reals::from_i64(b)),
        (ConstVal::Real(a), ConstVal::Real(b)) => real_binary(op, a, b),
        (ConstVal::Str(p, l), ConstVal::Str(_, m)) => str_binary(op, p, l, m),
        _ => Err(NoValue::Failed),
    }
}

#[tactic(auto, unfolding(crate::specs::Values::result_in, crate::specs::Values::value_in))]
fn cast_int(work: &mut [u8], code: usize, x: i64, top: usize) -> ConstVal
    requires { top + 256 ≤ length work.old }
    ensures { Casts work.old top (fold_cast (basic_at code) (v_int x)) work.new result }
{
    match code {
        ty::REAL => ConstVal::Real(reals::from_i64(x)),
        ty::STRING => {
            let mut w = Writer::from(work, top);
            w.put_int(x);
            ConstVal::Str(top, w.at - top)
        }
        _ => ConstVal::Int(x), // whole, also as a byte
    }
}

#[tactic(auto, unfolding(crate::specs::Values::result_in, crate::specs::Values::value_in))]
fn cast_real(code: usize, x: f64) -> ConstVal
    ensures { (t : Bytes) (top : ℕ) → (value_in t result ≡ fold_cast (basic_at code) (v_real x)) × At top result }
{
    if code < ty::REAL {
        ConstVal::Int(reals::to_i64(x))
    } else {
        ConstVal::Real(x)
    }
}

// A string stands at `top`, and so does the decimal of an integer. `code` is the form of the type.
#[tactic(auto, unfolding(crate::specs::Values::result_in, crate::specs::Values::value_in))]
pub fn fold_cast(work: &mut [u8], code: usize, v: ConstVal, top: usize) -> ConstVal
    requires { (At top v) × (top + 256 ≤ length work.old) }
    ensures { Casts work.old top (fold_cast (basic_at code) (value_in work.old v)) work.new result }
{
    match v {
        ConstVal::Int(x) => cast_int(work, code, x, top),
        ConstVal::Real(x) => cast_real(code, x),
        ConstVal::Str(_, _) => v,
    }
}

// Characters, not bytes.
#[tactic(auto, unfolding(crate::specs::Values::result_in, crate::specs::Values::value_in))]
pub fn fold_len(work: &[u8], v: ConstVal) -> Folded
    requires { Within (length work.now) v }
    ensures { (top : ℕ) → Answers work.now top result (fold_len (value_in work.now v)) }
{
    match v {
        ConstVal::Str(p, l) => Ok(ConstVal::Int(utf8::count(&work[p..p + l]) as i64)),
        _ => Err(NoValue::Failed),
    }
}
