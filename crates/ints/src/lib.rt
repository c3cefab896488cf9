// Operators on i64, as constants are folded: each contract is an equation with crate semantics' rule for that operator.
#![tactic(auto)]

ghost use Rattle.std.specs.Prelude.{◌≡◌, ◌*◌, ◌%◌, ◌^◌};
ghost use Rattle.semantics.specs.Fold.{bits64, signed64, shift_count, int_ok, test, int_arith, int_only, int_unary};
ghost use Rattle.semantics.specs.Tree.{Arith, IntOp, UnaryOp};
ghost use Rattle.ints.specs.Quotients.{folded};

// The bit pattern of n.
pub fn bits(n: i64) -> u64
    ensures { result ≡ bits64 n }
{
    n.cast_unsigned()
}

// The integer of a bit pattern.
pub fn of_bits(b: u64) -> i64
    ensures { result ≡ signed64 b }
{
    b.cast_signed()
}

#[tactic(auto, using(crate::proofs::Wrapping::wrapped_sum))]
pub fn add(a: i64, b: i64) -> i64
    ensures { int_ok result ≡ int_arith Arith.add a b }
{
    a.wrapping_add(b)
}

#[tactic(auto, using(crate::proofs::Wrapping::wrapped_difference))]
pub fn sub(a: i64, b: i64) -> i64
    ensures { int_ok result ≡ int_arith Arith.sub a b }
{
    a.wrapping_sub(b)
}

#[tactic(auto, using(crate::proofs::Wrapping::wrapped_product))]
pub fn mul(a: i64, b: i64) -> i64
    ensures { int_ok result ≡ int_arith Arith.mul a b }
{
    a.wrapping_mul(b)
}

#[tactic(auto, using(crate::proofs::Wrapping::wrapped_negation))]
pub fn neg(a: i64) -> i64
    ensures { int_ok result ≡ int_unary UnaryOp.neg a }
{
    a.wrapping_neg()
}

// Toward zero, and none by 0. The machine has no quotient of -2^63 by -1, which wraps.
#[tactic(auto, using(crate::proofs::Wrapping::dividing))]
pub fn div(a: i64, b: i64) -> Option<i64>
    ensures { folded result ≡ int_arith Arith.div a b }
{
    if b == 0 {
        None
    } else {
        Some(a.wrapping_div(b))
    }
}

// With the sign of a, and none by 0. By -1 it is 0: the machine has no remainder of -2^63 by -1.
pub fn rem(a: i64, b: i64) -> Option<i64>
    ensures { folded result ≡ int_only IntOp.rem a b }
{
    if b == 0 {
        None
    } else {
        Some(a.wrapping_rem(b))
    }
}

// By how many places a shift of n goes.
fn count(n: i64) -> u64
    ensures { result ≡ shift_count n }
{
    bits(n) & 63
}

pub fn shl(a: i64, n: i64) -> i64
    ensures { int_ok result ≡ int_only IntOp.lshift a n }
{
    a << count(n)
}

pub fn shr(a: i64, n: i64) -> i64
    ensures { int_ok result ≡ int_only IntOp.rshift a n }
{
    a >> count(n)
}

pub fn and(a: i64, b: i64) -> i64
    ensures { int_ok result ≡ int_only IntOp.and a b }
{
    a & b
}

pub fn or(a: i64, b: i64) -> i64
    ensures { int_ok result ≡ int_only IntOp.or a b }
{
    a | b
}

pub fn xor(a: i64, b: i64) -> i64
    ensures { int_ok result ≡ int_only IntOp.xor a b }
{
    a ^ b
}

pub fn bit_not(a: i64) -> i64
    ensures { int_ok result ≡ int_unary UnaryOp.bit_not a }
{
    !a
}

// What a test gives.
fn flag(holds: bool) -> i64
    ensures { int_ok result ≡ test holds }
{
    i64::from(holds)
}

pub fn not(a: i64) -> i64
    ensures { int_ok result ≡ int_unary UnaryOp.not a }
{
    flag(a == 0)
}

pub fn eq(a: i64, b: i64) -> i64
    ensures { int_ok result ≡ int_only IntOp.eq a b }
{
    flag(a == b)
}

pub fn neq(a: i64, b: i64) -> i64
    ensures { int_ok result ≡ int_only IntOp.neq a b }
{
    flag(a != b)
}

pub fn lt(a: i64, b: i64) -> i64
    ensures { int_ok result ≡ int_only IntOp.lt a b }
{
    flag(a < b)
}

pub fn gt(a: i64, b: i64) -> i64
    ensures { int_ok result ≡ int_only IntOp.gt a b }
{
    flag(a > b)
}

pub fn leq(a: i64, b: i64) -> i64
    ensures { int_ok result ≡ int_only IntOp.leq a b }
{
    flag(a <= b)
}

pub fn geq(a: i64, b: i64) -> i64
    ensures { int_ok result ≡ int_only IntOp.geq a b }
{
    flag(a >= b)
}
