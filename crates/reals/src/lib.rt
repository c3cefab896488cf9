// f64: each contract is an equation with crate semantics' rules for reals, which are those of IEEE 754.
#![tactic(auto)]

ghost use Rattle.std.specs.Prelude.{◌≡◌, ◌%◌, pos, from_bits, to_bits};
ghost use Rattle.std.specs.Float.Ieee as Ieee;
ghost use Rattle.std.specs.Float.{binary64};
ghost use Rattle.std.specs.Float.Ieee.Nearest.{closest};
ghost use Rattle.semantics.specs.Fold.{real_arith, to_real, to_whole};
ghost use Rattle.semantics.specs.Tree.{Arith};

#[tactic(auto, using(crate::proofs::Operators::sum_is))]
pub fn add(a: f64, b: f64) -> f64
    ensures { result ≡ real_arith Arith.add a b }
{
    a + b
}

#[tactic(auto, using(crate::proofs::Operators::difference_is))]
pub fn sub(a: f64, b: f64) -> f64
    ensures { result ≡ real_arith Arith.sub a b }
{
    a - b
}

#[tactic(auto, using(crate::proofs::Operators::product_is))]
pub fn mul(a: f64, b: f64) -> f64
    ensures { result ≡ real_arith Arith.mul a b }
{
    a * b
}

#[tactic(auto, using(crate::proofs::Operators::quotient_is))]
pub fn div(a: f64, b: f64) -> f64
    ensures { result ≡ real_arith Arith.div a b }
{
    a / b
}

pub fn neg(a: f64) -> f64
    ensures { result ≡ Ieee.neg a }
{
    -a
}

// The bit pattern of x. Compiled code may have any NaN, with either sign; every one of them gets the one pattern.
pub fn bits(x: f64) -> u64
    ensures { result ≡ to_bits binary64 x }
{
    std::num::f64_to_bits_with_nan(x)
}

// The real of any bit pattern; every NaN's gives the one NaN.
pub fn of_bits(b: u64) -> f64
    ensures { result ≡ from_bits binary64 b }
{
    std::num::f64_from_bits_with_nan(b)
}

// 1 where n is odd.
fn last_digit(n: u64) -> u64
    ensures { result ≡ n % 2 }
{
    n & 1
}

// m / 2^11 to the nearest integer, ties to even: the 53 leading digits of a 64-digit m.
fn rounded(m: u64) -> u64
    ensures { result ≡ closest m 2048 }
{
    let top = m >> 11;
    let rest = m & 2047;
    if rest > 1024 {
        return top + 1;
    }
    if rest == 1024 {
        return top + last_digit(top);
    }
    top
}

// The magnitude of an integer as a real. Its leading one is moved to place 63, and how far it was moved decides the exponent.
// A `rounded` of 2^53 carries into the exponent's field, which makes it right again. 1085 is the bias 1023 plus 62: the leading one of
// q, at place 52, adds 1 to the exponent.
fn from_u64(n: u64) -> f64
    ensures { result ≡ to_real (pos n) }
{
    if n == 0 {
        return 0.0;
    }
    let z = u64::leading_zeros(n) as u64;
    let q = rounded(n << z);
    f64::from_bits((1085 - z) * 0x10_0000_0000_0000 + q)
}

// The nearest real, ties to even: by leading zeros, as 01 names it, and not by the library's conversion.
pub fn from_i64(n: i64) -> f64
    ensures { result ≡ to_real n }
{
    if n >= 0 {
        from_u64(n as u64)
    } else {
        -from_u64(((!n) as u64) + 1)
    }
}

// How a real becomes a whole number: no other function decides it.
// Toward zero, saturating, and 0 for a NaN.
#[tactic(auto, unfolding(semantics::specs::Fold::to_whole))]
pub fn to_i64(x: f64) -> i64
    ensures { result ≡ to_whole 63 x }
{
    std::num::saturating_f64_to_i64(x)
}

// The same whole number, saturating at 32 bits.
pub fn to_i32(x: f64) -> i32
    ensures { result ≡ to_whole 31 x }
{
    let n = to_i64(x);
    if n > 2147483647 {
        return 2147483647;
    }
    if n < -2147483648 {
        return -2147483648;
    }
    n as i32
}
