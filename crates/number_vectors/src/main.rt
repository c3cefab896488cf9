// Runs the vectors of `stdin` through ints, reals and conversions: edges of floating point (exact sums, ties, subnormals, overflow
// to infinity, infinities and zeros of both signs, NaNs of several patterns), published values (RFC 8785, appendix B; RFC 8949,
// appendix A; the quotient 4195835 / 3145727, which a faulty divider once got wrong), and document 01's numeric rows. A vector
// is a line of 37 bytes: an operation's number as below, in 2 hexadecimal digits, and two operands' bits, in 16 each. A line is
// written for each: the operation, its operands and what it gives, reals by their bits and integers in decimal.
// `stdout` is what expected.py works out from `stdin` with Python's own integers and the machine's floats.
#![tactic(auto)]

ghost use Rattle.std.specs.Prelude.{◌≡◌, if◌then◌else◌};
ghost use Rattle.std.specs.Float.{binary64};
ghost use Rattle.std.specs.Float.Ieee.{nan_bits};

use std::fmt::{self, Display, Formatter};
use std::io::{self, BufWriter, Read, Write};

// There and back: a real is what its bits say.
fn again(x: f64) -> f64
    ensures { result ≡ x }
{
    reals::of_bits(reals::bits(x))
}

// Back and there: bits stay as they are, but for a NaN's, which become the one pattern.
fn bits_again(b: u64) -> u64
    ensures { result ≡ (if nan_bits binary64 b then 0x7ff8_0000_0000_0000 else b) }
{
    reals::bits(reals::of_bits(b))
}

// What an operand is, or an operation gives.
#[derive(Clone, Copy)]
enum Value {
    Real(f64),
    Int(i64),
    Failed,
}

impl From<f64> for Value {
    fn from(x: f64) -> Value {
        Value::Real(x)
    }
}

impl From<i64> for Value {
    fn from(n: i64) -> Value {
        Value::Int(n)
    }
}

impl From<Option<i64>> for Value {
    fn from(q: Option<i64>) -> Value {
        q.map_or(Value::Failed, Value::Int)
    }
}

// Behind a blank, a real by its bits, an integer in decimal.
impl Display for Value {
    fn fmt<W: fmt::Write>(&self, f: &mut Formatter<W>) -> fmt::Result {
        match self {
            Value::Real(x) => write!(f, " {:016x}", reals::bits(again(*x))),
            Value::Int(n) => write!(f, " {n}"),
            Value::Failed => f.write_str(" failed"),
        }
    }
}

// The operations on reals.
#[derive(Clone, Copy)]
enum RealOp {
    Add,
    Sub,
    Mul,
    Div,
    Neg,
    Big,
    Word,
    Byte,
}

impl RealOp {
    fn takes_two(self) -> bool {
        matches!(self, RealOp::Add | RealOp::Sub | RealOp::Mul | RealOp::Div)
    }

    fn result(self, x: f64, y: f64) -> Value {
        match self {
            RealOp::Add => reals::add(x, y).into(),
            RealOp::Sub => reals::sub(x, y).into(),
            RealOp::Mul => reals::mul(x, y).into(),
            RealOp::Div => reals::div(x, y).into(),
            RealOp::Neg => reals::neg(x).into(),
            RealOp::Big => conversions::big_of_real(x).into(),
            RealOp::Word => i64::from(conversions::word_of_real(x)).into(),
            RealOp::Byte => i64::from(conversions::byte_of_real(x)).into(),
        }
    }
}

// The operations on integers.
#[derive(Clone, Copy)]
enum IntOp {
    Add,
    Sub,
    Mul,
    Div,
    Mod,
    Shl,
    Shr,
    And,
    Or,
    Xor,
    Eq,
    Neq,
    Lt,
    Gt,
    Leq,
    Geq,
    Neg,
    Not,
    BitNot,
    Word,
    Byte,
    Real,
}

impl IntOp {
    fn takes_two(self) -> bool {
        !matches!(
            self,
            IntOp::Neg | IntOp::Not | IntOp::BitNot | IntOp::Word | IntOp::Byte | IntOp::Real
        )
    }

    fn result(self, a: i64, b: i64) -> Value {
        match self {
            IntOp::Add => ints::add(a, b).into(),
            IntOp::Sub => ints::sub(a, b).into(),
            IntOp::Mul => ints::mul(a, b).into(),
            IntOp::Div => ints::div(a, b).into(),
            IntOp::Mod => ints::rem(a, b).into(),
            IntOp::Shl => ints::shl(a, b).into(),
            IntOp::Shr => ints::shr(a, b).into(),
            IntOp::And => ints::and(a, b).into(),
            IntOp::Or => ints::or(a, b).into(),
            IntOp::Xor => ints::xor(a, b).into(),
            IntOp::Eq => ints::eq(a, b).into(),
            IntOp::Neq => ints::neq(a, b).into(),
            IntOp::Lt => ints::lt(a, b).into(),
            IntOp::Gt => ints::gt(a, b).into(),
            IntOp::Leq => ints::leq(a, b).into(),
            IntOp::Geq => ints::geq(a, b).into(),
            IntOp::Neg => ints::neg(a).into(),
            IntOp::Not => ints::not(a).into(),
            IntOp::BitNot => ints::bit_not(a).into(),
            IntOp::Word => i64::from(conversions::word_of_int(a)).into(),
            IntOp::Byte => i64::from(conversions::byte_of_int(a)).into(),
            IntOp::Real => conversions::real_of_int(a).into(),
        }
    }
}

#[derive(Clone, Copy)]
enum Op {
    OfReals(RealOp),
    OfInts(IntOp),
}

// The operations by their numbers, with their names in 8 bytes.
const OPS: [(&str, Op); 30] = [
    ("real add", Op::OfReals(RealOp::Add)),
    ("real sub", Op::OfReals(RealOp::Sub)),
    ("real mul", Op::OfReals(RealOp::Mul)),
    ("real div", Op::OfReals(RealOp::Div)),
    ("real neg", Op::OfReals(RealOp::Neg)),
    ("to big  ", Op::OfReals(RealOp::Big)),
    ("to word ", Op::OfReals(RealOp::Word)),
    ("to byte ", Op::OfReals(RealOp::Byte)),
    ("add     ", Op::OfInts(IntOp::Add)),
    ("sub     ", Op::OfInts(IntOp::Sub)),
    ("mul     ", Op::OfInts(IntOp::Mul)),
    ("div     ", Op::OfInts(IntOp::Div)),
    ("mod     ", Op::OfInts(IntOp::Mod)),
    ("shl     ", Op::OfInts(IntOp::Shl)),
    ("shr     ", Op::OfInts(IntOp::Shr)),
    ("and     ", Op::OfInts(IntOp::And)),
    ("or      ", Op::OfInts(IntOp::Or)),
    ("xor     ", Op::OfInts(IntOp::Xor)),
    ("eq      ", Op::OfInts(IntOp::Eq)),
    ("neq     ", Op::OfInts(IntOp::Neq)),
    ("lt      ", Op::OfInts(IntOp::Lt)),
    ("gt      ", Op::OfInts(IntOp::Gt)),
    ("leq     ", Op::OfInts(IntOp::Leq)),
    ("geq     ", Op::OfInts(IntOp::Geq)),
    ("neg     ", Op::OfInts(IntOp::Neg)),
    ("not     ", Op::OfInts(IntOp::Not)),
    ("bitnot  ", Op::OfInts(IntOp::BitNot)),
    ("word of ", Op::OfInts(IntOp::Word)),
    ("byte of ", Op::OfInts(IntOp::Byte)),
    ("real of ", Op::OfInts(IntOp::Real)),
];

// The operands of an operation and what it gives; the second operand where it takes two.
fn worked(op: Op, a: u64, b: u64) -> (Value, Option<Value>, Value) {
    match op {
        Op::OfReals(o) => {
            let x = reals::of_bits(bits_again(a));
            let y = reals::of_bits(bits_again(b));
            (x.into(), o.takes_two().then_some(y.into()), o.result(x, y))
        }
        Op::OfInts(o) => {
            let m = ints::of_bits(a);
            let n = ints::of_bits(b);
            (m.into(), o.takes_two().then_some(n.into()), o.result(m, n))
        }
    }
}

// A line's operation, by its number, and the bits of its operands.
#[derive(Clone, Copy)]
struct Vector {
    op: usize,
    a: u64,
    b: u64,
}

// A number past the last is the last operation without its name.
fn row<W: Write>(out: &mut W, v: Vector) -> io::Result<()> {
    let (name, op) = match OPS.get(v.op) {
        Some(named) => *named,
        None => ("", Op::OfInts(IntOp::Real)),
    };
    let (first, second, result) = worked(op, v.a, v.b);
    write!(out, "{name}{first}")?;
    if let Some(second) = second {
        write!(out, "{second}")?;
    }
    writeln!(out, " gives{result}")
}

// The value of an upper-case hexadecimal digit.
fn digit(c: u8) -> u8 {
    match c {
        b'A'..=b'\xff' => c - b'A' + 10,
        b'0'..=b'@' => c - b'0',
        _ => 0,
    }
}

// The number that digits write.
fn number(digits: &[u8]) -> u64 {
    digits
        .iter()
        .fold(0, |n, c| (n << 4) | u64::from(digit(*c)))
}

fn read_vector(line: &[u8; 37]) -> Vector {
    Vector {
        op: number(&line[..2]) as usize,
        a: number(&line[3..19]),
        b: number(&line[20..36]),
    }
}

// What is left behind the last whole line is no vector.
fn main(rt: HostRuntime) -> io::Result<()> {
    let alloc = rt.alloc();
    let mut lines = Vec::new(alloc);
    rt.stdin().take(65536).read_to_end(&mut lines)?;
    let mut out = BufWriter::new(alloc, io::writer(&rt))?;
    let (vectors, _) = lines.as_chunks::<37>();
    for line in vectors {
        row(&mut out, read_vector(line))?;
    }
    out.flush()
}
