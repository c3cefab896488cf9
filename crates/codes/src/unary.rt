// Unary operators.
ghost use Rattle.std.specs.Prelude.{◌≡◌};
ghost use Rattle.codes.specs.Operators.{unary_op, unary_at};

#[derive(Clone, Copy, PartialEq, Eq)]
pub enum Unary {
    Neg,
    Not,
    BitNot,
    Ref,
}

// The operator of a number in an `ex un` line.
pub fn of_number(n: usize) -> Unary
    ensures { unary_op result ≡ unary_at n }
{
    match n {
        0 => Unary::Neg,
        1 => Unary::Not,
        2 => Unary::BitNot,
        _ => Unary::Ref,
    }
}
