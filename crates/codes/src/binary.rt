// Binary operators.
ghost use Rattle.std.specs.Prelude.{◌≡◌};
ghost use Rattle.codes.specs.Operators.{binary_op, binary_at};

#[derive(Clone, Copy, PartialEq, Eq)]
pub enum Binary {
    Add,
    Sub,
    Mul,
    Div,
    Rem,
    Power,
    And,
    Or,
    Xor,
    Lshift,
    Rshift,
    Eq,
    Neq,
    Lt,
    Gt,
    Leq,
    Geq,
    LogAnd,
    LogOr,
}

// The operator of a number in an `ex bin` line.
pub fn of_number(n: usize) -> Binary
    ensures { binary_op result ≡ binary_at n }
{
    match n {
        0 => Binary::Add,
        1 => Binary::Sub,
        2 => Binary::Mul,
        3 => Binary::Div,
        4 => Binary::Rem,
        6 => Binary::And,
        7 => Binary::Or,
        8 => Binary::Xor,
        9 => Binary::Lshift,
        10 => Binary::Rshift,
        11 => Binary::Eq,
        12 => Binary::Neq,
        13 => Binary::Lt,
        14 => Binary::Gt,
        15 => Binary::Leq,
        16 => Binary::Geq,
        17 => Binary::LogAnd,
        18 => Binary::LogOr,
        _ => Binary::Power,
    }
}
