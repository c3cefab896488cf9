// Kinds of values in the tables of constants and of elements.
ghost use Rattle.std.specs.Prelude.{◌≡◌};
ghost use Rattle.codes.specs.Kinds.{value_number, value_by};

#[derive(Clone, Copy, PartialEq, Eq)]
pub enum Value {
    Int,
    Real,
    Str,
}

// The number that is stored for a kind.
pub fn number(k: Value) -> u8
    ensures { result ≡ value_number k }
{
    match k {
        Value::Int => 1,
        Value::Real => 2,
        Value::Str => 3,
    }
}

// The kind of a number, none for a constant that failed.
pub fn of_number(n: u8) -> Option<Value>
    ensures { result ≡ value_by n }
{
    match n {
        1 => Some(Value::Int),
        2 => Some(Value::Real),
        3 => Some(Value::Str),
        _ => None,
    }
}
