// Folded values in slots of the working space: a kind, and 8 bytes of bits, the highest first.
#![tactic(auto)]

ghost use Rattle.std.specs.Prelude.{◌≡◌, ◌+◌, ◌≤◌, length};
ghost use Rattle.write.specs.Wrote.{over};
ghost use Rattle.values.specs.Values.{Small, InRange};
ghost use Rattle.slots.specs.Slots.{slot_of, slot_bytes};

use codes::value::{self, Value};
use values::ConstVal;
use write::Writer;

// Stores a value in the slot at a.
pub fn put_value(work: &mut [u8], a: usize, v: ConstVal)
    requires { Small v }
    ensures { (work.new ≡ over work.old a (slot_bytes v)) × (InRange v) }
{
    let mut w = Writer::from(work, a);
    w.put(value::number(values::kind_of(v)));
    words::put_bits(&mut w, values::bits_of(v));
}

// The value in the slot at a.
#[tactic(auto, unfolding(crate::specs::Slots::slot_of, crate::specs::Slots::slot_by))]
pub fn value_at(work: &[u8], a: usize) -> ConstVal
    requires { a + 9 ≤ length work.now }
    ensures { result ≡ slot_of work.now a }
{
    let b = words::bits_at(work, a + 1);
    match value::of_number(work[a]).unwrap_or(Value::Int) {
        Value::Int => ConstVal::Int(ints::of_bits(b)),
        Value::Real => ConstVal::Real(reals::of_bits(b)),
        Value::Str => ConstVal::Str((b % 65536) as usize, (b / 65536) as usize),
    }
}
