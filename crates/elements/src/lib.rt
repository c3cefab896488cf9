// Numbers as elements of arrays of a kind: their text, and rows of them.
#![tactic(auto)]

ghost use Rattle.std.specs.Prelude.{[], ◌∷◌};
ghost use Rattle.semantics.specs.Text.{Bytes};
ghost use Rattle.semantics.specs.Tree.ConstVal.{v_int, v_real, v_str};
ghost use Rattle.codes.specs.Kinds.{element_kind};
ghost use Rattle.write.specs.Writes.{Writes};
ghost use Rattle.values.specs.Values.{value_in};
ghost use Rattle.elements.specs.Elements.{element_text, kind_name, head_text, values_row};

use codes::element::Element;
use values::ConstVal;
use write::Writer;

fn put_int_element(w: &mut Writer, kind: Element, n: i64)
    ensures { Writes w.old (44 ∷ element_text (element_kind kind) (v_int n)) w.new }
{
    match kind {
        Element::Byte => rows::comma_nat(w, conversions::byte_of_int(n) as u64),
        Element::Word => rows::comma_int(w, conversions::word_of_int(n) as i64),
        Element::Big => rows::comma_int(w, n),
        Element::Real | Element::Pointer => {
            rows::comma_bits(w, reals::bits(conversions::real_of_int(n)))
        }
    }
}

fn put_real_element(w: &mut Writer, kind: Element, x: f64)
    ensures { Writes w.old (44 ∷ element_text (element_kind kind) (v_real x)) w.new }
{
    match kind {
        Element::Byte => rows::comma_nat(w, conversions::byte_of_real(x) as u64),
        Element::Word => rows::comma_int(w, conversions::word_of_real(x) as i64),
        Element::Big => rows::comma_int(w, conversions::big_of_real(x)),
        Element::Real | Element::Pointer => rows::comma_bits(w, reals::bits(x)),
    }
}

// A string among numbers is 0.
fn put_zero_element(w: &mut Writer, kind: Element)
    ensures { (s : Bytes) → Writes w.old (44 ∷ element_text (element_kind kind) (v_str s)) w.new }
{
    match kind {
        Element::Byte | Element::Word | Element::Big => rows::comma_nat(w, 0),
        Element::Real | Element::Pointer => rows::comma_bits(w, 0),
    }
}

// An element as a number of its array's kind, behind its comma.
#[tactic(auto, unfolding(values::specs::Values::value_in))]
pub fn put_element(w: &mut Writer, kind: Element, v: ConstVal)
    ensures { (t : Bytes) → Writes w.old (44 ∷ element_text (element_kind kind) (value_in t v)) w.new }
{
    match v {
        ConstVal::Int(n) => put_int_element(w, kind, n),
        ConstVal::Real(x) => put_real_element(w, kind, x),
        ConstVal::Str(_, _) => put_zero_element(w, kind),
    }
}

// The name of a kind of numbers, behind its comma.
fn put_kind(w: &mut Writer, kind: Element)
    ensures { Writes w.old (44 ∷ kind_name (element_kind kind)) w.new }
{
    match kind {
        Element::Byte => rows::comma_part(w, b"bytes"),
        Element::Word => rows::comma_part(w, b"words"),
        Element::Big => rows::comma_part(w, b"bigs"),
        Element::Real | Element::Pointer => rows::comma_part(w, b"reals"),
    }
}

// What stands in front of `count` numbers.
pub fn put_head(w: &mut Writer, kind: Element, off: usize, count: usize)
    ensures { Writes w.old (head_text (element_kind kind) off count) w.new }
{
    w.put_part(b"dat");
    put_kind(w, kind);
    rows::comma_nat(w, off as u64);
    rows::comma_nat(w, count as u64);
}

// The row of one number.
pub fn number_row(w: &mut Writer, kind: Element, off: usize, v: ConstVal)
    ensures { (t : Bytes) → Writes w.old (values_row (element_kind kind) off (value_in t v ∷ [])) w.new }
{
    put_head(w, kind, off, 1);
    put_element(w, kind, v);
    rows::lf(w);
}
