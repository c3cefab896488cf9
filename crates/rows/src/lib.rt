// Fields of a row of the listing, each behind its comma, and the row's end. Keywords and a row's first field go by `Writer::put_part`.
#![tactic(auto)]

ghost use Rattle.std.specs.Prelude.{◌∷◌, []};
ghost use Rattle.semantics.specs.Text.{decimal, decimalℤ, hex_of, big_endian};
ghost use Rattle.semantics.specs.Listing.{flag, pend_row};
ghost use Rattle.write.specs.Writes.{Writes};

use write::Writer;

const COMMA: u8 = b',';

pub fn lf(w: &mut Writer)
    ensures { Writes w.old (10 ∷ []) w.new }
{
    w.put(b'\n');
}

pub fn comma_part(w: &mut Writer, part: &[u8])
    ensures { Writes w.old (44 ∷ part.now) w.new }
{
    w.put(COMMA);
    w.put_part(part);
}

pub fn comma_nat(w: &mut Writer, n: u64)
    ensures { Writes w.old (44 ∷ decimal n) w.new }
{
    w.put(COMMA);
    w.put_nat(n);
}

pub fn comma_int(w: &mut Writer, n: i64)
    ensures { Writes w.old (44 ∷ decimalℤ n) w.new }
{
    w.put(COMMA);
    w.put_int(n);
}

pub fn comma_hex(w: &mut Writer, part: &[u8])
    ensures { Writes w.old (44 ∷ hex_of part.now) w.new }
{
    w.put(COMMA);
    w.put_hex(part);
}

pub fn comma_bits(w: &mut Writer, n: u64)
    ensures { Writes w.old (44 ∷ hex_of (big_endian 8 n)) w.new }
{
    w.put(COMMA);
    w.put_hex_bits(n);
}

// 1 or 0.
pub fn comma_flag(w: &mut Writer, b: bool)
    ensures { Writes w.old (44 ∷ flag b) w.new }
{
    w.put(COMMA);
    w.put(if b { b'1' } else { b'0' });
}

// The row of a name whose value is pending.
pub fn pending(w: &mut Writer, name: &[u8])
    ensures { Writes w.old (pend_row name.now) w.new }
{
    w.put_part(b"pend");
    comma_part(w, name);
    lf(w);
}
