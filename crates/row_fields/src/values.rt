// A writer of values, the highest byte first.
ghost use Rattle.std.specs.Prelude.{◌≡◌, ◌≤◌};
ghost use Rattle.semantics.specs.Form.{fields_from};
ghost use Rattle.write.specs.Writes.{Writes};
ghost use Rattle.stored.specs.Reading.{bits_in, row_values};

use crate::{integer, real};
use write::Writer;

// The bits of a value: a real's, or an integer's.
fn value(f: &[u8], reals: bool) -> u64
    ensures { result ≡ bits_in reals f.now }
{
    if reals {
        return real(f);
    }
    integer(f)
}

// The values in the fields of a row from a place on, one after the other, each in `width` bytes.
pub fn put_values(w: &mut Writer, row: &[u8], from: usize, width: usize, reals: bool)
    requires { width ≤ 8 }
    ensures { Writes w.old (row_values width reals (fields_from from row.now)) w.new }
{
    let mut i = from;
    while i <= row.len() {
        let e = text::find(row, i, b',');
        w.put_big_endian(width, value(&row[i..e], reals));
        i = e + 1;
    }
}
