// The conversions that the elements of an array take: each contract names crate semantics' rule at an integer or at a real.
#![tactic(auto)]

ghost use Rattle.std.specs.Prelude.{◌≡◌};
ghost use Rattle.semantics.specs.Array.{const_word, const_byte, const_big, const_real, low_byte};
ghost use Rattle.semantics.specs.Tree.ConstVal.{v_int, v_real};

// The low 32 bits of n.
pub fn word_of_int(n: i64) -> i32
    ensures { result ≡ const_word (v_int n) }
{
    ((ints::bits(n) & 0xffff_ffff) as u32).cast_signed()
}

pub fn word_of_real(x: f64) -> i32
    ensures { result ≡ const_word (v_real x) }
{
    reals::to_i32(x)
}

// The low 8 bits of w.
fn byte_of_word(w: i32) -> u8
    ensures { result ≡ low_byte w }
{
    (w.cast_unsigned() & 0xff) as u8
}

pub fn byte_of_int(n: i64) -> u8
    ensures { result ≡ const_byte (v_int n) }
{
    byte_of_word(word_of_int(n))
}

pub fn byte_of_real(x: f64) -> u8
    ensures { result ≡ const_byte (v_real x) }
{
    byte_of_word(word_of_real(x))
}

pub fn big_of_real(x: f64) -> i64
    ensures { result ≡ const_big (v_real x) }
{
    reals::to_i64(x)
}

pub fn real_of_int(n: i64) -> f64
    ensures { result ≡ const_real (v_int n) }
{
    reals::from_i64(n)
}
