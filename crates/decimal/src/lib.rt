// Decimal numbers and integers without leading zeros, of any number of digits.
#![tactic(auto)]

ghost use Rattle.std.specs.Prelude.{◌≡◌, ◌+◌, ◌*◌, ◌≤◌, min, drop};
ghost use Rattle.semantics.specs.Text.{digits_value, nat_of};
ghost use Rattle.decimal.specs.Number.{most, up_to, signed_of, integer_of, is_between};

// One more than the magnitude of the lowest i64: a number that is larger need not be told from it.
pub const MOST: u64 = 9223372036854775809;

// An integer's magnitude, no further than MOST, with its sign.
#[derive(Clone, Copy)]
pub enum Signed {
    Plus(u64),
    Minus(u64),
}

// One digit more, no further than MOST, so that no number of digits wraps.
fn more(n: u64, digit: u64) -> u64
    requires { digit ≤ 9 }
    ensures { result ≡ min (n * 10 + digit) most }
{
    // one comparison, as all digits of a sheet pass here several times
    if n <= MOST / 10 { n * 10 + digit } else { MOST }
}

// The number that digits write.
fn digits(s: &[u8]) -> Option<u64>
    ensures { result ≡ up_to most (digits_value 0 s.now) }
{
    let mut n = 0;
    for b in s {
        if !b.is_ascii_digit() {
            return None;
        }
        n = more(n, u64::from(*b - b'0'));
    }
    Some(n)
}

// A number, MOST where it is larger: a zero stands alone.
pub fn natural(s: &[u8]) -> Option<u64>
    ensures { result ≡ up_to most (nat_of s.now) }
{
    if s.is_empty() {
        return None;
    }
    if s[0] == b'0' && 1 < s.len() {
        return None;
    }
    digits(s)
}

// The number that the bytes from `from` on write: none where nothing is left, or nothing was there.
pub fn natural_from(s: &[u8], from: usize) -> Option<u64>
    ensures { result ≡ up_to most (nat_of (drop from s.now)) }
{
    natural(s.get(from..)?)
}

// A number, cap where it is larger.
pub fn read_number(s: &[u8], cap: u32) -> Option<u64>
    ensures { result ≡ up_to cap (nat_of s.now) }
{
    Some(natural(s)?.min(u64::from(cap)))
}

// An integer's sign and magnitude: `-` stands only before a number other than 0.
pub fn read_signed(s: &[u8]) -> Option<Signed>
    ensures { result ≡ signed_of s.now }
{
    if let Some(magnitude) = s.strip_prefix(b"-") {
        let n = natural(magnitude)?;
        return if n == 0 { None } else { Some(Signed::Minus(n)) };
    }
    let n = natural(s)?;
    Some(Signed::Plus(n))
}

// An integer from -2^63 to 2^63 - 1.
pub fn read_integer(s: &[u8]) -> Option<i64>
    ensures { result ≡ integer_of s.now }
{
    match read_signed(s)? {
        Signed::Plus(n) => i64::try_from(n).ok(),
        Signed::Minus(n) => 0_i64.checked_sub_unsigned(n),
    }
}

// Whether the field is an integer from -lo to hi.
pub fn is_between(s: &[u8], lo: u32, hi: u32) -> bool
    ensures { result ≡ is_between lo hi s.now }
{
    match read_signed(s) {
        Some(Signed::Plus(n)) => n <= u64::from(hi),
        Some(Signed::Minus(n)) => n <= u64::from(lo),
        None => false,
    }
}
