// Text written into a buffer that is lent. Past its end nothing is stored, and the place is one past the length and stays there, so that
// one test at the very end tells whether all fitted.
#![tactic(auto)]

ghost use Rattle.std.specs.Prelude.{◌≡◌, ◌+◌, ◌≤◌, ◌<◌, ◌/◌, ◌%◌, ◌^◌, ◌∷◌, [], length, replicate};
ghost use Rattle.semantics.specs.Text.{decimal, decimalℤ, hex_digit, hex_of, big_endian};
ghost use Rattle.write.specs.Wrote.{Wrote};

// Zeros in a whole buffer.
pub fn zero(out: &mut [u8])
    ensures { out.new ≡ replicate (length out.old) 0 }
{
    out.fill(0);
}

// One byte, from a place on: the next place.
fn put_byte(out: &mut [u8], at: usize, b: u8) -> usize
    ensures { Wrote out.old at (b ∷ []) out.new result }
{
    if at < out.len() {
        out[at] = b;
        at + 1
    } else {
        out.len() + 1
    }
}

// The loops below hold the place apart from the writer, so that it is not read and stored anew with each byte.

// The bytes of a part.
fn put_bytes(out: &mut [u8], at: usize, part: &[u8]) -> usize
    requires { at ≤ length out.old + 1 }
    ensures { Wrote out.old at part.now out.new result }
{
    let mut p = at;
    for b in part {
        p = put_byte(out, p, *b);
    }
    p
}

// Bytes as two hexadecimal digits each.
fn put_digits(out: &mut [u8], at: usize, part: &[u8]) -> usize
    requires { at ≤ length out.old + 1 }
    ensures { Wrote out.old at (hex_of part.now) out.new result }
{
    let mut p = at;
    for b in part {
        p = put_byte(out, p, hex_digit(b / 16));
        p = put_byte(out, p, hex_digit(b % 16));
    }
    p
}

// A buffer and the next place in it.
#[derive(Drop)]
pub struct Writer<'a> {
    pub out: &'a mut [u8],
    pub at: usize,
    pub ghost room: { at ≤ length out.now + 1 },
}

impl<'a> Writer<'a> {
    ghost use Rattle.std.specs.Prelude.{◌∷◌, [], min};
    ghost use Rattle.semantics.specs.Text.{decimal, decimalℤ, hex_of, big_endian};
    ghost use Rattle.write.specs.Writes.{Writes};

    // From a place on; one past the end is as good as any further.
    pub fn from(out: &'a mut [u8], at: usize) -> Writer<'a>
        ensures same_buffer { result.out.ghost_name ≡ out.entry.ghost_name }
        ensures bytes { result.out.now ≡ out.old }
        ensures place { result.at ≡ min at (length out.old + 1) }
    {
        let at = at.min(out.len() + 1);
        Writer { out, at }
    }

    // One byte.
    pub fn put(&mut self, b: u8)
        ensures { Writes self.old (b ∷ []) self.new }
    {
        self.at = put_byte(self.out, self.at, b);
    }

    // The bytes of a part.
    pub fn put_part(&mut self, part: &[u8])
        ensures { Writes self.old part.now self.new }
    {
        self.at = put_bytes(self.out, self.at, part);
    }

    // A number in decimal: the digits but the last, then the last.
    pub fn put_nat(&mut self, n: u64)
        ensures { Writes self.old (decimal n) self.new }
    {
        if 9 < n {
            self.put_nat(n / 10);
        }
        self.put(b'0' + (n % 10) as u8);
    }

    // An integer in decimal.
    pub fn put_int(&mut self, n: i64)
        ensures { Writes self.old (decimalℤ n) self.new }
    {
        if n < 0 {
            self.put(b'-');
        }
        self.put_nat(n.unsigned_abs());
    }

    // Bytes as two hexadecimal digits each.
    pub fn put_hex(&mut self, part: &[u8])
        ensures { Writes self.old (hex_of part.now) self.new }
    {
        self.at = put_digits(self.out, self.at, part);
    }

    // The w lowest bytes of n, the highest first.
    pub fn put_big_endian(&mut self, w: usize, n: u64)
        requires { w ≤ 8 }
        ensures { Writes self.old (big_endian w n) self.new }
    {
        self.put_part(&n.to_be_bytes()[8 - w..]);
    }

    // 64 bits as 16 hexadecimal digits.
    pub fn put_hex_bits(&mut self, n: u64)
        ensures { Writes self.old (hex_of (big_endian 8 n)) self.new }
    {
        self.put_hex(&n.to_be_bytes());
    }
}

fn hex_digit(d: u8) -> u8
    requires { d < 16 }
    ensures { result ≡ hex_digit d }
{
    if d < 10 {
        return b'0' + d;
    }
    b'A' + (d - 10)
}
