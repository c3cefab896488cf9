// Hexadecimal digits, upper case.
#![tactic(auto)]

ghost use Rattle.std.specs.Prelude.{◌≡◌, ◌<◌, IfSome};
ghost use Rattle.semantics.specs.Text.{hex_value};
ghost use Rattle.hex_field.specs.Hex.{pair_byte, byte_at, bits64_of};

// The digit that a byte writes.
fn digit(b: u8) -> Option<u8>
    ensures value { result ≡ hex_value b }
    ensures small { IfSome result (λ d. d < 16) }
{
    match b {
        b'0'..=b'9' => Some(b - b'0'),
        b'A'..=b'F' => Some(b - b'A' + 10),
        _ => None,
    }
}

// The byte that two digits write.
pub fn pair(h: u8, l: u8) -> Option<u8>
    ensures { result ≡ pair_byte (hex_value h) (hex_value l) }
{
    let h = digit(h)?;
    let l = digit(l)?;
    Some(h * 16 + l)
}

// Byte i of those that a field of pairs of digits writes.
#[tactic(auto, using(crate::proofs::Hexes::byte_past), unfolding(crate::specs::Hex::byte_at))]
pub fn byte(s: &[u8], i: usize) -> Option<u8>
    ensures { result ≡ byte_at s.now i }
{
    if s.len() / 2 <= i {
        return None;
    }
    pair(s[2 * i], s[2 * i + 1])
}

// The 64 bits that 16 digits write.
pub fn read_bits(s: &[u8]) -> Option<u64>
    ensures { result ≡ bits64_of s.now }
{
    if s.len() != 16 {
        return None;
    }
    let mut bits = 0;
    for i in 0..8 {
        let byte = pair(s[2 * i], s[2 * i + 1])?;
        bits = bits * 256 + u64::from(byte);
    }
    Some(bits)
}
