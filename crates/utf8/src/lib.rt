// UTF-8 (RFC 3629): plain bytes, and the bytes that pairs of hexadecimal digits write.
#![tactic(auto)]

ghost use Rattle.std.specs.Prelude.{◌≡◌, ◌≤◌, length};
ghost use Rattle.std.specs.Option.{option_map};
ghost use Rattle.semantics.specs.Text.{characters, lead, after_byte};
ghost use Rattle.utf8.specs.Utf8.{lead_of, starts_one, is_text};

// Within a text: how many bytes of a character are to come, and the bounds of the first of them.
#[derive(Clone, Copy)]
pub struct Lead {
    pub more: u8,
    pub low: u8,
    pub high: u8,
}

fn to_come(more: u8, low: u8, high: u8) -> Lead
    ensures { lead_of result ≡ (more, low, high) }
{
    Lead { more, low, high }
}

// What a character's first byte asks of those behind it. The bounds of the second shut out overlong forms, surrogates, and what
// lies above 10FFFF.
fn leading(b: u8) -> Option<Lead>
    ensures { option_map lead_of result ≡ lead b }
{
    match b {
        0x00..=0x7F => Some(to_come(0, 0, 0)),
        0xC2..=0xDF => Some(to_come(1, 0x80, 0xBF)),
        0xE0 => Some(to_come(2, 0xA0, 0xBF)),
        0xED => Some(to_come(2, 0x80, 0x9F)),
        0xE1..=0xEF => Some(to_come(2, 0x80, 0xBF)),
        0xF0 => Some(to_come(3, 0x90, 0xBF)),
        0xF1..=0xF3 => Some(to_come(3, 0x80, 0xBF)),
        0xF4 => Some(to_come(3, 0x80, 0x8F)),
        _ => None,
    }
}

// One byte further.
fn next(a: Lead, b: u8) -> Option<Lead>
    ensures { option_map lead_of result ≡ after_byte b (lead_of a) }
{
    if a.more == 0 {
        return leading(b);
    }
    if b < a.low || a.high < b {
        return None;
    }
    Some(to_come(a.more - 1, 0x80, 0xBF))
}

// Whether a field is pairs of hexadecimal digits that write UTF-8.
pub fn is_text(s: &[u8]) -> bool
    ensures { result ≡ is_text s.now }
{
    if s.len() % 2 != 0 {
        return false;
    }
    let mut a = to_come(0, 0, 0);
    for i in 0..s.len() / 2 {
        let Some(b) = hex_field::pair(s[2 * i], s[2 * i + 1]) else {
            return false;
        };
        let Some(behind) = next(a, b) else {
            return false;
        };
        a = behind;
    }
    a.more == 0
}

// Whether a byte is the first of a character.
fn starts_one(b: u8) -> bool
    ensures { result ≡ starts_one b }
{
    !matches!(b, 0x80..=0xBF)
}

// How many characters UTF-8 text has.
#[tactic(auto, using(crate::proofs::Utf8s::characters_count))]
pub fn count(s: &[u8]) -> usize
    ensures { (result ≡ characters s.now) × (result ≤ length s.now) }
{
    s.iter().filter(|b| starts_one(**b)).count()
}
