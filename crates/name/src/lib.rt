// Names.
#![tactic(auto)]

ghost use Rattle.std.specs.Prelude.{◌≡◌};
ghost use Rattle.std.specs.List.{list_all};
ghost use Rattle.semantics.specs.Text.{is_name};
ghost use Rattle.name.specs.Name.{name_letter, name_byte};

const LONGEST_NAME: usize = 32;

fn is_letter(b: u8) -> bool
    ensures { result ≡ name_letter b }
{
    matches!(b, b'A'..=b'Z' | b'a'..=b'z' | b'_')
}

// A letter or a digit.
fn is_name_byte(b: u8) -> bool
    ensures { result ≡ name_byte b }
{
    is_letter(b) || b.is_ascii_digit()
}

fn are_name_bytes(s: &[u8]) -> bool
    ensures { result ≡ list_all name_byte s.now }
{
    s.iter().all(|b| is_name_byte(*b))
}

// 1 to 32 letters, digits and `_`, with no leading digit.
pub fn is_name(s: &[u8]) -> bool
    ensures { result ≡ is_name s.now }
{
    if s.is_empty() || LONGEST_NAME < s.len() || !is_letter(s[0]) {
        return false;
    }
    are_name_bytes(s)
}
