// The fields of a listing's row, and values written from them.
#![tactic(auto)]

pub mod values;

ghost use Rattle.std.specs.Prelude.{◌≡◌, true, false, [], ◌≤◌, min, get_or};
ghost use Rattle.semantics.specs.Text.{fields_of};
ghost use Rattle.decimal.specs.Number.{most};
ghost use Rattle.stored.specs.Reading.{number_read, bits_in, keyword_of};
ghost use Rattle.codes.specs.Kinds.{keyword_number};

use codes::item::Item;

// The keyword behind `dat`.
#[tactic(auto, unfolding(stored::specs::Reading::keyword_of))]
pub fn keyword(s: &[u8]) -> Option<Item>
    ensures { keyword_number result ≡ keyword_of s.now }
{
    if words::same(s, b"bytes") {
        return Some(Item::Bytes);
    }
    if words::same(s, b"words") {
        return Some(Item::Words);
    }
    if words::same(s, b"bigs") {
        return Some(Item::Bigs);
    }
    if words::same(s, b"reals") {
        return Some(Item::Reals);
    }
    if words::same(s, b"str") {
        return Some(Item::Str);
    }
    if words::same(s, b"array") {
        return Some(Item::Array);
    }
    if words::same(s, b"set") {
        return Some(Item::Set);
    }
    if words::same(s, b"back") {
        return Some(Item::Back);
    }
    None
}

// Field i of a row, the empty part at its end where there is none.
pub fn field(row: &[u8], i: usize) -> &[u8]
    ensures { result.now ≡ get_or (fields_of row.now) i [] }
{
    let a = text::skip(row, i, b',');
    if row.len() < a {
        return &row[row.len()..];
    }
    let e = text::find(row, a, b',');
    &row[a..e]
}

// The number that a field writes, MOST where it is larger, and 0 where there is none.
#[tactic(auto, using(crate::proofs::Parts::number_told))]
pub fn number(f: &[u8]) -> u64
    ensures { (result ≡ min (number_read f.now) most) × (result ≤ most) }
{
    decimal::natural(f).unwrap_or(0)
}

// The bits of an integer, 0 where there is none of 64 bits.
pub fn integer(f: &[u8]) -> u64
    ensures { result ≡ bits_in false f.now }
{
    match decimal::read_integer(f) {
        Some(z) => ints::bits(z),
        None => 0,
    }
}

// The bits of a real, 0 where there are no 16 digits.
#[tactic(auto, using(crate::proofs::Parts::real_told))]
pub fn real(f: &[u8]) -> u64
    ensures { result ≡ bits_in true f.now }
{
    hex_field::read_bits(f).unwrap_or(0)
}
