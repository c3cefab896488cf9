// Bytes compared, digests of texts, and numbers that are stored in bytes.
#![tactic(auto)]

ghost use Rattle.std.specs.Prelude.{◌≡◌, ◌+◌, ◌≤◌, ◌<◌, max, length};
ghost use Rattle.semantics.specs.Text as Text;
ghost use Rattle.semantics.specs.Text.{big_endian};
ghost use Rattle.write.specs.Writes.{Writes};
ghost use Rattle.words.specs.Words.{digest_from, digest, u16_at, bits_at};

use write::Writer;

#[tactic(auto, using(crate::proofs::Laws::equal_same))]
pub fn same(a: &[u8], b: &[u8]) -> bool
    ensures { result ≡ Text.same a.now b.now }
{
    a == b
}

// A byte as an index.
pub fn wide(x: u8) -> usize
    ensures { (result ≡ x) × (result < 256) }
{
    usize::from(x)
}

pub fn larger(a: usize, b: usize) -> usize
    ensures { result ≡ max a b }
{
    a.max(b)
}

// The digest of a text behind one that has the digest `before`.
pub fn digest_on(before: usize, s: &[u8]) -> usize
    requires { before < 256 }
    ensures { (result ≡ digest_from before s.now) × (result < 256) }
{
    let mut h = before;
    for b in s {
        h = (h * 185 + usize::from(*b)) % 256;
    }
    h
}

// A number below 256 that tells most texts apart; equal texts have one.
pub fn digest(s: &[u8]) -> usize
    ensures { (result ≡ digest s.now) × (result < 256) }
{
    digest_on(0, s)
}

// The number in two bytes, the low one first.
#[tactic(auto, unfolding(crate::specs::Words::u16_at))]
pub fn u16_at(work: &[u8], a: usize) -> usize
    requires { a + 1 < length work.now }
    ensures { (result ≡ u16_at work.now a) × (result < 65536) }
{
    usize::from(work[a]) + 256 * usize::from(work[a + 1])
}

// The 64 bits in eight bytes, the highest first: a slice of eight is no array, so a loop and no `from_be_bytes`.
pub fn bits_at(work: &[u8], a: usize) -> u64
    requires { a + 8 ≤ length work.now }
    ensures { result ≡ bits_at work.now a }
{
    let mut bits = 0;
    for k in 0..8 {
        bits = bits * 256 + u64::from(work[a + k]);
    }
    bits
}

// 64 bits in eight bytes, the highest first.
pub fn put_bits(w: &mut Writer, n: u64)
    ensures { Writes w.old (big_endian 8 n) w.new }
{
    w.put_big_endian(8, n);
}
