// Pointer maps, and how many ones they have.
ghost use Rattle.std.specs.Prelude.{◌≡◌, ◌^◌, ◌≤◌, set};
ghost use Rattle.std.specs.Int.Count.{ones_in};
ghost use Rattle.semantics.specs.Layout.{marks, marked, map_bits, map_length, pointer_map, pointer_count};
ghost use Rattle.layout.specs.Pass.{laid_over};

// How many bytes the map of a block of this size has: one for each 8 words of 4 bytes, both rounded up.
pub fn map_bytes(size: u32) -> usize
    ensures { (result ≡ map_length size) × (result ≤ 2 ^ 27) }
{
    (size as usize).div_ceil(4).div_ceil(8)
}

// Whether an offset marks word `w`: one below 0 or too near the end marks none, and one between words marks the word that it lies in.
fn marks_word(size: u32, w: u64, off: i32) -> bool
    ensures { result ≡ marks size w off }
{
    if off < 0 {
        return false;
    }
    // 64 bits hold the sum of every offset and 4
    let at = off as u64;
    at + 4 <= u64::from(size) && at / 4 == w
}

// Whether one of the offsets marks word `w`.
fn word_marked(size: u32, offsets: &[i32], w: u64) -> bool
    ensures { result ≡ marked size offsets.now w }
{
    for off in offsets {
        if marks_word(size, w, *off) {
            return true;
        }
    }
    false
}

// The map's byte of the 8 words from `w` on, the first in bit 7.
fn map_byte(size: u32, offsets: &[i32], w: u32) -> u8
    ensures { result ≡ map_bits size offsets.now 8 w }
{
    let mut byte = 0;
    for k in 0..8 {
        let bit = u8::from(word_marked(size, offsets, u64::from(w) + k));
        byte = byte * 2 + bit;
    }
    byte
}

// How many bits of a byte are set.
pub fn ones_of(b: u8) -> u32
    ensures { (result ≡ ones_in 8 b) × (result ≤ 8) }
{
    b.count_ones()
}

// Stores a byte, unless the buffer ends before its place.
fn put(d: &mut [u8], at: usize, b: u8)
    ensures { d.new ≡ set d.old at b }
{
    if at < d.len() {
        d[at] = b;
    }
}

// Makes the map and counts its ones in one pass: a byte's ones are counted as it is finished. The map is laid over the buffer as far as that
// goes, and what stands behind it stays; the count is the whole map's also where the buffer is short, so that a caller needs no test before.
pub fn pointer_map_for(size: u32, offsets: &[i32], map: &mut [u8]) -> u32
    ensures bytes { map.new ≡ laid_over (pointer_map size offsets.now) map.old }
    ensures count { result ≡ pointer_count (pointer_map size offsets.now) }
{
    let mut count = 0;
    for n in 0..map_bytes(size) {
        let b = map_byte(size, offsets, (n * 8) as u32);
        count += ones_of(b);
        put(map, n, b);
    }
    count
}
