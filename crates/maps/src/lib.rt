// A pointer map in the working space.
#![tactic(auto)]

ghost use Rattle.std.specs.Prelude.{◌≡◌, cond, [], ◌∷◌, ◌+◌, ◌^◌, ◌-◌, ◌%◌, ◌<◌, pos};
ghost use Rattle.semantics.specs.Layout.{pointer_count};
ghost use Rattle.maps.specs.Maps.{map_in, MapRoom, Marks, MapMade};

use codes::area::{self, Space};

// Makes the map of a block of this size that has no pointers.
pub fn clear_map(work: &mut Space, size: u32)
    requires { MapRoom work.old size }
    ensures { MapMade size [] work.old work.new }
{
    for i in 0..layout::map::map_bytes(size) {
        work[area::MAP + i] = 0;
    }
}

// The bit of word w in its byte: bit 7 first.
fn bit_of(w: u32) -> u8
    ensures { result ≡ 2 ^ (7 - w % 8) }
{
    128 >> (w % 8)
}

// Marks the word of an offset, unless the word passes the size.
pub fn mark_at(work: &mut Space, size: u32, off: u32)
    requires { MapRoom work.old size }
    ensures { Marks size (pos off ∷ []) work.old work.new }
{
    if size < 4 {
        return;
    }
    if size - 4 < off {
        return;
    }
    let w = off / 4;
    let at = area::MAP + (w / 8) as usize;
    work[at] |= bit_of(w);
}

// The same of a field's offset: one that is no pointer marks nothing.
pub fn mark_if(work: &mut Space, size: u32, off: u32, pointer: bool)
    requires { MapRoom work.old size }
    ensures { Marks size (cond pointer (pos off ∷ []) []) work.old work.new }
{
    if pointer {
        mark_at(work, size, off);
    }
}

// The same of an offset that may be below 0: such a one marks nothing.
pub fn mark(work: &mut Space, size: u32, off: i32)
    requires { MapRoom work.old size }
    ensures { Marks size (off ∷ []) work.old work.new }
{
    if off < 0 {
        return;
    }
    mark_at(work, size, off as u32);
}

// How many ones the map has that stands there.
pub fn map_ones(work: &Space, size: u32) -> u32
    requires { MapRoom work.now size }
    ensures { result ≡ pointer_count (map_in work.now size) }
{
    let mut count = 0;
    for i in 0..layout::map::map_bytes(size) {
        count += layout::map::ones_of(work[area::MAP + i]);
    }
    count
}
