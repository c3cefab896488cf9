// Where the elements of a literal fall: a table of its first 1,024 indices, and slots for the elements' values.
#![tactic(auto)]

ghost use Rattle.std.specs.Prelude.{◌≡◌, ℕ, ◌+◌, ◌*◌, ◌^◌, ◌≤◌, ◌<◌, min, max, length};
ghost use Rattle.semantics.specs.Text.{any};
ghost use Rattle.semantics.specs.Tree as Tree;
ghost use Rattle.semantics.specs.Array.{none_filled, place_indices, place_next, kind_of_values};
ghost use Rattle.write.specs.Wrote.{over};
ghost use Rattle.values.specs.Values.{Small, InRange};
ghost use Rattle.codes.specs.Kinds.{element_kind, value_number};
ghost use Rattle.slots.specs.Slots.{slot_bytes};
ghost use Rattle.placements.specs.Placements.{placement_at, slot_at, values_in, Keeps, SpanSet, Filling, Places, has_kind};

use codes::area::{self, Space};
use codes::element::Element;
use codes::value::Value;
use values::ConstVal;

const INDICES: u64 = 1024;

// 2^63, the first index that counts as negative.
const BEYOND: u64 = 9223372036854775808;

// How far a literal goes: the next plain index, and the end of its indices.
#[derive(Clone, Copy)]
pub struct Extent {
    pub next: u64,
    pub reach: u64,
}

fn clipped(i: u64) -> usize
    ensures { result ≡ min i 1024 }
{
    i.min(INDICES) as usize
}

// Indices low to high take the value of element e, from 1; those past the table are not kept.
fn set_span(work: &mut Space, low: u64, high: u64, e: u8)
    requires { high < 2 ^ 63 }
    ensures { SpanSet work.old low high e work.new }
{
    for i in clipped(low)..clipped(high + 1) {
        work[area::PLACEMENTS + i] = e;
    }
}

// An empty literal: no index has a value of its own, and the filler is 0.
pub fn empty(work: &mut Space)
    ensures { (Filling work.new 49152 0 0 0 none_filled) × ((b : ℕ) → Keeps 16384 b work.old work.new) }
{
    set_span(work, 0, 1023, 0);
    slots::put_value(work, area::ELEMENTS, ConstVal::Int(0));
}

// The value of element j, from 1, or of the filler, 0.
pub fn put_value(work: &mut [u8], j: usize, v: ConstVal)
    requires { (j ≤ 16) × (Small v) }
    ensures { (work.new ≡ over work.old (12288 + 16 * j) (slot_bytes v)) × (InRange v) }
{
    slots::put_value(work, area::ELEMENTS + 16 * j, v);
}

fn place_span(work: &mut Space, e: usize, low: u64, high: u64, reach: u64) -> Extent
    requires { (high < 2 ^ 63) × (e ≤ 16) }
    ensures { (result.next ≡ high + 1) × (result.reach ≡ max reach (high + 1)) × (SpanSet work.old low high e work.new) }
{
    set_span(work, low, high, e as u8);
    Extent {
        next: high + 1,
        reach: reach.max(high + 1),
    }
}

// A plain element; none where its index counts as negative.
pub fn place_next(work: &mut Space, e: usize, x: Extent) -> Option<Extent>
    requires { e ≤ 16 }
    ensures { Places work.old e x place_next result work.new }
{
    if x.next < BEYOND {
        return Some(place_span(work, e, x.next, x.next, x.reach));
    }
    None
}

// Indices low to high of a selector; none where one is negative.
pub fn place_indices(work: &mut Space, e: usize, low: i64, high: i64, x: Extent) -> Option<Extent>
    requires { e ≤ 16 }
    ensures { Places work.old e x (λ (v : Tree.ConstVal). place_indices v low high) result work.new }
{
    if high < low {
        return Some(x);
    }
    if low < 0 {
        return None;
    }
    Some(place_span(work, e, low as u64, high as u64, x.reach))
}

// The value at index i.
#[tactic(auto, unfolding(crate::specs::Placements::slot_at, crate::specs::Placements::placement_at))]
pub fn element(work: &Space, i: usize) -> ConstVal
    requires { i < 1024 }
    ensures { result ≡ slot_at work.now (placement_at work.now i) }
{
    slots::value_at(
        work,
        area::ELEMENTS + 16 * usize::from(work[area::PLACEMENTS + i]),
    )
}

// Whether one of the first `count` values is of a kind.
fn has(work: &Space, count: usize, wanted: Value) -> bool
    requires { count ≤ 1024 }
    ensures { result ≡ any (has_kind (value_number wanted)) (values_in work.now 0 count) }
{
    for i in 0..count {
        if values::kind_of(element(work, i)) == wanted {
            return true;
        }
    }
    false
}

// By the first `count` values: pointers where one is a string, else reals where one is a real, else words.
pub fn kind_of_values(work: &Space, count: usize) -> Element
    requires { count ≤ 1024 }
    ensures { element_kind result ≡ kind_of_values (values_in work.now 0 count) }
{
    if has(work, count, Value::Str) {
        Element::Pointer
    } else if has(work, count, Value::Real) {
        Element::Real
    } else {
        Element::Word
    }
}
