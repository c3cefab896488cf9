// Items laid in image and area.
#![tactic(auto)]

ghost use Rattle.std.specs.Prelude.{◌≡◌, ◌+◌, ◌*◌, ◌≤◌, ◌<◌, min, length};
ghost use Rattle.semantics.specs.Image.{handle, part_at};
ghost use Rattle.semantics.specs.Form.{fields_from};
ghost use Rattle.write.specs.Wrote.{Wrote};
ghost use Rattle.stored.specs.Reading.{row_values};
ghost use Rattle.stored.specs.Laying.{lay_bytes, lay_array};
ghost use Rattle.laying.specs.Steps.{laying_of, MoreFits, Lays, Went, Moved, Outgrown};

use row_fields::values;
use write::Writer;

const HANDLE: usize = 4;

// The number of the next item; the newest array's part of the area, from `start` to `end`, behind which the next one begins, and
// whether writing goes there; the image's length; and whether something did not fit.
#[derive(Clone, Copy)]
pub struct State {
    pub item: u64,
    pub start: usize,
    pub end: usize,
    pub inside: bool,
    pub long: usize,
    pub full: bool,
}

fn outgrown(s: State) -> State
    ensures { Outgrown s result }
{
    State { full: true, ..s }
}

// One item more, whose bytes end at p of n.
fn went_on(s: State, n: usize, p: usize, long: usize) -> State
    requires { s.item < 9223372036854775808 }
    ensures { Went n p long s result }
{
    if n < p {
        return outgrown(s);
    }
    State {
        item: s.item + 1,
        long,
        full: false,
        ..s
    }
}

// `set` and `back`.
pub fn moved(s: State, inside: bool) -> State
    requires { s.item < 9223372036854775808 }
    ensures { Moved inside s result }
{
    State {
        item: s.item + 1,
        inside,
        full: false,
        ..s
    }
}

// The values of a row, from a place of a buffer on; returns where they end.
fn put_row(out: &mut [u8], at: usize, row: &[u8], from: usize, width: usize, reals: bool) -> usize
    requires { width ≤ 8 }
    ensures { Wrote out.old at (row_values width reals (fields_from from row.now)) out.new result }
{
    let mut w = Writer::from(out, at);
    values::put_values(&mut w, row, from, width, reals);
    w.at
}

// The handle of an item, its number plus 1, likewise.
fn put_handle(out: &mut [u8], at: usize, item: u64) -> usize
    requires { item < 9223372036854775808 }
    ensures { Wrote out.old at (handle item) out.new result }
{
    let mut w = Writer::from(out, at);
    w.put_big_endian(HANDLE, item + 1);
    w.at
}

// The values of a row, in the newest array's own part of the area, or in the image.
pub fn lay_values(
    s: State,
    image: &mut [u8],
    area: &mut [u8],
    off: usize,
    row: &[u8],
    from: usize,
    width: usize,
    reals: bool,
) -> State
    requires { MoreFits s (length area.old) × (width ≤ 8) }
    ensures { Lays (lay_bytes off (row_values width reals (fields_from from row.now)) (laying_of s image.old area.old)) s result image.new area.new }
{
    if s.inside {
        let part = &mut area[s.start..s.end];
        let p = put_row(part, off, row, from, width, reals);
        return went_on(s, s.end - s.start, p, s.long);
    }
    let q = put_row(image, off, row, from, width, reals);
    went_on(s, image.len(), q, s.long.max(q))
}

// A handle.
pub fn lay_handle(s: State, image: &mut [u8], area: &mut [u8], off: usize) -> State
    requires { MoreFits s (length area.old) }
    ensures { Lays (lay_bytes off (handle s.item) (laying_of s image.old area.old)) s result image.new area.new }
{
    if s.inside {
        let part = &mut area[s.start..s.end];
        let p = put_handle(part, off, s.item);
        return went_on(s, s.end - s.start, p, s.long);
    }
    let q = put_handle(image, off, s.item);
    went_on(s, image.len(), q, s.long.max(q))
}

// Where the next array's part begins: at the next multiple of 8.
fn part_at(end: usize) -> usize
    requires { end < 9223372036854775808 }
    ensures { result ≡ part_at end }
{
    end.next_multiple_of(8)
}

// The bytes of n elements, room + 1 where they are more than that.
fn part_bytes(size: usize, n: u64, room: usize) -> usize
    requires { room < 9223372036854775808 }
    ensures { result ≡ min (size * n) (room + 1) }
{
    size.saturating_mul(n as usize).min(room + 1)
}

// An array: its part of the area behind the newest one's, and its handle in the image.
pub fn lay_array(s: State, image: &mut [u8], area: &[u8], off: usize, size: usize, n: u64) -> State
    requires { MoreFits s (length area.now) }
    ensures { Lays (lay_array off (size * n) (laying_of s image.old area.now)) s result image.new area.now }
{
    let a = part_at(s.end);
    if area.len() < a {
        return outgrown(s);
    }
    let room = area.len() - a;
    let k = part_bytes(size, n, room);
    if room < k {
        return outgrown(s);
    }
    let t = State {
        start: a,
        end: a + k,
        full: false,
        ..s
    };
    let p = put_handle(image, off, s.item);
    went_on(t, image.len(), p, s.long.max(p))
}
