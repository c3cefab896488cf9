// The rows of a listing, one after the other.
ghost use Rattle.std.specs.Prelude.{◌≡◌, ◌+◌, ◌≤◌, min, length};
ghost use Rattle.stored.specs.Reading.{largest_size};
ghost use Rattle.laying.specs.Steps.{laying_of, seen_laying, MoreFits, Lays};
ghost use Rattle.replay.specs.Rows.{element_size_at, width, laid_item, laid_row, begun, laid_text, Noted, Sizes};
ghost use Rattle.replay.specs.Firsts.{FirstState};
ghost use Rattle.codes.specs.Kinds.{item_number};

use codes::area::{self, Space};
use codes::item::Item;
use laying::State;

// IDs of descriptors lie below this number.
const TYPES: u64 = 1024;

// Sizes are read up to this one, which stands for every larger one; elements of arrays have 1, 4 or 8 bytes.
const LARGEST_SIZE: u64 = 255;

// The size of a descriptor, 0 where it is not known.
fn size_of(work: &[u8], id: u64) -> usize
    ensures { result ≡ element_size_at work.now id }
{
    if TYPES <= id {
        return 0;
    }
    let i = area::SIZES + id as usize;
    if work.len() <= i {
        return 0;
    }
    usize::from(work[i])
}

#[tactic(auto, unfolding(crate::specs::Rows::width))]
fn width_of(k: Item) -> usize
    ensures { (result ≡ width (item_number k)) × (result ≤ 8) }
{
    match k {
        Item::Bytes => 1,
        Item::Words => 4,
        _ => 8,
    }
}

// The item of a row by its keyword.
fn lay_item(s: State, k: Item, row: &[u8], work: &[u8], image: &mut [u8], area: &mut [u8]) -> State
    requires { MoreFits s (length area.old) }
    ensures { Lays (laid_item (element_size_at work.now) (item_number k) row.now (laying_of s image.old area.old)) s result image.new area.new }
{
    let off = row_fields::number(row_fields::field(row, 2)) as usize;
    match k {
        Item::Str => laying::lay_handle(s, image, area, off),
        Item::Array => {
            let id = row_fields::number(row_fields::field(row, 3));
            let n = row_fields::number(row_fields::field(row, 4));
            laying::lay_array(s, image, area, off, size_of(work, id), n)
        }
        Item::Set => laying::moved(s, true),
        Item::Back => laying::moved(s, false),
        _ => {
            let from = text::skip(row, 4, b',');
            let w = width_of(k);
            laying::lay_values(s, image, area, off, row, from, w, k == Item::Reals)
        }
    }
}

// A row: its item where it is a `dat` row.
fn step(s: State, row: &[u8], work: &[u8], image: &mut [u8], area: &mut [u8]) -> State
    requires { MoreFits s (length area.old) }
    ensures { Lays (laid_row (element_size_at work.now) row.now (laying_of s image.old area.old)) s result image.new area.new }
{
    if !words::same(row_fields::field(row, 0), b"dat") {
        return s;
    }
    match row_fields::keyword(row_fields::field(row, 1)) {
        Some(k) => lay_item(s, k, row, work, image, area),
        None => s,
    }
}

// Before the first row: n is the image buffer's length, and `end` where allocation ends.
fn first(n: usize, end: usize) -> State
    ensures { FirstState n end result }
{
    State {
        item: 0,
        start: 0,
        end: 0,
        inside: false,
        long: end,
        full: n < end,
    }
}

// All rows, until something does not fit.
pub fn lay_rows(listing: &[u8], work: &[u8], image: &mut [u8], area: &mut [u8], end: usize) -> State
    ensures { seen_laying result image.new area.new ≡ laid_text (element_size_at work.now) listing.now (begun end image.old area.old) }
{
    let mut s = first(image.len(), end);
    let mut at = 0;
    while at < listing.len() {
        if s.full {
            return s;
        }
        let e = text::find(listing, at, b'\n');
        s = step(s, &listing[at..e], work, image, area);
        at = e + 1;
    }
    s
}

// A size as it is kept.
fn small(n: u64) -> u8
    ensures { result ≡ min n largest_size }
{
    if LARGEST_SIZE < n {
        return LARGEST_SIZE as u8;
    }
    n as u8
}

// What a row says of sizes.
fn note_size(row: &[u8], work: &mut Space)
    ensures { Noted row.now work.old work.new }
{
    if words::same(row_fields::field(row, 0), b"typ") {
        let id = row_fields::number(row_fields::field(row, 1));
        if id < TYPES {
            let i = area::SIZES + id as usize;
            work[i] = small(row_fields::number(row_fields::field(row, 2)));
        }
    }
}

// The sizes of descriptors, which stand behind the items.
pub fn read_sizes(listing: &[u8], work: &mut Space)
    ensures { Sizes listing.now work.old work.new }
{
    write::zero(&mut work[area::SIZES..area::SIZES_END]);
    let mut at = 0;
    while at < listing.len() {
        let e = text::find(listing, at, b'\n');
        note_size(&listing[at..e], work);
        at = e + 1;
    }
}
