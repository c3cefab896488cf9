// The table of globals in the working space: for each a name of a `var` line, and its offset.
#![tactic(auto)]

pub mod line;

ghost use Rattle.std.specs.Prelude.{◌≡◌, ◌≤◌, ◌<◌, length, option_map, IfSome};
ghost use Rattle.semantics.specs.Text.{same};
ghost use Rattle.semantics.specs.Global.{global_size, place_of};
ghost use Rattle.sizes.specs.Sizes.{type_at, TypeLine};
ghost use Rattle.words.specs.Words.{digest};
ghost use Rattle.global_table.specs.Table.{global_line_of, global_position_of, offset_of, global_entered, global_at, places_in, GlobalEntry, Tabled, entry_number};

use chains::ChainPlaces;
use codes::area::{self, Space};
use lines::Sheet;

// Where the table's chains stand.
const CHAINS: ChainPlaces = ChainPlaces {
    at: area::GLOBALS + 5,
    gap: 1,
    step: 8,
};

// The `var` line of entry i, from 1.
pub fn line_of(work: &Space, i: usize) -> usize
    requires { i < 256 }
    ensures { result ≡ global_line_of work.now i }
{
    words::u16_at(work, area::GLOBALS + 8 * i)
}

// The position of its name among the line's names, from 0.
#[tactic(auto, unfolding(crate::specs::Table::global_position_of))]
fn position_of(work: &Space, i: usize) -> usize
    requires { i < 256 }
    ensures { (result ≡ global_position_of work.now i) × (result < 256) }
{
    usize::from(work[area::GLOBALS + 2 + 8 * i])
}

// Its offset.
pub fn offset_of(work: &Space, i: usize) -> usize
    requires { i < 256 }
    ensures { (result ≡ offset_of work.now i) × (result < 65536) }
{
    words::u16_at(work, area::GLOBALS + 3 + 8 * i)
}

// Makes entry i, the newest of its chain.
pub fn enter(work: &mut Space, i: usize, line: usize, position: usize, offset: usize, digest: usize)
    requires { (i < 256) × (line < 65536) × (position < 256) × (offset < 65536) × (digest < 256) }
    ensures { work.new ≡ global_entered work.old i line position offset digest }
{
    let a = area::GLOBALS + 8 * i;
    work[a] = (line % 256) as u8;
    work[a + 1] = (line / 256) as u8;
    work[a + 2] = position as u8;
    work[a + 3] = (offset % 256) as u8;
    work[a + 4] = (offset / 256) as u8;
    work[a + 5] = digest as u8;
    chains::link(work, CHAINS, i);
}

// The name of entry i, as that part of the sheet.
#[tactic(auto, unfolding(crate::specs::Table::global_at))]
pub fn name_of<'a>(sheet: &Sheet<'a>, work: &Space, i: usize) -> &'a [u8]
    requires { GlobalEntry sheet.now work.now i }
    ensures { result.now ≡ (global_at sheet.now work.now i).name }
{
    line::name_at(sheet, line_of(work, i), position_of(work, i))
}

// Whether entry i has this name, which has the digest d.
fn is_named(sheet: &Sheet, work: &Space, i: usize, name: &[u8], d: usize) -> bool
    requires { (GlobalEntry sheet.now work.now i) × (d ≡ digest name.now) }
    ensures { result ≡ same name.now (global_at sheet.now work.now i).name }
{
    // the name is looked for last
    chains::digest_at(work, CHAINS, i) == d && words::same(name, name_of(sheet, work, i))
}

// The first entry with this name. No name has two entries, so the newest is the first.
pub fn entry_number(sheet: &Sheet, work: &Space, g: usize, name: &[u8]) -> Option<usize>
    requires { Tabled sheet.now work.now g }
    ensures { (option_map (offset_of work.now) result ≡ place_of name.now (places_in sheet.now work.now g)) × (IfSome result (λ i. i < g)) × (result ≡ entry_number name.now (places_in sheet.now work.now g)) }
{
    let d = words::digest(name);
    let mut next = chains::newest(work, CHAINS, g, d);
    while let Some(i) = next {
        if is_named(sheet, work, i, name, d) {
            return Some(i);
        }
        next = chains::earlier(work, CHAINS, i);
    }
    None
}

// The offset of the global with this name.
pub fn offset_in(sheet: &Sheet, work: &Space, g: usize, name: &[u8]) -> Option<usize>
    requires { Tabled sheet.now work.now g }
    ensures { (result ≡ place_of name.now (places_in sheet.now work.now g)) × (IfSome result (λ o. o < 65536)) }
{
    let i = entry_number(sheet, work, g, name)?;
    Some(offset_of(work, i))
}

// The bytes that a global of the type of line r takes.
pub fn global_size(sheet: &Sheet, r: usize) -> u32
    requires { TypeLine sheet.now r }
    ensures { (result ≡ global_size (type_at sheet.now r)) × (result ≤ 8) }
{
    if sizes::is_pointer(sheet, r) {
        4
    } else {
        sizes::type_size_align(sheet, r).size
    }
}
