// 01's rows of records and their edges, through the crate `shapes`. A line each: blocks with one offset; then for each `adt` or `pick` line
// of the sheet on standard input its number, its size, the ones of its map and the map, and behind a `pick` line the same for each of its cases.
// `expected.py` writes `stdout` from 01's words, not from this program.
#![tactic(auto)]

ghost use Rattle.std.specs.Prelude.{◌≤◌, ◌<◌};
ghost use Rattle.lines.specs.Lines.{lines_in};
ghost use Rattle.checks.specs.Checks.{Checked, Kept};
ghost use Rattle.sizes.specs.Places.{RecordLine};
ghost use Rattle.shapes.specs.Shapes.{PickLine, VariantLine};
ghost use Rattle.maps.specs.Maps.{MapRoom};

use codes::area::{self, SPACE, Space};
use codes::decl;
use lines::{Sheet, TABLE};
use std::io;
use std::io::{Read, Write};
use write::Writer;

// The bytes that are read at most, and those of the working space.
const BYTES: usize = 65536;

const LARGEST: u32 = 131080;

// A number, a size, and the map that stands in the working space, in one write.
fn print_row(out: &mut impl Write, work: &Space, number: usize, size: u32) -> io::Result<()>
    requires { MapRoom work.now size }
{
    let mut row = [0u8; 8300];
    let mut w = Writer::from(&mut row, 0);
    w.put_nat(number as u64);
    w.put(b',');
    w.put_nat(u64::from(size));
    w.put(b',');
    w.put_nat(maps::map_ones(work, size) as u64);
    w.put(b',');
    w.put_hex(&work[area::MAP..area::MAP + layout::map::map_bytes(size)]);
    w.put(b'\n');
    let end = w.at;
    match row.get(..end) {
        Some(written) => out.write_all(written),
        None => Ok(()),
    }
}

fn print_record(out: &mut impl Write, sheet: &Sheet, work: &mut Space, r: usize) -> io::Result<()>
    requires { RecordLine sheet.now r }
    ensures { Kept 49152 work.old work.new }
{
    let size = shapes::record_size(sheet, r);
    if LARGEST < size {
        return Ok(());
    }
    shapes::map_record(sheet, work, r, size);
    print_row(out, work, r, size)
}

fn print_variant(
    out: &mut impl Write,
    sheet: &Sheet,
    work: &mut Space,
    r: usize,
    c: usize,
) -> io::Result<()>
    requires { VariantLine sheet.now r c }
    ensures { Kept 49152 work.old work.new }
{
    let size = shapes::variant_size(sheet, r, c);
    if LARGEST < size {
        return Ok(());
    }
    shapes::map_variant(sheet, work, r, c, size);
    print_row(out, work, c, size)
}

fn print_variants(out: &mut impl Write, sheet: &Sheet, work: &mut Space, r: usize) -> io::Result<()>
    requires { PickLine sheet.now r }
    ensures { Kept 49152 work.old work.new }
{
    for c in 0..shapes::case_count(sheet, r) {
        print_variant(out, sheet, work, r, c)?;
    }
    Ok(())
}

fn print_line(out: &mut impl Write, sheet: &Sheet, work: &mut Space, r: usize) -> io::Result<()>
    requires { (Checked sheet.now) × (0 < r) × (r ≤ lines_in sheet.now) }
    ensures { Kept 49152 work.old work.new }
{
    match sheet.form_at(r - 1) {
        decl::ADT => print_record(out, sheet, work, r),
        decl::PICK => {
            print_record(out, sheet, work, r)?;
            print_variants(out, sheet, work, r)
        }
        _ => Ok(()),
    }
}

fn print_lines(out: &mut impl Write, sheet: &Sheet, work: &mut Space) -> io::Result<()>
    requires { Checked sheet.now }
{
    for i in 0..sheet.count() {
        print_line(out, sheet, work, i + 1)?;
    }
    Ok(())
}

fn print_block(
    out: &mut impl Write,
    work: &mut Space,
    number: usize,
    size: u32,
    off: i32,
) -> io::Result<()>
    requires { MapRoom work.old size }
    ensures { MapRoom work.new size }
{
    maps::clear_map(work, size);
    maps::mark(work, size, off);
    print_row(out, work, number, size)
}

fn print_blocks(out: &mut impl Write, work: &mut Space) -> io::Result<()>
    requires { MapRoom work.old 36 }
{
    print_block(out, work, 1, 36, 32)?;
    print_block(out, work, 2, 36, 33)?;
    print_block(out, work, 3, 36, 7)?;
    print_block(out, work, 4, 36, -4)
}

fn print_sheet(out: &mut impl Write, text: &[u8], work: &mut [u8]) -> io::Result<()> {
    let Ok(n) = checks::check(text, work) else {
        return writeln!(out, "no");
    };
    let (table, rest) = work.split_first_chunk_mut::<TABLE>().unwrap();
    let space = rest.first_chunk_mut::<SPACE>().unwrap();
    print_lines(out, &Sheet::of(text, table, n), space)
}

fn main(rt: HostRuntime) -> io::Result<()> {
    let mut out = rt.stdout();
    let mut work = vec![in rt.alloc(); 0u8; BYTES]?;
    print_blocks(&mut out, work.first_chunk_mut::<SPACE>().unwrap())?;
    let mut text = Vec::new(rt.alloc());
    rt.stdin().take(BYTES as u64).read_to_end(&mut text)?;
    print_sheet(&mut out, &text, &mut work)
}
