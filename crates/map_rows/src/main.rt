// 01's rows of a pointer map and its edges, through the crate `layout`: a line each of size, count and buffer, which held A5 throughout before.
// Then offsets with what they are rounded up to. `expected.py` writes `stdout` from 01's words, not from this program.
#![tactic(auto)]

ghost use Rattle.std.specs.Prelude.{◌≤◌};

use std::io;
use std::io::Write;

fn print_bytes(out: &mut impl Write, b: &[u8]) -> io::Result<()> {
    for x in b {
        write!(out, "{x:02x}")?;
    }
    Ok(())
}

fn print_row(out: &mut impl Write, size: u32, offsets: &[i32], map: &mut [u8]) -> io::Result<()> {
    let count = layout::map::pointer_map_for(size, offsets, map);
    write!(out, "{size},{count},")?;
    print_bytes(out, map)?;
    writeln!(out)
}

// A row whose buffer has N bytes.
fn row<const N: usize>(out: &mut impl Write, size: u32, offsets: &[i32]) -> io::Result<()>
    requires { N ≤ 1024 }
{
    let mut map = [0xA5u8; N];
    print_row(out, size, offsets, &mut map)
}

fn aligned(out: &mut impl Write, off: u32, align: u32) -> io::Result<()> {
    writeln!(out, "{off},{align},{}", layout::align::align_up(off, align))
}

fn rows(out: &mut impl Write) -> io::Result<()> {
    row::<4>(out, 36, &[32])?;
    row::<4>(out, 36, &[33])?;
    // a buffer that the map does not fit
    row::<1>(out, 36, &[32])?;
    row::<4>(out, 0, &[0])?;
    row::<4>(out, 1, &[0])?;
    row::<4>(out, 3, &[0])?;
    row::<4>(out, 4, &[0])?;
    row::<4>(out, 33, &[29])?;
    row::<4>(out, 12, &[8, 0, 8, 0])?;
    row::<4>(out, 8, &[3, 5, 7])
}

fn far_rows(out: &mut impl Write) -> io::Result<()> {
    row::<4>(out, 8, &[-1, -4, -4096, -2147483648])?;
    row::<4>(out, 128, &[2147483647, 124, 125])?;
    // the 128 bytes of the largest block's map, and two behind them
    row::<130>(
        out,
        4096,
        &[
            4092, 0, 4, 28, 32, 60, 64, 4093, 4096, -4096, 2048, 2049, 2051, 1000, 1004, 3,
        ],
    )
}

fn alignments(out: &mut impl Write) -> io::Result<()> {
    aligned(out, 0, 8)?;
    aligned(out, 1, 8)?;
    aligned(out, 8, 8)?;
    aligned(out, 9, 4)?;
    aligned(out, 5, 1)?;
    aligned(out, 7, 12)?;
    aligned(out, 5, 0)?;
    aligned(out, 4294967295, 8)
}

fn main(rt: HostRuntime) -> io::Result<()> {
    let mut out = rt.stdout();
    rows(&mut out)?;
    far_rows(&mut out)?;
    alignments(&mut out)
}
