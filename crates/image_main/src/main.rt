// Reads a sheet from standard input and prints the image of its data and the area of its arrays, a row each, in hexadecimal digits; or
// `no`, the refusal's number and its line.
#![tactic(auto)]

ghost use Rattle.std.specs.Prelude.{◌≡◌, ◌∷◌, [], ◌+◌, ◌*◌, ◌≤◌, length, take};
ghost use Rattle.semantics.specs.Text.{hex_of};
ghost use Rattle.semantics.specs.Listing.{row};
ghost use Rattle.semantics.specs.Refusal.{imaged, printed_image};
ghost use Rattle.write.specs.Writes.{Writes};
ghost use Rattle.image.specs.Image.{lent_of};

use std::io;
use std::io::{Read, Write};
use write::Writer;

// The bytes that are read at most, and those of each buffer.
const BYTES: usize = 65536;

// 2 digits for each byte of image and area, and what stands around them.
const ROWS: usize = 262208;

// A row of a name and bytes.
fn put_row(w: &mut Writer, name: &[u8], bytes: &[u8])
    ensures { Writes w.old (row (name.now ∷ hex_of bytes.now ∷ [])) w.new }
{
    w.put_part(name);
    rows::comma_hex(w, bytes);
    rows::lf(w);
}

// Puts what is to be printed at the start of `out`, and answers its length.
fn put_answer(
    sheet: &[u8],
    listing: &mut [u8],
    image: &mut [u8],
    area: &mut [u8],
    work: &mut [u8],
    out: &mut [u8],
) -> usize
    requires { 64 + 2 * (length image.old + length area.old) ≤ length out.old }
    ensures { (result ≤ length out.new) × (take result out.new ≡ printed_image (imaged (lent_of listing.old image.old area.old work.old) sheet.now)) }
{
    match image::image(sheet, listing, image, area, work) {
        Ok(laid) => {
            let mut w = Writer::from(out, 0);
            put_row(&mut w, b"image", &image[..laid.image]);
            put_row(&mut w, b"area", &area[..laid.area]);
            w.at
        }
        Err(r) => {
            let mut w = Writer::from(out, 0);
            answers::put_refusal(&mut w, r);
            w.at
        }
    }
}

fn main(rt: HostRuntime) -> io::Result<()> {
    let mut sheet = Vec::new(rt.alloc());
    rt.stdin().take(BYTES as u64).read_to_end(&mut sheet)?;
    let mut listing = vec![in rt.alloc(); 0u8; BYTES]?;
    let mut picture = vec![in rt.alloc(); 0u8; BYTES]?;
    let mut area = vec![in rt.alloc(); 0u8; BYTES]?;
    let mut work = vec![in rt.alloc(); 0u8; BYTES]?;
    let mut out = vec![in rt.alloc(); 0u8; ROWS]?;
    let k = put_answer(
        &sheet,
        &mut listing,
        &mut picture,
        &mut area,
        &mut work,
        &mut out,
    );
    rt.stdout().write_all(&out[..k])
}
