// The entries for C and Rust. A slice is a pointer and a length there, and a struct is C's.
#![tactic(auto)]

ghost use Rattle.std.specs.Prelude.{◌≡◌, length};
ghost use Rattle.semantics.specs.Text.{field_of, field_start};
ghost use Rattle.image.specs.Image.{lent_of};
ghost use Rattle.export.specs.Export.{CompilesForC, ImagesForC};

// A part of a sheet.
#[repr(C)]
#[derive(Clone, Copy)]
pub struct Part {
    pub start: usize,
    pub length: usize,
}

// A refusal's number and line, or 0 and the listing's length.
#[repr(C)]
#[derive(Clone, Copy)]
pub struct Compiled {
    pub number: u8,
    pub line: usize,
    pub listing: usize,
}

// A refusal's number and line, or 0 and the three lengths.
#[repr(C)]
#[derive(Clone, Copy)]
pub struct Laid {
    pub number: u8,
    pub line: usize,
    pub listing: usize,
    pub image: usize,
    pub area: usize,
}

// Where field i, from 0, of a line, from 1, stands; the empty part at the sheet's end where either is absent.
#[unsafe(no_mangle)]
pub extern "C" fn limbo_sheet_field(sheet: &[u8], line: usize, i: usize) -> Part
    ensures { (result.start ≡ field_start sheet.now line i) × (result.length ≡ length (field_of sheet.now line i)) }
{
    let p = text::field_place(sheet, line, i);
    Part {
        start: p.start,
        length: p.end - p.start,
    }
}

// The sheet's listing.
#[unsafe(no_mangle)]
pub extern "C" fn limbo_sheet_compile(sheet: &[u8], listing: &mut [u8], work: &mut [u8]) -> Compiled
    ensures { CompilesForC sheet.now (length listing.old) (length work.old) result listing.new work.new }
{
    match compile::compile(sheet, listing, work) {
        Ok(n) => Compiled {
            number: 0,
            line: 0,
            listing: n,
        },
        Err(r) => Compiled {
            number: r.number(),
            line: r.line(),
            listing: 0,
        },
    }
}

// The sheet's listing, the image of its data and the area of its arrays.
#[unsafe(no_mangle)]
pub extern "C" fn limbo_sheet_image(
    sheet: &[u8],
    listing: &mut [u8],
    image: &mut [u8],
    area: &mut [u8],
    work: &mut [u8],
) -> Laid
    ensures { ImagesForC sheet.now (lent_of listing.old image.old area.old work.old) result listing.new image.new area.new work.new }
{
    match image::image(sheet, listing, image, area, work) {
        Ok(laid) => Laid {
            number: 0,
            line: 0,
            listing: laid.listing,
            image: laid.image,
            area: laid.area,
        },
        Err(r) => Laid {
            number: r.number(),
            line: r.line(),
            listing: 0,
            image: 0,
            area: 0,
        },
    }
}
