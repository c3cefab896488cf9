// The image of a sheet's data and the area of its arrays: the sheet is compiled, and the items of its listing are replayed.
#![tactic(auto)]

ghost use Rattle.std.specs.Prelude.{◌≡◌, length};
ghost use Rattle.semantics.specs.Refusal.{zeros};
ghost use Rattle.image.specs.Image.{lent_of, Pictures};

use answers::Refusal;
use codes::area::SPACE;

// The lengths of listing, image and area.
#[derive(Clone, Copy)]
pub struct Laid {
    pub listing: usize,
    pub image: usize,
    pub area: usize,
}

// Whatever the sheet and the buffers: the lengths, with the bytes and zeros behind them, or a refusal, with zeros alone.
pub fn image(
    sheet: &[u8],
    listing: &mut [u8],
    image: &mut [u8],
    area: &mut [u8],
    work: &mut [u8],
) -> Result<Laid, Refusal>
    ensures { (Pictures sheet.now (lent_of listing.old image.old area.old work.old) result listing.new image.new area.new) × (work.new ≡ zeros (length work.old)) }
{
    match compile::list(sheet, listing, work) {
        Err(r) => {
            write::zero(image);
            write::zero(area);
            Err(r)
        }
        Ok(l) => {
            let space = work.first_chunk_mut::<SPACE>().unwrap();
            let laid = replay::replay(&listing[..l.length], space, image, area, l.end as usize);
            write::zero(work);
            match laid {
                Some((i, a)) => Ok(Laid {
                    listing: l.length,
                    image: i,
                    area: a,
                }),
                None => {
                    write::zero(listing);
                    Err(Refusal::Outgrown)
                }
            }
        }
    }
}
