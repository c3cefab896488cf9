// Replay of a listing's data items, from its text to image and area.
#![tactic(auto)]

mod rows;

ghost use Rattle.replay.specs.Whole.{Replays};

use codes::area::Space;

// The items of a listing, over zeros; allocation ends at `end`. The lengths of image and area; none, and zeros, where one of them does
// not fit its buffer.
pub fn replay(
    listing: &[u8],
    work: &mut Space,
    image: &mut [u8],
    area: &mut [u8],
    end: usize,
) -> Option<(usize, usize)>
    ensures { Replays listing.now end work.old work.new image.old image.new area.old area.new result }
{
    write::zero(image);
    write::zero(area);
    rows::read_sizes(listing, work);
    let s = rows::lay_rows(listing, work, image, area, end);
    if s.full {
        write::zero(image);
        write::zero(area);
        return None;
    }
    Some((s.long, s.end))
}
