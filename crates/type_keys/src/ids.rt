// The IDs of keys.
ghost use Rattle.std.specs.Prelude.{◌≡◌, List, ◌++◌, [], ℕ, ◌≤◌, ◌<◌, length, get_or};
ghost use Rattle.semantics.specs.Text.{Bytes};
ghost use Rattle.semantics.specs.Tree.{TypeKey};
ghost use Rattle.semantics.specs.Tree.TypeKey.{elem_key, opaque_key};
ghost use Rattle.semantics.specs.Sheet.{Source, sheet_source};
ghost use Rattle.codes.specs.Kinds.{element_kind};
ghost use Rattle.semantics.specs.Global.{Item};
ghost use Rattle.semantics.specs.Types.{position, distinct, keys, id_of};
ghost use Rattle.type_keys.specs.Table.{kind_position, Needs, Kinds};

use crate::{kind_position, need_position};
use codes::area::Space;
use codes::element::Element;

// How many opaque records there are before all other types.
pub const OPAQUE_RECORDS: usize = 2;

// The ID of the key at position p, behind the opaque records and the frames.
fn id_of(frames: usize, p: usize) -> usize
    requires { (frames ≤ 128) × (p < 256) }
    ensures { ((s : Source) (is : List Item) (k : TypeKey) → frames ≡ length s.frames → p ≡ position k (keys s is) → result ≡ id_of s is k) × (result < 512) }
{
    OPAQUE_RECORDS + frames + p
}

// The ID of the key of need q. Keys of array elements, which come later, leave it as it is.
pub fn need_id(work: &Space, frames: usize, q: usize) -> usize
    requires { (frames ≤ 128) × (q < 128) }
    ensures { ((s : Bytes) (is : List Item) → Needs s work.now (sheet_source s).needs → q < length (sheet_source s).needs → frames ≡ length (sheet_source s).frames → result ≡ id_of (sheet_source s) is (get_or (sheet_source s).needs q opaque_key)) × (result < 512) }
{
    id_of(frames, need_position(work, q))
}

// The ID of the key of a kind of element that is used. Later keys leave it as it is.
pub fn kind_id(work: &Space, frames: usize, kind: Element) -> usize
    requires { (frames ≤ 128) × (0 < kind_position work.now (element_kind kind)) }
    ensures { ((s : Source) (is : List Item) (ks ms : List TypeKey) (count : ℕ) → Kinds work.now ks count → frames ≡ length s.frames → keys s is ≡ distinct [] (ks ++ ms) → result ≡ id_of s is (elem_key (element_kind kind))) × (result < 512) }
{
    id_of(frames, kind_position(work, kind).unwrap())
}
