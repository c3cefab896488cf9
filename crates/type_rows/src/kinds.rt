// The rows of array elements that no need asked for.
ghost use Rattle.std.specs.Prelude.{◌≡◌, List, [], ◌++◌, ℕ, ◌+◌, ◌≤◌, ◌<◌, length, drop, IfSome, None};
ghost use Rattle.semantics.specs.Text.{Bytes};
ghost use Rattle.semantics.specs.Tree.{ElemKind, TypeKey};
ghost use Rattle.semantics.specs.Sheet.{concat_map};
ghost use Rattle.semantics.specs.Global.{Item};
ghost use Rattle.semantics.specs.Types.{distinct, array_key};
ghost use Rattle.codes.specs.Kinds.{element_kind};
ghost use Rattle.checks.specs.Checks.{Kept};
ghost use Rattle.type_keys.specs.Table.{kind_position, Kinds};
ghost use Rattle.type_row.specs.Row.{TypesWrote};
ghost use Rattle.type_rows.specs.Rows.{shapes_of};

use codes::area::Space;
use codes::element::{self, Element};
use type_keys::kind_position;
use type_row::put_elem;
use write::Writer;

// The kind of element whose key has position p.
fn kind_at(work: &Space, p: usize) -> Option<Element>
    ensures found { IfSome result (λ kind. kind_position work.now (element_kind kind) ≡ p + 1) }
    ensures none { result ≡ None → (k : ElemKind) → kind_position work.now k ≡ p + 1 → ⊥ }
{
    for kind in element::ALL {
        if kind_position(work, kind) == Some(p) {
            return Some(kind);
        }
    }
    None
}

// The rows of the keys behind those of needs, from the ID `id` up to that of the last of `keys`; `base` is the ID of the first key.
// The ID behind them.
pub fn kind_rows(work: &mut Space, base: usize, keys: usize, w: &mut Writer, id: usize) -> usize
    requires { (base ≤ id) × (base < 1024) × (keys < 1024) }
    ensures { ((s : Bytes) (ls : List TypeKey) (is : List Item) → id ≡ base + length (distinct [] ls) → Kinds work.old (ls ++ concat_map array_key is) keys → TypesWrote (shapes_of s (drop (length (distinct [] ls)) (distinct [] (ls ++ concat_map array_key is)))) id result w.old w.new work.old work.new) × (Kept 49152 work.old work.new) }
{
    for i in id..base + keys {
        if let Some(kind) = kind_at(work, i - base) {
            put_elem(work, kind, w, i);
        }
    }
    id.max(base + keys)
}
