// `use` rows.
#![tactic(auto)]

ghost use Rattle.std.specs.Prelude.{List, ◌∷◌, [], ◌≤◌, length};
ghost use Rattle.semantics.specs.Text.{Bytes, bytes, decimal};
ghost use Rattle.semantics.specs.Sheet.{sheet_source, concat_map};
ghost use Rattle.semantics.specs.Global.{Item};
ghost use Rattle.semantics.specs.Types.{id_of};
ghost use Rattle.semantics.specs.Listing.{row, use_row};
ghost use Rattle.write.specs.Writes.{Writes};
ghost use Rattle.uses.specs.Uses.{NeedIds};

use codes::area::Space;
use write::Writer;

fn put_use(w: &mut Writer, id: usize)
    ensures { Writes w.old (row (bytes "use" ∷ decimal id ∷ [])) w.new }
{
    w.put_part(b"use");
    rows::comma_nat(w, id as u64);
    rows::lf(w);
}

// The ID of what each `need` line asks for, whatever arrays there are.
pub fn use_rows(work: &Space, needs: usize, frames: usize, w: &mut Writer)
    requires { (needs ≤ 128) × (frames ≤ 128) }
    ensures { (s : Bytes) (is : List Item) → NeedIds s work.now needs frames → Writes w.old (concat_map (use_row (id_of (sheet_source s) is)) (sheet_source s).needs) w.new }
{
    for q in 0..needs {
        put_use(w, type_keys::ids::need_id(work, frames, q));
    }
}
