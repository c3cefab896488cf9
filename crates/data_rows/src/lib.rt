// The `dat` rows of a sheet's data items, with IDs for the keys of array elements.
#![tactic(auto)]

ghost use Rattle.std.specs.Prelude.{◌≡◌, [], ◌∷◌, ◌≤◌, ◌<◌, ℕ, length, IfSome};
ghost use Rattle.semantics.specs.Text.{Bytes};
ghost use Rattle.semantics.specs.Tree.{Ty, TypeKey};
ghost use Rattle.semantics.specs.Tree.ElemKind.{k_big};
ghost use Rattle.semantics.specs.Tree.TypeKey.{elem_key};
ghost use Rattle.semantics.specs.Sheet.{sheet_source};
ghost use Rattle.semantics.specs.Array.{is_of_kind};
ghost use Rattle.semantics.specs.Global.{array_items, init_items};
ghost use Rattle.codes.specs.Kinds.{element_kind};
ghost use Rattle.write.specs.Writes.{Writes};
ghost use Rattle.checks.specs.Checks.{Kept, Outside};
ghost use Rattle.names.specs.Table.{names_in};
ghost use Rattle.arrays.specs.Arrays.{array_in, ArrayStands};
ghost use Rattle.global_table.specs.Table.{VarLine, type_on, names_on, places_in};
ghost use Rattle.globals.specs.Vars.{laid_on, line_items};
ghost use Rattle.items.specs.Items.{item_rows};
ghost use Rattle.type_keys.specs.Table.{Kinds};
ghost use Rattle.vars.specs.First.{first_in, FirstStands};
ghost use Rattle.data_rows.specs.Data.{items_in, keys_of, rows_of, DataTables, PrintKept, ItemsPrinted, Keyed, PrintTables, NameTask, name_items};

use arrays::Arrayed;
use codes::area::Space;
use codes::element::Element;
use global_table::line;
use lines::Sheet;
use vars::First;
use write::Writer;

// How many constants, globals and frames there are.
#[derive(Clone, Copy)]
pub struct Counts {
    pub consts: usize,
    pub globals: usize,
    pub frames: usize,
}

// Whether the `var` line r declares bigs.
fn is_big(sheet: &Sheet, r: usize) -> bool
    requires { VarLine sheet.now r }
    ensures { is_of_kind k_big (type_on sheet.now r) ≡ result }
{
    matches!(
        arrays::elem_kind(sheet, line::type_of(sheet, r)),
        Element::Big
    )
}

fn kind_of(x: Arrayed) -> Element
    ensures { (t : Bytes) → element_kind result ≡ (array_in t x).kind }
{
    match x {
        Arrayed::Alloc(kind, _) | Arrayed::Literal(kind, _) => kind,
    }
}

// The rows of an array whose elements' key has an ID.
fn put_array(work: &Space, w: &mut Writer, off: usize, id: usize, x: Arrayed)
    requires { ArrayStands work.now x }
    ensures { (f : TypeKey → ℕ) → f (elem_key (array_in work.now x).kind) ≡ id → Writes w.old (item_rows f (array_items off (array_in work.now x))) w.new }
{
    match x {
        Arrayed::Alloc(_, n) => items::alloc_item(w, off, id, n as u64),
        Arrayed::Literal(kind, n) => items::array_items(work, w, off, id, kind, n),
    }
}

// ---- as all that follow these functions take how many keys have an ID, and return how many have one then

// The rows of an array at an offset. The key of its elements gets an ID where it has none.
fn array_rows(
    work: &mut Space,
    frames: usize,
    off: usize,
    x: Arrayed,
    w: &mut Writer,
    keys: usize,
) -> usize
    requires { (Keyed work.old frames keys) × (ArrayStands work.old x) }
    ensures { ((s : Bytes) → frames ≡ length (sheet_source s).frames → ItemsPrinted s (array_items off (array_in work.old x)) keys result work.old work.new w.old w.new) × (Outside 10624 10629 work.old work.new) }
{
    let kind = kind_of(x);
    let keys = type_keys::collect_kind(work, kind, keys);
    let id = type_keys::ids::kind_id(work, frames, kind);
    put_array(work, w, off, id, x);
    keys
}

// The rows of a first value at an offset.
fn first_rows(
    work: &mut Space,
    frames: usize,
    off: usize,
    big: bool,
    x: First,
    w: &mut Writer,
    keys: usize,
) -> usize
    requires { (Keyed work.old frames keys) × (FirstStands work.old x) }
    ensures { ((s : Bytes) (ty : Ty) → frames ≡ length (sheet_source s).frames → is_of_kind k_big ty ≡ big → ItemsPrinted s (init_items off ty (first_in work.old x)) keys result work.old work.new w.old w.new) × (Outside 10624 10629 work.old work.new) }
{
    match x {
        First::Value(v) => {
            items::value_item(work, w, off, big, v);
            keys
        }
        First::Array(a) => array_rows(work, frames, off, a, w, keys),
    }
}

// The rows of a name; `nil` has none.
fn name_rows(
    sheet: &Sheet,
    work: &mut Space,
    c: Counts,
    name: &[u8],
    big: bool,
    x: First,
    w: &mut Writer,
    keys: usize,
) -> usize
    requires { NameTask sheet.now work.old c x keys }
    ensures { ((ty : Ty) → is_of_kind k_big ty ≡ big → ItemsPrinted sheet.now (name_items ty (places_in sheet.now work.old c.globals) (first_in work.old x) (name.now ∷ [])) keys result work.old work.new w.old w.new) × (Outside 10624 10629 work.old work.new) }
{
    if line::is_nil(name) {
        return keys;
    }
    let off = global_table::offset_in(sheet, work, c.globals, name).unwrap_or(0);
    first_rows(work, c.frames, off, big, x, w, keys)
}

// The rows of all names of line r.
fn names_rows(
    sheet: &Sheet,
    work: &mut Space,
    c: Counts,
    r: usize,
    x: First,
    w: &mut Writer,
    keys: usize,
) -> usize
    requires { (NameTask sheet.now work.old c x keys) × (VarLine sheet.now r) }
    ensures { (ItemsPrinted sheet.now (name_items (type_on sheet.now r) (places_in sheet.now work.old c.globals) (first_in work.old x) (names_on sheet.now r)) keys result work.old work.new w.old w.new) × (Outside 10624 10629 work.old work.new) }
{
    let big = is_big(sheet, r);
    let count = line::name_count(sheet, r);
    let mut keys = keys;
    for j in 0..count {
        let name = line::name_at(sheet, r, j);
        keys = name_rows(sheet, work, c, name, big, x, w, keys);
    }
    keys
}

// The rows of the `var` line r. Its first value stands in the working space while they are printed.
fn line_rows(
    sheet: &Sheet,
    work: &mut Space,
    c: Counts,
    r: Option<usize>,
    w: &mut Writer,
    keys: usize,
) -> usize
    requires { (PrintTables sheet.now work.old c keys) × (IfSome r (VarLine sheet.now)) }
    ensures { (ItemsPrinted sheet.now (line_items (names_in sheet.now work.old c.consts) (places_in sheet.now work.old c.globals) (laid_on sheet.now r)) keys result work.old work.new w.old w.new) × (PrintKept work.old work.new) }
{
    let Some(r) = r else {
        return keys;
    };
    match vars::first_value(sheet, work, c.consts, r) {
        Ok(Some(x)) => names_rows(sheet, work, c, r, x, w, keys),
        Ok(None) | Err(_) => keys,
    }
}

// The rows of all data items of a sheet. Work goes on where the listing is full.
pub fn data_rows(sheet: &Sheet, work: &mut Space, c: Counts, w: &mut Writer, keys: usize) -> usize
    requires { DataTables sheet.now work.old c keys }
    ensures { (Writes w.old (rows_of sheet.now (items_in sheet.now work.old c.consts)) w.new) × (Kinds work.new (keys_of sheet.now (items_in sheet.now work.old c.consts)) result) × (result < 1024) × (Kept 10624 work.old work.new) }
{
    let mut keys = keys;
    let mut k = None;
    for i in 0..sheet.count() {
        let r = globals::laid_line(sheet, i, k);
        keys = line_rows(sheet, work, c, r, w, keys);
        k = implement::open_after(sheet, i, k);
    }
    keys
}
