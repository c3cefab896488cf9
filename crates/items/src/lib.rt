// Rows of data items: single values, and arrays with the elements of a literal that stands in the working space.
#![tactic(auto)]

ghost use Rattle.std.specs.Prelude.{◌≡◌, cond, [], ◌∷◌, ◌++◌, ℕ, ◌+◌, ◌*◌, ◌≤◌, ◌<◌, length};
ghost use Rattle.semantics.specs.Tree.{Ty, ElemKind, TypeKey};
ghost use Rattle.semantics.specs.Tree.ElemKind.{k_word, k_big};
ghost use Rattle.semantics.specs.Tree.TypeKey.{elem_key};
ghost use Rattle.semantics.specs.Array.{is_of_kind};
ghost use Rattle.semantics.specs.Global.{value_item, str_element, str_items, element_items, array_items};
ghost use Rattle.semantics.specs.Global.Item.{str_item, array_item, set_item, back_item};
ghost use Rattle.semantics.specs.Listing.{item_row};
ghost use Rattle.codes.specs.Kinds.{element_kind};
ghost use Rattle.write.specs.Writes.{Writes};
ghost use Rattle.rows.specs.Rows.{commaed};
ghost use Rattle.values.specs.Values.{string_in, value_in, Within};
ghost use Rattle.placements.specs.Placements.{placement_at, slot_at, element_in, values_in};
ghost use Rattle.items.specs.Items.{item_rows, LiteralIn};
ghost use Rattle.elements.specs.Elements.{element_texts, values_row};

use codes::area::Space;
use codes::element::Element;
use values::ConstVal;
use write::Writer;

// The row of the string of l bytes at p.
fn str_row(work: &[u8], w: &mut Writer, off: usize, p: usize, l: usize)
    requires { p + l ≤ length work.now }
    ensures { (id : TypeKey → ℕ) → Writes w.old (item_row id (str_item off (string_in work.now p l))) w.new }
{
    w.put_part(b"dat,str");
    rows::comma_nat(w, off as u64);
    rows::comma_hex(w, &work[p..p + l]);
    rows::lf(w);
}

fn int_kind(big: bool) -> Element
    ensures { element_kind result ≡ cond big k_big k_word }
{
    if big { Element::Big } else { Element::Word }
}

// The row of a single value; the type decides only between big and word.
pub fn value_item(work: &[u8], w: &mut Writer, off: usize, big: bool, v: ConstVal)
    requires { Within (length work.now) v }
    ensures { (id : TypeKey → ℕ) (ty : Ty) → is_of_kind k_big ty ≡ big → Writes w.old (item_row id (value_item off ty (value_in work.now v))) w.new }
{
    match v {
        ConstVal::Int(_) => elements::number_row(w, int_kind(big), off, v),
        ConstVal::Real(_) => elements::number_row(w, Element::Real, off, v),
        ConstVal::Str(p, l) => str_row(work, w, off, p, l),
    }
}

// Elements as numbers, each behind its comma.
fn put_elements(work: &Space, w: &mut Writer, kind: Element, count: usize)
    requires { LiteralIn work.now count }
    ensures { Writes w.old (commaed (element_texts (element_kind kind) (values_in work.now 0 count))) w.new }
{
    for i in 0..count {
        elements::put_element(w, kind, placements::element(work, i));
    }
}

// One row for all elements of an array of numbers.
fn elements_row(work: &Space, w: &mut Writer, kind: Element, count: usize)
    requires { LiteralIn work.now count }
    ensures { Writes w.old (values_row (element_kind kind) 0 (values_in work.now 0 count)) w.new }
{
    elements::put_head(w, kind, 0, count);
    put_elements(work, w, kind, count);
    rows::lf(w);
}

// The row of the string at index i; a number among strings leaves none.
fn string_row(work: &Space, w: &mut Writer, i: usize)
    requires { (i < 1024) × (Within (length work.now) (slot_at work.now (placement_at work.now i))) }
    ensures { (id : TypeKey → ℕ) → Writes w.old (item_rows id (str_element (4 * i) (element_in work.now (placement_at work.now i)))) w.new }
{
    match placements::element(work, i) {
        ConstVal::Int(_) | ConstVal::Real(_) => {}
        ConstVal::Str(p, l) => str_row(work, w, 4 * i, p, l),
    }
}

fn string_rows(work: &Space, w: &mut Writer, count: usize)
    requires { LiteralIn work.now count }
    ensures { (id : TypeKey → ℕ) → Writes w.old (item_rows id (str_items 0 (values_in work.now 0 count))) w.new }
{
    for i in 0..count {
        string_row(work, w, i);
    }
}

// The rows of a literal's elements: one for all numbers, or one for each string.
fn element_items(work: &Space, w: &mut Writer, kind: Element, count: usize)
    requires { LiteralIn work.now count }
    ensures { (id : TypeKey → ℕ) → Writes w.old (item_rows id (element_items (element_kind kind) (values_in work.now 0 count))) w.new }
{
    match kind {
        Element::Pointer => string_rows(work, w, count),
        _ => elements_row(work, w, kind, count),
    }
}

fn array_row(w: &mut Writer, off: usize, id: usize, count: u64)
    ensures { (f : TypeKey → ℕ) (k : ElemKind) → f (elem_key k) ≡ id → Writes w.old (item_row f (array_item off k count)) w.new }
{
    w.put_part(b"dat,array");
    rows::comma_nat(w, off as u64);
    rows::comma_nat(w, id as u64);
    rows::comma_nat(w, count);
    rows::lf(w);
}

fn set_row(w: &mut Writer, off: usize)
    ensures { (f : TypeKey → ℕ) → Writes w.old (item_row f (set_item off)) w.new }
{
    w.put_part(b"dat,set");
    rows::comma_nat(w, off as u64);
    w.put_part(b",0\n");
}

// The elements of a literal, written into the array at an offset.
fn contents(work: &Space, w: &mut Writer, off: usize, kind: Element, count: usize)
    requires { LiteralIn work.now count }
    ensures { (f : TypeKey → ℕ) → Writes w.old (item_rows f (set_item off ∷ (element_items (element_kind kind) (values_in work.now 0 count) ++ (back_item ∷ [])))) w.new }
{
    set_row(w, off);
    element_items(work, w, kind, count);
    w.put_part(b"dat,back\n");
}

// The rows of an array that a literal of `count` values makes, as the Rust's `emit_const_array`; `id` is the ID of its element key.
pub fn array_items(work: &Space, w: &mut Writer, off: usize, id: usize, kind: Element, count: usize)
    requires { LiteralIn work.now count }
    ensures { (f : TypeKey → ℕ) → f (elem_key (element_kind kind)) ≡ id → Writes w.old (item_rows f (array_items off (record { kind = element_kind kind; count = count; values = values_in work.now 0 count }))) w.new }
{
    array_row(w, off, id, count as u64);
    if count != 0 {
        contents(work, w, off, kind, count);
    }
}

// The row of an array that an `alloc` makes: it has no values.
pub fn alloc_item(w: &mut Writer, off: usize, id: usize, count: u64)
    ensures { (f : TypeKey → ℕ) (k : ElemKind) → f (elem_key k) ≡ id → Writes w.old (item_rows f (array_items off (record { kind = k; count = count; values = [] }))) w.new }
{
    array_row(w, off, id, count);
}
