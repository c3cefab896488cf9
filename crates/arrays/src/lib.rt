// Constant arrays: `alloc` and literals.
#![tactic(auto)]

ghost use Rattle.std.specs.Prelude.{◌≡◌, ℕ, ◌≤◌};
ghost use Rattle.semantics.specs.Text.{Bytes};
ghost use Rattle.semantics.specs.Fold.{bind};
ghost use Rattle.semantics.specs.Tree.ConstVal.{v_int};
ghost use Rattle.semantics.specs.Array as Array;
ghost use Rattle.semantics.specs.Array.{Filled, elem_kind, is_byte_cast, is_byte_literal, as_size, literal_kind, const_array};
ghost use Rattle.codes.specs.Kinds.{element_kind};
ghost use Rattle.checks.specs.Checks.{Kept};
ghost use Rattle.sizes.specs.Sizes.{type_at, TypeLine};
ghost use Rattle.values.specs.Values.{answered, result_in};
ghost use Rattle.names.specs.Table.{ConstsLogged, names_in};
ghost use Rattle.placements.specs.Placements.{values_in, Filling};
ghost use Rattle.leaf.specs.Folds.{ex_at, ExLine};
ghost use Rattle.literals.specs.Literals.{els_at, LiteralLine, above};
ghost use Rattle.arrays.specs.Arrays.{item_of, ArrayResult, ArrayAnswers, declared_type, lit_size, own_type, alloc_type, ArrayLine, AllocLine, DeclaredLiteral, Counted, Sized};

use codes::area::{self, Space};
use codes::element::Element;
use codes::{ex, ty};
use lines::Sheet;
use values::{Folded, NoValue};

// Above the strings of 16 elements.
const ABOVE: usize = area::STACK + 256 * 16;

const LONGEST_ALLOC: i64 = 2147483647;

const LOWEST_ALLOC: i64 = -2147483648;

const LONGEST_LITERAL: u64 = 1024;

// The kind of the elements and their number; the values of a literal stand in the working space.
#[derive(Clone, Copy)]
pub enum Arrayed {
    Alloc(Element, u32),
    Literal(Element, usize),
}

// Why nothing is laid out: the value is left pending, or refuses the sheet.
#[derive(Clone, Copy, PartialEq, Eq)]
pub enum NoItem {
    Pending,
    LongString,
    LongAlloc,
    NegativeAlloc,
    OutsideLiteral,
    LongLiteral,
}

impl From<NoValue> for NoItem {
    ghost from_gives = { λ e i. i ≡ item_of e };

    fn from(e: NoValue) -> NoItem {
        match e {
            NoValue::Failed => NoItem::Pending,
            NoValue::LongString => NoItem::LongString,
        }
    }
}

// How an array holds elements of the type of line r.
pub fn elem_kind(sheet: &Sheet, r: usize) -> Element
    requires { TypeLine sheet.now r }
    ensures { element_kind result ≡ elem_kind (type_at sheet.now r) }
{
    match sheet.form_at(r - 1) {
        ty::INT => Element::Word,
        ty::BYTE => Element::Byte,
        ty::BIG => Element::Big,
        ty::REAL => Element::Real,
        _ => Element::Pointer,
    }
}

// ---- `alloc`

// An `alloc` of a length.
fn allocated_int(kind: Element, z: i64) -> Result<Arrayed, NoItem>
    ensures { (t : Bytes) → ArrayResult t (Array.allocated (element_kind kind) (v_int z)) result }
{
    if z > LONGEST_ALLOC {
        return Err(NoItem::LongAlloc);
    }
    if z < LOWEST_ALLOC {
        return Err(NoItem::LongAlloc);
    }
    if z < 0 {
        return Err(NoItem::NegativeAlloc);
    }
    Ok(Arrayed::Alloc(kind, z as u32))
}

fn allocated(kind: Element, x: Folded) -> Result<Arrayed, NoItem>
    ensures { (t : Bytes) → ArrayResult t (bind (result_in t x) (Array.allocated (element_kind kind))) result }
{
    allocated_int(kind, literals::as_int(x)?)
}

// The element type is the one that is declared, or else the `alloc` line's own.
fn alloc_kind(sheet: &Sheet, declared: Option<usize>, r: usize) -> Element
    requires { AllocLine sheet.now declared r }
    ensures { element_kind result ≡ elem_kind (alloc_type sheet.now declared r) }
{
    match declared {
        Some(d) => elem_kind(sheet, d),
        None => elem_kind(sheet, sheet.number_at(r - 1, 1)),
    }
}

fn alloc(
    sheet: &Sheet,
    work: &mut Space,
    consts: usize,
    declared: Option<usize>,
    r: usize,
) -> Result<Arrayed, NoItem>
    requires { (AllocLine sheet.now declared r) × (ConstsLogged sheet.now work.old consts) }
    ensures { ArrayAnswers work.old (const_array (names_in sheet.now work.old consts) (declared_type sheet.now declared) (ex_at sheet.now r)) result work.new }
{
    let kind = alloc_kind(sheet, declared, r);
    let q = sheet.number_at(r - 1, 0);
    allocated(
        kind,
        fold::fold_const(sheet, work, consts, 0, q, area::STACK),
    )
}

// ---- literals

fn as_size(x: Folded) -> Result<u64, NoValue>
    ensures { (t : Bytes) → answered result ≡ bind (result_in t x) as_size }
{
    let z = literals::as_int(x)?;
    if z < 0 {
        return Err(NoValue::Failed);
    }
    Ok(z as u64)
}

// The size of a literal: its own, or as many as its indices reach.
fn literal_size(
    sheet: &Sheet,
    work: &mut Space,
    consts: usize,
    r: usize,
    reach: u64,
) -> Result<u64, NoValue>
    requires { (LiteralLine sheet.now r) × (ConstsLogged sheet.now work.old consts) }
    ensures { ((f : Filled) → reach ≡ f.reach → answered result ≡ Array.literal_size (names_in sheet.now work.old consts) (lit_size sheet.now r) f) × (Kept (above 16) work.old work.new) }
{
    let q = sheet.number_at(r - 1, 0);
    if q == 0 {
        return Ok(reach);
    }
    as_size(fold::fold_const(sheet, work, consts, 0, q, ABOVE))
}

// Whether the expression of line r is itself a cast to byte.
fn is_byte_cast(sheet: &Sheet, r: usize) -> bool
    requires { ExLine sheet.now r }
    ensures { result ≡ is_byte_cast (ex_at sheet.now r) }
{
    if sheet.form_at(r - 1) != ex::CAST {
        return false;
    }
    elem_kind(sheet, sheet.number_at(r - 1, 0)) == Element::Byte
}

// Whether there is an element, and the value of every one is a cast to byte.
fn is_byte_literal(sheet: &Sheet, r: usize) -> bool
    requires { LiteralLine sheet.now r }
    ensures { result ≡ is_byte_literal (els_at sheet.now r) }
{
    let count = sheet.number_at(r - 1, 2);
    for j in 0..count {
        let q = sheet.number_at(r - 1, 3 + j);
        if !is_byte_cast(sheet, sheet.number_at(q - 1, 0)) {
            return false;
        }
    }
    0 < count
}

// By the type that is declared, or else the literal's own, or else by its values.
fn literal_kind(
    sheet: &Sheet,
    work: &Space,
    declared: Option<usize>,
    r: usize,
    count: usize,
) -> Element
    requires { Counted sheet.now declared r count }
    ensures { element_kind result ≡ literal_kind (declared_type sheet.now declared) (own_type sheet.now r) (els_at sheet.now r) (values_in work.now 0 count) }
{
    if let Some(d) = declared {
        return elem_kind(sheet, d);
    }
    let own = sheet.number_at(r - 1, 1);
    if own != 0 {
        return elem_kind(sheet, own);
    }
    if is_byte_literal(sheet, r) {
        return Element::Byte;
    }
    placements::kind_of_values(work, count)
}

// A literal of a size, which its indices do not pass.
fn measured(
    sheet: &Sheet,
    work: &Space,
    declared: Option<usize>,
    r: usize,
    size: u64,
) -> Result<Arrayed, NoItem>
    requires { DeclaredLiteral sheet.now declared r }
    ensures { (k next reach : ℕ) (f : Filled) → reach ≤ size → Filling work.now (above 16) k next reach f → ArrayResult work.now (Array.measured (declared_type sheet.now declared) (own_type sheet.now r) (els_at sheet.now r) f size) result }
{
    if LONGEST_LITERAL < size {
        return Err(NoItem::LongLiteral);
    }
    let count = size as usize;
    Ok(Arrayed::Literal(literal_kind(sheet, work, declared, r, count), count))
}

// A literal whose elements are placed, with indices that end at `reach`.
fn sized(
    sheet: &Sheet,
    work: &mut Space,
    consts: usize,
    declared: Option<usize>,
    r: usize,
    reach: u64,
) -> Result<Arrayed, NoItem>
    requires { (DeclaredLiteral sheet.now declared r) × (ConstsLogged sheet.now work.old consts) }
    ensures { Sized sheet.now work.old consts declared r reach result work.new }
{
    let size = literal_size(sheet, work, consts, r, reach)?;
    if size < reach {
        return Err(NoItem::OutsideLiteral);
    }
    measured(sheet, work, declared, r, size)
}

fn literal(
    sheet: &Sheet,
    work: &mut Space,
    consts: usize,
    declared: Option<usize>,
    r: usize,
) -> Result<Arrayed, NoItem>
    requires { (DeclaredLiteral sheet.now declared r) × (ConstsLogged sheet.now work.old consts) }
    ensures { ArrayAnswers work.old (const_array (names_in sheet.now work.old consts) (declared_type sheet.now declared) (ex_at sheet.now r)) result work.new }
{
    match literals::fill(sheet, work, consts, r)? {
        Some(x) => sized(sheet, work, consts, declared, r, x.reach),
        None => Err(NoItem::Pending),
    }
}

// The constant array that line r is, where `declared` is the line of the type that the global's type declares for elements.
pub fn const_array(
    sheet: &Sheet,
    work: &mut Space,
    consts: usize,
    declared: Option<usize>,
    r: usize,
) -> Result<Arrayed, NoItem>
    requires { (ArrayLine sheet.now declared r) × (ConstsLogged sheet.now work.old consts) }
    ensures { ArrayAnswers work.old (const_array (names_in sheet.now work.old consts) (declared_type sheet.now declared) (ex_at sheet.now r)) result work.new }
{
    match sheet.form_at(r - 1) {
        ex::ALLOC => alloc(sheet, work, consts, declared, r),
        ex::LIT => literal(sheet, work, consts, declared, r),
        _ => Err(NoItem::Pending),
    }
}
