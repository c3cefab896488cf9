// The elements of a literal: each value is folded and stored, then its selectors, and then it is placed.
#![tactic(auto)]

ghost use Rattle.std.specs.Prelude.{◌≡◌, ◌+◌, ◌≤◌, ◌<◌, List, ℤ};
ghost use Rattle.semantics.specs.Text.{Bytes};
ghost use Rattle.semantics.specs.Tree as Tree;
ghost use Rattle.semantics.specs.Fold.{Result, bind};
ghost use Rattle.semantics.specs.Array.{Filled, fill, as_int, index_of, high_of, span_of, spans_of, place_indices, place_spans, none_filled, fill_element};
ghost use Rattle.checks.specs.Checks.{Kept};
ghost use Rattle.names.specs.Table.{ConstsLogged, names_in};
ghost use Rattle.values.specs.Values.{answered, result_in};
ghost use Rattle.leaf.specs.Folds.{ex_at};
ghost use Rattle.literals.specs.Literals.{se_at, Task, above, ses_at, AtTask, el_at, els_at, ValuedTask, ElementTask, LiteralLine, placed, Moves, Selects, Fills, ElementFilled, AllFilled};

use codes::area::{self, Space};
use codes::el;
use lines::Sheet;
use placements::Extent;
use values::{ConstVal, Folded, NoValue};

// The integer that a fold gives.
pub fn as_int(x: Folded) -> Result<i64, NoValue>
    ensures { (t : Bytes) → answered result ≡ bind (result_in t x) as_int }
{
    match x? {
        ConstVal::Int(z) => Ok(z),
        _ => Err(NoValue::Failed),
    }
}

fn index_of(
    sheet: &Sheet,
    work: &mut Space,
    consts: usize,
    r: usize,
    e: usize,
) -> Result<i64, NoValue>
    requires { Task 69 sheet.now work.old consts r e }
    ensures { (answered result ≡ index_of (names_in sheet.now work.old consts) (ex_at sheet.now r)) × (Kept (above e) work.old work.new) }
{
    as_int(fold::fold_const(sheet, work, consts, 0, r, area::STACK + 256 * e))
}

// The high end of a selector's line r, where its low end is known.
fn high_of(
    sheet: &Sheet,
    work: &mut Space,
    consts: usize,
    r: usize,
    e: usize,
    low: i64,
) -> Result<i64, NoValue>
    requires { Task 74 sheet.now work.old consts r e }
    ensures { (answered result ≡ high_of (names_in sheet.now work.old consts) low (se_at sheet.now r).high) × (Kept (above e) work.old work.new) }
{
    let h = sheet.number_at(r - 1, 1);
    if h == 0 {
        return Ok(low);
    }
    index_of(sheet, work, consts, h, e)
}

// The low and high end of a selector; a low end that is no integer ends it before the high end is folded.
fn span_of(
    sheet: &Sheet,
    work: &mut Space,
    consts: usize,
    r: usize,
    e: usize,
) -> Result<(i64, i64), NoValue>
    requires { Task 74 sheet.now work.old consts r e }
    ensures { (answered result ≡ span_of (names_in sheet.now work.old consts) (se_at sheet.now r).low (se_at sheet.now r).high) × (Kept (above e) work.old work.new) }
{
    let q = sheet.number_at(r - 1, 0);
    let low = index_of(sheet, work, consts, q, e)?;
    let high = high_of(sheet, work, consts, r, e, low)?;
    Ok((low, high))
}

// Behind a negative index selectors are still folded, and nothing is placed.
fn place_on(work: &mut Space, e: usize, low: i64, high: i64, x: Option<Extent>) -> Option<Extent>
    requires { e ≤ 16 }
    ensures { Moves work.old e x (λ (v : Tree.ConstVal) (r : Result Filled). bind r (place_indices v low high)) result work.new }
{
    placements::place_indices(work, e, low, high, x?)
}

// The selector of line r.
fn place_selector(
    sheet: &Sheet,
    work: &mut Space,
    consts: usize,
    r: usize,
    e: usize,
    x: Option<Extent>,
) -> Result<Option<Extent>, NoValue>
    requires { Task 74 sheet.now work.old consts r e }
    ensures { Selects work.old e x (span_of (names_in sheet.now work.old consts) (se_at sheet.now r).low (se_at sheet.now r).high) result work.new }
{
    let (low, high) = span_of(sheet, work, consts, r, e)?;
    Ok(place_on(work, e, low, high, x))
}

// The selectors of line r.
fn place_selectors(
    sheet: &Sheet,
    work: &mut Space,
    consts: usize,
    r: usize,
    e: usize,
    x: Extent,
) -> Result<Option<Extent>, NoValue>
    requires { AtTask sheet.now work.old consts r e }
    ensures { Fills work.old e x (λ (v : Tree.ConstVal) (f : Filled). bind (spans_of (names_in sheet.now work.old consts) (ses_at sheet.now r)) (λ (l : List (ℤ × ℤ)). place_spans v l f)) result work.new }
{
    let count = sheet.number_at(r - 1, 1);
    let mut y = Some(x);
    for j in 0..count {
        let q = sheet.number_at(r - 1, 2 + j);
        y = place_selector(sheet, work, consts, q, e, y)?;
    }
    Ok(y)
}

// Element e of line r, whose value v stands in its slot.
fn place_element(
    sheet: &Sheet,
    work: &mut Space,
    consts: usize,
    r: usize,
    e: usize,
    v: ConstVal,
    x: Extent,
) -> Result<Option<Extent>, NoValue>
    requires { ValuedTask sheet.now work.old consts r e v }
    ensures { Fills work.old e x (placed (names_in sheet.now work.old consts) (el_at sheet.now r)) result work.new }
{
    match sheet.form_at(r - 1) {
        el::NEXT => Ok(placements::place_next(work, e, x)),
        el::STAR => {
            placements::put_value(work, 0, v);
            Ok(Some(x))
        }
        _ => place_selectors(sheet, work, consts, r, e, x),
    }
}

// The element of line r, which k others come before.
fn fill_element(
    sheet: &Sheet,
    work: &mut Space,
    consts: usize,
    r: usize,
    k: usize,
    x: Extent,
) -> Result<Option<Extent>, NoValue>
    requires { ElementTask sheet.now work.old consts r k }
    ensures { ElementFilled work.old k x (fill_element (names_in sheet.now work.old consts) (el_at sheet.now r)) result work.new }
{
    let q = sheet.number_at(r - 1, 0);
    let v = fold::fold_const(sheet, work, consts, 0, q, area::STACK + 256 * k)?;
    placements::put_value(work, k + 1, v);
    place_element(sheet, work, consts, r, k + 1, v, x)
}

// The elements of a literal of line r, in order; the first that ends it ends the work. None where an index is negative.
pub fn fill(
    sheet: &Sheet,
    work: &mut Space,
    consts: usize,
    r: usize,
) -> Result<Option<Extent>, NoValue>
    requires { (LiteralLine sheet.now r) × (ConstsLogged sheet.now work.old consts) }
    ensures { AllFilled work.old (fill (names_in sheet.now work.old consts) (els_at sheet.now r) none_filled) result work.new }
{
    placements::empty(work);
    let count = sheet.number_at(r - 1, 2);
    let mut x = Extent { next: 0, reach: 0 };
    for j in 0..count {
        let q = sheet.number_at(r - 1, 3 + j);
        let Some(y) = fill_element(sheet, work, consts, q, j, x)? else {
            return Ok(None);
        };
        x = y;
    }
    Ok(Some(x))
}
