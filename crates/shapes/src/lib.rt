// Sizes and pointer maps of records, over the lines of a checked sheet.
#![tactic(auto)]

ghost use Rattle.std.specs.Prelude.{◌≡◌, ◌-◌, ◌≤◌, length};
ghost use Rattle.semantics.specs.Layout.{rounded_size, furthest, place};
ghost use Rattle.lines.specs.Lines.{form_at};
ghost use Rattle.sizes.specs.Places.{case_fields, CaseLine, RecordLine, common_end};
ghost use Rattle.maps.specs.Maps.{MapRoom, Marks, MapMade};
ghost use Rattle.shapes.specs.Shapes.{shape_at, cases_at, variant_at, PickLine, VariantLine, CaseOf, BehindCommon};

use codes::area::Space;
use codes::decl;
use lines::Sheet;
use sizes::place::Reached;

// The bytes of the tag word of a record with `pick`: fields begin behind it.
pub const TAG_BYTES: u32 = 4;

// A `pick` line: NAME, N, as many fields, N, as many cases.

// How many cases the `pick` line r has.
pub fn case_count(sheet: &Sheet, r: usize) -> usize
    requires { PickLine sheet.now r }
    ensures { (result ≡ length (cases_at sheet.now r)) × (result ≤ 16) }
{
    let fields = sheet.number_at(r - 1, 1);
    sheet.number_at(r - 1, fields + 2)
}

// The line of case c, from 0, of the `pick` line r.
pub fn case_line(sheet: &Sheet, r: usize, c: usize) -> usize
    requires { VariantLine sheet.now r c }
    ensures { CaseOf sheet.now r c result }
{
    let fields = sheet.number_at(r - 1, 1);
    sheet.number_at(r - 1, fields + 3 + c)
}

// Behind the common fields of the `pick` line r.
fn behind_common(sheet: &Sheet, r: usize) -> Reached
    requires { PickLine sheet.now r }
    ensures { BehindCommon sheet.now r result }
{
    let p = Reached {
        end: TAG_BYTES,
        furthest: TAG_BYTES,
    };
    sizes::place::place_common(sheet, r, p)
}

// The size of the variants of the `pc` line k, whose common fields end at p.
fn case_size(sheet: &Sheet, k: usize, p: Reached) -> u32
    requires { (CaseLine sheet.now k) × (p.furthest ≤ p.end) × (p.end ≤ common_end) }
    ensures { result ≡ rounded_size (furthest p.furthest (place p.end (case_fields sheet.now k)).placed) }
{
    let v = sizes::place::place_case(sheet, k, p);
    sizes::rounded_size(v.furthest)
}

// The size of the record of an `adt` line.
fn adt_size(sheet: &Sheet, r: usize) -> u32
    requires { (RecordLine sheet.now r) × (form_at sheet.now (r - 1) ≡ 26) }
    ensures { result ≡ (shape_at sheet.now r).size }
{
    let p = Reached {
        end: 0,
        furthest: 0,
    };
    let q = sizes::place::place_common(sheet, r, p);
    sizes::rounded_size(q.furthest)
}

// The size of T with pick: the largest of its common fields' and of its variants'.
fn pick_size(sheet: &Sheet, r: usize) -> u32
    requires { PickLine sheet.now r }
    ensures { result ≡ (shape_at sheet.now r).size }
{
    let p = behind_common(sheet, r);
    let count = case_count(sheet, r);
    let mut size = sizes::rounded_size(p.furthest);
    for c in 0..count {
        let line = case_line(sheet, r, c);
        size = size.max(case_size(sheet, line, p));
    }
    size
}

// The size of the record T of the `adt` or `pick` line r.
pub fn record_size(sheet: &Sheet, r: usize) -> u32
    requires { RecordLine sheet.now r }
    ensures { result ≡ (shape_at sheet.now r).size }
{
    if sheet.form_at(r - 1) == decl::ADT {
        return adt_size(sheet, r);
    }
    pick_size(sheet, r)
}

// The size of the variants of case c, from 0, of the `pick` line r.
pub fn variant_size(sheet: &Sheet, r: usize, c: usize) -> u32
    requires { VariantLine sheet.now r c }
    ensures { result ≡ (variant_at sheet.now r c).size }
{
    let p = behind_common(sheet, r);
    case_size(sheet, case_line(sheet, r, c), p)
}

// Marks what a record with pick marks: the common fields, once, and every case's own behind them.
fn mark_pick(sheet: &Sheet, work: &mut Space, r: usize, size: u32)
    requires { (PickLine sheet.now r) × (MapRoom work.old size) }
    ensures { Marks size (shape_at sheet.now r).pointers work.old work.new }
{
    let end = marks::mark_common(sheet, work, r, size, TAG_BYTES);
    let count = case_count(sheet, r);
    for c in 0..count {
        let k = case_line(sheet, r, c);
        marks::mark_case(sheet, work, k, size, end);
    }
}

// Makes the pointer map of the record T of the `adt` or `pick` line r, for a block of this size.
pub fn map_record(sheet: &Sheet, work: &mut Space, r: usize, size: u32)
    requires { (RecordLine sheet.now r) × (MapRoom work.old size) }
    ensures { MapMade size (shape_at sheet.now r).pointers work.old work.new }
{
    maps::clear_map(work, size);
    if sheet.form_at(r - 1) == decl::ADT {
        marks::mark_common(sheet, work, r, size, 0);
        return;
    }
    mark_pick(sheet, work, r, size);
}

// Makes the pointer map of the variants of case c, from 0, of the `pick` line r, for a block of this size.
pub fn map_variant(sheet: &Sheet, work: &mut Space, r: usize, c: usize, size: u32)
    requires { (VariantLine sheet.now r c) × (MapRoom work.old size) }
    ensures { MapMade size (variant_at sheet.now r c).pointers work.old work.new }
{
    maps::clear_map(work, size);
    let behind = marks::mark_common(sheet, work, r, size, TAG_BYTES);
    let k = case_line(sheet, r, c);
    marks::mark_case(sheet, work, k, size, behind);
}
