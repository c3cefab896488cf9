// The keys of needs, each with its position among the distinct keys.
#![tactic(auto)]

ghost use Rattle.std.specs.Prelude.{◌≡◌, List, [], ◌∷◌, ◌++◌, ◌+◌, ◌≤◌, ◌<◌, length};
ghost use Rattle.semantics.specs.Tree.{TypeKey};
ghost use Rattle.semantics.specs.Sheet.{sheet_source};
ghost use Rattle.semantics.specs.Types.{same_type_key, distinct, position};
ghost use Rattle.lines.specs.Lines.{lines_in, text_at};
ghost use Rattle.checks.specs.Checks.{Checked, Outside};
ghost use Rattle.words.specs.Words.{digest};
ghost use Rattle.type_lines.specs.Needs.{need_at, NeedLine, needs_to};
ghost use Rattle.type_keys.specs.Table.{need_line_of, Needs, Kinds};
ghost use Rattle.need_keys.specs.Pass.{NeedEntry, Collecting, NeedNext, kind_by_need};

use codes::area::Space;
use codes::element::Element;
use codes::kind;
use lines::Sheet;
use type_keys::CHAINS;

// How many needs there are, and how many of their keys are distinct.
#[derive(Clone, Copy)]
pub struct NeedCounts {
    pub needs: usize,
    pub keys: usize,
}

// Whether need q has the key of the `need` line i, whose text has the digest d.
fn has_need_key(sheet: &Sheet, work: &Space, i: usize, d: usize, q: usize) -> bool
    requires { (NeedLine sheet.now i) × (d ≡ digest (text_at sheet.now i)) × (NeedEntry sheet.now work.now q) }
    ensures { result ≡ same_type_key (need_at sheet.now i) (need_at sheet.now (need_line_of work.now q)) }
{
    // its line is looked at last
    chains::digest_at(work, CHAINS, q) == d
        && type_lines::same_need(sheet, i, type_keys::need_line(work, q))
}

// The position of the key of the `need` line i, whose text has the digest d, among those of the lines before; the next position,
// where it is new. All needs with that key have its position, so the newest of them does.
fn position_for(sheet: &Sheet, work: &Space, i: usize, d: usize, counts: NeedCounts) -> usize
    requires { (NeedNext sheet.now work.now i counts.needs counts.keys) × (d ≡ digest (text_at sheet.now i)) }
    ensures { result ≡ position (need_at sheet.now i) (distinct [] (needs_to sheet.now i)) }
{
    let mut next = chains::newest(work, CHAINS, counts.needs, d);
    while let Some(q) = next {
        if has_need_key(sheet, work, i, d, q) {
            return type_keys::need_position(work, q);
        }
        next = chains::earlier(work, CHAINS, q);
    }
    counts.keys
}

// How many keys there are with one more at position p, which is new where p is behind all others.
fn with_key(p: usize, keys: usize) -> usize
    requires { keys < 1024 }
    ensures { (k : TypeKey) (ks : List TypeKey) → p ≡ position k (distinct [] ks) → keys ≡ length (distinct [] ks) → result ≡ length (distinct [] (ks ++ (k ∷ []))) }
{
    if p == keys { keys + 1 } else { keys }
}

// The kind of element that a need asks for, if any, has position p.
fn enter_kind(work: &mut Space, kind: Option<Element>, p: usize)
    requires { p < 255 }
    ensures { work.new ≡ kind_by_need work.old kind p }
{
    if let Some(kind) = kind {
        type_keys::enter_kind(work, kind, p);
    }
}

// Enters the `need` line i, with the position of its key: the Rust's `need_type`.
fn collect_need(sheet: &Sheet, work: &mut Space, i: usize, counts: NeedCounts) -> NeedCounts
    requires { NeedNext sheet.now work.old i counts.needs counts.keys }
    ensures { (Collecting sheet.now work.new (i + 1) result.needs result.keys) × (Outside 10240 11264 work.old work.new) }
{
    let d = words::digest(sheet.line_at(i));
    let p = position_for(sheet, work, i, d, counts);
    let kind = type_lines::kind_needed(sheet.form_at(i));
    type_keys::enter_need(work, counts.needs, i, p);
    enter_kind(work, kind, p);
    type_keys::enter_digest(work, counts.needs, d);
    NeedCounts {
        needs: counts.needs + 1,
        keys: with_key(p, counts.keys),
    }
}

// Enters what line i needs.
fn collect_line(sheet: &Sheet, work: &mut Space, i: usize, counts: NeedCounts) -> NeedCounts
    requires { (Collecting sheet.now work.old i counts.needs counts.keys) × (i < lines_in sheet.now) }
    ensures { (Collecting sheet.now work.new (i + 1) result.needs result.keys) × (Outside 10240 11264 work.old work.new) }
{
    if form::kind(sheet.form_at(i)) != kind::NEED {
        return counts;
    }
    collect_need(sheet, work, i, counts)
}

// Enters all needs, in sheet order; equal keys have one position.
pub fn collect_needs(sheet: &Sheet, work: &mut Space) -> NeedCounts
    requires { Checked sheet.now }
    ensures { (result.needs ≡ length (sheet_source sheet.now).needs) × (Needs sheet.now work.new (sheet_source sheet.now).needs) × (Kinds work.new (sheet_source sheet.now).needs result.keys) × (Outside 10240 11264 work.old work.new) }
{
    type_keys::clear_kinds(work);
    let mut counts = NeedCounts { needs: 0, keys: 0 };
    for i in 0..sheet.count() {
        counts = collect_line(sheet, work, i, counts);
    }
    counts
}
