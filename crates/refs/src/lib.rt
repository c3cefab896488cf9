// Refusal 4: references.
#![tactic(auto)]

ghost use Rattle.std.specs.Prelude.{◌≡◌, cond, List, [], ℕ, ◌+◌, ◌≤◌, ◌<◌, length};
ghost use Rattle.semantics.specs.Refusal.{refs_of, use_all, bad_ref_from};
ghost use Rattle.lines.specs.Lines.{reads_in, read_at, lines_in, Whole};
ghost use Rattle.answers.specs.Answers.{first_line};
ghost use Rattle.answers.specs.declared.Refusal.TheVariants.{BadReference};
ghost use Rattle.refs.specs.Refs.{is_ref, wanted_by, claims, used_marked, Used, RefsOutcome};

use answers::Refusal;
use codes::area::{self, Space};
use lines::Sheet;

// Letters of references that may be 0 lie below it.
const NEEDED: u8 = b'@';

// Whether x is the letter of a reference: it lies between the blank and P.
pub fn is_ref(x: u8) -> bool
    ensures { result ≡ is_ref x }
{
    b' ' < x && x < b'P'
}

// The kind that a reference's letter asks for.
fn wanted(x: u8) -> u8
    requires { x < 80 }
    ensures { result ≡ wanted_by x }
{
    if x < NEEDED { x + 32 } else { x }
}

// Whether the field with letter x and number r is no reference of line k, or a good one, which is then marked.
fn claim(sheet: &Sheet, work: &mut Space, k: usize, x: u8, r: usize) -> bool
    requires { k ≤ lines_in sheet.now }
    ensures { (result ≡ claims sheet.now work.old k x r) × (work.new ≡ cond result (used_marked work.old x r) work.old) }
{
    if !is_ref(x) {
        return true;
    }
    if r == 0 {
        return x < NEEDED;
    }
    if k <= r {
        return false;
    }
    let i = r - 1;
    if form::kind(sheet.form_at(i)) != wanted(x) {
        return false;
    }
    if work[area::USED + i] != 0 {
        return false;
    }
    work[area::USED + i] = 1;
    true
}

// Whether the references of line i, from 0, are good; they are marked.
fn use_refs(sheet: &Sheet, work: &mut Space, i: usize) -> bool
    requires { i < lines_in sheet.now }
    ensures { (us : List ℕ) → Used work.old us → RefsOutcome work.new (use_all (reads_in sheet.now) (i + 1) (refs_of (read_at sheet.now i)) us) result }
{
    let l = sheet.line_at(i);
    let f = sheet.form_at(i);
    let mut w = form::begin(f);
    while w.at <= l.len() {
        let s = form::next(l, f, w);
        if !claim(sheet, work, i + 1, s.letter, s.number) {
            return false;
        }
        w = s.next;
    }
    true
}

// Refused at the first line with a bad reference.
pub fn bad_ref(sheet: &Sheet, work: &mut Space) -> Result<(), Refusal>
    requires { Used work.old [] }
    ensures { result ≡ first_line BadReference (bad_ref_from (reads_in sheet.now) 1 [] (reads_in sheet.now)) }
{
    for i in 0..sheet.count() {
        if !use_refs(sheet, work, i) {
            return Err(Refusal::BadReference(i + 1));
        }
    }
    Ok(())
}
