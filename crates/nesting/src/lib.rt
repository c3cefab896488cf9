// Refusal 5: nesting.
#![tactic(auto)]

ghost use Rattle.std.specs.Prelude.{◌≡◌, List, [], ℕ, ◌≤◌, ◌<◌};
ghost use Rattle.semantics.specs.Refusal.{refs_of, deepest, too_deep_from};
ghost use Rattle.lines.specs.Lines.{reads_in, read_at, lines_in};
ghost use Rattle.answers.specs.Answers.{first_line};
ghost use Rattle.answers.specs.declared.Refusal.TheVariants.{DeepNesting};
ghost use Rattle.nesting.specs.Nesting.{ref_depth, Depths};

use answers::Refusal;
use codes::area::{self, Space};
use lines::Sheet;

const DEEPEST: usize = 32;

#[tactic(auto, unfolding(crate::specs::Nesting::ref_depth, crate::specs::Nesting::depth_at))]
// How deep the line is that a field of line i refers to; 0 where it refers to none.
fn ref_depth(work: &Space, i: usize, x: u8, v: usize) -> usize
    requires { i < 1024 }
    ensures { (result ≡ ref_depth work.now i x v) × (result < 256) }
{
    if !refs::is_ref(x) || v == 0 || i < v {
        return 0;
    }
    usize::from(work[area::DEPTHS + (v - 1)])
}

// How deep the deepest line is to which line i, from 0, refers.
fn depth_below(sheet: &Sheet, work: &Space, i: usize) -> usize
    requires { i < lines_in sheet.now }
    ensures { (result < 256) × ((ds : List ℕ) → Depths work.now ds i → result ≡ deepest ds (refs_of (read_at sheet.now i))) }
{
    let l = sheet.line_at(i);
    let f = sheet.form_at(i);
    let mut w = form::begin(f);
    let mut depth = 0;
    while w.at <= l.len() {
        let s = form::next(l, f, w);
        depth = depth.max(ref_depth(work, i, s.letter, s.number));
        w = s.next;
    }
    depth
}

// Refused at the first line that nests too deep.
pub fn too_deep(sheet: &Sheet, work: &mut Space) -> Result<(), Refusal>
    ensures { result ≡ first_line DeepNesting (too_deep_from 1 [] (reads_in sheet.now)) }
{
    for i in 0..sheet.count() {
        let d = depth_below(sheet, work, i) + 1;
        if DEEPEST < d {
            return Err(Refusal::DeepNesting(i + 1));
        }
        work[area::DEPTHS + i] = d as u8;
    }
    Ok(())
}
