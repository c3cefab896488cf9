// Refusal 7: counts.
#![tactic(auto)]

ghost use Rattle.std.specs.Prelude.{◌≡◌, false, cond, [], ◌-◌, ◌≤◌, ◌<◌, eqb};
ghost use Rattle.semantics.specs.Form.{letter};
ghost use Rattle.semantics.specs.Refusal.{over_limits, no_counts, refs_of, bad_ref_from, too_many_from};
ghost use Rattle.lines.specs.Lines.{reads_in, read_at, nodes_in, lines_in};
ghost use Rattle.answers.specs.Answers.{first_line};
ghost use Rattle.answers.specs.declared.Refusal.TheVariants.{TooMany};
ghost use Rattle.counts.specs.Counts.{counts_of, field_number, one_of, tags_in, records_on, var_names, added};

use answers::Refusal;
use codes::kind;
use lines::Sheet;

const MOST_OF_A_KIND: usize = 128;

const MOST_NAMES: usize = 256;

// `con`, `need` and `frame` lines, records plus tags, and `var` names.
#[derive(Clone, Copy, Default)]
pub struct Tally {
    pub consts: usize,
    pub needs: usize,
    pub frames: usize,
    pub records: usize,
    pub names: usize,
}

// 1 where k is the kind asked for, else 0.
fn one(k: u8, kind: u8) -> usize
    ensures { (result ≡ one_of k kind) × (result ≤ 1) }
{
    usize::from(k == kind)
}

// The tags of the case to which a field with letter x and number v refers; 0 where it refers to none.
fn case_tags(sheet: &Sheet, x: u8, v: usize) -> usize
    requires { x ≡ 67 → (0 < v) × (v ≤ lines_in sheet.now) × (letter (read_at sheet.now (v - 1)).form.kind ≡ 67) }
    ensures { (result ≡ cond (eqb x 67) (field_number (read_at sheet.now (v - 1)) 0) 0) × (result ≤ 65537) }
{
    if x == kind::PC {
        sheet.number_at(v - 1, 0)
    } else {
        0
    }
}

// The tags of the cases of line i, from 0.
fn tags(sheet: &Sheet, i: usize) -> usize
    requires { (bad_ref_from (reads_in sheet.now) 1 [] (reads_in sheet.now) ≡ 0) × (i < lines_in sheet.now) }
    ensures { (result ≡ tags_in (reads_in sheet.now) (refs_of (read_at sheet.now i))) × (result ≤ 16777472) }
{
    let l = sheet.line_at(i);
    let f = sheet.form_at(i);
    let mut w = form::begin(f);
    let mut count = 0;
    while w.at <= l.len() {
        let s = form::next(l, f, w);
        count += case_tags(sheet, s.letter, s.number);
        w = s.next;
    }
    count
}

// The records that line i, of kind k, declares.
fn records(sheet: &Sheet, i: usize, k: u8) -> usize
    requires { (bad_ref_from (reads_in sheet.now) 1 [] (reads_in sheet.now) ≡ 0) × (i < lines_in sheet.now) × (k ≡ letter (read_at sheet.now i).form.kind) }
    ensures { (result ≡ records_on (reads_in sheet.now) (read_at sheet.now i)) × (result ≤ 16777473) }
{
    match k {
        kind::ADT => 1,
        kind::PICK => 1 + tags(sheet, i),
        _ => 0,
    }
}

// The `var` names that it declares.
fn names(sheet: &Sheet, i: usize, k: u8) -> usize
    requires { (i < lines_in sheet.now) × (k ≡ letter (read_at sheet.now i).form.kind) }
    ensures { (result ≡ var_names (read_at sheet.now i)) × (result ≤ 65537) }
{
    if k == kind::VAR {
        sheet.number_at(i, 2)
    } else {
        0
    }
}

// The counts with those of line i.
fn count(sheet: &Sheet, i: usize, t: Tally) -> Tally
    requires { (bad_ref_from (reads_in sheet.now) 1 [] (reads_in sheet.now) ≡ 0) × (i < lines_in sheet.now) × (over_limits (counts_of t) ≡ false) }
    ensures { counts_of result ≡ added (reads_in sheet.now) (read_at sheet.now i) (counts_of t) }
{
    let k = form::kind(sheet.form_at(i));
    let r = records(sheet, i, k);
    let v = names(sheet, i, k);
    Tally {
        consts: t.consts + one(k, kind::CON),
        needs: t.needs + one(k, kind::NEED),
        frames: t.frames + one(k, kind::FRAME),
        records: t.records + r,
        names: t.names + v,
    }
}

fn is_over(t: Tally) -> bool
    ensures { result ≡ over_limits (counts_of t) }
{
    MOST_OF_A_KIND < t.consts
        || MOST_OF_A_KIND < t.needs
        || MOST_OF_A_KIND < t.frames
        || MOST_OF_A_KIND < t.records
        || MOST_NAMES < t.names
}

// Refused at the first line at which a count passes its bound.
pub fn too_many(sheet: &Sheet) -> Result<(), Refusal>
    requires { bad_ref_from (reads_in sheet.now) 1 [] (reads_in sheet.now) ≡ 0 }
    ensures { result ≡ first_line TooMany (too_many_from 1 no_counts (nodes_in sheet.now)) }
{
    let n = sheet.count();
    let mut t = Tally::default();
    for i in 0..n {
        t = count(sheet, i, t);
        if is_over(t) {
            return Err(Refusal::TooMany(i + 1));
        }
    }
    Ok(())
}
