// The constants of a sheet, in their passes: one for each module in the sheet's order, then one for the top level.
#![tactic(auto)]

ghost use Rattle.std.specs.Prelude.{◌≡◌, ◌+◌, ◌<◌};
ghost use Rattle.lines.specs.Lines.{lines_in};
ghost use Rattle.checks.specs.Checks.{Checked, Kept};
ghost use Rattle.implement.specs.Modules.{line_number};
ghost use Rattle.consts.specs.Passes.{ConstLine, ConstantEntered, AtConstant, PassAt, Visits, Group, PassDone, PassesBefore, ModulePassed, Collects, left};

use answers::Refusal;
use codes::area::{self, Space};
use codes::kind;
use iota::IotaCounter;
use lines::Sheet;
use values::NoValue;

// A pass before line `line`, where the module of line `within` is open; both from 0.
#[derive(Clone, Copy)]
pub struct Pass {
    pub line: usize,
    pub within: Option<usize>,
    pub count: usize,
    pub iota: IotaCounter,
}

// The constant of line i in the module of line k, both from 0: folded, and entered behind those that are known. Refused
// where its string grows too long.
fn take_constant(
    sheet: &Sheet,
    work: &mut Space,
    consts: usize,
    k: Option<usize>,
    i: usize,
    iota: u32,
) -> Result<(), Refusal>
    requires { ConstLine sheet.now work.old consts (line_number k) i }
    ensures { (Kept 5120 work.old work.new) × (ConstantEntered sheet.now work.old work.new consts (line_number k) i iota result) }
{
    let r = sheet.number_at(i, 3);
    let name = sheet.field_at(i, 0);
    let d = names::const_digest(sheet, k, name);
    let within = implement::line_number(k);
    match fold::fold_const(sheet, work, consts, iota, r, area::STACK) {
        Ok(v) => {
            entries::enter(work, consts, i + 1, within, v, d);
            Ok(())
        }
        Err(NoValue::Failed) => {
            entries::enter_failed(work, consts, i + 1, within, d);
            Ok(())
        }
        Err(NoValue::LongString) => Err(Refusal::LongString(i + 1)),
    }
}

// The constant of the line at which a pass stands.
fn visit_constant(
    sheet: &Sheet,
    work: &mut Space,
    k: Option<usize>,
    p: Pass,
) -> Result<Pass, Refusal>
    requires { (PassAt sheet.now work.old (line_number k) p) × (AtConstant sheet.now (line_number k) p) }
    ensures { (Kept 5120 work.old work.new) × (Visits sheet.now work.old work.new (line_number k) p result) }
{
    let i = p.line;
    let counter = p.iota;
    let line = sheet.number_at(i, 1);
    let col = sheet.number_at(i, 2);
    let stepped = iota::advance(counter, line, col);
    let next = stepped.next;
    take_constant(sheet, work, p.count, k, i, stepped.value)?;
    Ok(Pass {
        line: i + 1,
        within: p.within,
        count: p.count + 1,
        iota: next,
    })
}

// One line of a pass over the constants of the module of line k, or of the top level.
fn visit(sheet: &Sheet, work: &mut Space, k: Option<usize>, p: Pass) -> Result<Pass, Refusal>
    requires { (PassAt sheet.now work.old (line_number k) p) × (p.line < lines_in sheet.now) }
    ensures { (Kept 5120 work.old work.new) × (Visits sheet.now work.old work.new (line_number k) p result) }
{
    let i = p.line;
    let within = p.within;
    let counter = p.iota;
    if form::kind(sheet.form_at(i)) != kind::CON {
        return Ok(Pass {
            line: i + 1,
            within: implement::open_after(sheet, i, within),
            count: p.count,
            iota: counter,
        });
    }
    if within == k {
        return visit_constant(sheet, work, k, p);
    }
    Ok(Pass {
        line: i + 1,
        within,
        count: p.count,
        iota: counter,
    })
}

// Whether the module of line k is left, where that of line `within` is open; the top level is never left.
fn is_left(k: Option<usize>, within: Option<usize>) -> bool
    ensures { result ≡ left (line_number k) (line_number within) }
{
    k.is_some() && within != k
}

// A pass, with entries from m on: from the line behind the one that opens the group to where the group is left.
fn pass_consts(
    sheet: &Sheet,
    work: &mut Space,
    m: usize,
    k: Option<usize>,
) -> Result<usize, Refusal>
    requires { Group sheet.now work.old m (line_number k) }
    ensures { (Kept 5120 work.old work.new) × (PassDone sheet.now work.old work.new m (line_number k) result) }
{
    let mut p = Pass {
        line: implement::line_number(k),
        within: k,
        count: m,
        iota: IotaCounter {
            started: false,
            line: 0,
            col: 0,
            value: 0,
        },
    };
    while p.line < sheet.count() {
        if is_left(k, p.within) {
            return Ok(p.count);
        }
        p = visit(sheet, work, k, p)?;
    }
    Ok(p.count)
}

// The pass of the module that line i, from 0, opens, if it opens one.
fn module_consts(sheet: &Sheet, work: &mut Space, m: usize, i: usize) -> Result<usize, Refusal>
    requires { (PassesBefore sheet.now work.old m i) × (i < lines_in sheet.now) }
    ensures { (Kept 5120 work.old work.new) × (ModulePassed sheet.now work.old work.new m i result) }
{
    if form::kind(sheet.form_at(i)) != kind::MOD {
        return Ok(m);
    }
    pass_consts(sheet, work, m, Some(i))
}

// All constants, into their table, and how many there are.
pub fn collect_consts(sheet: &Sheet, work: &mut Space) -> Result<usize, Refusal>
    requires { Checked sheet.now }
    ensures { (Kept 5120 work.old work.new) × (Collects sheet.now work.new result) }
{
    let mut m = 0;
    for i in 0..sheet.count() {
        m = module_consts(sheet, work, m, i)?;
    }
    pass_consts(sheet, work, m, None)
}
