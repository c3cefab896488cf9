// The `pend` rows of globals, and the refusals of their first values.
#![tactic(auto)]

ghost use Rattle.std.specs.Prelude.{◌≡◌, [], ◌∷◌, IfSome, option_map};
ghost use Rattle.semantics.specs.Sheet.{concat_map};
ghost use Rattle.semantics.specs.Global.{laid_names};
ghost use Rattle.semantics.specs.Listing.{pend_row};
ghost use Rattle.write.specs.Writes.{Writes};
ghost use Rattle.answers.specs.Answers.{refusal_of};
ghost use Rattle.names.specs.Table.{ConstsLogged, ConstTable, names_in};
ghost use Rattle.placements.specs.Placements.{Keeps};
ghost use Rattle.global_table.specs.Table.{VarLine, names_on};
ghost use Rattle.globals.specs.Vars.{laid_on};
ghost use Rattle.pends.specs.Pends.{refused_as, Pended, AllPended};

use answers::Refusal;
use arrays::NoItem;
use codes::area::Space;
use global_table::line;
use lines::Sheet;
use vars::var_value;
use write::Writer;

// The refusal at a line, none where the value is left pending.
fn refusal(e: NoItem, line: usize) -> Option<Refusal>
    ensures { option_map refusal_of result ≡ refused_as e line }
{
    match e {
        NoItem::Pending => None,
        NoItem::LongString => Some(Refusal::LongString(line)),
        NoItem::LongAlloc => Some(Refusal::LongAlloc(line)),
        NoItem::NegativeAlloc => Some(Refusal::NegativeAlloc(line)),
        NoItem::OutsideLiteral => Some(Refusal::OutsideLiteral(line)),
        NoItem::LongLiteral => Some(Refusal::LongLiteral(line)),
    }
}

// The row of a name; `nil` has none.
fn pend_name(name: &[u8], w: &mut Writer)
    ensures { Writes w.old (concat_map pend_row (laid_names (name.now ∷ []))) w.new }
{
    if line::is_nil(name) {
        return;
    }
    rows::pending(w, name);
}

// The rows of all names of line r.
fn pend_names(sheet: &Sheet, r: usize, w: &mut Writer)
    requires { VarLine sheet.now r }
    ensures { Writes w.old (concat_map pend_row (laid_names (names_on sheet.now r))) w.new }
{
    let count = line::name_count(sheet, r);
    for j in 0..count {
        pend_name(line::name_at(sheet, r, j), w);
    }
}

// The rows of the `var` line r, one for each name where its value is pending.
fn pend_line(
    sheet: &Sheet,
    work: &mut Space,
    consts: usize,
    r: Option<usize>,
    w: &mut Writer,
) -> Result<(), Refusal>
    requires { (IfSome r (VarLine sheet.now)) × (ConstsLogged sheet.now work.old consts) }
    ensures { (Pended (names_in sheet.now work.old consts) (laid_on sheet.now r) w.old result w.new) × (Keeps 16384 49152 work.old work.new) }
{
    let Some(r) = r else {
        return Ok(());
    };
    let Err(e) = var_value(sheet, work, consts, r) else {
        return Ok(());
    };
    if let Some(q) = refusal(e, r) {
        return Err(q);
    }
    pend_names(sheet, r, w);
    Ok(())
}

// The rows of all lines, up to the first that is refused. Work goes on where the listing is full.
pub fn pend_rows(
    sheet: &Sheet,
    work: &mut Space,
    consts: usize,
    w: &mut Writer,
) -> Result<(), Refusal>
    requires { ConstTable sheet.now work.old consts }
    ensures { (AllPended (names_in sheet.now work.old consts) sheet.now w.old result w.new) × (Keeps 16384 49152 work.old work.new) }
{
    let mut k = None;
    for i in 0..sheet.count() {
        let r = globals::laid_line(sheet, i, k);
        pend_line(sheet, work, consts, r, w)?;
        k = implement::open_after(sheet, i, k);
    }
    Ok(())
}
