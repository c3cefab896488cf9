// Refusal 6: modules.
#![tactic(auto)]

ghost use Rattle.std.specs.Prelude.{◌≡◌, false};
ghost use Rattle.semantics.specs.Refusal.{bad_module_from};
ghost use Rattle.lines.specs.Lines.{reads_in};
ghost use Rattle.answers.specs.Answers.{first_line};
ghost use Rattle.answers.specs.declared.Refusal.TheVariants.{BadModule};
ghost use Rattle.modules.specs.Modules.{wrong, opens};

use answers::Refusal;
use codes::kind;
use lines::Sheet;

#[tactic(auto, unfolding(crate::specs::Modules::wrong))]
// Whether a line of kind k may not stand here.
fn is_wrong(k: u8, inside: bool) -> bool
    ensures { result ≡ wrong k inside }
{
    match k {
        kind::MOD => inside,
        kind::END => !inside,
        _ => false,
    }
}

#[tactic(auto, unfolding(crate::specs::Modules::opens))]
// Whether a module is open behind it.
fn is_open(k: u8, inside: bool) -> bool
    ensures { result ≡ opens k inside }
{
    match k {
        kind::MOD => true,
        kind::END => false,
        _ => inside,
    }
}

// Refused at the first `mod` inside a module or `end` outside one, or else at the last line where a module is left open.
pub fn bad_module(sheet: &Sheet) -> Result<(), Refusal>
    ensures { result ≡ first_line BadModule (bad_module_from 1 false (reads_in sheet.now)) }
{
    let n = sheet.count();
    let mut inside = false;
    for i in 0..n {
        let k = form::kind(sheet.form_at(i));
        if is_wrong(k, inside) {
            return Err(Refusal::BadModule(i + 1));
        }
        inside = is_open(k, inside);
    }
    if inside {
        return Err(Refusal::BadModule(n));
    }
    Ok(())
}
