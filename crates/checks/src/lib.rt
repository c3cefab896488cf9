// Refusals 1 to 7, one after the other.
#![tactic(auto)]

ghost use Rattle.std.specs.Prelude.{◌≡◌, ◌≤◌, length};
ghost use Rattle.semantics.specs.Text.{line_parts};
ghost use Rattle.semantics.specs.Refusal.{Outcome, checked, tested, zeros};
ghost use Rattle.checks.specs.Checks.{settled, Passes, PassesChecks, CheckedTable};

use answers::Refusal;
use codes::area::{SPACE, Space};
use lines::{Sheet, TABLE};

const LONGEST_SHEET: usize = 65535;

const LEAST_WORK: usize = 65536;

// Refusals 3 to 7, in a working space of zeros.
fn rules(text: &[u8], table: &mut [u8; TABLE], work: &mut Space) -> Result<usize, Refusal>
    requires { (length text.now ≤ 65535) × (work.old ≡ zeros 62464) }
    ensures { ((o : Outcome) → checked (line_parts text.now) o ≡ settled result o) × (Passes text.now table.new result) }
{
    let n = lines::index(text, table)?;
    let sheet = Sheet::of(text, table, n);
    refs::bad_ref(&sheet, work)?;
    nesting::too_deep(&sheet, work)?;
    modules::bad_module(&sheet)?;
    counts::too_many(&sheet)?;
    Ok(n)
}

// The same, where 1 and 2 do not refuse, with the table in front of the working space.
fn tests(text: &[u8], work: &mut [u8]) -> Result<usize, Refusal>
    requires { (length text.now ≤ 65535) × (65536 ≤ length work.old) × (work.old ≡ zeros (length work.old)) }
    ensures { ((o : Outcome) → tested (length work.old) text.now o ≡ settled result o) × (PassesChecks text.now (length work.old) work.new result) }
{
    let (table, rest) = work.split_first_chunk_mut::<TABLE>().unwrap();
    let space = rest.first_chunk_mut::<SPACE>().unwrap();
    rules(text, table, space)
}

// The number of lines of a sheet that passes, with the table of them in the working space; or its refusal, and zeros there. Where
// 1 or 2 refuses, nothing was written over them.
pub fn check(text: &[u8], work: &mut [u8]) -> Result<usize, Refusal>
    ensures { ((o : Outcome) → tested (length work.old) text.now o ≡ settled result o) × (CheckedTable text.now (length work.old) work.new result) }
{
    write::zero(work);
    if LONGEST_SHEET < text.len() {
        return Err(Refusal::LongSheet);
    }
    if work.len() < LEAST_WORK {
        return Err(Refusal::SmallSpace);
    }
    let result = tests(text, work);
    if result.is_err() {
        write::zero(work);
    }
    result
}
