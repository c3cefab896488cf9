// Compiling: a sheet to its listing, or a refusal.
#![tactic(auto)]

ghost use Rattle.std.specs.Prelude.{◌≡◌, length, Ok};
ghost use Rattle.semantics.specs.Sheet.{sheet_source};
ghost use Rattle.semantics.specs.Refusal.{Outcome, zeros, worked, tested, compiled};
ghost use Rattle.checks.specs.Checks.{Passes, PassesChecks};
ghost use Rattle.compile.specs.Compile.{Lists, Tries, TableStands, RowsPut, Compiles};
ghost use Rattle.parts.specs.Parts.{Listable};

use answers::Refusal;
use codes::area::{SPACE, Space};
use lines::{Sheet, TABLE};
use tables::Tables;
use write::Writer;

// What stands before the working space is zeroed: the listing's length, and where allocation ends.
#[derive(Clone, Copy)]
pub struct Listed {
    pub length: usize,
    pub end: u32,
}

// All rows, where the constants are not refused. 8 to 12 come before 13: first values are looked at also where the listing is already
// full.
fn put_rows(sheet: &Sheet, work: &mut Space, x: Tables, w: &mut Writer) -> Result<(), Refusal>
    requires { Listable sheet.now work.old x }
    ensures { RowsPut sheet.now w.old w.new result }
{
    parts::put_declared(sheet, work, x, w);
    pends::pend_rows(sheet, work, x.consts, w)?;
    parts::put_types(sheet, work, x, w);
    Ok(())
}

// The listing, where the constants are not refused.
fn list_rows(
    sheet: &Sheet,
    listing: &mut [u8],
    work: &mut Space,
    x: Tables,
) -> Result<Listed, Refusal>
    requires { (Listable sheet.now work.old x) × (listing.old ≡ zeros (length listing.old)) }
    ensures { Tries sheet.now (worked (length listing.old) (sheet_source sheet.now)) (length listing.old) result listing.new }
{
    let room = listing.len();
    let mut w = Writer {
        out: listing,
        at: 0,
    };
    put_rows(sheet, work, x, &mut w)?;
    let length = w.at;
    if room < length {
        return Err(Refusal::Outgrown);
    }
    Ok(Listed { length, end: x.end })
}

// The listing of a checked sheet of n lines, of which this is the table.
fn list_checked(
    text: &[u8],
    listing: &mut [u8],
    table: &[u8; TABLE],
    n: usize,
    work: &mut Space,
) -> Result<Listed, Refusal>
    requires { (listing.old ≡ zeros (length listing.old)) × (Passes text.now table.now (Ok n)) }
    ensures { Tries text.now (worked (length listing.old) (sheet_source text.now)) (length listing.old) result listing.new }
{
    let sheet = Sheet::of(text, table, n);
    let x = tables::make_tables(&sheet, work)?;
    list_rows(&sheet, listing, work, x)
}

// The listing of a sheet of n lines that passes the checks, where it was zeros; the rows written before a refusal still stand.
fn list_sheet(text: &[u8], listing: &mut [u8], work: &mut [u8], n: usize) -> Result<Listed, Refusal>
    requires { (listing.old ≡ zeros (length listing.old)) × ((o : Outcome) → tested (length work.old) text.now o ≡ o) × (PassesChecks text.now (length work.old) work.old (Ok n)) }
    ensures { (Tries text.now (compiled (length listing.old) (length work.old) text.now) (length listing.old) result listing.new) × (TableStands text.now (length work.old) work.new result) }
{
    let (table, rest) = work.split_first_chunk_mut::<TABLE>().unwrap();
    let space = rest.first_chunk_mut::<SPACE>().unwrap();
    list_checked(text, listing, table, n, space)
}

// The listing of any sheet, while the working space still has the tables; zeros in both where the sheet is refused. Where the
// checks refuse, both are zeros already.
pub fn list(sheet: &[u8], listing: &mut [u8], work: &mut [u8]) -> Result<Listed, Refusal>
    ensures { Lists sheet.now (length listing.old) (length work.old) result listing.new work.new }
{
    write::zero(listing);
    let n = checks::check(sheet, work)?;
    let result = list_sheet(sheet, listing, work, n);
    if result.is_err() {
        write::zero(listing);
        write::zero(work);
    }
    result
}

// The listing's length, with zeros behind it, or zeros and the refusal; the working space is zero in any case.
pub fn compile(sheet: &[u8], listing: &mut [u8], work: &mut [u8]) -> Result<usize, Refusal>
    ensures { Compiles sheet.now (length listing.old) (length work.old) result listing.new work.new }
{
    let result = list(sheet, listing, work);
    write::zero(work); // the tables, where the sheet is listed
    Ok(result?.length)
}
