// The lines of records and of cases: names and tags.
ghost use Rattle.std.specs.Prelude.{◌≡◌, [], ◌≤◌, ◌<◌, length, get_or};
ghost use Rattle.sizes.specs.Places.{decl_at, RecordLine, CaseLine};
ghost use Rattle.records.specs.Lines.{case_at};

use lines::Sheet;

// T, of the `adt` or `pick` line r.
pub fn record_name<'a>(sheet: &Sheet<'a>, r: usize) -> &'a [u8]
    requires { RecordLine sheet.now r }
    ensures { result.now ≡ (decl_at sheet.now r).name }
{
    sheet.field_at(r - 1, 0)
}

// How many tags the `pc` line v has.
pub fn tag_count(sheet: &Sheet, v: usize) -> usize
    requires { CaseLine sheet.now v }
    ensures { (result ≡ length (case_at sheet.now v).tags) × (result ≤ 16) }
{
    sheet.number_at(v - 1, 0)
}

// Its tag p, from 0.
pub fn tag_at<'a>(sheet: &Sheet<'a>, v: usize, p: usize) -> &'a [u8]
    requires { (CaseLine sheet.now v) × (p < length (case_at sheet.now v).tags) }
    ensures { result.now ≡ get_or (case_at sheet.now v).tags p [] }
{
    sheet.field_at(v - 1, 1 + p)
}
