// `frame` lines.
ghost use Rattle.std.specs.Prelude.{◌≡◌, ◌≤◌, ◌<◌, eqb, length};
ghost use Rattle.semantics.specs.Form.{letter};
ghost use Rattle.semantics.specs.Sheet.{sheet_source};
ghost use Rattle.lines.specs.Lines.{lines_in, read_at, nodes_in};
ghost use Rattle.source.specs.Walk.{declares_at};
ghost use Rattle.checks.specs.Checks.{Checked};

use codes::kind;
use lines::Sheet;

// Whether line i is a `frame` line.
pub fn is_frame(sheet: &Sheet, i: usize) -> bool
    requires { (Checked sheet.now) × (i < lines_in sheet.now) }
    ensures { result ≡ eqb (letter (read_at sheet.now i).form.kind) 71 }
{
    form::kind(sheet.form_at(i)) == kind::FRAME
}

// How many frames line i declares.
fn frames_of(sheet: &Sheet, i: usize) -> usize
    requires { (Checked sheet.now) × (i < lines_in sheet.now) }
    ensures { result ≡ length (declares_at (nodes_in sheet.now) i).frames }
{
    usize::from(is_frame(sheet, i))
}

// How many `frame` lines there are.
pub fn frame_count(sheet: &Sheet) -> usize
    requires { Checked sheet.now }
    ensures { (result ≡ length (sheet_source sheet.now).frames) × (result ≤ 128) }
{
    let mut frames = 0;
    for i in 0..sheet.count() {
        frames += frames_of(sheet, i);
    }
    frames
}
