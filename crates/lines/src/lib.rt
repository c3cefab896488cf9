// The lines of a sheet: their forms, and a table of them.
#![tactic(auto)]

ghost use Rattle.std.specs.Prelude.{◌≡◌, ◌+◌, ◌≤◌, ◌<◌, [], length, get_or};
ghost use Rattle.semantics.specs.Text.{Bytes, same};
ghost use Rattle.decimal.specs.Number.{number_up_to};
ghost use Rattle.form.specs.Table.{row_count};
ghost use Rattle.lines.specs.Lines.{text_at, read_at, form_at, lines_in, start, form_kept, line_entered, Whole, Indexed, Passed};

use answers::Refusal;
use std::marker::Model;

const MOST_LINES: usize = 1024;

const HIGH: usize = 1024;

const FORMS: usize = 2048;

// The bytes of the table: for each line where it starts, low and high byte, and its form.
pub const TABLE: usize = 3072;

// A sheet whose lines have forms, with the table of them and how many there are.
#[derive(Drop)]
pub struct Sheet<'a> {
    text: &'a [u8],
    table: &'a [u8; TABLE],
    count: usize,
}

impl<'a> Model for Sheet<'a> {
    ghost Value = { Bytes };

    ghost view = { λ s. s.text.now };

    ghost invariant = { λ s. Indexed s.text.now s.table.now s.count };
}

#[tactic(auto, unfolding(crate::specs::Lines::line_entered))]
// Line i starts at `at` and has form f.
fn enter(table: &mut [u8; TABLE], i: usize, at: usize, f: usize)
    requires { (i < 1024) × (at < 65536) × (f < 256) }
    ensures { table.new ≡ line_entered table.old i at f }
{
    table[i] = (at % 256) as u8;
    table[HIGH + i] = (at / 256) as u8;
    table[FORMS + i] = f as u8;
}

#[tactic(auto, unfolding(crate::specs::Lines::start))]
// Where line i starts.
fn start_of(table: &[u8; TABLE], i: usize) -> usize
    requires { i < 1024 }
    ensures { result ≡ start table.now i }
{
    usize::from(table[i]) + 256 * usize::from(table[HIGH + i])
}

#[tactic(auto, unfolding(crate::specs::Lines::form_kept))]
// The form of line i, as the table keeps it.
pub fn form_of(table: &[u8; TABLE], i: usize) -> usize
    requires { i < 1024 }
    ensures { result ≡ form_kept table.now i }
{
    usize::from(table[FORMS + i])
}

// The forms of all lines into the table, and how many lines there are; refused at the first that has no form.
pub fn index(text: &[u8], table: &mut [u8; TABLE]) -> Result<usize, Refusal>
    requires { length text.now ≤ 65535 }
    ensures { Passed text.now table.new result }
{
    let mut at = 0;
    let mut n = 0;
    loop {
        let e = text::find(text, at, b'\n');
        if e == text.len() {
            if at == e {
                return Ok(n);
            }
            return Err(Refusal::NoForm(n + 1));
        }
        if n == MOST_LINES {
            return Err(Refusal::NoForm(n + 1));
        }
        let Some(f) = form::form_of(&text[at..e], n + 1) else {
            return Err(Refusal::NoForm(n + 1));
        };
        enter(table, n, at, f);
        n += 1;
        at = e + 1;
    }
}

impl<'a> Sheet<'a> {
    // A sheet with its table.
    pub fn of(text: &'a [u8], table: &'a [u8; TABLE], count: usize) -> Sheet<'a>
        requires { Indexed text.now table.now count }
        ensures { (result ≡ text.now) × Whole text.now }
    {
        Sheet { text, table, count }
    }

    // How many lines there are.
    pub fn count(&self) -> usize
        ensures { (result ≡ lines_in self.now) × Whole self.now }
    {
        self.count
    }

    // The form of line i, from 0.
    pub fn form_at(&self, i: usize) -> usize
        requires { i < lines_in self.now }
        ensures { (result ≡ form_at self.now i) × (result < row_count) × Whole self.now }
    {
        form_of(self.table, i)
    }

    // The bytes of line i, from 0, as that part of the sheet.
    pub fn line_at(&self, i: usize) -> &'a [u8]
        requires { i < lines_in self.now }
        ensures { (result.now ≡ text_at self.now i) × Whole self.now }
    {
        let a = start_of(self.table, i);
        if i + 1 < self.count {
            let b = start_of(self.table, i + 1); // behind this line's LF
            return &self.text[a..b - 1];
        }
        let e = text::find(self.text, a, b'\n');
        &self.text[a..e]
    }

    // Field j of line i behind its keywords, as that part of the line; empty where there is none.
    pub fn field_at(&self, i: usize, j: usize) -> &'a [u8]
        requires { i < lines_in self.now }
        ensures { (result.now ≡ get_or (read_at self.now i).fields j []) × Whole self.now }
    {
        form::field(self.line_at(i), self.form_at(i), j)
    }

    // Whether field 0 is this text, without looking for the field's end.
    pub fn first_is(&self, i: usize, name: &[u8]) -> bool
        requires { i < lines_in self.now }
        ensures { result ≡ same name.now (get_or (read_at self.now i).fields 0 []) }
    {
        form::first_is(self.line_at(i), self.form_at(i), name)
    }

    // The field as a number: 65536 where it is larger, 65537 where it is none.
    pub fn number_at(&self, i: usize, j: usize) -> usize
        requires { i < lines_in self.now }
        ensures { (result ≡ number_up_to 65536 (get_or (read_at self.now i).fields j [])) × (result ≤ 65537) × Whole self.now }
    {
        form::number(self.field_at(i, j))
    }
}
