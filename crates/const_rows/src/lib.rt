// Rows of the listing for constants: all M->NAME, then all plain names, each in the order of first insertion with its last value.
#![tactic(auto)]

ghost use Rattle.std.specs.Prelude.{◌≡◌, true, ◌<◌};
ghost use Rattle.semantics.specs.Listing.{row, key_text, value_fields, const_row, const_rows};
ghost use Rattle.write.specs.Writes.{Writes};
ghost use Rattle.names.specs.Table.{found, log_in, key_of, answers_key, ConstTable, Answered};
ghost use Rattle.const_rows.specs.Rows.{new_part, rows_to, entry_rows};

use codes::area::Space;
use codes::value::{self, Value};
use lines::Sheet;
use names::Key;
use write::Writer;

// The fields of the value that a look-up found, to the row's end.
fn put_value(work: &Space, w: &mut Writer, r: Option<usize>)
    requires { Answered work.now r }
    ensures { Writes w.old (row (value_fields (found work.now r))) w.new }
{
    let Some(i) = r else {
        w.put_part(b"x\n");
        return;
    };
    let b = names::slot_bits(work, i);
    match value::of_number(names::slot_kind(work, i)) {
        Some(Value::Int) => {
            w.put_part(b"i,");
            w.put_int(ints::of_bits(b));
            w.put(b'\n');
        }
        Some(Value::Real) => {
            w.put_part(b"r,");
            w.put_hex_bits(reals::bits(reals::of_bits(b))); // one pattern for every NaN
            w.put(b'\n');
        }
        Some(Value::Str) => {
            let a = (b % 65536) as usize;
            let e = a + (b / 65536) as usize;
            w.put_part(b"s,");
            w.put_hex(&work[a..e]);
            w.put(b'\n');
        }
        None => w.put_part(b"x\n"),
    }
}

// A key as it is shown.
fn put_key(w: &mut Writer, key: Key)
    ensures { Writes w.old (key_text (key_of key.entry)) w.new }
{
    if let Some(within) = key.within {
        w.put_part(within);
        w.put_part(b"->");
    }
    w.put_part(key.name);
}

// The row of a key.
fn key_row(sheet: &Sheet, work: &Space, consts: usize, w: &mut Writer, key: Key)
    requires { ConstTable sheet.now work.now consts }
    ensures { Writes w.old (const_row (log_in sheet.now work.now consts) (key_of key.entry)) w.new }
{
    let r = names::look_up(sheet, work, consts, key);
    w.put_part(b"con,");
    put_key(w, key);
    w.put(b',');
    put_value(work, w, r);
}

// The row of a key by which entry i enters its constant, where no entry before it has the key.
fn new_row(sheet: &Sheet, work: &Space, consts: usize, w: &mut Writer, i: usize, key: Key)
    requires { (ConstTable sheet.now work.now consts) × (i < consts) × (answers_key sheet.now work.now i (key_of key) ≡ true) }
    ensures { Writes w.old (new_part sheet.now work.now consts i (key_of key.entry)) w.new }
{
    if names::look_up_before(sheet, work, consts, i, key).is_some() {
        return; // it stands already
    }
    key_row(sheet, work, consts, w, key);
}

// The row that entry i adds among the plain names, or among M->NAME, if it adds one.
fn entry_row(sheet: &Sheet, work: &Space, consts: usize, w: &mut Writer, i: usize, plain: bool)
    requires { (ConstTable sheet.now work.now consts) × (i < consts) }
    ensures { Writes w.old (entry_rows plain sheet.now work.now consts i) w.new }
{
    let module = names::module_line_of(work, i);
    let name = sheet.field_at(names::line_of(work, i) - 1, 0);
    if plain {
        if implement::is_own(sheet, module) {
            new_row(sheet, work, consts, w, i, Key { within: None, name });
        }
    } else if let Some(k) = module {
        let within = Some(sheet.field_at(k, 0));
        new_row(sheet, work, consts, w, i, Key { within, name });
    }
}

// All of them.
fn rows(sheet: &Sheet, work: &Space, consts: usize, w: &mut Writer, plain: bool)
    requires { ConstTable sheet.now work.now consts }
    ensures { Writes w.old (rows_to plain sheet.now work.now consts consts) w.new }
{
    for i in 0..consts {
        entry_row(sheet, work, consts, w, i, plain);
    }
}

pub fn const_rows(sheet: &Sheet, work: &Space, consts: usize, w: &mut Writer)
    requires { ConstTable sheet.now work.now consts }
    ensures { Writes w.old (const_rows (log_in sheet.now work.now consts)) w.new }
{
    rows(sheet, work, consts, w, false);
    rows(sheet, work, consts, w, true);
}
