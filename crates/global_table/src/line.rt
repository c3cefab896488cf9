// The fields of a `var` line: its type and its names.
ghost use Rattle.std.specs.Prelude.{◌≡◌, ◌≤◌, ◌<◌, length};
ghost use Rattle.semantics.specs.Text.{bytes, same};
ghost use Rattle.sizes.specs.Sizes.{type_at, TypeLine};
ghost use Rattle.global_table.specs.Table.{VarLine, name_on, type_on, names_on};

use lines::Sheet;

// The line of its type.
pub fn type_of(sheet: &Sheet, r: usize) -> usize
    requires { VarLine sheet.now r }
    ensures { (TypeLine sheet.now result) × (type_at sheet.now result ≡ type_on sheet.now r) }
{
    sheet.number_at(r - 1, 0)
}

// How many names it has.
pub fn name_count(sheet: &Sheet, r: usize) -> usize
    requires { VarLine sheet.now r }
    ensures { (result ≡ length (names_on sheet.now r)) × (result ≤ 16) }
{
    sheet.number_at(r - 1, 2)
}

// Its name j, from 0.
pub fn name_at<'a>(sheet: &Sheet<'a>, r: usize, j: usize) -> &'a [u8]
    requires { (VarLine sheet.now r) × (j < 256) }
    ensures { result.now ≡ name_on sheet.now r j }
{
    sheet.field_at(r - 1, 3 + j)
}

// Whether a name is `nil`, which is not laid out.
pub fn is_nil(name: &[u8]) -> bool
    ensures { result ≡ same name.now (bytes "nil") }
{
    words::same(name, b"nil")
}
