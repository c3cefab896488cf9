// The table of constants: look-ups by name and by module and name, the newest entry first.
// All that it holds, its strings too, lies below the stack of folds: a working space needs these 49,152 bytes, and may have any more.
#![tactic(auto)]

ghost use Rattle.std.specs.Prelude.{◌≡◌, true, ◌&&◌, ℕ, ◌+◌, ◌≤◌, ◌<◌, eqb, length};
ghost use Rattle.semantics.specs.Text as Text;
ghost use Rattle.lines.specs.Lines.{lines_in};
ghost use Rattle.chains.specs.Chains.{newest_of, count_to, chain_of, digest_at, in_chain};
ghost use Rattle.implement.specs.Modules.{line_number, first_field};
ghost use Rattle.checks.specs.Checks.{Checked};
ghost use Rattle.names.specs.Table.{const_line_of, module_line_of, bits_of, kind_of, const_chains, qualified_digest, const_digest, key_of, key_digest, answers_key, newest_key, Looked, ConstTable, ConstEntry};

use chains::ChainPlaces;
use codes::area;
use lines::Sheet;

// What a constant is looked up by: its name, alone or within a module of a name.
#[derive(Clone, Copy)]
pub struct Key<'a> {
    pub within: Option<&'a [u8]>,
    pub name: &'a [u8],
}

// Where the table's chains stand.
pub const CHAINS: ChainPlaces = ChainPlaces {
    at: area::CONSTANTS + 13,
    gap: 1,
    step: area::CONSTANT,
};

// The `con` line of entry i.
pub fn line_of(work: &[u8], i: usize) -> usize
    requires { (i < 128) × (49152 ≤ length work.now) }
    ensures { result ≡ const_line_of work.now i }
{
    words::u16_at(work, area::CONSTANTS + area::CONSTANT * i)
}

// The line of its module, from 0.
pub fn module_line_of(work: &[u8], i: usize) -> Option<usize>
    requires { (i < 128) × (49152 ≤ length work.now) }
    ensures { line_number result ≡ module_line_of work.now i }
{
    words::u16_at(work, area::CONSTANTS + 2 + area::CONSTANT * i).checked_sub(1)
}

// The kind of its value, 0 where it failed.
pub fn slot_kind(work: &[u8], i: usize) -> u8
    requires { (i < 128) × (49152 ≤ length work.now) }
    ensures { result ≡ kind_of work.now i }
{
    work[area::CONSTANTS + 4 + area::CONSTANT * i]
}

// The bits of its value.
pub fn slot_bits(work: &[u8], i: usize) -> u64
    requires { (i < 128) × (49152 ≤ length work.now) }
    ensures { result ≡ bits_of work.now i }
{
    words::bits_at(work, area::CONSTANTS + 5 + area::CONSTANT * i)
}

// The digest for a module and a name. Many modules may have one name, so the module counts too, unless it is implemented: the names
// of that one are also plain.
fn qualified_digest(sheet: &Sheet, within: &[u8], name: &[u8]) -> usize
    requires { Checked sheet.now }
    ensures { (result ≡ qualified_digest sheet.now within.now name.now) × (result < 256) }
{
    let d = words::digest(name);
    if implement::is_implemented(sheet, within) {
        return d;
    }
    words::digest_on(d, within)
}

// The digest for a name in the module of line k, from 0.
pub fn const_digest(sheet: &Sheet, k: Option<usize>, name: &[u8]) -> usize
    requires { (Checked sheet.now) × (line_number k ≤ lines_in sheet.now) }
    ensures { (result ≡ const_digest sheet.now (line_number k) name.now) × (result < 256) }
{
    match k {
        None => words::digest(name),
        Some(i) => qualified_digest(sheet, sheet.field_at(i, 0), name),
    }
}

// The digest for a key.
fn key_digest(sheet: &Sheet, key: Key) -> usize
    requires { Checked sheet.now }
    ensures { result ≡ key_digest sheet.now (key_of key.entry) }
{
    match key.within {
        None => words::digest(key.name),
        Some(within) => qualified_digest(sheet, within, key.name),
    }
}

// Whether entry i has this digest and its constant this name.
fn has_name(sheet: &Sheet, work: &[u8], i: usize, name: &[u8], d: usize) -> bool
    requires { (ConstEntry sheet.now work.now i) × (49152 ≤ length work.now) }
    ensures { result ≡ eqb (digest_at work.now const_chains i) d && Text.same name.now (first_field sheet.now (const_line_of work.now i)) }
{
    // the line is looked at last
    chains::digest_at(work, CHAINS, i) == d && sheet.first_is(line_of(work, i) - 1, name)
}

// Whether entry i enters a constant by a key, which has the digest d.
fn answers(sheet: &Sheet, work: &[u8], i: usize, key: Key, d: usize) -> bool
    requires { (ConstEntry sheet.now work.now i) × (d ≡ key_digest sheet.now (key_of key)) × (49152 ≤ length work.now) }
    ensures { result ≡ answers_key sheet.now work.now i (key_of key.entry) }
{
    if !has_name(sheet, work, i, key.name, d) {
        return false;
    }
    match (key.within, module_line_of(work, i)) {
        (None, k) => implement::is_own(sheet, k),
        (Some(_), None) => false,
        (Some(within), Some(k)) => sheet.first_is(k, within),
    }
}

// `newest` is the newest of some first entries in the chain of the key's digest d; the answer is the newest of those first entries
// that enters a constant by the key.
fn along(
    sheet: &Sheet,
    work: &[u8],
    consts: usize,
    newest: Option<usize>,
    key: Key,
    d: usize,
) -> Option<usize>
    requires { (ConstTable sheet.now work.now consts) × (count_to newest ≤ consts) × (d ≡ key_digest sheet.now (key_of key)) × (49152 ≤ length work.now) }
    ensures { (m : ℕ) → m ≤ consts → newest ≡ newest_of (in_chain work.now const_chains (chain_of d)) m → result ≡ newest_key sheet.now work.now m (key_of key.entry) }
{
    let mut next = newest;
    while let Some(i) = next {
        if answers(sheet, work, i, key, d) {
            return Some(i);
        }
        next = chains::earlier(work, CHAINS, i);
    }
    None
}

// The entry of the newest constant of a key.
pub fn look_up(sheet: &Sheet, work: &[u8], consts: usize, key: Key) -> Option<usize>
    requires { (ConstTable sheet.now work.now consts) × (49152 ≤ length work.now) }
    ensures { Looked sheet.now work.now (key_of key.entry) consts result }
{
    let d = key_digest(sheet, key);
    let newest = chains::newest(work, CHAINS, consts, d);
    along(sheet, work, consts, newest, key, d)
}

// That of the newest constant before entry i of a key by which entry i enters one.
pub fn look_up_before(
    sheet: &Sheet,
    work: &[u8],
    consts: usize,
    i: usize,
    key: Key,
) -> Option<usize>
    requires { (ConstTable sheet.now work.now consts) × (i < consts) × (answers_key sheet.now work.now i (key_of key) ≡ true) × (49152 ≤ length work.now) }
    ensures { Looked sheet.now work.now (key_of key.entry) i result }
{
    let older = chains::earlier(work, CHAINS, i);
    let d = chains::digest_at(work, CHAINS, i);
    along(sheet, work, consts, older, key, d)
}
