// Entries of the table of constants.
#![tactic(auto)]

ghost use Rattle.std.specs.Prelude.{◌≡◌, ◌+◌, ◌*◌, ◌<◌};
ghost use Rattle.write.specs.Wrote.{over};
ghost use Rattle.chains.specs.Chains.{linked};
ghost use Rattle.names.specs.Table.{const_chains};
ghost use Rattle.values.specs.Values.{kind_for, bits_for, InRange, At};
ghost use Rattle.entries.specs.Entering.{entry_of, moved_to, string_of, EntryRoom};

use codes::area::{self, Space};
use codes::value;
use names::CHAINS;
use values::{ConstVal, LONGEST_STRING};
use write::Writer;

// The bytes of entry m: a `con` line, its module's line, a slot, and a digest.
fn put_bytes(work: &mut Space, m: usize, line: usize, within: usize, kind: u8, bits: u64, d: usize)
    requires { (EntryRoom m line within) × (d < 256) }
    ensures { work.new ≡ over work.old (5120 + 16 * m) (entry_of line within kind bits d) }
{
    let mut w = Writer::from(work, area::CONSTANTS + area::CONSTANT * m);
    w.put((line % 256) as u8);
    w.put((line / 256) as u8);
    w.put((within % 256) as u8);
    w.put((within / 256) as u8);
    w.put(kind);
    words::put_bits(&mut w, bits);
    w.put(d as u8);
}

// Entry m, chained by the digest.
fn put_entry(work: &mut Space, m: usize, line: usize, within: usize, kind: u8, bits: u64, d: usize)
    requires { (EntryRoom m line within) × (d < 256) }
    ensures { work.new ≡ linked (over work.old (5120 + 16 * m) (entry_of line within kind bits d)) const_chains m }
{
    put_bytes(work, m, line, within, kind, bits, d);
    chains::link(work, CHAINS, m);
}

// A value's string, copied from the stack of folds to where entry m keeps its own; the value is the same with the string there.
fn keep_string(work: &mut Space, v: ConstVal, m: usize) -> ConstVal
    requires { (m < 128) × (At 49152 v) }
    ensures { (work.new ≡ over work.old (16384 + 256 * m) (string_of work.old v)) × (result ≡ moved_to (16384 + 256 * m) v) }
{
    match v {
        ConstVal::Int(_) => v,
        ConstVal::Real(_) => v,
        ConstVal::Str(p, l) => {
            let place = area::STRINGS + LONGEST_STRING * m;
            values::copy(work, p, place, l);
            ConstVal::Str(place, l)
        }
    }
}

// A constant that has a value; d is its digest.
pub fn enter(work: &mut Space, m: usize, line: usize, within: usize, v: ConstVal, d: usize)
    requires { (EntryRoom m line within) × (At 49152 v) × (d < 256) }
    ensures { (work.new ≡ linked (over (over work.old (16384 + 256 * m) (string_of work.old v)) (5120 + 16 * m) (entry_of line within (kind_for v) (bits_for (moved_to (16384 + 256 * m) v)) d)) const_chains m) × (InRange v) }
{
    let kept = keep_string(work, v, m);
    let bits = values::bits_of(kept);
    let kind = value::number(values::kind_of(kept));
    put_entry(work, m, line, within, kind, bits, d);
}

// One that failed.
pub fn enter_failed(work: &mut Space, m: usize, line: usize, within: usize, d: usize)
    requires { (EntryRoom m line within) × (d < 256) }
    ensures { work.new ≡ linked (over work.old (5120 + 16 * m) (entry_of line within 0 0 d)) const_chains m }
{
    put_entry(work, m, line, within, 0, 0, d);
}
