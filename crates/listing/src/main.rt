// Reads a sheet from standard input and prints its listing, or `no`, the refusal's number and its line. One byte more is read than a
// sheet may have, so that a longer one is refused.
#![tactic(auto)]

ghost use Rattle.std.specs.Prelude.{◌≡◌, ◌≤◌, length, take};
ghost use Rattle.semantics.specs.Refusal.{compiled, printed};

use std::io;
use std::io::{Read, Write};
use write::Writer;

// The bytes that are read at most, and those of each buffer.
const BYTES: usize = 65536;

// Puts what is to be printed at the start of `out`, and answers its length.
fn put_answer(sheet: &[u8], out: &mut [u8], work: &mut [u8]) -> usize
    requires { 64 ≤ length out.old }
    ensures { (result ≤ length out.new) × (take result out.new ≡ printed (compiled (length out.old) (length work.old) sheet.now)) }
{
    match compile::compile(sheet, out, work) {
        Ok(n) => n,
        Err(r) => {
            let mut w = Writer::from(out, 0);
            answers::put_refusal(&mut w, r);
            w.at
        }
    }
}

fn main(rt: HostRuntime) -> io::Result<()> {
    let mut sheet = Vec::new(rt.alloc());
    rt.stdin().take(BYTES as u64).read_to_end(&mut sheet)?;
    let mut out = vec![in rt.alloc(); 0u8; BYTES]?;
    let mut work = vec![in rt.alloc(); 0u8; BYTES]?;
    let k = put_answer(&sheet, &mut out, &mut work);
    rt.stdout().write_all(&out[..k])
}
