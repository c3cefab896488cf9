// Fields of a record, in a list that is lent: where each lies, its size, and whether it is a pointer.
#![tactic(auto)]

ghost use Rattle.std.specs.Prelude.{◌≡◌, ◌+◌, ◌*◌, ◌^◌, ◌≤◌, ◌<◌, max, take};
ghost use Rattle.field_list.specs.Fields.{line_fields, furthest_in};

#[derive(Clone, Copy)]
pub struct Field {
    pub offset: u32,
    pub size: u32,
    pub pointer: bool,
}

// So many fields of one size, one behind the other, from `off` on, and none behind them. An `fd` line has at most 16.
pub fn line_fields(off: u32, size: u32, pointer: bool, count: usize) -> [Field; 16]
    requires { (count ≤ 16) × (off + count * size < 2 ^ 32) }
    ensures { result ≡ line_fields off size pointer count }
{
    let none = Field {
        offset: 0,
        size: 0,
        pointer: false,
    };
    let mut a = [none; 16];
    let mut at = off;
    for i in 0..count {
        a[i] = Field {
            offset: at,
            size,
            pointer,
        };
        at += size;
    }
    a
}

// The furthest end, with one field more.
fn further(end: u64, offset: u32, size: u32) -> u64
    ensures { result ≡ max end (offset + size) }
{
    end.max(u64::from(offset) + u64::from(size))
}

// The furthest end of a lent list of fields, or `end`, if none passes it.
pub fn furthest_end(end: u64, fields: &[Field]) -> u64
    ensures { result ≡ furthest_in end fields.now }
{
    let mut e = end;
    for f in fields {
        e = further(e, f.offset, f.size);
    }
    e
}

// The same of the first fields of an array, which are lent here.
pub fn furthest_of(end: u64, a: [Field; 16], count: usize) -> u64
    requires { count ≤ 16 }
    ensures { result ≡ furthest_in end (take count a) }
{
    furthest_end(end, &a[..count])
}
