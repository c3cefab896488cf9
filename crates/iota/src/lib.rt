// The iota counter: a struct that its caller lends, and that each constant of a pass moves on.
#![tactic(auto)]

ghost use Rattle.std.specs.Prelude.{◌≡◌, ◌+◌};
ghost use Rattle.semantics.specs.Const.{iota_at};
ghost use Rattle.iota.specs.Iota.{counter_of, capped_count, moved_of, stepped_of};

// LINE and COL of the previous constant, and the next value of `iota` there.
#[derive(Clone, Copy)]
pub struct IotaCounter {
    pub started: bool,
    pub line: usize,
    pub col: usize,
    pub value: u32,
}

// The value of `iota` at a constant, and the counter moved on.
#[derive(Clone, Copy)]
pub struct Stepped {
    pub value: u32,
    pub next: IotaCounter,
}

// `iota` at a constant: 0 where LINE or COL differs from the previous one's.
fn value_at(c: IotaCounter, line: usize, col: usize) -> u32
    ensures { result ≡ iota_at line col (counter_of c) }
{
    if c.started && line == c.line && col == c.col {
        c.value
    } else {
        0
    }
}

// The count behind v, which stays at the greatest.
#[tactic(auto, using(crate::proofs::Counter::capped_is))]
fn behind(v: u32) -> u32
    ensures { result ≡ capped_count (v + 1) }
{
    v.saturating_add(1)
}

// The step by value.
fn step(c: IotaCounter, line: usize, col: usize) -> Stepped
    ensures { result ≡ stepped_of c line col }
{
    let value = value_at(c, line, col);
    Stepped {
        value,
        next: IotaCounter {
            started: true,
            line,
            col,
            value: behind(value),
        },
    }
}

impl IotaCounter {
    // The value of `iota` at a constant; the lent counter is moved on.
    pub fn next(&mut self, line: usize, col: usize) -> u32
        ensures { (result ≡ iota_at line col (counter_of self.old)) × (self.new ≡ moved_of self.old line col) }
    {
        let s = step(*self, line, col);
        *self = s.next;
        s.value
    }
}

// The same for callers that hold the counter by value: it is lent here, and given back.
pub fn advance(c: IotaCounter, line: usize, col: usize) -> Stepped
    ensures { result ≡ stepped_of c line col }
{
    let mut k = c;
    let value = k.next(line, col);
    Stepped { value, next: k }
}
