// The refusals of 01, their numbers and lines, and the row that a program prints for one.
#![tactic(auto)]

ghost use Rattle.std.specs.Prelude.{◌≡◌, ◌≤◌, length};
ghost use Rattle.semantics.specs.Refusal.{refused, printed};
ghost use Rattle.write.specs.Writes.{Writes};
ghost use Rattle.answers.specs.Answers.{refusal_number, refusal_line, RefusalAt};

use write::Writer;

// One case for each of the thirteen, in their order, with its line, from 1, where it has one.
#[derive(Clone, Copy, Debug, PartialEq, Eq)]
pub enum Refusal {
    LongSheet,
    SmallSpace,
    NoForm(usize),
    BadReference(usize),
    DeepNesting(usize),
    BadModule(usize),
    TooMany(usize),
    LongString(usize),
    LongAlloc(usize),
    NegativeAlloc(usize),
    OutsideLiteral(usize),
    LongLiteral(usize),
    Outgrown,
}

impl Refusal {
    // 01's number.
    pub fn number(self) -> u8
        ensures { result ≡ refusal_number self }
    {
        match self {
            Refusal::LongSheet => 1,
            Refusal::SmallSpace => 2,
            Refusal::NoForm(_) => 3,
            Refusal::BadReference(_) => 4,
            Refusal::DeepNesting(_) => 5,
            Refusal::BadModule(_) => 6,
            Refusal::TooMany(_) => 7,
            Refusal::LongString(_) => 8,
            Refusal::LongAlloc(_) => 9,
            Refusal::NegativeAlloc(_) => 10,
            Refusal::OutsideLiteral(_) => 11,
            Refusal::LongLiteral(_) => 12,
            Refusal::Outgrown => 13,
        }
    }

    // Its line, from 1; 0 where it has none.
    pub fn line(self) -> usize
        ensures { result ≡ refusal_line self }
    {
        match self {
            Refusal::LongSheet | Refusal::SmallSpace | Refusal::Outgrown => 0,
            Refusal::NoForm(k)
            | Refusal::BadReference(k)
            | Refusal::DeepNesting(k)
            | Refusal::BadModule(k)
            | Refusal::TooMany(k)
            | Refusal::LongString(k)
            | Refusal::LongAlloc(k)
            | Refusal::NegativeAlloc(k)
            | Refusal::OutsideLiteral(k)
            | Refusal::LongLiteral(k) => k,
        }
    }
}

// The refusal of this number at this line.
pub fn refuse(number: u8, line: usize) -> Refusal
    requires { RefusalAt number line }
    ensures { (refusal_number result ≡ number) × (refusal_line result ≡ line) }
{
    match number {
        1 => Refusal::LongSheet,
        2 => Refusal::SmallSpace,
        3 => Refusal::NoForm(line),
        4 => Refusal::BadReference(line),
        5 => Refusal::DeepNesting(line),
        6 => Refusal::BadModule(line),
        7 => Refusal::TooMany(line),
        8 => Refusal::LongString(line),
        9 => Refusal::LongAlloc(line),
        10 => Refusal::NegativeAlloc(line),
        11 => Refusal::OutsideLiteral(line),
        12 => Refusal::LongLiteral(line),
        _ => Refusal::Outgrown,
    }
}

// `no`, the number and the line.
pub fn put_refusal(w: &mut Writer, r: Refusal)
    ensures { (Writes w.old (printed (refused (refusal_number r) (refusal_line r))) w.new) × (length (printed (refused (refusal_number r) (refusal_line r))) ≤ 64) }
{
    w.put_part(b"no");
    rows::comma_nat(w, r.number() as u64);
    rows::comma_nat(w, r.line() as u64);
    rows::lf(w);
}
