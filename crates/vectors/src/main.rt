// Runs the cases on standard input (cases/README.md) through `compile` and `image`, and holds what they give to what is stored. A listing without an
// image is held to `compile` alone. Prints the number of each case that differs, from 1, and then how many cases there are, how many listings, images
// and refusals of each number are equal, and how many cases differ.
#![tactic(auto)]

ghost use Rattle.std.specs.Prelude.{◌≤◌, length, IfOk};

use answers::Refusal;
use image::Laid;
use std::alloc::Global;
use std::io::{self, BufReader, Read, Write};
use write::Writer;

// More cases than a list has.
const CASES: u64 = 10_000_000;

// Longer than any header, and larger than any length in one.
const HEADER: usize = 255;

const LARGE: usize = 1_000_000;

// The bytes of each buffer, which no sheet, listing or image passes.
const BYTES: usize = 65536;

// 2 digits for each byte of image and area, and what stands around them.
const ROWS: usize = 262160;

// A sheet, its listing or its refusal, and the text of its image, which is empty where there is none.
#[derive(Clone, Copy)]
struct Case<'a> {
    sheet: &'a [u8],
    answer: &'a [u8],
    picture: &'a [u8],
}

// What becomes of a case: its listing is equal, also its image, or its refusal, of this number; or something differs.
#[derive(Clone, Copy, PartialEq, Eq)]
enum Outcome {
    Listed,
    Imaged,
    Refused(u8),
    Differs,
}

// The refusals have the numbers from 1 to 13.
const NUMBERS: usize = 14;

// How many cases became what.
#[derive(Clone, Copy)]
struct Counts {
    listed: u64,
    imaged: u64,
    refused: [u64; NUMBERS],
    differ: u64,
}

// Where the parts of a case are read into.
#[derive(Drop)]
struct Parts {
    sheet: Vec<u8>,
    answer: Vec<u8>,
    picture: Vec<u8>,
}

// What `compile` and `image` are lent, and where the text of an image is written.
#[derive(Drop)]
struct Lent {
    listing: Vec<u8>,
    image: Vec<u8>,
    area: Vec<u8>,
    work: Vec<u8>,
    rows: Vec<u8>,
}

impl Parts {
    fn new(alloc: Global) -> io::Result<Parts> {
        Ok(Parts {
            sheet: vec![in alloc; 0u8; BYTES]?,
            answer: vec![in alloc; 0u8; BYTES]?,
            picture: vec![in alloc; 0u8; ROWS]?,
        })
    }
}

fn lend(alloc: Global) -> io::Result<Lent> {
    Ok(Lent {
        listing: vec![in alloc; 0u8; BYTES]?,
        image: vec![in alloc; 0u8; BYTES]?,
        area: vec![in alloc; 0u8; BYTES]?,
        work: vec![in alloc; 0u8; BYTES]?,
        rows: vec![in alloc; 0u8; ROWS]?,
    })
}

// Whether the first n bytes of a buffer are the wanted ones.
fn begins_with(buffer: &[u8], n: usize, wanted: &[u8]) -> bool {
    match buffer.get(..n) {
        Some(part) => part == wanted,
        None => false,
    }
}

fn refused(r: Refusal, wanted: &[u8]) -> Outcome {
    let mut row = [0u8; 64];
    let mut w = Writer::from(&mut row, 0);
    answers::put_refusal(&mut w, r);
    let end = w.at;
    if begins_with(&row, end, wanted) {
        Outcome::Refused(r.number())
    } else {
        Outcome::Differs
    }
}

// Writes the rows of an image and an area from the start, and returns where they end.
fn put_rows(rows: &mut [u8], image: &[u8], area: &[u8]) -> usize {
    let mut w = Writer::from(rows, 0);
    w.put_part(b"image,");
    w.put_hex(image);
    w.put_part(b"\narea,");
    w.put_hex(area);
    w.put(b'\n');
    w.at
}

fn is_picture(lent: &mut Lent, laid: Laid, wanted: &[u8]) -> bool {
    match (lent.image.get(..laid.image), lent.area.get(..laid.area)) {
        (Some(image), Some(area)) => {
            let end = put_rows(&mut lent.rows, image, area);
            begins_with(&lent.rows, end, wanted)
        }
        _ => false,
    }
}

fn compiled(case: Case, lent: &mut Lent) -> Outcome {
    match compile::compile(case.sheet, &mut lent.listing, &mut lent.work) {
        Ok(n) if begins_with(&lent.listing, n, case.answer) => Outcome::Listed,
        Ok(_) => Outcome::Differs,
        Err(r) => refused(r, case.answer),
    }
}

// What becomes of a case with an image, or with a refusal, of which `compile` gave what it should.
fn imaged(case: Case, lent: &mut Lent, is_listed: bool) -> Outcome {
    let answer = image::image(
        case.sheet,
        &mut lent.listing,
        &mut lent.image,
        &mut lent.area,
        &mut lent.work,
    );
    match answer {
        Ok(laid)
            if begins_with(&lent.listing, laid.listing, case.answer)
                && is_picture(lent, laid, case.picture) => { Outcome::Imaged }
        Ok(_) => Outcome::Differs,
        Err(r) if is_listed => match refused(r, case.picture) {
            Outcome::Refused(_) => Outcome::Imaged,
            other => other,
        },
        Err(r) => refused(r, case.answer),
    }
}

fn run_case(case: Case, lent: &mut Lent) -> Outcome {
    match compiled(case, lent) {
        Outcome::Listed if !case.picture.is_empty() => imaged(case, lent, true),
        Outcome::Refused(_) => imaged(case, lent, false),
        other => other,
    }
}

// The bytes of a case's sheet, answer and image. No answer is empty: 0 there says that the list has ended.
#[derive(Clone, Copy)]
struct Header {
    sheet: usize,
    answer: usize,
    image: usize,
}

impl Header {
    // The last three fields of a header up to here, with one byte more: of their bytes only digits count.
    fn with(self, c: u8) -> Header {
        match c {
            b',' => Header {
                sheet: self.answer,
                answer: self.image,
                image: 0,
            },
            b'0'..=b'9' if self.image <= LARGE => Header {
                image: 10 * self.image + usize::from(c - b'0'),
                ..self
            },
            _ => self,
        }
    }
}

// Reads a header, with its LF.
fn read_header(input: &mut impl Read) -> io::Result<Header> {
    let mut header = Header {
        sheet: 0,
        answer: 0,
        image: 0,
    };
    for c in input.by_ref().bytes().take(HEADER) {
        let c = c?;
        if c == b'\n' {
            break;
        }
        header = header.with(c);
    }
    Ok(header)
}

// Fills a buffer as far as the input goes, and says how many bytes that are.
fn read_full(input: &mut impl Read, buf: &mut [u8]) -> io::Result<usize>
    ensures { IfOk result (λ n. n ≤ length buf.new) }
{
    let mut done: usize = 0;
    while done < buf.len() {
        let n = input.read(&mut buf[done..])?;
        if n == 0 {
            return Ok(done);
        }
        done += n;
    }
    Ok(done)
}

// Passes over the next n bytes.
fn skip(input: &mut impl Read, n: usize) -> io::Result<()> {
    let mut space = [0u8; 4096];
    for _ in 0..n / 4096 {
        read_full(input, &mut space)?;
    }
    read_full(input, &mut space[..n % 4096])?;
    Ok(())
}

// The next n bytes, or as many of them as the buffer holds; those behind are passed over.
fn read_part<'a>(input: &mut impl Read, buf: &'a mut [u8], n: usize) -> io::Result<&'a [u8]>
    ensures { IfOk result (λ part. length part.now ≤ length buf.old) }
{
    let room = n.min(buf.len());
    let read = read_full(input, &mut buf[..room])?;
    skip(input, n - room)?;
    Ok(&buf[..read])
}

// The next case. None at the end of the list.
fn read_case<'a>(input: &mut impl Read, parts: &'a mut Parts) -> io::Result<Option<Case<'a>>> {
    let header = read_header(input)?;
    if header.answer == 0 {
        return Ok(None);
    }
    Ok(Some(Case {
        sheet: read_part(input, &mut parts.sheet, header.sheet)?,
        answer: read_part(input, &mut parts.answer, header.answer)?,
        picture: read_part(input, &mut parts.picture, header.image)?,
    }))
}

fn print_count(out: &mut impl Write, name: &str, n: u64) -> io::Result<()> {
    writeln!(out, "{name},{n}")
}

impl Counts {
    fn add(&mut self, o: Outcome) {
        match o {
            Outcome::Listed => self.listed = self.listed.wrapping_add(1),
            Outcome::Imaged => {
                self.listed = self.listed.wrapping_add(1);
                self.imaged = self.imaged.wrapping_add(1);
            }
            Outcome::Refused(number) => {
                if let Some(n) = self.refused.get_mut(usize::from(number)) {
                    *n = n.wrapping_add(1);
                }
            }
            Outcome::Differs => self.differ = self.differ.wrapping_add(1),
        }
    }
}

// Runs each case and counts what becomes of it; the number of each that differs is printed. Returns how many cases there are.
fn run_cases(
    alloc: Global,
    input: &mut impl Read,
    out: &mut impl Write,
    counts: &mut Counts,
) -> io::Result<u64> {
    let mut parts = Parts::new(alloc)?;
    let mut lent = lend(alloc)?;
    for before in 0..CASES {
        let Some(case) = read_case(input, &mut parts)? else {
            return Ok(before);
        };
        let o = run_case(case, &mut lent);
        counts.add(o);
        if o == Outcome::Differs {
            print_count(out, "differs", before + 1)?;
        }
    }
    Ok(CASES)
}

fn main(rt: HostRuntime) -> io::Result<()> {
    let alloc = rt.alloc();
    let mut input = BufReader::new(alloc, rt.stdin())?;
    let mut out = rt.stdout();
    let mut counts = Counts {
        listed: 0,
        imaged: 0,
        refused: [0; NUMBERS],
        differ: 0,
    };
    let cases = run_cases(alloc, &mut input, &mut out, &mut counts)?;
    print_count(&mut out, "cases", cases)?;
    print_count(&mut out, "listed", counts.listed)?;
    print_count(&mut out, "imaged", counts.imaged)?;
    for (k, n) in counts.refused.iter().enumerate().skip(1) {
        write!(out, "refused,{k}")?;
        print_count(&mut out, "", *n)?;
    }
    print_count(&mut out, "differ", counts.differ)
}
