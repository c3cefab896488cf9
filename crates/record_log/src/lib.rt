// Makes the log of a checked sheet's records in the working space, in the order of the sheet.
#![tactic(auto)]

ghost use Rattle.std.specs.Prelude.{◌≡◌, ◌+◌, ◌*◌, ◌≤◌, ◌<◌, length, set};
ghost use Rattle.write.specs.Wrote.{Wrote};
ghost use Rattle.checks.specs.Checks.{Checked};
ghost use Rattle.sizes.specs.Places.{decl_at};
ghost use Rattle.shapes.specs.Shapes.{cases_in, PickLine};
ghost use Rattle.chains.specs.Chains.{linked};
ghost use Rattle.records.specs.Log.{record_chains, Digested};
ghost use Rattle.record_log.specs.Entries.{entry_bytes, tag_entries, case_entries, entries_of, log_bytes, CollectedTo, RecordsCollected};
ghost use Rattle.lines.specs.Lines.{lines_in};

use codes::area::{self, Space};
use codes::decl;
use lines::Sheet;
use records::key::CHAINS;
use write::Writer;

// One entry: a line, 0 or a case from 1, the position of a tag in it, and the tag's number.
fn put_entry(
    work: &mut Space,
    at: usize,
    r: usize,
    case: usize,
    position: usize,
    number: usize,
) -> usize
    requires { (r ≤ 1024) × (case ≤ 255) × (position ≤ 255) × (number ≤ 255) }
    ensures { Wrote work.old at (entry_bytes r case position number) work.new result }
{
    let e = [
        (r % 256) as u8,
        (r / 256) as u8,
        case as u8,
        position as u8,
        number as u8,
        0,
        0,
        0,
    ];
    let mut w = Writer::from(work, at);
    w.put_part(&e);
    w.at
}

// The entries of `count` tags of a case, numbered from `number` on.
fn put_tags(
    work: &mut Space,
    at: usize,
    r: usize,
    case: usize,
    count: usize,
    number: usize,
) -> usize
    requires { (r ≤ 1024) × (case ≤ 16) × (count ≤ 16) × (number ≤ 240) × (at ≤ length work.old + 1) }
    ensures { Wrote work.old at (log_bytes (tag_entries r case 0 number count)) work.new result }
{
    let mut p = at;
    for j in 0..count {
        p = put_entry(work, p, r, case, j, number + j);
    }
    p
}

// The entries of the tags of line r's cases. Tags are numbered over all cases.
fn put_cases(sheet: &Sheet, work: &mut Space, r: usize, at: usize) -> usize
    requires { (PickLine sheet.now r) × (at ≤ length work.old + 1) }
    ensures { Wrote work.old at (log_bytes (case_entries r 0 0 (cases_in (decl_at sheet.now r)))) work.new result }
{
    let count = shapes::case_count(sheet, r);
    let mut p = at;
    let mut number = 0;
    for c in 0..count {
        let v = shapes::case_line(sheet, r, c);
        let tags = records::line::tag_count(sheet, v);
        p = put_tags(work, p, r, c + 1, tags, number);
        number += tags;
    }
    p
}

// The entries of line r's records, where it declares any: T itself, then its variants.
fn record_adt(sheet: &Sheet, work: &mut Space, r: usize, at: usize) -> usize
    requires { (Checked sheet.now) × (0 < r) × (r ≤ lines_in sheet.now) × (at ≤ length work.old + 1) }
    ensures { Wrote work.old at (log_bytes (entries_of sheet.now r)) work.new result }
{
    let f = sheet.form_at(r - 1);
    if f == decl::ADT {
        return put_entry(work, at, r, 0, 0, 0);
    }
    if f == decl::PICK {
        let p = put_entry(work, at, r, 0, 0, 0);
        return put_cases(sheet, work, r, p);
    }
    at
}

// Logs the records of all lines, those in modules too, in the order of the sheet, and returns how many there are.
fn log_adts(sheet: &Sheet, work: &mut Space) -> usize
    requires { Checked sheet.now }
    ensures { CollectedTo sheet.now work.old work.new result 0 }
{
    let mut at = area::RECORDS;
    for i in 0..sheet.count() {
        at = record_adt(sheet, work, i + 1, at);
    }
    (at - area::RECORDS) / 8
}

// The digest d, into entry i, which becomes the newest of its chain.
fn enter_digest(work: &mut Space, i: usize, d: usize)
    requires { (i < 128) × (d < 256) }
    ensures { work.new ≡ linked (set work.old (9221 + 8 * i) d) record_chains i }
{
    work[area::RECORDS + 5 + 8 * i] = d as u8;
    chains::link(work, CHAINS, i);
}

// The digests of all keys, into their entries, which are chained by them.
fn enter_digests(sheet: &Sheet, work: &mut Space, m: usize)
    requires { Digested sheet.now work.old m 0 }
    ensures { RecordsCollected sheet.now work.old work.new m }
{
    for i in 0..m {
        let d = records::key::digest_for(sheet, work, i);
        enter_digest(work, i, d);
    }
}

// The log of all records, chained by the digests of their keys; returns how many there are.
pub fn collect_adts(sheet: &Sheet, work: &mut Space) -> usize
    requires { Checked sheet.now }
    ensures { RecordsCollected sheet.now work.old work.new result }
{
    let m = log_adts(sheet, work);
    enter_digests(sheet, work, m);
    m
}
