// The entries of the log, and their keys: T, or T.tag.
ghost use Rattle.std.specs.Prelude.{◌≡◌, not, ◌++◌, ◌∷◌, ◌+◌, ◌≤◌, ◌<◌, length, take};
ghost use Rattle.semantics.specs.Text.{same};
ghost use Rattle.semantics.specs.Layout.{seen};
ghost use Rattle.words.specs.Words.{digest};
ghost use Rattle.chains.specs.Chains.{digest_at};
ghost use Rattle.records.specs.Log.{byte_of, entry_at, recorded_at, name_of, tag_of, record_chains, log_of, EntryIn, RecordsLogged, LogEntry, Newest, NewestOfEntry};

use crate::line;
use chains::ChainPlaces;
use codes::area::{self, Space};
use lines::Sheet;

// Where the log's chains stand.
pub const CHAINS: ChainPlaces = ChainPlaces {
    at: area::RECORDS + 5,
    gap: 1,
    step: 8,
};

// Byte k of entry i.
fn byte_at(work: &Space, i: usize, k: usize) -> usize
    requires { (i < 128) × (k < 8) }
    ensures { (result ≡ byte_of work.now i k) × (result < 256) }
{
    usize::from(work[area::RECORDS + (8 * i + k)])
}

// The line of entry i, from 1.
pub fn line_of(work: &Space, i: usize) -> usize
    requires { i < 128 }
    ensures { result ≡ (entry_at work.now i).line }
{
    byte_at(work, i, 0) + 256 * byte_at(work, i, 1)
}

// Its case from 1, and 0 for T itself.
pub fn case_of(work: &Space, i: usize) -> usize
    requires { i < 128 }
    ensures { (result ≡ (entry_at work.now i).case) × (result < 256) }
{
    byte_at(work, i, 2)
}

// The position of its tag in the case.
fn position_of(work: &Space, i: usize) -> usize
    requires { i < 128 }
    ensures { result ≡ (entry_at work.now i).position }
{
    byte_at(work, i, 3)
}

// Its tag's number.
pub fn number_of(work: &Space, i: usize) -> usize
    requires { i < 128 }
    ensures { (result ≡ (entry_at work.now i).number) × (result < 256) }
{
    byte_at(work, i, 4)
}

// The name T of its record.
pub fn name_of<'a>(sheet: &Sheet<'a>, work: &Space, i: usize) -> &'a [u8]
    requires { EntryIn sheet.now work.now i }
    ensures { result.now ≡ name_of sheet.now (entry_at work.now i) }
{
    line::record_name(sheet, line_of(work, i))
}

// Its tag, where it is a variant.
pub fn tag_of<'a>(sheet: &Sheet<'a>, work: &Space, i: usize) -> &'a [u8]
    requires { (EntryIn sheet.now work.now i) × (0 < (entry_at work.now i).case) }
    ensures { result.now ≡ tag_of sheet.now (entry_at work.now i) }
{
    let v = shapes::case_line(sheet, line_of(work, i), case_of(work, i) - 1);
    line::tag_at(sheet, v, position_of(work, i))
}

// The digest of its key, from its name and tag.
pub fn digest_for(sheet: &Sheet, work: &Space, i: usize) -> usize
    requires { EntryIn sheet.now work.now i }
    ensures { (result ≡ digest (recorded_at sheet.now work.now i).key) × (result < 256) }
{
    let d = words::digest(name_of(sheet, work, i));
    if case_of(work, i) == 0 {
        return d;
    }
    let e = words::digest_on(d, b".");
    words::digest_on(e, tag_of(sheet, work, i))
}

// Whether a key is a name and a tag, with a full stop between.
fn is_joined(key: &[u8], name: &[u8], tag: &[u8]) -> bool
    ensures { result ≡ same key.now (name.now ++ (46 ∷ tag.now)) }
{
    let k = name.len();
    if key.len() <= k {
        return false;
    }
    if key[k] != b'.' {
        return false;
    }
    if !words::same(&key[0..k], name) {
        return false;
    }
    words::same(&key[k + 1..], tag)
}

// Whether entry i has this key, which has the digest d.
fn key_is(sheet: &Sheet, work: &Space, i: usize, key: &[u8], d: usize) -> bool
    requires { (EntryIn sheet.now work.now i) × (digest_at work.now record_chains i ≡ digest (recorded_at sheet.now work.now i).key) × (d ≡ digest key.now) }
    ensures { result ≡ same key.now (recorded_at sheet.now work.now i).key }
{
    if chains::digest_at(work, CHAINS, i) != d {
        return false; // before the name is looked for
    }
    let name = name_of(sheet, work, i);
    if case_of(work, i) == 0 {
        return words::same(key, name);
    }
    is_joined(key, name, tag_of(sheet, work, i))
}

// Whether entries i and j have one key. No name holds a full stop, so T itself and a variant have none in common.
fn same_key(sheet: &Sheet, work: &Space, i: usize, j: usize) -> bool
    requires { (EntryIn sheet.now work.now i) × (EntryIn sheet.now work.now j) × (digest_at work.now record_chains i ≡ digest (recorded_at sheet.now work.now i).key) × (digest_at work.now record_chains j ≡ digest (recorded_at sheet.now work.now j).key) }
    ensures { result ≡ same (recorded_at sheet.now work.now i).key (recorded_at sheet.now work.now j).key }
{
    if chains::digest_at(work, CHAINS, j) != chains::digest_at(work, CHAINS, i) {
        return false;
    }
    if !words::same(name_of(sheet, work, i), name_of(sheet, work, j)) {
        return false;
    }
    let c = case_of(work, j);
    if case_of(work, i) == 0 {
        return c == 0;
    }
    if c == 0 {
        return false;
    }
    words::same(tag_of(sheet, work, i), tag_of(sheet, work, j))
}

// The last entry with this key.
pub fn newest(sheet: &Sheet, work: &Space, entries: usize, key: &[u8]) -> Option<usize>
    requires { RecordsLogged sheet.now work.now entries }
    ensures { Newest sheet.now key.now result }
{
    let d = words::digest(key);
    let mut next = chains::newest(work, CHAINS, entries, d);
    while let Some(i) = next {
        if key_is(sheet, work, i, key, d) {
            return Some(i);
        }
        next = chains::earlier(work, CHAINS, i);
    }
    None
}

// The last entry with the key of entry i, which is one itself.
pub fn newest_of(sheet: &Sheet, work: &Space, entries: usize, i: usize) -> usize
    requires { (RecordsLogged sheet.now work.now entries) × (i < entries) }
    ensures { NewestOfEntry sheet.now work.now entries i result }
{
    let mut next = chains::newest(work, CHAINS, entries, chains::digest_at(work, CHAINS, i));
    while let Some(j) = next {
        if same_key(sheet, work, i, j) {
            return j;
        }
        next = chains::earlier(work, CHAINS, j);
    }
    i
}

// Whether no earlier entry has the key of entry i.
pub fn is_first(sheet: &Sheet, work: &Space, i: usize) -> bool
    requires { LogEntry sheet.now work.now i }
    ensures { result ≡ not (seen (recorded_at sheet.now work.now i).key (take i (log_of sheet.now))) }
{
    let mut next = chains::earlier(work, CHAINS, i);
    while let Some(j) = next {
        if same_key(sheet, work, i, j) {
            return false;
        }
        next = chains::earlier(work, CHAINS, j);
    }
    true
}
