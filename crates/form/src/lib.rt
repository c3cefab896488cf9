// The forms of lines: a table, and one walk over a line's fields by it.
#![tactic(auto)]

ghost use Rattle.std.specs.Prelude.{◌≡◌, [], ℕ, ◌≤◌, ◌<◌, length, drop, get_or, IfSome};
ghost use Rattle.semantics.specs.Text.{same};
ghost use Rattle.semantics.specs.Form.{forms, begins, row_of};
ghost use Rattle.decimal.specs.Number.{number_up_to, is_between};
ghost use Rattle.text.specs.Parts.{until};
ghost use Rattle.form.specs.Table.{table, row_count, row_if, keywords_at, kind_at, codes_at, fields_behind, form_of};
ghost use Rattle.form.specs.Letters.{is_key_field, is_real_field, limit_of, letter_holds, after, letters_fit, letters_from, WalkBounds, WalkAt, WalkStepped, beginning};

use codes::kind;

// A row: keywords, the kind's letter, and a letter for each field behind the keywords. A to O are kinds, and references to lines of
// that kind; 32 lower, `!` to `/`, may be 0 too. P to Y are other fields. A small letter is a count and as many fields.
const FORMS: [u8; 1008] = *b"
ty,int           K     
ty,byte          K     
ty,big           K     
ty,real          K     
ty,string        K     
ty,ptr           K     
ty,array         KK    
ty,tuple         Kk    
ex,int           EX    
ex,real          ER    
ex,str           ET    
ex,id            EW    
ex,qual          EEW   
ex,un            EUE   
ex,bin           EVEE  
ex,cast          EKE   
ex,len           EE    
ex,alloc         EEK   
ex,lit           E%+l  
ex,other         E     
el,next          LE    
el,star          LE    
el,at            LEj   
se               JE%   
fd               F+w   
pc               Cwf   
adt              AWf   
pick             BWfc  
con              DWPPE 
var              HK%w  
mod              MW    
end              O     
impl             IW    
frame            GSy   
need,adt         NQ    
need,elem,int    N     
need,elem,byte   N     
need,elem,big    N     
need,elem,real   N     
need,elem,string N     
need,block       NSy   
need,opaque      N     ";

// The same kinds alone, and the same letters of fields: an array is made anew for each look at it.
const KINDS: [u8; 42] = *b"KKKKKKKKEEEEEEEEEEEELLLJFCABDHMOIGNNNNNNNN";

const FIELDS: [u8; 210] =
    *b"                              K    k    X    R    T    W    EW   UE   VEE  KE   E    EK   %+l       E    E    Ej   E%   +w   wf   Wf   Wfc  WPPE K%w  W         W    Sy   Q                             Sy        ";

// How long the keywords of each row are: a stands for 1.
const WIDTHS: [u8; 42] = *b"fgfgifhhfgfegefgfhfhggebbbcdccccdehmnmnpjk";

const ROWS: usize = 42;

const ROW_BYTES: usize = 24;

const LONGEST_LINE: usize = 255;

// Numbers above it are not told apart.
const CAP: u32 = 65536;

const SIGN: u64 = 0x8000000000000000;

const INFINITY: u64 = 0x7FF0000000000000;

// Letters of fields: from MANY on a count.
const MANY: u8 = b'a';

const NAME: u8 = b'W';

const KEY: u8 = b'Q';

const UNARY: u8 = b'U';

const BINARY: u8 = b'V';

const LINE_OR_COL: u8 = b'P';

const SIZE: u8 = b'S';

const I64: u8 = b'X';

const OFFSET: u8 = b'Y';

const REAL: u8 = b'R';

const TEXT: u8 = b'T';

// The table is lent to what looks at many of its bytes: the array would be made anew for each.
fn keyword_byte(t: &[u8; 1008], f: usize, i: usize) -> u8
    requires { (t.now ≡ table forms) × (f < row_count) × (i < 17) }
    ensures { result ≡ get_or (keywords_at f) i 32 }
{
    t[ROW_BYTES * f + 1 + i]
}

// The letter of the kind of form f.
pub fn kind(f: usize) -> u8
    requires { f < row_count }
    ensures { result ≡ kind_at f }
{
    KINDS[f]
}

// The letter of field j of form f, blank behind the last.
fn field_letter(f: usize, j: usize) -> u8
    requires { (f < row_count) × (j < 5) }
    ensures { result ≡ get_or (codes_at f) j 32 }
{
    FIELDS[5 * f + j]
}

// ---- keywords

// Whether a line begins with the keywords of form f.
fn begins_with(t: &[u8; 1008], l: &[u8], f: usize) -> bool
    requires { (f < row_count) × (t.now ≡ table forms) }
    ensures { result ≡ begins (keywords_at f) l.now }
{
    let mut i = 0;
    loop {
        let w = keyword_byte(t, f, i);
        if w == b' ' {
            return ends_at(l, i);
        }
        if i == l.len() {
            return false;
        }
        if l[i] != w {
            return false;
        }
        i += 1;
    }
}

// The first form whose keywords a line begins with.
fn row_in(t: &[u8; 1008], l: &[u8]) -> Option<usize>
    requires { t.now ≡ table forms }
    ensures value { result ≡ row_if (row_of forms l.now) }
    ensures low { IfSome result (λ f. f < row_count) }
{
    for f in 0..ROWS {
        if begins_with(t, l, f) {
            return Some(f);
        }
    }
    None
}

fn row_of(l: &[u8]) -> Option<usize>
    ensures value { result ≡ row_if (row_of forms l.now) }
    ensures low { IfSome result (λ f. f < row_count) }
{
    let t = FORMS;
    row_in(&t, l)
}

// ---- fields

// What a number must be below where its letter is x.
#[tactic(auto, unfolding(crate::specs::Letters::limit_of))]
fn limit(x: u8) -> usize
    ensures { result ≡ limit_of x }
{
    match x {
        MANY.. => 17,
        UNARY => 4,
        BINARY => 19,
        LINE_OR_COL => 65536,
        SIZE => 4097,
        b' ' => 0,
        _ => 65537,
    }
}

// NAME or NAME.NAME.
fn is_key(s: &[u8]) -> bool
    ensures { result ≡ is_key_field s.now }
{
    let p = text::find(s, 0, b'.');
    if p == s.len() {
        return name::is_name(s);
    }
    let a = p + 1;
    let q = text::find(s, a, b'.');
    if q < s.len() {
        return false;
    }
    if !name::is_name(&s[0..p]) {
        return false;
    }
    name::is_name(&s[a..q])
}

#[tactic(auto, using(crate::proofs::Fields::is_i64_some))]
fn is_i64(s: &[u8]) -> bool
    ensures { result ≡ is_between 9223372036854775808 9223372036854775807 s.now }
{
    decimal::read_integer(s).is_some()
}

// 16 digits of a real that is no NaN: without its sign, it is not above infinity.
fn is_real(s: &[u8]) -> bool
    ensures { result ≡ is_real_field s.now }
{
    match hex_field::read_bits(s) {
        Some(b) => b % SIGN <= INFINITY,
        None => false,
    }
}

// Whether a field holds what its letter says.
#[tactic(auto, unfolding(crate::specs::Letters::letter_holds))]
fn is_good(s: &[u8], x: u8) -> bool
    ensures { result ≡ letter_holds x s.now }
{
    match x {
        NAME => name::is_name(s),
        KEY => is_key(s),
        I64 => is_i64(s),
        OFFSET => decimal::is_between(s, 4096, 4096),
        REAL => is_real(s),
        TEXT => utf8::is_text(s),
        _ => number(s) < limit(x),
    }
}

// ---- the walk

// A walk stands at the field that begins at `at`, past the line's end where none is left. `left` more fields have this letter, and those
// behind them the form's letters from `next` on.
#[derive(Clone, Copy)]
pub struct Walk {
    pub at: usize,
    pub next: usize,
    pub left: usize,
    pub letter: u8,
}

// The letter of the field at which a walk stands.
fn letter(f: usize, w: Walk) -> u8
    requires { WalkBounds f w.next w.left w.letter }
    ensures { result ≡ get_or (letters_from f w) 0 32 }
{
    if 0 < w.left {
        return w.letter;
    }
    field_letter(f, w.next)
}

// Past a field with the letter x, whose number is n, to the one that begins at `at`.
fn step(w: Walk, x: u8, n: usize, at: usize) -> Walk
    requires { w.next ≤ 5 }
    ensures { ((f : ℕ) → WalkBounds f w.next w.left w.letter → x ≡ get_or (letters_from f w) 0 32 → (x ≡ 32 → ⊥) → (WalkBounds f result.next result.left result.letter) × (letters_from f result ≡ after n (letters_from f w))) × (result.at ≡ at) }
{
    let next = w.next;
    let left = w.left;
    let letter = w.letter;
    if 0 < left {
        return Walk {
            at,
            next,
            left: left - 1,
            letter,
        };
    }
    if MANY <= x {
        return Walk {
            at,
            next: next + 1,
            left: n,
            letter: x - 32,
        };
    }
    Walk {
        at,
        next: next + 1,
        left: 0,
        letter,
    }
}

// ---- the form of a line

// A field as a number, CAP where it is larger. Where there is none it is CAP + 1 and no `None`: all but the check of forms read numbers alone.
pub fn number(s: &[u8]) -> usize
    ensures { (result ≡ number_up_to 65536 s.now) × (result ≤ 65537) }
{
    match decimal::read_number(s, CAP) {
        Some(n) => n as usize,
        None => CAP as usize + 1,
    }
}

// Whether the fields behind the keywords are those of form f.
fn fits_form(l: &[u8], f: usize) -> bool
    requires { f < row_count }
    ensures { result ≡ letters_fit (codes_at f) (fields_behind f l.now) }
{
    let mut w = begin(f);
    while w.at <= l.len() {
        let at = w.at;
        let x = letter(f, w);
        let e = text::find(l, at, b',');
        let s = &l[at..e];
        if !is_good(s, x) {
            return false;
        }
        w = step(w, x, number(s), e + 1);
    }
    letter(f, w) == b' '
}

// The number of line k's form.
pub fn form_of(l: &[u8], k: usize) -> Option<usize>
    ensures value { result ≡ form_of k l.now }
    ensures low { IfSome result (λ f. f < row_count) }
{
    if LONGEST_LINE < l.len() {
        return None;
    }
    let f = row_of(l)?;
    if !fits_form(l, f) {
        return None;
    }
    if kind(f) == kind::IMPL && k != 1 {
        return None;
    }
    Some(f)
}

// ---- readers of a line that has form f

// How long the keywords of form f are.
fn width(f: usize) -> usize
    requires { f < row_count }
    ensures { (result ≡ length (keywords_at f)) × (result ≤ 16) }
{
    (WIDTHS[f] - 96) as usize
}

// Field i behind the keywords of form f, as that part of the line; empty where there is none.
pub fn field(l: &[u8], f: usize, i: usize) -> &[u8]
    requires { f < row_count }
    ensures { result.now ≡ get_or (fields_behind f l.now) i [] }
{
    let mut at = width(f) + 1;
    let mut k = 0;
    while at <= l.len() {
        let e = text::find(l, at, b',');
        if k == i {
            return &l[at..e];
        }
        k += 1;
        at = e + 1;
    }
    &l[l.len()..]
}

// Whether a field ends at e.
fn ends_at(l: &[u8], e: usize) -> bool
    requires { e ≤ length l.now }
    ensures { result ≡ same [] (until 44 (drop e l.now)) }
{
    if e == l.len() {
        return true;
    }
    l[e] == b','
}

// Whether the field that begins at `at` is this text: compared in place and from its end, as names often begin alike.
fn stands_at(l: &[u8], at: usize, name: &[u8]) -> bool
    requires { at ≤ length l.now }
    ensures { result ≡ same name.now (until 44 (drop at l.now)) }
{
    if l.len() - at < name.len() {
        return false;
    }
    if !ends_at(l, at + name.len()) {
        return false;
    }
    let mut i = name.len();
    while 0 < i {
        i -= 1;
        let x = l[at + i];
        if x != name[i] {
            return false;
        }
        if x == b',' {
            return false;
        }
    }
    true
}

// Whether the first field behind the keywords of form f is this text; none counts as empty.
pub fn first_is(l: &[u8], f: usize, name: &[u8]) -> bool
    requires { f < row_count }
    ensures { result ≡ same name.now (get_or (fields_behind f l.now) 0 []) }
{
    let at = width(f) + 1;
    if l.len() < at {
        return name.len() == 0;
    }
    stands_at(l, at, name)
}

// A walk over the fields behind the keywords.
pub fn begin(f: usize) -> Walk
    requires { f < row_count }
    ensures { result ≡ beginning f }
{
    Walk {
        at: width(f) + 1,
        next: 0,
        left: 0,
        letter: b' ',
    }
}

// What a walk meets: the field's letter and its number, and where it goes on.
#[derive(Clone, Copy)]
pub struct Seen {
    pub letter: u8,
    pub number: usize,
    pub next: Walk,
}

// One field of a walk.
pub fn next(l: &[u8], f: usize, w: Walk) -> Seen
    requires { (WalkAt f l.now w) × (w.at ≤ length l.now) }
    ensures { WalkStepped f l.now w result.letter result.number result.next }
{
    let at = w.at;
    let x = letter(f, w);
    let e = text::find(l, at, b',');
    let v = number(&l[at..e]);
    let u = step(w, x, v, e + 1);
    Seen {
        letter: x,
        number: v,
        next: u,
    }
}
