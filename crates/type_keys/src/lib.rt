// The table of descriptor keys, with their positions among the distinct keys.
#![tactic(auto)]

pub mod ids;

ghost use Rattle.std.specs.Prelude.{◌≡◌, List, [], ◌∷◌, ◌++◌, ℕ, ◌+◌, ◌≤◌, ◌<◌, length, IfSome};
ghost use Rattle.semantics.specs.Tree.{ElemKind, TypeKey};
ghost use Rattle.semantics.specs.Tree.TypeKey.{elem_key};
ghost use Rattle.semantics.specs.Array.{kind_number};
ghost use Rattle.codes.specs.Kinds.{element_kind};
ghost use Rattle.chains.specs.Chains.{count_to};
ghost use Rattle.checks.specs.Checks.{Outside};
ghost use Rattle.type_keys.specs.Table.{need_line_of, need_position_of, kind_position, need_entered, digest_entered, kind_entered, Kinds};

use chains::ChainPlaces;
use codes::area::{self, Space};
use codes::element;
use codes::element::Element;

// Where the chains of needs stand.
pub const CHAINS: ChainPlaces = ChainPlaces {
    at: area::NEED_DIGESTS,
    gap: 128,
    step: 1,
};

// The line of need q; both are counted from 0.
#[tactic(auto, unfolding(crate::specs::Table::need_line_of))]
pub fn need_line(work: &Space, q: usize) -> usize
    requires { q < 128 }
    ensures { result ≡ need_line_of work.now q }
{
    words::wide(work[area::NEED_LOW + q]) + 256 * words::wide(work[area::NEED_HIGH + q])
}

// The position of its key.
#[tactic(auto, unfolding(crate::specs::Table::need_position_of))]
pub fn need_position(work: &Space, q: usize) -> usize
    requires { q < 128 }
    ensures { (result ≡ need_position_of work.now q) × (result < 256) }
{
    words::wide(work[area::NEED_POSITIONS + q])
}

// The position of the key of a kind of element, where it is used.
#[tactic(auto, unfolding(crate::specs::Table::kind_position))]
pub fn kind_position(work: &Space, kind: Element) -> Option<usize>
    ensures value { count_to result ≡ kind_position work.now (element_kind kind) }
    ensures low { IfSome result (λ p. p < 255) }
{
    words::wide(work[kind_place(kind)]).checked_sub(1)
}

// Where the position of a kind of element is kept.
fn kind_place(kind: Element) -> usize
    ensures { (result ≡ 10624 + kind_number (element_kind kind)) × (result < 10629) }
{
    area::KIND_POSITIONS + element::number(kind)
}

// Need q is on line i, from 0, and its key has position p.
#[tactic(auto, unfolding(crate::specs::Table::need_entered))]
pub fn enter_need(work: &mut Space, q: usize, i: usize, p: usize)
    requires { (q < 128) × (i < 1024) × (p < 256) }
    ensures { work.new ≡ need_entered work.old q i p }
{
    work[area::NEED_LOW + q] = (i % 256) as u8;
    work[area::NEED_HIGH + q] = (i / 256) as u8;
    work[area::NEED_POSITIONS + q] = p as u8;
}

// The text of need q has the digest d; it becomes the newest of its chain.
pub fn enter_digest(work: &mut Space, q: usize, d: usize)
    requires { (q < 128) × (d < 256) }
    ensures { work.new ≡ digest_entered work.old q d }
{
    work[area::NEED_DIGESTS + q] = d as u8;
    chains::link(work, CHAINS, q);
}

// The key of a kind of element has position p.
#[tactic(auto, unfolding(crate::specs::Table::kind_entered))]
pub fn enter_kind(work: &mut Space, kind: Element, p: usize)
    requires { p < 255 }
    ensures { work.new ≡ kind_entered work.old (element_kind kind) p }
{
    work[kind_place(kind)] = (p + 1) as u8;
}

// No kind of element is used.
pub fn clear_kinds(work: &mut Space)
    ensures { (Outside 10624 10629 work.old work.new) × ((k : ElemKind) → kind_position work.new k ≡ 0) }
{
    for kind in element::ALL {
        work[kind_place(kind)] = 0;
    }
}

// Enters the key of an array's elements where it is new, and returns how many keys there are then.
pub fn collect_kind(work: &mut Space, kind: Element, keys: usize) -> usize
    requires { keys < 255 }
    ensures { ((ks : List TypeKey) → Kinds work.old ks keys → Kinds work.new (ks ++ (elem_key (element_kind kind) ∷ [])) result) × (Outside 10624 10629 work.old work.new) }
{
    match kind_position(work, kind) {
        Some(_) => keys,
        None => {
            enter_kind(work, kind, keys);
            keys + 1
        }
    }
}
