// Chains of the entries of a table in the working space: entries whose digests are equal modulo 128 form one, the newest first, so
// that a look-up meets them alone. A head that was never made may hold any byte, and so may a link that was copied from it: each counts
// only where it leads to an entry of the chain, a link to an earlier one.
#![tactic(auto)]

ghost use Rattle.std.specs.Prelude.{◌≡◌, ◌+◌, ◌<◌};
ghost use Rattle.chains.specs.Chains.{chain_of, digest_place, digest_at, link_at, head_at, chain_at, entry_below, newest_in, earlier_than, linked, ChainRoom};

// Where a table keeps its chains: the digest of entry i at byte `at + step * i`, its link `gap` bytes behind that, and the head of
// chain i `gap` bytes behind the link.
#[derive(Clone, Copy)]
pub struct ChainPlaces {
    pub at: usize,
    pub gap: usize,
    pub step: usize,
}

// Where the digest of entry i stands.
#[tactic(auto, unfolding(crate::specs::Chains::digest_place))]
fn place(c: ChainPlaces, i: usize) -> usize
    requires { digest_place c i + c.gap + c.gap < 65536 }
    ensures { (result ≡ digest_place c i) × (result + c.gap + c.gap < 65536) }
{
    c.at + c.step * i
}

// The chain of a digest.
fn chain_of(d: usize) -> usize
    ensures { (result ≡ chain_of d) × (result < 128) }
{
    d % 128
}

// The digest of entry i.
pub fn digest_at(work: &[u8], c: ChainPlaces, i: usize) -> usize
    requires { (ChainRoom work.now c) × (i < 256) }
    ensures { (result ≡ digest_at work.now c i) × (result < 256) }
{
    usize::from(work[place(c, i)])
}

// The chain of entry i.
#[tactic(auto, unfolding(crate::specs::Chains::chain_at))]
fn chain_at(work: &[u8], c: ChainPlaces, i: usize) -> usize
    requires { (ChainRoom work.now c) × (i < 256) }
    ensures { (result ≡ chain_at work.now c i) × (result < 128) }
{
    chain_of(digest_at(work, c, i))
}

#[tactic(auto, unfolding(crate::specs::Chains::link_at))]
fn link_at(work: &[u8], c: ChainPlaces, i: usize) -> usize
    requires { (ChainRoom work.now c) × (i < 256) }
    ensures { (result ≡ link_at work.now c i) × (result < 256) }
{
    usize::from(work[place(c, i) + c.gap])
}

#[tactic(auto, unfolding(crate::specs::Chains::head_at))]
fn head_at(work: &[u8], c: ChainPlaces, k: usize) -> usize
    requires { (ChainRoom work.now c) × (k < 128) }
    ensures { (result ≡ head_at work.now c k) × (result < 256) }
{
    usize::from(work[place(c, k) + c.gap + c.gap])
}

// j, where it is one of the first m entries and of chain k.
#[tactic(auto, unfolding(crate::specs::Chains::entry_below))]
fn entry_below(work: &[u8], c: ChainPlaces, m: usize, k: usize, j: usize) -> Option<usize>
    requires { (ChainRoom work.now c) × (j < 256) }
    ensures { result ≡ entry_below work.now c m k j }
{
    if j < m && chain_at(work, c, j) == k {
        Some(j)
    } else {
        None
    }
}

// The entry, of m, that the head of the chain of the digest d leads to. Where the table is chained, it is the newest of that chain.
pub fn newest(work: &[u8], c: ChainPlaces, m: usize, d: usize) -> Option<usize>
    requires { ChainRoom work.now c }
    ensures { result ≡ newest_in work.now c m (chain_of d) }
{
    let k = chain_of(d);
    entry_below(work, c, m, k, head_at(work, c, k))
}

// The entry that the link of entry i leads to. Where the table is chained, it is the newest of the chain before i.
pub fn earlier(work: &[u8], c: ChainPlaces, i: usize) -> Option<usize>
    requires { (ChainRoom work.now c) × (i < 256) }
    ensures { result ≡ earlier_than work.now c i }
{
    entry_below(work, c, i, chain_at(work, c, i), link_at(work, c, i))
}

// Entry m, which has its digest, becomes the head of its chain.
#[tactic(auto, unfolding(crate::specs::Chains::linked))]
pub fn link(work: &mut [u8], c: ChainPlaces, m: usize)
    requires { (ChainRoom work.old c) × (m < 256) }
    ensures { work.new ≡ linked work.old c m }
{
    let k = chain_at(work, c, m);
    let h = head_at(work, c, k);
    work[place(c, m) + c.gap] = h as u8;
    work[place(c, k) + c.gap + c.gap] = m as u8;
}
