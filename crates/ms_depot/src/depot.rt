//! The pairs of an earlier origin and the site of a write, each under its number: the chained origins. Roots have the lowest
//! numbers.
ghost use Rattle.std.specs.Prelude.{◌≡◌, ◌≤◌, ◌<◌, ◌+◌, ◌-◌, ◌^◌, [], ℕ, length, IfOk, OnErr, MatchOption, Some, None};
ghost use Rattle.ms_runs.specs.{World.{World, Setting}, Origins.{depth_limit, trail as trail_of}};
ghost use Rattle.ms_depot.specs.Depots.{IsNumber, StandsFor, IsChained, depth_in, earlier_of};

use indexmap::IndexSet;
use ms_bits::{List, NoMemory};
use ms_runs::Origin;
use std::alloc::Global;
use std::marker::Model;

/// The most pairs that stand at a time.
const MOST_PAIRS: usize = 1 << 20;

/// The depth from which on an origin gets no further pair: a root has depth 0, and a pair one more than its
/// earlier origin. This is the one line that knows the number.
#[tactic(auto, unfolding(ms_runs::specs::Origins::depth_limit))]
fn deepest() -> u32
    ensures { result ≡ depth_limit }
{
    16
}

/// The depth of an origin, of `count` pairs with these depths; `None` where it is neither a root nor a pair.
fn depth_of(roots: u32, depths: &[u32], count: usize, id: u32) -> Option<u32>
    requires { count ≤ length depths.now }
    ensures { MatchOption result (¬ IsNumber roots count id) (λ n. IsNumber roots count id × (n ≡ depth_in roots depths.now id)) }
{
    if id == 0 {
        return None;
    }
    if id <= roots {
        return Some(0);
    }
    let place = (id - roots - 1) as usize;
    if place < count {
        Some(depths[place])
    } else {
        None
    }
}

/// The number of the origin before one on its way to the root; 0, which is no origin's, before a root.
fn earlier(origin: Origin) -> u32
    ensures { result ≡ earlier_of origin }
{
    match origin {
        Origin::Root { .. } => 0,
        Origin::Chain { old, .. } => old,
    }
}

/// The origins of a run. Those of the roots have the numbers from 1 to the number of roots, and the pairs follow
/// in the order in which they came, each once. Contracts see the number of roots and the pairs.
#[derive(Drop)]
pub struct Depot {
    alloc: Global,
    /// The number of roots.
    roots: u32,
    /// An earlier origin and a site each, in the order of their numbers.
    pairs: IndexSet<(u32, u32)>,
    /// The depth of each pair; one more may stand here than there are pairs.
    depths: Vec<u32>,
}

impl Model for Depot {
    ghost use Rattle.ms_depot.specs.Depots.{DepotState, IsDepot};

    ghost Value = { DepotState };

    ghost view = { λ d. record { roots = d.roots; pairs = d.pairs.keys } };

    ghost invariant = { λ d. IsDepot (record { roots = d.roots; pairs = d.pairs.keys; depths = d.depths.items }) };
}

impl Depot {
    /// A depot of so many roots, with no pair. Takes no memory. Roots are fewer than 2^30, as in each formed module, so that the
    /// numbers of pairs, which follow them, have 32 bits.
    pub fn new(alloc: Global, roots: u32) -> Depot
        requires { roots < 2 ^ 30 }
        ensures roots { result.roots ≡ roots }
        ensures pairs { result.pairs ≡ [] }
    {
        Depot {
            alloc,
            roots,
            pairs: IndexSet::new(alloc),
            depths: Vec::new(alloc),
        }
    }

    /// What the number `id` stands for; `None` exactly where it is neither a root's nor a pair's. Takes no memory.
    pub fn entry(&self, id: u32) -> Option<Origin>
        ensures { MatchOption result (¬ IsNumber self.now.roots (length self.now.pairs) id) (λ origin. StandsFor self.now id origin) }
    {
        if id == 0 {
            return None;
        }
        if id <= self.roots {
            return Some(Origin::Root { number: id });
        }
        let place = (id - self.roots - 1) as usize;
        let Some(pair) = self.pairs.get_index(place) else {
            return None;
        };
        Some(Origin::Chain {
            old: pair.0,
            site: pair.1,
        })
    }

    /// The origins from `id` to its root; none where `entry` gives `None`.
    pub fn trail(&self, id: u32) -> Result<List<Origin>, NoMemory>
        ensures { (setting : Setting) (world : World) → setting.roots ≡ self.now.roots → world.pairs ≡ self.now.pairs → IfOk result (λ way. way ≡ trail_of setting world id) }
    {
        let mut way = Vec::new(self.alloc);
        let mut at = id;
        while let Some(origin) = self.entry(at) {
            way.push(origin)?;
            at = earlier(origin);
        }
        Ok(List::from_vec(way))
    }

    /// The number of the pair of `old` and `site`, which is made where it doesn't stand yet; `old` itself where it
    /// is neither a root nor a pair, is as deep as origins go, or as many pairs stand as may.
    ///
    /// Where memory runs out the pairs are as before.
    pub fn chain(&mut self, old: u32, site: u32) -> Result<u32, NoMemory>
        ensures chained { (setting : Setting) (world : World) → setting.roots ≡ self.old.roots → world.pairs ≡ self.old.pairs → IfOk result (λ id. IsChained setting world old site id self.new) }
        ensures roots { self.new.roots ≡ self.old.roots }
        ensures unchanged { OnErr result (self.new ≡ self.old) }
    {
        let len = self.pairs.len();
        if len >= MOST_PAIRS {
            return Ok(old);
        }
        let Some(depth) = depth_of(self.roots, &self.depths, len, old) else {
            return Ok(old);
        };
        if depth >= deepest() {
            return Ok(old);
        }
        self.depths.truncate(len);
        self.depths.push(depth + 1)?;
        let (place, _new) = self.pairs.insert_full((old, site))?;
        Ok(self.roots + 1 + place as u32)
    }
}
