//! The definitions of a graph as one sorted list of pairs, a block and a value; and which blocks define the values of a round. In
//! contracts `Has word i` says that place i is in a set.
ghost use Rattle.std.specs.Prelude.{◌≡◌, ℕ, ◌<◌, ◌≤◌, ◌↔◌, ◌⊎◌, length, vec_len, IfOk, OnOk, IsTrue, All, Contains, slice_index_or};
ghost use Rattle.ms_flow.specs.{Paths.{Defines}, Search.{Has}};

use crate::graphs::Graph;
use crate::places;
use ms_bits::NoMemory;
use std::alloc::Global;

/// The pairs of a block and a value that it defines, in order.
pub fn definitions(alloc: Global, g: &Graph) -> Result<Vec<(usize, u32)>, NoMemory>
    requires { length g.now.next ≡ length g.now.defs }
    ensures { IfOk result (λ d. (b v : ℕ) → Contains d.items (b, v) ↔ Defines g.now b v) }
{
    let mut pairs = Vec::new(alloc);
    for block in 0..g.len() {
        add_definitions(block, g.definitions(block), &mut pairs)?;
    }
    pairs.sort()?;
    Ok(pairs)
}

/// Adds the pairs of a block with the values that it defines.
fn add_definitions(
    block: usize,
    values: &[u32],
    pairs: &mut Vec<(usize, u32)>,
) -> Result<(), NoMemory>
    ensures { OnOk result ((b v : ℕ) → Contains pairs.new.items (b, v)
        ↔ (Contains pairs.old.items (b, v) ⊎ ((b ≡ block) × Contains values.now v))) }
{
    for value in values {
        pairs.push((block, *value))?;
    }
    Ok(())
}

/// Whether the list of definitions has the pair. A list that isn't in order may be found to lack a pair that
/// it has.
pub fn has_definition(definitions: &[(usize, u32)], block: usize, value: u32) -> bool
    ensures { IsTrue result → Contains definitions.now (block, value) }
{
    definitions.binary_search(&(block, value)).is_ok()
}

/// Writes for each block the places, among the values of a round, of those that it defines.
pub fn tell(values: &[u32], definitions: &[(usize, u32)], kills: &mut [u64])
    requires few { length values.now ≤ 64 }
    requires blocks { All (λ d. d.0 < length kills.old) definitions.now }
    ensures { (b i : ℕ) → i < length values.now →
        Has (slice_index_or kills.new b 0) i ↔ Contains definitions.now (b, slice_index_or values.now i 0) }
{
    kills.fill(0);
    let (low, high) = bounds(values);
    for (block, value) in definitions {
        if low <= *value && *value <= high {
            kills[*block] = with_value(values, *value, kills[*block]);
        }
    }
}

/// A least and a greatest number for all of the values, by which definitions of others are passed over.
fn bounds(values: &[u32]) -> (u32, u32)
    ensures { All (λ v. (result.0 ≤ v) × (v ≤ result.1)) values.now }
{
    let mut low = u32::MAX;
    let mut high = 0;
    for value in values {
        low = low.min(*value);
        high = high.max(*value);
    }
    (low, high)
}

/// The set `word` with the places at which the value stands.
fn with_value(values: &[u32], value: u32, word: u64) -> u64
    requires { length values.now ≤ 64 }
    ensures { (i : ℕ) → i < length values.now →
        Has result i ↔ (Has word i ⊎ (slice_index_or values.now i 0 ≡ value)) }
{
    let mut places = word;
    for (place, other) in values.iter().enumerate() {
        if *other == value {
            places = places::with(places, place);
        }
    }
    places
}
