//! Sets of places below 64, one bit for each: the places of a round's values.
ghost use Rattle.std.specs.Prelude.{◌≡◌, ℕ, ◌<◌, ◌≤◌, ◌↔◌, ◌⊎◌, IsTrue};
ghost use Rattle.ms_flow.specs.Search.{Has};

/// Whether the set has the place.
pub fn has(word: u64, place: usize) -> bool
    requires { place < 64 }
    ensures { IsTrue result ↔ Has word place }
{
    (word >> place) & 1 == 1
}

/// The set with the place.
pub fn with(word: u64, place: usize) -> u64
    requires { place < 64 }
    ensures { (i : ℕ) → Has result i ↔ (Has word i ⊎ (i ≡ place)) }
{
    word | (1 << place)
}

/// The places of the first set that the second hasn't.
pub fn without(word: u64, other: u64) -> u64
    ensures { (i : ℕ) → i < 64 → Has result i ↔ (Has word i × ¬ Has other i) }
{
    word & !other
}

/// The places of both sets.
pub fn union(word: u64, other: u64) -> u64
    ensures members { (i : ℕ) → Has result i ↔ (Has word i ⊎ Has other i) }
    ensures grown { word ≤ result }
{
    word | other
}
