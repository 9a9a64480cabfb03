//! For each block of a function, the blocks from which edges lead to it, against which phis are checked.
ghost use Rattle.std.specs.Prelude.{◌≡◌, ◌<◌, ◌++◌, ℕ, [], ◌∷◌, length, IfOk, OnOk, slice_set, slice_index_or};

use ms_bits::NoMemory;
use std::alloc::Global;
use std::marker::Model;

/// For each block the numbers of blocks from which edges lead to it, once for each edge. Contracts see the lists.
#[derive(Drop)]
pub struct Arrivals {
    /// One for each block, at its number.
    rows: Vec<Vec<u32>>,
}

impl Model for Arrivals {
    ghost use Rattle.std.specs.Prelude.{ℕ, List, map};

    ghost Value = { List (List ℕ) };

    ghost view = { λ a. map (λ row. row.items) a.rows.items };
}

impl Arrivals {
    /// No edges between so many blocks.
    pub fn none(alloc: Global, blocks: u32) -> Result<Arrivals, NoMemory>
        ensures len { IfOk result (λ a. length a ≡ blocks) }
        ensures empty { IfOk result (λ a. (to : ℕ) → slice_index_or a to [] ≡ []) }
    {
        let mut rows = Vec::new(alloc);
        for _ in 0..blocks {
            rows.push(Vec::new(alloc))?;
        }
        Ok(Arrivals { rows })
    }

    /// The number of blocks.
    pub fn len(&self) -> usize
        ensures { result ≡ length self.now }
    {
        self.rows.len()
    }

    /// Adds an edge between the blocks with these numbers.
    pub fn add(&mut self, from: u32, to: u32) -> Result<(), NoMemory>
        requires { to < length self.old }
        ensures { OnOk result (self.new ≡ slice_set self.old to (slice_index_or self.old to [] ++ from ∷ [])) }
    {
        self.rows[to as usize].push(from)?;
        Ok(())
    }

    /// The blocks from which edges lead to a block.
    pub fn at(&self, to: u32) -> &[u32]
        requires { to < length self.now }
        ensures { result.now ≡ slice_index_or self.now to [] }
    {
        &self.rows[to as usize]
    }
}
