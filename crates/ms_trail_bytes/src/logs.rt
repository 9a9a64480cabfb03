//! The log of a traced run: its moves as they are told, up to a limit. `IsLog log moves` says that these were told to it.
ghost use Rattle.std.specs.Prelude.{◌≤◌, ◌<◌, ◌+◌, ◌^◌, ◌++◌, [], ◌∷◌, List, IsTrue, ◌↔◌, OnOk};
ghost use Rattle.ms_trail_moves.specs.declared.moves.Move.{Move as MoveOf};
ghost use Rattle.ms_trail_bytes.specs.Logs.{move_limit, IsLog};

use ms_bits::NoMemory;
use ms_trail_moves::moves::Move;
use std::alloc::Global;

/// How many moves are kept.
pub const MOVE_LIMIT: u64 = 4_194_304;

/// The moves so far, of which the first are kept.
#[derive(Drop)]
pub struct Log {
    /// Those that are kept. The list grows by its own allocator.
    pub moves: Vec<Move>,
    /// How many were told, with those that aren't kept.
    pub count: u64,
}

impl Log {
    /// A log of no moves. It takes no memory yet.
    pub fn new(alloc: Global) -> Log
        ensures { IsLog result [] }
    {
        Log {
            moves: Vec::new(alloc),
            count: 0,
        }
    }

    /// Whether the next move is kept.
    #[tactic(auto, unfolding(crate::specs::Logs::move_limit))]
    pub fn has_room(&self) -> bool
        ensures { IsTrue result ↔ (self.now.count < move_limit) }
    {
        self.count < MOVE_LIMIT
    }

    /// Adds one move more, which is kept.
    pub fn push(&mut self, told: Move) -> Result<(), NoMemory>
        requires room { self.old.count < move_limit }
        requires few { self.old.count + 1 < 2 ^ 64 }
        ensures told { (moves : List MoveOf) → IsLog self.old moves → OnOk result (IsLog self.new (moves ++ told ∷ [])) }
        ensures count { self.new.count ≤ self.old.count + 1 }
    {
        self.moves.push(told)?;
        self.count += 1;
        Ok(())
    }

    /// Counts one move more, which isn't kept.
    pub fn skip(&mut self)
        requires full { move_limit ≤ self.old.count }
        requires few { self.old.count + 1 < 2 ^ 64 }
        ensures told { (moves : List MoveOf) (told : MoveOf) → IsLog self.old moves → IsLog self.new (moves ++ told ∷ []) }
        ensures count { self.new.count ≤ self.old.count + 1 }
    {
        self.count += 1;
    }

    /// Adds one move more, which is kept where there is room, and else only counted.
    #[tactic(auto, unfolding(crate::specs::Logs::move_limit))]
    pub fn add(&mut self, told: Move) -> Result<(), NoMemory>
        requires { self.old.count + 1 < 2 ^ 64 }
        ensures told { (moves : List MoveOf) → IsLog self.old moves → OnOk result (IsLog self.new (moves ++ told ∷ [])) }
        ensures count { self.new.count ≤ self.old.count + 1 }
    {
        if self.count < MOVE_LIMIT {
            self.push(told)
        } else {
            self.skip();
            Ok(())
        }
    }
}
