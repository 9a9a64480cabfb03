//! Moves of example runs, of which `explain` makes its ways, computed by the prover. The values are worked out by hand. A move
//! has an event, a site, from where and to where; `value n f` is value n of frame f, `hop` the number of a move and a byte.
ghost use Rattle.std.specs.Prelude.{◌≡◌, [], ◌∷◌, Some};
ghost use Rattle.ms_runs_examples.specs.Programs.{branch_on_unset};
ghost use Rattle.ms_runs_examples.specs.Setups.{defaults};
ghost use Rattle.ms_trail_moves.specs.{Leads.{Leads}, Scanned.{trail_of}, Traces.{trace, Found}};
ghost use Rattle.ms_runs_examples.specs.Traces.{unset_moves, neighbour_moves, swapped_moves, hop, neighbour_read, phis_swapped, higher_byte, settled_bits, passed_through, grown_and_moved, root, value, byte, to_value, to_bytes, move as moves};

/// An unset word is loaded, compared and branched on.
pub fn unset_word()
    ensures moves { trace branch_on_unset defaults ≡ Found unset_moves (value 3 0) }
    ensures way { trail_of unset_moves (value 3 0) ≡ Some (hop 0 0 ∷ hop 1 0 ∷ hop 2 0 ∷ []) }
    ensures leads { Leads unset_moves (value 3 0) (hop 0 0 ∷ hop 1 0 ∷ hop 2 0 ∷ []) }
{}

/// The byte that is read has its own way, though a neighbour in its cell was stored to.
pub fn neighbour()
    ensures moves { trace neighbour_read defaults ≡ Found neighbour_moves (value 4 0) }
    ensures way { trail_of neighbour_moves (value 4 0) ≡ Some (hop 0 1 ∷ hop 2 0 ∷ hop 3 0 ∷ []) }
    ensures leads { Leads neighbour_moves (value 4 0) (hop 0 1 ∷ hop 2 0 ∷ hop 3 0 ∷ []) }
    ensures refused { Leads neighbour_moves (value 4 0) (hop 1 0 ∷ hop 2 0 ∷ hop 3 0 ∷ []) → ⊥ }
{}

/// Phis read what stood before the branch.
pub fn swapped()
    ensures moves { trace phis_swapped defaults ≡ Found swapped_moves (value 3 0) }
    ensures way { trail_of swapped_moves (value 3 0) ≡ Some (hop 0 0 ∷ hop 3 0 ∷ []) }
    ensures leads { Leads swapped_moves (value 3 0) (hop 0 0 ∷ hop 3 0 ∷ []) }
    ensures refused { Leads swapped_moves (value 3 0) (hop 1 0 ∷ hop 2 0 ∷ hop 3 0 ∷ []) → ⊥ }
{}

/// A word is one place: where two bytes of it are poisoned, the way goes by the lower one, also where only the higher one's
/// bits are used.
pub fn higher()
    ensures { trace higher_byte defaults
        ≡ Found (moves 0 1 (root 1) (to_bytes 0x720000000000 2)
        ∷ moves 2 3 (root 2) (to_bytes 0x720000000001 1)
        ∷ moves 3 4 (byte 0x720000000000) (to_value 3 0)
        ∷ moves 4 5 (value 3 0) (to_value 4 0)
        ∷ moves 5 6 (value 4 0) (to_value 5 0)
        ∷ []) (value 5 0) }
{}

/// A result comes from the last operand that is poisoned, also where none of its poisoned bits is one of the result's.
pub fn settled()
    ensures { trace settled_bits defaults
        ≡ Found (moves 0 1 (root 1) (to_value 1 0)
        ∷ moves 1 2 (value 1 0) (to_value 2 0)
        ∷ moves 2 3 (root 2) (to_value 3 0)
        ∷ moves 3 4 (value 3 0) (to_value 4 0)
        ∷ []) (value 4 0) }
{}

/// A parameter is written by the call, and the call's result by the return.
pub fn passed()
    ensures { trace passed_through defaults
        ≡ Found (moves 0 1 (root 1) (to_value 0 1)
        ∷ moves 1 3 (value 0 1) (to_value 1 0)
        ∷ []) (value 1 0) }
{}

/// `realloc` copies what the block had and makes the rest; a copy over itself reads what stood before.
pub fn grown()
    ensures { trace grown_and_moved defaults
        ≡ Found (moves 0 1 (root 1) (to_bytes 0x710000000000 2)
        ∷ moves 2 3 (byte 0x710000000001) (to_bytes 0x710000000011 1)
        ∷ moves 2 3 (root 2) (to_bytes 0x710000000012 2)
        ∷ moves 4 5 (byte 0x710000000011) (to_bytes 0x710000000012 2)
        ∷ moves 6 7 (byte 0x710000000012) (to_value 6 0)
        ∷ moves 7 8 (value 6 0) (to_value 7 0)
        ∷ []) (value 7 0) }
{}
