//! What goes wrong in two fills without a premise of the laws, computed by the prover. The values are worked out by hand.
ghost use Rattle.std.specs.Prelude.{◌≡◌, [], ◌∷◌};
ghost use Rattle.ms_runs_fills_laws.specs.ExampleWorlds.{grown_from_null};

/// In a world that has a block of the heap at 0, which no run reaches, `realloc` of null takes that block's size for the
/// number of bytes that are copied: under each fill the new block has bytes of the fill, and no shadow.
pub fn blocks_at_zero()
    ensures clean { (grown_from_null (1 ∷ [])).shadow 0x710000000010 ≡ 0 }
    ensures one { (grown_from_null (1 ∷ [])).bytes 0x710000000010 ≡ 1 }
    ensures two { (grown_from_null (2 ∷ [])).bytes 0x710000000010 ≡ 2 }
{}
