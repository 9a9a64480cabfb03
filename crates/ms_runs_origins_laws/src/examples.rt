//! What goes wrong with origins without a premise of the laws, computed by the prover. The values are worked out by hand.
ghost use Rattle.std.specs.Prelude.{◌≡◌, ◌/◌, []};
ghost use Rattle.ms_runs.specs.Origins.{trail};
ghost use Rattle.ms_runs_origins_laws.specs.ExampleWorlds.{poisoned_room, one_byte_more, bare_setting};

/// Where a block of the heap will begin no byte has a poisoned bit, in any state that a run reaches. If one had, a new block
/// of one clean byte would take its origin, since origins stand for four bytes, and nothing would say where its bits come
/// from.
pub fn poison_beside_a_block()
    ensures before { poisoned_room.origins (0x710000000001 / 4) ≡ 1 }
    ensures still_poisoned { one_byte_more.shadow 0x710000000001 ≡ 255 }
    ensures no_origin { trail bare_setting one_byte_more (one_byte_more.origins (0x710000000001 / 4)) ≡ [] }
{}
