//! How modules with guest threads run: laws about the definitions, computed by the prover. The modules stand in
//! `specs/Threads.antt`; the list after the setup is the schedule.
ghost use Rattle.std.specs.Prelude.{◌≡◌, ℕ, List, [], ◌∷◌};
ghost use Rattle.ms_bits.specs.declared.traps.Trap.TheVariants as trap;
ghost use Rattle.ms_runs.specs.declared.runs.End.TheVariants as «end»;
ghost use Rattle.ms_runs.specs.declared.runs.Origin.TheVariants as origin;
ghost use Rattle.ms_runs_examples.specs.Setups.{defaults, steps, prints, spent, trapped, exits, reported};
ghost use Rattle.ms_runs_threads.specs.{PlainFibers.{plain_threads}, ShadowFibers.{shadow_threads}};
ghost use Rattle.ms_runs_examples.specs.Threads.{prints_from_two, joins_round, joins_unset, reads_room_of_ended, frees_own_room};

/// Plain runs with a schedule.
pub fn plain_rows()
    ensures main_first { plain_threads prints_from_two defaults (0 ∷ []) ≡ prints (65 ∷ 66 ∷ []) («end».Exit 0) }
    ensures in_turn { plain_threads prints_from_two defaults (0 ∷ 1 ∷ []) ≡ prints (66 ∷ 65 ∷ []) («end».Exit 0) }
    ensures deadlock { plain_threads joins_round defaults (0 ∷ []) ≡ trapped trap.Deadlock 9 }
    ensures spent_at_a_join { plain_threads joins_round (steps 6) (0 ∷ []) ≡ spent }
    ensures unset { plain_threads joins_unset defaults (0 ∷ []) ≡ exits 0xa5a5a5a5 }
    ensures room_ends { plain_threads reads_room_of_ended defaults (0 ∷ []) ≡ trapped trap.BadAddress 8 }
    ensures room_freed { plain_threads frees_own_room defaults (0 ∷ []) ≡ exits 0 }
{}

/// Shadow runs with a schedule.
pub fn shadow_rows()
    ensures main_first { shadow_threads prints_from_two defaults (0 ∷ []) ≡ prints (65 ∷ 66 ∷ []) («end».Exit 0) }
    ensures in_turn { shadow_threads prints_from_two defaults (0 ∷ 1 ∷ []) ≡ prints (66 ∷ 65 ∷ []) («end».Exit 0) }
    ensures deadlock { shadow_threads joins_round defaults (0 ∷ []) ≡ trapped trap.Deadlock 9 }
    ensures unset { shadow_threads joins_unset defaults (0 ∷ [])
        ≡ reported (record { site = 9; kind = 8; part = 0; width = 32; mask = 0xffffffff; origin = 4; chain = origin.Chain 1 7 ∷ origin.Root 1 ∷ [] }) }
{}
