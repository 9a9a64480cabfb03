//! What a schedule does: laws about the definitions, computed by the prover of examples whose fibers are short lists of what
//! they do. The values are worked out by hand.
ghost use Rattle.std.specs.Prelude.{◌≡◌, [], ◌∷◌};
ghost use Rattle.ms_bits.specs.declared.traps.Trap.TheVariants as trap;
ghost use Rattle.ms_runs.specs.declared.runs.End.TheVariants as «end»;
ghost use Rattle.ms_runs_threads.specs.Scripts.{ends, prints_one, join_round, makes_one, Makes, Joins, Prints, Yields};

/// Of the runnable fibers the one goes on that stands at the schedule's number modulo how many they are, and the schedule
/// begins anew where it ends.
pub fn picks()
    ensures first { ends prints_one makes_one (0 ∷ []) 20 ≡ («end».Exit 0, 65 ∷ 66 ∷ []) }
    ensures second { ends prints_one makes_one (0 ∷ 1 ∷ []) 20 ≡ («end».Exit 0, 66 ∷ 65 ∷ []) }
    ensures remainder { ends prints_one makes_one (5 ∷ []) 20 ≡ («end».Exit 0, 66 ∷ 65 ∷ []) }
{}

/// A run ends where no fiber is runnable, at the call at which `main` stands; as spent where no step is left, before a pick;
/// and by the return of `main`, though another fiber hasn't ended.
pub fn endings()
    ensures deadlock { ends join_round (Makes 0 ∷ Makes 1 ∷ Joins 1 ∷ []) (0 ∷ []) 20 ≡ («end».Trap trap.Deadlock 1, []) }
    ensures spent { ends prints_one makes_one (0 ∷ 1 ∷ []) 2 ≡ («end».Spent, []) }
    ensures returned { ends prints_one (Makes 0 ∷ Yields ∷ []) (0 ∷ []) 20 ≡ («end».Exit 0, []) }
{}
