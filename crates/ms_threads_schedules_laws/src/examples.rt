//! Small runs explored: laws about the definitions, computed by the prover. The values are worked out by hand. A schedule is a
//! list of numbers, each which of the fibers that can go on is picked; `[]` goes on with zeros.
ghost use Rattle.std.specs.Prelude.{◌≡◌, [], ◌∷◌};
ghost use Rattle.ms_bits.specs.declared.traps.Trap.TheVariants as trap;
ghost use Rattle.ms_runs.specs.declared.runs.End.TheVariants as «end»;
ghost use Rattle.ms_runs_threads.specs.Scripts.{ends, prints_one, join_round, makes_one};
ghost use Rattle.ms_threads_schedules_laws.specs.Exploration.{padded, beginnings_left};
ghost use Rattle.ms_threads_schedules_laws.specs.Examples.{script_picks, first_runs, makes_and_joins, makes_two, makes_a_round};

/// A fiber that is made and joined leaves no choice: one run, and nothing is left.
pub fn no_choice()
    ensures runs { first_runs prints_one makes_and_joins 9 ≡ [] ∷ [] }
    ensures left { beginnings_left (script_picks prints_one makes_and_joins) 1 ≡ [] }
{}

/// Where `main` lets another fiber go on there are two runs, of which the second prints in the other order. After the first one a
/// beginning is left; after the second none, though the bound is met.
pub fn two_orders()
    ensures runs { first_runs prints_one makes_one 9 ≡ [] ∷ (0 ∷ 1 ∷ []) ∷ [] }
    ensures first { ends prints_one makes_one (padded []) 20 ≡ («end».Exit 0, 65 ∷ 66 ∷ []) }
    ensures second { ends prints_one makes_one (padded (0 ∷ 1 ∷ [])) 20 ≡ («end».Exit 0, 66 ∷ 65 ∷ []) }
    ensures one_left { beginnings_left (script_picks prints_one makes_one) 1 ≡ (0 ∷ 1 ∷ []) ∷ [] }
    ensures none_left { beginnings_left (script_picks prints_one makes_one) 2 ≡ [] }
{}

/// Three fibers with joins alone have five runs.
pub fn three_fibers()
    ensures runs { first_runs prints_one makes_two 9 ≡ [] ∷ (0 ∷ 1 ∷ []) ∷ (0 ∷ 0 ∷ 1 ∷ []) ∷ (0 ∷ 0 ∷ 0 ∷ 1 ∷ []) ∷ (0 ∷ 1 ∷ 0 ∷ 1 ∷ []) ∷ [] }
    ensures one_left { beginnings_left (script_picks prints_one makes_two) 4 ≡ (0 ∷ 1 ∷ 0 ∷ 1 ∷ []) ∷ [] }
    ensures none_left { beginnings_left (script_picks prints_one makes_two) 5 ≡ [] }
{}

/// Two fibers that join each other block each other unless the first one asks before the second one is made: six runs, of which
/// three end in a deadlock.
pub fn deadlock_in_some_orders()
    ensures runs { first_runs join_round makes_a_round 9
        ≡ [] ∷ (0 ∷ 1 ∷ []) ∷ (0 ∷ 0 ∷ 1 ∷ []) ∷ (0 ∷ 1 ∷ 1 ∷ []) ∷ (0 ∷ 1 ∷ 1 ∷ 0 ∷ 1 ∷ []) ∷ (0 ∷ 1 ∷ 1 ∷ 0 ∷ 1 ∷ 1 ∷ []) ∷ [] }
    ensures none_left { beginnings_left (script_picks join_round makes_a_round) 6 ≡ [] }
    ensures blocked { ends join_round makes_a_round (padded []) 20 ≡ («end».Trap trap.Deadlock 1, []) }
    ensures second_blocked { ends join_round makes_a_round (padded (0 ∷ 1 ∷ [])) 20 ≡ («end».Trap trap.Deadlock 1, []) }
    ensures third_blocked { ends join_round makes_a_round (padded (0 ∷ 0 ∷ 1 ∷ [])) 20 ≡ («end».Trap trap.Deadlock 1, []) }
    ensures goes_on { ends join_round makes_a_round (padded (0 ∷ 1 ∷ 1 ∷ [])) 20 ≡ («end».Exit 0, []) }
    ensures last_goes_on { ends join_round makes_a_round (padded (0 ∷ 1 ∷ 1 ∷ 0 ∷ 1 ∷ 1 ∷ [])) 20 ≡ («end».Exit 0, []) }
{}
