//! What is told of runs: each use once, blind places, and the calls at the end. Laws about the definitions, computed by the
//! prover.
ghost use Rattle.std.specs.Prelude.{◌≡◌, true, [], ◌∷◌, Some};
ghost use Rattle.ms_runs.specs.declared.runs.End.TheVariants as «end»;
ghost use Rattle.ms_runs.specs.{Shadow.{shadow}, Calls.{shadow_blind_by, shadow_end_calls, places_of}, Masks.{by_formulas}};
ghost use Rattle.ms_runs_examples.specs.{Setups.{defaults, steps}, ToldPrograms.{uses_told, told_again, divided, deep_trap}};

/// A call in a loop has two undefined arguments. Reported each time they come to the limit in its third round; reported once,
/// both parts are, and the use after the loop, and what isn't reported again doesn't count for the limit.
pub fn each_use_once()
    ensures each_time { uses_told (shadow told_again (record defaults { reports = 5 })) ≡ (4, 0) ∷ (4, 1) ∷ (4, 0) ∷ (4, 1) ∷ (4, 0) ∷ [] }
    ensures once { uses_told (shadow told_again (record defaults { reports = 5; once = true })) ≡ (4, 0) ∷ (4, 1) ∷ (7, 0) ∷ [] }
    ensures goes_on { (shadow told_again (record defaults { reports = 5; once = true })).«end» ≡ «end».Exit 0 }
    ensures full { (shadow told_again (record defaults { reports = 2; once = true })).«end» ≡ «end».Reported }
    ensures first { uses_told (shadow told_again (record defaults { once = true })) ≡ (4, 0) ∷ [] }
{}

/// Two blind uses in a helper and one in `main`, with the masks by formulas, which are those by completions.
pub fn blind_places()
    ensures sites { shadow_blind_by by_formulas divided defaults ≡ 1 ∷ 1 ∷ 5 ∷ [] }
    ensures places { places_of (shadow_blind_by by_formulas divided defaults) ≡ record { site = 1; count = 2 } ∷ record { site = 5; count = 1 } ∷ [] }
{}

/// The calls above a trap, and those where the steps are spent before it.
pub fn calls_at_the_end()
    ensures trap { shadow_end_calls deep_trap defaults ≡ Some (record { sites = 2 ∷ 4 ∷ 6 ∷ []; started = 0 }) }
    ensures spent { shadow_end_calls deep_trap (steps 3) ≡ Some (record { sites = 2 ∷ 4 ∷ 6 ∷ []; started = 0 }) }
    ensures before { shadow_end_calls deep_trap (steps 2) ≡ Some (record { sites = 4 ∷ 6 ∷ []; started = 0 }) }
{}
