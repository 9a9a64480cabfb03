//! What an example's shadow run has reached, and from where its poisoned bits come, computed by the prover.
ghost use Rattle.std.specs.Prelude.{◌≡◌, Some, IfSome, length, option_map};
ghost use Rattle.ms_runs_examples.specs.Setups.{defaults};
ghost use Rattle.ms_runs.specs.Masks.{by_formulas};
ghost use Rattle.ms_runs_examples.specs.Programs.{branch_on_unset};
ghost use Rattle.ms_runs_good_laws.specs.Reached.{walked, IsReached, HasReachedOrigins};
ghost use Rattle.ms_runs_examples.specs.Walks.{poisoned_from, phi_of_undef};

/// Where an unset word is due to be branched on, its bits and those of its bytes come from the `alloca`, which ran.
pub fn unset_word()
    ensures three_steps { option_map (λ walk. length walk.passed) (walked by_formulas branch_on_unset defaults 3) ≡ Some 3 }
    ensures reached { IfSome (walked by_formulas branch_on_unset defaults 3) (HasReachedOrigins branch_on_unset defaults) }
{}

/// Where bytes are said to come from an `alloca` that did not run, they do not come from what was reached.
pub fn unreached_root()
    ensures { ¬ HasReachedOrigins branch_on_unset defaults (poisoned_from 1 branch_on_unset defaults) }
{}

/// A phi reaches the undefined value of the edge that is taken, and not the other one.
pub fn undefined_edges()
    ensures two_steps { option_map (λ walk. length walk.passed) (walked by_formulas phi_of_undef defaults 2) ≡ Some 2 }
    ensures taken { IfSome (walked by_formulas phi_of_undef defaults 2) (λ walk. IsReached phi_of_undef walk 2) }
    ensures other { IfSome (walked by_formulas phi_of_undef defaults 2) (λ walk. ¬ IsReached phi_of_undef walk 1) }
{}
