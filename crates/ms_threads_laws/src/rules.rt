//! Masks by completions and by formulas, in runs of fibers.
ghost use Rattle.std.specs.Prelude.{◌≡◌, ℕ, List};
ghost use Rattle.ms_ir.specs.declared.syntax.Module.{Module};
ghost use Rattle.ms_runs.specs.{declared.runs.Setup.{Setup}, Masks.{Rules, SameRules, by_completions, by_formulas}};
ghost use Rattle.ms_runs_threads.specs.ShadowFibers.{shadow_threads_by};

/// Rules that give the same masks give the same shadow runs of fibers under every schedule. So do the rules by completions
/// and those by formulas.
pub fn same_threads()
    ensures rules { (d e : Rules) → SameRules d e → (m : Module) (setup : Setup) (schedule : List ℕ) → shadow_threads_by d m setup schedule ≡ shadow_threads_by e m setup schedule }
    ensures computed { (m : Module) (setup : Setup) (schedule : List ℕ) → shadow_threads_by by_completions m setup schedule ≡ shadow_threads_by by_formulas m setup schedule }
{}
