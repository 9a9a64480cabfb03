//! What a shadow run has reached: a law about the definition.
ghost use Rattle.std.specs.Prelude.{◌≡◌, ◌+◌, ℕ, Some};
ghost use Rattle.ms_ir.specs.declared.syntax.Module.{Module};
ghost use Rattle.ms_runs.specs.{declared.runs.Setup.{Setup}, Masks.{Rules}};
ghost use Rattle.ms_runs.specs.{Plain.{run, setting_of}, Shadow.{shadow_step, shadow_by}};
ghost use Rattle.ms_runs_good_laws.specs.Reached.{Walk, walked};

/// From where a walk has come to, the run goes on to what it returns.
pub fn walked_runs()
    ensures { (d : Rules) (m : Module) (setup : Setup) (n left : ℕ) (walk : Walk) → walked d m setup n ≡ Some walk → setup.steps ≡ n + left
        → shadow_by d m setup ≡ run (λ c. c.world) (shadow_step d (setting_of m setup) m) left walk.state }
{}
