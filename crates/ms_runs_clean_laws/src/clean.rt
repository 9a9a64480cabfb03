//! Values that are clean in every run: those for which the pass inserts nothing. `d` are rules that give masks.
ghost use Rattle.std.specs.Prelude.{◌≡◌, ℕ, Some};
ghost use Rattle.ms_ir.specs.declared.syntax.Module.{Module};
ghost use Rattle.ms_runs.specs.{declared.runs.Setup.{Setup}, World.{World}, Plain.{setting_of}};
ghost use Rattle.ms_runs.specs.Masks.{Rules, by_completions, by_formulas};
ghost use Rattle.ms_runs.specs.Shadow.{ShadowState, shadow_step, shadow_start};
ghost use Rattle.ms_check_valid.specs.{Formed.{Formed}, Valid.{Valid}};
ghost use Rattle.ms_runs_good_laws.specs.{GoodStates.{GoodShadow}, Reached.{Walk, walked}, GoodRules.{KeepWidths}};
ghost use Rattle.ms_runs_good_laws.specs.{GoodRuns.{LeadsTo}, GoodWorlds.{GivesBytes}};
ghost use Rattle.ms_runs_clean_laws.specs.{KeepClean.{KeepClean}, CleanStates.{AllCleanValues, ReadsClean}};

/// Of words without a poisoned bit, the rules that try all completions give none, nor do the formulas of inserted code.
pub fn clean_rules()
    ensures completions { KeepClean by_completions }
    ensures formulas { KeepClean by_formulas }
{}

/// A shadow run starts with clean values clean, and each step from a good state keeps them clean.
pub fn clean_steps()
    ensures starts { (m : Module) (setup : Setup) → AllCleanValues m (shadow_start m setup) }
    ensures steps { (d : Rules) → KeepClean d → (m : Module) → Formed m → Valid m → (setup : Setup) → (state : ShadowState) → GoodShadow m state → AllCleanValues m state
        → LeadsTo (AllCleanValues m) (λ w. Unit {0}) (shadow_step d (setting_of m setup) m state) }
{}

/// In every state of a shadow run of a formed and valid module clean values have no poisoned bit, and clean operands are read
/// without one.
pub fn clean_runs()
    ensures values { (d : Rules) → KeepClean d → KeepWidths d → (m : Module) → Formed m → Valid m → (setup : Setup) → GivesBytes setup
        → (n : ℕ) (walk : Walk) → walked d m setup n ≡ Some walk → AllCleanValues m walk.state }
    ensures operands { (d : Rules) → KeepClean d → KeepWidths d → (m : Module) → Formed m → Valid m → (setup : Setup) → GivesBytes setup
        → (n : ℕ) (walk : Walk) → walked d m setup n ≡ Some walk → ReadsClean m walk.state }
{}
