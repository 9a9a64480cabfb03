//! Picks of a module's instrumented form.
ghost use Rattle.std.specs.Prelude.{◌≡◌, ℕ, true, List, Some};
ghost use Rattle.ms_ir.specs.{declared.syntax.{Name.{Name}, Func.{Func}, Module.{Module}}, Instructions.{func_at}};
ghost use Rattle.ms_runs.specs.{declared.runs.Setup.{Setup}, Plain.{setting_of}, Faithful.{Fair}};
ghost use Rattle.ms_check_valid.specs.{CleanValues.{IsClean}, Formed.{Formed}, Valid.{Valid}};
ghost use Rattle.ms_pass_laws.specs.{Pass.{Numbering, pass}, Known.{KnownModule}};
ghost use Rattle.ms_threads_schedules_laws.specs.Picks.{plain_picks, shadow_picks};

/// Where the pass takes a module, and what it takes to be clean is clean in every run, the run of its instrumented form picks, with
/// each fair setup and each schedule, as the shadow run of the module does.
pub fn picks_followed()
    ensures { (m : Module) → Formed m → Valid m → (numbers : ℕ → Numbering)
        → ((n : ℕ) (f : Func) → func_at m n ≡ Some f → (x : Name) → (numbers n).env.clean x ≡ true → IsClean m f x)
        → (setup : Setup) → Fair setup → KnownModule (setting_of m setup) numbers m → (schedule : List ℕ) → plain_picks (pass numbers m) setup schedule ≡ shadow_picks m setup schedule }
{}
