//! The sites of blind uses, and the calls at the end, of a module's instrumented form with guest threads.
ghost use Rattle.std.specs.Prelude.{◌≡◌, ℕ, true, List, Some};
ghost use Rattle.ms_ir.specs.{declared.syntax.Name.{Name}, declared.syntax.Func.{Func}};
ghost use Rattle.ms_ir.specs.{declared.syntax.Module.{Module}, Instructions.{func_at}};
ghost use Rattle.ms_runs.specs.{declared.runs.Setup.{Setup}, Plain.{setting_of}, Faithful.{Fair}};
ghost use Rattle.ms_check_valid.specs.{CleanValues.{IsClean}, Formed.{Formed}, Valid.{Valid}};
ghost use Rattle.ms_pass_laws.specs.{Pass.{Numbering, pass}, Known.{KnownModule}};
ghost use Rattle.ms_runs_threads.specs.Blind.{plain_threads_blind, shadow_threads_blind, plain_threads_end_calls, shadow_threads_end_calls};

/// Where the pass takes a module, and what it takes to be clean is clean in every run, the blind uses of its instrumented form
/// have with each fair setup and each schedule the sites that those of the shadow run have.
pub fn thread_blind_followed()
    ensures { (m : Module) → Formed m → Valid m → (numbers : ℕ → Numbering)
        → ((n : ℕ) (f : Func) → func_at m n ≡ Some f → (x : Name) → (numbers n).env.clean x ≡ true → IsClean m f x)
        → (setup : Setup) → Fair setup → KnownModule (setting_of m setup) numbers m → (schedule : List ℕ) → plain_threads_blind (pass numbers m) setup schedule ≡ shadow_threads_blind m setup schedule }
{}

/// Where the pass takes a module, the run of its instrumented form ends in the calls in which the shadow run ends: those of the
/// thread whose step ended it, with the call that made that thread.
pub fn thread_ends_followed()
    ensures { (m : Module) → Formed m → Valid m → (numbers : ℕ → Numbering)
        → ((n : ℕ) (f : Func) → func_at m n ≡ Some f → (x : Name) → (numbers n).env.clean x ≡ true → IsClean m f x)
        → (setup : Setup) → Fair setup → KnownModule (setting_of m setup) numbers m → (schedule : List ℕ) → plain_threads_end_calls (pass numbers m) setup schedule ≡ shadow_threads_end_calls m setup schedule }
{}
