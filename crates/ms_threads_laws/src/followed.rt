//! Runs with guest threads of a module's instrumented form.
ghost use Rattle.std.specs.Prelude.{◌≡◌, ℕ, true, List, Some, length};
ghost use Rattle.ms_ir.specs.{declared.syntax.Name.{Name}, declared.syntax.Func.{Func}};
ghost use Rattle.ms_ir.specs.{declared.syntax.Module.{Module}, Instructions.{func_at}};
ghost use Rattle.ms_runs.specs.{declared.runs.Setup.{Setup}, Plain.{setting_of}, Faithful.{Fair}};
ghost use Rattle.ms_check_valid.specs.{CleanValues.{IsClean}, Formed.{Formed}, Valid.{Valid}};
ghost use Rattle.ms_pass_laws.specs.{Pass.{Numbering, pass}, Known.{KnownModule}};
ghost use Rattle.ms_runs_threads.specs.{PlainFibers.{plain_threads}, ShadowFibers.{shadow_threads}};
ghost use Rattle.ms_runs_threads.specs.Calls.{plain_threads_calls, shadow_threads_calls};

/// The law of one step holds of each fiber: where the pass takes a module, and what it takes to be clean is clean in every run, its
/// instrumented form runs with each fair setup and each schedule as the shadow run of the module says.
pub fn threads_followed()
    ensures { (m : Module) → Formed m → Valid m → (numbers : ℕ → Numbering)
        → ((n : ℕ) (f : Func) → func_at m n ≡ Some f → (x : Name) → (numbers n).env.clean x ≡ true → IsClean m f x)
        → (setup : Setup) → Fair setup → KnownModule (setting_of m setup) numbers m → (schedule : List ℕ) → plain_threads (pass numbers m) setup schedule ≡ shadow_threads m setup schedule }
{}

/// At each report of a run of a module's instrumented form the calls stand that stand at that report of the shadow run: down to
/// `main`, or to the first function of a thread, which the same call made in both.
pub fn thread_calls_followed()
    ensures { (m : Module) → Formed m → Valid m → (numbers : ℕ → Numbering)
        → ((n : ℕ) (f : Func) → func_at m n ≡ Some f → (x : Name) → (numbers n).env.clean x ≡ true → IsClean m f x)
        → (setup : Setup) → Fair setup → KnownModule (setting_of m setup) numbers m → (schedule : List ℕ) → plain_threads_calls (pass numbers m) setup schedule ≡ shadow_threads_calls m setup schedule }
{}

/// Each report of a plain run has its calls, and so has each report of a shadow run that the plain run of another module is,
/// with the same calls.
pub fn thread_calls_one_each()
    ensures plain_runs { (m : Module) (setup : Setup) (schedule : List ℕ) → length (plain_threads_calls m setup schedule) ≡ length (plain_threads m setup schedule).reports }
    ensures shadow_runs { (m j : Module) (setup : Setup) (schedule : List ℕ) → plain_threads j setup schedule ≡ shadow_threads m setup schedule
        → plain_threads_calls j setup schedule ≡ shadow_threads_calls m setup schedule → length (shadow_threads_calls m setup schedule) ≡ length (shadow_threads m setup schedule).reports }
{}
