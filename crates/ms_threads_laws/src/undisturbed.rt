//! What a shadow run with guest threads shows of the plain run.
ghost use Rattle.std.specs.Prelude.{ℕ, List};
ghost use Rattle.ms_ir.specs.{declared.syntax.Module.{Module}, Instructions.{NoMarks}};
ghost use Rattle.ms_runs.specs.{declared.runs.Setup.{Setup}, Masks.{Rules}, Faithful.{Undisturbed}};
ghost use Rattle.ms_runs_threads.specs.{PlainFibers.{plain_threads}, ShadowFibers.{shadow_threads_by}};

/// Checks don't disturb a run of fibers: with one schedule the shadow run of a module without marks puts out a beginning of
/// what its plain run puts out, and unless it ends as reported it has the same end and the same output.
pub fn threads_undisturbed()
    ensures { (d : Rules) (m : Module) → NoMarks m → (setup : Setup) (schedule : List ℕ) → Undisturbed (shadow_threads_by d m setup schedule) (plain_threads m setup schedule) }
{}
