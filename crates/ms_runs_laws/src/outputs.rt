//! What a shadow run shows of the plain run, and with it what instrumented code does.
ghost use Rattle.std.specs.Prelude.{◌≡◌, ◌≢◌};
ghost use Rattle.ms_ir.specs.{declared.syntax.Module.{Module}, Instructions.{NoMarks}};
ghost use Rattle.ms_runs.specs.{declared.runs.Setup.{Setup}, Masks.{Rules}, Plain.{plain}, Shadow.{shadow_by}};
ghost use Rattle.ms_runs.specs.{declared.runs.End.TheVariants.{Reported}, Calls.{plain_end_calls, shadow_end_calls_by}};
ghost use Rattle.ms_runs.specs.Faithful.{Fair, Faithful, Undisturbed};

/// Checks don't disturb a run: the shadow run of a module without marks puts out a beginning of what its plain run puts
/// out, and unless it ends as reported it has the same end and the same output. This holds for every choice of masks, and
/// so for the plain run of a module with inserted code that is faithful.
pub fn undisturbed()
    ensures shadow_runs { (d : Rules) (m : Module) → NoMarks m → (setup : Setup) → Undisturbed (shadow_by d m setup) (plain m setup) }
    ensures instrumented { (m j : Module) → Faithful m j → (setup : Setup) → Fair setup → Undisturbed (plain j setup) (plain m setup) }
{}

/// Checks don't disturb where a run stands either: the calls that stand where a shadow run of a module without marks ends without
/// a report, or its steps are spent, stand there in its plain run. This holds for every choice of masks.
pub fn end_calls_are_the_same()
    ensures { (d : Rules) (m : Module) → NoMarks m → (setup : Setup) → (shadow_by d m setup).«end» ≢ Reported → plain_end_calls m setup ≡ shadow_end_calls_by d m setup }
{}
