//! States of runs with guest threads.
ghost use Rattle.std.specs.Prelude.{◌≡◌, ◌<◌, ℕ, List, All};
ghost use Rattle.ms_ir.specs.{declared.syntax.Module.{Module}, Instructions.{NoMarks}};
ghost use Rattle.ms_runs.specs.{declared.runs.Setup.{Setup}, World.{World, Setting, result as told}};
ghost use Rattle.ms_runs.specs.{Control.{Frame}, Poisoned.{Poisoned}};
ghost use Rattle.ms_runs.specs.Plain.{steps, setting_of, go_on};
ghost use Rattle.ms_runs.specs.Masks.{Rules};
ghost use Rattle.ms_runs.specs.declared.runs.End.TheVariants as end_of;
ghost use Rattle.ms_check_valid.specs.{Formed.{Formed}, Valid.{Valid}};
ghost use Rattle.ms_runs_good_laws.specs.{Sited.{HasSite}, GoodRules.{KeepWidths}, GoodRuns.{LeadsTo}};
ghost use Rattle.ms_runs_good_laws.specs.GoodWorlds.{GoodWorld, GivesBytes, FitsCell, AnyOrigin};
ghost use Rattle.ms_runs_clean_laws.specs.KeepClean.{KeepClean};
ghost use Rattle.ms_runs_threads.specs.Fibers.{Fibers, fibers_step, world_of};
ghost use Rattle.ms_runs_threads.specs.PlainFibers.{Shared, plain_fiber, plain_threads, plain_threads_start};
ghost use Rattle.ms_runs_threads.specs.ShadowFibers.{shadow_fiber, shadow_threads_by, shadow_threads_start};
ghost use Rattle.ms_threads_runs_laws.specs.Halves.{whole_step};
ghost use Rattle.ms_threads_runs_laws.specs.ThreadStates.{SoundPlainFibers, SoundShadowFibers, CleanFibers};

/// Every state that a run with guest threads of a formed and valid module reaches is good, under every schedule: the frames
/// of each fiber are, that which goes on and those that stand at a thread call, and so is the world; and what the run puts
/// out are bytes. Shadow runs are asked for of modules without marks alone. A run answers what its last state or its end
/// tells.
pub fn threads_stay_good()
    ensures plain_runs { (m : Module) → Formed m → Valid m → (setup : Setup) → GivesBytes setup → (schedule : List ℕ) (n : ℕ)
        → LeadsTo (SoundPlainFibers (setting_of m setup) m) (GoodWorld FitsCell) (steps (fibers_step (plain_fiber (setting_of m setup) m) schedule) n (plain_threads_start m setup)) }
    ensures shadow_runs { (d : Rules) → KeepWidths d → (m : Module) → Formed m → Valid m → NoMarks m → (setup : Setup) → GivesBytes setup → (schedule : List ℕ) (n : ℕ)
        → LeadsTo (SoundShadowFibers (setting_of m setup) m) (GoodWorld AnyOrigin) (steps (fibers_step (shadow_fiber d (setting_of m setup) m) schedule) n (shadow_threads_start m setup)) }
    ensures plain_answers { (m : Module) (setup : Setup) (schedule : List ℕ)
        → plain_threads m setup schedule ≡ go_on (λ c. told end_of.Spent (world_of (plain_fiber (setting_of m setup) m) c)) (steps (fibers_step (plain_fiber (setting_of m setup) m) schedule) setup.steps (plain_threads_start m setup)) }
    ensures shadow_answers { (d : Rules) (m : Module) (setup : Setup) (schedule : List ℕ)
        → shadow_threads_by d m setup schedule ≡ go_on (λ c. told end_of.Spent (world_of (shadow_fiber d (setting_of m setup) m) c)) (steps (fibers_step (shadow_fiber d (setting_of m setup) m) schedule) setup.steps (shadow_threads_start m setup)) }
    ensures output { (m : Module) → Formed m → Valid m → (setup : Setup) → GivesBytes setup → (schedule : List ℕ) → All (λ b. b < 256) (plain_threads m setup schedule).output }
{}

/// Where a run with guest threads of a formed and valid module ends by a trap, that has a site of the module: also where
/// nothing is runnable, since `main` stands at a call then. No fiber that is picked is missing, and no return of a fiber's
/// first function lacks a caller.
pub fn threads_reach_sites()
    ensures plain_ends { (m : Module) → Formed m → Valid m → (setup : Setup) → GivesBytes setup → (schedule : List ℕ) → HasSite m (plain_threads m setup schedule).«end» }
    ensures shadow_ends { (d : Rules) (m : Module) → Formed m → Valid m → NoMarks m → (setup : Setup) → GivesBytes setup → (schedule : List ℕ)
        → HasSite m (shadow_threads_by d m setup schedule).«end» }
{}

/// In every state of a shadow run with guest threads of a formed and valid module without marks clean values have no poisoned
/// bit in any fiber's frames, and clean operands are read without one.
pub fn clean_threads()
    ensures { (d : Rules) → KeepClean d → KeepWidths d → (m : Module) → Formed m → Valid m → NoMarks m → (setup : Setup) → GivesBytes setup → (schedule : List ℕ) (n : ℕ)
        → LeadsTo (CleanFibers m) (λ w. Unit {0}) (steps (fibers_step (shadow_fiber d (setting_of m setup) m) schedule) n (shadow_threads_start m setup)) }
{}

/// A step of a run of fibers is a pick, where one is due, with the call or the beginning of the fiber that is picked, and
/// then a step of one fiber.
pub fn steps_have_halves()
    ensures plain_runs { (s : Setting) (m : Module) (schedule : List ℕ) (c : Fibers (List (Frame ℕ)) Shared) → fibers_step (plain_fiber s m) schedule c ≡ whole_step (plain_fiber s m) schedule c }
    ensures shadow_runs { (d : Rules) (s : Setting) (m : Module) (schedule : List ℕ) (c : Fibers (List (Frame Poisoned)) World) → fibers_step (shadow_fiber d s m) schedule c ≡ whole_step (shadow_fiber d s m) schedule c }
{}
