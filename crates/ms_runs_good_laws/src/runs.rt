//! Good states of runs.
ghost use Rattle.std.specs.Prelude.{◌≡◌, ◌<◌, ℕ, All};
ghost use Rattle.ms_ir.specs.{declared.syntax.Module.{Module}, Instructions.{NoMarks}};
ghost use Rattle.ms_runs.specs.{declared.runs.Setup.{Setup}, World.{result as told}};
ghost use Rattle.ms_runs.specs.Plain.{steps, PlainState, plain_step, setting_of, go_on, plain, plain_start};
ghost use Rattle.ms_runs.specs.{Masks.{Rules}, Shadow.{ShadowState, shadow_step, shadow_by, shadow_start}};
ghost use Rattle.ms_runs.specs.declared.runs.End.TheVariants as end_of;
ghost use Rattle.ms_check_valid.specs.{Formed.{Formed}, Valid.{Valid}};
ghost use Rattle.ms_runs_good_laws.specs.{GoodStates.{GoodShadow, IsMain, Bottom}, Sited.{HasSite, StopsAtSite}};
ghost use Rattle.ms_runs_good_laws.specs.{GoodWorlds.{GoodWorld, GivesBytes, FitsCell, AnyOrigin}, GoodRules.{KeepWidths}};
ghost use Rattle.ms_runs_good_laws.specs.GoodRuns.{SoundPlain, SoundShadow, LeadsTo};

/// A run of a formed and valid module starts in a good state and a good world.
pub fn sound_starts()
    ensures plain_runs { (m : Module) → Formed m → Valid m → (setup : Setup) → GivesBytes setup → SoundPlain m (plain_start m setup) }
    ensures shadow_runs { (m : Module) → Formed m → Valid m → (setup : Setup) → GivesBytes setup → SoundShadow m (shadow_start m setup) }
{}

/// A step of a run of a formed and valid module leads from a good state to a good state, or ends the run in a good world.
pub fn steps_stay_good()
    ensures plain_runs { (m : Module) → Formed m → Valid m → (setup : Setup) → GivesBytes setup → (state : PlainState) → SoundPlain m state
        → LeadsTo (SoundPlain m) (GoodWorld FitsCell) (plain_step (setting_of m setup) m state) }
    ensures shadow_runs { (d : Rules) → KeepWidths d → (m : Module) → Formed m → Valid m → (setup : Setup) → GivesBytes setup → (state : ShadowState) → SoundShadow m state
        → LeadsTo (SoundShadow m) (GoodWorld AnyOrigin) (shadow_step d (setting_of m setup) m state) }
{}

/// So every state that a run of a formed and valid module reaches is good, and what it puts out are bytes. A run answers
/// what its last state or its end tells.
pub fn runs_stay_good()
    ensures plain_runs { (m : Module) → Formed m → Valid m → (setup : Setup) → GivesBytes setup → (n : ℕ)
        → LeadsTo (SoundPlain m) (GoodWorld FitsCell) (steps (plain_step (setting_of m setup) m) n (plain_start m setup)) }
    ensures shadow_runs { (d : Rules) → KeepWidths d → (m : Module) → Formed m → Valid m → (setup : Setup) → GivesBytes setup → (n : ℕ)
        → LeadsTo (SoundShadow m) (GoodWorld AnyOrigin) (steps (shadow_step d (setting_of m setup) m) n (shadow_start m setup)) }
    ensures plain_answers { (m : Module) (setup : Setup)
        → plain m setup ≡ go_on (λ s. told end_of.Spent s.world) (steps (plain_step (setting_of m setup) m) setup.steps (plain_start m setup)) }
    ensures shadow_answers { (d : Rules) (m : Module) (setup : Setup)
        → shadow_by d m setup ≡ go_on (λ s. told end_of.Spent s.world) (steps (shadow_step d (setting_of m setup) m) setup.steps (shadow_start m setup)) }
    ensures output { (m : Module) → Formed m → Valid m → (setup : Setup) → GivesBytes setup → All (λ b. b < 256) (plain m setup).output }
{}

/// No run of a formed and valid module comes to a place where no instruction is due, a phi is due, a name stands for
/// nothing or a return has no caller, where `main` stands below all frames: where it ends by a trap, that has a site of the
/// module. Shadow runs are asked for of
/// modules without marks alone, since they know no runtime function.
pub fn runs_reach_sites()
    ensures plain_steps { (m : Module) → Formed m → Valid m → (setup : Setup) → GivesBytes setup → (state : PlainState) → SoundPlain m state → Bottom (IsMain m) state.frames
        → StopsAtSite m (plain_step (setting_of m setup) m state) }
    ensures shadow_steps { (d : Rules) (m : Module) → Formed m → Valid m → NoMarks m → (setup : Setup) → (state : ShadowState) → GoodShadow m state → Bottom (IsMain m) state.frames
        → StopsAtSite m (shadow_step d (setting_of m setup) m state) }
    ensures plain_ends { (m : Module) → Formed m → Valid m → (setup : Setup) → GivesBytes setup → HasSite m (plain m setup).«end» }
    ensures shadow_ends { (d : Rules) → KeepWidths d → (m : Module) → Formed m → Valid m → NoMarks m → (setup : Setup) → GivesBytes setup → HasSite m (shadow_by d m setup).«end» }
{}
