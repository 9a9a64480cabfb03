//! The plain run takes the steps of the shadow run.
ghost use Rattle.std.specs.Prelude.{◌≡◌};
ghost use Rattle.ms_ir.specs.{declared.syntax.Module.{Module}, Instructions.{NoMarks}};
ghost use Rattle.ms_runs.specs.{declared.runs.Setup.{Setup}, World.{Setting}};
ghost use Rattle.ms_runs.specs.{Plain.{PlainState, plain_step, plain_start}, Masks.{Rules}};
ghost use Rattle.ms_runs.specs.Shadow.{ShadowState, shadow_step, shadow_start};
ghost use Rattle.ms_runs_laws.specs.Follows.{Follows, StepFollows};

/// Of a module without marks: from a state that follows one of the shadow run, the plain run's step follows that of the shadow
/// run, once memory has the shadow that the step leaves there. This is so for any rules for masks.
#[tactic(auto, using(crate::proofs::FollowedSteps::step_follows))]
pub fn steps_are_followed()
    ensures { (d : Rules) (s : Setting) (m : Module) → NoMarks m → (c : ShadowState) (p : PlainState) → Follows c p → StepFollows s m c (shadow_step d s m c) (plain_step s m p) }
{}

/// At the start the plain run follows the shadow run.
#[tactic(auto, using(crate::proofs::FollowedSteps::start_follows))]
pub fn starts_are_followed()
    ensures { (m : Module) (setup : Setup) → Follows (shadow_start m setup) (plain_start m setup) }
{}
