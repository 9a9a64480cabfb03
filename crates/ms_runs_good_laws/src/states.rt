//! Good frames: where a run starts, and what an instruction does to them. `reading` is how a run's frames hold words: alone in a
//! plain run, with masks and origins in a shadow run.
ghost use Rattle.std.specs.Prelude.{◌≡◌, ℕ, List, [], ◌∷◌, Some, slice_get};
ghost use Rattle.ms_ir.specs.{declared.syntax.Inst.{Inst}, declared.syntax.Module.{Module}};
ghost use Rattle.ms_runs_good_laws.specs.GoodEffects.{FitsEffect, GoodMoved};
ghost use Rattle.ms_runs_good_laws.specs.GoodStates.{IsBelow, PoisonedBelow, GoodFrame, GoodFrames, GoodPlain, GoodShadow};
ghost use Rattle.ms_check_valid.specs.{Paths.{insts_of}, Valid.{Valid}, Formed.{Formed}};
ghost use Rattle.ms_runs.specs.{declared.runs.Setup.{Setup}, Act.{plain_reading}, Control.{Frame, after_effect}};
ghost use Rattle.ms_runs.specs.{World.{World, Setting, Effect}, Poisoned.{Poisoned}, Plain.{start_frame, start_world}};
ghost use Rattle.ms_runs.specs.Shadow.{shadow_reading};

/// A run of a formed and valid module starts in a good state.
pub fn good_starts()
    ensures plain_runs { (m : Module) → Formed m → Valid m → (setup : Setup)
        → GoodPlain m (record { frames = start_frame plain_reading m ∷ []; slots = λ a. 0; world = start_world m setup }) }
    ensures shadow_runs { (m : Module) → Formed m → Valid m → (setup : Setup)
        → GoodShadow m (record { frames = start_frame shadow_reading m ∷ []; world = start_world m setup }) }
{}

/// Frames of a formed and valid module stay good by every effect that the instruction due may have: a result in the range of
/// its type, a jump to one of its targets, a call with words in range, a return of one.
pub fn good_moves()
    ensures plain_runs { (m : Module) → Formed m → Valid m → (setting : Setting) (frame : Frame ℕ) (below : List (Frame ℕ))
        → GoodFrames IsBelow m (frame ∷ below) → (good : GoodFrame IsBelow m frame)
        → (inst : Inst) → slice_get (insts_of good.func frame.block) frame.place ≡ Some inst
        → (site : ℕ) (words : List ℕ) (lift : ℕ → World → ℕ) (after : ℕ → World → World) (effect : Effect)
        → FitsEffect IsBelow plain_reading.unset m good.func inst words lift effect
        → GoodMoved IsBelow m (after_effect plain_reading setting m site inst.result words lift after frame below effect) }
    ensures shadow_runs { (m : Module) → Formed m → Valid m → (setting : Setting) (frame : Frame Poisoned) (below : List (Frame Poisoned))
        → GoodFrames PoisonedBelow m (frame ∷ below) → (good : GoodFrame PoisonedBelow m frame)
        → (inst : Inst) → slice_get (insts_of good.func frame.block) frame.place ≡ Some inst
        → (site : ℕ) (words : List Poisoned) (lift : ℕ → World → Poisoned) (after : ℕ → World → World) (effect : Effect)
        → FitsEffect PoisonedBelow shadow_reading.unset m good.func inst words lift effect
        → GoodMoved PoisonedBelow m (after_effect shadow_reading setting m site inst.result words lift after frame below effect) }
{}
