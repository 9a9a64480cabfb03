//! Runs that are the same, whatever uninitialised memory holds at each step.
ghost use Rattle.std.specs.Prelude.{◌≡◌, ℕ, List, false};
ghost use Rattle.ms_ir.specs.{ThreadCalls.{is_threaded}, declared.syntax.Module.{Module}, Instructions.{NoMarks}};
ghost use Rattle.ms_runs.specs.declared.runs.Setup.{Setup};
ghost use Rattle.ms_runs.specs.Plain.{PlainState, Stepped, setting_of, steps, plain, plain_start};
ghost use Rattle.ms_runs.specs.{Masks.{by_completions}, Shadow.{shadow_step, shadow_start, shadow}};
ghost use Rattle.ms_runs.specs.{Faithful.{Fair, Faithful}, Verdict.{Clean, verdict_of}};
ghost use Rattle.ms_check_valid.specs.{Formed.{Formed}, Valid.{Valid}};
ghost use Rattle.ms_runs_good_laws.specs.{Fills.{IsFill, SameShown}, GoodWorlds.{GivesBytes}};
ghost use Rattle.ms_runs_fills_laws.specs.{Certain.{CertainSteps, UntoldSteps}, Changing.{ComesTo, shown_by}};
ghost use Rattle.ms_runs_fills_laws.specs.Chosen.{steps_by, chosen_step, HoldsUnderChoices};

/// Bits outside a mask are certain: after any number of steps of a shadow run, with neither a report nor a blind use so
/// far, the program itself stands at the same place, whatever fill was chosen for each step, and its words and bytes are
/// those of the shadow run outside their masks; or both ended alike.
pub fn masks_are_certain()
    ensures { (m : Module) → Formed m → Valid m → is_threaded m ≡ false → NoMarks m → (setup : Setup) → GivesBytes setup → (n : ℕ)
        → UntoldSteps (steps (shadow_step by_completions (setting_of m setup) m) n (shadow_start m setup))
        → (fills : ℕ → List ℕ) → ((k : ℕ) → IsFill (fills k))
        → CertainSteps (steps (shadow_step by_completions (setting_of m setup) m) n (shadow_start m setup)) (steps_by (chosen_step m setup fills) n 0 (plain_start m setup)) }
{}

/// A clean verdict holds under every choice: the program itself prints the same and ends in the same way, also where each
/// step has a fill of its own.
pub fn clean_under_choices()
    ensures shadow_runs { (m : Module) → Formed m → Valid m → is_threaded m ≡ false → NoMarks m → (setup : Setup) → GivesBytes setup → HoldsUnderChoices m setup (shadow m setup) }
    ensures instrumented { (m : Module) → Formed m → Valid m → is_threaded m ≡ false → NoMarks m → (j : Module) → Faithful m j → (setup : Setup) → Fair setup → HoldsUnderChoices m setup (plain j setup) }
{}

/// Both hold too where uninitialised memory and words change: before each step memory may hold any bytes that are those of the
/// shadow run outside its shadow, and the frames any words that are those of the shadow run outside their masks, so that each use of
/// an uninitialised byte or word may find another value; and each step has a fill of its own.
pub fn memory_may_change()
    ensures certain { (m : Module) → Formed m → Valid m → is_threaded m ≡ false → NoMarks m → (setup : Setup) → GivesBytes setup → (n : ℕ) (z : Stepped PlainState)
        → UntoldSteps (steps (shadow_step by_completions (setting_of m setup) m) n (shadow_start m setup))
        → ComesTo (shadow_step by_completions (setting_of m setup) m) m setup n (shadow_start m setup) (plain_start m setup) z
        → CertainSteps (steps (shadow_step by_completions (setting_of m setup) m) n (shadow_start m setup)) z }
    ensures clean { (m : Module) → Formed m → Valid m → is_threaded m ≡ false → NoMarks m → (setup : Setup) → GivesBytes setup → verdict_of (shadow m setup) ≡ Clean → (z : Stepped PlainState)
        → ComesTo (shadow_step by_completions (setting_of m setup) m) m setup setup.steps (shadow_start m setup) (plain_start m setup) z → SameShown (shown_by z) (shadow m setup) }
{}
