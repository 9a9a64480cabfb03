//! Laws about steps and runs of an instrumented module beside the shadow run of the module: c is a state of the shadow run, d one
//! of the plain run of the instrumented form, and `Follows` says that d has the masks and origins of c in inserted names.
ghost use Rattle.std.specs.Prelude.{◌≡◌, ℕ, [], unwrap_or};
ghost use Rattle.ms_ir.specs.{declared.syntax.Module.{Module}, Names.{main_name}, Instructions.{func_index, strip}};
ghost use Rattle.ms_runs.specs.{declared.runs.Setup.{Setup}, World.{Setting}, Control.{params_at}};
ghost use Rattle.ms_runs.specs.Masks.{by_completions, by_formulas};
ghost use Rattle.ms_runs.specs.Plain.{PlainState, More, plain_start, plain_step, run, setting_of};
ghost use Rattle.ms_runs.specs.Shadow.{ShadowState, shadow_start, shadow_step};
ghost use Rattle.ms_check_valid.specs.Valid.{Valid};
ghost use Rattle.ms_runs_good_laws.specs.GoodRuns.{SoundShadow};
ghost use Rattle.ms_pass_laws.specs.{Pass.{Numbering, pass}, Law.{Follows, Steps, Sound, Ranged}};
ghost use Rattle.ms_pass_laws.specs.Known.{KnownModule, ApartFrames, CleanRun};

/// The law of a step: from a state of the instrumented module that follows a state of the shadow run, a step of both
/// leads to such states again, or both runs end alike, with the same end in the same world. Masks are said by
/// completions, and computed by formulas. What is due must not use its own result, which holds in each state of a run of
/// a valid module. Where the shadow run goes on, what is known to be clean must have the mask 0.
pub fn steps_follow()
    ensures followed { (s : Setting) (numbers : ℕ → Numbering) (m : Module) → KnownModule s numbers m
        → (c : ShadowState) (d : PlainState) → Follows s numbers m c d → Ranged c → ApartFrames m c.frames
        → Sound s numbers m (shadow_step by_completions s m c)
        → Steps s numbers m (shadow_step by_completions s m c) (plain_step s (pass numbers m) d) }
    ensures computed { (s : Setting) (numbers : ℕ → Numbering) (m : Module) → KnownModule s numbers m
        → (c : ShadowState) (d : PlainState) → Follows s numbers m c d → Ranged c → ApartFrames m c.frames
        → Sound s numbers m (shadow_step by_formulas s m c)
        → Steps s numbers m (shadow_step by_formulas s m c) (plain_step s (pass numbers m) d) }
    ensures ranged { (s : Setting) (numbers : ℕ → Numbering) (m : Module) → KnownModule s numbers m
        → (c c' : ShadowState) → Ranged c → shadow_step by_formulas s m c ≡ More c' → Ranged c' }
    ensures apart { (m : Module) → Valid m → (c : ShadowState) → SoundShadow m c → ApartFrames m c.frames }
{}

/// The state in which the instrumented module starts follows the one in which the shadow run starts.
pub fn starts_follow()
    ensures { (numbers : ℕ → Numbering) (m : Module) (setup : Setup) → strip (pass numbers m) ≡ m
        → params_at m (unwrap_or (func_index m.funcs main_name) 0) ≡ []
        → Follows (setting_of m setup) numbers m (shadow_start m setup) (plain_start m setup) }
{}

/// Runs from two such states answer the same for every number of steps; where none is left, both are spent with the same
/// output, reports and blind uses.
pub fn runs_follow()
    ensures { (s : Setting) (numbers : ℕ → Numbering) (m : Module) → KnownModule s numbers m
        → (steps : ℕ) (c : ShadowState) (d : PlainState) → CleanRun s numbers m c → Ranged c → Follows s numbers m c d
        → run (λ d. d.world) (plain_step s (pass numbers m)) steps d ≡ run (λ c. c.world) (shadow_step by_formulas s m) steps c }
{}
