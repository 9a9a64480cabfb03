//! What instructions and the functions that they call come to in good worlds: `act` is the effect of an instruction on words and
//! the world, `FitsEffect` says that it may have this effect, `IsBelow` and `PoisonedBelow` that a word is in range.
ghost use Rattle.std.specs.Prelude.{◌≡◌, ℕ, List, map, true, Some, slice_get};
ghost use Rattle.ms_ir.specs.{declared.syntax.Ty.{Ty}, declared.syntax.Func.{Func}, declared.syntax.Inst.{Inst}};
ghost use Rattle.ms_ir.specs.{declared.syntax.Module.{Module}, declared.calls.External.{External}};
ghost use Rattle.ms_ir.specs.{declared.calls.RuntimeFn.{RuntimeFn}, Instructions.{operands, func_at, insts_at}};
ghost use Rattle.ms_ir.specs.Signatures.{external_signature, called_params, runtime_signature};
ghost use Rattle.ms_runs.specs.{declared.runs.Setup.{Setup}, World.{World, Here}, Act.{act}, Externals.{external}};
ghost use Rattle.ms_runs.specs.{Runtime.{runtime}, Plain.{act_marked, setting_of}, Poisoned.{Poisoned, clean}};
ghost use Rattle.ms_runs.specs.{Masks.{Rules}, Shadow.{poisoned_result}};
ghost use Rattle.ms_check_valid.specs.{Formed.{Formed}, Valid.{Valid}};
ghost use Rattle.ms_runs_good_laws.specs.{GoodStates.{IsBelow, PoisonedBelow}, GoodEffects.{FitsEffect}};
ghost use Rattle.ms_runs_good_laws.specs.GoodWorlds.{GoodWorld, GivesBytes, FitsCell, AnyOrigin, GoodAfter};
ghost use Rattle.ms_runs_good_laws.specs.{GoodRules.{KeepWidths}, Straight.{Answers, HaveTypes}};

/// An external that gets words of its parameters' types in a good world answers a word of its type, or nothing where it
/// answers none, or ends the run, and leaves a good world.
pub fn externals_fit()
    ensures plain_runs { (m : Module) → Formed m → (setup : Setup) → GivesBytes setup → (site : ℕ) (e : External) (types : List Ty) (words : List ℕ) → HaveTypes IsBelow 0 words (called_params e types)
        → (world : World) → GoodWorld FitsCell world → Answers (GoodWorld FitsCell) (external_signature e).ret (external (setting_of m setup) site e types words world) }
    ensures shadow_runs { (m : Module) (setup : Setup) → GivesBytes setup → (site : ℕ) (e : External) (types : List Ty) (words : List ℕ) → HaveTypes IsBelow 0 words (called_params e types)
        → (world : World) → GoodWorld AnyOrigin world → Answers (GoodWorld AnyOrigin) (external_signature e).ret (external (setting_of m setup) site e types words world) }
{}

/// A runtime function that gets words of its parameters' types in a good world answers a word of its type, or nothing where
/// it answers none, or ends the run, and leaves a good world.
pub fn runtime_functions_fit()
    ensures { (m : Module) → Formed m → (setup : Setup) → GivesBytes setup → (f : RuntimeFn) (words : List ℕ) → HaveTypes IsBelow 0 words (runtime_signature f).params
        → (world : World) → GoodWorld FitsCell world → Answers (GoodWorld FitsCell) (runtime_signature f).ret (runtime (setting_of m setup) f words world) }
{}

/// Every instruction of a formed and valid module that gets words of its operands' types in a good world has an effect
/// that it may have, and leaves a good world: an unmarked one of a plain run, a marked one, and any one of a shadow run,
/// whose results have masks by rules that keep to widths.
pub fn instructions_fit()
    ensures unmarked { (m : Module) → Formed m → Valid m → (setup : Setup) → GivesBytes setup → (n b p : ℕ) (f : Func) (inst : Inst) → func_at m n ≡ Some f → slice_get (insts_at m n b) p ≡ Some inst
        → (words : List ℕ) → HaveTypes IsBelow 0 words (map (λ o. o.0) (operands inst.op)) → (world : World) → GoodWorld FitsCell world → (here : Here)
        → FitsEffect IsBelow 0 m f inst words (λ v w. v) (act (setting_of m setup) here inst.op words world)
        × GoodAfter (GoodWorld FitsCell) (act (setting_of m setup) here inst.op words world) }
    ensures marked { (m : Module) → Formed m → Valid m → (setup : Setup) → GivesBytes setup → (n b p : ℕ) (f : Func) (inst : Inst) → func_at m n ≡ Some f → slice_get (insts_at m n b) p ≡ Some inst
        → inst.marked ≡ true → (words : List ℕ) → HaveTypes IsBelow 0 words (map (λ o. o.0) (operands inst.op)) → (world : World) → GoodWorld FitsCell world → (here : Here) (slots : ℕ → ℕ)
        → FitsEffect IsBelow 0 m f inst words (λ v w. v) (act_marked (setting_of m setup) here inst.op words slots world)
        × GoodAfter (GoodWorld FitsCell) (act_marked (setting_of m setup) here inst.op words slots world) }
    ensures shadow_runs { (d : Rules) → KeepWidths d → (m : Module) → Formed m → Valid m → (setup : Setup) → GivesBytes setup
        → (n b p : ℕ) (f : Func) (inst : Inst) → func_at m n ≡ Some f → slice_get (insts_at m n b) p ≡ Some inst
        → (words : List Poisoned) → HaveTypes PoisonedBelow clean words (map (λ o. o.0) (operands inst.op)) → (world : World) → GoodWorld AnyOrigin world → (here : Here)
        → FitsEffect PoisonedBelow clean m f inst words (poisoned_result d inst.op words) (act (setting_of m setup) here inst.op (map (λ p. p.value) words) world)
        × GoodAfter (GoodWorld AnyOrigin) (act (setting_of m setup) here inst.op (map (λ p. p.value) words) world) }
{}
