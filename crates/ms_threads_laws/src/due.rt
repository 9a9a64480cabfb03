//! What is due in the shadow run of a module and in the run of its instrumented form.
ghost use Rattle.std.specs.Prelude.{◌≡◌, ℕ, Bool, List, [], ◌∷◌, ◌+◌, Option, Some, false, true};
ghost use Rattle.ms_ir.specs.{declared.syntax.Name.{Name}, declared.syntax.Ty.{Ty, Ptr}};
ghost use Rattle.ms_ir.specs.{declared.syntax.Operand.{Operand}, declared.syntax.Inst.{Inst}};
ghost use Rattle.ms_ir.specs.{declared.syntax.Module.{Module}, Instructions.{operands, count_undefs, is_phi}};
ghost use Rattle.ms_ir.specs.declared.syntax.Operand.TheVariants as operand;
ghost use Rattle.ms_ir.specs.declared.syntax.Op.TheVariants as op;
ghost use Rattle.ms_runs.specs.World.{World, Setting, Gives, Does};
ghost use Rattle.ms_runs.specs.Control.{Frame, here, rest_of, params_at, entered, keeping, after_effect};
ghost use Rattle.ms_runs.specs.{Act.{plain_reading}, Plain.{PlainState, Stepped, through}, Poisoned.{Poisoned}};
ghost use Rattle.ms_runs.specs.{Masks.{by_formulas}, Shadow.{shadow_reading, shadow_moved, poisoned_result, planes}};
ghost use Rattle.ms_runs.specs.Threads.{first_clean};
ghost use Rattle.ms_pass_tasks.specs.{Known.{AllApart, ArgsFit}, Match.{Handed, Saved, Matches, RangedWorld, RangedValues}};
ghost use Rattle.ms_pass_tasks.specs.InstructionLaw.{GoesOn, CallsOutside, words_at, checked_at, counted_at, acted_at};
ghost use Rattle.ms_pass_laws.specs.{Pass.{Numbering, pass}, Law.{FramesFollow, TopFollows, Steps, Sound}};
ghost use Rattle.ms_pass_laws.specs.Known.{KnownModule};
ghost use Rattle.ms_runs_threads.specs.PlainFibers.{through_marked};
ghost use Rattle.ms_threads_laws.specs.Due.{state_with, argument_word, DueBoth, Reaching, ReturnsBoth};

/// The first half of a step: from a state of the instrumented module that follows one of the shadow run, both end alike,
/// by a check or as the instruction itself would end the run, or the instruction is due in both with its checks done.
pub fn both_reach()
    ensures { (s : Setting) (numbers : ℕ → Numbering) (m : Module) → KnownModule s numbers m
        → (f : Frame Poisoned) (fs : List (Frame Poisoned)) (w : World) (g : Frame ℕ) (gs : List (Frame ℕ)) (cells : ℕ → ℕ) (z : World) (i : Inst) (is : List Inst)
        → TopFollows s numbers m f w g cells z → FramesFollow s numbers m f.func fs gs → RangedWorld w → RangedValues f.values → rest_of m f ≡ i ∷ is → is_phi i.op ≡ false
        → ((r : Name) (x : ℕ) (w1 w2 : World) → i.result ≡ Some r → (numbers f.func).env.clean r ≡ true → checked_at s f.values (here s m f) i w ≡ Does w1
        → acted_at s f.values (here s m f) i (counted_at s f.values (here s m f) i w1) ≡ Gives x w2
        → (poisoned_result by_formulas i.op (words_at s f.values (here s m f) i) x w2).mask ≡ 0)
        → Reaching s numbers m f fs w i is (through_marked s (pass numbers m) (rest_of (pass numbers m) g) (state_with g gs cells z)) }
{}

/// A return outside `main` that the shadow run reaches is due in both, and the result slots hold what is returned.
pub fn both_return()
    ensures { (s : Setting) (numbers : ℕ → Numbering) (m : Module)
        (f : Frame Poisoned) (fs : List (Frame Poisoned)) (w : World) (x : Option Name) (b : Bool) (is : List Inst) (v : Ty × Operand) (t : Stepped PlainState)
        → (here s m f).main ≡ false
        → Reaching s numbers m f fs w (record { op = op.Ret (Some v); result = x; marked = b }) is t
        → ReturnsBoth s numbers m f fs w (record { op = op.Ret (Some v); result = x; marked = b }) is v t }
{}

/// A fiber begins in both, where the slots of the first parameter are clean.
pub fn both_begin()
    ensures { (s : Setting) (numbers : ℕ → Numbering) (m : Module) → KnownModule s numbers m
        → (n a : ℕ) (cells : ℕ → ℕ) (w : World) → ArgsFit (params_at m n) ((Ptr, operand.Int a) ∷ [])
        → TopFollows s numbers m (entered shadow_reading m n (argument_word a ∷ []) w) w (entered plain_reading (pass numbers m) n (a ∷ []) w) (first_clean cells) w }
{}

/// The second half of a step, for a call of an external whose answer is clean: it is due in both, and done in both in
/// whatever world they stand by then.
pub fn both_perform()
    ensures { (s : Setting) (numbers : ℕ → Numbering) (m : Module) → KnownModule s numbers m
        → (f : Frame Poisoned) (fs : List (Frame Poisoned)) (g : Frame ℕ) (gs : List (Frame ℕ)) (cells : ℕ → ℕ) (i : Inst) (is : List Inst) (next : ℕ) (w : World)
        → DueBoth s numbers m f fs g gs cells i is next → (other : ℕ → ℕ) → RangedWorld w → RangedValues f.values → AllApart i.result (operands i.op) → is_phi i.op ≡ false
        → CallsOutside s.func i.op
        → Handed s.func (here s m f).main i.op (words_at s f.values (here s m f) i) other
        → Saved s.func next i.op (words_at s f.values (here s m f) i) w g.values
        → (GoesOn (acted_at s f.values (here s m f) i w) → Matches (numbers f.func).env f.values g.values)
        → Sound s numbers m (shadow_moved (after_effect shadow_reading s m (here s m f).site i.result (words_at s f.values (here s m f) i)
        (poisoned_result by_formulas i.op (words_at s f.values (here s m f) i))
        (planes s (here s m f).site ((here s m f).root + count_undefs (operands i.op) + 1) i.op (words_at s f.values (here s m f) i) w)
        (keeping i.op (acted_at s f.values (here s m f) i w) f) fs (acted_at s f.values (here s m f) i w)))
        → Steps s numbers m
        (shadow_moved (after_effect shadow_reading s m (here s m f).site i.result (words_at s f.values (here s m f) i)
        (poisoned_result by_formulas i.op (words_at s f.values (here s m f) i))
        (planes s (here s m f).site ((here s m f).root + count_undefs (operands i.op) + 1) i.op (words_at s f.values (here s m f) i) w)
        (keeping i.op (acted_at s f.values (here s m f) i w) f) fs (acted_at s f.values (here s m f) i w)))
        (through s (pass numbers m) (rest_of (pass numbers m) g) (state_with g gs other w)) }
{}
