//! Laws about whole modules that are instrumented with clean values left out (elided). `clean` says of each function's values
//! which are clean, `eliding clean m` numbers the values in text order with these; `IsElided m j`: j is so made of m.
ghost use Rattle.std.specs.Prelude.{◌≡◌, ◌≤◌, ◌+◌, ◌*◌, ℕ, Bool, true, Some, length};
ghost use Rattle.ms_ir.specs.{declared.syntax.Name.{Name}, declared.syntax.Operand.{Operand}};
ghost use Rattle.ms_ir.specs.{declared.syntax.Func.{Func}, declared.syntax.Module.{Module}};
ghost use Rattle.ms_ir.specs.Instructions.{func_at, operands, over_funcs};
ghost use Rattle.ms_runs.specs.{declared.runs.Setup.{Setup}, Faithful.{Faithful}, Plain.{setting_of}, Calls.{SameCalls}};
ghost use Rattle.ms_check_valid.specs.{CleanValues.{is_clean_operand, IsCleanOperand}, Formed.{Formed, count_written}};
ghost use Rattle.ms_check_valid.specs.{Uninstrumented.{CanInstrument}, Valid.{Valid}};
ghost use Rattle.ms_pass_laws.specs.{Pass.{pass}, Known.{KnownModule, IsTaken}};
ghost use Rattle.ms_pass_form_laws.specs.Numbers.{GoodNumbers};
ghost use Rattle.ms_pass_form_laws.specs.{Elided.{IsElided}, Eliding.{eliding, SaysClean, SaysExactly}};

/// What the pass asks of a module holds of each that is formed, valid and can be instrumented, whatever is said to be
/// clean. Where what is said to be clean is clean, it has no poisoned bit in any run, so the pass takes the module.
pub fn elided_modules_are_taken()
    ensures known { (m : Module) (clean : ℕ → Name → Bool) → Formed m → Valid m → CanInstrument m → (setup : Setup) → KnownModule (setting_of m setup) (eliding clean m) m }
    ensures taken { (m : Module) (clean : ℕ → Name → Bool) → Formed m → Valid m → CanInstrument m → SaysClean m clean → IsTaken (eliding clean m) m }
{}

/// So the instrumented form is faithful: its plain run with each fair setup is the shadow run of the module, in output, end,
/// reports and number of blind uses.
pub fn elided_faithful()
    ensures { (m : Module) (clean : ℕ → Name → Bool) → Formed m → Valid m → CanInstrument m → SaysClean m clean → Faithful m (pass (eliding clean m) m) }
{}

/// At each report of its plain run the calls stand that stand at that report of the shadow run.
pub fn elided_calls()
    ensures { (m j : Module) → Formed m → Valid m → CanInstrument m → IsElided m j → SameCalls m j }
{}

/// The instrumented form is formed and valid, whatever is said to be clean, since no two values of a function have one
/// number.
pub fn elided_is_valid()
    ensures numbers { (m : Module) (clean : ℕ → Name → Bool) → CanInstrument m → GoodNumbers (eliding clean m) }
    ensures formed { (m : Module) (clean : ℕ → Name → Bool) → Formed m → Valid m → CanInstrument m → Formed (pass (eliding clean m) m) }
    ensures valid { (m : Module) (clean : ℕ → Name → Bool) → Formed m → Valid m → CanInstrument m → Valid (pass (eliding clean m) m) }
{}

/// Where exactly what is clean is said to be, the operands that are left out are the clean ones.
pub fn clean_operands_are_known()
    ensures sound { (m : Module) (clean : ℕ → Name → Bool) → SaysClean m clean → (n : ℕ) (f : Func) → func_at m n ≡ Some f
        → (o : Operand) → is_clean_operand (clean n) o ≡ true → IsCleanOperand m f o }
    ensures whole { (m : Module) (clean : ℕ → Name → Bool) → SaysExactly m clean → (n : ℕ) (f : Func) → func_at m n ≡ Some f
        → (o : Operand) → IsCleanOperand m f o → is_clean_operand (clean n) o ≡ true }
{}

/// There is one instrumented form in which nothing is computed of clean values.
pub fn elided_once()
    ensures { (m j k : Module) → IsElided m j → IsElided m k → j ≡ k }
{}

/// The instrumented form has no more instructions and operands together than 200 for each instruction of the module, 55 for each of
/// its operands and 1000 for each of its functions.
pub fn elided_is_bounded()
    ensures { (m j : Module) → CanInstrument m → IsElided m j
        → over_funcs count_written j.funcs ≤ 200 * over_funcs (λ inst. 1) m.funcs + 55 * over_funcs (λ inst. length (operands inst.op)) m.funcs + 1000 * length m.funcs }
{}
