//! How many checks of words are left in the instrumented form, where those of clean values are left out.
ghost use Rattle.std.specs.Prelude.{◌≡◌, ℕ, Bool, Some, option_map};
ghost use Rattle.ms_ir.specs.{declared.syntax.Name.{Name}, declared.syntax.Func.{Func}};
ghost use Rattle.ms_ir.specs.{declared.syntax.Module.{Module}, Instructions.{func_at}};
ghost use Rattle.ms_check_valid.specs.{Formed.{Formed}, Uninstrumented.{CanInstrument}, Valid.{Valid}};
ghost use Rattle.ms_pass_laws.specs.Pass.{pass};
ghost use Rattle.ms_pass_form_laws.specs.{Eliding.{eliding}, Checks.{check_calls, unclean_checks}};

/// In each function of the instrumented form stand as many calls of the runtime function that checks a word as the
/// function of the module has uses that are checked as words and whose operand isn't said to be clean.
pub fn checks_left()
    ensures { (m : Module) (clean : ℕ → Name → Bool) → Formed m → Valid m → CanInstrument m → (n : ℕ) (f : Func) → func_at m n ≡ Some f
        → option_map check_calls (func_at (pass (eliding clean m) m) n) ≡ Some (unclean_checks (clean n) m f) }
{}
