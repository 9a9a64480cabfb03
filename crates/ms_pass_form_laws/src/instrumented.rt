//! The instrumented form of a module is formed and valid.
//!
//! The law is a public function with an empty body, and what it promises is the law. What stands in `proofs/` is one
//! judgement for types, paths, names and form of inserted instructions at once (`Checked`), that the lists of each
//! instruction fit by it (`Rounds`), and what follows for blocks, functions and the module.
ghost use Rattle.std.specs.Prelude.{ℕ};
ghost use Rattle.ms_ir.specs.declared.syntax.Module.{Module};
ghost use Rattle.ms_check_valid.specs.{Formed.{Formed}, Uninstrumented.{CanInstrument}, Valid.{Valid}};
ghost use Rattle.ms_pass_laws.specs.{Pass.{Numbering, pass}, Numbers.{numbering}};
ghost use Rattle.ms_pass_form_laws.specs.Numbers.{GoodNumbers};

/// The instrumented form of each module that is formed, valid and can be instrumented is formed and valid itself: with
/// calls, parameters, phis and all externals. So it is for every numbering that gives no two values of a function one
/// number, and for every choice of values that are taken to be clean; and for the numbering in text order.
pub fn instrumented_is_valid()
    ensures formed { (numbers : ℕ → Numbering) (m : Module) → Formed m → Valid m → CanInstrument m → GoodNumbers numbers → Formed (pass numbers m) }
    ensures valid { (numbers : ℕ → Numbering) (m : Module) → Formed m → Valid m → CanInstrument m → GoodNumbers numbers → Valid (pass numbers m) }
    ensures numbered { (m : Module) → Formed m → Valid m → CanInstrument m → Formed (pass (numbering m) m) × Valid (pass (numbering m) m) }
{}
