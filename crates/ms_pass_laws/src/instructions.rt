//! A law about single instructions, which rests on laws of whole runs: their masks, by completions and by formulas.
ghost use Rattle.std.specs.Prelude.{◌≡◌};
ghost use Rattle.ms_ir.specs.{declared.syntax.Name.{Name}, declared.syntax.Inst.{Inst}};
ghost use Rattle.ms_runs.specs.{World.{Setting, Here}, Poisoned.{Poisoned}, Masks.{by_completions, by_formulas}};
ghost use Rattle.ms_runs.specs.Shadow.{poisoned_result};
ghost use Rattle.ms_pass_tasks.specs.InstructionLaw.{words_at};

/// The masks and origins that the inserted code computes by formulas are those of the definition, for every instruction and all
/// words of its operands. The definition tries all completions of the operands' poisoned bits for `and`, `or`, `xor`, `icmp` and
/// `select`; in a sum, product or address it takes each bit above a poisoned one, since it may carry.
pub fn masks_are_computed()
    ensures { (s : Setting) (values : Name → Poisoned) (h : Here) (i : Inst)
        → poisoned_result by_completions i.op (words_at s values h i) ≡ poisoned_result by_formulas i.op (words_at s values h i) }
{}
