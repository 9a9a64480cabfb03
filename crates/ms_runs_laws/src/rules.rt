//! The rules that give masks, and the shadow runs by them.
ghost use Rattle.std.specs.Prelude.{◌≡◌};
ghost use Rattle.ms_ir.specs.declared.syntax.Module.{Module};
ghost use Rattle.ms_runs.specs.{declared.runs.Setup.{Setup}, Masks.{Rules, SameRules, by_completions, by_formulas}};
ghost use Rattle.ms_runs.specs.Shadow.{shadow, shadow_by};

/// The formulas of inserted code give the masks of the definition, which for `and`, `or`, `xor`, `icmp` and `select` tries all
/// completions, for every operation and width; and rules that give the same masks of words in range give the same runs.
pub fn same_rules()
    ensures formulas { SameRules by_completions by_formulas }
    ensures runs { (d e : Rules) → SameRules d e → (m : Module) (setup : Setup) → shadow_by d m setup ≡ shadow_by e m setup }
{}

/// A shadow run, whose masks are said by completions, is computed by formulas.
pub fn computed_masks()
    ensures { (m : Module) (setup : Setup) → shadow m setup ≡ shadow_by by_formulas m setup }
{}
