//! The rule of masks in which poisoned bits carry: of sums, differences, products and addresses.
ghost use Rattle.std.specs.Prelude.{◌≡◌, true, List, [], ◌∷◌, ◌++◌, map, IfOk};
ghost use Rattle.ms_pass_tasks.specs.Environments.{Tracked};
ghost use Rattle.ms_rules_builder.specs.Steps.{Inputs as InputsOf, words, tracked_of};
ghost use Rattle.ms_rules_tables.specs.Rules.{is_rule, carry_in};

use ms_bits::NoMemory;
use ms_rules_builder::StackOp::Constant;
use ms_rules_builder::{Operation, StackOp, TrackedOperand, Widening, push_union};
use std::alloc::Global;

/// The rule of the mask of a sum of these operands, which are the rule's first ones: a bit is poisoned where it or a lower one is
/// in one of their masks. It is `u | (0 - u)` of the union `u` of the masks.
pub fn carry_rule(
    alloc: Global,
    operands: &[TrackedOperand<'_>],
    widening: Widening,
) -> Result<Vec<StackOp>, NoMemory>
    ensures rule { IfOk result (λ v. is_rule v.items ≡ true) }
    ensures mask { IfOk result (λ v. (i : InputsOf) (more : List Tracked) → i.operands ≡ map tracked_of operands.now ++ more → words i v.items [] ≡ carry_in i widening (map tracked_of operands.now) ∷ []) }
{
    let width = widening.width();
    let mut steps = Vec::new(alloc);
    push_union(&mut steps, operands, widening)?;
    steps.push(Constant(0))?;
    push_union(&mut steps, operands, widening)?;
    steps.extend_from_slice(&[
        StackOp::Two(Operation::Sub, width),
        StackOp::Two(Operation::Or, width),
    ])?;
    Ok(steps)
}
