//! The rules of origins: tables of steps, as `masks.rt` has those of masks.
ghost use Rattle.std.specs.Prelude.{◌≡◌, ◌-◌, true, [], ◌∷◌, ◌++◌, length, map, IfOk, OnOk};
ghost use Rattle.ms_ir.specs.declared.syntax.Ty.{Int};
ghost use Rattle.ms_pass_tasks.specs.{Tasks.{Sets, origin_name as origin_name_of}, ResultMasks.{first_last}};
ghost use Rattle.ms_rules_builder.specs.{Made.{with_tasks}, Steps.{Inputs as InputsOf, inputs_of, words, tracked_of}};
ghost use Rattle.ms_rules_tables.specs.Rules.{is_rule, tests};

use crate::rules::set_origin;
use ms_bits::{NoMemory, Pred};
use ms_rules_builder::StackOp::{Constant, Mask, Origin, Word};
use ms_rules_builder::{Builder, Inputs, StackOp, TrackedOperand, Width, push_times};
use std::alloc::Global;

/// Of two origins on top of the stack, the first where the bit below them is 1, else the second.
const PICK: StackOp = StackOp::Pick(Width::Bits(32));

/// The origin of a `select`: the condition's where this is poisoned, else that of what is chosen.
pub const CHOICE_ORIGIN: [StackOp; 7] = [
    Mask(0),
    Origin(0),
    Word(0),
    Origin(1),
    Origin(2),
    PICK,
    PICK,
];

/// Adds the test of each mask but the first, from the last down, whether it isn't 0, each with the operand's origin.
fn push_tests(steps: &mut Vec<StackOp>, operands: &[TrackedOperand<'_>]) -> Result<(), NoMemory>
    ensures { OnOk result (steps.new.items ≡ steps.old.items ++ tests (map tracked_of operands.now) (length operands.now - 1)) }
{
    for k in (1..operands.len()).rev() {
        let width = Width::Bits(operands[k].width());
        steps.extend_from_slice(&[
            Mask(k),
            Constant(0),
            StackOp::Test(Pred::Ne, width),
            Origin(k),
        ])?;
    }
    Ok(())
}

/// The rule of the origin of the last operand that is poisoned: a test of each mask from the last down, each with the operand's
/// origin, then the first operand's origin, and a choice for each test.
fn last_origin_rule(
    alloc: Global,
    operands: &[TrackedOperand<'_>],
) -> Result<Vec<StackOp>, NoMemory>
    ensures rule { IfOk result (λ v. is_rule v.items ≡ true) }
    ensures origin { IfOk result (λ v. (i : InputsOf) → i.operands ≡ map tracked_of operands.now → words i v.items [] ≡ first_last i.operands ∷ []) }
{
    let mut steps = Vec::new(alloc);
    push_tests(&mut steps, operands)?;
    steps.push(Origin(0))?;
    push_times(&mut steps, PICK, operands.len().saturating_sub(1))?;
    Ok(steps)
}

/// The origin of a value gets that of the last operand whose mask isn't 0, else the first operand's.
pub fn set_last_origin(
    builder: &mut Builder,
    value: u32,
    inputs: &Inputs<'_>,
) -> Result<(), NoMemory>
    ensures { OnOk result (builder.new ≡ with_tasks builder.old (Sets (origin_name_of value) (Int 32) (first_last (inputs_of inputs.now).operands) ∷ [])) }
{
    let rule = last_origin_rule(builder.alloc(), inputs.operands)?;
    set_origin(builder, value, inputs, rule.as_slice())
}
