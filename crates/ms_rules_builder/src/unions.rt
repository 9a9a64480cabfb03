//! The steps that join the masks of operands, for rules that ask whether some bit of any of them is poisoned.
ghost use Rattle.std.specs.Prelude.{◌≡◌, ◌++◌, length, map, replicate, IfOk, OnOk};
ghost use Rattle.ms_pass_tasks.specs.Environments.{unknown};
ghost use Rattle.ms_rules_builder.specs.Steps.{tracked_of};
ghost use Rattle.ms_rules_builder.specs.Joins.{width_in, mask_steps, masks_from, joins, union_steps};

use crate::steps::{Operation, StackOp, Width};
use crate::tracked::TrackedOperand;
use ms_bits::NoMemory;

/// How the mask of an operand becomes a word of a union.
#[derive(Clone, Copy)]
pub enum Widening {
    /// It is a word of the rule's own width as it is.
    Own,
    /// It gets 64 bits, with zeros before it.
    Zeros,
    /// It gets 64 bits, with copies of its sign bit before it.
    Sign,
}

impl Widening {
    /// The width of a union's words.
    pub fn width(self) -> Width
        ensures { result ≡ width_in self }
    {
        match self {
            Widening::Own => Width::Own,
            Widening::Zeros | Widening::Sign => Width::Bits(64),
        }
    }
}

/// Adds a step so many times.
pub fn push_times(steps: &mut Vec<StackOp>, step: StackOp, times: usize) -> Result<(), NoMemory>
    ensures { OnOk result (steps.new.items ≡ steps.old.items ++ replicate times step) }
{
    for _ in 0..times {
        steps.push(step)?;
    }
    Ok(())
}

/// Adds the steps of one word of a union: the mask, of so many bits, of the operand with a place.
fn push_mask(
    steps: &mut Vec<StackOp>,
    place: usize,
    width: u8,
    widening: Widening,
) -> Result<(), NoMemory>
    ensures { OnOk result (steps.new.items ≡ steps.old.items ++ mask_steps widening place width) }
{
    let mask = StackOp::Mask(place);
    match widening {
        Widening::Own => steps.extend_from_slice(&[mask])?,
        Widening::Zeros => steps.extend_from_slice(&[mask, StackOp::Widen(width)])?,
        Widening::Sign => steps.extend_from_slice(&[mask, StackOp::Extend(width)])?,
    }
    Ok(())
}

/// Adds the steps of the words of a union, and returns how many words these are.
fn push_masks(
    steps: &mut Vec<StackOp>,
    operands: &[TrackedOperand<'_>],
    widening: Widening,
) -> Result<usize, NoMemory>
    ensures steps { OnOk result (steps.new.items ≡ steps.old.items ++ masks_from widening 0 (map tracked_of operands.now)) }
    ensures count { IfOk result (λ n. n ≡ length (unknown (map tracked_of operands.now))) }
{
    let mut masks = 0;
    for (place, operand) in operands.iter().enumerate() {
        if !operand.is_clean() {
            push_mask(steps, place, operand.width(), widening)?;
            masks += 1;
        }
    }
    Ok(masks)
}

/// Adds the steps that leave the union of the operands' masks on the stack: of the masks that aren't known to be 0, and 0
/// where there is none.
pub fn push_union(
    steps: &mut Vec<StackOp>,
    operands: &[TrackedOperand<'_>],
    widening: Widening,
) -> Result<(), NoMemory>
    ensures { OnOk result (steps.new.items ≡ steps.old.items ++ union_steps widening (map tracked_of operands.now)) }
{
    let masks = push_masks(steps, operands, widening)?;
    if masks == 0 {
        steps.push(StackOp::Constant(0))?;
        return Ok(());
    }
    push_times(
        steps,
        StackOp::Two(Operation::Or, widening.width()),
        masks - 1,
    )
}
