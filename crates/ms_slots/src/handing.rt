//! The masks and origins that are handed over to a callee or a caller.
ghost use Rattle.std.specs.Prelude.{◌≡◌, map, OnOk};
ghost use Rattle.ms_pass_tasks.specs.SlotTasks as slots;
ghost use Rattle.ms_rules_builder.specs.{Made.{with_tasks}, Steps.{tracked_of}};
ghost use Rattle.ms_slots.specs.Places.{mask_slot, origin_slot};

use crate::places::WordSlot;
use crate::words::{store_mask, store_origin};
use ms_bits::NoMemory;
use ms_rules_builder::{Builder, TrackedOperand};

/// Hands over the mask and the origin of an operand.
fn hand(
    builder: &mut Builder,
    place: WordSlot,
    operand: &TrackedOperand<'_>,
) -> Result<(), NoMemory>
    ensures { OnOk result (builder.new ≡ with_tasks builder.old (slots.give_tasks (mask_slot place) (origin_slot place) (tracked_of operand.now))) }
{
    let mask = operand.shadow.mask(builder.alloc())?;
    store_mask(builder, place, operand.width(), mask)?;
    let origin = operand.shadow.origin(builder.alloc())?;
    store_origin(builder, place, origin)
}

/// Hands over the masks and origins of the arguments of a call.
pub fn hand_arguments(
    builder: &mut Builder,
    operands: &[TrackedOperand<'_>],
) -> Result<(), NoMemory>
    ensures { OnOk result (builder.new ≡ with_tasks builder.old (slots.give_arguments 0 (map tracked_of operands.now))) }
{
    for (place, operand) in operands.iter().enumerate() {
        hand(builder, WordSlot::Parameter(place as u64), operand)?;
    }
    Ok(())
}

/// Hands over the mask and the origin of what is returned, if something is.
pub fn hand_result(builder: &mut Builder, operands: &[TrackedOperand<'_>]) -> Result<(), NoMemory>
    ensures { OnOk result (builder.new ≡ with_tasks builder.old (slots.give_result (map tracked_of operands.now))) }
{
    match operands.first() {
        Some(operand) => hand(builder, WordSlot::Result, operand),
        None => Ok(()),
    }
}
