//! The masks and origins that a function takes over from its caller, and a caller from its callee.
ghost use Rattle.std.specs.Prelude.{◌≡◌, OnOk};
ghost use Rattle.ms_pass_tasks.specs.SlotTasks.{take_tasks, param_mask, param_origin, result_mask_slot, result_origin_slot};
ghost use Rattle.ms_rules_builder.specs.Made.{with_tasks};
ghost use Rattle.ms_slots.specs.Places.{mask_slot, origin_slot};

use crate::places::WordSlot;
use crate::words::load_word;
use ms_bits::NoMemory;
use ms_ir::Ty;
use ms_rules_builder::Builder;

/// Takes over a mask and an origin under the names of the function's value with a number.
fn fetch(builder: &mut Builder, place: WordSlot, value: u32, ty: &Ty) -> Result<(), NoMemory>
    ensures { OnOk result (builder.new ≡ with_tasks builder.old (take_tasks (mask_slot place) (origin_slot place) value ty.now)) }
{
    load_word(builder, place, 2 * u64::from(value) + 1, ty)
}

/// Takes over the mask and the origin of the parameter with a place, from 0, under the names of the function's value with a
/// number.
pub fn fetch_parameter(
    builder: &mut Builder,
    place: u64,
    value: u32,
    ty: &Ty,
) -> Result<(), NoMemory>
    ensures { OnOk result (builder.new ≡ with_tasks builder.old (take_tasks (param_mask place) (param_origin place) value ty.now)) }
{
    fetch(builder, WordSlot::Parameter(place), value, ty)
}

/// Takes over the mask and the origin of the result of a call, under the names of the function's value with a number.
pub fn fetch_result(builder: &mut Builder, value: u32, ty: &Ty) -> Result<(), NoMemory>
    ensures { OnOk result (builder.new ≡ with_tasks builder.old (take_tasks result_mask_slot result_origin_slot value ty.now)) }
{
    fetch(builder, WordSlot::Result, value, ty)
}
