//! The code that hands over or takes over all arguments of a call, or a result, as lists of marked instructions.
//!
//! Numbers are those of inserted results. A word is given as its type, its mask and its origin. The first free one is below
//! 2^31 where it grows, so that the next one has 32 bits.
ghost use Rattle.std.specs.Prelude.{◌≡◌, ◌<◌, ◌≤◌, ◌+◌, ◌*◌, ◌^◌, length, IfOk, OnOk};
ghost use Rattle.ms_pass_tasks.specs.{Tasks.{tasks_code}, SlotTasks.{result_mask_slot, result_origin_slot}};
ghost use Rattle.ms_rules_builder.specs.Made.{with_tasks};
ghost use Rattle.ms_slots.specs.Places.{mask_slot, origin_slot, store_tasks, load_tasks, store_arguments, load_parameters, as_inserted};

use crate::places::WordSlot;
use crate::words::{load_word, store_mask, store_origin};
use ms_bits::{Duplicate, List, NoMemory};
use ms_ir::{Inst, Operand, Ty, width_of};
use ms_rules_builder::Builder;
use std::alloc::Global;

/// Hands over the mask and the origin of one word.
fn store_word(
    builder: &mut Builder,
    place: WordSlot,
    ty: &Ty,
    mask: &Operand,
    origin: &Operand,
) -> Result<(), NoMemory>
    ensures { OnOk result (builder.new ≡ with_tasks builder.old (store_tasks (mask_slot place) (origin_slot place) (ty.now, mask.now, origin.now))) }
{
    let mask = mask.copy(builder.alloc())?;
    store_mask(builder, place, width_of(ty), mask)?;
    let origin = origin.copy(builder.alloc())?;
    store_origin(builder, place, origin)
}

/// Hands over the masks and origins of all arguments.
fn store_words(builder: &mut Builder, args: &[(Ty, Operand, Operand)]) -> Result<(), NoMemory>
    ensures { OnOk result (builder.new ≡ with_tasks builder.old (store_arguments 0 args.now)) }
{
    for (place, (ty, mask, origin)) in args.iter().enumerate() {
        store_word(builder, WordSlot::Parameter(place as u64), ty, mask, origin)?;
    }
    Ok(())
}

/// Takes over the masks and origins of all parameters, as inserted results from `next` on.
fn load_words(builder: &mut Builder, params: &[Ty], next: u32) -> Result<(), NoMemory>
    ensures { OnOk result (builder.new ≡ with_tasks builder.old (load_parameters next 0 params.now)) }
{
    for (place, ty) in params.iter().enumerate() {
        let number = u64::from(next) + 2 * place as u64;
        load_word(builder, WordSlot::Parameter(place as u64), number, ty)?;
    }
    Ok(())
}

/// The code that hands over the masks and origins of the arguments of a call, each with its type, and the next free
/// number, which stays.
pub fn pass_arguments(
    alloc: Global,
    args: &[(Ty, Operand, Operand)],
    next: u32,
) -> Result<(List<Inst>, u32), NoMemory>
    ensures { IfOk result (λ r. as_inserted r ≡ tasks_code (store_arguments 0 args.now) next) }
{
    let mut builder = Builder::new(alloc, u64::from(next));
    store_words(&mut builder, args)?;
    Ok((List::from_vec(builder.into_insts()), next))
}

/// The code that takes over the masks and origins of parameters of these types, and the next free number. Those of
/// parameter `k`, from 0, come out as the inserted results `next + 2 * k` and the one after it.
pub fn take_parameters(
    alloc: Global,
    params: &[Ty],
    next: u32,
) -> Result<(List<Inst>, u32), NoMemory>
    requires low { next < 2 ^ 31 }
    requires few { length params.now ≤ 100 }
    ensures { IfOk result (λ r. as_inserted r ≡ tasks_code (load_parameters next 0 params.now) (next + 2 * length params.now)) }
{
    let after = next + 2 * params.len() as u32;
    let mut builder = Builder::new(alloc, u64::from(after));
    load_words(&mut builder, params, next)?;
    Ok((List::from_vec(builder.into_insts()), after))
}

/// The code that hands over the mask and the origin of a result, and the next free number, which stays.
pub fn give_result(
    alloc: Global,
    ty: &Ty,
    mask: &Operand,
    origin: &Operand,
    next: u32,
) -> Result<(List<Inst>, u32), NoMemory>
    ensures { IfOk result (λ r. as_inserted r ≡ tasks_code (store_tasks result_mask_slot result_origin_slot (ty.now, mask.now, origin.now)) next) }
{
    let mut builder = Builder::new(alloc, u64::from(next));
    store_word(&mut builder, WordSlot::Result, ty, mask, origin)?;
    Ok((List::from_vec(builder.into_insts()), next))
}

/// The code that takes over the mask and the origin of a result of a type, and the next free number. They come out as the
/// inserted results `next` and the one after it.
pub fn take_result(alloc: Global, ty: &Ty, next: u32) -> Result<(List<Inst>, u32), NoMemory>
    requires { next < 2 ^ 31 }
    ensures { IfOk result (λ r. as_inserted r ≡ tasks_code (load_tasks result_mask_slot result_origin_slot next ty.now) (next + 2)) }
{
    let after = next + 2;
    let mut builder = Builder::new(alloc, u64::from(after));
    load_word(&mut builder, WordSlot::Result, u64::from(next), ty)?;
    Ok((List::from_vec(builder.into_insts()), after))
}
