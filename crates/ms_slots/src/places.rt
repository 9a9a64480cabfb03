//! The slots as operands of inserted loads and stores: global variables, two of which are arrays with an item for each argument.
ghost use Rattle.std.specs.Prelude.{◌≡◌, [], ◌∷◌, IfOk};
ghost use Rattle.ms_ir.specs.declared.syntax.Ty as type;
ghost use Rattle.ms_ir.specs.declared.syntax.Operand.TheVariants as operand;
ghost use Rattle.ms_ir.specs.Names.{slot_name as name_of};
ghost use Rattle.ms_slots.specs.Places.{mask_slot, origin_slot};

use ms_bits::{Boxed, List, NoMemory, SmallBytes};
use ms_ir::{Name, Operand, Slot, Ty};
use std::alloc::Global;

/// The slots in which the mask and the origin of a word are handed over.
#[derive(Clone, Copy)]
pub enum WordSlot {
    /// The mask and origin of an argument with a place, from 0.
    Parameter(u64),
    /// The mask and origin of a result.
    Result,
}

/// The name of the global that a slot is.
fn slot_name(alloc: Global, slot: Slot) -> Result<Name, NoMemory>
    ensures { IfOk result (λ x. x ≡ name_of slot) }
{
    Ok(Name::Text(SmallBytes::from_slice(alloc, slot.name())?))
}

/// A slot that is no array.
fn whole_slot(alloc: Global, slot: Slot) -> Result<Operand, NoMemory>
    ensures { IfOk result (λ o. o ≡ operand.Global (name_of slot)) }
{
    Ok(Operand::Global(slot_name(alloc, slot)?))
}

/// The indices of a step to the item at a place.
fn index(alloc: Global, place: u64) -> Result<List<(Ty, u64)>, NoMemory>
    ensures { IfOk result (λ l. l ≡ (type.Int 64, place) ∷ []) }
{
    let mut indices = Vec::with_capacity(alloc, 1)?;
    indices.push((Ty::Int(64), place))?;
    Ok(List::from_vec(indices))
}

/// The step from the start of a slot to its item, of `width` bits, at a place.
fn step(alloc: Global, width: u8, place: u64) -> Result<List<(Ty, List<(Ty, u64)>)>, NoMemory>
    ensures { IfOk result (λ l. l ≡ (type.Int width, (type.Int 64, place) ∷ []) ∷ []) }
{
    let indices = index(alloc, place)?;
    let mut steps = Vec::with_capacity(alloc, 1)?;
    steps.push((Ty::Int(width), indices))?;
    Ok(List::from_vec(steps))
}

/// The address of the item, of `width` bits, at a place of a slot that is an array.
fn item_of_slot(alloc: Global, slot: Slot, width: u8, place: u64) -> Result<Operand, NoMemory>
    ensures { IfOk result (λ o. o ≡ operand.Offset (name_of slot) ((type.Int width, (type.Int 64, place) ∷ []) ∷ [])) }
{
    let name = Boxed::new(alloc, slot_name(alloc, slot)?)?;
    let steps = step(alloc, width, place)?;
    Ok(Operand::Offset(name, steps))
}

impl WordSlot {
    /// The address at which the mask is handed over.
    pub fn mask_slot(self, alloc: Global) -> Result<Operand, NoMemory>
        ensures { IfOk result (λ o. o ≡ mask_slot self) }
    {
        match self {
            WordSlot::Parameter(place) => item_of_slot(alloc, Slot::ParamMasks, 64, place),
            WordSlot::Result => whole_slot(alloc, Slot::RetvalMask),
        }
    }

    /// The address at which the origin is handed over.
    pub fn origin_slot(self, alloc: Global) -> Result<Operand, NoMemory>
        ensures { IfOk result (λ o. o ≡ origin_slot self) }
    {
        match self {
            WordSlot::Parameter(place) => item_of_slot(alloc, Slot::ParamOrigins, 32, place),
            WordSlot::Result => whole_slot(alloc, Slot::RetvalOrigin),
        }
    }
}
