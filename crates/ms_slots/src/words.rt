//! The code that puts a word's mask and origin into two slots, or takes them from there: inserted stores (`Puts`) and loads
//! (`Fetches`).
ghost use Rattle.std.specs.Prelude.{◌≡◌, ◌<◌, ◌+◌, ◌^◌, [], ◌∷◌, OnOk};
ghost use Rattle.ms_ir.specs.declared.syntax.Ty.{Int};
ghost use Rattle.ms_pass_tasks.specs.Tasks.{msan_name, Leaf, Fetches, Puts};
ghost use Rattle.ms_rules_builder.specs.Made.{with_tasks};
ghost use Rattle.ms_slots.specs.Places.{mask_slot, origin_slot, load_tasks};

use crate::places::WordSlot;
use ms_bits::NoMemory;
use ms_ir::{Name, Op, Operand, Ty, width_of};
use ms_rules_builder::{Builder, msan_name};

/// The bits of an origin.
const ORIGIN_WIDTH: u8 = 32;

/// Adds a store of `width` bits.
fn store(builder: &mut Builder, width: u8, value: Operand, addr: Operand) -> Result<(), NoMemory>
    ensures { OnOk result (builder.new ≡ with_tasks builder.old (Puts (Int width) (Leaf value) (Leaf addr) ∷ [])) }
{
    builder.put(
        None,
        Op::Store {
            ty: Ty::Int(width),
            value,
            addr,
        },
    )
}

/// Adds a load of `width` bits, whose result has this name.
fn load(builder: &mut Builder, name: Name, width: u8, addr: Operand) -> Result<(), NoMemory>
    ensures { OnOk result (builder.new ≡ with_tasks builder.old (Fetches name (Int width) (Leaf addr) ∷ [])) }
{
    builder.put(
        Some(name),
        Op::Load {
            ty: Ty::Int(width),
            addr,
        },
    )
}

/// A mask of a width goes into its slot.
pub fn store_mask(
    builder: &mut Builder,
    place: WordSlot,
    width: u8,
    mask: Operand,
) -> Result<(), NoMemory>
    ensures { OnOk result (builder.new ≡ with_tasks builder.old (Puts (Int width) (Leaf mask) (Leaf (mask_slot place)) ∷ [])) }
{
    let slot = place.mask_slot(builder.alloc())?;
    store(builder, width, mask, slot)
}

/// An origin goes into its slot.
pub fn store_origin(builder: &mut Builder, place: WordSlot, origin: Operand) -> Result<(), NoMemory>
    ensures { OnOk result (builder.new ≡ with_tasks builder.old (Puts (Int 32) (Leaf origin) (Leaf (origin_slot place)) ∷ [])) }
{
    let slot = place.origin_slot(builder.alloc())?;
    store(builder, ORIGIN_WIDTH, origin, slot)
}

/// A mask comes out of its slot, as the inserted result with a number.
fn load_mask(builder: &mut Builder, place: WordSlot, number: u64, width: u8) -> Result<(), NoMemory>
    ensures { OnOk result (builder.new ≡ with_tasks builder.old (Fetches (msan_name number) (Int width) (Leaf (mask_slot place)) ∷ [])) }
{
    let name = msan_name(builder.alloc(), number)?;
    let slot = place.mask_slot(builder.alloc())?;
    load(builder, name, width, slot)
}

/// An origin comes out of its slot, as the inserted result with a number.
fn load_origin(builder: &mut Builder, place: WordSlot, number: u64) -> Result<(), NoMemory>
    ensures { OnOk result (builder.new ≡ with_tasks builder.old (Fetches (msan_name number) (Int 32) (Leaf (origin_slot place)) ∷ [])) }
{
    let name = msan_name(builder.alloc(), number)?;
    let slot = place.origin_slot(builder.alloc())?;
    load(builder, name, ORIGIN_WIDTH, slot)
}

/// A mask of a type and an origin come out of their slots, as the inserted result with a number and the one after it, whose
/// number has 64 bits too.
pub fn load_word(
    builder: &mut Builder,
    place: WordSlot,
    number: u64,
    ty: &Ty,
) -> Result<(), NoMemory>
    requires { number < 2 ^ 63 }
    ensures { OnOk result (builder.new ≡ with_tasks builder.old (load_tasks (mask_slot place) (origin_slot place) number ty.now)) }
{
    load_mask(builder, place, number, width_of(ty))?;
    load_origin(builder, place, number + 1)
}
