//! The code of the mask and the origin of what is loaded: an inserted load of the shadow, and a call of the runtime.
ghost use Rattle.std.specs.Prelude.{◌≡◌, ℕ, [], ◌∷◌, map, OnOk, Option, Some};
ghost use Rattle.ms_ir.specs.{declared.syntax.Name.{Name as NameOf}, declared.syntax.Ty.{Ty as TyOf, Int, Ptr}};
ghost use Rattle.ms_ir.specs.{declared.syntax.Operand.{Operand as OperandOf}, Layout.{width_of}};
ghost use Rattle.ms_ir.specs.declared.syntax.Operand.TheVariants as operand;
ghost use Rattle.ms_ir.specs.declared.syntax.Op.TheVariants as operation;
ghost use Rattle.ms_ir.specs.declared.calls.RuntimeFn.TheVariants as function;
ghost use Rattle.ms_pass_tasks.specs.Tasks.{Leaf, Fetches, Calls, mask_name as mask_name_of, origin_name as origin_name_of};
ghost use Rattle.ms_pass_tasks.specs.Environments.{tracked_at, word_of, widened};
ghost use Rattle.ms_pass_tasks.specs.ResultTasks.{define_tasks, shadow_address};
ghost use Rattle.ms_rules_builder.specs.{Made.{with_tasks}, Steps.{inputs_of, tracked_of}};

use ms_bits::NoMemory;
use ms_ir::RuntimeFn;
use ms_ir::areas::SHADOW_BITS;
use ms_rules_builder::StackOp::{Constant, Inserted, ToNumber, ToPointer, Widen, Word};
use ms_rules_builder::{
    Builder, Inputs, Operation, StackOp, TrackedOperand, Width, mask_name, origin_name,
};

/// The address of the shadow of what the address, operand 0, names: its bits `SHADOW_BITS` are turned.
const SHADOW: [StackOp; 5] = [
    Word(0),
    ToNumber,
    Constant(SHADOW_BITS),
    StackOp::Two(Operation::Xor, Width::Bits(64)),
    ToPointer,
];

/// Loads the mask of a value from the shadow of what the address names.
fn load_mask(
    builder: &mut Builder,
    value: u32,
    width: u8,
    inputs: &Inputs<'_>,
) -> Result<(), NoMemory>
    ensures { OnOk result (builder.new ≡ with_tasks builder.old (Fetches (mask_name_of value) (Int width) (shadow_address (word_of (tracked_at 0 (inputs_of inputs.now).operands))) ∷ [])) }
{
    let name = mask_name(builder.alloc(), value as u64)?;
    builder.fetch(name, width, inputs, &SHADOW)
}

/// Calls what gives the origin of a loaded value, with its address and its mask, which has just been loaded.
fn load_origin(
    builder: &mut Builder,
    value: u32,
    width: u8,
    inputs: &Inputs<'_>,
) -> Result<(), NoMemory>
    ensures { OnOk result (builder.new ≡ with_tasks builder.old (Calls (Some (origin_name_of value)) function.LoadOrigin ((Ptr, word_of (tracked_at 0 (inputs_of inputs.now).operands)) ∷ (Int 64, widened width (Leaf (operand.Local (mask_name_of value)))) ∷ []) ∷ [])) }
{
    let name = origin_name(builder.alloc(), value as u64)?;
    let mask = 2 * (value as u64) + 1;
    let words = [Word(0), Inserted(mask), Widen(width)];
    builder.call(Some(name), RuntimeFn::LoadOrigin, inputs, &words)
}

/// Defines the mask and the origin of what a load of a width gives: both stand in memory, and the origin is that of the
/// first byte that the mask poisons.
pub fn define_load(
    builder: &mut Builder,
    value: u32,
    width: u8,
    operands: &[TrackedOperand<'_>],
) -> Result<(), NoMemory>
    ensures { (func : NameOf → Option ℕ) (t : TyOf) (a : OperandOf) → width_of t ≡ width → OnOk result (builder.new ≡ with_tasks builder.old (define_tasks func value (operation.Load t a) (map tracked_of operands.now))) }
{
    let inputs = Inputs::plain(operands, width, &None);
    load_mask(builder, value, width, &inputs)?;
    load_origin(builder, value, width, &inputs)
}
