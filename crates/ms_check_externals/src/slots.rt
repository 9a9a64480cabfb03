//! Whether globals with reserved names are slots: those of the instrumented form, which hand masks and origins over at calls.
ghost use Rattle.std.specs.{Prelude.{◌≡◌, take, drop}, List.{list_any}};
ghost use Rattle.ms_ir.specs.{declared.syntax.Ty.{Int as IntType, Array as ArrayType}, Equal.{type_eq}};
ghost use Rattle.ms_ir.specs.{Names.{slot_name}, Signatures.{variable, slot_globals}};
ghost use Rattle.ms_ir.specs.declared.syntax.Init as initial;
ghost use Rattle.ms_ir.specs.declared.syntax.Operand.TheVariants as operand;
ghost use Rattle.ms_check_valid.specs.ExternalsFit.{is_false, start_eq, slot_eq, global_fits};

use ms_ir::{GlobalVar, Init, Operand, Slot, Ty, is_int};

/// Whether a type is an array of 100 integers of a width.
fn is_row(ty: &Ty, width: u8) -> bool
    ensures { result ≡ type_eq ty.now (ArrayType 100 (IntType width)) }
{
    match ty {
        Ty::Array(count, item) => *count == 100 && is_int(item.get(), width),
        _ => false,
    }
}

/// Whether a slot of parameters begins as `zeroinitializer`.
fn starts_at_zeros(init: &Init) -> bool
    ensures { result ≡ start_eq init.now initial.Zero }
{
    match init {
        Init::Zero => true,
        _ => false,
    }
}

/// Whether an operand is the number 0.
pub fn is_nought(operand: &Operand) -> bool
    ensures { result ≡ is_false operand.now }
{
    match operand {
        Operand::Int(number) => *number == 0,
        _ => false,
    }
}

/// Whether a slot of a result begins as the number 0.
fn starts_at_nought(init: &Init) -> bool
    ensures { result ≡ start_eq init.now (initial.Value (operand.Int 0)) }
{
    match init {
        Init::Value(operand) => is_nought(operand),
        _ => false,
    }
}

/// Whether a global is this slot of parameters, which has 100 items of so many bits.
fn is_row_slot(global: &GlobalVar, slot: Slot, width: u8) -> bool
    ensures { result ≡ slot_eq global.now (variable (slot_name slot) (ArrayType 100 (IntType width)) initial.Zero) }
{
    global.name.is(slot.name())
        && !global.constant
        && is_row(&global.ty, width)
        && starts_at_zeros(&global.init)
}

/// Whether a global is this slot of a result, of so many bits.
fn is_result_slot(global: &GlobalVar, slot: Slot, width: u8) -> bool
    ensures { result ≡ slot_eq global.now (variable (slot_name slot) (IntType width) (initial.Value (operand.Int 0))) }
{
    global.name.is(slot.name())
        && !global.constant
        && is_int(&global.ty, width)
        && starts_at_nought(&global.init)
}

/// Whether a global is one of the slots of parameters: for masks, of 64 bits, or origins, of 32.
fn is_param_slot(global: &GlobalVar) -> bool
    ensures { result ≡ list_any (slot_eq global.now) (take 2 slot_globals) }
{
    is_row_slot(global, Slot::ParamMasks, 64) || is_row_slot(global, Slot::ParamOrigins, 32)
}

/// Whether a global is one of the slots of a result: for its mask or its origin.
fn is_retval_slot(global: &GlobalVar) -> bool
    ensures { result ≡ list_any (slot_eq global.now) (drop 2 slot_globals) }
{
    is_result_slot(global, Slot::RetvalMask, 64) || is_result_slot(global, Slot::RetvalOrigin, 32)
}

/// Whether a global is one of the slots.
fn is_slot(global: &GlobalVar) -> bool
    ensures { result ≡ list_any (slot_eq global.now) slot_globals }
{
    is_param_slot(global) || is_retval_slot(global)
}

/// Whether a global is a slot where its name is reserved.
pub fn global_fits(global: &GlobalVar) -> bool
    ensures { result ≡ global_fits global.now }
{
    !global.name.is_reserved() || is_slot(global)
}
