//! Operands against the types before them in the text (LLVM Language Reference, "Instruction Reference").
ghost use Rattle.std.specs.Prelude.{◌≡◌, option_map, slice_get};
ghost use Rattle.ms_ir.specs.{Instructions.{operands}, ValueTypes.{type_of}};
ghost use Rattle.ms_check_valid.specs.TypesAgree.{first_misfit};
ghost use Rattle.ms_check_types.specs.{Bodies.{fits_in}, Typed.{holds_at}};

use crate::bodies::FuncTypes;
use crate::constants::{global_fits, offset_fits};
use ms_ir::{Op, Operand, ValueType};

/// The operand with a place from 0 and the type before it, if there is one.
#[tactic(auto, using(crate::proofs::OneByOne::typed_there, crate::proofs::OneByOne::untyped, crate::proofs::OneByOne::unheld))]
pub fn typed_operand(op: &Op, place: usize) -> Option<(ValueType<'_>, &Operand)>
    ensures { option_map (λ o. (type_of o.0, o.1.now)) result ≡ slice_get (operands op.now) place }
{
    match op.operand_type(place) {
        None => None,
        Some(ty) => match op.operand(place) {
            None => None,
            Some(operand) => Some((ty, operand)),
        },
    }
}

/// Whether an operand has the type before it.
pub fn operand_fits(body: &FuncTypes<'_, '_>, ty: ValueType<'_>, operand: &Operand) -> bool
    ensures { result ≡ fits_in body.now (type_of ty.entry, operand.now) }
{
    match operand {
        Operand::Int(_) => true,
        Operand::Null => true,
        Operand::Undef => true,
        Operand::Poison => true,
        Operand::Local(name) => match body.locals.type_of(name) {
            Some(own) => own.is_same(&ty),
            None => false,
        },
        Operand::Global(name) => global_fits(body.symbols, ty, name),
        Operand::Offset(name, steps) => {
            offset_fits(body.symbols, ty, name.get(), steps.as_slice())
        }
    }
}

/// Whether the operand with a place has the type before it, if there is one.
fn fits_at(body: &FuncTypes<'_, '_>, op: &Op, place: usize) -> bool
    ensures { result ≡ holds_at (fits_in body.now) (slice_get (operands op.now) place) }
{
    match typed_operand(op, place) {
        Some((ty, operand)) => operand_fits(body, ty, operand),
        None => true,
    }
}

/// The place of the first operand of an instruction that doesn't have the type before it.
pub fn first_misfit(body: &FuncTypes<'_, '_>, op: &Op) -> Option<usize>
    ensures { result ≡ first_misfit (fits_in body.now) 0 (operands op.now) }
{
    for place in 0..op.operand_count() {
        if !fits_at(body, op, place) {
            return Some(place);
        }
    }
    None
}
