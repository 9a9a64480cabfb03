//! The arguments of a call of `printf`, with their types: as the code kept them, or as an instruction of the module has them.
ghost use Rattle.std.specs.{Prelude.{◌≡◌, ◌++◌, [], ◌∷◌, Some, option_map, option_to_list, slice_get, drop, zip, IfOk}, Option.{option_copied}};
ghost use Rattle.ms_ir.specs.{declared.syntax.Inst.{Inst as InstOf}, declared.places.Place.{Place as PlaceOf}};
ghost use Rattle.ms_ir.specs.{Instructions.{insts_at}, Places.{HasSmallNumbers, IsPlaceOf, inst_at}, ValueTypes.{type_of}};
ghost use Rattle.ms_printf.specs.Walks.{types_of, given};

use ms_bits::{Duplicate, NoMemory};
use ms_ir::{Inst, Module, Op, Ty, ValueType, place_of};
use std::alloc::Global;

/// An argument: its type and its word.
#[derive(Clone, Copy)]
pub(crate) struct Argument<'m> {
    pub ty: ValueType<'m>,
    pub word: u64,
}

/// The word of argument `k`, if there is one.
#[tactic(auto, using(crate::proofs::Steps::word_there, crate::proofs::Steps::word_missing))]
fn word_at(words: &[u64], k: usize) -> Option<u64>
    ensures { result ≡ slice_get words.now k }
{
    if k < words.len() {
        Some(words[k])
    } else {
        None
    }
}

/// The type of argument `k`, if there is one.
fn type_at(types: &[Ty], k: usize) -> Option<ValueType<'_>>
    ensures { option_map type_of result ≡ slice_get types.now k }
{
    match types.get(k) {
        Some(ty) => Some(ValueType::Written(ty)),
        None => None,
    }
}

/// Argument `k`, counted from 0, if there is one.
pub(crate) fn argument_at<'m>(types: &'m [Ty], words: &[u64], k: usize) -> Option<Argument<'m>>
    ensures { option_map given result ≡ slice_get (zip (drop k types.now) (drop k words.now)) 0 }
{
    let Some(ty) = type_at(types, k) else {
        return None;
    };
    match word_at(words, k) {
        Some(word) => Some(Argument { ty, word }),
        None => None,
    }
}

/// A type as it is written.
fn written(alloc: Global, ty: ValueType<'_>) -> Result<Ty, NoMemory>
    ensures { IfOk result (λ t. t ≡ type_of ty.entry) }
{
    match ty {
        ValueType::Bit => Ok(Ty::Int(1)),
        ValueType::Pointer => Ok(Ty::Ptr),
        ValueType::Written(ty) => ty.copy(alloc),
    }
}

/// Adds a type as it is written.
fn push_type(alloc: Global, types: &mut Vec<Ty>, ty: ValueType<'_>) -> Result<(), NoMemory>
    ensures { IfOk result (λ _. types.new.items ≡ types.old.items ++ type_of ty.entry ∷ []) }
{
    types.push(written(alloc, ty)?)?;
    Ok(())
}

/// Adds the type of operand `k` of an operation, if there is one.
fn push_type_at(alloc: Global, types: &mut Vec<Ty>, op: &Op, k: usize) -> Result<(), NoMemory>
    ensures { IfOk result (λ _. types.new.items ≡ types.old.items ++ option_to_list (slice_get (types_of op.now) k)) }
{
    match op.operand_type(k) {
        Some(ty) => push_type(alloc, types, ty),
        None => Ok(()),
    }
}

/// The types of the operands of an operation, in written order.
pub(crate) fn operand_types(alloc: Global, op: &Op) -> Result<Vec<Ty>, NoMemory>
    ensures { IfOk result (λ types. types.items ≡ types_of op.now) }
{
    let mut types = Vec::new(alloc);
    for k in 0..op.operand_count() {
        push_type_at(alloc, &mut types, op, k)?;
    }
    Ok(types)
}

/// The instruction at a place: the numbers of its function, its block and itself, counted from 0.
pub(crate) fn inst_of(m: &Module, func: usize, block: usize, inst: usize) -> Option<&Inst>
    ensures { option_copied result ≡ slice_get (insts_at m.now func block) inst }
{
    let Some(func) = m.funcs.as_slice().get(func) else {
        return None;
    };
    let Some(block) = func.blocks.as_slice().get(block) else {
        return None;
    };
    block.insts.as_slice().get(inst)
}

/// The operation of the unmarked instruction with a site, if there is one.
pub(crate) fn op_at(m: &Module, site: u32) -> Option<&Op>
    requires { HasSmallNumbers m.now }
    ensures { (place : PlaceOf) (inst : InstOf) → IsPlaceOf m.now site place → inst_at m.now place ≡ Some inst → option_copied result ≡ Some inst.op }
{
    let Some(place) = place_of(m, site) else {
        return None;
    };
    match inst_of(
        m,
        place.func as usize,
        place.block as usize,
        place.inst as usize,
    ) {
        Some(inst) => Some(&inst.op),
        None => None,
    }
}
