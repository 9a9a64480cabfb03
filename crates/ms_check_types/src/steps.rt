//! The ways that indices lead from a type to its parts (LLVM Language Reference, "'getelementptr' Instruction").
ghost use Rattle.std.specs.Prelude.{◌≡◌, length, option_and_then, if◌then◌else◌, is_none, true, None};
ghost use Rattle.std.specs.Option.{option_copied};
ghost use Rattle.ms_ir.specs.declared.syntax.Ty as type;
ghost use Rattle.ms_ir.specs.{Layout.{resolved}, Equal.{type_eq}};
ghost use Rattle.ms_check_valid.specs.TypesAgree.{first_misstep, constant_indices};
ghost use Rattle.ms_check_types.specs.Parts.{constant_of, field_at, part_by};

use crate::symbols::Symbols;
use ms_ir::{Operand, Ty, is_int};

/// The number that an operand is, if it is one.
pub fn constant(operand: &Operand) -> Option<u64>
    ensures { result ≡ constant_of operand.now }
{
    match operand {
        Operand::Int(value) => Some(*value),
        _ => None,
    }
}

/// The field of a struct to which an index leads: one of type `i32` with a number in range and below 2^31.
fn field<'a>(fields: &'a [Ty], index_ty: &Ty, index: Option<u64>) -> Option<&'a Ty>
    ensures { option_copied result ≡ if type_eq index_ty.now (type.Int 32) then option_and_then (field_at fields.now) index else None }
{
    match index {
        Some(place) if is_int(index_ty, 32) && place < 1 << 31 => fields.get(place as usize),
        _ => None,
    }
}

/// The part of the type `whole`, which has no name, to which an index leads, by the index's type and number if it is constant.
fn part_of<'a>(whole: &'a Ty, index_ty: &Ty, index: Option<u64>) -> Option<&'a Ty>
    ensures { option_copied result ≡ part_by whole.now index_ty.now index }
{
    match whole {
        Ty::Array(_, item) => Some(item.get()),
        Ty::Struct(_, fields) => field(fields.as_slice(), index_ty, index),
        _ => None,
    }
}

/// The part of a type to which an index leads, by the index's type and its number if it is constant; none where it leads to none.
pub fn part<'a>(
    symbols: &'a Symbols<'_>,
    ty: &'a Ty,
    index_ty: &Ty,
    index: Option<u64>,
) -> Option<&'a Ty>
    ensures { option_copied result ≡ part_by (resolved symbols.now.source.now.types ty.now) index_ty.now index }
{
    match symbols.resolved(ty) {
        Some(whole) => part_of(whole, index_ty, index),
        None => None,
    }
}

/// Whether each of some constant indices leads into a part, the first from `ty`, each other from the part before it.
pub fn leads_on<'a>(symbols: &'a Symbols<'_>, ty: &'a Ty, indices: &[(Ty, u64)]) -> bool
    ensures { result ≡ is_none (first_misstep (λ i. true) symbols.now.source.now.types ty.now 0 (constant_indices indices.now)) }
{
    let mut whole = ty;
    for (index_ty, index) in indices {
        match part(symbols, whole, index_ty, Some(*index)) {
            None => return false,
            Some(next) => whole = next,
        }
    }
    true
}
