//! Checks the types of instructions that step through a type (LLVM Language Reference, "'getelementptr' Instruction").
ghost use Rattle.std.specs.{Prelude.{◌≡◌, length, take, drop, ◌∷◌}, Option.{option_or}};
ghost use Rattle.ms_ir.specs.declared.syntax.Ty as type;
ghost use Rattle.ms_check_valid.specs.TypesAgree.{first_misfit, first_misstep};
ghost use Rattle.ms_check_types.specs.Bodies.{fits_in, types_of};

use crate::bodies::FuncTypes;
use crate::operands::operand_fits;
use crate::steps::{constant, part};
use ms_ir::{Operand, Ty, ValueType};

/// The operand number of the first of some indices that doesn't fit or leads into no part: those after the first of a
/// `getelementptr`, which are its operands 2 and on. They lead from the type `ty` inwards.
fn first_misstep<'a>(
    body: &FuncTypes<'a, '_>,
    ty: &'a Ty,
    indices: &[(Ty, Operand)],
) -> Option<usize>
    ensures { result ≡ first_misstep (fits_in body.now) (types_of body.now) ty.now 2 indices.now }
{
    let mut whole = ty;
    for (place, (index_ty, index)) in indices.iter().enumerate() {
        if !operand_fits(body, ValueType::Written(index_ty), index) {
            return Some(place + 2);
        }
        match part(body.symbols, whole, index_ty, constant(index)) {
            None => return Some(place + 2),
            Some(next) => whole = next,
        }
    }
    None
}

/// The operand of a `getelementptr` at fault: 0 for the base, 1 for the first index, and so on.
pub fn gep_fault<'a>(
    body: &FuncTypes<'a, '_>,
    ty: &'a Ty,
    base: &Operand,
    indices: &[(Ty, Operand)],
) -> Option<usize>
    ensures { result ≡ option_or (first_misfit (fits_in body.now) 0 ((type.Ptr, base.now) ∷ take 1 indices.now))
        (first_misstep (fits_in body.now) (types_of body.now) ty.now 2 (drop 1 indices.now)) }
{
    if !operand_fits(body, ValueType::Pointer, base) {
        return Some(0);
    }
    match indices {
        [] => None,
        [(index_ty, index), rest @ ..] => {
            if operand_fits(body, ValueType::Written(index_ty), index) {
                first_misstep(body, ty, rest)
            } else {
                Some(1)
            }
        }
    }
}
