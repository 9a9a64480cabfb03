//! Whether the types that are written in operands and initialisers have sizes.
ghost use Rattle.std.specs.{Prelude.{◌≡◌, map}, List.{list_all}};
ghost use Rattle.ms_ir.specs.{ValueTypes.{type_of}, Written.{operand_types, init_types}};
ghost use Rattle.ms_check_types.specs.SizedParts.{has_sizes, is_step_sized, is_typed_sized, is_item_sized};

use crate::parts::has_sizes;
use ms_bits::List;
use ms_check_tables::Extents;
use ms_ir::{Init, Operand, Ty, ValueType};

/// Whether the types that an operand names by itself have sizes.
pub fn is_operand_sized(extents: &Extents, operand: &Operand) -> bool
    ensures { result ≡ list_all (has_sizes extents.now) (operand_types operand.now) }
{
    match operand {
        Operand::Offset(_, steps) => are_steps_sized(extents, steps.as_slice()),
        _ => true,
    }
}

/// Whether the types in the steps of a constant `getelementptr` have sizes.
fn are_steps_sized(extents: &Extents, steps: &[(Ty, List<(Ty, u64)>)]) -> bool
    ensures { result ≡ list_all (is_step_sized extents.now) steps.now }
{
    steps.iter().all(|step| is_step_sized(extents, step))
}

/// Whether the type that a step begins at has sizes, and each type of an index.
fn is_step_sized(extents: &Extents, step: &(Ty, List<(Ty, u64)>)) -> bool
    ensures { result ≡ is_step_sized extents.now step.now }
{
    has_sizes(extents, &step.0) && are_indices_sized(extents, step.1.as_slice())
}

/// Whether the types of a step's indices have sizes.
fn are_indices_sized(extents: &Extents, indices: &[(Ty, u64)]) -> bool
    ensures { result ≡ list_all (λ i. has_sizes extents.now i.0) indices.now }
{
    indices.iter().all(|index| has_sizes(extents, &index.0))
}

/// Whether the type that stands before an operand has sizes.
fn is_value_sized(extents: &Extents, ty: ValueType<'_>) -> bool
    ensures { result ≡ has_sizes extents.now (type_of ty.entry) }
{
    match ty {
        ValueType::Bit => true,
        ValueType::Pointer => true,
        ValueType::Written(ty) => has_sizes(extents, ty),
    }
}

/// Whether the types in an operand with its type have sizes.
pub fn is_typed_sized(extents: &Extents, ty: ValueType<'_>, operand: &Operand) -> bool
    ensures { result ≡ is_typed_sized extents.now (type_of ty.entry, operand.now) }
{
    is_value_sized(extents, ty) && is_operand_sized(extents, operand)
}

/// Whether the types in an initialiser have sizes.
#[cycle(inits)]
pub fn is_init_sized(extents: &Extents, init: &Init) -> bool
    ensures { result ≡ list_all (has_sizes extents.now) (init_types init.now) }
{
    match init {
        Init::Value(operand) => is_operand_sized(extents, operand),
        Init::Array(items) => are_items_sized(extents, items.as_slice()),
        Init::Struct(_, fields) => are_items_sized(extents, fields.as_slice()),
        _ => true,
    }
}

/// Whether the types of an array's items or a struct's fields have sizes, and those within each.
#[cycle(inits)]
fn are_items_sized(extents: &Extents, items: &[(Ty, Init)]) -> bool
    ensures { result ≡ list_all (is_item_sized extents.now) items.now }
{
    for (ty, init) in items {
        if !has_sizes(extents, ty) {
            return false;
        }
        if !is_init_sized(extents, init) {
            return false;
        }
    }
    true
}
