//! Checks constants against the types in front of them (LLVM Language Reference, "Constants", "Constant Expressions").
ghost use Rattle.std.specs.{Prelude.{◌≡◌, None, ◌&&◌}, List.{list_all}};
ghost use Rattle.ms_ir.specs.declared.syntax.Ty as type;
ghost use Rattle.ms_ir.specs.{Equal.{type_eq}, ValueTypes.{type_of}};
ghost use Rattle.ms_check_valid.specs.TypesAgree.{operand_fits, is_variable, step_fits};

use crate::steps::leads_on;
use crate::symbols::Symbols;
use ms_bits::List;
use ms_ir::{Name, Operand, Ty, ValueType};

/// Whether the address of a global fits a type: a pointer, to a global variable.
pub fn global_fits(symbols: &Symbols<'_>, ty: ValueType<'_>, name: &Name) -> bool
    ensures { result ≡ (type_eq (type_of ty.entry) type.Ptr && is_variable symbols.now.source.now name.now) }
{
    ty.is_pointer() && symbols.is_variable(name)
}

/// Whether each of a step's indices after the first leads into a part of its type; the first counts whole items of the type.
fn inner_indices_fit(symbols: &Symbols<'_>, ty: &Ty, indices: &[(Ty, u64)]) -> bool
    ensures { result ≡ step_fits symbols.now.source.now.types (ty.now, indices.now) }
{
    if indices.is_empty() {
        return true;
    }
    leads_on(symbols, ty, &indices[1..])
}

/// Whether the indices of a step, which is a constant `getelementptr`, lead into parts of its type.
fn step_fits(symbols: &Symbols<'_>, step: &(Ty, List<(Ty, u64)>)) -> bool
    ensures { result ≡ step_fits symbols.now.source.now.types step.now }
{
    inner_indices_fit(symbols, &step.0, step.1.as_slice())
}

/// Whether the indices of each step lead into parts of its type. Steps are constant `getelementptr`s, one within the other.
fn steps_fit(symbols: &Symbols<'_>, steps: &[(Ty, List<(Ty, u64)>)]) -> bool
    ensures { result ≡ list_all (step_fits symbols.now.source.now.types) steps.now }
{
    steps.iter().all(|step| step_fits(symbols, step))
}

/// Whether the address to which steps lead from the global `name` fits the type `ty`: a pointer.
pub fn offset_fits(
    symbols: &Symbols<'_>,
    ty: ValueType<'_>,
    name: &Name,
    steps: &[(Ty, List<(Ty, u64)>)],
) -> bool
    ensures { result ≡ (type_eq (type_of ty.entry) type.Ptr && is_variable symbols.now.source.now name.now
        && list_all (step_fits symbols.now.source.now.types) steps.now) }
{
    global_fits(symbols, ty, name) && steps_fit(symbols, steps)
}

/// Whether a constant fits a type; a value of a function fits none.
pub fn constant_fits(symbols: &Symbols<'_>, ty: ValueType<'_>, constant: &Operand) -> bool
    ensures { result ≡ operand_fits symbols.now.source.now (λ x. None) (type_of ty.entry) constant.now }
{
    match constant {
        Operand::Int(_) => true,
        Operand::Null => true,
        Operand::Undef => true,
        Operand::Poison => true,
        Operand::Local(_) => false,
        Operand::Global(name) => global_fits(symbols, ty, name),
        Operand::Offset(name, steps) => offset_fits(symbols, ty, name.get(), steps.as_slice()),
    }
}
