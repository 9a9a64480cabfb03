//! Which values are said to be clean where `emit` is asked: those whose mask and origin are given as the constant 0.
ghost use Rattle.std.specs.Prelude.{◌≡◌, ◌++◌, is_some, IfOk};
ghost use Rattle.ms_ir.specs.declared.syntax.Name.{Name as NameOf};
ghost use Rattle.ms_check_tables.specs.FirstPlace.{first_place};
ghost use Rattle.ms_pass_tasks.specs.Environments.{is_zero};
ghost use Rattle.ms_rules.specs.Singles.{clean_name, is_clean, operands_in};

use ms_bits::NoMemory;
use ms_check_tables::NameTable;
use ms_ir::{Name, Operand};
use std::alloc::Global;
use std::collections::BTreeMap;

/// Whether an operand is the constant 0.
fn is_zero(operand: &Operand) -> bool
    ensures { result ≡ is_zero operand.now }
{
    match operand {
        Operand::Int(value) => *value == 0,
        _ => false,
    }
}

/// Adds the name of a value if its mask and its origin, `operands`, are the constant 0.
fn push_clean<'m>(
    names: &mut NameTable<'m>,
    name: &'m Name,
    operands: &(Operand, Operand),
) -> Result<(), NoMemory>
    ensures { IfOk result (λ _. names.new ≡ names.old ++ clean_name (name.now, operands.now)) }
{
    if is_zero(&operands.0) && is_zero(&operands.1) {
        names.push(name)?;
    }
    Ok(())
}

/// The names of the values, of those given with mask and origin, whose mask and origin are the constant 0.
pub fn clean_names(
    alloc: Global,
    values: &BTreeMap<Name, (Operand, Operand)>,
) -> Result<NameTable<'_>, NoMemory>
    ensures { IfOk result (λ names. (x : NameOf) → is_some (first_place names x) ≡ is_clean (operands_in values.now x)) }
{
    let mut names = NameTable::new(alloc);
    for (name, operands) in values {
        push_clean(&mut names, name, operands)?;
    }
    Ok(names)
}
