//! The names of a function's values, which number them: value v has the inserted results 2v + 1 and 2v + 2, mask and origin.
ghost use Rattle.std.specs.Prelude.{◌≡◌, ◌++◌, option_to_list, IfOk};
ghost use Rattle.ms_rules.specs.Valued.{result_names, block_results, value_names, valued};

use ms_bits::NoMemory;
use ms_check_tables::{NameTable, parameters_of};
use ms_ir::{Block, Func, Inst};
use std::alloc::Global;

/// Appends the name of the result of an instruction, where it has a type.
fn push_result<'m>(names: &mut NameTable<'m>, inst: &'m Inst) -> Result<(), NoMemory>
    ensures { IfOk result (λ _. names.new ≡ names.old ++ option_to_list (valued inst.now)) }
{
    if inst.op.result_type().is_none() {
        return Ok(());
    }
    match &inst.result {
        Some(name) => {
            names.push(name)?;
            Ok(())
        }
        None => Ok(()),
    }
}

/// Appends the names of the results of instructions.
fn push_results<'m>(names: &mut NameTable<'m>, insts: &'m [Inst]) -> Result<(), NoMemory>
    ensures { IfOk result (λ _. names.new ≡ names.old ++ result_names insts.now) }
{
    for inst in insts {
        push_result(names, inst)?;
    }
    Ok(())
}

/// Appends the names of the results in blocks.
fn push_blocks<'m>(names: &mut NameTable<'m>, blocks: &'m [Block]) -> Result<(), NoMemory>
    ensures { IfOk result (λ _. names.new ≡ names.old ++ block_results blocks.now) }
{
    for block in blocks {
        push_results(names, block.insts.as_slice())?;
    }
    Ok(())
}

/// The names of a function's values: the parameters, and then the results in text order.
pub fn values_of(alloc: Global, func: &Func) -> Result<NameTable<'_>, NoMemory>
    ensures { IfOk result (λ names. names ≡ value_names func.now) }
{
    let mut names = parameters_of(alloc, func)?;
    push_blocks(&mut names, func.blocks.as_slice())?;
    Ok(names)
}
