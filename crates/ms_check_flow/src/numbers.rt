//! The numbers of a function's blocks and values, by which its graph names them.
ghost use Rattle.std.specs.Prelude.{◌≡◌, ◌+◌, ◌<◌, ◌^◌, ◌++◌, [], ◌∷◌, flat_map, length, IfOk, OnOk};
ghost use Rattle.ms_ir.specs.Locals.{block_locals, block_names, results};
ghost use Rattle.ms_check_valid.specs.FlowGraph.{value_names};
ghost use Rattle.ms_check_flow.specs.Numbered.{AreNumbersOf};

use ms_bits::NoMemory;
use ms_check_tables::{NameTable, Names, block_numbers, parameters_of};
use ms_ir::{Block, Func, Inst, Name};
use std::alloc::Global;

/// The names that number a function's blocks and its values, each from 0 on by its first place, and the names of its
/// parameters, which have no numbers: a function may have any number of them.
#[derive(Drop)]
pub struct Numbers<'m> {
    /// The names of the blocks.
    pub blocks: Names<'m>,
    /// The names of blocks and results as they stand, since the two share their names.
    pub values: Names<'m>,
    /// The names of the parameters.
    pub parameters: NameTable<'m>,
}

/// Appends the name of an instruction's result, if it has one.
fn push_result<'m>(names: &mut Names<'m>, inst: &'m Inst) -> Result<(), NoMemory>
    requires { length names.old + length (results (inst.now ∷ [])) < 2 ^ 32 }
    ensures { OnOk result (names.new ≡ names.old ++ results (inst.now ∷ [])) }
{
    match &inst.result {
        Some(name) => {
            names.push(name)?;
            Ok(())
        }
        None => Ok(()),
    }
}

/// Appends the names of the results of instructions.
fn push_results<'m>(names: &mut Names<'m>, insts: &'m [Inst]) -> Result<(), NoMemory>
    requires { length names.old + length (results insts.now) < 2 ^ 32 }
    ensures { OnOk result (names.new ≡ names.old ++ results insts.now) }
{
    for inst in insts {
        push_result(names, inst)?;
    }
    Ok(())
}

/// Appends the name of a block and those of its results.
fn push_block<'m>(names: &mut Names<'m>, block: &'m Block) -> Result<(), NoMemory>
    requires { length names.old + length (block_locals block.now) < 2 ^ 32 }
    ensures { OnOk result (names.new ≡ names.old ++ block_locals block.now) }
{
    names.push(&block.name)?;
    push_results(names, block.insts.as_slice())
}

/// The names of the blocks and results of a function.
fn names_of_values<'m>(alloc: Global, func: &'m Func) -> Result<Names<'m>, NoMemory>
    requires { length (value_names func.now) < 2 ^ 32 }
    ensures { IfOk result (λ names. names ≡ value_names func.now) }
{
    let mut names = Names::new(alloc);
    for block in func.blocks.as_slice() {
        push_block(&mut names, block)?;
    }
    Ok(names)
}

/// The names of the blocks of a function, and those of its blocks and results as they stand.
fn names_in_code<'m>(alloc: Global, func: &'m Func) -> Result<(Names<'m>, Names<'m>), NoMemory>
    requires { length (value_names func.now) < 2 ^ 32 }
    ensures blocks { IfOk result (λ names. names.0 ≡ block_names func.now) }
    ensures values { IfOk result (λ names. names.1 ≡ value_names func.now) }
{
    let blocks = block_numbers(alloc, func)?;
    let values = names_of_values(alloc, func)?;
    Ok((blocks, values))
}

/// The numbers of a function's blocks and values.
pub fn numbers_of<'m>(alloc: Global, func: &'m Func) -> Result<Numbers<'m>, NoMemory>
    requires few { length (value_names func.now) < 2 ^ 32 }
    ensures { IfOk result (AreNumbersOf func.now) }
{
    let (blocks, values) = names_in_code(alloc, func)?;
    let parameters = parameters_of(alloc, func)?;
    Ok(Numbers {
        blocks,
        values,
        parameters,
    })
}
