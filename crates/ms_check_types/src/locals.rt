//! The types of the values of a function, and its blocks (LLVM Language Reference, "Functions"), each found by its name
//! as `NameTable` finds it.
ghost use Rattle.std.specs.{Prelude.{◌≡◌, ◌++◌, IfOk, map, filter_map, option_map}, Option.{option_to_list}};
ghost use Rattle.std.specs.List.{flat_map};
ghost use Rattle.ms_ir.specs.{Equal.{has_name}, Locals.{typed_result, values, value_type, block_names}};
ghost use Rattle.ms_ir.specs.ValueTypes.{type_of};

use crate::typed::TypedNames;
use ms_bits::NoMemory;
use ms_check_tables::{NameTable, blocks_of};
use ms_ir::{Block, Func, Inst, Name, Ty, ValueType};
use std::alloc::Global;

/// Adds a function's parameters to its values.
fn push_params<'m>(values: &mut TypedNames<'m>, params: &'m [(Ty, Name)]) -> Result<(), NoMemory>
    ensures { IfOk result (λ _. values.new ≡ values.old ++ map (λ p. (p.1, p.0)) params.now) }
{
    for (ty, name) in params {
        values.push(name, ValueType::Written(ty))?;
    }
    Ok(())
}

/// Adds the result of an instruction, if it has one.
fn push_result<'m>(values: &mut TypedNames<'m>, inst: &'m Inst) -> Result<(), NoMemory>
    ensures { IfOk result (λ _. values.new ≡ values.old ++ option_to_list (typed_result inst.now)) }
{
    match (&inst.result, inst.op.result_type()) {
        (Some(name), Some(ty)) => values.push(name, ty),
        _ => Ok(()),
    }
}

/// Adds the results of instructions.
fn push_results<'m>(values: &mut TypedNames<'m>, insts: &'m [Inst]) -> Result<(), NoMemory>
    ensures { IfOk result (λ _. values.new ≡ values.old ++ filter_map typed_result insts.now) }
{
    for inst in insts {
        push_result(values, inst)?;
    }
    Ok(())
}

/// Adds the results of the instructions of blocks.
fn push_blocks<'m>(values: &mut TypedNames<'m>, blocks: &'m [Block]) -> Result<(), NoMemory>
    ensures { IfOk result (λ _. values.new ≡ values.old ++ filter_map typed_result (flat_map (λ b. b.insts) blocks.now)) }
{
    for block in blocks {
        push_results(values, block.insts.as_slice())?;
    }
    Ok(())
}

/// The values of a function with their types.
fn values_of(alloc: Global, func: &Func) -> Result<TypedNames<'_>, NoMemory>
    ensures { IfOk result (λ typed. typed ≡ values func.now) }
{
    let mut typed = TypedNames::new(alloc);
    push_params(&mut typed, func.params.as_slice())?;
    push_blocks(&mut typed, func.blocks.as_slice())?;
    Ok(typed)
}

/// A function with the types of its values and the names of its blocks.
#[derive(Drop)]
pub struct Locals<'m> {
    pub func: &'m Func,
    /// Its parameters and results, each with its type.
    typed: TypedNames<'m>,
    /// The names of its blocks.
    blocks: NameTable<'m>,
    ghost typed_are: { typed ≡ values func.now },
    ghost blocks_are: { blocks ≡ block_names func.now },
}

impl<'m> Locals<'m> {
    /// The locals of a function.
    pub fn of(alloc: Global, func: &'m Func) -> Result<Locals<'m>, NoMemory>
        ensures { IfOk result (λ locals. locals.func.now ≡ func.now) }
    {
        let typed = values_of(alloc, func)?;
        let blocks = blocks_of(alloc, func)?;
        Ok(Locals {
            func,
            typed,
            blocks,
        })
    }

    /// The type of the parameter or result with a name.
    pub fn type_of(&self, name: &Name) -> Option<ValueType<'m>>
        ensures { option_map type_of result ≡ value_type self.now.func.now name.now }
    {
        self.typed.get(name)
    }

    /// Whether a block has a name.
    pub fn is_block(&self, name: &Name) -> bool
        ensures { result ≡ has_name (block_names self.now.func.now) name.now }
    {
        self.blocks.contains(name)
    }
}
