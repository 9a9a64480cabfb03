//! One generated function: its parameter `%0` stored in `%2` and loaded as `%3`, eight operations that are drawn, `%4` to `%11`,
//! and a call of the function before it, `%12`.
ghost use Rattle.std.specs.Prelude.{◌≡◌, ◌<◌, ◌*◌, ◌++◌, [], ◌∷◌, OnOk, IfOk};
ghost use Rattle.ms_ir.specs.Builders.{block, i32};
ghost use Rattle.ms_ir.specs.declared.syntax.Name.TheVariants as number;
ghost use Rattle.ms_gen.specs.Generator.{beginning, operations, ending, state_after, body_of, function_of};

use crate::draws::Draws;
use crate::instructions::{
    function_name, push, push_alloca, push_call, push_load, push_operation, push_return, push_store,
};
use ms_bits::{List, NoMemory};
use ms_ir::{Block, Func, Inst, Name, Operand, Ty};
use std::alloc::Global;

/// Adds so many operations, the first of which is on `%3`.
#[tactic(auto, unfolding(crate::specs::Generator::operations))]
fn push_operations(insts: &mut Vec<Inst>, draws: &mut Draws, count: u32) -> Result<(), NoMemory>
    requires { count < 100 }
    ensures insts { OnOk result (insts.new.items ≡ insts.old.items ++ operations count draws.old.state) }
    ensures draws { OnOk result (draws.new.state ≡ state_after (2 * count) draws.old.state) }
{
    for k in 0..count {
        push_operation(insts, draws, k + 3)?;
    }
    Ok(())
}

/// Adds the end of the function with a number: a call of the one before it with the last result, if there is one, and the return.
fn push_ending(alloc: Global, insts: &mut Vec<Inst>, number: u32) -> Result<(), NoMemory>
    ensures { OnOk result (insts.new.items ≡ insts.old.items ++ ending number) }
{
    if number == 0 {
        return push_return(insts, Operand::Local(Name::Number(11)));
    }
    let callee = function_name(alloc, number - 1)?;
    push_call(alloc, insts, 12, callee, Operand::Local(Name::Number(11)))?;
    push_return(insts, Operand::Local(Name::Number(12)))
}

/// Adds what stores the parameter in `%2`, and loads it back as `%3`.
fn push_beginning(insts: &mut Vec<Inst>) -> Result<(), NoMemory>
    ensures { OnOk result (insts.new.items ≡ insts.old.items ++ beginning) }
{
    push_alloca(insts, 2)?;
    push_store(insts, 0, 2)?;
    push_load(insts, 3, 2)
}

/// Adds the instructions of the function with a number.
fn push_body(
    alloc: Global,
    insts: &mut Vec<Inst>,
    draws: &mut Draws,
    number: u32,
) -> Result<(), NoMemory>
    ensures insts { OnOk result (insts.new.items ≡ insts.old.items ++ body_of number draws.old.state) }
    ensures draws { OnOk result (draws.new.state ≡ state_after 16 draws.old.state) }
{
    push_beginning(insts)?;
    push_operations(insts, draws, 8)?;
    push_ending(alloc, insts, number)
}

/// The instructions of the function with a number.
fn body(alloc: Global, draws: &mut Draws, number: u32) -> Result<Vec<Inst>, NoMemory>
    ensures insts { IfOk result (λ v. v.items ≡ body_of number draws.old.state) }
    ensures draws { IfOk result (λ v. draws.new.state ≡ state_after 16 draws.old.state) }
{
    let mut insts = Vec::new(alloc);
    push_body(alloc, &mut insts, draws, number)?;
    Ok(insts)
}

/// The blocks of a function that has one, whose name is a number.
pub fn one_block(alloc: Global, name: u32, insts: Vec<Inst>) -> Result<List<Block>, NoMemory>
    ensures { IfOk result (λ blocks. blocks ≡ block name insts.items ∷ []) }
{
    let mut blocks = Vec::new(alloc);
    push(
        &mut blocks,
        Block {
            name: Name::Number(name),
            insts: List::from_vec(insts),
        },
    )?;
    Ok(List::from_vec(blocks))
}

/// The parameters `(i32 %0)`.
fn one_parameter(alloc: Global) -> Result<List<(Ty, Name)>, NoMemory>
    ensures { IfOk result (λ params. params ≡ (i32, number.Number 0) ∷ []) }
{
    let mut params = Vec::new(alloc);
    push(&mut params, (Ty::Int(32), Name::Number(0)))?;
    Ok(List::from_vec(params))
}

/// Adds the function with a number.
pub fn push_function(
    alloc: Global,
    funcs: &mut Vec<Func>,
    draws: &mut Draws,
    number: u32,
) -> Result<(), NoMemory>
    ensures funcs { OnOk result (funcs.new.items ≡ funcs.old.items ++ function_of number draws.old.state ∷ []) }
    ensures draws { OnOk result (draws.new.state ≡ state_after 16 draws.old.state) }
{
    let insts = body(alloc, draws, number)?;
    let blocks = one_block(alloc, 1, insts)?;
    let params = one_parameter(alloc)?;
    let name = function_name(alloc, number)?;
    push(
        funcs,
        Func {
            name,
            ret: Some(Ty::Int(32)),
            params,
            blocks,
        },
    )
}
