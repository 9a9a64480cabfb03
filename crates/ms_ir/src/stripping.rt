//! What is left of a module without what was inserted: of an instrumented module, the module it was made of. The promise of the
//! pass speaks of it; the program itself doesn't strip.
ghost use Rattle.std.specs.Prelude.{◌≡◌, IfOk, filter, map, not};
ghost use Rattle.ms_ir.specs.{Instructions.{is_unmarked, strip, strip_block, strip_func}, Names.{is_reserved}};

use crate::parts::{push_copy, three};
use crate::{Block, Decl, Func, GlobalVar, Inst, Module};
use ms_bits::{Duplicate, List, NoMemory};
use std::alloc::Global;

/// Copies of the unmarked instructions.
fn strip_insts(alloc: Global, insts: &[Inst]) -> Result<List<Inst>, NoMemory>
    ensures { IfOk result (λ left. left ≡ filter is_unmarked insts.now) }
{
    let mut left = Vec::new(alloc);
    for inst in insts {
        if !inst.marked {
            push_copy(alloc, &mut left, inst)?;
        }
    }
    Ok(List::from_vec(left))
}

/// A copy of a basic block without its marked instructions.
fn strip_block(alloc: Global, block: &Block) -> Result<Block, NoMemory>
    ensures { IfOk result (λ left. left ≡ strip_block block.now) }
{
    let name = block.name.copy(alloc)?;
    let insts = strip_insts(alloc, block.insts.as_slice())?;
    Ok(Block { name, insts })
}

/// Copies of basic blocks without their marked instructions.
fn strip_blocks(alloc: Global, blocks: &[Block]) -> Result<List<Block>, NoMemory>
    ensures { IfOk result (λ left. left ≡ map strip_block blocks.now) }
{
    let mut left = Vec::with_capacity(alloc, blocks.len())?;
    for block in blocks {
        left.push(strip_block(alloc, block)?)?;
    }
    Ok(List::from_vec(left))
}

/// A copy of a function without its marked instructions.
fn strip_func(alloc: Global, func: &Func) -> Result<Func, NoMemory>
    ensures { IfOk result (λ left. left ≡ strip_func func.now) }
{
    let blocks = strip_blocks(alloc, func.blocks.as_slice())?;
    let (name, ret, params) = three(alloc, &func.name, &func.ret, &func.params)?;
    Ok(Func {
        name,
        ret,
        params,
        blocks,
    })
}

/// Copies of functions without their marked instructions.
fn strip_funcs(alloc: Global, funcs: &[Func]) -> Result<List<Func>, NoMemory>
    ensures { IfOk result (λ left. left ≡ map strip_func funcs.now) }
{
    let mut left = Vec::with_capacity(alloc, funcs.len())?;
    for func in funcs {
        left.push(strip_func(alloc, func)?)?;
    }
    Ok(List::from_vec(left))
}

/// Copies of the globals whose names aren't reserved: not of the slots.
fn strip_globals(alloc: Global, globals: &[GlobalVar]) -> Result<List<GlobalVar>, NoMemory>
    ensures { IfOk result (λ left. left ≡ filter (λ g. not (is_reserved g.name)) globals.now) }
{
    let mut left = Vec::new(alloc);
    for global in globals {
        if !global.name.is_reserved() {
            push_copy(alloc, &mut left, global)?;
        }
    }
    Ok(List::from_vec(left))
}

/// Copies of the declarations whose names aren't reserved: not of the runtime functions.
fn strip_decls(alloc: Global, decls: &[Decl]) -> Result<List<Decl>, NoMemory>
    ensures { IfOk result (λ left. left ≡ filter (λ d. not (is_reserved d.name)) decls.now) }
{
    let mut left = Vec::new(alloc);
    for decl in decls {
        if !decl.name.is_reserved() {
            push_copy(alloc, &mut left, decl)?;
        }
    }
    Ok(List::from_vec(left))
}

/// A copy of a module without its marked instructions, and without the globals and declarations whose names are reserved.
/// Linear in the module.
pub fn strip(alloc: Global, m: &Module) -> Result<Module, NoMemory>
    ensures { IfOk result (λ left. left ≡ strip m.now) }
{
    let types = m.types.copy(alloc)?;
    let globals = strip_globals(alloc, m.globals.as_slice())?;
    let decls = strip_decls(alloc, m.decls.as_slice())?;
    let funcs = strip_funcs(alloc, m.funcs.as_slice())?;
    Ok(Module {
        types,
        globals,
        decls,
        funcs,
    })
}
