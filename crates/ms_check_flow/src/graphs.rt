//! A function as a graph of numbers, for `ms_flow`: to which blocks each block may go, and which values it defines.
ghost use Rattle.std.specs.Prelude.{◌≡◌, ◌++◌, [], ◌∷◌, map, flat_map, IfOk, OnOk};
ghost use Rattle.ms_check_valid.specs.FlowGraph.{name_place, graph_of};
ghost use Rattle.ms_ir.specs.{Locals.{results}, Written.{targets}};
ghost use Rattle.ms_check_flow.specs.Numbered.{AreNumbersOf, next_row, defs_row};

use crate::numbers::Numbers;
use ms_bits::{List, NoMemory};
use ms_check_tables::{Names, push_number, push_targets};
use ms_flow::Graph;
use ms_ir::{Func, Inst};
use std::alloc::Global;

/// The numbers of the blocks to which the instructions of a block may go, once for each edge.
pub fn next_of(alloc: Global, blocks: &Names<'_>, insts: &[Inst]) -> Result<List<u32>, NoMemory>
    ensures { IfOk result (λ next. next ≡ map (name_place blocks.now) (flat_map (λ inst. targets inst.op) insts.now)) }
{
    let mut numbers = Vec::new(alloc);
    for inst in insts {
        push_targets(blocks, &inst.op, &mut numbers)?;
    }
    Ok(List::from_vec(numbers))
}

/// For each block the numbers of the blocks to which it may go.
fn next_rows(alloc: Global, func: &Func, blocks: &Names<'_>) -> Result<List<List<u32>>, NoMemory>
    ensures { IfOk result (λ rows. rows ≡ map (next_row blocks.now) func.now.blocks) }
{
    let mut rows = Vec::new(alloc);
    for block in func.blocks.as_slice() {
        let row = next_of(alloc, blocks, block.insts.as_slice())?;
        rows.push(row)?;
    }
    Ok(List::from_vec(rows))
}

/// Adds the number of an instruction's result, if it has one.
fn push_definition(values: &Names<'_>, inst: &Inst, numbers: &mut Vec<u32>) -> Result<(), NoMemory>
    ensures { OnOk result (numbers.new.items ≡ numbers.old.items ++ map (name_place values.now) (results (inst.now ∷ []))) }
{
    match &inst.result {
        Some(name) => push_number(values, name, numbers),
        None => Ok(()),
    }
}

/// The numbers of the results of instructions.
fn defs_of(alloc: Global, values: &Names<'_>, insts: &[Inst]) -> Result<List<u32>, NoMemory>
    ensures { IfOk result (λ defs. defs ≡ map (name_place values.now) (results insts.now)) }
{
    let mut numbers = Vec::new(alloc);
    for inst in insts {
        push_definition(values, inst, &mut numbers)?;
    }
    Ok(List::from_vec(numbers))
}

/// For each block the numbers of the values that it defines.
fn defs_rows(alloc: Global, func: &Func, values: &Names<'_>) -> Result<List<List<u32>>, NoMemory>
    ensures { IfOk result (λ rows. rows ≡ map (defs_row values.now) func.now.blocks) }
{
    let mut rows = Vec::new(alloc);
    for block in func.blocks.as_slice() {
        let row = defs_of(alloc, values, block.insts.as_slice())?;
        rows.push(row)?;
    }
    Ok(List::from_vec(rows))
}

/// The graph of a function, whose blocks and values go by these numbers.
pub fn graph(alloc: Global, func: &Func, numbers: &Numbers<'_>) -> Result<Graph, NoMemory>
    requires { AreNumbersOf func.now numbers.now }
    ensures { IfOk result (λ g. g ≡ graph_of func.now) }
{
    let next = next_rows(alloc, func, &numbers.blocks)?;
    let defs = defs_rows(alloc, func, &numbers.values)?;
    Ok(Graph { next, defs })
}
