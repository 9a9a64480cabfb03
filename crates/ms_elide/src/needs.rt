//! What has to be clean so that a function's results are: an entry for each local, with the places of the locals that it needs.
ghost use Rattle.std.specs.Prelude.{◌≡◌, ◌++◌, map, take, option_to_list, slice_get, IfOk, OnOk};
ghost use Rattle.ms_ir.specs.Instructions.{operands};
ghost use Rattle.ms_check_tables.specs.FirstPlace.{first_place};
ghost use Rattle.ms_elide.specs.Needed.{needed, operand_needs, operand_needs_at, all_needs, op_needs, row_needs, result_row, result_rows, block_rows, rows};

use crate::premises::premises;
use crate::scopes::FuncNames;
use ms_bits::{List, NoMemory};
use ms_check_tables::NameTable;
use ms_ir::{Block, Func, Inst, Op, Operand};
use std::alloc::Global;

/// What has to be clean so that an operand is.
#[derive(Clone, Copy)]
pub enum Need {
    /// Nothing: it is a constant.
    Nothing,
    /// The local with a place among the function's parameters, blocks and results.
    Local(usize),
    /// It never is clean.
    Never,
}

/// What an operand needs.
fn operand_need(locals: &NameTable<'_>, operand: &Operand) -> Need
    ensures { needed result ≡ operand_needs (first_place locals.now) operand.now }
{
    match operand {
        Operand::Undef => Need::Never,
        Operand::Poison => Need::Never,
        Operand::Local(name) => match locals.place(name) {
            Some(place) => Need::Local(place),
            None => Need::Never,
        },
        _ => Need::Nothing,
    }
}

/// What the operand with a place needs; nothing where there is none.
fn need_at(locals: &NameTable<'_>, op: &Op, place: usize) -> Need
    ensures { needed result ≡ operand_needs_at (first_place locals.now) (slice_get (map (λ o. o.1) (operands op.now)) place) }
{
    match op.operand(place) {
        Some(operand) => operand_need(locals, operand),
        None => Need::Nothing,
    }
}

/// The locals that the first `count` operands of an operation need; `None` where one of these never is clean.
fn operands_need(
    alloc: Global,
    locals: &NameTable<'_>,
    op: &Op,
    count: usize,
) -> Result<Option<List<usize>>, NoMemory>
    ensures { IfOk result (λ needs. needs ≡ all_needs (first_place locals.now) (take count (map (λ o. o.1) (operands op.now)))) }
{
    let mut needs = Vec::new(alloc);
    for place in 0..count {
        match need_at(locals, op, place) {
            Need::Nothing => {}
            Need::Local(local) => needs.push(local)?,
            Need::Never => return Ok(None),
        }
    }
    Ok(Some(List::from_vec(needs)))
}

/// The locals that the result of an operation needs; `None` where it never is clean.
fn op_need(
    alloc: Global,
    scope: &FuncNames<'_, '_>,
    op: &Op,
) -> Result<Option<List<usize>>, NoMemory>
    ensures { IfOk result (λ needs. needs ≡ op_needs (first_place scope.now.locals.now) (first_place scope.now.functions.now) op.now) }
{
    match premises(scope.functions, op) {
        Some(count) => operands_need(alloc, scope.locals, op, count),
        None => Ok(None),
    }
}

/// Adds what the result of an instruction needs, if it has one.
fn push_result(
    alloc: Global,
    scope: &FuncNames<'_, '_>,
    needs: &mut Vec<Option<List<usize>>>,
    inst: &Inst,
) -> Result<(), NoMemory>
    ensures { OnOk result (needs.new.items ≡ needs.old.items ++ map (row_needs (first_place scope.now.locals.now) (first_place scope.now.functions.now)) (option_to_list (result_row inst.now))) }
{
    if inst.result.is_some() {
        let entry = op_need(alloc, scope, &inst.op)?;
        needs.push(entry)?;
    }
    Ok(())
}

/// Adds what the results of instructions need.
fn push_results(
    alloc: Global,
    scope: &FuncNames<'_, '_>,
    needs: &mut Vec<Option<List<usize>>>,
    insts: &[Inst],
) -> Result<(), NoMemory>
    ensures { OnOk result (needs.new.items ≡ needs.old.items ++ map (row_needs (first_place scope.now.locals.now) (first_place scope.now.functions.now)) (result_rows insts.now)) }
{
    for inst in insts {
        push_result(alloc, scope, needs, inst)?;
    }
    Ok(())
}

/// Adds what a block and its results need. A block is no value.
fn push_block(
    alloc: Global,
    scope: &FuncNames<'_, '_>,
    needs: &mut Vec<Option<List<usize>>>,
    block: &Block,
) -> Result<(), NoMemory>
    ensures { OnOk result (needs.new.items ≡ needs.old.items ++ map (row_needs (first_place scope.now.locals.now) (first_place scope.now.functions.now)) (block_rows block.now)) }
{
    needs.push(None)?;
    push_results(alloc, scope, needs, block.insts.as_slice())
}

/// The entries of the parameters: none ever is clean, as callers differ.
fn parameter_needs(alloc: Global, func: &Func) -> Result<Vec<Option<List<usize>>>, NoMemory>
    ensures { IfOk result (λ needs. needs.items ≡ map (λ p. None) func.now.params) }
{
    func.params.as_slice().iter().map(|_| None).collect(alloc)
}

/// What each local of a function needs, in the order of their places; `None` for one that never is clean.
pub fn needs_of(
    alloc: Global,
    scope: &FuncNames<'_, '_>,
    func: &Func,
) -> Result<Vec<Option<List<usize>>>, NoMemory>
    ensures { IfOk result (λ needs. needs.items ≡ map (row_needs (first_place scope.now.locals.now) (first_place scope.now.functions.now)) (rows func.now)) }
{
    let mut needs = parameter_needs(alloc, func)?;
    for block in func.blocks.as_slice() {
        push_block(alloc, scope, &mut needs, block)?;
    }
    Ok(needs)
}
