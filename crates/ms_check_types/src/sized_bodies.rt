//! Whether the types that are written in instructions and functions have sizes.
ghost use Rattle.std.specs.{Prelude.{◌≡◌, slice_get}, List.{list_all}};
ghost use Rattle.ms_ir.specs.{Instructions.{operands}, Written.{own_types}};
ghost use Rattle.ms_check_types.specs.SizedParts.{has_sizes, is_typed_sized, is_op_sized, is_block_sized, is_func_sized};
ghost use Rattle.ms_check_types.specs.Typed.{holds_at};

use crate::operands::typed_operand;
use crate::parts::has_sizes;
use crate::written::is_typed_sized;
use ms_check_tables::Extents;
use ms_ir::{Block, Func, Op};

/// Whether the type of an instruction that stands before no operand, as that of an `alloca`, has sizes, if there is one.
fn is_own_sized(extents: &Extents, op: &Op) -> bool
    ensures { result ≡ list_all (has_sizes extents.now) (own_types op.now) }
{
    match op.own_type(0) {
        Some(ty) => has_sizes(extents, ty),
        None => true,
    }
}

/// Whether the types in the operand with a place and its type have sizes, if there is one.
fn is_operand_at_sized(extents: &Extents, op: &Op, place: usize) -> bool
    ensures { result ≡ holds_at (is_typed_sized extents.now) (slice_get (operands op.now) place) }
{
    match typed_operand(op, place) {
        Some((ty, operand)) => is_typed_sized(extents, ty, operand),
        None => true,
    }
}

/// Whether the types in the operands of an instruction, with the types before them, have sizes.
fn are_operands_sized(extents: &Extents, op: &Op) -> bool
    ensures { result ≡ list_all (is_typed_sized extents.now) (operands op.now) }
{
    for place in 0..op.operand_count() {
        if !is_operand_at_sized(extents, op, place) {
            return false;
        }
    }
    true
}

/// Whether the types in an instruction have sizes.
fn is_op_sized(extents: &Extents, op: &Op) -> bool
    ensures { result ≡ is_op_sized extents.now op.now }
{
    is_own_sized(extents, op) && are_operands_sized(extents, op)
}

/// Whether the types in the instructions of a block have sizes.
fn is_block_sized(extents: &Extents, block: &Block) -> bool
    ensures { result ≡ is_block_sized extents.now block.now }
{
    block
        .insts
        .as_slice()
        .iter()
        .all(|inst| is_op_sized(extents, &inst.op))
}

/// Whether the types in a function have sizes.
pub fn is_func_sized(extents: &Extents, func: &Func) -> bool
    ensures { result ≡ is_func_sized extents.now func.now }
{
    func.blocks
        .as_slice()
        .iter()
        .all(|block| is_block_sized(extents, block))
}
