//! How many roots an instruction has.
ghost use Rattle.std.specs.Prelude.{◌≡◌, ◌+◌, ◌<◌, ◌≤◌, ◌^◌, length};
ghost use Rattle.ms_ir.specs.Instructions.{count_undefs, one_undef, operands, roots_in};
ghost use Rattle.ms_rules.specs.Tracking.{operand_at};
ghost use Rattle.ms_check_tables.specs.FirstPlace.{first_place};

use crate::callees::{callee_of, own_roots};
use crate::tracked::one_undefined;
use ms_check_tables::NameTable;
use ms_ir::{Inst, Op};

/// A law: an operation has so few operands that one root more than these can be counted.
fn law_operands_are_few(op: &Op)
    ensures { length (operands op.now) + 1 < 2 ^ 64 }
{
    let _count = match op {
        Op::Phi { edges, .. } => edges.as_slice().len(),
        Op::Gep { indices, .. } => indices.as_slice().len(),
        Op::Call { args, .. } => args.as_slice().len(),
        _ => 0,
    };
}

/// 1 where the operand of an operation with a place is undefined.
fn undefined_at(op: &Op, place: usize) -> u64
    requires { place < length (operands op.now) }
    ensures { result ≡ one_undef (operand_at (operands op.now) place).1 }
{
    match op.operand(place) {
        Some(operand) => one_undefined(operand),
        None => unreachable!(),
    }
}

/// How many operands of an operation are undefined.
fn undefined_count(op: &Op) -> u64
    ensures is { result ≡ count_undefs (operands op.now) }
    ensures few { result ≤ length (operands op.now) }
{
    let mut count: u64 = 0;
    for place in 0..op.operand_count() {
        count += undefined_at(op, place);
    }
    count
}

/// How many roots an instruction has in a module with these functions: its undefined operands, and one more where it makes
/// uninitialised bytes; none where it is marked as inserted.
pub fn root_count(functions: &NameTable<'_>, inst: &Inst) -> u64
    ensures { result ≡ roots_in (first_place functions.now) inst.now }
{
    if inst.marked {
        return 0;
    }
    law_operands_are_few(&inst.op);
    let callee = callee_of(functions, &inst.op);
    undefined_count(&inst.op) + own_roots(functions, callee, &inst.op)
}
