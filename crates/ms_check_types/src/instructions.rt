//! Checks the types of the operands of each instruction (LLVM Language Reference, "Instruction Reference"). A fault is told by
//! the number of an operand, from 0 in written order; 0 stands for what no operand says by itself, as that targets are blocks.
ghost use Rattle.std.specs.{Prelude.{◌≡◌, ◌&&◌, IfOk}, List.{list_all}, Option.{option_or}};
ghost use Rattle.ms_ir.specs.{Instructions.{operands as operands_of}, Equal.{has_name}, Locals.{block_names}};
ghost use Rattle.ms_ir.specs.Written.{targets};
ghost use Rattle.ms_check_valid.specs.TypesAgree.{differ, first_misfit, fault_unless};
ghost use Rattle.ms_check_types.specs.Bodies.{fits_in, func_of, fault_in};

use crate::bodies::FuncTypes;
use crate::calls::{call_fault, fault_unless};
use crate::casts::cast_allows;
use crate::geps::gep_fault;
use crate::jumps::{differ, leads_to_blocks, returns_fit};
use crate::operands::first_misfit;
use ms_bits::NoMemory;
use ms_ir::{Name, Op};
use std::alloc::Global;

/// The operand at fault of an instruction that asks for no more than that each operand has the type before it, and
/// that it goes to blocks.
fn plain_fault(body: &FuncTypes<'_, '_>, op: &Op) -> Option<usize>
    ensures { result ≡ option_or (first_misfit (fits_in body.now) 0 (operands_of op.now))
        (fault_unless (list_all (has_name (block_names (func_of body.now))) (targets op.now))) }
{
    first_misfit(body, op).or(fault_unless(leads_to_blocks(body, op)))
}

/// The operand at fault of a `switch` with these cases.
fn switch_fault(
    alloc: Global,
    body: &FuncTypes<'_, '_>,
    op: &Op,
    cases: &[(u64, Name)],
) -> Result<Option<usize>, NoMemory>
    ensures { IfOk result (λ r. r ≡ option_or (first_misfit (fits_in body.now) 0 (operands_of op.now))
        (fault_unless (differ cases.now && list_all (has_name (block_names (func_of body.now))) (targets op.now)))) }
{
    let different = differ(alloc, cases)?;
    let known = leads_to_blocks(body, op);
    Ok(first_misfit(body, op).or(fault_unless(different && known)))
}

/// The operand of an instruction at fault: the first that doesn't fit or that is missing, else 0.
pub fn op_fault<'a>(
    alloc: Global,
    body: &FuncTypes<'_, 'a>,
    op: &'a Op,
) -> Result<Option<usize>, NoMemory>
    ensures { IfOk result (λ r. r ≡ fault_in body.now op.now) }
{
    match op {
        Op::Cast {
            op: cast,
            from,
            to,
            ..
        } => {
            let allowed = cast_allows(*cast, from, to);
            Ok(first_misfit(body, op).or(fault_unless(allowed)))
        }
        Op::Gep { ty, base, indices } => Ok(gep_fault(body, ty, base, indices.as_slice())),
        Op::Call { ret, callee, args } => Ok(call_fault(body, op, ret, callee, args.as_slice())),
        Op::Switch { cases, .. } => switch_fault(alloc, body, op, cases.as_slice()),
        Op::Ret { value } => Ok(fault_unless(returns_fit(body, value))),
        _ => Ok(plain_fault(body, op)),
    }
}
