//! Calls of intrinsics with flags, arguments of type `i1`, that don't fit: `llvm.memcpy` with a true one, which is volatile, or a
//! flag that isn't written as a number.
ghost use Rattle.std.specs.{Prelude.{◌≡◌, slice_get}, Option.{option_copied}, List.{list_all}};
ghost use Rattle.ms_check_valid.specs.ExternalsFit.{is_no_flag, is_number, flag_fits};
ghost use Rattle.ms_check_externals.specs.Outside.{is_misflagged, flagged_in, flagged_among, flagged_within};

use crate::slots::is_nought;
use ms_check_tables::NameTable;
use ms_ir::{Block, External, Inst, Name, Op, Operand, Ty, is_int};

/// Whether an argument is `false`, or no `i1`.
fn is_no_flag(ty: &Ty, operand: &Operand) -> bool
    ensures { result ≡ is_no_flag (ty.now, operand.now) }
{
    !is_int(ty, 1) || is_nought(operand)
}

/// Whether an operand is written as a number.
fn is_number(operand: &Operand) -> bool
    ensures { result ≡ is_number operand.now }
{
    match operand {
        Operand::Int(_) => true,
        _ => false,
    }
}

/// Whether an argument, if it is an `i1`, is what an external asks of it.
fn flag_fits(external: Option<External>, ty: &Ty, operand: &Operand) -> bool
    ensures { result ≡ flag_fits external (ty.now, operand.now) }
{
    match external {
        Some(External::LlvmMemcpy) => is_no_flag(ty, operand),
        Some(External::LlvmMemmove) => is_no_flag(ty, operand),
        Some(External::LlvmMemset) => is_no_flag(ty, operand),
        Some(External::Word(_, _)) => !is_int(ty, 1) || is_number(operand),
        Some(External::LlvmObjectSize) => !is_int(ty, 1) || is_number(operand),
        _ => true,
    }
}

/// Whether each flag among the arguments of a call is what the external asks of it.
fn flags_fit(external: Option<External>, args: &[(Ty, Operand)]) -> bool
    ensures { result ≡ list_all (flag_fits external) args.now }
{
    for (ty, operand) in args {
        if !flag_fits(external, ty, operand) {
            return false;
        }
    }
    true
}

/// Whether a call has a flag that doesn't fit, in a module that defines functions with these names.
fn is_misflagged(functions: &NameTable<'_>, callee: &Name, args: &[(Ty, Operand)]) -> bool
    ensures { result ≡ is_misflagged functions.now callee.now args.now }
{
    !flags_fit(External::named(callee), args) && !functions.contains(callee)
}

/// The callee, if an operation is a call with a flag that doesn't fit.
fn flagged_in<'m>(functions: &NameTable<'_>, op: &'m Op) -> Option<&'m Name>
    ensures { option_copied result ≡ slice_get (flagged_in functions.now op.now) 0 }
{
    match op {
        Op::Call { callee, args, .. } => {
            if is_misflagged(functions, callee, args.as_slice()) {
                Some(callee)
            } else {
                None
            }
        }
        _ => None,
    }
}

/// The first callee in instructions with a flag that doesn't fit.
fn first_in_insts<'m>(functions: &NameTable<'_>, insts: &'m [Inst]) -> Option<&'m Name>
    ensures { option_copied result ≡ slice_get (flagged_among functions.now insts.now) 0 }
{
    for inst in insts {
        if let Some(callee) = flagged_in(functions, &inst.op) {
            return Some(callee);
        }
    }
    None
}

/// The first callee in blocks with a flag that doesn't fit.
pub fn first_in_blocks<'m>(functions: &NameTable<'_>, blocks: &'m [Block]) -> Option<&'m Name>
    ensures { option_copied result ≡ slice_get (flagged_within functions.now blocks.now) 0 }
{
    for block in blocks {
        if let Some(callee) = first_in_insts(functions, block.insts.as_slice()) {
            return Some(callee);
        }
    }
    None
}
