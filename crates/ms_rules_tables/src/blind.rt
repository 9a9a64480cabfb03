//! The code that counts blind uses: which operands' poisoned bits are one, and a call of the runtime with the union of their masks.
ghost use Rattle.std.specs.Prelude.{◌≡◌, ℕ, [], ◌∷◌, map, take, drop, IfOk, OnOk, Option};
ghost use Rattle.ms_ir.specs.declared.syntax.Name.{Name as NameOf};
ghost use Rattle.ms_runs.specs.Uses.{has_flag as has_flag_of, is_odd as is_odd_of, has_true_flag as has_true_flag_of, flagged_words, blind_words as blind_words_of};
ghost use Rattle.ms_pass_tasks.specs.CheckTasks.{all_zero, blind_tasks, blinded_of, blind_binary_of, union_masks};
ghost use Rattle.ms_rules_builder.specs.{Called.{called_external}, Made.{with_tasks}, Steps.{tracked_of, words}};
ghost use Rattle.ms_rules_tables.specs.Plain.{plain};

use crate::calls::call;
use ms_bits::{BinOp, Flags, NoMemory};
use ms_ir::{External, Op, Operand, RuntimeFn, Ty};
use ms_rules_builder::{Builder, StackOp, TrackedOperand, Widening, push_union};
use std::alloc::Global;

/// Whether an operation carries a flag by which it traps, as `nsw`.
fn has_flag(flags: &Flags) -> bool
    ensures { result ≡ has_flag_of flags.now }
{
    flags.nuw || flags.nsw || flags.exact || flags.disjoint || flags.nneg || flags.samesign
}

/// The first operand alone.
fn first<'a, 'm>(operands: &'a [TrackedOperand<'m>]) -> &'a [TrackedOperand<'m>]
    ensures { result.now ≡ take 1 operands.now }
{
    if operands.is_empty() {
        operands
    } else {
        &operands[..1]
    }
}

/// All operands but the first.
fn rest<'a, 'm>(operands: &'a [TrackedOperand<'m>]) -> &'a [TrackedOperand<'m>]
    ensures { result.now ≡ drop 1 operands.now }
{
    if operands.is_empty() {
        operands
    } else {
        &operands[1..]
    }
}

/// The operands whose poisoned bits are a blind use of a binary operation without flags.
fn blind_binary<'a, 'm>(op: BinOp, operands: &'a [TrackedOperand<'m>]) -> &'a [TrackedOperand<'m>]
    ensures { result.now ≡ blind_binary_of op operands.now }
{
    match op {
        BinOp::Udiv | BinOp::Sdiv | BinOp::Urem | BinOp::Srem => first(operands),
        BinOp::Shl | BinOp::Lshr | BinOp::Ashr => rest(operands),
        _ => &[],
    }
}

/// Whether an operand is written as an odd number, which is `true` where it is a flag.
fn is_odd(operand: &Operand) -> bool
    ensures { result ≡ is_odd_of operand.now }
{
    match operand {
        Operand::Int(number) => *number % 2 == 1,
        _ => false,
    }
}

/// Whether the second argument of a call is a flag that is `true`.
fn has_true_flag(args: &[(Ty, Operand)]) -> bool
    ensures { result ≡ has_true_flag_of args.now }
{
    match args {
        [_, (_, operand), ..] => is_odd(operand),
        _ => false,
    }
}

/// The one word that a function with a flag computes on (`llvm.ctlz`, `llvm.abs`): where the flag is true, some words give poison.
fn flagged<'a, 'm>(
    external: Option<External>,
    operands: &'a [TrackedOperand<'m>],
) -> &'a [TrackedOperand<'m>]
    ensures { result.now ≡ flagged_words external operands.now }
{
    match external {
        Some(External::Word(function, _)) => {
            if function.is_flagged() {
                first(operands)
            } else {
                &[]
            }
        }
        _ => &[],
    }
}

/// The operands whose poisoned bits are a blind use of a call of an external.
fn blind_words<'a, 'm>(
    external: Option<External>,
    args: &[(Ty, Operand)],
    operands: &'a [TrackedOperand<'m>],
) -> &'a [TrackedOperand<'m>]
    ensures { result.now ≡ blind_words_of external args.now operands.now }
{
    if has_true_flag(args) {
        flagged(external, operands)
    } else {
        &[]
    }
}

/// The operands whose poisoned bits are a blind use of an operation; `external` says which external it calls.
fn blinded<'a, 'm>(
    external: Option<External>,
    op: &Op,
    operands: &'a [TrackedOperand<'m>],
) -> &'a [TrackedOperand<'m>]
    ensures { (func : NameOf → Option ℕ) → called_external func op.now ≡ external → result.now ≡ blinded_of func op.now operands.now }
{
    match op {
        Op::Binary { flags, .. } if has_flag(flags) => operands,
        Op::Binary { op, .. } => blind_binary(*op, operands),
        Op::Icmp { flags, .. } if has_flag(flags) => operands,
        Op::Cast { flags, .. } if has_flag(flags) => operands,
        Op::Freeze { .. } => operands,
        Op::Call { args, .. } => blind_words(external, args.as_slice(), operands),
        _ => &[],
    }
}

/// Whether the masks of operands are all known to be 0.
fn are_clean(operands: &[TrackedOperand<'_>]) -> bool
    ensures { result ≡ all_zero (map tracked_of operands.now) }
{
    for operand in operands {
        if !operand.is_clean() {
            return false;
        }
    }
    true
}

/// The steps that join the masks of operands.
fn union_steps(alloc: Global, operands: &[TrackedOperand<'_>]) -> Result<Vec<StackOp>, NoMemory>
    ensures { (x : Option NameOf) → IfOk result (λ steps. words (plain (map tracked_of operands.now) x) steps.items [] ≡ union_masks (map tracked_of operands.now) ∷ []) }
{
    let mut steps = Vec::new(alloc);
    push_union(&mut steps, operands, Widening::Zeros)?;
    Ok(steps)
}

/// Counts the blind use of an operation, if it may have one; `external` says which external it calls.
pub fn count_blind(
    builder: &mut Builder,
    external: Option<External>,
    op: &Op,
    operands: &[TrackedOperand<'_>],
) -> Result<(), NoMemory>
    ensures { (func : NameOf → Option ℕ) → called_external func op.now ≡ external → OnOk result (builder.new ≡ with_tasks builder.old (blind_tasks (blinded_of func op.now (map tracked_of operands.now)))) }
{
    let blind = blinded(external, op, operands);
    if are_clean(blind) {
        return Ok(());
    }
    let steps = union_steps(builder.alloc(), blind)?;
    call(builder, RuntimeFn::Blind, blind, &None, &steps)
}
