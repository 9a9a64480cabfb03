//! The list before an instruction that is no phi: what a callee is handed, checks, blind uses, mask and origin of the result. A
//! function has at most 2^30 values, a bound far above the limits on a text, so that their numbers can be doubled. `site` is
//! the instruction's.
ghost use Rattle.std.specs.Prelude.{◌≡◌, ◌≤◌, ◌^◌, length, map, OnOk};
ghost use Rattle.ms_pass_tasks.specs.{Emit.{before_tasks}, ResultTasks.{result_tasks}, SlotTasks.{hand_tasks}};
ghost use Rattle.ms_rules_builder.specs.{Made.{with_tasks}, Steps.{tracked_of}};
ghost use Rattle.ms_rules_tables.specs.Widths.{HasWidths};
ghost use Rattle.ms_rules.specs.{Around.{here_of}, Callees.{IsCallee}, Scopes.{env_of, given_of}, Tracking.{IsTracked}};

use crate::callees::CalleeKind;
use crate::scopes::Scope;
use crate::tracked::Tracking;
use ms_bits::NoMemory;
use ms_ir::{Inst, Op};
use ms_rules_builder::{Builder, TrackedOperand};
use ms_rules_tables::{check, count_blind, define, save};
use ms_slots::{hand_arguments, hand_result};

/// Adds what hands masks and origins over in slots: at a call to a function of the module, at a return to the caller.
#[tactic(auto, using(crate::proofs::Adding::none_with))]
fn hand_over(
    builder: &mut Builder,
    scope: &Scope<'_, '_>,
    op: &Op,
    callee: CalleeKind,
    operands: &[TrackedOperand<'_>],
) -> Result<(), NoMemory>
    requires { IsCallee (given_of scope.now).func op.now callee }
    ensures { OnOk result (builder.new ≡ with_tasks builder.old (hand_tasks (given_of scope.now).func scope.now.main op.now (map tracked_of operands.now))) }
{
    match op {
        Op::Call { .. } => {
            if callee.own {
                hand_arguments(builder, operands)
            } else {
                Ok(())
            }
        }
        Op::Ret { .. } => {
            if scope.main {
                Ok(())
            } else {
                hand_result(builder, operands)
            }
        }
        _ => Ok(()),
    }
}

/// Adds what defines the mask and the origin of the result, if there is one.
#[tactic(auto, using(crate::proofs::Adding::none_with))]
fn define_result(
    builder: &mut Builder,
    scope: &Scope<'_, '_>,
    inst: &Inst,
    callee: CalleeKind,
    operands: &[TrackedOperand<'_>],
) -> Result<(), NoMemory>
    requires few { length scope.now.values.now ≤ 2 ^ 30 }
    requires widths { HasWidths inst.now.op }
    requires callee { IsCallee (given_of scope.now).func inst.now.op callee }
    ensures { OnOk result (builder.new ≡ with_tasks builder.old (result_tasks (given_of scope.now).func (env_of scope.now) inst.now.result inst.now.op (map tracked_of operands.now))) }
{
    match &inst.result {
        Some(name) => match scope.number(name) {
            Some(value) => define(builder, value, callee.own, &inst.op, operands),
            None => Ok(()),
        },
        None => Ok(()),
    }
}

/// Adds what stands before an instruction that is no phi. `saved` is the number of the inserted result for what is saved.
pub fn push_before(
    builder: &mut Builder,
    scope: &Scope<'_, '_>,
    site: u32,
    saved: u64,
    inst: &Inst,
    callee: CalleeKind,
    tracking: &Tracking<'_>,
) -> Result<(), NoMemory>
    requires few { length scope.now.values.now ≤ 2 ^ 30 }
    requires widths { HasWidths inst.now.op }
    requires callee { IsCallee (given_of scope.now).func inst.now.op callee }
    requires tracked { IsTracked (env_of scope.now) inst.now.op tracking.now }
    ensures { OnOk result (builder.new ≡ with_tasks builder.old (before_tasks (given_of scope.now) (env_of scope.now) (here_of scope.now site tracking.now) inst.now saved)) }
{
    let operands = tracking.operands.as_slice();
    hand_over(builder, scope, &inst.op, callee, operands)?;
    check(
        builder,
        site,
        scope.main,
        callee.external,
        &inst.op,
        operands,
    )?;
    count_blind(builder, callee.external, &inst.op, operands)?;
    define_result(builder, scope, inst, callee, operands)?;
    save(builder, saved, callee.external, &inst.op, operands)
}
