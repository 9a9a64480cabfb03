//! The list after an instruction that is no phi: shadow and origins of memory, or what a call hands back. Bounds in contracts
//! are far above the limits on a text, and let numbers be computed: at most 2^30 values of a function, fewer than 2^40 roots.
//! `site` is the instruction's.
ghost use Rattle.std.specs.Prelude.{◌≡◌, ◌<◌, ◌≤◌, ◌^◌, length, OnOk};
ghost use Rattle.ms_pass_tasks.specs.{Emit.{after_tasks}, SlotTasks.{result_mask_slot, result_origin_slot, take_value}};
ghost use Rattle.ms_rules_tables.specs.Sizes.{element_size};
ghost use Rattle.ms_rules_builder.specs.Made.{with_tasks};
ghost use Rattle.ms_rules.specs.{Around.{here_of, taken_by}, Callees.{IsCallee}, Scopes.{env_of, given_of}};
ghost use Rattle.ms_rules.specs.{Taken.{IsSizedAlloca}, Tracking.{IsTracked}};

use crate::callees::CalleeKind;
use crate::scopes::Scope;
use crate::tracked::Tracking;
use ms_bits::NoMemory;
use ms_ir::{Inst, Name, Op, Ty};
use ms_machine_operands::size;
use ms_rules_builder::Builder;
use ms_rules_tables::update_shadow;
use ms_slots::fetch_result;

/// The bytes of one element of an `alloca`, and 0 of another operation.
fn element_size(scope: &Scope<'_, '_>, op: &Op) -> u64
    requires { IsSizedAlloca (given_of scope.now).types op.now }
    ensures { element_size (given_of scope.now).types op.now ≡ result }
{
    match op {
        Op::Alloca { ty, .. } => size(scope.extents, ty),
        _ => 0,
    }
}

/// Adds what takes over the mask and the origin of a call's result from its slots, unless the result is known to be clean.
#[tactic(auto, using(crate::proofs::Adding::none_with))]
fn take_over(
    builder: &mut Builder,
    scope: &Scope<'_, '_>,
    name: &Name,
    ty: &Ty,
) -> Result<(), NoMemory>
    requires { length scope.now.values.now ≤ 2 ^ 30 }
    ensures { OnOk result (builder.new ≡ with_tasks builder.old (take_value (env_of scope.now) result_mask_slot result_origin_slot name.now ty.now)) }
{
    match scope.number(name) {
        Some(value) => fetch_result(builder, value, ty),
        None => Ok(()),
    }
}

/// Adds what takes over the mask and the origin of the result of a call, if it has one.
#[tactic(auto, using(crate::proofs::Adding::none_with))]
fn take_result(
    builder: &mut Builder,
    scope: &Scope<'_, '_>,
    name: &Option<Name>,
    op: &Op,
) -> Result<(), NoMemory>
    requires { length scope.now.values.now ≤ 2 ^ 30 }
    ensures { OnOk result (builder.new ≡ with_tasks builder.old (taken_by (env_of scope.now) name.now op.now)) }
{
    match (name, op) {
        (Some(name), Op::Call { ret: Some(ty), .. }) => take_over(builder, scope, name, ty),
        _ => Ok(()),
    }
}

/// Adds what stands after an instruction that is no phi. `saved` is the number of the inserted result that was saved before it.
pub fn push_after(
    builder: &mut Builder,
    scope: &Scope<'_, '_>,
    site: u32,
    saved: u64,
    inst: &Inst,
    callee: CalleeKind,
    tracking: &Tracking<'_>,
) -> Result<(), NoMemory>
    requires few { length scope.now.values.now ≤ 2 ^ 30 }
    requires sized { IsSizedAlloca (given_of scope.now).types inst.now.op }
    requires callee { IsCallee (given_of scope.now).func inst.now.op callee }
    requires tracked { IsTracked (env_of scope.now) inst.now.op tracking.now }
    requires roots { tracking.now.before < 2 ^ 40 }
    ensures { OnOk result (builder.new ≡ with_tasks builder.old (after_tasks (given_of scope.now) (env_of scope.now) (here_of scope.now site tracking.now) inst.now saved)) }
{
    if callee.own {
        take_result(builder, scope, &inst.result, &inst.op)
    } else {
        update_shadow(
            builder,
            site,
            tracking.after + 1,
            saved,
            element_size(scope, &inst.op),
            callee.external,
            &inst.result,
            &inst.op,
            &tracking.operands,
        )
    }
}
