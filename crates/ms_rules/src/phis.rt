//! Phis of the program, each followed by two that are inserted: one for its mask, one for its origin. Bounds in contracts are
//! far above the limits on a text, and let numbers be computed: at most 2^30 values of a function, fewer than 2^40 roots.
ghost use Rattle.std.specs.Prelude.{◌≡◌, ◌<◌, ◌≤◌, ◌^◌, [], ◌∷◌, Some, All, length, map, IfOk, OnOk};
ghost use Rattle.ms_ir.specs.{declared.syntax.Ty.{Int}, Instructions.{count_undefs, operands}, Layout.{width_of}};
ghost use Rattle.ms_pass_tasks.specs.{Tasks.{inserted, mask_name, origin_name}, Environments.{mask_type}};
ghost use Rattle.ms_pass_tasks.specs.PassLists.{phi_code};
ghost use Rattle.ms_rules.specs.{Edges.{masks, origins, with_operands, with_first, shadow_phis}, Placed.{with_insts}};
ghost use Rattle.ms_rules.specs.{Scopes.{env_of}, Tracking.{IsTracked}};

use crate::copies::push_copy;
use crate::edges::{mask_edges, origin_edges};
use crate::scopes::Scope;
use crate::tracked::{Tracking, track};
use ms_bits::{List, NoMemory};
use ms_ir::{Inst, Name, Op, Operand, Ty, width_of};
use ms_rules_builder::{Builder, TrackedOperand, mask_name, origin_name};

/// Adds an inserted phi of integers of a width.
fn put_phi(
    builder: &mut Builder,
    name: Name,
    width: u8,
    edges: List<(Operand, Name)>,
) -> Result<(), NoMemory>
    ensures { OnOk result (builder.new ≡ with_insts builder.old (inserted (Some name) (Op.Phi (Int width) edges) ∷ [])) }
{
    builder.put(
        Some(name),
        Op::Phi {
            ty: Ty::Int(width),
            edges,
        },
    )
}

/// Adds the phi of the mask of the value with a number, which is a phi with these edges and operands.
fn put_mask(
    builder: &mut Builder,
    value: u32,
    ty: &Ty,
    edges: &[(Operand, Name)],
    operands: &[TrackedOperand<'_>],
) -> Result<(), NoMemory>
    requires { length operands.now ≡ length edges.now }
    ensures { OnOk result (builder.new ≡ with_insts builder.old (inserted (Some (mask_name value)) (Op.Phi (mask_type ty.now) (with_operands (masks operands.now) edges.now)) ∷ [])) }
{
    let name = mask_name(builder.alloc(), value as u64)?;
    let edges = mask_edges(builder.alloc(), operands, edges)?;
    put_phi(builder, name, width_of(ty), edges)
}

/// Adds the phi of the origin of the value with a number, which is a phi with these edges and operands.
fn put_origin(
    builder: &mut Builder,
    value: u32,
    edges: &[(Operand, Name)],
    operands: &[TrackedOperand<'_>],
) -> Result<(), NoMemory>
    ensures { OnOk result (builder.new ≡ with_insts builder.old (inserted (Some (origin_name value)) (Op.Phi (Int 32) (with_first (origins operands.now) (map (λ e. e.1) edges.now) edges.now)) ∷ [])) }
{
    let name = origin_name(builder.alloc(), value as u64)?;
    let edges = origin_edges(builder.alloc(), operands, edges)?;
    put_phi(builder, name, 32, edges)
}

/// Adds the phis of the mask and the origin of the value with a number.
fn put_shadow_phis(
    builder: &mut Builder,
    value: u32,
    ty: &Ty,
    edges: &[(Operand, Name)],
    operands: &[TrackedOperand<'_>],
) -> Result<(), NoMemory>
    requires { length operands.now ≡ length edges.now }
    ensures { OnOk result (builder.new ≡ with_insts builder.old (shadow_phis value ty.now (with_operands (masks operands.now) edges.now) (with_first (origins operands.now) (map (λ e. e.1) edges.now) edges.now))) }
{
    put_mask(builder, value, ty, edges, operands)?;
    put_origin(builder, value, edges, operands)
}

/// Adds the phis of the mask and the origin of a phi, where its result has a number: not where it is known to be clean.
fn push_shadow_phis(
    builder: &mut Builder,
    scope: &Scope<'_, '_>,
    name: &Option<Name>,
    ty: &Ty,
    edges: &[(Operand, Name)],
    tracking: &Tracking<'_>,
) -> Result<(), NoMemory>
    requires few { length scope.now.values.now ≤ 2 ^ 30 }
    requires tracked { IsTracked (env_of scope.now) (Op.Phi ty.now edges.now) tracking.now }
    ensures { OnOk result (builder.new ≡ with_insts builder.old (phi_code (env_of scope.now) tracking.now.before name.now ty.now edges.now)) }
{
    match name {
        Some(name) => match scope.number(name) {
            Some(value) => put_shadow_phis(builder, value, ty, edges, &tracking.operands),
            None => Ok(()),
        },
        None => Ok(()),
    }
}

/// Adds what stands after a phi: the phis of its mask and its origin. Returns how many of its operands are undefined: its roots.
pub fn push_after_phi(
    builder: &mut Builder,
    scope: &Scope<'_, '_>,
    roots_before: u64,
    inst: &Inst,
    ty: &Ty,
    edges: &[(Operand, Name)],
) -> Result<u64, NoMemory>
    requires few { length scope.now.values.now ≤ 2 ^ 30 }
    requires narrow { All (λ o. width_of o.0 ≤ 64) (operands inst.now.op) }
    requires roots { roots_before < 2 ^ 40 }
    requires phi { inst.now.op ≡ Op.Phi ty.now edges.now }
    ensures code { OnOk result (builder.new ≡ with_insts builder.old (phi_code (env_of scope.now) roots_before inst.now.result ty.now edges.now)) }
    ensures roots { IfOk result (λ n. n ≡ count_undefs (operands inst.now.op)) }
{
    let tracking = track(builder.alloc(), scope, roots_before, &inst.op)?;
    push_shadow_phis(builder, scope, &inst.result, ty, edges, &tracking)?;
    Ok(tracking.after - tracking.before)
}

/// Adds a phi, and the phis of its mask and its origin. Returns how many of its operands are undefined.
pub fn push_phi(
    builder: &mut Builder,
    scope: &Scope<'_, '_>,
    roots_before: u64,
    inst: &Inst,
    ty: &Ty,
    edges: &[(Operand, Name)],
) -> Result<u64, NoMemory>
    requires few { length scope.now.values.now ≤ 2 ^ 30 }
    requires narrow { All (λ o. width_of o.0 ≤ 64) (operands inst.now.op) }
    requires roots { roots_before < 2 ^ 40 }
    requires phi { inst.now.op ≡ Op.Phi ty.now edges.now }
    ensures code { OnOk result (builder.new ≡ with_insts builder.old (inst.now ∷ phi_code (env_of scope.now) roots_before inst.now.result ty.now edges.now)) }
    ensures roots { IfOk result (λ n. n ≡ count_undefs (operands inst.now.op)) }
{
    push_copy(builder, inst)?;
    push_after_phi(builder, scope, roots_before, inst, ty, edges)
}
