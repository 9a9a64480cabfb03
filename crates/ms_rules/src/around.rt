//! Puts an instruction of a module with its two lists into the list that grows: what the pass calls. Bounds in contracts are
//! far above the limits on a text, and let numbers be computed: at most 2^30 values of a function, fewer than 2^40 roots, fewer
//! than 2^40 inserted results (`room`). `site` is the instruction's.
ghost use Rattle.std.specs.Prelude.{◌≡◌, ◌+◌, ◌<◌, ◌≤◌, ◌^◌, false, All, length, IfOk, OnOk};
ghost use Rattle.ms_ir.specs.Instructions.{is_phi, operands, roots_in};
ghost use Rattle.ms_rules_tables.specs.Widths.{HasWidths};
ghost use Rattle.ms_rules.specs.{Around.{here_of, saved_for}, Callees.{IsCallee}, Placed.{with_inst}};
ghost use Rattle.ms_rules.specs.{Scopes.{env_of, given_of}, Taken.{IsTaken, IsSizedAlloca}, Tracking.{IsTracked}};

use crate::after::push_after;
use crate::before::push_before;
use crate::callees::{CalleeKind, callee_of, own_roots};
use crate::copies::push_copy;
use crate::phis::push_phi;
use crate::scopes::Scope;
use crate::tracked::{Tracking, track};
use ms_bits::NoMemory;
use ms_ir::{External, Inst, Op};
use ms_rules_builder::Builder;

/// The number of the next inserted result; it is kept for what is saved before a call of an external that needs that (`realloc`).
pub fn number_to_save(builder: &mut Builder, external: Option<External>) -> u64
    requires { builder.old.next < 2 ^ 40 }
    ensures number { result ≡ builder.old.next }
    ensures code { builder.new ≡ record { code = builder.old.code; next = builder.old.next + saved_for external } }
{
    match external {
        Some(External::Realloc) => builder.reserve(),
        _ => builder.next(),
    }
}

/// Adds an instruction that is no phi between its lists, with what is known of its callee and its operands.
fn push_around(
    builder: &mut Builder,
    scope: &Scope<'_, '_>,
    site: u32,
    inst: &Inst,
    callee: CalleeKind,
    tracking: &Tracking<'_>,
) -> Result<(), NoMemory>
    requires few { length scope.now.values.now ≤ 2 ^ 30 }
    requires taken { IsTaken (given_of scope.now).types inst.now }
    requires plain { is_phi inst.now.op ≡ false }
    requires callee { IsCallee (given_of scope.now).func inst.now.op callee }
    requires tracked { IsTracked (env_of scope.now) inst.now.op tracking.now }
    requires roots { tracking.now.before < 2 ^ 40 }
    requires room { builder.old.next < 2 ^ 40 }
    ensures { OnOk result (builder.new ≡ with_inst (given_of scope.now) (env_of scope.now) (here_of scope.now site tracking.now) inst.now builder.old) }
{
    let saved = number_to_save(builder, callee.external);
    push_before(builder, scope, site, saved, inst, callee, tracking)?;
    push_copy(builder, inst)?;
    push_after(builder, scope, site, saved, inst, callee, tracking)
}

/// Adds an instruction that is no phi between its lists. Returns how many roots it has.
fn push_plain(
    builder: &mut Builder,
    scope: &Scope<'_, '_>,
    site: u32,
    roots_before: u64,
    inst: &Inst,
) -> Result<u64, NoMemory>
    requires few { length scope.now.values.now ≤ 2 ^ 30 }
    requires taken { IsTaken (given_of scope.now).types inst.now }
    requires plain { is_phi inst.now.op ≡ false }
    requires roots { roots_before < 2 ^ 40 }
    requires room { builder.old.next < 2 ^ 40 }
    ensures code { OnOk result (builder.new ≡ with_inst (given_of scope.now) (env_of scope.now) (record { site = site; root = roots_before; main = scope.now.main }) inst.now builder.old) }
    ensures roots { IfOk result (λ n. n ≡ roots_in (given_of scope.now).func inst.now) }
{
    let callee = callee_of(scope.functions, &inst.op);
    let tracking = track(builder.alloc(), scope, roots_before, &inst.op)?;
    push_around(builder, scope, site, inst, callee, &tracking)?;
    Ok(tracking.after - tracking.before + own_roots(scope.functions, callee, &inst.op))
}

/// Adds an instruction of the program between the lists that are inserted round it, where it has a site and so many roots
/// stand before it. Returns how many roots it has itself: its undefined operands, and one more where it makes uninitialised
/// bytes.
pub fn push_inst(
    builder: &mut Builder,
    scope: &Scope<'_, '_>,
    site: u32,
    roots_before: u64,
    inst: &Inst,
) -> Result<u64, NoMemory>
    requires few { length scope.now.values.now ≤ 2 ^ 30 }
    requires taken { IsTaken (given_of scope.now).types inst.now }
    requires roots { roots_before < 2 ^ 40 }
    requires room { builder.old.next < 2 ^ 40 }
    ensures code { OnOk result (builder.new ≡ with_inst (given_of scope.now) (env_of scope.now) (record { site = site; root = roots_before; main = scope.now.main }) inst.now builder.old) }
    ensures roots { IfOk result (λ n. n ≡ roots_in (given_of scope.now).func inst.now) }
    ensures few { IfOk result (λ n. n ≤ length (operands inst.now.op) + 1) }
{
    match &inst.op {
        Op::Phi { ty, edges } => push_phi(builder, scope, roots_before, inst, ty, edges.as_slice()),
        _ => push_plain(builder, scope, site, roots_before, inst),
    }
}
