//! The two lists of one instruction alone, without its module's other code: what `emit` gives. The pass doesn't call it. An
//! instruction has at most 200 inserted results, and 55 for each operand (`room`). Numbers of inserted results have 32 bits
//! here. Bounds in contracts are far above the limits on a text, and let numbers be computed: at most 2^30 values of a
//! function, fewer than 2^40 roots. `site` is the instruction's, `next` the number of the first inserted result.
ghost use Rattle.std.specs.Prelude.{◌≡◌, ◌+◌, ◌*◌, ◌<◌, ◌≤◌, ◌^◌, false, length, IfOk};
ghost use Rattle.ms_ir.specs.{Instructions.{is_phi, operands}, Names.{name_eq, main_name}};
ghost use Rattle.ms_check_tables.specs.FirstPlace.{first_place};
ghost use Rattle.ms_pass_tasks.specs.PassLists.{emit_lists};
ghost use Rattle.ms_check_valid.specs.{Formed.{Formed}, Uninstrumented.{CanInstrument}, Valid.{Valid}};
ghost use Rattle.ms_pass_laws.specs.Numbers.{values_at};
ghost use Rattle.ms_rules.specs.{Around.{here_of}, Callees.{IsCallee}, Scopes.{env_of, given_of}};
ghost use Rattle.ms_rules.specs.Singles.{env_in, env_named, given_in, here_in, hands_over, lists_of, single_lists, AreGiven, AreOwn, StandsIn};
ghost use Rattle.ms_rules.specs.{Taken.{IsTaken}, Tracking.{IsTracked}, Valued.{value_names}};

use crate::after::push_after;
use crate::around::number_to_save;
use crate::before::push_before;
use crate::callees::{CalleeKind, callee_of};
use crate::clean::clean_names;
use crate::phis::push_after_phi;
use crate::scopes::Scope;
use crate::tracked::{Tracking, track};
use crate::values::values_of;
use ms_bits::{List, NoMemory};
use ms_check_tables::{Extents, NameTable, functions_of};
use ms_ir::{Func, Inst, Module, Name, Op, Operand, Ty};
use ms_rules_builder::Builder;
use std::alloc::Global;
use std::collections::BTreeMap;

/// What is known where an instruction stands: its site, the number of roots that its module has before it, and for the
/// name of each parameter and result of its function the operand of the mask and that of the origin. Both are the constant
/// 0 where the mask is known to be 0.
#[derive(Drop)]
pub struct Env {
    pub site: u32,
    /// The number of roots before the instruction.
    pub root: u32,
    /// By name a mask and an origin.
    pub values: BTreeMap<Name, (Operand, Operand)>,
}

/// What is inserted before an instruction and after it, and the number of the next inserted result.
#[derive(Drop)]
pub struct Emitted {
    pub before: List<Inst>,
    pub after: List<Inst>,
    pub next: u32,
}

/// What `emit` answers, of what was added before and after the instruction.
fn answer(before: Builder, after: Builder) -> Emitted
    requires { after.next < 2 ^ 32 }
    ensures { lists_of result ≡ record { before = before.code; after = after.code; next = after.next } }
{
    let next = after.next() as u32;
    Emitted {
        before: List::from_vec(before.into_insts()),
        after: List::from_vec(after.into_insts()),
        next,
    }
}

/// The lists round a phi; the one before it is empty.
fn round_phi(
    alloc: Global,
    scope: &Scope<'_, '_>,
    roots_before: u64,
    next: u64,
    inst: &Inst,
    ty: &Ty,
    edges: &[(Operand, Name)],
) -> Result<Emitted, NoMemory>
    requires few { length scope.now.values.now ≤ 2 ^ 30 }
    requires taken { IsTaken (given_of scope.now).types inst.now }
    requires roots { roots_before < 2 ^ 40 }
    requires room { next < 2 ^ 32 }
    requires phi { inst.now.op ≡ Op.Phi ty.now edges.now }
    ensures { (site : _) → IfOk result (λ e. lists_of e ≡ emit_lists (given_of scope.now) (env_of scope.now) (record { site = site; root = roots_before; main = scope.now.main }) inst.now next) }
{
    let mut after = Builder::new(alloc, next);
    push_after_phi(&mut after, scope, roots_before, inst, ty, edges)?;
    Ok(answer(Builder::new(alloc, next), after))
}

/// The lists round an instruction that is no phi, of whose callee and operands this is known.
fn round_tracked(
    alloc: Global,
    scope: &Scope<'_, '_>,
    site: u32,
    next: u64,
    inst: &Inst,
    callee: CalleeKind,
    tracking: &Tracking<'_>,
) -> Result<Emitted, NoMemory>
    requires few { length scope.now.values.now ≤ 2 ^ 30 }
    requires taken { IsTaken (given_of scope.now).types inst.now }
    requires plain { is_phi inst.now.op ≡ false }
    requires callee { IsCallee (given_of scope.now).func inst.now.op callee }
    requires tracked { IsTracked (env_of scope.now) inst.now.op tracking.now }
    requires roots { tracking.now.before < 2 ^ 40 }
    requires room { next + 200 + 55 * length (operands inst.now.op) < 2 ^ 32 }
    ensures { IfOk result (λ e. lists_of e ≡ emit_lists (given_of scope.now) (env_of scope.now) (here_of scope.now site tracking.now) inst.now next) }
{
    let mut before = Builder::new(alloc, next);
    let saved = number_to_save(&mut before, callee.external);
    push_before(&mut before, scope, site, saved, inst, callee, tracking)?;
    let mut after = Builder::new(alloc, before.next());
    push_after(&mut after, scope, site, saved, inst, callee, tracking)?;
    Ok(answer(before, after))
}

/// The lists round an instruction that is no phi.
fn round_plain(
    alloc: Global,
    scope: &Scope<'_, '_>,
    site: u32,
    roots_before: u64,
    next: u64,
    inst: &Inst,
) -> Result<Emitted, NoMemory>
    requires few { length scope.now.values.now ≤ 2 ^ 30 }
    requires taken { IsTaken (given_of scope.now).types inst.now }
    requires plain { is_phi inst.now.op ≡ false }
    requires roots { roots_before < 2 ^ 40 }
    requires room { next + 200 + 55 * length (operands inst.now.op) < 2 ^ 32 }
    ensures { IfOk result (λ e. lists_of e ≡ emit_lists (given_of scope.now) (env_of scope.now) (record { site = site; root = roots_before; main = scope.now.main }) inst.now next) }
{
    let callee = callee_of(scope.functions, &inst.op);
    let tracking = track(alloc, scope, roots_before, &inst.op)?;
    round_tracked(alloc, scope, site, next, inst, callee, &tracking)
}

/// Whether an operation calls a function of the module, or returns outside `main`, and so hands masks over.
fn is_handing_over(scope: &Scope<'_, '_>, op: &Op) -> bool
    ensures { result ≡ hands_over (given_of scope.now).func scope.now.main op.now }
{
    match op {
        Op::Call { callee, .. } => scope.functions.place(callee).is_some(),
        Op::Ret { .. } => !scope.main,
        _ => false,
    }
}

/// The lists round an instruction; empty ones where it hands masks over.
fn round_inst(
    alloc: Global,
    scope: &Scope<'_, '_>,
    site: u32,
    roots_before: u64,
    next: u64,
    inst: &Inst,
) -> Result<Emitted, NoMemory>
    requires few { length scope.now.values.now ≤ 2 ^ 30 }
    requires taken { IsTaken (given_of scope.now).types inst.now }
    requires roots { roots_before < 2 ^ 40 }
    requires room { next + 200 + 55 * length (operands inst.now.op) < 2 ^ 32 }
    ensures { IfOk result (λ e. lists_of e ≡ single_lists (given_of scope.now) (env_of scope.now) (record { site = site; root = roots_before; main = scope.now.main }) inst.now next) }
{
    if is_handing_over(scope, &inst.op) {
        return Ok(answer(Builder::new(alloc, next), Builder::new(alloc, next)));
    }
    match &inst.op {
        Op::Phi { ty, edges } => {
            round_phi(alloc, scope, roots_before, next, inst, ty, edges.as_slice())
        }
        _ => round_plain(alloc, scope, site, roots_before, next, inst),
    }
}

/// The lists round an instruction of a function, with the names of the function's values.
fn round_named<'m>(
    alloc: Global,
    extents: &Extents<'m>,
    functions: &NameTable<'m>,
    func: &'m Func,
    values: &NameTable<'m>,
    inst: &Inst,
    env: &'m Env,
    next: u32,
) -> Result<Emitted, NoMemory>
    requires few { length values.now ≤ 2 ^ 30 }
    requires named { values.now ≡ value_names func.now }
    requires taken { IsTaken extents.now inst.now }
    requires room { next + 200 + 55 * length (operands inst.now.op) < 2 ^ 32 }
    ensures { IfOk result (λ e. lists_of e ≡ single_lists (record { types = extents.now; func = first_place functions.now }) (env_named (value_names func.now) env.now.values) (record { site = env.now.site; root = env.now.root; main = name_eq func.now.name main_name }) inst.now next) }
{
    let clean = clean_names(alloc, &env.values)?;
    let scope = Scope {
        extents,
        functions,
        values,
        clean: &clean,
        main: func.name.is(b"main"),
    };
    round_inst(alloc, &scope, env.site, env.root as u64, next as u64, inst)
}

/// The lists round an instruction of a function.
fn round_in<'m>(
    alloc: Global,
    extents: &Extents<'m>,
    functions: &NameTable<'m>,
    func: &'m Func,
    inst: &Inst,
    env: &'m Env,
    next: u32,
) -> Result<Emitted, NoMemory>
    requires few { length (value_names func.now) ≤ 2 ^ 30 }
    requires taken { IsTaken extents.now inst.now }
    requires room { next + 200 + 55 * length (operands inst.now.op) < 2 ^ 32 }
    ensures { IfOk result (λ e. lists_of e ≡ single_lists (record { types = extents.now; func = first_place functions.now }) (env_named (value_names func.now) env.now.values) (record { site = env.now.site; root = env.now.root; main = name_eq func.now.name main_name }) inst.now next) }
{
    let values = values_of(alloc, func)?;
    round_named(alloc, extents, functions, func, &values, inst, env, next)
}

/// The lists round an instruction of a function of a module, with the sizes of the module's types.
fn round_sized<'m>(
    alloc: Global,
    m: &'m Module,
    extents: &Extents<'m>,
    func: &'m Func,
    inst: &Inst,
    env: &'m Env,
    next: u32,
) -> Result<Emitted, NoMemory>
    requires few { length (value_names func.now) ≤ 2 ^ 30 }
    requires sized { extents.now ≡ m.now.types }
    requires taken { IsTaken extents.now inst.now }
    requires room { next + 200 + 55 * length (operands inst.now.op) < 2 ^ 32 }
    ensures { IfOk result (λ e. lists_of e ≡ single_lists (given_in m.now) (env_named (value_names func.now) env.now.values) (record { site = env.now.site; root = env.now.root; main = name_eq func.now.name main_name }) inst.now next) }
{
    let functions = functions_of(alloc, m)?;
    round_in(alloc, extents, &functions, func, inst, env, next)
}

/// The lists round an instruction of a function of a module; `next` is the number of the next inserted result.
fn round_of<'m>(
    alloc: Global,
    m: &'m Module,
    func: &'m Func,
    inst: &Inst,
    env: &'m Env,
    next: u32,
) -> Result<Emitted, NoMemory>
    requires few { length (value_names func.now) ≤ 2 ^ 30 }
    requires taken { IsTaken m.now.types inst.now }
    requires room { next + 200 + 55 * length (operands inst.now.op) < 2 ^ 32 }
    ensures { IfOk result (λ e. lists_of e ≡ single_lists (given_in m.now) (env_named (value_names func.now) env.now.values) (record { site = env.now.site; root = env.now.root; main = name_eq func.now.name main_name }) inst.now next) }
{
    let extents = Extents::of(alloc, m)?;
    round_sized(alloc, m, &extents, func, inst, env, next)
}

/// The lists that stand round an unmarked instruction of the function with a number, in a module that can be instrumented.
/// The inserted results are numbered from `next` on: the values of the function are numbered from 0 and the operands of value
/// v are the results 2v + 1 and 2v + 2, so that `next` begins after those of the last value. At a call of a function of the
/// module, and at a return outside `main`, both lists are empty.
///
/// It takes time linear in the module, since it makes its tables of names and types anew. `ms_pass::instrument` makes them
/// once for all instructions.
pub fn emit(
    alloc: Global,
    m: &Module,
    func: u32,
    inst: &Inst,
    env: &Env,
    next: u32,
) -> Result<Emitted, NoMemory>
    requires formed { Formed m.now }
    requires valid { Valid m.now }
    requires instrumentable { CanInstrument m.now }
    requires stands { StandsIn m.now func inst.now env.now.site env.now.root }
    requires given { AreGiven env.now.values inst.now }
    requires own { AreOwn m.now func env.now.values }
    requires above { 2 * length (values_at m.now func) + 1 ≤ next }
    requires below { next < 2 ^ 31 }
    ensures { IfOk result (λ e. lists_of e ≡ single_lists (given_in m.now) (env_in m.now func env.now) (here_in m.now func env.now) inst.now next) }
{
    match m.funcs.as_slice().get(func as usize) {
        Some(function) => round_of(alloc, m, function, inst, env, next),
        None => unreachable!(),
    }
}
