//! Puts the instrumented module together: its types, its globals with the slots, the declarations of the runtime, its
//! functions.
ghost use Rattle.std.specs.{Prelude.{◌≡◌, ◌++◌, All, length, map, IfOk}, List.{range_with_len}};
ghost use Rattle.ms_ir.specs.{Locals.{function_names}, Signatures.{slot_globals, runtime_declarations}};
ghost use Rattle.ms_check_tables.specs.FirstPlace.{first_place};
ghost use Rattle.ms_pass.specs.{Counted.{past_funcs, AreSmall}, Passed.{inst, no_counts, passed_module}};
ghost use Rattle.ms_pass.specs.Ready.{IsReady};

use crate::functions::passed_funcs;
use ms_bits::{Duplicate, List, NoMemory};
use ms_check_tables::{Extents, functions_of};
use ms_elide::CleanSet;
use ms_fork::Gate;
use ms_ir::{Decl, Func, GlobalVar, Module, Name, Ty, runtime_declarations, slot_globals};
use std::alloc::Global;
use std::thread::Threads;

/// Adds copies at the end of a list.
fn push_copies<T: Duplicate>(alloc: Global, items: &mut Vec<T>, more: &[T]) -> Result<(), NoMemory>
    ensures { IfOk result (λ _. items.new.items ≡ items.old.items ++ more.now) }
{
    for item in more {
        items.push(item.copy(alloc)?)?;
    }
    Ok(())
}

/// A copy of one list with that of another after it.
fn joined<T: Duplicate>(alloc: Global, first: &[T], more: &[T]) -> Result<List<T>, NoMemory>
    ensures { IfOk result (λ items. items ≡ first.now ++ more.now) }
{
    let mut items = Vec::new(alloc);
    push_copies(alloc, &mut items, first)?;
    push_copies(alloc, &mut items, more)?;
    Ok(List::from_vec(items))
}

/// The globals of a module, and then the slots.
fn globals_of(alloc: Global, m: &Module) -> Result<List<GlobalVar>, NoMemory>
    ensures { IfOk result (λ gs. gs ≡ m.now.globals ++ slot_globals) }
{
    let slots = slot_globals(alloc)?;
    joined(alloc, m.globals.as_slice(), slots.as_slice())
}

/// The declarations of a module, and then those of the runtime.
fn declarations_of(alloc: Global, m: &Module) -> Result<List<Decl>, NoMemory>
    ensures { IfOk result (λ ds. ds ≡ m.now.decls ++ runtime_declarations) }
{
    let runtime = runtime_declarations(alloc)?;
    joined(alloc, m.decls.as_slice(), runtime.as_slice())
}

/// The instrumented form of the functions of a module with these clean values. Each piece of the work enters `gate`.
fn funcs_of<'m, R: Threads + Sync, G: Gate + Sync>(
    rt: &R,
    alloc: Global,
    m: &'m Module,
    clean: &CleanSet<'m>,
    gate: &G,
) -> Result<List<Func>, NoMemory>
    requires sets { length clean.now ≡ length m.now.funcs }
    requires ready { All (IsReady m.now.types) m.now.funcs }
    requires small { AreSmall (past_funcs (first_place (function_names m.now)) no_counts m.now.funcs) }
    ensures { IfOk result (λ fs. fs ≡ map (inst clean.now m.now) (range_with_len 0 (length m.now.funcs))) }
{
    let extents = Extents::of(alloc, m)?;
    funcs_within(rt, alloc, m, &extents, clean, gate)
}

/// The functions of `funcs_of`, where `extents` are those of the module's named types.
fn funcs_within<'m, R: Threads + Sync, G: Gate + Sync>(
    rt: &R,
    alloc: Global,
    m: &'m Module,
    extents: &Extents<'m>,
    clean: &CleanSet<'m>,
    gate: &G,
) -> Result<List<Func>, NoMemory>
    requires extents { extents.now ≡ m.now.types }
    requires sets { length clean.now ≡ length m.now.funcs }
    requires ready { All (IsReady m.now.types) m.now.funcs }
    requires small { AreSmall (past_funcs (first_place (function_names m.now)) no_counts m.now.funcs) }
    ensures { IfOk result (λ fs. fs ≡ map (inst clean.now m.now) (range_with_len 0 (length m.now.funcs))) }
{
    let functions = functions_of(alloc, m)?;
    passed_funcs(
        rt,
        alloc,
        extents,
        &functions,
        clean,
        m.funcs.as_slice(),
        gate,
    )
}

/// A module with these types and functions, and after its globals and declarations the slots and the runtime's.
fn with_funcs(
    alloc: Global,
    m: &Module,
    types: List<(Name, Ty)>,
    funcs: List<Func>,
) -> Result<Module, NoMemory>
    ensures { IfOk result (λ j. j ≡ record { types = types; globals = m.now.globals ++ slot_globals; decls = m.now.decls ++ runtime_declarations; funcs = funcs }) }
{
    let globals = globals_of(alloc, m)?;
    let decls = declarations_of(alloc, m)?;
    Ok(Module {
        types,
        globals,
        decls,
        funcs,
    })
}

/// The instrumented form of a module with these clean values, whose functions can be instrumented.
pub fn passed_module<'m, R: Threads + Sync, G: Gate + Sync>(
    rt: &R,
    alloc: Global,
    m: &'m Module,
    clean: &CleanSet<'m>,
    gate: &G,
) -> Result<Module, NoMemory>
    requires sets { length clean.now ≡ length m.now.funcs }
    requires ready { All (IsReady m.now.types) m.now.funcs }
    requires small { AreSmall (past_funcs (first_place (function_names m.now)) no_counts m.now.funcs) }
    ensures { IfOk result (λ j. j ≡ passed_module clean.now m.now) }
{
    let types = m.types.copy(alloc)?;
    let funcs = funcs_of(rt, alloc, m, clean, gate)?;
    with_funcs(alloc, m, types, funcs)
}
