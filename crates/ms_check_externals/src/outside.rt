//! The first name of a module that doesn't fit what stands outside of it: externals, runtime functions and slots. A clause of
//! validity.
ghost use Rattle.std.specs.{Prelude.{◌≡◌, ◌++◌, flat_map, IfOk, slice_get}, Option.{option_copied}};
ghost use Rattle.ms_ir.specs.{Names.{is_kept}, Locals.{function_names}};
ghost use Rattle.ms_check_valid.specs.ExternalsFit.{name_unless, global_fits, is_runtime, is_external, decl_fits, called_names, bad_externals};
ghost use Rattle.ms_check_externals.specs.Outside.{func_faults};

use crate::called::called_names;
use crate::flags::first_in_blocks;
use crate::slots::global_fits;
use ms_bits::NoMemory;
use ms_check_tables::{NameTable, functions_of};
use ms_ir::{Decl, External, Func, GlobalVar, Module, Name, RuntimeFn};
use std::alloc::Global;

/// The first global with a reserved name that is no slot.
fn first_global(globals: &[GlobalVar]) -> Option<&Name>
    ensures { option_copied result ≡ slice_get (flat_map (λ g. name_unless (global_fits g) g.name) globals.now) 0 }
{
    for global in globals {
        if !global_fits(global) {
            return Some(&global.name);
        }
    }
    None
}

/// Whether a declaration has the types of the runtime function with its name.
fn is_runtime(decl: &Decl) -> bool
    ensures { result ≡ is_runtime decl.now }
{
    match RuntimeFn::named(&decl.name) {
        Some(function) => function.has_types_of(decl),
        None => false,
    }
}

/// Whether a declaration has the types of the external with its name.
fn is_external(decl: &Decl) -> bool
    ensures { result ≡ is_external decl.now }
{
    match External::named(&decl.name) {
        Some(external) => external.has_types_of(decl),
        None => false,
    }
}

/// Whether a declaration is a runtime function where its name is reserved, and an external where it is called.
fn decl_fits(called: &NameTable<'_>, decl: &Decl) -> bool
    ensures { result ≡ decl_fits called.now decl.now }
{
    if decl.name.is_reserved() {
        is_runtime(decl)
    } else {
        !called.contains(&decl.name) || is_external(decl)
    }
}

/// The first declaration that doesn't fit, in a module whose calls name these functions.
fn first_decl<'m>(called: &NameTable<'_>, decls: &'m [Decl]) -> Option<&'m Name>
    ensures { option_copied result ≡ slice_get (flat_map (λ d. name_unless (decl_fits called.now d) d.name) decls.now) 0 }
{
    for decl in decls {
        if !decl_fits(called, decl) {
            return Some(&decl.name);
        }
    }
    None
}

/// Whether no function of a module may have a name: a reserved one, or that of what marked calls reach.
#[tactic(auto, unfolding(ms_ir::specs::Names::is_kept))]
fn is_kept(name: &Name) -> bool
    ensures { result ≡ is_kept name.now }
{
    name.is_reserved() || RuntimeFn::named(name).is_some()
}

/// A function's name where no function may have it, or else the first callee in it whose flag doesn't fit. `functions`: the names
/// that the module defines.
fn first_in_func<'m>(functions: &NameTable<'_>, func: &'m Func) -> Option<&'m Name>
    ensures { option_copied result ≡ slice_get (func_faults functions.now func.now) 0 }
{
    if is_kept(&func.name) {
        Some(&func.name)
    } else {
        first_in_blocks(functions, func.blocks.as_slice())
    }
}

/// The first function whose name none may have, or the first callee whose flag doesn't fit, in text order.
fn first_in_funcs<'m>(functions: &NameTable<'_>, funcs: &'m [Func]) -> Option<&'m Name>
    ensures { option_copied result ≡ slice_get (flat_map (func_faults functions.now) funcs.now) 0 }
{
    for func in funcs {
        if let Some(name) = first_in_func(functions, func) {
            return Some(name);
        }
    }
    None
}

/// The first declaration of a module that doesn't fit.
fn first_bad_decl(alloc: Global, m: &Module) -> Result<Option<&Name>, NoMemory>
    ensures { IfOk result (λ name. option_copied name ≡ slice_get (flat_map (λ d. name_unless (decl_fits (called_names m.now) d) d.name) m.now.decls) 0) }
{
    let called = called_names(alloc, m)?;
    Ok(first_decl(&called, m.decls.as_slice()))
}

/// The first function of a module whose name none may have, or the first callee whose flag doesn't fit, in text order.
fn first_bad_func(alloc: Global, m: &Module) -> Result<Option<&Name>, NoMemory>
    ensures { IfOk result (λ name. option_copied name ≡ slice_get (flat_map (func_faults (function_names m.now)) m.now.funcs) 0) }
{
    let functions = functions_of(alloc, m)?;
    Ok(first_in_funcs(&functions, m.funcs.as_slice()))
}

/// The first declaration of a module that doesn't fit, or else the first function whose name none may have or callee whose
/// flag doesn't fit.
fn first_bad_callee(alloc: Global, m: &Module) -> Result<Option<&Name>, NoMemory>
    ensures { IfOk result (λ name. option_copied name ≡ slice_get (flat_map (λ d. name_unless (decl_fits (called_names m.now) d) d.name) m.now.decls ++ flat_map (func_faults (function_names m.now)) m.now.funcs) 0) }
{
    match first_bad_decl(alloc, m)? {
        Some(name) => Ok(Some(name)),
        None => first_bad_func(alloc, m),
    }
}

/// The first name that doesn't fit the outside of a module, in text order: of a global that is reserved and no slot; then of
/// a declaration that is reserved and no runtime function with its types, or that is called and no external with its types;
/// then of a function that is reserved or an intrinsic that moves bits, or of an intrinsic that is called there with an `i1`
/// other than `false` (LLVM Language Reference, "'llvm.memcpy' Intrinsic" and its neighbours). None exactly where all fit.
///
/// The time grows with the size of the module, names that are called being found as `NameTable` finds them.
pub fn first_bad_external(alloc: Global, m: &Module) -> Result<Option<&Name>, NoMemory>
    ensures { IfOk result (λ name. option_copied name ≡ slice_get (bad_externals m.now) 0) }
{
    match first_global(m.globals.as_slice()) {
        Some(name) => Ok(Some(name)),
        None => first_bad_callee(alloc, m),
    }
}
