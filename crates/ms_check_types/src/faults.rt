//! Looks for the first type, global or function that has a type without a size, for `ms_check`.
ghost use Rattle.std.specs.Prelude.{◌≡◌, [], ◌∷◌, ◌++◌, flat_map, slice_get, IfOk};
ghost use Rattle.ms_ir.specs.declared.syntax.Ty.{Named};
ghost use Rattle.ms_check_valid.specs.SizesFit.{sized, unsized, unsized_globals};
ghost use Rattle.ms_check_types.specs.SizedParts.{type_faults, func_faults};

use crate::globals::first_global;
use crate::parts::has_sizes;
use crate::sized_bodies::is_func_sized;
use ms_bits::NoMemory;
use ms_check_tables::{Extents, Spelled};
use ms_ir::{Func, Module, Name, Ty};
use std::alloc::Global;

/// Whether a named type, and each type in its definition, have sizes.
fn is_row_sized(extents: &Extents, name: &Name, ty: &Ty) -> bool
    ensures { result ≡ sized extents.now (Named name.now ∷ ty.now ∷ []) }
{
    extents.size_of_named(name).is_some() && has_sizes(extents, ty)
}

/// The name of the first named type that has no size, or holds a type that has none.
fn first_type<'m>(extents: &Extents, types: &'m [(Name, Ty)]) -> Option<Spelled<'m>>
    ensures { result ≡ slice_get (flat_map (type_faults extents.now) types.now) 0 }
{
    for (name, ty) in types {
        if !is_row_sized(extents, name, ty) {
            return Some(Spelled {
                global: false,
                name,
            });
        }
    }
    None
}

/// The first function in which a type without a size is written.
fn first_func<'m>(extents: &Extents, funcs: &'m [Func]) -> Option<Spelled<'m>>
    ensures { result ≡ slice_get (flat_map (func_faults extents.now) funcs.now) 0 }
{
    for func in funcs {
        if !is_func_sized(extents, func) {
            return Some(Spelled {
                global: true,
                name: &func.name,
            });
        }
    }
    None
}

/// The first global or function, in this order, that has a type without a size, or the global with which the globals
/// pass their limit.
fn first_symbol<'m>(extents: &Extents, m: &'m Module) -> Option<Spelled<'m>>
    ensures { result ≡ slice_get (unsized_globals extents.now 0 m.now.globals ++ flat_map (func_faults extents.now) m.now.funcs) 0 }
{
    let globals = m.globals.as_slice();
    let funcs = m.funcs.as_slice();
    match first_global(extents, globals) {
        Some(fault) => Some(fault),
        None => first_func(extents, funcs),
    }
}

/// The first of a module's named types, globals and functions, in this order, that is or has a type without a size, or
/// the global with which the globals pass their limit.
fn first_fault<'m>(extents: &Extents, m: &'m Module) -> Option<Spelled<'m>>
    requires { extents.now ≡ m.now.types }
    ensures { result ≡ slice_get (unsized m.now) 0 }
{
    let types = m.types.as_slice();
    match first_type(extents, types) {
        Some(fault) => Some(fault),
        None => first_symbol(extents, m),
    }
}

/// The first named type, global or function, in this order, that is or has a type without a size, or the global with which
/// the globals pass 16 MiB (LLVM Language Reference, "Structure Type"; the limits are own); none where all sizes fit. Each
/// named type is laid out once, and each type that is written is looked at where it stands.
pub fn first_unsized<'m>(alloc: Global, m: &'m Module) -> Result<Option<Spelled<'m>>, NoMemory>
    ensures { IfOk result (λ fault. fault ≡ slice_get (unsized m.now) 0) }
{
    let extents = Extents::of(alloc, m)?;
    Ok(first_fault(&extents, m))
}
