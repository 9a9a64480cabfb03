//! The state of a module that is read, and what an entity adds to it.

ghost use Rattle.std.specs.Prelude.{◌≡◌, IfOk};
ghost use Rattle.ms_text_grammar.specs.Modules as spec;

use ms_bits::NoMemory;
use ms_ir::{Decl, GlobalVar, Name, Ty};
use ms_read_cursor::push;
use ms_text_grammar::ModuleSoFar;
use std::alloc::Global;

/// Adds a named type.
pub fn add_type(alloc: Global, parts: &mut ModuleSoFar, ty: (Name, Ty)) -> Result<(), NoMemory>
    ensures { IfOk result (λ _. parts.new ≡ spec.with_type parts.old ty) }
{
    push(alloc, &mut parts.module.types, ty)
}

/// Adds a global.
pub fn add_global(alloc: Global, parts: &mut ModuleSoFar, global: GlobalVar) -> Result<(), NoMemory>
    ensures { IfOk result (λ _. parts.new ≡ spec.with_global parts.old global) }
{
    push(alloc, &mut parts.module.globals, global)
}

/// Adds a declaration.
pub fn add_declaration(
    alloc: Global,
    parts: &mut ModuleSoFar,
    declaration: Decl,
) -> Result<(), NoMemory>
    ensures { IfOk result (λ _. parts.new ≡ spec.with_declaration parts.old declaration) }
{
    push(alloc, &mut parts.module.decls, declaration)
}
