//! Tables of the names that a module and a function define.
ghost use Rattle.std.specs.Prelude.{◌≡◌, ◌++◌, option_to_list, filter_map, flat_map, IfOk};
ghost use Rattle.ms_ir.specs.Locals.{block_locals, locals, parameter_names, block_names, function_names, type_names, global_names, declared_names, symbols};

use crate::named::Named;
use crate::table::NameTable;
use ms_bits::NoMemory;
use ms_ir::{Block, Func, Module};
use std::alloc::Global;

/// Appends the name that a part gives, if it gives one.
fn push_given<'m, T: Named>(names: &mut NameTable<'m>, part: &'m T) -> Result<(), NoMemory>
    ensures { IfOk result (λ _. names.new ≡ names.old ++ option_to_list (T.name_of part.now)) }
{
    match part.given_name() {
        Some(name) => {
            names.push(name)?;
            Ok(())
        }
        None => Ok(()),
    }
}

/// Appends the names that parts of one kind give.
fn push_all<'m, T: Named>(names: &mut NameTable<'m>, parts: &'m [T]) -> Result<(), NoMemory>
    ensures { IfOk result (λ _. names.new ≡ names.old ++ filter_map T.name_of parts.now) }
{
    for part in parts {
        push_given(names, part)?;
    }
    Ok(())
}

/// The names that parts of one kind give, as all parameters of a function.
pub fn names_of<'m, T: Named>(alloc: Global, parts: &'m [T]) -> Result<NameTable<'m>, NoMemory>
    ensures { IfOk result (λ names. names ≡ filter_map T.name_of parts.now) }
{
    let mut names = NameTable::new(alloc);
    push_all(&mut names, parts)?;
    Ok(names)
}

/// The names of a function's parameters.
pub fn parameters_of(alloc: Global, func: &Func) -> Result<NameTable<'_>, NoMemory>
    ensures { IfOk result (λ names. names ≡ parameter_names func.now) }
{
    names_of(alloc, func.params.as_slice())
}

/// The names of a function's blocks.
pub fn blocks_of(alloc: Global, func: &Func) -> Result<NameTable<'_>, NoMemory>
    ensures { IfOk result (λ names. names ≡ block_names func.now) }
{
    names_of(alloc, func.blocks.as_slice())
}

/// Appends the names of blocks and their results.
fn push_blocks<'m>(names: &mut NameTable<'m>, blocks: &'m [Block]) -> Result<(), NoMemory>
    ensures { IfOk result (λ _. names.new ≡ names.old ++ flat_map block_locals blocks.now) }
{
    for block in blocks {
        names.push(&block.name)?;
        push_all(names, block.insts.as_slice())?;
    }
    Ok(())
}

/// The names of a function's parameters, blocks and results.
pub fn locals_of(alloc: Global, func: &Func) -> Result<NameTable<'_>, NoMemory>
    ensures { IfOk result (λ names. names ≡ locals func.now) }
{
    let mut names = parameters_of(alloc, func)?;
    push_blocks(&mut names, func.blocks.as_slice())?;
    Ok(names)
}

/// The names of a module's types.
pub fn types_of(alloc: Global, m: &Module) -> Result<NameTable<'_>, NoMemory>
    ensures { IfOk result (λ names. names ≡ type_names m.now) }
{
    names_of(alloc, m.types.as_slice())
}

/// The names of a module's globals.
pub fn globals_of(alloc: Global, m: &Module) -> Result<NameTable<'_>, NoMemory>
    ensures { IfOk result (λ names. names ≡ global_names m.now) }
{
    names_of(alloc, m.globals.as_slice())
}

/// The names of the functions that a module declares.
pub fn declarations_of(alloc: Global, m: &Module) -> Result<NameTable<'_>, NoMemory>
    ensures { IfOk result (λ names. names ≡ declared_names m.now) }
{
    names_of(alloc, m.decls.as_slice())
}

/// The names of the functions that a module defines.
pub fn functions_of(alloc: Global, m: &Module) -> Result<NameTable<'_>, NoMemory>
    ensures { IfOk result (λ names. names ≡ function_names m.now) }
{
    names_of(alloc, m.funcs.as_slice())
}

/// Appends the names of the functions that a module declares and defines.
fn push_callees<'m>(names: &mut NameTable<'m>, m: &'m Module) -> Result<(), NoMemory>
    ensures { IfOk result (λ _. names.new ≡ names.old ++ (declared_names m.now ++ function_names m.now)) }
{
    push_all(names, m.decls.as_slice())?;
    push_all(names, m.funcs.as_slice())
}

/// The names of a module's globals, declarations and functions, which are written with `@`.
pub fn symbols_of(alloc: Global, m: &Module) -> Result<NameTable<'_>, NoMemory>
    ensures { IfOk result (λ names. names ≡ symbols m.now) }
{
    let mut names = globals_of(alloc, m)?;
    push_callees(&mut names, m)?;
    Ok(names)
}
