//! The first name that is defined twice: a clause of validity. Names are appended to a table of those seen, in text order.
ghost use Rattle.std.specs.Prelude.{◌≡◌, ◌++◌, [], ◌∷◌, true, false, option_map, flat_map, None, IfOk, IfNone, slice_get};
ghost use Rattle.std.specs.Option.{option_copied};
ghost use Rattle.ms_ir.specs.Locals.{block_locals, locals, type_names, global_names, declared_names};
ghost use Rattle.ms_check_valid.specs.NamesOnce.{at_sign, percent_sign, repeats, function_duplicates, duplicates};

use crate::twice::{append, first_twice};
use ms_bits::NoMemory;
use ms_check_tables::{NameTable, Spelled};
use ms_ir::{Block, Func, Module, Name};
use std::alloc::Global;

/// A name, if there is one, as it is spelled: with `@` if `global`, else with `%`.
fn spell(global: bool, name: Option<&Name>) -> Option<Spelled<'_>>
    ensures { result ≡ option_map (λ x. record { global = global; name = x }) (option_copied name.entry) }
{
    match name {
        Some(name) => Some(Spelled { global, name }),
        None => None,
    }
}

/// Appends the name of a block and those of its results, up to the first that stands already among those seen.
fn block_twice<'m>(seen: &mut NameTable<'m>, block: &'m Block) -> Result<Option<&'m Name>, NoMemory>
    ensures first { IfOk result (λ r. option_copied r ≡ slice_get (repeats seen.old (block_locals block.now)) 0) }
    ensures seen { IfOk result (λ r. IfNone r (seen.new ≡ seen.old ++ block_locals block.now)) }
{
    match append(seen, &block.name)? {
        Some(name) => Ok(Some(name)),
        None => first_twice(seen, block.insts.as_slice()),
    }
}

/// Appends the names of blocks and their results, up to the first that stands already among those seen.
fn blocks_twice<'m>(
    seen: &mut NameTable<'m>,
    blocks: &'m [Block],
) -> Result<Option<&'m Name>, NoMemory>
    ensures { IfOk result (λ r. option_copied r ≡ slice_get (repeats seen.old (flat_map block_locals blocks.now)) 0) }
{
    for block in blocks {
        if let Some(name) = block_twice(seen, block)? {
            return Ok(Some(name));
        }
    }
    Ok(None)
}

/// Appends the names of a function's parameters, blocks and results, up to the first that stands already among those seen.
fn locals_twice<'m>(seen: &mut NameTable<'m>, func: &'m Func) -> Result<Option<&'m Name>, NoMemory>
    ensures { IfOk result (λ r. option_copied r ≡ slice_get (repeats seen.old (locals func.now)) 0) }
{
    match first_twice(seen, func.params.as_slice())? {
        Some(name) => Ok(Some(name)),
        None => blocks_twice(seen, func.blocks.as_slice()),
    }
}

/// The first name that a function gives twice: to its parameters, blocks and results.
fn local_twice(alloc: Global, func: &Func) -> Result<Option<&Name>, NoMemory>
    ensures { IfOk result (λ r. option_copied r ≡ slice_get (repeats [] (locals func.now)) 0) }
{
    let mut seen = NameTable::new(alloc);
    locals_twice(&mut seen, func)
}

/// Appends a function's symbol, its own name. Returns it where it stands already among those before it, and else the first
/// name that the function gives twice.
fn function_twice<'m>(
    alloc: Global,
    symbols: &mut NameTable<'m>,
    func: &'m Func,
) -> Result<Option<Spelled<'m>>, NoMemory>
    ensures first { IfOk result (λ r. r ≡ slice_get (at_sign (repeats symbols.old (func.now.name ∷ [])) ++ percent_sign (repeats [] (locals func.now))) 0) }
    ensures symbols { IfOk result (λ _. symbols.new ≡ symbols.old ++ func.now.name ∷ []) }
{
    match append(symbols, &func.name)? {
        Some(name) => Ok(Some(Spelled { global: true, name })),
        None => Ok(spell(false, local_twice(alloc, func)?)),
    }
}

/// Appends functions' symbols, up to the first fault of a function.
fn functions_twice<'m>(
    alloc: Global,
    symbols: &mut NameTable<'m>,
    funcs: &'m [Func],
) -> Result<Option<Spelled<'m>>, NoMemory>
    ensures { IfOk result (λ r. r ≡ slice_get (function_duplicates symbols.old funcs.now) 0) }
{
    for func in funcs {
        if let Some(spelled) = function_twice(alloc, symbols, func)? {
            return Ok(Some(spelled));
        }
    }
    Ok(None)
}

/// The first type with the name of an earlier one.
fn type_twice(alloc: Global, m: &Module) -> Result<Option<&Name>, NoMemory>
    ensures { IfOk result (λ r. option_copied r ≡ slice_get (repeats [] (type_names m.now)) 0) }
{
    let mut types = NameTable::new(alloc);
    first_twice(&mut types, m.types.as_slice())
}

/// Appends the symbols of the globals and declarations, up to the first that stands already among them.
fn symbol_twice<'m>(
    symbols: &mut NameTable<'m>,
    m: &'m Module,
) -> Result<Option<&'m Name>, NoMemory>
    ensures first { IfOk result (λ r. option_copied r ≡ slice_get (repeats symbols.old (global_names m.now ++ declared_names m.now)) 0) }
    ensures symbols { IfOk result (λ r. IfNone r (symbols.new ≡ symbols.old ++ (global_names m.now ++ declared_names m.now))) }
{
    match first_twice(symbols, m.globals.as_slice())? {
        Some(name) => Ok(Some(name)),
        None => first_twice(symbols, m.decls.as_slice()),
    }
}

/// Appends the symbols of a module whose types have different names, up to the first fault: a global or a declaration that
/// stands already among them, or a fault of a function.
fn any_symbol_twice<'m>(
    alloc: Global,
    symbols: &mut NameTable<'m>,
    m: &'m Module,
) -> Result<Option<Spelled<'m>>, NoMemory>
    requires types { slice_get (repeats [] (type_names m.now)) 0 ≡ None }
    requires empty { symbols.old ≡ [] }
    ensures { IfOk result (λ r. r ≡ slice_get (duplicates m.now) 0) }
{
    match symbol_twice(symbols, m)? {
        Some(name) => Ok(Some(Spelled { global: true, name })),
        None => functions_twice(alloc, symbols, m.funcs.as_slice()),
    }
}

/// The first name that a module defines twice whose types have different names: a global's or a declaration's, then of
/// each function its symbol and the names of its parameters, blocks and results.
fn first_symbol_twice(alloc: Global, m: &Module) -> Result<Option<Spelled<'_>>, NoMemory>
    requires { slice_get (repeats [] (type_names m.now)) 0 ≡ None }
    ensures { IfOk result (λ r. r ≡ slice_get (duplicates m.now) 0) }
{
    let mut symbols = NameTable::new(alloc);
    any_symbol_twice(alloc, &mut symbols, m)
}

/// The first name that a module defines twice, in text order: a type's, then a global's or a declaration's, then of each
/// function its symbol and the names of its parameters, blocks and results. None exactly where each is defined once.
pub fn first_duplicate(alloc: Global, m: &Module) -> Result<Option<Spelled<'_>>, NoMemory>
    ensures { IfOk result (λ r. r ≡ slice_get (duplicates m.now) 0) }
{
    match type_twice(alloc, m)? {
        Some(name) => Ok(Some(Spelled {
            global: false,
            name,
        })),
        None => first_symbol_twice(alloc, m),
    }
}
