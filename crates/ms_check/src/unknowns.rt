//! The first name that a module uses and doesn't define: a clause of validity. `Search` and `Clause` are of `ms_check_tables`.
ghost use Rattle.std.specs.Prelude.{◌≡◌, ◌++◌, [], flat_map, IfOk, slice_get};
ghost use Rattle.ms_ir.specs.{Locals.{locals, type_names, symbols}, Places.{HasSmallNumbers}, Spots.{found_at_insts}};
ghost use Rattle.ms_ir.specs.Written.{type_mentions, mentions};
ghost use Rattle.ms_check_valid.specs.NamesKnown.{global_mentions, unknowns};
ghost use Rattle.ms_check_tables.specs.Sought.{first_sought};
ghost use Rattle.ms_check.specs.Known.{is_missing, missing_at};

use ms_bits::NoMemory;
use ms_check_tables::{
    Clause, InstSite, NameTable, Search, Spelled, Unknown, Uses, first_among, first_fault,
    locals_of, symbols_of, types_of,
};
use ms_ir::{Func, Inst, Module, Name};
use std::alloc::Global;

/// What is sought are names that aren't defined: each is looked up in the table of its kind.
#[derive(Drop)]
struct UnknownNames<'a, 'm> {
    /// The named types.
    types: &'a NameTable<'m>,
    /// The globals, declarations and functions.
    symbols: &'a NameTable<'m>,
    /// The function's parameters, blocks and results; none outside functions.
    locals: &'a NameTable<'m>,
}

impl<'a, 'm> Search for UnknownNames<'a, 'm> {
    ghost sought = { λ s x. is_missing s.types.now s.symbols.now s.locals.now x };

    fn seeks_type(&self, name: &Name) -> bool {
        !self.types.contains(name)
    }

    fn seeks_local(&self, name: &Name) -> bool {
        !self.locals.contains(name)
    }

    fn seeks_global(&self, name: &Name) -> bool {
        !self.symbols.contains(name)
    }
}

/// The clause that each name that an instruction uses is defined, in a module with these types and symbols.
#[derive(Drop)]
struct NamesKnown<'a, 'm> {
    types: &'a NameTable<'m>,
    symbols: &'a NameTable<'m>,
}

/// Nothing is asked of a function (`Asks`), its tables are its own names (`AreOf`), and it has no fault (`head`) but its
/// instructions' (`look`): the names there that are missing.
impl<'a, 'm> Clause<'m> for NamesKnown<'a, 'm> {
    type Tables = NameTable<'m>;

    type Fault = Unknown<'m>;

    ghost Asks = { λ f. Unit {0} };

    ghost AreOf = { λ clause f names. names ≡ locals f };

    ghost head = { λ clause f. [] };

    ghost look = { λ clause at inst. missing_at (is_missing clause.types.now clause.symbols.now (locals at.func)) at.site (mentions inst.op) };

    fn func_fault(&self, _func: &'m Func) -> Option<Unknown<'m>> {
        None
    }

    fn enter(&self, alloc: Global, func: &'m Func) -> Result<NameTable<'m>, NoMemory> {
        locals_of(alloc, func)
    }

    fn fault(
        &self,
        _alloc: Global,
        tables: &mut NameTable<'m>,
        here: &InstSite<'m>,
        inst: &'m Inst,
    ) -> Result<Option<Unknown<'m>>, NoMemory> {
        let search = UnknownNames {
            types: self.types,
            symbols: self.symbols,
            locals: tables,
        };
        match inst.op.first_in(&search) {
            Some(spelled) => Ok(Some(Unknown {
                site: here.site,
                spelled,
            })),
            None => Ok(None),
        }
    }
}

/// The first name of an instruction that isn't defined, with its site.
fn missing_in_code<'a, 'm>(
    alloc: Global,
    types: &'a NameTable<'m>,
    symbols: &'a NameTable<'m>,
    m: &'m Module,
) -> Result<Option<Unknown<'m>>, NoMemory>
    requires { HasSmallNumbers m.now }
    ensures { IfOk result (λ r. r ≡ slice_get (found_at_insts (λ at inst. missing_at (is_missing types.now symbols.now (locals at.func)) at.site (mentions inst.op)) m.now) 0) }
{
    first_fault(alloc, &NamesKnown { types, symbols }, m)
}

/// The first name that is used in the definitions of types, or in the globals, and isn't defined.
fn missing_outside<'a, 'm>(
    alloc: Global,
    types: &'a NameTable<'m>,
    symbols: &'a NameTable<'m>,
    m: &'m Module,
) -> Option<Spelled<'m>>
    ensures { result ≡ first_sought (is_missing types.now symbols.now []) (flat_map (λ t. type_mentions t.1) m.now.types ++ flat_map global_mentions m.now.globals) }
{
    let locals = NameTable::new(alloc);
    let search = UnknownNames {
        types,
        symbols,
        locals: &locals,
    };
    let missing = first_among(&search, m.types.as_slice());
    missing.or(first_among(&search, m.globals.as_slice()))
}

/// The first name that a module with these types and symbols uses and doesn't define, with its site.
fn first_missing<'m>(
    alloc: Global,
    types: &NameTable<'m>,
    defined: &NameTable<'m>,
    m: &'m Module,
) -> Result<Option<Unknown<'m>>, NoMemory>
    requires small { HasSmallNumbers m.now }
    requires types { types.now ≡ type_names m.now }
    requires defined { defined.now ≡ symbols m.now }
    ensures { IfOk result (λ r. r ≡ slice_get (unknowns m.now) 0) }
{
    match missing_outside(alloc, types, defined, m) {
        Some(spelled) => Ok(Some(Unknown { site: 0, spelled })),
        None => missing_in_code(alloc, types, defined, m),
    }
}

/// The first name that a module uses and doesn't define, with its site, in text order: in the named types, then in the
/// globals, then in the instructions. A type's name may stand anywhere in the module, that of a global, a declaration or a
/// function too, and that of a parameter, a block or a result anywhere in its function. None exactly where each name is
/// defined. Sites have 32 bits in every module that is read.
pub fn first_unknown(alloc: Global, m: &Module) -> Result<Option<Unknown<'_>>, NoMemory>
    requires { HasSmallNumbers m.now }
    ensures { IfOk result (λ r. r ≡ slice_get (unknowns m.now) 0) }
{
    let types = types_of(alloc, m)?;
    let symbols = symbols_of(alloc, m)?;
    first_missing(alloc, &types, &symbols, m)
}
