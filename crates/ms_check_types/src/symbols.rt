//! What the names of a module stand for, for the check of its types (LLVM Language Reference, "Module Structure"), each found as
//! `NameTable` finds it.
ghost use Rattle.std.specs.{Prelude.{◌≡◌, IfOk, option_map, unwrap_or}, Option.{option_copied}};
ghost use Rattle.ms_ir.specs.declared.syntax.Ty as type;
ghost use Rattle.ms_ir.specs.{Layout.{resolved}, Locals.{type_names, global_names}, Names.{lookup}};
ghost use Rattle.ms_ir.specs.Signatures.{signature_of};
ghost use Rattle.ms_ir.specs.declared.syntax.Operand.TheVariants as operand;
ghost use Rattle.ms_check_valid.specs.TypesAgree.{is_variable, is_printf, is_start, is_create};
ghost use Rattle.ms_check_types.specs.Callees.{callee_signature};

use crate::callees::{Callee, FuncTable, takes_pointer};
use crate::rows::row_of;
use ms_bits::NoMemory;
use ms_check_tables::{NameTable, globals_of, types_of};
use ms_ir::{Module, Name, Ty};
use std::alloc::Global;

/// The names of a module's types, and those of its globals.
fn names_of_types_and_globals<'m>(
    alloc: Global,
    m: &'m Module,
) -> Result<(NameTable<'m>, NameTable<'m>), NoMemory>
    ensures types { IfOk result (λ names. names.0 ≡ type_names m.now) }
    ensures globals { IfOk result (λ names. names.1 ≡ global_names m.now) }
{
    let types = types_of(alloc, m)?;
    let globals = globals_of(alloc, m)?;
    Ok((types, globals))
}

/// A module with what its names stand for.
#[derive(Drop)]
pub struct Symbols<'m> {
    /// The module.
    pub source: &'m Module,
    /// The names of its named types.
    types: NameTable<'m>,
    /// The names of its global variables.
    globals: NameTable<'m>,
    /// Its functions, defined or declared.
    callees: FuncTable<'m>,
    ghost types_are: { types ≡ type_names source.now },
    ghost globals_are: { globals ≡ global_names source.now },
    ghost callees_are: { callees.source.now ≡ source.now },
}

impl<'m> Symbols<'m> {
    /// The symbols of a module.
    pub fn of(alloc: Global, m: &'m Module) -> Result<Symbols<'m>, NoMemory>
        ensures { IfOk result (λ symbols. symbols.source.now ≡ m.now) }
    {
        let (types, globals) = names_of_types_and_globals(alloc, m)?;
        let callees = FuncTable::of(alloc, m)?;
        Ok(Symbols {
            source: m,
            types,
            globals,
            callees,
        })
    }

    /// The type that a name stands for, or the type itself where it has no name; none for a name that is not known,
    /// which counts as that of an address.
    pub fn resolved<'a>(&'a self, ty: &'a Ty) -> Option<&'a Ty>
        ensures { unwrap_or (option_copied result) type.Ptr ≡ resolved self.now.source.now.types ty.now }
    {
        match ty {
            Ty::Named(name) => self.named(name),
            _ => Some(ty),
        }
    }

    /// The type that a type's name stands for.
    fn named(&self, name: &Name) -> Option<&'m Ty>
        ensures { option_copied result ≡ lookup self.now.source.now.types name.now }
    {
        match row_of(&self.types, self.source.types.as_slice(), name) {
            Some((_, ty)) => Some(ty),
            None => None,
        }
    }

    /// Whether a global variable has a name.
    pub fn is_variable(&self, name: &Name) -> bool
        ensures { result ≡ is_variable self.now.source.now name.now }
    {
        self.globals.contains(name)
    }

    /// Whether a name is that of the `printf` that the module declares.
    pub fn is_printf(&self, name: &Name) -> bool
        ensures { result ≡ is_printf self.now.source.now name.now }
    {
        name.is(b"printf") && self.callees.declares(name)
    }

    /// Whether a name is that of the `pthread_create` that the module declares.
    pub fn is_create(&self, name: &Name) -> bool
        ensures { result ≡ is_create self.now.source.now name.now }
    {
        name.is(b"pthread_create") && self.callees.declares(name)
    }

    /// Whether a name is that of a function that a thread can start with: the module defines it, and it takes a pointer and
    /// returns one.
    pub fn is_start(&self, name: &Name) -> bool
        ensures { result ≡ is_start self.now.source.now (operand.Global name.now) }
    {
        match self.callees.defined(name) {
            Some(func) => takes_pointer(func),
            None => false,
        }
    }

    /// The function that a name stands for.
    pub fn callee(&self, name: &Name) -> Option<Callee<'m>>
        ensures { option_map callee_signature result ≡ signature_of self.now.source.now name.now }
    {
        self.callees.get(name)
    }
}
