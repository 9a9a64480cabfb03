//! Functions that are called, by the module's definition or declaration (LLVM Language Reference, "Functions"), each
//! found by its name as `NameTable` finds it.
ghost use Rattle.std.specs.{Prelude.{◌≡◌, [], ◌∷◌, IfOk, length, map, option_map, slice_get}, Option.{option_copied}};
ghost use Rattle.ms_ir.specs.{Equal.{has_name, types_eq}, Locals.{declared_names, function_names}};
ghost use Rattle.ms_ir.specs.declared.syntax.Ty.{Ptr};
ghost use Rattle.ms_ir.specs.Signatures.{signature_eq, answers, func_signature, signature_of, defined_signature, declared_signature};
ghost use Rattle.ms_check_types.specs.Callees.{callee_signature};

use crate::rows::row_of;
use crate::types::is_pointer;
use ms_bits::NoMemory;
use ms_check_tables::{NameTable, declarations_of, functions_of};
use ms_ir::{Decl, Func, Module, Name, Ty};
use std::alloc::Global;

/// A function that a module defines or declares.
#[derive(Clone, Copy)]
pub enum Callee<'m> {
    Defined(&'m Func),
    Declared(&'m Decl),
}

impl<'m> Callee<'m> {
    /// The type of its result; none is `void`.
    pub fn result(&self) -> &'m Option<Ty>
        ensures { result.now ≡ (callee_signature self.now).ret }
    {
        match self {
            Callee::Defined(func) => &func.ret,
            Callee::Declared(decl) => &decl.ret,
        }
    }

    /// The type of the parameter at a place, counted from 0.
    pub fn parameter(&self, place: usize) -> Option<&'m Ty>
        ensures { option_copied result ≡ slice_get (callee_signature self.now).params place }
    {
        match self {
            Callee::Defined(func) => match func.params.as_slice().get(place) {
                Some((ty, _)) => Some(ty),
                None => None,
            },
            Callee::Declared(decl) => decl.params.as_slice().get(place),
        }
    }

    /// The number of parameters.
    pub fn count(&self) -> usize
        ensures { result ≡ length (callee_signature self.now).params }
    {
        match self {
            Callee::Defined(func) => func.params.as_slice().len(),
            Callee::Declared(decl) => decl.params.as_slice().len(),
        }
    }
}

/// Whether a function's parameters are one pointer.
fn is_one_pointer(params: &[(Ty, Name)]) -> bool
    ensures { result ≡ types_eq (map (λ p. p.0) params.now) (Ptr ∷ []) }
{
    match params {
        [(ty, _)] => is_pointer(ty),
        _ => false,
    }
}

/// Whether a function takes a pointer, and returns one, as the first function of a thread does.
pub fn takes_pointer(func: &Func) -> bool
    ensures { result ≡ signature_eq (func_signature func.now) (answers Ptr (Ptr ∷ [])) }
{
    match &func.ret {
        Some(ret) => is_pointer(ret) && is_one_pointer(func.params.as_slice()),
        None => false,
    }
}

/// The functions of a module, with the places of their names.
#[derive(Drop)]
pub struct FuncTable<'m> {
    /// The module.
    pub source: &'m Module,
    /// The names that it declares.
    decls: NameTable<'m>,
    /// The names that it defines.
    funcs: NameTable<'m>,
    ghost decls_are: { decls ≡ declared_names source.now },
    ghost funcs_are: { funcs ≡ function_names source.now },
}

impl<'m> FuncTable<'m> {
    /// The functions of a module.
    pub fn of(alloc: Global, m: &'m Module) -> Result<FuncTable<'m>, NoMemory>
        ensures { IfOk result (λ callees. callees.source.now ≡ m.now) }
    {
        let decls = declarations_of(alloc, m)?;
        let funcs = functions_of(alloc, m)?;
        Ok(FuncTable {
            source: m,
            decls,
            funcs,
        })
    }

    /// Whether the module declares a function with a name.
    pub fn declares(&self, name: &Name) -> bool
        ensures { result ≡ has_name (declared_names self.now.source.now) name.now }
    {
        self.decls.contains(name)
    }

    /// The function that a name stands for: the one that is defined, else the one that is declared.
    pub fn get(&self, name: &Name) -> Option<Callee<'m>>
        ensures { option_map callee_signature result ≡ signature_of self.now.source.now name.now }
    {
        match row_of(&self.funcs, self.source.funcs.as_slice(), name) {
            Some(func) => Some(Callee::Defined(func)),
            None => self.declared(name),
        }
    }

    /// The defined function that a name stands for.
    pub fn defined(&self, name: &Name) -> Option<&'m Func>
        ensures { option_map (λ f. func_signature f.now) result ≡ defined_signature self.now.source.now.funcs name.now }
    {
        row_of(&self.funcs, self.source.funcs.as_slice(), name)
    }

    /// The declared function that a name stands for.
    fn declared(&self, name: &Name) -> Option<Callee<'m>>
        ensures { option_map callee_signature result ≡ declared_signature self.now.source.now.decls name.now }
    {
        match row_of(&self.decls, self.source.decls.as_slice(), name) {
            Some(decl) => Some(Callee::Declared(decl)),
            None => None,
        }
    }
}
