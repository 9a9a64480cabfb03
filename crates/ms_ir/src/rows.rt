//! The rows of a table of functions, and how one is found by its name. The tables are those of the externals (`externals.rt`), of
//! the runtime functions and of those that move bits (`runtime.rt`).
ghost use Rattle.std.specs.{Prelude.{◌≡◌, map, option_map, IfOk}, Option.{option_copied}};
ghost use Rattle.ms_ir.specs.declared.syntax.Name.TheVariants as spelling;
ghost use Rattle.ms_ir.specs.{Names.{lookup}, Equal.{type_eq, types_eq, result_type_eq}};
ghost use Rattle.ms_ir.specs.Signatures.{decl_signature, signature_eq, answers};
ghost use Rattle.ms_ir.specs.Rows.{by_name, by_kind, kind_type, row_signature, row_declaration};

use crate::syntax::{Decl, Name, Ty};
use ms_bits::{List, NoMemory, SmallBytes};
use std::alloc::Global;

/// A type that a function of a table takes or returns.
#[derive(Clone, Copy, Debug, PartialEq, Eq)]
pub enum ParamType {
    /// `ptr`.
    Ptr,
    /// `iN` by its width in bits.
    Int(u8),
}

/// A function of a table.
pub struct SignatureRow<F> {
    /// Its name.
    pub name: &'static [u8],
    /// The function as a variant.
    pub is: F,
    /// What it returns; none is `void`.
    pub ret: Option<ParamType>,
    /// What it takes.
    pub params: &'static [ParamType],
}

impl ParamType {
    /// The type.
    pub fn ty(self) -> Ty
        ensures { result ≡ kind_type self }
    {
        match self {
            ParamType::Ptr => Ty::Ptr,
            ParamType::Int(width) => Ty::Int(width),
        }
    }

    /// Whether a type is this one.
    pub fn is(self, ty: &Ty) -> bool
        ensures { result ≡ type_eq ty.now (kind_type self) }
    {
        match (ty, self) {
            (Ty::Ptr, ParamType::Ptr) => true,
            (Ty::Int(n), ParamType::Int(width)) => *n == width,
            _ => false,
        }
    }
}

/// Whether a type, or none for `void`, is what a function returns.
fn is_result(ret: Option<ParamType>, ty: &Option<Ty>) -> bool
    ensures { result ≡ result_type_eq ty.now (option_map kind_type ret) }
{
    match (ty, ret) {
        (None, None) => true,
        (Some(ty), Some(kind)) => kind.is(ty),
        _ => false,
    }
}

/// Whether these types of parameters are those that a function takes.
fn are_params(kinds: &[ParamType], params: &[Ty]) -> bool
    ensures { result ≡ types_eq params.now (map kind_type kinds.now) }
{
    if params.len() != kinds.len() {
        return false;
    }
    for (i, param) in params.iter().enumerate() {
        if !kinds[i].is(param) {
            return false;
        }
    }
    true
}

/// The types that a function takes.
fn types_of(alloc: Global, kinds: &[ParamType]) -> Result<List<Ty>, NoMemory>
    ensures { IfOk result (λ ts. ts ≡ map kind_type kinds.now) }
{
    let mut types = Vec::with_capacity(alloc, kinds.len())?;
    for kind in kinds {
        types.push(kind.ty())?;
    }
    Ok(List::from_vec(types))
}

/// The name that a text is.
pub fn name_of(alloc: Global, text: &[u8]) -> Result<Name, NoMemory>
    ensures { IfOk result (λ x. x ≡ spelling.Text text.now) }
{
    Ok(Name::Text(SmallBytes::from_slice(alloc, text)?))
}

/// Whether a declaration has the types of a function that returns and takes these.
pub fn are_types(ret: ParamType, params: &[ParamType], decl: &Decl) -> bool
    ensures { result ≡ signature_eq (decl_signature decl.now) (answers (kind_type ret) (map kind_type params.now)) }
{
    is_result(Some(ret), &decl.ret) && are_params(params, decl.params.as_slice())
}

impl<F> SignatureRow<F> {
    /// Whether a declaration has the types of the function.
    pub fn has_types_of(&self, decl: &Decl) -> bool
        ensures { result ≡ signature_eq (decl_signature decl.now) (row_signature self.now) }
    {
        is_result(self.ret, &decl.ret) && are_params(self.params, decl.params.as_slice())
    }

    /// What the function returns; none is `void`.
    pub fn result_type(&self) -> Option<Ty>
        ensures { result ≡ (row_signature self.now).ret }
    {
        match self.ret {
            Some(kind) => Some(kind.ty()),
            None => None,
        }
    }

    /// The function as it is declared.
    pub fn declaration(&self, alloc: Global) -> Result<Decl, NoMemory>
        ensures { IfOk result (λ d. d ≡ row_declaration self.now) }
    {
        let name = name_of(alloc, self.name)?;
        let params = types_of(alloc, self.params)?;
        Ok(Decl {
            name,
            ret: self.result_type(),
            params,
        })
    }
}

/// The functions of a table as they are declared: those of the runtime, which the pass adds to a module.
pub fn declarations_of<F>(alloc: Global, rows: &[SignatureRow<F>]) -> Result<List<Decl>, NoMemory>
    ensures { IfOk result (λ ds. ds ≡ map row_declaration rows.now) }
{
    let mut declarations = Vec::with_capacity(alloc, rows.len())?;
    for row in rows {
        declarations.push(row.declaration(alloc)?)?;
    }
    Ok(List::from_vec(declarations))
}

/// The row with a text as its name, if there is one.
fn find<'r, F>(rows: &'r [SignatureRow<F>], text: &[u8]) -> Option<&'r SignatureRow<F>>
    ensures { option_copied result ≡ lookup (by_name rows.now) (spelling.Text text.now) }
{
    for row in rows {
        if row.name == text {
            return Some(row);
        }
    }
    None
}

/// Which function of a table has a text as its name, if there is one.
pub fn named<F: Copy>(rows: &[SignatureRow<F>], text: &[u8]) -> Option<F>
    ensures { result ≡ lookup (by_kind rows.now) (spelling.Text text.now) }
{
    match find(rows, text) {
        Some(row) => Some(row.is),
        None => None,
    }
}
