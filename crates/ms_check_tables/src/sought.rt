//! The first name that is sought in types, operands and initialisers. Which are sought, as the unknown ones, `Search` says.
ghost use Rattle.std.specs.Prelude.{◌≡◌, ◌++◌, [], ◌∷◌, Bool, flat_map};
ghost use Rattle.ms_ir.specs.Written.{Mention, OfType, OfLocal, OfGlobal, type_mentions, operand_mentions, init_mentions};
ghost use Rattle.ms_check_tables.specs.Sought.{first_sought};

use crate::spelled::Spelled;
use ms_bits::List;
use ms_ir::{Init, Name, Operand, Ty};

/// Which names are sought, where they are used. A name is asked for by its kind.
pub trait Search {
    /// Whether a name that is used is sought.
    ghost sought: { Self → Mention → Bool };

    /// Whether a type's name is sought.
    fn seeks_type(&self, name: &Name) -> bool
        ensures { result ≡ sought self.now (OfType name.now) };

    /// Whether a parameter's, a block's or a result's name is sought.
    fn seeks_local(&self, name: &Name) -> bool
        ensures { result ≡ sought self.now (OfLocal name.now) };

    /// Whether a global's, a declaration's or a function's name is sought.
    fn seeks_global(&self, name: &Name) -> bool
        ensures { result ≡ sought self.now (OfGlobal name.now) };
}

/// A type's name, if it is sought.
fn type_sought<'n, S: Search>(search: &S, name: &'n Name) -> Option<Spelled<'n>>
    ensures { result ≡ first_sought (S.sought search.now) (OfType name.now ∷ []) }
{
    if search.seeks_type(name) {
        Some(Spelled {
            global: false,
            name,
        })
    } else {
        None
    }
}

/// A local name, if it is sought.
pub fn local_sought<'n, S: Search>(search: &S, name: &'n Name) -> Option<Spelled<'n>>
    ensures { result ≡ first_sought (S.sought search.now) (OfLocal name.now ∷ []) }
{
    if search.seeks_local(name) {
        Some(Spelled {
            global: false,
            name,
        })
    } else {
        None
    }
}

/// The name of a global or function, if it is sought.
pub fn global_sought<'n, S: Search>(search: &S, name: &'n Name) -> Option<Spelled<'n>>
    ensures { result ≡ first_sought (S.sought search.now) (OfGlobal name.now ∷ []) }
{
    if search.seeks_global(name) {
        Some(Spelled { global: true, name })
    } else {
        None
    }
}

/// The first name that is sought in a type, in written order.
#[cycle(types)]
pub fn in_type<'n, S: Search>(search: &S, ty: &'n Ty) -> Option<Spelled<'n>>
    ensures { result ≡ first_sought (S.sought search.now) (type_mentions ty.now) }
{
    match ty {
        Ty::Int(_) => None,
        Ty::Ptr => None,
        Ty::Array(_, item) => in_type(search, item.get()),
        Ty::Struct(_, fields) => in_types(search, fields.as_slice()),
        Ty::Named(name) => type_sought(search, name),
    }
}

/// The first that is sought in the types of a struct's fields.
#[cycle(types)]
fn in_types<'n, S: Search>(search: &S, types: &'n [Ty]) -> Option<Spelled<'n>>
    ensures { result ≡ first_sought (S.sought search.now) (flat_map type_mentions types.now) }
{
    for ty in types {
        if let Some(spelled) = in_type(search, ty) {
            return Some(spelled);
        }
    }
    None
}

/// The first that is sought in the steps of a constant `getelementptr`, each a type and its indices: in those types alone.
fn in_steps<'n, S: Search>(search: &S, steps: &'n [(Ty, List<(Ty, u64)>)]) -> Option<Spelled<'n>>
    ensures { result ≡ first_sought (S.sought search.now) (flat_map (λ s. type_mentions s.0) steps.now) }
{
    for (ty, _) in steps {
        if let Some(spelled) = in_type(search, ty) {
            return Some(spelled);
        }
    }
    None
}

/// The first that is sought in an operand, in written order.
pub fn in_operand<'n, S: Search>(search: &S, operand: &'n Operand) -> Option<Spelled<'n>>
    ensures { result ≡ first_sought (S.sought search.now) (operand_mentions operand.now) }
{
    match operand {
        Operand::Local(name) => local_sought(search, name),
        Operand::Global(name) => global_sought(search, name),
        Operand::Offset(name, steps) => in_steps(search, steps.as_slice()).or(global_sought(
            search,
            name.get(),
        )),
        _ => None,
    }
}

/// The first that is sought in an initialiser, in written order.
#[cycle(initialisers)]
pub fn in_init<'n, S: Search>(search: &S, init: &'n Init) -> Option<Spelled<'n>>
    ensures { result ≡ first_sought (S.sought search.now) (init_mentions init.now) }
{
    match init {
        Init::Value(value) => in_operand(search, value),
        Init::Array(items) => in_items(search, items.as_slice()),
        Init::Struct(_, fields) => in_items(search, fields.as_slice()),
        Init::Zero => None,
        Init::Text(_) => None,
    }
}

/// The first that is sought in the items of an array or the fields of a struct, each with its type.
#[cycle(initialisers)]
fn in_items<'n, S: Search>(search: &S, items: &'n [(Ty, Init)]) -> Option<Spelled<'n>>
    ensures { result ≡ first_sought (S.sought search.now) (flat_map (λ i. type_mentions i.0 ++ init_mentions i.1) items.now) }
{
    for (ty, init) in items {
        if let Some(spelled) = in_type(search, ty).or(in_init(search, init)) {
            return Some(spelled);
        }
    }
    None
}
