//! Calls that make uninitialised bytes: roots of a module.
ghost use Rattle.std.specs.Prelude.{◌≡◌, is_some, if◌then◌else◌, Some, None};
ghost use Rattle.ms_ir.specs.declared.syntax.Name.TheVariants as spelling;
ghost use Rattle.ms_ir.specs.declared.calls.External.TheVariants as external;
ghost use Rattle.ms_ir.specs.{Instructions.{func_index}, Names.{external_name}, Rooted.{kind_of, called_kind}};

use crate::{External, Func, Name, RootKind};

/// Whether one of these functions has a name.
fn defines(funcs: &[Func], name: &[u8]) -> bool
    ensures { result ≡ is_some (func_index funcs.now (spelling.Text name.now)) }
{
    for func in funcs {
        if func.name.is(name) {
            return true;
        }
    }
    false
}

/// The kind of root that a call of an external is, unless the module defines a function of its name.
fn unless(defined: bool, kind: RootKind) -> Option<RootKind>
    ensures { result ≡ if defined then None else Some kind }
{
    if defined { None } else { Some(kind) }
}

/// The functions of a module, and which of them have the name of an external that makes uninitialised bytes.
#[derive(Drop)]
pub struct Callees<'a> {
    /// The functions that the module defines.
    pub funcs: &'a [Func],
    /// Whether the module defines `malloc`, so that calls of it are no roots.
    malloc: bool,
    /// Whether it defines `realloc`.
    realloc: bool,
    /// Whether it defines `llvm.lifetime.start.p0`.
    lifetime_start: bool,
    ghost malloc_is: { malloc ≡ is_some (func_index funcs.now (external_name external.Malloc)) },
    ghost realloc_is: { realloc ≡ is_some (func_index funcs.now (external_name external.Realloc)) },
    ghost lifetime_is: { lifetime_start ≡ is_some (func_index funcs.now (external_name external.LifetimeStart)) },
}

impl<'a> Callees<'a> {
    /// The calls in a module with these functions.
    pub fn of(funcs: &'a [Func]) -> Self
        ensures { result.funcs.now ≡ funcs.now }
    {
        Callees {
            funcs,
            malloc: defines(funcs, b"malloc"),
            realloc: defines(funcs, b"realloc"),
            lifetime_start: defines(funcs, b"llvm.lifetime.start.p0"),
        }
    }

    /// Of which kind of root a call of an external is, if it is one.
    fn kind_of(&self, external: External) -> Option<RootKind>
        ensures { result ≡ if is_some (func_index self.now.funcs.now (external_name external)) then None else kind_of (Some external) }
    {
        match external {
            External::Malloc => unless(self.malloc, RootKind::Malloc),
            External::Realloc => unless(self.realloc, RootKind::Realloc),
            External::LifetimeStart => unless(self.lifetime_start, RootKind::Lifetime),
            _ => None,
        }
    }

    /// Of which kind of root a call is, if it is one. A function of the module is none, whatever its name.
    pub fn kind(&self, callee: &Name) -> Option<RootKind>
        ensures { result ≡ called_kind (func_index self.now.funcs.now) callee.now }
    {
        match External::named(callee) {
            Some(external) => self.kind_of(external),
            None => None,
        }
    }
}
