//! What an operation calls: a function of the module, an external, or nothing.
ghost use Rattle.std.specs.Prelude.{◌≡◌, is_some, true, if◌then◌else◌};
ghost use Rattle.ms_ir.specs.Instructions.{external_named, is_root, makes_unset};
ghost use Rattle.ms_rules.specs.Callees.{IsCallee};
ghost use Rattle.ms_check_tables.specs.FirstPlace.{first_place};

use ms_check_tables::NameTable;
use ms_ir::{External, Name, Op};

/// What an operation calls: a function of the module, an external, or nothing.
#[derive(Clone, Copy)]
pub struct CalleeKind {
    /// It is a function of the module.
    pub own: bool,
    /// The external that it is, if it is one.
    pub external: Option<External>,
}

/// What a call of a name goes to, in a module with these functions.
fn named_callee(functions: &NameTable<'_>, name: &Name) -> CalleeKind
    ensures own { is_some (first_place functions.now name.now) ≡ result.own }
    ensures external { external_named (first_place functions.now) name.now ≡ result.external }
{
    match functions.place(name) {
        Some(_) => CalleeKind {
            own: true,
            external: None,
        },
        None => CalleeKind {
            own: false,
            external: External::named(name),
        },
    }
}

/// What an operation calls, in a module with these functions.
pub fn callee_of(functions: &NameTable<'_>, op: &Op) -> CalleeKind
    ensures { IsCallee (first_place functions.now) op.now result }
{
    match op {
        Op::Call { callee, .. } => named_callee(functions, callee),
        _ => CalleeKind {
            own: false,
            external: None,
        },
    }
}

/// Whether an external makes uninitialised bytes, so that a call of it is a root.
fn makes_unset(external: Option<External>) -> bool
    ensures { result ≡ makes_unset external }
{
    match external {
        Some(External::Malloc) => true,
        Some(External::Realloc) => true,
        Some(External::LifetimeStart) => true,
        _ => false,
    }
}

/// How many roots an operation is itself, besides its undefined operands: 1 where it makes uninitialised bytes, else 0.
pub fn own_roots(functions: &NameTable<'_>, callee: CalleeKind, op: &Op) -> u64
    requires { IsCallee (first_place functions.now) op.now callee }
    ensures { result ≡ if is_root (first_place functions.now) op.now then 1 else 0 }
{
    match op {
        Op::Alloca { .. } => 1,
        _ => u64::from(makes_unset(callee.external)),
    }
}
