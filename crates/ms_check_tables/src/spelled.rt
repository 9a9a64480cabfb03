//! The name that a fault of the check shows: with its sign `@` or `%`, and for an unknown one its site.
use ms_ir::Name;
use std::marker::Model;

/// A name of a module as it is spelled there.
#[derive(Debug, Drop)]
pub struct Spelled<'m> {
    /// Spelled with `@`, as a global, a declaration or a function; else with `%`.
    pub global: bool,
    pub name: &'m Name,
}

impl<'m> Model for Spelled<'m> {
    ghost use Rattle.ms_ir.specs.Locals.{Spelled as Spelling};

    ghost Value = { Spelling };

    ghost view = { λ s. record { global = s.global; name = s.name.now } };
}

/// A name that a module uses and doesn't define.
#[derive(Debug, Drop)]
pub struct Unknown<'m> {
    /// The site of the instruction that uses it; 0 outside functions.
    pub site: u32,
    pub spelled: Spelled<'m>,
}

impl<'m> Model for Unknown<'m> {
    ghost use Rattle.std.specs.Prelude.{ℕ};
    ghost use Rattle.ms_ir.specs.Locals.{Spelled as Spelling};

    ghost Value = { ℕ × Spelling };

    ghost view = { λ u. (u.site, u.spelled) };
}
