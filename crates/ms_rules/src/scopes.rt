//! What the rules look up: sizes of types, functions, the numbers of a function's values, which of them are clean. A function
//! has at most 2^30 values, a bound far above the limits on a text, so that their numbers can be doubled.
ghost use Rattle.std.specs.Prelude.{◌≡◌, ◌≤◌, ◌^◌, length};

use ms_check_tables::{Extents, NameTable};
use ms_ir::Name;

/// What is looked up in a module and in a function: the sizes of types, the names of the module's functions, the names of
/// the function's values in the order in which they are numbered, those that are known to be clean, and whether it is
/// `main`.
#[derive(Clone, Copy)]
pub struct Scope<'a, 'm> {
    pub extents: &'a Extents<'m>,
    /// The functions that the module defines.
    pub functions: &'a NameTable<'m>,
    /// All values of the function, each numbered by its place.
    pub values: &'a NameTable<'m>,
    /// Those of them of which nothing is computed.
    pub clean: &'a NameTable<'m>,
    /// The function is `main`.
    pub main: bool,
}

impl Scope<'_, '_> {
    ghost use Rattle.ms_rules.specs.Scopes.{env_of, unclean_number};

    /// The number of the function's value with a name, if there is one that isn't known to be clean.
    #[tactic(auto, using(crate::proofs::Numbers::number_low))]
    pub(crate) fn number(&self, name: &Name) -> Option<u32>
        requires { length self.now.values.now ≤ 2 ^ 30 }
        ensures { result ≡ unclean_number (env_of self.now) name.now }
    {
        if self.clean.place(name).is_some() {
            return None;
        }
        match self.values.place(name) {
            Some(place) => Some(place as u32),
            None => None,
        }
    }
}
