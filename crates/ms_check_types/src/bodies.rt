//! A function with what its names stand for: what every check of its types is given.

use crate::locals::Locals;
use crate::symbols::Symbols;

/// A function of a module, with what its names stand for.
#[derive(Drop)]
pub struct FuncTypes<'a, 'm> {
    /// What the names of its module stand for.
    pub symbols: &'a Symbols<'m>,
    /// The types of its own values, and its blocks.
    pub locals: &'a Locals<'m>,
}
