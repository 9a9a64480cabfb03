//! The names by which `needs.rt` numbers the values of a function.

use ms_check_tables::NameTable;

/// What is looked up in a module and in a function: the names of the module's functions, and those of the function's
/// parameters, blocks and results, by whose places they are numbered.
#[derive(Clone, Copy)]
pub struct FuncNames<'a, 'm> {
    /// The functions that the module defines.
    pub functions: &'a NameTable<'m>,
    /// The function's parameters, blocks and results.
    pub locals: &'a NameTable<'m>,
}
