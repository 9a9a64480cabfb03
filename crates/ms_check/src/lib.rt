//! Whether a module is valid, decided in a time near to linear in the module, and modules that are known to be (`CheckedModule`).
//! The clauses on names stand here: each name is defined once, and each that is used is defined.
#![tactic(auto)]

mod checked;
mod clauses;
mod duplicates;
mod errors;
pub mod laws;
pub mod thread_safety;
mod twice;
mod unknowns;

pub use checked::{CheckedModule, check};
pub use duplicates::first_duplicate;
pub use errors::CheckError;
pub use unknowns::first_unknown;
