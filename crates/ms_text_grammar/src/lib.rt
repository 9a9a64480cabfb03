//! The text form of LLVM modules, written once as data. The grammar, in the two forms that this repository reads: what a text reads
//! as, and at which token, and why, it stops. The layout: which tokens a module is written as, and which bytes stand between them.
//! The readers are proved exact against the one, the writer against the other.
#![tactic(auto)]

pub mod laws;
pub mod layout_laws;
pub mod refusals;
pub mod states;
pub mod symbols;

pub use refusals::{Cause, Limit, Outside};
pub use states::{BodySoFar, Indices, ModuleSoFar, Parameters, PhiEdges};
pub use symbols::Symbol;
