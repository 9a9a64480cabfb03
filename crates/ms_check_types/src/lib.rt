//! Two of the clauses of a valid module: the operands have the types that are asked for, and each type that is written has a
//! size, where the globals fit into their memory. Each call is exact against the definition of its clause.
#![tactic(auto)]

mod bodies;
mod callees;
mod calls;
mod casts;
mod constants;
mod faults;
mod geps;
mod globals;
mod initialisers;
mod instructions;
mod jumps;
mod locals;
mod mismatch_search;
pub mod mismatches;
mod operands;
mod parts;
mod rows;
mod sized_bodies;
mod steps;
mod symbols;
mod typed;
mod types;
mod written;

pub use faults::first_unsized;
pub use mismatch_search::first_mismatch;
pub use mismatches::Mismatch;
