//! The clauses of a valid module that speak of its blocks, decided in a time near to linear in the module: each phi has an
//! operand for each edge into its block and no branch goes to an entry block, a function is `main`, and each use of a value
//! is defined on every path that leads to it. Each call returns the first fault in text order, as the clause lists them.
#![tactic(auto)]

mod arrivals;
mod counting;
mod edges;
mod faults;
mod func_uses;
mod graphs;
mod inst_uses;
mod mains;
mod numbers;
mod phis;
mod undefined;

pub use faults::first_bad_edge;
pub use mains::defines_main;
pub use undefined::{Undefined, first_undefined};
