//! The chained origins of a run: from which write to which the uninitialised bits of a value came. Each run of
//! `ms_runtime` has a `Depot`.
#![tactic(auto)]

mod depot;

pub use depot::Depot;
