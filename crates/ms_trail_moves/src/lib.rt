//! Moves of poisoned bits in a run, and the way over them on which the bits of a use came: what they are, how the way is found,
//! and, for tests, checked. `explain` prints the hops of such a way.
#![tactic(auto)]

pub mod back;
pub mod checks;
pub mod edges;
pub mod moves;
pub mod searching;
pub mod sources;
pub mod ways;
