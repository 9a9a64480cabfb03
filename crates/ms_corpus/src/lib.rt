//! Runs of one module on many inputs, for the command `corpus`, by several threads, with the same results as by one.
#![tactic(auto)]

mod jobs;
mod wanted;

pub use jobs::run_all;
pub use ms_fork::{Gate, OpenGate};
pub use wanted::{Wanted, run_wanted};
