//! What `explain` follows: a traced run, which runs a module, computes the mask of each value beside it and logs each move of
//! poisoned bits, up to the first report. Each kind of instruction takes its step in a method of `TracedRun`.
#![tactic(auto)]

mod calls;
pub mod due;
mod externals;
pub mod found;
mod jumps;
pub mod laws;
mod memory;
mod results;
mod steps;
mod traced_run;
pub mod traces;
pub mod words;

pub use ms_trail_moves::checks::check_trail;
pub use ms_trail_moves::moves::{Hop, Move, Source, Target};
pub use ms_trail_moves::searching::trail;
