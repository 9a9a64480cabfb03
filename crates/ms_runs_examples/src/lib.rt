//! Example modules, and what the prover computes of them: as what their texts are read, how they are written, which of them are
//! valid, how they run, plain, with their masks and with threads, from where their poisoned bits come, and what is inserted.
//! The expected values are worked out by hand. They show what the definitions say where a whole program puts them together.
//!
//! This crate is the last: nothing but tests may use it, so that to change an example is cheap.
#![tactic(auto)]

pub mod chains;
pub mod elided;
pub mod faults;
pub mod formats;
pub mod forms;
pub mod inserted;
pub mod masks;
pub mod moves;
pub mod origins;
pub mod plain_runs;
pub mod runs;
pub mod shadow_runs;
pub mod texts_read;
pub mod texts_that_fit;
pub mod texts_written;
pub mod thread_runs;
pub mod told_runs;
pub mod validity;
