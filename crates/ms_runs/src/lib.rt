//! What a run of a module is given and returns, and what it means: the definitions that every contract on runs cites.
#![tactic(auto)]

pub mod copying;
pub mod formats;
pub mod runs;
pub mod thread_safety;

pub use formats::{Cut, Piece};
pub use runs::{BlindPlace, Calls, End, Origin, Report, RunResult, Setup};
