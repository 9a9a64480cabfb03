//! Lists whose items several threads make, by fork and join: the same list as one thread makes. So the pass makes functions, and
//! `corpus` and the exploring of schedules make runs.
#![tactic(auto)]

mod gates;
mod halves;

pub use gates::{Gate, OpenGate};
pub use halves::{Split, Work, parallel_map};
