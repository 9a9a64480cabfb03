//! Runs of checked modules: the fiber and the world that a run starts with, how they go on from pause to pause, and what a
//! fiber shows at a pause.
//!
//! Each call says: where fiber and world before stand for a state of the plain run's definitions, fiber and world
//! afterwards stand for what the definitions make of it.
#![tactic(auto)]

mod callers;
mod inspect;
mod names;
mod places;
mod running;
mod spawning;
mod starting;
mod words;

pub use callers::{calls, calls_below};
pub use inspect::{frames, place, word};
pub use running::{advance, printed_types, resume};
pub use spawning::spawn;
pub use starting::start;
