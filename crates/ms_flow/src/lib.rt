//! Whether each use of a value is defined on every path that leads to it, over a graph of numbers: for `ms_check_flow`, which
//! asks it of the functions of a module.
//!
//! The caller numbers the blocks and the values of a function as it likes; block 0 is where each path begins. What passes one
//! value at a time is a walk along edges; here sixty-four values go at a time, one bit of a word each, and the words of the
//! blocks grow until no edge adds to them.
#![tactic(auto)]

mod dataflow;
mod definitions;
mod graphs;
mod orders;
mod places;
mod questions;
mod spread;
mod trails;
mod visits;

pub use dataflow::missing;
pub use graphs::{Graph, Missing, Use};
