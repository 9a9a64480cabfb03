//! The memory of a run: which addresses are allocated, and for each of them a byte, a shadow byte and, by cells of
//! four bytes, an origin.
#![tactic(auto)]

mod copies;
mod origins;
mod parts;
mod planes;
pub mod words;

pub use planes::Planes;
