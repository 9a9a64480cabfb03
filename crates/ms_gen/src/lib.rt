//! Generated modules for `gen` and for tests: valid inputs of any size, each from a number.
#![tactic(auto)]

mod draws;
pub mod examples;
mod functions;
mod instructions;
mod modules;

pub use modules::generate;
