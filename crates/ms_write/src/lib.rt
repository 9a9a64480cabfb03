//! The writer of modules, whose text `instrument` and `gen` print: line by line, of the tokens that `ms_write_values` writes.
#![tactic(auto)]

mod functions;
mod instructions;
mod modules;
mod operations;

pub use modules::write;
