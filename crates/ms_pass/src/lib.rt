//! The pass: shadow code is inserted into a module, after Stepanov and Serebryany (CGO 2015). It makes what `check` runs and
//! `instrument` writes.
#![tactic(auto)]

mod blocks;
mod counts;
mod functions;
mod instruments;
mod insts;
mod modules;

pub use instruments::{instrument, instrumented};
pub use ms_fork::{Gate, OpenGate};
