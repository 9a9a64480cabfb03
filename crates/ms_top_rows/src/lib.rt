//! Rows of tests as texts, and what runs them: calls of `msan` over files and sinks in memory. `told` tells the format of a row: begin
//! there to add one.
#![tactic(auto)]

pub mod alike;
pub mod calls;
pub mod failing;
pub mod modules;
pub mod told;
