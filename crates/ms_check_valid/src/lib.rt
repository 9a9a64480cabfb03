//! What formed and valid modules are: definitions in `specs/`, and laws about them, for the check, the pass and runs. A law is a
//! function with an empty body, and what it promises is the law.
#![tactic(auto)]

pub mod laws;
