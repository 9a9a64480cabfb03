//! Laws of runs with guest threads: of a step in two halves, up to what is due with its checks done, and what is due, between which
//! a fiber stands while others go on; of whole runs; and of two runs under two fills, up to their first report. Each law is a
//! public function with an empty body, and what it promises is the law.
#![tactic(auto)]

pub mod blind;
pub mod due;
pub mod fills;
pub mod followed;
pub mod rules;
pub mod undisturbed;
