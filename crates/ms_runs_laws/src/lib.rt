//! Laws about the meaning of modules, of both runs, and that the plain run takes the steps of the shadow run. Each is a public
//! function with an empty body, and what it promises is the law. The definitions stand in `ms_runs`; the lemmas in `proofs/` are
//! there for crates above.
#![tactic(auto)]

pub mod followed;
pub mod numbered;
pub mod outputs;
pub mod places;
pub mod rules;
pub mod safety;
pub mod stripping;
