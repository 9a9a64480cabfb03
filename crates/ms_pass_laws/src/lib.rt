//! The pass as a definition, and the theorem that the instrumented form of a module is faithful: its plain run is the
//! shadow run of the module. The definitions stand in `specs/`: the instrumented form, when a state of its plain run
//! follows a state of the shadow run, and what the pass must know of a module. Each law is a public function with an
//! empty body, and what it promises is the law; the lemmas in `proofs/` are there for crates above.
#![tactic(auto)]

pub mod faithful;
pub mod instructions;
pub mod steps;
