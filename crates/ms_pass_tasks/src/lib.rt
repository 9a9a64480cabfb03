//! What is inserted round each instruction, as a small language: its meaning, the marked instructions that it becomes,
//! and the lists for every instruction and external. The definitions stand in `specs/`. The laws say that the inserted
//! code does what a step of the shadow run does beside the instruction itself. Each is a public function with an empty
//! body, and what it promises is the law; the lemmas in `proofs/` are there for crates above.
#![tactic(auto)]

pub mod handing;
pub mod instructions;
pub mod jumps;
pub mod language;
