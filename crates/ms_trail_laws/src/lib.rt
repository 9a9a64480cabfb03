//! Laws of the moves of poisoned bits: the moves of a step are all that it poisons, and of every run with a report there is a
//! way over its moves from a root that the run has reached to what the report's use reads. Each law is a public function with
//! an empty body, and what it promises is the law.
#![tactic(auto)]

pub mod ways;
