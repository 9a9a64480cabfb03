//! Laws of runs with guest threads, as strong as those of one fiber: their states are good and their ends have sites, no run
//! poisons a clean value, poisoned bits come from what a run has reached, and bits outside masks are certain. Each law is a
//! public function with an empty body, and what it promises is the law.
#![tactic(auto)]

pub mod blind;
pub mod certain;
pub mod origins;
pub mod states;
