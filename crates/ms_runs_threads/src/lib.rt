//! Runs of fibers under a schedule: what they are. A law is a public function with an empty body, and what it promises is
//! the law.
#![tactic(auto)]

pub mod schedules;
