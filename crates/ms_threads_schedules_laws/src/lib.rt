//! Schedules of runs of fibers: which of them pick alike, how they are explored so that none is left out and none is run twice, and
//! what a program does under each of them where those that were run are clean. Each law is a public function with an empty
//! body, and what it promises is the law.
#![tactic(auto)]

pub mod examples;
pub mod exploration;
pub mod followed;
pub mod promise;
pub mod trees;
