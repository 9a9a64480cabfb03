//! The list of moves of poisoned bits, and the moves of ranges of bytes: what a fill, a copy or a value that is set puts on it. For
//! the traced run of `ms_trail`.
#![tactic(auto)]

pub mod fills;
pub mod logs;
pub mod sets;
pub mod sources;
pub mod spans;
pub mod unsets;
