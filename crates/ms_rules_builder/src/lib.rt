//! Rules as steps, and the machine that makes inserted instructions of them.
//!
//! A rule says by a table of steps in postfix order what a mask, an origin or an argument of a runtime function is. One
//! machine runs all of them: it puts words on a stack, and adds an instruction for each operation on them.
#![tactic(auto)]

mod arguments;
mod builder;
mod inputs;
mod names;
mod operands;
mod operations;
mod steps;
mod tracked;
mod unions;

pub use builder::Builder;
pub use inputs::Inputs;
pub use names::{mask_name, msan_name, origin_name, runtime_name};
pub use steps::{Operation, StackOp, Width};
pub use tracked::{Shadow, TrackedOperand};
pub use unions::{Widening, push_times, push_union};
