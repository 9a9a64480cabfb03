//! Whether what stands for the outside of a module fits: the functions and globals that are kept for the runtime, the
//! externals, and the marks of inserted instructions.
#![tactic(auto)]

mod called;
mod flags;
mod marks;
mod outside;
mod slots;

pub use marks::first_bad_mark;
pub use outside::first_bad_external;
