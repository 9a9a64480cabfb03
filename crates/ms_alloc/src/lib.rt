//! The table of allocations: which addresses are allocated, and by what.
//!
//! Memory has three areas that never meet: the globals, the heap and the stack. In each an allocation begins
//! where the one before it ends, so an address names its area, and the allocations of an area rise with the
//! order in which they were made. The table holds them; it holds no bytes.
#![tactic(auto)]

mod allocations;
mod areas;
mod errors;
mod kinds;
mod tables;

pub use allocations::{Allocation, TablePlace};
pub use areas::room_of;
pub use errors::{AllocError, BadFree};
pub use kinds::AllocKind;
pub use tables::Table;
