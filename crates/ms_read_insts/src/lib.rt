//! Readers of the instructions and the terminators of a body, proved exact against the grammar's pieces. A rule reads what stands
//! after an instruction's first word; one that gives a `bool` besides also reads what is attached, and says whether that has the
//! mark of inserted instructions.
#![tactic(auto)]

mod call_ends;
mod calls;
mod computations;
mod control;
mod flags;
mod memory;
mod suffixes;

pub use calls::{call_rule, names_printf};
pub use computations::{binary_rule, cast_rule, compare_rule, freeze_rule, select_rule};
pub use control::{branch_rule, phi_rule, ret_rule, switch_rule};
pub use flags::{Carrier, flags_of};
pub use memory::{alloca_rule, gep_rule, load_rule, store_rule};
pub use suffixes::with_suffixes;
