//! What is inserted round one instruction, for `ms_pass`, which goes through a module: a list before the instruction and one after
//! it. `ms_rules_tables` has the rules.
#![tactic(auto)]

mod after;
mod around;
mod before;
mod callees;
mod clean;
mod copies;
mod edges;
mod entries;
mod phis;
mod roots;
mod scopes;
mod single;
mod tracked;
mod values;

pub use around::push_inst;
pub use entries::push_parameters;
pub use roots::root_count;
pub use scopes::Scope;
pub use single::{Emitted, Env, emit};
pub use values::values_of;
