//! The code of the rules round one instruction, one table of steps for each, for `ms_rules`: masks and origins of results; checks
//! of uses, blind uses, and shadow and origins of memory. The `Builder` of `ms_rules_builder` makes inserted instructions of them.
#![tactic(auto)]

mod blind;
mod calls;
mod carries;
mod checks;
mod loads;
mod masks;
mod origins;
mod planes;
mod results;
mod rules;

pub use blind::count_blind;
pub use checks::check;
pub use planes::{save, update_shadow};
pub use results::define;
