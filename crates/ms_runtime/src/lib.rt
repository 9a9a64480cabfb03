//! The runtime functions, which inserted instructions call: they report uses of uninitialised bits, and keep the shadow
//! and the origins of memory; and whole runs of a module without thread calls.
#![tactic(auto)]

mod arguments;
mod memory;
mod places;
mod reports;
mod runs;
mod serving;
mod thread_results;

pub use places::BlindPlaces;
pub use reports::ReportLimit;
pub use runs::{Running, ToldRun, note_calls, run, run_told, start_run, told_calls, told_end};
pub use serving::serve;
pub use thread_results::thread_result;
