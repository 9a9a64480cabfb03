//! Programs with threads. A thread is a fiber over one world, on one thread of the host, and a schedule that is handed in picks
//! which one goes on.
#![tactic(auto)]

mod calls;
mod instruments;
mod recorder;
mod runs;
mod searching;
mod thread_table;

pub use instruments::instrument_threads;
pub use recorder::{Choice, Recorder};
pub use runs::{RecordedRun, record_threads, run_threads, run_threads_told};
pub use searching::threaded;
