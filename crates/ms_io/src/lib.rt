//! The outside of the tool: named files that are read whole, and sinks that bytes are put to.
//!
//! [`Files`] and [`Sink`] are the two traits. Everything above is generic over them, and is proved once for
//! every implementation from what the traits say. There are three of each:
//!
//! - [`MemFiles`] and [`MemSink`] stand in memory, tell all that they hold, and fail where a test wants it;
//! - [`SureFiles`] and [`SureSink`] never fail;
//! - [`RealFiles`] and [`RealSink`] stand over the file system and over a writer of std. They are the
//!   trusted edge: that the bytes which the operating system gives are those of the named file, and that
//!   the bytes which it takes reach their end, is no clause of theirs and of nobody above.
#![tactic(auto)]

mod memory_files;
mod memory_sinks;
mod real;
mod traits;

pub use memory_files::{MemFiles, SureFiles};
pub use memory_sinks::{MemSink, SureSink};
pub use real::{RealFiles, RealSink};
pub use traits::{FileError, Files, Sink, SinkFailed};
