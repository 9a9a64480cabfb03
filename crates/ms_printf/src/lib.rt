//! `printf`: its format, cut into pieces, and the answer to a call.
//!
//! The answer walks along the format where it stands in memory, twice: what it prints is measured, and then printed. So
//! nothing is collected, however long the format and the strings are.
#![tactic(auto)]

mod answering;
mod arguments;
mod asking;
mod cutting;
mod directives;
mod parts;
mod printing;
mod shown;
mod texts;
mod walks;

pub use answering::{answer_printf, answer_typed};
pub use asking::asks_string;
pub use cutting::cut;
pub use ms_runs::{Cut, Piece};
