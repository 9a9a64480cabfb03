//! The words of the command line: the command that they ask for, or the first fault in them.
#![tactic(auto)]

mod clap_words;
mod commands;
pub mod examples;
mod fields;
mod help;
mod names;
mod reading;
mod texts;
mod topics;
mod values;
mod words;

pub use commands::{Command, Options, WordsError};
pub use help::{usage, version};
pub use words::read_words;
