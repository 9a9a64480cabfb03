//! What lines of a module's text are made of: names, numbers, types, values, initialisers and words, each written token by token.
//! `put before tokens` is the text before with these tokens after it, and spaces between where they stand.
#![tactic(auto)]

mod inits;
mod names;
mod numbers;
mod spelling;
mod types;
mod values;
mod words;
mod writer;

pub use spelling::{push_name, push_number};
pub use words::{binary_word, cast_word, predicate_word};
pub use writer::Writer;
