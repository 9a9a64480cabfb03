//! The tokens of a text of LLVM's assembly language, and what a token's spelling says: its name or
//! its number.
//!
//! Beside them stands what the readers of a grammar share: grammars as data, with laws that hold of
//! every grammar.
#![tactic(auto)]

mod errors;
mod kinds;
mod laws;
mod lexer;
mod names;
mod numbers;
mod scan;
mod spellings;

pub use errors::{LexError, NoMemory};
pub use kinds::{Kind, Token};
pub use laws::{HasGrammar, law_reads_or_stops};
pub use lexer::{law_tokens_stand_in_order, tokens};
pub use names::{name_of, plain_name};
pub use numbers::{decimal, number_of};
pub use scan::is_name_byte;
