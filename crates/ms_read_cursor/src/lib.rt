//! A cursor over the tokens of a text, and the loops and lists of every reader, proved exact against the grammar's pieces.
//!
//! Contracts of readers say: `Gives (run piece before) answer after`: of the tokens before it a reader takes what the piece
//! takes, and answers what the piece gives, or why it stops; `Leaves`: so does one that adds to a value; `Judges verdict answer`:
//! it answers what is said of one token.
#![tactic(auto)]

mod cursor;
mod decimals;
mod lexemes;
mod lists;
mod names;
mod outside;
mod series;
mod symbols;
mod turns;
mod words;

pub use cursor::Tokens;
pub use decimals::{decimal, is_digits};
pub use lexemes::Lexeme;
pub use lists::{Rule, push, single, with_last};
pub use names::{
    global, global_by, global_name, local, local_by, local_name, name_fits, number_name,
    reserved_global, reserved_local,
};
pub use series::{Series, listed};
pub use symbols::{same_symbol, symbol_of};
pub use turns::{Turn, repeat};
