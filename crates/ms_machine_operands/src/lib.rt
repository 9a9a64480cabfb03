//! What operands, types and names come to in code: sources of words, widths and masks, sizes, addresses of globals, the
//! strides of a `getelementptr`, and the words of the constants in initialisers.
#![tactic(auto)]

mod addresses;
pub mod fields;
mod initial;
mod sources;
mod steps;
pub mod tables;
mod types;
mod widths;

pub use fields::{TypePart, part_at};
pub use initial::initial_words;
pub use sources::{name_place, source};
pub use steps::extended;
pub use tables::{Addresses, CodeTables, tables_of};
pub use types::size;
pub use widths::{greatest_of_width, stored_size, width_of};
