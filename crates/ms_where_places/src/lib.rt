//! Where the functions, the instructions, the debug records and the nodes of metadata of a text stand: a `Mark` for each, which
//! has nothing to do with the mark of inserted instructions. For `--where`.
#![tactic(auto)]

mod entities;
mod inside;
mod laws;
mod marked_texts;
mod marks;

pub use entities::marks_in;
pub use laws::{law_instructions_are_told, law_marks_are_one};
pub use marked_texts::MarkedText;
pub use marks::{Mark, MarkKind};
