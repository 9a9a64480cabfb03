//! Readers of one function, proved exact against the grammar's pieces, and the calls with which a reader of modules reads
//! the parts of a text.
#![tactic(auto)]

mod body_state;
mod calls;
mod errors;
mod functions;
mod instructions;
mod line_starts;
mod lines;
mod open_blocks;
mod operation_rules;
mod parameter_lists;

pub use calls::{place_of, read_body, read_type, read_value, skip_attributes};
pub use errors::{ReadError, What, error_at};
pub use functions::{declaration, function, heading};
pub use line_starts::line_begins;
pub use lines::line;
pub use ms_ir::Form;
pub use ms_text_grammar::{Cause, Limit, Outside};
