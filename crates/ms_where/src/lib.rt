//! Where each site of a module stands: its line in the text, and its positions in the source that the debug information names.
//! For `--where`, by which these lines follow each line that names a site. A mark is here a `Mark` of `ms_where_places`,
//! successive tokens that are one thing.
//!
//! In the text of `clang -O0 -g` neither an `alloca` nor the store of a parameter says where it stands in the source. The record
//! `#dbg_declare(ptr %x, ..)` in the same function does, for the variable at `%x` ("Source Level Debugging with LLVM", "Debug
//! Records").
#![tactic(auto)]

mod laws;
mod lines;
mod nodes;
mod positions;
mod sites;
mod source_map;
mod source_positions;
mod text_lines;
mod variable_locals;
mod variables;

pub use laws::law_lines_are_indented;
pub use nodes::Debug;
pub use positions::push_printed;
pub use source_map::SourceMap;
pub use variables::Variables;
