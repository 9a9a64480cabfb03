//! What is looked up in a module, made once: names by their spelling, the numbers of blocks, and the sizes of types whose
//! named types are laid out once.
#![tactic(auto)]

mod capacity;
mod counted;
mod defined;
mod extents;
mod index;
pub mod inst_sites;
mod name_filters;
mod named;
mod named_layouts;
mod names;
mod numbers;
mod sought;
mod spelled;
mod table;
mod targets;
mod uses;
pub mod walk;

pub use counted::count_locals;
pub use defined::{
    blocks_of, declarations_of, functions_of, globals_of, locals_of, parameters_of, symbols_of,
    types_of,
};
pub use extents::Extents;
pub use inst_sites::InstSite;
pub use name_filters::{Pick, labels_of, push_code};
pub use named::Named;
pub use names::Names;
pub use numbers::{block_numbers, name_place};
pub use sought::Search;
pub use spelled::{Spelled, Unknown};
pub use table::NameTable;
pub use targets::{push_number, push_targets};
pub use uses::{Uses, first_among};
pub use walk::{Clause, first_fault, next_site};
