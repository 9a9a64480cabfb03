//! The reader of whole texts, exact against the grammar of modules: entity after entity, each by the token that begins it.
#![tactic(auto)]

mod answers;
mod entities;
mod entity_starts;
mod function_entities;
mod global_variables;
mod left_out;
mod limits;
mod metadata_nodes;
mod module_state;
mod modules;
mod named_types;
mod other_entities;
mod reading;

pub use entities::entity;
pub use entity_starts::entity_begins;
pub use limits::max_tokens;
pub use modules::no_parts;
pub use reading::read;
