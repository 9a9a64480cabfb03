//! Readers of types and values, and of what is read over: tokens between brackets, attributes, and metadata after an instruction.
//! Each is proved exact against the piece of the grammar of its name; one that takes an allocator may also answer `NoMemory`.
//! `form` says which texts are read, `depth` how many arrays and structs may still open, `locals` whether a local may stand.
#![tactic(auto)]

mod attribute_lists;
mod attribute_words;
mod brackets;
mod inits;
mod metadata;
mod numbers;
mod offsets;
mod open_brackets;
mod operations;
mod suffix_lists;
mod types;
mod value_types;
mod values;

pub use attribute_lists::{attribute_rest, attributes, function_tail, linkage, string_value};
pub use attribute_words::{is_attribute, is_attribute_word};
pub use brackets::{balanced, in_parens};
pub use inits::init_to;
pub use metadata::{attached_by, attachments, kind_of, meta};
pub use numbers::number;
pub use offsets::{gep_words, index_type_of, offset};
pub use operations::{begins_expression, binary_op, cast_op};
pub use suffix_lists::{attached, suffix, suffixes, suffixes_from};
pub use types::{
    boxed_type, int_type, int_type_of, packed_brace, result_type, struct_type, type_to, value_type,
    value_type_of,
};
pub use value_types::{ScalarType, result_ty};
pub use values::{operand, value};
