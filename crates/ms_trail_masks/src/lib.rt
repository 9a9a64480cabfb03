//! The masks of the words that code reads and makes, as code computes them: the formulas on numbers, and the masks that are
//! kept by number beside the values of a frame. The code is that by which the plain run goes: what it reads decides its masks.
//! For the traced run that `explain` makes.
#![tactic(auto)]

mod addresses;
mod edges;
pub mod laws;
mod mask_formulas;
mod masks;
mod results;
mod word_masks;
mod words;

pub use edges::read_masks;
pub use mask_formulas::{
    and_mask, carry_mask, combined, compare_mask, converted, ones, or_mask, select_mask,
};
pub use results::computed;
pub use word_masks::word_mask;
pub use words::{Seen, View, mask_of, read_word, value_of};
