//! Small types that every other crate is built of: lists, boxes and texts that contracts see by what
//! they hold, and words of 1 to 64 bits with the operations on them and the ways in which a run can trap.
#![tactic(auto)]

mod arithmetic;
mod bitwise;
pub mod boxes;
mod comparisons;
mod conversions;
mod division;
pub mod duplicate;
pub mod lists;
pub mod operations;
pub mod small_bytes;
pub mod texts;
pub mod thread_safety;
pub mod traps;
mod twos_complement;
mod undefined;
mod word_answers;
pub mod word_functions;
pub mod words;

pub use arithmetic::binary;
pub use boxes::Boxed;
pub use comparisons::compare;
pub use conversions::cast;
pub use duplicate::{Duplicate, NoMemory};
pub use lists::{Bytes, List, law_bytes_in_range, law_words_in_range};
pub use operations::{BinOp, CastOp, Flags, NO_FLAGS, Pred};
pub use small_bytes::SmallBytes;
pub use texts::Text;
pub use traps::Trap;
pub use undefined::undef_word;
pub use word_answers::{answer_word, move_bits};
pub use word_functions::{BitMove, WordFn, WordWidth};
pub use words::Word;
