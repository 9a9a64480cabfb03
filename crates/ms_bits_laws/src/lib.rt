//! Laws about the masks of poisoned words and about maps of bytes. Each is a public function with an empty body, and what
//! it promises is the law. The definitions stand in `ms_bits`; the lemmas in `proofs/` are there for crates above.
#![tactic(auto)]

pub mod bitwise;
pub mod casts;
pub mod completions;
pub mod examples;
pub mod maps;
pub mod orders;
pub mod selections;
pub mod shifts;
pub mod sums;
pub mod words;
