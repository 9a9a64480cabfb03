//! Which operands and bytes of an instruction are checked before it runs, and the kinds of such uses: for the rules of the pass,
//! and for what `explain` follows.
#![tactic(auto)]

pub mod kinds;
pub mod uses;
