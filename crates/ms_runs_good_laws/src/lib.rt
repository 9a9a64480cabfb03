//! Laws of good states, in which nothing is missing: each frame stands at an instruction, came there on a path and has the values
//! that this path defines, in the range of their types. The steps of a formed and valid module keep them. Each law is a public
//! function with an empty body, and what it promises is the law.
#![tactic(auto)]

pub mod effects;
pub mod masks;
pub mod reached;
pub mod runs;
pub mod states;
pub mod words;
