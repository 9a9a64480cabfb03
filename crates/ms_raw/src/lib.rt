//! Blocks of memory: the bytes of one allocation, a shadow byte for each of them, and an origin for each cell of four.
//!
//! A block is one region of raw memory, which it asks for once and gives back when it is dropped. Its three parts
//! stand at fixed distances, a multiple of four bytes. Raw pointers are read and written in the modules `memory`,
//! `bytes` and `cells`, and nowhere above them.
#![tactic(auto)]

mod blocks;
mod bytes;
mod cells;
mod memory;

pub use blocks::{Block, NoMemory};
