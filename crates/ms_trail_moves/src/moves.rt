//! Moves of poisoned bits, and ways over them, as data.

use ms_ir::Name;

/// Where poisoned bits come from.
#[derive(Debug, PartialEq, Eq, Drop)]
pub enum Source {
    /// The root with a number.
    Root { number: u32 },
    /// A value of the frame with a number; frames are numbered from 0 as they are made.
    Value { frame: u64, name: Name },
    /// The byte at an address.
    Byte { addr: u64 },
}

/// What poisoned bits are written to.
#[derive(Debug, PartialEq, Eq, Drop)]
pub enum Target {
    /// A value of the frame with a number, as in `Source`.
    Value { frame: u64, name: Name },
    /// Bytes that follow one another.
    Bytes { addr: u64, len: u64 },
}

/// A step that writes poisoned bits: which one, where they go, and where they come from.
#[derive(Debug, PartialEq, Eq, Drop)]
pub struct Move {
    /// The number of the step, from 0.
    pub event: u64,
    /// The site of the step's instruction, or of a phi.
    pub site: u32,
    /// Where they come from; where bytes come from a byte, each one comes from the byte at its distance: the k-th of the target
    /// from that k bytes after the source.
    pub from: Source,
    pub to: Target,
}

/// One step of a way: a move, and which byte of its target is meant; 0 for a value.
#[derive(Clone, Copy, Debug, PartialEq, Eq)]
pub struct Hop {
    /// The place of the move, counted from 0.
    pub index: u32,
    /// The byte of the target, counted from 0.
    pub byte: u64,
}
