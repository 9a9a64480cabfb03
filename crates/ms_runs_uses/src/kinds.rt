//! The kinds of uses that are checked, by the numbers that reports have of them.

/// The condition of a branch, or what `llvm.assume` is given.
pub const BRANCH: u32 = 1;

/// The value of a `switch`.
pub const SWITCH: u32 = 2;

/// The address of a load or store.
pub const ADDRESS: u32 = 3;

/// The divisor of a division.
pub const DIVISOR: u32 = 4;

/// A number of bytes or of items.
pub const SIZE: u32 = 5;

/// An argument of an external that is an address.
pub const POINTER: u32 = 6;

/// An argument of an external that is another word.
pub const VALUE: u32 = 7;

/// What `main` returns, or what `exit` is called with.
pub const EXIT: u32 = 8;

/// A byte that `write` is given.
pub const OUTPUT: u32 = 9;

/// A byte of a string.
pub const STRING: u32 = 10;

/// A byte of the first range of `memcmp`.
pub const FIRST_BYTES: u32 = 11;

/// A byte of the second range of `memcmp`.
pub const SECOND_BYTES: u32 = 12;
