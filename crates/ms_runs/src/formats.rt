//! The format of `printf` as data (C standard library, "The fprintf function").

use ms_bits::{Bytes, List};

/// A piece of a format of `printf`: text or a directive.
#[derive(Debug, PartialEq, Eq, Drop)]
pub enum Piece {
    /// Bytes that are printed as they stand.
    Text(Bytes),
    /// `%d`: an `i32` as a signed decimal number.
    Dec32,
    /// `%u`: an `i32` as an unsigned decimal number.
    Udec32,
    /// `%x`: an `i32` in lower-case hexadecimal digits.
    Hex32,
    /// `%c`: the low byte of an `i32`.
    Char,
    /// `%s`: the string at a `ptr`.
    Str,
    /// `%ld`: an `i64` as a signed decimal number.
    Dec64,
    /// `%lu`: an `i64` as an unsigned decimal number.
    Udec64,
    /// `%lx`: an `i64` in lower-case hexadecimal digits.
    Hex64,
}

/// A format of `printf`, cut from left to right.
#[derive(Debug, PartialEq, Eq, Drop)]
pub struct Cut {
    /// Its pieces, up to its bad place if there is one.
    pub pieces: List<Piece>,
    /// Whether it has a `%` that no directive follows.
    pub bad: bool,
}
