//! What a token is: its kind, and the bytes of the text that it takes.

/// What a token is. Where several fit at one place, the first in this order is taken.
#[derive(Clone, Copy, Debug, PartialEq, Eq)]
pub enum Kind {
    /// A run of name bytes or a string, with the `:` directly after it, as `entry:` or `"a b":`.
    Label,
    /// `c` with the string directly after it, as `c"abc\00"`.
    CText,
    /// A string, as `"abc"`.
    Str,
    /// A decimal number with or without a minus sign, as `-5`.
    Number,
    /// A run of name bytes that begins with a letter or `_`, as `i32` or `getelementptr`.
    Word,
    /// Any other run of name bytes, as `1.5` or `...`.
    Other,
    /// `@` with a run of name bytes or a string directly after it, as `@main`.
    Global,
    /// `%` with a run of name bytes or a string directly after it, as `%5`.
    Local,
    /// `!` with a run of name bytes directly after it, as `!0`.
    Meta,
    /// `#` with a run of name bytes directly after it, as `#0`.
    Group,
    /// One of `( ) [ ] { } < > , = * ! |`.
    Punct,
}

/// A token of a text: the bytes from `start` up to but not including `end`, counted from 0.
#[derive(Clone, Copy, Debug, PartialEq, Eq)]
pub struct Token {
    /// What the token is.
    pub kind: Kind,
    /// The place of its first byte.
    pub start: u32,
    /// The place after its last byte.
    pub end: u32,
}
