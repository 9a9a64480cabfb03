//! Where a fault in types is: the site, and the operand.

/// An operand that doesn't have the type that is asked for, or another fault in types that is counted as one.
#[derive(Clone, Copy, Debug, PartialEq, Eq)]
pub struct Mismatch {
    /// The site of the instruction: 1 plus the number of unmarked instructions before it in the text. 0 for a global's
    /// initialiser.
    pub site: u32,
    /// The number of the operand, counted from 0 in written order; for an initialiser that of the global.
    pub operand: u32,
}
