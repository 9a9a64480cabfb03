//! The ways in which a run traps.

/// Why a run trapped, in the order in which the causes are tested within one instruction.
#[derive(Clone, Copy, Debug, PartialEq, Eq)]
pub enum Trap {
    /// A shift by the width or more.
    Shift,
    /// A divisor is 0.
    ZeroDivisor,
    /// A count of zeros of 0, where its flag says that this is poison.
    ZeroPoison,
    /// `sdiv` or `srem` of the least number by -1.
    Overflow,
    /// A violated `nuw`.
    Nuw,
    /// A violated `nsw`.
    Nsw,
    /// A violated `exact`.
    Exact,
    /// A violated `disjoint`.
    Disjoint,
    /// A violated `nneg`.
    Nneg,
    /// A violated `samesign`.
    Samesign,
    /// An access outside every live allocation, or a string without an end in its allocation.
    BadAddress,
    /// `free` or `realloc` of what is no live heap block.
    BadFree,
    /// A format of `printf` that is none.
    Format,
    /// The stack's limit would be passed.
    Stack,
    /// The limit of frames would be passed.
    Depth,
    /// No fiber can go on.
    Deadlock,
    /// The limit of the output would be passed.
    Output,
    /// An `unreachable` runs.
    Unreachable,
    /// A call of `abort`.
    Abort,
}
