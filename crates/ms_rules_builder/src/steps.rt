//! The steps of which rules consist, each an operation of a machine with a stack.
use ms_bits::{CastOp, Pred};

/// An operation on two words that never traps.
#[derive(Clone, Copy)]
pub enum Operation {
    And,
    Or,
    Xor,
    Sub,
    Mul,
}

/// The width of words.
#[derive(Clone, Copy)]
pub enum Width {
    /// The width on which the rule works.
    Own,
    /// So many bits.
    Bits(u8),
}

/// A step of a rule. It puts a word on the stack, or takes words from it and puts what they come to.
#[derive(Clone, Copy)]
pub enum StackOp {
    /// The word of an operand, by its place from 0.
    Word(usize),
    /// The word of an operand as a number.
    Bits(usize),
    /// The mask of an operand.
    Mask(usize),
    /// The origin of an operand.
    Origin(usize),
    /// A number.
    Constant(u64),
    /// The word with all bits.
    Ones,
    /// The word with the sign bit alone.
    Sign,
    /// The inserted result with a number, which was made before.
    Inserted(u64),
    /// The result of the instruction round which code is inserted.
    Result,
    /// A word of so many bits as one of 64, with zeros before it.
    Widen(u8),
    /// A word of so many bits as one of 64, with copies of its sign bit before it.
    Extend(u8),
    /// An operation on two words.
    Two(Operation, Width),
    /// A comparison of two words, which gives a bit.
    Test(Pred, Width),
    /// By a bit, one of two words: the first where it is 1.
    Pick(Width),
    /// A cast of a word from one width to another.
    Turn(CastOp, Width, Width),
    /// A pointer as a number.
    ToNumber,
    /// A number as a pointer.
    ToPointer,
}
