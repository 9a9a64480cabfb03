//! The names of the operations on words (LLVM Language Reference, "Binary Operations", "Bitwise Binary
//! Operations", "Conversion Operations" and "'icmp' Instruction").

/// The operations on two words of one width.
#[derive(Clone, Copy, Debug, PartialEq, Eq)]
pub enum BinOp {
    Add,
    Sub,
    Mul,
    Udiv,
    Sdiv,
    Urem,
    Srem,
    Shl,
    Lshr,
    Ashr,
    And,
    Or,
    Xor,
}

/// The predicates of `icmp`. The unsigned ones begin with `U`, the signed ones with `S`.
#[derive(Clone, Copy, Debug, PartialEq, Eq)]
pub enum Pred {
    Eq,
    Ne,
    Ugt,
    Uge,
    Ult,
    Ule,
    Sgt,
    Sge,
    Slt,
    Sle,
}

/// The casts. `Bitcast` is between equal types alone.
#[derive(Clone, Copy, Debug, PartialEq, Eq)]
pub enum CastOp {
    Trunc,
    Zext,
    Sext,
    PtrToInt,
    IntToPtr,
    Bitcast,
}

/// The flags that an instruction carries. A flag that its operation cannot carry is not looked at.
#[derive(Clone, Copy, Debug, PartialEq, Eq)]
pub struct Flags {
    /// No unsigned wrap: `add`, `sub`, `mul`, `shl`, `trunc`.
    pub nuw: bool,
    /// No signed wrap: `add`, `sub`, `mul`, `shl`, `trunc`.
    pub nsw: bool,
    /// Nothing is lost: `udiv`, `sdiv`, `lshr`, `ashr`.
    pub exact: bool,
    /// No bit is 1 in both operands: `or`.
    pub disjoint: bool,
    /// The operand isn't negative: `zext`.
    pub nneg: bool,
    /// The operands have the same sign: `icmp`.
    pub samesign: bool,
}

/// No flag is set.
pub const NO_FLAGS: Flags = Flags {
    nuw: false,
    nsw: false,
    exact: false,
    disjoint: false,
    nneg: false,
    samesign: false,
};
