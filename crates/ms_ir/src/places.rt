//! Where instructions and roots stand in a module.

/// Where an instruction stands: the numbers, from 0, of its function in the module, of its basic block in the
/// function and of the instruction in the block.
#[derive(Clone, Copy, Debug, PartialEq, Eq)]
pub struct Place {
    pub func: u32,
    pub block: u32,
    pub inst: u32,
}

/// What makes uninitialised bytes or bits.
#[derive(Clone, Copy, Debug, PartialEq, Eq)]
pub enum RootKind {
    /// An `alloca`.
    Alloca,
    /// A call of `malloc`.
    Malloc,
    /// A call of `realloc`.
    Realloc,
    /// A call of `llvm.lifetime.start.p0`.
    Lifetime,
    /// An operand that is `undef` or `poison`.
    Undef,
}

/// A place in the module where uninitialised bytes or bits are made. A module's roots are counted from 1 in
/// written order.
#[derive(Clone, Copy, Debug, PartialEq, Eq)]
pub struct Root {
    /// What makes them there.
    pub kind: RootKind,
    /// The site of its instruction.
    pub site: u32,
}
