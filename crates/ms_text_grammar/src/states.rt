//! What readers have read so far, between two turns of a list or of a body.

use ms_bits::List;
use ms_ir::{Block, Inst, Module, Name, Operand, Ty};

/// The edges of a phi, as far as they are read. A comma begins either an edge or the metadata after the phi.
#[derive(Drop)]
pub struct PhiEdges {
    /// Each value with the block that control comes from.
    pub found: List<(Operand, Name)>,
    /// A comma was read, and no edge stands after it.
    pub ended: bool,
}

/// The indices of a `getelementptr`, or the count of an `alloca`. A comma begins either an index or the metadata after
/// the instruction.
#[derive(Drop)]
pub struct Indices {
    /// Each with its type; of an `alloca`'s count none or one.
    pub found: List<(Ty, Operand)>,
    /// A comma was read, and no index stands after it.
    pub ended: bool,
}

/// The parameters of a function.
#[derive(Drop)]
pub struct Parameters {
    /// The type and the name of each.
    pub found: List<(Ty, Name)>,
    /// The number of the next unnamed parameter or block.
    pub next: u32,
    /// `...` was read, after the one parameter of a declared `printf`.
    pub dots: bool,
}

/// The body of a function, as far as it is read.
#[derive(Drop)]
pub struct BodySoFar {
    /// The blocks that have ended.
    pub blocks: List<Block>,
    /// The name of the open block; none after a terminator.
    pub name: Option<Name>,
    /// The instructions of the open block.
    pub insts: List<Inst>,
    /// The number of the next unnamed value or block.
    pub next: u32,
    /// The instructions of the text so far.
    pub count: u32,
    /// Whether a phi may still come in the open block.
    pub phis: bool,
}

/// The entities of a module, as far as they are read.
#[derive(Drop)]
pub struct ModuleSoFar {
    /// The module of these entities.
    pub module: Module,
    /// The instructions of its functions.
    pub count: u32,
}
