//! The graph, the uses that are asked about, and the answer.
ghost use Rattle.std.specs.Prelude.{◌≡◌, ◌<◌, [], length, slice_index_or};

use ms_bits::List;

/// Blocks with their successors and their definitions. Both lists have an entry for each block.
#[derive(Debug, Drop)]
pub struct Graph {
    /// For each block, the blocks to which it may go.
    pub next: List<List<u32>>,
    /// For each block, the values that it defines.
    pub defs: List<List<u32>>,
}

/// A use of a value in a block.
#[derive(Clone, Copy, Debug, PartialEq, Eq)]
pub struct Use {
    /// The block in which the value is used.
    pub block: u32,
    /// The value that is used.
    pub value: u32,
    /// Whether the definitions of the block itself stand before the use.
    pub after: bool,
}

/// A use that some path reaches without a definition.
#[derive(Debug, PartialEq, Eq, Drop)]
pub struct Missing {
    /// The place of the use in the list of uses.
    pub which: u32,
    /// The path: blocks from block 0 to the block of the use.
    pub path: List<u32>,
}

impl Graph {
    /// The number of blocks.
    pub(crate) fn len(&self) -> usize
        ensures { result ≡ length self.now.next }
    {
        self.next.as_slice().len()
    }

    /// The successors of a block.
    pub(crate) fn successors(&self, block: usize) -> &[u32]
        requires { block < length self.now.next }
        ensures { result.now ≡ slice_index_or self.now.next block [] }
    {
        self.next.as_slice()[block].as_slice()
    }

    /// The values that a block defines.
    pub(crate) fn definitions(&self, block: usize) -> &[u32]
        requires { block < length self.now.defs }
        ensures { result.now ≡ slice_index_or self.now.defs block [] }
    {
        self.defs.as_slice()[block].as_slice()
    }
}
