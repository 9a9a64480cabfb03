//! One visit of a walk: the block, and the visit from which it was reached, by which a path is traced back.

/// A block that was visited, and the place of the visit from which it was reached.
#[derive(Clone, Copy, Debug)]
pub struct Visit {
    pub block: u32,
    pub from: usize,
}
