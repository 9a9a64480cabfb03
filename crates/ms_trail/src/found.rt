//! What following a run comes to: no report, too many moves, or the moves with what the report's use reads.

use ms_bits::List;
use ms_trail_moves::moves::{Move, Source};

/// What a run traced up to its first report finds.
#[derive(Debug, PartialEq, Eq, Drop)]
pub enum Trace {
    /// The run has no report.
    NoReport,
    /// The run has one, and this number of moves comes before it, which is more than 4194304.
    TooLong { moves: u64 },
    /// The moves before its first report, of which there are at most 4194304, and what the report's use reads.
    Found { moves: List<Move>, at: Source },
}
