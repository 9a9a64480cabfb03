//! The public call that follows a run up to its first report.
ghost use Rattle.std.specs.Prelude.{◌≡◌, List, IfOk, false};
ghost use Rattle.ms_ir.specs.ThreadCalls.{is_threaded};
ghost use Rattle.ms_runs.specs.Limits.{WithinLimits};
ghost use Rattle.ms_check_valid.specs.Uninstrumented.{CanInstrument};
ghost use Rattle.ms_trail_moves.specs.{declared.moves.Move.{Move as MoveOf}, Traces.{trace as moves_of, Found}};
ghost use Rattle.ms_trail_bytes.specs.Logs.{IsLog};
ghost use Rattle.ms_trail.specs.Tracing.{limited};

use crate::found::Trace;
use crate::traced_run::{StepEnd, TracedRun};
use ms_bits::{List, NoMemory};
use ms_check::CheckedModule;
use ms_runs::Setup;
use ms_trail_bytes::logs::{Log, MOVE_LIMIT};
use ms_trail_moves::moves::Source;
use std::alloc::Global;

/// What following a run comes to that has a report: the moves before it and what the report's use reads, or that they are too many.
#[tactic(auto, unfolding(ms_trail_bytes::specs::Logs::move_limit))]
fn reported(log: Log, at: Source) -> Trace
    ensures { (moves : List MoveOf) → IsLog log moves → result ≡ limited (Found moves at) }
{
    let Log { moves, count } = log;
    if count > MOVE_LIMIT {
        Trace::TooLong { moves: count }
    } else {
        let moves = List::from_vec(moves);
        Trace::Found { moves, at }
    }
}

/// Follows a run of a checked module up to its first report, whatever limit of reports the setup has. Ok is the moves of
/// poisoned bits that come before it, with what the report's use reads, or why there is no such list.
///
/// The run is that of the interpreter, one step at a time, and the masks of its values are computed beside it. A step takes as long
/// in a large module as in a small one, but for a phi, which takes the time of a walk over its edges.
pub fn trace(alloc: Global, m: &CheckedModule, setup: &Setup) -> Result<Trace, NoMemory>
    requires plain { CanInstrument m.now }
    requires limits { WithinLimits setup.now }
    requires alone { is_threaded m.now ≡ false }
    ensures { IfOk result (λ found. found ≡ limited (moves_of m.now setup.now)) }
{
    let mut run = TracedRun::new(alloc, m, setup)?;
    let mut left = setup.steps;
    while 0 < left {
        left -= 1;
        match run.step(alloc)? {
            StepEnd::On => {}
            StepEnd::Over => return Ok(Trace::NoReport),
            StepEnd::Reported(at) => {
                let log = run.log;
                return Ok(reported(log, at));
            }
        }
    }
    Ok(Trace::NoReport)
}
