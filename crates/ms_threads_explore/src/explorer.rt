//! The public call: what exploring the schedules of a module with threads tells.
ghost use Rattle.std.specs.Prelude.{◌≡◌, ◌≤◌, IfOk};
ghost use Rattle.ms_runs.specs.Limits.{WithinLimits};
ghost use Rattle.ms_runs_threads.specs.PlainFibers.{plain_threads};
ghost use Rattle.ms_threads_schedules_laws.specs.Picks.{plain_picks};
ghost use Rattle.ms_threads_explore.specs.Explorations.{IsExplored};

use crate::exploration::Exploration;
use ms_bits::{Bytes, NoMemory};
use ms_check::CheckedModule;
use ms_fork::Gate;
use ms_runs::{RunResult, Setup};
use std::alloc::Global;
use std::thread::Threads;

/// What exploring tells.
#[derive(Debug, Drop)]
pub struct Explored {
    /// The result of the run that is told: the first that isn't clean, else the last.
    pub result: RunResult,
    /// The schedule of that run: a number for each pick that it made, at most 2048, and at least one.
    pub schedule: Bytes,
    /// How many runs were made, up to the one that is told.
    pub tried: u64,
    /// How many different pairs of output and end they had.
    pub outcomes: u64,
    /// Whether no picks are left untried.
    pub all: bool,
}

/// Runs a module with threads under schedules one after the other, each begun otherwise than those before it, until a run isn't
/// clean (it has a report or a blind use), or nothing is left, or `count` runs were made.
///
/// A run begins with given picks and goes on with the first thread that can; what it leaves are its beginnings with another last
/// pick, in order of the picks, the highest first. They are run in the order in which they were found, so those with fewest picks
/// other than the first thread come first. Picks after the 2048th aren't varied.
///
/// The answer is the same for every number of workers and every gate: several workers make the next runs of the queue side by side,
/// some 64 each, and what comes after the first run that isn't clean is thrown away. Each run enters the gate with its
/// number among them. Takes time linear in the runs beside what they take themselves, and memory for each beginning, also of
/// those that were run, at most `count` and one more, and for each outcome.
pub fn explore<R: Threads + Sync, G: Gate + Sync>(
    rt: &R,
    alloc: Global,
    m: &CheckedModule,
    setup: &Setup,
    count: u32,
    workers: u8,
    gate: &G,
) -> Result<Explored, NoMemory>
    requires limits { WithinLimits setup.now }
    requires some { 1 ≤ count }
    requires workers { (1 ≤ workers) × (workers ≤ 8) }
    ensures explored { IfOk result (λ e. IsExplored (plain_picks m.now setup.now) (plain_threads m.now setup.now) count e) }
    ensures repeats { IfOk result (λ e. plain_threads m.now setup.now e.schedule ≡ e.result) }
{
    let mut exploration = Exploration::new(alloc, count as usize + 1)?;
    loop {
        if let Some(explored) = exploration.go_on(rt, alloc, m, setup, workers, gate)? {
            return Ok(explored);
        }
    }
}
