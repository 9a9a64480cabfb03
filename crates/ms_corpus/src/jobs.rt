//! The jobs of a list of inputs: each is a piece of its own, and as many threads make them as there are workers.
ghost use Rattle.std.specs.Prelude.{◌≡◌, ℕ, ◌<◌, ◌≤◌, false, All, length, map, IfOk};
ghost use Rattle.ms_ir.specs.ThreadCalls.{is_threaded};
ghost use Rattle.ms_runs.specs.Limits.{WithinLimits};
ghost use Rattle.ms_corpus.specs.{Jobs.{with_input, input_of}, Wanted.{plain_wanted}};

use crate::wanted::{Wanted, run_wanted};
use ms_bits::{Bytes, Duplicate, List, NoMemory};
use ms_check::CheckedModule;
use ms_fork::{Gate, Split, Work, parallel_map};
use ms_runs::Setup;
use ms_runtime::ToldRun;
use std::alloc::Global;
use std::thread::Threads;

/// What the jobs share, only to be read.
#[derive(Drop)]
struct InputRuns<'a> {
    module: &'a CheckedModule,
    inputs: &'a [Bytes],
    setup: &'a Setup,
    wanted: Wanted,
}

impl<'a> InputRuns<'a> {
    /// The setup of the run on an input: that of all jobs with this input.
    fn setup_of(&self, alloc: Global, input: &Bytes) -> Result<Setup, NoMemory>
        ensures { IfOk result (λ s. s ≡ with_input self.now.setup.now input.now) }
    {
        Ok(Setup {
            input: input.copy(alloc)?,
            fill: self.setup.fill.copy(alloc)?,
            steps: self.setup.steps,
            reports: self.setup.reports,
            once: self.setup.once,
        })
    }
}

impl<'a> Work for InputRuns<'a> {
    type Item = ToldRun;

    ghost can = { λ work k. (k < length work.inputs.now) × (is_threaded work.module.now ≡ false) × WithinLimits (with_input work.setup.now (input_of work.inputs.now k)) };

    ghost answer = { λ work k. plain_wanted work.wanted work.module.now (with_input work.setup.now (input_of work.inputs.now k)) };

    fn make(&self, alloc: Global, index: usize) -> Result<ToldRun, NoMemory> {
        let setup = self.setup_of(alloc, &self.inputs[index])?;
        run_wanted(alloc, self.module, &setup, self.wanted)
    }
}

/// Runs a module without thread calls on each of the inputs, with the fill, the bound of steps and the limit of reports of `setup`:
/// the list of what each run alone tells of what is wanted, in the order of the inputs, for every number of workers and every gate.
///
/// Each job enters the gate with its number, counted from 0, before it does anything else. The list is cut in halves, and at
/// most `workers` threads are at work at once; where no thread can be made, jobs run one after another.
pub fn run_all<R: Threads + Sync, G: Gate + Sync>(
    rt: &R,
    alloc: Global,
    j: &CheckedModule,
    inputs: &[Bytes],
    setup: &Setup,
    wanted: Wanted,
    workers: u8,
    gate: &G,
) -> Result<List<ToldRun>, NoMemory>
    requires workers { (1 ≤ workers) × (workers ≤ 8) }
    requires limits { All (λ input. WithinLimits (with_input setup.now input)) inputs.now }
    requires alone { is_threaded j.now ≡ false }
    ensures { IfOk result (λ all. all ≡ map (λ input. plain_wanted wanted j.now (with_input setup.now input)) inputs.now) }
{
    let work = InputRuns {
        module: j,
        inputs,
        setup,
        wanted,
    };
    let split = Split {
        most: 1,
        threads: usize::from(workers),
    };
    parallel_map(rt, alloc, &work, inputs.len(), split, gate)
}
