//! What `explain` says: the first report of a run, and one way from a root to what its use read.
ghost use Rattle.std.specs.Prelude.{◌≡◌, ◌≤◌, ◌<◌, ◌^◌, true, false, length, ltb, if◌then◌else◌, Some as Held, IfOk};
ghost use Rattle.ms_ir.specs.ThreadCalls.{is_threaded};
ghost use Rattle.ms_trail_moves.specs.Scanned.{Ascending, trail_of};
ghost use Rattle.ms_runs.specs.Limits.{WithinLimits};
ghost use Rattle.ms_check_valid.specs.Uninstrumented.{CanInstrument};
ghost use Rattle.ms_words.specs.Limits.{RunsWithinLimits};
ghost use Rattle.ms_top.specs.Command.{input_limit, only_input, setup_of as setup_with, wanted_of as wanted_by};
ghost use Rattle.ms_top.specs.Explained.{CanLead, calls_before, explained_with, first_event, followed, root_calls, shortened, trace_with, way_with};
ghost use Rattle.ms_top.specs.Said.{answer_of_explained, IsExplanation, IsAnswerOfExplain};

use crate::commands::wanted_of;
use crate::modules::{ModuleJob, closing_of_run, setup_of, status_of};
use crate::output::Output;
use crate::passes::{Pass, has_threads};
use crate::refused::refused_threads;
use ms_bits::{Bytes, NoMemory};
use ms_check::CheckedModule;
use ms_fork::Gate;
use ms_report::{SiteLines, report_text_calling, trail_text_calling};
use ms_runs::{Calls, Setup};
use ms_runtime::{ToldRun, run_told};
use ms_trail::found::Trace;
use ms_trail::traces::trace;
use ms_trail_moves::back::trail;
use ms_trail_moves::moves::{Hop, Move, Source};
use ms_words::Options;
use std::alloc::Global;
use std::thread::Threads;

impl<R: Threads + Sync, P: Pass, G: Gate + Sync, L: SiteLines> ModuleJob<'_, R, P, G, L> {
    /// `explain`: the run of the module that the pass gives, and the way of the bits that it reports. A module with threads is
    /// refused.
    pub fn explain(&self, options: &Options) -> Result<Output, NoMemory>
        requires plain { CanInstrument self.now.m.now }
        requires limits { RunsWithinLimits options.now }
        requires input { length (only_input self.now.inputs.now) ≤ input_limit }
        ensures { IfOk result (λ a. IsAnswerOfExplain P.gives (L.lines self.now.lines.now) (wanted_by options.now) (setup_with options.now (only_input self.now.inputs.now)) self.now.m.now a) }
    {
        if has_threads(self.m) {
            refused_threads(self.job.alloc)
        } else {
            self.explain_run(options)
        }
    }

    /// `explain` of a module without threads.
    fn explain_run(&self, options: &Options) -> Result<Output, NoMemory>
        requires plain { CanInstrument self.now.m.now }
        requires limits { RunsWithinLimits options.now }
        requires input { length (only_input self.now.inputs.now) ≤ input_limit }
        requires alone { is_threaded self.now.m.now ≡ false }
        ensures { IfOk result (λ a. IsExplanation P.gives (L.lines self.now.lines.now) (wanted_by options.now) (setup_with options.now (only_input self.now.inputs.now)) self.now.m.now a) }
    {
        let setup = setup_of(self.job.alloc, options, self.input())?;
        let schedule = options.schedule.as_slice();
        let told = self.job.run(self.m, &setup, schedule, wanted_of(options))?;
        self.explanation(&setup, &told, options.calls)
    }

    /// The output that explains what is told of a run with a setup.
    fn explanation(&self, setup: &Setup, told: &ToldRun, calls: bool) -> Result<Output, NoMemory>
        requires plain { CanInstrument self.now.m.now }
        requires limits { WithinLimits setup.now }
        requires alone { is_threaded self.now.m.now ≡ false }
        ensures { IfOk result (λ a. a ≡ answer_of_explained (L.lines self.now.lines.now) calls self.now.m.now setup.now told.now) }
    {
        self.m.law_valid();
        let r = &told.result;
        let out = self.explained(setup, told, calls)?;
        let err = closing_of_run(self.job.alloc, self.m.module(), told, true, self.lines)?;
        Ok(Output {
            status: status_of(r),
            out: Bytes::from_vec(out),
            err: Bytes::from_vec(err),
        })
    }

    /// The lines of the report of a run with a setup, and of the way to what its use read.
    fn explained(&self, setup: &Setup, told: &ToldRun, calls: bool) -> Result<Vec<u8>, NoMemory>
        requires plain { CanInstrument self.now.m.now }
        requires limits { WithinLimits setup.now }
        requires alone { is_threaded self.now.m.now ≡ false }
        ensures { IfOk result (λ text. text.items ≡ explained_with (L.lines self.now.lines.now) calls self.now.m.now setup.now told.now) }
    {
        self.m.law_valid();
        let alloc = self.job.alloc;
        let r = &told.result;
        if r.reports.as_slice().is_empty() {
            return Vec::from_slice(alloc, b"no report\n");
        }
        let at_reports = told.calls.as_slice();
        let mut text = report_text_calling(alloc, self.m.module(), r, at_reports, self.lines)?;
        let way = self.lines_of_run(setup, calls)?;
        text.extend_from_slice(&way)?;
        Ok(text)
    }

    /// The lines of the way of the bits that the first report of a run with a setup is about, where they are wanted with those of the
    /// calls at its root.
    fn lines_of_run(&self, setup: &Setup, calls: bool) -> Result<Vec<u8>, NoMemory>
        requires plain { CanInstrument self.now.m.now }
        requires limits { WithinLimits setup.now }
        requires alone { is_threaded self.now.m.now ≡ false }
        ensures { IfOk result (λ text. text.items ≡ trace_with (L.lines self.now.lines.now) calls self.now.m.now setup.now (followed self.now.m.now setup.now)) }
    {
        self.m.law_valid();
        let found = trace(self.job.alloc, self.m, setup)?;
        lines_of_trace(self.job.alloc, self.m, setup, &found, calls, self.lines)
    }
}

/// The lines of what following a run comes to: the way of the reported bits, or why there is none.
fn lines_of_trace<L: SiteLines>(
    alloc: Global,
    m: &CheckedModule,
    setup: &Setup,
    found: &Trace,
    calls: bool,
    lines: &L,
) -> Result<Vec<u8>, NoMemory>
    requires limits { WithinLimits setup.now }
    requires alone { is_threaded m.now ≡ false }
    requires leads { CanLead found.now }
    ensures { IfOk result (λ text. text.items ≡ trace_with (L.lines lines.now) calls m.now setup.now found.now) }
{
    match found {
        Trace::NoReport => Ok(Vec::new(alloc)),
        Trace::TooLong { .. } => Vec::from_slice(alloc, b"  trail: too long\n"),
        Trace::Found { moves, at } => {
            lines_of_way(alloc, m, setup, moves.as_slice(), at, calls, lines)
        }
    }
}

/// The lines of the way over moves to what a use reads.
fn lines_of_way<L: SiteLines>(
    alloc: Global,
    m: &CheckedModule,
    setup: &Setup,
    moves: &[Move],
    at: &Source,
    calls: bool,
    lines: &L,
) -> Result<Vec<u8>, NoMemory>
    requires limits { WithinLimits setup.now }
    requires alone { is_threaded m.now ≡ false }
    requires ascending { Ascending moves.now }
    requires few { length moves.now < 2 ^ 32 }
    ensures { IfOk result (λ text. text.items ≡ way_with (L.lines lines.now) calls m.now setup.now moves.now at.now (trail_of moves.now at.now)) }
{
    m.law_valid();
    match trail(alloc, moves, at)? {
        Some(hops) => {
            let root = calls_at_root(alloc, m, setup, moves, &hops, calls)?;
            trail_text_calling(alloc, m.module(), moves, at, &hops, root.as_ref(), lines)
        }
        None => Ok(Vec::new(alloc)),
    }
}

/// The step in which the move of the first of these hops was made.
fn event_of_first(moves: &[Move], hops: &[Hop]) -> Option<u64>
    ensures { result ≡ first_event moves.now hops.now }
{
    match hops {
        [] => None,
        [first, ..] => match moves.get(first.index as usize) {
            Some(made) => Some(made.event),
            None => None,
        },
    }
}

/// The calls at the root from which hops lead, where they are wanted: the module itself is run up to the step of the first move.
fn calls_at_root(
    alloc: Global,
    m: &CheckedModule,
    setup: &Setup,
    moves: &[Move],
    hops: &[Hop],
    wanted: bool,
) -> Result<Option<Calls>, NoMemory>
    requires limits { WithinLimits setup.now }
    requires alone { is_threaded m.now ≡ false }
    ensures { IfOk result (λ calls. calls ≡ root_calls wanted m.now setup.now moves.now hops.now) }
{
    if !wanted {
        return Ok(None);
    }
    match event_of_first(moves, hops) {
        None => Ok(None),
        Some(event) => calls_at_step(alloc, m, setup, event),
    }
}

/// The calls that stand before the step with a number in the run of a module.
fn calls_at_step(
    alloc: Global,
    m: &CheckedModule,
    setup: &Setup,
    event: u64,
) -> Result<Option<Calls>, NoMemory>
    requires limits { WithinLimits setup.now }
    requires alone { is_threaded m.now ≡ false }
    ensures { IfOk result (λ calls. calls ≡ calls_before m.now setup.now (Held event)) }
{
    let shorter = shorten(alloc, setup, event)?;
    let told = run_told(alloc, m, &shorter, true)?;
    Ok(told.end_calls)
}

/// The smaller of two numbers.
fn fewer(a: u64, b: u64) -> u64
    ensures { result ≡ (if ltb a b then a else b) }
{
    if a < b { a } else { b }
}

/// A setup with at most so many steps.
fn shorten(alloc: Global, setup: &Setup, steps: u64) -> Result<Setup, NoMemory>
    ensures { IfOk result (λ s. s ≡ shortened setup.now steps) }
{
    let input = Vec::from_slice(alloc, setup.input.as_slice())?;
    let fill = Vec::from_slice(alloc, setup.fill.as_slice())?;
    Ok(Setup {
        input: Bytes::from_vec(input),
        fill: Bytes::from_vec(fill),
        steps: fewer(steps, setup.steps),
        reports: setup.reports,
        once: setup.once,
    })
}
