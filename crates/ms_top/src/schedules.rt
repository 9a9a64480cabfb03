//! What `check --schedules` says of a module under several schedules.
ghost use Rattle.std.specs.Prelude.{◌≡◌, ◌≤◌, ◌++◌, true, false, [], None, length, IfOk};
ghost use Rattle.ms_ir.specs.ThreadCalls.{is_threaded};
ghost use Rattle.ms_runs.specs.Limits.{WithinLimits};
ghost use Rattle.ms_check_valid.specs.{Formed.{Formed}, Uninstrumented.{CanInstrument}};
ghost use Rattle.ms_words.specs.Limits.{SchedulesWithinLimits};
ghost use Rattle.ms_threads_explore.specs.Explorations.{IsExplored};
ghost use Rattle.ms_top.specs.Command.{input_limit, only_input, setup_of as setup_with, wanted_of as wanted_by};
ghost use Rattle.ms_top.specs.{Parts.{beside_of, only_run as only_run_of, told_with, IsExploredOfGiven}, Runs.{plain_under, plain_picks_under, plain_told_under}};
ghost use Rattle.ms_threads.specs.Faithful.{IsSchedule};
ghost use Rattle.ms_top.specs.Said.{answer_of_explored, run_text, tried_text, IsAnswerOfSchedules};

use crate::commands::wanted_of;
use crate::jobs::Job;
use crate::modules::{ModuleJob, run_under, setup_of, status_of, text_of_run};
use crate::output::Output;
use crate::passes::{Pass, has_threads, instrumented_by};
use ms_bits::{Bytes, List, NoMemory};
use ms_check::CheckedModule;
use ms_corpus::Wanted;
use ms_fork::Gate;
use ms_ir::Module;
use ms_report::{SiteLines, schedules_text};
use ms_runs::{BlindPlace, Calls, Setup};
use ms_runtime::{ToldRun, run};
use ms_threads_explore::{Explored, explore, is_clean};
use ms_words::Options;
use std::alloc::Global;
use std::thread::Threads;

impl<R: Threads + Sync, P: Pass, G: Gate + Sync> Job<'_, R, P, G> {
    /// What exploring the schedules of the module that the pass gives tells: of at most so many runs, by so many threads at most. And
    /// what is wanted of the run that is told, which is made once more for that.
    fn explore(
        &self,
        m: &CheckedModule,
        setup: &Setup,
        runs: u32,
        workers: u8,
        wanted: Wanted,
    ) -> Result<(Explored, ToldBeside), NoMemory>
        requires plain { CanInstrument m.now }
        requires limits { WithinLimits setup.now }
        requires some { 1 ≤ runs }
        requires workers { (1 ≤ workers) × (workers ≤ 8) }
        ensures { IfOk result (λ r. IsExploredOfGiven P.gives m.now setup.now runs wanted r.0 r.1) }
    {
        let instrumented = instrumented_by(self.rt, self.alloc, m, self.pass)?;
        let module = instrumented.get();
        let threads = has_threads(m);
        let explored = self.explore_under(module, threads, setup, runs, workers)?;
        let schedule = explored.schedule.as_slice();
        let beside = told_beside(self.alloc, module, threads, setup, schedule, wanted)?;
        Ok((explored, beside))
    }

    /// What exploring the schedules of a module as it is tells, by whether it has `threads`: one without them has one run.
    fn explore_under(
        &self,
        m: &CheckedModule,
        threads: bool,
        setup: &Setup,
        runs: u32,
        workers: u8,
    ) -> Result<Explored, NoMemory>
        requires threads { threads ≡ is_threaded m.now }
        requires limits { WithinLimits setup.now }
        requires some { 1 ≤ runs }
        requires workers { (1 ≤ workers) × (workers ≤ 8) }
        ensures explored { IfOk result (λ e. IsExplored (plain_picks_under threads m.now setup.now) (plain_under threads m.now setup.now) runs e) }
        ensures scheduled { IfOk result (λ e. IsSchedule e.schedule) }
    {
        if threads {
            explore(self.rt, self.alloc, m, setup, runs, workers, self.gate)
        } else {
            only_run(self.alloc, m, setup)
        }
    }
}

impl<R: Threads + Sync, P: Pass, G: Gate + Sync, L: SiteLines> ModuleJob<'_, R, P, G, L> {
    /// `check` under several schedules: the runs of the module that the pass gives, at most so many, up to the first that isn't
    /// clean, by so many threads at most.
    pub fn check_schedules(
        &self,
        options: &Options,
        runs: u32,
        workers: u8,
    ) -> Result<Output, NoMemory>
        requires plain { CanInstrument self.now.m.now }
        requires limits { SchedulesWithinLimits options.now runs workers }
        requires input { length (only_input self.now.inputs.now) ≤ input_limit }
        ensures { IfOk result (λ a. IsAnswerOfSchedules P.gives (L.lines self.now.lines.now) (wanted_by options.now) (setup_with options.now (only_input self.now.inputs.now)) runs self.now.m.now a) }
    {
        self.m.law_valid();
        let alloc = self.job.alloc;
        let setup = setup_of(alloc, options, self.input())?;
        let wanted = wanted_of(options);
        let (explored, beside) = self.job.explore(self.m, &setup, runs, workers, wanted)?;
        output_of_schedules(alloc, self.m.module(), explored, beside, self.lines)
    }
}

/// What is told beside the result of a run.
#[derive(Drop)]
pub struct ToldBeside {
    pub calls: List<Calls>,
    pub end_calls: Option<Calls>,
    pub places: List<BlindPlace>,
}

/// Where nothing is wanted.
fn nothing_beside(alloc: Global) -> ToldBeside
    ensures { result ≡ record { calls = []; end_calls = None; places = [] } }
{
    ToldBeside {
        calls: List::from_vec(Vec::new(alloc)),
        end_calls: None,
        places: List::from_vec(Vec::new(alloc)),
    }
}

/// What is told beside a result.
fn beside_result(told: ToldRun) -> ToldBeside
    ensures { result ≡ beside_of told }
{
    ToldBeside {
        calls: told.calls,
        end_calls: told.end_calls,
        places: told.places,
    }
}

/// What is wanted beside the result of the run of a module, with threads under a schedule; where nothing is, nothing is run.
fn told_beside(
    alloc: Global,
    m: &CheckedModule,
    threads: bool,
    setup: &Setup,
    schedule: &[u8],
    wanted: Wanted,
) -> Result<ToldBeside, NoMemory>
    requires threads { threads ≡ is_threaded m.now }
    requires limits { WithinLimits setup.now }
    requires scheduled { IsSchedule schedule.now }
    ensures { IfOk result (λ b. b ≡ beside_of (plain_told_under wanted threads m.now setup.now schedule.now)) }
{
    if wanted.any() {
        let told = run_under(alloc, m, threads, setup, schedule, wanted)?;
        Ok(beside_result(told))
    } else {
        Ok(nothing_beside(alloc))
    }
}

/// The only run of a module without threads, as exploring would tell it: it makes no pick.
fn only_run(alloc: Global, m: &CheckedModule, setup: &Setup) -> Result<Explored, NoMemory>
    requires limits { WithinLimits setup.now }
    requires alone { is_threaded m.now ≡ false }
    ensures { IfOk result (λ e. e ≡ only_run_of m.now setup.now) }
{
    let schedule = Bytes::from_vec(vec![in alloc; 0u8]?);
    Ok(Explored {
        result: run(alloc, m, setup)?,
        schedule,
        tried: 1,
        outcomes: 1,
        all: true,
    })
}

/// What the run that is told printed, with the lines that say how it went, and those on the schedules.
fn output_of_schedules<L: SiteLines>(
    alloc: Global,
    m: &Module,
    explored: Explored,
    beside: ToldBeside,
    lines: &L,
) -> Result<Output, NoMemory>
    requires { Formed m.now }
    ensures { IfOk result (λ a. a ≡ answer_of_explored (L.lines lines.now) m.now explored (told_with explored beside)) }
{
    let tried = lines_of_schedules(alloc, &explored)?;
    let told = ToldRun {
        result: explored.result,
        calls: beside.calls,
        end_calls: beside.end_calls,
        places: beside.places,
    };
    let err = text_of_schedules(alloc, m, &told, &tried, lines)?;
    let result = told.result;
    Ok(Output {
        status: status_of(&result),
        out: result.output,
        err: Bytes::from_vec(err),
    })
}

/// The lines of the reports of the run that is told, the closing lines, and these on the schedules.
fn text_of_schedules<L: SiteLines>(
    alloc: Global,
    m: &Module,
    told: &ToldRun,
    tried: &[u8],
    lines: &L,
) -> Result<Vec<u8>, NoMemory>
    requires { Formed m.now }
    ensures { IfOk result (λ text. text.items ≡ run_text (L.lines lines.now) true m.now told.now ++ tried.now) }
{
    let mut text = text_of_run(alloc, m, told, true, lines)?;
    text.extend_from_slice(tried)?;
    Ok(text)
}

/// The lines on the schedules that were tried.
fn lines_of_schedules(alloc: Global, explored: &Explored) -> Result<Vec<u8>, NoMemory>
    ensures { IfOk result (λ text. text.items ≡ tried_text explored.now) }
{
    schedules_text(
        alloc,
        explored.tried,
        explored.all,
        explored.outcomes,
        !is_clean(&explored.result),
        explored.schedule.as_slice(),
    )
}
