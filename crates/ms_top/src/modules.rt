//! A command on a valid module: runs it, checks it, explains it, or writes it, and what is then said.
ghost use Rattle.std.specs.Prelude.{◌≡◌, ◌≤◌, length, true, false, IfOk};
ghost use Rattle.ms_ir.specs.ThreadCalls.{is_threaded};
ghost use Rattle.ms_runs.specs.Limits.{WithinLimits};
ghost use Rattle.ms_check_valid.specs.{Formed.{Formed}, Uninstrumented.{CanInstrument}};
ghost use Rattle.ms_words.specs.Limits.{RunsWithinLimits, IsWithinLimits};
ghost use Rattle.ms_threads.specs.Faithful.{IsSchedule};
ghost use Rattle.ms_top.specs.Command.{setup_of as setup_with, input_limit, only_input, wanted_of as wanted_by};
ghost use Rattle.ms_top.specs.{OnFile.{command_of}, Parts.{AreShort, IsReady, IsRunOfGiven}, Runs.{plain_told_under}};
ghost use Rattle.ms_top.specs.Said.{answer_of_result, closing_text, run_text, status_of as status_of_run, IsAnswerOfInstrument, IsAnswerOfCheck, IsAnswerToValid};

use crate::commands::{Action, FileCommand, wanted_of};
use crate::exit_codes::Status;
use crate::generated::written;
use crate::jobs::Job;
use crate::output::Output;
use crate::passes::{Pass, has_threads, instrumented_by};
use ms_bits::{Bytes, NoMemory};
use ms_check::CheckedModule;
use ms_corpus::{Wanted, run_wanted};
use ms_fork::Gate;
use ms_ir::Module;
use ms_report::{SiteLines, closing_calling, places_text, report_text_calling};
use ms_runs::{End, RunResult, Setup};
use ms_runtime::ToldRun;
use ms_threads::run_threads_told;
use ms_words::Options;
use std::alloc::Global;
use std::mem::forget;
use std::thread::Threads;

impl<R: Threads + Sync, P: Pass, G: Gate + Sync> Job<'_, R, P, G> {
    /// What is wanted of the run of the module that the pass gives, of one with threads under this schedule.
    pub fn run(
        &self,
        m: &CheckedModule,
        setup: &Setup,
        schedule: &[u8],
        wanted: Wanted,
    ) -> Result<ToldRun, NoMemory>
        requires plain { CanInstrument m.now }
        requires limits { WithinLimits setup.now }
        requires scheduled { IsSchedule schedule.now }
        ensures { IfOk result (λ t. IsRunOfGiven P.gives m.now setup.now schedule.now wanted t) }
    {
        let instrumented = instrumented_by(self.rt, self.alloc, m, self.pass)?;
        run_under(
            self.alloc,
            instrumented.get(),
            has_threads(m),
            setup,
            schedule,
            wanted,
        )
    }
}

/// A valid module that a command is about, with the inputs of its runs, and the lines under each site.
#[derive(Drop)]
pub struct ModuleJob<'a, R, P, G, L> {
    pub job: &'a Job<'a, R, P, G>,
    pub m: &'a CheckedModule,
    pub inputs: &'a [Bytes],
    pub lines: &'a L,
}

impl<R: Threads + Sync, P: Pass, G: Gate + Sync, L: SiteLines> ModuleJob<'_, R, P, G, L> {
    /// Does what the command does with its module.
    #[tactic(auto, using(crate::proofs::Answering::short_input))]
    pub fn act(&self, command: &FileCommand<'_>) -> Result<Output, NoMemory>
        requires ready { IsReady (command_of command.now) self.now.m.now }
        requires limits { IsWithinLimits (command_of command.now) }
        requires inputs { AreShort self.now.inputs.now }
        ensures { IfOk result (λ a. IsAnswerToValid P.gives (L.lines self.now.lines.now) (command_of command.now) self.now.inputs.now self.now.m.now a) }
    {
        match &command.action {
            Action::Instrument => self.instrument(),
            Action::Run(options) => self.run(options),
            Action::Check(options) => self.check(options),
            Action::CheckSchedules {
                options,
                runs,
                workers,
            } => self.check_schedules(options, *runs, *workers),
            Action::Explain(options) => self.explain(options),
            Action::Corpus {
                inputs,
                options,
                workers,
            } => self.corpus(inputs.as_slice(), options, *workers),
        }
    }

    /// The input of the run of a command that has one at most; empty where it has none.
    pub fn input(&self) -> &[u8]
        ensures { result.now ≡ only_input self.now.inputs.now }
    {
        match self.inputs {
            [input, ..] => input.as_slice(),
            [] => b"",
        }
    }

    /// `instrument`: the text of the module that the pass gives. The memory of that isn't given back: the process ends.
    fn instrument(&self) -> Result<Output, NoMemory>
        requires { CanInstrument self.now.m.now }
        ensures { IfOk result (λ a. IsAnswerOfInstrument P.gives self.now.m.now a) }
    {
        let job = self.job;
        let instrumented = job.pass.instrumented(job.rt, job.alloc, self.m)?;
        let output = written(job.alloc, &instrumented);
        forget(instrumented);
        output
    }

    /// `run`: the run of the module as it is, where it has threads under the schedule of the options.
    fn run(&self, options: &Options) -> Result<Output, NoMemory>
        requires limits { RunsWithinLimits options.now }
        requires input { length (only_input self.now.inputs.now) ≤ input_limit }
        ensures { IfOk result (λ a. a ≡ answer_of_result (L.lines self.now.lines.now) false self.now.m.now
            (plain_told_under (wanted_by options.now) (is_threaded self.now.m.now) self.now.m.now (setup_with options.now (only_input self.now.inputs.now)) options.now.schedule)) }
    {
        self.m.law_valid();
        let alloc = self.job.alloc;
        let setup = setup_of(alloc, options, self.input())?;
        let schedule = options.schedule.as_slice();
        let threads = has_threads(self.m);
        let told = run_under(alloc, self.m, threads, &setup, schedule, wanted_of(options))?;
        output_of_run(alloc, self.m.module(), told, false, self.lines)
    }

    /// `check`: the run of the module that the pass gives.
    fn check(&self, options: &Options) -> Result<Output, NoMemory>
        requires plain { CanInstrument self.now.m.now }
        requires limits { RunsWithinLimits options.now }
        requires input { length (only_input self.now.inputs.now) ≤ input_limit }
        ensures { IfOk result (λ a. IsAnswerOfCheck P.gives (L.lines self.now.lines.now) (wanted_by options.now) (setup_with options.now (only_input self.now.inputs.now)) options.now.schedule self.now.m.now a) }
    {
        self.m.law_valid();
        let alloc = self.job.alloc;
        let setup = setup_of(alloc, options, self.input())?;
        let schedule = options.schedule.as_slice();
        let told = self.job.run(self.m, &setup, schedule, wanted_of(options))?;
        output_of_run(alloc, self.m.module(), told, true, self.lines)
    }
}

/// What is wanted of the run of a module with threads under a schedule.
fn run_threads_wanted(
    alloc: Global,
    m: &CheckedModule,
    setup: &Setup,
    schedule: &[u8],
    wanted: Wanted,
) -> Result<ToldRun, NoMemory>
    requires limits { WithinLimits setup.now }
    requires scheduled { IsSchedule schedule.now }
    ensures { IfOk result (λ t. t ≡ plain_told_under wanted true m.now setup.now schedule.now) }
{
    let told = run_threads_told(alloc, m, setup, schedule, wanted.any())?;
    Ok(wanted.of_told(alloc, told))
}

/// What is wanted of the run of a module, with threads under a schedule.
pub fn run_under(
    alloc: Global,
    m: &CheckedModule,
    threads: bool,
    setup: &Setup,
    schedule: &[u8],
    wanted: Wanted,
) -> Result<ToldRun, NoMemory>
    requires threads { threads ≡ is_threaded m.now }
    requires limits { WithinLimits setup.now }
    requires scheduled { IsSchedule schedule.now }
    ensures { IfOk result (λ t. t ≡ plain_told_under wanted threads m.now setup.now schedule.now) }
{
    if threads {
        run_threads_wanted(alloc, m, setup, schedule, wanted)
    } else {
        run_wanted(alloc, m, setup, wanted)
    }
}

/// What a run with these options and this input is given.
pub fn setup_of(alloc: Global, options: &Options, input: &[u8]) -> Result<Setup, NoMemory>
    ensures { IfOk result (λ s. s ≡ setup_with options.now input.now) }
{
    let input = Vec::from_slice(alloc, input)?;
    let fill = Vec::from_slice(alloc, options.fill.as_slice())?;
    Ok(Setup {
        input: Bytes::from_vec(input),
        fill: Bytes::from_vec(fill),
        steps: options.steps,
        reports: options.reports,
        once: options.once,
    })
}

/// What a run of `m` printed, with the lines that say how it went, with or without the verdict.
fn output_of_run<L: SiteLines>(
    alloc: Global,
    m: &Module,
    told: ToldRun,
    verdict: bool,
    lines: &L,
) -> Result<Output, NoMemory>
    requires { Formed m.now }
    ensures { IfOk result (λ a. a ≡ answer_of_result (L.lines lines.now) verdict m.now told) }
{
    let err = text_of_run(alloc, m, &told, verdict, lines)?;
    let result = told.result;
    Ok(Output {
        status: status_of(&result),
        out: result.output,
        err: Bytes::from_vec(err),
    })
}

/// The lines of a run's reports, with those of their calls that are told, and then the closing lines, with or without the verdict,
/// those of places of blind uses that are told, and these lines under each that names a site.
pub fn text_of_run<L: SiteLines>(
    alloc: Global,
    m: &Module,
    told: &ToldRun,
    verdict: bool,
    lines: &L,
) -> Result<Vec<u8>, NoMemory>
    requires { Formed m.now }
    ensures { IfOk result (λ text. text.items ≡ run_text (L.lines lines.now) verdict m.now told.now) }
{
    let r = &told.result;
    let mut text = report_text_calling(alloc, m, r, told.calls.as_slice(), lines)?;
    let closing = closing_of_run(alloc, m, told, verdict, lines)?;
    text.extend_from_slice(&closing)?;
    Ok(text)
}

/// The closing lines of a run, with those of the calls that are told where it ended, and those of the places of blind uses that are told.
pub fn closing_of_run<L: SiteLines>(
    alloc: Global,
    m: &Module,
    told: &ToldRun,
    verdict: bool,
    lines: &L,
) -> Result<Vec<u8>, NoMemory>
    requires { Formed m.now }
    ensures { IfOk result (λ text. text.items ≡ closing_text (L.lines lines.now) verdict m.now told.now) }
{
    let calls = told.end_calls.as_ref();
    let mut text = closing_calling(alloc, m, &told.result, calls, verdict, lines)?;
    let places = places_text(alloc, m, told.places.as_slice(), lines)?;
    text.extend_from_slice(&places)?;
    Ok(text)
}

/// The status that a run decides: 77 exactly where it has a report.
pub fn status_of(r: &RunResult) -> u8
    ensures { result ≡ status_of_run r.now }
{
    if !r.reports.as_slice().is_empty() {
        return Status::Reported as u8;
    }
    match r.end {
        End::Exit(_) => Status::Done as u8,
        End::Trap { .. } => Status::Trapped as u8,
        End::Reported => Status::Done as u8,
        End::Spent => Status::Spent as u8,
    }
}
