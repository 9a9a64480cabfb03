//! What `corpus` says: a section for each input.
ghost use Rattle.std.specs.Prelude.{◌≡◌, ◌≤◌, ◌++◌, [], false, codes, decimal, IfOk};
ghost use Rattle.ms_ir.specs.ThreadCalls.{is_threaded};
ghost use Rattle.ms_check_valid.specs.{Formed.{Formed}, Uninstrumented.{CanInstrument}};
ghost use Rattle.ms_words.specs.Limits.{RunsWithinLimits};
ghost use Rattle.ms_top.specs.{Command.{setup_of as setup_with, wanted_of as wanted_by}, Parts.{AreShort, AreRunsOfGiven, AreWithinLimits}};
ghost use Rattle.ms_top.specs.Said.{answer_of_results, has_status, heading_of, section_of, sections_of, status_of_all as status_of_runs, AreSections, IsAnswerOfCorpus};

use crate::commands::wanted_of;
use crate::exit_codes::Status;
use crate::modules::{ModuleJob, setup_of, status_of, text_of_run};
use crate::output::Output;
use crate::passes::{Pass, has_threads, instrumented_by};
use crate::refused::refused_threads;
use ms_bits::{Bytes, List, NoMemory, Text};
use ms_corpus::{Wanted, run_all};
use ms_fork::Gate;
use ms_ir::Module;
use ms_report::SiteLines;
use ms_runs::{RunResult, Setup};
use ms_runtime::ToldRun;
use ms_words::Options;
use ms_write_values::push_number;
use std::alloc::Global;
use std::thread::Threads;

impl<R: Threads + Sync, P: Pass, G: Gate + Sync, L: SiteLines> ModuleJob<'_, R, P, G, L> {
    /// `corpus`: the runs of the module that the pass gives on inputs in files with these names, one section each, by so many
    /// threads at most. A module with threads is refused.
    pub fn corpus(&self, names: &[Text], options: &Options, workers: u8) -> Result<Output, NoMemory>
        requires plain { CanInstrument self.now.m.now }
        requires limits { RunsWithinLimits options.now }
        requires workers { (1 ≤ workers) × (workers ≤ 8) }
        requires inputs { AreShort self.now.inputs.now }
        ensures { IfOk result (λ a. IsAnswerOfCorpus P.gives (L.lines self.now.lines.now) names.now options.now self.now.inputs.now self.now.m.now a) }
    {
        if has_threads(self.m) {
            refused_threads(self.job.alloc)
        } else {
            self.write_sections(names, options, workers)
        }
    }

    /// `corpus` of a module without threads.
    fn write_sections(
        &self,
        names: &[Text],
        options: &Options,
        workers: u8,
    ) -> Result<Output, NoMemory>
        requires plain { CanInstrument self.now.m.now }
        requires limits { RunsWithinLimits options.now }
        requires workers { (1 ≤ workers) × (workers ≤ 8) }
        requires inputs { AreShort self.now.inputs.now }
        requires alone { is_threaded self.now.m.now ≡ false }
        ensures { IfOk result (λ a. AreSections P.gives (L.lines self.now.lines.now) names.now options.now self.now.inputs.now self.now.m.now a) }
    {
        self.m.law_valid();
        let results = self.run_all_with(options, workers)?;
        output_of_runs(
            self.job.alloc,
            self.m.module(),
            names,
            results.as_slice(),
            self.lines,
        )
    }

    /// What is wanted of what is told of the runs, with these options, of the module that the pass gives, one for each input in order.
    fn run_all_with(&self, options: &Options, workers: u8) -> Result<List<ToldRun>, NoMemory>
        requires plain { CanInstrument self.now.m.now }
        requires limits { RunsWithinLimits options.now }
        requires workers { (1 ≤ workers) × (workers ≤ 8) }
        requires inputs { AreShort self.now.inputs.now }
        requires alone { is_threaded self.now.m.now ≡ false }
        ensures { IfOk result (λ rs. AreRunsOfGiven P.gives self.now.m.now (setup_with options.now []) (wanted_by options.now) self.now.inputs.now rs) }
    {
        let setup = setup_of(self.job.alloc, options, b"")?;
        self.run_inputs(&setup, wanted_of(options), workers)
    }

    /// What is wanted of what is told of the runs of the module that the pass gives, each with this setup but its own input.
    fn run_inputs(
        &self,
        setup: &Setup,
        wanted: Wanted,
        workers: u8,
    ) -> Result<List<ToldRun>, NoMemory>
        requires plain { CanInstrument self.now.m.now }
        requires limits { AreWithinLimits setup.now self.now.inputs.now }
        requires workers { (1 ≤ workers) × (workers ≤ 8) }
        requires alone { is_threaded self.now.m.now ≡ false }
        ensures { IfOk result (λ rs. AreRunsOfGiven P.gives self.now.m.now setup.now wanted self.now.inputs.now rs) }
    {
        let job = self.job;
        let instrumented = instrumented_by(job.rt, job.alloc, self.m, job.pass)?;
        run_all(
            job.rt,
            job.alloc,
            instrumented.get(),
            self.inputs,
            setup,
            wanted,
            workers,
            job.gate,
        )
    }
}

/// The sections of the results of runs, and the status that they decide.
fn output_of_runs<L: SiteLines>(
    alloc: Global,
    m: &Module,
    names: &[Text],
    results: &[ToldRun],
    lines: &L,
) -> Result<Output, NoMemory>
    requires { Formed m.now }
    ensures { IfOk result (λ a. a ≡ answer_of_results (L.lines lines.now) m.now names.now results.now) }
{
    let out = sections(alloc, m, names, results, lines)?;
    Ok(Output {
        status: status_of_all(results),
        out: Bytes::from_vec(out),
        err: Bytes::from_vec(Vec::new(alloc)),
    })
}

/// The sections of runs, each under the name of its input's file.
fn sections<L: SiteLines>(
    alloc: Global,
    m: &Module,
    names: &[Text],
    results: &[ToldRun],
    lines: &L,
) -> Result<Vec<u8>, NoMemory>
    requires { Formed m.now }
    ensures { IfOk result (λ text. text.items ≡ sections_of (L.lines lines.now) m.now 1 names.now results.now) }
{
    let mut text = Vec::new(alloc);
    for index in 0..names.len().min(results.len()) {
        push_section(
            &mut text,
            m,
            index as u64 + 1,
            &names[index],
            &results[index],
            lines,
        )?;
    }
    Ok(text)
}

/// Adds the section of run `number`: its heading, its output, its reports and closing lines.
fn push_section<L: SiteLines>(
    text: &mut Vec<u8>,
    m: &Module,
    number: u64,
    name: &Text,
    told: &ToldRun,
    lines: &L,
) -> Result<(), NoMemory>
    requires { Formed m.now }
    ensures { IfOk result (λ _. text.new.items ≡ text.old.items ++ section_of (L.lines lines.now) m.now number name.now told.now) }
{
    let alloc = *text.allocator();
    let r = &told.result;
    push_heading(text, number, name, r)?;
    text.extend_from_slice(r.output.as_slice())?;
    text.push(b'\n')?;
    let run = text_of_run(alloc, m, told, true, lines)?;
    text.extend_from_slice(&run)?;
    Ok(())
}

/// Adds the first line of a section: the input's number, how many bytes the run put out, and the name of the input's file.
fn push_heading(text: &mut Vec<u8>, number: u64, name: &Text, r: &RunResult) -> Result<(), NoMemory>
    ensures { IfOk result (λ _. text.new.items ≡ text.old.items ++ heading_of number name.now r.now) }
{
    push_size(text, number, r.output.as_slice().len() as u64)?;
    text.extend_from_slice(name.as_str().as_bytes())?;
    text.push(b'\n')?;
    Ok(())
}

/// Begins the first line of a section, with its number and how many bytes the run put out.
fn push_size(text: &mut Vec<u8>, number: u64, size: u64) -> Result<(), NoMemory>
    ensures { IfOk result (λ _. text.new.items ≡ text.old.items ++ (codes "input " ++ decimal number ++ codes ", " ++ decimal size ++ codes " bytes: ")) }
{
    text.extend_from_slice(b"input ")?;
    push_number(text, number)?;
    text.extend_from_slice(b", ")?;
    push_number(text, size)?;
    text.extend_from_slice(b" bytes: ")
}

/// Whether one of the runs has this status.
#[tactic(auto, using(crate::proofs::Sections::any_here, crate::proofs::Sections::any_passed))]
fn any_with(results: &[ToldRun], status: u8) -> bool
    ensures { result ≡ has_status status results.now }
{
    for told in results {
        if status_of(&told.result) == status {
            return true;
        }
    }
    false
}

/// The status of runs: 77 where one has a report, else 3 where one trapped, else 4 where one is spent.
fn status_of_all(results: &[ToldRun]) -> u8
    ensures { result ≡ status_of_runs results.now }
{
    if any_with(results, Status::Reported as u8) {
        Status::Reported as u8
    } else if any_with(results, Status::Trapped as u8) {
        Status::Trapped as u8
    } else if any_with(results, Status::Spent as u8) {
        Status::Spent as u8
    } else {
        Status::Done as u8
    }
}
