//! The command that words ask for, and what belongs to one on the module in a file: the form and the size of the module's text, and
//! the names of its inputs' files.
ghost use Rattle.std.specs.Prelude.{◌≡◌, None, Some, IfOk, IfSome};
ghost use Rattle.ms_words.specs.{Limits.{IsWithinLimits}, Words.{IsAnswer}};
ghost use Rattle.ms_top.specs.Command.{form_of, input_names, located_file, module_limit, wanted_of as wanted_by};
ghost use Rattle.ms_top.specs.OnFile.{command_of};

use ms_bits::{Boxed, List, Text};
use ms_corpus::Wanted;
use ms_ir::Form;
use ms_words::{Command, Options, WordsError, read_words};
use std::alloc::Global;

/// The command that words ask for, on the heap.
pub fn read_command(alloc: Global, words: &[Text]) -> Result<Boxed<Command>, WordsError>
    ensures answer { IsAnswer words.now result }
    ensures limits { IfOk result IsWithinLimits }
{
    let command = read_words(alloc, words)?;
    Ok(Boxed::new(alloc, command)?)
}

/// What a command does with a module.
#[derive(Clone, Copy)]
pub enum Action<'a> {
    /// Its instrumented form is written.
    Instrument,
    /// It is run as it is, with or without inserted code.
    Run(&'a Options),
    /// Its instrumented form is run.
    Check(&'a Options),
    /// Its instrumented form is run under at most so many schedules, by at most so many threads.
    CheckSchedules {
        options: &'a Options,
        runs: u32,
        workers: u8,
    },
    /// Its instrumented form is run, and the first report is explained.
    Explain(&'a Options),
    /// Its instrumented form is run on each of the inputs in these files, by at most so many threads.
    Corpus {
        inputs: &'a List<Text>,
        options: &'a Options,
        workers: u8,
    },
}

/// What is wanted of what is told of a run with these options.
pub fn wanted_of(options: &Options) -> Wanted
    ensures { result ≡ wanted_by options.now }
{
    Wanted {
        calls: options.calls,
        places: options.locations,
    }
}

/// A command on the module in a file.
#[derive(Clone, Copy)]
pub struct FileCommand<'a> {
    pub file: &'a Text,
    pub action: Action<'a>,
}

impl FileCommand<'_> {
    /// The names of the inputs' files, in order.
    pub fn inputs(&self) -> &[Text]
        ensures { result.now ≡ input_names (command_of self.now) }
    {
        match &self.action {
            Action::Instrument => &[],
            Action::Run(options) => options.input.as_slice(),
            Action::Check(options) => options.input.as_slice(),
            Action::CheckSchedules { options, .. } => options.input.as_slice(),
            Action::Explain(options) => options.input.as_slice(),
            Action::Corpus { inputs, .. } => inputs.as_slice(),
        }
    }

    /// The form in which the module is read.
    pub fn form(&self) -> Form
        ensures { result ≡ form_of (command_of self.now) }
    {
        match &self.action {
            Action::Run(_) => Form::Instrumented,
            Action::Instrument => Form::Plain,
            Action::Check(_) => Form::Plain,
            Action::CheckSchedules { .. } => Form::Plain,
            Action::Explain(_) => Form::Plain,
            Action::Corpus { .. } => Form::Plain,
        }
    }

    /// The most bytes that the module's text may have.
    pub fn limit(&self) -> u64
        ensures { result ≡ module_limit (command_of self.now) }
    {
        match self.form() {
            Form::Plain => 1 << 22,
            Form::Instrumented => 1 << 27,
        }
    }

    /// The name of the module's file, where each line that names a site is to be followed by where it stands.
    pub fn located(&self) -> Option<&[u8]>
        ensures named { IfSome result (λ file. located_file (command_of self.now) ≡ Some file.now) }
        ensures unnamed { result ≡ None → located_file (command_of self.now) ≡ None }
    {
        match &self.action {
            Action::Instrument => None,
            Action::Run(options)
            | Action::Check(options)
            | Action::CheckSchedules { options, .. }
            | Action::Explain(options)
            | Action::Corpus { options, .. } => {
                options.locations.then_some(self.file.as_str().as_bytes())
            }
        }
    }
}
