//! What `gen` says: the text of the module that it makes, or the summary of its run.
ghost use Rattle.std.specs.Prelude.{◌≡◌, ◌∷◌, [], true, false, IfOk};
ghost use Rattle.ms_check_valid.specs.{Formed.{Formed}, Uninstrumented.{CanInstrument}, Valid.{Valid}};
ghost use Rattle.ms_text_grammar.specs.LayoutModules.{written as text_of};
ghost use Rattle.ms_report.specs.SummaryTexts.{summary_of};
ghost use Rattle.ms_words.specs.{Limits.{MadeWithinLimits}, Words.{defaults}};
ghost use Rattle.ms_gen.specs.Generator.{generated};
ghost use Rattle.ms_top.specs.{Command.{setup_of}, Said.{answer_of, status_of as status_of_run, IsAnswerOfGen}};
ghost use Rattle.ms_top.specs.Statuses as statuses;

use crate::jobs::Job;
use crate::modules::status_of;
use crate::output::Output;
use crate::passes::Pass;
use ms_bits::{Boxed, Bytes, NoMemory};
use ms_check::CheckedModule;
use ms_corpus::Wanted;
use ms_fork::Gate;
use ms_gen::generate;
use ms_ir::Module;
use ms_report::summary_text;
use ms_runs::{RunResult, Setup};
use ms_write::write;
use std::alloc::Global;
use std::thread::Threads;

impl<R: Threads + Sync, P: Pass, G: Gate + Sync> Job<'_, R, P, G> {
    /// `gen`: its module is made and written, or checked with no option given.
    pub fn generate(&self, seed: u64, functions: u32, run: bool) -> Result<Output, NoMemory>
        requires { MadeWithinLimits seed functions }
        ensures { IfOk result (λ a. IsAnswerOfGen P.gives run (generated seed functions) a) }
    {
        let module = generate(self.alloc, seed, functions)?;
        if run {
            self.summarise(module)
        } else {
            written(self.alloc, &module)
        }
    }

    /// `gen` with a run: the summary of the run of a module that is known to be valid.
    fn summarise(&self, m: Module) -> Result<Output, NoMemory>
        requires formed { Formed m }
        requires valid { Valid m }
        requires plain { CanInstrument m }
        ensures { IfOk result (λ a. IsAnswerOfGen P.gives true m a) }
    {
        let checked = with_code(self.alloc, m)?;
        self.summarise_checked(checked.get())
    }

    /// The summary for a module with its code: it is run as `check` does with no option given.
    fn summarise_checked(&self, m: &CheckedModule) -> Result<Output, NoMemory>
        requires { CanInstrument m.now }
        ensures { IfOk result (λ a. IsAnswerOfGen P.gives true m.now a) }
    {
        m.law_valid();
        let setup = default_setup(self.alloc)?;
        let told = self.run(m, &setup, default_schedule(), nothing_wanted())?;
        output_of_summary(self.alloc, m.module(), &told.result)
    }
}

/// The answer that is a module's text.
pub fn written(alloc: Global, m: &Module) -> Result<Output, NoMemory>
    requires { Formed m.now }
    ensures { IfOk result (λ a. a ≡ answer_of statuses.done (text_of m.now) []) }
{
    let text = write(alloc, m)?;
    Ok(Output::on_out(alloc, text))
}

/// A module that is known to be valid, with its code, on the heap.
fn with_code(alloc: Global, m: Module) -> Result<Boxed<CheckedModule>, NoMemory>
    requires formed { Formed m }
    requires valid { Valid m }
    ensures { IfOk result (λ checked. checked ≡ m) }
{
    let checked = CheckedModule::of_valid(alloc, m)?;
    Boxed::new(alloc, checked)
}

/// The schedule of a run where no option is.
fn default_schedule() -> &'static [u8]
    ensures { result.now ≡ 0 ∷ [] }
{
    b"\0"
}

/// What is wanted of such a run beside its result.
fn nothing_wanted() -> Wanted
    ensures { result ≡ record { calls = false; places = false } }
{
    Wanted {
        calls: false,
        places: false,
    }
}

/// What a run is given where no option is: no input, the fill a5, ten million steps, one report.
fn default_setup(alloc: Global) -> Result<Setup, NoMemory>
    ensures { IfOk result (λ s. s ≡ setup_of defaults []) }
{
    let fill = vec![in alloc; 0xa5]?;
    Ok(Setup {
        input: Bytes::from_vec(Vec::new(alloc)),
        fill: Bytes::from_vec(fill),
        steps: 10000000,
        reports: 1,
        once: false,
    })
}

/// The summary of a run, with the status that it decides.
fn output_of_summary(alloc: Global, m: &Module, r: &RunResult) -> Result<Output, NoMemory>
    requires { Formed m.now }
    ensures { IfOk result (λ a. a ≡ answer_of (status_of_run r.now) (summary_of m.now r.now) []) }
{
    let out = summary_text(alloc, m, r)?;
    Ok(Output {
        status: status_of(r),
        out: Bytes::from_vec(out),
        err: Bytes::from_vec(Vec::new(alloc)),
    })
}
