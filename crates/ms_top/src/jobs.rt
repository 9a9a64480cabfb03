//! A command on the text of a module: reads, checks, and has `modules.rt` do the rest.
ghost use Rattle.std.specs.Prelude.{◌≡◌, ◌≤◌, length, IfErr, IfOk, IfSome, OnOk, Ok};
ghost use Rattle.ms_check_valid.specs.{Formed.{Formed}, Refusals.{IsRefused}, Valid.{Valid}};
ghost use Rattle.ms_check.specs.Faults.{fault_of};
ghost use Rattle.ms_text_grammar.specs.Texts.{Reads};
ghost use Rattle.ms_words.specs.Limits.{IsWithinLimits};
ghost use Rattle.ms_top.specs.Command.{form_of, module_limit};
ghost use Rattle.ms_top.specs.{OnFile.{command_of}, Parts.{AreShort, IsReady}};
ghost use Rattle.ms_top.specs.Said.{IsAnswerToModule, IsAnswerToReading, IsAnswerToText};

use crate::commands::FileCommand;
use crate::modules::ModuleJob;
use crate::output::Output;
use crate::passes::Pass;
use crate::refused::refused;
use crate::site_lines::Places;
use ms_bits::{Boxed, Bytes, NoMemory};
use ms_check::{CheckError, CheckedModule, check};
use ms_fork::Gate;
use ms_ir::Module;
use ms_read_top::read;
use ms_report::{NoLines, Refusal, SiteLines};
use std::alloc::Global;
use std::mem::forget;
use std::thread::Threads;

/// What every command works with: the runtime, the allocator, the pass that makes the module that is run, and the gate that each
/// run on one of many inputs enters.
#[derive(Drop)]
pub struct Job<'a, R, P, G> {
    pub rt: &'a R,
    pub alloc: Global,
    pub pass: &'a P,
    pub gate: &'a G,
}

impl<R: Threads + Sync, P: Pass, G: Gate + Sync> Job<'_, R, P, G> {
    /// What a command has to say of a module's text, whose runs have these inputs.
    pub fn read_module(
        &self,
        command: &FileCommand<'_>,
        text: &[u8],
        inputs: &[Bytes],
    ) -> Result<Output, NoMemory>
        requires fits { length text.now ≤ module_limit (command_of command.now) }
        requires limits { IsWithinLimits (command_of command.now) }
        requires inputs { AreShort inputs.now }
        ensures { IfOk result (λ a. IsAnswerToText P.gives (command_of command.now) inputs.now text.now a) }
    {
        match read(self.alloc, text, command.form()) {
            Ok(module) => self.locate_sites(command, text, module, inputs),
            Err(cause) => refused(self.alloc, Refusal::Read(cause), &NoLines),
        }
    }

    /// What the command has to say of the module that the text reads as. Where each site stands in the text is found only where the
    /// command asks for it.
    fn locate_sites(
        &self,
        command: &FileCommand<'_>,
        text: &[u8],
        m: Module,
        inputs: &[Bytes],
    ) -> Result<Output, NoMemory>
        requires reads { Reads (form_of (command_of command.now)) text.now m }
        requires formed { Formed m }
        requires ready { IsReady (command_of command.now) m }
        requires limits { IsWithinLimits (command_of command.now) }
        requires inputs { AreShort inputs.now }
        ensures { IfOk result (λ a. IsAnswerToReading P.gives (command_of command.now) inputs.now text.now (Ok m) a) }
    {
        match command.located() {
            None => self.check_module(command, m, inputs, &NoLines),
            Some(file) => {
                let places = Places::of(self.alloc, text, command.form())?;
                let located = places.located(self.alloc, file, text, &m)?;
                self.check_module(command, m, inputs, &located)
            }
        }
    }

    /// What the command has to say of a module, checked first, with these lines under each site. The module's memory isn't given
    /// back: the command ends with its answer, and the process then gives back all at once.
    fn check_module<L: SiteLines>(
        &self,
        command: &FileCommand<'_>,
        m: Module,
        inputs: &[Bytes],
        lines: &L,
    ) -> Result<Output, NoMemory>
        requires formed { Formed m }
        requires ready { IsReady (command_of command.now) m }
        requires limits { IsWithinLimits (command_of command.now) }
        requires inputs { AreShort inputs.now }
        ensures { IfOk result (λ a. IsAnswerToModule P.gives (L.lines lines.now) (command_of command.now) inputs.now m a) }
    {
        match checked(self.alloc, m) {
            Ok(module) => {
                let output = ModuleJob {
                    job: self,
                    m: module.get(),
                    inputs,
                    lines,
                }
                .act(command);
                forget(module);
                output
            }
            Err(cause) => refused(self.alloc, Refusal::Check(cause), lines),
        }
    }
}

/// A module that is checked, on the heap, or why it isn't valid.
fn checked(alloc: Global, m: Module) -> Result<Boxed<CheckedModule>, CheckError>
    requires { Formed m }
    ensures valid { OnOk result (Valid m) }
    ensures kept { IfOk result (λ known. known ≡ m) }
    ensures refused { IfErr result (λ cause. IfSome (fault_of cause) (IsRefused m)) }
{
    match check(alloc, m) {
        Ok(module) => Ok(Boxed::new(alloc, module)?),
        Err(refused) => Err(cause_of(refused)),
    }
}

/// Why a module isn't valid. The module is let go.
fn cause_of(refused: (CheckError, Module)) -> CheckError
    ensures { result ≡ refused.0 }
{
    refused.0
}
