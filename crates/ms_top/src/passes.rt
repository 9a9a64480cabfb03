//! The pass as a parameter of the top call: the program's own, and one that inserts nothing, for tests.
ghost use Rattle.std.specs.{Prelude.{◌≡◌, IfOk}, Thread.{IsSync}};
ghost use Rattle.ms_ir.specs.{declared.syntax.Module.{Module as ModuleOf}, Instructions.{strip}};
ghost use Rattle.ms_ir.specs.ThreadCalls.{is_threaded};
ghost use Rattle.ms_check_valid.specs.{Formed.{Formed}, Uninstrumented.{CanInstrument}};
ghost use Rattle.ms_top.specs.Instrumented.{IsInstrumented};

use ms_bits::{Boxed, Duplicate, NoMemory};
use ms_check::CheckedModule;
use ms_fork::OpenGate;
use ms_ir::Module;
use ms_pass::instrumented;
use ms_threads::{instrument_threads, threaded};
use std::alloc::Global;
use std::thread::Threads;

/// What makes the module that is run in place of the one that is read.
pub trait Pass {
    /// Which modules the pass may make of a module: first the given one, then the made one.
    ghost gives: { ModuleOf → ModuleOf → Type 0 };

    /// The module as the pass makes it, by threads of the runtime where it makes some. Without what is inserted it is the
    /// module itself.
    fn instrument<R: Threads + Sync>(
        &self,
        rt: &R,
        alloc: Global,
        m: &CheckedModule,
    ) -> Result<CheckedModule, NoMemory>
        requires shared { IsSync R.row }
        requires plain { CanInstrument m.now }
        ensures gives { IfOk result (λ j. gives m.now j) }
        ensures stripped { IfOk result (λ j. strip j ≡ m.now) };

    /// The module as the pass makes it, to be written and not run, so that no code of it is needed. It is formed.
    fn instrumented<R: Threads + Sync>(
        &self,
        rt: &R,
        alloc: Global,
        m: &CheckedModule,
    ) -> Result<Module, NoMemory>
        requires shared { IsSync R.row }
        requires plain { CanInstrument m.now }
        ensures gives { IfOk result (λ j. gives m.now j) }
        ensures formed { IfOk result (λ j. Formed j) }
    {
        let module = self.instrument(rt, alloc, m)?;
        module.law_valid();
        Ok(module.into_module())
    }
}

/// Whether a checked module has threads. Takes no memory; linear in the module.
pub(crate) fn has_threads(m: &CheckedModule) -> bool
    ensures { result ≡ is_threaded m.now }
{
    threaded(m.module())
}

/// The module that a pass makes, on the heap: it has threads exactly where the one that is read has.
pub(crate) fn instrumented_by<R: Threads + Sync, P: Pass>(
    rt: &R,
    alloc: Global,
    m: &CheckedModule,
    pass: &P,
) -> Result<Boxed<CheckedModule>, NoMemory>
    requires { CanInstrument m.now }
    ensures gives { IfOk result (λ j. P.gives m.now j) }
    ensures threads { IfOk result (λ j. is_threaded j ≡ is_threaded m.now) }
{
    let instrumented = pass.instrument(rt, alloc, m)?;
    instrumented.law_valid();
    Boxed::new(alloc, instrumented)
}

/// The pass of `ms_pass`, each of whose pieces enters a gate. One call makes the module, with threads or without.
#[derive(Drop)]
pub struct RealPass<G> {
    gate: G,
}

impl<G> RealPass<G> {
    /// The pass whose pieces enter this gate.
    pub fn new(gate: G) -> RealPass<G> {
        RealPass { gate }
    }
}

impl Pass for RealPass<OpenGate> {
    ghost gives = { IsInstrumented };

    fn instrument<R: Threads + Sync>(
        &self,
        rt: &R,
        alloc: Global,
        m: &CheckedModule,
    ) -> Result<CheckedModule, NoMemory> {
        m.law_valid();
        let module = instrument_threads(rt, alloc, m, &self.gate)?;
        module.law_valid();
        Ok(module)
    }

    fn instrumented<R: Threads + Sync>(
        &self,
        rt: &R,
        alloc: Global,
        m: &CheckedModule,
    ) -> Result<Module, NoMemory> {
        m.law_valid();
        let module = instrumented(rt, alloc, m, &self.gate)?;
        Ok(module)
    }
}

/// A pass that inserts nothing: what is then said is said of the module itself.
#[derive(Drop)]
pub struct PlainPass;

impl Pass for PlainPass {
    ghost gives = { λ m j. j ≡ m };

    #[tactic(auto, using(crate::proofs::Plainly::strips))]
    fn instrument<R: Threads + Sync>(
        &self,
        _rt: &R,
        alloc: Global,
        m: &CheckedModule,
    ) -> Result<CheckedModule, NoMemory> {
        m.copy(alloc)
    }
}
