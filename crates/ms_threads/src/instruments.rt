//! The public call of the pass for modules with threads, with what it promises under each schedule.
ghost use Rattle.std.specs.Prelude.{◌≡◌, ℕ, List, IfOk};
ghost use Rattle.ms_ir.specs.Instructions.{strip};
ghost use Rattle.ms_runs.specs.{declared.runs.Setup.{Setup as SetupOf}, Faithful.{Fair, Faithful, Undisturbed}};
ghost use Rattle.ms_runs.specs.{Plain.{plain}, Calls.{SameCalls}};
ghost use Rattle.ms_check_valid.specs.Uninstrumented.{CanInstrument};
ghost use Rattle.ms_pass_form_laws.specs.Elided.{IsElided, ChecksUnclean};
ghost use Rattle.ms_pass.specs.Passed.{IsMadeOf};
ghost use Rattle.ms_runs_threads.specs.PlainFibers.{plain_threads};
ghost use Rattle.ms_threads.specs.{Faithful.{FaithfulThreads, IsSchedule}, Fills.{ThreadsHoldUnderFills}};

use ms_bits::NoMemory;
use ms_check::CheckedModule;
use ms_fork::Gate;
use ms_pass::instrument;
use std::alloc::Global;
use std::thread::Threads;

/// Inserts shadow code into a module that can be instrumented, as `instrument` does: under each schedule the plain run of the
/// answer is the shadow run of the module, with the same calls at each report and where it ends, and blind uses at the same sites;
/// without what is inserted it is the module itself. The output of a run is a beginning of the module's own. Where the run up to the first report counts no blind use, it
/// is the same under every fill.
/// Linear in the module.
pub fn instrument_threads<R: Threads + Sync, G: Gate + Sync>(
    rt: &R,
    alloc: Global,
    m: &CheckedModule,
    gate: &G,
) -> Result<CheckedModule, NoMemory>
    requires { CanInstrument m.now }
    ensures threads { IfOk result (λ j. FaithfulThreads m.now j) }
    ensures pass { IfOk result (λ j. IsElided m.now j) }
    ensures checks { IfOk result (λ j. ChecksUnclean m.now j) }
    ensures faithful { IfOk result (λ j. Faithful m.now j) }
    ensures calls { IfOk result (λ j. SameCalls m.now j) }
    ensures stripped { IfOk result (λ j. strip j ≡ m.now) }
    ensures undisturbed { IfOk result (λ j. (setup : SetupOf) → Fair setup → Undisturbed (plain j setup) (plain m.now setup)) }
    ensures pieces { IfOk result (λ j. IsMadeOf m.now j) }
    ensures holds { IfOk result (λ j. (setup : SetupOf) → Fair setup → (schedule : List ℕ) → IsSchedule schedule → ThreadsHoldUnderFills m.now setup schedule (plain_threads j setup schedule)) }
{
    m.law_valid();
    instrument(rt, alloc, m, gate)
}
