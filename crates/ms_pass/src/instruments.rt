//! The public calls of the pass, with what they promise: the instrumented module as data, and checked.
ghost use Rattle.std.specs.Prelude.{◌≡◌, false, IfOk};
ghost use Rattle.ms_ir.specs.{ThreadCalls.{is_threaded}, Instructions.{strip}};
ghost use Rattle.ms_runs.specs.{declared.runs.Setup.{Setup as SetupOf}, Faithful.{Fair, Faithful, Undisturbed}};
ghost use Rattle.ms_runs.specs.Plain.{plain};
ghost use Rattle.ms_check_valid.specs.{Formed.{Formed}, Uninstrumented.{CanInstrument}, Valid.{Valid}};
ghost use Rattle.ms_runs_good_laws.specs.Fills.{InsertedUnderFills};
ghost use Rattle.ms_runs_fills_laws.specs.{Checked.{HoldsUnderFills}, Chosen.{HoldsUnderChoices}};
ghost use Rattle.ms_pass_form_laws.specs.Elided.{IsElided, ChecksUnclean};
ghost use Rattle.ms_pass.specs.Passed.{IsMadeOf};

use crate::modules::passed_module;
use ms_bits::NoMemory;
use ms_check::CheckedModule;
use ms_elide::clean;
use ms_fork::Gate;
use ms_ir::Module;
use std::alloc::Global;
use std::thread::Threads;

/// Inserts shadow code into a module that can be instrumented, after Stepanov and Serebryany (CGO 2015): the plain run of
/// the answer is the shadow run of the module with every fair setup, and without what is inserted it is the module itself.
/// Nothing is computed of values that are clean in every run, and they aren't checked.
/// Where the run of a module without thread calls counts no blind use up to the first report, it is the same under every
/// fill, and what a run says with a clean verdict such a module itself prints under every fill, also where each step has a fill
/// of its own. The output of a run is
/// a beginning of the module's own. The answer is formed and valid, and isn't compiled: it is for
/// being written.
///
/// The functions are made in pieces of at most eight, by several threads where there are more. Each piece enters the gate
/// with the number of its first function, counted from 0, before it does anything else. The answer is the same for every
/// gate: its functions are made one by one, each with the sites and roots before it, and its globals and declarations are
/// those of the module and then the slots and the runtime functions. Linear in the module.
pub fn instrumented<R: Threads + Sync, G: Gate + Sync>(
    rt: &R,
    alloc: Global,
    m: &CheckedModule,
    gate: &G,
) -> Result<Module, NoMemory>
    requires { CanInstrument m.now }
    ensures pass { IfOk result (λ j. IsElided m.now j) }
    ensures checks { IfOk result (λ j. ChecksUnclean m.now j) }
    ensures faithful { IfOk result (λ j. Faithful m.now j) }
    ensures stripped { IfOk result (λ j. strip j ≡ m.now) }
    ensures formed { IfOk result (λ j. Formed j) }
    ensures valid { IfOk result (λ j. Valid j) }
    ensures under_fills { IfOk result (λ j. is_threaded m.now ≡ false → (setup : SetupOf) → Fair setup → InsertedUnderFills j setup) }
    ensures holds { IfOk result (λ j. is_threaded m.now ≡ false → (setup : SetupOf) → Fair setup → HoldsUnderFills m.now setup (plain j setup)) }
    ensures choices { IfOk result (λ j. is_threaded m.now ≡ false → (setup : SetupOf) → Fair setup → HoldsUnderChoices m.now setup (plain j setup)) }
    ensures undisturbed { IfOk result (λ j. (setup : SetupOf) → Fair setup → Undisturbed (plain j setup) (plain m.now setup)) }
    ensures pieces { IfOk result (λ j. IsMadeOf m.now j) }
{
    m.law_valid();
    let values = clean(alloc, m)?;
    let module = passed_module(rt, alloc, m.module(), &values, gate)?;
    Ok(module)
}

/// Inserts shadow code as `instrumented` does, and gives a checked module, which can be run. Linear in the module.
pub fn instrument<R: Threads + Sync, G: Gate + Sync>(
    rt: &R,
    alloc: Global,
    m: &CheckedModule,
    gate: &G,
) -> Result<CheckedModule, NoMemory>
    requires { CanInstrument m.now }
    ensures pass { IfOk result (λ j. IsElided m.now j) }
    ensures checks { IfOk result (λ j. ChecksUnclean m.now j) }
    ensures faithful { IfOk result (λ j. Faithful m.now j) }
    ensures stripped { IfOk result (λ j. strip j ≡ m.now) }
    ensures under_fills { IfOk result (λ j. is_threaded m.now ≡ false → (setup : SetupOf) → Fair setup → InsertedUnderFills j setup) }
    ensures holds { IfOk result (λ j. is_threaded m.now ≡ false → (setup : SetupOf) → Fair setup → HoldsUnderFills m.now setup (plain j setup)) }
    ensures choices { IfOk result (λ j. is_threaded m.now ≡ false → (setup : SetupOf) → Fair setup → HoldsUnderChoices m.now setup (plain j setup)) }
    ensures undisturbed { IfOk result (λ j. (setup : SetupOf) → Fair setup → Undisturbed (plain j setup) (plain m.now setup)) }
    ensures pieces { IfOk result (λ j. IsMadeOf m.now j) }
{
    let module = instrumented(rt, alloc, m, gate)?;
    CheckedModule::of_valid(alloc, module)
}
