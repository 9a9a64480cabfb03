//! What is wanted of what is told of a run, beside its result.
ghost use Rattle.std.specs.Prelude.{◌≡◌, [], None, false, if◌then◌else◌, IfOk};
ghost use Rattle.ms_ir.specs.ThreadCalls.{is_threaded};
ghost use Rattle.ms_runs.specs.Limits.{WithinLimits};
ghost use Rattle.ms_corpus.specs.Wanted.{is_any, of_told, plain_wanted};

use ms_bits::{List, NoMemory};
use ms_check::CheckedModule;
use ms_runs::{BlindPlace, Calls, Setup};
use ms_runtime::{ToldRun, run_told};
use std::alloc::Global;

/// What is wanted of what is told of a run.
#[derive(Clone, Copy, Debug, PartialEq, Eq)]
pub struct Wanted {
    /// The calls that stood at each report, and where the run ended.
    pub calls: bool,
    /// The places of its blind uses.
    pub places: bool,
}

/// These calls, if they are wanted.
fn calls_if(alloc: Global, calls: List<Calls>, wanted: bool) -> List<Calls>
    ensures { result ≡ (if wanted then calls else []) }
{
    if wanted {
        calls
    } else {
        List::from_vec(Vec::new(alloc))
    }
}

/// The calls where a run ended, if they are wanted.
fn end_calls_if(calls: Option<Calls>, wanted: bool) -> Option<Calls>
    ensures { result ≡ (if wanted then calls else None) }
{
    if wanted { calls } else { None }
}

/// These places, if they are wanted.
fn places_if(alloc: Global, places: List<BlindPlace>, wanted: bool) -> List<BlindPlace>
    ensures { result ≡ (if wanted then places else []) }
{
    if wanted {
        places
    } else {
        List::from_vec(Vec::new(alloc))
    }
}

impl Wanted {
    /// Whether something is wanted, so that the run is to tell of itself.
    pub fn any(self) -> bool
        ensures { result ≡ is_any self }
    {
        self.calls || self.places
    }

    /// Of what is told of a run what is wanted.
    pub fn of_told(self, alloc: Global, told: ToldRun) -> ToldRun
        ensures { result ≡ of_told self told }
    {
        ToldRun {
            result: told.result,
            calls: calls_if(alloc, told.calls, self.calls),
            end_calls: end_calls_if(told.end_calls, self.calls),
            places: places_if(alloc, told.places, self.places),
        }
    }
}

/// Runs a checked module without thread calls to its end. Ok is what is wanted of what its plain run tells.
pub fn run_wanted(
    alloc: Global,
    m: &CheckedModule,
    setup: &Setup,
    wanted: Wanted,
) -> Result<ToldRun, NoMemory>
    requires limits { WithinLimits setup.now }
    requires alone { is_threaded m.now ≡ false }
    ensures { IfOk result (λ t. t ≡ plain_wanted wanted m.now setup.now) }
{
    let told = run_told(alloc, m, setup, wanted.any())?;
    Ok(wanted.of_told(alloc, told))
}
