//! The calls that stand at a pause.
ghost use Rattle.std.specs.Prelude.{◌≡◌, ◌<◌, ℕ, List, length, All, IfOk};
ghost use Rattle.ms_runs.specs.{declared.runs.Setup.{Setup}, Control.{Frame as FrameOf}, Plain.{PlainState}, Calls.{call_sites}};
ghost use Rattle.ms_host.specs.State.{Beside, WorldState};
ghost use Rattle.ms_machine_steps.specs.Callers.{CallersOf};
ghost use Rattle.ms_machine.specs.{Running.{IsRunning}, Standing.{RunsSomewhere}, Calls.{number_in, sites_of}};

use ms_bits::{List, NoMemory};
use ms_check::CheckedModule;
use ms_machine_code::Site;
use ms_machine_frames::{Fiber, Frame};
use std::alloc::Global;

/// The site of the instruction with a number.
fn site_of(sites: &[Site], at: usize) -> u32
    requires { at < length sites.now }
    ensures { result ≡ number_in sites.now at }
{
    sites[at].number
}

/// The sites at which calls stand, in their order.
fn list_sites(alloc: Global, sites: &[Site], frames: &[Frame]) -> Result<Vec<u32>, NoMemory>
    requires { All (λ f. f.at < length sites.now) frames.now }
    ensures { IfOk result (λ list. list.items ≡ sites_of sites.now frames.now) }
{
    let mut list = Vec::new(alloc);
    for frame in frames {
        list.push(site_of(sites, frame.at))?;
    }
    Ok(list)
}

/// The sites of the calls that stand at a pause, from the caller of the innermost on: none where a fiber's first function is
/// the innermost. The fiber is one that goes on. Linear in their number.
pub fn calls(alloc: Global, m: &CheckedModule, fiber: &Fiber) -> Result<List<u32>, NoMemory>
    requires { RunsSomewhere m.now fiber.now }
    ensures { (u : Setup) (beside : Beside) (w : WorldState) (state : PlainState) → IsRunning m.now u beside fiber.now w state → IfOk result (λ sites. sites ≡ call_sites m.now state.frames) }
{
    calls_below(alloc, m, fiber)
}

/// The same of any fiber whose callers stand, as those do of one in which a run has ended.
pub fn calls_below(alloc: Global, m: &CheckedModule, fiber: &Fiber) -> Result<List<u32>, NoMemory>
    requires { (frames : List (FrameOf ℕ)) × CallersOf m.now fiber.now frames }
    ensures { (frames : List (FrameOf ℕ)) → CallersOf m.now fiber.now frames → IfOk result (λ sites. sites ≡ call_sites m.now frames) }
{
    m.law_valid();
    let program = m.program();
    let sites = program.sites.as_slice();
    let below = fiber.below.as_slice();
    let mut list = list_sites(alloc, sites, below)?;
    list.reverse();
    Ok(List::from_vec(list))
}
