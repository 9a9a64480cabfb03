//! The fiber of a guest thread that begins, for `ms_threads`.
ghost use Rattle.std.specs.Prelude.{◌≡◌, IfOk};
ghost use Rattle.ms_runs_good_laws.specs.GoodStates.{IsStart};
ghost use Rattle.ms_machine.specs.Spawning.{SpawnedFor};

use ms_bits::NoMemory;
use ms_check::CheckedModule;
use ms_machine_frames::{Fiber, spawn_fiber};
use std::alloc::Global;

/// A fiber that begins with a call of function number `func`, of the type `ptr (ptr)`, with this argument.
pub fn spawn(alloc: Global, m: &CheckedModule, func: u32, argument: u64) -> Result<Fiber, NoMemory>
    requires start { IsStart m.now func }
    ensures spawned { IfOk result (SpawnedFor m.now func argument) }
{
    m.law_valid();
    spawn_fiber(alloc, m.program(), func, argument)
}
