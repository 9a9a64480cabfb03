//! Has the interpreter take one step of a traced run, where the instruction calls nothing outside the module. `made` of a world
//! counts the uninitialised bytes so far.
ghost use Rattle.std.specs.Prelude.{◌≡◌, ◌≤◌, ◌<◌, ◌+◌, ◌^◌, IfOk};
ghost use Rattle.ms_ir.specs.Instructions.{NoMarks};
ghost use Rattle.ms_runs.specs.{declared.runs.Setup.{Setup}, Plain.{PlainState}};
ghost use Rattle.ms_host.specs.State.{Beside, KeepsGiven};
ghost use Rattle.ms_machine.specs.Running.{IsRunning, Runs};
ghost use Rattle.ms_trail_uses.specs.Stepping.{AsksNothing, spent, Stepped};

use ms_bits::NoMemory;
use ms_check::CheckedModule;
use ms_host::World;
use ms_machine::advance;
use ms_machine_frames::{Budget, Fiber, Pause};
use std::alloc::Global;

/// Whether the interpreter stopped only since no step was left.
fn is_spent(pause: &Pause) -> bool
    ensures { result ≡ spent pause.now }
{
    matches!(pause, Pause::Spent)
}

/// Has the interpreter take one step, in a module without marked instructions, at an instruction that calls nothing outside the
/// module. Returns whether the run goes on.
pub fn step(
    alloc: Global,
    m: &CheckedModule,
    fiber: &mut Fiber,
    world: &mut World,
) -> Result<bool, NoMemory>
    requires runs { Runs m.now fiber.old world.old }
    requires room { world.old.made + 2 ^ 26 < 2 ^ 64 }
    requires bare { NoMarks m.now }
    ensures stepped { (u : Setup) (beside : Beside) (state : PlainState) → IsRunning m.now u beside fiber.old world.old state → AsksNothing m.now u state → IfOk result (λ on. Stepped m.now u beside state on fiber.new world.new) }
    ensures given { KeepsGiven world.old world.new }
    ensures made { world.new.made ≤ world.old.made + 2 ^ 26 }
{
    let mut budget = Budget { left: 1 };
    let pause = advance(alloc, m, fiber, world, &mut budget)?;
    let on = is_spent(&pause);
    Ok(on)
}
