//! The public calls at a pause: on to the next one, over it with an answer, and the types of what a call of `printf` is given.
ghost use Rattle.std.specs.Prelude.{◌≡◌, ◌≤◌, ◌<◌, ◌+◌, ◌*◌, ◌^◌, ◌∷◌, ℕ, List, IfOk};
ghost use Rattle.ms_runs.specs.{declared.runs.Setup.{Setup}, Control.{Frame as FrameOf}};
ghost use Rattle.ms_runs.specs.Plain.{PlainState, setting_of};
ghost use Rattle.ms_ir.specs.declared.calls.External.TheVariants.{Printf};
ghost use Rattle.ms_host.specs.declared.calls.HostCall.{HostCall as CallOf};
ghost use Rattle.ms_host.specs.declared.calls.Asked.TheVariants.{External as AskedExternal};
ghost use Rattle.ms_host.specs.{declared.calls.Answer.TheVariants.{Resumed}, Answers.{Answered, asked_effect}};
ghost use Rattle.ms_host.specs.State.{Beside, KeepsGiven, WorldState};
ghost use Rattle.ms_machine_frames.specs.{Owning.{KeepsOwn}, Standing.{frames_of}};
ghost use Rattle.ms_machine_steps.specs.Waiting.{FirstWaits, Waits, answered, types_due};
ghost use Rattle.ms_machine_steps.specs.Advances.{Advanced, HasResumed};
ghost use Rattle.ms_machine.specs.Running.{AllStandFor, IsRunning, Runs, WaitsFor};

use ms_bits::NoMemory;
use ms_check::CheckedModule;
use ms_host::World;
use ms_ir::Ty;
use ms_machine_frames::{Budget, Fiber, Pause};
use ms_machine_steps as steps;
use std::alloc::Global;

/// Goes on until a function is called that the module doesn't define, until the run ends, or until no step is left.
///
/// A step is an unmarked instruction with the marked ones before it. None is begun where none is left. That of an external is
/// counted when it is asked for; then `resume` goes on after the call. A step takes as long in a large module as in a small
/// one. Where memory runs out the run is over.
pub fn advance(
    alloc: Global,
    m: &CheckedModule,
    fiber: &mut Fiber,
    world: &mut World,
    budget: &mut Budget,
) -> Result<Pause, NoMemory>
    requires runs { Runs m.now fiber.old world.old }
    requires room { world.old.made + 2 ^ 26 * budget.old.left < 2 ^ 64 }
    ensures advanced { (u : Setup) (beside : Beside) (state : PlainState) → IsRunning m.now u beside fiber.old world.old state → IfOk result (λ pause. Advanced (IsRunning m.now u beside) m.now u beside state budget.old.left fiber.old.frame.at pause fiber.new world.new budget.new.left) }
    ensures given { KeepsGiven world.old world.new }
    ensures made { world.new.made + 2 ^ 26 * budget.new.left ≤ world.old.made + 2 ^ 26 * budget.old.left }
{
    m.law_valid();
    steps::run_steps(alloc, m.program(), fiber, world, budget)
}

/// Goes on after the call at which a fiber waits, with the answer's value where it has one. Takes no memory.
///
/// The run continues the step in which the call was asked for: where the world afterwards holds what the call does, the fiber
/// stands for the state after it. An external has then ended the step, and a function of the runtime stays within it.
pub fn resume(m: &CheckedModule, fiber: &mut Fiber, value: Option<u64>)
    requires { WaitsFor m.now fiber.old }
    ensures at { fiber.new.frame.at ≡ fiber.old.frame.at + 1 }
    ensures own { KeepsOwn fiber.old fiber.new }
    ensures stands { (u : Setup) (frame : FrameOf ℕ) (below : List (FrameOf ℕ)) (call : CallOf) → AllStandFor m.now (frames_of fiber.old) (frame ∷ below) → Waits m.now u frame call → AllStandFor m.now (frames_of fiber.new) (answered m.now value frame ∷ below) }
    ensures continues { (u : Setup) (beside later : Beside) (before after : WorldState) (state : PlainState) (call : CallOf) → IsRunning m.now u beside fiber.old before state → FirstWaits m.now u state.frames call
        → Answered later (asked_effect (setting_of m.now u) (types_due m.now state.frames) call state.world) (Resumed value) after → after.fill ≡ before.fill → after.slots ≡ before.slots
        → HasResumed (IsRunning m.now u later) m.now u call.asked state fiber.new after }
{
    m.law_valid();
    steps::give_answer(m.program(), fiber, value);
}

/// The types of the arguments of the call at which a fiber waits, where it is one of `printf`. Constant time.
pub fn printed_types<'m>(m: &'m CheckedModule, fiber: &Fiber) -> &'m [Ty]
    requires { WaitsFor m.now fiber.now }
    ensures { (u : Setup) (frames : List (FrameOf ℕ)) (call : CallOf) → AllStandFor m.now (frames_of fiber.now) frames → FirstWaits m.now u frames call → call.asked ≡ AskedExternal Printf → result.now ≡ types_due m.now frames }
{
    m.law_valid();
    steps::printed_types(m.program(), fiber)
}
