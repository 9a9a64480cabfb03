//! What a fiber shows at a pause: where it stands, how many calls stand, and the values of the innermost.
ghost use Rattle.std.specs.Prelude.{◌≡◌, ◌-◌, ◌^◌, ℕ, List, length, min};
ghost use Rattle.ms_ir.specs.declared.syntax.Module.{Module};
ghost use Rattle.ms_runs.specs.{declared.runs.Setup.{Setup}, Control.{Frame as FrameOf}, Plain.{PlainState}};
ghost use Rattle.ms_host.specs.State.{Beside, WorldState};
ghost use Rattle.ms_machine_frames.specs.Standing.{frames_of};
ghost use Rattle.ms_machine.specs.{Running.{AllStandFor, IsRunning}, Standing.{IsPlaceDue, IsWordNamed, RunsSomewhere}};

use crate::places::{func_of, place_at};
use crate::words::word_in;
use ms_bits::Word;
use ms_check::CheckedModule;
use ms_ir::{Name, Place};
use ms_machine_frames::Fiber;

/// Where a fiber stands at a pause: the place of the instruction that is due in the innermost call, its function, block and
/// instruction each counted from 0. Where a call waits for its answer, that is the call.
///
/// The fiber is one that goes on: a run that has ended stands nowhere. Takes no memory, and is linear in the module.
pub fn place(m: &CheckedModule, fiber: &Fiber) -> Place
    requires { RunsSomewhere m.now fiber.now }
    ensures { (u : Setup) (beside : Beside) (w : WorldState) (state : PlainState) → IsRunning m.now u beside fiber.now w state → IsPlaceDue state.frames result }
{
    m.law_valid();
    place_at(m.module(), fiber.frame.at)
}

/// How many calls stand at a pause, that of `main` among them. The count stands still at the greatest number of 32 bits.
/// Takes no memory, and constant time.
pub fn frames(fiber: &Fiber) -> u32
    ensures count { result ≡ min (length (frames_of fiber.now)) (2 ^ 32 - 1) }
    ensures stand { (m : Module) (frames : List (FrameOf ℕ)) → AllStandFor m (frames_of fiber.now) frames → result ≡ min (length frames) (2 ^ 32 - 1) }
{
    let below = fiber.below.len();
    if below < u32::MAX as usize {
        below as u32 + 1
    } else {
        u32::MAX
    }
}

/// The word of the parameter or result with a name in the innermost call, at a pause: it is as wide as its type, a pointer 64
/// bits, and its number is what an operand with this name reads. None exactly where the function has no parameter or result
/// with the name: that of a basic block has no word. Of a result that wasn't computed yet it is what the definitions of runs
/// hold for it so far.
///
/// The fiber is one that goes on: in a run that has ended no call stands. Takes no memory, and is linear in the module.
pub fn word(m: &CheckedModule, fiber: &Fiber, name: &Name) -> Option<Word>
    requires { RunsSomewhere m.now fiber.now }
    ensures { (u : Setup) (beside : Beside) (w : WorldState) (state : PlainState) → IsRunning m.now u beside fiber.now w state → IsWordNamed m.now state.frames name.now result }
{
    m.law_valid();
    let func = func_of(m.module(), fiber.frame.at);
    word_in(func, &fiber.frame.values, name)
}
