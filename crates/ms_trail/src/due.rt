//! The code of the instruction that is due, and its site.
ghost use Rattle.std.specs.Prelude.{◌≡◌, ◌∷◌, ◌<◌, ℕ, List, length, get_or};
ghost use Rattle.ms_ir.specs.Instructions.{site_at};
ghost use Rattle.ms_runs.specs.{declared.runs.Setup.{Setup}, Control.{Frame as FrameOf}, Plain.{PlainState}};
ghost use Rattle.ms_host.specs.State.{Beside};
ghost use Rattle.ms_machine.specs.Running.{IsRunning, Runs};
ghost use Rattle.ms_trail_uses.specs.Due.{IsDue};
ghost use Rattle.ms_trail.specs.Ready.{FitsHere};

use ms_check::CheckedModule;
use ms_host::World;
use ms_machine_code::{Code, Site};
use ms_machine_frames::Fiber;

/// The instruction with number `at`, as code.
pub(crate) fn code_at(code: &[Code], at: usize) -> &Code
    requires { at < length code.now }
    ensures { result.now ≡ get_or code.now at result.now }
{
    &code[at]
}

/// The site of the instruction with number `at` in the code.
fn site_at_number(sites: &[Site], at: usize) -> Site
    requires { at < length sites.now }
    ensures { result ≡ get_or sites.now at result }
{
    sites[at]
}

/// The code of the instruction at which a fiber stands.
pub fn due_code<'a>(m: &'a CheckedModule, fiber: &Fiber, world: &World) -> &'a Code
    requires { Runs m.now fiber.now world.now }
    ensures due { IsDue m.now fiber.now world.now result.now }
    ensures fits { FitsHere fiber.now result.now }
{
    m.law_valid();
    let program = m.program();
    code_at(program.code.as_slice(), fiber.frame.at)
}

/// The site of the instruction at which a fiber stands.
pub fn due_site(m: &CheckedModule, fiber: &Fiber, world: &World) -> u32
    requires { Runs m.now fiber.now world.now }
    ensures { (u : Setup) (beside : Beside) (state : PlainState) (frame : FrameOf ℕ) (below : List (FrameOf ℕ)) → IsRunning m.now u beside fiber.now world.now state → state.frames ≡ frame ∷ below → result ≡ site_at m.now frame.func frame.block frame.place }
{
    m.law_valid();
    let program = m.program();
    let site = site_at_number(program.sites.as_slice(), fiber.frame.at);
    site.number
}
