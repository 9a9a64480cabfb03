//! The fiber and the world at the start of a run.
ghost use Rattle.std.specs.Prelude.{◌≡◌, ◌≢◌, ◌<◌, map, length, IfOk};
ghost use Rattle.ms_runs.specs.{Globals.{address_of, constant}, Plain.{start_world, plain_start}};
ghost use Rattle.ms_check_valid.specs.Valid.{Valid};
ghost use Rattle.ms_machine_code.specs.Constants.{globals_constants};
ghost use Rattle.ms_host.specs.{State.{nothing_beside}, Shows.{Shows}, SlotBytes.{ShowsSlots}};
ghost use Rattle.ms_machine.specs.Running.{IsRunning};

use ms_alloc::AllocError;
use ms_bits::{NoMemory, law_bytes_in_range};
use ms_check::CheckedModule;
use ms_check_tables::Extents;
use ms_host::World;
use ms_ir::Module;
use ms_machine_frames::{Fiber, start_fiber};
use ms_runs::Setup;
use std::alloc::Global;

/// The world at the start of a run of a valid module: the globals alone stand in memory, and nothing is taken or printed.
/// `extents` are those of the module's named types, and `words` are the constants in the initialisers of its globals, in
/// text order.
///
/// The time is that of making the globals, and linear in the input and the fill, which are copied. A valid module's globals
/// fit.
fn start_world(
    alloc: Global,
    m: &Module,
    extents: &Extents<'_>,
    words: &[u64],
    setup: &Setup,
) -> Result<World, NoMemory>
    requires valid { Valid m.now }
    requires extents { extents.now ≡ m.now.types }
    requires words { words.now ≡ map (constant m.now.types (address_of m.now)) (globals_constants m.now.globals) }
    requires filled { 0 < length setup.now.fill }
    ensures shows { IfOk result (λ w. Shows w nothing_beside (start_world m.now setup.now)) }
    ensures slots { IfOk result (λ w. ShowsSlots w.slots (λ a. 0)) }
    ensures fill { IfOk result (λ w. w.fill ≡ setup.now.fill) }
    ensures input { IfOk result (λ w. w.input ≡ setup.now.input) }
    ensures made { IfOk result (λ w. w.made ≡ 0) }
{
    let mut world = World::new(alloc, setup.input.as_slice(), setup.fill.as_slice())?;
    match world.make_globals(extents, m.globals.as_slice(), words) {
        Ok(()) => Ok(world),
        Err(fault) => Err(no_memory(fault)),
    }
}

/// Running out of memory, where a fault can be nothing else.
fn no_memory(fault: AllocError) -> NoMemory
    requires { fault ≢ AllocError.Full }
{
    match fault {
        AllocError::NoMemory => std::alloc::AllocError,
        AllocError::Full => unreachable!(),
    }
}

/// The world at the start of a run of a checked module.
fn world_of(alloc: Global, m: &CheckedModule, setup: &Setup) -> Result<World, NoMemory>
    requires filled { 0 < length setup.now.fill }
    ensures shows { IfOk result (λ w. Shows w nothing_beside (start_world m.now setup.now)) }
    ensures slots { IfOk result (λ w. ShowsSlots w.slots (λ a. 0)) }
    ensures fill { IfOk result (λ w. w.fill ≡ setup.now.fill) }
    ensures made { IfOk result (λ w. w.made ≡ 0) }
{
    m.law_valid();
    let module = m.module();
    let extents = Extents::of(alloc, module)?;
    start_world(alloc, module, &extents, m.program().words.as_slice(), setup)
}

/// The fiber and the world at the start of a run of a checked module: the globals stand in memory, and `main` is called.
///
/// The time is that of making the globals and the values of `main`, near to linear in the module's named types, and linear in
/// the input and the fill, which are copied. A valid module's globals fit.
pub fn start(alloc: Global, m: &CheckedModule, setup: &Setup) -> Result<(Fiber, World), NoMemory>
    requires filled { 0 < length setup.now.fill }
    ensures running { IfOk result (λ s. IsRunning m.now setup.now nothing_beside s.0 s.1 (plain_start m.now setup.now)) }
    ensures made { IfOk result (λ s. s.1.made ≡ 0) }
{
    m.law_valid();
    law_bytes_in_range(&setup.input);
    law_bytes_in_range(&setup.fill);
    let world = world_of(alloc, m, setup)?;
    let fiber = start_fiber(alloc, m.program())?;
    Ok((fiber, world))
}
