//! The two walks of a call: what the format comes to is measured first, and printed where it fits. `made` of a world counts the
//! uninitialised bytes so far.
ghost use Rattle.std.specs.Prelude.{◌≡◌, ◌++◌, ℕ, List, Result, Ok, IfOk, OnOk};
ghost use Rattle.ms_bits.specs.declared.traps.Trap.{Trap as TrapOf};
ghost use Rattle.ms_runs.specs.{World.{World as Meant}, Formats.{both_shown}};
ghost use Rattle.ms_host.specs.{State.{Beside, Keeps}, Shows.{Shows}};
ghost use Rattle.ms_printf.specs.Walks.{shown_of, rest_shown, IsWalk, IsReadable, Measures};

use crate::shown::{FormatFault, Shown};
use crate::walks::Walk;
use ms_bits::NoMemory;
use ms_host::World;
use ms_ir::Ty;
use std::alloc::Global;

/// The number of bytes of the parts so far and one part more, or the fault of one of them. A string that doesn't end within its
/// allocation comes before any fault of the format.
fn joined(sum: Result<u64, FormatFault>, part: &Shown) -> Result<u64, FormatFault>
    ensures { (meant : Meant) (came : Result (List ℕ) TrapOf) → Measures sum came → Measures result (both_shown came (shown_of meant part.now)) }
{
    match (sum, part) {
        (Ok(n), Shown::Memory { len, .. }) => Ok(n.saturating_add(*len)),
        (Ok(n), Shown::Text(text)) => Ok(n.saturating_add(text.len() as u64)),
        (Ok(_), Shown::Fault(fault)) => Err(*fault),
        (Err(FormatFault::Format), Shown::Fault(fault)) => Err(*fault),
        (Err(fault), _) => Err(fault),
    }
}

/// How many bytes the rest of a format prints, or its fault. Nothing that it prints is kept.
pub(crate) fn measured(
    alloc: Global,
    world: &World,
    format: Walk,
    types: &[Ty],
    words: &[u64],
) -> Result<Result<u64, FormatFault>, NoMemory>
    requires { IsWalk world.now.planes.table format }
    ensures { (beside : Beside) (meant : Meant) → Shows world.now beside meant → IfOk result (λ sum. Measures sum (rest_shown meant types.now words.now format)) }
{
    let mut walk = format;
    let mut sum = Ok(0);
    'parts: while let Some(part) = walk.step(alloc, world, types, words)? {
        sum = joined(sum, &part);
    }
    Ok(sum)
}

/// Prints a part that isn't a fault.
fn print_part(world: &mut World, part: &Shown) -> Result<(), NoMemory>
    requires { IsReadable world.old.planes.table part.now }
    ensures printed { (beside : Beside) (meant : Meant) (bytes : List ℕ) → Shows world.old beside meant → shown_of meant part.now ≡ Ok bytes → OnOk result (Shows world.new beside (record meant { output = meant.output ++ bytes })) }
    ensures planes { world.new.planes ≡ world.old.planes }
    ensures keeps { Keeps world.old world.new }
    ensures made { world.new.made ≡ world.old.made }
{
    match part {
        Shown::Memory { addr, len } => world.print_range(*addr, *len),
        Shown::Text(text) => world.print_bytes(text.as_slice()),
        Shown::Fault(_) => Ok(()),
    }
}

/// Prints what the rest of a format comes to, which has no fault.
pub(crate) fn print_rest(
    alloc: Global,
    world: &mut World,
    format: Walk,
    types: &[Ty],
    words: &[u64],
) -> Result<(), NoMemory>
    requires { IsWalk world.old.planes.table format }
    ensures printed { (beside : Beside) (meant : Meant) (bytes : List ℕ) → Shows world.old beside meant → rest_shown meant types.now words.now format ≡ Ok bytes → OnOk result (Shows world.new beside (record meant { output = meant.output ++ bytes })) }
    ensures keeps { Keeps world.old world.new }
    ensures made { world.new.made ≡ world.old.made }
{
    let mut walk = format;
    'parts: while let Some(part) = walk.step(alloc, world, types, words)? {
        print_part(world, &part)?;
    }
    Ok(())
}
