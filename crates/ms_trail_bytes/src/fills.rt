//! Shadow that is set or copied in memory, each with its moves in the log: for a store, an `alloca`, and what `sets.rt` and
//! `unsets.rt` do for externals. A traced run keeps no origins in memory: cells get 0, and the moves tell where bits come from.
//! Moves are counted in 64 bits: `few` says that the count so far leaves room for those that are told. `alloc` is for the names
//! that moves copy; the log grows by its own allocator. `made` of a world counts the uninitialised bytes so far.
ghost use Rattle.std.specs.Prelude.{◌≡◌, ◌≤◌, ◌<◌, ◌+◌, ◌^◌, ◌≢◌, ◌++◌, [], ◌∷◌, ℕ, List, true, IsTrue, OnOk, if◌then◌else◌};
ghost use Rattle.ms_alloc.specs.Allocations.{is_good as is_live};
ghost use Rattle.ms_bits.specs.Maps.{byte_of};
ghost use Rattle.ms_runs.specs.{World.{World as Meant}, Memory.{is_good, set_cells, set_shadow}};
ghost use Rattle.ms_runs.specs.Origins.{copy_planes, poison};
ghost use Rattle.ms_runs_good_laws.specs.GoodWorlds.{GoodWorld, FitsCell};
ghost use Rattle.ms_host.specs.{State.{Beside, Keeps}, Shows.{Shows}};
ghost use Rattle.ms_trail_moves.specs.{declared.moves.Source.{Source as SourceOf}, declared.moves.Move.{Move as MoveOf}};
ghost use Rattle.ms_trail_moves.specs.{Written.{Copied, Filled, made}, Events.{written_moves, memory_moves}};
ghost use Rattle.ms_trail_bytes.specs.Logs.{IsLog};

use crate::logs::Log;
use crate::spans::{Stamp, tell_bytes};
use ms_bits::NoMemory;
use ms_host::World;
use ms_trail_moves::moves::Source;
use std::alloc::Global;

/// Logs the moves of `n` bytes, from the address `first` on, that come from root number `root`, where they are good.
fn tell_unset(
    alloc: Global,
    world: &World,
    log: &mut Log,
    stamp: Stamp,
    root: u32,
    first: u64,
    n: u64,
) -> Result<(), NoMemory>
    requires few { log.old.count + n < 2 ^ 64 }
    ensures told { (beside : Beside) (meant : Meant) (moves : List MoveOf) → Shows world.now beside meant → GoodWorld FitsCell meant → IsLog log.old moves
        → OnOk result (IsLog log.new (moves ++ memory_moves stamp.event stamp.site meant.shadow (if is_good meant first n then Filled first n (Source.Root root) ∷ [] else []))) }
    ensures count { log.new.count ≤ log.old.count + n }
{
    let good = world.covers(first, n);
    if good {
        let from = Source::Root { number: root };
        tell_bytes(alloc, world, log, stamp, &from, false, first, n)
    } else {
        Ok(())
    }
}

/// Poisons the bytes from `from` to before `to`, counted from an address, where they are good, and logs that they come from root
/// number `root`: the instruction that made them.
pub fn unset(
    alloc: Global,
    world: &mut World,
    log: &mut Log,
    stamp: Stamp,
    root: u32,
    addr: u64,
    from: u64,
    to: u64,
) -> Result<(), NoMemory>
    requires few { log.old.count + to < 2 ^ 64 }
    ensures unset { (beside : Beside) (meant : Meant) (moves : List MoveOf) → Shows world.old beside meant → GoodWorld FitsCell meant → IsLog log.old moves
        → OnOk result (Shows world.new beside (poison addr from to 0 meant) × IsLog log.new (moves ++ memory_moves stamp.event stamp.site (poison addr from to 0 meant).shadow (made (poison addr from to 0 meant) addr from to root))) }
    ensures keeps { Keeps world.old world.new }
    ensures made { world.new.made ≡ world.old.made }
    ensures count { log.new.count ≤ log.old.count + to }
{
    world.poison(addr, from, to, 0);
    if from < to {
        let first = addr.wrapping_add(from);
        let n = to - from;
        tell_unset(alloc, world, log, stamp, root, first, n)
    } else {
        Ok(())
    }
}

/// Gives `size` good bytes the bytes of a mask as shadow, the least first, and, where it isn't 0, logs that they come from a
/// source: a store.
pub fn shade_stored(
    alloc: Global,
    world: &mut World,
    log: &mut Log,
    stamp: Stamp,
    from: &Source,
    addr: u64,
    size: u8,
    mask: u64,
) -> Result<(), NoMemory>
    requires size { size ≤ 8 }
    requires low { (a : ℕ) → from.now ≡ Source.Byte a → a + size < 2 ^ 64 }
    requires few { log.old.count + size < 2 ^ 64 }
    ensures stored { (beside : Beside) (meant : Meant) (moves : List MoveOf) (source : SourceOf) → (mask ≢ 0 → from.now ≡ source) → Shows world.old beside meant → GoodWorld FitsCell meant → is_good meant addr size ≡ true → IsLog log.old moves
        → OnOk result (Shows world.new beside (set_shadow addr size (byte_of mask) meant) × IsLog log.new (moves ++ written_moves stamp.event stamp.site (set_shadow addr size (byte_of mask) meant).shadow (Filled addr size source))) }
    ensures keeps { Keeps world.old world.new }
    ensures made { world.new.made ≡ world.old.made }
    ensures count { log.new.count ≤ log.old.count + size }
{
    world.store_shadow(addr, size, mask);
    if mask == 0 {
        return Ok(());
    }
    let good = world.covers(addr, size as u64);
    if good {
        tell_bytes(alloc, world, log, stamp, from, false, addr, size as u64)
    } else {
        Ok(())
    }
}

/// Copies the shadow and the origins of `n` bytes to good ones, and logs that each came from the byte at its distance.
pub fn shade_copied(
    alloc: Global,
    world: &mut World,
    log: &mut Log,
    stamp: Stamp,
    to: u64,
    from: u64,
    n: u64,
) -> Result<(), NoMemory>
    requires low { from + n < 2 ^ 64 }
    requires few { log.old.count + n < 2 ^ 64 }
    ensures copied { (beside : Beside) (meant : Meant) (moves : List MoveOf) → Shows world.old beside meant → GoodWorld FitsCell meant → is_good meant to n ≡ true → IsLog log.old moves
        → OnOk result (Shows world.new beside (copy_planes to from n meant) × IsLog log.new (moves ++ written_moves stamp.event stamp.site (copy_planes to from n meant).shadow (Copied to n from))) }
    ensures keeps { Keeps world.old world.new }
    ensures made { world.new.made ≡ world.old.made }
    ensures count { log.new.count ≤ log.old.count + n }
{
    world.copy_planes(to, from, n)?;
    let good = world.covers(to, n);
    if good {
        let source = Source::Byte { addr: from };
        tell_bytes(alloc, world, log, stamp, &source, true, to, n)
    } else {
        Ok(())
    }
}

/// Logs the moves of `n` bytes that were copied with their shadow, from address `from` to address `to`, where they are good: each
/// one comes from the byte at its distance.
pub fn tell_copied(
    alloc: Global,
    world: &World,
    log: &mut Log,
    stamp: Stamp,
    to: u64,
    from: u64,
    n: u64,
) -> Result<(), NoMemory>
    requires low { from + n < 2 ^ 64 }
    requires few { log.old.count + n < 2 ^ 64 }
    ensures told { (beside : Beside) (meant : Meant) (moves : List MoveOf) → Shows world.now beside meant → GoodWorld FitsCell meant → is_good meant to n ≡ true → IsLog log.old moves
        → OnOk result (IsLog log.new (moves ++ written_moves stamp.event stamp.site meant.shadow (Copied to n from))) }
    ensures count { log.new.count ≤ log.old.count + n }
{
    let good = world.covers(to, n);
    if good {
        let source = Source::Byte { addr: from };
        tell_bytes(alloc, world, log, stamp, &source, true, to, n)
    } else {
        Ok(())
    }
}

/// Gives each of `n` good bytes a mask that isn't 0 as shadow, and logs that they come from a source.
pub fn shade_filled(
    alloc: Global,
    world: &mut World,
    log: &mut Log,
    stamp: Stamp,
    from: &Source,
    addr: u64,
    n: u64,
    mask: u8,
) -> Result<(), NoMemory>
    requires live { IsTrue (is_live addr n world.old.planes.table) }
    requires some { mask ≢ 0 }
    requires low { (a : ℕ) → from.now ≡ Source.Byte a → a + n < 2 ^ 64 }
    requires few { log.old.count + n < 2 ^ 64 }
    ensures filled { (beside : Beside) (meant : Meant) (moves : List MoveOf) → Shows world.old beside meant → GoodWorld FitsCell meant → IsLog log.old moves
        → OnOk result (Shows world.new beside (set_cells addr n 0 (set_shadow addr n (λ k. mask) meant)) × IsLog log.new (moves ++ written_moves stamp.event stamp.site (set_shadow addr n (λ k. mask) meant).shadow (Filled addr n from.now))) }
    ensures keeps { Keeps world.old world.new }
    ensures made { world.new.made ≡ world.old.made }
    ensures count { log.new.count ≤ log.old.count + n }
{
    world.fill_planes(addr, n, mask, 0);
    let good = world.covers(addr, n);
    if good {
        tell_bytes(alloc, world, log, stamp, from, false, addr, n)
    } else {
        Ok(())
    }
}
