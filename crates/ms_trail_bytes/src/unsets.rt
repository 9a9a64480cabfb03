//! Externals that make uninitialised bytes or copy bytes, followed: `malloc`, `realloc`, lifetimes, `memcpy`, with the moves. A
//! traced run keeps no origins in memory: cells get 0. Moves are counted in 64 bits: `few` says that the count so far leaves
//! room for those that are told. A live range has at most 2^26 bytes, with at most a move for each: 2^27 moves are more than
//! one range has, 2^28 more than the two of `realloc`. `alloc` is for the names that moves copy; the log grows by its own
//! allocator. `made` of a world counts the uninitialised bytes so far.
ghost use Rattle.std.specs.Prelude.{◌≡◌, ◌≤◌, ◌<◌, ◌+◌, ◌^◌, ◌++◌, [], ◌∷◌, ℕ, List, Some, min, true, unwrap_or, IsTrue, OnOk, if◌then◌else◌};
ghost use Rattle.ms_alloc.specs.Allocations.{heap_size as block_size, is_good as is_live};
ghost use Rattle.ms_ir.specs.Areas.{Heap};
ghost use Rattle.ms_runs.specs.{World.{World as Meant}, Memory.{fits, heap_size, is_good, next_base}};
ghost use Rattle.ms_runs.specs.Origins.{copy_planes, poison};
ghost use Rattle.ms_runs_good_laws.specs.GoodWorlds.{GoodWorld, FitsCell};
ghost use Rattle.ms_host.specs.{State.{Beside, Keeps}, Shows.{Shows}};
ghost use Rattle.ms_trail_moves.specs.{declared.moves.Move.{Move as MoveOf}, Written.{Copied, Filled, heap_place, made}};
ghost use Rattle.ms_trail_moves.specs.Events.{memory_moves, written_moves};
ghost use Rattle.ms_trail_bytes.specs.{Logs.{IsLog}, Shading.{IsRange, ShadedAs}};

use crate::fills::{shade_copied, tell_copied};
use crate::logs::Log;
use crate::spans::{Stamp, tell_bytes};
use ms_bits::NoMemory;
use ms_host::World;
use ms_trail_moves::moves::Source;
use std::alloc::Global;

/// A law: a live range lies within an area.
pub fn law_range(world: &World, addr: u64, n: u64)
    requires live { IsTrue (is_live addr n world.now.planes.table) }
    requires some { 0 < n }
    ensures { IsRange addr n }
{
    world.law_laid_out();
}

/// A law: a heap block lies within an area, below the next one.
fn law_block(world: &World, base: u64, size: u64)
    requires { block_size base world.now.planes.table ≡ Some size }
    ensures low { 0 < size → base + size < 2 ^ 64 }
    ensures small { size ≤ 2 ^ 26 }
    ensures below { (beside : Beside) (meant : Meant) → Shows world.now beside meant → base < next_base Heap meant }
{
    world.law_laid_out();
}

/// The size of the heap block that begins at an address; 0 where none does.
pub fn size_of(world: &World, base: u64) -> u64
    ensures size { (beside : Beside) (meant : Meant) → Shows world.now beside meant → result ≡ unwrap_or (heap_size meant base) 0 }
    ensures low { 0 < result → base + result < 2 ^ 64 }
    ensures small { result ≤ 2 ^ 26 }
    ensures below { (beside : Beside) (meant : Meant) (size : ℕ) → Shows world.now beside meant → heap_size meant base ≡ Some size → base < next_base Heap meant }
{
    let found = world.heap_size(base);
    match found {
        Some(size) => {
            law_block(world, base, size);
            size
        }
        None => 0,
    }
}

/// Logs the moves of `n` bytes, from the address `first` on, that come from root number `root`, where they are good.
fn tell_good(
    alloc: Global,
    world: &World,
    log: &mut Log,
    stamp: Stamp,
    root: u32,
    first: u64,
    n: u64,
) -> Result<(), NoMemory>
    requires some { 0 < n }
    requires few { log.old.count + 2 ^ 27 < 2 ^ 64 }
    ensures told { (beside : Beside) (meant : Meant) (moves : List MoveOf) → Shows world.now beside meant → GoodWorld FitsCell meant → IsLog log.old moves
        → OnOk result (IsLog log.new (moves ++ memory_moves stamp.event stamp.site meant.shadow (if is_good meant first n then Filled first n (Source.Root root) ∷ [] else []))) }
    ensures count { log.new.count ≤ log.old.count + 2 ^ 27 }
{
    let good = world.covers(first, n);
    if good {
        law_range(world, first, n);
        let from = Source::Root { number: root };
        tell_bytes(alloc, world, log, stamp, &from, false, first, n)
    } else {
        Ok(())
    }
}

/// Logs the moves of the bytes from `from` to before `to`, counted from an address, where they are good: they come from root number
/// `root`.
fn tell_made(
    alloc: Global,
    world: &World,
    log: &mut Log,
    stamp: Stamp,
    root: u32,
    addr: u64,
    from: u64,
    to: u64,
) -> Result<(), NoMemory>
    requires few { log.old.count + 2 ^ 27 < 2 ^ 64 }
    ensures told { (beside : Beside) (meant : Meant) (moves : List MoveOf) → Shows world.now beside meant → GoodWorld FitsCell meant → IsLog log.old moves
        → OnOk result (IsLog log.new (moves ++ memory_moves stamp.event stamp.site meant.shadow (made meant addr from to root))) }
    ensures count { log.new.count ≤ log.old.count + 2 ^ 27 }
{
    if from < to {
        let first = addr.wrapping_add(from);
        let n = to - from;
        tell_good(alloc, world, log, stamp, root, first, n)
    } else {
        Ok(())
    }
}

/// Poisons the bytes from `from` to before `to`, counted from an address, where they are good, and logs that they come from root
/// number `root`: the call of the external that made them.
pub fn shade_unset(
    alloc: Global,
    world: &mut World,
    log: &mut Log,
    stamp: Stamp,
    root: u32,
    addr: u64,
    from: u64,
    to: u64,
) -> Result<(), NoMemory>
    requires few { log.old.count + 2 ^ 27 < 2 ^ 64 }
    ensures unset { (beside : Beside) (meant : Meant) (moves : List MoveOf) → Shows world.old beside meant → GoodWorld FitsCell meant → IsLog log.old moves
        → OnOk result (ShadedAs beside meant (poison addr from to 0 meant) world.new × IsLog log.new (moves ++ memory_moves stamp.event stamp.site (poison addr from to 0 meant).shadow (made (poison addr from to 0 meant) addr from to root))) }
    ensures keeps { Keeps world.old world.new }
    ensures made { world.new.made ≡ world.old.made }
    ensures count { log.new.count ≤ log.old.count + 2 ^ 27 }
{
    world.poison(addr, from, to, 0);
    tell_made(alloc, world, log, stamp, root, addr, from, to)
}

/// Copies the shadow of `n` bytes from one good range to another, and logs that each byte comes from the one at its distance.
pub fn shade_copy(
    alloc: Global,
    world: &mut World,
    log: &mut Log,
    stamp: Stamp,
    to: u64,
    from: u64,
    n: u64,
) -> Result<(), NoMemory>
    requires few { log.old.count + 2 ^ 27 < 2 ^ 64 }
    ensures copied { (beside : Beside) (meant : Meant) (moves : List MoveOf) → Shows world.old beside meant → GoodWorld FitsCell meant → is_good meant to n ≡ true → is_good meant from n ≡ true → IsLog log.old moves
        → OnOk result (ShadedAs beside meant (copy_planes to from n meant) world.new × IsLog log.new (moves ++ written_moves stamp.event stamp.site (copy_planes to from n meant).shadow (Copied to n from))) }
    ensures keeps { Keeps world.old world.new }
    ensures made { world.new.made ≡ world.old.made }
    ensures count { log.new.count ≤ log.old.count + 2 ^ 27 }
{
    if n == 0 {
        world.copy_planes(to, from, n)?;
        return Ok(());
    }
    let good = world.covers(from, n);
    if good {
        law_range(world, from, n);
        shade_copied(alloc, world, log, stamp, to, from, n)
    } else {
        Ok(())
    }
}

/// Logs the moves of the first `kept` bytes of the heap block at `block`, which `realloc` copied to the new one at `given`, if that
/// isn't null.
fn tell_block(
    alloc: Global,
    world: &World,
    log: &mut Log,
    stamp: Stamp,
    given: u64,
    block: u64,
    kept: u64,
) -> Result<(), NoMemory>
    requires low { 0 < kept → block + kept < 2 ^ 64 }
    requires few { log.old.count + kept < 2 ^ 64 }
    ensures told { (beside : Beside) (meant before : Meant) (n : ℕ) (moves : List MoveOf) → given ≡ heap_place n before → (fits Heap n before ≡ true → is_good meant given kept ≡ true) → Shows world.now beside meant → GoodWorld FitsCell meant → IsLog log.old moves
        → OnOk result (IsLog log.new (moves ++ memory_moves stamp.event stamp.site meant.shadow (if fits Heap n before then Copied (next_base Heap before) kept block ∷ [] else []))) }
    ensures count { log.new.count ≤ log.old.count + kept }
{
    if given == 0 {
        Ok(())
    } else if kept == 0 {
        Ok(())
    } else {
        tell_copied(alloc, world, log, stamp, given, block, kept)
    }
}

/// What `realloc` of the `old` bytes at `block` to `n` bytes at `given` does to the shadow, with its moves: the old bytes were
/// copied, and the rest is uninitialised and comes from root number `root`.
pub fn shade_moved(
    alloc: Global,
    world: &mut World,
    log: &mut Log,
    stamp: Stamp,
    root: u32,
    given: u64,
    block: u64,
    old: u64,
    n: u64,
) -> Result<(), NoMemory>
    requires low { 0 < old → block + old < 2 ^ 64 }
    requires small { old ≤ 2 ^ 26 }
    requires few { log.old.count + 2 ^ 28 < 2 ^ 64 }
    ensures moved { (beside : Beside) (meant before : Meant) (moves : List MoveOf) → given ≡ heap_place n before → (fits Heap n before ≡ true → is_good meant given (min old n) ≡ true) → Shows world.old beside meant → GoodWorld FitsCell meant → IsLog log.old moves
        → OnOk result (ShadedAs beside meant (poison given old n 0 meant) world.new × IsLog log.new (moves ++ memory_moves stamp.event stamp.site (poison given old n 0 meant).shadow ((if fits Heap n before then Copied (next_base Heap before) (min old n) block ∷ [] else []) ++ made (poison given old n 0 meant) given old n root))) }
    ensures keeps { Keeps world.old world.new }
    ensures made { world.new.made ≡ world.old.made }
    ensures count { log.new.count ≤ log.old.count + 2 ^ 28 }
{
    world.poison(given, old, n, 0);
    tell_block(alloc, world, log, stamp, given, block, old.min(n))?;
    tell_made(alloc, world, log, stamp, root, given, old, n)
}
