//! Moves of bytes: one for each stretch of poisoned bytes, called a run here, among `n` live bytes from `addr` on. `k` and
//! `first` are numbers of bytes among these. Where bytes were `copied`, each run comes from the bytes at its own distance in
//! the source; else all come from the source itself. Moves are counted in 64 bits: `few` says that the count so far leaves room
//! for those that are told. `alloc` is for the names that moves copy; the log grows by its own allocator.
ghost use Rattle.std.specs.Prelude.{◌≡◌, ◌≢◌, ◌≤◌, ◌<◌, ◌+◌, ◌^◌, ◌++◌, ℕ, List, IsTrue, IfOk, OnOk};
ghost use Rattle.ms_alloc.specs.Allocations.{is_good as is_live};
ghost use Rattle.ms_runs.specs.World.{World as Meant};
ghost use Rattle.ms_runs_good_laws.specs.GoodWorlds.{GoodWorld, FitsCell};
ghost use Rattle.ms_host.specs.{State.{Beside}, Shows.{Shows}};
ghost use Rattle.ms_trail_moves.specs.declared.moves.Move.{Move as MoveOf};
ghost use Rattle.ms_trail_bytes.specs.{Logs.{IsLog}, Spans.{source_in, span_moves, Telling}};

use crate::logs::Log;
use ms_bits::{Duplicate, NoMemory};
use ms_host::World;
use ms_ir::Name;
use ms_trail_moves::moves::{Move, Source, Target};
use std::alloc::Global;

/// The shadow of byte number `k`.
fn shadow_at(world: &World, addr: u64, n: u64, k: u64) -> u64
    requires live { IsTrue (is_live addr n world.now.planes.table) }
    requires within { k < n }
    ensures { (beside : Beside) (meant : Meant) → Shows world.now beside meant → result ≡ meant.shadow (addr + k) }
{
    world.law_laid_out();
    let here = addr + k;
    match world.load_shadow(here, 1) {
        Some(shadow) => shadow,
        None => 0,
    }
}

/// The number `part` after `first`, but at most `n`.
fn at_most(n: u64, first: u64, part: u64) -> u64
    requires { first ≤ n }
    ensures past { first ≤ result }
    ensures end { result ≤ n }
    ensures near { result ≤ first + part }
{
    if part < n - first { first + part } else { n }
}

/// The number of the first poisoned byte from number `first` on; `n` where there is none.
fn past_clean(world: &World, addr: u64, n: u64, first: u64) -> u64
    requires live { IsTrue (is_live addr n world.now.planes.table) }
    requires within { first < n }
    ensures past { first ≤ result }
    ensures end { result ≤ n }
    ensures clean { (beside : Beside) (meant : Meant) → Shows world.now beside meant → (k : ℕ) → first ≤ k → k < result → meant.shadow (addr + k) ≡ 0 }
{
    world.law_laid_out();
    let here = addr + first;
    match world.first_poisoned(here, n - first) {
        Some(byte) => at_most(n, first, byte.part as u64),
        None => n,
    }
}

/// Whether eight bytes, from number `k` on, are poisoned in each bit.
fn is_full(world: &World, addr: u64, n: u64, k: u64) -> bool
    requires live { IsTrue (is_live addr n world.now.planes.table) }
    requires within { k + 8 ≤ n }
    ensures { (beside : Beside) (meant : Meant) → Shows world.now beside meant → GoodWorld FitsCell meant → IsTrue result → (j : ℕ) → k ≤ j → j < k + 8 → meant.shadow (addr + j) ≢ 0 }
{
    world.law_laid_out();
    let here = addr + k;
    match world.load_shadow(here, 8) {
        Some(shadow) => shadow == u64::MAX,
        None => false,
    }
}

/// The number of a byte up to which all are poisoned from number `first` on: passes eight at a time, as long as each of their bits
/// is poisoned.
fn past_full(world: &World, addr: u64, n: u64, first: u64) -> u64
    requires live { IsTrue (is_live addr n world.now.planes.table) }
    requires within { first ≤ n }
    ensures past { first ≤ result }
    ensures end { result ≤ n }
    ensures poisoned { (beside : Beside) (meant : Meant) → Shows world.now beside meant → GoodWorld FitsCell meant → (k : ℕ) → first ≤ k → k < result → meant.shadow (addr + k) ≢ 0 }
{
    let mut k = first;
    while n - k >= 8 {
        let full = is_full(world, addr, n, k);
        if !full {
            return k;
        }
        k += 8;
    }
    k
}

/// The number of the first clean byte from number `first` on; `n` where there is none.
fn past_poisoned(world: &World, addr: u64, n: u64, first: u64) -> u64
    requires live { IsTrue (is_live addr n world.now.planes.table) }
    requires within { first ≤ n }
    ensures past { first ≤ result }
    ensures end { result ≤ n }
    ensures poisoned { (beside : Beside) (meant : Meant) → Shows world.now beside meant → GoodWorld FitsCell meant → (k : ℕ) → first ≤ k → k < result → meant.shadow (addr + k) ≢ 0 }
    ensures stops { (beside : Beside) (meant : Meant) → Shows world.now beside meant → result < n → meant.shadow (addr + result) ≡ 0 }
{
    let start = past_full(world, addr, n, first);
    for k in start..n {
        let shadow = shadow_at(world, addr, n, k);
        if shadow == 0 {
            return k;
        }
    }
    n
}

/// Where the run that begins with byte number `k` comes from, where the source is the byte at `addr`.
fn byte_source(addr: u64, copied: bool, k: u64) -> Source
    requires { addr + k < 2 ^ 64 }
    ensures { result ≡ source_in (Source.Byte addr) copied k }
{
    if copied {
        let moved = addr + k;
        Source::Byte { addr: moved }
    } else {
        Source::Byte { addr }
    }
}

/// A value of the call with a number, as a source.
fn value_source(alloc: Global, frame: u64, name: &Name) -> Result<Source, NoMemory>
    ensures { IfOk result (λ s. s ≡ Source.Value frame name.now) }
{
    Ok(Source::Value {
        frame,
        name: name.copy(alloc)?,
    })
}

/// Where the run that begins with byte number `k` comes from, of bytes that come from a source.
fn run_source(alloc: Global, from: &Source, copied: bool, k: u64) -> Result<Source, NoMemory>
    requires { (a : ℕ) → from.now ≡ Source.Byte a → a + k < 2 ^ 64 }
    ensures { IfOk result (λ s. s ≡ source_in from.now copied k) }
{
    match from {
        Source::Byte { addr } => Ok(byte_source(*addr, copied, k)),
        Source::Value { frame, name } => value_source(alloc, *frame, name),
        Source::Root { number } => Ok(Source::Root { number: *number }),
    }
}

/// When and where poisoned bits are written, which each move of a step has.
#[derive(Clone, Copy)]
pub struct Stamp {
    /// The number of the step, from 0.
    pub event: u64,
    /// The site of the step's instruction.
    pub site: u32,
}

/// Logs the move of the run that begins with byte number `k`, if one does. Returns the number of the byte after it, else of the
/// next one.
fn tell_run(
    alloc: Global,
    world: &World,
    log: &mut Log,
    stamp: Stamp,
    from: &Source,
    copied: bool,
    addr: u64,
    n: u64,
    k: u64,
) -> Result<u64, NoMemory>
    requires live { IsTrue (is_live addr n world.now.planes.table) }
    requires low { (a : ℕ) → from.now ≡ Source.Byte a → a + n < 2 ^ 64 }
    requires within { k < n }
    requires few { log.old.count + 1 < 2 ^ 64 }
    ensures further { IfOk result (λ next. k < next) }
    ensures end { IfOk result (λ next. next ≤ n) }
    ensures told { (beside : Beside) (meant : Meant) (moves : List MoveOf) → Shows world.now beside meant → GoodWorld FitsCell meant → Telling stamp.event stamp.site from.now copied addr n meant.shadow moves log.old k → IfOk result (λ next. Telling stamp.event stamp.site from.now copied addr n meant.shadow moves log.new next) }
    ensures count { log.new.count ≤ log.old.count + 1 }
{
    world.law_laid_out();
    let end = past_poisoned(world, addr, n, k);
    if k < end {
        let source = run_source(alloc, from, copied, k)?;
        let first = addr + k;
        let len = end - k;
        let to = Target::Bytes { addr: first, len };
        log.add(Move {
            event: stamp.event,
            site: stamp.site,
            from: source,
            to,
        })?;
        Ok(end)
    } else {
        Ok(k + 1)
    }
}

/// Logs the move of the next run from byte number `k` on, if there is one. Returns the number of the byte after it, else `n`.
fn tell_next(
    alloc: Global,
    world: &World,
    log: &mut Log,
    stamp: Stamp,
    from: &Source,
    copied: bool,
    addr: u64,
    n: u64,
    k: u64,
) -> Result<u64, NoMemory>
    requires live { IsTrue (is_live addr n world.now.planes.table) }
    requires low { (a : ℕ) → from.now ≡ Source.Byte a → a + n < 2 ^ 64 }
    requires within { k < n }
    requires few { log.old.count + 1 < 2 ^ 64 }
    ensures further { IfOk result (λ next. k < next) }
    ensures end { IfOk result (λ next. next ≤ n) }
    ensures told { (beside : Beside) (meant : Meant) (moves : List MoveOf) → Shows world.now beside meant → GoodWorld FitsCell meant → Telling stamp.event stamp.site from.now copied addr n meant.shadow moves log.old k → IfOk result (λ next. Telling stamp.event stamp.site from.now copied addr n meant.shadow moves log.new next) }
    ensures count { log.new.count ≤ log.old.count + 1 }
{
    let start = past_clean(world, addr, n, k);
    if start < n {
        tell_run(alloc, world, log, stamp, from, copied, addr, n, start)
    } else {
        Ok(n)
    }
}

/// Logs the moves of `n` live bytes that were written: one for each of the longest runs of poisoned ones.
pub fn tell_bytes(
    alloc: Global,
    world: &World,
    log: &mut Log,
    stamp: Stamp,
    from: &Source,
    copied: bool,
    addr: u64,
    n: u64,
) -> Result<(), NoMemory>
    requires live { IsTrue (is_live addr n world.now.planes.table) }
    requires low { (a : ℕ) → from.now ≡ Source.Byte a → a + n < 2 ^ 64 }
    requires few { log.old.count + n < 2 ^ 64 }
    ensures told { (beside : Beside) (meant : Meant) (moves : List MoveOf) → Shows world.now beside meant → GoodWorld FitsCell meant → IsLog log.old moves → OnOk result (IsLog log.new (moves ++ span_moves stamp.event stamp.site meant.shadow from.now copied addr n)) }
    ensures count { log.new.count ≤ log.old.count + n }
{
    let mut k = 0;
    while k < n {
        k = tell_next(alloc, world, log, stamp, from, copied, addr, n, k)?;
    }
    Ok(())
}
