//! `memset` followed: bytes whose shadow gets the mask of one byte, with their moves. Moves are counted in 64 bits: `few` says
//! that the count so far leaves room for those that are told. A live range has at most 2^26 bytes, with at most a move for
//! each, so fewer than 2^27. `alloc` is for the names that moves copy; the log grows by its own allocator. `made` of a world
//! counts the uninitialised bytes so far.
ghost use Rattle.std.specs.Prelude.{◌≡◌, ◌≤◌, ◌<◌, ◌+◌, ◌^◌, ◌++◌, ◌||◌, ℕ, List, true, eqb, OnOk};
ghost use Rattle.ms_runs.specs.{World.{World as Meant}, Memory.{is_good}};
ghost use Rattle.ms_runs_good_laws.specs.GoodWorlds.{GoodWorld, FitsCell};
ghost use Rattle.ms_host.specs.{State.{Beside, Keeps}, Shows.{Shows}};
ghost use Rattle.ms_runs_laws.specs.Follows.{fill_shadow};
ghost use Rattle.ms_trail_moves.specs.{declared.moves.Move.{Move as MoveOf}, Written.{Filled}, Events.{written_moves}};
ghost use Rattle.ms_trail_bytes.specs.{Logs.{IsLog}, Shading.{ShadedAs}};

use crate::fills::shade_filled;
use crate::logs::Log;
use crate::spans::Stamp;
use crate::unsets::law_range;
use ms_bits::NoMemory;
use ms_host::World;
use ms_trail_moves::moves::Source;
use std::alloc::Global;

/// Whether none of `n` bytes is poisoned that each get `mask`.
fn is_clean(mask: u8, n: u64) -> bool
    ensures { result ≡ (eqb mask 0 || eqb n 0) }
{
    mask == 0 || n == 0
}

/// Gives each of `n` good bytes a mask as shadow, and, where it isn't 0, logs that they come from a source.
pub fn shade_set(
    alloc: Global,
    world: &mut World,
    log: &mut Log,
    stamp: Stamp,
    from: &Source,
    addr: u64,
    n: u64,
    mask: u8,
) -> Result<(), NoMemory>
    requires byte { mask < 256 }
    requires low { (a : ℕ) → from.now ≡ Source.Byte a → a + n < 2 ^ 64 }
    requires few { log.old.count + 2 ^ 27 < 2 ^ 64 }
    ensures set { (beside : Beside) (meant : Meant) (moves : List MoveOf) → Shows world.old beside meant → GoodWorld FitsCell meant → is_good meant addr n ≡ true → IsLog log.old moves
        → OnOk result (ShadedAs beside meant (fill_shadow addr n mask meant) world.new × IsLog log.new (moves ++ written_moves stamp.event stamp.site (fill_shadow addr n mask meant).shadow (Filled addr n from.now))) }
    ensures keeps { Keeps world.old world.new }
    ensures made { world.new.made ≡ world.old.made }
    ensures count { log.new.count ≤ log.old.count + 2 ^ 27 }
{
    let clean = is_clean(mask, n);
    if clean {
        world.unpoison(addr, n);
        return Ok(());
    }
    let good = world.covers(addr, n);
    if good {
        law_range(world, addr, n);
        shade_filled(alloc, world, log, stamp, from, addr, n, mask)
    } else {
        Ok(())
    }
}
