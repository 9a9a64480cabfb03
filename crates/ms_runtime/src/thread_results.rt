//! What `__msan_thread_result` does where a thread has ended: after `pthread_join`, for `ms_threads`.
ghost use Rattle.std.specs.Prelude.{◌≡◌, OnOk, None, if◌then◌else◌};
ghost use Rattle.ms_bits.specs.Maps.{byte_of};
ghost use Rattle.ms_runs.specs.{declared.runs.RunResult.{RunResult}, World.{World as Meant, Setting, Does}};
ghost use Rattle.ms_runs.specs.{Memory.{set_shadow, is_good}, Origins.{store_origin}};
ghost use Rattle.ms_host.specs.{State.{Beside, Keeps}, Shows.{Shows}, declared.calls.Answer.TheVariants.{Resumed}};
ghost use Rattle.ms_runtime.specs.Served.{IsBeside, Served};

use crate::memory::mark_chained;
use ms_bits::NoMemory;
use ms_depot::Depot;
use ms_host::World;

/// The 8 shadow bytes at an address become a mask, where they are good, and the cells that get a poisoned byte get an origin,
/// chained at a site; else nothing changes.
pub fn thread_result(
    addr: u64,
    mask: u64,
    origin: u32,
    site: u32,
    world: &mut World,
    depot: &mut Depot,
) -> Result<(), NoMemory>
    ensures served { (setting : Setting) (beside : Beside) (meant : Meant) (told : RunResult) → setting.roots ≡ depot.old.roots → IsBeside depot.old told beside → Shows world.old beside meant → OnOk result (Served (Does (if is_good meant addr 8 then store_origin setting addr mask origin site (set_shadow addr 8 (byte_of mask) meant) else meant)) (Resumed None) world.new depot.new told) }
    ensures roots { depot.new.roots ≡ depot.old.roots }
    ensures keeps { Keeps world.old world.new }
    ensures made { world.new.made ≡ world.old.made }
{
    if !world.store_shadow(addr, 8, mask) {
        return Ok(());
    }
    if mask == 0 {
        return Ok(());
    }
    mark_chained(addr, mask, origin, site, world, depot)
}
