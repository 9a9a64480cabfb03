//! Shadow and origins of memory, as the runtime functions read and change them.
ghost use Rattle.std.specs.Prelude.{◌≡◌, ◌≢◌, ◌≤◌, ◌<◌, ◌+◌, ◌-◌, ◌^◌, false, Some, IsTrue, OnOk, MatchOption};
ghost use Rattle.ms_alloc.specs.Allocations.{is_good as is_live, IsLaidOut};
ghost use Rattle.ms_bits.specs.Maps.{first_nonzero};
ghost use Rattle.ms_runs.specs.{World.{World as Meant}, Memory.{set_cells, set_shadow, bytes_left}};
ghost use Rattle.ms_runs.specs.Origins.{poison, unpoison, copy_planes, mark_cells, load_origin, first_in_string};
ghost use Rattle.ms_host.specs.{State.{Beside, Keeps}, Shows.{Shows}, Poisonings.{IsFound, with_mark}};

use crate::worlds::World;
use ms_bits::NoMemory;
use ms_planes::Planes;

/// A byte of memory whose shadow isn't 0, as a report has it.
#[derive(Clone, Copy, Debug, PartialEq, Eq)]
pub struct PoisonedByte {
    /// How far it stands from where the search began, in bytes.
    pub part: u32,
    /// Its shadow: a 1 for each uninitialised bit.
    pub mask: u64,
    /// The origin that its cell holds.
    pub origin: u32,
}

/// The address `k` bytes past `addr`, where it is live.
pub(crate) fn live_past(planes: &Planes, addr: u64, k: u64) -> Option<u64>
    requires { IsLaidOut planes.now.table }
    ensures { MatchOption result (is_live (addr + k) 1 planes.now.table ≡ false) (λ x. (x ≡ addr + k) × IsTrue (is_live x 1 planes.now.table)) }
{
    let Some(sum) = addr.checked_add(k) else {
        return None;
    };
    if planes.covers(sum, 1) {
        Some(sum)
    } else {
        None
    }
}

impl World {
    /// Poisons the bytes with the numbers from `from` to before `to`, counted from `addr`, where they are good: their
    /// shadow bits are all 1, and the cells that they touch get an origin. Linear in their number.
    pub fn poison(&mut self, addr: u64, from: u64, to: u64, origin: u32)
        ensures poisoned { (beside : Beside) (world : Meant) → Shows self.old beside world → Shows self.new beside (poison addr from to origin world) }
        ensures keeps { Keeps self.old self.new }
        ensures made { self.new.made ≡ self.old.made }
    {
        if from >= to {
            return;
        }
        let first = addr.wrapping_add(from);
        let n = to - from;
        if self.planes.covers(first, n) {
            self.planes.poison(first, n, 0xff, origin);
        }
    }

    /// Makes `n` bytes clean, where they are good: their shadow is 0. Cells stay. Linear in `n`.
    pub fn unpoison(&mut self, addr: u64, n: u64)
        ensures cleaned { (beside : Beside) (world : Meant) → Shows self.old beside world → Shows self.new beside (unpoison addr n world) }
        ensures keeps { Keeps self.old self.new }
        ensures made { self.new.made ≡ self.old.made }
    {
        if self.planes.covers(addr, n) {
            self.planes.unpoison(addr, n);
        }
    }

    /// Copies shadow and origins of `n` bytes, where both ranges are good. Linear in `n`.
    pub fn copy_planes(&mut self, to: u64, from: u64, n: u64) -> Result<(), NoMemory>
        ensures copied { (beside : Beside) (world : Meant) → Shows self.old beside world → OnOk result (Shows self.new beside (copy_planes to from n world)) }
        ensures keeps { Keeps self.old self.new }
        ensures made { self.new.made ≡ self.old.made }
    {
        if !self.planes.covers(to, n) || !self.planes.covers(from, n) {
            return Ok(());
        }
        self.planes.copy_shadow(to, from, n)?;
        Ok(())
    }

    /// Gives `n` good bytes a mask that isn't 0 as shadow, and the cells that they touch an origin. Linear in `n`.
    pub fn fill_planes(&mut self, addr: u64, n: u64, mask: u8, origin: u32)
        requires good { IsTrue (is_live addr n self.old.planes.table) }
        requires some { mask ≢ 0 }
        ensures filled { (beside : Beside) (world : Meant) → Shows self.old beside world → Shows self.new beside (set_cells addr n origin (set_shadow addr n (λ k. mask) world)) }
        ensures keeps { Keeps self.old self.new }
        ensures made { self.new.made ≡ self.old.made }
    {
        self.planes.poison(addr, n, mask, origin);
    }

    /// Puts an origin into the cells of those of the eight bytes from `addr` on that are live and whose byte of the mask, the least
    /// first, isn't 0: what a store of a word with this mask does.
    pub fn mark_cells(&mut self, addr: u64, mask: u64, origin: u32)
        ensures marked { (beside : Beside) (world : Meant) → Shows self.old beside world → Shows self.new beside (mark_cells 8 addr mask origin world) }
        ensures keeps { Keeps self.old self.new }
        ensures made { self.new.made ≡ self.old.made }
    {
        let mut rest = mask;
        for k in 0..8u64 {
            if rest % 256 != 0 {
                self.mark_cell(addr, k, origin);
            }
            rest /= 256;
        }
    }

    /// Puts an origin into the cell of the byte `k` bytes past `addr`, where it is live.
    fn mark_cell(&mut self, addr: u64, k: u64, origin: u32)
        ensures marked { (beside : Beside) (world : Meant) → Shows self.old beside world → Shows self.new beside (with_mark (addr + k) origin world) }
        ensures keeps { Keeps self.old self.new }
        ensures made { self.new.made ≡ self.old.made }
    {
        self.planes.law_laid_out();
        if let Some(live) = live_past(&self.planes, addr, k) {
            self.planes.set_origin_at(live, origin);
        }
    }

    /// The origin of the first of the eight bytes from `addr` on that is live and whose byte of the mask, the least first, isn't 0;
    /// else 0.
    pub fn load_origin(&self, addr: u64, mask: u64) -> u32
        ensures { (beside : Beside) (world : Meant) → Shows self.now beside world → result ≡ load_origin addr mask world }
    {
        self.planes.law_laid_out();
        let mut rest = mask;
        for k in 0..8u64 {
            if rest % 256 != 0 {
                if let Some(live) = live_past(&self.planes, addr, k) {
                    return self.planes.origin_at(live);
                }
            }
            rest /= 256;
        }
        0
    }

    /// The first of `n` good bytes whose shadow isn't 0, if there is one. Linear in `n`.
    pub fn first_poisoned(&self, addr: u64, n: u64) -> Option<PoisonedByte>
        requires { IsTrue (is_live addr n self.now.planes.table) }
        ensures { (beside : Beside) (world : Meant) → Shows self.now beside world → IsFound world addr (first_nonzero world.shadow addr n) result }
    {
        self.planes.law_laid_out();
        let Some(part) = self.planes.first_poisoned(addr, n) else {
            return None;
        };
        let here = addr + part;
        Some(self.poisoned_at(addr, here))
    }

    /// The first byte whose shadow isn't 0 from `addr` on, within its allocation and before a zero byte that is clean.
    /// Linear in its distance.
    pub fn first_poisoned_in_string(&self, addr: u64) -> Option<PoisonedByte>
        ensures { (beside : Beside) (world : Meant) → Shows self.now beside world → IsFound world addr (first_in_string world addr (bytes_left world addr)) result }
    {
        self.planes.law_laid_out();
        let room = self.bytes_left(addr);
        for k in 0..room {
            let here = addr + k;
            if self.shadow_at(here) != 0 {
                return Some(self.poisoned_at(addr, here));
            }
            if self.byte(here) == 0 {
                return None;
            }
        }
        None
    }

    /// The shadow byte of a live address.
    fn shadow_at(&self, addr: u64) -> u64
        requires { IsTrue (is_live addr 1 self.now.planes.table) }
        ensures { (beside : Beside) (world : Meant) → Shows self.now beside world → result ≡ world.shadow addr }
    {
        self.planes.load_shadow(addr, 1)
    }

    /// The poisoned byte at a live address, as a search that began at `start` returns it.
    fn poisoned_at(&self, start: u64, addr: u64) -> PoisonedByte
        requires live { IsTrue (is_live addr 1 self.now.planes.table) }
        requires after { start ≤ addr }
        requires near { addr - start < 2 ^ 32 }
        ensures { (beside : Beside) (world : Meant) → Shows self.now beside world → IsFound world start (Some addr) (Some result) }
    {
        let part = (addr - start) as u32;
        let mask = self.shadow_at(addr);
        let origin = self.planes.origin_at(addr);
        PoisonedByte { part, mask, origin }
    }
}
