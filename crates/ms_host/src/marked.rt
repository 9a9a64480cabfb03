//! Accesses of marked instructions: they reach the slots and the shadow alone. The shadow of a byte has the byte's own address with
//! `SHADOW_BITS` turned. In contracts `cells` are the bytes of the slots, by address.
ghost use Rattle.std.specs.Prelude.{◌≡◌, ◌≤◌, ◌+◌, ℕ, true, Some, IfSome, bit_xor};
ghost use Rattle.ms_bits.specs.Maps.{number_at, byte_of, with_range};
ghost use Rattle.ms_runs.specs.{World.{World as Meant}, Memory.{is_good}, Plain.{shadow_bits}};
ghost use Rattle.ms_host.specs.{State.{Beside, KeepsGiven}, Shows.{Shows}};
ghost use Rattle.ms_host.specs.SlotBytes.{ShowsSlots, MarkedLoad, MarkedStore};

use crate::slots::is_far;
use crate::worlds::World;
use ms_ir::areas::SHADOW_BITS;

impl World {
    /// The number that `n` bytes of a slot are, or the `n` shadow bytes of one live allocation at their own addresses;
    /// `None` where they are neither.
    pub fn load_marked(&self, addr: u64, n: u8) -> Option<u64>
        requires { n ≤ 8 }
        ensures { (cells : ℕ → ℕ) (beside : Beside) (world : Meant) → ShowsSlots self.now.slots cells → Shows self.now beside world → MarkedLoad addr n cells world result }
    {
        match self.slots.load(addr, n) {
            Some(v) => Some(v),
            None => self.load_shadow(addr ^ SHADOW_BITS, n),
        }
    }

    /// The numbers that the `n` shadow bytes of one live allocation are, as `load_marked` reads them, and the bytes themselves,
    /// found by one search; `None` where there is no such allocation, or the shadow would stand among the slots.
    #[inline(always)]
    pub fn load_both(&self, addr: u64, n: u8) -> Option<(u64, u64)>
        requires { n ≤ 8 }
        ensures shadow { IfSome result (λ r. (cells : ℕ → ℕ) (beside : Beside) (world : Meant) → ShowsSlots self.now.slots cells → Shows self.now beside world → MarkedLoad (bit_xor addr 0x500000000000) n cells world (Some r.0)) }
        ensures bytes { IfSome result (λ r. (beside : Beside) (world : Meant) → Shows self.now beside world → (is_good world addr n ≡ true) × (r.1 ≡ number_at world.bytes addr n)) }
    {
        if is_far(addr ^ SHADOW_BITS) {
            self.load_numbers(addr, n)
        } else {
            None
        }
    }

    /// Writes the `n` low bytes of `v` into a slot, or as shadow bytes of one live allocation at their own addresses,
    /// and returns whether they are one or the other; else nothing changes.
    pub fn store_marked(&mut self, addr: u64, n: u8, v: u64) -> bool
        requires { n ≤ 8 }
        ensures stored { (cells : ℕ → ℕ) (beside : Beside) (world : Meant) → ShowsSlots self.old.slots cells → Shows self.old beside world → MarkedStore addr n v cells world beside result self.new }
        ensures given { KeepsGiven self.old self.new }
        ensures made { self.new.made ≡ self.old.made }
    {
        if self.slots.store(addr, n, v) {
            true
        } else {
            self.store_shadow(addr ^ SHADOW_BITS, n, v)
        }
    }

    /// The number that `n` bytes of a slot are, by how far they stand from where the slots begin.
    #[inline(always)]
    pub fn load_slot(&self, at: usize, n: u8) -> u64
        requires size { n ≤ 8 }
        requires within { at + n ≤ 0x3004 }
        ensures { (cells : ℕ → ℕ) → ShowsSlots self.now.slots cells → result ≡ number_at cells (0x680000000000 + at) n }
    {
        self.slots.load_at(at, n)
    }

    /// Writes the `n` low bytes of `v` into a slot, by how far they stand from where the slots begin.
    #[inline(always)]
    pub fn store_slot(&mut self, at: usize, n: u8, v: u64)
        requires size { n ≤ 8 }
        requires within { at + n ≤ 0x3004 }
        ensures stored { (cells : ℕ → ℕ) (beside : Beside) (world : Meant) → ShowsSlots self.old.slots cells → Shows self.old beside world → ShowsSlots self.new.slots (with_range cells (0x680000000000 + at) n (byte_of v)) × Shows self.new beside world }
        ensures given { KeepsGiven self.old self.new }
        ensures made { self.new.made ≡ self.old.made }
    {
        self.slots.store_at(at, n, v);
    }
}
