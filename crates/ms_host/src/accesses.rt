//! Accesses of memory in a run: loads and stores of bytes and shadow, copies, and ranges that are set or uninitialised anew. The
//! program's loads and stores and the externals use them.
ghost use Rattle.std.specs.Prelude.{◌≡◌, ◌≤◌, ◌<◌, ◌+◌, ◌^◌, true, false, IfOk, OnOk, MatchOption, MatchBool, IsTrue, ◌&&◌};
ghost use Rattle.ms_alloc.specs.Allocations.{is_good as is_live};
ghost use Rattle.ms_bits.specs.Maps.{number_at, byte_of};
ghost use Rattle.ms_runs.specs.World.{World as Meant};
ghost use Rattle.ms_runs.specs.Memory.{is_good, store_number, set_shadow, make_bytes, set_bytes, copy_bytes, copy_shadow};
ghost use Rattle.ms_host.specs.{State.{Beside, Keeps}, Shows.{Shows}};

use crate::worlds::World;
use crate::writes::{write_byte, write_unset};
use ms_bits::NoMemory;

impl World {
    /// Whether an access of `n` bytes is good: it has no bytes, or all lie in one live allocation.
    pub fn covers(&self, addr: u64, n: u64) -> bool
        ensures good { (beside : Beside) (world : Meant) → Shows self.now beside world → result ≡ is_good world addr n }
        ensures table { result ≡ is_live addr n self.now.planes.table }
    {
        self.planes.covers(addr, n)
    }

    /// The number that `n` bytes are, the least first; `None` where they aren't good.
    #[inline(always)]
    pub fn load(&self, addr: u64, n: u8) -> Option<u64>
        requires { n ≤ 8 }
        ensures { (beside : Beside) (world : Meant) → Shows self.now beside world → MatchOption result (is_good world addr n ≡ false) (λ v. (is_good world addr n ≡ true) × (v ≡ number_at world.bytes addr n)) }
    {
        self.planes.read(addr, n)
    }

    /// Writes the `n` low bytes of `v`, the least first, and returns whether they are good; else nothing changes.
    #[inline(always)]
    pub fn store(&mut self, addr: u64, n: u8, v: u64) -> bool
        requires { n ≤ 8 }
        ensures stored { (beside : Beside) (world : Meant) → Shows self.old beside world → MatchBool result ((is_good world addr n ≡ true) × Shows self.new beside (store_number addr n v world)) ((is_good world addr n ≡ false) × Shows self.new beside world) }
        ensures keeps { Keeps self.old self.new }
        ensures made { self.new.made ≡ self.old.made }
    {
        self.planes.write(addr, n, v)
    }

    /// The number that `n` shadow bytes are, the least first; `None` where the bytes aren't good.
    pub fn load_shadow(&self, addr: u64, n: u8) -> Option<u64>
        requires { n ≤ 8 }
        ensures { (beside : Beside) (world : Meant) → Shows self.now beside world → MatchOption result (is_good world addr n ≡ false) (λ v. (is_good world addr n ≡ true) × (v ≡ number_at world.shadow addr n)) }
    {
        self.planes.read_shadow(addr, n)
    }

    /// The numbers that `n` shadow bytes and the bytes themselves are, the least first; `None` where the bytes aren't good.
    #[inline(always)]
    pub(crate) fn load_numbers(&self, addr: u64, n: u8) -> Option<(u64, u64)>
        requires { n ≤ 8 }
        ensures { (beside : Beside) (world : Meant) → Shows self.now beside world → MatchOption result (is_good world addr n ≡ false) (λ r. (is_good world addr n ≡ true) × (r.0 ≡ number_at world.shadow addr n) × (r.1 ≡ number_at world.bytes addr n)) }
    {
        self.planes.read_both(addr, n)
    }

    /// Writes the `n` low bytes of `v` as shadow, the least first, and returns whether the bytes are good; else
    /// nothing changes. Origins stay.
    pub fn store_shadow(&mut self, addr: u64, n: u8, v: u64) -> bool
        requires { n ≤ 8 }
        ensures stored { (beside : Beside) (world : Meant) → Shows self.old beside world → MatchBool result ((is_good world addr n ≡ true) × Shows self.new beside (set_shadow addr n (byte_of v) world)) ((is_good world addr n ≡ false) × Shows self.new beside world) }
        ensures keeps { Keeps self.old self.new }
        ensures made { self.new.made ≡ self.old.made }
    {
        self.planes.write_shadow(addr, n, v)
    }

    /// The byte at a live address.
    pub fn byte(&self, addr: u64) -> u8
        requires { IsTrue (is_live addr 1 self.now.planes.table) }
        ensures { (beside : Beside) (world : Meant) → Shows self.now beside world → result ≡ world.bytes addr }
    {
        self.planes.byte(addr)
    }

    /// Copies `n` bytes, as they were before, and returns whether both ranges are good; else nothing changes.
    pub fn copy(&mut self, to: u64, from: u64, n: u64) -> Result<bool, NoMemory>
        ensures copied { (beside : Beside) (world : Meant) → Shows self.old beside world → IfOk result (λ ok. MatchBool ok ((is_good world to n ≡ true) × (is_good world from n ≡ true) × Shows self.new beside (copy_bytes to from n world)) ((is_good world to n && is_good world from n ≡ false) × Shows self.new beside world)) }
        ensures keeps { Keeps self.old self.new }
        ensures made { self.new.made ≡ self.old.made }
    {
        if !self.planes.covers(to, n) || !self.planes.covers(from, n) {
            return Ok(false);
        }
        self.planes.copy_bytes(to, from, n)?;
        Ok(true)
    }

    /// Copies `n` good bytes with their shadow and origins, as they were before.
    pub fn copy_all(&mut self, to: u64, from: u64, n: u64) -> Result<(), NoMemory>
        requires to { IsTrue (is_live to n self.old.planes.table) }
        requires from { IsTrue (is_live from n self.old.planes.table) }
        ensures copied { (beside : Beside) (world : Meant) → Shows self.old beside world → OnOk result (Shows self.new beside (copy_shadow to from n (copy_bytes to from n world))) }
        ensures keeps { Keeps self.old self.new }
        ensures made { self.new.made ≡ self.old.made }
    {
        self.planes.copy_bytes(to, from, n)?;
        self.planes.copy_shadow(to, from, n)?;
        Ok(())
    }

    /// Makes each of `n` bytes `byte`, and returns whether they are good; else nothing changes. Linear in `n`.
    pub fn set(&mut self, addr: u64, n: u64, byte: u8) -> bool
        ensures set { (beside : Beside) (world : Meant) → Shows self.old beside world → MatchBool result ((is_good world addr n ≡ true) × Shows self.new beside (set_bytes addr n (λ k. byte) world)) ((is_good world addr n ≡ false) × Shows self.new beside world) }
        ensures keeps { Keeps self.old self.new }
        ensures made { self.new.made ≡ self.old.made }
    {
        let good = self.planes.covers(addr, n);
        if good {
            self.planes.law_laid_out();
            write_byte(&mut self.planes, byte, addr, n);
        }
        good
    }

    /// Makes `n` bytes uninitialised anew, and returns whether they are good; else nothing changes. Linear in `n`.
    pub fn remake(&mut self, addr: u64, n: u64) -> bool
        requires { self.old.made + 2 ^ 26 < 2 ^ 64 }
        ensures made_again { (beside : Beside) (world : Meant) → Shows self.old beside world → MatchBool result ((is_good world addr n ≡ true) × Shows self.new beside (make_bytes self.old.fill addr n world)) ((is_good world addr n ≡ false) × Shows self.new beside world) }
        ensures keeps { Keeps self.old self.new }
        ensures made { self.new.made ≤ self.old.made + 2 ^ 26 }
    {
        let good = self.planes.covers(addr, n);
        if good {
            self.planes.law_laid_out();
            write_unset(&mut self.planes, self.fill.as_slice(), self.made, addr, n);
            self.made += n;
        }
        good
    }
}
