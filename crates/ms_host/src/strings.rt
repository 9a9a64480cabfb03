//! Strings in memory: where they end, and how two ranges of bytes compare.
ghost use Rattle.std.specs.Prelude.{◌≡◌, ◌≤◌, ◌<◌, ◌+◌, ◌^◌, Some, None, MatchOption, IsTrue};
ghost use Rattle.ms_alloc.specs.Allocations.{is_good as is_live};
ghost use Rattle.ms_bits.specs.Maps.{bytes_at};
ghost use Rattle.ms_runs.specs.{World.{World as Meant}, Memory.{bytes_left}, Externals.{string_at, compared}};
ghost use Rattle.ms_host.specs.{State.{Beside}, Shows.{Shows}};

use crate::worlds::World;

impl World {
    /// The number of bytes from `addr` to the end of its live allocation; 0 where none has it.
    pub fn bytes_left(&self, addr: u64) -> u64
        ensures room { (beside : Beside) (world : Meant) → Shows self.now beside world → result ≡ bytes_left world addr }
        ensures good { IsTrue (is_live addr result self.now.planes.table) }
    {
        self.planes.law_laid_out();
        match self.planes.block_of(addr) {
            Some((base, size)) => base + size - addr,
            None => 0,
        }
    }

    /// The number of bytes before the zero byte that ends the string at `addr`; `None` where no zero byte stands within
    /// its allocation. Linear in that number.
    pub fn string_length(&self, addr: u64) -> Option<u64>
        ensures string { (beside : Beside) (world : Meant) → Shows self.now beside world → MatchOption result (string_at world addr ≡ None) (λ n. string_at world addr ≡ Some (bytes_at world.bytes addr n)) }
        ensures good { MatchOption result (Unit {0}) (λ n. IsTrue (is_live addr n self.now.planes.table)) }
        ensures short { MatchOption result (Unit {0}) (λ n. n ≤ 2 ^ 26) }
        ensures low { MatchOption result (Unit {0}) (λ n. addr + n < 2 ^ 64) }
    {
        self.planes.law_laid_out();
        let room = self.bytes_left(addr);
        for k in 0..room {
            if self.byte(addr + k) == 0 {
                return Some(k);
            }
        }
        None
    }

    /// How two ranges of `n` good bytes compare, by the first bytes that differ: -1, 0 or 1 as a word of 32 bits.
    pub fn compare(&self, a: u64, b: u64, n: u64) -> u64
        requires first { IsTrue (is_live a n self.now.planes.table) }
        requires second { IsTrue (is_live b n self.now.planes.table) }
        ensures { (beside : Beside) (world : Meant) → Shows self.now beside world → result ≡ compared (bytes_at world.bytes a n) (bytes_at world.bytes b n) }
    {
        self.planes.law_laid_out();
        for k in 0..n {
            let x = self.byte(a + k);
            let y = self.byte(b + k);
            if x < y {
                return 0xffff_ffff;
            }
            if y < x {
                return 1;
            }
        }
        0
    }
}
