//! The bytes of one constant or text of an initialiser, written into memory. `globals.rt` goes over whole initialisers.
ghost use Rattle.std.specs.Prelude.{◌≡◌, ◌+◌, length, get_or};
ghost use Rattle.ms_bits.specs.Maps.{byte_of};
ghost use Rattle.ms_runs.specs.{World.{World as Meant}, Memory.{store_number, set_bytes}};
ghost use Rattle.ms_host.specs.{State.{Beside, Keeps}, Shows.{Shows}, Initial.{Changes}};

use crate::shadows::live_past;
use crate::worlds::World;

impl World {
    /// Writes the `n` low bytes of a constant, the least first, from `at` on, but for those that aren't live.
    pub(crate) fn initialise_number(&mut self, at: Option<u64>, n: u8, v: u64)
        ensures written { Changes self.old self.new at (λ a. store_number a n v) }
        ensures keeps { Keeps self.old self.new }
        ensures made { self.new.made ≡ self.old.made }
    {
        self.planes.law_laid_out();
        let Some(addr) = at else {
            return;
        };
        let mut rest = v;
        for k in 0..u64::from(n) {
            self.initialise_byte(addr, k, (rest % 256) as u8);
            rest /= 256;
        }
    }

    /// Writes the bytes of a text from `at` on, but for those that aren't live.
    pub(crate) fn initialise_text(&mut self, at: Option<u64>, bytes: &[u8])
        ensures written { Changes self.old self.new at (λ a. set_bytes a (length bytes.now) (λ k. get_or bytes.now k 0)) }
        ensures keeps { Keeps self.old self.new }
        ensures made { self.new.made ≡ self.old.made }
    {
        self.planes.law_laid_out();
        let Some(addr) = at else {
            return;
        };
        for k in 0..bytes.len() {
            self.initialise_byte(addr, k as u64, bytes[k]);
        }
    }

    /// Writes the byte `k` bytes past `addr`, where it is live.
    fn initialise_byte(&mut self, addr: u64, k: u64, byte: u8)
        ensures written { (beside : Beside) (world : Meant) → Shows self.old beside world → Shows self.new beside (set_bytes (addr + k) 1 (byte_of byte) world) }
        ensures keeps { Keeps self.old self.new }
        ensures made { self.new.made ≡ self.old.made }
    {
        self.planes.law_laid_out();
        if let Some(live) = live_past(&self.planes, addr, k) {
            self.planes.store(live, 1, u64::from(byte));
        }
    }
}
