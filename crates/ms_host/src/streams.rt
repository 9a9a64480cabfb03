//! The input and the output of a run: what externals print and take.
ghost use Rattle.std.specs.Prelude.{◌≡◌, ◌≤◌, ◌+◌, ℕ, List, [], ◌∷◌, ◌++◌, length, take, drop, get_or, OnOk, MatchOption, IsTrue, ◌↔◌};
ghost use Rattle.ms_alloc.specs.Allocations.{is_good as is_live};
ghost use Rattle.ms_bits.specs.Maps.{bytes_at};
ghost use Rattle.ms_runs.specs.{World.{World as Meant}, Memory.{set_bytes}, Externals.{output_limit}};
ghost use Rattle.ms_host.specs.{State.{Beside, Keeps}, Shows.{Shows}};

use crate::worlds::World;
use crate::writes::{smaller, write_bytes};
use ms_bits::{Bytes, List, NoMemory};

/// How many bytes a run may print.
const OUTPUT: u64 = 1 << 20;

impl World {
    /// Whether `n` more bytes may be printed.
    pub fn has_room(&self, n: u64) -> bool
        ensures { (beside : Beside) (world : Meant) → Shows self.now beside world → IsTrue result ↔ (length world.output + n ≤ output_limit) }
    {
        let printed = self.output.len() as u64;
        printed <= OUTPUT && n <= OUTPUT - printed
    }

    /// Prints a byte: puts it behind the output.
    pub fn print_byte(&mut self, byte: u8) -> Result<(), NoMemory>
        ensures printed { (beside : Beside) (world : Meant) → Shows self.old beside world → OnOk result (Shows self.new beside (record world { output = world.output ++ byte ∷ [] })) }
        ensures planes { self.new.planes ≡ self.old.planes }
        ensures keeps { Keeps self.old self.new }
        ensures made { self.new.made ≡ self.old.made }
    {
        self.output.push(byte)?;
        Ok(())
    }

    /// Prints bytes that are given.
    pub fn print_bytes(&mut self, bytes: &[u8]) -> Result<(), NoMemory>
        ensures printed { (beside : Beside) (world : Meant) → Shows self.old beside world → OnOk result (Shows self.new beside (record world { output = world.output ++ bytes.now })) }
        ensures planes { self.new.planes ≡ self.old.planes }
        ensures keeps { Keeps self.old self.new }
        ensures made { self.new.made ≡ self.old.made }
    {
        self.output.extend_from_slice(bytes)?;
        Ok(())
    }

    /// Prints `n` good bytes of memory, from `addr` on.
    pub fn print_range(&mut self, addr: u64, n: u64) -> Result<(), NoMemory>
        requires { IsTrue (is_live addr n self.old.planes.table) }
        ensures printed { (beside : Beside) (world : Meant) → Shows self.old beside world → OnOk result (Shows self.new beside (record world { output = world.output ++ bytes_at world.bytes addr n })) }
        ensures planes { self.new.planes ≡ self.old.planes }
        ensures keeps { Keeps self.old self.new }
        ensures made { self.new.made ≡ self.old.made }
    {
        self.planes.law_laid_out();
        for k in 0..n {
            let byte = self.byte(addr + k);
            self.print_byte(byte)?;
        }
        Ok(())
    }

    /// Takes the next bytes of the input, at most `n`, into good memory, and returns their number.
    pub fn take(&mut self, addr: u64, n: u64) -> u64
        requires { IsTrue (is_live addr n self.old.planes.table) }
        ensures taken { (beside : Beside) (world : Meant) → Shows self.old beside world → (result ≡ length (take n world.input)) × Shows self.new beside (record (set_bytes addr (length (take n world.input)) (λ k. get_or (take n world.input) k 0) world) { input = drop n world.input }) }
        ensures keeps { Keeps self.old self.new }
        ensures made { self.new.made ≡ self.old.made }
    {
        self.planes.law_laid_out();
        let input = self.input.as_slice();
        let left = (input.len() - self.at) as u64;
        let count = smaller(n, left);
        let end = self.at + count as usize;
        write_bytes(&mut self.planes, &input[self.at..end], addr);
        self.at = end;
        count
    }

    /// Takes the next byte of the input; `None` at its end.
    pub fn next_byte(&mut self) -> Option<u8>
        ensures taken { (beside : Beside) (world : Meant) → Shows self.old beside world → MatchOption result ((world.input ≡ []) × Shows self.new beside world) (λ b. (rest : List ℕ) × ((world.input ≡ b ∷ rest) × Shows self.new beside (record world { input = rest }))) }
        ensures keeps { Keeps self.old self.new }
        ensures made { self.new.made ≡ self.old.made }
    {
        let input = self.input.as_slice();
        if self.at < input.len() {
            let byte = input[self.at];
            self.at += 1;
            Some(byte)
        } else {
            None
        }
    }

    /// What was printed, at the end of a run. Takes no memory.
    pub fn into_output(self) -> Bytes
        ensures { (beside : Beside) (world : Meant) → Shows self beside world → result ≡ world.output }
    {
        List::from_vec(self.output)
    }
}
