//! The externals that reach memory or the streams, one method of the world each: heap blocks, ranges of bytes, strings, input
//! and output (C library). `answering.rt` tells which one a call is of.
ghost use Rattle.std.specs.Prelude.{◌≡◌, ◌≤◌, ◌<◌, ◌+◌, ◌*◌, ◌^◌, [], ◌∷◌, IfOk};
ghost use Rattle.ms_bits.specs.Maps.{bytes_at};
ghost use Rattle.ms_runs.specs.{World.{World as Meant, Gives, Does}, Memory.{copy_bytes, set_bytes, make_bytes}};
ghost use Rattle.ms_runs.specs.Externals.{malloc, calloc, realloc, free, where_good, printed, next_byte, compared};
ghost use Rattle.ms_host.specs.{State.{Beside, Keeps}, Shows.{Shows}};
ghost use Rattle.ms_host.specs.Answers.{Answered, resumed, strlen_of, puts_of, write_of, read_of};

use crate::calls::{Answer, trap};
use crate::worlds::World;
use crate::writes::smaller;
use ms_alloc::{AllocError, AllocKind};
use ms_bits::{NoMemory, Trap};

impl World {
    /// `malloc`: a heap block of uninitialised bytes, or null at the limit of the heap.
    pub(crate) fn malloc(&mut self, n: u64) -> Result<Answer, NoMemory>
        requires { self.old.made + 2 ^ 26 < 2 ^ 64 }
        ensures answered { (beside : Beside) (world : Meant) → Shows self.old beside world → IfOk result (λ a. Answered beside (malloc self.old.fill n world) a self.new) }
        ensures keeps { Keeps self.old self.new }
        ensures made { self.new.made ≤ self.old.made + 2 ^ 26 }
    {
        match self.make_uninit(AllocKind::Heap, n) {
            Ok(base) => Ok(Answer::Resumed(Some(base))),
            Err(AllocError::Full) => Ok(Answer::Resumed(Some(0))),
            Err(AllocError::NoMemory) => Err(std::alloc::AllocError),
        }
    }

    /// `calloc`: a heap block of zero bytes, or null at the limit of the heap and where the size is no number of 64 bits.
    pub(crate) fn calloc(&mut self, count: u64, size: u64) -> Result<Answer, NoMemory>
        ensures answered { (beside : Beside) (world : Meant) → Shows self.old beside world → IfOk result (λ a. Answered beside (calloc (count * size) world) a self.new) }
        ensures keeps { Keeps self.old self.new }
        ensures made { self.new.made ≡ self.old.made }
    {
        let Some(n) = count.checked_mul(size) else {
            return Ok(Answer::Resumed(Some(0)));
        };
        match self.make_zero(AllocKind::Heap, n) {
            Ok(base) => Ok(Answer::Resumed(Some(base))),
            Err(AllocError::Full) => Ok(Answer::Resumed(Some(0))),
            Err(AllocError::NoMemory) => Err(std::alloc::AllocError),
        }
    }

    /// `free`: ends a live heap block, and traps at anything else but null.
    pub(crate) fn free(&mut self, site: u32, base: u64) -> Answer
        ensures answered { (beside : Beside) (world : Meant) → Shows self.old beside world → Answered beside (free site base world) result self.new }
        ensures keeps { Keeps self.old self.new }
        ensures made { self.new.made ≡ self.old.made }
    {
        if base == 0 {
            return Answer::Resumed(None);
        }
        if self.heap_size(base).is_none() {
            return trap(Trap::BadFree, site);
        }
        self.free_block(base);
        Answer::Resumed(None)
    }

    /// `realloc`: a heap block of `n` bytes that holds what the one at `base` held, as far as both go, with shadow and origins, and
    /// the old one ends; `malloc` where `base` is null. Null at the limit of the heap; traps where `base` is no live heap block.
    pub(crate) fn realloc(&mut self, site: u32, base: u64, n: u64) -> Result<Answer, NoMemory>
        requires { self.old.made + 2 ^ 26 < 2 ^ 64 }
        ensures answered { (beside : Beside) (world : Meant) → Shows self.old beside world → IfOk result (λ a. Answered beside (realloc self.old.fill site base n world) a self.new) }
        ensures keeps { Keeps self.old self.new }
        ensures made { self.new.made ≤ self.old.made + 2 ^ 26 }
    {
        if base == 0 {
            return self.malloc(n);
        }
        let Some(old) = self.heap_size(base) else {
            return Ok(trap(Trap::BadFree, site));
        };
        let new = match self.make_uninit(AllocKind::Heap, n) {
            Ok(new) => new,
            Err(AllocError::Full) => return Ok(Answer::Resumed(Some(0))),
            Err(AllocError::NoMemory) => return Err(std::alloc::AllocError),
        };
        self.copy_all(new, base, smaller(old, n))?;
        self.free_block(base);
        Ok(Answer::Resumed(Some(new)))
    }

    /// `memcpy`, `memmove` and their intrinsics, where `answer` is what is answered; traps where a range isn't good.
    pub(crate) fn copied(
        &mut self,
        site: u32,
        to: u64,
        from: u64,
        n: u64,
        answer: Option<u64>,
    ) -> Result<Answer, NoMemory>
        ensures answered { (beside : Beside) (world : Meant) → Shows self.old beside world → IfOk result (λ a. Answered beside (where_good site to n world (where_good site from n world (resumed answer (copy_bytes to from n world)))) a self.new) }
        ensures keeps { Keeps self.old self.new }
        ensures made { self.new.made ≡ self.old.made }
    {
        if self.copy(to, from, n)? {
            Ok(Answer::Resumed(answer))
        } else {
            Ok(trap(Trap::BadAddress, site))
        }
    }

    /// `memset` and its intrinsic, where `answer` is what is answered; traps where the range isn't good.
    pub(crate) fn filled(
        &mut self,
        site: u32,
        addr: u64,
        byte: u8,
        n: u64,
        answer: Option<u64>,
    ) -> Answer
        ensures answered { (beside : Beside) (world : Meant) → Shows self.old beside world → Answered beside (where_good site addr n world (resumed answer (set_bytes addr n (λ k. byte) world))) result self.new }
        ensures keeps { Keeps self.old self.new }
        ensures made { self.new.made ≡ self.old.made }
    {
        if self.set(addr, n, byte) {
            Answer::Resumed(answer)
        } else {
            trap(Trap::BadAddress, site)
        }
    }

    /// `llvm.lifetime.start.p0`: the bytes are uninitialised anew; traps where they aren't good.
    pub(crate) fn lifetime_start(&mut self, site: u32, n: u64, addr: u64) -> Answer
        requires { self.old.made + 2 ^ 26 < 2 ^ 64 }
        ensures answered { (beside : Beside) (world : Meant) → Shows self.old beside world → Answered beside (where_good site addr n world (Does (make_bytes self.old.fill addr n world))) result self.new }
        ensures keeps { Keeps self.old self.new }
        ensures made { self.new.made ≤ self.old.made + 2 ^ 26 }
    {
        if self.remake(addr, n) {
            Answer::Resumed(None)
        } else {
            trap(Trap::BadAddress, site)
        }
    }

    /// `strlen`; traps where the string doesn't end within its allocation.
    pub(crate) fn strlen(&self, site: u32, addr: u64) -> Answer
        ensures { (beside : Beside) (world : Meant) → Shows self.now beside world → Answered beside (strlen_of site addr world) result self.now }
    {
        match self.string_length(addr) {
            Some(n) => Answer::Resumed(Some(n)),
            None => trap(Trap::BadAddress, site),
        }
    }

    /// `memcmp`; traps where a range isn't good.
    pub(crate) fn memcmp(&self, site: u32, a: u64, b: u64, n: u64) -> Answer
        ensures { (beside : Beside) (world : Meant) → Shows self.now beside world → Answered beside (where_good site a n world (where_good site b n world (Gives (compared (bytes_at world.bytes a n) (bytes_at world.bytes b n)) world))) result self.now }
    {
        if !self.covers(a, n) {
            return trap(Trap::BadAddress, site);
        }
        if !self.covers(b, n) {
            return trap(Trap::BadAddress, site);
        }
        let word = self.compare(a, b, n);
        Answer::Resumed(Some(word))
    }

    /// `putchar`; traps where the limit of the output would be passed.
    pub(crate) fn putchar(&mut self, site: u32, byte: u8) -> Result<Answer, NoMemory>
        ensures answered { (beside : Beside) (world : Meant) → Shows self.old beside world → IfOk result (λ a. Answered beside (printed site (byte ∷ []) (Gives byte) world) a self.new) }
        ensures keeps { Keeps self.old self.new }
        ensures made { self.new.made ≡ self.old.made }
    {
        if self.has_room(1) {
            self.print_byte(byte)?;
            Ok(Answer::Resumed(Some(u64::from(byte))))
        } else {
            Ok(trap(Trap::Output, site))
        }
    }

    /// `puts`; traps where the string doesn't end within its allocation, or the limit of the output would be passed.
    pub(crate) fn puts(&mut self, site: u32, addr: u64) -> Result<Answer, NoMemory>
        ensures answered { (beside : Beside) (world : Meant) → Shows self.old beside world → IfOk result (λ a. Answered beside (puts_of site addr world) a self.new) }
        ensures keeps { Keeps self.old self.new }
        ensures made { self.new.made ≡ self.old.made }
    {
        let Some(n) = self.string_length(addr) else {
            return Ok(trap(Trap::BadAddress, site));
        };
        if self.has_room(n + 1) {
            self.print_range(addr, n)?;
            self.print_byte(10)?;
            Ok(Answer::Resumed(Some(1)))
        } else {
            Ok(trap(Trap::Output, site))
        }
    }

    /// `write`: prints to descriptor 1 (`to`), and returns -1 for any other; traps where the range isn't good, or the limit of the
    /// output would be passed.
    pub(crate) fn write(
        &mut self,
        site: u32,
        to: u64,
        addr: u64,
        n: u64,
    ) -> Result<Answer, NoMemory>
        ensures answered { (beside : Beside) (world : Meant) → Shows self.old beside world → IfOk result (λ a. Answered beside (write_of site to addr n world) a self.new) }
        ensures keeps { Keeps self.old self.new }
        ensures made { self.new.made ≡ self.old.made }
    {
        if !self.covers(addr, n) {
            return Ok(trap(Trap::BadAddress, site));
        }
        if to != 1 {
            return Ok(Answer::Resumed(Some(u64::MAX)));
        }
        if self.has_room(n) {
            self.print_range(addr, n)?;
            Ok(Answer::Resumed(Some(n)))
        } else {
            Ok(trap(Trap::Output, site))
        }
    }

    /// `read`: takes input from descriptor 0 (`from`), and returns -1 for any other; traps where the range isn't good.
    pub(crate) fn read(&mut self, site: u32, from: u64, addr: u64, n: u64) -> Answer
        ensures answered { (beside : Beside) (world : Meant) → Shows self.old beside world → Answered beside (read_of site from addr n world) result self.new }
        ensures keeps { Keeps self.old self.new }
        ensures made { self.new.made ≡ self.old.made }
    {
        if !self.covers(addr, n) {
            return trap(Trap::BadAddress, site);
        }
        if from != 0 {
            return Answer::Resumed(Some(u64::MAX));
        }
        let count = self.take(addr, n);
        Answer::Resumed(Some(count))
    }

    /// `getchar`: -1 at the end of the input.
    pub(crate) fn getchar(&mut self) -> Answer
        ensures answered { (beside : Beside) (world : Meant) → Shows self.old beside world → Answered beside (next_byte world.input world) result self.new }
        ensures keeps { Keeps self.old self.new }
        ensures made { self.new.made ≡ self.old.made }
    {
        match self.next_byte() {
            Some(byte) => Answer::Resumed(Some(u64::from(byte))),
            None => Answer::Resumed(Some(0xffff_ffff)),
        }
    }
}
