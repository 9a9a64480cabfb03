//! The slots, which hand masks and origins over at calls. In contracts `cells` are their bytes, by address.
ghost use Rattle.std.specs.Prelude.{◌≡◌, ◌≤◌, ◌<◌, ◌+◌, ◌-◌, ◌^◌, true, false, ℕ, List, length, replicate, IfOk, MatchOption, MatchBool, leb, ◌&&◌, IsTrue};
ghost use Rattle.ms_bits.specs.Maps.{number_at, byte_of, with_range};
ghost use Rattle.ms_ir.specs.Names.{slots};
ghost use Rattle.ms_runs.specs.Plain.{in_slots};
ghost use Rattle.ms_host.specs.SlotBytes.{ShowsSlots};

use ms_bits::NoMemory;
use ms_ir::areas::FIRST_SLOT;
use ms_planes::words::{number_in, put_number};
use std::alloc::Global;
use std::marker::Model;

/// How many bytes the slots take, from the first byte of the first to the last byte of the last.
const REACH: usize = 0x3004;

/// The address where the slots end.
const END: u64 = 0x6800_0000_3004;

/// The bytes of the four slots, of 800, 400, 8 and 4 bytes, in one row with those between them, which are never read.
#[derive(Debug, Drop)]
pub struct Slots {
    bytes: Vec<u8>,
}

impl Model for Slots {
    ghost use Rattle.std.specs.Prelude.{List as ListOf, ℕ as Natural};
    ghost use Rattle.ms_host.specs.SlotBytes.{IsSlots};

    ghost Value = { ListOf Natural };

    ghost view = { λ s. s.bytes.items };

    ghost invariant = { λ s. IsSlots s.bytes.items };
}

/// Whether `n` bytes from `a` on lie among `size` from `base` on.
fn lies(a: u64, n: u64, base: u64, size: u64) -> bool
    requires { base + size < 2 ^ 64 }
    ensures { result ≡ leb base a && leb (a + n) (base + size) }
{
    a >= base && a - base <= size && n <= size - (a - base)
}

/// Whether `n` bytes from `a` on lie in one slot.
fn among(a: u64, n: u64) -> bool
    ensures is { result ≡ in_slots a n slots }
    ensures low { IsTrue result → 0x680000000000 ≤ a }
    ensures high { IsTrue result → a + n ≤ 0x680000003004 }
{
    lies(a, n, FIRST_SLOT, 800)
        || lies(a, n, FIRST_SLOT + 0x1000, 400)
        || lies(a, n, FIRST_SLOT + 0x2000, 8)
        || lies(a, n, FIRST_SLOT + 0x3000, 4)
}

/// Whether an address stands before all slots, or after them.
#[inline(always)]
pub(crate) fn is_far(a: u64) -> bool
    ensures { IsTrue result → (n : ℕ) → in_slots a n slots ≡ false }
{
    if a < FIRST_SLOT {
        return true;
    }
    if a > END {
        return true;
    }
    false
}

impl Slots {
    /// The slots at the start of a run: zeros.
    pub fn new(alloc: Global) -> Result<Slots, NoMemory>
        ensures { IfOk result (λ s. ShowsSlots s (λ a. 0)) }
    {
        let mut bytes = Vec::new(alloc);
        bytes.resize(REACH, 0)?;
        Ok(Slots { bytes })
    }

    /// The number that `n` bytes of a slot are; `None` where they don't lie in one.
    pub fn load(&self, a: u64, n: u8) -> Option<u64>
        requires { n ≤ 8 }
        ensures { (cells : ℕ → ℕ) → ShowsSlots self.now cells → MatchOption result (in_slots a n slots ≡ false) (λ v. (in_slots a n slots ≡ true) × (v ≡ number_at cells a n)) }
    {
        if among(a, u64::from(n)) {
            Some(number_in(&self.bytes, (a - FIRST_SLOT) as usize, n))
        } else {
            None
        }
    }

    /// Writes the `n` low bytes of `v` into a slot, and returns whether they lie in one; else nothing changes.
    pub fn store(&mut self, a: u64, n: u8, v: u64) -> bool
        requires { n ≤ 8 }
        ensures { (cells : ℕ → ℕ) → ShowsSlots self.old cells → MatchBool result ((in_slots a n slots ≡ true) × ShowsSlots self.new (with_range cells a n (byte_of v))) ((in_slots a n slots ≡ false) × ShowsSlots self.new cells) }
    {
        let found = among(a, u64::from(n));
        if found {
            put_number(&mut self.bytes, (a - FIRST_SLOT) as usize, n, v);
        }
        found
    }

    /// The number that `n` bytes of a slot are, `at` bytes after where the slots begin.
    #[inline(always)]
    pub fn load_at(&self, at: usize, n: u8) -> u64
        requires size { n ≤ 8 }
        requires within { at + n ≤ 0x3004 }
        ensures { (cells : ℕ → ℕ) → ShowsSlots self.now cells → result ≡ number_at cells (0x680000000000 + at) n }
    {
        number_in(&self.bytes, at, n)
    }

    /// Writes the `n` low bytes of `v` into a slot, `at` bytes after where the slots begin.
    #[inline(always)]
    pub fn store_at(&mut self, at: usize, n: u8, v: u64)
        requires size { n ≤ 8 }
        requires within { at + n ≤ 0x3004 }
        ensures { (cells : ℕ → ℕ) → ShowsSlots self.old cells → ShowsSlots self.new (with_range cells (0x680000000000 + at) n (byte_of v)) }
    {
        put_number(&mut self.bytes, at, n, v);
    }
}
