//! The memory of a run: bytes, shadow and origins of each allocation.
ghost use Rattle.std.specs.Prelude.{◌≡◌, ◌≢◌, ◌≤◌, ◌<◌, ◌+◌, ◌/◌, Some, None, IsTrue, IsErr, ◌↔◌, OnOk, OnErr, IfOk, IsErrOf, option_map, eqb, length, get_or, if◌then◌else◌, [], option_copied, MatchOption, true, false};
ghost use Rattle.ms_bits.specs.Fill.{made_byte};
ghost use Rattle.ms_bits.specs.Maps.{with_range, byte_of, number_at, first_nonzero, copied, with_cells, with_cell, copied_cells};
ghost use Rattle.ms_alloc.specs.{declared.kinds.AllocKind.TheVariants.{Stack}, Layout.{room, area_limit}};
ghost use Rattle.ms_alloc.specs.Allocations.{no_allocations, next_base, used, of_kind, with_made, with_ended, without_from, is_good, block_of, heap_size, IsLaidOut};
ghost use Rattle.ms_planes.specs.Memory.{area_index as index_of};

use crate::copies::{copy_into, copy_within};
use crate::origins::fill_origins;
use crate::parts::{Plane, both, fill_into, first_marked, number, paste, put_made, put_number};
use ms_alloc::{AllocError, AllocKind, BadFree, Table, TablePlace};
use ms_bits::NoMemory;
use ms_raw::Block;
use std::alloc::Global;
use std::fmt;
use std::marker::Model;

/// The number of areas.
const AREAS: usize = 3;

/// The place of an area among the three.
fn area_of(kind: AllocKind) -> usize
    ensures { result ≡ index_of kind }
{
    match kind {
        AllocKind::Fixed => 0,
        AllocKind::Heap => 1,
        AllocKind::Stack => 2,
    }
}

/// Frees a block.
fn free(slot: &mut Option<Block>)
    ensures { slot.new ≡ None }
{
    *slot = None;
}

/// Puts a block back that was taken out.
fn put_back(slot: &mut Option<Block>, block: Option<Block>)
    ensures { slot.new ≡ block }
{
    *slot = block;
}

/// The memory of a run. Contracts see the table of allocations and three maps: bytes and shadow bytes by address,
/// origins by cell, which is the address divided by 4.
///
/// A range is good where it has no bytes, or where all its bytes lie in one live allocation. Calls that read or
/// write a range ask that it is good.
#[derive(Drop)]
pub struct Planes {
    alloc: Global,
    table: Table,
    /// For each area a block for each of its allocations, in the order of the table; none for one that has ended.
    areas: [Vec<Option<Block>>; AREAS],
}

impl Model for Planes {
    ghost use Rattle.ms_planes.specs.Memory.{Memory, IsMemory, lists};

    ghost Value = { Memory };

    ghost view = { λ p. record { table = p.table; blocks = lists p.areas } };

    ghost invariant = { λ p. IsMemory (record { table = p.table; blocks = lists p.areas }) };
}

impl fmt::Debug for Planes {
    fn fmt<W: fmt::Write>(&self, f: &mut fmt::Formatter<W>) -> fmt::Result {
        self.table.fmt(f)
    }
}

impl Planes {
    ghost use Rattle.ms_planes.specs.Memory.{bytes_of, shadow_of, origins_of, part_of, area_index, IsSame, KeepsLive, MapsCopied};
    ghost use Rattle.ms_planes.specs.Blocks.{other};
    ghost use Rattle.ms_alloc.specs.Places.{IsPlace};

    /// No allocations. Takes no memory yet.
    pub fn new(alloc: Global) -> Planes
        ensures { result.table ≡ no_allocations }
    {
        Planes {
            alloc,
            table: Table::new(alloc),
            areas: [Vec::new(alloc), Vec::new(alloc), Vec::new(alloc)],
        }
    }

    /// Makes an allocation of `size` zero bytes, clean, with origin 0, and returns its base.
    ///
    /// `Full` where the allocations of its area would then take more than the limit; `NoMemory` where memory
    /// runs out. The planes are then as they were.
    pub fn make(&mut self, kind: AllocKind, size: u64) -> Result<u64, AllocError>
        ensures base { IfOk result (λ base. base ≡ next_base kind self.old.table) }
        ensures table { OnOk result (self.new.table ≡ with_made kind size self.old.table) }
        ensures bytes { OnOk result (bytes_of self.new ≡ with_range (bytes_of self.old) (next_base kind self.old.table) size (λ k. 0)) }
        ensures shadow { OnOk result (shadow_of self.new ≡ with_range (shadow_of self.old) (next_base kind self.old.table) size (λ k. 0)) }
        ensures origins { OnOk result (origins_of self.new ≡ with_cells (origins_of self.old) (next_base kind self.old.table) size 0) }
        ensures full { IsErrOf result AllocError.Full ↔ (area_limit kind < used (of_kind kind self.old.table) + room size) }
        ensures unchanged { OnErr result (IsSame self.old self.new) }
    {
        if !self.table.fits(kind, size) {
            return Err(AllocError::Full);
        }
        let block = Block::new(self.alloc, size)?;
        let area = &mut self.areas[area_of(kind)];
        let count = area.len();
        area.push(Some(block))?;
        let made = self.table.make(kind, size);
        if made.is_err() {
            area.truncate(count);
        }
        made
    }

    /// Ends the live heap block that begins at `base`, and returns its size.
    ///
    /// `BadFree` where no live heap block begins there. The planes are then as they were.
    pub fn end(&mut self, base: u64) -> Result<u64, BadFree>
        ensures size { IfOk result (λ size. heap_size base self.old.table ≡ Some size) }
        ensures table { OnOk result (self.new.table ≡ with_ended base self.old.table) }
        ensures live { KeepsLive self.old self.new }
        ensures bad_free { IsErr result ↔ (heap_size base self.old.table ≡ None) }
        ensures unchanged { OnErr result (IsSame self.old self.new) }
    {
        let place = self.table.place_of_block(base);
        let size = self.table.end(base)?;
        if let Some(index) = place {
            free(&mut self.areas[area_of(AllocKind::Heap)][index]);
        }
        Ok(size)
    }

    /// Where the next allocation of the stack begins.
    pub fn mark(&self) -> u64
        ensures { result ≡ next_base Stack self.now.table }
    {
        self.table.mark()
    }

    /// Takes all allocations of the stack from the address `mark` on out of the table.
    pub fn release(&mut self, mark: u64)
        ensures table { self.new.table ≡ without_from mark self.old.table }
        ensures live { KeepsLive self.old self.new }
    {
        self.table.release(mark);
        let left = self.table.count(AllocKind::Stack);
        self.areas[area_of(AllocKind::Stack)].truncate(left);
    }

    /// What every table of allocations has.
    pub fn law_laid_out(&self)
        ensures { IsLaidOut self.now.table }
    {
        self.table.law_laid_out();
    }

    /// Whether a range is good.
    pub fn covers(&self, addr: u64, n: u64) -> bool
        ensures { result ≡ is_good addr n self.now.table }
    {
        self.table.covers(addr, n)
    }

    /// Base and size of the live allocation that has the byte at `addr`, if one has it.
    pub fn block_of(&self, addr: u64) -> Option<(u64, u64)>
        ensures { result ≡ block_of addr self.now.table }
    {
        self.table.block_of(addr)
    }

    /// The size of the live heap block that begins at `base`, if one does.
    pub fn heap_size(&self, base: u64) -> Option<u64>
        ensures { result ≡ heap_size base self.now.table }
    {
        self.table.heap_size(base)
    }

    /// The byte at `addr`.
    pub fn byte(&self, addr: u64) -> u8
        requires { IsTrue (is_good addr 1 self.now.table) }
        ensures { result ≡ bytes_of self.now addr }
    {
        let Some(place) = self.table.place_of(addr, 1) else {
            return 0;
        };
        match self.block(place) {
            Some(block) => block.byte(addr - place.base),
            None => 0,
        }
    }

    /// The number that `n` bytes are, the least first; `None` where they aren't good. The usual sizes each have a copy of the
    /// whole search, in which the size is known.
    #[inline(always)]
    pub fn read(&self, addr: u64, n: u8) -> Option<u64>
        requires { n ≤ 8 }
        ensures { MatchOption result (is_good addr n self.now.table ≡ false) (λ v. (is_good addr n self.now.table ≡ true) × (v ≡ number_at (bytes_of self.now) addr n)) }
    {
        match n {
            1 => self.number(Plane::Bytes, addr, 1),
            4 => self.number(Plane::Bytes, addr, 4),
            8 => self.number(Plane::Bytes, addr, 8),
            _ => self.number(Plane::Bytes, addr, n),
        }
    }

    /// The number that `n` bytes are, the least first.
    pub fn load(&self, addr: u64, n: u8) -> u64
        requires good { IsTrue (is_good addr n self.now.table) }
        requires short { n ≤ 8 }
        ensures { result ≡ number_at (bytes_of self.now) addr n }
    {
        self.number(Plane::Bytes, addr, n).unwrap()
    }

    /// Writes the `n` low bytes of `v`, the least first, and returns whether they are good; else nothing changes. The usual
    /// sizes each have their copy, as in `read`.
    #[inline(always)]
    pub fn write(&mut self, addr: u64, n: u8, v: u64) -> bool
        requires { n ≤ 8 }
        ensures good { result ≡ is_good addr n self.old.table }
        ensures table { self.new.table ≡ self.old.table }
        ensures bytes { bytes_of self.new ≡ (if result then with_range (bytes_of self.old) addr n (byte_of v) else bytes_of self.old) }
        ensures shadow { shadow_of self.new ≡ shadow_of self.old }
        ensures origins { origins_of self.new ≡ origins_of self.old }
    {
        match n {
            1 => self.put(Plane::Bytes, addr, 1, v),
            4 => self.put(Plane::Bytes, addr, 4, v),
            8 => self.put(Plane::Bytes, addr, 8, v),
            _ => self.put(Plane::Bytes, addr, n, v),
        }
    }

    /// Writes the `n` low bytes of `v`, the least first.
    pub fn store(&mut self, addr: u64, n: u8, v: u64)
        requires good { IsTrue (is_good addr n self.old.table) }
        requires short { n ≤ 8 }
        ensures table { self.new.table ≡ self.old.table }
        ensures bytes { bytes_of self.new ≡ with_range (bytes_of self.old) addr n (byte_of v) }
        ensures shadow { shadow_of self.new ≡ shadow_of self.old }
        ensures origins { origins_of self.new ≡ origins_of self.old }
    {
        self.put(Plane::Bytes, addr, n, v);
    }

    /// Writes the bytes of `source` from `addr` on.
    pub fn store_bytes(&mut self, addr: u64, source: &[u8])
        requires { IsTrue (is_good addr (length source.now) self.old.table) }
        ensures table { self.new.table ≡ self.old.table }
        ensures bytes { bytes_of self.new ≡ with_range (bytes_of self.old) addr (length source.now) (λ k. get_or source.now k 0) }
        ensures shadow { shadow_of self.new ≡ shadow_of self.old }
        ensures origins { origins_of self.new ≡ origins_of self.old }
    {
        self.paste(Plane::Bytes, addr, source);
    }

    /// Makes each of `n` bytes `v`.
    pub fn fill_bytes(&mut self, addr: u64, n: u64, v: u8)
        requires { IsTrue (is_good addr n self.old.table) }
        ensures table { self.new.table ≡ self.old.table }
        ensures bytes { bytes_of self.new ≡ with_range (bytes_of self.old) addr n (λ k. v) }
        ensures shadow { shadow_of self.new ≡ shadow_of self.old }
        ensures origins { origins_of self.new ≡ origins_of self.old }
    {
        self.fill(Plane::Bytes, addr, n, v);
    }

    /// Makes `n` bytes uninitialised: they are the bytes that a run makes of `fill`, which isn't empty, after it has made
    /// `made` others.
    pub fn store_made(&mut self, addr: u64, n: u64, fill: &[u8], made: u64)
        requires good { IsTrue (is_good addr n self.old.table) }
        requires filled { 0 < length fill.now }
        ensures table { self.new.table ≡ self.old.table }
        ensures bytes { bytes_of self.new ≡ with_range (bytes_of self.old) addr n (λ k. made_byte fill.now (made + k)) }
        ensures shadow { shadow_of self.new ≡ shadow_of self.old }
        ensures origins { origins_of self.new ≡ origins_of self.old }
    {
        if n == 0 {
            return;
        }
        let Some(place) = self.table.place_of(addr, n) else {
            return;
        };
        let area = &mut self.areas[area_of(place.kind)];
        match &mut area[place.index] {
            Some(block) => put_made(block, addr - place.base, n, fill, made),
            None => {}
        }
    }

    /// The number that `n` shadow bytes are, the least first; `None` where the bytes aren't good.
    pub fn read_shadow(&self, addr: u64, n: u8) -> Option<u64>
        requires { n ≤ 8 }
        ensures { MatchOption result (is_good addr n self.now.table ≡ false) (λ v. (is_good addr n self.now.table ≡ true) × (v ≡ number_at (shadow_of self.now) addr n)) }
    {
        self.number(Plane::Shadow, addr, n)
    }

    /// The numbers that `n` shadow bytes and the bytes themselves are, the least first, found by one search; `None` where the
    /// bytes aren't good.
    #[inline(always)]
    pub fn read_both(&self, addr: u64, n: u8) -> Option<(u64, u64)>
        requires { n ≤ 8 }
        ensures { MatchOption result (is_good addr n self.now.table ≡ false) (λ r. (is_good addr n self.now.table ≡ true) × (r.0 ≡ number_at (shadow_of self.now) addr n) × (r.1 ≡ number_at (bytes_of self.now) addr n)) }
    {
        if n == 0 {
            return Some((0, 0));
        }
        let Some(place) = self.table.place_of(addr, u64::from(n)) else {
            return None;
        };
        match self.block(place) {
            Some(block) => Some(both(block, addr - place.base, n)),
            None => unreachable!(),
        }
    }

    /// The number that `n` shadow bytes are, the least first.
    pub fn load_shadow(&self, addr: u64, n: u8) -> u64
        requires good { IsTrue (is_good addr n self.now.table) }
        requires short { n ≤ 8 }
        ensures { result ≡ number_at (shadow_of self.now) addr n }
    {
        self.number(Plane::Shadow, addr, n).unwrap()
    }

    /// Writes the `n` low bytes of `v` as shadow, the least first, and returns whether the bytes are good; else nothing
    /// changes.
    pub fn write_shadow(&mut self, addr: u64, n: u8, v: u64) -> bool
        requires { n ≤ 8 }
        ensures good { result ≡ is_good addr n self.old.table }
        ensures table { self.new.table ≡ self.old.table }
        ensures bytes { bytes_of self.new ≡ bytes_of self.old }
        ensures shadow { shadow_of self.new ≡ (if result then with_range (shadow_of self.old) addr n (byte_of v) else shadow_of self.old) }
        ensures origins { origins_of self.new ≡ origins_of self.old }
    {
        self.put(Plane::Shadow, addr, n, v)
    }

    /// Writes the `n` low bytes of `v` as shadow, the least first.
    pub fn store_shadow(&mut self, addr: u64, n: u8, v: u64)
        requires good { IsTrue (is_good addr n self.old.table) }
        requires short { n ≤ 8 }
        ensures table { self.new.table ≡ self.old.table }
        ensures bytes { bytes_of self.new ≡ bytes_of self.old }
        ensures shadow { shadow_of self.new ≡ with_range (shadow_of self.old) addr n (byte_of v) }
        ensures origins { origins_of self.new ≡ origins_of self.old }
    {
        self.put(Plane::Shadow, addr, n, v);
    }

    /// The origin of the cell of a byte.
    pub fn origin_at(&self, addr: u64) -> u32
        requires { IsTrue (is_good addr 1 self.now.table) }
        ensures { result ≡ origins_of self.now (addr / 4) }
    {
        let Some(place) = self.table.place_of(addr, 1) else {
            return 0;
        };
        match self.block(place) {
            Some(block) => block.origin((addr - place.base) / 4),
            None => 0,
        }
    }

    /// Puts an origin into the cell of a byte.
    pub fn set_origin_at(&mut self, addr: u64, origin: u32)
        requires { IsTrue (is_good addr 1 self.old.table) }
        ensures table { self.new.table ≡ self.old.table }
        ensures bytes { bytes_of self.new ≡ bytes_of self.old }
        ensures shadow { shadow_of self.new ≡ shadow_of self.old }
        ensures origins { origins_of self.new ≡ with_cell (origins_of self.old) addr origin }
    {
        self.fill_origins(addr, 1, origin);
    }

    /// Sets each shadow byte of a range to `mask` and, where `mask` isn't 0, each cell that the range touches to
    /// `origin`.
    pub fn poison(&mut self, addr: u64, n: u64, mask: u8, origin: u32)
        requires { IsTrue (is_good addr n self.old.table) }
        ensures table { self.new.table ≡ self.old.table }
        ensures bytes { bytes_of self.new ≡ bytes_of self.old }
        ensures shadow { shadow_of self.new ≡ with_range (shadow_of self.old) addr n (λ k. mask) }
        ensures origins { origins_of self.new ≡ (if eqb mask 0 then origins_of self.old else with_cells (origins_of self.old) addr n origin) }
    {
        self.fill(Plane::Shadow, addr, n, mask);
        if mask != 0 {
            self.fill_origins(addr, n, origin);
        }
    }

    /// Sets each shadow byte of a range to 0. Cells stay.
    pub fn unpoison(&mut self, addr: u64, n: u64)
        requires { IsTrue (is_good addr n self.old.table) }
        ensures table { self.new.table ≡ self.old.table }
        ensures bytes { bytes_of self.new ≡ bytes_of self.old }
        ensures shadow { shadow_of self.new ≡ with_range (shadow_of self.old) addr n (λ k. 0) }
        ensures origins { origins_of self.new ≡ origins_of self.old }
    {
        self.fill(Plane::Shadow, addr, n, 0);
    }

    /// Copies `n` bytes, as they were before. The planes are as they were where memory runs out.
    pub fn copy_bytes(&mut self, to: u64, from: u64, n: u64) -> Result<(), NoMemory>
        requires to { IsTrue (is_good to n self.old.table) }
        requires from { IsTrue (is_good from n self.old.table) }
        ensures table { self.new.table ≡ self.old.table }
        ensures bytes { OnOk result (bytes_of self.new ≡ copied (bytes_of self.old) to from n) }
        ensures shadow { shadow_of self.new ≡ shadow_of self.old }
        ensures origins { origins_of self.new ≡ origins_of self.old }
        ensures unchanged { OnErr result (IsSame self.old self.new) }
    {
        if n != 0 {
            self.copy(Plane::Bytes, to, from, n);
        }
        Ok(())
    }

    /// Gives each of `n` bytes the shadow that its source had before, and each of them whose new shadow isn't 0, in
    /// rising order, puts the origin that its source's cell had before into its own cell. The planes are as they were
    /// where memory runs out.
    pub fn copy_shadow(&mut self, to: u64, from: u64, n: u64) -> Result<(), NoMemory>
        requires to { IsTrue (is_good to n self.old.table) }
        requires from { IsTrue (is_good from n self.old.table) }
        ensures table { self.new.table ≡ self.old.table }
        ensures bytes { bytes_of self.new ≡ bytes_of self.old }
        ensures shadow { OnOk result (shadow_of self.new ≡ copied (shadow_of self.old) to from n) }
        ensures origins { OnOk result (origins_of self.new ≡ copied_cells (shadow_of self.old) (origins_of self.old) to from n (origins_of self.old)) }
        ensures unchanged { OnErr result (IsSame self.old self.new) }
    {
        if n != 0 {
            self.copy(Plane::Shadow, to, from, n);
        }
        Ok(())
    }

    /// How far from `addr` the first of `n` bytes stands whose shadow isn't 0.
    pub fn first_poisoned(&self, addr: u64, n: u64) -> Option<u64>
        requires { IsTrue (is_good addr n self.now.table) }
        ensures { option_map (λ k. addr + k) result ≡ first_nonzero (shadow_of self.now) addr n }
    {
        if n == 0 {
            return None;
        }
        let Some(place) = self.table.place_of(addr, n) else {
            return None;
        };
        match self.block(place) {
            Some(block) => first_marked(block, addr - place.base, n),
            None => None,
        }
    }

    /// The block of an allocation, if it hasn't ended.
    fn block(&self, place: TablePlace) -> Option<&Block>
        requires { place.index < length (get_or self.now.blocks (area_index place.kind) []) }
        ensures { option_copied result ≡ get_or (get_or self.now.blocks (area_index place.kind) []) place.index None }
    {
        self.areas[area_of(place.kind)][place.index].as_ref()
    }

    /// The number that `n` bytes or shadow bytes are, the least first; `None` where the bytes aren't good.
    #[inline(always)]
    fn number(&self, part: Plane, addr: u64, n: u8) -> Option<u64>
        requires { n ≤ 8 }
        ensures { MatchOption result (is_good addr n self.now.table ≡ false) (λ v. (is_good addr n self.now.table ≡ true) × (v ≡ number_at (part_of part self.now) addr n)) }
    {
        if n == 0 {
            return Some(0);
        }
        let Some(place) = self.table.place_of(addr, u64::from(n)) else {
            return None;
        };
        match self.block(place) {
            Some(block) => Some(number(block, part, addr - place.base, n)),
            None => unreachable!(),
        }
    }

    /// Writes the `n` low bytes of `v` as bytes or shadow bytes, the least first, and returns whether the bytes are good;
    /// else nothing changes.
    #[inline(always)]
    fn put(&mut self, part: Plane, addr: u64, n: u8, v: u64) -> bool
        ensures good { result ≡ is_good addr n self.old.table }
        ensures table { self.new.table ≡ self.old.table }
        ensures shown { part_of part self.new ≡ (if result then with_range (part_of part self.old) addr n (byte_of v) else part_of part self.old) }
        ensures rest { part_of (other part) self.new ≡ part_of (other part) self.old }
        ensures origins { origins_of self.new ≡ origins_of self.old }
    {
        if n == 0 {
            return true;
        }
        let Some(place) = self.table.place_of(addr, u64::from(n)) else {
            return false;
        };
        let area = &mut self.areas[area_of(place.kind)];
        match &mut area[place.index] {
            Some(block) => put_number(block, part, addr - place.base, n, v),
            None => {}
        }
        true
    }

    /// Writes the bytes of `source` from `addr` on.
    fn paste(&mut self, part: Plane, addr: u64, source: &[u8])
        requires { IsTrue (is_good addr (length source.now) self.old.table) }
        ensures table { self.new.table ≡ self.old.table }
        ensures shown { part_of part self.new ≡ with_range (part_of part self.old) addr (length source.now) (λ k. get_or source.now k 0) }
        ensures rest { part_of (other part) self.new ≡ part_of (other part) self.old }
        ensures origins { origins_of self.new ≡ origins_of self.old }
    {
        if source.len() == 0 {
            return;
        }
        let Some(place) = self.table.place_of(addr, source.len() as u64) else {
            return;
        };
        let area = &mut self.areas[area_of(place.kind)];
        match &mut area[place.index] {
            Some(block) => paste(block, part, addr - place.base, source),
            None => {}
        }
    }

    /// Makes each of `n` bytes or shadow bytes `v`.
    fn fill(&mut self, part: Plane, addr: u64, n: u64, v: u8)
        requires { IsTrue (is_good addr n self.old.table) }
        ensures table { self.new.table ≡ self.old.table }
        ensures shown { part_of part self.new ≡ with_range (part_of part self.old) addr n (λ k. v) }
        ensures rest { part_of (other part) self.new ≡ part_of (other part) self.old }
        ensures origins { origins_of self.new ≡ origins_of self.old }
    {
        if n == 0 {
            return;
        }
        let Some(place) = self.table.place_of(addr, n) else {
            return;
        };
        let area = &mut self.areas[area_of(place.kind)];
        fill_into(&mut area[place.index], part, addr - place.base, n, v);
    }

    /// Puts an origin into each cell that a range touches.
    fn fill_origins(&mut self, addr: u64, n: u64, origin: u32)
        requires { IsTrue (is_good addr n self.old.table) }
        ensures table { self.new.table ≡ self.old.table }
        ensures bytes { bytes_of self.new ≡ bytes_of self.old }
        ensures shadow { shadow_of self.new ≡ shadow_of self.old }
        ensures origins { origins_of self.new ≡ with_cells (origins_of self.old) addr n origin }
    {
        if n == 0 {
            return;
        }
        let Some(place) = self.table.place_of(addr, n) else {
            return;
        };
        let area = &mut self.areas[area_of(place.kind)];
        let at = addr - place.base;
        match &mut area[place.index] {
            Some(block) => fill_origins(block, at / 4, (at + (n - 1)) / 4 - at / 4 + 1, origin),
            None => {}
        }
    }

    /// Copies bytes, or shadow bytes with their origins, as they were before.
    fn copy(&mut self, part: Plane, to: u64, from: u64, n: u64)
        requires to { IsTrue (is_good to n self.old.table) }
        requires from { IsTrue (is_good from n self.old.table) }
        requires some { 0 < n }
        ensures table { self.new.table ≡ self.old.table }
        ensures copied { MapsCopied part self.old self.new to from n }
    {
        let Some(target) = self.table.place_of(to, n) else {
            return;
        };
        let Some(source) = self.table.place_of(from, n) else {
            return;
        };
        if area_of(target.kind) == area_of(source.kind) && target.index == source.index {
            self.copy_in(part, target, to, from, n);
        } else {
            self.copy_over(part, target, to, source, from, n);
        }
    }

    /// Copies from one place of an allocation to another.
    fn copy_in(&mut self, part: Plane, place: TablePlace, to: u64, from: u64, n: u64)
        requires to { IsPlace place.kind (of_kind place.kind self.old.table) to n place }
        requires from { IsPlace place.kind (of_kind place.kind self.old.table) from n place }
        requires some { 0 < n }
        ensures table { self.new.table ≡ self.old.table }
        ensures copied { MapsCopied part self.old self.new to from n }
    {
        let area = &mut self.areas[area_of(place.kind)];
        match &mut area[place.index] {
            Some(block) => copy_within(block, part, to - place.base, from - place.base, n),
            None => {}
        }
    }

    /// Copies from one allocation to another.
    fn copy_over(
        &mut self,
        part: Plane,
        target: TablePlace,
        to: u64,
        source: TablePlace,
        from: u64,
        n: u64,
    )
        requires to { IsPlace target.kind (of_kind target.kind self.old.table) to n target }
        requires from { IsPlace source.kind (of_kind source.kind self.old.table) from n source }
        requires some { 0 < n }
        requires apart { index_of target.kind ≡ index_of source.kind → target.index ≢ source.index }
        ensures table { self.new.table ≡ self.old.table }
        ensures copied { MapsCopied part self.old self.new to from n }
    {
        let taken = self.areas[area_of(source.kind)][source.index].take();
        let block = &mut self.areas[area_of(target.kind)][target.index];
        copy_into(block, part, to - target.base, &taken, from - source.base, n);
        put_back(&mut self.areas[area_of(source.kind)][source.index], taken);
    }
}
