//! The table of all allocations: one list for each area.
ghost use Rattle.std.specs.Prelude.{◌≡◌, ◌≤◌, ◌<◌, ◌+◌, find, is_some, IfOk, OnOk, OnErr, IsErr, IsErrOf, IsTrue, ◌↔◌, Some, None, option_map, IsNone, MatchOption, false, length};
ghost use Rattle.ms_alloc.specs.declared.kinds.AllocKind.TheVariants.{Fixed, Heap, Stack};
ghost use Rattle.ms_alloc.specs.Layout.{room, area_base, area_limit, IsReached};

use crate::allocations::{Allocation, TablePlace};
use crate::areas::{Area, has_room};
use crate::errors::{AllocError, BadFree};
use crate::kinds::AllocKind;
use std::alloc::Global;
use std::marker::Model;

/// The allocations of a run. Contracts see three lists, one for each area, in order of address.
#[derive(Debug, Drop)]
pub struct Table {
    fixed: Area,
    heap: Area,
    stack: Area,
}

impl Model for Table {
    ghost use Rattle.ms_alloc.specs.Allocations.{Allocations, IsLaidOut};

    ghost Value = { Allocations };

    ghost view = { λ t. record { fixed = t.fixed; heap = t.heap; stack = t.stack } };

    ghost invariant = { λ t. IsLaidOut (record { fixed = t.fixed; heap = t.heap; stack = t.stack }) };
}

/// The area whose addresses reach `addr`, if one begins at or below it. Inlined with what asks it, so that the area is
/// decided once.
#[inline(always)]
fn kind_at(addr: u64) -> Option<AllocKind>
    ensures { MatchOption result (addr < area_base Fixed) (IsReached addr) }
{
    if addr >= AllocKind::Stack.base() {
        Some(AllocKind::Stack)
    } else if addr >= AllocKind::Heap.base() {
        Some(AllocKind::Heap)
    } else if addr >= AllocKind::Fixed.base() {
        Some(AllocKind::Fixed)
    } else {
        None
    }
}

impl Table {
    ghost use Rattle.ms_alloc.specs.Allocations.{no_allocations, next_base, used, of_kind, with_made, with_ended, without_from, is_good, block_of, heap_size, listed, covers, is_block, IsLaidOut};
    ghost use Rattle.ms_alloc.specs.{Only.{IsOnly}, Places.{IsPlace}};

    /// A table without allocations. Takes no memory yet.
    pub fn new(alloc: Global) -> Table
        ensures none { result ≡ no_allocations }
        ensures laid_out { IsLaidOut result }
    {
        Table {
            fixed: Area::new(alloc),
            heap: Area::new(alloc),
            stack: Area::new(alloc),
        }
    }

    /// Whether one more allocation of `size` bytes keeps the limit of its area.
    pub fn fits(&self, kind: AllocKind, size: u64) -> bool
        ensures { IsTrue result ↔ (used (of_kind kind self.now) + room size ≤ area_limit kind) }
    {
        has_room(kind, self.used(kind), size)
    }

    /// Makes an allocation of `size` bytes at the end of its area, and returns its base.
    ///
    /// `Full` where the allocations of the area would then take more than its limit; `NoMemory` where the table
    /// itself can't grow. The table is then as it was.
    pub fn make(&mut self, kind: AllocKind, size: u64) -> Result<u64, AllocError>
        ensures base { IfOk result (λ base. base ≡ next_base kind self.old) }
        ensures made { OnOk result (self.new ≡ with_made kind size self.old) }
        ensures laid_out { IsLaidOut self.new }
        ensures full { IsErrOf result AllocError.Full ↔ (area_limit kind < used (of_kind kind self.old) + room size) }
        ensures unchanged { OnErr result (self.new ≡ self.old) }
    {
        match kind {
            AllocKind::Fixed => self.fixed.append(kind, size),
            AllocKind::Heap => self.heap.append(kind, size),
            AllocKind::Stack => self.stack.append(kind, size),
        }
    }

    /// Ends the live heap block that begins at `base`, and returns its size. It stays in the table, not live.
    ///
    /// `BadFree` where no live heap block begins there. The table is then as it was.
    pub fn end(&mut self, base: u64) -> Result<u64, BadFree>
        ensures size { IfOk result (λ size. heap_size base self.old ≡ Some size) }
        ensures ended { OnOk result (self.new ≡ with_ended base self.old) }
        ensures laid_out { IsLaidOut self.new }
        ensures bad_free { IsErr result ↔ (heap_size base self.old ≡ None) }
        ensures unchanged { OnErr result (self.new ≡ self.old) }
    {
        self.heap.end(base)
    }

    /// Where the next allocation of an area begins.
    pub fn next_base(&self, kind: AllocKind) -> u64
        ensures { result ≡ next_base kind self.now }
    {
        kind.base() + self.used(kind)
    }

    /// Where the next allocation of the stack begins.
    pub fn mark(&self) -> u64
        ensures { result ≡ next_base Stack self.now }
    {
        self.next_base(AllocKind::Stack)
    }

    /// Takes all allocations of the stack from the address `mark` on out of the table.
    pub fn release(&mut self, mark: u64)
        ensures released { self.new ≡ without_from mark self.old }
        ensures laid_out { IsLaidOut self.new }
    {
        self.stack.cut(mark);
    }

    /// Whether an access of `n` bytes from `addr` on is good: it has no bytes, or all its bytes lie in one live
    /// allocation.
    pub fn covers(&self, addr: u64, n: u64) -> bool
        ensures { result ≡ is_good addr n self.now }
    {
        n == 0 || self.covering(addr, n).is_some()
    }

    /// Base and size of the live allocation that has the byte at `addr`, if one has it.
    pub fn block_of(&self, addr: u64) -> Option<(u64, u64)>
        ensures { result ≡ block_of addr self.now }
    {
        let found = self.covering(addr, 1)?;
        Some((found.base, found.size))
    }

    /// The size of the live heap block that begins at `base`, if one does.
    pub fn heap_size(&self, base: u64) -> Option<u64>
        ensures { result ≡ heap_size base self.now }
    {
        self.heap.block_size(base)
    }

    /// Where the live allocation stands that has the `n` bytes from `addr` on; `None` exactly where none has them.
    #[inline(always)]
    pub fn place_of(&self, addr: u64, n: u64) -> Option<TablePlace>
        requires { 0 < n }
        ensures { MatchOption result (is_good addr n self.now ≡ false) (λ p. IsPlace p.kind (of_kind p.kind self.now) addr n p) }
    {
        self.law_laid_out();
        let kind = kind_at(addr)?;
        match kind {
            AllocKind::Fixed => self.fixed.place_of(kind, addr, n),
            AllocKind::Heap => self.heap.place_of(kind, addr, n),
            AllocKind::Stack => self.stack.place_of(kind, addr, n),
        }
    }

    /// How many allocations stand before the live heap block that begins at `base`; `None` exactly where none begins
    /// there.
    pub fn place_of_block(&self, base: u64) -> Option<usize>
        ensures { MatchOption result (heap_size base self.now ≡ None) (IsOnly (is_block base) self.now.heap) }
    {
        self.heap.place_of_block(base)
    }

    /// How many allocations an area has, ended ones among them.
    pub fn count(&self, kind: AllocKind) -> usize
        ensures { result ≡ length (of_kind kind self.now) }
    {
        match kind {
            AllocKind::Fixed => self.fixed.count(),
            AllocKind::Heap => self.heap.count(),
            AllocKind::Stack => self.stack.count(),
        }
    }

    /// What every table has: in each area an allocation begins where the one before it ends, and all keep its limit.
    pub fn law_laid_out(&self)
        ensures { IsLaidOut self.now }
    {
        let _ = &self.fixed;
    }

    /// What the allocations of an area take.
    fn used(&self, kind: AllocKind) -> u64
        ensures used { result ≡ used (of_kind kind self.now) }
        ensures within { result ≤ area_limit kind }
    {
        match kind {
            AllocKind::Fixed => self.fixed.used(),
            AllocKind::Heap => self.heap.used(),
            AllocKind::Stack => self.stack.used(),
        }
    }

    /// The live allocation that has the `n` bytes from `addr` on.
    #[inline(always)]
    fn covering(&self, addr: u64, n: u64) -> Option<Allocation>
        requires { 0 < n }
        ensures { result ≡ find (covers addr n) (listed self.now) }
    {
        self.law_laid_out();
        let kind = kind_at(addr)?;
        match kind {
            AllocKind::Fixed => self.fixed.covering(kind, addr, n),
            AllocKind::Heap => self.heap.covering(kind, addr, n),
            AllocKind::Stack => self.stack.covering(kind, addr, n),
        }
    }
}
