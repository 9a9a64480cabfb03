//! The allocations of one area, a list in order of address.
ghost use Rattle.std.specs.Prelude.{◌≡◌, ◌<◌, ◌≤◌, ◌+◌, ◌^◌, ◌∷◌, ◌++◌, [], true, false, not, leb, find, filter, map, take, length, IfOk, OnOk, OnErr, MatchOption, IsErr, IsErrOf, IsTrue, ◌↔◌, Some, None, option_map, if◌then◌else◌};
ghost use Rattle.ms_alloc.specs.declared.kinds.AllocKind.TheVariants.{Heap, Stack};
ghost use Rattle.ms_alloc.specs.{Layout.{room, area_base, area_limit}, Allocations.{IsArea, used, covers, is_block}};
ghost use Rattle.ms_alloc.specs.{Only.{IsOnly}, Places.{IsPlace}, Owners.{IsOwned, Has, IsOutside}};

use crate::allocations::{Allocation, TablePlace};
use crate::errors::{AllocError, BadFree};
use crate::kinds::AllocKind;
use std::alloc::Global;
use std::marker::Model;

/// What an allocation of `size` bytes takes of its area: at least one byte, and a multiple of 16.
pub fn room_of(size: u64) -> u64
    requires { size ≤ 2 ^ 26 }
    ensures { result ≡ room size }
{
    (size.max(1) + 15) / 16 * 16
}

/// What the allocations of an area take: the last one tells, since each begins where the one before it ends.
fn used_of(kind: AllocKind, area: &[Allocation]) -> u64
    requires { IsArea kind area.now }
    ensures { result ≡ used area.now }
{
    match area.last() {
        None => 0,
        Some(last) => last.base - kind.base() + room_of(last.size),
    }
}

/// Whether one more allocation of `size` bytes keeps the area's limit, of which `used` bytes are taken.
pub(crate) fn has_room(kind: AllocKind, used: u64, size: u64) -> bool
    requires { used ≤ area_limit kind }
    ensures { IsTrue result ↔ (used + room size ≤ area_limit kind) }
{
    let left = kind.limit() - used;
    size <= left && room_of(size) <= left
}

/// One more allocation, which takes the bytes after those that are taken. Where memory runs out both lists are as
/// they were.
fn push(
    made: &mut Vec<Allocation>,
    owners: &mut Vec<u32>,
    allocation: Allocation,
) -> Result<(), std::alloc::AllocError>
    requires owned { IsOwned made.old.items owners.old.items }
    requires small { used made.old.items + room allocation.size ≤ 2 ^ 26 }
    ensures made { OnOk result (made.new.items ≡ made.old.items ++ allocation ∷ []) }
    ensures owned { IsOwned made.new.items owners.new.items }
    ensures unchanged { OnErr result (made.new.items ≡ made.old.items) }
{
    let taken = owners.len();
    let pieces = (room_of(allocation.size) / 16) as usize;
    owners.resize(taken + pieces, made.len() as u32)?;
    if made.push(allocation).is_err() {
        owners.truncate(taken);
        return Err(std::alloc::AllocError);
    }
    Ok(())
}

/// Takes the allocations from `mark` on off the end of a stack.
fn cut_off(stack: &mut Vec<Allocation>, mark: u64)
    requires { IsArea Stack stack.old.items }
    ensures kept { stack.new.items ≡ filter (λ a. not (leb mark a.base)) stack.old.items }
    ensures front { stack.new.items ≡ take (length stack.new.items) stack.old.items }
    ensures area { IsArea Stack stack.new.items }
{
    while let Some(last) = stack.last() {
        if last.base < mark {
            break;
        }
        stack.pop();
    }
}

/// The allocations of one area. Contracts see the list of them, in order of address.
#[derive(Debug, Drop)]
pub(crate) struct Area {
    made: Vec<Allocation>,
    /// For each 16 bytes that are taken, the number of the allocation that takes them.
    owners: Vec<u32>,
}

impl Model for Area {
    ghost use Rattle.std.specs.Prelude.{List};
    ghost use Rattle.ms_alloc.specs.{declared.allocations.Allocation.{Allocation}, Owners.{IsOwned}};

    ghost Value = { List Allocation };

    ghost view = { λ a. a.made.items };

    ghost invariant = { λ a. IsOwned a.made.items a.owners.items };
}

impl Area {
    /// No allocations. Takes no memory yet.
    pub(crate) fn new(alloc: Global) -> Area
        ensures { result ≡ [] }
    {
        Area {
            made: Vec::new(alloc),
            owners: Vec::new(alloc),
        }
    }

    /// What the allocations take.
    pub(crate) fn used(&self) -> u64
        ensures { result ≡ used self.now }
    {
        self.owners.len() as u64 * 16
    }

    /// Makes an allocation at the end of the area, and returns its base.
    pub(crate) fn append(&mut self, kind: AllocKind, size: u64) -> Result<u64, AllocError>
        requires { IsArea kind self.old }
        ensures base { IfOk result (λ base. base ≡ area_base kind + used self.old) }
        ensures made { OnOk result (self.new ≡ self.old ++ record { base = area_base kind + used self.old; size = size; kind = kind; live = true } ∷ []) }
        ensures area { IsArea kind self.new }
        ensures full { IsErrOf result AllocError.Full ↔ (area_limit kind < used self.old + room size) }
        ensures unchanged { OnErr result (self.new ≡ self.old) }
    {
        let used = self.used();
        if !has_room(kind, used, size) {
            return Err(AllocError::Full);
        }
        let base = kind.base() + used;
        let live = true;
        let allocation = Allocation {
            base,
            size,
            kind,
            live,
        };
        push(&mut self.made, &mut self.owners, allocation)?;
        Ok(base)
    }

    /// The place of the allocation that takes the byte at `addr`, which isn't below the area.
    #[inline(always)]
    fn owner(&self, kind: AllocKind, addr: u64) -> Option<usize>
        requires area { IsArea kind self.now }
        requires from { area_base kind ≤ addr }
        ensures { MatchOption result (IsOutside kind self.now addr) (λ i. Has self.now addr i) }
    {
        let piece = (addr - kind.base()) / 16;
        if piece < self.owners.len() as u64 {
            Some(self.owners[piece as usize] as usize)
        } else {
            None
        }
    }

    /// The place of the live allocation that has the `n` bytes from `addr` on, which isn't below the area.
    #[inline(always)]
    fn place_covering(&self, kind: AllocKind, addr: u64, n: u64) -> Option<usize>
        requires area { IsArea kind self.now }
        requires from { area_base kind ≤ addr }
        requires some { 0 < n }
        ensures { MatchOption result (find (covers addr n) self.now ≡ None) (IsOnly (covers addr n) self.now) }
    {
        let index = self.owner(kind, addr)?;
        if self.made[index].covers(addr, n) {
            Some(index)
        } else {
            None
        }
    }

    /// The live allocation that has the `n` bytes from `addr` on, which isn't below the area.
    #[inline(always)]
    pub(crate) fn covering(&self, kind: AllocKind, addr: u64, n: u64) -> Option<Allocation>
        requires area { IsArea kind self.now }
        requires from { area_base kind ≤ addr }
        requires some { 0 < n }
        ensures { result ≡ find (covers addr n) self.now }
    {
        let index = self.place_covering(kind, addr, n)?;
        Some(self.made[index])
    }

    /// The place of that allocation.
    #[inline(always)]
    pub(crate) fn place_of(&self, kind: AllocKind, addr: u64, n: u64) -> Option<TablePlace>
        requires area { IsArea kind self.now }
        requires from { area_base kind ≤ addr }
        requires some { 0 < n }
        ensures { MatchOption result (find (covers addr n) self.now ≡ None) (λ p. IsPlace kind self.now addr n p) }
    {
        let index = self.place_covering(kind, addr, n)?;
        let base = self.made[index].base;
        Some(TablePlace { kind, index, base })
    }

    /// The number of allocations.
    pub(crate) fn count(&self) -> usize
        ensures { result ≡ length self.now }
    {
        self.made.len()
    }

    /// The place of the live block of the heap that begins at `base`.
    pub(crate) fn place_of_block(&self, base: u64) -> Option<usize>
        requires { IsArea Heap self.now }
        ensures { MatchOption result (find (is_block base) self.now ≡ None) (IsOnly (is_block base) self.now) }
    {
        if base < AllocKind::Heap.base() {
            return None;
        }
        let place = self.owner(AllocKind::Heap, base)?;
        let candidate = self.made[place];
        if candidate.live && candidate.base == base {
            Some(place)
        } else {
            None
        }
    }

    /// The size of the live block of the heap that begins at `base`, if one does.
    pub(crate) fn block_size(&self, base: u64) -> Option<u64>
        requires { IsArea Heap self.now }
        ensures { result ≡ option_map (λ a. a.size) (find (is_block base) self.now) }
    {
        let place = self.place_of_block(base)?;
        Some(self.made[place].size)
    }

    /// Ends the live block of the heap that begins at `base`, and returns its size.
    pub(crate) fn end(&mut self, base: u64) -> Result<u64, BadFree>
        requires { IsArea Heap self.old }
        ensures size { IfOk result (λ size. option_map (λ a. a.size) (find (is_block base) self.old) ≡ Some size) }
        ensures ended { OnOk result (self.new ≡ map (λ a. if is_block base a then record a { live = false } else a) self.old) }
        ensures area { IsArea Heap self.new }
        ensures bad_free { IsErr result ↔ (option_map (λ a. a.size) (find (is_block base) self.old) ≡ None) }
        ensures unchanged { OnErr result (self.new ≡ self.old) }
    {
        match self.place_of_block(base) {
            None => Err(BadFree),
            Some(place) => {
                let size = self.made[place].size;
                self.made[place].live = false;
                Ok(size)
            }
        }
    }

    /// Takes the allocations of the stack from `mark` on out of the area.
    pub(crate) fn cut(&mut self, mark: u64)
        requires { IsArea Stack self.old }
        ensures kept { self.new ≡ filter (λ a. not (leb mark a.base)) self.old }
        ensures area { IsArea Stack self.new }
    {
        cut_off(&mut self.made, mark);
        let used = used_of(AllocKind::Stack, &self.made);
        self.owners.truncate((used / 16) as usize);
    }
}
