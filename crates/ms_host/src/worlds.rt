//! The world of a run, and its allocations.
ghost use Rattle.std.specs.Prelude.{◌≡◌, ◌≤◌, ◌<◌, ◌+◌, ◌^◌, [], ℕ, length, IfOk};
ghost use Rattle.ms_alloc.specs.Allocations.{heap_size as block_size, IsLaidOut};
ghost use Rattle.ms_runs.specs.{World.{World as Meant, first_world}, Memory.{heap_size, end_block, next_base}};
ghost use Rattle.ms_runs.specs.Control.{release};
ghost use Rattle.ms_host.specs.State.{Beside, Keeps, nothing_beside};
ghost use Rattle.ms_host.specs.{Shows.{Shows, area_of, Allocated, Cleared, Grown}, SlotBytes.{ShowsSlots}};

use crate::slots::Slots;
use crate::writes::write_unset;
use ms_alloc::{AllocError, AllocKind};
use ms_bits::{Bytes, List, NoMemory};
use ms_planes::Planes;
use std::alloc::Global;
use std::marker::Model;

/// What a run changes beside its frames, its reports and its chained origins; and the fill.
///
/// Where memory runs out the run is over, and only the input and the fill are still known.
#[derive(Debug, Drop)]
pub struct World {
    /// Memory with shadow and origins.
    pub(crate) planes: Planes,
    pub(crate) slots: Slots,
    pub(crate) input: Bytes,
    /// How many bytes of the input were taken.
    pub(crate) at: usize,
    pub(crate) output: Vec<u8>,
    /// The bytes of which uninitialised bytes are made, over and over.
    pub(crate) fill: Bytes,
    /// How many uninitialised bytes were made so far.
    pub(crate) made: u64,
}

impl Model for World {
    ghost use Rattle.ms_host.specs.State.{WorldState, IsWorld};

    ghost Value = { WorldState };

    ghost view = { λ w. record { planes = w.planes; slots = w.slots; input = w.input; at = w.at; output = w.output.items; fill = w.fill; made = w.made } };

    ghost invariant = { λ w. IsWorld (record { planes = w.planes; slots = w.slots; input = w.input; at = w.at; output = w.output.items; fill = w.fill; made = w.made }) };
}

impl World {
    /// The world at the start of a run, before the globals are made. The input and the fill are copied.
    ///
    /// The k-th uninitialised byte that is made, counted from 0, is the byte of the fill at k modulo its length.
    pub fn new(alloc: Global, input: &[u8], fill: &[u8]) -> Result<World, NoMemory>
        requires { 0 < length fill.now }
        ensures shows { IfOk result (λ w. Shows w nothing_beside (first_world input.now)) }
        ensures slots { IfOk result (λ w. ShowsSlots w.slots (λ a. 0)) }
        ensures fill { IfOk result (λ w. w.fill ≡ fill.now) }
        ensures input { IfOk result (λ w. w.input ≡ input.now) }
        ensures made { IfOk result (λ w. w.made ≡ 0) }
    {
        let input = List::from_vec(Vec::from_slice(alloc, input)?);
        let fill = List::from_vec(Vec::from_slice(alloc, fill)?);
        let slots = Slots::new(alloc)?;
        Ok(World {
            planes: Planes::new(alloc),
            slots,
            input,
            at: 0,
            output: Vec::new(alloc),
            fill,
            made: 0,
        })
    }

    /// A law: the allocations of each area stand one after the other, within its limit.
    pub fn law_laid_out(&self)
        ensures { IsLaidOut self.now.planes.table }
    {
        self.planes.law_laid_out();
    }

    /// Makes an allocation of `size` uninitialised bytes, and returns its base. Linear in the size.
    ///
    /// `Full` exactly where the allocations of its area would then take more than the limit; else `NoMemory` where
    /// memory runs out. The world is then as it was.
    pub fn make_uninit(&mut self, kind: AllocKind, size: u64) -> Result<u64, AllocError>
        requires { self.old.made + 2 ^ 26 < 2 ^ 64 }
        ensures allocated { (beside : Beside) (world : Meant) → Shows self.old beside world → Allocated kind beside world size result self.new }
        ensures table { Grown kind self.old.planes.table size result self.new.planes.table }
        ensures keeps { Keeps self.old self.new }
        ensures made { self.new.made ≤ self.old.made + 2 ^ 26 }
    {
        self.planes.law_laid_out();
        let base = self.planes.make(kind, size)?;
        self.planes.law_laid_out();
        write_unset(
            &mut self.planes,
            self.fill.as_slice(),
            self.made,
            base,
            size,
        );
        self.made += size;
        Ok(base)
    }

    /// Makes an allocation of `size` zero bytes, and returns its base.
    ///
    /// `Full` exactly where the allocations of its area would then take more than the limit; else `NoMemory` where
    /// memory runs out. The world is then as it was.
    pub fn make_zero(&mut self, kind: AllocKind, size: u64) -> Result<u64, AllocError>
        ensures cleared { (beside : Beside) (world : Meant) → Shows self.old beside world → Cleared kind beside world size result self.new }
        ensures table { Grown kind self.old.planes.table size result self.new.planes.table }
        ensures keeps { Keeps self.old self.new }
        ensures made { self.new.made ≡ self.old.made }
    {
        self.planes.law_laid_out();
        let base = self.planes.make(kind, size)?;
        Ok(base)
    }

    /// Where the next allocation of the stack begins: the mark of a frame that begins now.
    pub fn mark(&self) -> u64
        ensures { (beside : Beside) (world : Meant) → Shows self.now beside world → result ≡ next_base (area_of AllocKind.Stack) world }
    {
        self.planes.law_laid_out();
        self.planes.mark()
    }

    /// Takes back the allocations of the stack from an address on.
    pub fn release(&mut self, mark: u64)
        ensures released { (beside : Beside) (world : Meant) → Shows self.old beside world → Shows self.new beside (release mark world) }
        ensures keeps { Keeps self.old self.new }
        ensures made { self.new.made ≡ self.old.made }
    {
        self.planes.law_laid_out();
        self.planes.release(mark);
    }

    /// Ends the live heap block that begins at `base`, and returns its size; `None` where none begins there, and then
    /// nothing changes.
    pub fn free_block(&mut self, base: u64) -> Option<u64>
        ensures size { (beside : Beside) (world : Meant) → Shows self.old beside world → result ≡ heap_size world base }
        ensures ended { (beside : Beside) (world : Meant) → Shows self.old beside world → Shows self.new beside (end_block base world) }
        ensures keeps { Keeps self.old self.new }
        ensures made { self.new.made ≡ self.old.made }
    {
        self.planes.law_laid_out();
        let Ok(size) = self.planes.end(base) else {
            return None;
        };
        Some(size)
    }

    /// The size of the live heap block that begins at `base`, if one does.
    pub fn heap_size(&self, base: u64) -> Option<u64>
        ensures size { (beside : Beside) (world : Meant) → Shows self.now beside world → result ≡ heap_size world base }
        ensures table { result ≡ block_size base self.now.planes.table }
    {
        self.planes.law_laid_out();
        self.planes.heap_size(base)
    }
}
