//! What `ms_threads` does to the slots: for the parameter of a thread that begins, and for the result of one that has returned.
ghost use Rattle.std.specs.Prelude.{◌≡◌, ◌%◌, ◌^◌, ℕ};
ghost use Rattle.ms_bits.specs.Maps.{number_at};
ghost use Rattle.ms_ir.specs.declared.calls.Slot.TheVariants as slot;
ghost use Rattle.ms_ir.specs.Names.{slot_room};
ghost use Rattle.ms_runs.specs.{World.{World as Meant}, Threads.{first_clean}};
ghost use Rattle.ms_host.specs.{State.{Beside, KeepsGiven}, Shows.{Shows}, SlotBytes.{ShowsSlots}};

use crate::worlds::World;
use ms_ir::Slot;

impl World {
    /// Gives the slots of the first parameter the mask 0 and the origin 0: a thread's argument is clean.
    pub fn clear_first(&mut self)
        ensures slots { (cells : ℕ → ℕ) → ShowsSlots self.old.slots cells → ShowsSlots self.new.slots (first_clean cells) }
        ensures shows { (beside : Beside) (world : Meant) → Shows self.old beside world → Shows self.new beside world }
        ensures given { KeepsGiven self.old self.new }
        ensures made { self.new.made ≡ self.old.made }
    {
        self.slots.store(Slot::ParamMasks.address(), 8, 0);
        self.slots.store(Slot::ParamOrigins.address(), 4, 0);
    }

    /// The mask that the slot of results holds.
    pub fn result_mask(&self) -> u64
        ensures { (cells : ℕ → ℕ) → ShowsSlots self.now.slots cells → result ≡ number_at cells (slot_room slot.RetvalMask).0 8 % 2 ^ 64 }
    {
        match self.slots.load(Slot::RetvalMask.address(), 8) {
            Some(mask) => mask,
            None => 0,
        }
    }

    /// The origin that the slot of results holds.
    pub fn result_origin(&self) -> u32
        ensures { (cells : ℕ → ℕ) → ShowsSlots self.now.slots cells → result ≡ number_at cells (slot_room slot.RetvalOrigin).0 4 % 2 ^ 32 }
    {
        match self.slots.load(Slot::RetvalOrigin.address(), 4) {
            Some(origin) => (origin % 0x1_0000_0000) as u32,
            None => 0,
        }
    }
}
