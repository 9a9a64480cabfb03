//! Stores and `alloca`s of a traced run: the shadow that they set, and the moves of its bytes. `to` is the number of the result
//! in its frame.
ghost use Rattle.std.specs.Prelude.{◌≡◌, ◌<◌, length, get_or, IfOk};
ghost use Rattle.ms_runs.specs.declared.runs.Setup.{Setup};
ghost use Rattle.ms_trail_moves.specs.Traces.{Traced};
ghost use Rattle.ms_trail.specs.{Following.{IsFollowed, Passes, Went}, Ready.{Grew, IsReady}};

use crate::due::due_site;
use crate::results::put_mask;
use crate::traced_run::TracedRun;
use ms_bits::NoMemory;
use ms_machine_code::{Code, WordSource};
use ms_trail_bytes::fills::{shade_stored, unset};
use ms_trail_bytes::sources::{own_root, stored_source};
use ms_trail_bytes::spans::Stamp;
use ms_trail_uses::steps::step;
use std::alloc::Global;

/// The value of a frame with number `place`.
fn value_at(values: &Vec<u64>, place: usize) -> u64
    requires { place < length values.now.items }
    ensures { result ≡ get_or values.now.items place 0 }
{
    values[place]
}

impl TracedRun<'_> {
    /// Takes the step of an `alloca` of `count` elements of `size` bytes. Returns whether the run goes on.
    pub(crate) fn alloca(
        &mut self,
        alloc: Global,
        code: &Code,
        size: u64,
        count: WordSource,
        to: usize,
    ) -> Result<bool, NoMemory>
        requires ready { IsReady self.old code.now }
        requires is { code.now ≡ Code.Alloca size count to }
        ensures went { (u : Setup) (t : Traced) → IsFollowed self.old.m.now u t self.old → Passes self.old.m.now u t → IfOk result (λ on. Went self.old.m.now u t on self.new) }
        ensures grew { IfOk result (λ on. Grew self.old self.new) }
    {
        let row = self.tables.row(self.fiber.frame.at);
        let site = due_site(self.m, &self.fiber, &self.world);
        let root = own_root(row.roots, &row.inst.op);
        let many = self.value(count);
        let on = step(alloc, self.m, &mut self.fiber, &mut self.world)?;
        if on {
            put_mask(&mut self.shade.masks, to, 0);
            let n = size * many;
            let base = value_at(&self.fiber.frame.values, to);
            let stamp = Stamp {
                event: self.event,
                site,
            };
            unset(
                alloc,
                &mut self.world,
                &mut self.log,
                stamp,
                root,
                base,
                0,
                n,
            )?;
            self.event += 1;
            Ok(true)
        } else {
            Ok(false)
        }
    }

    /// Takes the step of a store of `size` bytes. Returns whether the run goes on.
    pub(crate) fn store(
        &mut self,
        alloc: Global,
        code: &Code,
        size: u8,
        value: WordSource,
        addr: WordSource,
    ) -> Result<bool, NoMemory>
        requires ready { IsReady self.old code.now }
        requires is { code.now ≡ Code.Store size value addr }
        ensures went { (u : Setup) (t : Traced) → IsFollowed self.old.m.now u t self.old → Passes self.old.m.now u t → IfOk result (λ on. Went self.old.m.now u t on self.new) }
        ensures grew { IfOk result (λ on. Grew self.old self.new) }
    {
        let row = self.tables.row(self.fiber.frame.at);
        let site = due_site(self.m, &self.fiber, &self.world);
        let first = self.value(addr);
        let mask = self.mask(value);
        let from = stored_source(alloc, self.shade.number, row.roots, &row.inst.op, mask)?;
        let on = step(alloc, self.m, &mut self.fiber, &mut self.world)?;
        if on {
            let stamp = Stamp {
                event: self.event,
                site,
            };
            shade_stored(
                alloc,
                &mut self.world,
                &mut self.log,
                stamp,
                &from,
                first,
                size,
                mask,
            )?;
            self.event += 1;
            Ok(true)
        } else {
            Ok(false)
        }
    }
}
