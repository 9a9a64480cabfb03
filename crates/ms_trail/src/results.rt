//! Loads and operations of a traced run: the mask of the result, and the move that tells it. `to` is the number of the result
//! in its frame.
ghost use Rattle.std.specs.Prelude.{◌≡◌, ◌≢◌, ◌<◌, length, IfOk, Some, set};
ghost use Rattle.ms_runs.specs.declared.runs.Setup.{Setup};
ghost use Rattle.ms_trail_moves.specs.Traces.{Traced};
ghost use Rattle.ms_trail_masks.specs.Results.{IsComputed, IsMask};
ghost use Rattle.ms_trail_uses.specs.{Due.{sets_at}, Origins.{place_read}};
ghost use Rattle.ms_trail.specs.{Following.{Passes, Went, IsFollowed}, Ready.{Grew, IsReady}};

use crate::due::due_site;
use crate::traced_run::TracedRun;
use crate::words::{tell_loaded, tell_result};
use ms_bits::NoMemory;
use ms_ir::Op;
use ms_machine_code::{Code, WordSource};
use ms_trail_bytes::spans::Stamp;
use ms_trail_masks::computed;
use ms_trail_uses::loads::{loaded_mask, loaded_source};
use ms_trail_uses::places::result_place;
use ms_trail_uses::steps::step;
use std::alloc::Global;

/// Sets the mask of the value with number `to`.
pub(crate) fn put_mask(masks: &mut Vec<u64>, to: usize, mask: u64)
    requires { to < length masks.old.items }
    ensures { masks.new.items ≡ set masks.old.items to mask }
{
    masks[to] = mask;
}

impl TracedRun<'_> {
    /// The mask of a result, and where it isn't 0 the place of the operand that it comes from.
    fn result_of(&self, code: &Code, op: &Op) -> (u64, usize)
        requires same { length self.now.shade.masks.items ≡ length self.now.fiber.frame.values.items }
        requires filled { 0 < length self.now.fill.now }
        requires computed { IsComputed (length self.now.fiber.frame.values.items) code.now }
        ensures mask { IsMask self.now.fill.now self.now.fiber.frame.values.items self.now.shade.masks.items code.now result.0 }
        ensures place { result.0 ≢ 0 → result.1 ≡ place_read self.now.fill.now self.now.fiber.frame.values.items self.now.shade.masks.items op.now code.now }
    {
        let view = self.view();
        let mask = computed(&view, code);
        if mask == 0 {
            return (mask, 0);
        }
        let place = result_place(&view, code, op);
        (mask, place)
    }

    /// Takes the step of an instruction that sets a value, number `to`, by its operands alone. Returns whether the run goes on.
    pub(crate) fn compute(
        &mut self,
        alloc: Global,
        code: &Code,
        to: usize,
    ) -> Result<bool, NoMemory>
        requires ready { IsReady self.old code.now }
        requires computed { IsComputed (length self.old.fiber.frame.values.items) code.now }
        requires sets { sets_at code.now ≡ Some to }
        ensures went { (u : Setup) (t : Traced) → IsFollowed self.old.m.now u t self.old → Passes self.old.m.now u t → IfOk result (λ on. Went self.old.m.now u t on self.new) }
        ensures grew { IfOk result (λ on. Grew self.old self.new) }
    {
        let row = self.tables.row(self.fiber.frame.at);
        let site = due_site(self.m, &self.fiber, &self.world);
        let found = self.result_of(code, &row.inst.op);
        let on = step(alloc, self.m, &mut self.fiber, &mut self.world)?;
        if on {
            put_mask(&mut self.shade.masks, to, found.0);
            let stamp = Stamp {
                event: self.event,
                site,
            };
            tell_result(
                alloc,
                &mut self.log,
                stamp,
                self.shade.number,
                row,
                found.0,
                found.1,
            )?;
            self.event += 1;
            Ok(true)
        } else {
            Ok(false)
        }
    }

    /// Takes the step of a load of `size` bytes, which keeps the bits of `cut`. Returns whether the run goes on.
    pub(crate) fn load(
        &mut self,
        alloc: Global,
        code: &Code,
        size: u8,
        cut: u64,
        addr: WordSource,
        to: usize,
    ) -> Result<bool, NoMemory>
        requires ready { IsReady self.old code.now }
        requires is { code.now ≡ Code.Load size cut addr to }
        ensures went { (u : Setup) (t : Traced) → IsFollowed self.old.m.now u t self.old → Passes self.old.m.now u t → IfOk result (λ on. Went self.old.m.now u t on self.new) }
        ensures grew { IfOk result (λ on. Grew self.old self.new) }
    {
        let row = self.tables.row(self.fiber.frame.at);
        let site = due_site(self.m, &self.fiber, &self.world);
        let first = self.value(addr);
        let mask = loaded_mask(&self.world, first, size, cut);
        let from = loaded_source(&self.world, first, size as u64, mask);
        let on = step(alloc, self.m, &mut self.fiber, &mut self.world)?;
        if on {
            put_mask(&mut self.shade.masks, to, mask);
            let stamp = Stamp {
                event: self.event,
                site,
            };
            tell_loaded(
                alloc,
                &mut self.log,
                stamp,
                self.shade.number,
                row.inst,
                mask,
                from,
            )?;
            self.event += 1;
            Ok(true)
        } else {
            Ok(false)
        }
    }
}
