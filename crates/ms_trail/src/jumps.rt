//! Jumps of a traced run: the moves of its phis. Moves are counted in 64 bits: `few` says that the count so far leaves room for
//! those that are told.
ghost use Rattle.std.specs.Prelude.{◌≡◌, ◌≤◌, ◌<◌, ◌+◌, ◌^◌, ◌++◌, ℕ, List, length, All, IfOk, OnOk};
ghost use Rattle.ms_ir.specs.declared.syntax.Module.{Module};
ghost use Rattle.ms_ir.specs.Instructions.{func_index, insts_at, root_at, site_at, count_roots, NoMarks};
ghost use Rattle.ms_runs.specs.{declared.runs.Setup.{Setup}, Control.{count_phis}};
ghost use Rattle.ms_machine_code.specs.{Fits.{IsMove}, Words.{put_all}, Encodes.{number_of}};
ghost use Rattle.ms_machine_frames.specs.Meaning.{IsJump};
ghost use Rattle.ms_trail_moves.specs.{Traces.{Traced}, declared.moves.Move.{Move as MoveOf}};
ghost use Rattle.ms_trail.specs.{Following.{IsFollowed, Passes, Went}, Phis.{TellsPhis, phis_told}};
ghost use Rattle.ms_trail.specs.Ready.{Grew, IsReady};
ghost use Rattle.ms_trail_bytes.specs.Logs.{IsLog};
ghost use Rattle.ms_trail_uses.specs.{Tabled.{AreTables}, Taken.{IsTaken}};

use crate::due::due_site;
use crate::traced_run::TracedRun;
use crate::words::tell_phi;
use ms_bits::NoMemory;
use ms_ir::Name;
use ms_machine_code::{Code, Edge, PhiMove};
use ms_trail_bytes::logs::Log;
use ms_trail_bytes::spans::Stamp;
use ms_trail_masks::read_masks;
use ms_trail_uses::steps::step;
use ms_trail_uses::tables::InstRows;
use std::alloc::Global;

/// Puts each of the masks that were read at the place of the phi with the same number.
fn put_masks(masks: &mut Vec<u64>, moves: &[PhiMove], read: &[u64])
    requires moves { All (IsMove (length masks.old.items)) moves.now }
    requires room { length moves.now ≤ length read.now }
    ensures masks { masks.new.items ≡ put_all masks.old.items moves.now read.now }
    ensures len { length masks.new.items ≡ length masks.old.items }
{
    for i in 0..moves.len() {
        masks[moves[i].to] = read[i];
    }
}

/// Logs the moves of phis whose masks were `read`, in a jump from the block with the name `from`: the first phi has the number
/// `first` in the code, and the instruction after the last has the site of `after`.
fn tell_phis(
    alloc: Global,
    log: &mut Log,
    after: Stamp,
    frame: u64,
    tables: &InstRows<'_>,
    first: usize,
    from: &Name,
    read: &[u64],
) -> Result<(), NoMemory>
    requires phis { TellsPhis tables.now.rows.items first read.now after.site }
    requires few { log.old.count + length read.now < 2 ^ 64 }
    ensures told { (m : Module) (f b : ℕ) (moves : List MoveOf) → AreTables m tables.now.rows.items → NoMarks m → first ≡ number_of m f b 0 → length read.now ≡ count_phis (insts_at m f b) → after.site ≡ site_at m f b (length read.now)
        → IsLog log.old moves → OnOk result (IsLog log.new (moves ++ phis_told after.event frame (func_index m.funcs) from.now (insts_at m f b) (root_at (func_index m.funcs) m f b 0) (site_at m f b 0) read.now)) }
    ensures count { log.new.count ≤ log.old.count + length read.now }
{
    for k in 0..read.len() {
        let stamp = Stamp {
            event: after.event,
            site: after.site - (read.len() - k) as u32,
        };
        tell_phi(
            alloc,
            log,
            stamp,
            frame,
            tables.row(first + k),
            from,
            read[k],
        )?;
    }
    Ok(())
}

impl TracedRun<'_> {
    /// Takes the step of a jump: its phis all read the masks as they were before it. Returns whether the run goes on.
    pub(crate) fn jump(&mut self, alloc: Global, code: &Code, edge: &Edge) -> Result<bool, NoMemory>
        requires ready { IsReady self.old code.now }
        requires jumps { IsJump code.now }
        requires taken { IsTaken self.old.fill.now self.old.fiber.frame.values.items code.now edge.now }
        requires moves { All (IsMove (length self.old.fiber.frame.values.items)) edge.now.moves }
        ensures went { (u : Setup) (t : Traced) → IsFollowed self.old.m.now u t self.old → Passes self.old.m.now u t → IfOk result (λ on. Went self.old.m.now u t on self.new) }
        ensures grew { IfOk result (λ on. Grew self.old self.new) }
    {
        let moves = edge.moves.as_slice();
        let row = self.tables.row(self.fiber.frame.at);
        let view = self.view();
        let mut read = Vec::new(alloc);
        read_masks(&view, moves, &mut read)?;
        let on = step(alloc, self.m, &mut self.fiber, &mut self.world)?;
        if on {
            let masks = read.as_slice();
            put_masks(&mut self.shade.masks, moves, masks);
            let site = due_site(self.m, &self.fiber, &self.world);
            let after = Stamp {
                event: self.event,
                site,
            };
            let first = edge.to - moves.len();
            tell_phis(
                alloc,
                &mut self.log,
                after,
                self.shade.number,
                &self.tables,
                first,
                row.block,
                masks,
            )?;
            self.event += 1;
            Ok(true)
        } else {
            Ok(false)
        }
    }
}
