//! Calls and returns of a traced run: the masks that a callee is handed and hands back, and their moves. Moves are counted in
//! 64 bits: `few` says that the count so far leaves room for those that are told.
ghost use Rattle.std.specs.Prelude.{◌≡◌, ◌≤◌, ◌<◌, ◌+◌, ◌-◌, ◌^◌, ◌++◌, List, length, replicate, slice_get, Some, All, IfOk, OnOk};
ghost use Rattle.ms_ir.specs.Instructions.{operands, count_undefs};
ghost use Rattle.ms_runs.specs.declared.runs.Setup.{Setup};
ghost use Rattle.ms_machine_code.specs.Fits.{IsSource, IsPut};
ghost use Rattle.ms_machine_frames.specs.Meaning.{put_of, put_value};
ghost use Rattle.ms_trail_moves.specs.{declared.moves.Move.{Move as MoveOf}, Sources.{sources, source_at as source_in}};
ghost use Rattle.ms_trail_moves.specs.Traces.{Traced};
ghost use Rattle.ms_trail_masks.specs.{Shades.{masks_of}, Views.{IsView}};
ghost use Rattle.ms_trail.specs.{Calling.{params_told}, Following.{IsFollowed, Passes, Went}};
ghost use Rattle.ms_trail.specs.Ready.{Grew, IsReady};
ghost use Rattle.ms_trail_bytes.specs.Logs.{IsLog};

use crate::due::{code_at, due_site};
use crate::results::put_mask;
use crate::traced_run::TracedRun;
use crate::words::{tell_back, tell_param};
use ms_bits::NoMemory;
use ms_ir::{Func, Module, Name, Ty};
use ms_machine_code::{Code, WordSource};
use ms_machine_frames::{Frame, place_of_result};
use ms_trail_bytes::logs::Log;
use ms_trail_bytes::spans::Stamp;
use ms_trail_masks::{View, mask_of};
use ms_trail_uses::frame_masks::FrameMasks;
use ms_trail_uses::steps::step;
use ms_trail_uses::tables::InstRow;
use std::alloc::Global;
use std::mem::replace;

/// The masks of a call's arguments.
pub(crate) fn argument_masks(
    alloc: Global,
    view: &View<'_>,
    args: &[WordSource],
) -> Result<Vec<u64>, NoMemory>
    requires view { IsView view.now }
    requires args { All (IsSource (length view.now.values.now) 64) args.now }
    ensures { IfOk result (λ masks. masks.items ≡ masks_of view.now.masks.now args.now) }
{
    let mut masks = Vec::new(alloc);
    for arg in args {
        masks.push(mask_of(view, 64, *arg))?;
    }
    Ok(masks)
}

/// Makes a list of the masks of a call's arguments one of the masks of all its values, of which there are so many: the others are
/// clean.
fn clean_after(masks: &mut Vec<u64>, values: usize) -> Result<(), NoMemory>
    requires { length masks.old.items ≤ values }
    ensures { OnOk result (masks.new.items ≡ masks.old.items ++ replicate (values - length masks.old.items) 0) }
{
    masks.resize(values, 0)?;
    Ok(())
}

/// The function with a number.
fn function_at(m: &Module, func: usize) -> &Func
    requires { func < length m.now.funcs }
    ensures { slice_get m.now.funcs func ≡ Some result.now }
{
    &m.funcs.as_slice()[func]
}

/// Logs the moves of the arguments of a call, which stands in call number `caller` and has this row, to the parameters of call
/// `number`, which was entered; `masks` begins with those of the arguments.
fn tell_params(
    alloc: Global,
    log: &mut Log,
    stamp: Stamp,
    caller: u64,
    row: InstRow<'_>,
    number: u64,
    params: &[(Ty, Name)],
    masks: &[u64],
) -> Result<(), NoMemory>
    requires roots { row.roots + count_undefs (operands row.inst.now.op) < 2 ^ 32 }
    requires room { length params.now ≤ length masks.now }
    requires few { log.old.count + length params.now < 2 ^ 64 }
    ensures told { (moves : List MoveOf) → IsLog log.old moves → OnOk result (IsLog log.new (moves ++ params_told stamp.event stamp.site number params.now masks.now (sources caller (operands row.entry.inst.now.op) row.entry.roots) 0)) }
    ensures count { log.new.count ≤ log.old.count + length params.now }
{
    for k in 0..params.len() {
        let param = &params[k];
        let mask = masks[k];
        tell_param(alloc, log, stamp, caller, row, k, number, &param.1, mask)?;
    }
    Ok(())
}

/// The frame of the caller: the last of those below.
fn last_kept(below: &[Frame]) -> &Frame
    requires { 0 < length below.now }
    ensures { slice_get below.now (length below.now - 1) ≡ Some result.now }
{
    &below[below.len() - 1]
}

/// Sets the mask of the result of a call, if it has one.
pub(crate) fn put_result(masks: &mut Vec<u64>, code: &Code, mask: u64)
    requires { IsPut (length masks.old.items) (put_of code.now) }
    ensures { masks.new.items ≡ put_value (put_of code.now) (Some mask) masks.old.items }
{
    match place_of_result(code) {
        Some(to) => put_mask(masks, to, mask),
        None => {}
    }
}

impl TracedRun<'_> {
    /// Takes the step of a call of a function of the module. Returns whether the run goes on.
    pub(crate) fn call(
        &mut self,
        alloc: Global,
        code: &Code,
        func: usize,
        args: &[WordSource],
        to: Option<usize>,
    ) -> Result<bool, NoMemory>
        requires ready { IsReady self.old code.now }
        requires is { code.now ≡ Code.Call func args.now to }
        ensures went { (u : Setup) (t : Traced) → IsFollowed self.old.m.now u t self.old → Passes self.old.m.now u t → IfOk result (λ on. Went self.old.m.now u t on self.new) }
        ensures grew { IfOk result (λ on. Grew self.old self.new) }
    {
        self.m.law_valid();
        let row = self.tables.row(self.fiber.frame.at);
        let site = due_site(self.m, &self.fiber, &self.world);
        let view = self.view();
        let mut masks = argument_masks(alloc, &view, args)?;
        let on = step(alloc, self.m, &mut self.fiber, &mut self.world)?;
        if on {
            clean_after(&mut masks, self.fiber.frame.values.len())?;
            let number = self.made;
            let caller = replace(&mut self.shade, FrameMasks { number, masks });
            let callee = function_at(self.m.module(), func);
            let params = callee.params.as_slice();
            let own = self.shade.masks.as_slice();
            let stamp = Stamp {
                event: self.event,
                site,
            };
            tell_params(
                alloc,
                &mut self.log,
                stamp,
                caller.number,
                row,
                number,
                params,
                own,
            )?;
            self.below.push(caller)?;
            self.made += 1;
            self.event += 1;
            Ok(true)
        } else {
            Ok(false)
        }
    }

    /// Takes the step of a return to a caller. Returns whether the run goes on.
    pub(crate) fn leave(
        &mut self,
        alloc: Global,
        code: &Code,
        value: WordSource,
    ) -> Result<bool, NoMemory>
        requires ready { IsReady self.old code.now }
        requires is { code.now ≡ Code.Return value }
        ensures went { (u : Setup) (t : Traced) → IsFollowed self.old.m.now u t self.old → Passes self.old.m.now u t → IfOk result (λ on. Went self.old.m.now u t on self.new) }
        ensures grew { IfOk result (λ on. Grew self.old self.new) }
    {
        self.m.law_valid();
        let row = self.tables.row(self.fiber.frame.at);
        let site = due_site(self.m, &self.fiber, &self.world);
        let mask = self.mask(value);
        let program = self.m.program();
        let below = self.fiber.below.as_slice();
        let kept = last_kept(below);
        let at = kept.at;
        let call = code_at(program.code.as_slice(), at);
        let caller = self.tables.row(at);
        let on = step(alloc, self.m, &mut self.fiber, &mut self.world)?;
        if on {
            match self.below.pop() {
                Some(shade) => {
                    let inner = self.shade.number;
                    self.shade = shade;
                    put_result(&mut self.shade.masks, call, mask);
                    let stamp = Stamp {
                        event: self.event,
                        site,
                    };
                    tell_back(
                        alloc,
                        &mut self.log,
                        stamp,
                        inner,
                        row,
                        0,
                        self.shade.number,
                        caller.inst,
                        mask,
                    )?;
                    self.event += 1;
                    Ok(true)
                }
                None => Ok(false),
            }
        } else {
            Ok(false)
        }
    }
}
