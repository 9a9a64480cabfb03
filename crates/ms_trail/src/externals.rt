//! Calls of externals in a traced run: what they answer, and what they do to the shadow of memory. Moves are counted in 64
//! bits: `few` says that the count so far leaves room for those that are told. A live range has at most 2^26 bytes, with at
//! most a move for each: 2^27 moves are more than one range has, 2^28 more than the two of `realloc`. Likewise an external
//! makes at most 2^26 uninitialised bytes (`made`).
ghost use Rattle.std.specs.Prelude.{◌≡◌, ◌≤◌, ◌<◌, ◌+◌, ◌^◌, ◌++◌, ℕ, List, All, IfOk, OnOk, get_or, length, map, Some, true, false, unwrap_or};
ghost use Rattle.ms_ir.specs.{Instructions.{operands, count_undefs}, Signatures.{is_thread_call}, declared.syntax.Ty.{Ty as TyOf}};
ghost use Rattle.ms_runs.specs.{declared.runs.Setup.{Setup}, World.{World as Meant}, Memory.{heap_size, is_good}};
ghost use Rattle.ms_runs.specs.{Poisoned.{Poisoned}, Masks.{answer_mask as answer_mask_of, word_at as word_in}};
ghost use Rattle.ms_runs.specs.{Control.{Frame}, Plain.{setting_of}};
ghost use Rattle.ms_runs_good_laws.specs.GoodWorlds.{GoodWorld, FitsCell};
ghost use Rattle.ms_machine_code.specs.{Fits.{IsPut, IsSource}, Words.{words_of}};
ghost use Rattle.ms_host.specs.{Answers.{Answered, FitsFirst, asked_effect}, State.{Beside, Keeps}, Shows.{Shows}};
ghost use Rattle.ms_machine_frames.specs.{Meaning.{put_of}, Standing.{frames_of}};
ghost use Rattle.ms_machine_steps.specs.Waiting.{FirstWaits, types_due};
ghost use Rattle.ms_machine.specs.Running.{AllStandFor, WaitsFor};
ghost use Rattle.ms_runs_laws.specs.Follows.{fill_shadow};
ghost use Rattle.ms_trail_moves.specs.{declared.moves.Move.{Move as MoveOf}, Sources.{sources, source_at as source_in}};
ghost use Rattle.ms_trail_moves.specs.{Written.{Filled}, Events.{written_moves}, Traces.{Traced}};
ghost use Rattle.ms_trail_masks.specs.Views.{IsView};
ghost use Rattle.ms_trail.specs.{Asking.{WaitsSome}, Calling.{answer_told, noted_masks}};
ghost use Rattle.ms_trail.specs.{Following.{IsFollowed, Passes, Went}, Ready.{Grew, IsReady}};
ghost use Rattle.ms_trail_bytes.specs.{Logs.{IsLog}, Shading.{Done, Facts, ShadedAs}};

use crate::calls::{argument_masks, put_result};
use crate::due::due_site;
use crate::traced_run::TracedRun;
use crate::words::tell_back;
use ms_bits::{List, NoMemory};
use ms_check::CheckedModule;
use ms_host::{Answer, Asked, HostCall, World, answer};
use ms_ir::External;
use ms_machine::{printed_types, resume};
use ms_machine_code::{Code, WordSource};
use ms_machine_frames::Fiber;
use ms_printf::answer_typed;
use ms_trail_bytes::logs::Log;
use ms_trail_bytes::sets::shade_set;
use ms_trail_bytes::sources::own_root;
use ms_trail_bytes::spans::Stamp;
use ms_trail_bytes::unsets::{shade_copy, shade_moved, shade_unset, size_of};
use ms_trail_masks::{View, value_of, word_mask};
use ms_trail_moves::sources::source_at;
use ms_trail_uses::places::last_of;
use ms_trail_uses::tables::InstRow;
use std::alloc::Global;

/// A call of an external that was answered.
#[derive(Drop)]
struct AnsweredCall {
    external: External,
    /// The words of its arguments, and their masks.
    words: Vec<u64>,
    masks: Vec<u64>,
    /// The size of the heap block that the first argument was the base of; 0 where there was none.
    old: u64,
    /// What it answered; 0 where it answered nothing.
    given: u64,
}

/// A number, 0 where there is none.
fn or_zero(number: Option<u64>) -> u64
    ensures { result ≡ unwrap_or number 0 }
{
    match number {
        Some(number) => number,
        None => 0,
    }
}

/// Argument `k`, or its mask, in a list of these; 0 where it is missing.
fn word(args: &[u64], k: usize) -> u64
    ensures { result ≡ get_or args.now k 0 }
{
    if k < args.len() { args[k] } else { 0 }
}

/// The words of a call's arguments.
fn argument_words(alloc: Global, view: &View<'_>, args: &[WordSource]) -> Result<Vec<u64>, NoMemory>
    requires view { IsView view.now }
    requires args { All (IsSource (length view.now.values.now) 64) args.now }
    ensures { IfOk result (λ words. words.items ≡ words_of view.now.fill.now view.now.values.now args.now) }
{
    let mut words = Vec::new(alloc);
    for arg in args {
        words.push(value_of(view, 64, *arg))?;
    }
    Ok(words)
}

/// The mask of what an external answers of arguments with these masks: a function of whole words alone answers poisoned bits.
fn answer_mask(external: External, words: &[u64], masks: &[u64]) -> u64
    requires value { FitsFirst (Asked.External external) words.now }
    requires mask { FitsFirst (Asked.External external) masks.now }
    ensures { (ps : List Poisoned) → words.now ≡ map (λ p. p.value) ps → masks.now ≡ map (λ p. p.mask) ps → result ≡ answer_mask_of (Some external) ps }
{
    match external {
        External::Word(function, width) => {
            let v = word(words, 0);
            let m = word(masks, 0);
            let u = word(words, 1);
            let k = word(masks, 1);
            let t = word(words, 2);
            let n = word(masks, 2);
            word_mask(function, width, v, m, u, k, t, n)
        }
        _ => 0,
    }
}

/// Sets the mask of a call's result, if it was answered something, and logs the move: from argument `from` of the call, in call
/// `number`, to that result.
fn note_answer(
    alloc: Global,
    masks: &mut Vec<u64>,
    log: &mut Log,
    stamp: Stamp,
    number: u64,
    row: InstRow<'_>,
    code: &Code,
    value: Option<u64>,
    mask: u64,
    from: usize,
) -> Result<(), NoMemory>
    requires put { IsPut (length masks.old.items) (put_of code.now) }
    requires roots { row.roots + count_undefs (operands row.inst.now.op) < 2 ^ 32 }
    requires few { log.old.count + 1 < 2 ^ 64 }
    ensures masks { OnOk result (masks.new.items ≡ noted_masks (put_of code.now) value mask masks.old.items) }
    ensures told { (moves : List MoveOf) → IsLog log.old moves → OnOk result (IsLog log.new (moves ++ answer_told stamp.event stamp.site number value row.entry.inst.now.result mask (source_in from (sources number (operands row.entry.inst.now.op) row.entry.roots)))) }
    ensures count { log.new.count ≤ log.old.count + 1 }
{
    match value {
        Some(_) => {
            put_result(masks, code, mask);
            tell_back(alloc, log, stamp, number, row, from, number, row.inst, mask)
        }
        None => Ok(()),
    }
}

/// Does what a call of an external does to the world, and answers it.
fn answered(
    alloc: Global,
    m: &CheckedModule,
    fiber: &Fiber,
    call: &HostCall,
    external: External,
    world: &mut World,
) -> Result<Answer, NoMemory>
    requires few { world.old.made + 2 ^ 26 < 2 ^ 64 }
    requires asked { call.now.asked ≡ Asked.External external }
    requires alone { is_thread_call external ≡ false }
    requires waits { WaitsSome m.now call.now }
    requires standing { WaitsFor m.now fiber.now }
    ensures answered { (u : Setup) (frames : List (Frame ℕ)) (beside : Beside) (meant : Meant) → AllStandFor m.now (frames_of fiber.now) frames → FirstWaits m.now u frames call.now → world.old.fill ≡ u.fill → Shows world.old beside meant → IfOk result (λ a. Answered beside (asked_effect (setting_of m.now u) (types_due m.now frames) call.now meant) a world.new) }
    ensures keeps { Keeps world.old world.new }
    ensures made { world.new.made ≤ world.old.made + 2 ^ 26 }
{
    m.law_valid();
    match external {
        External::Printf => answer_typed(alloc, printed_types(m, fiber), call, world),
        _ => answer(call, world),
    }
}

/// What `memset` does to the shadow of `n` bytes, with its moves: they come from the byte that is its second argument, with this
/// mask, in call `number`.
fn shade_bytes(
    alloc: Global,
    world: &mut World,
    log: &mut Log,
    stamp: Stamp,
    number: u64,
    row: InstRow<'_>,
    addr: u64,
    n: u64,
    mask: u64,
) -> Result<(), NoMemory>
    requires roots { row.roots + count_undefs (operands row.inst.now.op) < 2 ^ 32 }
    requires few { log.old.count + 2 ^ 27 < 2 ^ 64 }
    ensures set { (beside : Beside) (meant : Meant) (moves : List MoveOf) → Shows world.old beside meant → GoodWorld FitsCell meant → is_good meant addr n ≡ true → IsLog log.old moves
        → OnOk result (ShadedAs beside meant (fill_shadow addr n mask meant) world.new × IsLog log.new (moves ++ written_moves stamp.event stamp.site (fill_shadow addr n mask meant).shadow (Filled addr n (source_in 1 (sources number (operands row.entry.inst.now.op) row.entry.roots))))) }
    ensures keeps { Keeps world.old world.new }
    ensures made { world.new.made ≡ world.old.made }
    ensures count { log.new.count ≤ log.old.count + 2 ^ 27 }
{
    let byte = (mask % 256) as u8;
    let from = source_at(alloc, number, row.roots, &row.inst.op, 1)?;
    shade_set(alloc, world, log, stamp, &from, addr, n, byte)
}

/// What a call of an external that was answered, in call `number`, does to the shadow of memory, with the moves of its bytes.
fn shade_memory(
    alloc: Global,
    world: &mut World,
    log: &mut Log,
    stamp: Stamp,
    number: u64,
    row: InstRow<'_>,
    call: &AnsweredCall,
) -> Result<(), NoMemory>
    requires roots { row.roots + count_undefs (operands row.inst.now.op) + 1 < 2 ^ 32 }
    requires low { 0 < call.now.old → get_or call.now.words.items 0 0 + call.now.old < 2 ^ 64 }
    requires small { call.now.old ≤ 2 ^ 26 }
    requires alone { is_thread_call call.now.external ≡ false }
    requires few { log.old.count + 2 ^ 28 < 2 ^ 64 }
    ensures shaded { (beside : Beside) (meant before : Meant) (ps : List Poisoned) (moves : List MoveOf) → call.now.words.items ≡ map (λ p. p.value) ps → call.now.masks.items ≡ map (λ p. p.mask) ps → call.now.old ≡ unwrap_or (heap_size before (word_in 0 ps).value) 0
        → Facts call.now.external ps before call.now.given meant → Shows world.old beside meant → GoodWorld FitsCell meant → IsLog log.old moves
        → OnOk result (Done beside stamp.event stamp.site (row.entry.roots + count_undefs (operands row.entry.inst.now.op) + 1) ps (sources number (operands row.entry.inst.now.op) row.entry.roots) before call.now.given meant moves world.new log.new call.now.external) }
    ensures keeps { Keeps world.old world.new }
    ensures made { world.new.made ≡ world.old.made }
    ensures count { log.new.count ≤ log.old.count + 2 ^ 28 }
{
    let root = own_root(row.roots, &row.inst.op);
    let words = call.words.as_slice();
    let masks = call.masks.as_slice();
    let a = word(words, 0);
    let b = word(words, 1);
    let n = word(words, 2);
    let mask = word(masks, 1);
    match call.external {
        External::Malloc => shade_unset(alloc, world, log, stamp, root, call.given, 0, a),
        External::Realloc => {
            shade_moved(alloc, world, log, stamp, root, call.given, a, call.old, b)
        }
        External::Memcpy => shade_copy(alloc, world, log, stamp, a, b, n),
        External::Memmove => shade_copy(alloc, world, log, stamp, a, b, n),
        External::LlvmMemcpy => shade_copy(alloc, world, log, stamp, a, b, n),
        External::LlvmMemmove => shade_copy(alloc, world, log, stamp, a, b, n),
        External::Memset => shade_bytes(alloc, world, log, stamp, number, row, a, n, mask),
        External::LlvmMemset => shade_bytes(alloc, world, log, stamp, number, row, a, n, mask),
        External::Read => {
            world.unpoison(b, call.given);
            Ok(())
        }
        External::LifetimeStart => shade_unset(alloc, world, log, stamp, root, b, 0, a),
        _ => Ok(()),
    }
}

impl TracedRun<'_> {
    /// Takes the step of a call of an external. Returns whether the run goes on.
    pub(crate) fn call_external(
        &mut self,
        alloc: Global,
        code: &Code,
        external: External,
        args: &[WordSource],
        to: Option<usize>,
    ) -> Result<bool, NoMemory>
        requires ready { IsReady self.old code.now }
        requires is { (types : List TyOf) × (code.now ≡ Code.External external args.now types to) }
        ensures went { (u : Setup) (t : Traced) → IsFollowed self.old.m.now u t self.old → Passes self.old.m.now u t → IfOk result (λ on. Went self.old.m.now u t on self.new) }
        ensures grew { IfOk result (λ on. Grew self.old self.new) }
    {
        self.m.law_valid();
        let row = self.tables.row(self.fiber.frame.at);
        let site = due_site(self.m, &self.fiber, &self.world);
        let view = self.view();
        let masks = argument_masks(alloc, &view, args)?;
        let words = argument_words(alloc, &view, args)?;
        let asked_words = argument_words(alloc, &view, args)?;
        let values = words.as_slice();
        let shades = masks.as_slice();
        let base = word(values, 0);
        let old = size_of(&self.world, base);
        let call = HostCall {
            asked: Asked::External(external),
            args: List::from_vec(asked_words),
            site,
        };
        let answer = answered(alloc, self.m, &self.fiber, &call, external, &mut self.world)?;
        match answer {
            Answer::Ended(_) => Ok(false),
            Answer::Resumed(value) => {
                resume(self.m, &mut self.fiber, value);
                let given = or_zero(value);
                let stamp = Stamp {
                    event: self.event,
                    site,
                };
                let mask = answer_mask(external, values, shades);
                let from = last_of(shades);
                note_answer(
                    alloc,
                    &mut self.shade.masks,
                    &mut self.log,
                    stamp,
                    self.shade.number,
                    row,
                    code,
                    value,
                    mask,
                    from,
                )?;
                let call = AnsweredCall {
                    external,
                    words,
                    masks,
                    old,
                    given,
                };
                shade_memory(
                    alloc,
                    &mut self.world,
                    &mut self.log,
                    stamp,
                    self.shade.number,
                    row,
                    &call,
                )?;
                self.event += 1;
                Ok(true)
            }
        }
    }
}
