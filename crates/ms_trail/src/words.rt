//! Moves of words, each told to the log where the word is poisoned: its mask isn't 0. `frame` is the number of the call in
//! which the word is set. Moves are counted in 64 bits: `few` says that the count so far leaves room for those that are told.
ghost use Rattle.std.specs.Prelude.{◌≡◌, ◌≤◌, ◌<◌, ◌+◌, ◌^◌, ◌++◌, [], ◌∷◌, List, OnOk, unwrap_or};
ghost use Rattle.ms_ir.specs.{declared.syntax.Name.{Name as NameOf}, declared.syntax.Ty.{Ty as TyOf}};
ghost use Rattle.ms_ir.specs.{declared.syntax.Operand.{Operand as OperandOf}, Instructions.{operands, count_undefs}};
ghost use Rattle.ms_ir.specs.declared.syntax.Op.TheVariants as op;
ghost use Rattle.ms_trail_moves.specs.{declared.moves.Move.{Move as MoveOf}, Sources.{sources, source_at as source_in}};
ghost use Rattle.ms_trail_moves.specs.Edges.{edge_source};
ghost use Rattle.ms_trail_moves.specs.declared.moves.Target.TheVariants as place;
ghost use Rattle.ms_trail_bytes.specs.Logs.{IsLog};
ghost use Rattle.ms_trail.specs.{Calling.{returned_told}, Telling.{masked_move}};

use ms_bits::{Duplicate, NoMemory};
use ms_ir::{Inst, Name};
use ms_trail_bytes::logs::Log;
use ms_trail_bytes::sources::{phi_source, result_target};
use ms_trail_bytes::spans::Stamp;
use ms_trail_moves::moves::{Move, Source, Target};
use ms_trail_moves::sources::source_at;
use ms_trail_uses::tables::InstRow;
use std::alloc::Global;

/// Logs a move from a source to a target, in the step that the stamp tells.
fn tell(log: &mut Log, stamp: Stamp, from: Source, to: Target) -> Result<(), NoMemory>
    requires { log.old.count + 1 < 2 ^ 64 }
    ensures told { (moves : List MoveOf) → IsLog log.old moves → OnOk result (IsLog log.new (moves ++ record { event = stamp.event; site = stamp.site; from = from; to = to } ∷ [])) }
    ensures count { log.new.count ≤ log.old.count + 1 }
{
    log.add(Move {
        event: stamp.event,
        site: stamp.site,
        from,
        to,
    })
}

/// Logs that a word with a mask moves from operand `from` of an instruction to its result.
pub fn tell_result(
    alloc: Global,
    log: &mut Log,
    stamp: Stamp,
    frame: u64,
    row: InstRow<'_>,
    mask: u64,
    from: usize,
) -> Result<(), NoMemory>
    requires roots { row.roots + count_undefs (operands row.inst.now.op) < 2 ^ 32 }
    requires few { log.old.count + 1 < 2 ^ 64 }
    ensures told { (moves : List MoveOf) → IsLog log.old moves → OnOk result (IsLog log.new (moves ++ masked_move stamp.event stamp.site mask (source_in from (sources frame (operands row.entry.inst.now.op) row.entry.roots)) (place.Value frame (unwrap_or row.entry.inst.now.result (Name.Number 0))))) }
    ensures count { log.new.count ≤ log.old.count + 1 }
{
    if mask == 0 {
        return Ok(());
    }
    let moved = source_at(alloc, frame, row.roots, &row.inst.op, from)?;
    let to = result_target(alloc, frame, row.inst)?;
    tell(log, stamp, moved, to)
}

/// Logs that a word with a mask moves from a byte in memory to the result of an instruction: a load.
pub fn tell_loaded(
    alloc: Global,
    log: &mut Log,
    stamp: Stamp,
    frame: u64,
    inst: &Inst,
    mask: u64,
    from: Source,
) -> Result<(), NoMemory>
    requires few { log.old.count + 1 < 2 ^ 64 }
    ensures told { (moves : List MoveOf) → IsLog log.old moves → OnOk result (IsLog log.new (moves ++ masked_move stamp.event stamp.site mask from (place.Value frame (unwrap_or inst.now.result (Name.Number 0))))) }
    ensures count { log.new.count ≤ log.old.count + 1 }
{
    if mask == 0 {
        return Ok(());
    }
    let to = result_target(alloc, frame, inst)?;
    tell(log, stamp, from, to)
}

/// Logs that a word with a mask moves to a phi, in a jump from the block with the name `block`.
pub fn tell_phi(
    alloc: Global,
    log: &mut Log,
    stamp: Stamp,
    frame: u64,
    row: InstRow<'_>,
    block: &Name,
    mask: u64,
) -> Result<(), NoMemory>
    requires roots { row.roots + count_undefs (operands row.inst.now.op) < 2 ^ 32 }
    requires few { log.old.count + 1 < 2 ^ 64 }
    ensures told { (t : TyOf) (edges : List (OperandOf × NameOf)) (moves : List MoveOf) → row.entry.inst.now.op ≡ op.Phi t edges → IsLog log.old moves → OnOk result (IsLog log.new (moves ++ masked_move stamp.event stamp.site mask (edge_source frame t block.now edges row.entry.roots) (place.Value frame (unwrap_or row.entry.inst.now.result (Name.Number 0))))) }
    ensures count { log.new.count ≤ log.old.count + 1 }
{
    if mask == 0 {
        return Ok(());
    }
    let moved = phi_source(alloc, frame, row.roots, &row.inst.op, block)?;
    let to = result_target(alloc, frame, row.inst)?;
    tell(log, stamp, moved, to)
}

/// Logs that an argument with a mask, operand `k` of a call that stands in call `caller`, moves to a parameter of call `frame`,
/// which was entered.
pub fn tell_param(
    alloc: Global,
    log: &mut Log,
    stamp: Stamp,
    caller: u64,
    row: InstRow<'_>,
    k: usize,
    frame: u64,
    param: &Name,
    mask: u64,
) -> Result<(), NoMemory>
    requires roots { row.roots + count_undefs (operands row.inst.now.op) < 2 ^ 32 }
    requires few { log.old.count + 1 < 2 ^ 64 }
    ensures told { (moves : List MoveOf) → IsLog log.old moves → OnOk result (IsLog log.new (moves ++ masked_move stamp.event stamp.site mask (source_in k (sources caller (operands row.entry.inst.now.op) row.entry.roots)) (place.Value frame param.now))) }
    ensures count { log.new.count ≤ log.old.count + 1 }
{
    if mask == 0 {
        return Ok(());
    }
    let moved = source_at(alloc, caller, row.roots, &row.inst.op, k)?;
    let name = param.copy(alloc)?;
    let to = Target::Value { frame, name };
    tell(log, stamp, moved, to)
}

/// Logs that a word with a mask moves from operand `from` of the row's instruction, in call `inner`, to the result of the
/// instruction `inst` in call `frame`, if that has one: from a return to the call that it goes back to, or from an argument to what
/// is answered.
pub fn tell_back(
    alloc: Global,
    log: &mut Log,
    stamp: Stamp,
    inner: u64,
    row: InstRow<'_>,
    from: usize,
    frame: u64,
    inst: &Inst,
    mask: u64,
) -> Result<(), NoMemory>
    requires roots { row.roots + count_undefs (operands row.inst.now.op) < 2 ^ 32 }
    requires few { log.old.count + 1 < 2 ^ 64 }
    ensures told { (moves : List MoveOf) → IsLog log.old moves → OnOk result (IsLog log.new (moves ++ returned_told stamp.event stamp.site frame inst.now.result mask (source_in from (sources inner (operands row.entry.inst.now.op) row.entry.roots)))) }
    ensures count { log.new.count ≤ log.old.count + 1 }
{
    if mask == 0 {
        return Ok(());
    }
    match &inst.result {
        Some(_) => {
            let moved = source_at(alloc, inner, row.roots, &row.inst.op, from)?;
            let to = result_target(alloc, frame, inst)?;
            tell(log, stamp, moved, to)
        }
        None => Ok(()),
    }
}
