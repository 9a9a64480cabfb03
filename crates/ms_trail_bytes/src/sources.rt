//! What an instruction reads and writes, by the names of its operands and of its result, as sources and targets of moves. `frame`
//! is the number of the call, and `before` that of the roots of the text before the instruction.
ghost use Rattle.std.specs.Prelude.{◌≡◌, ◌≢◌, ◌<◌, ◌+◌, ◌^◌, ℕ, List, unwrap_or, IfOk};
ghost use Rattle.ms_ir.specs.{declared.syntax.Ty.{Ty as TyOf}, declared.syntax.Name.{Name as NameOf}};
ghost use Rattle.ms_ir.specs.{declared.syntax.Operand.{Operand as OperandOf}, Instructions.{operands, count_undefs}};
ghost use Rattle.ms_trail_moves.specs.declared.moves.Target.TheVariants as place;
ghost use Rattle.ms_trail_moves.specs.{Edges.{edge_source as source_of_edges}, Sources.{sources, source_at as source_in}};

use ms_bits::{Duplicate, NoMemory};
use ms_ir::{Inst, Name, Op};
use ms_trail_moves::edges::edge_source;
use ms_trail_moves::moves::{Source, Target};
use ms_trail_moves::sources::{roots_before, source_at};
use std::alloc::Global;

/// What a phi is read from, in a jump from the block with the name `from`.
pub fn phi_source(
    alloc: Global,
    frame: u64,
    before: u32,
    op: &Op,
    from: &Name,
) -> Result<Source, NoMemory>
    requires { before + count_undefs (operands op.now) < 2 ^ 32 }
    ensures { (t : TyOf) (edges : List (OperandOf × NameOf)) → op.now ≡ Op.Phi t edges → IfOk result (λ s. s ≡ source_of_edges frame t from.now edges before) }
{
    match op {
        Op::Phi { edges, .. } => edge_source(alloc, frame, before, edges.as_slice(), from),
        _ => Ok(Source::Root { number: 0 }),
    }
}

/// What the operand that a `store` stores is read from; root 0 where its mask is 0.
pub fn stored_source(
    alloc: Global,
    frame: u64,
    before: u32,
    op: &Op,
    mask: u64,
) -> Result<Source, NoMemory>
    requires { before + count_undefs (operands op.now) < 2 ^ 32 }
    ensures read { IfOk result (λ s. mask ≢ 0 → s ≡ source_in 0 (sources frame (operands op.now) before)) }
    ensures word { IfOk result (λ s. (a : ℕ) → ¬ (s ≡ Source.Byte a)) }
{
    if mask == 0 {
        return Ok(Source::Root { number: 0 });
    }
    let from = source_at(alloc, frame, before, op, 0)?;
    Ok(from)
}

/// The number of the root that an instruction is itself: it comes after those of its operands.
pub fn own_root(before: u32, op: &Op) -> u32
    requires { before + count_undefs (operands op.now) + 1 < 2 ^ 32 }
    ensures { result ≡ before + count_undefs (operands op.now) + 1 }
{
    before + roots_before(op, op.operand_count()) + 1
}

/// The result of an instruction, as what is written; `%0` where it has no name.
pub fn result_target(alloc: Global, frame: u64, inst: &Inst) -> Result<Target, NoMemory>
    ensures { IfOk result (λ t. t ≡ place.Value frame (unwrap_or inst.now.result (Name.Number 0))) }
{
    match &inst.result {
        Some(name) => Ok(Target::Value {
            frame,
            name: name.copy(alloc)?,
        }),
        None => Ok(Target::Value {
            frame,
            name: Name::Number(0),
        }),
    }
}
