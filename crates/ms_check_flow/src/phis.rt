//! Phis against the edges into their blocks (LLVM Language Reference, "'phi' Instruction").
ghost use Rattle.std.specs.Prelude.{◌≡◌, ◌<◌, ◌↔◌, ℕ, [], false, length, map, All, IsTrue, IfOk, OnOk, MatchOption, slice_index, slice_index_or};
ghost use Rattle.ms_ir.specs.{declared.syntax.Ty.{Ty as TyOf}, Instructions.{is_phi}};
ghost use Rattle.ms_ir.specs.declared.syntax.Op.TheVariants as opcode;
ghost use Rattle.ms_check_valid.specs.FlowGraph.{name_place};
ghost use Rattle.ms_check_flow.specs.Fitting.{Agree, FitsRow, IsClear};

use crate::counting::same_counts;
use crate::edges::Edges;
use ms_bits::NoMemory;
use ms_check_tables::{Names, name_place};
use ms_ir::{Name, Op, Operand, same_operand};
use std::alloc::Global;

/// What is noted of each block of a function while one phi is looked at.
#[derive(Drop)]
pub struct Notes {
    /// How many edges from the block the phi has yet to name: 0 between phis.
    pub due: Vec<usize>,
    /// The place of the phi's last edge that names the block. What an earlier phi left there doesn't matter.
    pub last: Vec<usize>,
    /// The numbers of the blocks that the phi's edges name. What an earlier phi left there doesn't matter.
    pub labels: Vec<u32>,
}

impl Notes {
    /// Notes on so many blocks, before a phi is looked at.
    pub fn new(alloc: Global, blocks: usize) -> Result<Notes, NoMemory>
        ensures { IfOk result (IsClear blocks) }
    {
        let due = vec![in alloc; 0; blocks]?;
        let last = vec![in alloc; 0; blocks]?;
        Ok(Notes {
            due,
            last,
            labels: Vec::new(alloc),
        })
    }
}

/// The edges of a phi, each an operand and the block that it comes from; none of another instruction.
pub fn phi_edges(op: &Op) -> Option<&[(Operand, Name)]>
    ensures { MatchOption result (is_phi op.now ≡ false) (λ edges. (t : TyOf) × (op.now ≡ opcode.Phi t edges.now)) }
{
    match op {
        Op::Phi { edges, .. } => Some(edges.as_slice()),
        _ => None,
    }
}

/// Puts down the numbers of the blocks that a phi's edges name, in place of those that were in `labels`.
fn put_labels(
    blocks: &Names<'_>,
    edges: &[(Operand, Name)],
    labels: &mut Vec<u32>,
) -> Result<(), NoMemory>
    ensures { OnOk result (labels.new.items ≡ map (λ e. name_place blocks.now e.1) edges.now) }
{
    labels.clear();
    for edge in edges {
        labels.push(name_place(blocks, &edge.1))?;
    }
    Ok(())
}

/// Whether those of a phi's edges that name the same block have the same operand. `numbers` are the blocks that they name; `last`
/// has for each block the place of its last edge, and may hold anything before.
fn operands_agree(edges: &[(Operand, Name)], numbers: &[u32], last: &mut [usize]) -> bool
    requires len { length numbers.now ≡ length edges.now }
    requires below { All (λ n. n < length last.old) numbers.now }
    ensures { IsTrue result ↔ Agree edges.now numbers.now }
{
    for (place, edge) in edges.iter().enumerate() {
        let number = numbers[place];
        let other = last[number as usize];
        if other < place && numbers[other] == number && !same_operand(&edge.0, &edges[other].0) {
            return false;
        }
        last[number as usize] = place;
    }
    true
}

/// Whether each number is less than the length.
fn all_below(len: usize, numbers: &[u32]) -> bool
    ensures { IsTrue result ↔ All (λ n. n < len) numbers.now }
{
    for number in numbers {
        if *number as usize >= len {
            return false;
        }
    }
    true
}

/// Whether the edges of a phi are those into its block, which has the number `to`. `into`: all edges of the function.
pub fn fits_row(
    into: &Edges<'_>,
    notes: &mut Notes,
    to: u32,
    edges: &[(Operand, Name)],
) -> Result<bool, NoMemory>
    requires to { to < length into.now.arrivals }
    requires clear { IsClear (length into.now.arrivals) notes.old }
    requires below { All (λ n. n < length into.now.arrivals) (slice_index_or into.now.arrivals to []) }
    ensures is { IfOk result (λ fits. IsTrue fits ↔ FitsRow into.now.blocks (length into.now.arrivals) (slice_index_or into.now.arrivals to []) edges.now) }
    ensures clear { IfOk result (λ fits. IsTrue fits → IsClear (length into.now.arrivals) notes.new) }
{
    put_labels(&into.blocks, edges, &mut notes.labels)?;
    let labels = notes.labels.as_slice();
    if !all_below(into.arrivals.len(), labels) {
        return Ok(false);
    }
    if !same_counts(labels, into.arrivals.at(to), &mut notes.due) {
        return Ok(false);
    }
    Ok(operands_agree(edges, labels, &mut notes.last))
}
