//! The edges between the blocks of a function, by the numbers of the blocks: one for each label that a terminator names.
ghost use Rattle.std.specs.Prelude.{◌≡◌, ◌<◌, ◌^◌, ℕ, [], ◌∷◌, length, map, IfOk, OnOk, slice_index_or};
ghost use Rattle.ms_ir.specs.{Written.{block_targets}, Locals.{block_names}};
ghost use Rattle.ms_check_valid.specs.FlowGraph.{name_place};
ghost use Rattle.ms_check_flow.specs.Arriving.{Joined, edges_to, arrivals, AreEdgesOf};

use crate::arrivals::Arrivals;
use crate::graphs::next_of;
use ms_bits::NoMemory;
use ms_check_tables::{Names, block_numbers, name_place};
use ms_ir::{Block, Func};
use std::alloc::Global;

/// The blocks of a function by their names, and the edges into each.
#[derive(Drop)]
pub struct Edges<'m> {
    /// The names of the blocks, which number them.
    pub blocks: Names<'m>,
    /// For each block the blocks from which edges lead to it.
    pub arrivals: Arrivals,
}

/// Adds the edge between the blocks with these numbers; none where no block has the number `to`.
fn add_edge(from: u32, to: u32, arrivals: &mut Arrivals) -> Result<(), NoMemory>
    ensures { OnOk result (Joined (edges_to from (to ∷ [])) arrivals.old arrivals.new) }
{
    if (to as usize) < arrivals.len() {
        arrivals.add(from, to)?;
    }
    Ok(())
}

/// Adds the edges from the block with the number `from` to those with the numbers `targets`.
fn add_edges(from: u32, targets: &[u32], arrivals: &mut Arrivals) -> Result<(), NoMemory>
    ensures { OnOk result (Joined (edges_to from targets.now) arrivals.old arrivals.new) }
{
    for to in targets {
        add_edge(from, *to, arrivals)?;
    }
    Ok(())
}

/// Adds the edges from a block to those that its terminator names.
fn add_block(
    alloc: Global,
    blocks: &Names<'_>,
    block: &Block,
    arrivals: &mut Arrivals,
) -> Result<(), NoMemory>
    ensures { OnOk result (Joined (edges_to (name_place blocks.now block.now.name) (map (name_place blocks.now) (block_targets block.now))) arrivals.old arrivals.new) }
{
    let targets = next_of(alloc, blocks, block.insts.as_slice())?;
    add_edges(
        name_place(blocks, &block.name),
        targets.as_slice(),
        arrivals,
    )
}

/// The edges into each block of a function.
fn find_arrivals(alloc: Global, func: &Func, blocks: &Names<'_>) -> Result<Arrivals, NoMemory>
    requires { blocks.now ≡ block_names func.now }
    ensures len { IfOk result (λ a. length a ≡ length func.now.blocks) }
    ensures rows { IfOk result (λ a. (to : ℕ) → to < length func.now.blocks
        → slice_index_or a to [] ≡ arrivals (name_place blocks.now) func.now.blocks to) }
{
    let mut arrivals = Arrivals::none(alloc, blocks.len())?;
    for block in func.blocks.as_slice() {
        add_block(alloc, blocks, block, &mut arrivals)?;
    }
    Ok(arrivals)
}

/// The edges of a function, with its blocks by their names.
pub fn find_edges<'m>(alloc: Global, func: &'m Func) -> Result<Edges<'m>, NoMemory>
    requires { length func.now.blocks < 2 ^ 32 }
    ensures { IfOk result (AreEdgesOf func.now) }
{
    let blocks = block_numbers(alloc, func)?;
    let arrivals = find_arrivals(alloc, func, &blocks)?;
    Ok(Edges { blocks, arrivals })
}
