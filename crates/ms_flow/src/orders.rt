//! The order in which blocks hand on what arrives at them: by a walk in depth from block 0.
ghost use Rattle.std.specs.Prelude.{◌≡◌, ℕ, ◌<◌, [], ◌∷◌, length, vec_len, true, false, IfOk, OnOk, All, Contains, slice_index_or};
ghost use Rattle.ms_flow.specs.Search.{StaysIn, Covers};

use crate::graphs::Graph;
use ms_bits::NoMemory;
use std::alloc::Global;

/// A step of the walk that is still to be done.
#[derive(Clone, Copy)]
struct Pending {
    /// The block that is entered or left.
    block: usize,
    /// Whether the block is left: all that it leads to has been walked through.
    leaves: bool,
}

/// All blocks: first those that block 0 leads to, in reverse postorder, so that most blocks stand after
/// those that lead to them, then the others.
pub fn order(alloc: Global, g: &Graph) -> Result<Vec<usize>, NoMemory>
    requires filled { 0 < length g.now.next }
    requires successors { StaysIn g.now }
    ensures blocks { IfOk result (λ o. All (λ b. b < length g.now.next) o.items) }
    ensures all { IfOk result (λ o. Covers (length g.now.next) o.items) }
{
    let mut order = postorder(alloc, g)?;
    order.reverse();
    add_others(alloc, g.len(), &mut order)?;
    Ok(order)
}

/// The blocks that block 0 leads to, each after those that were first reached from it.
fn postorder(alloc: Global, g: &Graph) -> Result<Vec<usize>, NoMemory>
    requires filled { 0 < length g.now.next }
    requires successors { StaysIn g.now }
    ensures { IfOk result (λ o. All (λ b. b < length g.now.next) o.items) }
{
    let mut steps = first_steps(alloc)?;
    let mut entered = vec![in alloc; false; g.len()]?;
    let mut done = Vec::new(alloc);
    for _ in 0..most_steps(g) {
        let Some(step) = steps.pop() else {
            break;
        };
        take(g, step, &mut entered, &mut steps, &mut done)?;
    }
    Ok(done)
}

/// The step with which the walk begins, to block 0.
fn first_steps(alloc: Global) -> Result<Vec<Pending>, NoMemory>
    ensures { IfOk result (λ steps. steps.items ≡ record { block = 0; leaves = false } ∷ []) }
{
    let mut steps = Vec::new(alloc);
    steps.push(Pending {
        block: 0,
        leaves: false,
    })?;
    Ok(steps)
}

/// Does one step of the walk: leaves its block, which is then `done`, or enters it where it isn't entered yet.
fn take(
    g: &Graph,
    step: Pending,
    entered: &mut [bool],
    steps: &mut Vec<Pending>,
    done: &mut Vec<usize>,
) -> Result<(), NoMemory>
    requires block { step.block < length g.now.next }
    requires successors { StaysIn g.now }
    requires entered { length entered.old ≡ length g.now.next }
    requires steps { All (λ s. s.block < length g.now.next) steps.old.items }
    requires done { All (λ b. b < length g.now.next) done.old.items }
    ensures steps { OnOk result (All (λ s. s.block < length g.now.next) steps.new.items) }
    ensures done { OnOk result (All (λ b. b < length g.now.next) done.new.items) }
{
    if step.leaves {
        done.push(step.block)?;
    } else if !entered[step.block] {
        entered[step.block] = true;
        enter(g, step.block, steps)?;
    }
    Ok(())
}

/// Adds the steps that enter a block's successors, on top of the one that leaves the block.
fn enter(g: &Graph, block: usize, steps: &mut Vec<Pending>) -> Result<(), NoMemory>
    requires block { block < length g.now.next }
    requires successors { StaysIn g.now }
    requires steps { All (λ s. s.block < length g.now.next) steps.old.items }
    ensures { OnOk result (All (λ s. s.block < length g.now.next) steps.new.items) }
{
    steps.push(Pending {
        block,
        leaves: true,
    })?;
    for next in g.successors(block) {
        steps.push(Pending {
            block: *next as usize,
            leaves: false,
        })?;
    }
    Ok(())
}

/// Enough steps for the walk: one for block 0 and for each edge, and one for each block that is left.
fn most_steps(g: &Graph) -> usize {
    let mut steps = 1usize;
    for next in g.next.as_slice() {
        steps = steps
            .saturating_add(next.as_slice().len())
            .saturating_add(1);
    }
    steps
}

/// Adds the blocks below `len` that the order lacks.
fn add_others(alloc: Global, len: usize, order: &mut Vec<usize>) -> Result<(), NoMemory>
    requires { All (λ b. b < len) order.old.items }
    ensures blocks { OnOk result (All (λ b. b < len) order.new.items) }
    ensures all { OnOk result (Covers len order.new.items) }
{
    let stands = flags(alloc, len, order)?;
    for block in 0..len {
        if !stands[block] {
            order.push(block)?;
        }
    }
    Ok(())
}

/// For each number below `len`, whether the order has it.
fn flags(alloc: Global, len: usize, order: &[usize]) -> Result<Vec<bool>, NoMemory>
    requires { All (λ b. b < len) order.now }
    ensures len { IfOk result (λ s. vec_len s ≡ len) }
    ensures flags { IfOk result (λ s.
        (b : ℕ) → slice_index_or s.items b false ≡ true → Contains order.now b) }
{
    let mut stands = vec![in alloc; false; len]?;
    for block in order {
        stands[*block] = true;
    }
    Ok(stands)
}
