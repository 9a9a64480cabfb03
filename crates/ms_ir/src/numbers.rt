//! How many sites a part of a module has. Counts stand still at the greatest number of 32 bits.
ghost use Rattle.std.specs.Prelude.{◌≡◌, ◌<◌, ◌-◌, ◌^◌, min, ◌↔◌, length, All, IsTrue};
ghost use Rattle.ms_ir.specs.Instructions.{one_unmarked, over_insts, over_blocks, over_funcs};
ghost use Rattle.ms_ir.specs.{Places.{HasSmallNumbers}, Searches.{AreSmall}};

use crate::{Block, Func, Inst, Module};

/// The number of sites of instructions.
pub fn sites_of_insts(insts: &[Inst]) -> u32
    ensures { result ≡ min (over_insts one_unmarked insts.now) (2 ^ 32 - 1) }
{
    let mut count: u32 = 0;
    for inst in insts {
        if !inst.marked {
            count = count.saturating_add(1);
        }
    }
    count
}

/// The number of sites of basic blocks.
pub fn sites_of_blocks(blocks: &[Block]) -> u32
    ensures { result ≡ min (over_blocks one_unmarked blocks.now) (2 ^ 32 - 1) }
{
    let mut count: u32 = 0;
    for block in blocks {
        count = count.saturating_add(sites_of_insts(block.insts.as_slice()));
    }
    count
}

/// The number of sites of functions.
pub fn sites_of_funcs(funcs: &[Func]) -> u32
    ensures { result ≡ min (over_funcs one_unmarked funcs.now) (2 ^ 32 - 1) }
{
    let mut count: u32 = 0;
    for func in funcs {
        count = count.saturating_add(sites_of_blocks(func.blocks.as_slice()));
    }
    count
}

/// Whether instructions are numbered in 32 bits in each of the blocks.
fn blocks_are_small(blocks: &[Block]) -> bool
    ensures { IsTrue result ↔ All (λ b. length b.insts < 2 ^ 32) blocks.now }
{
    for block in blocks {
        if block.insts.as_slice().len() > u32::MAX as usize {
            return false;
        }
    }
    true
}

/// Whether blocks, and instructions in them, are numbered in 32 bits in each of the functions.
fn funcs_are_small(funcs: &[Func]) -> bool
    ensures { IsTrue result ↔ AreSmall funcs.now }
{
    for func in funcs {
        let blocks = func.blocks.as_slice();
        if blocks.len() > u32::MAX as usize || !blocks_are_small(blocks) {
            return false;
        }
    }
    true
}

/// Whether sites and places of a module fit 32 bits. Those of each module that is read do.
pub fn has_small_numbers(m: &Module) -> bool
    ensures { IsTrue result ↔ HasSmallNumbers m.now }
{
    let funcs = m.funcs.as_slice();
    if funcs.len() > u32::MAX as usize {
        return false;
    }
    if sites_of_funcs(funcs) == u32::MAX {
        return false;
    }
    funcs_are_small(funcs)
}
