//! Instructions by their sites, and sites by their instructions, in a module alone: the program counts sites as it goes.
ghost use Rattle.std.specs.Prelude.{◌≡◌, ◌+◌, ◌<◌, ◌≤◌, ◌^◌, length, take, IfSome, IfNone};
ghost use Rattle.ms_ir.specs.declared.places.Place.{Place};
ghost use Rattle.ms_ir.specs.Instructions.{blocks_at, insts_at, one_unmarked, over_insts, over_blocks, over_funcs, site_at};
ghost use Rattle.ms_ir.specs.Places.{IsUnmarkedAt, IsPlaceOf, HasSmallNumbers};
ghost use Rattle.ms_ir.specs.Searches.{FoundInst, FoundBlock, FoundFunc};

use crate::numbers::{sites_of_blocks, sites_of_funcs, sites_of_insts};
use crate::{Block, Func, Inst, Module, Place};

/// The blocks of the function with a number.
fn blocks_of(m: &Module, func: u32) -> &[Block]
    ensures { result.now ≡ blocks_at m.now func }
{
    match m.funcs.as_slice().get(func as usize) {
        None => &[],
        Some(func) => func.blocks.as_slice(),
    }
}

/// The instructions of the block with a number.
fn insts_of(m: &Module, func: u32, block: u32) -> &[Inst]
    ensures { result.now ≡ insts_at m.now func block }
{
    match blocks_of(m, func).get(block as usize) {
        None => &[],
        Some(block) => block.insts.as_slice(),
    }
}

/// The first `count` items, or all where there are fewer.
fn first<T>(items: &[T], count: u32) -> &[T]
    ensures { result.now ≡ take count items.now }
{
    if (count as usize) < items.len() {
        &items[..count as usize]
    } else {
        items
    }
}

/// The site that comes after these functions, blocks and instructions.
fn site_after(funcs: &[Func], blocks: &[Block], insts: &[Inst]) -> u32
    requires { 1 + over_funcs one_unmarked funcs.now + over_blocks one_unmarked blocks.now + over_insts one_unmarked insts.now < 2 ^ 32 }
    ensures { result ≡ 1 + over_funcs one_unmarked funcs.now + over_blocks one_unmarked blocks.now + over_insts one_unmarked insts.now }
{
    1 + sites_of_funcs(funcs) + sites_of_blocks(blocks) + sites_of_insts(insts)
}

/// The site of the unmarked instruction at a place: unmarked instructions are counted from 1, in text order.
/// Linear in the module.
pub fn site_of(m: &Module, place: Place) -> u32
    requires numbers { HasSmallNumbers m.now }
    requires unmarked { IsUnmarkedAt m.now place }
    ensures { result ≡ site_at m.now place.func place.block place.inst }
{
    let funcs = first(m.funcs.as_slice(), place.func);
    let blocks = first(blocks_of(m, place.func), place.block);
    let insts = first(insts_of(m, place.func, place.block), place.inst);
    site_after(funcs, blocks, insts)
}

/// A part of a list, and which of its unmarked instructions is sought, counted from 0.
#[derive(Clone, Copy)]
struct Sought {
    /// The place of the part in the list.
    index: u32,
    /// Which unmarked instruction of the part.
    left: u32,
}

/// The place of unmarked instruction `number` among these, counted from 0.
fn find_inst(insts: &[Inst], number: u32) -> Option<u32>
    requires { length insts.now < 2 ^ 32 }
    ensures found { IfSome result (FoundInst insts.now number) }
    ensures none { IfNone result (over_insts one_unmarked insts.now ≤ number) }
{
    let mut left = number;
    for (index, inst) in insts.iter().enumerate() {
        if !inst.marked {
            if left == 0 {
                return Some(index as u32);
            }
            left -= 1;
        }
    }
    None
}

/// The basic block that has unmarked instruction `number` of all of them, counted from 0, and which one of its own that is.
fn find_block(blocks: &[Block], number: u32) -> Option<Sought>
    requires few { over_blocks one_unmarked blocks.now < 2 ^ 32 }
    requires short { length blocks.now < 2 ^ 32 }
    ensures found { IfSome result (λ p. FoundBlock blocks.now number p.index p.left) }
    ensures none { IfNone result (over_blocks one_unmarked blocks.now ≤ number) }
{
    let mut left = number;
    for (index, block) in blocks.iter().enumerate() {
        let count = sites_of_insts(block.insts.as_slice());
        if left < count {
            let index = index as u32;
            return Some(Sought { index, left });
        }
        left -= count;
    }
    None
}

/// The function that has unmarked instruction `number` of all of them, counted from 0, and which one of its own that is.
fn find_func(funcs: &[Func], number: u32) -> Option<Sought>
    requires few { over_funcs one_unmarked funcs.now < 2 ^ 32 }
    requires short { length funcs.now < 2 ^ 32 }
    ensures found { IfSome result (λ p. FoundFunc funcs.now number p.index p.left) }
    ensures none { IfNone result (over_funcs one_unmarked funcs.now ≤ number) }
{
    let mut left = number;
    for (index, func) in funcs.iter().enumerate() {
        let count = sites_of_blocks(func.blocks.as_slice());
        if left < count {
            let index = index as u32;
            return Some(Sought { index, left });
        }
        left -= count;
    }
    None
}

/// The place of the unmarked instruction with a site; none where the module has no such site. Linear in the
/// module.
pub fn place_of(m: &Module, site: u32) -> Option<Place>
    requires { HasSmallNumbers m.now }
    ensures found { IfSome result (IsPlaceOf m.now site) }
    ensures none { IfNone result ((p : Place) → IsPlaceOf m.now site p → ⊥) }
{
    if site == 0 {
        return None;
    }
    match find_func(m.funcs.as_slice(), site - 1) {
        None => None,
        Some(func) => match find_block(blocks_of(m, func.index), func.left) {
            None => None,
            Some(block) => match find_inst(insts_of(m, func.index, block.index), block.left) {
                None => None,
                Some(inst) => Some(Place {
                    func: func.index,
                    block: block.index,
                    inst,
                }),
            },
        },
    }
}
