//! Where an instruction of the code stands in the module, by its number among all instructions, counted from 0 in text order: for
//! what a fiber shows at a pause (`inspect.rt`).
ghost use Rattle.std.specs.Prelude.{◌≡◌, ◌≤◌, ◌<◌, ◌+◌, ℕ, Some, IfErr, IfNone, IfOk, IfSome};
ghost use Rattle.ms_ir.specs.Instructions.{func_at, over_blocks, over_funcs};
ghost use Rattle.ms_check_valid.specs.Formed.{Formed};
ghost use Rattle.ms_machine.specs.Searches.{IsInBlock, IsInFunc};

use ms_ir::{Block, Func, Module, Place};

/// Where an instruction stands in a function: the numbers of its block and, in the block, of itself.
#[derive(Clone, Copy)]
struct InstPlace {
    block: usize,
    inst: usize,
}

/// Where the instruction with a number among those of a function's blocks stands; where they have fewer, how far the number is
/// beyond them.
fn find_block(blocks: &[Block], number: usize) -> Result<InstPlace, usize>
    ensures found { IfOk result (λ p. IsInBlock blocks.now number p.block p.inst) }
    ensures beyond { IfErr result (λ left. over_blocks (λ inst. 1) blocks.now + left ≡ number) }
{
    let mut left = number;
    for (index, block) in blocks.iter().enumerate() {
        let count = block.insts.as_slice().len();
        if left < count {
            return Ok(InstPlace {
                block: index,
                inst: left,
            });
        }
        left -= count;
    }
    Err(left)
}

/// The function in which the instruction with a number among those of functions stands, and where in it; none where they
/// have fewer.
fn find_func(funcs: &[Func], number: usize) -> Option<(usize, InstPlace)>
    ensures found { IfSome result (λ r. IsInFunc funcs.now number r.0 r.1.block r.1.inst) }
    ensures none { IfNone result (over_funcs (λ inst. 1) funcs.now ≤ number) }
{
    let mut left = number;
    for (index, func) in funcs.iter().enumerate() {
        match find_block(func.blocks.as_slice(), left) {
            Ok(part) => return Some((index, part)),
            Err(beyond) => left = beyond,
        }
    }
    None
}

/// The place of the instruction with a number among those of a module. Linear in the module.
pub(crate) fn place_at(m: &Module, number: usize) -> Place
    requires formed { Formed m.now }
    requires few { number < over_funcs (λ inst. 1) m.now.funcs }
    ensures { IsInFunc m.now.funcs number result.func result.block result.inst }
{
    match find_func(m.funcs.as_slice(), number) {
        Some((func, part)) => Place {
            func: func as u32,
            block: part.block as u32,
            inst: part.inst as u32,
        },
        None => unreachable!(),
    }
}

/// The function in which the instruction with a number stands.
pub(crate) fn func_of(m: &Module, number: usize) -> &Func
    requires formed { Formed m.now }
    requires few { number < over_funcs (λ inst. 1) m.now.funcs }
    ensures { (f b p : ℕ) → IsInFunc m.now.funcs number f b p → func_at m.now f ≡ Some result.now }
{
    let place = place_at(m, number);
    let funcs = m.funcs.as_slice();
    &funcs[place.func as usize]
}
