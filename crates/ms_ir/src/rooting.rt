//! The roots of a module: the instructions and operands that make uninitialised bytes or bits. A report names the root of what is
//! poisoned.
ghost use Rattle.std.specs.Prelude.{◌≡◌, ◌<◌, ◌^◌, ℕ, ◌+◌, ◌++◌, IfOk};
ghost use Rattle.ms_ir.specs.Instructions.{func_index, one_unmarked, over_insts, over_blocks, over_funcs};
ghost use Rattle.ms_ir.specs.Roots.{own_roots, inst_roots, insts_roots, blocks_roots, funcs_roots, roots_of};
ghost use Rattle.ms_ir.specs.{Places.{HasSmallNumbers}, Rooted.{roots_of_kind}};

mod callees;
mod operands;

use crate::{Block, Func, Inst, Module, Op, Root, RootKind};
use callees::Callees;
use ms_bits::{List, NoMemory};
use operands::push_operands;
use std::alloc::Global;

/// Of which kind of root an instruction is itself.
fn own_kind(callees: &Callees<'_>, op: &Op) -> Option<RootKind>
    ensures { (site : ℕ) → own_roots (func_index callees.now.funcs.now) site op.now ≡ roots_of_kind site result }
{
    match op {
        Op::Alloca { .. } => Some(RootKind::Alloca),
        Op::Call { callee, .. } => callees.kind(callee),
        _ => None,
    }
}

/// Adds the roots of an instruction at a site. Returns the site of the next one.
fn push_inst(
    roots: &mut Vec<Root>,
    callees: &Callees<'_>,
    site: u32,
    inst: &Inst,
) -> Result<u32, NoMemory>
    requires { site + one_unmarked inst.now < 2 ^ 32 }
    ensures roots { IfOk result (λ _. roots.new.items ≡ roots.old.items ++ inst_roots (func_index callees.now.funcs.now) site inst.now) }
    ensures site { IfOk result (λ n. n ≡ site + one_unmarked inst.now) }
{
    if inst.marked {
        return Ok(site);
    }
    push_operands(roots, site, &inst.op)?;
    if let Some(kind) = own_kind(callees, &inst.op) {
        roots.push(Root { kind, site })?;
    }
    Ok(site + 1)
}

/// Appends the roots of instructions. Returns the site after them.
fn push_insts(
    roots: &mut Vec<Root>,
    callees: &Callees<'_>,
    site: u32,
    insts: &[Inst],
) -> Result<u32, NoMemory>
    requires { site + over_insts one_unmarked insts.now < 2 ^ 32 }
    ensures roots { IfOk result (λ _. roots.new.items ≡ roots.old.items ++ insts_roots (func_index callees.now.funcs.now) site insts.now) }
    ensures site { IfOk result (λ n. n ≡ site + over_insts one_unmarked insts.now) }
{
    let mut site = site;
    for inst in insts {
        site = push_inst(roots, callees, site, inst)?;
    }
    Ok(site)
}

/// Appends the roots of basic blocks. Returns the site after them.
fn push_blocks(
    roots: &mut Vec<Root>,
    callees: &Callees<'_>,
    site: u32,
    blocks: &[Block],
) -> Result<u32, NoMemory>
    requires { site + over_blocks one_unmarked blocks.now < 2 ^ 32 }
    ensures roots { IfOk result (λ _. roots.new.items ≡ roots.old.items ++ blocks_roots (func_index callees.now.funcs.now) site blocks.now) }
    ensures site { IfOk result (λ n. n ≡ site + over_blocks one_unmarked blocks.now) }
{
    let mut site = site;
    for block in blocks {
        site = push_insts(roots, callees, site, block.insts.as_slice())?;
    }
    Ok(site)
}

/// Appends the roots of functions.
fn push_funcs(
    roots: &mut Vec<Root>,
    callees: &Callees<'_>,
    site: u32,
    funcs: &[Func],
) -> Result<(), NoMemory>
    requires { site + over_funcs one_unmarked funcs.now < 2 ^ 32 }
    ensures { IfOk result (λ _. roots.new.items ≡ roots.old.items ++ funcs_roots (func_index callees.now.funcs.now) site funcs.now) }
{
    let mut site = site;
    for func in funcs {
        site = push_blocks(roots, callees, site, func.blocks.as_slice())?;
    }
    Ok(())
}

/// The roots of a module in text order; the first has the number 1. Linear in the module.
pub fn roots(alloc: Global, m: &Module) -> Result<List<Root>, NoMemory>
    requires { HasSmallNumbers m.now }
    ensures { IfOk result (λ roots. roots ≡ roots_of m.now) }
{
    let mut roots = Vec::new(alloc);
    let callees = Callees::of(m.funcs.as_slice());
    push_funcs(&mut roots, &callees, 1, m.funcs.as_slice())?;
    Ok(List::from_vec(roots))
}
