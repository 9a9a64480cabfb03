//! The uses of values in a function, in text order, with the blocks that they are in: what `ms_flow` is asked about.
ghost use Rattle.std.specs.Prelude.{◌≡◌, ◌++◌, ◌+◌, ◌<◌, ◌^◌, [], map, length, option_to_list, IfOk, OnOk};
ghost use Rattle.ms_ir.specs.Instructions.{one_unmarked, over_insts, over_blocks};
ghost use Rattle.ms_check_valid.specs.FlowGraph.{value_names, graph_of};
ghost use Rattle.ms_check_flow.specs.{Noted.{op_noted, insts_noted, blocks_noted, AreAskedOf}, Numbered.{AreNumbersOf}};

use crate::graphs::graph;
use crate::inst_uses::{NotedUse, UseSite};
use crate::numbers::{Numbers, numbers_of};
use ms_bits::NoMemory;
use ms_check_tables::{NameTable, next_site};
use ms_flow::{Graph, Use};
use ms_ir::{Func, Inst};
use std::alloc::Global;

/// What is asked about a function.
#[derive(Drop)]
pub struct FuncUses {
    /// Its graph.
    pub graph: Graph,
    /// Its uses of values that are no parameters, in text order.
    pub noted: Vec<NotedUse>,
}

/// Appends the name of an instruction's result, if it has one, to those that were seen in its block.
fn push_result<'m>(seen: &mut NameTable<'m>, inst: &'m Inst) -> Result<(), NoMemory>
    ensures { OnOk result (seen.new ≡ seen.old ++ option_to_list inst.now.result) }
{
    if let Some(name) = &inst.result {
        seen.push(name)?;
    }
    Ok(())
}

/// Notes the uses of an instruction, which has a site and stands after the results that are seen in its block. The site
/// becomes that after it, and its own result is seen.
fn note_inst<'m>(
    numbers: &Numbers<'m>,
    block: u32,
    site: &mut u32,
    inst: &'m Inst,
    seen: &mut NameTable<'m>,
    noted: &mut Vec<NotedUse>,
) -> Result<(), NoMemory>
    requires { site.old + one_unmarked inst.now < 2 ^ 32 }
    ensures noted { OnOk result (noted.new.items ≡ noted.old.items ++ op_noted numbers.now seen.old block site.old inst.now.op) }
    ensures seen { OnOk result (seen.new ≡ seen.old ++ option_to_list inst.now.result) }
    ensures site { OnOk result (site.new ≡ site.old + one_unmarked inst.now) }
{
    let here = UseSite {
        numbers,
        seen,
        block,
        site: *site,
    };
    here.note_op(&inst.op, noted)?;
    *site = next_site(*site, inst);
    push_result(seen, inst)
}

/// Notes the uses of a block's instructions, the first of which has a site. The site becomes that after them.
fn note_insts<'m>(
    alloc: Global,
    numbers: &Numbers<'m>,
    block: u32,
    site: &mut u32,
    insts: &'m [Inst],
    noted: &mut Vec<NotedUse>,
) -> Result<(), NoMemory>
    requires { site.old + over_insts one_unmarked insts.now < 2 ^ 32 }
    ensures noted { OnOk result (noted.new.items ≡ noted.old.items ++ insts_noted numbers.now [] block site.old insts.now) }
    ensures site { OnOk result (site.new ≡ site.old + over_insts one_unmarked insts.now) }
{
    let mut seen = NameTable::new(alloc);
    for inst in insts {
        note_inst(numbers, block, site, inst, &mut seen, noted)?;
    }
    Ok(())
}

/// The uses of a function's values that are no parameters, in text order. The site becomes that after the function.
fn noted_uses<'m>(
    alloc: Global,
    numbers: &Numbers<'m>,
    site: &mut u32,
    func: &'m Func,
) -> Result<Vec<NotedUse>, NoMemory>
    requires short { length func.now.blocks < 2 ^ 32 }
    requires few { site.old + over_blocks one_unmarked func.now.blocks < 2 ^ 32 }
    ensures noted { IfOk result (λ noted. noted.items ≡ blocks_noted numbers.now 0 site.old func.now.blocks) }
    ensures site { OnOk result (site.new ≡ site.old + over_blocks one_unmarked func.now.blocks) }
{
    let mut noted = Vec::new(alloc);
    for (number, block) in func.blocks.as_slice().iter().enumerate() {
        let insts = block.insts.as_slice();
        note_insts(alloc, numbers, number as u32, site, insts, &mut noted)?;
    }
    Ok(noted)
}

/// What is asked about a function that has these numbers. The site becomes that after the function.
fn asked_by<'m>(
    alloc: Global,
    numbers: &Numbers<'m>,
    site: &mut u32,
    func: &'m Func,
) -> Result<FuncUses, NoMemory>
    requires numbers { AreNumbersOf func.now numbers.now }
    requires short { length func.now.blocks < 2 ^ 32 }
    requires few { site.old + over_blocks one_unmarked func.now.blocks < 2 ^ 32 }
    ensures graph { IfOk result (λ a. a.graph ≡ graph_of func.now) }
    ensures noted { IfOk result (λ a. a.noted.items ≡ blocks_noted numbers.now 0 site.old func.now.blocks) }
    ensures site { OnOk result (site.new ≡ site.old + over_blocks one_unmarked func.now.blocks) }
{
    let graph = graph(alloc, func, numbers)?;
    let noted = noted_uses(alloc, numbers, site, func)?;
    Ok(FuncUses { graph, noted })
}

/// What is asked about a function, the first instruction of which has a site. The site becomes that after the function.
pub fn asked_of(alloc: Global, site: &mut u32, func: &Func) -> Result<FuncUses, NoMemory>
    requires names { length (value_names func.now) < 2 ^ 32 }
    requires few { site.old + over_blocks one_unmarked func.now.blocks < 2 ^ 32 }
    ensures asked { IfOk result (AreAskedOf func.now site.old) }
    ensures site { OnOk result (site.new ≡ site.old + over_blocks one_unmarked func.now.blocks) }
{
    let numbers = numbers_of(alloc, func)?;
    asked_by(alloc, &numbers, site, func)
}

/// The places of noted uses, without their sites.
pub fn places(alloc: Global, noted: &[NotedUse]) -> Result<Vec<Use>, NoMemory>
    ensures { IfOk result (λ v. v.items ≡ map (λ u. u.place) noted.now) }
{
    noted.iter().map(|noted| noted.place).collect(alloc)
}
