//! The mark of each site: which of a text's marks are instructions that have a site. An inserted instruction has none.

ghost use Rattle.std.specs.{Prelude.{◌≡◌, ◌++◌, IfOk, map, filter, flat_map}, List.{zip}};
ghost use Rattle.ms_ir.specs.Instructions.{is_unmarked};
ghost use Rattle.ms_where_places.specs.Instructions.{is_instruction, module_insts};
ghost use Rattle.ms_where.specs.Sites as spec;

use ms_bits::NoMemory;
use ms_ir::{Block, Func, Inst, Module};
use ms_where_places::{Mark, MarkKind};
use std::alloc::Global;

/// Adds of each of these instructions whether it has a site.
fn push_insts(found: &mut Vec<bool>, insts: &[Inst]) -> Result<(), NoMemory>
    ensures { IfOk result (λ _. found.new.items ≡ found.old.items ++ map is_unmarked insts.now) }
{
    for inst in insts {
        found.push(!inst.marked)?;
    }
    Ok(())
}

/// Adds of each instruction of these blocks whether it has a site.
fn push_blocks(found: &mut Vec<bool>, blocks: &[Block]) -> Result<(), NoMemory>
    ensures { IfOk result (λ _. found.new.items ≡ found.old.items ++ flat_map spec.block_sites blocks.now) }
{
    for block in blocks {
        push_insts(found, block.insts.as_slice())?;
    }
    Ok(())
}

/// Adds of each instruction of these functions whether it has a site.
fn push_funcs(found: &mut Vec<bool>, funcs: &[Func]) -> Result<(), NoMemory>
    ensures { IfOk result (λ _. found.new.items ≡ found.old.items ++ flat_map spec.func_sites funcs.now) }
{
    for func in funcs {
        push_blocks(found, func.blocks.as_slice())?;
    }
    Ok(())
}

/// Of each instruction of a module whether it has a site.
#[tactic(auto, using(crate::proofs::Chosen::sites_of_module))]
fn have_sites(alloc: Global, m: &Module) -> Result<Vec<bool>, NoMemory>
    ensures { IfOk result (λ found. found.items ≡ map is_unmarked (module_insts m.now)) }
{
    let mut found = Vec::new(alloc);
    push_funcs(&mut found, m.funcs.as_slice())?;
    Ok(found)
}

/// Whether a mark is an instruction.
fn is_instruction(mark: &Mark) -> bool
    ensures { result ≡ is_instruction mark.now.kind }
{
    match mark.kind {
        MarkKind::Instruction => true,
        _ => false,
    }
}

/// The places, in the list of marks, of those that are instructions.
fn instruction_places(alloc: Global, marks: &[Mark]) -> Result<Vec<usize>, NoMemory>
    ensures { IfOk result (λ found. found.items ≡ spec.instruction_places marks.now) }
{
    marks
        .iter()
        .enumerate()
        .filter(|(_, mark)| is_instruction(mark))
        .map(|(place, _)| place)
        .collect(alloc)
}

/// The places of instructions, without those that have no site; both lists are in written order.
fn with_sites(alloc: Global, have_sites: &[bool], places: &[usize]) -> Result<Vec<usize>, NoMemory>
    ensures { IfOk result (λ found. found.items ≡ map (λ p. p.1) (filter (λ p. p.0) (zip have_sites.now places.now))) }
{
    have_sites
        .iter()
        .zip(places.iter())
        .filter(|(has_site, _)| **has_site)
        .map(|(_, place)| *place)
        .collect(alloc)
}

/// The place of the mark of each site, from site 1 on. Takes a time linear in the module and the marks.
pub fn site_places(alloc: Global, m: &Module, marks: &[Mark]) -> Result<Vec<usize>, NoMemory>
    ensures { IfOk result (λ found. found.items ≡ spec.site_places m.now marks.now) }
{
    let have_sites = have_sites(alloc, m)?;
    let places = instruction_places(alloc, marks)?;
    with_sites(alloc, &have_sites, &places)
}
