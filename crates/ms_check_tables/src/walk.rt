//! The walk of a clause of validity over a module: the first fault that it finds in the functions, in text order.
ghost use Rattle.std.specs.Prelude.{◌≡◌, ◌+◌, ◌++◌, ◌<◌, ◌^◌, All, length, IfOk, IfNone, slice_get};
ghost use Rattle.ms_ir.specs.{Instructions.{one_unmarked, over_insts, over_blocks, over_funcs}, Places.{count_sites}};
ghost use Rattle.ms_ir.specs.Spots.{spot, over_spots, over_block_spots, over_func_spots, found};

use crate::inst_sites::InstSite;
use ms_bits::NoMemory;
use ms_ir::{Block, Func, Inst, Module};
use std::alloc::Global;

/// A clause of validity: what is looked for in the functions of a module and at each of their instructions.
pub trait Clause<'m> {
    /// What a function's instructions are looked at with: what is known of the function, made once for it.
    type Tables: Drop;
    /// What is found and told.
    type Fault;

    ghost use Rattle.std.specs.Prelude.{◌≡◌, ◌<◌, List, IfOk, IfNone, slice_get, length};
    ghost use Rattle.ms_ir.specs.{declared.syntax.Inst.{Inst as Looked}, declared.syntax.Func.{Func as Around}};
    ghost use Rattle.ms_ir.specs.Spots.{Spot};
    ghost use Rattle.ms_check_tables.specs.Here.{spot_of};

    /// What is asked of a function before its tables are made.
    ghost Asks: { Around → Type 0 };

    /// Whether these are the tables of a function.
    ghost AreOf: { Self → Around → Self.Tables → Type 0 };

    /// The faults of a function that are none of its instructions'.
    ghost head: { Self → Around → List Self.Fault };

    /// The faults of an instruction that stands at a spot.
    ghost look: { Self → Spot → Looked → List Self.Fault };

    /// The first fault of a function that is none of its instructions'.
    fn func_fault(&self, func: &'m Func) -> Option<Self::Fault>
        ensures { result ≡ slice_get (head self.now func.now) 0 };

    /// The tables of a function.
    fn enter(&self, alloc: Global, func: &'m Func) -> Result<Self::Tables, NoMemory>
        requires { Asks func.now }
        ensures { IfOk result (λ t. AreOf self.now func.now t) };

    /// The first fault of an instruction.
    fn fault(
        &self,
        alloc: Global,
        tables: &mut Self::Tables,
        here: &InstSite<'m>,
        inst: &'m Inst,
    ) -> Result<Option<Self::Fault>, NoMemory>
        requires tables { AreOf self.now here.now.func.now tables.old }
        requires block { here.now.block < length here.now.func.now.blocks }
        ensures first { IfOk result (λ r. r ≡ slice_get (look self.now (spot_of here.now) inst.now) 0) }
        ensures tables { IfOk result (λ r. IfNone r (AreOf self.now here.now.func.now tables.new)) };
}

/// The site that comes after an instruction: a marked one counts none.
pub fn next_site(site: u32, inst: &Inst) -> u32
    requires { site + one_unmarked inst.now < 2 ^ 32 }
    ensures { result ≡ site + one_unmarked inst.now }
{
    if inst.marked { site } else { site + 1 }
}

/// The first fault in the instructions of a block. The site becomes that after them.
fn first_in_insts<'m, C: Clause<'m>>(
    alloc: Global,
    clause: &C,
    tables: &mut C::Tables,
    func: &'m Func,
    block: usize,
    site: &mut u32,
    insts: &'m [Inst],
) -> Result<Option<C::Fault>, NoMemory>
    requires tables { C.AreOf clause.now func.now tables.old }
    requires block { block < length func.now.blocks }
    requires few { site.old + over_insts one_unmarked insts.now < 2 ^ 32 }
    ensures first { IfOk result (λ r. r ≡ slice_get (over_spots (C.look clause.now) (spot func.now block 0 site.old) insts.now) 0) }
    ensures site { IfOk result (λ r. IfNone r (site.new ≡ site.old + over_insts one_unmarked insts.now)) }
    ensures tables { IfOk result (λ r. IfNone r (C.AreOf clause.now func.now tables.new)) }
{
    for (place, inst) in insts.iter().enumerate() {
        let here = InstSite {
            func,
            block,
            place,
            site: *site,
        };
        if let Some(fault) = clause.fault(alloc, tables, &here, inst)? {
            return Ok(Some(fault));
        }
        *site = next_site(*site, inst);
    }
    Ok(None)
}

/// The first fault in the blocks of a function. The site becomes that after them.
fn first_in_blocks<'m, C: Clause<'m>>(
    alloc: Global,
    clause: &C,
    tables: &mut C::Tables,
    func: &'m Func,
    site: &mut u32,
    blocks: &'m [Block],
) -> Result<Option<C::Fault>, NoMemory>
    requires tables { C.AreOf clause.now func.now tables.old }
    requires whole { length blocks.now ≡ length func.now.blocks }
    requires few { site.old + over_blocks one_unmarked blocks.now < 2 ^ 32 }
    ensures first { IfOk result (λ r. r ≡ slice_get (over_block_spots (C.look clause.now) func.now 0 site.old blocks.now) 0) }
    ensures site { IfOk result (λ r. IfNone r (site.new ≡ site.old + over_blocks one_unmarked blocks.now)) }
{
    for (number, block) in blocks.iter().enumerate() {
        let insts = block.insts.as_slice();
        if let Some(fault) = first_in_insts(alloc, clause, tables, func, number, site, insts)? {
            return Ok(Some(fault));
        }
    }
    Ok(None)
}

/// The first fault at the instructions of a function. The site becomes that after them.
fn first_in_code<'m, C: Clause<'m>>(
    alloc: Global,
    clause: &C,
    site: &mut u32,
    func: &'m Func,
) -> Result<Option<C::Fault>, NoMemory>
    requires asked { C.Asks func.now }
    requires few { site.old + over_blocks one_unmarked func.now.blocks < 2 ^ 32 }
    ensures first { IfOk result (λ r. r ≡ slice_get (over_block_spots (C.look clause.now) func.now 0 site.old func.now.blocks) 0) }
    ensures site { IfOk result (λ r. IfNone r (site.new ≡ site.old + over_blocks one_unmarked func.now.blocks)) }
{
    let mut tables = clause.enter(alloc, func)?;
    first_in_blocks(
        alloc,
        clause,
        &mut tables,
        func,
        site,
        func.blocks.as_slice(),
    )
}

/// The first fault of a function. The site becomes that after it.
fn first_in_func<'m, C: Clause<'m>>(
    alloc: Global,
    clause: &C,
    site: &mut u32,
    func: &'m Func,
) -> Result<Option<C::Fault>, NoMemory>
    requires asked { C.Asks func.now }
    requires few { site.old + over_blocks one_unmarked func.now.blocks < 2 ^ 32 }
    ensures first { IfOk result (λ r. r ≡ slice_get (C.head clause.now func.now ++ over_block_spots (C.look clause.now) func.now 0 site.old func.now.blocks) 0) }
    ensures site { IfOk result (λ r. IfNone r (site.new ≡ site.old + over_blocks one_unmarked func.now.blocks)) }
{
    match clause.func_fault(func) {
        Some(fault) => Ok(Some(fault)),
        None => first_in_code(alloc, clause, site, func),
    }
}

/// The first fault in functions, the first of which has the site 1.
fn first_in_funcs<'m, C: Clause<'m>>(
    alloc: Global,
    clause: &C,
    funcs: &'m [Func],
) -> Result<Option<C::Fault>, NoMemory>
    requires asked { All C.Asks funcs.now }
    requires few { 1 + over_funcs one_unmarked funcs.now < 2 ^ 32 }
    ensures { IfOk result (λ r. r ≡ slice_get (over_func_spots (C.head clause.now) (C.look clause.now) 1 funcs.now) 0) }
{
    let mut site = 1;
    for func in funcs {
        if let Some(fault) = first_in_func(alloc, clause, &mut site, func)? {
            return Ok(Some(fault));
        }
    }
    Ok(None)
}

/// The first fault of a clause in the functions of a module, in text order. Sites have 32 bits in every module that is read,
/// and each function has what the clause asks.
pub fn first_fault<'m, C: Clause<'m>>(
    alloc: Global,
    clause: &C,
    m: &'m Module,
) -> Result<Option<C::Fault>, NoMemory>
    requires sites { 1 + count_sites m.now < 2 ^ 32 }
    requires asked { All C.Asks m.now.funcs }
    ensures { IfOk result (λ r. r ≡ slice_get (found (C.head clause.now) (C.look clause.now) m.now) 0) }
{
    first_in_funcs(alloc, clause, m.funcs.as_slice())
}
