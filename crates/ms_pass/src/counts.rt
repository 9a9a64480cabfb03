//! How many sites and roots stand before a place in a module, so that functions can be instrumented each by itself.
ghost use Rattle.std.specs.{Prelude.{◌≡◌, map, length, IfOk}, List.{range_with_len}};
ghost use Rattle.ms_check_tables.specs.FirstPlace.{first_place};
ghost use Rattle.ms_pass.specs.Counted.{past_inst, past_insts, past_blocks, past_funcs, AreSmall};
ghost use Rattle.ms_pass.specs.Passed.{before_func, no_counts};

use ms_bits::NoMemory;
use ms_check_tables::{NameTable, next_site};
use ms_ir::{Block, Func, Inst};
use ms_rules::root_count;
use std::alloc::Global;

/// The site of the next instruction, and how many roots stand before it.
#[derive(Clone, Copy)]
pub struct Counts {
    pub site: u32,
    /// The number of roots before it.
    pub roots: u64,
}

impl Counts {
    /// The counts after an instruction.
    fn after_inst(self, functions: &NameTable<'_>, inst: &Inst) -> Counts
        requires { AreSmall (past_inst (first_place functions.now) self inst.now) }
        ensures { result ≡ past_inst (first_place functions.now) self inst.now }
    {
        Counts {
            site: next_site(self.site, inst),
            roots: self.roots + root_count(functions, inst),
        }
    }

    /// The counts after instructions.
    fn after_insts(self, functions: &NameTable<'_>, insts: &[Inst]) -> Counts
        requires { AreSmall (past_insts (first_place functions.now) self insts.now) }
        ensures { result ≡ past_insts (first_place functions.now) self insts.now }
    {
        let mut counts = self;
        for inst in insts {
            counts = counts.after_inst(functions, inst);
        }
        counts
    }

    /// The counts after the blocks of a function.
    fn after_blocks(self, functions: &NameTable<'_>, blocks: &[Block]) -> Counts
        requires { AreSmall (past_blocks (first_place functions.now) self blocks.now) }
        ensures { result ≡ past_blocks (first_place functions.now) self blocks.now }
    {
        let mut counts = self;
        for block in blocks {
            counts = counts.after_insts(functions, block.insts.as_slice());
        }
        counts
    }
}

/// The counts before each function of a module. Linear in the functions.
pub fn counts_before(
    alloc: Global,
    functions: &NameTable<'_>,
    funcs: &[Func],
) -> Result<Vec<Counts>, NoMemory>
    requires { AreSmall (past_funcs (first_place functions.now) no_counts funcs.now) }
    ensures { IfOk result (λ all. all.items ≡ map (before_func (first_place functions.now) funcs.now) (range_with_len 0 (length funcs.now))) }
{
    let mut counts = Counts { site: 1, roots: 0 };
    let mut all = Vec::with_capacity(alloc, funcs.len())?;
    for func in funcs {
        all.push(counts)?;
        counts = counts.after_blocks(functions, func.blocks.as_slice());
    }
    Ok(all)
}
