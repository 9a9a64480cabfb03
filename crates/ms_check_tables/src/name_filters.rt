//! Tables of names that are picked out of instructions: the labels of phis, and what a `Pick` asks for, as callees are.
ghost use Rattle.std.specs.Prelude.{◌≡◌, ◌++◌, Option, option_to_list, map, filter_map, flat_map, IfOk};
ghost use Rattle.std.specs.Option.{option_copied};
ghost use Rattle.ms_ir.specs.{declared.syntax.Inst.{Inst}, declared.syntax.Name.{Name}};

use crate::table::NameTable;
use ms_bits::NoMemory;
use ms_ir::{Block, Inst, Name, Operand};
use std::alloc::Global;

/// The labels of the edges of a phi.
pub fn labels_of<'m>(alloc: Global, edges: &'m [(Operand, Name)]) -> Result<NameTable<'m>, NoMemory>
    ensures { IfOk result (λ names. names ≡ map (λ e. e.1) edges.now) }
{
    let mut names = NameTable::new(alloc);
    for edge in edges {
        names.push(&edge.1)?;
    }
    Ok(names)
}

/// A name that is picked out of each instruction that has it.
pub trait Pick {
    /// The name that is picked out of an instruction.
    ghost picked: { Self → Inst → Option Name };

    /// The name, if the instruction has it.
    fn pick<'m>(&self, inst: &'m Inst) -> Option<&'m Name>
        ensures { option_copied result ≡ picked self.now inst.now };
}

/// Appends the name of an instruction, if it has it.
fn push_picked<'m, P: Pick>(
    names: &mut NameTable<'m>,
    pick: &P,
    inst: &'m Inst,
) -> Result<(), NoMemory>
    ensures { IfOk result (λ _. names.new ≡ names.old ++ option_to_list (P.picked pick.now inst.now)) }
{
    match pick.pick(inst) {
        Some(name) => {
            names.push(name)?;
            Ok(())
        }
        None => Ok(()),
    }
}

/// Appends the names of instructions.
fn push_insts<'m, P: Pick>(
    names: &mut NameTable<'m>,
    pick: &P,
    insts: &'m [Inst],
) -> Result<(), NoMemory>
    ensures { IfOk result (λ _. names.new ≡ names.old ++ filter_map (P.picked pick.now) insts.now) }
{
    for inst in insts {
        push_picked(names, pick, inst)?;
    }
    Ok(())
}

/// Appends the names that are picked out of the instructions of blocks.
pub fn push_code<'m, P: Pick>(
    names: &mut NameTable<'m>,
    pick: &P,
    blocks: &'m [Block],
) -> Result<(), NoMemory>
    ensures { IfOk result (λ _. names.new ≡ names.old ++ flat_map (λ b. filter_map (P.picked pick.now) b.insts) blocks.now) }
{
    for block in blocks {
        push_insts(names, pick, block.insts.as_slice())?;
    }
    Ok(())
}
