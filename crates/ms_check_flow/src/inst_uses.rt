//! The uses of values by one instruction, as `ms_flow` asks about them: by the numbers of block and value.
ghost use Rattle.std.specs.Prelude.{◌≡◌, ◌++◌, flat_map, map, option_to_list, slice_get, OnOk};
ghost use Rattle.ms_ir.specs.Instructions.{operands};
ghost use Rattle.ms_check_flow.specs.Noted.{value_here, operand_here, edge_here, op_here};

use crate::numbers::Numbers;
use crate::phis::phi_edges;
use ms_bits::NoMemory;
use ms_check_tables::{NameTable, name_place};
use ms_flow::Use;
use ms_ir::{Name, Op, Operand};

/// A use of a value that is no parameter.
#[derive(Clone, Copy)]
pub struct NotedUse {
    /// The site of the instruction that uses it.
    pub site: u32,
    /// The block and the value by their numbers. A phi's operand is used at the end of the block that it names.
    pub place: Use,
}

/// Where an instruction stands that uses values.
#[derive(Drop)]
pub struct UseSite<'a, 'm> {
    /// The numbers of its function.
    pub numbers: &'a Numbers<'m>,
    /// The results of the instructions before it in its block.
    pub seen: &'a NameTable<'m>,
    /// The number of its block.
    pub block: u32,
    /// Its site.
    pub site: u32,
}

impl UseSite<'_, '_> {
    /// Notes the use of a value in a block, unless it is a parameter. `after`: behind the definition in this block, if it has one.
    fn note(
        &self,
        block: u32,
        after: bool,
        name: &Name,
        noted: &mut Vec<NotedUse>,
    ) -> Result<(), NoMemory>
        ensures { OnOk result (noted.new.items ≡ noted.old.items ++ value_here self.now block after name.now) }
    {
        if self.numbers.parameters.contains(name) {
            return Ok(());
        }
        let value = name_place(&self.numbers.values, name);
        noted.push(NotedUse {
            site: self.site,
            place: Use {
                block,
                value,
                after,
            },
        })?;
        Ok(())
    }

    /// Notes the use that an operand is, if it is a local.
    fn note_operand(&self, operand: &Operand, noted: &mut Vec<NotedUse>) -> Result<(), NoMemory>
        ensures { OnOk result (noted.new.items ≡ noted.old.items ++ operand_here self.now operand.now) }
    {
        match operand {
            Operand::Local(name) => self.note(self.block, self.seen.contains(name), name, noted),
            _ => Ok(()),
        }
    }

    /// Notes the use that the operand with a place is, if there is one there and it is a local.
    fn note_at(&self, op: &Op, k: usize, noted: &mut Vec<NotedUse>) -> Result<(), NoMemory>
        ensures { OnOk result (noted.new.items ≡ noted.old.items ++ flat_map (operand_here self.now) (option_to_list (slice_get (map (λ a. a.1) (operands op.now)) k))) }
    {
        match op.operand(k) {
            Some(operand) => self.note_operand(operand, noted),
            None => Ok(()),
        }
    }

    /// Notes the uses that the operands of an instruction are.
    fn note_operands(&self, op: &Op, noted: &mut Vec<NotedUse>) -> Result<(), NoMemory>
        ensures { OnOk result (noted.new.items ≡ noted.old.items ++ flat_map (operand_here self.now) (map (λ a. a.1) (operands op.now))) }
    {
        for k in 0..op.operand_count() {
            self.note_at(op, k, noted)?;
        }
        Ok(())
    }

    /// Notes the use that a phi's operand is, if it is a local.
    fn note_edge(&self, edge: &(Operand, Name), noted: &mut Vec<NotedUse>) -> Result<(), NoMemory>
        ensures { OnOk result (noted.new.items ≡ noted.old.items ++ edge_here self.now edge.now) }
    {
        match &edge.0 {
            Operand::Local(name) => {
                let from = name_place(&self.numbers.blocks, &edge.1);
                self.note(from, true, name, noted)
            }
            _ => Ok(()),
        }
    }

    /// Notes the uses that a phi's operands are.
    fn note_edges(
        &self,
        edges: &[(Operand, Name)],
        noted: &mut Vec<NotedUse>,
    ) -> Result<(), NoMemory>
        ensures { OnOk result (noted.new.items ≡ noted.old.items ++ flat_map (edge_here self.now) edges.now) }
    {
        for edge in edges {
            self.note_edge(edge, noted)?;
        }
        Ok(())
    }

    /// Notes the uses of an instruction, in written order.
    pub fn note_op(&self, op: &Op, noted: &mut Vec<NotedUse>) -> Result<(), NoMemory>
        ensures { OnOk result (noted.new.items ≡ noted.old.items ++ op_here self.now op.now) }
    {
        match phi_edges(op) {
            Some(edges) => self.note_edges(edges, noted),
            None => self.note_operands(op, noted),
        }
    }
}
