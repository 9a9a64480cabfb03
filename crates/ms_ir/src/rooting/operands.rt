//! Undefined operands: roots of a module.
ghost use Rattle.std.specs.Prelude.{◌≡◌, ◌++◌, map, flat_map, option_to_list, slice_get, IfOk};
ghost use Rattle.ms_ir.specs.{Instructions.{operands as operands_of}, Roots.{undef_roots}, Rooted.{operand_roots}};

use crate::{Op, Operand, Root, RootKind};
use ms_bits::NoMemory;

/// Adds the root that an operand of the instruction at a site is, if it is undefined.
fn push_operand(roots: &mut Vec<Root>, site: u32, operand: &Operand) -> Result<(), NoMemory>
    ensures { IfOk result (λ _. roots.new.items ≡ roots.old.items ++ operand_roots site operand.now) }
{
    match operand {
        Operand::Undef => roots.push(Root {
            kind: RootKind::Undef,
            site,
        })?,
        Operand::Poison => roots.push(Root {
            kind: RootKind::Undef,
            site,
        })?,
        _ => {}
    }
    Ok(())
}

/// Adds the root that the operand with a place is, if there is one there and it is undefined.
fn push_at(roots: &mut Vec<Root>, site: u32, op: &Op, k: usize) -> Result<(), NoMemory>
    ensures { IfOk result (λ _. roots.new.items ≡ roots.old.items ++ flat_map (operand_roots site) (option_to_list (slice_get (map (λ o. o.1) (operands_of op.now)) k))) }
{
    match op.operand(k) {
        Some(operand) => push_operand(roots, site, operand),
        None => Ok(()),
    }
}

/// Adds the roots that the operands of an instruction at a site are, in written order.
pub fn push_operands(roots: &mut Vec<Root>, site: u32, op: &Op) -> Result<(), NoMemory>
    ensures { IfOk result (λ _. roots.new.items ≡ roots.old.items ++ undef_roots site (operands_of op.now)) }
{
    for k in 0..op.operand_count() {
        push_at(roots, site, op, k)?;
    }
    Ok(())
}
