//! The blocks to which an instruction may go, by their numbers: for the graphs of `ms_check_flow`.
ghost use Rattle.std.specs.Prelude.{◌≡◌, ◌++◌, [], ◌∷◌, map, option_to_list, slice_get, OnOk};
ghost use Rattle.ms_check_valid.specs.FlowGraph.{name_place};
ghost use Rattle.ms_ir.specs.Written.{targets};

use crate::Names;
use crate::numbers::name_place;
use ms_bits::NoMemory;
use ms_ir::{Name, Op};

/// Adds the number that a name has among `names`, of a block or value.
pub fn push_number(names: &Names<'_>, name: &Name, numbers: &mut Vec<u32>) -> Result<(), NoMemory>
    ensures { OnOk result (numbers.new.items ≡ numbers.old.items ++ name_place names.now name.now ∷ []) }
{
    numbers.push(name_place(names, name))?;
    Ok(())
}

/// Adds the number of the block with a place among those to which an instruction may go, if there is one.
fn push_target(
    blocks: &Names<'_>,
    op: &Op,
    place: usize,
    numbers: &mut Vec<u32>,
) -> Result<(), NoMemory>
    ensures { OnOk result (numbers.new.items ≡ numbers.old.items ++ map (name_place blocks.now) (option_to_list (slice_get (targets op.now) place))) }
{
    match op.target(place) {
        Some(to) => push_number(blocks, to, numbers),
        None => Ok(()),
    }
}

/// Adds the numbers of the blocks to which an instruction may go, once for each edge, in written order.
pub fn push_targets(blocks: &Names<'_>, op: &Op, numbers: &mut Vec<u32>) -> Result<(), NoMemory>
    ensures { OnOk result (numbers.new.items ≡ numbers.old.items ++ map (name_place blocks.now) (targets op.now)) }
{
    for place in 0..op.target_count() {
        push_target(blocks, op, place, numbers)?;
    }
    Ok(())
}
