//! Instructions of the program, which stand in its instrumented form as they are.
ghost use Rattle.std.specs.Prelude.{◌≡◌, OnOk};
ghost use Rattle.ms_rules.specs.Placed.{with_one};

use ms_bits::{Duplicate, NoMemory};
use ms_ir::Inst;
use ms_rules_builder::Builder;

/// Adds a copy of an instruction.
pub fn push_copy(builder: &mut Builder, inst: &Inst) -> Result<(), NoMemory>
    ensures { OnOk result (builder.new ≡ with_one builder.old inst.now) }
{
    let copy = inst.copy(builder.alloc())?;
    builder.push(copy)
}
