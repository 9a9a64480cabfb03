//! The instrumented form of blocks, one after the other, with the number of the next inserted result, which stays below 2^40
//! (`room`). A function has at most 2^30 values (`values`), whose inserted results are numbered; limits on texts keep them far
//! fewer.
ghost use Rattle.std.specs.Prelude.{◌≡◌, ◌+◌, ◌++◌, [], ◌∷◌, ◌<◌, ◌≤◌, ◌^◌, All, length, IfOk, OnOk};
ghost use Rattle.ms_ir.specs.Instructions.{over_blocks};
ghost use Rattle.ms_check_valid.specs.Formed.{count_written};
ghost use Rattle.ms_rules.specs.{Scopes.{env_of, given_of}, Taken.{IsTaken}};
ghost use Rattle.ms_pass.specs.{Counted.{here_of, past_insts, past_blocks, AreSmall}, Passed.{with_insts, with_blocks}};

use crate::counts::Counts;
use crate::insts::push_insts;
use ms_bits::{Duplicate, List, NoMemory};
use ms_ir::Block;
use ms_rules::Scope;
use ms_rules_builder::Builder;
use std::alloc::Global;

/// Adds the instrumented form of a block, whose first instructions are in `start`, and returns what the next one begins with: no
/// code, and the number of the next inserted result. The counts become those after it.
fn push_block(
    alloc: Global,
    done: &mut Vec<Block>,
    scope: &Scope<'_, '_>,
    counts: &mut Counts,
    start: Builder,
    block: &Block,
) -> Result<Builder, NoMemory>
    requires values { length scope.now.values.now ≤ 2 ^ 30 }
    requires taken { All (IsTaken (given_of scope.now).types) block.now.insts }
    requires small { AreSmall (past_insts (given_of scope.now).func counts.old block.now.insts) }
    requires room { (with_insts (given_of scope.now) (env_of scope.now) (here_of counts.old scope.now.main) block.now.insts start).next < 2 ^ 40 }
    ensures block { OnOk result (done.new.items ≡ done.old.items ++ record block.now { insts = (with_insts (given_of scope.now) (env_of scope.now) (here_of counts.old scope.now.main) block.now.insts start).code } ∷ []) }
    ensures next { IfOk result (λ c. c ≡ record { code = []; next = (with_insts (given_of scope.now) (env_of scope.now) (here_of counts.old scope.now.main) block.now.insts start).next }) }
    ensures counts { OnOk result (counts.new ≡ past_insts (given_of scope.now).func counts.old block.now.insts) }
{
    let mut builder = start;
    push_insts(&mut builder, scope, counts, block.insts.as_slice())?;
    let next = builder.next();
    let name = block.name.copy(alloc)?;
    let insts = List::from_vec(builder.into_insts());
    done.push(Block { name, insts })?;
    Ok(Builder::new(alloc, next))
}

/// The instrumented form of a function's blocks; the first begins with the code in `start`, which takes over what parameters were
/// handed. The counts become those after them.
pub fn passed_blocks(
    alloc: Global,
    scope: &Scope<'_, '_>,
    counts: &mut Counts,
    start: Builder,
    blocks: &[Block],
) -> Result<List<Block>, NoMemory>
    requires values { length scope.now.values.now ≤ 2 ^ 30 }
    requires taken { All (λ b. All (IsTaken (given_of scope.now).types) b.insts) blocks.now }
    requires small { AreSmall (past_blocks (given_of scope.now).func counts.old blocks.now) }
    requires room { start.next + over_blocks count_written (with_blocks (given_of scope.now) (env_of scope.now) (here_of counts.old scope.now.main) blocks.now start) < 2 ^ 40 }
    ensures blocks { IfOk result (λ bs. bs ≡ with_blocks (given_of scope.now) (env_of scope.now) (here_of counts.old scope.now.main) blocks.now start) }
    ensures counts { OnOk result (counts.new ≡ past_blocks (given_of scope.now).func counts.old blocks.now) }
{
    let mut done = Vec::with_capacity(alloc, blocks.len())?;
    let mut builder = start;
    for block in blocks {
        builder = push_block(alloc, &mut done, scope, counts, builder, block)?;
    }
    Ok(List::from_vec(done))
}
