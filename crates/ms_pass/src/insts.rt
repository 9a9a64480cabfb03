//! The instrumented form of a block's instructions: each stands between its two lists. A function has at most 2^30 values
//! (`values`), whose inserted results are numbered; limits on texts keep them far fewer. The number of the next inserted result
//! stays below 2^40 (`room`).
ghost use Rattle.std.specs.Prelude.{◌≡◌, ◌<◌, ◌≤◌, ◌^◌, All, length, OnOk};
ghost use Rattle.ms_rules.specs.{Placed.{with_inst}, Scopes.{env_of, given_of}, Taken.{IsTaken}};
ghost use Rattle.ms_pass.specs.{Counted.{here_of, past_inst, past_insts, AreSmall}, Passed.{with_insts}};

use crate::counts::Counts;
use ms_bits::NoMemory;
use ms_check_tables::next_site;
use ms_ir::Inst;
use ms_rules::{Scope, push_inst};
use ms_rules_builder::Builder;

/// Adds an instruction between its lists. The counts become those after it.
fn push_next(
    builder: &mut Builder,
    scope: &Scope<'_, '_>,
    counts: &mut Counts,
    inst: &Inst,
) -> Result<(), NoMemory>
    requires values { length scope.now.values.now ≤ 2 ^ 30 }
    requires taken { IsTaken (given_of scope.now).types inst.now }
    requires small { AreSmall (past_inst (given_of scope.now).func counts.old inst.now) }
    requires room { builder.old.next < 2 ^ 40 }
    ensures code { OnOk result (builder.new ≡ with_inst (given_of scope.now) (env_of scope.now) (here_of counts.old scope.now.main) inst.now builder.old) }
    ensures counts { OnOk result (counts.new ≡ past_inst (given_of scope.now).func counts.old inst.now) }
{
    let roots = push_inst(builder, scope, counts.site, counts.roots, inst)?;
    counts.site = next_site(counts.site, inst);
    counts.roots += roots;
    Ok(())
}

/// Adds instructions, each between its lists. The counts become those after them.
pub fn push_insts(
    builder: &mut Builder,
    scope: &Scope<'_, '_>,
    counts: &mut Counts,
    insts: &[Inst],
) -> Result<(), NoMemory>
    requires values { length scope.now.values.now ≤ 2 ^ 30 }
    requires taken { All (IsTaken (given_of scope.now).types) insts.now }
    requires small { AreSmall (past_insts (given_of scope.now).func counts.old insts.now) }
    requires room { (with_insts (given_of scope.now) (env_of scope.now) (here_of counts.old scope.now.main) insts.now builder.old).next < 2 ^ 40 }
    ensures code { OnOk result (builder.new ≡ with_insts (given_of scope.now) (env_of scope.now) (here_of counts.old scope.now.main) insts.now builder.old) }
    ensures counts { OnOk result (counts.new ≡ past_insts (given_of scope.now).func counts.old insts.now) }
{
    for inst in insts {
        push_next(builder, scope, counts, inst)?;
    }
    Ok(())
}
