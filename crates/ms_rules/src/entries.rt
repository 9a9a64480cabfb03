//! What a function begins with: it takes over the masks and origins of its parameters. A function has at most 2^30 values, a
//! bound far above the limits on a text, so that their numbers can be doubled.
ghost use Rattle.std.specs.Prelude.{◌≡◌, ◌≤◌, ◌^◌, length, OnOk};
ghost use Rattle.ms_pass_tasks.specs.SlotTasks.{param_mask, param_origin, take_value, take_parameters};
ghost use Rattle.ms_rules_builder.specs.Made.{with_tasks};
ghost use Rattle.ms_rules.specs.Scopes.{env_of};

use crate::scopes::Scope;
use ms_bits::NoMemory;
use ms_ir::{Name, Ty};
use ms_rules_builder::Builder;
use ms_slots::fetch_parameter;

/// Adds what takes over the mask and the origin of the parameter with a place, from 0, from their slots.
#[tactic(auto, using(crate::proofs::Adding::none_with))]
fn push_parameter(
    builder: &mut Builder,
    scope: &Scope<'_, '_>,
    place: usize,
    param: &(Ty, Name),
) -> Result<(), NoMemory>
    requires few { length scope.now.values.now ≤ 2 ^ 30 }
    ensures { OnOk result (builder.new ≡ with_tasks builder.old (take_value (env_of scope.now) (param_mask place) (param_origin place) param.now.1 param.now.0)) }
{
    match scope.number(&param.1) {
        Some(value) => fetch_parameter(builder, place as u64, value, &param.0),
        None => Ok(()),
    }
}

/// Adds what takes over the masks and origins of parameters.
pub fn push_parameters(
    builder: &mut Builder,
    scope: &Scope<'_, '_>,
    params: &[(Ty, Name)],
) -> Result<(), NoMemory>
    requires few { length scope.now.values.now ≤ 2 ^ 30 }
    ensures { OnOk result (builder.new ≡ with_tasks builder.old (take_parameters (env_of scope.now) 0 params.now)) }
{
    for (place, param) in params.iter().enumerate() {
        push_parameter(builder, scope, place, param)?;
    }
    Ok(())
}
