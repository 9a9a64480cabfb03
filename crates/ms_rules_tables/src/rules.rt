//! Runs a rule and gives its word a name: the mask of a value, or its origin. `words inputs rule []` are the words that a rule
//! leaves on an empty stack, and `with_tasks` is the builder with the instructions of these tasks added.
ghost use Rattle.std.specs.Prelude.{◌≡◌, true, [], ◌∷◌, OnOk};
ghost use Rattle.ms_ir.specs.declared.syntax.Ty.{Int};
ghost use Rattle.ms_pass_tasks.specs.Tasks.{Expr, Sets, Tries, mask_name as mask_name_of, origin_name as origin_name_of};
ghost use Rattle.ms_rules_builder.specs.{Made.{with_tasks}, Steps.{inputs_of, words}};
ghost use Rattle.ms_rules_tables.specs.Rules.{is_rule};

use ms_bits::{BinOp, NoMemory};
use ms_ir::Name;
use ms_rules_builder::{Builder, Inputs, StackOp, mask_name, origin_name};

/// An inserted result with a name and a width gets the word of a rule, which is one step or ends in an operation.
fn set(
    builder: &mut Builder,
    name: Name,
    width: u8,
    inputs: &Inputs<'_>,
    rule: &[StackOp],
) -> Result<(), NoMemory>
    requires { is_rule rule.now ≡ true }
    ensures { (e : Expr) → words (inputs_of inputs.now) rule.now [] ≡ e ∷ [] → OnOk result (builder.new ≡ with_tasks builder.old (Sets name (Int width) e ∷ [])) }
{
    match rule {
        [leaf] => builder.set_leaf(name, width, inputs, *leaf),
        [steps @ .., last] => builder.set(name, width, inputs, steps, *last),
        [] => unreachable!(),
    }
}

/// The origin of a value gets the word of a rule.
pub fn set_origin(
    builder: &mut Builder,
    value: u32,
    inputs: &Inputs<'_>,
    rule: &[StackOp],
) -> Result<(), NoMemory>
    requires { is_rule rule.now ≡ true }
    ensures { (e : Expr) → words (inputs_of inputs.now) rule.now [] ≡ e ∷ [] → OnOk result (builder.new ≡ with_tasks builder.old (Sets (origin_name_of value) (Int 32) e ∷ [])) }
{
    let name = origin_name(builder.alloc(), value as u64)?;
    set(builder, name, 32, inputs, rule)
}

/// The mask of a value, of a width, gets the word of a rule.
pub fn set_mask(
    builder: &mut Builder,
    value: u32,
    width: u8,
    inputs: &Inputs<'_>,
    rule: &[StackOp],
) -> Result<(), NoMemory>
    requires { is_rule rule.now ≡ true }
    ensures { (e : Expr) → words (inputs_of inputs.now) rule.now [] ≡ e ∷ [] → OnOk result (builder.new ≡ with_tasks builder.old (Sets (mask_name_of value) (Int width) e ∷ [])) }
{
    let name = mask_name(builder.alloc(), value as u64)?;
    set(builder, name, width, inputs, rule)
}

/// The mask of a value, of a width, gets what an operation that may trap, as a shift, makes of the two words that steps leave.
pub fn attempt_mask(
    builder: &mut Builder,
    value: u32,
    op: BinOp,
    width: u8,
    inputs: &Inputs<'_>,
    steps: &[StackOp],
) -> Result<(), NoMemory>
    ensures { (a b : Expr) → words (inputs_of inputs.now) steps.now [] ≡ b ∷ a ∷ [] → OnOk result (builder.new ≡ with_tasks builder.old (Tries (mask_name_of value) op (Int width) a b ∷ [])) }
{
    let name = mask_name(builder.alloc(), value as u64)?;
    builder.attempt(name, op, width, inputs, steps)
}
