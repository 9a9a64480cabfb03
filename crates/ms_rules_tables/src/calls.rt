//! Calls of runtime functions, and what they need of operands by their places.
ghost use Rattle.std.specs.Prelude.{◌≡◌, map, reverse, List, [], ◌∷◌, OnOk, None};
ghost use Rattle.ms_ir.specs.{declared.syntax.Ty.{Ty as TyOf, Int}, Layout.{width_of}, Signatures.{runtime_signature}};
ghost use Rattle.ms_pass_tasks.specs.{Environments.{tracked_at, is_zero}, Tasks.{Expr, Puts, Calls}};
ghost use Rattle.ms_rules_builder.specs.{Made.{with_tasks}, Steps.{tracked_of, words}};
ghost use Rattle.ms_rules_tables.specs.Plain.{plain};

use ms_bits::NoMemory;
use ms_ir::{Name, RuntimeFn};
use ms_rules_builder::{Builder, Inputs, StackOp, TrackedOperand};

/// The bits of the word of an operand by its place; 64 where there is none.
pub fn width_at(operands: &[TrackedOperand<'_>], place: usize) -> u8
    ensures { result ≡ width_of (tracked_at place (map tracked_of operands.now)).ty }
{
    if place < operands.len() {
        operands[place].width()
    } else {
        64
    }
}

/// Whether the mask of an operand by its place is known to be 0, as it is where there is none.
pub fn is_clean_at(operands: &[TrackedOperand<'_>], place: usize) -> bool
    ensures { result ≡ is_zero (tracked_at place (map tracked_of operands.now)).mask }
{
    if place < operands.len() {
        operands[place].is_clean()
    } else {
        true
    }
}

/// Calls a runtime function that returns nothing with the words that steps leave. `name` is the instruction's result, which steps
/// may use.
pub fn call(
    builder: &mut Builder,
    function: RuntimeFn,
    operands: &[TrackedOperand<'_>],
    name: &Option<Name>,
    steps: &[StackOp],
) -> Result<(), NoMemory>
    ensures { (args : List (TyOf × Expr)) → map (λ a. a.0) args ≡ (runtime_signature function).params → map (λ a. a.1) args ≡ reverse (words (plain (map tracked_of operands.now) name.now) steps.now []) → OnOk result (builder.new ≡ with_tasks builder.old (Calls None function args ∷ [])) }
{
    let inputs = Inputs::plain(operands, 0, name);
    builder.call(None, function, &inputs, steps)
}

/// Of the two words that steps leave, the first, of so many bits, is stored at the second.
pub fn store(
    builder: &mut Builder,
    width: u8,
    operands: &[TrackedOperand<'_>],
    steps: &[StackOp],
) -> Result<(), NoMemory>
    ensures { (value addr : Expr) → words (plain (map tracked_of operands.now) None) steps.now [] ≡ addr ∷ value ∷ [] → OnOk result (builder.new ≡ with_tasks builder.old (Puts (Int width) value addr ∷ [])) }
{
    let inputs = Inputs::plain(operands, 0, &None);
    builder.store(width, &inputs, steps)
}
