//! Reads instructions after their first word (LLVM Language Reference, "Instruction Reference"), and adds them to the body.
//! `name` is the name of the result, where one stands in front, and is taken by the instruction.

ghost use Rattle.std.specs.Prelude.{◌≡◌, ◌<◌, ◌+◌, ◌^◌};
ghost use Rattle.ms_text_grammar.specs.Insts.{alloca_rule as alloca_piece, gep_rule as gep_piece};
ghost use Rattle.ms_text_grammar.specs.Lines as spec;
ghost use Rattle.ms_read_cursor.specs.Reading.{Leaves, run};
ghost use Rattle.ms_read_body.specs.Operations.{effect_rule, value_rule};
ghost use Rattle.ms_read_body.specs.Words as words;

use crate::body_state::{add_call, add_effect, add_end, add_value};
use crate::open_blocks::is_open;
use crate::operation_rules::{EffectIn, EffectOperation, ValueIn, ValueOperation};
use ms_ir::{Form, Name};
use ms_read_cursor::Tokens;
use ms_read_insts::{alloca_rule, call_rule, gep_rule, phi_rule, with_suffixes};
use ms_read_values::{binary_op, cast_op};
use ms_text_grammar::{BodySoFar, Cause, Symbol};

/// Reads an instruction with a result that takes any suffix, and adds it to the body.
#[tactic(auto, unfolding(ms_text_grammar::specs::Lines::value_line))]
fn value_line(
    tokens: &mut Tokens<'_>,
    form: Form,
    body: &mut BodySoFar,
    name: &mut Option<Name>,
    operation: ValueOperation,
) -> Result<(), Cause>
    requires next { body.old.next + 1 < 2 ^ 32 }
    requires count { body.old.count + 1 < 2 ^ 32 }
    ensures { Leaves (run (spec.value_line form body.old name.old (value_rule form operation)) tokens.old) result body.new tokens.new }
{
    let read = with_suffixes(tokens, form, &ValueIn { form, operation })?;
    Ok(add_value(tokens.alloc(), body, name, false, read)?)
}

/// Reads an `alloca`, and adds it to the body.
#[tactic(auto, unfolding(ms_text_grammar::specs::Lines::marked_line))]
fn alloca_line(
    tokens: &mut Tokens<'_>,
    form: Form,
    body: &mut BodySoFar,
    name: &mut Option<Name>,
) -> Result<(), Cause>
    requires next { body.old.next + 1 < 2 ^ 32 }
    requires count { body.old.count + 1 < 2 ^ 32 }
    ensures { Leaves (run (spec.marked_line body.old name.old (alloca_piece form)) tokens.old) result body.new tokens.new }
{
    let read = alloca_rule(tokens, form)?;
    Ok(add_value(tokens.alloc(), body, name, false, read)?)
}

/// Reads a `getelementptr`, and adds it to the body.
#[tactic(auto, unfolding(ms_text_grammar::specs::Lines::marked_line))]
fn gep_line(
    tokens: &mut Tokens<'_>,
    form: Form,
    body: &mut BodySoFar,
    name: &mut Option<Name>,
) -> Result<(), Cause>
    requires next { body.old.next + 1 < 2 ^ 32 }
    requires count { body.old.count + 1 < 2 ^ 32 }
    ensures { Leaves (run (spec.marked_line body.old name.old (gep_piece form)) tokens.old) result body.new tokens.new }
{
    let read = gep_rule(tokens, form)?;
    Ok(add_value(tokens.alloc(), body, name, false, read)?)
}

/// Reads a phi, after which another may stand, and adds it to the body.
#[tactic(auto, unfolding(ms_text_grammar::specs::Lines::phi_line))]
fn phi_line(
    tokens: &mut Tokens<'_>,
    form: Form,
    body: &mut BodySoFar,
    name: &mut Option<Name>,
) -> Result<(), Cause>
    requires next { body.old.next + 1 < 2 ^ 32 }
    requires count { body.old.count + 1 < 2 ^ 32 }
    ensures { Leaves (run (spec.phi_line form body.old name.old) tokens.old) result body.new tokens.new }
{
    let read = phi_rule(tokens, form)?;
    Ok(add_value(tokens.alloc(), body, name, true, read)?)
}

/// Reads a call, whose reader must know whether a name stands in front, and adds it to the body.
#[tactic(auto, unfolding(ms_text_grammar::specs::Lines::call_line))]
fn call_line(
    tokens: &mut Tokens<'_>,
    form: Form,
    body: &mut BodySoFar,
    name: &mut Option<Name>,
    first: Symbol,
) -> Result<(), Cause>
    requires next { body.old.next + 1 < 2 ^ 32 }
    requires count { body.old.count + 1 < 2 ^ 32 }
    ensures { Leaves (run (spec.call_line form body.old name.old first) tokens.old) result body.new tokens.new }
{
    let named = is_open(name);
    let read = call_rule(tokens, form, named, first)?;
    Ok(add_call(tokens.alloc(), body, name, read)?)
}

/// Reads an instruction without a result that ends no block, and adds it to the body.
#[tactic(auto, unfolding(ms_text_grammar::specs::Lines::effect_line))]
fn effect_line(
    tokens: &mut Tokens<'_>,
    form: Form,
    body: &mut BodySoFar,
    operation: EffectOperation,
) -> Result<(), Cause>
    requires { body.old.count + 1 < 2 ^ 32 }
    ensures { Leaves (run (spec.effect_line form body.old (effect_rule form operation)) tokens.old) result body.new tokens.new }
{
    let read = with_suffixes(tokens, form, &EffectIn { form, operation })?;
    Ok(add_effect(tokens.alloc(), body, read)?)
}

/// Reads a terminator, adds it to the body, and ends the block.
#[tactic(auto, unfolding(ms_text_grammar::specs::Lines::end_line))]
fn end_line(
    tokens: &mut Tokens<'_>,
    form: Form,
    body: &mut BodySoFar,
    operation: EffectOperation,
) -> Result<(), Cause>
    requires { body.old.count + 1 < 2 ^ 32 }
    ensures { Leaves (run (spec.end_line form body.old (effect_rule form operation)) tokens.old) result body.new tokens.new }
{
    let read = with_suffixes(tokens, form, &EffectIn { form, operation })?;
    Ok(add_end(tokens.alloc(), body, read)?)
}

/// The operation that a word stands for, where it has a result and takes any suffix.
fn value_operation(symbol: Symbol) -> Option<ValueOperation>
    ensures { result ≡ words.value_operation symbol }
{
    match symbol {
        Symbol::Icmp => Some(ValueOperation::Compare),
        Symbol::Select => Some(ValueOperation::Select),
        Symbol::Freeze => Some(ValueOperation::Freeze),
        Symbol::Load => Some(ValueOperation::Load),
        _ => None,
    }
}

/// The terminator that a word stands for.
fn end_operation(symbol: Symbol) -> Option<EffectOperation>
    ensures { result ≡ words.end_operation symbol }
{
    match symbol {
        Symbol::Br => Some(EffectOperation::Branch),
        Symbol::Switch => Some(EffectOperation::Switch),
        Symbol::Ret => Some(EffectOperation::Ret),
        Symbol::Unreachable => Some(EffectOperation::Unreachable),
        _ => None,
    }
}

/// Reads an instruction after a word that names none of those above: a phi, an `alloca`, a `store`, a `getelementptr` or a call.
fn further_instruction(
    tokens: &mut Tokens<'_>,
    form: Form,
    body: &mut BodySoFar,
    name: &mut Option<Name>,
    symbol: Symbol,
) -> Result<(), Cause>
    requires next { body.old.next + 1 < 2 ^ 32 }
    requires count { body.old.count + 1 < 2 ^ 32 }
    ensures { Leaves (run (words.further_instruction form body.old name.old symbol) tokens.old) result body.new tokens.new }
{
    match symbol {
        Symbol::Phi => phi_line(tokens, form, body, name),
        Symbol::Alloca => alloca_line(tokens, form, body, name),
        Symbol::Store => effect_line(tokens, form, body, EffectOperation::Store),
        Symbol::GetElementPtr => gep_line(tokens, form, body, name),
        Symbol::Tail | Symbol::MustTail | Symbol::NoTail | Symbol::Call => {
            call_line(tokens, form, body, name, symbol)
        }
        _ => Err(tokens.refusal()),
    }
}

/// Reads an instruction after a word that names no binary operation and no cast.
#[tactic(auto, using(crate::proofs::Words::by_value, crate::proofs::Words::by_end, crate::proofs::Words::by_further))]
fn instruction_by(
    tokens: &mut Tokens<'_>,
    form: Form,
    body: &mut BodySoFar,
    name: &mut Option<Name>,
    symbol: Symbol,
) -> Result<(), Cause>
    requires next { body.old.next + 1 < 2 ^ 32 }
    requires count { body.old.count + 1 < 2 ^ 32 }
    ensures { Leaves (run (spec.instruction_by form body.old name.old symbol) tokens.old) result body.new tokens.new }
{
    if let Some(operation) = value_operation(symbol) {
        return value_line(tokens, form, body, name, operation);
    }
    match end_operation(symbol) {
        Some(operation) => end_line(tokens, form, body, operation),
        None => further_instruction(tokens, form, body, name, symbol),
    }
}

/// Reads an instruction after its first word, and adds it to the body. Its result takes this name, or else the next number.
///
/// # Errors
///
/// At the first token that can't stand, those of the instruction's reader.
#[tactic(auto, unfolding(ms_text_grammar::specs::Lines::instruction))]
pub fn instruction(
    tokens: &mut Tokens<'_>,
    form: Form,
    body: &mut BodySoFar,
    name: &mut Option<Name>,
    symbol: Symbol,
) -> Result<(), Cause>
    requires next { body.old.next + 1 < 2 ^ 32 }
    requires count { body.old.count + 1 < 2 ^ 32 }
    ensures { Leaves (run (spec.instruction form body.old name.old symbol) tokens.old) result body.new tokens.new }
{
    if let Some(op) = binary_op(symbol) {
        return value_line(tokens, form, body, name, ValueOperation::Binary(op));
    }
    match cast_op(symbol) {
        Some(op) => value_line(tokens, form, body, name, ValueOperation::Cast(op)),
        None => instruction_by(tokens, form, body, name, symbol),
    }
}
