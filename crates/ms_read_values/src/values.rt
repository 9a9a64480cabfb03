//! Reads values by the type in front of them (LLVM Language Reference, "Constants").

ghost use Rattle.std.specs.Prelude.{◌≡◌, ◌≢◌, Some};
ghost use Rattle.ms_text_grammar.specs.Types as types;
ghost use Rattle.ms_text_grammar.specs.Values as spec;
ghost use Rattle.ms_read_cursor.specs.Reading.{Gives, Judges, run};

use crate::numbers::number_by;
use crate::offsets::offset;
use crate::operations::begins_expression;
use crate::value_types::ScalarType;
use ms_bits::Boxed;
use ms_ir::{Form, Operand, Ty};
use ms_read_cursor::{Lexeme, Tokens, global_by, local_by};
use ms_text_grammar::{Cause, Outside, Symbol};
use std::alloc::Global;

/// The number that a token spells, after an integer type of this width; none is one after a width that no type has.
fn int_of(width: u8, token: &Lexeme<'_>) -> Result<Operand, Cause>
    ensures { Judges (spec.int_value (Some width) token.now) result }
{
    if width >= 1 && width <= 64 {
        Ok(Operand::Int(number_by(width, token)?))
    } else {
        Err(token.refusal())
    }
}

/// The number that a token spells, after `iN` alone.
fn int_value(ty: &Ty, token: &Lexeme<'_>) -> Result<Operand, Cause>
    ensures { Judges (spec.int_value (types.int_width ty.now) token.now) result }
{
    match ty {
        Ty::Int(width) => int_of(*width, token),
        _ => Err(token.refusal()),
    }
}

/// `true` or `false`, which is `bit`, after `i1` alone.
fn truth_value(ty: &Ty, bit: u64, token: &Lexeme<'_>) -> Result<Operand, Cause>
    ensures { Judges (spec.truth_value ty.now bit token.now) result }
{
    match ty {
        Ty::Int(width) => {
            if *width == 1 {
                Ok(Operand::Int(bit))
            } else {
                Err(token.refusal())
            }
        }
        _ => Err(token.refusal()),
    }
}

/// `null`, after `ptr` alone.
fn null_value(ty: &Ty, token: &Lexeme<'_>) -> Result<Operand, Cause>
    ensures { Judges (spec.null_value ty.now token.now) result }
{
    match ty {
        Ty::Ptr => Ok(Operand::Null),
        _ => Err(token.refusal()),
    }
}

/// A local, which is no constant: only where locals may stand.
fn local_value(
    alloc: Global,
    form: Form,
    locals: bool,
    token: &Lexeme<'_>,
) -> Result<Operand, Cause>
    ensures { Judges (spec.local_value form locals token.now) result }
{
    if locals {
        Ok(Operand::Local(local_by(alloc, form, token)?))
    } else {
        Err(token.refusal())
    }
}

/// Why a token is no value.
fn no_value(token: &Lexeme<'_>) -> Cause
    ensures value { result ≡ spec.no_value token.now.symbol token.now }
    ensures real { result ≢ Cause.NoMemory }
{
    if begins_expression(token.symbol()) {
        Cause::Outside(Outside::ConstantExpression)
    } else {
        token.refusal()
    }
}

/// The value that one token is. `locals` says whether a local may stand.
///
/// # Errors
///
/// `Outside(ConstantExpression)` where it names an operation.
pub fn simple_of(
    alloc: Global,
    form: Form,
    locals: bool,
    ty: &Ty,
    token: &Lexeme<'_>,
) -> Result<Operand, Cause>
    ensures { Judges (spec.simple_by form locals ty.now token.now.symbol token.now) result }
{
    match token.symbol() {
        Symbol::Number => int_value(ty, token),
        Symbol::True => truth_value(ty, 1, token),
        Symbol::False => truth_value(ty, 0, token),
        Symbol::Null => null_value(ty, token),
        Symbol::Undef => Ok(Operand::Undef),
        Symbol::Poison => Ok(Operand::Poison),
        Symbol::Local | Symbol::NumberedLocal => local_value(alloc, form, locals, token),
        Symbol::Global => Ok(Operand::Global(global_by(alloc, form, token)?)),
        _ => Err(no_value(token)),
    }
}

/// Takes the value that one token is. `locals` says whether a local may stand.
#[tactic(auto, unfolding(ms_text_grammar::specs::Values::simple_value))]
fn simple_value(
    tokens: &mut Tokens<'_>,
    form: Form,
    locals: bool,
    ty: &Ty,
) -> Result<Operand, Cause>
    ensures { Gives (run (spec.simple_value form locals ty.now) tokens.old) result tokens.new }
{
    let value = simple_of(tokens.alloc(), form, locals, ty, &tokens.lexeme())?;
    tokens.advance();
    Ok(value)
}

/// Takes a value of this type, in which at most `depth` arrays and structs may still open.
#[tactic(auto, unfolding(ms_text_grammar::specs::Values::value_within))]
pub fn value_within(
    tokens: &mut Tokens<'_>,
    form: Form,
    depth: u8,
    locals: bool,
    ty: &Ty,
) -> Result<Operand, Cause>
    ensures { Gives (run (spec.value_within form depth locals ty.now) tokens.old) result tokens.new }
{
    match tokens.peek() {
        Symbol::GetElementPtr => {
            tokens.advance();
            offset(tokens, form, depth)
        }
        _ => simple_value(tokens, form, locals, ty),
    }
}

/// Takes a value of any type, where a local may stand. In a constant address 32 arrays and structs may open.
pub fn operand(tokens: &mut Tokens<'_>, form: Form, ty: &Ty) -> Result<Operand, Cause>
    ensures { Gives (run (spec.value form ty.now) tokens.old) result tokens.new }
{
    value_within(tokens, form, 32, true, ty)
}

/// Takes a value of any type, where a local may stand, onto the heap.
fn boxed_operand(tokens: &mut Tokens<'_>, form: Form, ty: &Ty) -> Result<Boxed<Operand>, Cause>
    ensures { Gives (run (spec.value form ty.now) tokens.old) result tokens.new }
{
    let operand = operand(tokens, form, ty)?;
    Ok(Boxed::new(tokens.alloc(), operand)?)
}

/// Takes an operand of an instruction, after its type.
pub fn value(tokens: &mut Tokens<'_>, form: Form, ty: ScalarType) -> Result<Boxed<Operand>, Cause>
    ensures { Gives (run (spec.value form ty) tokens.old) result tokens.new }
{
    boxed_operand(tokens, form, &ty.ty())
}
