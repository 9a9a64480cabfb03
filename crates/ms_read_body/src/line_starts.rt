//! Which token begins a line of a body, and what refuses it there. A verdict is whether a token begins one, or why it can't
//! stand; each test passes on the one it is given, unless it refuses.

ghost use Rattle.std.specs.Prelude.{◌≡◌, ◌⊎◌, Ok, true};
ghost use Rattle.ms_text_grammar.specs.Bodies as spec;
ghost use Rattle.ms_text_grammar.specs.Lexemes.{name_in};
ghost use Rattle.ms_read_cursor.specs.Reading.{Judges, front};

use crate::open_blocks::{is_open, may_phi, next_value};
use ms_ir::Form;
use ms_read_cursor::{Lexeme, Tokens, name_fits, reserved_local};
use ms_read_values::{binary_op, cast_op};
use ms_text_grammar::{BodySoFar, Cause, Limit, Symbol};
use std::alloc::Global;

/// How many instructions a text may have.
#[tactic(auto, unfolding(ms_text_grammar::specs::Bodies::max_instructions))]
fn max_instructions(form: Form) -> u32
    ensures { result ≡ spec.max_instructions form }
{
    match form {
        Form::Plain => 1 << 17,
        Form::Instrumented => 1 << 22,
    }
}

/// The verdict, where there is room for one more instruction.
fn counted(form: Form, body: &BodySoFar, verdict: Result<bool, Cause>) -> Result<bool, Cause>
    ensures { result ≡ spec.counted form body.now verdict }
{
    if body.count < max_instructions(form) {
        verdict
    } else {
        Err(Cause::Limit(Limit::Instructions))
    }
}

/// That a name is short enough, or its refusal.
fn short(text: &[u8]) -> Result<bool, Cause>
    ensures { result ≡ spec.short text.now }
{
    if name_fits(text) {
        Ok(true)
    } else {
        Err(Cause::Limit(Limit::Name))
    }
}

/// The verdict, where the name isn't reserved.
fn unreserved(form: Form, text: &[u8], verdict: Result<bool, Cause>) -> Result<bool, Cause>
    ensures { result ≡ spec.unreserved form text.now verdict }
{
    if reserved_local(form, text) {
        Err(Cause::Reserved)
    } else {
        verdict
    }
}

/// The verdict, where the written number is the expected one.
fn numbered(expected: u64, token: &Lexeme<'_>, verdict: Result<bool, Cause>) -> Result<bool, Cause>
    requires { (token.now.symbol ≡ Symbol.NumberedLocal) ⊎ (token.now.symbol ≡ Symbol.NumberedLabel) }
    ensures { result ≡ spec.numbered expected (name_in token.now) verdict }
{
    match token.numeral() {
        Some(number) => {
            if number == expected {
                verdict
            } else {
                Err(Cause::Numbering)
            }
        }
        None => Err(Cause::Numbering),
    }
}

/// Whether a word begins an instruction other than a phi.
pub fn begins_instruction(symbol: Symbol) -> bool
    ensures { result ≡ spec.begins_instruction symbol }
{
    match symbol {
        Symbol::Icmp
        | Symbol::Select
        | Symbol::Freeze
        | Symbol::Alloca
        | Symbol::Load
        | Symbol::Store
        | Symbol::GetElementPtr
        | Symbol::Tail
        | Symbol::MustTail
        | Symbol::NoTail
        | Symbol::Call
        | Symbol::Br
        | Symbol::Switch
        | Symbol::Ret
        | Symbol::Unreachable => true,
        _ => binary_op(symbol).is_some() || cast_op(symbol).is_some(),
    }
}

/// Whether a label of text begins a line, where no block is open.
fn label_begins(alloc: Global, form: Form, token: &Lexeme<'_>) -> Result<bool, Cause>
    ensures { Judges (spec.unreserved form (name_in token.now) (spec.short (name_in token.now))) result }
{
    let name = token.small_name(alloc)?;
    let text = name.as_slice();
    unreserved(form, text, short(text))
}

/// Whether a result's name of text begins a line.
fn name_begins(
    alloc: Global,
    form: Form,
    body: &BodySoFar,
    token: &Lexeme<'_>,
) -> Result<bool, Cause>
    ensures { Judges (spec.unreserved form (name_in token.now) (spec.counted form body.now (spec.short (name_in token.now)))) result }
{
    let name = token.small_name(alloc)?;
    let text = name.as_slice();
    unreserved(form, text, counted(form, body, short(text)))
}

/// Whether a word begins an instruction, if there is room for one.
fn word_begins(form: Form, body: &BodySoFar, symbol: Symbol) -> Result<bool, Cause>
    ensures { result ≡ spec.word_begins form body.now symbol }
{
    if begins_instruction(symbol) {
        counted(form, body, Ok(true))
    } else {
        Ok(false)
    }
}

/// Whether a line begins with this token, where numbers are left for it.
fn line_begins_by(
    alloc: Global,
    form: Form,
    body: &BodySoFar,
    token: &Lexeme<'_>,
) -> Result<bool, Cause>
    ensures { Judges (spec.line_begins_by form body.now token.now.symbol token.now) result }
{
    match token.symbol() {
        Symbol::Label => {
            if is_open(&body.name) {
                Ok(false)
            } else {
                label_begins(alloc, form, token)
            }
        }
        Symbol::NumberedLabel => {
            if is_open(&body.name) {
                Ok(false)
            } else {
                numbered(u64::from(body.next), token, Ok(true))
            }
        }
        Symbol::DebugGroup => Ok(true),
        Symbol::Local => name_begins(alloc, form, body, token),
        Symbol::NumberedLocal => {
            let verdict = counted(form, body, Ok(true));
            numbered(next_value(body), token, verdict)
        }
        Symbol::Phi => {
            if may_phi(body) {
                counted(form, body, Ok(true))
            } else {
                Ok(false)
            }
        }
        _ => word_begins(form, body, token.symbol()),
    }
}

/// Whether the next token begins a line.
///
/// # Errors
///
/// At a label or a result's name: `Reserved`, `Limit(Instructions)` for a result and `Limit(Name)`, in this order. At a
/// written number that isn't the next one `Numbering`. At the first token of the instruction that is one too many
/// `Limit(Instructions)`. At any token `Numbering` where 2^32 numbers are used up.
#[tactic(auto, unfolding(ms_text_grammar::specs::Bodies::line_begins))]
pub fn line_begins(tokens: &Tokens<'_>, form: Form, body: &BodySoFar) -> Result<bool, Cause>
    ensures { Judges (spec.line_begins form body.now (front tokens.now)) result }
{
    if body.next < u32::MAX - 1 {
        line_begins_by(tokens.alloc(), form, body, &tokens.lexeme())
    } else {
        Err(Cause::Numbering)
    }
}
