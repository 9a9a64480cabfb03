//! From the tokens of a text to its module, or to the error at the token where reading stopped.

ghost use Rattle.std.specs.Prelude.{◌≡◌, ◌≤◌, ◌<◌, ◌-◌, ◌^◌, length};
ghost use Rattle.ms_text_grammar.specs.Texts.{HasTokens, max_bytes, place_in};
ghost use Rattle.ms_lex.specs.Tokens.{InOrder};
ghost use Rattle.ms_read_body.specs.Calls as spec;
ghost use Rattle.ms_read_top.specs.Reading.{IsReading, of_lexer};

use crate::limits::max_tokens;
use crate::modules::whole_module;
use ms_ir::{Form, Module};
use ms_lex::{LexError, Token, tokens};
use ms_read_body::{ReadError, error_at, place_of};
use ms_read_cursor::Tokens;
use ms_text_grammar::Cause;
use std::alloc::Global;

/// The error for a cause at the first of the `left` tokens that are left of a text.
fn error_for(text: &[u8], tokens: &[Token], cause: Cause, left: usize) -> ReadError
    requires short { length text.now < 2 ^ 32 }
    requires few { length tokens.now < 2 ^ 32 }
    ensures { result ≡ spec.error_at cause (length tokens.now - left) (place_in text.now tokens.now (length tokens.now - left)) }
{
    let token = tokens.len().saturating_sub(left);
    error_at(cause, token as u32, place_of(text, tokens, token))
}

/// Reads the tokens of a text, which has these, as a module.
#[tactic(auto, using(crate::proofs::Told::told_reads, crate::proofs::Told::told_stops, crate::proofs::Told::few_tokens, crate::proofs::Told::short_text))]
fn answer(alloc: Global, text: &[u8], tokens: &[Token], form: Form) -> Result<Module, ReadError>
    requires has { HasTokens form text.now tokens.now }
    requires in_order { InOrder tokens.now (length text.now) }
    ensures { IsReading form text.now result }
{
    let mut cursor = Tokens::at(alloc, text, tokens, 0);
    match whole_module(&mut cursor, form) {
        Ok(found) => Ok(found),
        Err(cause) => Err(error_for(text, tokens, cause, cursor.left())),
    }
}

/// The error for a text that has no tokens.
fn without_tokens(error: LexError) -> ReadError
    ensures { result ≡ of_lexer error }
{
    match error {
        LexError::NoMemory => ReadError::NoMemory,
        _ => ReadError::Lex(error),
    }
}

/// What the text reads as, or why it isn't read.
#[tactic(auto, using(crate::proofs::Told::short_text, crate::proofs::Told::has_tokens, crate::proofs::Told::told_lexer))]
pub fn answer_for(alloc: Global, text: &[u8], form: Form) -> Result<Module, ReadError>
    requires { length text.now ≤ max_bytes form }
    ensures { IsReading form text.now result }
{
    match tokens(alloc, text, max_tokens(form)) {
        Ok(found) => answer(alloc, text, &found, form),
        Err(error) => Err(without_tokens(error)),
    }
}
