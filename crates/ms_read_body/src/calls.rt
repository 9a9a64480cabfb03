//! What the readers of a body offer to who reads a module part by part: each part of a text by one call from a token on, and
//! errors with their place. Numbers of refusals are those of `ReadError`.

ghost use Rattle.std.specs.Prelude.{◌≡◌, ◌≤◌, ◌<◌, ◌^◌, length};
ghost use Rattle.ms_text_grammar.specs.Skipped.{attributes as attributes_piece};
ghost use Rattle.ms_text_grammar.specs.{Types.{max_depth, type_to as type_piece}, Values.{value as value_piece}};
ghost use Rattle.ms_text_grammar.specs.Texts.{place_in};
ghost use Rattle.ms_read_cursor.specs.Reading.{Gives, run};
ghost use Rattle.ms_read_body.specs.Calls as spec;
ghost use Rattle.ms_read_body.specs.Calls.{AreTokens, ReadsExactly, definition, with_nothing};

use crate::errors::{ReadError, error_at};
use crate::functions::function;
use ms_ir::{Form, Func, Operand, Ty};
use ms_lex::Token;
use ms_read_cursor::Tokens;
use ms_read_values::{attributes, operand, type_to};
use ms_text_grammar::{Cause, Symbol};
use std::alloc::Global;

/// How many arrays and structs may be open at once.
const MAX_DEPTH: u8 = 32;

/// The byte at which a token begins. At the end of the text that is its length.
#[tactic(auto, using(crate::proofs::Places::place_at_end))]
pub fn place_of(text: &[u8], tokens: &[Token], token: usize) -> u32
    requires short { length text.now < 2 ^ 32 }
    requires inside { token ≤ length tokens.now }
    ensures { result ≡ place_in text.now tokens.now token }
{
    if token < tokens.len() {
        tokens[token].start
    } else {
        text.len() as u32
    }
}

/// A cursor over the tokens of a text from token `at` on.
fn cursor_at<'a>(alloc: Global, text: &'a [u8], tokens: &'a [Token], at: u32) -> Tokens<'a>
    requires whole { AreTokens text.now tokens.now }
    requires inside { at ≤ length tokens.now }
    ensures { result ≡ spec.lexemes_from text.now tokens.now at }
{
    Tokens::at(alloc, text, tokens, at as usize)
}

/// What a call returns where a reader gave this, and so many tokens are left after it: the value with the number of the next
/// token, or the error with its place.
fn answer<A: Drop>(
    text: &[u8],
    tokens: &[Token],
    read: Result<A, Cause>,
    left: usize,
) -> Result<(A, u32), ReadError>
    requires { AreTokens text.now tokens.now }
    ensures { result ≡ spec.answer_of text.now tokens.now read left }
{
    let token = tokens.len().saturating_sub(left);
    match read {
        Ok(value) => Ok((value, token as u32)),
        Err(cause) => Err(error_at(cause, token as u32, place_of(text, tokens, token))),
    }
}

/// The answer of a call whose value says nothing: the next token's number alone.
fn next_token(answer: Result<((), u32), ReadError>) -> Result<u32, ReadError>
    ensures { with_nothing result ≡ answer }
{
    match answer {
        Ok((_, next)) => Ok(next),
        Err(error) => Err(error),
    }
}

/// Reads `define` and the function after it.
#[tactic(auto, unfolding(ms_text_grammar::specs::Steps::word))]
fn read_definition(tokens: &mut Tokens<'_>, form: Form, before: u32) -> Result<Func, Cause>
    ensures { Gives (run (definition form before) tokens.old) result tokens.new }
{
    tokens.word(Symbol::Define)?;
    function(tokens, form, before)
}

/// Reads one function from token `at`, which is `define`. `before` is the number of instructions that the text has before
/// it. The answered number is the next token's.
///
/// # Errors
///
/// `Refused` at the first token that can't stand: 6 with the limit on instructions at the first token of the instruction
/// that is one too many, 7 at a written number that isn't the next one, 8 at a name or a mark that the form doesn't have,
/// and 4 or 5 at any other. `NoMemory`. Never `Lex`.
pub fn read_body(
    alloc: Global,
    text: &[u8],
    tokens: &[Token],
    at: u32,
    before: u32,
    form: Form,
) -> Result<(Func, u32), ReadError>
    requires whole { AreTokens text.now tokens.now }
    requires inside { at ≤ length tokens.now }
    ensures { ReadsExactly (definition form before) text.now tokens.now at result }
{
    let mut cursor = cursor_at(alloc, text, tokens, at);
    let read = read_definition(&mut cursor, form, before);
    answer(text, tokens, read, cursor.left())
}

/// Reads a type from token `at`. The answered number is the next token's.
///
/// # Errors
///
/// `Refused` at the first token that can't stand: 6 with the limit on types at the token that opens an array or a struct in
/// 32 others, 7 at a number of a type above 2^32 - 1, 8 at a name that the form doesn't have, and 4 or 5 at any other.
/// `NoMemory`. Never `Lex`.
pub fn read_type(
    alloc: Global,
    text: &[u8],
    tokens: &[Token],
    at: u32,
    form: Form,
) -> Result<(Ty, u32), ReadError>
    requires whole { AreTokens text.now tokens.now }
    requires inside { at ≤ length tokens.now }
    ensures { ReadsExactly (type_piece form max_depth) text.now tokens.now at result }
{
    let mut cursor = cursor_at(alloc, text, tokens, at);
    let read = type_to(&mut cursor, form, MAX_DEPTH);
    answer(text, tokens, read, cursor.left())
}

/// Reads from token `at` a value that follows the type `ty`. The answered number is the next token's. No number follows an
/// integer type whose width is not from 1 to 64.
///
/// # Errors
///
/// `Refused` at the first token that can't stand: 6 with the limit on indices at the type of the 65th, 7 at a number of a
/// value above 2^32 - 1, 8 at a name that the form doesn't have, and 4 or 5 at any other. `NoMemory`. Never `Lex`.
pub fn read_value(
    alloc: Global,
    text: &[u8],
    tokens: &[Token],
    at: u32,
    ty: &Ty,
    form: Form,
) -> Result<(Operand, u32), ReadError>
    requires whole { AreTokens text.now tokens.now }
    requires inside { at ≤ length tokens.now }
    ensures { ReadsExactly (value_piece form ty.now) text.now tokens.now at result }
{
    let mut cursor = cursor_at(alloc, text, tokens, at);
    let read = operand(&mut cursor, form, ty);
    answer(text, tokens, read, cursor.left())
}

/// Reads as many attributes as come from token `at` on. The answer is the next token's number.
///
/// # Errors
///
/// `Refused` at the first token that can't stand: 8 at a name in parentheses that the form doesn't have, 6 at one that is
/// too long, and 4 or 5 at any other. `NoMemory`. Never `Lex`.
pub fn skip_attributes(
    alloc: Global,
    text: &[u8],
    tokens: &[Token],
    at: u32,
    form: Form,
) -> Result<u32, ReadError>
    requires whole { AreTokens text.now tokens.now }
    requires inside { at ≤ length tokens.now }
    ensures { ReadsExactly (attributes_piece form) text.now tokens.now at (with_nothing result) }
{
    let mut cursor = cursor_at(alloc, text, tokens, at);
    let read = attributes(&mut cursor, form);
    next_token(answer(text, tokens, read, cursor.left()))
}
