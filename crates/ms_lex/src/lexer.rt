//! The tokens of a text, one after the other.

ghost use Rattle.std.specs.Prelude.{◌≡◌, ◌≢◌, ◌≤◌, ◌<◌, ◌^◌, ◌∷◌, [], length, true, false, IfSome, IfNone, IfOk, IsTrue, IsFalse, ℕ, slice_index};
ghost use Rattle.ms_lex.specs.Tokens.{GivesTokens, InOrder, RefusesExactly, StopsAt, cut_of, is_quote, tokens_of};
ghost use Rattle.ms_lex.specs.Tokens as spec;

use crate::errors::LexError;
use crate::kinds::Token;
use crate::scan::{is_blank, line_length, token_at};
use crate::spellings::{bytes_after, front};
use std::alloc::Global;

/// Why no token begins at this byte, which stands at this place.
fn refusal(first: u8, place: u32) -> LexError
    ensures value { result ≡ spec.refusal_of first place }
    ensures real { result ≢ LexError.NoMemory }
{
    if first == b'"' {
        LexError::OpenString { place }
    } else {
        LexError::BadByte { place }
    }
}

/// The tokens of a text, or why it has none.
#[tactic(auto, using(crate::proofs::Cuts::began, crate::proofs::Cuts::blank_more, crate::proofs::Cuts::comment_more, crate::proofs::Cuts::one_more, crate::proofs::Cuts::ended, crate::proofs::Cuts::too_many, crate::proofs::Cuts::refused))]
fn cut(alloc: Global, text: &[u8], limit: u32) -> Result<Vec<Token>, LexError>
    requires { length text.now ≤ 2 ^ 27 }
    ensures { GivesTokens (tokens_of text.now limit) result }
{
    let mut found: Vec<Token> = Vec::new(alloc);
    let mut place: u32 = 0;
    let mut rest = text;
    'cut: while let Some((first, after)) = front(rest) {
        if is_blank(first) {
            place += 1;
            rest = after;
        } else if first == b';' {
            let line = line_length(after);
            place = place + 1 + line as u32;
            rest = bytes_after(after, line);
        } else {
            match token_at(rest, first, after) {
                None => return Err(refusal(first, place)),
                Some((kind, n)) => {
                    if found.len() >= limit as usize {
                        return Err(LexError::TooManyTokens);
                    }
                    let end = place + n as u32;
                    found.push(Token {
                        kind,
                        start: place,
                        end,
                    })?;
                    place = end;
                    rest = bytes_after(rest, n);
                }
            }
        }
    }
    Ok(found)
}

/// The tokens of a text of at most 2^27 bytes, in order, if there are at most `limit` of them.
///
/// Between tokens stand blanks (spaces, tabs, carriage returns and newlines) and comments, which run
/// from `;` up to the next newline. Each token is of the first kind, in the order of
/// [`Kind`](crate::Kind), that fits at its first byte.
///
/// # Errors
///
/// - `BadByte` and `OpenString` at the first byte at which no token begins, if at most `limit` tokens
///   stand before it: `OpenString` where that byte is a `"`, whose string doesn't end, and `BadByte`
///   where it is another, as the `@` before such a string.
/// - `TooManyTokens` where more than `limit` tokens stand before any such byte.
/// - `NoMemory` where memory ran out.
#[tactic(auto, using(crate::proofs::Causes::bad_byte_exactly, crate::proofs::Causes::open_string_exactly, crate::proofs::Causes::too_many_exactly, crate::proofs::Causes::given_in_order))]
pub fn tokens(alloc: Global, text: &[u8], limit: u32) -> Result<Vec<Token>, LexError>
    requires { length text.now ≤ 2 ^ 27 }
    // The tokens that the text has by the table of kinds, or why it has none, unless memory ran out.
    ensures exact { GivesTokens (tokens_of text.now limit) result }
    ensures in_order { IfOk result (λ found. InOrder found.items (length text.now)) }

    // Each refusal comes exactly at its place, unless memory ran out.
    ensures bad_byte { (place : ℕ) → RefusesExactly result (LexError.BadByte place)
        (StopsAt text.now limit place × IsFalse (is_quote (slice_index text.now place))) }
    ensures open_string { (place : ℕ) → RefusesExactly result (LexError.OpenString place)
        (StopsAt text.now limit place × IsTrue (is_quote (slice_index text.now place))) }
    ensures too_many_tokens { RefusesExactly result LexError.TooManyTokens
        (limit < length (cut_of text.now).tokens) }
{
    cut(alloc, text, limit)
}

/// The tokens of a text stand in it in order, up to the first place where none begins too.
pub fn law_tokens_stand_in_order(text: &[u8])
    ensures { InOrder (cut_of text.now).tokens (length text.now) }
{}
