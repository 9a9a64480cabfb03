//! Why a text isn't read.

ghost use Rattle.std.specs.Prelude.{◌≡◌};
ghost use Rattle.ms_read_body.specs.Calls as spec;

use ms_lex::LexError;
use ms_text_grammar::{Cause, Limit, Outside};

/// What a refusal names beside its number: the construct at 5, the limit at 6, and else nothing.
#[derive(Clone, Copy, Debug, PartialEq, Eq)]
pub enum What {
    Nothing,
    Outside(Outside),
    Limit(Limit),
}

/// Why a text isn't read.
#[derive(Clone, Copy, Debug, PartialEq, Eq)]
pub enum ReadError {
    /// It has no tokens. The cause is never running out of memory.
    Lex(LexError),
    /// A token can't stand where it stands: 4 where the tokens through it begin no text of the grammar, 5 where it shows a
    /// construct that is left out besides, 6 where it passes a limit, 7 where a written number isn't the next one or is
    /// above 2^32 - 1, and 8 where it is a name or a mark that the form doesn't have.
    Refused {
        /// From 4 to 8.
        number: u8,
        what: What,
        /// The token, counted from 0. At the end of the text it is their number.
        token: u32,
        /// The byte at which the token begins, counted from 0. At the end of the text it is the text's length.
        place: u32,
    },
    /// Memory ran out.
    NoMemory,
}

/// What a refusal for this cause names beside its number.
fn what_of(cause: Cause) -> What
    ensures { result ≡ spec.what_of cause }
{
    match cause {
        Cause::Outside(construct) => What::Outside(construct),
        Cause::Limit(limit) => What::Limit(limit),
        _ => What::Nothing,
    }
}

/// The error for a cause at a token, which begins at this byte.
pub fn error_at(cause: Cause, token: u32, place: u32) -> ReadError
    ensures { result ≡ spec.error_at cause token place }
{
    match cause.number() {
        Some(number) => ReadError::Refused {
            number,
            what: what_of(cause),
            token,
            place,
        },
        None => ReadError::NoMemory,
    }
}
