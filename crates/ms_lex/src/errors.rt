//! Why a text has no tokens.

ghost use Rattle.std.specs.Prelude.{◌≡◌};
ghost use Rattle.ms_lex.specs.declared.errors.LexError.TheVariants.{NoMemory as MemoryIsWanting};

use std::alloc::{AllocError, AllocFailed};
use thiserror::Error;

/// Running out of memory.
pub type NoMemory = AllocError;

/// Why a text has no tokens. A place is that of a byte, counted from 0.
#[derive(Clone, Copy, Debug, PartialEq, Eq, Error)]
pub enum LexError {
    /// No token begins at this byte, which is no `"`.
    #[error("bad byte at {place}")]
    BadByte { place: u32 },
    /// The string that begins with the `"` at this byte doesn't end.
    #[error("open string at {place}")]
    OpenString { place: u32 },
    /// More tokens stand before any such place than the caller allows.
    #[error("too many tokens")]
    TooManyTokens,
    /// Memory ran out.
    #[error("out of memory")]
    NoMemory,
}

impl From<AllocError> for LexError {
    ghost from_gives = { λ _ e. e ≡ MemoryIsWanting };

    fn from(_error: AllocError) -> LexError {
        LexError::NoMemory
    }
}

impl<T: Drop> From<AllocFailed<T>> for LexError {
    ghost from_gives = { λ _ e. e ≡ MemoryIsWanting };

    fn from(_error: AllocFailed<T>) -> LexError {
        LexError::NoMemory
    }
}
