//! The directives of a format that take an argument, by their letters.
ghost use Rattle.std.specs.Prelude.{true, ◌≡◌, ◌≢◌, IfSome};
ghost use Rattle.ms_runs.specs.Formats.{letters, long_letters, lettered, takes_argument};

use ms_runs::Piece;

/// The directive of a letter after `%`.
pub(crate) fn short(letter: u8) -> Option<Piece>
    ensures value { letter ≢ 37 → result ≡ lettered letters letter }
    ensures takes { IfSome result (λ p. takes_argument p ≡ true) }
{
    match letter {
        b'd' => Some(Piece::Dec32),
        b'u' => Some(Piece::Udec32),
        b'x' => Some(Piece::Hex32),
        b'c' => Some(Piece::Char),
        b's' => Some(Piece::Str),
        _ => None,
    }
}

/// The directive of a letter after `%l`.
pub(crate) fn long(letter: u8) -> Option<Piece>
    ensures value { result ≡ lettered long_letters letter }
    ensures takes { IfSome result (λ p. takes_argument p ≡ true) }
{
    match letter {
        b'd' => Some(Piece::Dec64),
        b'u' => Some(Piece::Udec64),
        b'x' => Some(Piece::Hex64),
        _ => None,
    }
}
