//! Words as the text that a directive prints.
ghost use Rattle.std.specs.Prelude.{ℕ, List, false, ◌≡◌, ◌+◌, ◌^◌, Option, Result, Ok, IfOk, decimal};
ghost use Rattle.std.specs.Fmt.{digits, signed_decimal};
ghost use Rattle.ms_bits.specs.Signed.{signed};
ghost use Rattle.ms_runs.specs.Formats.{takes_argument, is_string, piece_text};
ghost use Rattle.ms_printf.specs.Walks.{PrintsWord};

use itoa::Buffer;
use ms_bits::NoMemory;
use ms_runs::Piece;
use std::alloc::Global;

/// A number in decimal digits.
fn decimal_text(alloc: Global, number: u64) -> Result<Vec<u8>, NoMemory>
    ensures { IfOk result (λ text. text.items ≡ decimal number) }
{
    Vec::from_slice(alloc, Buffer::new().format(number).as_bytes())
}

/// A word as a signed number in decimal digits, where `most` is the greatest word of its width.
fn signed_text(alloc: Global, word: u64, most: u64) -> Result<Vec<u8>, NoMemory>
    ensures { (width : ℕ) → most + 1 ≡ 2 ^ (1 + width) → IfOk result (λ text. text.items ≡ signed_decimal (signed (1 + width) word)) }
{
    if word <= most / 2 {
        return decimal_text(alloc, word);
    }
    let size = most.saturating_sub(word) + 1;
    let mut text = Vec::from_slice(alloc, b"-")?;
    text.extend_from_slice(Buffer::new().format(size).as_bytes())?;
    Ok(text)
}

/// A number in lower-case hexadecimal digits, without leading zeros.
fn hexadecimal_text(alloc: Global, number: u64) -> Result<Vec<u8>, NoMemory>
    ensures { IfOk result (λ text. text.items ≡ digits 16 false number) }
{
    let text = format!(in alloc; "{number:x}")?;
    Vec::from_slice(alloc, text.as_bytes())
}

/// What a directive other than `%s` prints of a word.
pub(crate) fn word_text(alloc: Global, piece: &Piece, word: u64) -> Result<Vec<u8>, NoMemory>
    requires { PrintsWord piece.now }
    ensures { (strings : ℕ → Option (List ℕ)) → IfOk result (λ text. piece_text strings piece.now word ≡ Ok text.items) }
{
    match piece {
        Piece::Dec32 => signed_text(alloc, word, u32::MAX as u64),
        Piece::Dec64 => signed_text(alloc, word, u64::MAX),
        Piece::Udec32 | Piece::Udec64 => decimal_text(alloc, word),
        Piece::Hex32 | Piece::Hex64 => hexadecimal_text(alloc, word),
        Piece::Char => Vec::from_slice(alloc, &[(word % 256) as u8]),
        Piece::Text(_) | Piece::Str => unreachable!(),
    }
}
