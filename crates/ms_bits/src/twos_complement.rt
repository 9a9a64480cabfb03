//! Words read as signed numbers in two's complement, and the way back.
ghost use Rattle.std.specs.Prelude.{◌≡◌, ◌^◌, ◌≤◌, unsigned_abs};
ghost use Rattle.ms_bits.specs.Signed.{signed, wrap, fits_signed, negative};

use crate::words::{Word, limit};

/// The word as a signed number.
#[tactic(auto, unfolding(crate::specs::Signed::signed))]
pub fn signed_value(a: Word) -> i128
    ensures value { result ≡ signed a.width a.value }
    ensures small { unsigned_abs result ≤ 2 ^ 63 }
{
    let unsigned = a.value() as u128;
    let limit = limit(a.width());
    if 2 * unsigned < limit {
        unsigned as i128
    } else {
        unsigned as i128 - limit as i128
    }
}

/// Whether the sign bit is 1.
#[tactic(auto, unfolding(crate::specs::Signed::negative))]
pub fn is_negative(a: Word) -> bool
    ensures { result ≡ negative a.width a.value }
{
    2 * (a.value() as u128) >= limit(a.width())
}

/// Whether a signed number fits so many bits.
#[tactic(auto, unfolding(crate::specs::Signed::fits_signed))]
pub fn fits(width: u8, number: i128) -> bool
    requires { width ≤ 64 }
    ensures { result ≡ fits_signed width number }
{
    let magnitude = if number < 0 { -(number + 1) } else { number };
    2 * (magnitude as u128) < limit(width)
}

/// The word of a whole number modulo 2 to the width.
#[tactic(auto, unfolding(crate::specs::Signed::wrap))]
pub fn wrapped(width: u8, number: i128) -> Word
    requires some { 1 ≤ width }
    requires few { width ≤ 64 }
    ensures { result ≡ record { width = width; value = wrap width number } }
{
    let limit = limit(width);
    let value = if number < 0 {
        (limit - 1 - (-(number + 1)) as u128 % limit) as u64
    } else {
        (number as u128 % limit) as u64
    };
    Word::new(width, value)
}
