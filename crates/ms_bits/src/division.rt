//! Quotients and remainders of two words of one width: those of `binary`. `b` is the divisor.
ghost use Rattle.std.specs.Prelude.{◌≡◌, ◌<◌, int_div, int_rem};
ghost use Rattle.ms_bits.specs.Signed.{signed};
ghost use Rattle.ms_bits.specs.Arithmetic.{of_width, udiv_of, sdiv_of, urem_of, srem_of, quotient_overflows};

use crate::operations::Flags;
use crate::traps::Trap;
use crate::twos_complement::{signed_value, wrapped};
use crate::words::{Word, limit};

/// The quotient of the unsigned numbers.
#[tactic(auto, unfolding(crate::specs::Arithmetic::udiv_of))]
pub fn udiv(flags: Flags, a: Word, b: Word) -> Result<Word, Trap>
    requires same_width { a.width ≡ b.width }
    ensures { result ≡ of_width a.width (udiv_of flags a.width a.value b.value) }
{
    if b.value() == 0 {
        return Err(Trap::ZeroDivisor);
    }
    if flags.exact && a.value() % b.value() != 0 {
        return Err(Trap::Exact);
    }
    Ok(Word::new(a.width(), a.value() / b.value()))
}

/// The remainder of the unsigned numbers.
#[tactic(auto, unfolding(crate::specs::Arithmetic::urem_of))]
pub fn urem(a: Word, b: Word) -> Result<Word, Trap>
    requires same_width { a.width ≡ b.width }
    ensures { result ≡ of_width a.width (urem_of a.width a.value b.value) }
{
    if b.value() == 0 {
        return Err(Trap::ZeroDivisor);
    }
    Ok(Word::new(a.width(), a.value() % b.value()))
}

/// The quotient of the signed numbers, rounded towards zero.
#[tactic(auto, unfolding(crate::specs::Arithmetic::sdiv_of))]
pub fn sdiv(flags: Flags, a: Word, b: Word) -> Result<Word, Trap>
    requires same_width { a.width ≡ b.width }
    ensures { result ≡ of_width a.width (sdiv_of flags a.width a.value b.value) }
{
    if b.value() == 0 {
        return Err(Trap::ZeroDivisor);
    }
    if overflows(a, b) {
        return Err(Trap::Overflow);
    }
    if flags.exact && wrapped(a.width(), signed_remainder(a, b)).value() != 0 {
        return Err(Trap::Exact);
    }
    Ok(wrapped(a.width(), signed_quotient(a, b)))
}

/// The remainder of the signed numbers, with the dividend's sign.
#[tactic(auto, unfolding(crate::specs::Arithmetic::srem_of))]
pub fn srem(a: Word, b: Word) -> Result<Word, Trap>
    requires same_width { a.width ≡ b.width }
    ensures { result ≡ of_width a.width (srem_of a.width a.value b.value) }
{
    if b.value() == 0 {
        return Err(Trap::ZeroDivisor);
    }
    if overflows(a, b) {
        return Err(Trap::Overflow);
    }
    Ok(wrapped(a.width(), signed_remainder(a, b)))
}

// The least number divided by -1.
#[tactic(auto, unfolding(crate::specs::Arithmetic::quotient_overflows))]
fn overflows(a: Word, b: Word) -> bool
    requires same_width { a.width ≡ b.width }
    ensures { result ≡ quotient_overflows a.width a.value b.value }
{
    let limit = limit(a.width());
    2 * (a.value() as u128) == limit && b.value() as u128 + 1 == limit
}

/// The quotient of the signed numbers, as a whole number.
#[tactic(auto, unfolding(crate::specs::Signed::signed))]
fn signed_quotient(a: Word, b: Word) -> i128
    requires { 0 < b.value }
    ensures { result ≡ int_div (signed a.width a.value) (signed b.width b.value) }
{
    signed_value(a) / signed_value(b)
}

/// The remainder of the signed numbers, as a whole number.
#[tactic(auto, unfolding(crate::specs::Signed::signed))]
fn signed_remainder(a: Word, b: Word) -> i128
    requires { 0 < b.value }
    ensures { result ≡ int_rem (signed a.width a.value) (signed b.width b.value) }
{
    signed_value(a) % signed_value(b)
}
