//! Shifts, and operations bit by bit: those of `binary`, each with the traps of its flags.
ghost use Rattle.std.specs.Prelude.{◌≡◌, ◌^◌, ◌<◌, pos, ◌*ℤ◌, bit_and, bit_xor};
ghost use Rattle.ms_bits.specs.{Signed.{signed}, Arithmetic.{of_width, shl_of, lshr_of, ashr_of, or_of}};

use crate::operations::Flags;
use crate::traps::Trap;
use crate::twos_complement::{fits, signed_value, wrapped};
use crate::words::{Word, limit};

/// `a` shifted to the left by `b`, with zeros from the right.
#[tactic(auto, unfolding(crate::specs::Arithmetic::shl_of))]
pub fn shl(flags: Flags, a: Word, b: Word) -> Result<Word, Trap>
    requires same_width { a.width ≡ b.width }
    ensures { result ≡ of_width a.width (shl_of flags a.width a.value b.value) }
{
    if b.value() >= a.width() as u64 {
        return Err(Trap::Shift);
    }
    let limit_of_width = limit(a.width());
    let product = a.value() as u128 * limit(b.value() as u8);
    if flags.nuw && product >= limit_of_width {
        return Err(Trap::Nuw);
    }
    if flags.nsw && !fits(a.width(), signed_shifted(a, b.value() as u8)) {
        return Err(Trap::Nsw);
    }
    Ok(Word::new(a.width(), (product % limit_of_width) as u64))
}

// The signed number times 2 to the amount.
fn signed_shifted(a: Word, amount: u8) -> i128
    requires { amount < 64 }
    ensures { result ≡ signed a.width a.value *ℤ pos (2 ^ amount) }
{
    signed_value(a) * limit(amount) as i128
}

/// `a` shifted to the right by `b`, with zeros from the left.
#[tactic(auto, unfolding(crate::specs::Arithmetic::lshr_of))]
pub fn lshr(flags: Flags, a: Word, b: Word) -> Result<Word, Trap>
    requires same_width { a.width ≡ b.width }
    ensures { result ≡ of_width a.width (lshr_of flags a.width a.value b.value) }
{
    if b.value() >= a.width() as u64 {
        return Err(Trap::Shift);
    }
    let factor = limit(b.value() as u8) as u64;
    if flags.exact && a.value() % factor != 0 {
        return Err(Trap::Exact);
    }
    Ok(Word::new(a.width(), a.value() / factor))
}

/// `a` shifted to the right by `b`, with copies of the sign bit from the left.
#[tactic(auto, unfolding(crate::specs::Arithmetic::ashr_of))]
pub fn ashr(flags: Flags, a: Word, b: Word) -> Result<Word, Trap>
    requires same_width { a.width ≡ b.width }
    ensures { result ≡ of_width a.width (ashr_of flags a.width a.value b.value) }
{
    if b.value() >= a.width() as u64 {
        return Err(Trap::Shift);
    }
    let factor = limit(b.value() as u8) as u64;
    if flags.exact && a.value() % factor != 0 {
        return Err(Trap::Exact);
    }
    Ok(wrapped(a.width(), signed_value(a) >> b.value()))
}

/// 1 where both have a 1.
pub fn and(a: Word, b: Word) -> Word
    requires same_width { a.width ≡ b.width }
    ensures { result ≡ record { width = a.width; value = bit_and a.value b.value } }
{
    Word::new(a.width(), a.value() & b.value())
}

/// 1 where one of them has a 1.
#[tactic(auto, using(std::proofs::lemmas::Nat::or_lt), unfolding(crate::specs::Arithmetic::or_of))]
pub fn or(flags: Flags, a: Word, b: Word) -> Result<Word, Trap>
    requires same_width { a.width ≡ b.width }
    ensures { result ≡ of_width a.width (or_of flags a.value b.value) }
{
    if flags.disjoint && a.value() & b.value() != 0 {
        return Err(Trap::Disjoint);
    }
    Ok(Word::new(a.width(), a.value() | b.value()))
}

/// 1 where just one of them has a 1.
#[tactic(auto, using(std::proofs::lemmas::Nat::xor_lt))]
pub fn xor(a: Word, b: Word) -> Word
    requires same_width { a.width ≡ b.width }
    ensures { result ≡ record { width = a.width; value = bit_xor a.value b.value } }
{
    Word::new(a.width(), a.value() ^ b.value())
}
