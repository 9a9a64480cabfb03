//! Operations on two words of one width, and of them sums, differences and products.
ghost use Rattle.std.specs.Prelude.{◌≡◌, ◌*ℤ◌};
ghost use Rattle.ms_bits.specs.{Signed.{signed}, Arithmetic.{of_width, binary_of, add_of, sub_of, mul_of}};

use crate::bitwise::{and, ashr, lshr, or, shl, xor};
use crate::division::{sdiv, srem, udiv, urem};
use crate::operations::{BinOp, Flags};
use crate::traps::Trap;
use crate::twos_complement::{fits, signed_value};
use crate::words::{Word, limit};

/// The operation on two words of one width, modulo 2 to that width (LLVM Language Reference, "Binary Operations" and
/// "Bitwise Binary Operations"). A flag that the operation cannot carry is not looked at. Takes no memory.
///
/// # Errors
///
/// The first of these traps, in the order of `Trap`, whose condition holds:
/// - `Shift`: `shl`, `lshr` or `ashr` by the width or more;
/// - `ZeroDivisor`: a division or a remainder by 0;
/// - `Overflow`: `sdiv` or `srem` of the least number by -1;
/// - `Nuw`: with the flag, the unsigned sum, difference or product doesn't fit, or `shl` shifts out a 1 bit;
/// - `Nsw`: with the flag, the signed result doesn't fit, or `shl` shifts out a bit other than the result's sign bit;
/// - `Exact`: with the flag, a division has a remainder, or a 1 bit is shifted out to the right;
/// - `Disjoint`: with the flag, both operands of `or` have a 1 at one bit.
#[tactic(auto, unfolding(crate::specs::Arithmetic::binary_of))]
pub fn binary(op: BinOp, flags: Flags, a: Word, b: Word) -> Result<Word, Trap>
    requires same_width { a.width ≡ b.width }
    ensures { result ≡ of_width a.width (binary_of op flags a.width a.value b.value) }
{
    match op {
        BinOp::Add => add(flags, a, b),
        BinOp::Sub => sub(flags, a, b),
        BinOp::Mul => mul(flags, a, b),
        BinOp::Udiv => udiv(flags, a, b),
        BinOp::Sdiv => sdiv(flags, a, b),
        BinOp::Urem => urem(a, b),
        BinOp::Srem => srem(a, b),
        BinOp::Shl => shl(flags, a, b),
        BinOp::Lshr => lshr(flags, a, b),
        BinOp::Ashr => ashr(flags, a, b),
        BinOp::And => Ok(and(a, b)),
        BinOp::Or => or(flags, a, b),
        BinOp::Xor => Ok(xor(a, b)),
    }
}

/// The sum modulo 2 to the width, or the trap of a flag.
#[tactic(auto, unfolding(crate::specs::Arithmetic::add_of))]
fn add(flags: Flags, a: Word, b: Word) -> Result<Word, Trap>
    requires same_width { a.width ≡ b.width }
    ensures { result ≡ of_width a.width (add_of flags a.width a.value b.value) }
{
    let limit = limit(a.width());
    let sum = a.value() as u128 + b.value() as u128;
    if flags.nuw && sum >= limit {
        return Err(Trap::Nuw);
    }
    if flags.nsw && !fits(a.width(), signed_value(a) + signed_value(b)) {
        return Err(Trap::Nsw);
    }
    Ok(Word::new(a.width(), (sum % limit) as u64))
}

/// The difference modulo 2 to the width, or the trap of a flag.
#[tactic(auto, unfolding(crate::specs::Arithmetic::sub_of))]
fn sub(flags: Flags, a: Word, b: Word) -> Result<Word, Trap>
    requires same_width { a.width ≡ b.width }
    ensures { result ≡ of_width a.width (sub_of flags a.width a.value b.value) }
{
    if flags.nuw && a.value() < b.value() {
        return Err(Trap::Nuw);
    }
    if flags.nsw && !fits(a.width(), signed_value(a) - signed_value(b)) {
        return Err(Trap::Nsw);
    }
    let limit = limit(a.width());
    let difference = a.value() as u128 + (limit - b.value() as u128);
    Ok(Word::new(a.width(), (difference % limit) as u64))
}

/// The product modulo 2 to the width, or the trap of a flag.
#[tactic(auto, unfolding(crate::specs::Arithmetic::mul_of))]
fn mul(flags: Flags, a: Word, b: Word) -> Result<Word, Trap>
    requires same_width { a.width ≡ b.width }
    ensures { result ≡ of_width a.width (mul_of flags a.width a.value b.value) }
{
    let limit = limit(a.width());
    let product = a.value() as u128 * b.value() as u128;
    if flags.nuw && product >= limit {
        return Err(Trap::Nuw);
    }
    if flags.nsw && !fits(a.width(), signed_product(a, b)) {
        return Err(Trap::Nsw);
    }
    Ok(Word::new(a.width(), (product % limit) as u64))
}

/// The product of the signed numbers, as a whole number.
fn signed_product(a: Word, b: Word) -> i128
    ensures { result ≡ signed a.width a.value *ℤ signed b.width b.value }
{
    signed_value(a) * signed_value(b)
}
