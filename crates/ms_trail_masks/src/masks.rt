//! The mask of a binary operation and of a cast: which formula of `mask_formulas.rt` it takes. For traced runs of `explain`.
ghost use Rattle.std.specs.Prelude.{◌≡◌, ◌≤◌, ◌<◌, ◌^◌};
ghost use Rattle.ms_bits.specs.{Conversions.{Allows, cast_of}, NoFlags.{no_flags}};
ghost use Rattle.ms_runs.specs.Masks.{by_formulas, binary_mask as binary_mask_of, shift_mask as shift_mask_of, value_or_zero as or_zero_of};
ghost use Rattle.ms_trail_masks.specs.Results.{bare};

use crate::words::Seen;
use crate::{and_mask, carry_mask, combined, converted, ones, or_mask};
use ms_bits::{BinOp, CastOp, Trap};

/// The number that an operation on masks gives; 0 where the operation traps.
fn or_zero(answer: Result<u64, Trap>) -> u64
    ensures { result ≡ or_zero_of answer }
{
    match answer {
        Ok(number) => number,
        Err(_) => 0,
    }
}

/// A shift of `a` by `b`: the mask of `a` shifted in the same way, or all bits where some bit of the amount is poisoned.
fn shift_mask(op: BinOp, width: u8, a: Seen, b: Seen) -> u64
    requires some { 1 ≤ width }
    requires few { width ≤ 64 }
    requires mask { a.mask < 2 ^ width }
    requires amount { b.value < 2 ^ width }
    ensures { result ≡ shift_mask_of op width (bare a.value a.mask) (bare b.value b.mask) }
{
    if b.mask == 0 {
        or_zero(combined(op, width, a.mask, b.value))
    } else {
        ones(width)
    }
}

/// The mask of an operation's result. That of a quotient or a remainder is the dividend's: divisors are checked before.
#[tactic(auto, unfolding(ms_bits::specs::Formulas::union_mask))]
pub fn binary_mask(op: BinOp, width: u8, a: Seen, b: Seen) -> u64
    requires some { 1 ≤ width }
    requires few { width ≤ 64 }
    requires first { a.mask < 2 ^ width }
    requires second { b.mask < 2 ^ width }
    requires amount { b.value < 2 ^ width }
    ensures { result ≡ binary_mask_of by_formulas op width (bare a.value a.mask) (bare b.value b.mask) }
{
    match op {
        BinOp::Add | BinOp::Sub | BinOp::Mul => carry_mask(width, a.mask | b.mask),
        BinOp::Xor => a.mask | b.mask,
        BinOp::Udiv | BinOp::Sdiv | BinOp::Urem | BinOp::Srem => a.mask,
        BinOp::Shl | BinOp::Lshr | BinOp::Ashr => shift_mask(op, width, a, b),
        BinOp::And => and_mask(a.value, a.mask, b.value, b.mask),
        BinOp::Or => or_mask(width, a.value, a.mask, b.value, b.mask),
    }
}

/// The mask of a cast's result.
pub fn cast_mask(op: CastOp, width: u8, a: Seen, into: u8) -> u64
    requires some { 1 ≤ width }
    requires few { width ≤ 64 }
    requires mask { a.mask < 2 ^ width }
    requires allowed { Allows op width into }
    ensures { result ≡ or_zero_of (cast_of op no_flags width a.mask into) }
{
    or_zero(converted(op, width, a.mask, into))
}
