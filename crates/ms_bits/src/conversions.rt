//! Casts of words to other widths.
ghost use Rattle.std.specs.Prelude.{◌≡◌, ◌%◌, ◌^◌, ◌<◌, ◌≤◌};
ghost use Rattle.ms_bits.specs.{Arithmetic.{of_width}, Conversions.{Allows, cast_of}};

use crate::operations::{CastOp, Flags};
use crate::traps::Trap;
use crate::twos_complement::{is_negative, signed_value, wrapped};
use crate::words::{Word, limit};

/// The word cast to `to` bits, a width that the cast allows (LLVM Language Reference, "Conversion Operations"): `trunc` to
/// fewer bits, `zext` and `sext` to more, `ptrtoint` from 64, `inttoptr` to 64, `bitcast` to the same. A flag that the cast
/// cannot carry is not looked at. Takes no memory.
///
/// # Errors
///
/// The first of these traps, in the order of `Trap`, whose condition holds:
/// - `Nuw`: `trunc` with the flag drops a 1 bit;
/// - `Nsw`: `trunc` with the flag, and its sign-extended result isn't the operand;
/// - `Nneg`: `zext` with the flag of a word whose sign bit is 1.
#[inline(always)]
#[tactic(auto, unfolding(crate::specs::Conversions::cast_of))]
pub fn cast(op: CastOp, flags: Flags, a: Word, to: u8) -> Result<Word, Trap>
    requires allowed { Allows op a.width to }
    ensures { result ≡ of_width to (cast_of op flags a.width a.value to) }
{
    match op {
        CastOp::Trunc => trunc(flags, a, to),
        CastOp::Zext => {
            if flags.nneg && is_negative(a) {
                return Err(Trap::Nneg);
            }
            Ok(widened(a, to))
        }
        CastOp::Sext => Ok(wrapped(to, signed_value(a))),
        CastOp::PtrToInt => Ok(low_bits(a, to)),
        CastOp::IntToPtr => Ok(widened(a, to)),
        CastOp::Bitcast => Ok(a),
    }
}

/// The low `to` bits, or the trap of a flag.
#[tactic(auto, unfolding(crate::specs::Conversions::cast_of))]
fn trunc(flags: Flags, a: Word, to: u8) -> Result<Word, Trap>
    requires some { 1 ≤ to }
    requires fewer { to < a.width }
    ensures { result ≡ of_width to (cast_of (CastOp.Trunc) flags a.width a.value to) }
{
    let low = low_bits(a, to);
    if flags.nuw && a.value() as u128 >= limit(to) {
        return Err(Trap::Nuw);
    }
    if flags.nsw && wrapped(a.width(), signed_value(low)).value() != a.value() {
        return Err(Trap::Nsw);
    }
    Ok(low)
}

/// The low `to` bits of a word, as a word of that width.
fn low_bits(a: Word, to: u8) -> Word
    requires some { 1 ≤ to }
    requires few { to ≤ 64 }
    ensures { result ≡ record { width = to; value = a.value % 2 ^ to } }
{
    Word::new(to, (a.value() as u128 % limit(to)) as u64)
}

/// The word of `to` bits with the same number, zeros above it.
fn widened(a: Word, to: u8) -> Word
    requires more { a.width ≤ to }
    requires few { to ≤ 64 }
    ensures { result ≡ record { width = to; value = a.value } }
{
    Word::new(to, a.value())
}
