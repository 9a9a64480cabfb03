//! Comparisons of words.
ghost use Rattle.std.specs.Prelude.{◌≡◌};
ghost use Rattle.ms_bits.specs.Conversions.{compare_of, holds};

use crate::operations::{Flags, Pred};
use crate::traps::Trap;
use crate::twos_complement::{is_negative, signed_value};
use crate::words::Word;

/// Whether the predicate holds of two words of one width (LLVM Language Reference, "'icmp' Instruction"). A flag other than
/// `samesign` is not looked at. Takes no memory.
///
/// # Errors
///
/// `Samesign` where the flag is there and the sign bits differ.
#[inline(always)]
#[tactic(auto, unfolding(crate::specs::Conversions::compare_of))]
pub fn compare(pred: Pred, flags: Flags, a: Word, b: Word) -> Result<bool, Trap>
    requires same_width { a.width ≡ b.width }
    ensures { result ≡ compare_of pred flags a.width a.value b.value }
{
    if flags.samesign && is_negative(a) != is_negative(b) {
        return Err(Trap::Samesign);
    }
    Ok(is_true_of(pred, a, b))
}

/// Whether the predicate holds, whatever the flag.
#[inline(always)]
#[tactic(auto, unfolding(crate::specs::Conversions::holds))]
fn is_true_of(pred: Pred, a: Word, b: Word) -> bool
    requires same_width { a.width ≡ b.width }
    ensures { result ≡ holds pred a.width a.value b.value }
{
    match pred {
        Pred::Eq => a.value() == b.value(),
        Pred::Ne => a.value() != b.value(),
        Pred::Ugt => a.value() > b.value(),
        Pred::Uge => a.value() >= b.value(),
        Pred::Ult => a.value() < b.value(),
        Pred::Ule => a.value() <= b.value(),
        Pred::Sgt => signed_value(a) > signed_value(b),
        Pred::Sge => signed_value(a) >= signed_value(b),
        Pred::Slt => signed_value(a) < signed_value(b),
        Pred::Sle => signed_value(a) <= signed_value(b),
    }
}
