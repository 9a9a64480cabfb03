//! The masks of `shl`, `lshr` and `ashr`.
//! Each bit of the result comes from one bit of the first operand, so the same shift of its mask serves.
//! a and c are words of w bits, m their mask; r, s and n are what the shift makes of them; f, g and h are flags.
ghost use Rattle.std.specs.Prelude.{◌≡◌, ◌<◌, ◌≤◌, ◌^◌, ◌+◌, ◌-◌, ◌*◌, ◌%◌, ◌↔◌, ◌*ℤ◌, pos, ℕ, min, true, false, Ok};
ghost use Rattle.std.specs.Int.{bit_at};
ghost use Rattle.ms_bits.specs.{Arithmetic.{binary_of}, Signed.{signed, fits_signed}, Completion.{InRange, Agrees}};
ghost use Rattle.ms_bits.specs.declared.operations.Flags.{Flags};
ghost use Rattle.ms_bits.specs.declared.operations.BinOp.TheVariants.{Shl, Lshr, Ashr};

/// Where each bit of a shifted word of w bits comes from: zeros from the right, zeros from the left, or copies of the sign
/// bit, bit w - 1.
pub fn shifted_bits()
    ensures shl_low { (f : Flags) (w a amount i r : ℕ) → binary_of Shl f w a amount ≡ Ok r
        → i < w → i < amount → bit_at r i ≡ 0 }
    ensures shl_high { (f : Flags) (w a amount i r : ℕ) → binary_of Shl f w a amount ≡ Ok r
        → i < w → amount ≤ i → bit_at r i ≡ bit_at a (i - amount) }
    ensures lshr { (f : Flags) (w a amount i r : ℕ) → binary_of Lshr f w a amount ≡ Ok r
        → bit_at r i ≡ bit_at a (amount + i) }
    ensures ashr { (f : Flags) (w a amount i r : ℕ) → a < 2 ^ w → binary_of Ashr f w a amount ≡ Ok r
        → i < w → bit_at r i ≡ bit_at a (min (amount + i) (w - 1)) }
{}

/// A shifted word, and so a shifted mask, has no bit past the width.
pub fn shifted_words_fit()
    ensures shl { (f : Flags) (w a amount r : ℕ) → binary_of Shl f w a amount ≡ Ok r → r < 2 ^ w }
    ensures lshr { (f : Flags) (w a amount r : ℕ) → a < 2 ^ w → binary_of Lshr f w a amount ≡ Ok r
        → r < 2 ^ w }
    ensures ashr { (f : Flags) (w a amount r : ℕ) → binary_of Ashr f w a amount ≡ Ok r → r < 2 ^ w }
{}

/// Words that agree outside a mask, shifted by one amount, agree outside the shifted mask. Of shifts by a poisoned amount
/// every bit is poisoned.
pub fn shifts_agree()
    ensures shl { (f g h : Flags) (w m a c amount n r s : ℕ) → InRange w a m → InRange w c m
        → Agrees w m a c → binary_of Shl h w m amount ≡ Ok n
        → binary_of Shl f w a amount ≡ Ok r → binary_of Shl g w c amount ≡ Ok s
        → Agrees w n r s }
    ensures lshr { (f g h : Flags) (w m a c amount n r s : ℕ) → InRange w a m → InRange w c m
        → Agrees w m a c → binary_of Lshr h w m amount ≡ Ok n
        → binary_of Lshr f w a amount ≡ Ok r → binary_of Lshr g w c amount ≡ Ok s
        → Agrees w n r s }
    ensures ashr { (f g h : Flags) (w m a c amount n r s : ℕ) → InRange w a m → InRange w c m
        → Agrees w m a c → binary_of Ashr h w m amount ≡ Ok n
        → binary_of Ashr f w a amount ≡ Ok r → binary_of Ashr g w c amount ≡ Ok s
        → Agrees w n r s }
    ensures all_poisoned { (w r s : ℕ) → Agrees w (2 ^ w - 1) r s }
{}

/// `shl nsw` by bits: the signed product fits where each bit that is shifted out is the result's sign bit, and with this flag
/// alone `shl` answers exactly there.
pub fn signed_wrap_by_bits()
    ensures fits { (w a amount : ℕ) → amount < w → a < 2 ^ w
        → (fits_signed w (signed w a *ℤ pos (2 ^ amount)) ≡ true)
        ↔ ((j : ℕ) → w - amount ≤ j → j < w
        → bit_at a j ≡ bit_at ((a * 2 ^ amount) % 2 ^ w) (w - 1)) }
    ensures answers { (flags : Flags) (w a amount : ℕ) → flags.nsw ≡ true → flags.nuw ≡ false
        → amount < w → a < 2 ^ w
        → (binary_of Shl flags w a amount ≡ Ok ((a * 2 ^ amount) % 2 ^ w))
        ↔ ((j : ℕ) → w - amount ≤ j → j < w
        → bit_at a j ≡ bit_at ((a * 2 ^ amount) % 2 ^ w) (w - 1)) }
{}
