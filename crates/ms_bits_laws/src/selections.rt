//! The mask of `select`.
//! t is the number of the condition, a word of one bit, and n its mask. v and u are the numbers of two words of w bits, m and k
//! their masks. p and q complete the condition, a and c the first word, b and d the second.
ghost use Rattle.std.specs.Prelude.{◌≡◌, ◌<◌, ◌^◌, ℕ};
ghost use Rattle.ms_bits.specs.Conversions.{select_of};
ghost use Rattle.ms_bits.specs.Completion.{InRange, Agrees, Completes, IsSelectMaskOf, select_mask_of};
ghost use Rattle.ms_bits.specs.Formulas.{select_mask};

/// The mask of a selection that tries all completions is exact, and it is the only exact one.
pub fn selection_masks_by_completions()
    ensures exact { (t n w v m u k : ℕ)
        → IsSelectMaskOf t n w v m u k (select_mask_of t n w v m u k) }
    ensures fits { (t n w v m u k : ℕ) → select_mask_of t n w v m u k < 2 ^ w }
    ensures unique { (t n w v m u k r s : ℕ) → r < 2 ^ w → s < 2 ^ w
        → IsSelectMaskOf t n w v m u k r → IsSelectMaskOf t n w v m u k s → r ≡ s }
{}

/// With a defined condition the chosen operand's mask is exact, and with a poisoned one also the bits in which the operands
/// differ are poisoned.
pub fn selections_are_exact()
    ensures exact { (t n w v m u k : ℕ) → InRange 1 t n → InRange w v m → InRange w u k
        → IsSelectMaskOf t n w v m u k (select_mask t n v m u k) }
    ensures by_completions { (t n w v m u k : ℕ) → InRange 1 t n → InRange w v m → InRange w u k
        → select_mask t n v m u k ≡ select_mask_of t n w v m u k }
    ensures fits { (t n w v m u k : ℕ)
        → InRange w v m → InRange w u k → select_mask t n v m u k < 2 ^ w }
    ensures agrees { (t n w v m u k p a b q c d : ℕ) → InRange 1 t n → InRange w v m → InRange w u k
        → Completes 1 t n p → Completes w v m a → Completes w u k b
        → Completes 1 t n q → Completes w v m c → Completes w u k d
        → Agrees w (select_mask t n v m u k) (select_of p a b) (select_of q c d) }
    ensures same { (t n w v m u k p a b : ℕ) → InRange 1 t n → InRange w v m → InRange w u k
        → Completes 1 t n p → Completes w v m a → Completes w u k b
        → select_mask p n a m b k ≡ select_mask t n v m u k }
{}
