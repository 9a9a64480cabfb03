//! What holds of every operation and every exact mask, and of the least and the greatest completion.
//! v and u are the numbers of two words of w bits, m and k their masks; a and c complete the first word, b and d the second. f is
//! an operation with results of `to` bits, and r a mask of its result.
//! `InRange`: number and mask fit the width. `Agrees`: two words are the same outside a mask. `Completes`: a word is the number
//! outside its mask. `IsMaskOf`: a mask is exact: it has just those bits of a result that two completions give differently.
ghost use Rattle.std.specs.Prelude.{◌≡◌, ◌<◌, ◌≤◌, ◌^◌, ℕ};
ghost use Rattle.ms_bits.specs.Completion.{InRange, Agrees, Completes, IsMaskOf, IsSelectMaskOf, mask_of, select_mask_of};
ghost use Rattle.ms_bits.specs.{Formulas.{greatest, least}, Conversions.{select_of}};

/// Words that agree outside a mask; where the mask is 0 they are equal.
pub fn agreement()
    ensures itself { (w m a : ℕ) → Agrees w m a a }
    ensures turned_round { (w m a c : ℕ) → Agrees w m a c → Agrees w m c a }
    ensures through { (w m a v c : ℕ) → Agrees w m a v → Agrees w m v c → Agrees w m a c }
    ensures defined { (w a c : ℕ) → a < 2 ^ w → c < 2 ^ w → Agrees w 0 a c → a ≡ c }
{}

/// The mask that tries all completions is exact, and it is the only exact mask of its width.
pub fn masks_by_completions()
    ensures exact { (f : ℕ → ℕ → ℕ) (w v m u k to : ℕ)
        → IsMaskOf f w v m u k to (mask_of f w v m u k to) }
    ensures fits { (f : ℕ → ℕ → ℕ) (w v m u k to : ℕ) → mask_of f w v m u k to < 2 ^ to }
    ensures unique { (f : ℕ → ℕ → ℕ) (w v m u k to r s : ℕ) → r < 2 ^ to → s < 2 ^ to
        → IsMaskOf f w v m u k to r → IsMaskOf f w v m u k to s → r ≡ s }
{}

/// Outside an exact mask the results of any two choices of completions agree, and the mask is the same
/// whichever completion is taken as a word's number. Of operands without a poisoned bit it is 0.
pub fn exact_masks()
    ensures agrees { (f : ℕ → ℕ → ℕ) (w v m u k to r a b c d : ℕ) → IsMaskOf f w v m u k to r
        → Completes w v m a → Completes w u k b → Completes w v m c → Completes w u k d
        → Agrees to r (f a b) (f c d) }
    ensures same { (f : ℕ → ℕ → ℕ) (w v m u k to r a b : ℕ) → IsMaskOf f w v m u k to r
        → Agrees w m v a → Agrees w k u b → IsMaskOf f w a m b k to r }
    ensures clean { (f : ℕ → ℕ → ℕ) (w v u to r : ℕ)
        → r < 2 ^ to → IsMaskOf f w v 0 u 0 to r → r ≡ 0 }
{}

/// The least and the greatest completion of a word are completions, and every other one lies between them.
pub fn extremes()
    ensures least_completes { (w v m : ℕ) → InRange w v m → Completes w v m (least v m) }
    ensures greatest_completes { (w v m : ℕ) → InRange w v m → Completes w v m (greatest v m) }
    ensures above_least { (w v m c : ℕ) → InRange w v m → Completes w v m c → least v m ≤ c }
    ensures below_greatest { (w v m c : ℕ) → InRange w v m → Completes w v m c → c ≤ greatest v m }
{}
