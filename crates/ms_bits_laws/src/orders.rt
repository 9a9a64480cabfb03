//! The masks of `icmp`, for every predicate.
//! v and u are the numbers of two words of w bits, m and k their masks; a and c complete the first word, b and d the second. An
//! answer is a word of one bit.
ghost use Rattle.std.specs.{Prelude.{◌≡◌, ◌<◌, ◌≤◌, ◌^◌, ℕ, Bool, ltb, int_lt, Ok}, Int.{from_bool}};
ghost use Rattle.ms_bits.specs.{Signed.{signed}, Conversions.{holds, compare_of}};
ghost use Rattle.ms_bits.specs.Completion.{InRange, Agrees, Completes, IsMaskOf, mask_of};
ghost use Rattle.ms_bits.specs.{Formulas.{order_mask, turned_sign, compare_mask}, declared.operations.Flags.{Flags}};
ghost use Rattle.ms_bits.specs.declared.operations.Pred.{Pred};

/// A comparison's answer is poisoned exactly where two choices of completions answer differently. For `eq` and `ne` this
/// is where no bit that is defined in both operands differs and some bit is poisoned, for the ordered predicates where the
/// answers at the two extremes differ.
pub fn comparisons_are_exact()
    ensures answer { (predicate : Pred) (flags : Flags) (w a b : ℕ) (r : Bool)
        → compare_of predicate flags w a b ≡ Ok r → r ≡ holds predicate w a b }
    ensures exact { (predicate : Pred) (w v m u k : ℕ) → 1 ≤ w → InRange w v m → InRange w u k
        → IsMaskOf (λ a b. from_bool (holds predicate w a b)) w v m u k 1
        (compare_mask predicate w v m u k) }
    ensures by_completions { (predicate : Pred) (w v m u k : ℕ)
        → 1 ≤ w → InRange w v m → InRange w u k
        → compare_mask predicate w v m u k
        ≡ mask_of (λ a b. from_bool (holds predicate w a b)) w v m u k 1 }
    ensures fits { (predicate : Pred) (w v m u k : ℕ) → compare_mask predicate w v m u k < 2 ^ 1 }
    ensures agrees { (predicate : Pred) (w v m u k a b c d : ℕ)
        → 1 ≤ w → InRange w v m → InRange w u k
        → Completes w v m a → Completes w u k b → Completes w v m c → Completes w u k d
        → Agrees 1 (compare_mask predicate w v m u k)
        (from_bool (holds predicate w a b)) (from_bool (holds predicate w c d)) }
    ensures same { (predicate : Pred) (w v m u k a b : ℕ) → 1 ≤ w → InRange w v m → InRange w u k
        → Completes w v m a → Completes w u k b
        → compare_mask predicate w a m b k ≡ compare_mask predicate w v m u k }
{}

/// The two strict orders, spelled out: the signed one is the unsigned one with the sign bits turned.
pub fn two_orders()
    ensures unsigned { (w v m u k : ℕ) → 1 ≤ w → InRange w v m → InRange w u k
        → IsMaskOf (λ a b. from_bool (ltb a b)) w v m u k 1 (order_mask ltb v m u k) }
    ensures signed { (w v m u k : ℕ) → 1 ≤ w → InRange w v m → InRange w u k
        → IsMaskOf (λ a b. from_bool (int_lt (signed w a) (signed w b))) w v m u k 1
        (order_mask ltb (turned_sign w v) m (turned_sign w u) k) }
{}
