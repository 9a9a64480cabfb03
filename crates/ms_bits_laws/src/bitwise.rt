//! The masks of `and`, `or` and `xor`.
//! v and u are the numbers of two words of w bits, m and k their masks; a and c complete the first word, b and d the second.
ghost use Rattle.std.specs.Prelude.{◌≡◌, ◌<◌, ◌^◌, ℕ, bit_and, bit_or, bit_xor, Ok};
ghost use Rattle.ms_bits.specs.{Arithmetic.{binary_of}, Completion.{InRange, Agrees, Completes, IsMaskOf, mask_of}};
ghost use Rattle.ms_bits.specs.{Formulas.{union_mask, and_mask, or_mask}, declared.operations.Flags.{Flags}};
ghost use Rattle.ms_bits.specs.declared.operations.BinOp.TheVariants.{And, Or, Xor};

/// `and`: a bit is poisoned where no operand has a defined 0 and some operand is poisoned.
pub fn and_is_exact()
    ensures answer { (flags : Flags) (w a b r : ℕ)
        → binary_of And flags w a b ≡ Ok r → r ≡ bit_and a b }
    ensures exact { (w v m u k : ℕ) → InRange w v m → InRange w u k
        → IsMaskOf bit_and w v m u k w (and_mask v m u k) }
    ensures by_completions { (w v m u k : ℕ) → InRange w v m → InRange w u k
        → and_mask v m u k ≡ mask_of bit_and w v m u k w }
    ensures fits { (w v m u k : ℕ) → InRange w v m → InRange w u k → and_mask v m u k < 2 ^ w }
    ensures agrees { (w v m u k a b c d : ℕ) → InRange w v m → InRange w u k
        → Completes w v m a → Completes w u k b → Completes w v m c → Completes w u k d
        → Agrees w (and_mask v m u k) (bit_and a b) (bit_and c d) }
    ensures same { (w v m u k a b : ℕ)
        → InRange w v m → InRange w u k → Completes w v m a → Completes w u k b
        → and_mask a m b k ≡ and_mask v m u k }
{}

/// `or`: a bit is poisoned where no operand has a defined 1 and some operand is poisoned.
pub fn or_is_exact()
    ensures answer { (flags : Flags) (w a b r : ℕ)
        → binary_of Or flags w a b ≡ Ok r → r ≡ bit_or a b }
    ensures exact { (w v m u k : ℕ) → InRange w v m → InRange w u k
        → IsMaskOf bit_or w v m u k w (or_mask w v m u k) }
    ensures by_completions { (w v m u k : ℕ) → InRange w v m → InRange w u k
        → or_mask w v m u k ≡ mask_of bit_or w v m u k w }
    ensures fits { (w v m u k : ℕ) → InRange w v m → InRange w u k → or_mask w v m u k < 2 ^ w }
    ensures agrees { (w v m u k a b c d : ℕ) → InRange w v m → InRange w u k
        → Completes w v m a → Completes w u k b → Completes w v m c → Completes w u k d
        → Agrees w (or_mask w v m u k) (bit_or a b) (bit_or c d) }
    ensures same { (w v m u k a b : ℕ)
        → InRange w v m → InRange w u k → Completes w v m a → Completes w u k b
        → or_mask w a m b k ≡ or_mask w v m u k }
{}

/// `xor`: a bit is poisoned where one of the operands is.
pub fn xor_is_exact()
    ensures answer { (flags : Flags) (w a b r : ℕ)
        → binary_of Xor flags w a b ≡ Ok r → r ≡ bit_xor a b }
    ensures exact { (w v m u k : ℕ) → InRange w v m → InRange w u k
        → IsMaskOf bit_xor w v m u k w (union_mask m k) }
    ensures by_completions { (w v m u k : ℕ) → InRange w v m → InRange w u k
        → union_mask m k ≡ mask_of bit_xor w v m u k w }
    ensures fits { (w v m u k : ℕ) → InRange w v m → InRange w u k → union_mask m k < 2 ^ w }
    ensures agrees { (w v m u k a b c d : ℕ) → InRange w v m → InRange w u k
        → Completes w v m a → Completes w u k b → Completes w v m c → Completes w u k d
        → Agrees w (union_mask m k) (bit_xor a b) (bit_xor c d) }
{}
