//! The masks of functions of whole words: counts, bits in another order, two words shifted as one, the greater and the smaller of
//! two, absolute values, and sums and differences that stay within the width.
//! v, u and t are the numbers of words of w bits, and m, k and n their masks; a and d complete the first word, b and e the
//! second, c and g the third. x and y are answers.
ghost use Rattle.std.specs.Prelude.{◌≡◌, ◌<◌, ◌≤◌, ◌^◌, ◌%◌, ℕ, Ok};
ghost use Rattle.ms_bits.specs.Completion.{InRange, Agrees, Completes, IsMaskOf};
ghost use Rattle.ms_bits.specs.WordFunctions.{bswap_of, bitreverse_of, fshl_of, fshr_of, HasForm, word_answer, word_mask};
ghost use Rattle.ms_bits.specs.declared.word_functions.WordFn.{WordFn};

/// Where bits change their places alone, the mask is the same function of the masks, and it is exact.
pub fn moved_bits_are_exact()
    ensures bswap { (w v m u k : ℕ) → w % 8 ≡ 0 → InRange w v m → InRange w u k
        → IsMaskOf (λ a b. bswap_of w a) w v m u k w (bswap_of w m) }
    ensures bitreverse { (w v m u k : ℕ) → InRange w v m → InRange w u k
        → IsMaskOf (λ a b. bitreverse_of w a) w v m u k w (bitreverse_of w m) }
    ensures fshl { (w v m u k amount : ℕ) → 1 ≤ w → InRange w v m → InRange w u k
        → IsMaskOf (λ a b. fshl_of w a b amount) w v m u k w (fshl_of w m k amount) }
    ensures fshr { (w v m u k amount : ℕ) → 1 ≤ w → InRange w v m → InRange w u k
        → IsMaskOf (λ a b. fshr_of w a b amount) w v m u k w (fshr_of w m k amount) }
{}

/// Outside the mask all choices of completions whose answers don't trap give the same bits. The mask fits the width, is
/// the same whichever completions stand for the words, and is 0 of words without a poisoned bit.
pub fn word_masks_hold()
    ensures agrees { (f : WordFn) (w v m u k t n a b c d e g x y : ℕ) → 1 ≤ w → w ≤ 64 → HasForm f w
        → InRange w v m → InRange w u k → InRange w t n
        → Completes w v m a → Completes w u k b → Completes w t n c
        → Completes w v m d → Completes w u k e → Completes w t n g
        → word_answer f w a b c ≡ Ok x → word_answer f w d e g ≡ Ok y
        → Agrees w (word_mask f w v m u k t n) x y }
    ensures same { (f : WordFn) (w v m u k t n a b c : ℕ) → 1 ≤ w
        → InRange w v m → InRange w u k → InRange w t n
        → Completes w v m a → Completes w u k b → Completes w t n c
        → word_mask f w a m b k c n ≡ word_mask f w v m u k t n }
    ensures fits { (f : WordFn) (w v m u k t n : ℕ) → 1 ≤ w → InRange w v m → InRange w u k
        → word_mask f w v m u k t n < 2 ^ w }
    ensures clean { (f : WordFn) (w v u t : ℕ) → word_mask f w v 0 u 0 t 0 ≡ 0 }
{}

/// An answer fits the width.
pub fn word_answers_fit()
    ensures { (f : WordFn) (w a b c x : ℕ) → 1 ≤ w → w ≤ 64 → a < 2 ^ w → b < 2 ^ w
        → word_answer f w a b c ≡ Ok x → x < 2 ^ w }
{}
