//! The masks of `add`, `sub` and `mul`, and of every other sum of products.
//! m and k are the masks of two words of w bits, and s is any mask; a and c are numbers of the first word, b and d of the second,
//! which agree outside its mask.
ghost use Rattle.std.specs.{Prelude.{◌≡◌, ◌<◌, ◌^◌, ◌%◌, ◌↔◌, ◌⊎◌, ℕ, suc, Ok}, Int.{bit_at}};
ghost use Rattle.ms_bits.specs.{Arithmetic.{binary_of}, Completion.{InRange, Agrees}};
ghost use Rattle.ms_bits.specs.{Formulas.{union_mask, carry_mask, HasBitUpTo}, declared.operations.Flags.{Flags}};
ghost use Rattle.ms_bits.specs.declared.operations.BinOp.TheVariants.{Add, Sub, Mul};

/// The union of two masks: what agrees outside one of them agrees outside the union.
pub fn unions()
    ensures bits { (m k i : ℕ)
        → (bit_at (union_mask m k) i ≡ 1) ↔ ((bit_at m i ≡ 1) ⊎ (bit_at k i ≡ 1)) }
    ensures left { (w m k a c : ℕ) → Agrees w m a c → Agrees w (union_mask m k) a c }
    ensures right { (w m k a c : ℕ) → Agrees w k a c → Agrees w (union_mask m k) a c }
{}

/// A poisoned bit reaches every higher bit by carries, and no lower one.
pub fn carries()
    ensures bits { (w s i : ℕ)
        → s < 2 ^ w → i < w → (bit_at (carry_mask w s) i ≡ 1) ↔ HasBitUpTo s i }
    ensures of_unions { (m k i : ℕ)
        → HasBitUpTo (union_mask m k) i ↔ (HasBitUpTo m i ⊎ HasBitUpTo k i) }
    ensures fits { (w s : ℕ) → s < 2 ^ w → carry_mask w s < 2 ^ w }
{}

/// Sums, differences and products of words that agree outside their masks agree outside the carry mask of the union.
pub fn sums_agree()
    ensures add { (f g : Flags) (w m k a b c d r s : ℕ) → InRange w a m → InRange w b k
        → InRange w c m → InRange w d k → Agrees w m a c → Agrees w k b d
        → binary_of Add f w a b ≡ Ok r → binary_of Add g w c d ≡ Ok s
        → Agrees w (carry_mask w (union_mask m k)) r s }
    ensures sub { (f g : Flags) (w m k a b c d r s : ℕ) → InRange w a m → InRange w b k
        → InRange w c m → InRange w d k → Agrees w m a c → Agrees w k b d
        → binary_of Sub f w a b ≡ Ok r → binary_of Sub g w c d ≡ Ok s
        → Agrees w (carry_mask w (union_mask m k)) r s }
    ensures mul { (f g : Flags) (w m k a b c d r s : ℕ) → InRange w a m → InRange w b k
        → InRange w c m → InRange w d k → Agrees w m a c → Agrees w k b d
        → binary_of Mul f w a b ≡ Ok r → binary_of Mul g w c d ≡ Ok s
        → Agrees w (carry_mask w (union_mask m k)) r s }
{}

/// Results of any number of operands, by an operation that keeps remainders at powers of 2 as an address does, agree outside
/// the carry mask of the union: where its bit is 0, all operands are known up to that bit.
pub fn remainders()
    ensures known { (w s a c i : ℕ)
        → s < 2 ^ w → Agrees w s a c → i < w → bit_at (carry_mask w s) i ≡ 0
        → a % 2 ^ suc i ≡ c % 2 ^ suc i }
    ensures agrees { (w s a c : ℕ)
        → ((i : ℕ) → i < w → bit_at (carry_mask w s) i ≡ 0 → a % 2 ^ suc i ≡ c % 2 ^ suc i)
        → Agrees w (carry_mask w s) a c }
{}
