//! The masks of casts: the same cast of the mask. A cast to `to` bits of a word of w bits.
//! a and c are words and m their mask; r, s and n are what the cast makes of them; f, g and h are flags.
ghost use Rattle.std.specs.{Prelude.{◌≡◌, ◌<◌, ◌≤◌, ◌^◌, ◌-◌, ℕ, min, Ok}, Int.{bit_at}};
ghost use Rattle.ms_bits.specs.{Conversions.{Allows, cast_of}, Completion.{InRange, Agrees}};
ghost use Rattle.ms_bits.specs.{declared.operations.Flags.{Flags}, declared.operations.CastOp.{CastOp}};
ghost use Rattle.ms_bits.specs.declared.operations.CastOp.TheVariants.{Trunc, Zext, Sext, PtrToInt, IntToPtr, Bitcast};

/// Where each bit of a cast word comes from: a narrower word keeps its low bits, a wider one gets zeros, or with `sext`
/// copies of its sign bit, bit w - 1.
pub fn cast_bits()
    ensures trunc { (f : Flags) (w a to i r : ℕ) → cast_of Trunc f w a to ≡ Ok r → i < to
        → bit_at r i ≡ bit_at a i }
    ensures ptrtoint { (f : Flags) (w a to i r : ℕ) → cast_of PtrToInt f w a to ≡ Ok r → i < to
        → bit_at r i ≡ bit_at a i }
    ensures zext { (f : Flags) (w a to r : ℕ) → cast_of Zext f w a to ≡ Ok r → r ≡ a }
    ensures inttoptr { (f : Flags) (w a to r : ℕ) → cast_of IntToPtr f w a to ≡ Ok r → r ≡ a }
    ensures bitcast { (f : Flags) (w a to r : ℕ) → cast_of Bitcast f w a to ≡ Ok r → r ≡ a }
    ensures sext { (f : Flags) (w a to i r : ℕ)
        → 1 ≤ w → w ≤ to → a < 2 ^ w → cast_of Sext f w a to ≡ Ok r
        → i < to → bit_at r i ≡ bit_at a (min i (w - 1)) }
{}

/// Words that agree outside a mask, cast alike, agree outside the mask cast in the same way, and a cast fits its width.
pub fn casts_agree()
    ensures agrees { (cast : CastOp) (f g h : Flags) (w to m a c n r s : ℕ)
        → 1 ≤ w → Allows cast w to
        → InRange w a m → InRange w c m → Agrees w m a c → cast_of cast h w m to ≡ Ok n
        → cast_of cast f w a to ≡ Ok r → cast_of cast g w c to ≡ Ok s
        → Agrees to n r s }
    ensures fits { (cast : CastOp) (f : Flags) (w to a r : ℕ)
        → w ≤ 64 → Allows cast w to → a < 2 ^ w
        → cast_of cast f w a to ≡ Ok r → r < 2 ^ to }
{}
