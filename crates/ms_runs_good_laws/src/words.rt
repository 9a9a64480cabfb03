//! What operations give of words in range.
ghost use Rattle.std.specs.Prelude.{◌<◌, ◌≤◌, ◌^◌, ℕ, IfOk};
ghost use Rattle.ms_bits.specs.{declared.operations.Flags.{Flags}, declared.operations.BinOp.{BinOp}};
ghost use Rattle.ms_bits.specs.{declared.operations.CastOp.{CastOp}, declared.operations.Pred.{Pred}};
ghost use Rattle.ms_bits.specs.{Arithmetic.{binary_of}, Conversions.{Allows, cast_of, compare_of, select_of}};
ghost use Rattle.ms_runs.specs.Act.{truth};

/// Of words of a width, an operation gives a word of that width, a comparison one of 1 bit, a cast one of the width that
/// it is allowed to give, and a selection one below what both operands are below.
pub fn words_fit()
    ensures operations { (o : BinOp) (flags : Flags) (w a b : ℕ) → a < 2 ^ w → b < 2 ^ w → IfOk (binary_of o flags w a b) (λ v. v < 2 ^ w) }
    ensures comparisons { (o : Pred) (flags : Flags) (w a b : ℕ) → IfOk (truth (compare_of o flags w a b)) (λ v. v < 2) }
    ensures casts { (o : CastOp) (flags : Flags) (w a to : ℕ) → w ≤ 64 → Allows o w to → a < 2 ^ w → IfOk (cast_of o flags w a to) (λ v. v < 2 ^ to) }
    ensures selections { (bound c a b : ℕ) → a < bound → b < bound → select_of c a b < bound }
{}
