//! Masks of single operations on words of eight bits, computed by the prover: `word bits mask` is an operand with its mask.
ghost use Rattle.std.specs.Prelude.{◌≡◌, [], ◌∷◌};
ghost use Rattle.ms_bits.specs.declared.operations.BinOp.TheVariants as binary;
ghost use Rattle.ms_bits.specs.declared.operations.CastOp.TheVariants as cast;
ghost use Rattle.ms_bits.specs.declared.operations.Pred.TheVariants as predicate;
ghost use Rattle.ms_runs.specs.Masks.{by_completions, binary_mask};
ghost use Rattle.ms_runs_examples.specs.RunPrograms.{word, cast_mask};

/// A shift shifts the mask, and by a poisoned amount it poisons all bits. A division has its dividend's mask; in a sum each
/// bit above a poisoned one is poisoned.
pub fn of_arithmetic()
    ensures shl { binary_mask by_completions binary.Shl 8 (word 0 0x81) (word 1 0) ≡ 0x02 }
    ensures lshr { binary_mask by_completions binary.Lshr 8 (word 0 0x81) (word 1 0) ≡ 0x40 }
    ensures ashr { binary_mask by_completions binary.Ashr 8 (word 0 0x81) (word 1 0) ≡ 0xc0 }
    ensures poisoned_amount { binary_mask by_completions binary.Shl 8 (word 1 0) (word 0 1) ≡ 0xff }
    ensures division { binary_mask by_completions binary.Udiv 8 (word 8 0x0c) (word 2 0) ≡ 0x0c }
    ensures sum { binary_mask by_completions binary.Add 8 (word 0 0x10) (word 3 0) ≡ 0xf0 }
    ensures difference { binary_mask by_completions binary.Sub 8 (word 0 0x10) (word 3 0x04) ≡ 0xfc }
    ensures clean_product { binary_mask by_completions binary.Mul 8 (word 1 0) (word 3 0) ≡ 0 }
{}

/// A known 0 settles an `and`, a known 1 an `or`, and nothing an exclusive or.
pub fn of_bits()
    ensures and { binary_mask by_completions binary.And 8 (word 0 0x0f) (word 0x35 0) ≡ 0x05 }
    ensures or { binary_mask by_completions binary.Or 8 (word 0 0x0f) (word 0x35 0) ≡ 0x0a }
    ensures xor { binary_mask by_completions binary.Xor 8 (word 0 0x0f) (word 0x35 0x30) ≡ 0x3f }
{}

/// A comparison is settled where no choice of poisoned bits changes it.
pub fn of_comparisons()
    ensures between_32_and_47 { by_completions.compare predicate.Ult 8 (word 0x25 0x0f) (word 16 0) ≡ 0 }
    ensures around_40 { by_completions.compare predicate.Ult 8 (word 0x25 0x0f) (word 40 0) ≡ 1 }
    ensures one_bit_differs { by_completions.compare predicate.Eq 8 (word 1 0xfe) (word 0 0) ≡ 0 }
    ensures sign_unknown { by_completions.compare predicate.Slt 8 (word 0 0x80) (word 0 0) ≡ 1 }
{}

/// A cast does to the mask what it does to the word.
pub fn of_casts()
    ensures trunc { cast_mask cast.Trunc 16 0x0180 8 ≡ 0x80 }
    ensures zext { cast_mask cast.Zext 8 0x80 16 ≡ 0x0080 }
    ensures sext { cast_mask cast.Sext 8 0x80 16 ≡ 0xff80 }
{}
