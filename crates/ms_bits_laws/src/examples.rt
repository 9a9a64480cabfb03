//! Masks and copies of small numbers, worked out by hand and computed by the check. Words have 8 bits. The arguments of a mask
//! are the width where the formula needs it, then for each operand its number and its mask.
ghost use Rattle.std.specs.Prelude.{◌≡◌, [], ◌∷◌};
ghost use Rattle.ms_bits.specs.Maps.{bytes_at, copied, copied_cells};
ghost use Rattle.ms_bits.specs.Formulas.{union_mask, and_mask, or_mask, compare_mask, select_mask, carry_mask};
ghost use Rattle.ms_bits.specs.declared.operations.Pred.TheVariants.{Eq, Ult, Slt};

/// A poisoned byte against 0 and against 15, and two masks.
pub fn bitwise_masks()
    ensures and_zero { and_mask 0 255 0 0 ≡ 0 }
    ensures and_ones { and_mask 0 255 15 0 ≡ 15 }
    ensures or_ones { or_mask 8 0 255 15 0 ≡ 240 }
    ensures xor { union_mask 3 12 ≡ 15 }
{}

/// A byte whose low half is poisoned is 32 to 47 or 0 to 15; one whose sign is poisoned is 1 or -127.
pub fn compare_masks()
    ensures never_equal { compare_mask Eq 8 32 15 16 0 ≡ 0 }
    ensures maybe_equal { compare_mask Eq 8 32 15 37 0 ≡ 1 }
    ensures always_below { compare_mask Ult 8 0 15 16 0 ≡ 0 }
    ensures maybe_below { compare_mask Ult 8 0 15 8 0 ≡ 1 }
    ensures signed { compare_mask Slt 8 1 128 127 0 ≡ 0 }
    ensures unsigned { compare_mask Ult 8 1 128 127 0 ≡ 1 }
{}

/// A defined condition takes one operand's mask, a poisoned one the bits in which 5 and 4 differ.
pub fn select_masks()
    ensures chosen { select_mask 1 0 5 2 4 8 ≡ 2 }
    ensures other { select_mask 0 0 5 2 4 8 ≡ 8 }
    ensures poisoned { select_mask 0 1 5 0 4 0 ≡ 1 }
{}

/// Bit 2 poisons the bits from 2 on, no bit poisons none, and the highest bit itself alone.
pub fn carry_masks()
    ensures some { carry_mask 8 4 ≡ 252 }
    ensures none { carry_mask 8 0 ≡ 0 }
    ensures top { carry_mask 8 128 ≡ 128 }
{}

/// The bytes 0, 1 and 2 are copied one place up; of two bytes of one cell the later one gives the origin. The arguments of
/// `copied_cells` are shadow, the source's origins, target, source, how many bytes, the cells before, and the cell that is asked
/// for.
pub fn overlapping_copies()
    ensures bytes { bytes_at (copied (λ x. x) 1 0 3) 0 5 ≡ 0 ∷ 0 ∷ 1 ∷ 2 ∷ 4 ∷ [] }
    ensures origins { copied_cells (λ x. 1) (λ x. x) 8 3 2 (λ x. 9) 2 ≡ 1 }
    ensures clean { copied_cells (λ x. 0) (λ x. x) 8 3 2 (λ x. 9) 2 ≡ 9 }
{}
