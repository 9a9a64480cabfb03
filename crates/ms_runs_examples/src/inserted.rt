//! Runs of instrumented modules, computed by the prover. The reports are worked out by hand from the rules of masks and
//! origins.
ghost use Rattle.std.specs.Prelude.{◌≡◌, [], ◌∷◌};
ghost use Rattle.ms_runs.specs.{Plain.{plain}, Masks.{by_formulas}, Shadow.{shadow_by}};
ghost use Rattle.ms_pass_laws.specs.{Pass.{pass}, Numbers.{numbering}};
ghost use Rattle.ms_runs_examples.specs.Instrumented.{branching, calling, five_reports, told};

/// A comparison of an undefined byte decides bit 2 of what is selected, which is shifted to bit 3, goes through a phi and
/// is returned from `main`.
pub fn branches()
    ensures same_run { plain (pass (numbering branching) branching) five_reports ≡ shadow_by by_formulas branching five_reports }
    ensures report { told (plain (pass (numbering branching) branching) five_reports) ≡ (7 ∷ 8 ∷ 32 ∷ 8 ∷ 1 ∷ []) ∷ [] }
{}

/// An undefined argument is handed over and back, stored in a block that was made larger, and printed with the byte that
/// was added. Both bytes touch one cell, which the store set last, so the origin leads back to the argument.
pub fn calls()
    ensures same_run { plain (pass (numbering calling) calling) five_reports ≡ shadow_by by_formulas calling five_reports }
    ensures report { told (plain (pass (numbering calling) calling) five_reports) ≡ (8 ∷ 7 ∷ 32 ∷ 65535 ∷ 1 ∷ []) ∷ [] }
{}
