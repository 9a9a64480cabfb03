//! How example modules run with their masks: laws about the definitions, computed by the prover. The values are worked out by
//! hand. `0xa5` is the one byte of the default fill; kinds of uses are numbered as in `ms_runs_uses::kinds`; `report` has site,
//! kind, part, mask, width and root.
ghost use Rattle.std.specs.Prelude.{◌≡◌, [], ◌∷◌};
ghost use Rattle.ms_bits.specs.declared.traps.Trap.TheVariants as trap;
ghost use Rattle.ms_runs.specs.declared.runs.End.TheVariants as «end»;
ghost use Rattle.ms_runs_examples.specs.Programs.{two_edges, returns_zero, branch_on_unset, masked_to_zero, ordered_compare, set_bit_is_not_zero, select_undef, two_unset, recursion, nested_call, write_with_gap, store_to_shadow, clang_unoptimised, sum_wraps, undef_divisor, frozen, three_branches};
ghost use Rattle.ms_runs_examples.specs.Setups.{defaults, filled, steps, exits, prints, spent, trapped, reported, report};
ghost use Rattle.ms_runs.specs.Shadow.{shadow};

/// Masks of words: a branch on unset bits is reported, and one that no choice of them changes isn't. An unset word of 32
/// bits may be 0; with one bit set it isn't. 32 to 47 are not below 16, and some of them are below 40.
pub fn masks_of_words()
    ensures returns_zero { shadow returns_zero defaults ≡ exits 0 }
    ensures branch_on_unset { shadow branch_on_unset defaults ≡ reported (report 4 1 0 1 1 1) }
    ensures masked_to_zero { shadow masked_to_zero defaults ≡ exits 0 }
    ensures never_below { shadow (ordered_compare 16) defaults ≡ exits 1 }
    ensures maybe_below { shadow (ordered_compare 40) defaults ≡ reported (report 4 1 0 1 1 1) }
    ensures set_bit_is_not_zero { shadow set_bit_is_not_zero defaults ≡ exits 1 }
    ensures six_or_four { shadow select_undef defaults ≡ reported (report 2 8 0 2 32 1) }
    ensures two_unset { shadow two_unset defaults ≡ reported (report 6 8 0 0xffffffff 32 2) }
    ensures undef_divisor { shadow undef_divisor (filled (0 ∷ [])) ≡ reported (report 1 4 1 0xffffffff 32 1) }
{}

/// Calls, memory and output: a poisoned argument comes back from its call, and a poisoned byte among those that are
/// written is reported before any is written. An ordinary program runs without a report.
pub fn masks_of_memory()
    ensures recursion { shadow (recursion 10) defaults ≡ exits 7 }
    ensures nested_call { shadow nested_call defaults ≡ reported (report 4 8 0 0xffffffff 32 1) }
    ensures write_with_gap { shadow write_with_gap defaults ≡ record (reported (report 6 9 2 0xff 8 1)) { output = 62 ∷ [] } }
    ensures clang_unoptimised { shadow clang_unoptimised defaults ≡ prints (111 ∷ 107 ∷ 10 ∷ []) («end».Exit 0) }
{}

/// Ends: a trap, spent steps, a report at the limit of them, and the count of a use that loses unset bits.
pub fn ends()
    ensures sum_wraps { shadow sum_wraps defaults ≡ trapped trap.Nsw 1 }
    ensures store_to_shadow { shadow store_to_shadow defaults ≡ trapped trap.BadAddress 5 }
    ensures three_steps { shadow branch_on_unset (steps 3) ≡ spent }
    ensures four_steps { shadow branch_on_unset (steps 4) ≡ reported (report 4 1 0 1 1 1) }
    ensures two_reports { shadow three_branches (record defaults { reports = 2 })
        ≡ record (prints (97 ∷ 98 ∷ []) «end».Reported) { reports = report 2 1 0 1 1 1 ∷ report 4 1 0 1 1 2 ∷ [] } }
    ensures frozen { shadow frozen defaults ≡ record (exits 0xa5a5a5a5) { blind = 1 } }
    ensures first_of_two_edges { shadow two_edges defaults ≡ reported (report 3 8 0 0xffffffff 32 1) }
{}
