//! Which modules are valid: laws about the definitions, computed by the prover. The values are worked out by hand from what
//! docs/DEFINITIONS.md says. The modules stand in `specs/Programs.antt` and `specs/Faults.antt`, a sentence over each.
ghost use Rattle.std.specs.Prelude.{◌≡◌, [], ◌∷◌, codes, true, false, Some, None};
ghost use Rattle.ms_ir.specs.declared.syntax.Name.TheVariants.{Number, Text};
ghost use Rattle.ms_runs_examples.specs.Programs.{returns_zero, branch_on_unset, masked_to_zero, ordered_compare, set_bit_is_not_zero, select_undef, two_unset, shared_cell, lost_in_addition, recursion, nested_call, write_with_gap, store_to_shadow, clang_unoptimised, sum_wraps, undef_divisor, frozen, three_branches, undef_sum, undef_stored, carry_of_undef};
ghost use Rattle.ms_runs_examples.specs.Marks.{branch_on_unset_checked, nested_call_checked};
ghost use Rattle.ms_runs_examples.specs.Faults.{symbol, percent, undefined_on_a_path, empty_module, main_twice, returns_unknown, returns_wide, branches_to_entry, calls_wide_putchar, marked_alloca, large_global};
ghost use Rattle.ms_check_valid.specs.{Formed.{Formed}, Valid.{Valid}};
ghost use Rattle.ms_check_valid.specs.Refusals.{Duplicate, Unknown, TypeMismatch, BadPhi, NoMain, BadExternal, Undefined, BadMark, BadSize, IsRefused};

/// The example modules are valid, and so are those with inserted code.
pub fn valid_modules()
    ensures returns_zero { Valid returns_zero }
    ensures branch_on_unset { Valid branch_on_unset }
    ensures masked_to_zero { Valid masked_to_zero }
    ensures ordered_compare { Valid (ordered_compare 16) }
    ensures set_bit_is_not_zero { Valid set_bit_is_not_zero }
    ensures select_undef { Valid select_undef }
    ensures two_unset { Valid two_unset }
    ensures shared_cell { Valid shared_cell }
    ensures lost_in_addition { Valid lost_in_addition }
    ensures recursion { Valid (recursion 1023) }
    ensures nested_call { Valid nested_call }
    ensures write_with_gap { Valid write_with_gap }
    ensures store_to_shadow { Valid store_to_shadow }
    ensures clang_unoptimised { Valid clang_unoptimised }
    ensures sum_wraps { Valid sum_wraps }
    ensures undef_divisor { Valid undef_divisor }
    ensures frozen { Valid frozen }
    ensures three_branches { Valid three_branches }
    ensures undef_sum { Valid undef_sum }
    ensures undef_stored { Valid undef_stored }
    ensures carry_of_undef { Valid carry_of_undef }
    ensures branch_on_unset_checked { Valid branch_on_unset_checked }
    ensures nested_call_checked { Valid nested_call_checked }
{}

/// They are formed.
pub fn formed_modules()
    ensures returns_zero { Formed returns_zero }
    ensures branch_on_unset { Formed branch_on_unset }
    ensures masked_to_zero { Formed masked_to_zero }
    ensures ordered_compare { Formed (ordered_compare 16) }
    ensures set_bit_is_not_zero { Formed set_bit_is_not_zero }
    ensures select_undef { Formed select_undef }
    ensures two_unset { Formed two_unset }
    ensures shared_cell { Formed shared_cell }
    ensures lost_in_addition { Formed lost_in_addition }
    ensures recursion { Formed (recursion 1023) }
    ensures nested_call { Formed nested_call }
    ensures write_with_gap { Formed write_with_gap }
    ensures store_to_shadow { Formed store_to_shadow }
    ensures clang_unoptimised { Formed clang_unoptimised }
    ensures sum_wraps { Formed sum_wraps }
    ensures undef_divisor { Formed undef_divisor }
    ensures frozen { Formed frozen }
    ensures three_branches { Formed three_branches }
    ensures undef_sum { Formed undef_sum }
    ensures undef_stored { Formed undef_stored }
    ensures carry_of_undef { Formed carry_of_undef }
    ensures branch_on_unset_checked { Formed branch_on_unset_checked }
    ensures nested_call_checked { Formed nested_call_checked }
{}

/// Each of these modules is refused for the clause that it breaks. The undefined use is shown by a path.
#[tactic(auto, unfolding(ms_ir::specs::Names::is_kept, ms_ir::specs::Names::bit_moves))]
pub fn refused_modules()
    ensures no_main { IsRefused empty_module NoMain }
    ensures main_twice { IsRefused main_twice (Duplicate (symbol (codes "main"))) }
    ensures unknown_value { IsRefused returns_unknown (Unknown 1 (percent (Number 9))) }
    ensures wide_result { IsRefused returns_wide (TypeMismatch 1 0) }
    ensures branch_to_entry { IsRefused branches_to_entry (BadPhi 1) }
    ensures wide_putchar { IsRefused calls_wide_putchar (BadExternal (Text (codes "putchar"))) }
    ensures undefined_on_a_path { IsRefused undefined_on_a_path (Undefined 6 (0 ∷ 2 ∷ [])) }
    ensures marked_alloca { IsRefused marked_alloca (BadMark 1) }
    ensures large_global { IsRefused large_global (BadSize (symbol (codes "g"))) }
{}
