//! An example module whose inserted word checks are counted, with and without those of clean values. The prover computes the
//! counts.
ghost use Rattle.std.specs.Prelude.{◌≡◌, [], ◌∷◌, map};
ghost use Rattle.ms_runs_examples.specs.Programs.{branch_on_unset};
ghost use Rattle.ms_pass_laws.specs.{Pass.{pass}, Numbers.{numbering}};
ghost use Rattle.ms_pass_form_laws.specs.{Eliding.{eliding, SaysExactly}, Checks.{check_calls}};
ghost use Rattle.ms_runs_examples.specs.Sayings.{the_address};

/// Of a word on the stack that is loaded, compared and branched on the address alone is clean. So of two checks that of
/// the branch is left.
pub fn branch_is_checked()
    ensures exact { SaysExactly branch_on_unset the_address }
    ensures left { map check_calls (pass (eliding the_address branch_on_unset) branch_on_unset).funcs ≡ 1 ∷ [] }
    ensures without { map check_calls (pass (numbering branch_on_unset) branch_on_unset).funcs ≡ 2 ∷ [] }
{}
