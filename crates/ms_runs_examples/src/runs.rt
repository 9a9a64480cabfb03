//! Whole shadow runs of example modules, computed by the prover. `0xa5` is the one byte of the default fill; kinds of uses are
//! numbered as in `ms_runs_uses::kinds`; `report` has site, kind, part, mask, width and root.
ghost use Rattle.std.specs.Prelude.{◌≡◌, [], ◌∷◌};
ghost use Rattle.ms_bits.specs.declared.traps.Trap.TheVariants as trap;
ghost use Rattle.ms_runs.specs.declared.runs.End.TheVariants as «end»;
ghost use Rattle.ms_runs.specs.declared.runs.Origin.TheVariants.{Root, Chain};
ghost use Rattle.ms_runs_examples.specs.Setups.{defaults, filled, steps, exits, prints, spent, trapped, reported, report};
ghost use Rattle.ms_runs.specs.Shadow.{shadow};
ghost use Rattle.ms_runs_examples.specs.Programs.{returns_zero, shared_cell, lost_in_addition, frozen, undef_sum, carry_of_undef};
ghost use Rattle.ms_runs_examples.specs.Externals.{heap_filled, freed};
ghost use Rattle.ms_ir.specs.Declarations as calls;
ghost use Rattle.ms_ir.specs.Builders.{does, call, local};
ghost use Rattle.ms_runs_examples.specs.RunPrograms.{masked_undef, indexed_by_undef, branch_on_zeroed, sixteen_copies};

/// A word of which some bits are undefined comes to the return of `main`: they are reported there, unless they were
/// masked out.
pub fn undefined_bits()
    ensures low_bits_kept { shadow (masked_undef 255) defaults ≡ reported (report 2 8 0 0xff 32 1) }
    ensures no_bit_kept { shadow (masked_undef 0) defaults ≡ exits 0 }
{}

/// Bytes that share one cell of origins: the unset bytes beside a stored word keep their own origin in another cell, and
/// the stored byte's leads from the store to the word's.
pub fn shared_cells()
    ensures shared_cell { shadow shared_cell (record defaults { reports = 3 })
        ≡ record (prints (0xa5 ∷ 0xa5 ∷ 0 ∷ []) («end».Exit 0)) {
          reports = report 7 7 0 0xff 32 1
              ∷ record (report 11 7 0 0xff 32 2) { origin = 3; chain = Chain 2 4 ∷ Root 2 ∷ [] } ∷ [];
        } }
    ensures first_alone { shadow shared_cell defaults ≡ reported (report 7 7 0 0xff 32 1) }
{}

/// Sums, in which a poisoned bit poisons each one above it, since it may carry: nothing is lost, and no use is blind for it.
pub fn sums_with_carry()
    ensures found { shadow lost_in_addition defaults ≡ reported (report 5 1 0 1 1 1) }
    ensures found_under_zeros { shadow lost_in_addition (filled (0 ∷ [])) ≡ reported (report 5 1 0 1 1 1) }
    ensures found_under_ones { shadow lost_in_addition (filled (1 ∷ [])) ≡ reported (report 5 1 0 1 1 1) }
    ensures one_bit { shadow carry_of_undef defaults ≡ reported (report 3 8 0 0xfffffff0 32 1) }
    ensures index { shadow indexed_by_undef defaults ≡ reported (report 4 3 0 0xffffffffffffffff 64 2) }
{}

/// Blind uses: a `freeze`, and an operation with a flag, whatever the fill is.
pub fn blind_uses()
    ensures frozen_zero { shadow frozen (filled (0 ∷ [])) ≡ record (exits 0) { blind = 1 } }
    ensures flag_traps { shadow undef_sum (filled (0xff ∷ 0xff ∷ 0xff ∷ 0x7f ∷ [])) ≡ record (trapped trap.Nsw 1) { blind = 1 } }
    ensures flag_holds { shadow undef_sum (filled (0 ∷ [])) ≡ record (reported (report 2 8 0 0xffffffff 32 1)) { blind = 1 } }
{}

/// The heap to its limit, a block of zero bytes, which are not poisoned, and a block that is ended twice.
pub fn heap()
    ensures filled_heap { shadow heap_filled defaults ≡ exits 2 }
    ensures zeroed_byte { shadow branch_on_zeroed defaults ≡ exits 0 }
    ensures ended_twice { shadow (freed (does (call calls.free (local 1 ∷ [])) ∷ [])) defaults ≡ trapped trap.BadFree 3 }
{}

/// No step, one step, and a byte that is copied sixteen times: the last copy makes its way no longer.
pub fn bounds()
    ensures no_step { shadow returns_zero (steps 0) ≡ spent }
    ensures one_step { shadow returns_zero (steps 1) ≡ exits 0 }
    ensures sixteen_copies { shadow sixteen_copies defaults ≡ reported (record (report 37 8 0 0xff 32 2) {
      origin = 18;
      chain = Chain 17 32 ∷ Chain 16 30 ∷ Chain 15 28 ∷ Chain 14 26 ∷ Chain 13 24 ∷ Chain 12 22 ∷ Chain 11 20 ∷ Chain 10 18
          ∷ Chain 9 16 ∷ Chain 8 14 ∷ Chain 7 12 ∷ Chain 6 10 ∷ Chain 5 8 ∷ Chain 4 6 ∷ Chain 3 4 ∷ Chain 2 2 ∷ Root 2 ∷ [];
    }) }
{}
