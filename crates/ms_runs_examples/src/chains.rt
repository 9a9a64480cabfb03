//! Ways from an origin back to its root, in a world with chained origins: `Chain` has the earlier origin and the store's site.
//! The prover computes them.
ghost use Rattle.std.specs.Prelude.{◌≡◌, [], ◌∷◌};
ghost use Rattle.ms_runs.specs.{declared.runs.Origin.TheVariants.{Root, Chain}, Origins.{trail}};
ghost use Rattle.ms_runs_examples.specs.Setups.{defaults};
ghost use Rattle.ms_runs.specs.Plain.{setting_of};
ghost use Rattle.ms_runs_examples.specs.Programs.{shared_cell};
ghost use Rattle.ms_runs_examples.specs.RunPrograms.{with_pairs, sixteen_pairs};

/// Where there are two roots, the first pair has the number 3. A way of sixteen stores goes down to the second root; a
/// number that is neither root nor pair has no way.
pub fn ways()
    ensures of_no_origin { trail (setting_of shared_cell defaults) (with_pairs sixteen_pairs) 0 ≡ [] }
    ensures of_a_root { trail (setting_of shared_cell defaults) (with_pairs sixteen_pairs) 2 ≡ Root 2 ∷ [] }
    ensures of_one_store { trail (setting_of shared_cell defaults) (with_pairs sixteen_pairs) 3 ≡ Chain 2 2 ∷ Root 2 ∷ [] }
    ensures of_sixteen_stores { trail (setting_of shared_cell defaults) (with_pairs sixteen_pairs) 18
        ≡ Chain 17 32 ∷ Chain 16 30 ∷ Chain 15 28 ∷ Chain 14 26 ∷ Chain 13 24 ∷ Chain 12 22 ∷ Chain 11 20 ∷ Chain 10 18
        ∷ Chain 9 16 ∷ Chain 8 14 ∷ Chain 7 12 ∷ Chain 6 10 ∷ Chain 5 8 ∷ Chain 4 6 ∷ Chain 3 4 ∷ Chain 2 2 ∷ Root 2 ∷ [] }
    ensures of_no_pair { trail (setting_of shared_cell defaults) (with_pairs sixteen_pairs) 19 ≡ [] }
{}
