//! Runs that report each use once.
ghost use Rattle.std.specs.Prelude.{◌≡◌, ◌≤◌, ◌<◌, ℕ, true, take, length};
ghost use Rattle.ms_runs.specs.{declared.runs.Setup.{Setup}, Faithful.{Fair, Faithful}, Once.{firsts}, Plain.{plain}, Shadow.{shadow}};
ghost use Rattle.ms_ir.specs.declared.syntax.Module.{Module};
ghost use Rattle.ms_runs_fills_laws.specs.Once.{each_time};

/// A run that reports each use once has of the reports of the run that reports each time, and isn't ended by them, the
/// first of each use, in order, as many as its limit allows. Of inserted code that is faithful the plain run has the same.
pub fn first_of_each()
    ensures shadow_runs { (m : Module) (setup : Setup) → setup.once ≡ true → 1 ≤ setup.reports → (n : ℕ) → length (shadow m (each_time setup n)).reports < n
        → (shadow m setup).reports ≡ take setup.reports (firsts (shadow m (each_time setup n)).reports) }
    ensures instrumented { (m j : Module) → Faithful m j → (setup : Setup) → Fair setup → setup.once ≡ true → (n : ℕ) → length (shadow m (each_time setup n)).reports < n
        → (plain j setup).reports ≡ take setup.reports (firsts (shadow m (each_time setup n)).reports) }
{}
