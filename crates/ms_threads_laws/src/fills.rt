//! Runs with guest threads that are the same whatever uninitialised memory holds.
ghost use Rattle.std.specs.Prelude.{◌≡◌, ℕ, List, [], ◌∷◌};
ghost use Rattle.ms_ir.specs.declared.syntax.Module.{Module};
ghost use Rattle.ms_runs.specs.{declared.runs.Setup.{Setup}, declared.runs.Calls.{Calls}};
ghost use Rattle.ms_check_valid.specs.{Formed.{Formed}, Uninstrumented.{CanInstrument}, Valid.{Valid}};
ghost use Rattle.ms_runs_good_laws.specs.{Fills.{IsFill, refilled, to_first_report, SameShown}, GoodWorlds.{GivesBytes}};
ghost use Rattle.ms_runs_fills_laws.specs.First.{FirstOf};
ghost use Rattle.ms_runs_threads.specs.{PlainFibers.{plain_threads}, ShadowFibers.{shadow_threads}, Calls.{shadow_threads_calls}};

/// With one schedule, a shadow run that ends at its first report and has no blind use is the same under every fill, with the
/// calls at that report; where it has no report, the program itself prints the same and ends in the same way under every
/// fill. A run up to its first report is the beginning of the run that goes on, with every limit of reports, and the calls at that
/// report are the same.
pub fn threads_fills()
    ensures same { (m : Module) → Formed m → Valid m → CanInstrument m → (setup : Setup) → GivesBytes setup → (schedule : List ℕ)
        → (shadow_threads m (to_first_report setup) schedule).blind ≡ 0 → (fill : List ℕ) → IsFill fill
        → shadow_threads m (refilled (to_first_report setup) fill) schedule ≡ shadow_threads m (to_first_report setup) schedule }
    ensures calls { (m : Module) → Formed m → Valid m → CanInstrument m → (setup : Setup) → GivesBytes setup → (schedule : List ℕ)
        → (shadow_threads m (to_first_report setup) schedule).blind ≡ 0 → (fill : List ℕ) → IsFill fill
        → shadow_threads_calls m (refilled (to_first_report setup) fill) schedule ≡ shadow_threads_calls m (to_first_report setup) schedule }
    ensures first_calls { (m : Module) (setup : Setup) (schedule : List ℕ) (one : Calls) (rest : List Calls) → shadow_threads_calls m setup schedule ≡ one ∷ rest
        → shadow_threads_calls m (to_first_report setup) schedule ≡ one ∷ [] }
    ensures shown { (m : Module) → Formed m → Valid m → CanInstrument m → (setup : Setup) → GivesBytes setup → (schedule : List ℕ)
        → (shadow_threads m (to_first_report setup) schedule).blind ≡ 0 → (shadow_threads m (to_first_report setup) schedule).reports ≡ [] → (fill : List ℕ) → IsFill fill
        → SameShown (plain_threads m (refilled setup fill) schedule) (shadow_threads m setup schedule) }
    ensures first { (m : Module) (setup : Setup) (schedule : List ℕ) → FirstOf (shadow_threads m (to_first_report setup) schedule) (shadow_threads m setup schedule) }
    ensures alone { (m : Module) → CanInstrument m → (setup : Setup) (schedule : List ℕ) → (shadow_threads m setup schedule).reports ≡ []
        → SameShown (plain_threads m setup schedule) (shadow_threads m setup schedule) }
{}
