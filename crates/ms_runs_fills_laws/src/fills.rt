//! Runs that are the same whatever uninitialised memory holds. Low equal states are the same but for poisoned bits.
ghost use Rattle.std.specs.Prelude.{◌≡◌, ◌<◌, ℕ, List, [], ◌∷◌, All, false, length};
ghost use Rattle.ms_ir.specs.{ThreadCalls.{is_threaded}, declared.syntax.Module.{Module}, Instructions.{NoMarks}};
ghost use Rattle.ms_runs.specs.{declared.runs.Setup.{Setup}, declared.runs.Report.{Report}, Plain.{setting_of, plain}};
ghost use Rattle.ms_runs.specs.{Masks.{by_completions}, Shadow.{ShadowState, shadow_step, shadow}, LowEqual.{LowEqual}};
ghost use Rattle.ms_runs.specs.{Faithful.{Fair, Faithful}, Shadow.{shadow_start}};
ghost use Rattle.ms_runs.specs.Calls.{call_sites, plain_calls, plain_blind, places_of, shadow_calls, shadow_blind, SameCalls};
ghost use Rattle.ms_runs_laws.specs.Places.{uses_at};
ghost use Rattle.ms_check_valid.specs.{Formed.{Formed}, Valid.{Valid}};
ghost use Rattle.ms_runs_good_laws.specs.Fills.{IsFill, refilled, to_first_report, NoBlindUse, SameShown, SameUnderFills, InsertedUnderFills};
ghost use Rattle.ms_runs_good_laws.specs.{GoodWorlds.{GivesBytes}, GoodRuns.{LeadsTo}};
ghost use Rattle.ms_runs_fills_laws.specs.{Placed.{SoundPlaced}, First.{FirstOf}, Alike.{StepsAlike, CountsNone}};
ghost use Rattle.ms_runs_fills_laws.specs.{Checked.{HoldsUnderFills}, CallsAlike.{CallsUnderFills}};

/// Two runs of a formed and valid module under two fills start in low equal states. From low equal states a step that
/// counts no blind use leads to low equal states, or ends both runs alike, where one report ends a run. The states that
/// are spoken of are good ones, in whose worlds the heap's blocks stand one after the other; runs start in such states,
/// and steps lead to such states.
pub fn low_steps()
    ensures starts { (m : Module) (setup : Setup) (fill : List ℕ) → LowEqual (shadow_start m setup) (shadow_start m (refilled setup fill)) }
    ensures steps { (m : Module) → Formed m → Valid m → is_threaded m ≡ false → (setup : Setup) (fill : List ℕ) → setup.reports ≡ 1
        → (c d : ShadowState) → SoundPlaced m c → SoundPlaced m d → LowEqual c d → CountsNone c (shadow_step by_completions (setting_of m setup) m c)
        → StepsAlike (shadow_step by_completions (setting_of m setup) m c) (shadow_step by_completions (setting_of m (refilled setup fill)) m d) }
    ensures good_starts { (m : Module) → Formed m → Valid m → is_threaded m ≡ false → (setup : Setup) → GivesBytes setup → SoundPlaced m (shadow_start m setup) }
    ensures good_steps { (m : Module) → Formed m → Valid m → is_threaded m ≡ false → (setup : Setup) → GivesBytes setup → (c : ShadowState) → SoundPlaced m c
        → LeadsTo (SoundPlaced m) (λ w. Unit {0}) (shadow_step by_completions (setting_of m setup) m c) }
{}

/// Where a shadow run that ends at its first report has no blind use, every other fill gives the same output, end, report
/// and count. Where it has no report, the program itself prints the same and ends in the same way. Of inserted code that
/// is faithful the plain run says the same.
pub fn two_fills()
    ensures shadow_runs { (m : Module) → Formed m → Valid m → is_threaded m ≡ false → NoMarks m → (setup : Setup) → GivesBytes setup → NoBlindUse m setup → SameUnderFills m setup }
    ensures instrumented { (m : Module) → Formed m → Valid m → is_threaded m ≡ false → (j : Module) → Faithful m j → (setup : Setup) → Fair setup → InsertedUnderFills j setup }
{}

/// A run up to its first report is the beginning of the run that goes on. So where a run has neither a report nor a blind
/// use, the program prints what the run prints and ends as it ends under every fill; and where it has no blind use, its
/// first report is the report under every fill.
pub fn first_reports()
    ensures first { (m : Module) (setup : Setup) → FirstOf (shadow m (to_first_report setup)) (shadow m setup) }
    ensures clean { (m : Module) → Formed m → Valid m → is_threaded m ≡ false → NoMarks m → (setup : Setup) → GivesBytes setup → (shadow m setup).blind ≡ 0 → (shadow m setup).reports ≡ []
        → (fill : List ℕ) → IsFill fill → SameShown (plain m (refilled setup fill)) (shadow m setup) }
    ensures reported { (m : Module) → Formed m → Valid m → is_threaded m ≡ false → NoMarks m → (setup : Setup) → GivesBytes setup → (shadow m setup).blind ≡ 0
        → (report : Report) (rest : List Report) → (shadow m setup).reports ≡ report ∷ rest
        → (fill : List ℕ) → IsFill fill → (shadow m (refilled (to_first_report setup) fill)).reports ≡ report ∷ [] }
{}

/// What a plain run of a faithful form says of a module holds under every fill: a clean verdict of the program itself, and
/// the first report where no blind use was counted.
pub fn checked_runs()
    ensures { (m : Module) → Formed m → Valid m → is_threaded m ≡ false → NoMarks m → (j : Module) → Faithful m j → (setup : Setup) → Fair setup → HoldsUnderFills m setup (plain j setup) }
{}

/// Where a run has no blind use, the calls at its first report are those under every fill. In low equal states calls with
/// the same sites stand.
pub fn first_calls()
    ensures sites { (m : Module) (c d : ShadowState) → LowEqual c d → call_sites m c.frames ≡ call_sites m d.frames }
    ensures holds { (m : Module) → Formed m → Valid m → is_threaded m ≡ false → NoMarks m → (setup : Setup) → GivesBytes setup → CallsUnderFills m setup (shadow m setup).blind (shadow_calls m setup) }
{}

/// Each report of a plain run has its calls, and so has each report of the shadow run of a module, where a faithful form
/// tells the same calls. Each blind use of a plain run and of a shadow run has a site, so the counts of the places of
/// blind uses sum to their number.
pub fn one_each()
    ensures plain_runs { (m : Module) (setup : Setup) → length (plain_calls m setup) ≡ length (plain m setup).reports }
    ensures shadow_runs { (m j : Module) → Faithful m j → SameCalls m j → (setup : Setup) → Fair setup → length (shadow_calls m setup) ≡ length (shadow m setup).reports }
    ensures shadow_blind { (m : Module) (setup : Setup) → length (shadow_blind m setup) ≡ (shadow m setup).blind }
    ensures plain_blind { (m : Module) (setup : Setup) → length (plain_blind m setup) ≡ (plain m setup).blind }
    ensures places { (m : Module) (setup : Setup) → uses_at (places_of (shadow_blind m setup)) ≡ (shadow m setup).blind }
    ensures plain_places { (m : Module) (setup : Setup) → uses_at (places_of (plain_blind m setup)) ≡ (plain m setup).blind }
{}
