//! Laws of what exploring tells. Each is a public function with an empty body, and what it promises is the law.
ghost use Rattle.std.specs.Prelude.{◌≡◌, ◌≤◌, ℕ, true, List};
ghost use Rattle.ms_ir.specs.declared.syntax.Module.{Module};
ghost use Rattle.ms_runs.specs.{declared.runs.Setup.{Setup}, declared.runs.RunResult.{RunResult}, Verdict.{Clean, verdict_of}};
ghost use Rattle.ms_runs.specs.declared.runs.End.{End};
ghost use Rattle.ms_check_valid.specs.{Formed.{Formed}, Uninstrumented.{CanInstrument}, Valid.{Valid}};
ghost use Rattle.ms_runs_good_laws.specs.GoodWorlds.{GivesBytes};
ghost use Rattle.ms_runs_threads.specs.ShadowFibers.{shadow_threads};
ghost use Rattle.ms_threads.specs.Faithful.{IsSchedule};
ghost use Rattle.ms_threads_schedules_laws.specs.{Picks.{Pick, shadow_picks}, Promise.{RunsAsOne, schedules_tried}};
ghost use Rattle.ms_threads_explore.specs.declared.explorer.Explored.{Explored};
ghost use Rattle.ms_threads_explore.specs.{Explorations.{IsExplored}, Outcomes.{CountsOutcomes, outcomes_of, end_kind, end_number}};

/// Ends that have the same kind and number are the same.
pub fn ends_are_told_apart()
    ensures { (a b : End) → end_kind a ≡ end_kind b → end_number a ≡ end_number b → a ≡ b }
{}

/// The number of outcomes of some runs is that of the runs among them that differ in output or end.
pub fn outcomes_are_counted()
    ensures { (rs : List RunResult) → CountsOutcomes rs (outcomes_of rs) }
{}

/// Where the picks and the results under each schedule that isn't empty are the same, what is told is the same.
pub fn explored_alike()
    ensures { (picks other : List ℕ → List Pick) (run same : List ℕ → RunResult) → ((schedule : List ℕ) → IsSchedule schedule → picks schedule ≡ other schedule)
        → ((schedule : List ℕ) → IsSchedule schedule → run schedule ≡ same schedule) → (count : ℕ) (e : Explored) → 1 ≤ count → IsExplored picks run count e → IsExplored other same count e }
{}

/// Where `all` is told of a module's shadow runs and the run that is told is clean, the program prints and ends under each schedule
/// as in one of the runs made, whatever uninitialised memory holds, with no report and no blind use.
pub fn all_schedules_hold()
    ensures { (m : Module) → Formed m → Valid m → CanInstrument m → (setup : Setup) → GivesBytes setup → (count : ℕ) (e : Explored)
        → IsExplored (shadow_picks m setup) (shadow_threads m setup) count e → e.all ≡ true → verdict_of e.result ≡ Clean → RunsAsOne m setup (schedules_tried m setup count) }
{}
