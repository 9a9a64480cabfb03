//! What a program does under every schedule.
ghost use Rattle.std.specs.Prelude.{◌≡◌, ℕ, List, [], length, map};
ghost use Rattle.ms_ir.specs.declared.syntax.Module.{Module};
ghost use Rattle.ms_runs.specs.{declared.runs.Setup.{Setup}, Verdict.{Clean, verdict_of}};
ghost use Rattle.ms_check_valid.specs.{Formed.{Formed}, Uninstrumented.{CanInstrument}, Valid.{Valid}};
ghost use Rattle.ms_runs_good_laws.specs.GoodWorlds.{GivesBytes};
ghost use Rattle.ms_threads_schedules_laws.specs.{Picks.{shadow_picks}, Explored.{Covers}, Promise.{AllClean, RunsAsOne, last_or, schedules_tried}};
ghost use Rattle.ms_threads_schedules_laws.specs.Exploration.{AreShort, beginnings_left};
ghost use Rattle.ms_runs_threads.specs.ShadowFibers.{shadow_threads};

/// Where the shadow runs under some schedules are clean, and each schedule picks as one of them did, then under each schedule, and
/// whatever uninitialised memory holds, the run has no report and no blind use, and prints and ends as one of them did.
pub fn clean_schedules()
    ensures { (m : Module) → Formed m → Valid m → CanInstrument m → (setup : Setup) → GivesBytes setup → (schedules : List (List ℕ))
        → Covers (shadow_picks m setup) (map (shadow_picks m setup) schedules) → AllClean m setup schedules → RunsAsOne m setup schedules }
{}

/// Schedules are tried one after the other, from a queue of beginnings, up to the first whose run isn't clean. Where the last run was
/// clean, none made more picks than are varied, and nothing is left, the program prints and ends as in one of them under each
/// schedule, whatever uninitialised memory holds, with no report and no blind use.
pub fn schedules_that_were_tried()
    ensures { (m : Module) → Formed m → Valid m → CanInstrument m → (setup : Setup) → GivesBytes setup → (count : ℕ) → let tried = schedules_tried m setup count in
        verdict_of (shadow_threads m setup (last_or tried [])) ≡ Clean → AreShort (shadow_picks m setup) tried → beginnings_left (shadow_picks m setup) (length tried) ≡ [] → RunsAsOne m setup tried }
{}
