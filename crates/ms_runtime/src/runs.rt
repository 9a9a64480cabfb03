//! Whole runs: from pause to pause, each of which is answered.
ghost use Rattle.std.specs.Prelude.{◌≡◌, ◌<◌, ◌≤◌, ℕ, true, false, List, [], length, Some, None, if◌then◌else◌, IfOk, OnOk};
ghost use Rattle.ms_ir.specs.ThreadCalls.{is_threaded};
ghost use Rattle.ms_runs.specs.declared.runs.RunResult.{RunResult as ResultOf};
ghost use Rattle.ms_runs.specs.{declared.runs.Setup.{Setup as SetupOf}, Limits.{WithinLimits}, World.{stuck}};
ghost use Rattle.ms_runs.specs.{Plain.{plain}, Calls.{main_calls}, Control.{Frame as FrameOf}};
ghost use Rattle.ms_host.specs.Answers.{Answered};
ghost use Rattle.ms_machine_steps.specs.Callers.{CallersOf};
ghost use Rattle.ms_machine.specs.Standing.{RunsSomewhere};
ghost use Rattle.ms_runtime.specs.Going.{Begins, Going, Asking, Answers, IsAsking, ahead};
ghost use Rattle.ms_runtime.specs.Recorded.{GoingTold, PausedTold, TurnedTold, IsGoing, IsPaused, Noted};
ghost use Rattle.ms_runtime.specs.{Answering.{AnsweredFor}, Served.{limit_of}};
ghost use Rattle.ms_runtime.specs.ToldRuns.{plain_told};

use crate::places::BlindPlaces;
use crate::reports::ReportLimit;
use crate::serving::serve;
use ms_bits::{Bytes, List, NoMemory, Trap};
use ms_check::CheckedModule;
use ms_depot::Depot;
use ms_host::{Answer, Asked, HostCall, World, answer};
use ms_ir::{External, roots};
use ms_machine::{advance, calls, calls_below, printed_types, resume, start};
use ms_machine_frames::{Budget, Fiber, Pause};
use ms_printf::answer_typed;
use ms_runs::{BlindPlace, Calls, End, RunResult, Setup};
use std::alloc::Global;

/// A run between two pauses.
#[derive(Drop)]
pub struct Running {
    pub fiber: Fiber,
    pub world: World,
    pub depot: Depot,
    /// Its reports and its number of blind uses so far.
    pub told: RunResult,
    pub budget: Budget,
}

/// A run between two pauses, and what is recorded beside it.
#[derive(Drop)]
pub struct Recorded {
    pub running: Running,
    /// Whether the calls at its reports, and the places of its blind uses, are wanted.
    pub wanted: bool,
    /// Where they are wanted, the calls that stood at each report so far, in order; else none.
    pub calls: Vec<Calls>,
    /// The calls that stood where the run ended, where they are wanted, and it has ended.
    pub ended: Option<Calls>,
    /// The blind uses so far, where they are wanted; else none.
    pub places: BlindPlaces,
}

/// What a run returns, and what is told beside it.
#[derive(Debug, Drop)]
pub struct ToldRun {
    pub result: RunResult,
    /// The calls that stood at each report, in order; none where they weren't asked for.
    pub calls: List<Calls>,
    /// The calls that stood where the run ended; none where they weren't asked for, and of a run with threads whose steps were spent.
    pub end_calls: Option<Calls>,
    /// The places of the blind uses, in the order of the first at each; none where they weren't asked for.
    pub places: List<BlindPlace>,
}

/// The end of a run without threads in which a function other than `main` returns, and nothing stands below it.
fn no_caller() -> End
    ensures { result ≡ stuck }
{
    End::Trap {
        kind: Trap::Unreachable,
        site: 0,
    }
}

impl Running {
    /// Answers a call of a function that the module doesn't define: an external, or a runtime function.
    pub fn answer_of(
        &mut self,
        alloc: Global,
        m: &CheckedModule,
        call: &HostCall,
        limit: ReportLimit,
    ) -> Result<Answer, NoMemory>
        requires asking { IsAsking m.now limit call.now self.old }
        ensures answered { (u : SetupOf) → limit_of u ≡ limit → (q : Asking m.now u call.now self.old) → IfOk result (λ a. AnsweredFor m.now u call.now q.within a self.old self.new) }
    {
        m.law_valid();
        match call.asked {
            Asked::External(External::Printf) => {
                let types = printed_types(m, &self.fiber);
                answer_typed(alloc, types, call, &mut self.world)
            }
            Asked::External(_) => answer(call, &mut self.world),
            Asked::Runtime(_) => serve(
                alloc,
                call,
                &mut self.world,
                &mut self.depot,
                &mut self.told,
                limit,
            ),
        }
    }

    /// What the run returns that ended so: its output, its end, its reports and blind uses.
    pub fn into_result(self, end: End) -> RunResult
        ensures { (answer : ResultOf) → Answers answer end self → result ≡ answer }
    {
        let Running { world, told, .. } = self;
        RunResult {
            output: world.into_output(),
            end,
            reports: told.reports,
            blind: told.blind,
        }
    }
}

/// A run at its start: `main` is called, the globals stand in memory, and nothing is reported.
pub fn start_run(alloc: Global, m: &CheckedModule, setup: &Setup) -> Result<Running, NoMemory>
    requires limits { WithinLimits setup.now }
    ensures begins { IfOk result (Begins m.now setup.now) }
    ensures going { is_threaded m.now ≡ false → IfOk result (Going m.now setup.now) }
{
    m.law_valid();
    let code = m.module();
    let count = roots(alloc, code)?.as_slice().len();
    let (fiber, world) = start(alloc, m, setup)?;
    Ok(Running {
        fiber,
        world,
        depot: Depot::new(alloc, count as u32),
        told: RunResult {
            output: Bytes::from_vec(Vec::new(alloc)),
            end: End::Spent,
            reports: List::from_vec(Vec::new(alloc)),
            blind: 0,
        },
        budget: Budget { left: setup.steps },
    })
}

/// Records the calls at which the innermost function of a thread stands, until so many are recorded. `started` is the site of the
/// call that made the thread; 0 for that of `main`.
fn record_calls(
    alloc: Global,
    m: &CheckedModule,
    fiber: &Fiber,
    started: u32,
    recorded: &mut Vec<Calls>,
    count: usize,
) -> Result<(), NoMemory>
    requires { RunsSomewhere m.now fiber.now }
    ensures { OnOk result (Noted m.now fiber.now started count recorded.old.items recorded.new.items) }
{
    while recorded.len() < count {
        let sites = calls(alloc, m, fiber)?;
        recorded.push(Calls { sites, started })?;
    }
    Ok(())
}

/// Records the calls that stand at a pause, if they are wanted: once for each report that was made there. `started` is the site of
/// the call that made the thread; 0 for that of `main`.
pub fn note_calls(
    alloc: Global,
    m: &CheckedModule,
    running: &Running,
    started: u32,
    wanted: bool,
    recorded: &mut Vec<Calls>,
) -> Result<(), NoMemory>
    requires { RunsSomewhere m.now running.now.fiber }
    ensures { wanted ≡ true → OnOk result (Noted m.now running.now.fiber started (length running.now.told.reports) recorded.old.items recorded.new.items) }
{
    if !wanted {
        return Ok(());
    }
    let count = running.told.reports.as_slice().len();
    record_calls(alloc, m, &running.fiber, started, recorded, count)
}

impl Recorded {
    /// Records the calls that stand where the run has ended, if they are wanted.
    fn note_end(&mut self, alloc: Global, m: &CheckedModule) -> Result<(), NoMemory>
        requires { (frames : List (FrameOf ℕ)) × CallersOf m.now self.old.running.fiber frames }
        ensures running { self.new.running ≡ self.old.running }
        ensures wanted { self.new.wanted ≡ self.old.wanted }
        ensures calls { self.new.calls ≡ self.old.calls }
        ensures places { self.new.places ≡ self.old.places }
        ensures ended { (frames : List (FrameOf ℕ)) → CallersOf m.now self.old.running.fiber frames → OnOk result (self.old.wanted ≡ true → self.new.ended ≡ Some (main_calls m.now frames)) }
    {
        if !self.wanted {
            return Ok(());
        }
        let sites = calls_below(alloc, m, &self.running.fiber)?;
        self.ended = Some(Calls { sites, started: 0 });
        Ok(())
    }

    /// Records that no call stands where the run has ended, if that is wanted.
    fn note_alone(&mut self, alloc: Global)
        ensures running { self.new.running ≡ self.old.running }
        ensures wanted { self.new.wanted ≡ self.old.wanted }
        ensures calls { self.new.calls ≡ self.old.calls }
        ensures places { self.new.places ≡ self.old.places }
        ensures ended { self.old.wanted ≡ true → self.new.ended ≡ Some (record { sites = []; started = 0 }) }
    {
        if self.wanted {
            let sites = List::from_vec(Vec::new(alloc));
            self.ended = Some(Calls { sites, started: 0 });
        }
    }

    /// Answers the call at which the run pauses, records what stood there, and goes on after it. Returns how the run ends, if it
    /// does.
    fn answer_call(
        &mut self,
        alloc: Global,
        m: &CheckedModule,
        call: HostCall,
        limit: ReportLimit,
    ) -> Result<Option<End>, NoMemory>
        requires paused { IsPaused m.now limit call self.old }
        ensures wanted { self.new.wanted ≡ self.old.wanted }
        ensures turned { (u : SetupOf) → limit_of u ≡ limit → PausedTold m.now u call self.old → IfOk result (λ end. TurnedTold m.now u (ahead m.now self.old.running) end self.new) }
    {
        m.law_valid();
        let _code = m.program();
        let before = self.running.told.blind;
        let answer = self.running.answer_of(alloc, m, &call, limit)?;
        note_calls(alloc, m, &self.running, 0, self.wanted, &mut self.calls)?;
        let blind = self.running.told.blind;
        self.places.note(call.site, before, blind, self.wanted)?;
        match answer {
            Answer::Ended(end) => {
                self.note_end(alloc, m)?;
                Ok(Some(end))
            }
            Answer::Resumed(value) => {
                resume(m, &mut self.running.fiber, value);
                self.running.fiber.keep(call.args);
                Ok(None)
            }
        }
    }

    /// Runs to the next pause, and answers the call there. Returns how the run ends, if it does.
    fn run_to_pause(
        &mut self,
        alloc: Global,
        m: &CheckedModule,
        limit: ReportLimit,
    ) -> Result<Option<End>, NoMemory>
        requires going { IsGoing m.now limit self.old }
        ensures wanted { self.new.wanted ≡ self.old.wanted }
        ensures turned { (u : SetupOf) → limit_of u ≡ limit → GoingTold m.now u self.old → IfOk result (λ end. TurnedTold m.now u (ahead m.now self.old.running) end self.new) }
    {
        let running = &mut self.running;
        match advance(
            alloc,
            m,
            &mut running.fiber,
            &mut running.world,
            &mut running.budget,
        )? {
            Pause::Spent => {
                self.note_end(alloc, m)?;
                Ok(Some(End::Spent))
            }
            Pause::Ended(end) => {
                self.note_end(alloc, m)?;
                Ok(Some(end))
            }
            Pause::Asked(call) => self.answer_call(alloc, m, call, limit),
            Pause::Finished { .. } => {
                self.note_alone(alloc);
                Ok(Some(no_caller()))
            }
        }
    }
}

/// What is recorded of calls, where it is wanted; else none.
pub fn told_calls(alloc: Global, calls: Vec<Calls>, wanted: bool) -> List<Calls>
    ensures { result ≡ (if wanted then calls.items else []) }
{
    if wanted {
        List::from_vec(calls)
    } else {
        List::from_vec(Vec::new(alloc))
    }
}

/// What is recorded of the calls where a run ended, where it is wanted; else none.
pub fn told_end(ended: Option<Calls>, wanted: bool) -> Option<Calls>
    ensures { result ≡ (if wanted then ended else None) }
{
    if wanted { ended } else { None }
}

/// Runs a checked module without thread calls to its end. Ok is what its plain run returns, and the calls that stood at each of
/// its reports, in order, and where it ended, and the places of its blind uses, where they are wanted.
///
/// A report takes as long as calls stand there; nothing else takes longer than in `run`, but a blind use by one look-up of its
/// site.
pub fn run_told(
    alloc: Global,
    m: &CheckedModule,
    setup: &Setup,
    wanted: bool,
) -> Result<ToldRun, NoMemory>
    requires limits { WithinLimits setup.now }
    requires alone { is_threaded m.now ≡ false }
    ensures { IfOk result (λ r. r ≡ plain_told wanted m.now setup.now) }
{
    let limit = ReportLimit {
        count: setup.reports,
        once: setup.once,
    };
    let running = start_run(alloc, m, setup)?;
    let mut recorded = Recorded {
        running,
        wanted,
        calls: Vec::new(alloc),
        ended: None,
        places: BlindPlaces::new(alloc),
    };
    loop {
        if let Some(end) = recorded.run_to_pause(alloc, m, limit)? {
            let Recorded {
                running,
                calls,
                ended,
                places,
                ..
            } = recorded;
            return Ok(ToldRun {
                result: running.into_result(end),
                calls: told_calls(alloc, calls, wanted),
                end_calls: told_end(ended, wanted),
                places: places.into_places(alloc, wanted),
            });
        }
    }
}

/// Runs a checked module without thread calls. Ok is what its plain run returns.
///
/// A step takes as long in a large module as in a small one.
pub fn run(alloc: Global, m: &CheckedModule, setup: &Setup) -> Result<RunResult, NoMemory>
    requires limits { WithinLimits setup.now }
    requires alone { is_threaded m.now ≡ false }
    ensures { IfOk result (λ r. r ≡ plain m.now setup.now) }
{
    let told = run_told(alloc, m, setup, false)?;
    Ok(told.result)
}
