//! Whole runs of programs with threads: one thread goes on at a time, up to its next thread call or its end, and then the schedule
//! picks.
ghost use Rattle.std.specs.Prelude.{◌≡◌, ◌<◌, ◌≤◌, ◌^◌, ℕ, List, suc, true, Some, None, [], length, if◌then◌else◌, IfOk, OnOk, MatchBool};
ghost use Rattle.ms_ir.specs.declared.syntax.Module.{Module as ModuleOf};
ghost use Rattle.ms_ir.specs.declared.calls.RuntimeFn.TheVariants.{ThreadResult as ResultOf};
ghost use Rattle.ms_runs.specs.{declared.runs.Setup.{Setup as SetupOf}, Control.{Frame as FrameOf}, Limits.{WithinLimits}};
ghost use Rattle.ms_runs.specs.Calls.{places_of};
ghost use Rattle.ms_runs_threads.specs.{PlainFibers.{plain_threads}, Calls.{plain_threads_calls}, Blind.{plain_threads_blind, plain_threads_end_calls}};
ghost use Rattle.ms_host.specs.declared.calls.Answer.TheVariants.{Resumed as ResumedOf};
ghost use Rattle.ms_machine_steps.specs.Callers.{CallersOf};
ghost use Rattle.ms_machine.specs.Standing.{RunsSomewhere};
ghost use Rattle.ms_runtime.specs.{Answering.{AnsweredFor}, Going.{ahead}, Served.{Fits, limit_of}};
ghost use Rattle.ms_threads_schedules_laws.specs.Picks.{plain_picks};
ghost use Rattle.ms_threads.specs.{Faithful.{IsSchedule}, Recording.{Records}, ToldThreads.{plain_threads_told}, ThreadTables.{IsThreadCall, IsResult, standing_of}};
ghost use Rattle.ms_threads.specs.Going.{KeepsCalls, calls_there, Noted, Asking, After, Picking, Performing, Beginning, Going, HasEnded, Turned, IsGoing, IsAsking, IsAfter, IsPicking, IsPerforming, IsBeginning, most_ahead, far_of};

use crate::recorder::Recorder;
use crate::thread_table::{ThreadTable, exchange, word};
use ms_bits::{List, NoMemory, Trap};
use ms_check::CheckedModule;
use ms_host::{Answer, Asked, HostCall};
use ms_ir::RuntimeFn;
use ms_machine::{advance, calls_below, resume, spawn};
use ms_machine_frames::{Pause, no_fiber};
use ms_runs::{BlindPlace, Calls, End, RunResult, Setup};
use ms_runtime::{
    BlindPlaces, ReportLimit, Running, ToldRun, note_calls, start_run, thread_result, told_calls,
    told_end,
};
use std::alloc::Global;

/// A run of threads between two pauses.
#[derive(Drop)]
pub struct ThreadedRun {
    /// The thread that runs, with what all share.
    pub running: Running,
    pub table: ThreadTable,
    /// Whether the calls at its reports, and the places of its blind uses, are wanted.
    pub wanted: bool,
    /// Where they are wanted, the calls that stood at each report so far, in order; else none.
    pub calls: Vec<Calls>,
    /// The calls that stood where the run ended, where they are wanted, and it has ended before its steps were spent.
    pub ended: Option<Calls>,
    /// The blind uses so far, where they are wanted; else none.
    pub places: BlindPlaces,
}

/// Whether a call is a thread call.
fn is_thread_call(call: &HostCall) -> bool
    ensures { MatchBool result (IsThreadCall call.now.asked) (¬ IsThreadCall call.now.asked) }
{
    match call.asked {
        Asked::External(external) => external.is_thread_call(),
        Asked::Runtime(_) => false,
    }
}

/// Whether a call is that of `__msan_thread_result`.
fn asks_result(call: &HostCall) -> bool
    ensures { MatchBool result (IsResult call.now.asked) (¬ IsResult call.now.asked) }
{
    match call.asked {
        Asked::Runtime(RuntimeFn::ThreadResult) => true,
        _ => false,
    }
}

/// The word itself: its contract says that a word has 64 bits.
fn whole(word: u64) -> u64
    ensures same { result ≡ word }
    ensures few { result < 2 ^ 64 }
{
    word
}

impl ThreadedRun {
    /// `__msan_thread_result`: where a join answered 0 and stored a word, that has the mask and the origin with which its
    /// thread returned.
    fn put_result(&mut self, call: &HostCall) -> Result<(), NoMemory>
        requires asked { IsResult call.now.asked }
        requires fits { Fits ResultOf call.now.args }
        ensures answered { (m : ModuleOf) (u : SetupOf) (schedule : List ℕ) → (q : Asking m u schedule call.now self.old) → OnOk result (AnsweredFor m u call.now q.within (ResumedOf None) self.old.running self.new.running) }
        ensures table { self.new.table ≡ self.old.table }
        ensures calls { KeepsCalls self.old self.new }
    {
        let args = call.args.as_slice();
        let addr = word(args, 0);
        let id = word(args, 1);
        let answer = word(args, 2);
        let site = word(args, 3) as u32;
        if answer != 0 {
            return Ok(());
        }
        if addr == 0 {
            return Ok(());
        }
        let Some(thread) = self.table.thread(id) else {
            return Ok(());
        };
        let ended = thread.ended;
        if !ended {
            return Ok(());
        }
        let world = &mut self.running.world;
        let depot = &mut self.running.depot;
        thread_result(addr, thread.mask, thread.origin, site, world, depot)
    }

    /// Answers a call that is no thread call; `limit` is that of the run's reports.
    fn answer_of(
        &mut self,
        alloc: Global,
        m: &CheckedModule,
        call: &HostCall,
        limit: ReportLimit,
    ) -> Result<Answer, NoMemory>
        requires asking { IsAsking m.now limit call.now self.old }
        requires other { ¬ IsThreadCall call.now.asked }
        ensures answered { (u : SetupOf) (schedule : List ℕ) → limit_of u ≡ limit → (q : Asking m.now u schedule call.now self.old) → IfOk result (λ a. AnsweredFor m.now u call.now q.within a self.old.running self.new.running) }
        ensures table { self.new.table ≡ self.old.table }
        ensures calls { KeepsCalls self.old self.new }
    {
        m.law_valid();
        if asks_result(call) {
            self.put_result(call)?;
            return Ok(Answer::Resumed(None));
        }
        self.running.answer_of(alloc, m, call, limit)
    }

    /// Records the calls that stand at an answered call, if they are wanted: once for each report that was made there.
    fn note_calls(&mut self, alloc: Global, m: &CheckedModule) -> Result<(), NoMemory>
        requires { RunsSomewhere m.now self.old.running.fiber }
        ensures noted { self.old.wanted ≡ true → OnOk result (Noted m.now self.old self.new) }
        ensures same { self.new ≡ (record self.old { calls = self.new.calls }) }
    {
        let started = self.table.start();
        note_calls(
            alloc,
            m,
            &self.running,
            started,
            self.wanted,
            &mut self.calls,
        )
    }

    /// Records the calls that stand where the run has ended, if they are wanted.
    fn note_end(&mut self, alloc: Global, m: &CheckedModule) -> Result<(), NoMemory>
        requires { (frames : List (FrameOf ℕ)) × CallersOf m.now self.old.running.fiber frames }
        ensures wanted { self.new.wanted ≡ self.old.wanted }
        ensures same { self.new ≡ (record self.old { ended = self.new.ended }) }
        ensures ended { (frames : List (FrameOf ℕ)) → CallersOf m.now self.old.running.fiber frames → OnOk result (self.old.wanted ≡ true → self.new.ended ≡ Some (calls_there m.now self.old.table frames)) }
    {
        if !self.wanted {
            return Ok(());
        }
        let sites = calls_below(alloc, m, &self.running.fiber)?;
        let started = self.table.start();
        self.ended = Some(Calls { sites, started });
        Ok(())
    }

    /// Records that no call stands where the run has ended, if that is wanted.
    fn note_alone(&mut self, alloc: Global)
        ensures wanted { self.new.wanted ≡ self.old.wanted }
        ensures same { self.new ≡ (record self.old { ended = self.new.ended }) }
        ensures ended { self.old.wanted ≡ true → self.new.ended ≡ Some (record { sites = []; started = 0 }) }
    {
        if self.wanted {
            let sites = List::from_vec(Vec::new(alloc));
            self.ended = Some(Calls { sites, started: 0 });
        }
    }

    /// Goes on after a call with its answer. Returns how the run ends, if it does.
    #[inline(always)]
    fn after_answer(
        &mut self,
        alloc: Global,
        m: &CheckedModule,
        call: HostCall,
        answer: Answer,
    ) -> Result<Option<End>, NoMemory>
        requires after { IsAfter m.now call answer self.old }
        ensures wanted { self.new.wanted ≡ self.old.wanted }
        ensures turned { (u : SetupOf) (schedule : List ℕ) → After m.now u schedule call answer self.old → IfOk result (λ end. Turned m.now u schedule (ahead m.now self.old.running) end self.new) }
    {
        m.law_valid();
        let _code = m.program();
        match answer {
            Answer::Ended(end) => {
                self.note_end(alloc, m)?;
                Ok(Some(end))
            }
            Answer::Resumed(value) => {
                resume(m, &mut self.running.fiber, value);
                self.running.fiber.keep(call.args);
                Ok(None)
            }
        }
    }

    /// Suspends the thread that runs at a thread call.
    fn park(&mut self, call: HostCall)
        requires turn { self.old.table.turn < length self.old.table.parked.items }
        ensures picking { (m : ModuleOf) (u : SetupOf) (schedule : List ℕ) → IsThreadCall call.asked → Asking m u schedule call self.old → Picking m u schedule self.new }
        ensures budget { self.new.running.budget ≡ self.old.running.budget }
        ensures wanted { self.new.wanted ≡ self.old.wanted }
    {
        self.table.park(&mut self.running.fiber, call);
    }

    /// Notes that the thread that runs has ended with the word `answer`, whose mask and origin the slots hold. The memory of its
    /// frame is given back.
    fn end(&mut self, alloc: Global, answer: u64)
        requires turn { self.old.table.turn ≤ length self.old.table.threads.items }
        ensures ended { HasEnded answer self.old self.new }
        ensures running { self.new.running ≡ (record self.old.running { fiber = self.new.running.fiber }) }
        ensures calls { KeepsCalls self.old self.new }
    {
        let mask = self.running.world.result_mask();
        let origin = self.running.world.result_origin();
        self.table.end(answer, mask, origin);
        let mut ended = no_fiber(alloc);
        exchange(&mut self.running.fiber, &mut ended);
    }

    /// The picked thread makes the call at which it was suspended. Returns how the run ends, if it does.
    #[inline(always)]
    fn perform(
        &mut self,
        alloc: Global,
        m: &CheckedModule,
        call: HostCall,
    ) -> Result<Option<End>, NoMemory>
        requires performing { IsPerforming m.now call self.old }
        ensures wanted { self.new.wanted ≡ self.old.wanted }
        ensures turned { (u : SetupOf) (schedule : List ℕ) → Performing m.now u schedule (standing_of self.old.running.fiber call) self.old → IfOk result (λ end. Turned m.now u schedule (suc (most_ahead m.now self.old.running)) end self.new) }
    {
        m.law_valid();
        let answer = self.table.answer(alloc, &call, &mut self.running.world)?;
        self.after_answer(alloc, m, call, answer)
    }

    /// Begins the picked thread, which hasn't run yet: a fiber with a call of its function, whose argument is clean.
    fn begin(&mut self, alloc: Global, m: &CheckedModule) -> Result<(), NoMemory>
        requires beginning { IsBeginning m.now self.old }
        ensures wanted { self.new.wanted ≡ self.old.wanted }
        ensures turned { (u : SetupOf) (schedule : List ℕ) → Beginning m.now u schedule self.old → OnOk result (Turned m.now u schedule (suc (most_ahead m.now self.old.running)) None self.new) }
    {
        m.law_valid();
        let Some(thread) = self.table.thread(self.table.turn as u64) else {
            return Ok(());
        };
        let func = thread.func as u32;
        let argument = whole(thread.argument);
        let mut fiber = spawn(alloc, m, func, argument)?;
        exchange(&mut self.running.fiber, &mut fiber);
        self.running.world.clear_first();
        Ok(())
    }

    /// Picks a thread, which then goes on. Returns how the run ends, if it does.
    #[inline(always)]
    fn pick(
        &mut self,
        alloc: Global,
        m: &CheckedModule,
        schedule: &[u8],
    ) -> Result<Option<End>, NoMemory>
        requires scheduled { IsSchedule schedule.now }
        requires picking { IsPicking m.now schedule.now self.old }
        ensures wanted { self.new.wanted ≡ self.old.wanted }
        ensures turned { (u : SetupOf) → Picking m.now u schedule.now self.old → IfOk result (λ end. Turned m.now u schedule.now (suc (most_ahead m.now self.old.running)) end self.new) }
    {
        if self.running.budget.left == 0 {
            return Ok(Some(End::Spent));
        }
        if !self.table.pick(schedule)? {
            let site = self.table.main_site();
            self.note_alone(alloc);
            return Ok(Some(End::Trap {
                kind: Trap::Deadlock,
                site,
            }));
        }
        match self.table.unpark(&mut self.running.fiber) {
            Some(call) => self.perform(alloc, m, call),
            None => {
                self.begin(alloc, m)?;
                Ok(None)
            }
        }
    }

    /// Answers the call at which the run pauses, or, where that is a thread call, suspends the thread there and picks the next one.
    /// Returns how the run ends, if it does.
    fn call(
        &mut self,
        alloc: Global,
        m: &CheckedModule,
        call: HostCall,
        limit: ReportLimit,
        schedule: &[u8],
    ) -> Result<Option<End>, NoMemory>
        requires scheduled { IsSchedule schedule.now }
        requires asking { (u : SetupOf) × ((limit_of u ≡ limit) × Asking m.now u schedule.now call self.old) }
        ensures wanted { self.new.wanted ≡ self.old.wanted }
        ensures turned { (u : SetupOf) → limit_of u ≡ limit → Asking m.now u schedule.now call self.old → IfOk result (λ end. Turned m.now u schedule.now (far_of m.now call.asked self.old.running) end self.new) }
    {
        if is_thread_call(&call) {
            self.park(call);
            return self.pick(alloc, m, schedule);
        }
        let before = self.running.told.blind;
        let answer = self.answer_of(alloc, m, &call, limit)?;
        self.note_calls(alloc, m)?;
        let blind = self.running.told.blind;
        self.places.note(call.site, before, blind, self.wanted)?;
        self.after_answer(alloc, m, call, answer)
    }

    /// Runs to the next pause, and does what is asked there; `limit` is that of the run's reports. Returns how the run ends,
    /// if it does.
    fn run_to_pause(
        &mut self,
        alloc: Global,
        m: &CheckedModule,
        limit: ReportLimit,
        schedule: &[u8],
    ) -> Result<Option<End>, NoMemory>
        requires scheduled { IsSchedule schedule.now }
        requires going { IsGoing m.now limit schedule.now self.old }
        ensures wanted { self.new.wanted ≡ self.old.wanted }
        ensures turned { (u : SetupOf) → limit_of u ≡ limit → Going m.now u schedule.now self.old → IfOk result (λ end. Turned m.now u schedule.now (ahead m.now self.old.running) end self.new) }
    {
        m.law_valid();
        let running = &mut self.running;
        match advance(
            alloc,
            m,
            &mut running.fiber,
            &mut running.world,
            &mut running.budget,
        )? {
            Pause::Spent => Ok(Some(End::Spent)),
            Pause::Ended(end) => {
                self.note_end(alloc, m)?;
                Ok(Some(end))
            }
            Pause::Asked(call) => self.call(alloc, m, call, limit, schedule),
            Pause::Finished { value } => {
                self.end(alloc, value);
                self.pick(alloc, m, schedule)
            }
        }
    }
}

/// A run with the picks that it made.
#[derive(Drop)]
pub struct RecordedRun {
    pub result: RunResult,
    pub recorder: Recorder,
}

/// A run with the picks that it made, and what is recorded beside it.
#[derive(Drop)]
struct WholeRun {
    recorded: RecordedRun,
    /// The calls that stood at each of its reports, in order, and where it ended; none where they aren't wanted.
    calls: List<Calls>,
    end_calls: Option<Calls>,
    /// The places of its blind uses; none where they aren't wanted.
    places: List<BlindPlace>,
}

/// Runs a checked module with threads to its end. Ok is what its plain run answers and its first 2048 picks, and where they are wanted
/// the calls that stood at each of its reports, in order, and where it ended, and the places of its blind uses.
fn run_to_end(
    alloc: Global,
    m: &CheckedModule,
    setup: &Setup,
    schedule: &[u8],
    wanted: bool,
) -> Result<WholeRun, NoMemory>
    requires limits { WithinLimits setup.now }
    requires scheduled { IsSchedule schedule.now }
    ensures result { IfOk result (λ r. r.recorded.result ≡ plain_threads m.now setup.now schedule.now) }
    ensures picks { IfOk result (λ r. Records r.recorded.recorder (plain_picks m.now setup.now schedule.now)) }
    ensures calls { IfOk result (λ r. r.calls ≡ (if wanted then plain_threads_calls m.now setup.now schedule.now else [])) }
    ensures end_calls { IfOk result (λ r. r.end_calls ≡ (if wanted then plain_threads_end_calls m.now setup.now schedule.now else None)) }
    ensures places { IfOk result (λ r. r.places ≡ (if wanted then places_of (plain_threads_blind m.now setup.now schedule.now) else [])) }
{
    let limit = ReportLimit {
        count: setup.reports,
        once: setup.once,
    };
    let running = start_run(alloc, m, setup)?;
    let table = ThreadTable::new(alloc)?;
    let mut threads = ThreadedRun {
        running,
        table,
        wanted,
        calls: Vec::new(alloc),
        ended: None,
        places: BlindPlaces::new(alloc),
    };
    loop {
        if let Some(end) = threads.run_to_pause(alloc, m, limit, schedule)? {
            let ThreadedRun {
                running,
                table,
                calls,
                ended,
                places,
                ..
            } = threads;
            let recorded = RecordedRun {
                result: running.into_result(end),
                recorder: table.recorder,
            };
            return Ok(WholeRun {
                recorded,
                calls: told_calls(alloc, calls, wanted),
                end_calls: told_end(ended, wanted),
                places: places.into_places(alloc, wanted),
            });
        }
    }
}

/// Runs a checked module with threads, as `run_threads` does, and keeps its first 2048 picks.
pub fn record_threads(
    alloc: Global,
    m: &CheckedModule,
    setup: &Setup,
    schedule: &[u8],
) -> Result<RecordedRun, NoMemory>
    requires limits { WithinLimits setup.now }
    requires scheduled { IsSchedule schedule.now }
    ensures result { IfOk result (λ r. r.result ≡ plain_threads m.now setup.now schedule.now) }
    ensures picks { IfOk result (λ r. Records r.recorder (plain_picks m.now setup.now schedule.now)) }
{
    let whole = run_to_end(alloc, m, setup, schedule, false)?;
    Ok(whole.recorded)
}

/// Runs a checked module with threads, under a schedule that isn't empty: the k-th pick of the run, counted from 0, takes of
/// r threads that may go on, in order of number, the one at the place `schedule[k mod length] mod r`. Ok is what its plain
/// run answers.
///
/// A switch of threads takes time linear in the number of threads, of which 64 may be made.
pub fn run_threads(
    alloc: Global,
    m: &CheckedModule,
    setup: &Setup,
    schedule: &[u8],
) -> Result<RunResult, NoMemory>
    requires limits { WithinLimits setup.now }
    requires scheduled { IsSchedule schedule.now }
    ensures { IfOk result (λ r. r ≡ plain_threads m.now setup.now schedule.now) }
{
    let recorded = record_threads(alloc, m, setup, schedule)?;
    Ok(recorded.result)
}

/// The same, and the calls that stood at each of its reports, in order, and where it ended, and the places of its blind uses, where
/// they are wanted.
///
/// A report takes as long as calls stand there; nothing else takes longer than in `run_threads`, but a blind use by one look-up of
/// its site.
pub fn run_threads_told(
    alloc: Global,
    m: &CheckedModule,
    setup: &Setup,
    schedule: &[u8],
    wanted: bool,
) -> Result<ToldRun, NoMemory>
    requires limits { WithinLimits setup.now }
    requires scheduled { IsSchedule schedule.now }
    ensures { IfOk result (λ r. r ≡ plain_threads_told wanted m.now setup.now schedule.now) }
{
    let whole = run_to_end(alloc, m, setup, schedule, wanted)?;
    let recorded = whole.recorded;
    Ok(ToldRun {
        result: recorded.result,
        calls: whole.calls,
        end_calls: whole.end_calls,
        places: whole.places,
    })
}
