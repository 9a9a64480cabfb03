//! The threads of a run: what each is, and the parked frames of those that don't run now.
ghost use Rattle.std.specs.Prelude.{◌≡◌, ℕ, ◌<◌, ◌≤◌, ◌+◌, ◌-◌, get_or, length, leb, true, false, None, Some, [], IfOk, OnOk, MatchBool, eqb, if◌then◌else◌, option_map};
ghost use Rattle.ms_runs.specs.Threads.{fiber_limit, thread_at, join_answer as join_answer_of, has_ended as has_ended_of};
ghost use Rattle.ms_runs_threads.specs.{Fibers.{waits as waits_of, is_runnable as is_runnable_of}, Calls.{start_of}};
ghost use Rattle.ms_threads.specs.ThreadTables.{guest_at, asked_creates, call_joins, standing_of, standing_joins, threads_of, starts_of, stand_of, stands_of, runnable_in, joined_guest, ended_guest, Counted, IsNew, Added, Changed, SameCalls, Stands, Picked, part_at, site_of};

use crate::recorder::{Choice, Recorder};
use ms_bits::NoMemory;
use ms_host::{Asked, HostCall};
use ms_ir::External;
use ms_machine_frames::{Fiber, no_fiber};
use std::alloc::Global;
use std::mem::{replace, swap};

/// How many threads a run may have, that of `main` counted.
const LIMIT: usize = 64;

/// A thread beside `main`'s.
#[derive(Clone, Copy, Debug, PartialEq, Eq)]
pub struct Thread {
    /// The number of the function that it begins with.
    pub func: u64,
    pub argument: u64,
    /// The site of the call that made it.
    pub start: u32,
    pub ended: bool,
    pub joined: bool,
    /// The word that it answered, where it has ended.
    pub answer: u64,
    /// The mask of that word: a 1 for each uninitialised bit.
    pub mask: u64,
    /// The origin of those bits; 0 where there are none.
    pub origin: u32,
}

/// A thread that doesn't run now: suspended at a thread call, or not begun, or ended.
#[derive(Drop)]
pub struct Parked {
    /// Its frames; empty where it isn't suspended.
    pub fiber: Fiber,
    /// The thread call at which it is suspended.
    pub call: Option<HostCall>,
}

/// The threads of a run.
#[derive(Drop)]
pub struct ThreadTable {
    /// The number of the one that runs; that of `main` is 0.
    pub turn: usize,
    /// The threads beside `main`'s, in order of number, which begins with 1.
    pub threads: Vec<Thread>,
    /// The suspended frames of each, by number from 0; empty for the one that runs, those that haven't begun and those that have
    /// ended.
    pub parked: Vec<Parked>,
    /// The place in the schedule of the next pick.
    pub next_pick: usize,
    /// The picks that were made.
    pub recorder: Recorder,
}

/// Whether a call makes a thread.
pub(crate) fn creates(call: &HostCall) -> bool
    ensures { result ≡ asked_creates call.now.asked }
{
    match call.asked {
        Asked::External(External::PthreadCreate) => true,
        _ => false,
    }
}

/// The thread that a call joins, if it is a join.
pub(crate) fn joins(call: &HostCall) -> Option<u64>
    ensures { result ≡ call_joins call.now }
{
    match call.asked {
        Asked::External(External::PthreadJoin) => Some(word(call.args.as_slice(), 0)),
        _ => None,
    }
}

/// Argument `k`; 0 where it is missing.
pub(crate) fn word(args: &[u64], k: usize) -> u64
    ensures { result ≡ get_or args.now k 0 }
{
    if k < args.len() { args[k] } else { 0 }
}

/// The origin of a word with a mask: 0 where no bit is uninitialised.
fn kept_origin(mask: u64, origin: u32) -> u32
    ensures { result ≡ (if eqb mask 0 then 0 else origin) }
{
    if mask == 0 { 0 } else { origin }
}

/// 1 for true, else 0.
fn one_if(passed: bool) -> usize
    ensures { result ≡ (if passed then 1 else 0) }
{
    if passed { 1 } else { 0 }
}

/// Exchanges the calls that stand on two fibers, with the heap blocks of these. Each fiber keeps the spare memory that it has for
/// later calls.
#[inline(always)]
pub(crate) fn exchange(one: &mut Fiber, other: &mut Fiber)
    ensures one { SameCalls other.old one.new }
    ensures other { SameCalls one.old other.new }
{
    swap(&mut one.frame, &mut other.frame);
    swap(&mut one.below, &mut other.below);
    swap(&mut one.spawned, &mut other.spawned);
    swap(&mut one.heap, &mut other.heap);
}

impl Parked {
    /// A thread that isn't suspended. It takes no memory.
    fn empty(alloc: Global) -> Parked
        ensures { result.call ≡ None }
    {
        Parked {
            fiber: no_fiber(alloc),
            call: None,
        }
    }

    /// Suspends the thread at a call: its frames are moved out of `fiber`, which gets what was here.
    #[inline(always)]
    fn park(&mut self, fiber: &mut Fiber, call: HostCall)
        ensures { stand_of self.new ≡ Some (standing_of fiber.old call) }
    {
        exchange(fiber, &mut self.fiber);
        self.call = Some(call);
    }

    /// Moves the frames of the thread into `fiber`, and returns the call at which it was suspended, if it was.
    #[inline(always)]
    fn take(&mut self, fiber: &mut Fiber) -> Option<HostCall>
        ensures taken { option_map (standing_of fiber.new) result ≡ stand_of self.old }
        ensures nowhere { stand_of self.new ≡ None }
    {
        exchange(fiber, &mut self.fiber);
        replace(&mut self.call, None)
    }
}

impl ThreadTable {
    /// The threads at the start of a run: that of `main`, which goes on.
    pub fn new(alloc: Global) -> Result<ThreadTable, NoMemory>
        ensures { IfOk result IsNew }
    {
        let mut parked = Vec::new(alloc);
        parked.push(Parked::empty(alloc))?;
        Ok(ThreadTable {
            turn: 0,
            threads: Vec::new(alloc),
            parked,
            next_pick: 0,
            recorder: Recorder::new(alloc),
        })
    }

    /// Whether as many threads were made as may be.
    pub fn is_full(&self) -> bool
        ensures { result ≡ leb fiber_limit (length self.now.threads.items + 1) }
    {
        self.threads.len() + 1 >= LIMIT
    }

    /// Adds a thread that hasn't begun, which a call at a site makes, and whose number is that of those made before it.
    pub fn add(
        &mut self,
        alloc: Global,
        func: u64,
        argument: u64,
        start: u32,
    ) -> Result<(), NoMemory>
        ensures { OnOk result (Added func argument start self.old self.new) }
    {
        self.threads.push(Thread {
            func,
            argument,
            start,
            ended: false,
            joined: false,
            answer: 0,
            mask: 0,
            origin: 0,
        })?;
        self.parked.push(Parked::empty(alloc))?;
        Ok(())
    }

    /// The thread with a number; that of `main` is none of these.
    pub fn thread(&self, number: u64) -> Option<Thread>
        ensures { result ≡ guest_at number self.now.threads.items }
    {
        if number == 0 || number > self.threads.len() as u64 {
            return None;
        }
        Some(self.threads[(number - 1) as usize])
    }

    /// The site of the call that made the thread that goes on; 0 for that of `main`.
    pub fn start(&self) -> u32
        ensures { result ≡ start_of self.now.turn (starts_of self.now) }
    {
        match self.thread(self.turn as u64) {
            Some(thread) => thread.start,
            None => 0,
        }
    }

    /// Whether the thread with a number has ended.
    pub fn has_ended(&self, number: u64) -> bool
        ensures { result ≡ has_ended_of (thread_at number (threads_of self.now)) }
    {
        match self.thread(number) {
            Some(thread) => thread.ended,
            None => false,
        }
    }

    /// What a join of thread `number` answers to thread `own`: 35 (`EDEADLK`) for its own number, 3 (`ESRCH`) for no thread's and
    /// that of one that was joined, else 0.
    pub fn join_answer(&self, own: u64, number: u64) -> u64
        ensures { result ≡ join_answer_of own number (threads_of self.now) }
    {
        if number == own {
            return 35;
        }
        match self.thread(number) {
            Some(thread) => { if thread.joined { 3 } else { 0 } }
            None => 3,
        }
    }

    /// The word that the thread with a number answered; 0 where there is none.
    pub fn answer_at(&self, number: u64) -> u64
        requires { 0 < number }
        ensures { result ≡ part_at (λ t. t.answer) self.now.threads.items (number - 1) }
    {
        match self.thread(number) {
            Some(thread) => thread.answer,
            None => 0,
        }
    }

    /// Notes that the thread with a number was joined.
    pub fn join(&mut self, number: u64)
        requires some { 0 < number }
        requires few { number ≤ length self.old.threads.items }
        ensures { Changed number joined_guest self.old self.new }
    {
        let k = (number - 1) as usize;
        let mut thread = self.threads[k];
        thread.joined = true;
        self.threads[k] = thread;
    }

    /// Notes that the thread that runs has ended with the word `answer`, and its mask and origin; nothing where that is `main`'s.
    pub fn end(&mut self, answer: u64, mask: u64, origin: u32)
        requires { self.old.turn ≤ length self.old.threads.items }
        ensures { Changed self.old.turn (ended_guest answer mask origin) self.old self.new }
    {
        if self.turn == 0 {
            return;
        }
        let kept = kept_origin(mask, origin);
        let k = self.turn - 1;
        let mut thread = self.threads[k];
        thread.ended = true;
        thread.answer = answer;
        thread.mask = mask;
        thread.origin = kept;
        self.threads[k] = thread;
    }

    /// Suspends the current thread at a call: its frames are moved out of `fiber`, which gets empty ones.
    pub fn park(&mut self, fiber: &mut Fiber, call: HostCall)
        requires { self.old.turn < length self.old.parked.items }
        ensures { Stands (Some (standing_of fiber.old call)) self.old self.new }
    {
        self.parked[self.turn].park(fiber, call);
    }

    /// Whether thread `own` has to wait at a call: at a join that would answer 0, of a thread that hasn't ended.
    fn waits(&self, own: u64, call: &HostCall) -> bool
        ensures { result ≡ waits_of own (threads_of self.now) (call_joins call.now) }
    {
        match joins(call) {
            Some(number) => self.join_answer(own, number) == 0 && !self.has_ended(number),
            None => false,
        }
    }

    /// Whether the thread with a number may go on: it hasn't ended, and hasn't begun or stands at a call that needn't wait.
    fn is_runnable(&self, k: usize) -> bool
        requires { k < length self.now.parked.items }
        ensures { result ≡ is_runnable_of standing_joins (threads_of self.now) (stands_of self.now) k }
    {
        if self.has_ended(k as u64) {
            return false;
        }
        match &self.parked[k].call {
            Some(call) => !self.waits(k as u64, call),
            None => self.thread(k as u64).is_some(),
        }
    }

    /// Lists the numbers of the threads that may go on, in order, in the first places of `ready`. Returns how many they are.
    #[inline(always)]
    fn list_runnable(&self, ready: &mut [u8]) -> usize
        requires counted { Counted self.now }
        requires few { length self.now.parked.items ≤ fiber_limit }
        requires room { length self.now.parked.items ≤ length ready.old }
        ensures count { result ≡ length (runnable_in self.now) }
        ensures few { result ≤ length self.now.parked.items }
        ensures listed { (place : ℕ) → place < result → get_or ready.new place 0 ≡ get_or (runnable_in self.now) place 0 }
    {
        let mut count = 0;
        for k in 0..self.parked.len() {
            ready[count] = k as u8;
            let one = one_if(self.is_runnable(k));
            count += one;
        }
        count
    }

    /// Picks the thread that the schedule gives among those that may go on, and records it. Returns whether there is one. One walk
    /// over the threads.
    #[inline(always)]
    pub fn pick(&mut self, schedule: &[u8]) -> Result<bool, NoMemory>
        requires counted { Counted self.old }
        requires few { length self.old.parked.items ≤ fiber_limit }
        requires place { self.old.next_pick < length schedule.now }
        ensures { IfOk result (λ some. MatchBool some (Picked schedule.now self.old self.new) ((runnable_in self.old ≡ []) × (self.new ≡ self.old))) }
    {
        let mut ready = [0u8; LIMIT];
        let count = self.list_runnable(&mut ready);
        if count == 0 {
            return Ok(false);
        }
        let chosen = schedule[self.next_pick] as usize % count;
        self.recorder.record(Choice {
            chosen: chosen as u8,
            among: count as u8,
        })?;
        self.turn = ready[chosen] as usize;
        self.next_pick = if self.next_pick + 1 < schedule.len() {
            self.next_pick + 1
        } else {
            0
        };
        Ok(true)
    }

    /// The site of the call at which the thread of `main` stands; 0 where it stands nowhere.
    pub fn main_site(&self) -> u32
        requires { 0 < length self.now.parked.items }
        ensures { result ≡ site_of (stands_of self.now 0) }
    {
        match &self.parked[0].call {
            Some(call) => call.site,
            None => 0,
        }
    }

    /// Moves the frames of the picked thread into `fiber`, and returns the call at which it was suspended, if it has begun.
    pub fn unpark(&mut self, fiber: &mut Fiber) -> Option<HostCall>
        requires { self.old.turn < length self.old.parked.items }
        ensures taken { option_map (standing_of fiber.new) result ≡ stands_of self.old self.old.turn }
        ensures stands { Stands None self.old self.new }
    {
        self.parked[self.turn].take(fiber)
    }
}
