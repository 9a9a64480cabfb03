//! What the thread calls of a program do, once the schedule has picked the thread that stands at one (POSIX, "pthread_create",
//! "pthread_join" and "sched_yield"; own: numbers of threads and their limit). In a table that
//! `KeepsStands` all threads stand where they stood.
ghost use Rattle.std.specs.Prelude.{◌≡◌, ◌<◌, ◌+◌, ◌∷◌, ◌||◌, [], Some, true, false, eqb, if◌then◌else◌, get_or, IfOk, MatchBool, List};
ghost use Rattle.ms_ir.specs.declared.syntax.Ty.{Ty};
ghost use Rattle.ms_runs.specs.{World.{World as Meant, Setting}, Memory.{is_good, store_number}};
ghost use Rattle.ms_runs.specs.Externals.{create as create_of, join as join_of};
ghost use Rattle.ms_runs_threads.specs.Fibers.{waits as waits_of};
ghost use Rattle.ms_host.specs.{State.{Beside, Keeps}, Shows.{Shows}, Answers.{asked_effect}};
ghost use Rattle.ms_threads.specs.ThreadTables.{IsThreadCall, asked_starts, call_joins, threads_of, Shares, KeepsStands, Did};

use crate::thread_table::{ThreadTable, creates, joins, word};
use ms_bits::{NoMemory, Trap};
use ms_host::{Answer, HostCall, World};
use ms_runs::End;
use std::alloc::Global;

/// The run ends by a trap, since an address isn't good.
fn bad_address(site: u32) -> Answer
    ensures { result ≡ Answer.Ended (End.Trap Trap.BadAddress site) }
{
    Answer::Ended(End::Trap {
        kind: Trap::BadAddress,
        site,
    })
}

/// The answer of a call that returns a number.
fn gives(value: u64) -> Answer
    ensures { result ≡ Answer.Resumed (Some value) }
{
    Answer::Resumed(Some(value))
}

/// Stores a word at the address `r` unless that is null. Returns whether it could.
fn store_word(r: u64, word: u64, world: &mut World) -> bool
    ensures stored { (beside : Beside) (meant : Meant) → Shows world.old beside meant → MatchBool result (((eqb r 0 || is_good meant r 8) ≡ true) × Shows world.new beside (if eqb r 0 then meant else store_number r 8 word meant)) ((eqb r 0 ≡ false) × (is_good meant r 8 ≡ false) × Shows world.new beside meant) }
    ensures keeps { Keeps world.old world.new }
    ensures made { world.new.made ≡ world.old.made }
{
    if r == 0 {
        return true;
    }
    world.store(r, 8, word)
}

impl ThreadTable {
    /// `pthread_create`: one thread more, which begins with function number `func`, and its number at the address `id`; answers 0,
    /// or 11 (`EAGAIN`) where as many were made as may be.
    fn create(
        &mut self,
        alloc: Global,
        id: u64,
        func: u64,
        argument: u64,
        site: u32,
        world: &mut World,
    ) -> Result<Answer, NoMemory>
        ensures did { (beside : Beside) (meant : Meant) → Shows world.old beside meant → Shares self.old beside.fibers → IfOk result (λ a. Did (create_of site id func argument meant) a beside self.new world.new) }
        ensures kept { IfOk result (λ a. KeepsStands site (func ∷ []) self.old self.new) }
        ensures keeps { Keeps world.old world.new }
        ensures made { world.new.made ≡ world.old.made }
    {
        if self.is_full() {
            return Ok(gives(11));
        }
        self.add(alloc, func, argument, site)?;
        if world.store(id, 8, self.threads.len() as u64) {
            Ok(gives(0))
        } else {
            Ok(bad_address(site))
        }
    }

    /// `pthread_join`, where it needn't wait: the word that thread `id` answered is stored at the address `r` unless that is null.
    fn joined(&mut self, id: u64, r: u64, site: u32, world: &mut World) -> Answer
        requires { waits_of self.old.turn (threads_of self.old) (Some id) ≡ false }
        ensures did { (beside : Beside) (meant : Meant) → Shows world.old beside meant → Shares self.old beside.fibers → Did (join_of site id r meant) result beside self.new world.new }
        ensures kept { KeepsStands site [] self.old self.new }
        ensures keeps { Keeps world.old world.new }
        ensures made { world.new.made ≡ world.old.made }
    {
        let answer = self.join_answer(self.turn as u64, id);
        if answer != 0 {
            return gives(answer);
        }
        if !store_word(r, self.answer_at(id), world) {
            return bad_address(site);
        }
        self.join(id);
        gives(0)
    }

    /// Does the thread call at which the current thread stands, and answers it.
    #[inline(always)]
    pub fn answer(
        &mut self,
        alloc: Global,
        call: &HostCall,
        world: &mut World,
    ) -> Result<Answer, NoMemory>
        requires asked { IsThreadCall call.now.asked }
        requires free { waits_of self.old.turn (threads_of self.old) (call_joins call.now) ≡ false }
        ensures did { (setting : Setting) (types : List Ty) (beside : Beside) (meant : Meant) → Shows world.old beside meant → Shares self.old beside.fibers → IfOk result (λ a. Did (asked_effect setting types call.now meant) a beside self.new world.new) }
        ensures kept { IfOk result (λ a. KeepsStands call.now.site (asked_starts call.now.asked call.now.args) self.old self.new) }
        ensures keeps { Keeps world.old world.new }
        ensures made { world.new.made ≡ world.old.made }
    {
        let args = call.args.as_slice();
        if creates(call) {
            return self.create(
                alloc,
                word(args, 0),
                word(args, 2),
                word(args, 3),
                call.site,
                world,
            );
        }
        let Some(id) = joins(call) else {
            return Ok(gives(0));
        };
        Ok(self.joined(id, word(args, 1), call.site, world))
    }
}
