//! Work in several threads: that two pieces of a list, of a module or of a corpus run at once, and short lists.
ghost use Rattle.std.specs.Prelude.{◌≡◌, ℕ, ◌*◌, ◌%◌, ◌^◌, IfOk};
ghost use Rattle.ms_check_valid.specs.Uninstrumented.{CanInstrument};

use ms_bits::{Boxed, NoMemory};
use ms_check::CheckedModule;
use ms_fork::{Gate, OpenGate, Split, Work, parallel_map};
use ms_gen::generate;
use ms_pass::instrument;
use ms_top::RealPass;
use ms_top_rows::calls::{Beside, Call, NOTHING, on_text, said_by};
use std::alloc::Global;
use std::hint::spin_loop;
use std::sync::atomic::{AtomicBool, Ordering};
use std::test::Fail;
use std::thread::Threads;

/// How often a piece looks whether another one has come.
const TURNS: u32 = 100_000_000;

/// The squares of numbers, which wrap.
#[derive(Drop)]
struct Squares;

impl Work for Squares {
    type Item = u64;

    ghost can = { λ work k. Unit {0} };

    ghost answer = { λ work k. k * k % 2 ^ 64 };

    fn make(&self, _alloc: Global, index: usize) -> Result<u64, NoMemory> {
        Ok((index as u64).wrapping_mul(index as u64))
    }
}

/// A gate at which the first piece and a later one wait for each other. A body that runs one after the other, in whatever
/// order, keeps the one that comes first waiting until its turns are used up.
#[derive(Drop)]
struct Meeting {
    /// The number of the later piece.
    later: u64,
    first_came: AtomicBool,
    later_came: AtomicBool,
    first_met: AtomicBool,
    later_met: AtomicBool,
}

/// Whether another piece has come, or comes while this one looks.
fn has_come(came: &AtomicBool) -> bool {
    for _ in 0..TURNS {
        if came.load(Ordering::SeqCst) {
            return true;
        }
        spin_loop();
    }
    false
}

impl Meeting {
    fn new(later: u64) -> Meeting {
        Meeting {
            later,
            first_came: AtomicBool::new(false),
            later_came: AtomicBool::new(false),
            first_met: AtomicBool::new(false),
            later_met: AtomicBool::new(false),
        }
    }

    fn is_met(&self) -> bool {
        self.first_met.load(Ordering::SeqCst) && self.later_met.load(Ordering::SeqCst)
    }
}

impl Gate for Meeting {
    fn enter(&self, job: u64) {
        if job == 0 {
            self.first_came.store(true, Ordering::SeqCst);
            self.first_met
                .store(has_come(&self.later_came), Ordering::SeqCst);
        } else if job == self.later {
            self.later_came.store(true, Ordering::SeqCst);
            self.later_met
                .store(has_come(&self.first_came), Ordering::SeqCst);
        }
    }
}

/// Whether the squares of the numbers below `count` are made by so many threads, the last of them being `last`, and piece 0 and
/// piece `later` meet.
fn meets<R: Threads + Sync>(
    rt: &R,
    alloc: Global,
    count: usize,
    split: Split,
    later: u64,
    last: u64,
) -> bool {
    let gate = Meeting::new(later);
    match parallel_map(rt, alloc, &Squares, count, split, &gate) {
        Ok(all) => gate.is_met()
            && all.as_slice().len() == count
            && all.as_slice().last() == Some(&last),
        Err(_) => false,
    }
}

#[test]
fn two_pieces_run_at_once(rt: HostRuntime) -> Result<(), Fail> {
    let split = Split {
        most: 8,
        threads: 16,
    };
    assert!(rt; meets(&rt, rt.alloc(), 16, split, 8, 225));
    Ok(())
}

#[test]
fn two_workers_meet(rt: HostRuntime) -> Result<(), Fail> {
    let split = Split {
        most: 1,
        threads: 2,
    };
    assert!(rt; meets(&rt, rt.alloc(), 2, split, 1, 1));
    Ok(())
}

/// A module of sixteen functions, checked.
fn sixteen_functions(alloc: Global) -> Result<Boxed<CheckedModule>, NoMemory>
    ensures { IfOk result (λ m. CanInstrument m) }
{
    let module = generate(alloc, 7, 15)?;
    Boxed::new(alloc, CheckedModule::of_valid(alloc, module)?)
}

/// Instruments a module, whose pieces enter a gate, and returns whether there was memory for it.
fn enter<R: Threads + Sync>(rt: &R, alloc: Global, m: &CheckedModule, gate: &Meeting) -> bool
    requires { CanInstrument m.now }
{
    instrument(rt, alloc, m, gate).is_ok()
}

/// Whether the functions of a module of sixteen are instrumented at once: the piece of the first eight meets the other one.
fn pieces_meet<R: Threads + Sync>(rt: &R, alloc: Global) -> bool {
    let gate = Meeting::new(8);
    match sixteen_functions(alloc) {
        Ok(module) => enter(rt, alloc, module.get(), &gate) && gate.is_met(),
        Err(_) => false,
    }
}

#[test]
fn two_pieces_of_a_module_meet(rt: HostRuntime) -> Result<(), Fail> {
    assert!(rt; pieces_meet(&rt, rt.alloc()));
    Ok(())
}

static TWO_INPUTS: [(&str, &str); 2] = [("a", ""), ("b", "")];

/// The call that runs a module on two inputs by two workers.
fn two_inputs() -> Call<'static> {
    Call {
        beside: Beside::These(&TWO_INPUTS),
        ..on_text(
            "corpus --steps 100 --workers 2 f a b",
            b"define i32 @main() {\n  ret i32 0\n}\n",
            NOTHING,
        )
    }
}

/// Whether the runs of two inputs by two workers meet.
fn workers_meet<R: Threads + Sync>(rt: &R, alloc: Global) -> bool {
    let gate = Meeting::new(1);
    match said_by(rt, alloc, &two_inputs(), &RealPass::new(OpenGate), &gate) {
        Ok(desk) => desk.status == 0 && gate.is_met(),
        Err(_) => false,
    }
}

#[test]
fn two_workers_of_a_corpus_meet(rt: HostRuntime) -> Result<(), Fail> {
    assert!(rt; workers_meet(&rt, rt.alloc()));
    Ok(())
}

/// Whether the squares of 0, 1 and 2 are made in this way.
fn makes_three<R: Threads + Sync>(rt: &R, alloc: Global, split: Split) -> bool {
    match parallel_map(rt, alloc, &Squares, 3, split, &OpenGate) {
        Ok(all) => all.as_slice() == [0, 1, 4].as_slice(),
        Err(_) => false,
    }
}

#[test]
fn short_lists_are_made(rt: HostRuntime) -> Result<(), Fail> {
    let alone = Split {
        most: 0,
        threads: 0,
    };
    let both = Split {
        most: 1,
        threads: 8,
    };
    assert!(rt; makes_three(&rt, rt.alloc(), alone) && makes_three(&rt, rt.alloc(), both));
    Ok(())
}
