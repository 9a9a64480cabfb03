//! Which external a call is of: takes the words of its arguments apart, has the method of `externals.rt` do it that is its own,
//! and answers the externals that touch no memory.
ghost use Rattle.std.specs.Prelude.{false, List, ◌≡◌, ◌≤◌, ◌<◌, ◌+◌, ◌%◌, ◌^◌, get_or, IfOk};
ghost use Rattle.ms_bits.specs.declared.word_functions.WordFn.{WordFn as WordFnOf};
ghost use Rattle.ms_bits.specs.declared.word_functions.WordWidth.{WordWidth as WordWidthOf};
ghost use Rattle.ms_bits.specs.WordFunctions.{bits_of, word_answer};
ghost use Rattle.ms_ir.specs.{declared.syntax.Ty.{Ty}, Signatures.{is_variadic, is_thread_call}};
ghost use Rattle.ms_runs.specs.World.{World as Meant, Setting, gives};
ghost use Rattle.ms_runs.specs.Externals.{external as external_of, assumed, unknown_size};
ghost use Rattle.ms_host.specs.{State.{Beside, Keeps, WorldState}, Shows.{Shows}};
ghost use Rattle.ms_host.specs.Answers.{Answered, IsExternal, IsStream, FitsFirst, asked_effect};

use crate::calls::{Answer, Asked, HostCall, trap};
use crate::worlds::World;
use ms_bits::{NoMemory, Trap, WordFn, WordWidth, answer_word};
use ms_ir::External;
use ms_runs::End;

/// Argument `k`; 0 where it is missing.
fn word(args: &[u64], k: usize) -> u64
    ensures { result ≡ get_or args.now k 0 }
{
    if k < args.len() { args[k] } else { 0 }
}

/// The low byte of a word.
fn low_byte(word: u64) -> u8
    ensures { result ≡ word % 256 }
{
    (word % 256) as u8
}

/// The answer to a call of a function of whole words at a site: its word, or its trap.
fn worded(function: WordFn, width: WordWidth, a: u64, b: u64, c: u64, site: u32) -> Answer
    requires { a < 2 ^ bits_of width }
    ensures { (beside : Beside) (meant : Meant) (world : WorldState) → Shows world beside meant → Answered beside (gives site (word_answer function (bits_of width) a b c) meant) result world }
{
    match answer_word(function, width, a, b, c) {
        Ok(value) => Answer::Resumed(Some(value)),
        Err(kind) => trap(kind, site),
    }
}

/// The answer to `llvm.assume` at a site: a trap where the condition is 0.
fn assumed(condition: u64, site: u32) -> Answer
    ensures { (beside : Beside) (meant : Meant) (world : WorldState) → Shows world beside meant → Answered beside (assumed site condition meant) result world }
{
    if condition == 0 {
        return trap(Trap::Unreachable, site);
    }
    Answer::Resumed(None)
}

/// What `llvm.objectsize` answers, here always as where no size is known: 0 where its argument `least` asks for the least size,
/// else -1.
fn unknown_size(least: u64) -> u64
    ensures { result ≡ unknown_size least }
{
    if least == 0 { u64::MAX } else { 0 }
}

/// Answers a call of an external other than `printf` and the thread calls: what it does to the world, and whether the run goes on.
///
/// An argument that is missing counts as 0. Where memory runs out the run is over.
#[tactic(auto, using(crate::proofs::FixedNumbers::fixed_number, crate::proofs::FixedNumbers::no_thread_call))]
pub fn answer(call: &HostCall, world: &mut World) -> Result<Answer, NoMemory>
    requires few { world.old.made + 2 ^ 26 < 2 ^ 64 }
    requires external { IsExternal call.now.asked }
    requires first { FitsFirst call.now.asked call.now.args }
    ensures answered { (given : Setting) (types : List Ty) (beside : Beside) (meant : Meant) → world.old.fill ≡ given.fill → Shows world.old beside meant → IfOk result (λ a. Answered beside (asked_effect given types call.now meant) a world.new) }
    ensures keeps { Keeps world.old world.new }
    ensures made { world.new.made ≤ world.old.made + 2 ^ 26 }
{
    match call.asked {
        Asked::External(external) => {
            world.answer_external(external, call.args.as_slice(), call.site)
        }
        Asked::Runtime(_) => unreachable!(),
    }
}

impl World {
    /// Does what an external does that prints, or takes input, and answers the call.
    fn answer_stream(
        &mut self,
        external: External,
        args: &[u64],
        site: u32,
    ) -> Result<Answer, NoMemory>
        requires { IsStream external }
        ensures answered { (given : Setting) (types : List Ty) (beside : Beside) (world : Meant) → Shows self.old beside world → IfOk result (λ a. Answered beside (external_of given site external types args.now world) a self.new) }
        ensures keeps { Keeps self.old self.new }
        ensures made { self.new.made ≡ self.old.made }
    {
        let a = word(args, 0);
        let b = word(args, 1);
        let c = word(args, 2);
        match external {
            External::Putchar => self.putchar(site, low_byte(a)),
            External::Puts => self.puts(site, a),
            External::Getchar => Ok(self.getchar()),
            External::Read => Ok(self.read(site, a, b, c)),
            External::Write => self.write(site, a, b, c),
            _ => unreachable!(),
        }
    }

    /// Does what an external does that is called at a site, and answers the call.
    pub(crate) fn answer_external(
        &mut self,
        external: External,
        args: &[u64],
        site: u32,
    ) -> Result<Answer, NoMemory>
        requires few { self.old.made + 2 ^ 26 < 2 ^ 64 }
        requires exit { external ≡ External.Exit → get_or args.now 0 0 < 2 ^ 32 }
        requires word { (function : WordFnOf) (width : WordWidthOf) → external ≡ External.Word function width → get_or args.now 0 0 < 2 ^ bits_of width }
        requires fixed { is_variadic external ≡ false }
        requires alone { is_thread_call external ≡ false }
        ensures answered { (given : Setting) (types : List Ty) (beside : Beside) (world : Meant) → self.old.fill ≡ given.fill → Shows self.old beside world → IfOk result (λ a. Answered beside (external_of given site external types args.now world) a self.new) }
        ensures keeps { Keeps self.old self.new }
        ensures made { self.new.made ≤ self.old.made + 2 ^ 26 }
    {
        let a = word(args, 0);
        let b = word(args, 1);
        let c = word(args, 2);
        match external {
            External::Malloc => self.malloc(a),
            External::Calloc => self.calloc(a, b),
            External::Realloc => self.realloc(site, a, b),
            External::Free => Ok(self.free(site, a)),
            External::Memcpy | External::Memmove => self.copied(site, a, b, c, Some(a)),
            External::Memset => Ok(self.filled(site, a, low_byte(b), c, Some(a))),
            External::Memcmp => Ok(self.memcmp(site, a, b, c)),
            External::Strlen => Ok(self.strlen(site, a)),
            External::Putchar
            | External::Puts
            | External::Getchar
            | External::Read
            | External::Write => self.answer_stream(external, args, site),
            External::Exit => Ok(Answer::Ended(End::Exit(a as u32))),
            External::Abort | External::LlvmTrap => Ok(trap(Trap::Abort, site)),
            External::LlvmAssume => Ok(assumed(a, site)),
            External::LlvmObjectSize => Ok(Answer::Resumed(Some(unknown_size(b)))),
            External::LlvmMemcpy | External::LlvmMemmove => self.copied(site, a, b, c, None),
            External::LlvmMemset => Ok(self.filled(site, a, low_byte(b), c, None)),
            External::LifetimeStart => Ok(self.lifetime_start(site, a, b)),
            External::LifetimeEnd => Ok(Answer::Resumed(None)),
            External::Word(function, width) => Ok(worded(function, width, a, b, c, site)),
            External::Printf
            | External::PthreadCreate
            | External::PthreadJoin
            | External::SchedYield => unreachable!(),
        }
    }
}
