//! The public calls: of words, and of a command with a pass and a gate.
ghost use Rattle.std.specs.Prelude.{◌≡◌, ◌≢◌, ◌≤◌, ◌⊎◌, Err, IfOk};
ghost use Rattle.ms_io.specs.Counts.{Rose};
ghost use Rattle.ms_words.specs.{declared.commands.WordsError.{WordsError}, Limits.{IsWithinLimits}};
ghost use Rattle.ms_words.specs.Words.{command_of};
ghost use Rattle.ms_top.specs.{Files.{counted}, Instrumented.{IsInstrumented}};
ghost use Rattle.ms_top.specs.Said.{IsSaid, IsPartlySaid, IsDone, IsPartlyDone, IsTold, IsPartlyTold, between};
ghost use Rattle.ms_top.specs.Statuses as statuses;

use crate::commands::read_command;
use crate::exit_codes::Status;
use crate::files::no_command;
use crate::jobs::Job;
use crate::output::{Output, write_output};
use crate::passes::{Pass, RealPass};
use ms_bits::{NoMemory, Text};
use ms_fork::{Gate, OpenGate};
use ms_io::{Files, Sink};
use ms_words::Command;
use std::alloc::Global;
use std::thread::Threads;

/// Does what the words after the program's name ask for. `run` runs the module in a file, and `check` runs it with the
/// shadow of each word: the output is written to `out`; each use of uninitialised bits that was found, and how the run
/// ended, to `err`. `explain` does what `check` does up to the first report, and writes that report to `out`, with one way from a root
/// to what its use read. `corpus` does what `check` does for each of many inputs, and writes a section for each to `out`.
/// `instrument` writes to `out` the text of the module that `check` runs, which `run` takes. `gen` writes
/// a generated module to `out`, or the summary of its check. `help` writes the usage to `out`, and `version` one line with
/// the version. A module with threads is run under the schedule of the options; `corpus` and `explain`, which take none, refuse
/// it. `check` of several schedules runs it under one after the other, up to the first run with a report or a blind use, and says of
/// that run, or else of the last, what it says of one schedule, and how many were tried and whether these are all. The threads that do
/// the work are those of the runtime.
///
/// The status is 77 for a run with a report, else 0 for one that is done, 3 for one that trapped and 4 for
/// one whose steps were used up; of a corpus 77, else 3, else 4 where a run has it; of several schedules that of the run
/// that is told; 0 where a module, the usage or the version is written. It is 2 where the words are no command, 5 where the module is refused, 6 where a file can't be
/// read, 7 where a put failed, 8 where memory runs out, 9 where a file is too long. All memory is taken before the first
/// put. Words that are no command read no file.
pub fn msan<R: Threads + Sync, F: Files, O: Sink, E: Sink>(
    rt: &R,
    alloc: Global,
    words: &[Text],
    files: &mut F,
    out: &mut O,
    err: &mut E,
) -> u8
    ensures said { result ≢ statuses.failed_put → IsSaid IsInstrumented
        (counted (F.held files.old) (F.faults files.old) (F.faults files.new) (F.taken files.old) (F.taken files.new))
        (between (O.written out.old) (E.written err.old) (O.written out.new) (E.written err.new)) words.now result }
    ensures partly_said { result ≡ statuses.failed_put → IsPartlySaid IsInstrumented
        (counted (F.held files.old) (F.faults files.old) (F.faults files.new) (F.taken files.old) (F.taken files.new))
        (between (O.written out.old) (E.written err.old) (O.written out.new) (E.written err.new)) words.now }
    ensures failed { result ≡ statuses.failed_put → Rose (O.faults out.old) (O.faults out.new) ⊎ Rose (E.faults err.old) (E.faults err.new) }
    ensures holdings_stay { F.held files.new ≡ F.held files.old }
    ensures faults_never_fall { F.faults files.old ≤ F.faults files.new }
    ensures taken_never_falls { F.taken files.old ≤ F.taken files.new }
    ensures out_faults_never_fall { O.faults out.old ≤ O.faults out.new }
    ensures err_faults_never_fall { E.faults err.old ≤ E.faults err.new }
    ensures unread { (fault : WordsError) → command_of words.now ≡ Err fault → files.new ≡ files.old }
{
    match read_command(alloc, words) {
        Ok(command) => {
            let pass = RealPass::new(OpenGate);
            job(rt, alloc, command.get(), files, out, err, &pass, &OpenGate)
        }
        Err(fault) => put_output(no_command(alloc, fault), out, err),
    }
}

/// Does what a command asks for, as `msan` does for words, where the pass makes the module that is run, and each run on one
/// of many inputs enters the gate. The numbers of the command are within their limits, as those of words always are. The
/// statuses are those of `msan`, but for 2.
pub fn job<R: Threads + Sync, F: Files, O: Sink, E: Sink, P: Pass, G: Gate + Sync>(
    rt: &R,
    alloc: Global,
    command: &Command,
    files: &mut F,
    out: &mut O,
    err: &mut E,
    pass: &P,
    gate: &G,
) -> u8
    requires { IsWithinLimits command.now }
    ensures said { result ≢ statuses.failed_put → IsDone P.gives
        (counted (F.held files.old) (F.faults files.old) (F.faults files.new) (F.taken files.old) (F.taken files.new))
        (between (O.written out.old) (E.written err.old) (O.written out.new) (E.written err.new)) command.now result }
    ensures partly_said { result ≡ statuses.failed_put → IsPartlyDone P.gives
        (counted (F.held files.old) (F.faults files.old) (F.faults files.new) (F.taken files.old) (F.taken files.new))
        (between (O.written out.old) (E.written err.old) (O.written out.new) (E.written err.new)) command.now }
    ensures failed { result ≡ statuses.failed_put → Rose (O.faults out.old) (O.faults out.new) ⊎ Rose (E.faults err.old) (E.faults err.new) }
    ensures holdings_stay { F.held files.new ≡ F.held files.old }
    ensures faults_never_fall { F.faults files.old ≤ F.faults files.new }
    ensures taken_never_falls { F.taken files.old ≤ F.taken files.new }
    ensures out_faults_never_fall { O.faults out.old ≤ O.faults out.new }
    ensures err_faults_never_fall { E.faults err.old ≤ E.faults err.new }
{
    let job = Job {
        rt,
        alloc,
        pass,
        gate,
    };
    put_output(job.run_command(command, files), out, err)
}

/// Writes what there is to say, or that memory ran out, and returns its status.
fn put_output<O: Sink, E: Sink>(output: Result<Output, NoMemory>, out: &mut O, err: &mut E) -> u8
    requires { IfOk output (λ a. a.status ≢ statuses.failed_put) }
    ensures told { result ≢ statuses.failed_put → IsTold output (between (O.written out.old) (E.written err.old) (O.written out.new) (E.written err.new)) result }
    ensures partly_told { result ≡ statuses.failed_put → IsPartlyTold output (between (O.written out.old) (E.written err.old) (O.written out.new) (E.written err.new)) }
    ensures failed { result ≡ statuses.failed_put → Rose (O.faults out.old) (O.faults out.new) ⊎ Rose (E.faults err.old) (E.faults err.new) }
    ensures out_faults_never_fall { O.faults out.old ≤ O.faults out.new }
    ensures err_faults_never_fall { E.faults err.old ≤ E.faults err.new }
{
    match output {
        Ok(said) => write_output(
            out,
            err,
            said.status,
            said.out.as_slice(),
            said.err.as_slice(),
        ),
        Err(_) => write_output(out, err, Status::NoMemory as u8, b"", b"out of memory\n"),
    }
}
