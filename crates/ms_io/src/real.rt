//! Files of the file system, and sinks over a writer of std: the trusted edge.
ghost use Rattle.std.specs.Prelude.{◌≡◌, ◌+◌, ◌^◌, ◌<◌, ◌≤◌, All, length, Option, None, IsTrue, IfOk, OnOk, OnErr};
ghost use Rattle.std.specs.Io.KnownBytes.{Appends};
ghost use Rattle.ms_io.specs.Counts.{last_count, Rose, RoseBy};
ghost use Rattle.ms_io.specs.Reading.{IsWholeFile, IsAbsent, IsFaultless, IfFailed, UnlessFailed, IfAbsent, IfTooLong};

use crate::{FileError, Files, Sink, SinkFailed};
use std::alloc::Global;
use std::io::Read;
use std::{fs, io, rt};

/// The number of bytes that one read asks for.
const CHUNK: usize = 65536;

/// What was met so far. Both counters stand still at their greatest number.
#[derive(Debug, Drop)]
struct Counters {
    /// How many bytes were taken.
    taken: u64,
    /// How many calls of the system failed.
    faults: u64,
}

/// Reads once, at most `most` bytes, and appends what was read. Returns how many bytes that were, 0 at the
/// end of the file. Its errors are `Failed`, where a fault was counted, and `NoMemory`.
fn append_chunk<F: Read>(
    file: &mut F,
    chunk: &mut [u8],
    most: u64,
    bytes: &mut Vec<u8>,
    counters: &mut Counters,
) -> Result<u64, FileError>
    ensures within { IfOk result (λ n. n ≤ most) }
    ensures appended { IfOk result (λ n. length bytes.new.items ≡ length bytes.old.items + n) }
    ensures taken { IfOk result (λ n. RoseBy n counters.old.taken counters.new.taken) }
    ensures failed { IfFailed result (Rose counters.old.faults counters.new.faults) }
    ensures faultless { UnlessFailed result (counters.new.faults ≡ counters.old.faults) }
    ensures never_absent { IfAbsent result ⊥ }
    ensures never_too_long { IfTooLong result (λ n. ⊥) }
    ensures taken_never_falls { counters.old.taken ≤ counters.new.taken }
    ensures taken_ends { counters.new.taken ≤ last_count }
    ensures faults_never_fall { counters.old.faults ≤ counters.new.faults }
    ensures faults_end { counters.new.faults ≤ last_count }
{
    let (taken, faults) = (counters.taken, counters.faults);
    let most = most.min(chunk.len() as u64) as usize;
    let piece = &mut chunk[..most];
    match file.read(piece) {
        Ok(read) => {
            counters.taken = taken.saturating_add(read as u64);
            match bytes.extend_from_slice(&piece[..read]) {
                Ok(()) => Ok(read as u64),
                Err(_) => Err(FileError::NoMemory),
            }
        }
        Err(_) => {
            counters.faults = faults.saturating_add(1);
            Err(FileError::Failed)
        }
    }
}

/// A law: what is read is bytes, as each slice of `u8` is.
fn law_in_range(bytes: &[u8])
    ensures { All (λ b. b < 2 ^ 8) bytes.now }
{
    let _count = bytes.len();
}

/// Reads to the end of the file, or until more than `limit` bytes were taken.
fn read_to_end<F: Read>(
    alloc: Global,
    file: &mut F,
    limit: u64,
    counters: &mut Counters,
) -> Result<Vec<u8>, FileError>
    requires { limit < 2 ^ 32 }
    ensures whole { IfOk result (λ bytes. length bytes.items ≤ limit) }
    ensures bytes { IfOk result (λ bytes. All (λ b. b < 2 ^ 8) bytes.items) }
    ensures whole_taken { IfOk result (λ bytes. RoseBy (length bytes.items) counters.old.taken counters.new.taken) }
    ensures failed { IfFailed result (Rose counters.old.faults counters.new.faults) }
    ensures faultless { UnlessFailed result (counters.new.faults ≡ counters.old.faults) }
    ensures never_absent { IfAbsent result ⊥ }
    ensures too_long { IfTooLong result (λ n. (n ≡ limit + 1) × RoseBy n counters.old.taken counters.new.taken) }
    ensures taken_never_falls { counters.old.taken ≤ counters.new.taken }
    ensures taken_ends { counters.new.taken ≤ last_count }
    ensures faults_never_fall { counters.old.faults ≤ counters.new.faults }
    ensures faults_end { counters.new.faults ≤ last_count }
{
    // Read for their ranges alone, which the contract needs.
    let (_taken, _faults) = (counters.taken, counters.faults);
    let Ok(mut chunk) = vec![in alloc; 0u8; CHUNK] else {
        return Err(FileError::NoMemory);
    };
    let mut bytes = Vec::new(alloc);
    while bytes.len() as u64 <= limit {
        let most = limit + 1 - bytes.len() as u64;
        match append_chunk(file, &mut chunk, most, &mut bytes, counters) {
            Ok(0) => {
                law_in_range(&bytes);
                return Ok(bytes);
            }
            Ok(_) => {}
            Err(error) => return Err(error),
        }
    }
    Err(FileError::TooLong { taken: limit + 1 })
}

/// The files of the file system, by their paths.
///
/// They tell nothing of what they hold, since no clause can say what a file has. A path that cannot be
/// opened, also where there is no such file, is `Failed` and never `Absent`. A read that fails is not tried
/// again, also where it was interrupted, so that each call returns.
#[derive(Debug, Drop)]
pub struct RealFiles<'a, R> {
    runtime: &'a R,
    counters: Counters,
}

impl<'a, R: rt::Files> RealFiles<'a, R> {
    /// The files that `rt` reaches. Takes no memory.
    pub fn new(rt: &'a R) -> RealFiles<'a, R>
        ensures held { ⟦<RealFiles<'a, R> as Files>⟧.held result ≡ None }
        ensures taken { ⟦<RealFiles<'a, R> as Files>⟧.taken result ≡ 0 }
        ensures faults { ⟦<RealFiles<'a, R> as Files>⟧.faults result ≡ 0 }
    {
        RealFiles {
            runtime: rt,
            counters: Counters {
                taken: 0,
                faults: 0,
            },
        }
    }
}

impl<R: rt::Files> Files for RealFiles<'_, R> {
    ghost held = { λ _. None };

    ghost use Rattle.ms_io.specs.RealFiles.{taken_by, faults_of};

    ghost taken = { λ files. taken_by files };

    ghost faults = { λ files. faults_of files };

    fn read_whole(&mut self, alloc: Global, name: &str, limit: u64) -> Result<Vec<u8>, FileError>
        requires { limit < 2 ^ 32 }

        ensures whole { IfOk result (λ bytes. IsWholeFile None name.now limit bytes.items) }
        ensures whole_taken { IfOk result (λ bytes. RoseBy (length bytes.items) (taken_by self.old) (taken_by self.new)) }
        ensures failed { IfFailed result (Rose (faults_of self.old) (faults_of self.new)) }
        ensures absent { IfAbsent result (IsAbsent None name.now (faults_of self.old) (faults_of self.new)) }
        ensures too_long { IfTooLong result (λ n. (n ≡ limit + 1) × RoseBy n (taken_by self.old) (taken_by self.new)) }

        ensures never_absent { IfAbsent result ⊥ }
        ensures faultless { UnlessFailed result (IsFaultless None (faults_of self.old) (faults_of self.new)) }
        ensures faults_stay { UnlessFailed result (faults_of self.new ≡ faults_of self.old) }

        ensures taken_never_falls { taken_by self.old ≤ taken_by self.new }
        ensures taken_ends { taken_by self.new ≤ last_count }
        ensures faults_never_fall { faults_of self.old ≤ faults_of self.new }
        ensures faults_end { faults_of self.new ≤ last_count }
    {
        let (_taken, faults) = (self.counters.taken, self.counters.faults);
        match fs::open(self.runtime, name) {
            Ok(mut file) => read_to_end(alloc, &mut file, limit, &mut self.counters),
            Err(_) => {
                self.counters.faults = faults.saturating_add(1);
                Err(FileError::Failed)
            }
        }
    }
}

/// A sink over a writer of std.
///
/// It tells nothing of what was written, since no clause can say what reaches a file or a terminal. Hand it
/// a writer that keeps nothing back: it writes and never flushes.
#[derive(Debug, Drop)]
pub struct RealSink<W> {
    writer: W,
    /// How many puts failed.
    faults: u64,
}

impl<W: io::Write + Drop> RealSink<W> {
    ghost use Rattle.ms_io.specs.RealSink.{writer_of};

    /// A sink that writes to `writer`. Takes no memory.
    pub fn new(writer: W) -> RealSink<W>
        ensures writer { writer_of result ≡ writer }
        ensures written { ⟦<RealSink<W> as Sink>⟧.written result ≡ None }
        ensures faults { ⟦<RealSink<W> as Sink>⟧.faults result ≡ 0 }
    {
        RealSink { writer, faults: 0 }
    }
}

impl<W: io::Write + Drop> Sink for RealSink<W> {
    ghost written = { λ _. None };

    ghost use Rattle.ms_io.specs.RealSink.{writer_of, faults_of};

    ghost faults = { λ sink. faults_of sink };

    fn put(&mut self, bytes: &[u8]) -> Result<(), SinkFailed>
        ensures whole { OnOk result (Appends (W.contents (writer_of self.old)) (W.contents (writer_of self.new)) bytes.now) }
        ensures faultless { OnOk result (faults_of self.new ≡ faults_of self.old) }
        ensures failed { OnErr result (Rose (faults_of self.old) (faults_of self.new)) }

        ensures faults_never_fall { faults_of self.old ≤ faults_of self.new }
        ensures faults_end { faults_of self.new ≤ last_count }
    {
        let faults = self.faults;
        if write_whole(&mut self.writer, bytes) {
            return Ok(());
        }
        self.faults = faults.saturating_add(1);
        Err(SinkFailed)
    }
}

/// Writes all of `bytes`, piece by piece. Returns whether each write took something.
fn write_whole<W: io::Write>(writer: &mut W, bytes: &[u8]) -> bool
    ensures { IsTrue result → Appends (W.contents writer.old) (W.contents writer.new) bytes.now }
{
    let mut rest = bytes;
    while !rest.is_empty() {
        match writer.write(rest) {
            Ok(written) if written > 0 => rest = &rest[written..],
            Ok(_) | Err(_) => return false,
        }
    }
    true
}
