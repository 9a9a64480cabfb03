//! The two traits of the outside, with what each answer means.
ghost use Rattle.std.specs.Prelude.{◌≡◌, ℕ, ◌^◌, ◌<◌, ◌≤◌, List, Option, IfOk, OnOk, OnErr};
ghost use Rattle.ms_io.specs.Counts.{last_count, Rose};
ghost use Rattle.ms_io.specs.Reading.{Holdings, IsWholeFile, IsAbsent, IsTooLong, IsFaultless, IfFailed, UnlessFailed, IfAbsent, IfTooLong};
ghost use Rattle.ms_io.specs.Writing.{with_appended, AppendsPrefix};

use std::alloc::Global;
use thiserror::Error;

/// Why a file was not read whole.
#[derive(Debug, Drop, Error)]
pub enum FileError {
    /// The file could not be opened, or a read of it failed. A fault was counted.
    #[error("the file could not be read")]
    Failed,
    /// No file of this name is held.
    #[error("there is no file of this name")]
    Absent,
    /// The file has more bytes than the limit.
    #[error("the file is too long: {taken} bytes were taken")]
    TooLong {
        /// The number of bytes that show it: the limit and one more.
        taken: u64,
    },
    /// Memory ran out.
    #[error("out of memory")]
    NoMemory,
}

/// Named files that can be read whole.
///
/// An implementation either tells what it holds (`held` is a map) or doesn't (`held` is `None`). Where it
/// tells, each answer is exact: of `Ok`, `Absent` and `TooLong` only one can come, and it is the one that
/// the map decides, unless a fault was counted or memory ran out. Where it doesn't, the two counters show
/// what each answer rests on.
///
/// Both counters begin where the implementation says, never fall, and stand still at `2^64 - 1`; that a
/// counter rose means that it is higher than before or stands there.
pub trait Files {
    /// The bytes under each name, where they are told.
    ghost held: { Self → Option Holdings };

    /// The number of bytes taken so far.
    ghost taken: { Self → ℕ };

    /// The number of faults so far.
    ghost faults: { Self → ℕ };

    /// Reads the whole file `name`, which may have at most `limit` bytes. What is held stays.
    ///
    /// # Errors
    /// - `Failed` where a fault was counted in this call;
    /// - `Absent` where no file of this name is held;
    /// - `TooLong` where the file has more than `limit` bytes, with `limit + 1` as what was taken;
    /// - `NoMemory` where memory ran out.
    fn read_whole(&mut self, alloc: Global, name: &str, limit: u64) -> Result<Vec<u8>, FileError>
        requires { limit < 2 ^ 32 }

        ensures whole { IfOk result (λ bytes. IsWholeFile (held self.old) name.now limit bytes.items) }
        ensures failed { IfFailed result (Rose (faults self.old) (faults self.new)) }
        ensures absent { IfAbsent result (IsAbsent (held self.old) name.now (faults self.old) (faults self.new)) }
        ensures too_long { IfTooLong result (λ n. IsTooLong (held self.old) name.now limit n (taken self.old) (taken self.new)) }
        ensures faultless { UnlessFailed result (IsFaultless (held self.old) (faults self.old) (faults self.new)) }

        ensures holdings_stay { held self.new ≡ held self.old }
        ensures taken_never_falls { taken self.old ≤ taken self.new }
        ensures taken_ends { taken self.new ≤ last_count }
        ensures faults_never_fall { faults self.old ≤ faults self.new }
        ensures faults_end { faults self.new ≤ last_count };
}

/// A sink did not take all the bytes. A fault was counted, and some first part of them was written.
#[derive(Debug, Drop, Error)]
#[error("the bytes could not be written")]
pub struct SinkFailed;

/// A place that bytes are put to.
///
/// An implementation either tells what was written or doesn't. Its counter of faults never falls and
/// stands still at `2^64 - 1`, as those of [`Files`] do.
pub trait Sink {
    /// The bytes written so far, where they are told.
    ghost written: { Self → Option (List ℕ) };

    /// The number of faults so far.
    ghost faults: { Self → ℕ };

    /// Puts all of `bytes` after what was written. Takes no memory.
    ///
    /// # Errors
    /// `SinkFailed` where a fault was counted in this call; then a first part of `bytes` was written, which
    /// may be none or all of them.
    fn put(&mut self, bytes: &[u8]) -> Result<(), SinkFailed>
        ensures ok { OnOk result (written self.new ≡ with_appended (written self.old) bytes.now) }
        ensures prefix { OnErr result (AppendsPrefix (written self.old) (written self.new) bytes.now) }
        ensures failed { OnErr result (Rose (faults self.old) (faults self.new)) }

        ensures faults_never_fall { faults self.old ≤ faults self.new }
        ensures faults_end { faults self.new ≤ last_count };
}
