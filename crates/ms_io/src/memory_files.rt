//! Files in memory: those that fail where a test wants it, and those that never fail.
ghost use Rattle.std.specs.Prelude.{◌≡◌, ◌+◌, ◌^◌, ◌<◌, ◌≤◌, ◌↔◌, All, min, length, Contains, Option, Some, None, IfOk};
ghost use Rattle.ms_io.specs.{Counts.{last_count, Rose, RoseBy}, Named.{files_of}};
ghost use Rattle.ms_io.specs.Reading.{IsWholeFile, IsAbsent, IsTooLong, IsFaultless, IfFailed, UnlessFailed, IfAbsent, IfTooLong};

use crate::{FileError, Files};
use std::alloc::Global;
use std::collections::BTreeMap;

/// Copies a file that is held, or says that it is too long.
fn copy_within(alloc: Global, bytes: &[u8], limit: u64) -> Result<Vec<u8>, FileError>
    requires { limit < 2 ^ 32 }
    ensures whole { IfOk result (λ copy. (copy.items ≡ bytes.now) × (length bytes.now ≤ limit)) }
    ensures bytes { All (λ b. b < 2 ^ 8) bytes.now }
    ensures not_failed { IfFailed result ⊥ }
    ensures not_absent { IfAbsent result ⊥ }
    ensures too_long { IfTooLong result (λ n. (n ≡ limit + 1) × (limit < length bytes.now)) }
{
    if bytes.len() as u64 > limit {
        return Err(FileError::TooLong { taken: limit + 1 });
    }
    bytes.to_vec(alloc).map_err(|_| FileError::NoMemory)
}

/// Files in memory that tell what they hold and fail where they are told to, for tests.
#[derive(Debug, Drop)]
pub struct MemFiles {
    /// The bytes of each file by its name.
    held: BTreeMap<String, Vec<u8>>,
    /// The numbers, from 0, of the calls that fail.
    failing: Vec<u64>,
    /// How many calls there were.
    calls: u64,
    /// How many bytes were taken.
    taken: u64,
    /// How many calls failed.
    faults: u64,
}

impl MemFiles {
    ghost use Rattle.ms_io.specs.MemFiles.{held_by, taken_by, faults_of, failing_reads, next_read};

    /// Files that hold `held`. The calls of `read_whole` whose numbers, counted from 0, stand in `failing`
    /// answer `Failed`. Takes no memory.
    pub fn new(held: BTreeMap<String, Vec<u8>>, failing: Vec<u64>) -> MemFiles
        ensures held { ⟦<MemFiles as Files>⟧.held result ≡ Some (files_of held) }
        ensures failing { failing_reads result ≡ failing.items }
        ensures next { next_read result ≡ 0 }
        ensures taken { ⟦<MemFiles as Files>⟧.taken result ≡ 0 }
        ensures faults { ⟦<MemFiles as Files>⟧.faults result ≡ 0 }
    {
        MemFiles {
            held,
            failing,
            calls: 0,
            taken: 0,
            faults: 0,
        }
    }
}

impl Files for MemFiles {
    ghost use Rattle.ms_io.specs.MemFiles.{held_by, taken_by, faults_of, failing_reads, next_read};

    ghost held = { λ files. Some (held_by files) };

    ghost taken = { λ files. taken_by files };

    ghost faults = { λ files. faults_of files };

    fn read_whole(&mut self, alloc: Global, name: &str, limit: u64) -> Result<Vec<u8>, FileError>
        requires { limit < 2 ^ 32 }

        ensures whole { IfOk result (λ bytes. IsWholeFile (Some (held_by self.old)) name.now limit bytes.items) }
        ensures failed { IfFailed result (Rose (faults_of self.old) (faults_of self.new)) }
        ensures absent { IfAbsent result (IsAbsent (Some (held_by self.old)) name.now (faults_of self.old) (faults_of self.new)) }
        ensures too_long { IfTooLong result (λ n. IsTooLong (Some (held_by self.old)) name.now limit n (taken_by self.old) (taken_by self.new)) }
        ensures faultless { UnlessFailed result (IsFaultless (Some (held_by self.old)) (faults_of self.old) (faults_of self.new)) }

        ensures holdings_stay { held_by self.new ≡ held_by self.old }
        ensures taken_never_falls { taken_by self.old ≤ taken_by self.new }
        ensures taken_ends { taken_by self.new ≤ last_count }
        ensures faults_never_fall { faults_of self.old ≤ faults_of self.new }
        ensures faults_end { faults_of self.new ≤ last_count }

        ensures fails_as_told { (result ≡ Err FileError.Failed) ↔ Contains (failing_reads self.old) (next_read self.old) }
        ensures next { next_read self.new ≡ min (next_read self.old + 1) last_count }
        ensures failing_stays { failing_reads self.new ≡ failing_reads self.old }
        ensures whole_taken { IfOk result (λ bytes. RoseBy (length bytes.items) (taken_by self.old) (taken_by self.new)) }
        ensures too_long_taken { IfTooLong result (λ n. RoseBy n (taken_by self.old) (taken_by self.new)) }
    {
        let call = self.calls;
        self.calls = self.calls.saturating_add(1);
        if self.failing.contains(&call) {
            self.faults = self.faults.saturating_add(1);
            return Err(FileError::Failed);
        }
        let Some(bytes) = self.held.get(name) else {
            return Err(FileError::Absent);
        };
        let reached = limit + 1;
        self.taken = self.taken.saturating_add(reached.min(bytes.len() as u64));
        copy_within(alloc, bytes, limit)
    }
}

/// Files in memory that tell what they hold and never fail.
#[derive(Debug, Drop)]
pub struct SureFiles {
    /// The bytes of each file by its name.
    held: BTreeMap<String, Vec<u8>>,
    /// How many bytes were taken.
    taken: u64,
}

impl SureFiles {
    /// Files that hold `held`. Takes no memory.
    pub fn new(held: BTreeMap<String, Vec<u8>>) -> SureFiles
        ensures held { ⟦<SureFiles as Files>⟧.held result ≡ Some (files_of held) }
        ensures taken { ⟦<SureFiles as Files>⟧.taken result ≡ 0 }
        ensures faults { ⟦<SureFiles as Files>⟧.faults result ≡ 0 }
    {
        SureFiles { held, taken: 0 }
    }
}

impl Files for SureFiles {
    ghost use Rattle.ms_io.specs.SureFiles.{held_by, taken_by};

    ghost held = { λ files. Some (held_by files) };

    ghost taken = { λ files. taken_by files };

    ghost faults = { λ _. 0 };

    fn read_whole(&mut self, alloc: Global, name: &str, limit: u64) -> Result<Vec<u8>, FileError>
        requires { limit < 2 ^ 32 }

        ensures whole { IfOk result (λ bytes. IsWholeFile (Some (held_by self.old)) name.now limit bytes.items) }
        ensures absent { IfAbsent result (held_by self.old name.now ≡ None) }
        ensures too_long { IfTooLong result (λ n. IsTooLong (Some (held_by self.old)) name.now limit n (taken_by self.old) (taken_by self.new)) }

        ensures holdings_stay { held_by self.new ≡ held_by self.old }
        ensures taken_never_falls { taken_by self.old ≤ taken_by self.new }
        ensures taken_ends { taken_by self.new ≤ last_count }

        ensures never_fails { IfFailed result ⊥ }
        ensures whole_taken { IfOk result (λ bytes. RoseBy (length bytes.items) (taken_by self.old) (taken_by self.new)) }
        ensures too_long_taken { IfTooLong result (λ n. RoseBy n (taken_by self.old) (taken_by self.new)) }
    {
        let taken = self.taken;
        let Some(bytes) = self.held.get(name) else {
            return Err(FileError::Absent);
        };
        let reached = limit + 1;
        self.taken = taken.saturating_add(reached.min(bytes.len() as u64));
        copy_within(alloc, bytes, limit)
    }
}
