//! Sinks in memory, for tests: one that tells what was put to it and fails where it is told to, and one that never fails.
ghost use Rattle.std.specs.Prelude.{◌≡◌, ℕ, ◌+◌, ◌<◌, ◌≤◌, ◌↔◌, ◌++◌, [], List, take, drop, length, min, Contains, Option, Some, None, IsOk, IsErr, OnOk, OnErr};
ghost use Rattle.ms_io.specs.{Counts.{last_count, Rose}, Writing.{with_appended, AppendsPrefix}};

use crate::{Sink, SinkFailed};

/// Writes `bytes` over what stands in `room` at `at` and after.
fn write_at(room: &mut [u8], at: usize, bytes: &[u8])
    requires { at + length bytes.now ≤ length room.old }
    ensures { room.new ≡ take at room.old ++ (bytes.now ++ drop (at + length bytes.now) room.old) }
{
    room[at..at + bytes.len()].copy_from_slice(bytes);
}

/// A sink that writes into a buffer, from its first byte on, and tells the bytes put so far; for tests.
#[derive(Debug, Drop)]
pub struct MemSink {
    /// The buffer.
    room: Vec<u8>,
    /// How many of its bytes were written.
    used: usize,
    /// The numbers, from 0, of the calls that fail.
    failing: Vec<u64>,
    /// How many calls there were.
    calls: u64,
    /// How many calls failed.
    faults: u64,
    ghost within: { used ≤ length room.items },
}

impl MemSink {
    ghost use Rattle.ms_io.specs.MemSink.{put_so_far, room_left, faults_of, failing_puts, next_put};

    /// A sink into `room`, which is written over. The calls of `put` whose numbers, counted from 0, stand in
    /// `failing` fail before a byte is written. A put that does not fit in the rest of `room` fails after
    /// the first part that fits. Takes no memory.
    pub fn new(failing: Vec<u64>, room: Vec<u8>) -> MemSink
        ensures written { ⟦<MemSink as Sink>⟧.written result ≡ Some [] }
        ensures room { room_left result ≡ length room.items }
        ensures failing { failing_puts result ≡ failing.items }
        ensures next { next_put result ≡ 0 }
        ensures faults { ⟦<MemSink as Sink>⟧.faults result ≡ 0 }
    {
        MemSink {
            room,
            used: 0,
            failing,
            calls: 0,
            faults: 0,
        }
    }

    /// The bytes put so far.
    pub fn as_slice(&self) -> &[u8]
        ensures { ⟦<MemSink as Sink>⟧.written self.now ≡ Some result.now }
    {
        &self.room[..self.used]
    }
}

impl Sink for MemSink {
    ghost use Rattle.ms_io.specs.MemSink.{put_so_far, room_left, faults_of, failing_puts, next_put};

    ghost written = { λ sink. Some (put_so_far sink) };

    ghost faults = { λ sink. faults_of sink };

    fn put(&mut self, bytes: &[u8]) -> Result<(), SinkFailed>
        ensures ok { OnOk result (Some (put_so_far self.new) ≡ with_appended (Some (put_so_far self.old)) bytes.now) }
        ensures prefix { OnErr result (AppendsPrefix (Some (put_so_far self.old)) (Some (put_so_far self.new)) bytes.now) }
        ensures failed { OnErr result (Rose (faults_of self.old) (faults_of self.new)) }

        ensures faults_never_fall { faults_of self.old ≤ faults_of self.new }
        ensures faults_end { faults_of self.new ≤ last_count }

        ensures fails_as_told { Contains (failing_puts self.old) (next_put self.old) → IsErr result × (put_so_far self.new ≡ put_so_far self.old) }
        ensures fits { ¬ Contains (failing_puts self.old) (next_put self.old) → IsOk result ↔ (length bytes.now ≤ room_left self.old) }
        ensures fills { ¬ Contains (failing_puts self.old) (next_put self.old) → OnErr result (put_so_far self.new ≡ put_so_far self.old ++ take (room_left self.old) bytes.now) }
        ensures room { length (put_so_far self.new) + room_left self.new ≡ length (put_so_far self.old) + room_left self.old }
        ensures next { next_put self.new ≡ min (next_put self.old + 1) last_count }
        ensures failing_stays { failing_puts self.new ≡ failing_puts self.old }
        ensures faultless { OnOk result (faults_of self.new ≡ faults_of self.old) }
    {
        let call = self.calls;
        self.calls = self.calls.saturating_add(1);
        if self.failing.contains(&call) {
            self.faults = self.faults.saturating_add(1);
            return Err(SinkFailed);
        }
        let fitting = bytes.len().min(self.room.len() - self.used);
        write_at(&mut self.room, self.used, &bytes[..fitting]);
        self.used += fitting;
        if fitting < bytes.len() {
            self.faults = self.faults.saturating_add(1);
            return Err(SinkFailed);
        }
        Ok(())
    }
}

/// A sink that takes every piece and keeps none of it.
#[derive(Debug, Default, Drop)]
pub struct SureSink {}

impl SureSink {
    /// A sink that never fails. Takes no memory.
    pub fn new() -> SureSink
        ensures written { ⟦<SureSink as Sink>⟧.written result ≡ None }
        ensures faults { ⟦<SureSink as Sink>⟧.faults result ≡ 0 }
    {
        SureSink {}
    }
}

impl Sink for SureSink {
    ghost written = { λ _. None };

    ghost faults = { λ _. 0 };

    fn put(&mut self, _bytes: &[u8]) -> Result<(), SinkFailed>
        ensures { IsOk result }
    {
        Ok(())
    }
}
