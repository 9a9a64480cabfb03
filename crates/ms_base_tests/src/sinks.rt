//! Sinks in memory and over a writer.

use crate::rows::{fails, is};
use ms_io::{MemSink, RealSink, Sink};
use std::alloc::{AllocError, Global};
use std::io;
use std::io::Write;
use std::test::Fail;

/// A piece, whether it is taken, and what was written then.
struct Put(&'static str, bool, &'static str);

/// A piece, and whether it is taken.
struct Sent(&'static str, bool);

/// The second put fails, and five bytes fit.
static PUTS: [Put; 6] = [
    Put("ab", true, "ab"),
    Put("x", false, "ab"),
    Put("cd", true, "abcd"),
    Put("efg", false, "abcde"),
    Put("", true, "abcde"),
    Put("h", false, "abcde"),
];

/// A write that takes nothing is a fault.
/// Four bytes fit.
static SENT: [Sent; 5] = [
    Sent("abc", true),
    Sent("", true),
    Sent("de", false),
    Sent("f", false),
    Sent("", true),
];

/// Standard error takes a put.
static TO_STANDARD_ERROR: [Sent; 2] = [Sent("one put\n", true), Sent("", true)];

/// A writer that takes one byte at a time, and none once its room is used up.
#[derive(Drop)]
struct Trickle {
    /// How many bytes it still takes.
    room: usize,
}

impl Write for Trickle {
    fn write(&mut self, buf: &[u8]) -> io::Result<usize> {
        if self.room == 0 || buf.is_empty() {
            return Ok(0);
        }
        self.room -= 1;
        Ok(1)
    }

    fn flush(&mut self) -> io::Result<()> {
        Ok(())
    }
}

/// A sink of five bytes, of which the second put fails.
fn small_sink(alloc: Global) -> Result<MemSink, AllocError> {
    let failing = vec![in alloc; 1]?;
    Ok(MemSink::new(failing, vec![in alloc; 0u8; 5]?))
}

/// Whether each piece is taken as is wanted, and what was written then.
fn all_put<R: Eprint>(rt: &R, sink: &mut MemSink, rows: &[Put]) -> bool {
    for (number, row) in rows.iter().enumerate() {
        let taken = sink.put(row.0.as_bytes()).is_ok();
        if !is(rt, &taken, &row.1) || !is(rt, &sink.as_slice(), &row.2.as_bytes()) {
            return fails(rt, number);
        }
    }
    true
}

fn small_sink_takes<R: Eprint>(rt: &R, alloc: Global) -> bool {
    match small_sink(alloc) {
        Ok(mut sink) => all_put(rt, &mut sink, &PUTS),
        Err(_) => false,
    }
}

/// Whether each piece is taken as is wanted.
fn all_sent<R: Eprint, O: Sink>(rt: &R, sink: &mut O, rows: &[Sent]) -> bool {
    for (number, row) in rows.iter().enumerate() {
        if !is(rt, &sink.put(row.0.as_bytes()).is_ok(), &row.1) {
            return fails(rt, number);
        }
    }
    true
}

#[test]
fn sinks_take_puts(rt: HostRuntime) -> Result<(), Fail> {
    assert!(rt;
        small_sink_takes(&rt, rt.alloc())
            && all_sent(&rt, &mut RealSink::new(Trickle { room: 4 }), &SENT)
            && all_sent(&rt, &mut RealSink::new(rt.stderr()), &TO_STANDARD_ERROR)
    );
    Ok(())
}
