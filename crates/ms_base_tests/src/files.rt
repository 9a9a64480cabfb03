//! Files in memory and of the file system, each through its bound.

ghost use Rattle.std.specs.Prelude.{◌≡◌, ◌+◌, ◌^◌, ◌<◌, ◌≤◌, List, ℕ, length, Some, None};
ghost use Rattle.ms_io.specs.{Counts.{Rose, RoseBy}, Reading.{Holdings}, Writing.{with_appended}};

use crate::rows::{differs, fails, is};
use ms_io::{
    FileError, Files, MemFiles, MemSink, RealFiles, Sink, SinkFailed, SureFiles, SureSink,
};
use std::alloc::{AllocError, Global};
use std::collections::BTreeMap;
use std::test::Fail;
use std::{fs, rt};

/// What a file is read as, or why it isn't.
#[derive(Debug, PartialEq)]
enum Want {
    Whole(&'static [u8]),
    TooLong(u64),
    Absent,
    Failed,
}

/// The name of a file, the limit of its bytes, and the answer.
struct Asked(&'static str, u32, Want);

/// How a copy of a file to a sink ended.
#[derive(Clone, Copy, Debug, PartialEq)]
enum Copied {
    Whole,
    Unheld,
    Unread,
    TooLong,
    Unwritten,
    NoMemory,
}

/// The name of a file, the limit of its bytes, and how the copy ended.
struct Ended(&'static str, u32, Copied);

/// The fifth read fails.
static IN_MEMORY: [Asked; 6] = [
    Asked("letters", 3, Want::Whole(b"abc")),
    Asked("letters", 2, Want::TooLong(3)),
    Asked("numbers", 9, Want::Absent),
    Asked("empty", 0, Want::Whole(b"")),
    Asked("letters", 3, Want::Failed),
    Asked("letters", 3, Want::Whole(b"abc")),
];

static NEVER_FAILING: [Asked; 5] = [
    Asked("letters", 3, Want::Whole(b"abc")),
    Asked("letters", 0, Want::TooLong(1)),
    Asked("letters", 4294967295, Want::Whole(b"abc")),
    Asked("", 9, Want::Absent),
    Asked("empty", 0, Want::Whole(b"")),
];

/// While `word.txt` holds one line.
static OF_THE_SYSTEM: [Asked; 4] = [
    Asked("word.txt", 7, Want::Whole(b"define\n")),
    Asked("word.txt", 4294967295, Want::Whole(b"define\n")),
    Asked("word.txt", 6, Want::TooLong(7)),
    Asked("no such file", 7, Want::Failed),
];

/// Copies into a sink of five bytes.
static COPIES: [Ended; 4] = [
    Ended("letters", 3, Copied::Whole),
    Ended("letters", 2, Copied::TooLong),
    Ended("numbers", 3, Copied::Unheld),
    Ended("letters", 3, Copied::Unwritten),
];

static WHOLE_COPIES: [Ended; 2] = [
    Ended("letters", 3, Copied::Whole),
    Ended("empty", 0, Copied::Whole),
];

/// Copies of which the first read fails.
static UNREAD_COPIES: [Ended; 2] = [
    Ended("letters", 3, Copied::Unread),
    Ended("letters", 3, Copied::Whole),
];

/// The files `letters` and `empty`.
fn two_files(alloc: Global) -> Result<BTreeMap<String, Vec<u8>>, AllocError> {
    let mut held = BTreeMap::new(alloc);
    held.insert(String::from_str(alloc, "letters")?, b"abc".to_vec(alloc)?)?;
    held.insert(String::from_str(alloc, "empty")?, Vec::new(alloc))?;
    Ok(held)
}

/// The two files, of which one read fails.
fn failing_files(alloc: Global, failing: u64) -> Result<MemFiles, AllocError> {
    let held = two_files(alloc)?;
    Ok(MemFiles::new(held, vec![in alloc; failing]?))
}

/// Whether a file was read as is wanted.
fn is_answer<R: Eprint>(rt: &R, found: &Result<Vec<u8>, FileError>, want: &Want) -> bool {
    let good = match found {
        Ok(bytes) => matches!(want, Want::Whole(text) if bytes.as_slice() == *text),
        Err(FileError::TooLong { taken }) => matches!(want, Want::TooLong(n) if n == taken),
        Err(FileError::Absent) => matches!(want, Want::Absent),
        Err(FileError::Failed) => matches!(want, Want::Failed),
        Err(FileError::NoMemory) => false,
    };
    good || differs(rt, found, want)
}

/// Whether each file is read as is wanted; prints the number of the first that isn't.
fn all_answered<R: Eprint, F: Files>(
    rt: &R,
    alloc: Global,
    files: &mut F,
    asked: &[Asked],
) -> bool {
    for (number, ask) in asked.iter().enumerate() {
        if !is_answer(rt, &files.read_whole(alloc, ask.0, ask.1 as u64), &ask.2) {
            return fails(rt, number);
        }
    }
    true
}

// A caller that is proved for every implementation, from what the traits say.
fn copy_file<F: Files, O: Sink>(
    alloc: Global,
    files: &mut F,
    out: &mut O,
    name: &str,
    limit: u64,
) -> Copied
    requires { limit < 2 ^ 32 }

    // Where the files are told.
    ensures whole { result ≡ Copied.Whole → (held : Holdings) → F.held files.old ≡ Some held →
        (bytes : List ℕ) × (held name.now ≡ Some bytes) × (length bytes ≤ limit) × (O.written out.new ≡ with_appended (O.written out.old) bytes) }
    ensures unheld { result ≡ Copied.Unheld → (held : Holdings) → F.held files.old ≡ Some held → held name.now ≡ None }
    ensures too_long { result ≡ Copied.TooLong → (held : Holdings) → F.held files.old ≡ Some held →
        (bytes : List ℕ) × (held name.now ≡ Some bytes) × (limit < length bytes) }

    // Where they aren't.
    ensures unheld_untold { result ≡ Copied.Unheld → F.held files.old ≡ None → Rose (F.faults files.old) (F.faults files.new) }
    ensures too_long_untold { result ≡ Copied.TooLong → F.held files.old ≡ None → RoseBy (limit + 1) (F.taken files.old) (F.taken files.new) }

    // Anyway.
    ensures unread { result ≡ Copied.Unread → Rose (F.faults files.old) (F.faults files.new) }
    ensures unwritten { result ≡ Copied.Unwritten → Rose (O.faults out.old) (O.faults out.new) }
{
    match files.read_whole(alloc, name, limit) {
        Ok(bytes) => match out.put(&bytes) {
            Ok(()) => Copied::Whole,
            Err(SinkFailed) => Copied::Unwritten,
        },
        Err(FileError::Failed) => Copied::Unread,
        Err(FileError::Absent) => Copied::Unheld,
        Err(FileError::TooLong { taken: _ }) => Copied::TooLong,
        Err(FileError::NoMemory) => Copied::NoMemory,
    }
}

/// Whether each copy ends as is wanted; prints the number of the first that doesn't.
fn all_end<R: Eprint, F: Files, O: Sink>(
    rt: &R,
    alloc: Global,
    files: &mut F,
    out: &mut O,
    rows: &[Ended],
) -> bool {
    for (number, row) in rows.iter().enumerate() {
        if !is(
            rt,
            &copy_file(alloc, files, out, row.0, row.1 as u64),
            &row.2,
        ) {
            return fails(rt, number);
        }
    }
    true
}

fn memory_answers<R: Eprint>(rt: &R, alloc: Global) -> bool {
    match failing_files(alloc, 4) {
        Ok(mut files) => all_answered(rt, alloc, &mut files, &IN_MEMORY),
        Err(_) => false,
    }
}

fn sure_files_answer<R: Eprint>(rt: &R, alloc: Global) -> bool {
    match two_files(alloc) {
        Ok(held) => all_answered(rt, alloc, &mut SureFiles::new(held), &NEVER_FAILING),
        Err(_) => false,
    }
}

/// Whether files that never fail are copied into a sink of five bytes, which tells what it took.
fn copies_fill_a_sink<R: Eprint>(rt: &R, alloc: Global) -> bool {
    match (two_files(alloc), vec![in alloc; 0u8; 5]) {
        (Ok(held), Ok(room)) => {
            let mut out = MemSink::new(Vec::new(alloc), room);
            all_end(rt, alloc, &mut SureFiles::new(held), &mut out, &COPIES)
                && out.as_slice() == b"abcab".as_slice()
        }
        _ => false,
    }
}

fn copies_are_whole<R: Eprint>(rt: &R, alloc: Global) -> bool {
    match two_files(alloc) {
        Ok(held) => all_end(
            rt,
            alloc,
            &mut SureFiles::new(held),
            &mut SureSink::new(),
            &WHOLE_COPIES,
        ),
        Err(_) => false,
    }
}

fn failed_reads_are_told<R: Eprint>(rt: &R, alloc: Global) -> bool {
    match failing_files(alloc, 0) {
        Ok(mut files) => all_end(rt, alloc, &mut files, &mut SureSink::new(), &UNREAD_COPIES),
        Err(_) => false,
    }
}

/// Whether a file that was written is read whole; it is removed again.
fn written_file_answers<R: rt::Files + Eprint>(rt: &R, alloc: Global) -> bool {
    fs::write(rt, "word.txt", b"define\n").is_ok()
        && all_answered(rt, alloc, &mut RealFiles::new(rt), &OF_THE_SYSTEM)
        && fs::remove_file(rt, "word.txt").is_ok()
}

#[test]
fn files_are_read_and_copied(rt: HostRuntime) -> Result<(), Fail> {
    assert!(rt;
        memory_answers(&rt, rt.alloc())
            && sure_files_answer(&rt, rt.alloc())
            && copies_fill_a_sink(&rt, rt.alloc())
            && copies_are_whole(&rt, rt.alloc())
            && failed_reads_are_told(&rt, rt.alloc())
            && written_file_answers(&rt, rt.alloc())
    );
    Ok(())
}
