//! Files and sinks that fail, files that are too long, and which of several faults is said.

use ms_top_rows::calls::{ALL, Beside, Call, Row, Taking, Wanted, all_agree, on_text, saying};
use std::test::Fail;

const RETURNS: &str = r#"define i32 @main() {
  ret i32 0
}
"#;

const STORED: &str = r#"define i32 @main() {
  %1 = alloca i32
  store i32 12, ptr %1
  %2 = load i32, ptr %1
  %3 = xor i32 %2, 10
  ret i32 %3
}
"#;

/// Writes four bytes, of which the third is unset, after one that is printed.
const WITH_GAP: &str = r#"define i32 @main() {
  %1 = alloca [4 x i8]
  %2 = call i32 @putchar(i32 62)
  %3 = call ptr @memset(ptr %1, i32 65, i64 2)
  %4 = getelementptr i8, ptr %1, i64 3
  store i8 66, ptr %4
  %5 = call i64 @write(i32 1, ptr %1, i64 4)
  ret i32 0
}
declare i32 @putchar(i32)
declare ptr @memset(ptr, i32, i64)
declare i64 @write(i32, ptr, i64)
"#;

const BAD_BYTE: &str = "?";

/// Prints the letter A two times 65536 times and once more.
const PRINTS: &str = r#"@g = global [131073 x i8] zeroinitializer
define i32 @main() {
  %1 = call ptr @memset(ptr @g, i32 65, i64 131073)
  %2 = call i64 @write(i32 1, ptr @g, i64 131073)
  ret i32 0
}
declare ptr @memset(ptr, i32, i64)
declare i64 @write(i32, ptr, i64)
"#;

/// The words, the text of the file `f`, the number of bytes of the file `a`, the numbers of the reads that fail, the output and
/// the standard error, what is written to each, and the status. The file `b` is empty, and there is no other.
struct Failing(
    &'static str,
    &'static str,
    usize,
    &'static [u64],
    Taking<'static>,
    Taking<'static>,
    &'static str,
    &'static str,
    u8,
);

/// The numbers of the puts to the output that fail, how many bytes of `PRINTS` are written then, what is said, and the status.
struct Piece(&'static [u64], usize, &'static str, u8);

/// Reads that fail are said.
static READS: [Failing; 12] = [
    Failing("run f", STORED, 0, &[0], ALL, ALL, "", "file fault: f\n", 6),
    Failing(
        "check f",
        STORED,
        0,
        &[0],
        ALL,
        ALL,
        "",
        "file fault: f\n",
        6,
    ),
    Failing(
        "instrument f",
        STORED,
        0,
        &[0],
        ALL,
        ALL,
        "",
        "file fault: f\n",
        6,
    ),
    Failing(
        "corpus f a b",
        RETURNS,
        0,
        &[0],
        ALL,
        ALL,
        "",
        "file fault: f\n",
        6,
    ),
    Failing(
        "run --input a f",
        STORED,
        0,
        &[1],
        ALL,
        ALL,
        "",
        "file fault: a\n",
        6,
    ),
    Failing(
        "check --input a f",
        STORED,
        0,
        &[1],
        ALL,
        ALL,
        "",
        "file fault: a\n",
        6,
    ),
    Failing(
        "corpus f a b",
        RETURNS,
        0,
        &[1],
        ALL,
        ALL,
        "",
        "file fault: a\n",
        6,
    ),
    Failing(
        "corpus f a b",
        RETURNS,
        0,
        &[2],
        ALL,
        ALL,
        "",
        "file fault: b\n",
        6,
    ),
    // No further read is made.
    Failing(
        "run f",
        STORED,
        0,
        &[1],
        ALL,
        ALL,
        "",
        "end: exit 6\nreports: 0\nblind: 0\n",
        0,
    ),
    Failing(
        "corpus f a b",
        RETURNS,
        0,
        &[3],
        ALL,
        ALL,
        "input 1, 0 bytes: a\n\nend: exit 0\nreports: 0\nblind: 0\nverdict: clean\ninput 2, 0 bytes: b\n\nend: exit 0\nreports: 0\nblind: 0\nverdict: clean\n",
        "",
        0,
    ),
    // No file is read.
    Failing(
        "gen --seed 7 --functions 1 --run",
        RETURNS,
        0,
        &[0],
        ALL,
        ALL,
        "functions: 2\nsites: 15\noutput: 1 bytes\nend: exit 0\nreports: 0\nblind: 0\nverdict: clean\n",
        "",
        0,
    ),
    Failing(
        "check",
        RETURNS,
        0,
        &[0],
        ALL,
        ALL,
        "",
        "words: MissingFile at 1\n",
        2,
    ),
];

/// The first file at fault is said.
static LONG_AND_UNHELD: [Failing; 12] = [
    Failing(
        "corpus g a",
        RETURNS,
        0,
        &[],
        ALL,
        ALL,
        "",
        "file fault: g\n",
        6,
    ),
    Failing(
        "corpus f c b",
        RETURNS,
        0,
        &[],
        ALL,
        ALL,
        "",
        "file fault: c\n",
        6,
    ),
    Failing(
        "run --input c f",
        RETURNS,
        0,
        &[],
        ALL,
        ALL,
        "",
        "file fault: c\n",
        6,
    ),
    Failing(
        "corpus f a",
        RETURNS,
        1048577,
        &[],
        ALL,
        ALL,
        "",
        "file too long: a\n",
        9,
    ),
    Failing(
        "run --input a f",
        RETURNS,
        1048577,
        &[],
        ALL,
        ALL,
        "",
        "file too long: a\n",
        9,
    ),
    Failing(
        "check --input a f",
        RETURNS,
        1048577,
        &[],
        ALL,
        ALL,
        "",
        "file too long: a\n",
        9,
    ),
    Failing(
        "corpus f a",
        RETURNS,
        1048576,
        &[],
        ALL,
        ALL,
        "input 1, 0 bytes: a\n\nend: exit 0\nreports: 0\nblind: 0\nverdict: clean\n",
        "",
        0,
    ),
    // The first fault is said.
    Failing(
        "corpus f a c",
        RETURNS,
        1048577,
        &[],
        ALL,
        ALL,
        "",
        "file too long: a\n",
        9,
    ),
    Failing(
        "corpus f c a",
        RETURNS,
        1048577,
        &[],
        ALL,
        ALL,
        "",
        "file fault: c\n",
        6,
    ),
    Failing(
        "corpus f b a",
        RETURNS,
        1048577,
        &[1],
        ALL,
        ALL,
        "",
        "file fault: b\n",
        6,
    ),
    // All files are read before the text is.
    Failing(
        "check --input c f",
        BAD_BYTE,
        0,
        &[],
        ALL,
        ALL,
        "",
        "file fault: c\n",
        6,
    ),
    Failing(
        "corpus f a",
        BAD_BYTE,
        0,
        &[],
        ALL,
        ALL,
        "",
        "refused 1: bad byte at 0\n",
        5,
    ),
];

/// After a failed put nothing is put.
static SINKS: [Failing; 22] = [
    Failing("check f", WITH_GAP, 0, &[], Taking(&[], 0), ALL, "", "", 7),
    Failing(
        "check f",
        WITH_GAP,
        0,
        &[],
        Taking(&[0], 1000),
        ALL,
        "",
        "",
        7,
    ),
    // The output stands before anything is said of it.
    Failing(
        "check f",
        WITH_GAP,
        0,
        &[],
        ALL,
        Taking(&[0], 1000),
        ">",
        "",
        7,
    ),
    Failing(
        "check f",
        WITH_GAP,
        0,
        &[],
        ALL,
        Taking(&[], 15),
        ">",
        "report 1: outpu",
        7,
    ),
    Failing(
        "instrument f",
        RETURNS,
        0,
        &[],
        Taking(&[0], 1000),
        ALL,
        "",
        "",
        7,
    ),
    Failing(
        "instrument f",
        RETURNS,
        0,
        &[],
        Taking(&[], 9),
        ALL,
        "@__msan_p",
        "",
        7,
    ),
    Failing(
        "corpus f a",
        RETURNS,
        0,
        &[],
        Taking(&[0], 1000),
        ALL,
        "",
        "",
        7,
    ),
    Failing(
        "corpus f a b",
        RETURNS,
        0,
        &[],
        Taking(&[], 75),
        ALL,
        "input 1, 0 bytes: a\n\nend: exit 0\nreports: 0\nblind: 0\nverdict: clean\ninput 2",
        "",
        7,
    ),
    Failing(
        "gen --seed 7 --functions 1",
        RETURNS,
        0,
        &[],
        Taking(&[], 9),
        ALL,
        "declare i",
        "",
        7,
    ),
    Failing(
        "gen --seed 7 --functions 1 --run",
        RETURNS,
        0,
        &[],
        Taking(&[], 12),
        ALL,
        "functions: 2",
        "",
        7,
    ),
    Failing(
        "check f",
        RETURNS,
        0,
        &[],
        ALL,
        Taking(&[], 4),
        "",
        "end:",
        7,
    ),
    Failing(
        "check f",
        RETURNS,
        0,
        &[],
        ALL,
        Taking(&[0], 1000),
        "",
        "",
        7,
    ),
    Failing("run f", STORED, 0, &[], ALL, Taking(&[0], 1000), "", "", 7),
    Failing("run f", STORED, 0, &[], ALL, Taking(&[], 4), "", "end:", 7),
    // All but the last byte is written, and then all.
    Failing(
        "run f",
        STORED,
        0,
        &[],
        ALL,
        Taking(&[], 31),
        "",
        "end: exit 6\nreports: 0\nblind: 0",
        7,
    ),
    Failing(
        "run f",
        STORED,
        0,
        &[],
        ALL,
        Taking(&[1], 32),
        "",
        "end: exit 6\nreports: 0\nblind: 0\n",
        0,
    ),
    // A line that says why nothing is done.
    Failing("check", RETURNS, 0, &[], ALL, Taking(&[0], 1000), "", "", 7),
    Failing(
        "check f",
        BAD_BYTE,
        0,
        &[],
        ALL,
        Taking(&[0], 1000),
        "",
        "",
        7,
    ),
    Failing("run g", RETURNS, 0, &[], ALL, Taking(&[0], 1000), "", "", 7),
    Failing(
        "run g",
        RETURNS,
        0,
        &[],
        ALL,
        Taking(&[], 13),
        "",
        "file fault: g",
        7,
    ),
    Failing(
        "corpus f a",
        RETURNS,
        1048577,
        &[],
        ALL,
        Taking(&[], 5),
        "",
        "file ",
        7,
    ),
    // Nothing is put to the output.
    Failing(
        "run g",
        RETURNS,
        0,
        &[],
        Taking(&[0], 0),
        ALL,
        "",
        "file fault: g\n",
        6,
    ),
];

/// Long texts are put in pieces.
/// A text is put in pieces of at most 65536 bytes, and after one that fails nothing is put.
static PIECES: [Piece; 4] = [
    Piece(&[0], 0, "", 7),
    Piece(&[1], 65536, "", 7),
    Piece(&[2], 131072, "", 7),
    Piece(&[3], 131073, "end: exit 0\nreports: 0\nblind: 0\n", 0),
];

impl Row for Failing {
    fn call(&self) -> Call<'static> {
        let wanted = saying(self.6.as_bytes(), self.7, self.8);
        Call {
            beside: Beside::Letters(self.2),
            failing_reads: self.3,
            out: self.4,
            err: self.5,
            ..on_text(self.0, self.1.as_bytes(), wanted)
        }
    }
}

impl Row for Piece {
    fn call(&self) -> Call<'static> {
        let wanted = Wanted {
            out: b"",
            letters: self.1,
            err: [self.2, "", ""],
            status: self.3,
        };
        Call {
            out: Taking(self.0, 140000),
            ..on_text("run f", PRINTS.as_bytes(), wanted)
        }
    }
}

#[test]
fn faults_are_said(rt: HostRuntime) -> Result<(), Fail> {
    assert!(rt;
        all_agree(&rt, rt.alloc(), &[&READS, &LONG_AND_UNHELD, &SINKS])
            && all_agree(&rt, rt.alloc(), &[&PIECES])
    );
    Ok(())
}
