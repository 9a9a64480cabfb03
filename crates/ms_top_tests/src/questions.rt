//! What the program says of itself.

use ms_top_rows::calls::{ALL, Call, Case, Row, Taking, all_agree, on_text, saying};
use std::test::Fail;

const USAGE: &str =
    "msan finds uses of uninitialised memory in modules of LLVM assembly.\n\nCommands:\n  msan instrument FILE\n      write the module in FILE with inserted code, which run takes\n  msan run [--input FILE] [--fill HEX] [--steps N] [--reports N] [--schedule HEX] [--where] [--calls] [--once] FILE\n      run the module in FILE as it is\n  msan check [--input FILE] [--fill HEX] [--steps N] [--reports N] [--schedule HEX] [--schedules N] [--workers N] [--where] [--calls] [--once] FILE\n      run the module in FILE with inserted code and report uses of uninitialised memory\n  msan explain [--input FILE] [--fill HEX] [--steps N] [--where] [--calls] FILE\n      check the module in FILE and print the way that the bits of the first report took\n  msan corpus [--workers N] [--fill HEX] [--steps N] [--reports N] [--where] [--calls] [--once] FILE INPUT...\n      check the module in FILE with each INPUT as its standard input: 1 to 256 inputs\n  msan gen --seed N --functions N [--run]\n      write a generated module\n  msan help, --help, -h: print this text\n  msan version, --version, -V: print the version\n\nOptions:\n  --input FILE    file with the bytes of standard input, which is empty without it\n  --fill HEX      bytes of uninitialised memory, two digits each: 1 to 2048 bytes, default a5\n  --steps N       greatest number of steps of a run: 0 to 1000000000, default 10000000\n  --reports N     number of reports at which a run ends: 1 to 1000, default 1\n  --schedule HEX  bytes that pick the threads that go on, two digits each: 1 to 2048 bytes, default 00\n  --schedules N   greatest number of schedules that are tried, one run each: 1 to 1000000\n  --workers N     inputs or schedules that are run at once: 1 to 8, default 2\n  --seed N        number that the module is made from: 0 to 18446744073709551615\n  --functions N   number of functions beside main: 1 to 1000\n  --run           check the module instead of writing it\n  --where         below each line that names a site, print where it stands in FILE and in the source\n  --calls         below each report and trap, print the calls that stand there, the innermost first\n  --once          neither report nor count a use of the same site, kind and part as one before it\n\nStatus:\n   0  done: a run ended without a report, or a text is written\n   2  the words are no command\n   3  a run trapped\n   4  a run used up its steps\n   5  the module is refused\n   6  a file can't be read\n   7  writing failed\n   8  out of memory\n   9  a file is too long\n  10  the system doesn't give the words\n  77  a run has a report\n";

const VERSION: &str = "msan 0.2.0\n";

/// The words, the numbers of the reads that fail, the two sinks, what is written to the output, and the status.
struct Asked(
    &'static str,
    &'static [u64],
    Taking<'static>,
    Taking<'static>,
    &'static str,
    u8,
);

/// A question is the first word; any words may follow.
static ANSWERED: [Case; 14] = [
    Case("help", "", USAGE, "", 0),
    Case("--help", "", USAGE, "", 0),
    Case("-h", "", USAGE, "", 0),
    Case("help extra", "", USAGE, "", 0),
    Case("help run --speed", "", USAGE, "", 0),
    Case("--help version", "", USAGE, "", 0),
    Case("-h --", "", USAGE, "", 0),
    Case("version", "", VERSION, "", 0),
    Case("--version", "", VERSION, "", 0),
    Case("-V", "", VERSION, "", 0),
    Case("version extra", "", VERSION, "", 0),
    Case("--version help", "", VERSION, "", 0),
    Case("-V f f", "", VERSION, "", 0),
    Case("version --version", "", VERSION, "", 0),
];

/// Other words are no question.
static OTHERS: [Case; 14] = [
    Case("Help", "", "", "words: UnknownCommand at 0\n", 2),
    Case("helps", "", "", "words: UnknownCommand at 0\n", 2),
    Case("-help", "", "", "words: UnknownCommand at 0\n", 2),
    Case("--h", "", "", "words: UnknownCommand at 0\n", 2),
    Case("--help=run", "", "", "words: UnknownCommand at 0\n", 2),
    Case("-H", "", "", "words: UnknownCommand at 0\n", 2),
    Case("-v", "", "", "words: UnknownCommand at 0\n", 2),
    Case("versions", "", "", "words: UnknownCommand at 0\n", 2),
    Case("-- help", "", "", "words: UnknownCommand at 0\n", 2),
    Case("run --help", "", "", "words: UnknownOption at 1\n", 2),
    Case("check -h f", "", "", "words: UnknownOption at 1\n", 2),
    Case("gen --version", "", "", "words: UnknownOption at 1\n", 2),
    Case("run f --help", "", "", "words: Extra at 2\n", 2),
    Case("run help", "", "", "file fault: help\n", 6),
];

/// No file is read, and nothing is put to the standard error. Where a put fails a first part was written.
static FAILING: [Asked; 8] = [
    Asked("help", &[0], ALL, ALL, USAGE, 0),
    Asked("version", &[0], ALL, ALL, VERSION, 0),
    Asked("help", &[], ALL, Taking(&[0], 0), USAGE, 0),
    Asked("help", &[], Taking(&[0], 10000), ALL, "", 7),
    Asked("help", &[], Taking(&[], 9), ALL, "msan find", 7),
    Asked("help", &[], Taking(&[1], 10000), ALL, USAGE, 0),
    Asked("version", &[], Taking(&[0], 10000), ALL, "", 7),
    Asked("version", &[], Taking(&[], 10), ALL, "msan 0.2.0", 7),
];

impl Row for Asked {
    fn call(&self) -> Call<'static> {
        Call {
            failing_reads: self.1,
            out: self.2,
            err: self.3,
            ..on_text(self.0, b"", saying(self.4.as_bytes(), "", self.5))
        }
    }
}

#[test]
fn questions_are_answered(rt: HostRuntime) -> Result<(), Fail> {
    assert!(rt;
        all_agree(&rt, rt.alloc(), &[&ANSWERED, &OTHERS]) && all_agree(&rt, rt.alloc(), &[&FAILING])
    );
    Ok(())
}
