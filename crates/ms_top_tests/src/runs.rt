//! Words, and modules that are run as they stand or with a check of each use.

use ms_io::{SureFiles, SureSink};
use ms_top::msan;
use ms_top_rows::calls::{Case, all_agree, words_of};
use std::alloc::{AllocError, Global};
use std::collections::BTreeMap;
use std::test::Fail;
use std::thread::Threads;

const STORED: &str = r#"define i32 @main() {
  %1 = alloca i32
  store i32 12, ptr %1
  %2 = load i32, ptr %1
  %3 = xor i32 %2, 10
  ret i32 %3
}
"#;

const UNSET: &str = r#"define i32 @main() {
  %1 = alloca i32
  %2 = load i32, ptr %1
  %3 = xor i32 %2, 10
  ret i32 %3
}
"#;

const TWO_UNSET: &str = r#"define i32 @main() {
  %1 = alloca i32
  %2 = alloca i32
  %3 = load i32, ptr %1
  %4 = load i32, ptr %2
  %5 = xor i32 %3, %4
  ret i32 %5
}
"#;

const UNDEFINED_BYTE: &str = r#"define i32 @main() {
  %1 = and i32 undef, 255
  ret i32 %1
}
"#;

const MASKED_TO_ZERO: &str = r#"define i32 @main() {
  %1 = and i32 undef, 0
  ret i32 %1
}
"#;

const RETURNS_ZERO: &str = r#"define i32 @main() {
  ret i32 0
}
"#;

/// The shadow of a part of a word goes through memory, and over what stood there.
const STORED_BYTE: &str = r#"define i32 @main() {
  %1 = alloca i32
  %2 = and i32 undef, 65280
  store i32 7, ptr %1
  store i32 %2, ptr %1
  %3 = load i32, ptr %1
  %4 = or i32 %3, 255
  ret i32 %4
}
"#;

const OVERWRITTEN: &str = r#"define i32 @main() {
  %1 = alloca i32
  store i32 undef, ptr %1
  store i32 9, ptr %1
  %2 = load i32, ptr %1
  ret i32 %2
}
"#;

/// Where two words lie side by side, the store to one leaves the other unset.
const NEIGHBOURS: &str = r#"define i32 @main() {
  %1 = alloca i32
  %2 = alloca i32
  store i32 5, ptr %1
  %3 = load i32, ptr %2
  ret i32 %3
}
"#;

/// The value is used where it isn't defined, which is no use of uninitialised bits.
const BEFORE_DEFINITION: &str = r#"define i32 @main() {
  %a = or i32 %b, 1
  %b = or i32 1, 2
  ret i32 %a
}
"#;

/// Words are commands.
static WORDS: [Case; 6] = [
    Case("run g", STORED, "", "file fault: g\n", 6),
    Case("run -- --", STORED, "", "file fault: --\n", 6),
    Case("check g", STORED, "", "file fault: g\n", 6),
    Case("run --input g f", STORED, "", "file fault: g\n", 6),
    Case("run f", "", "", "refused 13: no main\n", 5),
    Case("check f", "", "", "refused 13: no main\n", 5),
];

/// Modules run.
static RUNS: [Case; 9] = [
    Case(
        "run f",
        STORED,
        "",
        "end: exit 6\nreports: 0\nblind: 0\n",
        0,
    ),
    Case(
        "run f",
        RETURNS_ZERO,
        "",
        "end: exit 0\nreports: 0\nblind: 0\n",
        0,
    ),
    // Each unset byte is a5, and 0xa5a5a5a5 with 10 is 2779096495.
    Case(
        "run f",
        UNSET,
        "",
        "end: exit 2779096495\nreports: 0\nblind: 0\n",
        0,
    ),
    Case(
        "run f",
        UNDEFINED_BYTE,
        "",
        "end: exit 165\nreports: 0\nblind: 0\n",
        0,
    ),
    Case(
        "run f",
        TWO_UNSET,
        "",
        "end: exit 0\nreports: 0\nblind: 0\n",
        0,
    ),
    // 0xa500 with 255.
    Case(
        "run f",
        STORED_BYTE,
        "",
        "end: exit 42495\nreports: 0\nblind: 0\n",
        0,
    ),
    Case(
        "run f",
        OVERWRITTEN,
        "",
        "end: exit 9\nreports: 0\nblind: 0\n",
        0,
    ),
    Case(
        "run f",
        NEIGHBOURS,
        "",
        "end: exit 2779096485\nreports: 0\nblind: 0\n",
        0,
    ),
    Case(
        "run f",
        BEFORE_DEFINITION,
        "",
        "refused 15: undefined at site 1, path 0\n",
        5,
    ),
];

/// Each use is checked.
static CHECKS: [Case; 10] = [
    Case(
        "check f",
        RETURNS_ZERO,
        "",
        "end: exit 0\nreports: 0\nblind: 0\nverdict: clean\n",
        0,
    ),
    Case(
        "check f",
        STORED,
        "",
        "end: exit 6\nreports: 0\nblind: 0\nverdict: clean\n",
        0,
    ),
    Case(
        "check f",
        UNSET,
        "",
        "report 1: exit at site 4 in @main, part 0, bits 0xffffffff of i32\n  origin 1: alloca at site 1 in @main\nend: reported\nreports: 1\nblind: 0\nverdict: poisoned\n",
        77,
    ),
    // The last of the operands that are poisoned gives the origin.
    Case(
        "check f",
        TWO_UNSET,
        "",
        "report 1: exit at site 6 in @main, part 0, bits 0xffffffff of i32\n  origin 2: alloca at site 2 in @main\nend: reported\nreports: 1\nblind: 0\nverdict: poisoned\n",
        77,
    ),
    Case(
        "check f",
        UNDEFINED_BYTE,
        "",
        "report 1: exit at site 2 in @main, part 0, bits 0xff of i32\n  origin 1: undef at site 1 in @main\nend: reported\nreports: 1\nblind: 0\nverdict: poisoned\n",
        77,
    ),
    Case(
        "check f",
        MASKED_TO_ZERO,
        "",
        "end: exit 0\nreports: 0\nblind: 0\nverdict: clean\n",
        0,
    ),
    Case(
        "check f",
        STORED_BYTE,
        "",
        "report 1: exit at site 7 in @main, part 0, bits 0xff00 of i32\n  origin 3: stored at site 4 in @main\n  origin 2: undef at site 2 in @main\nend: reported\nreports: 1\nblind: 0\nverdict: poisoned\n",
        77,
    ),
    Case(
        "check f",
        OVERWRITTEN,
        "",
        "end: exit 9\nreports: 0\nblind: 0\nverdict: clean\n",
        0,
    ),
    Case(
        "check f",
        NEIGHBOURS,
        "",
        "report 1: exit at site 5 in @main, part 0, bits 0xffffffff of i32\n  origin 2: alloca at site 2 in @main\nend: reported\nreports: 1\nblind: 0\nverdict: poisoned\n",
        77,
    ),
    Case(
        "check f",
        BEFORE_DEFINITION,
        "",
        "refused 15: undefined at site 1, path 0\n",
        5,
    ),
];

/// Files in memory that never fail: the module of `STORED` as `f`.
fn sure_files(alloc: Global) -> Result<SureFiles, AllocError> {
    let file = Vec::from_slice(alloc, STORED.as_bytes())?;
    let mut held = BTreeMap::new(alloc);
    held.insert(String::from_str(alloc, "f")?, file)?;
    Ok(SureFiles::new(held))
}

/// The status over files and sinks that never fail.
fn sure_status<R: Threads + Sync>(rt: &R, alloc: Global) -> Result<u8, AllocError> {
    let words = words_of(alloc, "run f")?;
    let mut files = sure_files(alloc)?;
    let mut out = SureSink::new();
    let mut err = SureSink::new();
    Ok(msan(rt, alloc, &words, &mut files, &mut out, &mut err))
}

#[test]
fn words_run_and_check_modules(rt: HostRuntime) -> Result<(), Fail> {
    assert!(rt; all_agree(&rt, rt.alloc(), &[&WORDS, &RUNS, &CHECKS]));
    Ok(())
}

#[test]
fn ends_that_never_fail_serve_too(rt: HostRuntime) -> Result<(), Fail> {
    assert!(rt; sure_status(&rt, rt.alloc()).ok() == Some(0));
    Ok(())
}
