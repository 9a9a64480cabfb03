//! Texts that end anywhere, code that reaches for what isn't its own, and output without end.

use crate::checks::CLANG_UNOPTIMISED;
use ms_top_rows::calls::{
    Call, Case, Desk, MORE, Row, Taking, Wanted, all_agree, on_text, said, says,
};
use ms_top_rows::failing::{differs_from, fails};
use ms_top_rows::told::all_told;
use std::alloc::Global;
use std::test::Fail;
use std::thread::Threads;

/// Prints the letter A once more than a run may print.
const PRINTS_ON: &str = r#"define i32 @main() {
  br label %1
1:
  %2 = phi i32 [ 0, %0 ], [ %4, %1 ]
  %3 = call i32 @putchar(i32 65)
  %4 = add i32 %2, 1
  %5 = icmp ult i32 %4, 1048577
  br i1 %5, label %1, label %6
6:
  ret i32 0
}
declare i32 @putchar(i32)
"#;

/// What is said where the text is read to its end.
const RUN: Wanted<'static> = Wanted {
    out: b"ok\n",
    letters: 0,
    err: [
        "end: exit 0\nreports: 0\nblind: 0\nverdict: clean\n",
        "",
        "",
    ],
    status: 0,
};

/// Marked code reaches no more than its own.
static MARKED: &[u8] = br#"# A marked load reaches no byte of the module's.
run f~
define i32 @main() {
  %1 = alloca i32
  %__msan.1 = load i32, ptr %1, !nosanitize !0
  ret i32 0
}
~
~
end: trap bad-address at site 2 in @main
reports: 0
blind: 0
~
3
====
# The module has no such place.
run f~
define i32 @main() {
  call void @__msan_check(i64 1, i32 1, i32 0, i32 1, i32 0, i32 99), !nosanitize !0
  ret i32 0
}
declare void @__msan_check(i64, i32, i32, i32, i32, i32)
~
~
report 1: branch at site 99 in ?, part 0, bits 0x1 of i1
  origin 0: unknown
end: reported
reports: 1
blind: 0
~
77
====
"#;

/// How a line begins that names a refusal.
static REFUSALS: [&str; 17] = [
    "refused 1: ",
    "refused 2: ",
    "refused 3: ",
    "refused 4: ",
    "refused 5: ",
    "refused 6: ",
    "refused 7: ",
    "refused 8: ",
    "refused 9: ",
    "refused 10: ",
    "refused 11: ",
    "refused 12: ",
    "refused 13: ",
    "refused 14: ",
    "refused 15: ",
    "refused 16: ",
    "refused 17: ",
];

/// A sink for a few lines.
const FEW: Taking<'static> = Taking(&[], 1000);

/// The words, and the verdict after the closing lines.
struct Printed(&'static str, &'static str);

/// Output has an end: what a run may print at most is printed, and then it traps.
static PRINTED: [Printed; 2] = [
    Printed("run --steps 10000000 f", ""),
    Printed("check --steps 10000000 f", "verdict: clean\n"),
];

/// Whether a text is a line that names one of these refusals.
fn is_refusal_line(text: &[u8], refusals: &[&str]) -> bool {
    for begin in refusals {
        if text.starts_with(begin.as_bytes()) {
            return text.ends_with(b"\n");
        }
    }
    false
}

/// Whether a text is refused by a number or runs as it does where nothing is cut off.
fn is_refused_or_runs(desk: &Desk) -> bool {
    if desk.status == 5 {
        return desk.out.as_slice().is_empty() && is_refusal_line(desk.err.as_slice(), &REFUSALS);
    }
    says(desk, &RUN)
}

/// A check of a text, whose lines are few.
fn check_of(text: &[u8]) -> Call<'_> {
    Call {
        out: FEW,
        err: FEW,
        ..on_text("check f", text, RUN)
    }
}

/// Whether a text that is cut off is refused by a number, or runs as the whole text does.
fn cut_agrees<R: Threads + Sync + Eprint>(rt: &R, alloc: Global, text: &[u8]) -> bool {
    match said(rt, alloc, &check_of(text)) {
        Ok(desk) => is_refused_or_runs(&desk)
            || differs_from(rt, "a refusal, or what the whole text does", &desk),
        Err(_) => false,
    }
}

/// Whether a text that is cut off after each of its bytes is refused or runs so.
fn all_cuts_agree<R: Threads + Sync + Eprint>(rt: &R, alloc: Global, text: &[u8]) -> bool {
    for count in 0..text.len() {
        if !cut_agrees(rt, alloc, &text[..count]) {
            return fails(rt, "the text cut after byte", count);
        }
    }
    true
}

impl Row for Printed {
    fn call(&self) -> Call<'static> {
        let wanted = Wanted {
            out: b"",
            letters: 1048576,
            err: [
                "end: trap output at site 3 in @main\nreports: 0\nblind: 0\n",
                self.1,
                "",
            ],
            status: 3,
        };
        Call {
            out: MORE,
            ..on_text(self.0, PRINTS_ON.as_bytes(), wanted)
        }
    }
}

#[test]
fn a_text_may_end_anywhere(rt: HostRuntime) -> Result<(), Fail> {
    assert!(rt; all_cuts_agree(&rt, rt.alloc(), CLANG_UNOPTIMISED.as_bytes()));
    Ok(())
}

#[test]
fn marked_code_and_output_stay_within(rt: HostRuntime) -> Result<(), Fail> {
    assert!(rt;
        all_told::<_, Case>(&rt, rt.alloc(), &[MARKED]) && all_agree(&rt, rt.alloc(), &[&PRINTED])
    );
    Ok(())
}
