//! Many inputs: a section for each, in their order, whatever the number of workers.

use ms_top_rows::calls::{Beside, Call, Row, all_agree, on_text, saying};
use std::test::Fail;

/// Puts out one byte, and then four of which the third is unset.
const GAP: &str = r#"define i32 @main() {
  %1 = alloca [4 x i8]
  %2 = call i32 @putchar(i32 62)
  %3 = call ptr @memset(ptr %1, i32 65, i64 2)
  %4 = getelementptr i8, ptr %1, i64 3
  store i8 66, ptr %4
  %5 = call i64 @write(i32 1, ptr %1, i64 4)
  ret i32 0
}
declare i32 @putchar(i32)
declare ptr @memset(ptr, i32, i64)
declare i64 @write(i32, ptr, i64)
"#;

/// Puts out the first byte of its input, and ends as that says: an `R` with a report, an `S` never, a `T` with a trap.
const ENDS: &str = r#"declare i32 @getchar()
declare i32 @putchar(i32)
define i32 @main() {
  %c = call i32 @getchar()
  %p = call i32 @putchar(i32 %c)
  switch i32 %c, label %quiet [
    i32 82, label %report
    i32 83, label %spin
    i32 84, label %trap
  ]
quiet:
  ret i32 0
report:
  ret i32 undef
spin:
  br label %spin
trap:
  %q = udiv i32 1, 0
  ret i32 %q
}
"#;

const ONE: &str =
    "input 1, 1 bytes: a\n>\nreport 1: output at site 6 in @main, part 2, bits 0xff of i8\n  origin 1: alloca at site 1 in @main\nend: reported\nreports: 1\nblind: 0\nverdict: poisoned\n";

const THREE: &str =
    "input 1, 1 bytes: c\n>\nreport 1: output at site 6 in @main, part 2, bits 0xff of i8\n  origin 1: alloca at site 1 in @main\nend: reported\nreports: 1\nblind: 0\nverdict: poisoned\ninput 2, 1 bytes: a\n>\nreport 1: output at site 6 in @main, part 2, bits 0xff of i8\n  origin 1: alloca at site 1 in @main\nend: reported\nreports: 1\nblind: 0\nverdict: poisoned\ninput 3, 1 bytes: b\n>\nreport 1: output at site 6 in @main, part 2, bits 0xff of i8\n  origin 1: alloca at site 1 in @main\nend: reported\nreports: 1\nblind: 0\nverdict: poisoned\n";

const ALL_ENDS: &str =
    "input 1, 1 bytes: t\nT\nend: trap zero-divisor at site 7 in @main\nreports: 0\nblind: 0\nverdict: clean\ninput 2, 1 bytes: x\nx\nend: exit 0\nreports: 0\nblind: 0\nverdict: clean\ninput 3, 1 bytes: s\nS\nend: spent\nreports: 0\nblind: 0\nverdict: clean\ninput 4, 1 bytes: r\nR\nreport 1: exit at site 5 in @main, part 0, bits 0xffffffff of i32\n  origin 1: undef at site 5 in @main\nend: reported\nreports: 1\nblind: 0\nverdict: poisoned\ninput 5, 1 bytes: x\nx\nend: exit 0\nreports: 0\nblind: 0\nverdict: clean\n";

const A_TRAP: &str =
    "input 1, 1 bytes: s\nS\nend: spent\nreports: 0\nblind: 0\nverdict: clean\ninput 2, 1 bytes: t\nT\nend: trap zero-divisor at site 7 in @main\nreports: 0\nblind: 0\nverdict: clean\n";

const A_SPENT: &str =
    "input 1, 1 bytes: s\nS\nend: spent\nreports: 0\nblind: 0\nverdict: clean\ninput 2, 1 bytes: x\nx\nend: exit 0\nreports: 0\nblind: 0\nverdict: clean\n";

const TWICE: &str =
    "input 1, 1 bytes: x\nx\nend: exit 0\nreports: 0\nblind: 0\nverdict: clean\ninput 2, 1 bytes: x\nx\nend: exit 0\nreports: 0\nblind: 0\nverdict: clean\n";

/// The words, the module in the file `f`, what is written to the output and to the standard error, and the status. The
/// files `a`, `b` and `c` are empty; `r`, `s`, `t` and `x` hold two bytes, the first of which is the name, as a capital
/// but for `x`.
struct Inputs(&'static str, &'static str, &'static str, &'static str, u8);

static INPUTS: [(&str, &str); 7] = [
    ("a", ""),
    ("b", ""),
    ("c", ""),
    ("r", "RR"),
    ("s", "SS"),
    ("t", "TT"),
    ("x", "xx"),
];

static ROWS: [Inputs; 12] = [
    Inputs("corpus f a", GAP, ONE, "", 77),
    Inputs("corpus f c a b", GAP, THREE, "", 77),
    Inputs("corpus --workers 1 f c a b", GAP, THREE, "", 77),
    Inputs("corpus --workers=2 f c a b", GAP, THREE, "", 77),
    Inputs("corpus --workers=8 -- f c a b", GAP, THREE, "", 77),
    Inputs("corpus --steps 100 f t x s r x", ENDS, ALL_ENDS, "", 77),
    Inputs(
        "corpus --steps 100 --workers 3 f t x s r x",
        ENDS,
        ALL_ENDS,
        "",
        77,
    ),
    Inputs("corpus --steps=100 f s t", ENDS, A_TRAP, "", 3),
    Inputs("corpus --steps=100 f s x", ENDS, A_SPENT, "", 4),
    Inputs("corpus f x x", ENDS, TWICE, "", 0),
    // The first file that isn't held is named, and no module is refused before.
    Inputs("corpus f a y z", "define", "", "file fault: y\n", 6),
    Inputs(
        "corpus f a",
        "define i32 @main() {",
        "",
        "refused 4: syntax at token 6, byte 20\n",
        5,
    ),
];

impl Row for Inputs {
    fn call(&self) -> Call<'static> {
        let wanted = saying(self.2.as_bytes(), self.3, self.4);
        Call {
            beside: Beside::These(&INPUTS),
            ..on_text(self.0, self.1.as_bytes(), wanted)
        }
    }
}

#[test]
fn each_input_has_a_section(rt: HostRuntime) -> Result<(), Fail> {
    assert!(rt; all_agree(&rt, rt.alloc(), &[&ROWS]));
    Ok(())
}
