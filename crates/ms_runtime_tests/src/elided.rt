//! Runs in which nothing is computed of values that are clean in every run.

use ms_top_rows::calls::{DEFAULTS, Terms, all_agree};
use ms_top_rows::modules::Checked;
use std::test::Fail;

/// Of the phi's two edges one is undefined: an `A` takes the other one.
const ONE_EDGE: &str = r#"define i32 @main() {
  %1 = call i32 @getchar()
  %2 = icmp eq i32 %1, 65
  br i1 %2, label %3, label %4
3:
  br label %5
4:
  br label %5
5:
  %6 = phi i32 [ 0, %3 ], [ undef, %4 ]
  ret i32 %6
}
declare i32 @getchar()
"#;

/// The loop's phi is undefined at first, and so is each sum: they support each other, and none is clean.
const UNDEFINED_FIRST: &str = r#"define i32 @main() {
  br label %1
1:
  %2 = phi i32 [ undef, %0 ], [ %3, %1 ]
  %3 = and i32 %2, 7
  %4 = icmp eq i32 0, 0
  br i1 %4, label %5, label %1
5:
  ret i32 %3
}
"#;

/// A quotient is poisoned with its dividend, and so is a product of it.
const DIVIDEND: &str = r#"define i32 @main() {
  %1 = udiv i32 undef, 4
  %2 = mul i32 %1, 2
  ret i32 %2
}
"#;

/// A parameter has the bits that the caller hands over, in one of two calls.
const PARAMETER: &str = r#"define i32 @id(i32 %0) {
  ret i32 %0
}
define i32 @main() {
  %1 = call i32 @id(i32 3)
  %2 = call i32 @id(i32 undef)
  %3 = xor i32 %1, %2
  ret i32 %3
}
"#;

/// An input for the first of these modules alone.
const AN_A: Terms = Terms {
    input: b"A",
    fill: "a5",
    steps: 10000000,
    reports: 1,
};

static ROWS: [Checked; 5] = [
    Checked(
        AN_A,
        ONE_EDGE,
        b"",
        "end: exit 0\nreports: 0\nblind: 0\nverdict: clean\n",
        0,
    ),
    Checked(
        DEFAULTS,
        ONE_EDGE,
        b"",
        "report 1: exit at site 7 in @main, part 0, bits 0xffffffff of i32\n  origin 1: undef at site 6 in @main\nend: reported\nreports: 1\nblind: 0\nverdict: poisoned\n",
        77,
    ),
    Checked(
        DEFAULTS,
        UNDEFINED_FIRST,
        b"",
        "report 1: exit at site 6 in @main, part 0, bits 0x7 of i32\n  origin 1: undef at site 2 in @main\nend: reported\nreports: 1\nblind: 0\nverdict: poisoned\n",
        77,
    ),
    // The dividend is a blind use, and the factor none; 0xa5a5a5a5 by 4.
    Checked(
        DEFAULTS,
        DIVIDEND,
        b"",
        "report 1: exit at site 3 in @main, part 0, bits 0xffffffff of i32\n  origin 1: undef at site 1 in @main\nend: reported\nreports: 1\nblind: 1\nverdict: poisoned\n",
        77,
    ),
    Checked(
        DEFAULTS,
        PARAMETER,
        b"",
        "report 1: exit at site 5 in @main, part 0, bits 0xffffffff of i32\n  origin 1: undef at site 3 in @main\nend: reported\nreports: 1\nblind: 0\nverdict: poisoned\n",
        77,
    ),
];

#[test]
fn clean_values_alone_are_left_out(rt: HostRuntime) -> Result<(), Fail> {
    assert!(rt; all_agree(&rt, rt.alloc(), &[&ROWS]));
    Ok(())
}
