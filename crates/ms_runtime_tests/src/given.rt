//! What `check` says with an input, a fill, a bound of steps and a limit of reports of its own.

use ms_top_rows::calls::{Terms, all_agree};
use ms_top_rows::modules::Checked;
use std::test::Fail;

/// Bytes that are read are clean.
static INPUTS: [Checked; 4] = [
    // The bytes that are read are no longer poisoned, and the others are.
    Checked(
        Terms {
            input: b"abc",
            fill: "a5",
            steps: 10000000,
            reports: 1,
        },
        r#"define i32 @main() {
  %1 = alloca [4 x i8]
  %2 = call i64 @read(i32 0, ptr %1, i64 4)
  %3 = getelementptr i8, ptr %1, i64 2
  %4 = load i8, ptr %3
  %5 = zext i8 %4 to i32
  ret i32 %5
}
declare i64 @read(i32, ptr, i64)
"#,
        b"",
        "end: exit 99\nreports: 0\nblind: 0\nverdict: clean\n",
        0,
    ),
    Checked(
        Terms {
            input: b"abc",
            fill: "a5",
            steps: 10000000,
            reports: 1,
        },
        r#"define i32 @main() {
  %1 = alloca [4 x i8]
  %2 = call i64 @read(i32 0, ptr %1, i64 4)
  %3 = getelementptr i8, ptr %1, i64 3
  %4 = load i8, ptr %3
  %5 = zext i8 %4 to i32
  ret i32 %5
}
declare i64 @read(i32, ptr, i64)
"#,
        b"",
        "report 1: exit at site 6 in @main, part 0, bits 0xff of i32\n  origin 1: alloca at site 1 in @main\nend: reported\nreports: 1\nblind: 0\nverdict: poisoned\n",
        77,
    ),
    Checked(
        Terms {
            input: b"A",
            fill: "a5",
            steps: 10000000,
            reports: 1,
        },
        r#"define i32 @main() {
  %1 = call i32 @getchar()
  %2 = icmp eq i32 %1, 65
  br i1 %2, label %3, label %4
3:
  br label %5
4:
  br label %5
5:
  %6 = phi i32 [ 0, %3 ], [ undef, %4 ]
  ret i32 %6
}
declare i32 @getchar()
"#,
        b"",
        "end: exit 0\nreports: 0\nblind: 0\nverdict: clean\n",
        0,
    ),
    Checked(
        Terms {
            input: b"B",
            fill: "a5",
            steps: 10000000,
            reports: 1,
        },
        r#"define i32 @main() {
  %1 = call i32 @getchar()
  %2 = icmp eq i32 %1, 65
  br i1 %2, label %3, label %4
3:
  br label %5
4:
  br label %5
5:
  %6 = phi i32 [ 0, %3 ], [ undef, %4 ]
  ret i32 %6
}
declare i32 @getchar()
"#,
        b"",
        "report 1: exit at site 7 in @main, part 0, bits 0xffffffff of i32\n  origin 1: undef at site 6 in @main\nend: reported\nreports: 1\nblind: 0\nverdict: poisoned\n",
        77,
    ),
];

/// Fills change values and no masks.
static FILLS: [Checked; 6] = [
    // The check comes before the trap.
    Checked(
        Terms {
            input: b"",
            fill: "00",
            steps: 10000000,
            reports: 1,
        },
        r#"define i32 @main() {
  %1 = udiv i32 8, undef
  ret i32 0
}
"#,
        b"",
        "report 1: divisor at site 1 in @main, part 1, bits 0xffffffff of i32\n  origin 1: undef at site 1 in @main\nend: reported\nreports: 1\nblind: 0\nverdict: poisoned\n",
        77,
    ),
    Checked(
        Terms {
            input: b"",
            fill: "00",
            steps: 10000000,
            reports: 1,
        },
        r#"define i32 @main() {
  %1 = freeze i32 undef
  ret i32 %1
}
"#,
        b"",
        "end: exit 0\nreports: 0\nblind: 1\nverdict: unsure\n",
        0,
    ),
    Checked(
        Terms {
            input: b"",
            fill: "ffffff7f",
            steps: 10000000,
            reports: 1,
        },
        r#"define i32 @main() {
  %1 = add nsw i32 undef, 1
  ret i32 %1
}
"#,
        b"",
        "end: trap nsw at site 1 in @main\nreports: 0\nblind: 1\nverdict: unsure\n",
        3,
    ),
    Checked(
        Terms {
            input: b"",
            fill: "00",
            steps: 10000000,
            reports: 1,
        },
        r#"define i32 @main() {
  %1 = add nsw i32 undef, 1
  ret i32 %1
}
"#,
        b"",
        "report 1: exit at site 2 in @main, part 0, bits 0xffffffff of i32\n  origin 1: undef at site 1 in @main\nend: reported\nreports: 1\nblind: 1\nverdict: poisoned\n",
        77,
    ),
    Checked(
        Terms {
            input: b"",
            fill: "00",
            steps: 10000000,
            reports: 1,
        },
        r#"define i32 @main() {
  %1 = and i32 undef, 1
  %2 = add i32 %1, 1
  %3 = lshr i32 %2, 1
  %4 = icmp eq i32 %3, 0
  br i1 %4, label %5, label %7
5:
  %6 = call i32 @putchar(i32 65)
  ret i32 0
7:
  %8 = call i32 @putchar(i32 66)
  ret i32 0
}
declare i32 @putchar(i32)
"#,
        b"",
        "report 1: branch at site 5 in @main, part 0, bits 0x1 of i1\n  origin 1: undef at site 1 in @main\nend: reported\nreports: 1\nblind: 0\nverdict: poisoned\n",
        77,
    ),
    Checked(
        Terms {
            input: b"",
            fill: "01",
            steps: 10000000,
            reports: 1,
        },
        r#"define i32 @main() {
  %1 = and i32 undef, 1
  %2 = add i32 %1, 1
  %3 = lshr i32 %2, 1
  %4 = icmp eq i32 %3, 0
  br i1 %4, label %5, label %7
5:
  %6 = call i32 @putchar(i32 65)
  ret i32 0
7:
  %8 = call i32 @putchar(i32 66)
  ret i32 0
}
declare i32 @putchar(i32)
"#,
        b"",
        "report 1: branch at site 5 in @main, part 0, bits 0x1 of i1\n  origin 1: undef at site 1 in @main\nend: reported\nreports: 1\nblind: 0\nverdict: poisoned\n",
        77,
    ),
];

/// Inserted code is no step.
static STEPS: [Checked; 4] = [
    // What is inserted is no step.
    Checked(
        Terms {
            input: b"",
            fill: "a5",
            steps: 0,
            reports: 1,
        },
        r#"define i32 @main() {
  ret i32 0
}
"#,
        b"",
        "end: spent\nreports: 0\nblind: 0\nverdict: clean\n",
        4,
    ),
    Checked(
        Terms {
            input: b"",
            fill: "a5",
            steps: 1,
            reports: 1,
        },
        r#"define i32 @main() {
  ret i32 0
}
"#,
        b"",
        "end: exit 0\nreports: 0\nblind: 0\nverdict: clean\n",
        0,
    ),
    Checked(
        Terms {
            input: b"",
            fill: "a5",
            steps: 3,
            reports: 1,
        },
        r#"define i32 @main() {
  %1 = alloca i32
  %2 = load i32, ptr %1
  %3 = icmp eq i32 %2, 0
  br i1 %3, label %4, label %5
4:
  ret i32 0
5:
  ret i32 1
}
"#,
        b"",
        "end: spent\nreports: 0\nblind: 0\nverdict: clean\n",
        4,
    ),
    Checked(
        Terms {
            input: b"",
            fill: "a5",
            steps: 4,
            reports: 1,
        },
        r#"define i32 @main() {
  %1 = alloca i32
  %2 = load i32, ptr %1
  %3 = icmp eq i32 %2, 0
  br i1 %3, label %4, label %5
4:
  ret i32 0
5:
  ret i32 1
}
"#,
        b"",
        "report 1: branch at site 4 in @main, part 0, bits 0x1 of i1\n  origin 1: alloca at site 1 in @main\nend: reported\nreports: 1\nblind: 0\nverdict: poisoned\n",
        77,
    ),
];

/// A run ends with its last report.
static REPORTS: [Checked; 3] = [
    Checked(
        Terms {
            input: b"",
            fill: "a5",
            steps: 10000000,
            reports: 2,
        },
        r#"define i32 @main() {
  %1 = call i32 @putchar(i32 97)
  br i1 undef, label %2, label %2
2:
  %3 = call i32 @putchar(i32 98)
  br i1 undef, label %4, label %4
4:
  %5 = call i32 @putchar(i32 99)
  br i1 undef, label %6, label %6
6:
  ret i32 0
}
declare i32 @putchar(i32)
"#,
        b"ab",
        "report 1: branch at site 2 in @main, part 0, bits 0x1 of i1\n  origin 1: undef at site 2 in @main\nreport 2: branch at site 4 in @main, part 0, bits 0x1 of i1\n  origin 2: undef at site 4 in @main\nend: reported\nreports: 2\nblind: 0\nverdict: poisoned\n",
        77,
    ),
    Checked(
        Terms {
            input: b"",
            fill: "a5",
            steps: 10000000,
            reports: 2,
        },
        r#"define i32 @main() {
  %1 = alloca i32
  %2 = load i32, ptr %1
  %3 = icmp eq i32 %2, 0
  br i1 %3, label %4, label %5
4:
  ret i32 0
5:
  ret i32 1
}
"#,
        b"",
        "report 1: branch at site 4 in @main, part 0, bits 0x1 of i1\n  origin 1: alloca at site 1 in @main\nend: exit 1\nreports: 1\nblind: 0\nverdict: poisoned\n",
        77,
    ),
    // The poisoned byte lies in a cell of its own.
    Checked(
        Terms {
            input: b"",
            fill: "a5",
            steps: 10000000,
            reports: 3,
        },
        r#"define i32 @main() {
  %1 = alloca [8 x i8]
  %2 = and i16 undef, -256
  %3 = getelementptr i8, ptr %1, i64 3
  store i16 %2, ptr %3
  %4 = load i8, ptr %1
  %5 = zext i8 %4 to i32
  %6 = call i32 @putchar(i32 %5)
  %7 = getelementptr i8, ptr %1, i64 4
  %8 = load i8, ptr %7
  %9 = zext i8 %8 to i32
  %10 = call i32 @putchar(i32 %9)
  %11 = load i8, ptr %3
  %12 = zext i8 %11 to i32
  %13 = call i32 @putchar(i32 %12)
  ret i32 0
}
declare i32 @putchar(i32)
"#,
        b"\xa5\xa5\x00",
        "report 1: value at site 7 in @main, part 0, bits 0xff of i32\n  origin 1: alloca at site 1 in @main\nreport 2: value at site 11 in @main, part 0, bits 0xff of i32\n  origin 3: stored at site 4 in @main\n  origin 2: undef at site 2 in @main\nend: exit 0\nreports: 2\nblind: 0\nverdict: poisoned\n",
        77,
    ),
];

#[test]
fn terms_are_kept(rt: HostRuntime) -> Result<(), Fail> {
    assert!(rt; all_agree(&rt, rt.alloc(), &[&INPUTS, &FILLS, &STEPS, &REPORTS]));
    Ok(())
}
