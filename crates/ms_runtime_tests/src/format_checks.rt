//! What `check` reports at calls of `printf`. Masks, parts and origins were worked out by hand.

use ms_top_rows::calls::{Case, Terms, all_agree};
use ms_top_rows::modules::Checked;
use ms_top_rows::told::all_told_twice;
use std::test::Fail;

/// The words of arguments.
static VALUES: &[u8] = br#"check f~
@f = constant [10 x i8] c"%d %s%lx\0A\00"
@s = constant [2 x i8] c"v\00"
define i32 @main() {
  %1 = call i32 (ptr, ...) @printf(ptr @f, i32 undef, ptr @s, i64 255)
  ret i32 %1
}
declare i32 @printf(ptr, ...)
~
~
report 1: value at site 1 in @main, part 1, bits 0xffffffff of i32
  origin 1: undef at site 1 in @main
end: reported
reports: 1
blind: 0
verdict: poisoned
~
77
====
# A surplus argument is checked too.
check f~
@f = constant [2 x i8] c"a\00"
define i32 @main() {
  %1 = call i32 (ptr, ...) @printf(ptr @f, i64 undef)
  ret i32 %1
}
declare i32 @printf(ptr, ...)
~
~
report 1: value at site 1 in @main, part 1, bits 0xffffffffffffffff of i64
  origin 1: undef at site 1 in @main
end: reported
reports: 1
blind: 0
verdict: poisoned
~
77
====
# Of a pointer its word is checked, and the first argument is one.
check f~
@f = constant [5 x i8] c"%d%s\00"
define i32 @main() {
  %1 = call i32 (ptr, ...) @printf(ptr @f, i32 1, ptr undef)
  ret i32 %1
}
declare i32 @printf(ptr, ...)
~
~
report 1: value at site 1 in @main, part 2, bits 0xffffffffffffffff of i64
  origin 1: undef at site 1 in @main
end: reported
reports: 1
blind: 0
verdict: poisoned
~
77
====
check f~
define i32 @main() {
  %1 = call i32 (ptr, ...) @printf(ptr undef)
  ret i32 %1
}
declare i32 @printf(ptr, ...)
~
~
report 1: pointer at site 1 in @main, part 0, bits 0xffffffffffffffff of i64
  origin 1: undef at site 1 in @main
end: reported
reports: 1
blind: 0
verdict: poisoned
~
77
====
# All bits of a word are checked, though only its low byte is printed.
check f~
@f = constant [3 x i8] c"%c\00"
define i32 @main() {
  %1 = alloca i32
  store i8 7, ptr %1
  %2 = load i32, ptr %1
  %3 = call i32 (ptr, ...) @printf(ptr @f, i32 %2)
  ret i32 %3
}
declare i32 @printf(ptr, ...)
~
~
report 1: value at site 4 in @main, part 1, bits 0xffffff00 of i32
  origin 1: alloca at site 1 in @main
end: reported
reports: 1
blind: 0
verdict: poisoned
~
77
====
# Also where the format comes to a trap.
check f~
@f = constant [4 x i8] c"%5d\00"
define i32 @main() {
  %1 = call i32 (ptr, ...) @printf(ptr @f, i32 undef)
  ret i32 %1
}
declare i32 @printf(ptr, ...)
~
~
report 1: value at site 1 in @main, part 1, bits 0xffffffff of i32
  origin 1: undef at site 1 in @main
end: reported
reports: 1
blind: 0
verdict: poisoned
~
77
====
# A parameter keeps what its caller handed over.
check f~
@f = constant [3 x i8] c"%d\00"
define i32 @main() {
  call void @show(i32 undef)
  ret i32 0
}
define void @show(i32 %0) {
  %2 = call i32 (ptr, ...) @printf(ptr @f, i32 %0)
  ret void
}
declare i32 @printf(ptr, ...)
~
~
report 1: value at site 3 in @show, part 1, bits 0xffffffff of i32
  origin 1: undef at site 1 in @main
end: reported
reports: 1
blind: 0
verdict: poisoned
~
77
====
"#;

/// The bytes of the format, and of each string for which it asks.
static STRINGS: &[u8] = br#"# The format's bytes come before the words of arguments.
check f~
define i32 @main() {
  %1 = alloca [2 x i8]
  store i8 97, ptr %1
  %2 = call i32 (ptr, ...) @printf(ptr %1, i32 undef)
  ret i32 %2
}
declare i32 @printf(ptr, ...)
~
~
report 1: string at site 3 in @main, part 1, bits 0xff of i8
  origin 1: alloca at site 1 in @main
end: reported
reports: 1
blind: 0
verdict: poisoned
~
77
====
# Each byte of a string for which the format asks is checked.
check f~
@f = constant [3 x i8] c"%s\00"
define i32 @main() {
  %1 = alloca [3 x i8]
  store i8 97, ptr %1
  %2 = call i32 (ptr, ...) @printf(ptr @f, ptr %1)
  ret i32 %2
}
declare i32 @printf(ptr, ...)
~
~
report 1: string at site 3 in @main, part 1, bits 0xff of i8
  origin 1: alloca at site 1 in @main
end: reported
reports: 1
blind: 0
verdict: poisoned
~
77
====
# Of the second `%s` alone.
check f~
@f = constant [5 x i8] c"%s%s\00"
@s = constant [2 x i8] c"v\00"
define i32 @main() {
  %1 = alloca i8
  %2 = call i32 (ptr, ...) @printf(ptr @f, ptr @s, ptr %1)
  ret i32 %2
}
declare i32 @printf(ptr, ...)
~
~
report 1: string at site 2 in @main, part 0, bits 0xff of i8
  origin 1: alloca at site 1 in @main
end: reported
reports: 1
blind: 0
verdict: poisoned
~
77
====
# Arguments are counted by the directives that take one.
check f~
@f = constant [14 x i8] c"%%%d %% %lx%s\00"
define i32 @main() {
  %1 = alloca i8
  %2 = call i32 (ptr, ...) @printf(ptr @f, i32 1, i64 2, ptr %1)
  ret i32 %2
}
declare i32 @printf(ptr, ...)
~
~
report 1: string at site 2 in @main, part 0, bits 0xff of i8
  origin 1: alloca at site 1 in @main
end: reported
reports: 1
blind: 0
verdict: poisoned
~
77
====
# Before a bad place strings are checked.
check f~
@f = constant [6 x i8] c"%s%5d\00"
define i32 @main() {
  %1 = alloca i8
  %2 = call i32 (ptr, ...) @printf(ptr @f, ptr %1, i32 1)
  ret i32 %2
}
declare i32 @printf(ptr, ...)
~
~
report 1: string at site 2 in @main, part 0, bits 0xff of i8
  origin 1: alloca at site 1 in @main
end: reported
reports: 1
blind: 0
verdict: poisoned
~
77
====
"#;

/// What isn't checked.
static UNASKED: &[u8] = br#"# The bytes at a pointer for which no `%s` asks.
check f~
@f = constant [4 x i8] c"a%%\00"
define i32 @main() {
  %1 = alloca i8
  %2 = call i32 (ptr, ...) @printf(ptr @f, ptr %1)
  ret i32 %2
}
declare i32 @printf(ptr, ...)
~
a%~
end: exit 2
reports: 0
blind: 0
verdict: clean
~
0
====
check f~
@f = constant [3 x i8] c"%s\00"
@s = constant [2 x i8] c"v\00"
define i32 @main() {
  %1 = alloca i8
  %2 = call i32 (ptr, ...) @printf(ptr @f, ptr @s, ptr %1)
  ret i32 %2
}
declare i32 @printf(ptr, ...)
~
v~
end: exit 1
reports: 0
blind: 0
verdict: clean
~
0
====
# After a bad place, and at a directive that prints no string.
check f~
@f = constant [6 x i8] c"%5d%s\00"
define i32 @main() {
  %1 = alloca i8
  %2 = call i32 (ptr, ...) @printf(ptr @f, i32 1, ptr %1)
  ret i32 %2
}
declare i32 @printf(ptr, ...)
~
~
end: trap format at site 2 in @main
reports: 0
blind: 0
verdict: clean
~
3
====
check f~
@f = constant [3 x i8] c"%d\00"
define i32 @main() {
  %1 = alloca i8
  %2 = call i32 (ptr, ...) @printf(ptr @f, ptr %1)
  ret i32 %2
}
declare i32 @printf(ptr, ...)
~
~
end: trap format at site 2 in @main
reports: 0
blind: 0
verdict: clean
~
3
====
# An address that is no pointer is no string.
check f~
@f = constant [3 x i8] c"%s\00"
define i32 @main() {
  %1 = alloca i8
  %2 = ptrtoint ptr %1 to i64
  %3 = call i32 (ptr, ...) @printf(ptr @f, i64 %2)
  ret i32 %3
}
declare i32 @printf(ptr, ...)
~
~
end: trap format at site 3 in @main
reports: 0
blind: 0
verdict: clean
~
3
====
"#;

/// Runs that go on after a report; what was never written is the byte of the fill.
static GOING_ON: [Checked; 10] = [
    // A byte of the format is poisoned, and the format is read as it stands: as a, the byte, s.
    Checked(
        Terms {
            input: b"",
            fill: "a5",
            steps: 10000000,
            reports: 9,
        },
        r#"define i32 @main() {
  %1 = alloca [4 x i8]
  %2 = alloca [2 x i8]
  store i8 97, ptr %1
  %3 = getelementptr i8, ptr %1, i64 2
  store i16 115, ptr %3
  %4 = getelementptr i8, ptr %2, i64 1
  store i8 0, ptr %4
  %5 = call i32 (ptr, ...) @printf(ptr %1, ptr %2)
  ret i32 %5
}
declare i32 @printf(ptr, ...)
"#,
        b"a\xa5s",
        "report 1: string at site 8 in @main, part 1, bits 0xff of i8\n  origin 1: alloca at site 1 in @main\nend: exit 3\nreports: 1\nblind: 0\nverdict: poisoned\n",
        77,
    ),
    // The byte is a percent sign, so that the format asks for a string, of which a byte is poisoned too.
    Checked(
        Terms {
            input: b"",
            fill: "25",
            steps: 10000000,
            reports: 9,
        },
        r#"define i32 @main() {
  %1 = alloca [4 x i8]
  %2 = alloca [2 x i8]
  store i8 97, ptr %1
  %3 = getelementptr i8, ptr %1, i64 2
  store i16 115, ptr %3
  %4 = getelementptr i8, ptr %2, i64 1
  store i8 0, ptr %4
  %5 = call i32 (ptr, ...) @printf(ptr %1, ptr %2)
  ret i32 %5
}
declare i32 @printf(ptr, ...)
"#,
        b"a%",
        "report 1: string at site 8 in @main, part 1, bits 0xff of i8\n  origin 1: alloca at site 1 in @main\nreport 2: string at site 8 in @main, part 0, bits 0xff of i8\n  origin 2: alloca at site 2 in @main\nend: exit 2\nreports: 2\nblind: 0\nverdict: poisoned\n",
        77,
    ),
    // The byte is 0, and ends the format.
    Checked(
        Terms {
            input: b"",
            fill: "00",
            steps: 10000000,
            reports: 9,
        },
        r#"define i32 @main() {
  %1 = alloca [4 x i8]
  %2 = alloca [2 x i8]
  store i8 97, ptr %1
  %3 = getelementptr i8, ptr %1, i64 2
  store i16 115, ptr %3
  %4 = getelementptr i8, ptr %2, i64 1
  store i8 0, ptr %4
  %5 = call i32 (ptr, ...) @printf(ptr %1, ptr %2)
  ret i32 %5
}
declare i32 @printf(ptr, ...)
"#,
        b"a",
        "report 1: string at site 8 in @main, part 1, bits 0xff of i8\n  origin 1: alloca at site 1 in @main\nend: exit 1\nreports: 1\nblind: 0\nverdict: poisoned\n",
        77,
    ),
    // First the words of all arguments, then the strings in order.
    Checked(
        Terms {
            input: b"",
            fill: "a5",
            steps: 10000000,
            reports: 9,
        },
        r#"@f = constant [9 x i8] c"%s %x %s\00"
define i32 @main() {
  %1 = alloca [3 x i8]
  store i8 120, ptr %1
  %2 = getelementptr i8, ptr %1, i64 2
  store i8 0, ptr %2
  %3 = call i32 (ptr, ...) @printf(ptr @f, ptr %1, i32 undef, ptr %1)
  ret i32 %3
}
declare i32 @printf(ptr, ...)
"#,
        b"x\xa5 a5a5a5a5 x\xa5",
        "report 1: value at site 5 in @main, part 2, bits 0xffffffff of i32\n  origin 2: undef at site 5 in @main\nreport 2: string at site 5 in @main, part 1, bits 0xff of i8\n  origin 1: alloca at site 1 in @main\nreport 3: string at site 5 in @main, part 1, bits 0xff of i8\n  origin 1: alloca at site 1 in @main\nend: exit 14\nreports: 3\nblind: 0\nverdict: poisoned\n",
        77,
    ),
    // Where no allocation is, there is no string to check.
    Checked(
        Terms {
            input: b"",
            fill: "a5",
            steps: 10000000,
            reports: 9,
        },
        r#"@f = constant [3 x i8] c"%s\00"
define i32 @main() {
  %1 = call i32 (ptr, ...) @printf(ptr @f, ptr undef)
  ret i32 %1
}
declare i32 @printf(ptr, ...)
"#,
        b"",
        "report 1: value at site 1 in @main, part 1, bits 0xffffffffffffffff of i64\n  origin 1: undef at site 1 in @main\nend: trap bad-address at site 1 in @main\nreports: 1\nblind: 0\nverdict: poisoned\n",
        77,
    ),
    Checked(
        Terms {
            input: b"",
            fill: "a5",
            steps: 10000000,
            reports: 9,
        },
        r#"define i32 @main() {
  %1 = call i32 (ptr, ...) @printf(ptr undef)
  ret i32 %1
}
declare i32 @printf(ptr, ...)
"#,
        b"",
        "report 1: pointer at site 1 in @main, part 0, bits 0xffffffffffffffff of i64\n  origin 1: undef at site 1 in @main\nend: trap bad-address at site 1 in @main\nreports: 1\nblind: 0\nverdict: poisoned\n",
        77,
    ),
    // A poisoned format without an end is reported, and then traps.
    Checked(
        Terms {
            input: b"",
            fill: "a5",
            steps: 10000000,
            reports: 9,
        },
        r#"define i32 @main() {
  %1 = alloca [2 x i8]
  store i8 97, ptr %1
  %2 = call i32 (ptr, ...) @printf(ptr %1)
  ret i32 %2
}
declare i32 @printf(ptr, ...)
"#,
        b"",
        "report 1: string at site 3 in @main, part 1, bits 0xff of i8\n  origin 1: alloca at site 1 in @main\nend: trap bad-address at site 3 in @main\nreports: 1\nblind: 0\nverdict: poisoned\n",
        77,
    ),
    // The report comes before the trap of a bad format.
    Checked(
        Terms {
            input: b"",
            fill: "a5",
            steps: 10000000,
            reports: 9,
        },
        r#"@f = constant [4 x i8] c"%5d\00"
define i32 @main() {
  %1 = call i32 (ptr, ...) @printf(ptr @f, i32 undef)
  ret i32 %1
}
declare i32 @printf(ptr, ...)
"#,
        b"",
        "report 1: value at site 1 in @main, part 1, bits 0xffffffff of i32\n  origin 1: undef at site 1 in @main\nend: trap format at site 1 in @main\nreports: 1\nblind: 0\nverdict: poisoned\n",
        77,
    ),
    // A surplus argument is reported, and ignored.
    Checked(
        Terms {
            input: b"",
            fill: "a5",
            steps: 10000000,
            reports: 9,
        },
        r#"@f = constant [2 x i8] c"a\00"
define i32 @main() {
  %1 = call i32 (ptr, ...) @printf(ptr @f, ptr undef)
  ret i32 %1
}
declare i32 @printf(ptr, ...)
"#,
        b"a",
        "report 1: value at site 1 in @main, part 1, bits 0xffffffffffffffff of i64\n  origin 1: undef at site 1 in @main\nend: exit 1\nreports: 1\nblind: 0\nverdict: poisoned\n",
        77,
    ),
    // Bytes that are no characters are printed as they are.
    Checked(
        Terms {
            input: b"",
            fill: "a5",
            steps: 10000000,
            reports: 9,
        },
        r#"@f = constant [7 x i8] c"%c%c%c\00"
define i32 @main() {
  %1 = call i32 (ptr, ...) @printf(ptr @f, i32 -1, i32 128, i32 4095)
  ret i32 %1
}
declare i32 @printf(ptr, ...)
"#,
        b"\xff\x80\xff",
        "end: exit 3\nreports: 0\nblind: 0\nverdict: clean\n",
        0,
    ),
];

#[test]
fn formats_are_checked(rt: HostRuntime) -> Result<(), Fail> {
    assert!(rt;
        all_told_twice::<_, Case>(&rt, rt.alloc(), &[VALUES, STRINGS, UNASKED])
            && all_agree(&rt, rt.alloc(), &[&GOING_ON])
    );
    Ok(())
}
