//! Runs that print, take input and end by a call.

use ms_top_rows::alike::all_run_and_checked;
use ms_top_rows::calls::all_agree;
use ms_top_rows::modules::{Given, Run};
use ms_top_rows::told::all_told_runs;
use std::test::Fail;

/// Bytes are printed.
static PRINTS: [Run; 8] = [
    Run(
        "define i32 @main() { %r = call i32 @putchar(i32 65) ret i32 %r }",
        b"A",
        "exit 65",
        0,
    ),
    // The low byte of 0x141 alone.
    Run(
        "define i32 @main() { %r = call i32 @putchar(i32 321) ret i32 %r }",
        b"A",
        "exit 65",
        0,
    ),
    Run(
        "define i32 @main() { %r = call i32 @putchar(i32 -1) ret i32 %r }",
        b"\xff",
        "exit 255",
        0,
    ),
    Run(
        "define i32 @main() { call i32 @putchar(i32 65) call i32 @putchar(i32 0) call i32 @putchar(i32 10) ret i32 %1 }",
        b"A\x00\n",
        "exit 65",
        0,
    ),
    Run(
        "@s = global [4 x i8] c\"ok\\00x\" define i32 @main() { %r = call i32 @puts(ptr @s) ret i32 %r }",
        b"ok\n",
        "exit 1",
        0,
    ),
    Run(
        "@s = global [1 x i8] zeroinitializer define i32 @main() { %r = call i32 @puts(ptr @s) %t = call i32 @puts(ptr @s) ret i32 %t }",
        b"\n\n",
        "exit 1",
        0,
    ),
    Run(
        "@s = global [2 x i8] c\"ok\" define i32 @main() { %q = call i32 @putchar(i32 62) %r = call i32 @puts(ptr @s) ret i32 %r }",
        b">",
        "trap bad-address at site 2 in @main",
        3,
    ),
    Run(
        "define i32 @main() { %r = call i32 @puts(ptr null) ret i32 %r }",
        b"",
        "trap bad-address at site 1 in @main",
        3,
    ),
];

/// Ranges are written.
/// Descriptor 1 is the output, and no other is one.
static WRITES: [Run; 7] = [
    Run(
        "@s = global [3 x i8] c\"a\\00b\" define i32 @main() { %n = call i64 @write(i32 1, ptr @s, i64 3) %r = trunc i64 %n to i32 ret i32 %r }",
        b"a\x00b",
        "exit 3",
        0,
    ),
    Run(
        "@s = global [3 x i8] c\"abc\" define i32 @main() { %n = call i64 @write(i32 1, ptr getelementptr (i8, ptr @s, i64 1), i64 1) %r = trunc i64 %n to i32 ret i32 %r }",
        b"b",
        "exit 1",
        0,
    ),
    Run(
        "define i32 @main() { %n = call i64 @write(i32 1, ptr null, i64 0) %r = trunc i64 %n to i32 ret i32 %r }",
        b"",
        "exit 0",
        0,
    ),
    Run(
        "@s = global [3 x i8] c\"abc\" define i32 @main() { %n = call i64 @write(i32 2, ptr @s, i64 3) %m = call i64 @write(i32 0, ptr @s, i64 3) %k = call i64 @write(i32 -1, ptr null, i64 0) %a = and i64 %n, %m %b = and i64 %a, %k %c = icmp eq i64 %b, -1 %d = zext i1 %c to i32 ret i32 %d }",
        b"",
        "exit 1",
        0,
    ),
    Run(
        "@s = global [3 x i8] c\"abc\" define i32 @main() { %n = call i64 @write(i32 1, ptr @s, i64 4) ret i32 0 }",
        b"",
        "trap bad-address at site 1 in @main",
        3,
    ),
    // The range is tested for every descriptor.
    Run(
        "@s = global [3 x i8] c\"abc\" define i32 @main() { %n = call i64 @write(i32 2, ptr @s, i64 4) ret i32 0 }",
        b"",
        "trap bad-address at site 1 in @main",
        3,
    ),
    Run(
        "@s = global [3 x i8] c\"abc\" define i32 @main() { %n = call i64 @write(i32 1, ptr @s, i64 -1) ret i32 0 }",
        b"",
        "trap bad-address at site 1 in @main",
        3,
    ),
];

/// No input is empty.
/// A run without an input file has an empty input.
static EMPTY_INPUT: &[u8] =
    br#"define i32 @main() { %r = call i32 @getchar() %s = call i32 @getchar() %t = and i32 %r, %s ret i32 %t }~
~
exit 4294967295~
0
====
define i32 @main() { %p = alloca i32 store i32 7, ptr %p %n = call i64 @read(i32 0, ptr %p, i64 4) %r = trunc i64 %n to i32 %v = load i32, ptr %p %w = add i32 %v, %r ret i32 %w }~
~
exit 7~
0
====
"#;

/// Input is taken once.
static INPUTS: [Given; 9] = [
    Given(
        b"AB",
        "a5",
        10000000,
        Run(
            "define i32 @main() { %a = call i32 @getchar() %b = call i32 @putchar(i32 %a) %c = call i32 @getchar() %d = call i32 @putchar(i32 %c) %e = call i32 @getchar() ret i32 %e }",
            b"AB",
            "exit 4294967295",
            0,
        ),
    ),
    // A byte ff isn't the end, and neither is a zero byte.
    Given(
        b"\xff\x00",
        "a5",
        10000000,
        Run(
            "define i32 @main() { %a = call i32 @getchar() %b = call i32 @getchar() %c = mul i32 %b, 1000 %d = add i32 %a, %c ret i32 %d }",
            b"",
            "exit 255",
            0,
        ),
    ),
    // Two bytes, then the one that is left, then none.
    Given(
        b"abc",
        "a5",
        10000000,
        Run(
            "define i32 @main() { %p = alloca i32 %a = call i64 @read(i32 0, ptr %p, i64 2) %b = call i64 @read(i32 0, ptr %p, i64 4) %c = call i64 @read(i32 0, ptr %p, i64 4) %d = mul i64 %a, 100 %e = mul i64 %b, 10 %f = add i64 %d, %e %g = add i64 %f, %c %h = trunc i64 %g to i32 ret i32 %h }",
            b"",
            "exit 210",
            0,
        ),
    ),
    // The bytes are then c, the old b, and what was unset: a5 a5 62 63.
    Given(
        b"abc",
        "a5",
        10000000,
        Run(
            "define i32 @main() { %p = alloca i32 %a = call i64 @read(i32 0, ptr %p, i64 2) %b = call i64 @read(i32 0, ptr %p, i64 4) %v = load i32, ptr %p ret i32 %v }",
            b"",
            "exit 2779079267",
            0,
        ),
    ),
    Given(
        b"abc",
        "a5",
        10000000,
        Run(
            "define i32 @main() { %p = alloca i32 %a = call i32 @getchar() %b = call i64 @read(i32 0, ptr %p, i64 1) %c = call i32 @getchar() %v = load i8, ptr %p %w = zext i8 %v to i32 %x = call i32 @putchar(i32 %a) %y = call i32 @putchar(i32 %w) %z = call i32 @putchar(i32 %c) ret i32 0 }",
            b"abc",
            "exit 0",
            0,
        ),
    ),
    Given(
        b"abc",
        "a5",
        10000000,
        Run(
            "define i32 @main() { %a = call i64 @read(i32 0, ptr null, i64 0) %b = trunc i64 %a to i32 %c = call i32 @getchar() %d = add i32 %b, %c ret i32 %d }",
            b"",
            "exit 97",
            0,
        ),
    ),
    // Another descriptor gives -1 and takes nothing.
    Given(
        b"abc",
        "a5",
        10000000,
        Run(
            "define i32 @main() { %p = alloca i32 store i32 0, ptr %p %a = call i64 @read(i32 1, ptr %p, i64 3) %b = call i64 @read(i32 -1, ptr %p, i64 3) %c = and i64 %a, %b %d = icmp eq i64 %c, -1 %e = zext i1 %d to i32 %v = load i32, ptr %p %f = call i32 @getchar() %g = add i32 %e, %v %h = add i32 %g, %f ret i32 %h }",
            b"",
            "exit 98",
            0,
        ),
    ),
    // All the bytes asked for must be good, also where fewer are there, and for every descriptor.
    Given(
        b"a",
        "a5",
        10000000,
        Run(
            "define i32 @main() { %p = alloca i32 %a = call i64 @read(i32 0, ptr %p, i64 5) ret i32 0 }",
            b"",
            "trap bad-address at site 2 in @main",
            3,
        ),
    ),
    Given(
        b"a",
        "a5",
        10000000,
        Run(
            "define i32 @main() { %p = alloca i32 %a = call i64 @read(i32 2, ptr %p, i64 5) ret i32 0 }",
            b"",
            "trap bad-address at site 2 in @main",
            3,
        ),
    ),
];

/// Calls end the run.
static ENDINGS: &[u8] =
    br#"define i32 @main() { %a = call i32 @putchar(i32 65) call void @exit(i32 7) %b = call i32 @putchar(i32 66) ret i32 0 }~
A~
exit 7~
0
====
define i32 @main() { call void @exit(i32 -1) unreachable }~
~
exit 4294967295~
0
====
define i32 @main() { call void @f() ret i32 0 } define void @f() { call void @exit(i32 9) ret void }~
~
exit 9~
0
====
define i32 @main() { %a = call i32 @putchar(i32 65) call void @abort() ret i32 0 }~
A~
trap abort at site 2 in @main~
3
====
define i32 @main() { call void @f() ret i32 0 } define void @f() { call void @abort() unreachable }~
~
trap abort at site 3 in @f~
3
====
define i32 @main() { ret i32 -2147483648 }~
~
exit 2147483648~
0
====
"#;

#[test]
fn streams_are_used(rt: HostRuntime) -> Result<(), Fail> {
    assert!(rt;
        all_told_runs(&rt, rt.alloc(), &[EMPTY_INPUT, ENDINGS])
            && all_run_and_checked(&rt, rt.alloc(), &[&PRINTS, &WRITES])
            && all_agree(&rt, rt.alloc(), &[&INPUTS])
    );
    Ok(())
}
