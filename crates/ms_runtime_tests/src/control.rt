//! Runs that call, return, branch and jump.

use ms_top_rows::calls::all_agree;
use ms_top_rows::modules::{Given, Run};
use ms_top_rows::told::all_told_runs;
use std::test::Fail;

/// Calls return.
static CALLS: &[u8] =
    br#"define i32 @main() { %r = call i32 @f(i1 true, i7 -1, i8 -2, i24 -3, i33 -4, i64 -5, ptr @g) ret i32 %r } define i32 @f(i1 %a, i7 %b, i8 %c, i24 %d, i33 %e, i64 %f, ptr %p) { %b8 = sext i7 %b to i32 %c8 = sext i8 %c to i32 %d8 = sext i24 %d to i32 %e8 = trunc i33 %e to i32 %f8 = trunc i64 %f to i32 %g8 = load i32, ptr %p %a8 = zext i1 %a to i32 %s = add i32 %a8, %b8 %t = add i32 %s, %c8 %u = add i32 %t, %d8 %v = add i32 %u, %e8 %w = add i32 %v, %f8 %x = add i32 %w, %g8 ret i32 %x } @g = global i32 100~
~
exit 86~
0
====
# The order of arguments, the widths of results, and a result that is not used.
define i32 @main() { %r = call i32 @f(i32 7, i32 3) ret i32 %r } define i32 @f(i32 %a, i32 %b) { %c = sub i32 %a, %b ret i32 %c }~
~
exit 4~
0
====
define i33 @f() { ret i33 -1 } define i32 @main() { %r = call i33 @f() %s = lshr i33 %r, 32 %t = trunc i33 %s to i32 ret i32 %t }~
~
exit 1~
0
====
define ptr @f() { ret ptr @g } define i32 @main() { %p = call ptr @f() %v = load i32, ptr %p ret i32 %v } @g = global i32 8~
~
exit 8~
0
====
define i1 @f() { ret i1 true } define i32 @main() { %r = call i1 @f() %v = sext i1 %r to i32 ret i32 %v }~
~
exit 4294967295~
0
====
define i32 @f() { %a = call i32 @putchar(i32 65) ret i32 9 } define i32 @main() { call i32 @f() call i32 @f() ret i32 0 }~
AA~
exit 0~
0
====
define void @f(i32 %c) { %a = call i32 @putchar(i32 %c) ret void } define i32 @main() { call void @f(i32 65) call void @f(i32 66) ret i32 0 }~
AB~
exit 0~
0
====
define i32 @main() { %r = tail call i32 @f(i32 noundef 1) #0 ret i32 %r } define internal noundef i32 @f(i32 %a) #0 { %b = add nsw i32 %a, 1 ret i32 %b } attributes #0 = { nounwind }~
~
exit 2~
0
====
# Parameters and results without a name have numbers.
define i32 @f(i32, i32) { sub i32 %0, %1 ret i32 %3 } define i32 @main() { call i32 @f(i32 7, i32 3) ret i32 %1 }~
~
exit 4~
0
====
# A value of the caller is unchanged, also where the callee has one of its name.
define i32 @main() { %a = add i32 1, 1 %b = call i32 @f(i32 %a) %c = add i32 %a, %b ret i32 %c } define i32 @f(i32 %c) { %a = add i32 %c, 10 ret i32 %a }~
~
exit 14~
0
====
# Two functions that call each other.
define i32 @main() { %r = call i32 @even(i32 7) ret i32 %r } define i32 @even(i32 %n) { %z = icmp eq i32 %n, 0 br i1 %z, label %y, label %x y: ret i32 10 x: %m = sub i32 %n, 1 %r = call i32 @odd(i32 %m) ret i32 %r } define i32 @odd(i32 %n) { %z = icmp eq i32 %n, 0 br i1 %z, label %y, label %x y: ret i32 11 x: %m = sub i32 %n, 1 %r = call i32 @even(i32 %m) ret i32 %r }~
~
exit 11~
0
====
# The frame of `main` is one of the 1024.
define i32 @f(i32 %n) { %z = icmp eq i32 %n, 1 br i1 %z, label %y, label %x y: ret i32 7 x: %m = sub i32 %n, 1 %r = call i32 @f(i32 %m) ret i32 %r } define i32 @main() { %r = call i32 @f(i32 1023) %s = call i32 @f(i32 1023) %t = add i32 %r, %s ret i32 %t }~
~
exit 14~
0
====
define i32 @f(i32 %n) { %z = icmp eq i32 %n, 1 br i1 %z, label %y, label %x y: ret i32 7 x: %m = sub i32 %n, 1 %r = call i32 @f(i32 %m) ret i32 %r } define i32 @main() { %r = call i32 @f(i32 1024) ret i32 %r }~
~
trap depth at site 5 in @f~
3
====
# An external makes no frame.
define void @f(i32 %n) { %z = icmp eq i32 %n, 1 br i1 %z, label %y, label %x y: %c = call i32 @putchar(i32 65) ret void x: %m = sub i32 %n, 1 call void @f(i32 %m) ret void } define i32 @main() { call void @f(i32 1023) ret i32 0 }~
A~
exit 0~
0
====
define void @f() { call void @f() ret void } define i32 @main() { call void @f() ret i32 0 }~
~
trap depth at site 1 in @f~
3
====
"#;

/// The stack is taken back.
/// The stack begins at 125344325566464 and has 1048576 bytes.
static STACKS: &[u8] =
    br#"define i32 @main() { %p = alloca i8 %q = alloca [17 x i8] %r = alloca i8 %a = ptrtoint ptr %r to i64 %b = sub i64 %a, 125344325566464 %c = trunc i64 %b to i32 ret i32 %c }~
~
exit 48~
0
====
# A return takes the callee's part back: the next call has the same addresses.
define i64 @f() { %p = alloca i64 %a = ptrtoint ptr %p to i64 ret i64 %a } define i32 @main() { %a = call i64 @f() %b = call i64 @f() %p = alloca i8 %c = ptrtoint ptr %p to i64 %d = sub i64 %b, %a %e = sub i64 %c, %a %f = or i64 %d, %e %g = trunc i64 %f to i32 ret i32 %g }~
~
exit 0~
0
====
# What the caller has stays, and what the callee had is gone.
define ptr @f(ptr %q) { %p = alloca i32 store i32 5, ptr %q ret ptr %p } define i32 @main() { %q = alloca i32 %p = call ptr @f(ptr %q) %v = load i32, ptr %q ret i32 %v }~
~
exit 5~
0
====
define ptr @f() { %p = alloca i32 ret ptr %p } define i32 @main() { %p = call ptr @f() %v = load i32, ptr %p ret i32 0 }~
~
trap bad-address at site 4 in @main~
3
====
# Seventy thousand calls with an allocation of 16 bytes each, which 1 MiB would not hold at once.
define void @f() { %p = alloca [16 x i8] ret void } define i32 @main() { br label %l l: %i = phi i32 [ 0, %0 ], [ %j, %l ] call void @f() %j = add i32 %i, 1 %c = icmp ult i32 %j, 70000 br i1 %c, label %l, label %e e: ret i32 %j }~
~
exit 70000~
0
====
# In a loop of one function they stay: the 65537th is one too many.
define i32 @main() { br label %l l: %i = phi i32 [ 0, %0 ], [ %j, %l ] %p = alloca i8 %j = add i32 %i, 1 %c = icmp ult i32 %j, 65536 br i1 %c, label %l, label %e e: ret i32 %j }~
~
exit 65536~
0
====
define i32 @main() { br label %l l: %i = phi i32 [ 0, %0 ], [ %j, %l ] %p = alloca i8 %j = add i32 %i, 1 %c = icmp ult i32 %j, 65537 br i1 %c, label %l, label %e e: ret i32 %j }~
~
trap stack at site 3 in @main~
3
====
# Counts are unsigned, and one of zero takes 16 bytes.
define i32 @main() { %p = alloca i8, i32 1048576 %v = load i8, ptr %p %w = zext i8 %v to i32 ret i32 %w }~
~
exit 165~
0
====
define i32 @main() { %p = alloca i8, i32 1048577 ret i32 0 }~
~
trap stack at site 1 in @main~
3
====
define i32 @main() { %p = alloca i8, i32 1048576 %q = alloca i8, i32 0 ret i32 0 }~
~
trap stack at site 2 in @main~
3
====
define i32 @main() { %p = alloca i64, i32 -1 ret i32 0 }~
~
trap stack at site 1 in @main~
3
====
define i32 @main() { %p = alloca i8, i64 4294967296 ret i32 0 }~
~
trap stack at site 1 in @main~
3
====
define i32 @main() { %p = alloca i64, i64 2305843009213693952 ret i32 0 }~
~
trap stack at site 1 in @main~
3
====
define i32 @main() { %p = alloca i8, i8 -1 %q = getelementptr i8, ptr %p, i64 254 store i8 4, ptr %q %v = load i8, ptr %q %w = zext i8 %v to i32 ret i32 %w }~
~
exit 4~
0
====
define i32 @main() { %p = alloca i8, i8 -1 %q = getelementptr i8, ptr %p, i64 255 store i8 4, ptr %q ret i32 0 }~
~
trap bad-address at site 3 in @main~
3
====
define i32 @main() { %p = alloca i8, i1 true %q = alloca { }, i32 9 %r = alloca i8 %a = ptrtoint ptr %r to i64 %b = sub i64 %a, 125344325566464 %c = trunc i64 %b to i32 ret i32 %c }~
~
exit 32~
0
====
define i32 @main() { %p = alloca i8, i32 0 store i8 1, ptr %p ret i32 0 }~
~
trap bad-address at site 2 in @main~
3
====
define i32 @main() { %n = add i32 2, 1 %p = alloca i16, i32 %n %q = getelementptr i16, ptr %p, i64 2 store i16 7, ptr %q %v = load i16, ptr %q %w = zext i16 %v to i32 ret i32 %w }~
~
exit 7~
0
====
define i32 @main() { %p = alloca [67108864 x i8] ret i32 0 }~
~
trap stack at site 1 in @main~
3
====
"#;

/// Jumps go to their blocks.
static JUMPS: &[u8] =
    br#"define i32 @main() { br i1 true, label %a, label %b a: ret i32 1 b: ret i32 2 }~
~
exit 1~
0
====
define i32 @main() { br i1 false, label %a, label %b a: ret i32 1 b: ret i32 2 }~
~
exit 2~
0
====
define i32 @main() { br i1 false, label %a, label %a a: ret i32 1 }~
~
exit 1~
0
====
define i32 @main() { switch i8 -56, label %d [ i8 1, label %a i8 200, label %b ] a: ret i32 1 b: ret i32 2 d: ret i32 3 }~
~
exit 2~
0
====
define i32 @main() { switch i8 7, label %d [ i8 1, label %a i8 200, label %b ] a: ret i32 1 b: ret i32 2 d: ret i32 3 }~
~
exit 3~
0
====
define i32 @main() { switch i64 4294967297, label %d [ i64 1, label %a i64 4294967297, label %b ] a: ret i32 1 b: ret i32 2 d: ret i32 3 }~
~
exit 2~
0
====
define i32 @main() { switch i32 5, label %d [ ] d: ret i32 3 }~
~
exit 3~
0
====
define i32 @main() { switch i1 true, label %d [ i1 -1, label %a i1 0, label %b ] a: ret i32 1 b: ret i32 2 d: ret i32 3 }~
~
exit 1~
0
====
define i32 @main() { switch i32 2, label %a [ i32 1, label %b i32 2, label %b i32 3, label %a ] a: %x = phi i32 [ 1, %0 ], [ 1, %0 ] ret i32 %x b: %y = phi i32 [ 2, %0 ], [ 2, %0 ] ret i32 %y }~
~
exit 2~
0
====
# A number of blocks and values, whose numbers go on through the function.
define i32 @main() { %1 = add i32 1, 2 br label %2 2: %3 = add i32 %1, 3 br label %4 4: ret i32 %3 }~
~
exit 6~
0
====
# Blocks may stand in any order.
define i32 @main() { br label %z a: ret i32 %v z: %v = add i32 1, 2 br label %a }~
~
exit 3~
0
====
# Unreachable code is not looked at, whatever its operands are.
define i32 @main() { ret i32 4 x: %a = add i32 %b, %c %b = sdiv i32 1, 0 %c = load i32, ptr %p %p = inttoptr i64 %q to ptr %q = zext i32 %a to i64 br label %x }~
~
exit 4~
0
====
define i32 @main() { br label %e x: %y = add i32 %y, 1 br label %e e: %v = phi i32 [ 1, %0 ], [ %y, %x ] ret i32 %v }~
~
exit 1~
0
====
define i32 @main() { ret i32 5 x: unreachable }~
~
exit 5~
0
====
"#;

/// Phis read at once.
static PHIS: &[u8] = br#"# They all read before any is set: two that change places.
define i32 @main() { br label %l l: %a = phi i32 [ 1, %0 ], [ %b, %l ] %b = phi i32 [ 2, %0 ], [ %a, %l ] %i = phi i32 [ 0, %0 ], [ %j, %l ] %j = add i32 %i, 1 %c = icmp ult i32 %j, 4 br i1 %c, label %l, label %e e: %x = mul i32 %a, 10 %y = add i32 %x, %b ret i32 %y }~
~
exit 21~
0
====
# Three that go round, after two turns.
define i32 @main() { br label %l l: %a = phi i32 [ 1, %0 ], [ %b, %l ] %b = phi i32 [ 2, %0 ], [ %c, %l ] %c = phi i32 [ 3, %0 ], [ %a, %l ] %i = phi i32 [ 0, %0 ], [ %j, %l ] %j = add i32 %i, 1 %k = icmp ult i32 %j, 3 br i1 %k, label %l, label %e e: %x = mul i32 %a, 100 %y = mul i32 %b, 10 %z = add i32 %x, %y %w = add i32 %z, %c ret i32 %w }~
~
exit 312~
0
====
# By the edge that is taken, also where a block has two to one.
define i32 @main() { %t = icmp eq i32 1, 2 br i1 %t, label %x, label %y x: br label %e y: br label %e e: %v = phi i32 [ 1, %x ], [ 2, %y ] ret i32 %v }~
~
exit 2~
0
====
define i32 @main() { br i1 true, label %e, label %e e: %v = phi i32 [ 5, %0 ], [ 5, %0 ] ret i32 %v }~
~
exit 5~
0
====
@g = global i32 6 define i32 @main() { br label %e e: %v = phi ptr [ @g, %0 ] %w = load i32, ptr %v ret i32 %w }~
~
exit 6~
0
====
define i32 @main() { br label %e e: %a = phi i1 [ true, %0 ] %b = phi i33 [ -1, %0 ] %c = lshr i33 %b, 31 %d = trunc i33 %c to i32 %f = zext i1 %a to i32 %g = add i32 %d, %f ret i32 %g }~
~
exit 4~
0
====
# Two operands that are undefined, for one block, are equal.
define i32 @main() { br i1 true, label %e, label %e e: %v = phi i32 [ undef, %0 ], [ poison, %0 ] ret i32 %v }~
~
exit 2779096485~
0
====
# A sum of 1 to 100.
define i32 @main() { br label %l l: %i = phi i32 [ 1, %0 ], [ %j, %l ] %s = phi i32 [ 0, %0 ], [ %t, %l ] %t = add i32 %s, %i %j = add i32 %i, 1 %c = icmp ule i32 %j, 100 br i1 %c, label %l, label %e e: ret i32 %t }~
~
exit 5050~
0
====
# A value of the turn before, used after the loop.
define i32 @main() { br label %l l: %i = phi i32 [ 0, %0 ], [ %j, %l ] %j = add i32 %i, 1 %c = icmp ult i32 %j, 3 br i1 %c, label %l, label %e e: %v = phi i32 [ %i, %l ] ret i32 %v }~
~
exit 2~
0
====
# A named entry block.
define i32 @main() { start: br label %e e: %v = phi i32 [ 3, %start ] ret i32 %v }~
~
exit 3~
0
====
"#;

/// Steps are counted.
/// A phi is no step; a call, a return and a terminator are one each.
static STEPS: [Given; 16] = [
    Given(
        b"",
        "a5",
        0,
        Run("define i32 @main() { ret i32 0 }", b"", "spent", 4),
    ),
    Given(
        b"",
        "a5",
        1,
        Run("define i32 @main() { ret i32 0 }", b"", "exit 0", 0),
    ),
    Given(
        b"",
        "a5",
        1,
        Run(
            "define i32 @main() { %a = add i32 1, 2 ret i32 %a }",
            b"",
            "spent",
            4,
        ),
    ),
    Given(
        b"",
        "a5",
        2,
        Run(
            "define i32 @main() { %a = add i32 1, 2 ret i32 %a }",
            b"",
            "exit 3",
            0,
        ),
    ),
    Given(
        b"",
        "a5",
        1,
        Run(
            "define i32 @main() { br label %e e: %a = phi i32 [ 1, %0 ] %b = phi i32 [ 2, %0 ] ret i32 %b }",
            b"",
            "spent",
            4,
        ),
    ),
    Given(
        b"",
        "a5",
        2,
        Run(
            "define i32 @main() { br label %e e: %a = phi i32 [ 1, %0 ] %b = phi i32 [ 2, %0 ] ret i32 %b }",
            b"",
            "exit 2",
            0,
        ),
    ),
    Given(
        b"",
        "a5",
        2,
        Run(
            "define i32 @f() { ret i32 3 } define i32 @main() { %a = call i32 @f() ret i32 %a }",
            b"",
            "spent",
            4,
        ),
    ),
    Given(
        b"",
        "a5",
        3,
        Run(
            "define i32 @f() { ret i32 3 } define i32 @main() { %a = call i32 @f() ret i32 %a }",
            b"",
            "exit 3",
            0,
        ),
    ),
    Given(
        b"",
        "a5",
        1,
        Run(
            "define i32 @main() { %a = call i32 @putchar(i32 65) %b = call i32 @putchar(i32 66) ret i32 0 }",
            b"A",
            "spent",
            4,
        ),
    ),
    Given(
        b"",
        "a5",
        3,
        Run(
            "define i32 @main() { %a = call i32 @putchar(i32 65) %b = call i32 @putchar(i32 66) ret i32 0 }",
            b"AB",
            "exit 0",
            0,
        ),
    ),
    Given(
        b"",
        "a5",
        1,
        Run(
            "define i32 @main() { call void @exit(i32 5) ret i32 0 }",
            b"",
            "exit 5",
            0,
        ),
    ),
    Given(
        b"",
        "a5",
        0,
        Run(
            "define i32 @main() { call void @exit(i32 5) ret i32 0 }",
            b"",
            "spent",
            4,
        ),
    ),
    Given(
        b"",
        "a5",
        1,
        Run(
            "define i32 @main() { unreachable }",
            b"",
            "trap unreachable at site 1 in @main",
            3,
        ),
    ),
    Given(
        b"",
        "a5",
        0,
        Run("define i32 @main() { unreachable }", b"", "spent", 4),
    ),
    Given(
        b"",
        "a5",
        1000,
        Run(
            "define i32 @main() { br label %l l: br label %l }",
            b"",
            "spent",
            4,
        ),
    ),
    Given(
        b"",
        "a5",
        100000,
        Run(
            "define i32 @main() { br label %l l: br label %l }",
            b"",
            "spent",
            4,
        ),
    ),
];

#[test]
fn control_goes_its_way(rt: HostRuntime) -> Result<(), Fail> {
    assert!(rt;
        all_told_runs(&rt, rt.alloc(), &[CALLS, STACKS, JUMPS, PHIS])
            && all_agree(&rt, rt.alloc(), &[&STEPS])
    );
    Ok(())
}
