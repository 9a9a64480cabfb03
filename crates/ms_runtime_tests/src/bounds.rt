//! Runs that reach the limits: of output, of frames and stack, of long texts and of many types.

use ms_top_rows::calls::{Call, MORE, Row, all_agree, on_text};
use ms_top_rows::modules::{Run, closed};
use ms_top_rows::told::{Told, all_told, fields_of};
use std::test::Fail;

/// A module whose text has a piece so many times, how its run ends, and the status.
struct Long(
    &'static str,
    &'static str,
    u32,
    &'static str,
    &'static str,
    u8,
);

/// A module, how often its run prints the letter A and nothing else, how it ends, and the status.
#[derive(Clone, Copy)]
struct Printing(&'static str, usize, &'static str, u8);

/// Output ends.
static OUTPUTS: &[u8] =
    br#"# 16 times 65536 bytes are allowed, and then no byte more; a call that prints none is good.
@g = global [65536 x i8] zeroinitializer @e = global [2 x i8] c"A\00" define i32 @main() { %m = call ptr @memset(ptr @g, i32 65, i64 65536) br label %l l: %i = phi i32 [ 0, %0 ], [ %j, %l ] %w = call i64 @write(i32 1, ptr @g, i64 65536) %j = add i32 %i, 1 %c = icmp ult i32 %j, 16 br i1 %c, label %l, label %e e: ret i32 0 } declare i64 @write(i32, ptr, i64)
declare ptr @memset(ptr, i32, i64)
declare i32 @putchar(i32)
declare i32 @puts(ptr)
~
1048576~
exit 0~
0
====
@g = global [65536 x i8] zeroinitializer @e = global [2 x i8] c"A\00" define i32 @main() { %m = call ptr @memset(ptr @g, i32 65, i64 65536) br label %l l: %i = phi i32 [ 0, %0 ], [ %j, %l ] %w = call i64 @write(i32 1, ptr @g, i64 65536) %j = add i32 %i, 1 %c = icmp ult i32 %j, 16 br i1 %c, label %l, label %e e: %v = call i64 @write(i32 1, ptr @g, i64 0) %x = trunc i64 %v to i32 ret i32 %x } declare i64 @write(i32, ptr, i64)
declare ptr @memset(ptr, i32, i64)
declare i32 @putchar(i32)
declare i32 @puts(ptr)
~
1048576~
exit 0~
0
====
@g = global [65536 x i8] zeroinitializer @e = global [2 x i8] c"A\00" define i32 @main() { %m = call ptr @memset(ptr @g, i32 65, i64 65536) br label %l l: %i = phi i32 [ 0, %0 ], [ %j, %l ] %w = call i64 @write(i32 1, ptr @g, i64 65536) %j = add i32 %i, 1 %c = icmp ult i32 %j, 16 br i1 %c, label %l, label %e e: %v = call i32 @putchar(i32 65) ret i32 0 } declare i64 @write(i32, ptr, i64)
declare ptr @memset(ptr, i32, i64)
declare i32 @putchar(i32)
declare i32 @puts(ptr)
~
1048576~
trap output at site 8 in @main~
3
====
@g = global [65536 x i8] zeroinitializer @e = global [2 x i8] c"A\00" define i32 @main() { %m = call ptr @memset(ptr @g, i32 65, i64 65536) br label %l l: %i = phi i32 [ 0, %0 ], [ %j, %l ] %w = call i64 @write(i32 1, ptr @g, i64 65536) %j = add i32 %i, 1 %c = icmp ult i32 %j, 16 br i1 %c, label %l, label %e e: %v = call i64 @write(i32 1, ptr @g, i64 1) ret i32 0 } declare i64 @write(i32, ptr, i64)
declare ptr @memset(ptr, i32, i64)
declare i32 @putchar(i32)
declare i32 @puts(ptr)
~
1048576~
trap output at site 8 in @main~
3
====
@g = global [65536 x i8] zeroinitializer @e = global [2 x i8] c"A\00" define i32 @main() { %m = call ptr @memset(ptr @g, i32 65, i64 65536) br label %l l: %i = phi i32 [ 0, %0 ], [ %j, %l ] %w = call i64 @write(i32 1, ptr @g, i64 65536) %j = add i32 %i, 1 %c = icmp ult i32 %j, 16 br i1 %c, label %l, label %e e: %v = call i32 @puts(ptr getelementptr (i8, ptr @e, i64 1)) ret i32 0 } declare i64 @write(i32, ptr, i64)
declare ptr @memset(ptr, i32, i64)
declare i32 @putchar(i32)
declare i32 @puts(ptr)
~
1048576~
trap output at site 8 in @main~
3
====
@g = global [65536 x i8] zeroinitializer @e = global [2 x i8] c"A\00" define i32 @main() { %m = call ptr @memset(ptr @g, i32 65, i64 65536) br label %l l: %i = phi i32 [ 0, %0 ], [ %j, %l ] %w = call i64 @write(i32 1, ptr @g, i64 65536) %j = add i32 %i, 1 %c = icmp ult i32 %j, 16 br i1 %c, label %l, label %e e: %v = call i64 @write(i32 2, ptr @g, i64 1) %x = trunc i64 %v to i32 ret i32 %x } declare i64 @write(i32, ptr, i64)
declare ptr @memset(ptr, i32, i64)
declare i32 @putchar(i32)
declare i32 @puts(ptr)
~
1048576~
exit 4294967295~
0
====
# A call that would pass the limit prints none of its bytes.
@g = global [65536 x i8] zeroinitializer @e = global [2 x i8] c"A\00" define i32 @main() { %m = call ptr @memset(ptr @g, i32 65, i64 65536) br label %l l: %i = phi i32 [ 0, %0 ], [ %j, %l ] %w = call i64 @write(i32 1, ptr @g, i64 65536) %j = add i32 %i, 1 %c = icmp ult i32 %j, 15 br i1 %c, label %l, label %e e: %v = call i64 @write(i32 1, ptr @g, i64 65535) %w2 = call i32 @puts(ptr @e) ret i32 0 } declare i64 @write(i32, ptr, i64)
declare ptr @memset(ptr, i32, i64)
declare i32 @putchar(i32)
declare i32 @puts(ptr)
~
1048575~
trap output at site 9 in @main~
3
====
@g = global [65536 x i8] zeroinitializer @e = global [2 x i8] c"A\00" define i32 @main() { %m = call ptr @memset(ptr @g, i32 65, i64 65536) br label %l l: %i = phi i32 [ 0, %0 ], [ %j, %l ] %w = call i64 @write(i32 1, ptr @g, i64 65536) %j = add i32 %i, 1 %c = icmp ult i32 %j, 15 br i1 %c, label %l, label %e e: %v = call i64 @write(i32 1, ptr @g, i64 65535) %w2 = call i32 @putchar(i32 65) ret i32 0 } declare i64 @write(i32, ptr, i64)
declare ptr @memset(ptr, i32, i64)
declare i32 @putchar(i32)
declare i32 @puts(ptr)
~
1048576~
exit 0~
0
====
@g = global [1048577 x i8] zeroinitializer @e = global [2 x i8] c"A\00" define i32 @main() { %m = call ptr @memset(ptr @g, i32 65, i64 1048577) br label %l l: %i = phi i32 [ 0, %0 ], [ %j, %l ] %w = call i64 @write(i32 1, ptr @g, i64 1048577) %j = add i32 %i, 1 %c = icmp ult i32 %j, 1 br i1 %c, label %l, label %e e: ret i32 0 } declare i64 @write(i32, ptr, i64)
declare ptr @memset(ptr, i32, i64)
declare i32 @putchar(i32)
declare i32 @puts(ptr)
~
0~
trap output at site 4 in @main~
3
====
@g = global [1048576 x i8] zeroinitializer @e = global [2 x i8] c"A\00" define i32 @main() { %m = call ptr @memset(ptr @g, i32 65, i64 1048576) br label %l l: %i = phi i32 [ 0, %0 ], [ %j, %l ] %w = call i64 @write(i32 1, ptr @g, i64 1048576) %j = add i32 %i, 1 %c = icmp ult i32 %j, 1 br i1 %c, label %l, label %e e: ret i32 0 } declare i64 @write(i32, ptr, i64)
declare ptr @memset(ptr, i32, i64)
declare i32 @putchar(i32)
declare i32 @puts(ptr)
~
1048576~
exit 0~
0
====
# What is not good is found first.
@g = global [65536 x i8] zeroinitializer @e = global [2 x i8] c"A\00" define i32 @main() { %m = call ptr @memset(ptr @g, i32 65, i64 65536) br label %l l: %i = phi i32 [ 0, %0 ], [ %j, %l ] %w = call i64 @write(i32 1, ptr @g, i64 65536) %j = add i32 %i, 1 %c = icmp ult i32 %j, 16 br i1 %c, label %l, label %e e: %v = call i64 @write(i32 1, ptr @g, i64 65537) ret i32 0 } declare i64 @write(i32, ptr, i64)
declare ptr @memset(ptr, i32, i64)
declare i32 @putchar(i32)
declare i32 @puts(ptr)
~
1048576~
trap bad-address at site 8 in @main~
3
====
@g = global [65536 x i8] zeroinitializer @e = global [2 x i8] c"A\00" define i32 @main() { %m = call ptr @memset(ptr @g, i32 65, i64 65536) br label %l l: %i = phi i32 [ 0, %0 ], [ %j, %l ] %w = call i64 @write(i32 1, ptr @g, i64 65536) %j = add i32 %i, 1 %c = icmp ult i32 %j, 16 br i1 %c, label %l, label %e e: %v = call i32 @puts(ptr @g) ret i32 0 } declare i64 @write(i32, ptr, i64)
declare ptr @memset(ptr, i32, i64)
declare i32 @putchar(i32)
declare i32 @puts(ptr)
~
1048576~
trap bad-address at site 8 in @main~
3
====
# Two strings of 524288 bytes reach the limit, after which no byte may come.
@f = constant [5 x i8] c"%s%s\00" @e = constant [2 x i8] c"A\00" define i32 @main() { %m = call ptr @malloc(i64 524289) %s = call ptr @memset(ptr %m, i32 65, i64 524288) %z = getelementptr i8, ptr %m, i64 524288 store i8 0, ptr %z %v = call i32 (ptr, ...) @printf(ptr @f, ptr %m, ptr %m) %w = call i32 (ptr, ...) @printf(ptr getelementptr (i8, ptr @e, i64 1)) %x = add i32 %v, %w ret i32 %x } declare ptr @malloc(i64)
declare ptr @memset(ptr, i32, i64)
declare i32 @printf(ptr, ...)
~
1048576~
exit 1048576~
0
====
@f = constant [5 x i8] c"%s%s\00" @e = constant [2 x i8] c"A\00" define i32 @main() { %m = call ptr @malloc(i64 524289) %s = call ptr @memset(ptr %m, i32 65, i64 524288) %z = getelementptr i8, ptr %m, i64 524288 store i8 0, ptr %z %v = call i32 (ptr, ...) @printf(ptr @f, ptr %m, ptr %m) %w = call i32 (ptr, ...) @printf(ptr @e) ret i32 0 } declare ptr @malloc(i64)
declare ptr @memset(ptr, i32, i64)
declare i32 @printf(ptr, ...)
~
1048576~
trap output at site 6 in @main~
3
====
@f = constant [6 x i8] c"%s%sA\00" @e = constant [2 x i8] c"A\00" define i32 @main() { %m = call ptr @malloc(i64 524289) %s = call ptr @memset(ptr %m, i32 65, i64 524288) %z = getelementptr i8, ptr %m, i64 524288 store i8 0, ptr %z %v = call i32 (ptr, ...) @printf(ptr @f, ptr %m, ptr %m) ret i32 0 } declare ptr @malloc(i64)
declare ptr @memset(ptr, i32, i64)
declare i32 @printf(ptr, ...)
~
0~
trap output at site 5 in @main~
3
====
# A bad format comes before it, and a string without an end before both.
@f = constant [9 x i8] c"%s%s%s%q\00" @e = constant [2 x i8] c"A\00" define i32 @main() { %m = call ptr @malloc(i64 524289) %s = call ptr @memset(ptr %m, i32 65, i64 524288) %z = getelementptr i8, ptr %m, i64 524288 store i8 0, ptr %z %v = call i32 (ptr, ...) @printf(ptr @f, ptr %m, ptr %m, ptr %m) ret i32 0 } declare ptr @malloc(i64)
declare ptr @memset(ptr, i32, i64)
declare i32 @printf(ptr, ...)
~
0~
trap format at site 5 in @main~
3
====
@f = constant [11 x i8] c"%s%s%s%s%q\00" @e = constant [2 x i8] c"A\00" @u = constant [1 x i8] c"u" define i32 @main() { %m = call ptr @malloc(i64 524289) %s = call ptr @memset(ptr %m, i32 65, i64 524288) %z = getelementptr i8, ptr %m, i64 524288 store i8 0, ptr %z %v = call i32 (ptr, ...) @printf(ptr @f, ptr %m, ptr %m, ptr %m, ptr @u) ret i32 0 } declare ptr @malloc(i64)
declare ptr @memset(ptr, i32, i64)
declare i32 @printf(ptr, ...)
~
0~
trap bad-address at site 5 in @main~
3
====
"#;

/// Long texts run.
static TEXTS: [Long; 5] = [
    Long(
        r#"define i32 @main() {
  br label %1
1:
"#,
        "  phi i32 [ 7, %0 ]\n",
        16384,
        "  ret i32 %16385\n}\n",
        "exit 7",
        0,
    ),
    Long(
        r#"define i32 @main() {
  %a = add i32 1, 2
"#,
        "  add i32 %a, 4\n",
        20000,
        "  ret i32 %20000\n}\n",
        "exit 7",
        0,
    ),
    Long(
        r#"define i32 @main() {
"#,
        "  add i32 1, 2\n",
        20000,
        "  unreachable\n}\n",
        "trap unreachable at site 20001 in @main",
        3,
    ),
    Long(
        r#"define i32 @main() {
  switch i32 7, label %1 [ i32 8, label %1 ]
1:
  %a = phi i32 [ 3, %0 ], [ 3, %0 ]
  br i1 true, label %b, label %b
b:
"#,
        "  load i32, ptr @g\n",
        5000,
        r#"  ret i32 %5001
}
@g = global i32 6
"#,
        "exit 6",
        0,
    ),
    // One instruction in each of many blocks, of which the first alone is reached.
    Long(
        r#"define i32 @main() {
  ret i32 9
"#,
        "  unreachable\n",
        20000,
        "}\n",
        "exit 9",
        0,
    ),
];

/// Frames and blocks end.
static FRAMES: &[u8] =
    br#"# A thousand and eight frames with 1040 bytes each fit; a thousand and twenty-three with 1024 do, and then one frame more does not.
define void @f() { %p = alloca [1040 x i8] call void @f() ret void } define i32 @main() { call void @f() ret i32 0 }~
~
trap stack at site 1 in @f~
3
====
define void @f() { %p = alloca [1024 x i8] call void @f() ret void } define i32 @main() { call void @f() ret i32 0 }~
~
trap depth at site 2 in @f~
3
====
# A type of the greatest size doesn't fit the stack.
define void @g() { %p = alloca [67108864 x i8] ret void } define i32 @main() { call void @g() ret i32 0 }~
~
trap stack at site 1 in @g~
3
====
# A hundred arguments, of which the k-th is 3 k.
define i32 @f(i32, i32, i32, i32, i32, i32, i32, i32, i32, i32, i32, i32, i32, i32, i32, i32, i32, i32, i32, i32, i32, i32, i32, i32, i32, i32, i32, i32, i32, i32, i32, i32, i32, i32, i32, i32, i32, i32, i32, i32, i32, i32, i32, i32, i32, i32, i32, i32, i32, i32, i32, i32, i32, i32, i32, i32, i32, i32, i32, i32, i32, i32, i32, i32, i32, i32, i32, i32, i32, i32, i32, i32, i32, i32, i32, i32, i32, i32, i32, i32, i32, i32, i32, i32, i32, i32, i32, i32, i32, i32, i32, i32, i32, i32, i32, i32, i32, i32, i32, i32) { %x = sub i32 %99, %50 %y = add i32 %x, %1 ret i32 %y } define i32 @main() { %r = call i32 @f(i32 0, i32 3, i32 6, i32 9, i32 12, i32 15, i32 18, i32 21, i32 24, i32 27, i32 30, i32 33, i32 36, i32 39, i32 42, i32 45, i32 48, i32 51, i32 54, i32 57, i32 60, i32 63, i32 66, i32 69, i32 72, i32 75, i32 78, i32 81, i32 84, i32 87, i32 90, i32 93, i32 96, i32 99, i32 102, i32 105, i32 108, i32 111, i32 114, i32 117, i32 120, i32 123, i32 126, i32 129, i32 132, i32 135, i32 138, i32 141, i32 144, i32 147, i32 150, i32 153, i32 156, i32 159, i32 162, i32 165, i32 168, i32 171, i32 174, i32 177, i32 180, i32 183, i32 186, i32 189, i32 192, i32 195, i32 198, i32 201, i32 204, i32 207, i32 210, i32 213, i32 216, i32 219, i32 222, i32 225, i32 228, i32 231, i32 234, i32 237, i32 240, i32 243, i32 246, i32 249, i32 252, i32 255, i32 258, i32 261, i32 264, i32 267, i32 270, i32 273, i32 276, i32 279, i32 282, i32 285, i32 288, i32 291, i32 294, i32 297) ret i32 %r } ~
~
exit 150~
0
====
# A hundred thousand blocks of the heap, one after the other.
define i32 @main() { br label %l l: %i = phi i32 [ 0, %0 ], [ %j, %l ] %p = call ptr @malloc(i64 1) call void @free(ptr %p) %j = add i32 %i, 1 %c = icmp ult i32 %j, 100000 br i1 %c, label %l, label %e e: %a = ptrtoint ptr %p to i64 %b = sub i64 %a, 124244813938688 %d = trunc i64 %b to i32 ret i32 %d }~
~
exit 1599984~
0
====
# And as many that stay, of which the first is read at the end.
define i32 @main() { %q = call ptr @malloc(i64 1) store i8 3, ptr %q br label %l l: %i = phi i32 [ 0, %0 ], [ %j, %l ] %p = call ptr @malloc(i64 1) store i8 4, ptr %p %j = add i32 %i, 1 %c = icmp ult i32 %j, 100000 br i1 %c, label %l, label %e e: %v = load i8, ptr %q %w = load i8, ptr %p %x = add i8 %v, %w %y = zext i8 %x to i32 ret i32 %y }~
~
exit 7~
0
====
"#;

/// Named types grow.
/// Named types of which each has the one before it twice.
static TYPES: &[u8] =
    br#"%a0 = type { } %a1 = type { %a0, %a0 } %a2 = type { %a1, %a1 } %a3 = type { %a2, %a2 } %a4 = type { %a3, %a3 } %a5 = type { %a4, %a4 } %a6 = type { %a5, %a5 } %a7 = type { %a6, %a6 } %a8 = type { %a7, %a7 } %a9 = type { %a8, %a8 } %a10 = type { %a9, %a9 } %a11 = type { %a10, %a10 } %a12 = type { %a11, %a11 } %a13 = type { %a12, %a12 } %a14 = type { %a13, %a13 } %a15 = type { %a14, %a14 } %a16 = type { %a15, %a15 } %a17 = type { %a16, %a16 } %a18 = type { %a17, %a17 } %a19 = type { %a18, %a18 } %a20 = type { %a19, %a19 } %a21 = type { %a20, %a20 } %a22 = type { %a21, %a21 } %a23 = type { %a22, %a22 } %a24 = type { %a23, %a23 } %a25 = type { %a24, %a24 } %a26 = type { %a25, %a25 } %a27 = type { %a26, %a26 } %a28 = type { %a27, %a27 } %a29 = type { %a28, %a28 } %a30 = type { %a29, %a29 } %a31 = type { %a30, %a30 } define i32 @main() { %p = alloca %a31 %q = getelementptr %a31, ptr null, i64 5 %a = ptrtoint ptr %q to i32 ret i32 %a }~
~
exit 0~
0
====
%a0 = type { i8 } %a1 = type { %a0, %a0 } %a2 = type { %a1, %a1 } %a3 = type { %a2, %a2 } %a4 = type { %a3, %a3 } %a5 = type { %a4, %a4 } %a6 = type { %a5, %a5 } %a7 = type { %a6, %a6 } %a8 = type { %a7, %a7 } %a9 = type { %a8, %a8 } %a10 = type { %a9, %a9 } %a11 = type { %a10, %a10 } %a12 = type { %a11, %a11 } %a13 = type { %a12, %a12 } %a14 = type { %a13, %a13 } %a15 = type { %a14, %a14 } %a16 = type { %a15, %a15 } %a17 = type { %a16, %a16 } %a18 = type { %a17, %a17 } %a19 = type { %a18, %a18 } %a20 = type { %a19, %a19 } %a21 = type { %a20, %a20 } %a22 = type { %a21, %a21 } %a23 = type { %a22, %a22 } %a24 = type { %a23, %a23 } %a25 = type { %a24, %a24 } %a26 = type { %a25, %a25 } define i32 @main() { %q = getelementptr %a26, ptr null, i64 1 %a = ptrtoint ptr %q to i32 ret i32 %a }~
~
exit 67108864~
0
====
%a0 = type { i8 } %a1 = type { %a0, %a0 } %a2 = type { %a1, %a1 } %a3 = type { %a2, %a2 } %a4 = type { %a3, %a3 } %a5 = type { %a4, %a4 } %a6 = type { %a5, %a5 } %a7 = type { %a6, %a6 } %a8 = type { %a7, %a7 } %a9 = type { %a8, %a8 } %a10 = type { %a9, %a9 } %a11 = type { %a10, %a10 } %a12 = type { %a11, %a11 } %a13 = type { %a12, %a12 } %a14 = type { %a13, %a13 } %a15 = type { %a14, %a14 } %a16 = type { %a15, %a15 } %a17 = type { %a16, %a16 } %a18 = type { %a17, %a17 } %a19 = type { %a18, %a18 } %a20 = type { %a19, %a19 } %a21 = type { %a20, %a20 } %a22 = type { %a21, %a21 } %a23 = type { %a22, %a22 } %a24 = type { %a23, %a23 } %a25 = type { %a24, %a24 } define i32 @main() { %q = getelementptr %a25, ptr null, i64 -1, i32 1, i32 1, i32 0, i32 1 %a = ptrtoint ptr %q to i32 ret i32 %a }~
~
exit 4288675840~
0
====
%a0 = type { i8 } %a1 = type { %a0, %a0 } %a2 = type { %a1, %a1 } %a3 = type { %a2, %a2 } %a4 = type { %a3, %a3 } %a5 = type { %a4, %a4 } %a6 = type { %a5, %a5 } %a7 = type { %a6, %a6 } %a8 = type { %a7, %a7 } %a9 = type { %a8, %a8 } %a10 = type { %a9, %a9 } %a11 = type { %a10, %a10 } %a12 = type { %a11, %a11 } %a13 = type { %a12, %a12 } %a14 = type { %a13, %a13 } %a15 = type { %a14, %a14 } %a16 = type { %a15, %a15 } %a17 = type { %a16, %a16 } %a18 = type { %a17, %a17 } %a19 = type { %a18, %a18 } define i32 @main() { %p = alloca %a19 %q = getelementptr %a19, ptr %p, i64 0, i32 1 %v = load i8, ptr %q %w = zext i8 %v to i32 ret i32 %w }~
~
exit 165~
0
====
"#;

impl Row for Long {
    fn call(&self) -> Call<'static> {
        let wanted = closed(b"", 0, self.4, self.5);
        Call {
            piece: self.1.as_bytes(),
            times: self.2,
            tail: self.3.as_bytes(),
            ..on_text("run f", self.0.as_bytes(), wanted)
        }
    }
}

impl Told for Printing {
    const FIELDS: usize = 4;

    fn told(text: &'static str) -> Option<Printing> {
        let [module, letters, end, status, _, _] = fields_of(text);
        Some(Printing(module, letters.parse().ok()?, end, status.parse().ok()?))
    }
}

impl Row for Printing {
    fn call(&self) -> Call<'static> {
        let wanted = closed(b"", self.1, self.2, self.3);
        Call {
            out: MORE,
            ..on_text("run f", self.0.as_bytes(), wanted)
        }
    }
}

#[test]
fn outputs_end(rt: HostRuntime) -> Result<(), Fail> {
    assert!(rt; all_told::<_, Printing>(&rt, rt.alloc(), &[OUTPUTS]));
    Ok(())
}

#[test]
fn long_texts_and_frames_end(rt: HostRuntime) -> Result<(), Fail> {
    assert!(rt;
        all_agree(&rt, rt.alloc(), &[&TEXTS])
            && all_told::<_, Run>(&rt, rt.alloc(), &[FRAMES, TYPES])
    );
    Ok(())
}
