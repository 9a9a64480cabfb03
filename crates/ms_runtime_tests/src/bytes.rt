//! Runs that copy, set, compare and measure bytes, and that begin and end lifetimes.

use ms_top_rows::told::all_told_runs;
use std::test::Fail;

/// Bytes are copied.
/// 287454020 is 0x11223344.
static COPIES: &[u8] =
    br#"define i32 @main() { %s = alloca i32 %t = alloca i32 store i32 287454020, ptr %s %r = call ptr @memcpy(ptr %t, ptr %s, i64 4) %v = load i32, ptr %r ret i32 %v }~
~
exit 287454020~
0
====
define i32 @main() { %s = alloca i32 %t = alloca i32 store i32 287454020, ptr %s %r = call ptr @memmove(ptr %t, ptr %s, i64 4) %v = load i32, ptr %r ret i32 %v }~
~
exit 287454020~
0
====
define i32 @main() { %s = alloca i32 %t = alloca i32 store i32 287454020, ptr %s call void @llvm.memcpy.p0.p0.i64(ptr %t, ptr %s, i64 4, i1 false) %v = load i32, ptr %t ret i32 %v }~
~
exit 287454020~
0
====
define i32 @main() { %s = alloca i32 %t = alloca i32 store i32 287454020, ptr %s call void @llvm.memmove.p0.p0.i64(ptr align 4 %t, ptr align 4 %s, i64 4, i1 false) %v = load i32, ptr %t ret i32 %v }~
~
exit 287454020~
0
====
# Only so many bytes: 0x3344 below a5a5.
define i32 @main() { %s = alloca i32 %t = alloca i32 store i32 287454020, ptr %s %r = call ptr @memcpy(ptr %t, ptr %s, i64 2) %v = load i32, ptr %t ret i32 %v }~
~
exit 2779067204~
0
====
# No bytes are good everywhere, and the target is answered.
define i32 @main() { %r = call ptr @memcpy(ptr null, ptr null, i64 0) %p = inttoptr i64 5 to ptr %s = call ptr @memmove(ptr %p, ptr null, i64 0) call void @llvm.memcpy.p0.p0.i64(ptr null, ptr null, i64 0, i1 false) call void @llvm.memmove.p0.p0.i64(ptr null, ptr null, i64 0, i1 false) %a = ptrtoint ptr %r to i32 %b = ptrtoint ptr %s to i32 %c = add i32 %a, %b ret i32 %c }~
~
exit 5~
0
====
"#;

/// Overlapping bytes are copied as they were.
/// Five bytes 01 to 05: four of them move one place up, to 01 01 02 03 04, or one down, to 02 03 04 05 05.
static OVERLAPS: &[u8] =
    br#"define i32 @main() { %p = alloca i40 store i40 21542142465, ptr %p %q = getelementptr i8, ptr %p, i64 1 %r = call ptr @memcpy(ptr %q, ptr %p, i64 4) %v = load i40, ptr %p %w = icmp eq i40 %v, 17230332161 %x = zext i1 %w to i32 ret i32 %x }~
~
exit 1~
0
====
define i32 @main() { %p = alloca i40 store i40 21542142465, ptr %p %q = getelementptr i8, ptr %p, i64 1 %r = call ptr @memcpy(ptr %p, ptr %q, i64 4) %v = load i40, ptr %p %w = icmp eq i40 %v, 21558985474 %x = zext i1 %w to i32 ret i32 %x }~
~
exit 1~
0
====
define i32 @main() { %p = alloca i40 store i40 21542142465, ptr %p %q = getelementptr i8, ptr %p, i64 1 %r = call ptr @memmove(ptr %q, ptr %p, i64 4) %v = load i40, ptr %p %w = icmp eq i40 %v, 17230332161 %x = zext i1 %w to i32 ret i32 %x }~
~
exit 1~
0
====
define i32 @main() { %p = alloca i40 store i40 21542142465, ptr %p %q = getelementptr i8, ptr %p, i64 1 %r = call ptr @memmove(ptr %p, ptr %q, i64 4) %v = load i40, ptr %p %w = icmp eq i40 %v, 21558985474 %x = zext i1 %w to i32 ret i32 %x }~
~
exit 1~
0
====
define i32 @main() { %p = alloca i40 store i40 21542142465, ptr %p %q = getelementptr i8, ptr %p, i64 1 call void @llvm.memcpy.p0.p0.i64(ptr %q, ptr %p, i64 4, i1 false) %v = load i40, ptr %p %w = icmp eq i40 %v, 17230332161 %x = zext i1 %w to i32 ret i32 %x }~
~
exit 1~
0
====
define i32 @main() { %p = alloca i40 store i40 21542142465, ptr %p %q = getelementptr i8, ptr %p, i64 1 call void @llvm.memmove.p0.p0.i64(ptr %p, ptr %q, i64 4, i1 false) %v = load i40, ptr %p %w = icmp eq i40 %v, 21558985474 %x = zext i1 %w to i32 ret i32 %x }~
~
exit 1~
0
====
"#;

/// Copies reach one allocation.
static BAD_COPIES: &[u8] =
    br#"define i32 @main() { %s = alloca i32 %t = alloca i16 %r = call ptr @memcpy(ptr %t, ptr %s, i64 3) ret i32 0 }~
~
trap bad-address at site 3 in @main~
3
====
define i32 @main() { %s = alloca i16 %t = alloca i32 %r = call ptr @memcpy(ptr %t, ptr %s, i64 3) ret i32 0 }~
~
trap bad-address at site 3 in @main~
3
====
define i32 @main() { %s = alloca i32 %r = call ptr @memmove(ptr null, ptr %s, i64 1) ret i32 0 }~
~
trap bad-address at site 2 in @main~
3
====
define i32 @main() { %s = alloca i32 %r = call ptr @memmove(ptr %s, ptr %s, i64 -1) ret i32 0 }~
~
trap bad-address at site 2 in @main~
3
====
define i32 @main() { %s = alloca i32 call void @llvm.memcpy.p0.p0.i64(ptr %s, ptr null, i64 1, i1 false) ret i32 0 }~
~
trap bad-address at site 2 in @main~
3
====
define i32 @main() { %s = alloca i32 call void @llvm.memmove.p0.p0.i64(ptr null, ptr %s, i64 1, i1 false) ret i32 0 }~
~
trap bad-address at site 2 in @main~
3
====
# Sixteen bytes lie in two blocks of the heap that touch, and not in one.
define i32 @main() { %p = call ptr @malloc(i64 16) %q = call ptr @malloc(i64 16) %s = getelementptr i8, ptr %p, i64 8 %t = alloca [2 x i64] %r = call ptr @memcpy(ptr %t, ptr %s, i64 16) ret i32 0 }~
~
trap bad-address at site 5 in @main~
3
====
"#;

/// Bytes are set.
/// 0x41414141 is 1094795585; 321 is 0x141.
static SETS: &[u8] =
    br#"define i32 @main() { %p = alloca i32 %r = call ptr @memset(ptr %p, i32 65, i64 4) %v = load i32, ptr %r ret i32 %v }~
~
exit 1094795585~
0
====
define i32 @main() { %p = alloca i32 %r = call ptr @memset(ptr %p, i32 321, i64 4) %v = load i32, ptr %p ret i32 %v }~
~
exit 1094795585~
0
====
define i32 @main() { %p = alloca i32 %r = call ptr @memset(ptr %p, i32 -256, i64 4) %v = load i32, ptr %p ret i32 %v }~
~
exit 0~
0
====
# One byte in the middle: a5 a5 ff a5.
define i32 @main() { %p = alloca i32 %q = getelementptr i8, ptr %p, i64 2 call void @llvm.memset.p0.i64(ptr %q, i8 -1, i64 1, i1 false) %v = load i32, ptr %p ret i32 %v }~
~
exit 2784994725~
0
====
define i32 @main() { %r = call ptr @memset(ptr null, i32 1, i64 0) call void @llvm.memset.p0.i64(ptr null, i8 1, i64 0, i1 false) %a = ptrtoint ptr %r to i32 ret i32 %a }~
~
exit 0~
0
====
define i32 @main() { %p = alloca i32 %r = call ptr @memset(ptr %p, i32 0, i64 5) ret i32 0 }~
~
trap bad-address at site 2 in @main~
3
====
define i32 @main() { %p = alloca i32 call void @llvm.memset.p0.i64(ptr %p, i8 0, i64 -1, i1 false) ret i32 0 }~
~
trap bad-address at site 2 in @main~
3
====
"#;

/// Bytes are compared.
static COMPARISONS: &[u8] =
    br#"@a = global [2 x i8] c"ab" @b = global [2 x i8] c"ac" define i32 @main() { %r = call i32 @memcmp(ptr @a, ptr @b, i64 2) ret i32 %r }~
~
exit 4294967295~
0
====
# 80 is above 7f, since bytes have no sign.
@a = global [2 x i8] c"\80a" @b = global [2 x i8] c"\7Fb" define i32 @main() { %r = call i32 @memcmp(ptr @a, ptr @b, i64 2) ret i32 %r }~
~
exit 1~
0
====
@a = global [3 x i8] c"a\00b" @b = global [3 x i8] c"a\00c" define i32 @main() { %r = call i32 @memcmp(ptr @a, ptr @b, i64 2) %s = call i32 @memcmp(ptr @b, ptr @a, i64 3) %t = mul i32 %s, 10 %u = add i32 %r, %t ret i32 %u }~
~
exit 10~
0
====
define i32 @main() { %r = call i32 @memcmp(ptr null, ptr null, i64 0) ret i32 %r }~
~
exit 0~
0
====
# The range is tested also where the first bytes differ.
@a = global [2 x i8] c"ab" @b = global [1 x i8] c"x" define i32 @main() { %r = call i32 @memcmp(ptr @a, ptr @b, i64 2) ret i32 0 }~
~
trap bad-address at site 1 in @main~
3
====
@a = global [1 x i8] c"a" @b = global [2 x i8] c"bx" define i32 @main() { %r = call i32 @memcmp(ptr @a, ptr @b, i64 2) ret i32 0 }~
~
trap bad-address at site 1 in @main~
3
====
"#;

/// Strings are measured.
static LENGTHS: &[u8] =
    br#"@s = global [6 x i8] c"abc\00d\00" define i32 @main() { %n = call i64 @strlen(ptr @s) %a = trunc i64 %n to i32 %m = call i64 @strlen(ptr getelementptr (i8, ptr @s, i64 3)) %b = trunc i64 %m to i32 %o = call i64 @strlen(ptr getelementptr (i8, ptr @s, i64 4)) %c = trunc i64 %o to i32 %d = mul i32 %a, 100 %e = mul i32 %b, 10 %f = add i32 %d, %e %g = add i32 %f, %c ret i32 %g }~
~
exit 301~
0
====
# Unset bytes are no zero bytes.
define i32 @main() { %p = alloca [3 x i8] %q = getelementptr i8, ptr %p, i64 2 store i8 0, ptr %q %n = call i64 @strlen(ptr %p) %a = trunc i64 %n to i32 ret i32 %a }~
~
exit 2~
0
====
# The zero byte must stand in the same allocation: the second global follows the first at once.
@s = global [16 x i8] c"abcdefghijklmnop" @t = global [1 x i8] c"\00" define i32 @main() { %n = call i64 @strlen(ptr @s) ret i32 0 }~
~
trap bad-address at site 1 in @main~
3
====
define i32 @main() { %n = call i64 @strlen(ptr null) ret i32 0 }~
~
trap bad-address at site 1 in @main~
3
====
@s = global [2 x i8] c"a\00" define i32 @main() { %n = call i64 @strlen(ptr getelementptr (i8, ptr @s, i64 2)) ret i32 0 }~
~
trap bad-address at site 1 in @main~
3
====
"#;

/// Lifetimes unset bytes.
static LIFETIMES: &[u8] =
    br#"define i32 @main() { %p = alloca i32 store i32 7, ptr %p call void @llvm.lifetime.start.p0(i64 4, ptr %p) %v = load i32, ptr %p ret i32 %v }~
~
exit 2779096485~
0
====
# Two bytes of four: a5a5.
define i32 @main() { %p = alloca i32 store i32 0, ptr %p call void @llvm.lifetime.start.p0(i64 2, ptr %p) %v = load i32, ptr %p ret i32 %v }~
~
exit 42405~
0
====
define i32 @main() { %p = call ptr @calloc(i64 4, i64 1) call void @llvm.lifetime.start.p0(i64 4, ptr nonnull %p) %v = load i32, ptr %p ret i32 %v }~
~
exit 2779096485~
0
====
define i32 @main() { call void @llvm.lifetime.start.p0(i64 0, ptr null) ret i32 0 }~
~
exit 0~
0
====
define i32 @main() { %p = alloca i32 call void @llvm.lifetime.start.p0(i64 5, ptr %p) ret i32 0 }~
~
trap bad-address at site 2 in @main~
3
====
define i32 @main() { %p = alloca i32 call void @llvm.lifetime.start.p0(i64 -1, ptr %p) ret i32 0 }~
~
trap bad-address at site 2 in @main~
3
====
# An end does nothing, for any range.
define i32 @main() { %p = alloca i32 store i32 7, ptr %p call void @llvm.lifetime.end.p0(i64 4, ptr %p) call void @llvm.lifetime.end.p0(i64 -1, ptr null) %v = load i32, ptr %p ret i32 %v }~
~
exit 7~
0
====
"#;

#[test]
fn bytes_are_moved_and_told(rt: HostRuntime) -> Result<(), Fail> {
    assert!(rt;
        all_told_runs(
            &rt,
            rt.alloc(),
            &[
                COPIES,
                OVERLAPS,
                BAD_COPIES,
                SETS,
                COMPARISONS,
                LENGTHS,
                LIFETIMES
            ]
        )
    );
    Ok(())
}
