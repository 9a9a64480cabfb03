//! Runs that compute with words of many widths, and with undefined ones.

use ms_top_rows::calls::all_agree;
use ms_top_rows::modules::{Given, Run};
use ms_top_rows::told::all_told_runs;
use std::test::Fail;

/// Words keep their width.
static BITS: &[u8] =
    br#"define i32 @main() { %r = and i8 12, 10 %v = zext i8 %r to i32 ret i32 %v }~
~
exit 8~
0
====
define i32 @main() { %r = or i8 12, 10 %v = zext i8 %r to i32 ret i32 %v }~
~
exit 14~
0
====
define i32 @main() { %r = xor i8 12, 10 %v = zext i8 %r to i32 ret i32 %v }~
~
exit 6~
0
====
define i32 @main() { %r = xor i1 true, true %v = zext i1 %r to i32 ret i32 %v }~
~
exit 0~
0
====
define i32 @main() { %r = and i33 4294967296, -1 %v = trunc i33 %r to i32 ret i32 %v }~
~
exit 0~
0
====
define i32 @main() { %r = xor i64 -1, -2 %v = trunc i64 %r to i32 ret i32 %v }~
~
exit 1~
0
====
define i32 @main() { %r = add i7 127, 2 %v = zext i7 %r to i32 ret i32 %v }~
~
exit 1~
0
====
define i32 @main() { %r = mul i64 4294967296, 4294967296 %v = trunc i64 %r to i32 ret i32 %v }~
~
exit 0~
0
====
define i32 @main() { %r = sub i1 false, true %v = zext i1 %r to i32 ret i32 %v }~
~
exit 1~
0
====
define i32 @main() { %r = add i64 9223372036854775807, 9223372036854775810 %v = trunc i64 %r to i32 ret i32 %v }~
~
exit 1~
0
====
"#;

/// Words are compared.
/// 200 is above 100 without a sign, and below it with one.
static COMPARISONS: &[u8] =
    br#"define i32 @main() { %r = icmp eq i8 -56, 200 %v = zext i1 %r to i32 ret i32 %v }~
~
exit 1~
0
====
define i32 @main() { %r = icmp ne i8 -56, 200 %v = zext i1 %r to i32 ret i32 %v }~
~
exit 0~
0
====
define i32 @main() { %r = icmp ugt i8 200, 100 %v = zext i1 %r to i32 ret i32 %v }~
~
exit 1~
0
====
define i32 @main() { %r = icmp uge i8 100, 200 %v = zext i1 %r to i32 ret i32 %v }~
~
exit 0~
0
====
define i32 @main() { %r = icmp ult i8 200, 100 %v = zext i1 %r to i32 ret i32 %v }~
~
exit 0~
0
====
define i32 @main() { %r = icmp ule i8 100, 200 %v = zext i1 %r to i32 ret i32 %v }~
~
exit 1~
0
====
define i32 @main() { %r = icmp sgt i8 200, 100 %v = zext i1 %r to i32 ret i32 %v }~
~
exit 0~
0
====
define i32 @main() { %r = icmp sge i8 100, 200 %v = zext i1 %r to i32 ret i32 %v }~
~
exit 1~
0
====
define i32 @main() { %r = icmp slt i8 200, 100 %v = zext i1 %r to i32 ret i32 %v }~
~
exit 1~
0
====
define i32 @main() { %r = icmp sle i8 100, 200 %v = zext i1 %r to i32 ret i32 %v }~
~
exit 0~
0
====
# Equal words.
define i32 @main() { %r = icmp uge i8 7, 7 %v = zext i1 %r to i32 ret i32 %v }~
~
exit 1~
0
====
define i32 @main() { %r = icmp sle i8 7, 7 %v = zext i1 %r to i32 ret i32 %v }~
~
exit 1~
0
====
define i32 @main() { %r = icmp ugt i8 7, 7 %v = zext i1 %r to i32 ret i32 %v }~
~
exit 0~
0
====
define i32 @main() { %r = icmp slt i8 7, 7 %v = zext i1 %r to i32 ret i32 %v }~
~
exit 0~
0
====
# One bit: 1 is -1.
define i32 @main() { %r = icmp slt i1 true, false %v = zext i1 %r to i32 ret i32 %v }~
~
exit 1~
0
====
define i32 @main() { %r = icmp ugt i1 true, false %v = zext i1 %r to i32 ret i32 %v }~
~
exit 1~
0
====
# Pointers are numbers of 64 bits.
define i32 @main() { %r = icmp eq ptr null, null %v = zext i1 %r to i32 ret i32 %v }~
~
exit 1~
0
====
define i32 @main() { %p = inttoptr i64 -1 to ptr %r = icmp sgt ptr %p, null %s = icmp ugt ptr %p, null %t = zext i1 %r to i32 %u = zext i1 %s to i32 %v = mul i32 %t, 10 %w = add i32 %u, %v ret i32 %w }~
~
exit 1~
0
====
@g = global i8 0 @h = global i8 0 define i32 @main() { %r = icmp ult ptr @g, @h %v = zext i1 %r to i32 ret i32 %v }~
~
exit 1~
0
====
"#;

/// Words are cast.
static CASTS: &[u8] =
    br#"define i32 @main() { %r = trunc i64 4294967297 to i33 %v = trunc i33 %r to i32 ret i32 %v }~
~
exit 1~
0
====
define i32 @main() { %r = trunc i8 2 to i1 %v = zext i1 %r to i32 ret i32 %v }~
~
exit 0~
0
====
define i32 @main() { %r = zext i1 true to i8 %v = zext i8 %r to i32 ret i32 %v }~
~
exit 1~
0
====
define i32 @main() { %r = sext i1 true to i8 %v = zext i8 %r to i32 ret i32 %v }~
~
exit 255~
0
====
define i32 @main() { %r = sext i7 64 to i32 ret i32 %r }~
~
exit 4294967232~
0
====
define i32 @main() { %r = zext i7 64 to i32 ret i32 %r }~
~
exit 64~
0
====
define i32 @main() { %r = sext i24 -2 to i64 %v = trunc i64 %r to i32 ret i32 %v }~
~
exit 4294967294~
0
====
define i32 @main() { %r = sext i8 127 to i16 %v = zext i16 %r to i32 ret i32 %v }~
~
exit 127~
0
====
define i32 @main() { %r = bitcast i32 5 to i32 ret i32 %r }~
~
exit 5~
0
====
define i32 @main() { %r = bitcast ptr null to ptr %v = ptrtoint ptr %r to i32 ret i32 %v }~
~
exit 0~
0
====
define i32 @main() { %r = inttoptr i8 -1 to ptr %v = ptrtoint ptr %r to i32 ret i32 %v }~
~
exit 255~
0
====
define i32 @main() { %r = inttoptr i64 4294967301 to ptr %v = ptrtoint ptr %r to i32 ret i32 %v }~
~
exit 5~
0
====
# A narrower number has the low bits of the address; the first global stands at 0x700000000000.
@g = global i8 0 define i32 @main() { %r = ptrtoint ptr @g to i48 %s = lshr i48 %r, 40 %v = trunc i48 %s to i32 ret i32 %v }~
~
exit 112~
0
====
@g = global i8 0 define i32 @main() { %r = ptrtoint ptr @g to i44 %v = trunc i44 %r to i32 ret i32 %v }~
~
exit 0~
0
====
"#;

/// Words are chosen.
static CHOICES: &[u8] = br#"define i32 @main() { %r = select i1 true, i32 6, i32 4 ret i32 %r }~
~
exit 6~
0
====
define i32 @main() { %r = select i1 false, i32 6, i32 4 ret i32 %r }~
~
exit 4~
0
====
@g = global i32 5 define i32 @main() { %p = select i1 false, ptr null, ptr @g %v = load i32, ptr %p ret i32 %v }~
~
exit 5~
0
====
define i32 @main() { %r = freeze i32 5 ret i32 %r }~
~
exit 5~
0
====
define i32 @main() { %r = freeze ptr null %v = ptrtoint ptr %r to i32 ret i32 %v }~
~
exit 0~
0
====
"#;

/// Undefined words are the fill.
/// Each byte of an undefined word is a5, which has the bits 10100101; `poison` is such a word too.
static UNDEFINED: &[u8] = br#"define i32 @main() { %r = freeze i32 undef ret i32 %r }~
~
exit 2779096485~
0
====
define i32 @main() { %r = freeze i32 poison ret i32 %r }~
~
exit 2779096485~
0
====
define i32 @main() { %r = freeze i8 undef %v = zext i8 %r to i32 ret i32 %v }~
~
exit 165~
0
====
define i32 @main() { %r = freeze i1 undef %v = zext i1 %r to i32 ret i32 %v }~
~
exit 1~
0
====
define i32 @main() { %r = freeze i7 undef %v = zext i7 %r to i32 ret i32 %v }~
~
exit 37~
0
====
define i32 @main() { %r = freeze i12 undef %v = zext i12 %r to i32 ret i32 %v }~
~
exit 1445~
0
====
define i32 @main() { %r = freeze i33 undef %v = trunc i33 %r to i32 ret i32 %v }~
~
exit 2779096485~
0
====
define i32 @main() { %r = freeze i33 undef %s = lshr i33 %r, 32 %v = trunc i33 %s to i32 ret i32 %v }~
~
exit 1~
0
====
define i32 @main() { %r = freeze ptr undef %s = ptrtoint ptr %r to i64 %t = lshr i64 %s, 32 %v = trunc i64 %t to i32 ret i32 %v }~
~
exit 2779096485~
0
====
define i32 @main() { %r = select i1 undef, i32 6, i32 4 ret i32 %r }~
~
exit 6~
0
====
define i32 @main() { %r = xor i32 undef, undef ret i32 %r }~
~
exit 0~
0
====
define i32 @main() { %r = add i8 undef, poison %v = zext i8 %r to i32 ret i32 %v }~
~
exit 74~
0
====
define i32 @main() { %r = icmp eq i8 undef, -91 %v = zext i1 %r to i32 ret i32 %v }~
~
exit 1~
0
====
define i32 @main() { br i1 undef, label %a, label %b a: ret i32 1 b: ret i32 2 }~
~
exit 1~
0
====
define i32 @main() { br label %a a: %v = phi i32 [ undef, %0 ] ret i32 %v }~
~
exit 2779096485~
0
====
define i32 @main() { %v = call i32 @f(i8 undef) ret i32 %v } define i32 @f(i8 %a) { %v = zext i8 %a to i32 ret i32 %v }~
~
exit 165~
0
====
"#;

/// Fills are gone through.
/// Bit i of an undefined word is a bit of the fill; each word begins with the first byte, and does not move on the fill of memory.
static FILLS: [Given; 10] = [
    Given(
        b"",
        "a501",
        10000000,
        Run(
            "define i32 @main() { %r = freeze i12 undef %v = zext i12 %r to i32 ret i32 %v }",
            b"",
            "exit 421",
            0,
        ),
    ),
    Given(
        b"",
        "0102030405",
        10000000,
        Run(
            "define i32 @main() { %r = freeze i32 undef ret i32 %r }",
            b"",
            "exit 67305985",
            0,
        ),
    ),
    Given(
        b"",
        "0102",
        10000000,
        Run(
            "define i32 @main() { %r = freeze i24 undef %v = zext i24 %r to i32 ret i32 %v }",
            b"",
            "exit 66049",
            0,
        ),
    ),
    Given(
        b"",
        "0102",
        10000000,
        Run(
            "define i32 @main() { %a = freeze i8 undef %p = alloca i8 %b = freeze i8 undef %c = load i8, ptr %p %d = add i8 %a, %b %e = add i8 %d, %c %f = zext i8 %e to i32 ret i32 %f }",
            b"",
            "exit 3",
            0,
        ),
    ),
    // Memory takes the fill byte by byte in the order in which it is made: four bytes for 24 bits, 01 02 03 01, and then 02 03.
    Given(
        b"",
        "010203",
        10000000,
        Run(
            "define i32 @main() { %p = alloca i24 %q = call ptr @malloc(i64 2) %a = load i8, ptr %p %b = load i16, ptr %q %c = zext i8 %a to i32 %d = zext i16 %b to i32 %e = mul i32 %c, 100000 %f = add i32 %d, %e ret i32 %f }",
            b"",
            "exit 100770",
            0,
        ),
    ),
    // What is refused makes no bytes, nor does what is zero.
    Given(
        b"",
        "010203",
        10000000,
        Run(
            "define i32 @main() { %p = call ptr @malloc(i64 67108865) %q = call ptr @calloc(i64 5, i64 1) %r = call ptr @malloc(i64 1) %v = load i8, ptr %r %w = zext i8 %v to i32 ret i32 %w }",
            b"",
            "exit 1",
            0,
        ),
    ),
    // The second block is made whole, 03 and 01, before the old bytes are put over it; the next byte is 02.
    Given(
        b"",
        "010203",
        10000000,
        Run(
            "define i32 @main() { %p = call ptr @malloc(i64 2) %q = call ptr @realloc(ptr %p, i64 2) %a = load i16, ptr %q %r = call ptr @malloc(i64 1) %b = load i8, ptr %r %c = zext i16 %a to i32 %d = zext i8 %b to i32 %e = mul i32 %d, 1000 %f = add i32 %c, %e ret i32 %f }",
            b"",
            "exit 2513",
            0,
        ),
    ),
    // A lifetime that begins makes its bytes anew: after 01 02 03 the first two are 04 01.
    Given(
        b"",
        "01020304",
        10000000,
        Run(
            "define i32 @main() { %p = alloca [3 x i8] call void @llvm.lifetime.start.p0(i64 2, ptr %p) %q = getelementptr i8, ptr %p, i64 1 %a = load i16, ptr %q %b = zext i16 %a to i32 ret i32 %b }",
            b"",
            "exit 769",
            0,
        ),
    ),
    Given(
        b"",
        "010203",
        10000000,
        Run(
            "define i32 @main() { %p = alloca i8 call void @llvm.lifetime.end.p0(i64 1, ptr %p) %q = alloca i8 %a = load i8, ptr %q %b = zext i8 %a to i32 ret i32 %b }",
            b"",
            "exit 2",
            0,
        ),
    ),
    // A frame that returns gives its bytes back, and not their numbers.
    Given(
        b"",
        "010203",
        10000000,
        Run(
            "define i32 @main() { %a = call i32 @f() %b = call i32 @f() %c = mul i32 %a, 10 %d = add i32 %c, %b ret i32 %d } define i32 @f() { %p = alloca i8 %v = load i8, ptr %p %w = zext i8 %v to i32 ret i32 %w }",
            b"",
            "exit 12",
            0,
        ),
    ),
];

#[test]
fn words_are_computed(rt: HostRuntime) -> Result<(), Fail> {
    assert!(rt;
        all_told_runs(
            &rt,
            rt.alloc(),
            &[BITS, COMPARISONS, CASTS, CHOICES, UNDEFINED]
        ) && all_agree(&rt, rt.alloc(), &[&FILLS])
    );
    Ok(())
}
