//! Runs that trap, by each cause and its place, and runs in which the same instructions don't.

use ms_top_rows::told::all_told_runs;
use std::test::Fail;

/// Shifts stay below the width.
static SHIFTS: &[u8] = br#"define i32 @main() { %r = shl i8 1, 8 ret i32 0 }~
~
trap shift at site 1 in @main~
3
====
define i32 @main() { %r = lshr i8 1, 8 ret i32 0 }~
~
trap shift at site 1 in @main~
3
====
define i32 @main() { %r = ashr i8 -1, -1 ret i32 0 }~
~
trap shift at site 1 in @main~
3
====
define i32 @main() { %r = shl i33 1, 33 ret i32 0 }~
~
trap shift at site 1 in @main~
3
====
define i32 @main() { %r = lshr i64 1, 64 ret i32 0 }~
~
trap shift at site 1 in @main~
3
====
define i32 @main() { %r = ashr i1 true, true ret i32 0 }~
~
trap shift at site 1 in @main~
3
====
# One place less is good.
define i32 @main() { %r = shl i8 1, 7 %v = zext i8 %r to i32 ret i32 %v }~
~
exit 128~
0
====
define i32 @main() { %r = lshr i8 -128, 7 %v = zext i8 %r to i32 ret i32 %v }~
~
exit 1~
0
====
define i32 @main() { %r = ashr i8 -128, 7 %v = zext i8 %r to i32 ret i32 %v }~
~
exit 255~
0
====
define i32 @main() { %r = lshr i64 -1, 63 %v = trunc i64 %r to i32 ret i32 %v }~
~
exit 1~
0
====
define i32 @main() { %r = shl i1 true, false %v = zext i1 %r to i32 ret i32 %v }~
~
exit 1~
0
====
"#;

/// Divisors are tested.
static DIVISIONS: &[u8] = br#"define i32 @main() { %r = udiv i8 1, 0 ret i32 0 }~
~
trap zero-divisor at site 1 in @main~
3
====
define i32 @main() { %r = sdiv i8 1, 0 ret i32 0 }~
~
trap zero-divisor at site 1 in @main~
3
====
define i32 @main() { %r = urem i8 1, 0 ret i32 0 }~
~
trap zero-divisor at site 1 in @main~
3
====
define i32 @main() { %r = srem i64 1, 0 ret i32 0 }~
~
trap zero-divisor at site 1 in @main~
3
====
# The least number by -1, and at one bit -1 is the least number.
define i32 @main() { %r = sdiv i8 -128, -1 ret i32 0 }~
~
trap overflow at site 1 in @main~
3
====
define i32 @main() { %r = srem i8 -128, -1 ret i32 0 }~
~
trap overflow at site 1 in @main~
3
====
define i32 @main() { %r = sdiv i64 -9223372036854775808, -1 ret i32 0 }~
~
trap overflow at site 1 in @main~
3
====
define i32 @main() { %r = srem i1 true, true ret i32 0 }~
~
trap overflow at site 1 in @main~
3
====
# Rounded towards zero, and a remainder has the sign of the dividend.
define i32 @main() { %r = sdiv i8 -128, 2 %v = zext i8 %r to i32 ret i32 %v }~
~
exit 192~
0
====
define i32 @main() { %r = sdiv i32 -7, 2 ret i32 %r }~
~
exit 4294967293~
0
====
define i32 @main() { %r = srem i32 -7, 2 ret i32 %r }~
~
exit 4294967295~
0
====
define i32 @main() { %r = srem i32 7, -2 ret i32 %r }~
~
exit 1~
0
====
define i32 @main() { %r = udiv i8 -128, -1 %v = zext i8 %r to i32 ret i32 %v }~
~
exit 0~
0
====
define i32 @main() { %r = udiv i8 -1, 2 %v = zext i8 %r to i32 ret i32 %v }~
~
exit 127~
0
====
define i32 @main() { %r = urem i32 -7, 2 ret i32 %r }~
~
exit 1~
0
====
define i32 @main() { %r = sdiv i1 false, true %v = zext i1 %r to i32 ret i32 %v }~
~
exit 0~
0
====
"#;

/// Sums and shifts keep their flags.
static SUMS: &[u8] = br#"define i32 @main() { %1 = add nsw i32 2147483647, 1 ret i32 0 }~
~
trap nsw at site 1 in @main~
3
====
define i32 @main() { %r = add nuw i8 -1, 1 ret i32 0 }~
~
trap nuw at site 1 in @main~
3
====
define i32 @main() { %r = sub nuw i8 0, 1 ret i32 0 }~
~
trap nuw at site 1 in @main~
3
====
define i32 @main() { %r = mul nuw i8 16, 16 ret i32 0 }~
~
trap nuw at site 1 in @main~
3
====
define i32 @main() { %r = shl nuw i8 -128, 1 ret i32 0 }~
~
trap nuw at site 1 in @main~
3
====
define i32 @main() { %r = trunc nuw i16 256 to i8 ret i32 0 }~
~
trap nuw at site 1 in @main~
3
====
define i32 @main() { %r = add nsw i8 127, 1 ret i32 0 }~
~
trap nsw at site 1 in @main~
3
====
define i32 @main() { %r = sub nsw i8 -128, 1 ret i32 0 }~
~
trap nsw at site 1 in @main~
3
====
define i32 @main() { %r = mul nsw i8 -128, -1 ret i32 0 }~
~
trap nsw at site 1 in @main~
3
====
define i32 @main() { %r = shl nsw i8 64, 1 ret i32 0 }~
~
trap nsw at site 1 in @main~
3
====
define i32 @main() { %r = trunc nsw i16 128 to i8 ret i32 0 }~
~
trap nsw at site 1 in @main~
3
====
# The flags that hold.
define i32 @main() { %r = add nuw i8 -2, 1 %v = zext i8 %r to i32 ret i32 %v }~
~
exit 255~
0
====
define i32 @main() { %r = add nsw i8 127, -128 %v = zext i8 %r to i32 ret i32 %v }~
~
exit 255~
0
====
define i32 @main() { %r = sub nuw nsw i8 5, 5 %v = zext i8 %r to i32 ret i32 %v }~
~
exit 0~
0
====
define i32 @main() { %r = mul nsw i8 -64, 2 %v = zext i8 %r to i32 ret i32 %v }~
~
exit 128~
0
====
define i32 @main() { %r = mul nuw i8 15, 17 %v = zext i8 %r to i32 ret i32 %v }~
~
exit 255~
0
====
define i32 @main() { %r = shl nsw i8 -64, 1 %v = zext i8 %r to i32 ret i32 %v }~
~
exit 128~
0
====
define i32 @main() { %r = shl nuw i8 127, 1 %v = zext i8 %r to i32 ret i32 %v }~
~
exit 254~
0
====
define i32 @main() { %r = trunc nsw i16 -128 to i8 %v = zext i8 %r to i32 ret i32 %v }~
~
exit 128~
0
====
define i32 @main() { %r = trunc nuw i16 255 to i8 %v = zext i8 %r to i32 ret i32 %v }~
~
exit 255~
0
====
# Without a flag each is cut.
define i32 @main() { %r = add i8 -1, 2 %v = zext i8 %r to i32 ret i32 %v }~
~
exit 1~
0
====
define i32 @main() { %r = sub i33 0, 1 %v = trunc i33 %r to i32 ret i32 %v }~
~
exit 4294967295~
0
====
define i32 @main() { %r = mul i8 16, 17 %v = zext i8 %r to i32 ret i32 %v }~
~
exit 16~
0
====
define i32 @main() { %r = shl i8 -1, 4 %v = zext i8 %r to i32 ret i32 %v }~
~
exit 240~
0
====
define i32 @main() { %r = trunc i16 -2 to i8 %v = zext i8 %r to i32 ret i32 %v }~
~
exit 254~
0
====
"#;

/// Other flags are kept.
static OTHER_FLAGS: &[u8] = br#"define i32 @main() { %r = udiv exact i8 7, 2 ret i32 0 }~
~
trap exact at site 1 in @main~
3
====
define i32 @main() { %r = sdiv exact i8 -7, 2 ret i32 0 }~
~
trap exact at site 1 in @main~
3
====
define i32 @main() { %r = lshr exact i8 1, 1 ret i32 0 }~
~
trap exact at site 1 in @main~
3
====
define i32 @main() { %r = ashr exact i8 -1, 1 ret i32 0 }~
~
trap exact at site 1 in @main~
3
====
define i32 @main() { %r = or disjoint i8 3, 6 ret i32 0 }~
~
trap disjoint at site 1 in @main~
3
====
define i32 @main() { %r = zext nneg i8 -1 to i16 ret i32 0 }~
~
trap nneg at site 1 in @main~
3
====
define i32 @main() { %r = icmp samesign eq i8 -1, 1 ret i32 0 }~
~
trap samesign at site 1 in @main~
3
====
define i32 @main() { %r = icmp samesign ult i64 0, -1 ret i32 0 }~
~
trap samesign at site 1 in @main~
3
====
define i32 @main() { %r = udiv exact i8 6, 2 %v = zext i8 %r to i32 ret i32 %v }~
~
exit 3~
0
====
define i32 @main() { %r = sdiv exact i8 -6, 2 %v = zext i8 %r to i32 ret i32 %v }~
~
exit 253~
0
====
define i32 @main() { %r = lshr exact i8 -128, 7 %v = zext i8 %r to i32 ret i32 %v }~
~
exit 1~
0
====
define i32 @main() { %r = ashr exact i8 -128, 7 %v = zext i8 %r to i32 ret i32 %v }~
~
exit 255~
0
====
define i32 @main() { %r = or disjoint i8 5, 10 %v = zext i8 %r to i32 ret i32 %v }~
~
exit 15~
0
====
define i32 @main() { %r = zext nneg i8 127 to i16 %v = zext i16 %r to i32 ret i32 %v }~
~
exit 127~
0
====
define i32 @main() { %r = icmp samesign ult i8 -1, -2 %v = zext i1 %r to i32 ret i32 %v }~
~
exit 0~
0
====
define i32 @main() { %r = icmp samesign slt i8 -2, -1 %v = zext i1 %r to i32 ret i32 %v }~
~
exit 1~
0
====
"#;

/// The first cause is named.
/// Where two causes meet in one instruction, the first in the order of tests is named.
static TWO_CAUSES: &[u8] = br#"define i32 @main() { %r = add nuw nsw i8 -1, -128 ret i32 0 }~
~
trap nuw at site 1 in @main~
3
====
define i32 @main() { %r = sub nsw nuw i8 0, -128 ret i32 0 }~
~
trap nuw at site 1 in @main~
3
====
define i32 @main() { %r = mul nuw nsw i8 127, 127 ret i32 0 }~
~
trap nuw at site 1 in @main~
3
====
define i32 @main() { %r = shl nuw nsw i8 -127, 1 ret i32 0 }~
~
trap nuw at site 1 in @main~
3
====
define i32 @main() { %r = trunc nuw nsw i16 256 to i8 ret i32 0 }~
~
trap nuw at site 1 in @main~
3
====
define i32 @main() { %r = shl nuw nsw i8 -1, 9 ret i32 0 }~
~
trap shift at site 1 in @main~
3
====
define i32 @main() { %r = lshr exact i8 1, 8 ret i32 0 }~
~
trap shift at site 1 in @main~
3
====
define i32 @main() { %r = ashr exact i8 1, 8 ret i32 0 }~
~
trap shift at site 1 in @main~
3
====
define i32 @main() { %r = udiv exact i8 1, 0 ret i32 0 }~
~
trap zero-divisor at site 1 in @main~
3
====
define i32 @main() { %r = sdiv i8 -128, 0 ret i32 0 }~
~
trap zero-divisor at site 1 in @main~
3
====
define i32 @main() { %r = sdiv exact i8 -128, 0 ret i32 0 }~
~
trap zero-divisor at site 1 in @main~
3
====
define i32 @main() { %r = sdiv exact i8 -128, -1 ret i32 0 }~
~
trap overflow at site 1 in @main~
3
====
# Only the second cause.
define i32 @main() { %r = add nuw nsw i8 127, 1 ret i32 0 }~
~
trap nsw at site 1 in @main~
3
====
define i32 @main() { %r = shl nuw nsw i8 64, 1 ret i32 0 }~
~
trap nsw at site 1 in @main~
3
====
define i32 @main() { %r = trunc nuw nsw i16 128 to i8 ret i32 0 }~
~
trap nsw at site 1 in @main~
3
====
"#;

/// Traps have a place.
/// Each in its own function, and by its place in the text of the whole module.
static PLACES: &[u8] = br#"define i32 @main() { %r = load i8, ptr null ret i32 0 }~
~
trap bad-address at site 1 in @main~
3
====
define i32 @main() { store i8 1, ptr null ret i32 0 }~
~
trap bad-address at site 1 in @main~
3
====
define i32 @main() { unreachable }~
~
trap unreachable at site 1 in @main~
3
====
define i32 @f(i32 %a) { %r = udiv i32 1, %a ret i32 %r } define i32 @main() { %a = call i32 @f(i32 1) %b = call i32 @f(i32 0) ret i32 %b }~
~
trap zero-divisor at site 1 in @f~
3
====
define i32 @main() { %a = call i32 @"a b"() ret i32 %a } define i32 @"a b"() { br label %x x: unreachable }~
~
trap unreachable at site 4 in @"a b"~
3
====
# A phi has a site, although it is no step.
define i32 @main() { br label %x x: %p = phi i32 [ 0, %0 ] %q = phi i32 [ 1, %0 ] %r = udiv i32 %q, %p ret i32 %r }~
~
trap zero-divisor at site 4 in @main~
3
====
# What was printed before stays.
define i32 @main() { %a = call i32 @putchar(i32 65) %r = sdiv i32 1, 0 %b = call i32 @putchar(i32 66) ret i32 0 }~
A~
trap zero-divisor at site 2 in @main~
3
====
# An operand that is undefined is read before: its word is a5.
define i32 @main() { %r = udiv i8 1, undef %s = zext i8 %r to i32 ret i32 %s }~
~
exit 0~
0
====
define i32 @main() { %r = lshr i8 1, undef ret i32 0 }~
~
trap shift at site 1 in @main~
3
====
"#;

#[test]
fn traps_are_named(rt: HostRuntime) -> Result<(), Fail> {
    assert!(rt;
        all_told_runs(
            &rt,
            rt.alloc(),
            &[SHIFTS, DIVISIONS, SUMS, OTHER_FLAGS, TWO_CAUSES, PLACES]
        )
    );
    Ok(())
}
