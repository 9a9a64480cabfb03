//! Rows of what `check` says of values: comparisons, bits, selections, shifts, phis, carries. Masks, sites and origins were worked out by hand.

/// Comparisons are poisoned where completions differ.
pub static COMPARISONS: &[u8] = br#"check f~
define i32 @main() {
  %1 = alloca i32
  %2 = load i32, ptr %1
  %3 = icmp eq i32 %2, 0
  br i1 %3, label %4, label %5
4:
  ret i32 0
5:
  ret i32 1
}
~
~
report 1: branch at site 4 in @main, part 0, bits 0x1 of i1
  origin 1: alloca at site 1 in @main
end: reported
reports: 1
blind: 0
verdict: poisoned
~
77
====
# A bit that is defined in both words differs.
check f~
define i32 @main() {
  %1 = alloca i32
  %2 = load i32, ptr %1
  %3 = or i32 %2, 1
  %4 = icmp eq i32 %3, 0
  br i1 %4, label %5, label %6
5:
  ret i32 1
6:
  ret i32 0
}
~
~
end: exit 0
reports: 0
blind: 0
verdict: clean
~
0
====
check f~
define i32 @main() {
  %1 = and i32 undef, 256
  %2 = icmp eq i32 %1, 1
  %3 = zext i1 %2 to i32
  ret i32 %3
}
~
~
end: exit 0
reports: 0
blind: 0
verdict: clean
~
0
====
check f~
define i32 @main() {
  %1 = and i32 undef, 256
  %2 = icmp ne i32 %1, 0
  %3 = zext i1 %2 to i32
  ret i32 %3
}
~
~
report 1: exit at site 4 in @main, part 0, bits 0x1 of i32
  origin 1: undef at site 1 in @main
end: reported
reports: 1
blind: 0
verdict: poisoned
~
77
====
# From 32 to 47 nothing is below 16, and some is below 40.
check f~
define i32 @main() {
  %1 = and i8 undef, 15
  %2 = or i8 %1, 32
  %3 = icmp ult i8 %2, 16
  br i1 %3, label %4, label %5
4:
  ret i32 0
5:
  ret i32 1
}
~
~
end: exit 1
reports: 0
blind: 0
verdict: clean
~
0
====
check f~
define i32 @main() {
  %1 = and i8 undef, 15
  %2 = or i8 %1, 32
  %3 = icmp ult i8 %2, 40
  br i1 %3, label %4, label %5
4:
  ret i32 0
5:
  ret i32 1
}
~
~
report 1: branch at site 4 in @main, part 0, bits 0x1 of i1
  origin 1: undef at site 1 in @main
end: reported
reports: 1
blind: 0
verdict: poisoned
~
77
====
# The sign alone is poisoned: 0 or -128.
check f~
define i32 @main() {
  %1 = and i8 undef, -128
  %2 = icmp slt i8 %1, 0
  %3 = zext i1 %2 to i32
  ret i32 %3
}
~
~
report 1: exit at site 4 in @main, part 0, bits 0x1 of i32
  origin 1: undef at site 1 in @main
end: reported
reports: 1
blind: 0
verdict: poisoned
~
77
====
check f~
define i32 @main() {
  %1 = and i8 undef, -128
  %2 = icmp sgt i8 %1, 1
  %3 = zext i1 %2 to i32
  ret i32 %3
}
~
~
end: exit 0
reports: 0
blind: 0
verdict: clean
~
0
====
check f~
define i32 @main() {
  %1 = and i8 undef, -128
  %2 = icmp ugt i8 %1, 1
  %3 = zext i1 %2 to i32
  ret i32 %3
}
~
~
report 1: exit at site 4 in @main, part 0, bits 0x1 of i32
  origin 1: undef at site 1 in @main
end: reported
reports: 1
blind: 0
verdict: poisoned
~
77
====
# No address is below the null pointer.
check f~
define i32 @main() {
  %1 = icmp ult ptr undef, null
  %2 = zext i1 %1 to i32
  ret i32 %2
}
~
~
end: exit 0
reports: 0
blind: 0
verdict: clean
~
0
====
"#;

/// Bits are poisoned one by one.
pub static BITS: &[u8] = br#"check f~
define i32 @main() {
  %1 = alloca i32
  %2 = load i32, ptr %1
  %3 = and i32 %2, 0
  %4 = icmp eq i32 %3, 0
  br i1 %4, label %5, label %6
5:
  ret i32 0
6:
  ret i32 1
}
~
~
end: exit 0
reports: 0
blind: 0
verdict: clean
~
0
====
# Each has a defined 0 where the other is poisoned.
check f~
define i32 @main() {
  %1 = and i32 undef, 255
  %2 = and i32 undef, 65280
  %3 = and i32 %1, %2
  ret i32 %3
}
~
~
end: exit 0
reports: 0
blind: 0
verdict: clean
~
0
====
# The last poisoned operand gives the origin.
check f~
define i32 @main() {
  %1 = and i32 undef, 255
  %2 = and i32 undef, 65280
  %3 = or i32 %1, %2
  ret i32 %3
}
~
~
report 1: exit at site 4 in @main, part 0, bits 0xffff of i32
  origin 2: undef at site 2 in @main
end: reported
reports: 1
blind: 0
verdict: poisoned
~
77
====
check f~
define i32 @main() {
  %1 = and i32 undef, 255
  %2 = and i32 undef, 65280
  %3 = or i32 %2, %1
  ret i32 %3
}
~
~
report 1: exit at site 4 in @main, part 0, bits 0xffff of i32
  origin 1: undef at site 1 in @main
end: reported
reports: 1
blind: 0
verdict: poisoned
~
77
====
check f~
define i32 @main() {
  %1 = and i32 undef, 255
  %2 = and i32 undef, 0
  %3 = xor i32 %1, %2
  ret i32 %3
}
~
~
report 1: exit at site 4 in @main, part 0, bits 0xff of i32
  origin 1: undef at site 1 in @main
end: reported
reports: 1
blind: 0
verdict: poisoned
~
77
====
check f~
define i32 @main() {
  %1 = trunc i32 undef to i4
  %2 = sext i4 %1 to i8
  %3 = zext i8 %2 to i32
  ret i32 %3
}
~
~
report 1: exit at site 4 in @main, part 0, bits 0xff of i32
  origin 1: undef at site 1 in @main
end: reported
reports: 1
blind: 0
verdict: poisoned
~
77
====
"#;

/// Selections take what is chosen.
pub static SELECTIONS: &[u8] = br#"# 6 and 4 differ in one bit.
check f~
define i32 @main() {
  %1 = select i1 undef, i32 6, i32 4
  ret i32 %1
}
~
~
report 1: exit at site 2 in @main, part 0, bits 0x2 of i32
  origin 1: undef at site 1 in @main
end: reported
reports: 1
blind: 0
verdict: poisoned
~
77
====
check f~
define i32 @main() {
  %1 = select i1 true, i32 undef, i32 4
  ret i32 %1
}
~
~
report 1: exit at site 2 in @main, part 0, bits 0xffffffff of i32
  origin 1: undef at site 1 in @main
end: reported
reports: 1
blind: 0
verdict: poisoned
~
77
====
check f~
define i32 @main() {
  %1 = select i1 false, i32 undef, i32 4
  ret i32 %1
}
~
~
end: exit 4
reports: 0
blind: 0
verdict: clean
~
0
====
check f~
define i32 @main() {
  %1 = select i1 undef, i32 undef, i32 4
  ret i32 %1
}
~
~
report 1: exit at site 2 in @main, part 0, bits 0xffffffff of i32
  origin 1: undef at site 1 in @main
end: reported
reports: 1
blind: 0
verdict: poisoned
~
77
====
check f~
define i32 @main() {
  %1 = and i32 undef, 3
  %2 = select i1 true, i32 %1, i32 undef
  ret i32 %2
}
~
~
report 1: exit at site 3 in @main, part 0, bits 0x3 of i32
  origin 1: undef at site 1 in @main
end: reported
reports: 1
blind: 0
verdict: poisoned
~
77
====
"#;

/// Shifts move poisoned bits.
pub static SHIFTS: &[u8] = br#"check f~
define i32 @main() {
  %1 = shl i32 undef, 4
  ret i32 %1
}
~
~
report 1: exit at site 2 in @main, part 0, bits 0xfffffff0 of i32
  origin 1: undef at site 1 in @main
end: reported
reports: 1
blind: 0
verdict: poisoned
~
77
====
check f~
define i32 @main() {
  %1 = and i8 undef, -128
  %2 = ashr i8 %1, 2
  %3 = zext i8 %2 to i32
  ret i32 %3
}
~
~
report 1: exit at site 4 in @main, part 0, bits 0xe0 of i32
  origin 1: undef at site 1 in @main
end: reported
reports: 1
blind: 0
verdict: poisoned
~
77
====
check f~
define i32 @main() {
  %1 = and i8 undef, -128
  %2 = lshr i8 %1, 2
  %3 = zext i8 %2 to i32
  ret i32 %3
}
~
~
report 1: exit at site 4 in @main, part 0, bits 0x20 of i32
  origin 1: undef at site 1 in @main
end: reported
reports: 1
blind: 0
verdict: poisoned
~
77
====
# By a poisoned amount each bit is poisoned, and the use is blind.
check f~
define i32 @main() {
  %1 = and i32 undef, 1
  %2 = lshr i32 256, %1
  ret i32 %2
}
~
~
report 1: exit at site 3 in @main, part 0, bits 0xffffffff of i32
  origin 1: undef at site 1 in @main
end: reported
reports: 1
blind: 1
verdict: poisoned
~
77
====
check f~
define i32 @main() {
  %1 = shl i32 1, undef
  ret i32 0
}
~
~
end: trap shift at site 1 in @main
reports: 0
blind: 1
verdict: unsure
~
3
====
check f~
define i32 @main() {
  %1 = shl i32 undef, 32
  ret i32 0
}
~
~
end: trap shift at site 1 in @main
reports: 0
blind: 0
verdict: clean
~
3
====
"#;

/// Phis take the edge.
pub static PHIS: &[u8] = br#"check f~
define i32 @main() {
  %1 = call i32 @getchar()
  %2 = icmp eq i32 %1, 65
  br i1 %2, label %3, label %4
3:
  br label %5
4:
  br label %5
5:
  %6 = phi i32 [ 0, %3 ], [ undef, %4 ]
  ret i32 %6
}
declare i32 @getchar()
~
~
report 1: exit at site 7 in @main, part 0, bits 0xffffffff of i32
  origin 1: undef at site 6 in @main
end: reported
reports: 1
blind: 0
verdict: poisoned
~
77
====
# Both phis are read at once, with their masks.
check f~
define i32 @main() {
  br label %1
1:
  %2 = phi i32 [ undef, %0 ], [ %3, %1 ]
  %3 = phi i32 [ 7, %0 ], [ %2, %1 ]
  %4 = phi i1 [ true, %0 ], [ false, %1 ]
  br i1 %4, label %1, label %5
5:
  ret i32 %3
}
~
~
report 1: exit at site 6 in @main, part 0, bits 0xffffffff of i32
  origin 1: undef at site 2 in @main
end: reported
reports: 1
blind: 0
verdict: poisoned
~
77
====
check f~
define i32 @main() {
  br label %1
1:
  %2 = phi i32 [ undef, %0 ], [ %3, %1 ]
  %3 = phi i32 [ 7, %0 ], [ %2, %1 ]
  %4 = phi i1 [ true, %0 ], [ false, %1 ]
  br i1 %4, label %1, label %5
5:
  ret i32 %2
}
~
~
end: exit 7
reports: 0
blind: 0
verdict: clean
~
0
====
# The first operand for a block is the one that is taken.
check f~
define i32 @main() {
  br i1 true, label %1, label %1
1:
  %2 = phi i32 [ undef, %0 ], [ undef, %0 ]
  ret i32 %2
}
~
~
report 1: exit at site 3 in @main, part 0, bits 0xffffffff of i32
  origin 1: undef at site 2 in @main
end: reported
reports: 1
blind: 0
verdict: poisoned
~
77
====
"#;

/// A poisoned bit of a sum, a difference, a product or an address poisons each bit above it, and no lower one.
pub static CARRIES: &[u8] = br#"check f~
define i32 @main() {
  %1 = and i32 undef, 1
  %2 = add i32 %1, 1
  %3 = lshr i32 %2, 1
  %4 = icmp eq i32 %3, 0
  br i1 %4, label %5, label %7
5:
  %6 = call i32 @putchar(i32 65)
  ret i32 0
7:
  %8 = call i32 @putchar(i32 66)
  ret i32 0
}
declare i32 @putchar(i32)
~
~
report 1: branch at site 5 in @main, part 0, bits 0x1 of i1
  origin 1: undef at site 1 in @main
end: reported
reports: 1
blind: 0
verdict: poisoned
~
77
====
check f~
define i32 @main() {
  %1 = and i32 undef, 16
  %2 = add i32 %1, 3
  ret i32 %2
}
~
~
report 1: exit at site 3 in @main, part 0, bits 0xfffffff0 of i32
  origin 1: undef at site 1 in @main
end: reported
reports: 1
blind: 0
verdict: poisoned
~
77
====
# The lowest poisoned bit of either operand counts, and the last operand's origin.
check f~
define i32 @main() {
  %1 = and i32 undef, 16
  %2 = and i32 undef, 4
  %3 = sub i32 %1, %2
  ret i32 %3
}
~
~
report 1: exit at site 4 in @main, part 0, bits 0xfffffffc of i32
  origin 2: undef at site 2 in @main
end: reported
reports: 1
blind: 0
verdict: poisoned
~
77
====
check f~
define i32 @main() {
  %1 = and i8 undef, 8
  %2 = mul i8 %1, 3
  %3 = zext i8 %2 to i32
  ret i32 %3
}
~
~
report 1: exit at site 4 in @main, part 0, bits 0xf8 of i32
  origin 1: undef at site 1 in @main
end: reported
reports: 1
blind: 0
verdict: poisoned
~
77
====
# What lies below a poisoned bit is known.
check f~
define i32 @main() {
  %1 = and i32 undef, 16
  %2 = add i32 %1, 3
  %3 = and i32 %2, 15
  ret i32 %3
}
~
~
end: exit 3
reports: 0
blind: 0
verdict: clean
~
0
====
# A sum of defined words is defined.
check f~
define i32 @main() {
  %1 = add i32 1, 2
  %2 = mul i32 %1, %1
  %3 = sub i32 %2, 2
  ret i32 %3
}
~
~
end: exit 7
reports: 0
blind: 0
verdict: clean
~
0
====
check f~
define i32 @main() {
  %1 = and i32 undef, 0
  %2 = add i32 %1, 3
  ret i32 %2
}
~
~
end: exit 3
reports: 0
blind: 0
verdict: clean
~
0
====
# An address by a poisoned index: the index alone is no use of it.
check f~
define i32 @main() {
  %1 = alloca [2 x i8]
  %2 = and i64 undef, 1
  %3 = getelementptr i8, ptr %1, i64 %2
  %4 = load i8, ptr %3
  ret i32 0
}
~
~
report 1: address at site 4 in @main, part 0, bits 0xffffffffffffffff of i64
  origin 2: undef at site 2 in @main
end: reported
reports: 1
blind: 0
verdict: poisoned
~
77
====
check f~
define i32 @main() {
  %1 = alloca i8
  %2 = getelementptr i8, ptr %1, i64 undef
  ret i32 0
}
~
~
end: exit 0
reports: 0
blind: 0
verdict: clean
~
0
====
# The lowest poisoned bit of an index counts, whatever the size of what it counts.
check f~
define i32 @main() {
  %1 = alloca [8 x i32]
  %2 = and i8 undef, -2
  %3 = getelementptr [8 x i32], ptr %1, i64 0, i8 %2
  %4 = ptrtoint ptr %3 to i32
  ret i32 %4
}
~
~
report 1: exit at site 5 in @main, part 0, bits 0xfffffffe of i32
  origin 2: undef at site 2 in @main
end: reported
reports: 1
blind: 0
verdict: poisoned
~
77
====
"#;
