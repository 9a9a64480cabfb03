//! Rows of what `check` says of masks of calls of functions of whole words. Words, masks and origins were worked out by hand.

/// Of poisoned words, and of words of which enough is defined.
pub static MASKS: &[u8] = br#"check f~
define i32 @main() {
  %1 = call i32 @llvm.ctpop.i32(i32 undef)
  ret i32 %1
}
declare i32 @llvm.ctpop.i32(i32)
~
~
report 1: exit at site 2 in @main, part 0, bits 0x3f of i32
  origin 1: undef at site 1 in @main
end: reported
reports: 1
blind: 0
verdict: poisoned
~
77
====
check f~
define i32 @main() {
  %1 = and i8 undef, 1
  %2 = call i8 @llvm.ctpop.i8(i8 %1)
  %3 = zext i8 %2 to i32
  ret i32 %3
}
declare i8 @llvm.ctpop.i8(i8)
~
~
report 1: exit at site 4 in @main, part 0, bits 0xf of i32
  origin 1: undef at site 1 in @main
end: reported
reports: 1
blind: 0
verdict: poisoned
~
77
====
check f~
define i32 @main() {
  %1 = and i8 undef, 7
  %2 = or i8 %1, 8
  %3 = call i8 @llvm.ctlz.i8(i8 %2, i1 false)
  %4 = zext i8 %3 to i32
  ret i32 %4
}
declare i8 @llvm.ctlz.i8(i8, i1 immarg)
~
~
end: exit 4
reports: 0
blind: 0
verdict: clean
~
0
====
check f~
define i32 @main() {
  %1 = and i8 undef, 7
  %2 = call i8 @llvm.ctlz.i8(i8 %1, i1 false)
  %3 = zext i8 %2 to i32
  ret i32 %3
}
declare i8 @llvm.ctlz.i8(i8, i1 immarg)
~
~
report 1: exit at site 4 in @main, part 0, bits 0xf of i32
  origin 1: undef at site 1 in @main
end: reported
reports: 1
blind: 0
verdict: poisoned
~
77
====
check f~
define i32 @main() {
  %1 = and i8 undef, 224
  %2 = or i8 %1, 8
  %3 = call i8 @llvm.cttz.i8(i8 %2, i1 false)
  %4 = zext i8 %3 to i32
  ret i32 %4
}
declare i8 @llvm.cttz.i8(i8, i1 immarg)
~
~
end: exit 3
reports: 0
blind: 0
verdict: clean
~
0
====
check f~
define i32 @main() {
  %1 = and i32 undef, 1
  %2 = call i32 @llvm.bswap.i32(i32 %1)
  ret i32 %2
}
declare i32 @llvm.bswap.i32(i32)
~
~
report 1: exit at site 3 in @main, part 0, bits 0x1000000 of i32
  origin 1: undef at site 1 in @main
end: reported
reports: 1
blind: 0
verdict: poisoned
~
77
====
check f~
define i32 @main() {
  %1 = and i8 undef, 1
  %2 = call i8 @llvm.bitreverse.i8(i8 %1)
  %3 = and i8 %2, 1
  %4 = zext i8 %3 to i32
  ret i32 %4
}
declare i8 @llvm.bitreverse.i8(i8)
~
~
end: exit 0
reports: 0
blind: 0
verdict: clean
~
0
====
check f~
define i32 @main() {
  %1 = and i8 undef, 1
  %2 = call i8 @llvm.fshl.i8(i8 %1, i8 %1, i8 3)
  %3 = zext i8 %2 to i32
  ret i32 %3
}
declare i8 @llvm.fshl.i8(i8, i8, i8)
~
~
report 1: exit at site 4 in @main, part 0, bits 0x8 of i32
  origin 1: undef at site 1 in @main
end: reported
reports: 1
blind: 0
verdict: poisoned
~
77
====
check f~
define i32 @main() {
  %1 = and i8 undef, 1
  %2 = call i8 @llvm.fshr.i8(i8 5, i8 %1, i8 1)
  %3 = and i8 %2, 127
  %4 = zext i8 %3 to i32
  ret i32 %4
}
declare i8 @llvm.fshr.i8(i8, i8, i8)
~
~
end: exit 0
reports: 0
blind: 0
verdict: clean
~
0
====
check f~
define i32 @main() {
  %1 = and i8 undef, 1
  %2 = call i8 @llvm.fshl.i8(i8 1, i8 2, i8 %1)
  %3 = zext i8 %2 to i32
  ret i32 %3
}
declare i8 @llvm.fshl.i8(i8, i8, i8)
~
~
report 1: exit at site 4 in @main, part 0, bits 0xff of i32
  origin 1: undef at site 1 in @main
end: reported
reports: 1
blind: 0
verdict: poisoned
~
77
====
check f~
define i32 @main() {
  %1 = and i8 undef, 1
  %2 = call i8 @llvm.uadd.sat.i8(i8 %1, i8 2)
  %3 = zext i8 %2 to i32
  ret i32 %3
}
declare i8 @llvm.uadd.sat.i8(i8, i8)
~
~
report 1: exit at site 4 in @main, part 0, bits 0xff of i32
  origin 1: undef at site 1 in @main
end: reported
reports: 1
blind: 0
verdict: poisoned
~
77
====
check f~
define i32 @main() {
  %1 = and i8 undef, 7
  %2 = call i8 @llvm.umax.i8(i8 %1, i8 64)
  %3 = zext i8 %2 to i32
  ret i32 %3
}
declare i8 @llvm.umax.i8(i8, i8)
~
~
end: exit 64
reports: 0
blind: 0
verdict: clean
~
0
====
check f~
define i32 @main() {
  %1 = and i8 undef, 7
  %2 = call i8 @llvm.umin.i8(i8 %1, i8 64)
  %3 = zext i8 %2 to i32
  ret i32 %3
}
declare i8 @llvm.umin.i8(i8, i8)
~
~
report 1: exit at site 4 in @main, part 0, bits 0x7 of i32
  origin 1: undef at site 1 in @main
end: reported
reports: 1
blind: 0
verdict: poisoned
~
77
====
check f~
define i32 @main() {
  %1 = and i8 undef, 71
  %2 = call i8 @llvm.umax.i8(i8 %1, i8 64)
  %3 = zext i8 %2 to i32
  ret i32 %3
}
declare i8 @llvm.umax.i8(i8, i8)
~
~
report 1: exit at site 4 in @main, part 0, bits 0x47 of i32
  origin 1: undef at site 1 in @main
end: reported
reports: 1
blind: 0
verdict: poisoned
~
77
====
check f~
define i32 @main() {
  %1 = and i8 undef, 7
  %2 = call i8 @llvm.smax.i8(i8 %1, i8 -2)
  %3 = zext i8 %2 to i32
  ret i32 %3
}
declare i8 @llvm.smax.i8(i8, i8)
~
~
report 1: exit at site 4 in @main, part 0, bits 0x7 of i32
  origin 1: undef at site 1 in @main
end: reported
reports: 1
blind: 0
verdict: poisoned
~
77
====
check f~
define i32 @main() {
  %1 = and i32 undef, 1
  %2 = call i32 @llvm.expect.i32(i32 %1, i32 0)
  ret i32 %2
}
declare i32 @llvm.expect.i32(i32, i32)
~
~
report 1: exit at site 3 in @main, part 0, bits 0x1 of i32
  origin 1: undef at site 1 in @main
end: reported
reports: 1
blind: 0
verdict: poisoned
~
77
====
check f~
define i32 @main() {
  %1 = call i32 @llvm.expect.i32(i32 1, i32 undef)
  ret i32 %1
}
declare i32 @llvm.expect.i32(i32, i32)
~
~
end: exit 1
reports: 0
blind: 0
verdict: clean
~
0
====
"#;

/// A poisoned word that a true flag judges is a blind use.
pub static BLIND: &[u8] = br#"check f~
define i32 @main() {
  %1 = call i32 @llvm.ctlz.i32(i32 undef, i1 true)
  ret i32 0
}
declare i32 @llvm.ctlz.i32(i32, i1 immarg)
~
~
end: exit 0
reports: 0
blind: 1
verdict: unsure
~
0
====
check f~
define i32 @main() {
  %1 = call i32 @llvm.ctlz.i32(i32 undef, i1 false)
  ret i32 0
}
declare i32 @llvm.ctlz.i32(i32, i1 immarg)
~
~
end: exit 0
reports: 0
blind: 0
verdict: clean
~
0
====
check f~
define i32 @main() {
  %1 = call i8 @llvm.abs.i8(i8 undef, i1 true)
  ret i32 0
}
declare i8 @llvm.abs.i8(i8, i1 immarg)
~
~
end: exit 0
reports: 0
blind: 1
verdict: unsure
~
0
====
"#;

/// Three calls of each function, of which the values show the masks.
pub static THREE_MASKS: &[u8] = br#"check --reports 4 f~
@f = constant [10 x i8] c"%u %u %lu\00" define i32 @main() { %1 = and i8 undef, 1 %2 = call i8 @llvm.ctpop.i8(i8 %1) %3 = zext i8 %2 to i32 %4 = and i16 undef, 0 %5 = call i16 @llvm.ctpop.i16(i16 %4) %6 = zext i16 %5 to i32 %7 = and i64 undef, 1 %8 = call i64 @llvm.ctpop.i64(i64 %7) %9 = call i32 (ptr, ...) @printf(ptr @f, i32 %3, i32 %6, i64 %8) ret i32 0 } declare i32 @printf(ptr, ...) declare i8 @llvm.ctpop.i8(i8) declare i16 @llvm.ctpop.i16(i16) declare i64 @llvm.ctpop.i64(i64)~
1 0 1~
report 1: value at site 9 in @main, part 1, bits 0xf of i32
  origin 1: undef at site 1 in @main
report 2: value at site 9 in @main, part 3, bits 0x7f of i64
  origin 3: undef at site 7 in @main
end: exit 0
reports: 2
blind: 0
verdict: poisoned
~
77
====
check --reports 4 f~
@f = constant [10 x i8] c"%u %u %lu\00" define i32 @main() { %1 = and i8 undef, -128 %2 = or i8 %1, 127 %3 = call i8 @llvm.ctlz.i8(i8 %2, i1 false) %4 = zext i8 %3 to i32 %5 = and i16 undef, 7 %6 = or i16 %5, 8 %7 = call i16 @llvm.ctlz.i16(i16 %6, i1 false) %8 = zext i16 %7 to i32 %9 = and i64 undef, 16 %10 = or i64 %9, 4 %11 = call i64 @llvm.ctlz.i64(i64 %10, i1 false) %12 = call i32 (ptr, ...) @printf(ptr @f, i32 %4, i32 %8, i64 %11) ret i32 0 } declare i32 @printf(ptr, ...) declare i8 @llvm.ctlz.i8(i8, i1) declare i16 @llvm.ctlz.i16(i16, i1) declare i64 @llvm.ctlz.i64(i64, i1)~
0 12 61~
report 1: value at site 12 in @main, part 1, bits 0xf of i32
  origin 1: undef at site 1 in @main
report 2: value at site 12 in @main, part 3, bits 0x7f of i64
  origin 3: undef at site 9 in @main
end: exit 0
reports: 2
blind: 0
verdict: poisoned
~
77
====
check --reports 4 f~
@f = constant [9 x i8] c"%u %u %u\00" define i32 @main() { %1 = and i8 undef, 1 %2 = or i8 %1, 8 %3 = call i8 @llvm.cttz.i8(i8 %2, i1 false) %4 = zext i8 %3 to i32 %5 = and i16 undef, -8192 %6 = or i16 %5, 8 %7 = call i16 @llvm.cttz.i16(i16 %6, i1 false) %8 = zext i16 %7 to i32 %9 = and i32 undef, 8 %10 = or i32 %9, 16 %11 = call i32 @llvm.cttz.i32(i32 %10, i1 false) %12 = call i32 (ptr, ...) @printf(ptr @f, i32 %4, i32 %8, i32 %11) ret i32 0 } declare i32 @printf(ptr, ...) declare i8 @llvm.cttz.i8(i8, i1) declare i16 @llvm.cttz.i16(i16, i1) declare i32 @llvm.cttz.i32(i32, i1)~
0 3 4~
report 1: value at site 12 in @main, part 1, bits 0xf of i32
  origin 1: undef at site 1 in @main
report 2: value at site 12 in @main, part 3, bits 0x3f of i32
  origin 3: undef at site 9 in @main
end: exit 0
reports: 2
blind: 0
verdict: poisoned
~
77
====
check --reports 4 f~
@f = constant [10 x i8] c"%u %u %lu\00" define i32 @main() { %1 = and i16 undef, 1 %2 = call i16 @llvm.bswap.i16(i16 %1) %3 = zext i16 %2 to i32 %4 = and i32 undef, 0 %5 = call i32 @llvm.bswap.i32(i32 %4) %6 = and i64 undef, 4 %7 = call i64 @llvm.bswap.i64(i64 %6) %8 = call i32 (ptr, ...) @printf(ptr @f, i32 %3, i32 %5, i64 %7) ret i32 0 } declare i32 @printf(ptr, ...) declare i16 @llvm.bswap.i16(i16) declare i32 @llvm.bswap.i32(i32) declare i64 @llvm.bswap.i64(i64)~
256 0 288230376151711744~
report 1: value at site 8 in @main, part 1, bits 0x100 of i32
  origin 1: undef at site 1 in @main
report 2: value at site 8 in @main, part 3, bits 0x400000000000000 of i64
  origin 3: undef at site 6 in @main
end: exit 0
reports: 2
blind: 0
verdict: poisoned
~
77
====
check --reports 4 f~
@f = constant [10 x i8] c"%u %u %lu\00" define i32 @main() { %1 = and i8 undef, 1 %2 = call i8 @llvm.bitreverse.i8(i8 %1) %3 = zext i8 %2 to i32 %4 = and i16 undef, 0 %5 = call i16 @llvm.bitreverse.i16(i16 %4) %6 = zext i16 %5 to i32 %7 = and i64 undef, 4 %8 = call i64 @llvm.bitreverse.i64(i64 %7) %9 = call i32 (ptr, ...) @printf(ptr @f, i32 %3, i32 %6, i64 %8) ret i32 0 } declare i32 @printf(ptr, ...) declare i8 @llvm.bitreverse.i8(i8) declare i16 @llvm.bitreverse.i16(i16) declare i64 @llvm.bitreverse.i64(i64)~
128 0 2305843009213693952~
report 1: value at site 9 in @main, part 1, bits 0x80 of i32
  origin 1: undef at site 1 in @main
report 2: value at site 9 in @main, part 3, bits 0x2000000000000000 of i64
  origin 3: undef at site 7 in @main
end: exit 0
reports: 2
blind: 0
verdict: poisoned
~
77
====
check --reports 4 f~
@f = constant [9 x i8] c"%u %u %u\00" define i32 @main() { %1 = and i8 undef, -120 %2 = call i8 @llvm.abs.i8(i8 %1, i1 false) %3 = zext i8 %2 to i32 %4 = and i16 undef, 4 %5 = or i16 %4, -32768 %6 = call i16 @llvm.abs.i16(i16 %5, i1 false) %7 = zext i16 %6 to i32 %8 = and i32 undef, 6 %9 = call i32 @llvm.abs.i32(i32 %8, i1 false) %10 = call i32 (ptr, ...) @printf(ptr @f, i32 %3, i32 %7, i32 %9) ret i32 0 } declare i32 @printf(ptr, ...) declare i8 @llvm.abs.i8(i8, i1) declare i16 @llvm.abs.i16(i16, i1) declare i32 @llvm.abs.i32(i32, i1)~
128 32764 4~
report 1: value at site 10 in @main, part 1, bits 0xf8 of i32
  origin 1: undef at site 1 in @main
report 2: value at site 10 in @main, part 2, bits 0xfffc of i32
  origin 2: undef at site 4 in @main
report 3: value at site 10 in @main, part 3, bits 0x6 of i32
  origin 3: undef at site 8 in @main
end: exit 0
reports: 3
blind: 0
verdict: poisoned
~
77
====
check --reports 4 f~
@f = constant [9 x i8] c"%u %u %u\00" define i32 @main() { %1 = and i8 undef, 7 %2 = call i8 @llvm.smax.i8(i8 %1, i8 -2) %3 = zext i8 %2 to i32 %4 = and i16 undef, 7 %5 = call i16 @llvm.smax.i16(i16 %4, i16 100) %6 = zext i16 %5 to i32 %7 = and i32 undef, 8 %8 = or i32 %7, 16 %9 = call i32 @llvm.smax.i32(i32 %8, i32 20) %10 = call i32 (ptr, ...) @printf(ptr @f, i32 %3, i32 %6, i32 %9) ret i32 0 } declare i32 @printf(ptr, ...) declare i8 @llvm.smax.i8(i8, i8) declare i16 @llvm.smax.i16(i16, i16) declare i32 @llvm.smax.i32(i32, i32)~
5 100 20~
report 1: value at site 10 in @main, part 1, bits 0x7 of i32
  origin 1: undef at site 1 in @main
report 2: value at site 10 in @main, part 3, bits 0xc of i32
  origin 3: undef at site 7 in @main
end: exit 0
reports: 2
blind: 0
verdict: poisoned
~
77
====
check --reports 4 f~
@f = constant [10 x i8] c"%u %u %lu\00" define i32 @main() { %1 = and i8 undef, 7 %2 = call i8 @llvm.smin.i8(i8 %1, i8 -2) %3 = zext i8 %2 to i32 %4 = and i16 undef, 7 %5 = call i16 @llvm.smin.i16(i16 %4, i16 100) %6 = zext i16 %5 to i32 %7 = and i64 undef, 8 %8 = or i64 %7, 16 %9 = call i64 @llvm.smin.i64(i64 %8, i64 20) %10 = call i32 (ptr, ...) @printf(ptr @f, i32 %3, i32 %6, i64 %9) ret i32 0 } declare i32 @printf(ptr, ...) declare i8 @llvm.smin.i8(i8, i8) declare i16 @llvm.smin.i16(i16, i16) declare i64 @llvm.smin.i64(i64, i64)~
254 5 16~
report 1: value at site 10 in @main, part 2, bits 0x7 of i32
  origin 2: undef at site 4 in @main
report 2: value at site 10 in @main, part 3, bits 0xc of i64
  origin 3: undef at site 7 in @main
end: exit 0
reports: 2
blind: 0
verdict: poisoned
~
77
====
check --reports 4 f~
@f = constant [9 x i8] c"%u %u %u\00" define i32 @main() { %1 = and i8 undef, 7 %2 = call i8 @llvm.umax.i8(i8 %1, i8 -2) %3 = zext i8 %2 to i32 %4 = and i16 undef, 7 %5 = or i16 %4, 16 %6 = call i16 @llvm.umax.i16(i16 16, i16 %5) %7 = zext i16 %6 to i32 %8 = and i32 undef, 8 %9 = or i32 %8, 16 %10 = call i32 @llvm.umax.i32(i32 %9, i32 20) %11 = call i32 (ptr, ...) @printf(ptr @f, i32 %3, i32 %7, i32 %10) ret i32 0 } declare i32 @printf(ptr, ...) declare i8 @llvm.umax.i8(i8, i8) declare i16 @llvm.umax.i16(i16, i16) declare i32 @llvm.umax.i32(i32, i32)~
254 21 20~
report 1: value at site 11 in @main, part 2, bits 0x7 of i32
  origin 2: undef at site 4 in @main
report 2: value at site 11 in @main, part 3, bits 0xc of i32
  origin 3: undef at site 8 in @main
end: exit 0
reports: 2
blind: 0
verdict: poisoned
~
77
====
check --reports 4 f~
@f = constant [10 x i8] c"%u %u %lu\00" define i32 @main() { %1 = and i8 undef, 7 %2 = call i8 @llvm.umin.i8(i8 %1, i8 -2) %3 = zext i8 %2 to i32 %4 = and i16 undef, 7 %5 = or i16 %4, 16 %6 = call i16 @llvm.umin.i16(i16 16, i16 %5) %7 = zext i16 %6 to i32 %8 = and i64 undef, 8 %9 = or i64 %8, 16 %10 = call i64 @llvm.umin.i64(i64 %9, i64 20) %11 = call i32 (ptr, ...) @printf(ptr @f, i32 %3, i32 %7, i64 %10) ret i32 0 } declare i32 @printf(ptr, ...) declare i8 @llvm.umin.i8(i8, i8) declare i16 @llvm.umin.i16(i16, i16) declare i64 @llvm.umin.i64(i64, i64)~
5 16 16~
report 1: value at site 11 in @main, part 1, bits 0x7 of i32
  origin 1: undef at site 1 in @main
report 2: value at site 11 in @main, part 3, bits 0xc of i64
  origin 3: undef at site 8 in @main
end: exit 0
reports: 2
blind: 0
verdict: poisoned
~
77
====
check --reports 4 f~
@f = constant [10 x i8] c"%u %u %lu\00" define i32 @main() { %1 = and i8 undef, 1 %2 = call i8 @llvm.fshl.i8(i8 %1, i8 0, i8 0) %3 = zext i8 %2 to i32 %4 = and i32 undef, 4 %5 = call i32 @llvm.fshl.i32(i32 0, i32 %4, i32 8) %6 = and i64 undef, 1 %7 = call i64 @llvm.fshl.i64(i64 3, i64 3, i64 %6) %8 = call i32 (ptr, ...) @printf(ptr @f, i32 %3, i32 %5, i64 %7) ret i32 0 } declare i32 @printf(ptr, ...) declare i8 @llvm.fshl.i8(i8, i8, i8) declare i32 @llvm.fshl.i32(i32, i32, i32) declare i64 @llvm.fshl.i64(i64, i64, i64)~
1 0 6~
report 1: value at site 8 in @main, part 1, bits 0x1 of i32
  origin 1: undef at site 1 in @main
report 2: value at site 8 in @main, part 3, bits 0xffffffffffffffff of i64
  origin 3: undef at site 6 in @main
end: exit 0
reports: 2
blind: 0
verdict: poisoned
~
77
====
check --reports 4 f~
@f = constant [10 x i8] c"%u %u %lu\00" define i32 @main() { %1 = and i16 undef, 1 %2 = call i16 @llvm.fshr.i16(i16 %1, i16 0, i16 0) %3 = zext i16 %2 to i32 %4 = and i32 undef, 4 %5 = call i32 @llvm.fshr.i32(i32 0, i32 %4, i32 1) %6 = and i64 undef, 1 %7 = call i64 @llvm.fshr.i64(i64 0, i64 0, i64 %6) %8 = call i32 (ptr, ...) @printf(ptr @f, i32 %3, i32 %5, i64 %7) ret i32 0 } declare i32 @printf(ptr, ...) declare i16 @llvm.fshr.i16(i16, i16, i16) declare i32 @llvm.fshr.i32(i32, i32, i32) declare i64 @llvm.fshr.i64(i64, i64, i64)~
0 2 0~
report 1: value at site 8 in @main, part 2, bits 0x2 of i32
  origin 2: undef at site 4 in @main
report 2: value at site 8 in @main, part 3, bits 0xffffffffffffffff of i64
  origin 3: undef at site 6 in @main
end: exit 0
reports: 2
blind: 0
verdict: poisoned
~
77
====
check --reports 4 f~
@f = constant [9 x i8] c"%u %u %u\00" define i32 @main() { %1 = and i8 undef, 1 %2 = call i8 @llvm.uadd.sat.i8(i8 %1, i8 -1) %3 = zext i8 %2 to i32 %4 = and i16 undef, 0 %5 = call i16 @llvm.uadd.sat.i16(i16 %4, i16 1) %6 = zext i16 %5 to i32 %7 = and i32 undef, 1 %8 = call i32 @llvm.uadd.sat.i32(i32 2, i32 %7) %9 = call i32 (ptr, ...) @printf(ptr @f, i32 %3, i32 %6, i32 %8) ret i32 0 } declare i32 @printf(ptr, ...) declare i8 @llvm.uadd.sat.i8(i8, i8) declare i16 @llvm.uadd.sat.i16(i16, i16) declare i32 @llvm.uadd.sat.i32(i32, i32)~
255 1 3~
report 1: value at site 9 in @main, part 1, bits 0xff of i32
  origin 1: undef at site 1 in @main
report 2: value at site 9 in @main, part 3, bits 0xffffffff of i32
  origin 3: undef at site 7 in @main
end: exit 0
reports: 2
blind: 0
verdict: poisoned
~
77
====
check --reports 4 f~
@f = constant [10 x i8] c"%u %u %lu\00" define i32 @main() { %1 = and i16 undef, 1 %2 = call i16 @llvm.usub.sat.i16(i16 %1, i16 1) %3 = zext i16 %2 to i32 %4 = and i32 undef, 0 %5 = call i32 @llvm.usub.sat.i32(i32 %4, i32 0) %6 = and i64 undef, 1 %7 = call i64 @llvm.usub.sat.i64(i64 4, i64 %6) %8 = call i32 (ptr, ...) @printf(ptr @f, i32 %3, i32 %5, i64 %7) ret i32 0 } declare i32 @printf(ptr, ...) declare i16 @llvm.usub.sat.i16(i16, i16) declare i32 @llvm.usub.sat.i32(i32, i32) declare i64 @llvm.usub.sat.i64(i64, i64)~
0 0 3~
report 1: value at site 8 in @main, part 1, bits 0xffff of i32
  origin 1: undef at site 1 in @main
report 2: value at site 8 in @main, part 3, bits 0xffffffffffffffff of i64
  origin 3: undef at site 6 in @main
end: exit 0
reports: 2
blind: 0
verdict: poisoned
~
77
====
check --reports 4 f~
@f = constant [10 x i8] c"%u %u %lu\00" define i32 @main() { %1 = and i8 undef, 1 %2 = call i8 @llvm.sadd.sat.i8(i8 %1, i8 1) %3 = zext i8 %2 to i32 %4 = and i32 undef, 0 %5 = call i32 @llvm.sadd.sat.i32(i32 1, i32 %4) %6 = and i64 undef, 1 %7 = call i64 @llvm.sadd.sat.i64(i64 6, i64 %6) %8 = call i32 (ptr, ...) @printf(ptr @f, i32 %3, i32 %5, i64 %7) ret i32 0 } declare i32 @printf(ptr, ...) declare i8 @llvm.sadd.sat.i8(i8, i8) declare i32 @llvm.sadd.sat.i32(i32, i32) declare i64 @llvm.sadd.sat.i64(i64, i64)~
2 1 7~
report 1: value at site 8 in @main, part 1, bits 0xff of i32
  origin 1: undef at site 1 in @main
report 2: value at site 8 in @main, part 3, bits 0xffffffffffffffff of i64
  origin 3: undef at site 6 in @main
end: exit 0
reports: 2
blind: 0
verdict: poisoned
~
77
====
check --reports 4 f~
@f = constant [10 x i8] c"%u %u %lu\00" define i32 @main() { %1 = and i8 undef, 1 %2 = call i8 @llvm.ssub.sat.i8(i8 %1, i8 0) %3 = zext i8 %2 to i32 %4 = and i16 undef, 1 %5 = call i16 @llvm.ssub.sat.i16(i16 4, i16 %4) %6 = zext i16 %5 to i32 %7 = and i64 undef, 0 %8 = call i64 @llvm.ssub.sat.i64(i64 3, i64 %7) %9 = call i32 (ptr, ...) @printf(ptr @f, i32 %3, i32 %6, i64 %8) ret i32 0 } declare i32 @printf(ptr, ...) declare i8 @llvm.ssub.sat.i8(i8, i8) declare i16 @llvm.ssub.sat.i16(i16, i16) declare i64 @llvm.ssub.sat.i64(i64, i64)~
1 3 3~
report 1: value at site 9 in @main, part 1, bits 0xff of i32
  origin 1: undef at site 1 in @main
report 2: value at site 9 in @main, part 2, bits 0xffff of i32
  origin 2: undef at site 4 in @main
end: exit 0
reports: 2
blind: 0
verdict: poisoned
~
77
====
check --reports 4 f~
@f = constant [10 x i8] c"%u %u %lu\00" define i32 @main() { %1 = and i8 undef, 1 %2 = call i8 @llvm.expect.i8(i8 %1, i8 0) %3 = zext i8 %2 to i32 %4 = and i16 undef, 1 %5 = call i16 @llvm.expect.i16(i16 4, i16 %4) %6 = zext i16 %5 to i32 %7 = and i64 undef, 6 %8 = or i64 %7, 1 %9 = call i64 @llvm.expect.i64(i64 %8, i64 %8) %10 = call i32 (ptr, ...) @printf(ptr @f, i32 %3, i32 %6, i64 %9) ret i32 0 } declare i32 @printf(ptr, ...) declare i8 @llvm.expect.i8(i8, i8) declare i16 @llvm.expect.i16(i16, i16) declare i64 @llvm.expect.i64(i64, i64)~
1 4 5~
report 1: value at site 10 in @main, part 1, bits 0x1 of i32
  origin 1: undef at site 1 in @main
report 2: value at site 10 in @main, part 3, bits 0x6 of i64
  origin 3: undef at site 7 in @main
end: exit 0
reports: 2
blind: 0
verdict: poisoned
~
77
====
"#;
