//! Runs that call each function of whole words at each of its widths. The words were worked out after the LLVM Language
//! Reference, and are what `lli` prints.

use ms_top_rows::told::all_told_runs;
use std::test::Fail;

/// Five calls at each width of what counts the bits that are 1, and of the zeros before or after them.
static COUNTS: &[u8] =
    br#"@f = constant [15 x i8] c"%u %u %u %u %u\00" define i32 @main() { %a = call i8 @llvm.ctpop.i8(i8 0) %aa = zext i8 %a to i32 %b = call i8 @llvm.ctpop.i8(i8 1) %bb = zext i8 %b to i32 %c = call i8 @llvm.ctpop.i8(i8 -1) %cc = zext i8 %c to i32 %d = call i8 @llvm.ctpop.i8(i8 -128) %dd = zext i8 %d to i32 %e = call i8 @llvm.ctpop.i8(i8 18) %ee = zext i8 %e to i32 %n = call i32 (ptr, ...) @printf(ptr @f, i32 %aa, i32 %bb, i32 %cc, i32 %dd, i32 %ee) ret i32 0 } declare i8 @llvm.ctpop.i8(i8)~
0 1 8 1 2~
exit 0~
0
====
@f = constant [15 x i8] c"%u %u %u %u %u\00" define i32 @main() { %a = call i16 @llvm.ctpop.i16(i16 0) %aa = zext i16 %a to i32 %b = call i16 @llvm.ctpop.i16(i16 1) %bb = zext i16 %b to i32 %c = call i16 @llvm.ctpop.i16(i16 -1) %cc = zext i16 %c to i32 %d = call i16 @llvm.ctpop.i16(i16 -32768) %dd = zext i16 %d to i32 %e = call i16 @llvm.ctpop.i16(i16 4660) %ee = zext i16 %e to i32 %n = call i32 (ptr, ...) @printf(ptr @f, i32 %aa, i32 %bb, i32 %cc, i32 %dd, i32 %ee) ret i32 0 } declare i16 @llvm.ctpop.i16(i16)~
0 1 16 1 5~
exit 0~
0
====
@f = constant [15 x i8] c"%u %u %u %u %u\00" define i32 @main() { %a = call i32 @llvm.ctpop.i32(i32 0) %b = call i32 @llvm.ctpop.i32(i32 1) %c = call i32 @llvm.ctpop.i32(i32 -1) %d = call i32 @llvm.ctpop.i32(i32 -2147483648) %e = call i32 @llvm.ctpop.i32(i32 305419896) %n = call i32 (ptr, ...) @printf(ptr @f, i32 %a, i32 %b, i32 %c, i32 %d, i32 %e) ret i32 0 } declare i32 @llvm.ctpop.i32(i32)~
0 1 32 1 13~
exit 0~
0
====
@f = constant [20 x i8] c"%lu %lu %lu %lu %lu\00" define i32 @main() { %a = call i64 @llvm.ctpop.i64(i64 0) %b = call i64 @llvm.ctpop.i64(i64 1) %c = call i64 @llvm.ctpop.i64(i64 -1) %d = call i64 @llvm.ctpop.i64(i64 -9223372036854775808) %e = call i64 @llvm.ctpop.i64(i64 1311768467463790320) %n = call i32 (ptr, ...) @printf(ptr @f, i64 %a, i64 %b, i64 %c, i64 %d, i64 %e) ret i32 0 } declare i64 @llvm.ctpop.i64(i64)~
0 1 64 1 32~
exit 0~
0
====
@f = constant [15 x i8] c"%u %u %u %u %u\00" define i32 @main() { %a = call i8 @llvm.ctlz.i8(i8 0, i1 false) %aa = zext i8 %a to i32 %b = call i8 @llvm.ctlz.i8(i8 1, i1 true) %bb = zext i8 %b to i32 %c = call i8 @llvm.ctlz.i8(i8 -1, i1 true) %cc = zext i8 %c to i32 %d = call i8 @llvm.ctlz.i8(i8 32, i1 false) %dd = zext i8 %d to i32 %e = call i8 @llvm.ctlz.i8(i8 5, i1 false) %ee = zext i8 %e to i32 %n = call i32 (ptr, ...) @printf(ptr @f, i32 %aa, i32 %bb, i32 %cc, i32 %dd, i32 %ee) ret i32 0 } declare i8 @llvm.ctlz.i8(i8, i1)~
8 7 0 2 5~
exit 0~
0
====
@f = constant [15 x i8] c"%u %u %u %u %u\00" define i32 @main() { %a = call i16 @llvm.ctlz.i16(i16 0, i1 false) %aa = zext i16 %a to i32 %b = call i16 @llvm.ctlz.i16(i16 1, i1 true) %bb = zext i16 %b to i32 %c = call i16 @llvm.ctlz.i16(i16 -1, i1 true) %cc = zext i16 %c to i32 %d = call i16 @llvm.ctlz.i16(i16 8192, i1 false) %dd = zext i16 %d to i32 %e = call i16 @llvm.ctlz.i16(i16 5, i1 false) %ee = zext i16 %e to i32 %n = call i32 (ptr, ...) @printf(ptr @f, i32 %aa, i32 %bb, i32 %cc, i32 %dd, i32 %ee) ret i32 0 } declare i16 @llvm.ctlz.i16(i16, i1)~
16 15 0 2 13~
exit 0~
0
====
@f = constant [15 x i8] c"%u %u %u %u %u\00" define i32 @main() { %a = call i32 @llvm.ctlz.i32(i32 0, i1 false) %b = call i32 @llvm.ctlz.i32(i32 1, i1 true) %c = call i32 @llvm.ctlz.i32(i32 -1, i1 true) %d = call i32 @llvm.ctlz.i32(i32 536870912, i1 false) %e = call i32 @llvm.ctlz.i32(i32 5, i1 false) %n = call i32 (ptr, ...) @printf(ptr @f, i32 %a, i32 %b, i32 %c, i32 %d, i32 %e) ret i32 0 } declare i32 @llvm.ctlz.i32(i32, i1)~
32 31 0 2 29~
exit 0~
0
====
@f = constant [20 x i8] c"%lu %lu %lu %lu %lu\00" define i32 @main() { %a = call i64 @llvm.ctlz.i64(i64 0, i1 false) %b = call i64 @llvm.ctlz.i64(i64 1, i1 true) %c = call i64 @llvm.ctlz.i64(i64 -1, i1 true) %d = call i64 @llvm.ctlz.i64(i64 2305843009213693952, i1 false) %e = call i64 @llvm.ctlz.i64(i64 5, i1 false) %n = call i32 (ptr, ...) @printf(ptr @f, i64 %a, i64 %b, i64 %c, i64 %d, i64 %e) ret i32 0 } declare i64 @llvm.ctlz.i64(i64, i1)~
64 63 0 2 61~
exit 0~
0
====
@f = constant [15 x i8] c"%u %u %u %u %u\00" define i32 @main() { %a = call i8 @llvm.cttz.i8(i8 0, i1 false) %aa = zext i8 %a to i32 %b = call i8 @llvm.cttz.i8(i8 1, i1 true) %bb = zext i8 %b to i32 %c = call i8 @llvm.cttz.i8(i8 -128, i1 true) %cc = zext i8 %c to i32 %d = call i8 @llvm.cttz.i8(i8 40, i1 false) %dd = zext i8 %d to i32 %e = call i8 @llvm.cttz.i8(i8 -4, i1 false) %ee = zext i8 %e to i32 %n = call i32 (ptr, ...) @printf(ptr @f, i32 %aa, i32 %bb, i32 %cc, i32 %dd, i32 %ee) ret i32 0 } declare i8 @llvm.cttz.i8(i8, i1)~
8 0 7 3 2~
exit 0~
0
====
@f = constant [15 x i8] c"%u %u %u %u %u\00" define i32 @main() { %a = call i16 @llvm.cttz.i16(i16 0, i1 false) %aa = zext i16 %a to i32 %b = call i16 @llvm.cttz.i16(i16 1, i1 true) %bb = zext i16 %b to i32 %c = call i16 @llvm.cttz.i16(i16 -32768, i1 true) %cc = zext i16 %c to i32 %d = call i16 @llvm.cttz.i16(i16 40, i1 false) %dd = zext i16 %d to i32 %e = call i16 @llvm.cttz.i16(i16 -4, i1 false) %ee = zext i16 %e to i32 %n = call i32 (ptr, ...) @printf(ptr @f, i32 %aa, i32 %bb, i32 %cc, i32 %dd, i32 %ee) ret i32 0 } declare i16 @llvm.cttz.i16(i16, i1)~
16 0 15 3 2~
exit 0~
0
====
@f = constant [15 x i8] c"%u %u %u %u %u\00" define i32 @main() { %a = call i32 @llvm.cttz.i32(i32 0, i1 false) %b = call i32 @llvm.cttz.i32(i32 1, i1 true) %c = call i32 @llvm.cttz.i32(i32 -2147483648, i1 true) %d = call i32 @llvm.cttz.i32(i32 40, i1 false) %e = call i32 @llvm.cttz.i32(i32 -4, i1 false) %n = call i32 (ptr, ...) @printf(ptr @f, i32 %a, i32 %b, i32 %c, i32 %d, i32 %e) ret i32 0 } declare i32 @llvm.cttz.i32(i32, i1)~
32 0 31 3 2~
exit 0~
0
====
@f = constant [20 x i8] c"%lu %lu %lu %lu %lu\00" define i32 @main() { %a = call i64 @llvm.cttz.i64(i64 0, i1 false) %b = call i64 @llvm.cttz.i64(i64 1, i1 true) %c = call i64 @llvm.cttz.i64(i64 -9223372036854775808, i1 true) %d = call i64 @llvm.cttz.i64(i64 40, i1 false) %e = call i64 @llvm.cttz.i64(i64 -4, i1 false) %n = call i32 (ptr, ...) @printf(ptr @f, i64 %a, i64 %b, i64 %c, i64 %d, i64 %e) ret i32 0 } declare i64 @llvm.cttz.i64(i64, i1)~
64 0 63 3 2~
exit 0~
0
====
"#;

/// Five calls at each width of functions that move bits, and of `llvm.expect`.
static MOVES: &[u8] =
    br#"@f = constant [15 x i8] c"%x %x %x %x %x\00" define i32 @main() { %a = call i16 @llvm.bswap.i16(i16 258) %aa = zext i16 %a to i32 %b = call i16 @llvm.bswap.i16(i16 -256) %bb = zext i16 %b to i32 %c = call i16 @llvm.bswap.i16(i16 1) %cc = zext i16 %c to i32 %d = call i16 @llvm.bswap.i16(i16 -32768) %dd = zext i16 %d to i32 %e = call i16 @llvm.bswap.i16(i16 4660) %ee = zext i16 %e to i32 %n = call i32 (ptr, ...) @printf(ptr @f, i32 %aa, i32 %bb, i32 %cc, i32 %dd, i32 %ee) ret i32 0 } declare i16 @llvm.bswap.i16(i16)~
201 ff 100 80 3412~
exit 0~
0
====
@f = constant [15 x i8] c"%x %x %x %x %x\00" define i32 @main() { %a = call i32 @llvm.bswap.i32(i32 16909060) %b = call i32 @llvm.bswap.i32(i32 -16777216) %c = call i32 @llvm.bswap.i32(i32 1) %d = call i32 @llvm.bswap.i32(i32 16711680) %e = call i32 @llvm.bswap.i32(i32 305419896) %n = call i32 (ptr, ...) @printf(ptr @f, i32 %a, i32 %b, i32 %c, i32 %d, i32 %e) ret i32 0 } declare i32 @llvm.bswap.i32(i32)~
4030201 ff 1000000 ff00 78563412~
exit 0~
0
====
@f = constant [20 x i8] c"%lx %lx %lx %lx %lx\00" define i32 @main() { %a = call i64 @llvm.bswap.i64(i64 72623859790382856) %b = call i64 @llvm.bswap.i64(i64 -72057594037927936) %c = call i64 @llvm.bswap.i64(i64 1) %d = call i64 @llvm.bswap.i64(i64 280375465082880) %e = call i64 @llvm.bswap.i64(i64 1311768467463790320) %n = call i32 (ptr, ...) @printf(ptr @f, i64 %a, i64 %b, i64 %c, i64 %d, i64 %e) ret i32 0 } declare i64 @llvm.bswap.i64(i64)~
807060504030201 ff 100000000000000 ff0000 f0debc9a78563412~
exit 0~
0
====
@f = constant [15 x i8] c"%x %x %x %x %x\00" define i32 @main() { %a = call i8 @llvm.bitreverse.i8(i8 1) %aa = zext i8 %a to i32 %b = call i8 @llvm.bitreverse.i8(i8 -128) %bb = zext i8 %b to i32 %c = call i8 @llvm.bitreverse.i8(i8 3) %cc = zext i8 %c to i32 %d = call i8 @llvm.bitreverse.i8(i8 -2) %dd = zext i8 %d to i32 %e = call i8 @llvm.bitreverse.i8(i8 18) %ee = zext i8 %e to i32 %n = call i32 (ptr, ...) @printf(ptr @f, i32 %aa, i32 %bb, i32 %cc, i32 %dd, i32 %ee) ret i32 0 } declare i8 @llvm.bitreverse.i8(i8)~
80 1 c0 7f 48~
exit 0~
0
====
@f = constant [15 x i8] c"%x %x %x %x %x\00" define i32 @main() { %a = call i16 @llvm.bitreverse.i16(i16 1) %aa = zext i16 %a to i32 %b = call i16 @llvm.bitreverse.i16(i16 -32768) %bb = zext i16 %b to i32 %c = call i16 @llvm.bitreverse.i16(i16 3) %cc = zext i16 %c to i32 %d = call i16 @llvm.bitreverse.i16(i16 -2) %dd = zext i16 %d to i32 %e = call i16 @llvm.bitreverse.i16(i16 4660) %ee = zext i16 %e to i32 %n = call i32 (ptr, ...) @printf(ptr @f, i32 %aa, i32 %bb, i32 %cc, i32 %dd, i32 %ee) ret i32 0 } declare i16 @llvm.bitreverse.i16(i16)~
8000 1 c000 7fff 2c48~
exit 0~
0
====
@f = constant [15 x i8] c"%x %x %x %x %x\00" define i32 @main() { %a = call i32 @llvm.bitreverse.i32(i32 1) %b = call i32 @llvm.bitreverse.i32(i32 -2147483648) %c = call i32 @llvm.bitreverse.i32(i32 3) %d = call i32 @llvm.bitreverse.i32(i32 -2) %e = call i32 @llvm.bitreverse.i32(i32 305419896) %n = call i32 (ptr, ...) @printf(ptr @f, i32 %a, i32 %b, i32 %c, i32 %d, i32 %e) ret i32 0 } declare i32 @llvm.bitreverse.i32(i32)~
80000000 1 c0000000 7fffffff 1e6a2c48~
exit 0~
0
====
@f = constant [20 x i8] c"%lx %lx %lx %lx %lx\00" define i32 @main() { %a = call i64 @llvm.bitreverse.i64(i64 1) %b = call i64 @llvm.bitreverse.i64(i64 -9223372036854775808) %c = call i64 @llvm.bitreverse.i64(i64 3) %d = call i64 @llvm.bitreverse.i64(i64 -2) %e = call i64 @llvm.bitreverse.i64(i64 1311768467463790320) %n = call i32 (ptr, ...) @printf(ptr @f, i64 %a, i64 %b, i64 %c, i64 %d, i64 %e) ret i32 0 } declare i64 @llvm.bitreverse.i64(i64)~
8000000000000000 1 c000000000000000 7fffffffffffffff f7b3d591e6a2c48~
exit 0~
0
====
@f = constant [15 x i8] c"%x %x %x %x %x\00" define i32 @main() { %a = call i8 @llvm.fshl.i8(i8 18, i8 -102, i8 4) %aa = zext i8 %a to i32 %b = call i8 @llvm.fshl.i8(i8 18, i8 -102, i8 0) %bb = zext i8 %b to i32 %c = call i8 @llvm.fshl.i8(i8 18, i8 -102, i8 8) %cc = zext i8 %c to i32 %d = call i8 @llvm.fshl.i8(i8 18, i8 -102, i8 12) %dd = zext i8 %d to i32 %e = call i8 @llvm.fshl.i8(i8 18, i8 18, i8 4) %ee = zext i8 %e to i32 %n = call i32 (ptr, ...) @printf(ptr @f, i32 %aa, i32 %bb, i32 %cc, i32 %dd, i32 %ee) ret i32 0 } declare i8 @llvm.fshl.i8(i8, i8, i8)~
29 12 12 29 21~
exit 0~
0
====
@f = constant [15 x i8] c"%x %x %x %x %x\00" define i32 @main() { %a = call i16 @llvm.fshl.i16(i16 4660, i16 -25924, i16 4) %aa = zext i16 %a to i32 %b = call i16 @llvm.fshl.i16(i16 4660, i16 -25924, i16 0) %bb = zext i16 %b to i32 %c = call i16 @llvm.fshl.i16(i16 4660, i16 -25924, i16 16) %cc = zext i16 %c to i32 %d = call i16 @llvm.fshl.i16(i16 4660, i16 -25924, i16 20) %dd = zext i16 %d to i32 %e = call i16 @llvm.fshl.i16(i16 4660, i16 4660, i16 12) %ee = zext i16 %e to i32 %n = call i32 (ptr, ...) @printf(ptr @f, i32 %aa, i32 %bb, i32 %cc, i32 %dd, i32 %ee) ret i32 0 } declare i16 @llvm.fshl.i16(i16, i16, i16)~
2349 1234 1234 2349 4123~
exit 0~
0
====
@f = constant [15 x i8] c"%x %x %x %x %x\00" define i32 @main() { %a = call i32 @llvm.fshl.i32(i32 305419896, i32 -1698898192, i32 4) %b = call i32 @llvm.fshl.i32(i32 305419896, i32 -1698898192, i32 0) %c = call i32 @llvm.fshl.i32(i32 305419896, i32 -1698898192, i32 32) %d = call i32 @llvm.fshl.i32(i32 305419896, i32 -1698898192, i32 36) %e = call i32 @llvm.fshl.i32(i32 305419896, i32 305419896, i32 28) %n = call i32 (ptr, ...) @printf(ptr @f, i32 %a, i32 %b, i32 %c, i32 %d, i32 %e) ret i32 0 } declare i32 @llvm.fshl.i32(i32, i32, i32)~
23456789 12345678 12345678 23456789 81234567~
exit 0~
0
====
@f = constant [20 x i8] c"%lx %lx %lx %lx %lx\00" define i32 @main() { %a = call i64 @llvm.fshl.i64(i64 1311768467463790320, i64 1147797409030816545, i64 4) %b = call i64 @llvm.fshl.i64(i64 1311768467463790320, i64 1147797409030816545, i64 0) %c = call i64 @llvm.fshl.i64(i64 1311768467463790320, i64 1147797409030816545, i64 64) %d = call i64 @llvm.fshl.i64(i64 1311768467463790320, i64 1147797409030816545, i64 68) %e = call i64 @llvm.fshl.i64(i64 1311768467463790320, i64 1311768467463790320, i64 60) %n = call i32 (ptr, ...) @printf(ptr @f, i64 %a, i64 %b, i64 %c, i64 %d, i64 %e) ret i32 0 } declare i64 @llvm.fshl.i64(i64, i64, i64)~
23456789abcdef00 123456789abcdef0 123456789abcdef0 23456789abcdef00 123456789abcdef~
exit 0~
0
====
@f = constant [15 x i8] c"%x %x %x %x %x\00" define i32 @main() { %a = call i8 @llvm.fshr.i8(i8 18, i8 -102, i8 4) %aa = zext i8 %a to i32 %b = call i8 @llvm.fshr.i8(i8 18, i8 -102, i8 0) %bb = zext i8 %b to i32 %c = call i8 @llvm.fshr.i8(i8 18, i8 -102, i8 8) %cc = zext i8 %c to i32 %d = call i8 @llvm.fshr.i8(i8 18, i8 -102, i8 12) %dd = zext i8 %d to i32 %e = call i8 @llvm.fshr.i8(i8 18, i8 18, i8 4) %ee = zext i8 %e to i32 %n = call i32 (ptr, ...) @printf(ptr @f, i32 %aa, i32 %bb, i32 %cc, i32 %dd, i32 %ee) ret i32 0 } declare i8 @llvm.fshr.i8(i8, i8, i8)~
29 9a 9a 29 21~
exit 0~
0
====
@f = constant [15 x i8] c"%x %x %x %x %x\00" define i32 @main() { %a = call i16 @llvm.fshr.i16(i16 4660, i16 -25924, i16 4) %aa = zext i16 %a to i32 %b = call i16 @llvm.fshr.i16(i16 4660, i16 -25924, i16 0) %bb = zext i16 %b to i32 %c = call i16 @llvm.fshr.i16(i16 4660, i16 -25924, i16 16) %cc = zext i16 %c to i32 %d = call i16 @llvm.fshr.i16(i16 4660, i16 -25924, i16 20) %dd = zext i16 %d to i32 %e = call i16 @llvm.fshr.i16(i16 4660, i16 4660, i16 12) %ee = zext i16 %e to i32 %n = call i32 (ptr, ...) @printf(ptr @f, i32 %aa, i32 %bb, i32 %cc, i32 %dd, i32 %ee) ret i32 0 } declare i16 @llvm.fshr.i16(i16, i16, i16)~
49ab 9abc 9abc 49ab 2341~
exit 0~
0
====
@f = constant [15 x i8] c"%x %x %x %x %x\00" define i32 @main() { %a = call i32 @llvm.fshr.i32(i32 305419896, i32 -1698898192, i32 4) %b = call i32 @llvm.fshr.i32(i32 305419896, i32 -1698898192, i32 0) %c = call i32 @llvm.fshr.i32(i32 305419896, i32 -1698898192, i32 32) %d = call i32 @llvm.fshr.i32(i32 305419896, i32 -1698898192, i32 36) %e = call i32 @llvm.fshr.i32(i32 305419896, i32 305419896, i32 28) %n = call i32 (ptr, ...) @printf(ptr @f, i32 %a, i32 %b, i32 %c, i32 %d, i32 %e) ret i32 0 } declare i32 @llvm.fshr.i32(i32, i32, i32)~
89abcdef 9abcdef0 9abcdef0 89abcdef 23456781~
exit 0~
0
====
@f = constant [20 x i8] c"%lx %lx %lx %lx %lx\00" define i32 @main() { %a = call i64 @llvm.fshr.i64(i64 1311768467463790320, i64 1147797409030816545, i64 4) %b = call i64 @llvm.fshr.i64(i64 1311768467463790320, i64 1147797409030816545, i64 0) %c = call i64 @llvm.fshr.i64(i64 1311768467463790320, i64 1147797409030816545, i64 64) %d = call i64 @llvm.fshr.i64(i64 1311768467463790320, i64 1147797409030816545, i64 68) %e = call i64 @llvm.fshr.i64(i64 1311768467463790320, i64 1311768467463790320, i64 60) %n = call i32 (ptr, ...) @printf(ptr @f, i64 %a, i64 %b, i64 %c, i64 %d, i64 %e) ret i32 0 } declare i64 @llvm.fshr.i64(i64, i64, i64)~
fedcba98765432 fedcba987654321 fedcba987654321 fedcba98765432 23456789abcdef01~
exit 0~
0
====
@f = constant [15 x i8] c"%d %d %d %d %d\00" define i32 @main() { %a = call i8 @llvm.expect.i8(i8 6, i8 0) %aa = sext i8 %a to i32 %b = call i8 @llvm.expect.i8(i8 0, i8 6) %bb = sext i8 %b to i32 %c = call i8 @llvm.expect.i8(i8 -1, i8 1) %cc = sext i8 %c to i32 %d = call i8 @llvm.expect.i8(i8 -128, i8 127) %dd = sext i8 %d to i32 %e = call i8 @llvm.expect.i8(i8 127, i8 -128) %ee = sext i8 %e to i32 %n = call i32 (ptr, ...) @printf(ptr @f, i32 %aa, i32 %bb, i32 %cc, i32 %dd, i32 %ee) ret i32 0 } declare i8 @llvm.expect.i8(i8, i8)~
6 0 -1 -128 127~
exit 0~
0
====
@f = constant [15 x i8] c"%d %d %d %d %d\00" define i32 @main() { %a = call i16 @llvm.expect.i16(i16 6, i16 0) %aa = sext i16 %a to i32 %b = call i16 @llvm.expect.i16(i16 0, i16 6) %bb = sext i16 %b to i32 %c = call i16 @llvm.expect.i16(i16 -1, i16 1) %cc = sext i16 %c to i32 %d = call i16 @llvm.expect.i16(i16 -32768, i16 32767) %dd = sext i16 %d to i32 %e = call i16 @llvm.expect.i16(i16 32767, i16 -32768) %ee = sext i16 %e to i32 %n = call i32 (ptr, ...) @printf(ptr @f, i32 %aa, i32 %bb, i32 %cc, i32 %dd, i32 %ee) ret i32 0 } declare i16 @llvm.expect.i16(i16, i16)~
6 0 -1 -32768 32767~
exit 0~
0
====
@f = constant [15 x i8] c"%d %d %d %d %d\00" define i32 @main() { %a = call i32 @llvm.expect.i32(i32 6, i32 0) %b = call i32 @llvm.expect.i32(i32 0, i32 6) %c = call i32 @llvm.expect.i32(i32 -1, i32 1) %d = call i32 @llvm.expect.i32(i32 -2147483648, i32 2147483647) %e = call i32 @llvm.expect.i32(i32 2147483647, i32 -2147483648) %n = call i32 (ptr, ...) @printf(ptr @f, i32 %a, i32 %b, i32 %c, i32 %d, i32 %e) ret i32 0 } declare i32 @llvm.expect.i32(i32, i32)~
6 0 -1 -2147483648 2147483647~
exit 0~
0
====
@f = constant [20 x i8] c"%ld %ld %ld %ld %ld\00" define i32 @main() { %a = call i64 @llvm.expect.i64(i64 6, i64 0) %b = call i64 @llvm.expect.i64(i64 0, i64 6) %c = call i64 @llvm.expect.i64(i64 -1, i64 1) %d = call i64 @llvm.expect.i64(i64 -9223372036854775808, i64 9223372036854775807) %e = call i64 @llvm.expect.i64(i64 9223372036854775807, i64 -9223372036854775808) %n = call i32 (ptr, ...) @printf(ptr @f, i64 %a, i64 %b, i64 %c, i64 %d, i64 %e) ret i32 0 } declare i64 @llvm.expect.i64(i64, i64)~
6 0 -1 -9223372036854775808 9223372036854775807~
exit 0~
0
====
"#;

/// Five calls at each width of the absolute value, and of the greater or smaller word.
static ORDERS: &[u8] =
    br#"@f = constant [15 x i8] c"%d %d %d %d %d\00" define i32 @main() { %a = call i8 @llvm.abs.i8(i8 5, i1 false) %aa = sext i8 %a to i32 %b = call i8 @llvm.abs.i8(i8 -5, i1 true) %bb = sext i8 %b to i32 %c = call i8 @llvm.abs.i8(i8 127, i1 true) %cc = sext i8 %c to i32 %d = call i8 @llvm.abs.i8(i8 -128, i1 false) %dd = sext i8 %d to i32 %e = call i8 @llvm.abs.i8(i8 -127, i1 true) %ee = sext i8 %e to i32 %n = call i32 (ptr, ...) @printf(ptr @f, i32 %aa, i32 %bb, i32 %cc, i32 %dd, i32 %ee) ret i32 0 } declare i8 @llvm.abs.i8(i8, i1)~
5 5 127 -128 127~
exit 0~
0
====
@f = constant [15 x i8] c"%d %d %d %d %d\00" define i32 @main() { %a = call i16 @llvm.abs.i16(i16 5, i1 false) %aa = sext i16 %a to i32 %b = call i16 @llvm.abs.i16(i16 -5, i1 true) %bb = sext i16 %b to i32 %c = call i16 @llvm.abs.i16(i16 32767, i1 true) %cc = sext i16 %c to i32 %d = call i16 @llvm.abs.i16(i16 -32768, i1 false) %dd = sext i16 %d to i32 %e = call i16 @llvm.abs.i16(i16 -32767, i1 true) %ee = sext i16 %e to i32 %n = call i32 (ptr, ...) @printf(ptr @f, i32 %aa, i32 %bb, i32 %cc, i32 %dd, i32 %ee) ret i32 0 } declare i16 @llvm.abs.i16(i16, i1)~
5 5 32767 -32768 32767~
exit 0~
0
====
@f = constant [15 x i8] c"%d %d %d %d %d\00" define i32 @main() { %a = call i32 @llvm.abs.i32(i32 5, i1 false) %b = call i32 @llvm.abs.i32(i32 -5, i1 true) %c = call i32 @llvm.abs.i32(i32 2147483647, i1 true) %d = call i32 @llvm.abs.i32(i32 -2147483648, i1 false) %e = call i32 @llvm.abs.i32(i32 -2147483647, i1 true) %n = call i32 (ptr, ...) @printf(ptr @f, i32 %a, i32 %b, i32 %c, i32 %d, i32 %e) ret i32 0 } declare i32 @llvm.abs.i32(i32, i1)~
5 5 2147483647 -2147483648 2147483647~
exit 0~
0
====
@f = constant [20 x i8] c"%ld %ld %ld %ld %ld\00" define i32 @main() { %a = call i64 @llvm.abs.i64(i64 5, i1 false) %b = call i64 @llvm.abs.i64(i64 -5, i1 true) %c = call i64 @llvm.abs.i64(i64 9223372036854775807, i1 true) %d = call i64 @llvm.abs.i64(i64 -9223372036854775808, i1 false) %e = call i64 @llvm.abs.i64(i64 -9223372036854775807, i1 true) %n = call i32 (ptr, ...) @printf(ptr @f, i64 %a, i64 %b, i64 %c, i64 %d, i64 %e) ret i32 0 } declare i64 @llvm.abs.i64(i64, i1)~
5 5 9223372036854775807 -9223372036854775808 9223372036854775807~
exit 0~
0
====
@f = constant [15 x i8] c"%d %d %d %d %d\00" define i32 @main() { %a = call i8 @llvm.smax.i8(i8 -1, i8 5) %aa = sext i8 %a to i32 %b = call i8 @llvm.smax.i8(i8 5, i8 -1) %bb = sext i8 %b to i32 %c = call i8 @llvm.smax.i8(i8 -128, i8 127) %cc = sext i8 %c to i32 %d = call i8 @llvm.smax.i8(i8 -7, i8 -9) %dd = sext i8 %d to i32 %e = call i8 @llvm.smax.i8(i8 -128, i8 0) %ee = sext i8 %e to i32 %n = call i32 (ptr, ...) @printf(ptr @f, i32 %aa, i32 %bb, i32 %cc, i32 %dd, i32 %ee) ret i32 0 } declare i8 @llvm.smax.i8(i8, i8)~
5 5 127 -7 0~
exit 0~
0
====
@f = constant [15 x i8] c"%d %d %d %d %d\00" define i32 @main() { %a = call i16 @llvm.smax.i16(i16 -1, i16 5) %aa = sext i16 %a to i32 %b = call i16 @llvm.smax.i16(i16 5, i16 -1) %bb = sext i16 %b to i32 %c = call i16 @llvm.smax.i16(i16 -32768, i16 32767) %cc = sext i16 %c to i32 %d = call i16 @llvm.smax.i16(i16 -7, i16 -9) %dd = sext i16 %d to i32 %e = call i16 @llvm.smax.i16(i16 -32768, i16 0) %ee = sext i16 %e to i32 %n = call i32 (ptr, ...) @printf(ptr @f, i32 %aa, i32 %bb, i32 %cc, i32 %dd, i32 %ee) ret i32 0 } declare i16 @llvm.smax.i16(i16, i16)~
5 5 32767 -7 0~
exit 0~
0
====
@f = constant [15 x i8] c"%d %d %d %d %d\00" define i32 @main() { %a = call i32 @llvm.smax.i32(i32 -1, i32 5) %b = call i32 @llvm.smax.i32(i32 5, i32 -1) %c = call i32 @llvm.smax.i32(i32 -2147483648, i32 2147483647) %d = call i32 @llvm.smax.i32(i32 -7, i32 -9) %e = call i32 @llvm.smax.i32(i32 -2147483648, i32 0) %n = call i32 (ptr, ...) @printf(ptr @f, i32 %a, i32 %b, i32 %c, i32 %d, i32 %e) ret i32 0 } declare i32 @llvm.smax.i32(i32, i32)~
5 5 2147483647 -7 0~
exit 0~
0
====
@f = constant [20 x i8] c"%ld %ld %ld %ld %ld\00" define i32 @main() { %a = call i64 @llvm.smax.i64(i64 -1, i64 5) %b = call i64 @llvm.smax.i64(i64 5, i64 -1) %c = call i64 @llvm.smax.i64(i64 -9223372036854775808, i64 9223372036854775807) %d = call i64 @llvm.smax.i64(i64 -7, i64 -9) %e = call i64 @llvm.smax.i64(i64 -9223372036854775808, i64 0) %n = call i32 (ptr, ...) @printf(ptr @f, i64 %a, i64 %b, i64 %c, i64 %d, i64 %e) ret i32 0 } declare i64 @llvm.smax.i64(i64, i64)~
5 5 9223372036854775807 -7 0~
exit 0~
0
====
@f = constant [15 x i8] c"%d %d %d %d %d\00" define i32 @main() { %a = call i8 @llvm.smin.i8(i8 -1, i8 5) %aa = sext i8 %a to i32 %b = call i8 @llvm.smin.i8(i8 5, i8 -1) %bb = sext i8 %b to i32 %c = call i8 @llvm.smin.i8(i8 -128, i8 127) %cc = sext i8 %c to i32 %d = call i8 @llvm.smin.i8(i8 -7, i8 -9) %dd = sext i8 %d to i32 %e = call i8 @llvm.smin.i8(i8 127, i8 0) %ee = sext i8 %e to i32 %n = call i32 (ptr, ...) @printf(ptr @f, i32 %aa, i32 %bb, i32 %cc, i32 %dd, i32 %ee) ret i32 0 } declare i8 @llvm.smin.i8(i8, i8)~
-1 -1 -128 -9 0~
exit 0~
0
====
@f = constant [15 x i8] c"%d %d %d %d %d\00" define i32 @main() { %a = call i16 @llvm.smin.i16(i16 -1, i16 5) %aa = sext i16 %a to i32 %b = call i16 @llvm.smin.i16(i16 5, i16 -1) %bb = sext i16 %b to i32 %c = call i16 @llvm.smin.i16(i16 -32768, i16 32767) %cc = sext i16 %c to i32 %d = call i16 @llvm.smin.i16(i16 -7, i16 -9) %dd = sext i16 %d to i32 %e = call i16 @llvm.smin.i16(i16 32767, i16 0) %ee = sext i16 %e to i32 %n = call i32 (ptr, ...) @printf(ptr @f, i32 %aa, i32 %bb, i32 %cc, i32 %dd, i32 %ee) ret i32 0 } declare i16 @llvm.smin.i16(i16, i16)~
-1 -1 -32768 -9 0~
exit 0~
0
====
@f = constant [15 x i8] c"%d %d %d %d %d\00" define i32 @main() { %a = call i32 @llvm.smin.i32(i32 -1, i32 5) %b = call i32 @llvm.smin.i32(i32 5, i32 -1) %c = call i32 @llvm.smin.i32(i32 -2147483648, i32 2147483647) %d = call i32 @llvm.smin.i32(i32 -7, i32 -9) %e = call i32 @llvm.smin.i32(i32 2147483647, i32 0) %n = call i32 (ptr, ...) @printf(ptr @f, i32 %a, i32 %b, i32 %c, i32 %d, i32 %e) ret i32 0 } declare i32 @llvm.smin.i32(i32, i32)~
-1 -1 -2147483648 -9 0~
exit 0~
0
====
@f = constant [20 x i8] c"%ld %ld %ld %ld %ld\00" define i32 @main() { %a = call i64 @llvm.smin.i64(i64 -1, i64 5) %b = call i64 @llvm.smin.i64(i64 5, i64 -1) %c = call i64 @llvm.smin.i64(i64 -9223372036854775808, i64 9223372036854775807) %d = call i64 @llvm.smin.i64(i64 -7, i64 -9) %e = call i64 @llvm.smin.i64(i64 9223372036854775807, i64 0) %n = call i32 (ptr, ...) @printf(ptr @f, i64 %a, i64 %b, i64 %c, i64 %d, i64 %e) ret i32 0 } declare i64 @llvm.smin.i64(i64, i64)~
-1 -1 -9223372036854775808 -9 0~
exit 0~
0
====
@f = constant [15 x i8] c"%u %u %u %u %u\00" define i32 @main() { %a = call i8 @llvm.umax.i8(i8 -1, i8 5) %aa = zext i8 %a to i32 %b = call i8 @llvm.umax.i8(i8 5, i8 -1) %bb = zext i8 %b to i32 %c = call i8 @llvm.umax.i8(i8 -128, i8 127) %cc = zext i8 %c to i32 %d = call i8 @llvm.umax.i8(i8 7, i8 9) %dd = zext i8 %d to i32 %e = call i8 @llvm.umax.i8(i8 0, i8 0) %ee = zext i8 %e to i32 %n = call i32 (ptr, ...) @printf(ptr @f, i32 %aa, i32 %bb, i32 %cc, i32 %dd, i32 %ee) ret i32 0 } declare i8 @llvm.umax.i8(i8, i8)~
255 255 128 9 0~
exit 0~
0
====
@f = constant [15 x i8] c"%u %u %u %u %u\00" define i32 @main() { %a = call i16 @llvm.umax.i16(i16 -1, i16 5) %aa = zext i16 %a to i32 %b = call i16 @llvm.umax.i16(i16 5, i16 -1) %bb = zext i16 %b to i32 %c = call i16 @llvm.umax.i16(i16 -32768, i16 32767) %cc = zext i16 %c to i32 %d = call i16 @llvm.umax.i16(i16 7, i16 9) %dd = zext i16 %d to i32 %e = call i16 @llvm.umax.i16(i16 0, i16 0) %ee = zext i16 %e to i32 %n = call i32 (ptr, ...) @printf(ptr @f, i32 %aa, i32 %bb, i32 %cc, i32 %dd, i32 %ee) ret i32 0 } declare i16 @llvm.umax.i16(i16, i16)~
65535 65535 32768 9 0~
exit 0~
0
====
@f = constant [15 x i8] c"%u %u %u %u %u\00" define i32 @main() { %a = call i32 @llvm.umax.i32(i32 -1, i32 5) %b = call i32 @llvm.umax.i32(i32 5, i32 -1) %c = call i32 @llvm.umax.i32(i32 -2147483648, i32 2147483647) %d = call i32 @llvm.umax.i32(i32 7, i32 9) %e = call i32 @llvm.umax.i32(i32 0, i32 0) %n = call i32 (ptr, ...) @printf(ptr @f, i32 %a, i32 %b, i32 %c, i32 %d, i32 %e) ret i32 0 } declare i32 @llvm.umax.i32(i32, i32)~
4294967295 4294967295 2147483648 9 0~
exit 0~
0
====
@f = constant [20 x i8] c"%lu %lu %lu %lu %lu\00" define i32 @main() { %a = call i64 @llvm.umax.i64(i64 -1, i64 5) %b = call i64 @llvm.umax.i64(i64 5, i64 -1) %c = call i64 @llvm.umax.i64(i64 -9223372036854775808, i64 9223372036854775807) %d = call i64 @llvm.umax.i64(i64 7, i64 9) %e = call i64 @llvm.umax.i64(i64 0, i64 0) %n = call i32 (ptr, ...) @printf(ptr @f, i64 %a, i64 %b, i64 %c, i64 %d, i64 %e) ret i32 0 } declare i64 @llvm.umax.i64(i64, i64)~
18446744073709551615 18446744073709551615 9223372036854775808 9 0~
exit 0~
0
====
@f = constant [15 x i8] c"%u %u %u %u %u\00" define i32 @main() { %a = call i8 @llvm.umin.i8(i8 -1, i8 5) %aa = zext i8 %a to i32 %b = call i8 @llvm.umin.i8(i8 5, i8 -1) %bb = zext i8 %b to i32 %c = call i8 @llvm.umin.i8(i8 -128, i8 127) %cc = zext i8 %c to i32 %d = call i8 @llvm.umin.i8(i8 7, i8 9) %dd = zext i8 %d to i32 %e = call i8 @llvm.umin.i8(i8 -1, i8 -1) %ee = zext i8 %e to i32 %n = call i32 (ptr, ...) @printf(ptr @f, i32 %aa, i32 %bb, i32 %cc, i32 %dd, i32 %ee) ret i32 0 } declare i8 @llvm.umin.i8(i8, i8)~
5 5 127 7 255~
exit 0~
0
====
@f = constant [15 x i8] c"%u %u %u %u %u\00" define i32 @main() { %a = call i16 @llvm.umin.i16(i16 -1, i16 5) %aa = zext i16 %a to i32 %b = call i16 @llvm.umin.i16(i16 5, i16 -1) %bb = zext i16 %b to i32 %c = call i16 @llvm.umin.i16(i16 -32768, i16 32767) %cc = zext i16 %c to i32 %d = call i16 @llvm.umin.i16(i16 7, i16 9) %dd = zext i16 %d to i32 %e = call i16 @llvm.umin.i16(i16 -1, i16 -1) %ee = zext i16 %e to i32 %n = call i32 (ptr, ...) @printf(ptr @f, i32 %aa, i32 %bb, i32 %cc, i32 %dd, i32 %ee) ret i32 0 } declare i16 @llvm.umin.i16(i16, i16)~
5 5 32767 7 65535~
exit 0~
0
====
@f = constant [15 x i8] c"%u %u %u %u %u\00" define i32 @main() { %a = call i32 @llvm.umin.i32(i32 -1, i32 5) %b = call i32 @llvm.umin.i32(i32 5, i32 -1) %c = call i32 @llvm.umin.i32(i32 -2147483648, i32 2147483647) %d = call i32 @llvm.umin.i32(i32 7, i32 9) %e = call i32 @llvm.umin.i32(i32 -1, i32 -1) %n = call i32 (ptr, ...) @printf(ptr @f, i32 %a, i32 %b, i32 %c, i32 %d, i32 %e) ret i32 0 } declare i32 @llvm.umin.i32(i32, i32)~
5 5 2147483647 7 4294967295~
exit 0~
0
====
@f = constant [20 x i8] c"%lu %lu %lu %lu %lu\00" define i32 @main() { %a = call i64 @llvm.umin.i64(i64 -1, i64 5) %b = call i64 @llvm.umin.i64(i64 5, i64 -1) %c = call i64 @llvm.umin.i64(i64 -9223372036854775808, i64 9223372036854775807) %d = call i64 @llvm.umin.i64(i64 7, i64 9) %e = call i64 @llvm.umin.i64(i64 -1, i64 -1) %n = call i32 (ptr, ...) @printf(ptr @f, i64 %a, i64 %b, i64 %c, i64 %d, i64 %e) ret i32 0 } declare i64 @llvm.umin.i64(i64, i64)~
5 5 9223372036854775807 7 18446744073709551615~
exit 0~
0
====
"#;

/// Five calls at each width of sums and differences that saturate.
static SUMS: &[u8] =
    br#"@f = constant [15 x i8] c"%u %u %u %u %u\00" define i32 @main() { %a = call i8 @llvm.uadd.sat.i8(i8 1, i8 2) %aa = zext i8 %a to i32 %b = call i8 @llvm.uadd.sat.i8(i8 -1, i8 1) %bb = zext i8 %b to i32 %c = call i8 @llvm.uadd.sat.i8(i8 -128, i8 -128) %cc = zext i8 %c to i32 %d = call i8 @llvm.uadd.sat.i8(i8 -2, i8 1) %dd = zext i8 %d to i32 %e = call i8 @llvm.uadd.sat.i8(i8 127, i8 1) %ee = zext i8 %e to i32 %n = call i32 (ptr, ...) @printf(ptr @f, i32 %aa, i32 %bb, i32 %cc, i32 %dd, i32 %ee) ret i32 0 } declare i8 @llvm.uadd.sat.i8(i8, i8)~
3 255 255 255 128~
exit 0~
0
====
@f = constant [15 x i8] c"%u %u %u %u %u\00" define i32 @main() { %a = call i16 @llvm.uadd.sat.i16(i16 1, i16 2) %aa = zext i16 %a to i32 %b = call i16 @llvm.uadd.sat.i16(i16 -1, i16 1) %bb = zext i16 %b to i32 %c = call i16 @llvm.uadd.sat.i16(i16 -32768, i16 -32768) %cc = zext i16 %c to i32 %d = call i16 @llvm.uadd.sat.i16(i16 -2, i16 1) %dd = zext i16 %d to i32 %e = call i16 @llvm.uadd.sat.i16(i16 32767, i16 1) %ee = zext i16 %e to i32 %n = call i32 (ptr, ...) @printf(ptr @f, i32 %aa, i32 %bb, i32 %cc, i32 %dd, i32 %ee) ret i32 0 } declare i16 @llvm.uadd.sat.i16(i16, i16)~
3 65535 65535 65535 32768~
exit 0~
0
====
@f = constant [15 x i8] c"%u %u %u %u %u\00" define i32 @main() { %a = call i32 @llvm.uadd.sat.i32(i32 1, i32 2) %b = call i32 @llvm.uadd.sat.i32(i32 -1, i32 1) %c = call i32 @llvm.uadd.sat.i32(i32 -2147483648, i32 -2147483648) %d = call i32 @llvm.uadd.sat.i32(i32 -2, i32 1) %e = call i32 @llvm.uadd.sat.i32(i32 2147483647, i32 1) %n = call i32 (ptr, ...) @printf(ptr @f, i32 %a, i32 %b, i32 %c, i32 %d, i32 %e) ret i32 0 } declare i32 @llvm.uadd.sat.i32(i32, i32)~
3 4294967295 4294967295 4294967295 2147483648~
exit 0~
0
====
@f = constant [20 x i8] c"%lu %lu %lu %lu %lu\00" define i32 @main() { %a = call i64 @llvm.uadd.sat.i64(i64 1, i64 2) %b = call i64 @llvm.uadd.sat.i64(i64 -1, i64 1) %c = call i64 @llvm.uadd.sat.i64(i64 -9223372036854775808, i64 -9223372036854775808) %d = call i64 @llvm.uadd.sat.i64(i64 -2, i64 1) %e = call i64 @llvm.uadd.sat.i64(i64 9223372036854775807, i64 1) %n = call i32 (ptr, ...) @printf(ptr @f, i64 %a, i64 %b, i64 %c, i64 %d, i64 %e) ret i32 0 } declare i64 @llvm.uadd.sat.i64(i64, i64)~
3 18446744073709551615 18446744073709551615 18446744073709551615 9223372036854775808~
exit 0~
0
====
@f = constant [15 x i8] c"%u %u %u %u %u\00" define i32 @main() { %a = call i8 @llvm.usub.sat.i8(i8 3, i8 2) %aa = zext i8 %a to i32 %b = call i8 @llvm.usub.sat.i8(i8 2, i8 3) %bb = zext i8 %b to i32 %c = call i8 @llvm.usub.sat.i8(i8 0, i8 -1) %cc = zext i8 %c to i32 %d = call i8 @llvm.usub.sat.i8(i8 -1, i8 1) %dd = zext i8 %d to i32 %e = call i8 @llvm.usub.sat.i8(i8 -128, i8 127) %ee = zext i8 %e to i32 %n = call i32 (ptr, ...) @printf(ptr @f, i32 %aa, i32 %bb, i32 %cc, i32 %dd, i32 %ee) ret i32 0 } declare i8 @llvm.usub.sat.i8(i8, i8)~
1 0 0 254 1~
exit 0~
0
====
@f = constant [15 x i8] c"%u %u %u %u %u\00" define i32 @main() { %a = call i16 @llvm.usub.sat.i16(i16 3, i16 2) %aa = zext i16 %a to i32 %b = call i16 @llvm.usub.sat.i16(i16 2, i16 3) %bb = zext i16 %b to i32 %c = call i16 @llvm.usub.sat.i16(i16 0, i16 -1) %cc = zext i16 %c to i32 %d = call i16 @llvm.usub.sat.i16(i16 -1, i16 1) %dd = zext i16 %d to i32 %e = call i16 @llvm.usub.sat.i16(i16 -32768, i16 32767) %ee = zext i16 %e to i32 %n = call i32 (ptr, ...) @printf(ptr @f, i32 %aa, i32 %bb, i32 %cc, i32 %dd, i32 %ee) ret i32 0 } declare i16 @llvm.usub.sat.i16(i16, i16)~
1 0 0 65534 1~
exit 0~
0
====
@f = constant [15 x i8] c"%u %u %u %u %u\00" define i32 @main() { %a = call i32 @llvm.usub.sat.i32(i32 3, i32 2) %b = call i32 @llvm.usub.sat.i32(i32 2, i32 3) %c = call i32 @llvm.usub.sat.i32(i32 0, i32 -1) %d = call i32 @llvm.usub.sat.i32(i32 -1, i32 1) %e = call i32 @llvm.usub.sat.i32(i32 -2147483648, i32 2147483647) %n = call i32 (ptr, ...) @printf(ptr @f, i32 %a, i32 %b, i32 %c, i32 %d, i32 %e) ret i32 0 } declare i32 @llvm.usub.sat.i32(i32, i32)~
1 0 0 4294967294 1~
exit 0~
0
====
@f = constant [20 x i8] c"%lu %lu %lu %lu %lu\00" define i32 @main() { %a = call i64 @llvm.usub.sat.i64(i64 3, i64 2) %b = call i64 @llvm.usub.sat.i64(i64 2, i64 3) %c = call i64 @llvm.usub.sat.i64(i64 0, i64 -1) %d = call i64 @llvm.usub.sat.i64(i64 -1, i64 1) %e = call i64 @llvm.usub.sat.i64(i64 -9223372036854775808, i64 9223372036854775807) %n = call i32 (ptr, ...) @printf(ptr @f, i64 %a, i64 %b, i64 %c, i64 %d, i64 %e) ret i32 0 } declare i64 @llvm.usub.sat.i64(i64, i64)~
1 0 0 18446744073709551614 1~
exit 0~
0
====
@f = constant [15 x i8] c"%d %d %d %d %d\00" define i32 @main() { %a = call i8 @llvm.sadd.sat.i8(i8 1, i8 2) %aa = sext i8 %a to i32 %b = call i8 @llvm.sadd.sat.i8(i8 127, i8 1) %bb = sext i8 %b to i32 %c = call i8 @llvm.sadd.sat.i8(i8 -128, i8 -1) %cc = sext i8 %c to i32 %d = call i8 @llvm.sadd.sat.i8(i8 127, i8 -128) %dd = sext i8 %d to i32 %e = call i8 @llvm.sadd.sat.i8(i8 -3, i8 -4) %ee = sext i8 %e to i32 %n = call i32 (ptr, ...) @printf(ptr @f, i32 %aa, i32 %bb, i32 %cc, i32 %dd, i32 %ee) ret i32 0 } declare i8 @llvm.sadd.sat.i8(i8, i8)~
3 127 -128 -1 -7~
exit 0~
0
====
@f = constant [15 x i8] c"%d %d %d %d %d\00" define i32 @main() { %a = call i16 @llvm.sadd.sat.i16(i16 1, i16 2) %aa = sext i16 %a to i32 %b = call i16 @llvm.sadd.sat.i16(i16 32767, i16 1) %bb = sext i16 %b to i32 %c = call i16 @llvm.sadd.sat.i16(i16 -32768, i16 -1) %cc = sext i16 %c to i32 %d = call i16 @llvm.sadd.sat.i16(i16 32767, i16 -32768) %dd = sext i16 %d to i32 %e = call i16 @llvm.sadd.sat.i16(i16 -3, i16 -4) %ee = sext i16 %e to i32 %n = call i32 (ptr, ...) @printf(ptr @f, i32 %aa, i32 %bb, i32 %cc, i32 %dd, i32 %ee) ret i32 0 } declare i16 @llvm.sadd.sat.i16(i16, i16)~
3 32767 -32768 -1 -7~
exit 0~
0
====
@f = constant [15 x i8] c"%d %d %d %d %d\00" define i32 @main() { %a = call i32 @llvm.sadd.sat.i32(i32 1, i32 2) %b = call i32 @llvm.sadd.sat.i32(i32 2147483647, i32 1) %c = call i32 @llvm.sadd.sat.i32(i32 -2147483648, i32 -1) %d = call i32 @llvm.sadd.sat.i32(i32 2147483647, i32 -2147483648) %e = call i32 @llvm.sadd.sat.i32(i32 -3, i32 -4) %n = call i32 (ptr, ...) @printf(ptr @f, i32 %a, i32 %b, i32 %c, i32 %d, i32 %e) ret i32 0 } declare i32 @llvm.sadd.sat.i32(i32, i32)~
3 2147483647 -2147483648 -1 -7~
exit 0~
0
====
@f = constant [20 x i8] c"%ld %ld %ld %ld %ld\00" define i32 @main() { %a = call i64 @llvm.sadd.sat.i64(i64 1, i64 2) %b = call i64 @llvm.sadd.sat.i64(i64 9223372036854775807, i64 1) %c = call i64 @llvm.sadd.sat.i64(i64 -9223372036854775808, i64 -1) %d = call i64 @llvm.sadd.sat.i64(i64 9223372036854775807, i64 -9223372036854775808) %e = call i64 @llvm.sadd.sat.i64(i64 -3, i64 -4) %n = call i32 (ptr, ...) @printf(ptr @f, i64 %a, i64 %b, i64 %c, i64 %d, i64 %e) ret i32 0 } declare i64 @llvm.sadd.sat.i64(i64, i64)~
3 9223372036854775807 -9223372036854775808 -1 -7~
exit 0~
0
====
@f = constant [15 x i8] c"%d %d %d %d %d\00" define i32 @main() { %a = call i8 @llvm.ssub.sat.i8(i8 1, i8 2) %aa = sext i8 %a to i32 %b = call i8 @llvm.ssub.sat.i8(i8 -128, i8 1) %bb = sext i8 %b to i32 %c = call i8 @llvm.ssub.sat.i8(i8 127, i8 -1) %cc = sext i8 %c to i32 %d = call i8 @llvm.ssub.sat.i8(i8 0, i8 -128) %dd = sext i8 %d to i32 %e = call i8 @llvm.ssub.sat.i8(i8 -1, i8 -128) %ee = sext i8 %e to i32 %n = call i32 (ptr, ...) @printf(ptr @f, i32 %aa, i32 %bb, i32 %cc, i32 %dd, i32 %ee) ret i32 0 } declare i8 @llvm.ssub.sat.i8(i8, i8)~
-1 -128 127 127 127~
exit 0~
0
====
@f = constant [15 x i8] c"%d %d %d %d %d\00" define i32 @main() { %a = call i16 @llvm.ssub.sat.i16(i16 1, i16 2) %aa = sext i16 %a to i32 %b = call i16 @llvm.ssub.sat.i16(i16 -32768, i16 1) %bb = sext i16 %b to i32 %c = call i16 @llvm.ssub.sat.i16(i16 32767, i16 -1) %cc = sext i16 %c to i32 %d = call i16 @llvm.ssub.sat.i16(i16 0, i16 -32768) %dd = sext i16 %d to i32 %e = call i16 @llvm.ssub.sat.i16(i16 -1, i16 -32768) %ee = sext i16 %e to i32 %n = call i32 (ptr, ...) @printf(ptr @f, i32 %aa, i32 %bb, i32 %cc, i32 %dd, i32 %ee) ret i32 0 } declare i16 @llvm.ssub.sat.i16(i16, i16)~
-1 -32768 32767 32767 32767~
exit 0~
0
====
@f = constant [15 x i8] c"%d %d %d %d %d\00" define i32 @main() { %a = call i32 @llvm.ssub.sat.i32(i32 1, i32 2) %b = call i32 @llvm.ssub.sat.i32(i32 -2147483648, i32 1) %c = call i32 @llvm.ssub.sat.i32(i32 2147483647, i32 -1) %d = call i32 @llvm.ssub.sat.i32(i32 0, i32 -2147483648) %e = call i32 @llvm.ssub.sat.i32(i32 -1, i32 -2147483648) %n = call i32 (ptr, ...) @printf(ptr @f, i32 %a, i32 %b, i32 %c, i32 %d, i32 %e) ret i32 0 } declare i32 @llvm.ssub.sat.i32(i32, i32)~
-1 -2147483648 2147483647 2147483647 2147483647~
exit 0~
0
====
@f = constant [20 x i8] c"%ld %ld %ld %ld %ld\00" define i32 @main() { %a = call i64 @llvm.ssub.sat.i64(i64 1, i64 2) %b = call i64 @llvm.ssub.sat.i64(i64 -9223372036854775808, i64 1) %c = call i64 @llvm.ssub.sat.i64(i64 9223372036854775807, i64 -1) %d = call i64 @llvm.ssub.sat.i64(i64 0, i64 -9223372036854775808) %e = call i64 @llvm.ssub.sat.i64(i64 -1, i64 -9223372036854775808) %n = call i32 (ptr, ...) @printf(ptr @f, i64 %a, i64 %b, i64 %c, i64 %d, i64 %e) ret i32 0 } declare i64 @llvm.ssub.sat.i64(i64, i64)~
-1 -9223372036854775808 9223372036854775807 9223372036854775807 9223372036854775807~
exit 0~
0
====
"#;

#[test]
fn bits_are_counted(rt: HostRuntime) -> Result<(), Fail> {
    assert!(rt; all_told_runs(&rt, rt.alloc(), &[COUNTS]));
    Ok(())
}

#[test]
fn bits_are_moved(rt: HostRuntime) -> Result<(), Fail> {
    assert!(rt; all_told_runs(&rt, rt.alloc(), &[MOVES]));
    Ok(())
}

#[test]
fn words_are_compared(rt: HostRuntime) -> Result<(), Fail> {
    assert!(rt; all_told_runs(&rt, rt.alloc(), &[ORDERS]));
    Ok(())
}

#[test]
fn words_are_added(rt: HostRuntime) -> Result<(), Fail> {
    assert!(rt; all_told_runs(&rt, rt.alloc(), &[SUMS]));
    Ok(())
}
