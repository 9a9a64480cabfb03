//! Runs of modules with marked instructions, which reach shadow and slots. What a check is handed shows in its report.

use ms_top_rows::modules::Marked;
use ms_top_rows::told::all_told;
use std::alloc::Global;
use std::test::Fail;
use std::thread::Threads;

/// Checks report.
/// A check of a mask that is 0 says nothing. With the last report the run ends, before the instruction.
static CHECKS: &[u8] =
    br#"define i32 @main() { call void @__msan_check(i64 0, i32 64, i32 0, i32 7, i32 0, i32 1), !nosanitize !0 ret i32 3 }~
1~
10000000~
~
end: exit 3
reports: 0
blind: 0
~
0
====
define i32 @main() { call void @__msan_check(i64 1, i32 64, i32 0, i32 7, i32 0, i32 1), !nosanitize !0 %a = call i32 @putchar(i32 65) ret i32 3 }~
1~
10000000~
~
report 1: value at site 1 in @main, part 0, bits 0x1 of i64
  origin 0: unknown
end: reported
reports: 1
blind: 0
~
77
====
define i32 @main() { call void @__msan_check(i64 255, i32 8, i32 0, i32 1, i32 2, i32 2), !nosanitize !0 %a = call i32 @putchar(i32 65) ret i32 3 }~
1~
10000000~
~
report 1: branch at site 2 in @main, part 2, bits 0xff of i8
  origin 0: unknown
end: reported
reports: 1
blind: 0
~
77
====
define i32 @main() { %a = call i32 @putchar(i32 65) call void @__msan_check(i64 1, i32 64, i32 0, i32 7, i32 0, i32 1), !nosanitize !0 %b = call i32 @putchar(i32 66) call void @__msan_check(i64 0, i32 64, i32 0, i32 7, i32 0, i32 1), !nosanitize !0 call void @__msan_check(i64 2, i32 64, i32 0, i32 8, i32 0, i32 1), !nosanitize !0 %c = call i32 @putchar(i32 67) ret i32 3 }~
2~
10000000~
AB~
report 1: value at site 1 in @main, part 0, bits 0x1 of i64
  origin 0: unknown
report 2: exit at site 1 in @main, part 0, bits 0x2 of i64
  origin 0: unknown
end: reported
reports: 2
blind: 0
~
77
====
define i32 @main() { call void @__msan_check(i64 1, i32 64, i32 0, i32 7, i32 0, i32 1), !nosanitize !0 %a = call i32 @putchar(i32 65) ret i32 3 }~
2~
10000000~
A~
report 1: value at site 1 in @main, part 0, bits 0x1 of i64
  origin 0: unknown
end: exit 3
reports: 1
blind: 0
~
77
====
define i32 @main() { call void @__msan_check(i64 1, i32 64, i32 0, i32 7, i32 0, i32 1), !nosanitize !0 %a = udiv i32 1, 0 ret i32 3 }~
1000~
10000000~
~
report 1: value at site 1 in @main, part 0, bits 0x1 of i64
  origin 0: unknown
end: trap zero-divisor at site 1 in @main
reports: 1
blind: 0
~
77
====
# All the bits of a mask are shown, and any number as a kind, a part or a place.
define i32 @main() { call void @__msan_check(i64 -1, i32 64, i32 0, i32 13, i32 -1, i32 99), !nosanitize !0 ret i32 3 }~
1~
10000000~
~
report 1: kind 13 at site 99 in ?, part 4294967295, bits 0xffffffffffffffff of i64
  origin 0: unknown
end: reported
reports: 1
blind: 0
~
77
====
define i32 @main() { call void @__msan_check(i64 1, i32 0, i32 0, i32 0, i32 0, i32 0), !nosanitize !0 ret i32 3 }~
1~
10000000~
~
report 1: kind 0 at site 0 in ?, part 0, bits 0x1 of i0
  origin 0: unknown
end: reported
reports: 1
blind: 0
~
77
====
# Origins: roots by their kinds, and numbers that are none.
define i32 @main() { %p = alloca i8 call void @__msan_check(i64 1, i32 64, i32 1, i32 7, i32 0, i32 1), !nosanitize !0 ret i32 3 }~
1~
10000000~
~
report 1: value at site 1 in @main, part 0, bits 0x1 of i64
  origin 1: alloca at site 1 in @main
end: reported
reports: 1
blind: 0
~
77
====
define i32 @main() { %p = alloca i8 call void @__msan_check(i64 1, i32 64, i32 2, i32 7, i32 0, i32 1), !nosanitize !0 ret i32 3 }~
1~
10000000~
~
report 1: value at site 1 in @main, part 0, bits 0x1 of i64
  origin 2: unknown
end: reported
reports: 1
blind: 0
~
77
====
define i32 @main() { %p = call ptr @malloc(i64 1) %q = call ptr @realloc(ptr %p, i64 2) call void @llvm.lifetime.start.p0(i64 1, ptr %q) %a = xor i8 undef, poison call void @__msan_check(i64 1, i32 64, i32 1, i32 7, i32 0, i32 1), !nosanitize !0 call void @__msan_check(i64 1, i32 64, i32 2, i32 7, i32 0, i32 1), !nosanitize !0 call void @__msan_check(i64 1, i32 64, i32 3, i32 7, i32 0, i32 1), !nosanitize !0 call void @__msan_check(i64 1, i32 64, i32 4, i32 7, i32 0, i32 1), !nosanitize !0 call void @__msan_check(i64 1, i32 64, i32 5, i32 7, i32 0, i32 1), !nosanitize !0 ret i32 3 }~
5~
10000000~
~
report 1: value at site 1 in @main, part 0, bits 0x1 of i64
  origin 1: malloc at site 1 in @main
report 2: value at site 1 in @main, part 0, bits 0x1 of i64
  origin 2: realloc at site 2 in @main
report 3: value at site 1 in @main, part 0, bits 0x1 of i64
  origin 3: lifetime at site 3 in @main
report 4: value at site 1 in @main, part 0, bits 0x1 of i64
  origin 4: undef at site 4 in @main
report 5: value at site 1 in @main, part 0, bits 0x1 of i64
  origin 5: undef at site 4 in @main
end: reported
reports: 5
blind: 0
~
77
====
define i32 @main() { call void @f() ret i32 3 } define void @f() { %p = alloca i8 call void @__msan_check(i64 1, i32 64, i32 1, i32 7, i32 0, i32 3), !nosanitize !0 ret void }~
1~
10000000~
~
report 1: value at site 3 in @f, part 0, bits 0x1 of i64
  origin 1: alloca at site 3 in @f
end: reported
reports: 1
blind: 0
~
77
====
"#;

/// Marked accesses reach shadow.
/// The shadow of an allocation is clean until it is poisoned, also that of an alloca.
static SHADOW: &[u8] =
    br#"define i32 @main() { %p = alloca [8 x i8] %__msan.1 = ptrtoint ptr %p to i64, !nosanitize !0 %__msan.2 = xor i64 %__msan.1, 87960930222080, !nosanitize !0 %__msan.3 = inttoptr i64 %__msan.2 to ptr, !nosanitize !0 %__msan.8 = load i64, ptr %__msan.3, !nosanitize !0 call void @__msan_check(i64 %__msan.8, i32 64, i32 0, i32 7, i32 0, i32 1), !nosanitize !0 ret i32 0 }~
1~
10000000~
~
end: exit 0
reports: 0
blind: 0
~
0
====
define i32 @main() { %p = alloca [8 x i8] %__msan.1 = ptrtoint ptr %p to i64, !nosanitize !0 %__msan.2 = xor i64 %__msan.1, 87960930222080, !nosanitize !0 %__msan.3 = inttoptr i64 %__msan.2 to ptr, !nosanitize !0 store i32 3840, ptr %__msan.3, !nosanitize !0 %__msan.8 = load i64, ptr %__msan.3, !nosanitize !0 call void @__msan_check(i64 %__msan.8, i32 64, i32 0, i32 7, i32 0, i32 1), !nosanitize !0 ret i32 0 }~
1~
10000000~
~
report 1: value at site 1 in @main, part 0, bits 0xf00 of i64
  origin 0: unknown
end: reported
reports: 1
blind: 0
~
77
====
define i32 @main() { %p = alloca [8 x i8] %__msan.1 = ptrtoint ptr %p to i64, !nosanitize !0 %__msan.2 = xor i64 %__msan.1, 87960930222080, !nosanitize !0 %__msan.3 = inttoptr i64 %__msan.2 to ptr, !nosanitize !0 store i64 -1, ptr %__msan.3, !nosanitize !0 %__msan.8 = load i7, ptr %__msan.3, !nosanitize !0 %__msan.9 = zext i7 %__msan.8 to i64, !nosanitize !0 call void @__msan_check(i64 %__msan.9, i32 64, i32 0, i32 7, i32 0, i32 1), !nosanitize !0 ret i32 0 }~
1~
10000000~
~
report 1: value at site 1 in @main, part 0, bits 0x7f of i64
  origin 0: unknown
end: reported
reports: 1
blind: 0
~
77
====
define i32 @main() { %p = alloca [8 x i8] %__msan.1 = ptrtoint ptr %p to i64, !nosanitize !0 %__msan.2 = xor i64 %__msan.1, 87960930222080, !nosanitize !0 %__msan.3 = inttoptr i64 %__msan.2 to ptr, !nosanitize !0 store i64 -1, ptr %__msan.3, !nosanitize !0 store i9 0, ptr %__msan.3, !nosanitize !0 %__msan.8 = load i64, ptr %__msan.3, !nosanitize !0 call void @__msan_check(i64 %__msan.8, i32 64, i32 0, i32 7, i32 0, i32 1), !nosanitize !0 ret i32 0 }~
1~
10000000~
~
report 1: value at site 1 in @main, part 0, bits 0xffffffffffff0000 of i64
  origin 0: unknown
end: reported
reports: 1
blind: 0
~
77
====
define i32 @main() { %p = alloca [8 x i8] call void @__msan_poison(ptr %p, i64 2, i64 5, i32 0), !nosanitize !0 %__msan.1 = ptrtoint ptr %p to i64, !nosanitize !0 %__msan.2 = xor i64 %__msan.1, 87960930222080, !nosanitize !0 %__msan.3 = inttoptr i64 %__msan.2 to ptr, !nosanitize !0 %__msan.8 = load i64, ptr %__msan.3, !nosanitize !0 call void @__msan_check(i64 %__msan.8, i32 64, i32 0, i32 7, i32 0, i32 1), !nosanitize !0 ret i32 0 }~
1~
10000000~
~
report 1: value at site 1 in @main, part 0, bits 0xffffff0000 of i64
  origin 0: unknown
end: reported
reports: 1
blind: 0
~
77
====
# It leaves the bytes, and a plain store leaves the shadow.
define i32 @main() { %p = alloca [8 x i8] store i64 5, ptr %p %__msan.1 = ptrtoint ptr %p to i64, !nosanitize !0 %__msan.2 = xor i64 %__msan.1, 87960930222080, !nosanitize !0 %__msan.3 = inttoptr i64 %__msan.2 to ptr, !nosanitize !0 store i64 -1, ptr %__msan.3, !nosanitize !0 %v = load i32, ptr %p ret i32 %v }~
1~
10000000~
~
end: exit 5
reports: 0
blind: 0
~
0
====
define i32 @main() { %p = alloca [8 x i8] %__msan.1 = ptrtoint ptr %p to i64, !nosanitize !0 %__msan.2 = xor i64 %__msan.1, 87960930222080, !nosanitize !0 %__msan.3 = inttoptr i64 %__msan.2 to ptr, !nosanitize !0 store i64 -1, ptr %__msan.3, !nosanitize !0 store i64 0, ptr %p %__msan.8 = load i64, ptr %__msan.3, !nosanitize !0 call void @__msan_check(i64 %__msan.8, i32 64, i32 0, i32 7, i32 0, i32 1), !nosanitize !0 ret i32 0 }~
1~
10000000~
~
report 1: value at site 1 in @main, part 0, bits 0xffffffffffffffff of i64
  origin 0: unknown
end: reported
reports: 1
blind: 0
~
77
====
# Globals and blocks of the heap have shadow too.
@g = global i32 7 define i32 @main() { %p = getelementptr i8, ptr @g, i64 0 %__msan.1 = ptrtoint ptr %p to i64, !nosanitize !0 %__msan.2 = xor i64 %__msan.1, 87960930222080, !nosanitize !0 %__msan.3 = inttoptr i64 %__msan.2 to ptr, !nosanitize !0 store i32 -1, ptr %__msan.3, !nosanitize !0 %__msan.8 = load i32, ptr %__msan.3, !nosanitize !0 %__msan.9 = zext i32 %__msan.8 to i64, !nosanitize !0 call void @__msan_check(i64 %__msan.9, i32 64, i32 0, i32 7, i32 0, i32 1), !nosanitize !0 ret i32 0 }~
1~
10000000~
~
report 1: value at site 1 in @main, part 0, bits 0xffffffff of i64
  origin 0: unknown
end: reported
reports: 1
blind: 0
~
77
====
define i32 @main() { %p = call ptr @malloc(i64 4) %__msan.1 = ptrtoint ptr %p to i64, !nosanitize !0 %__msan.2 = xor i64 %__msan.1, 87960930222080, !nosanitize !0 %__msan.3 = inttoptr i64 %__msan.2 to ptr, !nosanitize !0 store i32 -2, ptr %__msan.3, !nosanitize !0 %__msan.8 = load i32, ptr %__msan.3, !nosanitize !0 %__msan.9 = zext i32 %__msan.8 to i64, !nosanitize !0 call void @__msan_check(i64 %__msan.9, i32 64, i32 0, i32 7, i32 0, i32 1), !nosanitize !0 ret i32 0 }~
1~
10000000~
~
report 1: value at site 1 in @main, part 0, bits 0xfffffffe of i64
  origin 0: unknown
end: reported
reports: 1
blind: 0
~
77
====
# Accesses that are not good trap at the site of the next unmarked instruction.
define i32 @main() { %p = alloca [8 x i8] %__msan.8 = load i64, ptr %p, !nosanitize !0 ret i32 0 }~
1~
10000000~
~
end: trap bad-address at site 2 in @main
reports: 0
blind: 0
~
3
====
define i32 @main() { %p = alloca [8 x i8] store i8 0, ptr %p, !nosanitize !0 %a = add i32 1, 2 ret i32 0 }~
1~
10000000~
~
end: trap bad-address at site 2 in @main
reports: 0
blind: 0
~
3
====
define i32 @main() { %p = alloca i32 %__msan.1 = ptrtoint ptr %p to i64, !nosanitize !0 %__msan.2 = xor i64 %__msan.1, 87960930222080, !nosanitize !0 %__msan.3 = inttoptr i64 %__msan.2 to ptr, !nosanitize !0 %__msan.8 = load i64, ptr %__msan.3, !nosanitize !0 ret i32 0 }~
1~
10000000~
~
end: trap bad-address at site 2 in @main
reports: 0
blind: 0
~
3
====
define i32 @main() { %p = alloca i32 %__msan.1 = ptrtoint ptr %p to i64, !nosanitize !0 %__msan.2 = xor i64 %__msan.1, 87960930222080, !nosanitize !0 %__msan.3 = inttoptr i64 %__msan.2 to ptr, !nosanitize !0 store i33 0, ptr %__msan.3, !nosanitize !0 ret i32 0 }~
1~
10000000~
~
end: trap bad-address at site 2 in @main
reports: 0
blind: 0
~
3
====
define i32 @main() { %p = call ptr @malloc(i64 4) call void @free(ptr %p) %__msan.1 = ptrtoint ptr %p to i64, !nosanitize !0 %__msan.2 = xor i64 %__msan.1, 87960930222080, !nosanitize !0 %__msan.3 = inttoptr i64 %__msan.2 to ptr, !nosanitize !0 %__msan.8 = load i8, ptr %__msan.3, !nosanitize !0 ret i32 0 }~
1~
10000000~
~
end: trap bad-address at site 3 in @main
reports: 0
blind: 0
~
3
====
define i32 @main() { %__msan.8 = load i8, ptr null, !nosanitize !0 ret i32 0 }~
1~
10000000~
~
end: trap bad-address at site 1 in @main
reports: 0
blind: 0
~
3
====
"#;

/// Marked accesses reach slots.
/// The slots begin as zero, keep what is stored, and end where they end.
static SLOTS: &[u8] =
    br#"define i32 @main() { %__msan.8 = load i64, ptr @__msan_param_tls, !nosanitize !0 call void @__msan_check(i64 %__msan.8, i32 64, i32 0, i32 7, i32 0, i32 1), !nosanitize !0 %__msan.18 = load i64, ptr @__msan_retval_tls, !nosanitize !0 call void @__msan_check(i64 %__msan.18, i32 64, i32 0, i32 7, i32 0, i32 1), !nosanitize !0 ret i32 0 }~
1~
10000000~
~
end: exit 0
reports: 0
blind: 0
~
0
====
define i32 @main() { store i64 5, ptr @__msan_param_tls, !nosanitize !0 %__msan.8 = load i64, ptr @__msan_param_tls, !nosanitize !0 call void @__msan_check(i64 %__msan.8, i32 64, i32 0, i32 7, i32 0, i32 1), !nosanitize !0 ret i32 0 }~
1~
10000000~
~
report 1: value at site 1 in @main, part 0, bits 0x5 of i64
  origin 0: unknown
end: reported
reports: 1
blind: 0
~
77
====
define i32 @main() { store i64 6, ptr getelementptr (i64, ptr @__msan_param_tls, i64 99), !nosanitize !0 %__msan.8 = load i64, ptr getelementptr ([100 x i64], ptr @__msan_param_tls, i64 0, i64 99), !nosanitize !0 call void @__msan_check(i64 %__msan.8, i32 64, i32 0, i32 7, i32 0, i32 1), !nosanitize !0 ret i32 0 }~
1~
10000000~
~
report 1: value at site 1 in @main, part 0, bits 0x6 of i64
  origin 0: unknown
end: reported
reports: 1
blind: 0
~
77
====
define i32 @main() { store i32 7, ptr getelementptr (i32, ptr @__msan_param_origin_tls, i64 99), !nosanitize !0 %__msan.8 = load i32, ptr getelementptr (i32, ptr @__msan_param_origin_tls, i64 99), !nosanitize !0 %__msan.9 = zext i32 %__msan.8 to i64, !nosanitize !0 call void @__msan_check(i64 %__msan.9, i32 64, i32 0, i32 7, i32 0, i32 1), !nosanitize !0 ret i32 0 }~
1~
10000000~
~
report 1: value at site 1 in @main, part 0, bits 0x7 of i64
  origin 0: unknown
end: reported
reports: 1
blind: 0
~
77
====
define i32 @main() { store i64 -1, ptr @__msan_retval_tls, !nosanitize !0 %__msan.8 = load i64, ptr @__msan_retval_tls, !nosanitize !0 call void @__msan_check(i64 %__msan.8, i32 64, i32 0, i32 7, i32 0, i32 1), !nosanitize !0 ret i32 0 }~
1~
10000000~
~
report 1: value at site 1 in @main, part 0, bits 0xffffffffffffffff of i64
  origin 0: unknown
end: reported
reports: 1
blind: 0
~
77
====
define i32 @main() { store i32 -1, ptr @__msan_retval_origin_tls, !nosanitize !0 %__msan.8 = load i32, ptr @__msan_retval_origin_tls, !nosanitize !0 %__msan.9 = zext i32 %__msan.8 to i64, !nosanitize !0 call void @__msan_check(i64 %__msan.9, i32 64, i32 0, i32 7, i32 0, i32 1), !nosanitize !0 ret i32 0 }~
1~
10000000~
~
report 1: value at site 1 in @main, part 0, bits 0xffffffff of i64
  origin 0: unknown
end: reported
reports: 1
blind: 0
~
77
====
define i32 @main() { store i64 72623859790382856, ptr @__msan_retval_tls, !nosanitize !0 %__msan.8 = load i24, ptr getelementptr (i8, ptr @__msan_retval_tls, i64 3), !nosanitize !0 %__msan.9 = zext i24 %__msan.8 to i64, !nosanitize !0 call void @__msan_check(i64 %__msan.9, i32 64, i32 0, i32 7, i32 0, i32 1), !nosanitize !0 ret i32 0 }~
1~
10000000~
~
report 1: value at site 1 in @main, part 0, bits 0x30405 of i64
  origin 0: unknown
end: reported
reports: 1
blind: 0
~
77
====
define i32 @main() { store i64 -1, ptr @__msan_retval_tls, !nosanitize !0 store i1 false, ptr @__msan_retval_tls, !nosanitize !0 %__msan.8 = load i64, ptr @__msan_retval_tls, !nosanitize !0 call void @__msan_check(i64 %__msan.8, i32 64, i32 0, i32 7, i32 0, i32 1), !nosanitize !0 ret i32 0 }~
1~
10000000~
~
report 1: value at site 1 in @main, part 0, bits 0xffffffffffffff00 of i64
  origin 0: unknown
end: reported
reports: 1
blind: 0
~
77
====
define i32 @main() { %__msan.8 = ptrtoint ptr @__msan_param_tls to i64, !nosanitize !0 call void @__msan_check(i64 %__msan.8, i32 64, i32 0, i32 7, i32 0, i32 1), !nosanitize !0 ret i32 0 }~
1~
10000000~
~
report 1: value at site 1 in @main, part 0, bits 0x680000000000 of i64
  origin 0: unknown
end: reported
reports: 1
blind: 0
~
77
====
define i32 @main() { %__msan.8 = ptrtoint ptr @__msan_param_origin_tls to i64, !nosanitize !0 call void @__msan_check(i64 %__msan.8, i32 64, i32 0, i32 7, i32 0, i32 1), !nosanitize !0 ret i32 0 }~
1~
10000000~
~
report 1: value at site 1 in @main, part 0, bits 0x680000001000 of i64
  origin 0: unknown
end: reported
reports: 1
blind: 0
~
77
====
define i32 @main() { %__msan.8 = ptrtoint ptr @__msan_retval_tls to i64, !nosanitize !0 call void @__msan_check(i64 %__msan.8, i32 64, i32 0, i32 7, i32 0, i32 1), !nosanitize !0 ret i32 0 }~
1~
10000000~
~
report 1: value at site 1 in @main, part 0, bits 0x680000002000 of i64
  origin 0: unknown
end: reported
reports: 1
blind: 0
~
77
====
define i32 @main() { %__msan.8 = ptrtoint ptr @__msan_retval_origin_tls to i64, !nosanitize !0 call void @__msan_check(i64 %__msan.8, i32 64, i32 0, i32 7, i32 0, i32 1), !nosanitize !0 ret i32 0 }~
1~
10000000~
~
report 1: value at site 1 in @main, part 0, bits 0x680000003000 of i64
  origin 0: unknown
end: reported
reports: 1
blind: 0
~
77
====
# They take no room of the globals.
define i32 @main() { %a = ptrtoint ptr @g to i64 %b = sub i64 %a, 123145302310912 %c = trunc i64 %b to i32 ret i32 %c } @g = global i8 0~
1~
10000000~
~
end: exit 0
reports: 0
blind: 0
~
0
====
define i32 @main() { store i64 0, ptr getelementptr (i64, ptr @__msan_param_tls, i64 100), !nosanitize !0 ret i32 0 }~
1~
10000000~
~
end: trap bad-address at site 1 in @main
reports: 0
blind: 0
~
3
====
define i32 @main() { store i64 0, ptr getelementptr (i8, ptr @__msan_param_tls, i64 793), !nosanitize !0 ret i32 0 }~
1~
10000000~
~
end: trap bad-address at site 1 in @main
reports: 0
blind: 0
~
3
====
define i32 @main() { %__msan.8 = load i8, ptr getelementptr (i8, ptr @__msan_param_origin_tls, i64 400), !nosanitize !0 ret i32 0 }~
1~
10000000~
~
end: trap bad-address at site 1 in @main
reports: 0
blind: 0
~
3
====
define i32 @main() { store i64 0, ptr @__msan_retval_origin_tls, !nosanitize !0 ret i32 0 }~
1~
10000000~
~
end: trap bad-address at site 1 in @main
reports: 0
blind: 0
~
3
====
# They are one for all functions.
define i32 @main() { store i64 9, ptr @__msan_param_tls, !nosanitize !0 call void @f() %__msan.8 = load i64, ptr @__msan_retval_tls, !nosanitize !0 call void @__msan_check(i64 %__msan.8, i32 64, i32 0, i32 7, i32 0, i32 1), !nosanitize !0 ret i32 0 } define void @f() { %__msan.1 = load i64, ptr @__msan_param_tls, !nosanitize !0 store i64 %__msan.1, ptr @__msan_retval_tls, !nosanitize !0 ret void }~
1~
10000000~
~
report 1: value at site 1 in @main, part 0, bits 0x9 of i64
  origin 0: unknown
end: reported
reports: 1
blind: 0
~
77
====
"#;

/// Marked instructions are no steps.
/// Marked instructions are no steps, and none runs where no step is left.
static MARKS: &[u8] =
    br#"define i32 @main() { call void @__msan_check(i64 1, i32 64, i32 0, i32 7, i32 0, i32 1), !nosanitize !0 ret i32 0 }~
1~
0~
~
end: spent
reports: 0
blind: 0
~
4
====
define i32 @main() { call void @__msan_check(i64 1, i32 64, i32 0, i32 7, i32 0, i32 1), !nosanitize !0 ret i32 0 }~
1~
1~
~
report 1: value at site 1 in @main, part 0, bits 0x1 of i64
  origin 0: unknown
end: reported
reports: 1
blind: 0
~
77
====
define i32 @main() { %a = add i32 1, 2 call void @__msan_check(i64 1, i32 64, i32 0, i32 7, i32 0, i32 1), !nosanitize !0 ret i32 0 }~
1~
1~
~
end: spent
reports: 0
blind: 0
~
4
====
define i32 @main() { call void @__msan_blind(i64 1), !nosanitize !0 %a = add i32 1, 2 call void @__msan_blind(i64 1), !nosanitize !0 ret i32 0 }~
1~
1~
~
end: spent
reports: 0
blind: 1
~
4
====
define i32 @main() { call void @__msan_blind(i64 1), !nosanitize !0 %a = add i32 1, 2 call void @__msan_blind(i64 1), !nosanitize !0 ret i32 %a }~
1~
2~
~
end: exit 3
reports: 0
blind: 2
~
0
====
# They trap at the site of the next unmarked one.
define i32 @main() { %__msan.1 = shl i64 1, 64, !nosanitize !0 %a = add i32 1, 2 ret i32 0 }~
1~
10000000~
~
end: trap shift at site 1 in @main
reports: 0
blind: 0
~
3
====
define i32 @main() { %a = add i32 1, 2 %__msan.1 = udiv i64 1, 0, !nosanitize !0 %__msan.2 = add i64 1, 1, !nosanitize !0 ret i32 0 }~
1~
10000000~
~
end: trap zero-divisor at site 2 in @main
reports: 0
blind: 0
~
3
====
define i32 @main() { %__msan.1 = shl i64 1, 64, !nosanitize !0 ret i32 0 }~
1~
0~
~
end: spent
reports: 0
blind: 0
~
4
====
# A marked phi reads with the others, and is no step.
define i32 @main() { br label %l l: %__msan.1 = phi i64 [ 3, %0 ], [ %__msan.2, %l ], !nosanitize !0 %a = phi i32 [ 0, %0 ], [ %b, %l ] %__msan.2 = phi i64 [ 4, %0 ], [ %__msan.1, %l ], !nosanitize !0 %b = add i32 %a, 1 %c = icmp ult i32 %b, 2 br i1 %c, label %l, label %e e: %__msan.3 = mul i64 %__msan.1, 16, !nosanitize !0 %__msan.4 = add i64 %__msan.3, %__msan.2, !nosanitize !0 call void @__msan_check(i64 %__msan.4, i32 64, i32 0, i32 7, i32 0, i32 1), !nosanitize !0 ret i32 0 }~
1~
8~
~
report 1: value at site 1 in @main, part 0, bits 0x43 of i64
  origin 0: unknown
end: reported
reports: 1
blind: 0
~
77
====
# Sites count unmarked instructions alone.
define i32 @main() { %__msan.1 = add i64 1, 2, !nosanitize !0 %__msan.2 = add i64 1, 2, !nosanitize !0 %a = add i32 1, 2 %__msan.3 = add i64 1, 2, !nosanitize !0 unreachable }~
1~
10000000~
~
end: trap unreachable at site 2 in @main
reports: 0
blind: 0
~
3
====
define i32 @main() { %__msan.1 = add i64 1, 2, !nosanitize !7 %__msan.2 = select i1 true, i64 %__msan.1, i64 0, !nosanitize !7 call void @__msan_check(i64 %__msan.2, i32 64, i32 0, i32 7, i32 0, i32 1), !dbg !3, !nosanitize !7 ret i32 0 } !7 = !{}~
1~
10000000~
~
report 1: value at site 1 in @main, part 0, bits 0x3 of i64
  origin 0: unknown
end: reported
reports: 1
blind: 0
~
77
====
# An undefined word of marked code is the fill too.
define i32 @main() { %__msan.1 = freeze i64 undef, !nosanitize !0 call void @__msan_check(i64 %__msan.1, i32 64, i32 0, i32 7, i32 0, i32 1), !nosanitize !0 ret i32 0 }~
1~
10000000~
~
report 1: value at site 1 in @main, part 0, bits 0xa5a5a5a5a5a5a5a5 of i64
  origin 0: unknown
end: reported
reports: 1
blind: 0
~
77
====
"#;

/// Whether marked code checks and computes shadow.
fn shadow_is_computed<R: Threads + Sync + Eprint>(rt: &R, alloc: Global) -> bool {
    all_told::<_, Marked>(rt, alloc, &[CHECKS, SHADOW])
}

#[test]
fn inserted_code_runs(rt: HostRuntime) -> Result<(), Fail> {
    assert!(rt;
        shadow_is_computed(&rt, rt.alloc())
            && all_told::<_, Marked>(&rt, rt.alloc(), &[SLOTS, MARKS])
    );
    Ok(())
}
