//! Runs of modules whose marked calls go to each runtime function.

use crate::runtime_strings::{FORMATS, STRINGS};
use ms_top_rows::modules::Marked;
use ms_top_rows::told::all_told;
use std::alloc::Global;
use std::test::Fail;
use std::thread::Threads;

/// Bytes are checked.
/// Checks of bytes report the first poisoned one; the origins here are no roots, so each is kept as it is.
static MEMORY: &[u8] =
    br#"define i32 @main() { %p = alloca [8 x i8] call void @__msan_poison(ptr %p, i64 3, i64 8, i32 9), !nosanitize !0 call void @__msan_check_memory(ptr %p, i64 8, i32 9, i32 1), !nosanitize !0 ret i32 0 }~
1~
10000000~
~
report 1: output at site 1 in @main, part 3, bits 0xff of i8
  origin 9: unknown
end: reported
reports: 1
blind: 0
~
77
====
define i32 @main() { %p = alloca [8 x i8] call void @__msan_poison(ptr %p, i64 0, i64 8, i32 9), !nosanitize !0 call void @__msan_unpoison(ptr %p, i64 5), !nosanitize !0 call void @__msan_check_memory(ptr %p, i64 8, i32 12, i32 1), !nosanitize !0 ret i32 0 }~
1~
10000000~
~
report 1: second-bytes at site 1 in @main, part 5, bits 0xff of i8
  origin 9: unknown
end: reported
reports: 1
blind: 0
~
77
====
define i32 @main() { %p = alloca [8 x i8] call void @__msan_poison(ptr %p, i64 7, i64 8, i32 9), !nosanitize !0 %q = getelementptr i8, ptr %p, i64 6 call void @__msan_check_memory(ptr %q, i64 2, i32 11, i32 1), !nosanitize !0 ret i32 0 }~
1~
10000000~
~
report 1: first-bytes at site 1 in @main, part 1, bits 0xff of i8
  origin 9: unknown
end: reported
reports: 1
blind: 0
~
77
====
define i32 @main() { %p = alloca [8 x i8] call void @__msan_poison(ptr %p, i64 3, i64 8, i32 9), !nosanitize !0 call void @__msan_check_memory(ptr %p, i64 3, i32 9, i32 1), !nosanitize !0 ret i32 0 }~
1~
10000000~
~
end: exit 0
reports: 0
blind: 0
~
0
====
define i32 @main() { %p = alloca [8 x i8] call void @__msan_poison(ptr %p, i64 0, i64 8, i32 9), !nosanitize !0 call void @__msan_check_memory(ptr %p, i64 0, i32 9, i32 1), !nosanitize !0 ret i32 0 }~
1~
10000000~
~
end: exit 0
reports: 0
blind: 0
~
0
====
define i32 @main() { %p = alloca [8 x i8] call void @__msan_poison(ptr %p, i64 0, i64 8, i32 9), !nosanitize !0 call void @__msan_check_memory(ptr %p, i64 9, i32 9, i32 1), !nosanitize !0 ret i32 0 }~
1~
10000000~
~
end: exit 0
reports: 0
blind: 0
~
0
====
define i32 @main() { %p = alloca [8 x i8] call void @__msan_poison(ptr %p, i64 0, i64 8, i32 9), !nosanitize !0 call void @__msan_check_memory(ptr null, i64 1, i32 9, i32 1), !nosanitize !0 ret i32 0 }~
1~
10000000~
~
end: exit 0
reports: 0
blind: 0
~
0
====
# Poisoning is of bytes from the first number up to the second, and begins modulo 2^64.
define i32 @main() { %p = alloca [8 x i8] call void @__msan_poison(ptr %p, i64 3, i64 3, i32 9), !nosanitize !0 call void @__msan_check_memory(ptr %p, i64 8, i32 9, i32 1), !nosanitize !0 ret i32 0 }~
1~
10000000~
~
end: exit 0
reports: 0
blind: 0
~
0
====
define i32 @main() { %p = alloca [8 x i8] call void @__msan_poison(ptr %p, i64 5, i64 3, i32 9), !nosanitize !0 call void @__msan_check_memory(ptr %p, i64 8, i32 9, i32 1), !nosanitize !0 ret i32 0 }~
1~
10000000~
~
end: exit 0
reports: 0
blind: 0
~
0
====
define i32 @main() { %p = alloca [8 x i8] call void @__msan_poison(ptr %p, i64 0, i64 9, i32 9), !nosanitize !0 call void @__msan_check_memory(ptr %p, i64 8, i32 9, i32 1), !nosanitize !0 ret i32 0 }~
1~
10000000~
~
end: exit 0
reports: 0
blind: 0
~
0
====
define i32 @main() { %p = alloca [8 x i8] call void @__msan_poison(ptr %p, i64 8, i64 9, i32 9), !nosanitize !0 call void @__msan_check_memory(ptr %p, i64 8, i32 9, i32 1), !nosanitize !0 ret i32 0 }~
1~
10000000~
~
end: exit 0
reports: 0
blind: 0
~
0
====
define i32 @main() { %p = alloca [8 x i8] %q = getelementptr i8, ptr %p, i64 4 call void @__msan_poison(ptr %q, i64 -4, i64 -3, i32 9), !nosanitize !0 call void @__msan_check_memory(ptr %p, i64 8, i32 9, i32 1), !nosanitize !0 ret i32 0 }~
1~
10000000~
~
report 1: output at site 1 in @main, part 0, bits 0xff of i8
  origin 9: unknown
end: reported
reports: 1
blind: 0
~
77
====
define i32 @main() { %p = alloca [8 x i8] call void @__msan_poison(ptr %p, i64 0, i64 8, i32 9), !nosanitize !0 call void @__msan_unpoison(ptr %p, i64 9), !nosanitize !0 call void @__msan_check_memory(ptr %p, i64 8, i32 9, i32 1), !nosanitize !0 ret i32 0 }~
1~
10000000~
~
report 1: output at site 1 in @main, part 0, bits 0xff of i8
  origin 9: unknown
end: reported
reports: 1
blind: 0
~
77
====
define i32 @main() { %p = alloca [8 x i8] call void @__msan_poison(ptr %p, i64 0, i64 8, i32 9), !nosanitize !0 call void @__msan_unpoison(ptr %p, i64 0), !nosanitize !0 call void @__msan_check_memory(ptr %p, i64 8, i32 9, i32 1), !nosanitize !0 ret i32 0 }~
1~
10000000~
~
report 1: output at site 1 in @main, part 0, bits 0xff of i8
  origin 9: unknown
end: reported
reports: 1
blind: 0
~
77
====
# A fill sets each byte of shadow to the low byte of the mask.
define i32 @main() { %p = alloca [8 x i8] call void @__msan_fill(ptr %p, i64 8, i64 257, i32 9, i32 1), !nosanitize !0 call void @__msan_check_memory(ptr %p, i64 8, i32 9, i32 1), !nosanitize !0 ret i32 0 }~
1~
10000000~
~
report 1: output at site 1 in @main, part 0, bits 0x1 of i8
  origin 9: unknown
end: reported
reports: 1
blind: 0
~
77
====
define i32 @main() { %p = alloca [8 x i8] call void @__msan_poison(ptr %p, i64 0, i64 8, i32 9), !nosanitize !0 call void @__msan_fill(ptr %p, i64 8, i64 256, i32 9, i32 1), !nosanitize !0 call void @__msan_check_memory(ptr %p, i64 8, i32 9, i32 1), !nosanitize !0 ret i32 0 }~
1~
10000000~
~
end: exit 0
reports: 0
blind: 0
~
0
====
define i32 @main() { %p = alloca [8 x i8] call void @__msan_fill(ptr %p, i64 9, i64 255, i32 9, i32 1), !nosanitize !0 call void @__msan_check_memory(ptr %p, i64 8, i32 9, i32 1), !nosanitize !0 ret i32 0 }~
1~
10000000~
~
end: exit 0
reports: 0
blind: 0
~
0
====
define i32 @main() { %p = alloca [8 x i8] call void @__msan_poison(ptr %p, i64 0, i64 8, i32 9), !nosanitize !0 call void @__msan_fill(ptr %p, i64 3, i64 0, i32 8, i32 1), !nosanitize !0 call void @__msan_check_memory(ptr %p, i64 8, i32 9, i32 1), !nosanitize !0 ret i32 0 }~
1~
10000000~
~
report 1: output at site 1 in @main, part 3, bits 0xff of i8
  origin 9: unknown
end: reported
reports: 1
blind: 0
~
77
====
define i32 @main() { %p = alloca [8 x i8] call void @__msan_poison(ptr %p, i64 0, i64 8, i32 9), !nosanitize !0 call void @__msan_fill(ptr %p, i64 0, i64 0, i32 8, i32 1), !nosanitize !0 call void @__msan_check_memory(ptr %p, i64 8, i32 9, i32 1), !nosanitize !0 ret i32 0 }~
1~
10000000~
~
report 1: output at site 1 in @main, part 0, bits 0xff of i8
  origin 9: unknown
end: reported
reports: 1
blind: 0
~
77
====
# Copies, also overlapping ones: what the source had before, with its origin.
define i32 @main() { %p = alloca [8 x i8] call void @__msan_poison(ptr %p, i64 3, i64 4, i32 5), !nosanitize !0 call void @__msan_store_origin(ptr %p, i64 1095216660480, i32 6, i32 1), !nosanitize !0 %q = getelementptr i8, ptr %p, i64 1 call void @__msan_copy(ptr %q, ptr %p, i64 7), !nosanitize !0 call void @__msan_check_memory(ptr %p, i64 8, i32 9, i32 1), !nosanitize !0 ret i32 0 }~
1~
10000000~
~
report 1: output at site 1 in @main, part 4, bits 0xff of i8
  origin 5: unknown
end: reported
reports: 1
blind: 0
~
77
====
define i32 @main() { %p = alloca [8 x i8] call void @__msan_poison(ptr %p, i64 4, i64 5, i32 6), !nosanitize !0 call void @__msan_store_origin(ptr %p, i64 255, i32 5, i32 1), !nosanitize !0 %q = getelementptr i8, ptr %p, i64 1 call void @__msan_copy(ptr %p, ptr %q, i64 7), !nosanitize !0 call void @__msan_check_memory(ptr %p, i64 8, i32 9, i32 1), !nosanitize !0 ret i32 0 }~
1~
10000000~
~
report 1: output at site 1 in @main, part 3, bits 0xff of i8
  origin 6: unknown
end: reported
reports: 1
blind: 0
~
77
====
define i32 @main() { %p = alloca [8 x i8] call void @__msan_poison(ptr %p, i64 0, i64 1, i32 5), !nosanitize !0 %q = getelementptr i8, ptr %p, i64 1 call void @__msan_copy(ptr %q, ptr %p, i64 0), !nosanitize !0 call void @__msan_unpoison(ptr %p, i64 1), !nosanitize !0 call void @__msan_check_memory(ptr %p, i64 8, i32 9, i32 1), !nosanitize !0 ret i32 0 }~
1~
10000000~
~
end: exit 0
reports: 0
blind: 0
~
0
====
define i32 @main() { %p = alloca [8 x i8] call void @__msan_poison(ptr %p, i64 0, i64 1, i32 5), !nosanitize !0 %q = getelementptr i8, ptr %p, i64 1 call void @__msan_copy(ptr %q, ptr %p, i64 8), !nosanitize !0 call void @__msan_unpoison(ptr %p, i64 1), !nosanitize !0 call void @__msan_check_memory(ptr %p, i64 8, i32 9, i32 1), !nosanitize !0 ret i32 0 }~
1~
10000000~
~
end: exit 0
reports: 0
blind: 0
~
0
====
define i32 @main() { %p = alloca [8 x i8] %r = call ptr @malloc(i64 8) call void @__msan_poison(ptr %p, i64 6, i64 7, i32 5), !nosanitize !0 call void @__msan_copy(ptr %r, ptr %p, i64 8), !nosanitize !0 call void @__msan_check_memory(ptr %r, i64 8, i32 9, i32 1), !nosanitize !0 ret i32 0 }~
1~
10000000~
~
report 1: output at site 1 in @main, part 6, bits 0xff of i8
  origin 5: unknown
end: reported
reports: 1
blind: 0
~
77
====
"#;

/// Origins stand in cells.
/// Four bytes share a cell. The origin 9 is no root, so that it is kept.
static ORIGINS: &[u8] =
    br#"define i32 @main() { %p = alloca [8 x i8] call void @__msan_store_origin(ptr %p, i64 255, i32 9, i32 1), !nosanitize !0 %__msan.8 = call i32 @__msan_load_origin(ptr %p, i64 255), !nosanitize !0 call void @__msan_check(i64 1, i32 64, i32 %__msan.8, i32 7, i32 0, i32 1), !nosanitize !0 ret i32 0 }~
1~
10000000~
~
report 1: value at site 1 in @main, part 0, bits 0x1 of i64
  origin 9: unknown
end: reported
reports: 1
blind: 0
~
77
====
define i32 @main() { %p = alloca [8 x i8] call void @__msan_store_origin(ptr %p, i64 255, i32 9, i32 1), !nosanitize !0 %__msan.8 = call i32 @__msan_load_origin(ptr %p, i64 4278190080), !nosanitize !0 call void @__msan_check(i64 1, i32 64, i32 %__msan.8, i32 7, i32 0, i32 1), !nosanitize !0 ret i32 0 }~
1~
10000000~
~
report 1: value at site 1 in @main, part 0, bits 0x1 of i64
  origin 9: unknown
end: reported
reports: 1
blind: 0
~
77
====
define i32 @main() { %p = alloca [8 x i8] call void @__msan_store_origin(ptr %p, i64 255, i32 9, i32 1), !nosanitize !0 %__msan.8 = call i32 @__msan_load_origin(ptr %p, i64 1095216660480), !nosanitize !0 call void @__msan_check(i64 1, i32 64, i32 %__msan.8, i32 7, i32 0, i32 1), !nosanitize !0 ret i32 0 }~
1~
10000000~
~
report 1: value at site 1 in @main, part 0, bits 0x1 of i64
  origin 0: unknown
end: reported
reports: 1
blind: 0
~
77
====
define i32 @main() { %p = alloca [8 x i8] call void @__msan_store_origin(ptr %p, i64 255, i32 9, i32 1), !nosanitize !0 %__msan.8 = call i32 @__msan_load_origin(ptr %p, i64 0), !nosanitize !0 call void @__msan_check(i64 1, i32 64, i32 %__msan.8, i32 7, i32 0, i32 1), !nosanitize !0 ret i32 0 }~
1~
10000000~
~
report 1: value at site 1 in @main, part 0, bits 0x1 of i64
  origin 0: unknown
end: reported
reports: 1
blind: 0
~
77
====
define i32 @main() { %p = alloca [8 x i8] call void @__msan_store_origin(ptr %p, i64 1099511627520, i32 9, i32 1), !nosanitize !0 %__msan.8 = call i32 @__msan_load_origin(ptr %p, i64 65280), !nosanitize !0 call void @__msan_check(i64 1, i32 64, i32 %__msan.8, i32 7, i32 0, i32 1), !nosanitize !0 ret i32 0 }~
1~
10000000~
~
report 1: value at site 1 in @main, part 0, bits 0x1 of i64
  origin 9: unknown
end: reported
reports: 1
blind: 0
~
77
====
define i32 @main() { %p = alloca [8 x i8] call void @__msan_store_origin(ptr %p, i64 1095216660480, i32 9, i32 1), !nosanitize !0 %__msan.8 = call i32 @__msan_load_origin(ptr %p, i64 -1), !nosanitize !0 call void @__msan_check(i64 1, i32 64, i32 %__msan.8, i32 7, i32 0, i32 1), !nosanitize !0 ret i32 0 }~
1~
10000000~
~
report 1: value at site 1 in @main, part 0, bits 0x1 of i64
  origin 0: unknown
end: reported
reports: 1
blind: 0
~
77
====
define i32 @main() { %p = alloca [8 x i8] call void @__msan_store_origin(ptr %p, i64 0, i32 9, i32 1), !nosanitize !0 %__msan.8 = call i32 @__msan_load_origin(ptr %p, i64 255), !nosanitize !0 call void @__msan_check(i64 1, i32 64, i32 %__msan.8, i32 7, i32 0, i32 1), !nosanitize !0 ret i32 0 }~
1~
10000000~
~
report 1: value at site 1 in @main, part 0, bits 0x1 of i64
  origin 0: unknown
end: reported
reports: 1
blind: 0
~
77
====
define i32 @main() { %p = alloca [8 x i8] call void @__msan_store_origin(ptr %p, i64 1, i32 9, i32 1), !nosanitize !0 call void @__msan_store_origin(ptr %p, i64 65536, i32 8, i32 1), !nosanitize !0 %__msan.8 = call i32 @__msan_load_origin(ptr %p, i64 1), !nosanitize !0 call void @__msan_check(i64 1, i32 64, i32 %__msan.8, i32 7, i32 0, i32 1), !nosanitize !0 ret i32 0 }~
1~
10000000~
~
report 1: value at site 1 in @main, part 0, bits 0x1 of i64
  origin 8: unknown
end: reported
reports: 1
blind: 0
~
77
====
# A byte that is not live is passed over.
define i32 @main() { %p = alloca i32 %q = getelementptr i8, ptr %p, i64 -4 call void @__msan_store_origin(ptr %q, i64 -1, i32 9, i32 1), !nosanitize !0 %__msan.8 = call i32 @__msan_load_origin(ptr %q, i64 -1), !nosanitize !0 call void @__msan_check(i64 1, i32 64, i32 %__msan.8, i32 7, i32 0, i32 1), !nosanitize !0 ret i32 0 }~
1~
10000000~
~
report 1: value at site 1 in @main, part 0, bits 0x1 of i64
  origin 9: unknown
end: reported
reports: 1
blind: 0
~
77
====
define i32 @main() { %p = alloca i32 call void @__msan_store_origin(ptr null, i64 -1, i32 9, i32 1), !nosanitize !0 %__msan.8 = call i32 @__msan_load_origin(ptr null, i64 -1), !nosanitize !0 call void @__msan_check(i64 1, i32 64, i32 %__msan.8, i32 7, i32 0, i32 1), !nosanitize !0 ret i32 0 }~
1~
10000000~
~
report 1: value at site 1 in @main, part 0, bits 0x1 of i64
  origin 0: unknown
end: reported
reports: 1
blind: 0
~
77
====
# Poison and fill put their origin into each cell that they touch.
define i32 @main() { %p = alloca [8 x i8] call void @__msan_poison(ptr %p, i64 3, i64 5, i32 9), !nosanitize !0 %__msan.8 = call i32 @__msan_load_origin(ptr %p, i64 255), !nosanitize !0 call void @__msan_check(i64 1, i32 64, i32 %__msan.8, i32 7, i32 0, i32 1), !nosanitize !0 ret i32 0 }~
1~
10000000~
~
report 1: value at site 1 in @main, part 0, bits 0x1 of i64
  origin 9: unknown
end: reported
reports: 1
blind: 0
~
77
====
define i32 @main() { %p = alloca [8 x i8] call void @__msan_poison(ptr %p, i64 3, i64 5, i32 9), !nosanitize !0 %__msan.8 = call i32 @__msan_load_origin(ptr %p, i64 -72057594037927936), !nosanitize !0 call void @__msan_check(i64 1, i32 64, i32 %__msan.8, i32 7, i32 0, i32 1), !nosanitize !0 ret i32 0 }~
1~
10000000~
~
report 1: value at site 1 in @main, part 0, bits 0x1 of i64
  origin 9: unknown
end: reported
reports: 1
blind: 0
~
77
====
define i32 @main() { %p = alloca [8 x i8] call void @__msan_poison(ptr %p, i64 0, i64 4, i32 9), !nosanitize !0 %__msan.8 = call i32 @__msan_load_origin(ptr %p, i64 -72057594037927936), !nosanitize !0 call void @__msan_check(i64 1, i32 64, i32 %__msan.8, i32 7, i32 0, i32 1), !nosanitize !0 ret i32 0 }~
1~
10000000~
~
report 1: value at site 1 in @main, part 0, bits 0x1 of i64
  origin 0: unknown
end: reported
reports: 1
blind: 0
~
77
====
define i32 @main() { %p = alloca [8 x i8] call void @__msan_fill(ptr %p, i64 5, i64 1, i32 9, i32 1), !nosanitize !0 %__msan.8 = call i32 @__msan_load_origin(ptr %p, i64 -72057594037927936), !nosanitize !0 call void @__msan_check(i64 1, i32 64, i32 %__msan.8, i32 7, i32 0, i32 1), !nosanitize !0 ret i32 0 }~
1~
10000000~
~
report 1: value at site 1 in @main, part 0, bits 0x1 of i64
  origin 9: unknown
end: reported
reports: 1
blind: 0
~
77
====
define i32 @main() { %p = alloca [8 x i8] call void @__msan_poison(ptr %p, i64 0, i64 8, i32 9), !nosanitize !0 call void @__msan_fill(ptr %p, i64 8, i64 0, i32 8, i32 1), !nosanitize !0 %__msan.8 = call i32 @__msan_load_origin(ptr %p, i64 -1), !nosanitize !0 call void @__msan_check(i64 1, i32 64, i32 %__msan.8, i32 7, i32 0, i32 1), !nosanitize !0 ret i32 0 }~
1~
10000000~
~
report 1: value at site 1 in @main, part 0, bits 0x1 of i64
  origin 9: unknown
end: reported
reports: 1
blind: 0
~
77
====
define i32 @main() { %p = alloca [8 x i8] call void @__msan_poison(ptr %p, i64 0, i64 8, i32 9), !nosanitize !0 call void @__msan_unpoison(ptr %p, i64 8), !nosanitize !0 %__msan.8 = call i32 @__msan_load_origin(ptr %p, i64 -1), !nosanitize !0 call void @__msan_check(i64 1, i32 64, i32 %__msan.8, i32 7, i32 0, i32 1), !nosanitize !0 ret i32 0 }~
1~
10000000~
~
report 1: value at site 1 in @main, part 0, bits 0x1 of i64
  origin 9: unknown
end: reported
reports: 1
blind: 0
~
77
====
"#;

/// Sizes and blind uses are told.
/// The size of a live block of the heap by its base, else 0; and the count of blind uses.
static OTHERS: &[u8] =
    br#"define i32 @main() { %p = call ptr @malloc(i64 19) %__msan.8 = call i64 @__msan_size(ptr %p), !nosanitize !0 call void @__msan_check(i64 %__msan.8, i32 64, i32 0, i32 7, i32 0, i32 1), !nosanitize !0 ret i32 0 }~
1~
10000000~
~
report 1: value at site 1 in @main, part 0, bits 0x13 of i64
  origin 0: unknown
end: reported
reports: 1
blind: 0
~
77
====
define i32 @main() { %p = call ptr @malloc(i64 19) %q = getelementptr i8, ptr %p, i64 1 %__msan.8 = call i64 @__msan_size(ptr %q), !nosanitize !0 call void @__msan_check(i64 %__msan.8, i32 64, i32 0, i32 7, i32 0, i32 1), !nosanitize !0 ret i32 0 }~
1~
10000000~
~
end: exit 0
reports: 0
blind: 0
~
0
====
define i32 @main() { %p = call ptr @malloc(i64 19) call void @free(ptr %p) %__msan.8 = call i64 @__msan_size(ptr %p), !nosanitize !0 call void @__msan_check(i64 %__msan.8, i32 64, i32 0, i32 7, i32 0, i32 1), !nosanitize !0 ret i32 0 }~
1~
10000000~
~
end: exit 0
reports: 0
blind: 0
~
0
====
define i32 @main() { %p = alloca i64 %__msan.8 = call i64 @__msan_size(ptr %p), !nosanitize !0 call void @__msan_check(i64 %__msan.8, i32 64, i32 0, i32 7, i32 0, i32 1), !nosanitize !0 ret i32 0 }~
1~
10000000~
~
end: exit 0
reports: 0
blind: 0
~
0
====
define i32 @main() { %__msan.8 = call i64 @__msan_size(ptr null), !nosanitize !0 call void @__msan_check(i64 %__msan.8, i32 64, i32 0, i32 7, i32 0, i32 1), !nosanitize !0 ret i32 0 }~
1~
10000000~
~
end: exit 0
reports: 0
blind: 0
~
0
====
define i32 @main() { %p = call ptr @malloc(i64 0) %__msan.8 = call i64 @__msan_size(ptr %p), !nosanitize !0 call void @__msan_check(i64 %__msan.8, i32 64, i32 0, i32 7, i32 0, i32 1), !nosanitize !0 ret i32 0 }~
1~
10000000~
~
end: exit 0
reports: 0
blind: 0
~
0
====
define i32 @main() { %p = call ptr @malloc(i64 3) %q = call ptr @realloc(ptr %p, i64 5) %__msan.8 = call i64 @__msan_size(ptr %q), !nosanitize !0 call void @__msan_check(i64 %__msan.8, i32 64, i32 0, i32 7, i32 0, i32 1), !nosanitize !0 ret i32 0 }~
1~
10000000~
~
report 1: value at site 1 in @main, part 0, bits 0x5 of i64
  origin 0: unknown
end: reported
reports: 1
blind: 0
~
77
====
define i32 @main() { call void @__msan_blind(i64 0), !nosanitize !0 ret i32 0 }~
1~
10000000~
~
end: exit 0
reports: 0
blind: 0
~
0
====
define i32 @main() { call void @__msan_blind(i64 1), !nosanitize !0 call void @__msan_blind(i64 0), !nosanitize !0 call void @__msan_blind(i64 -1), !nosanitize !0 ret i32 0 }~
1~
10000000~
~
end: exit 0
reports: 0
blind: 2
~
0
====
define i32 @main() { call void @__msan_blind(i64 1), !nosanitize !0 call void @__msan_check(i64 1, i32 64, i32 0, i32 7, i32 0, i32 1), !nosanitize !0 call void @__msan_blind(i64 1), !nosanitize !0 ret i32 0 }~
1~
10000000~
~
report 1: value at site 1 in @main, part 0, bits 0x1 of i64
  origin 0: unknown
end: reported
reports: 1
blind: 1
~
77
====
define i32 @main() { call void @__msan_blind(i64 1), !nosanitize !0 %a = udiv i32 1, 0 ret i32 0 }~
1~
10000000~
~
end: trap zero-divisor at site 1 in @main
reports: 0
blind: 1
~
3
====
"#;

/// Whether the functions that check bytes, strings and formats serve.
fn bytes_and_strings_are_checked<R: Threads + Sync + Eprint>(rt: &R, alloc: Global) -> bool {
    all_told::<_, Marked>(rt, alloc, &[MEMORY, STRINGS, FORMATS])
}

#[test]
fn runtime_functions_serve(rt: HostRuntime) -> Result<(), Fail> {
    assert!(rt;
        bytes_and_strings_are_checked(&rt, rt.alloc())
            && all_told::<_, Marked>(&rt, rt.alloc(), &[ORIGINS, OTHERS])
    );
    Ok(())
}
