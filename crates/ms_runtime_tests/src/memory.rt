//! Runs that load, store, compute addresses and begin with globals.

use ms_top_rows::told::all_told_runs;
use std::alloc::Global;
use std::test::Fail;
use std::thread::Threads;

/// Stores write their bytes.
/// Eight bytes ff, then a store over the first of them. Bits past the width are zero, and no byte more is touched.
static BYTES: &[u8] =
    br#"define i32 @main() { %p = alloca i64 store i64 -1, ptr %p store i1 true, ptr %p %q = getelementptr i8, ptr %p, i64 0 %v = load i8, ptr %q %w = zext i8 %v to i32 ret i32 %w }~
~
exit 1~
0
====
define i32 @main() { %p = alloca i64 store i64 -1, ptr %p store i1 true, ptr %p %q = getelementptr i8, ptr %p, i64 1 %v = load i8, ptr %q %w = zext i8 %v to i32 ret i32 %w }~
~
exit 255~
0
====
define i32 @main() { %p = alloca i64 store i64 -1, ptr %p store i7 -1, ptr %p %q = getelementptr i8, ptr %p, i64 0 %v = load i8, ptr %q %w = zext i8 %v to i32 ret i32 %w }~
~
exit 127~
0
====
define i32 @main() { %p = alloca i64 store i64 -1, ptr %p store i24 -1, ptr %p %q = getelementptr i8, ptr %p, i64 2 %v = load i8, ptr %q %w = zext i8 %v to i32 ret i32 %w }~
~
exit 255~
0
====
define i32 @main() { %p = alloca i64 store i64 -1, ptr %p store i24 0, ptr %p %q = getelementptr i8, ptr %p, i64 2 %v = load i8, ptr %q %w = zext i8 %v to i32 ret i32 %w }~
~
exit 0~
0
====
define i32 @main() { %p = alloca i64 store i64 -1, ptr %p store i24 0, ptr %p %q = getelementptr i8, ptr %p, i64 3 %v = load i8, ptr %q %w = zext i8 %v to i32 ret i32 %w }~
~
exit 255~
0
====
define i32 @main() { %p = alloca i64 store i64 -1, ptr %p store i9 -1, ptr %p %q = getelementptr i8, ptr %p, i64 1 %v = load i8, ptr %q %w = zext i8 %v to i32 ret i32 %w }~
~
exit 1~
0
====
define i32 @main() { %p = alloca i64 store i64 -1, ptr %p store i9 -1, ptr %p %q = getelementptr i8, ptr %p, i64 2 %v = load i8, ptr %q %w = zext i8 %v to i32 ret i32 %w }~
~
exit 255~
0
====
define i32 @main() { %p = alloca i64 store i64 -1, ptr %p store i33 -1, ptr %p %q = getelementptr i8, ptr %p, i64 4 %v = load i8, ptr %q %w = zext i8 %v to i32 ret i32 %w }~
~
exit 1~
0
====
define i32 @main() { %p = alloca i64 store i64 -1, ptr %p store i33 0, ptr %p %q = getelementptr i8, ptr %p, i64 4 %v = load i8, ptr %q %w = zext i8 %v to i32 ret i32 %w }~
~
exit 0~
0
====
define i32 @main() { %p = alloca i64 store i64 -1, ptr %p store i33 0, ptr %p %q = getelementptr i8, ptr %p, i64 5 %v = load i8, ptr %q %w = zext i8 %v to i32 ret i32 %w }~
~
exit 255~
0
====
# The least byte first.
define i32 @main() { %p = alloca i64 store i64 -1, ptr %p store i64 72623859790382856, ptr %p %q = getelementptr i8, ptr %p, i64 0 %v = load i8, ptr %q %w = zext i8 %v to i32 ret i32 %w }~
~
exit 8~
0
====
define i32 @main() { %p = alloca i64 store i64 -1, ptr %p store i64 72623859790382856, ptr %p %q = getelementptr i8, ptr %p, i64 7 %v = load i8, ptr %q %w = zext i8 %v to i32 ret i32 %w }~
~
exit 1~
0
====
define i32 @main() { %p = alloca i64 store i64 -1, ptr %p store i24 66051, ptr %p %q = getelementptr i8, ptr %p, i64 0 %v = load i8, ptr %q %w = zext i8 %v to i32 ret i32 %w }~
~
exit 3~
0
====
define i32 @main() { %p = alloca i64 store i64 -1, ptr %p store i24 66051, ptr %p %q = getelementptr i8, ptr %p, i64 2 %v = load i8, ptr %q %w = zext i8 %v to i32 ret i32 %w }~
~
exit 1~
0
====
# An address: that of the first global is 0x700000000000.
@g = global i8 0 define i32 @main() { %p = alloca ptr store ptr @g, ptr %p %q = getelementptr i8, ptr %p, i64 5 %v = load i8, ptr %q %w = zext i8 %v to i32 ret i32 %w }~
~
exit 112~
0
====
define i32 @main() { %p = alloca ptr store ptr null, ptr %p %q = getelementptr i8, ptr %p, i64 5 %v = load i8, ptr %q %w = zext i8 %v to i32 ret i32 %w }~
~
exit 0~
0
====
"#;

/// Loads read their bytes.
/// Bits past the width are left out when they are read.
static LOADS: &[u8] =
    br#"define i32 @main() { %p = alloca i64 store i64 -1, ptr %p %r = load i1, ptr %p %v = zext i1 %r to i32 ret i32 %v }~
~
exit 1~
0
====
define i32 @main() { %p = alloca i64 store i64 -1, ptr %p %r = load i7, ptr %p %v = zext i7 %r to i32 ret i32 %v }~
~
exit 127~
0
====
define i32 @main() { %p = alloca i64 store i64 -1, ptr %p %r = load i24, ptr %p %v = zext i24 %r to i32 ret i32 %v }~
~
exit 16777215~
0
====
define i32 @main() { %p = alloca i64 store i64 -1, ptr %p %r = load i33, ptr %p %s = lshr i33 %r, 32 %v = trunc i33 %s to i32 ret i32 %v }~
~
exit 1~
0
====
define i32 @main() { %p = alloca i8 store i8 -2, ptr %p %r = load i1, ptr %p %v = zext i1 %r to i32 ret i32 %v }~
~
exit 0~
0
====
define i32 @main() { %p = alloca i8 store i8 -126, ptr %p %r = load i7, ptr %p %v = zext i7 %r to i32 ret i32 %v }~
~
exit 2~
0
====
define i32 @main() { %p = alloca i64 store i64 72623859790382856, ptr %p, align 8 %q = getelementptr i8, ptr %p, i64 1 %r = load i24, ptr %q, align 1 %v = zext i24 %r to i32 ret i32 %v }~
~
exit 329223~
0
====
@g = global i32 12 define i32 @main() { %p = alloca ptr store ptr @g, ptr %p %q = load ptr, ptr %p %v = load i32, ptr %q ret i32 %v }~
~
exit 12~
0
====
# An access of more than one byte may begin anywhere in its allocation, and may not pass its end.
define i32 @main() { %p = alloca [5 x i8] %q = getelementptr i8, ptr %p, i64 1 store i32 7, ptr %q, align 4 %v = load i32, ptr %q ret i32 %v }~
~
exit 7~
0
====
define i32 @main() { %p = alloca [5 x i8] %q = getelementptr i8, ptr %p, i64 2 store i32 7, ptr %q ret i32 0 }~
~
trap bad-address at site 3 in @main~
3
====
define i32 @main() { %p = alloca [3 x i8] %v = load i24, ptr %p ret i32 0 }~
~
exit 0~
0
====
define i32 @main() { %p = alloca [4 x i8] %v = load i33, ptr %p ret i32 0 }~
~
trap bad-address at site 2 in @main~
3
====
define i32 @main() { %p = alloca i24 %v = load i32, ptr %p ret i32 %v }~
~
exit 2779096485~
0
====
define i32 @main() { %p = alloca i32 %q = getelementptr i8, ptr %p, i64 -1 %v = load i8, ptr %q ret i32 0 }~
~
trap bad-address at site 3 in @main~
3
====
define i32 @main() { %q = inttoptr i64 -1 to ptr %v = load i64, ptr %q ret i32 0 }~
~
trap bad-address at site 2 in @main~
3
====
# An unmarked access reaches no shadow and no slot.
define i32 @main() { %p = alloca i32 %a = ptrtoint ptr %p to i64 %b = xor i64 %a, 87960930222080 %q = inttoptr i64 %b to ptr %v = load i8, ptr %q ret i32 0 }~
~
trap bad-address at site 5 in @main~
3
====
define i32 @main() { %q = inttoptr i64 114349209288704 to ptr %v = load i64, ptr %q ret i32 0 }~
~
trap bad-address at site 2 in @main~
3
====
define i32 @main() { %q = inttoptr i64 114349209296896 to ptr store i8 0, ptr %q ret i32 0 }~
~
trap bad-address at site 2 in @main~
3
====
"#;

/// Addresses are computed.
/// The distance from a global.
static ADDRESSES: &[u8] =
    br#"@g = global i64 0 define i32 @main() { %q = getelementptr i32, ptr @g, i64 3 %a = ptrtoint ptr %q to i64 %b = ptrtoint ptr @g to i64 %c = sub i64 %a, %b %d = trunc i64 %c to i32 ret i32 %d }~
~
exit 12~
0
====
@g = global i64 0 define i32 @main() { %q = getelementptr i32, ptr @g, i64 -1 %a = ptrtoint ptr %q to i64 %b = ptrtoint ptr @g to i64 %c = sub i64 %a, %b %d = trunc i64 %c to i32 ret i32 %d }~
~
exit 4294967292~
0
====
@g = global i64 0 define i32 @main() { %q = getelementptr i24, ptr @g, i64 3 %a = ptrtoint ptr %q to i64 %b = ptrtoint ptr @g to i64 %c = sub i64 %a, %b %d = trunc i64 %c to i32 ret i32 %d }~
~
exit 12~
0
====
@g = global i64 0 define i32 @main() { %q = getelementptr i33, ptr @g, i64 3 %a = ptrtoint ptr %q to i64 %b = ptrtoint ptr @g to i64 %c = sub i64 %a, %b %d = trunc i64 %c to i32 ret i32 %d }~
~
exit 24~
0
====
@g = global i64 0 define i32 @main() { %q = getelementptr i1, ptr @g, i64 3 %a = ptrtoint ptr %q to i64 %b = ptrtoint ptr @g to i64 %c = sub i64 %a, %b %d = trunc i64 %c to i32 ret i32 %d }~
~
exit 3~
0
====
@g = global i64 0 define i32 @main() { %q = getelementptr ptr, ptr @g, i64 3 %a = ptrtoint ptr %q to i64 %b = ptrtoint ptr @g to i64 %c = sub i64 %a, %b %d = trunc i64 %c to i32 ret i32 %d }~
~
exit 24~
0
====
# Indices are extended by their sign.
@g = global i64 0 define i32 @main() { %q = getelementptr i32, ptr @g, i8 -1 %a = ptrtoint ptr %q to i64 %b = ptrtoint ptr @g to i64 %c = sub i64 %a, %b %d = trunc i64 %c to i32 ret i32 %d }~
~
exit 4294967292~
0
====
@g = global i64 0 define i32 @main() { %q = getelementptr i32, ptr @g, i8 200 %a = ptrtoint ptr %q to i64 %b = ptrtoint ptr @g to i64 %c = sub i64 %a, %b %d = trunc i64 %c to i32 ret i32 %d }~
~
exit 4294967072~
0
====
@g = global i64 0 define i32 @main() { %q = getelementptr i32, ptr @g, i1 true %a = ptrtoint ptr %q to i64 %b = ptrtoint ptr @g to i64 %c = sub i64 %a, %b %d = trunc i64 %c to i32 ret i32 %d }~
~
exit 4294967292~
0
====
@g = global i64 0 define i32 @main() { %q = getelementptr i32, ptr @g, i33 2 %a = ptrtoint ptr %q to i64 %b = ptrtoint ptr @g to i64 %c = sub i64 %a, %b %d = trunc i64 %c to i32 ret i32 %d }~
~
exit 8~
0
====
@g = global i64 0 define i32 @main() { %q = getelementptr i8, ptr @g %a = ptrtoint ptr %q to i64 %b = ptrtoint ptr @g to i64 %c = sub i64 %a, %b %d = trunc i64 %c to i32 ret i32 %d }~
~
exit 0~
0
====
@g = global i64 0 define i32 @main() { %q = getelementptr [3 x i16], ptr @g, i64 1, i64 2 %a = ptrtoint ptr %q to i64 %b = ptrtoint ptr @g to i64 %c = sub i64 %a, %b %d = trunc i64 %c to i32 ret i32 %d }~
~
exit 10~
0
====
@g = global i64 0 define i32 @main() { %q = getelementptr [3 x i16], ptr @g, i64 0, i64 -1 %a = ptrtoint ptr %q to i64 %b = ptrtoint ptr @g to i64 %c = sub i64 %a, %b %d = trunc i64 %c to i32 ret i32 %d }~
~
exit 4294967294~
0
====
@g = global i64 0 define i32 @main() { %q = getelementptr [0 x i16], ptr @g, i64 5, i64 4 %a = ptrtoint ptr %q to i64 %b = ptrtoint ptr @g to i64 %c = sub i64 %a, %b %d = trunc i64 %c to i32 ret i32 %d }~
~
exit 8~
0
====
@g = global i64 0 define i32 @main() { %q = getelementptr [2 x [3 x i16]], ptr @g, i64 1, i64 1, i64 1 %a = ptrtoint ptr %q to i64 %b = ptrtoint ptr @g to i64 %c = sub i64 %a, %b %d = trunc i64 %c to i32 ret i32 %d }~
~
exit 20~
0
====
# Fields at 0, 4 and 8; the whole has 12 bytes. Packed at 0, 1 and 5; the whole has 6.
@g = global i64 0 define i32 @main() { %q = getelementptr { i8, i32, i8 }, ptr @g, i64 0, i32 1 %a = ptrtoint ptr %q to i64 %b = ptrtoint ptr @g to i64 %c = sub i64 %a, %b %d = trunc i64 %c to i32 ret i32 %d }~
~
exit 4~
0
====
@g = global i64 0 define i32 @main() { %q = getelementptr { i8, i32, i8 }, ptr @g, i64 1, i32 2 %a = ptrtoint ptr %q to i64 %b = ptrtoint ptr @g to i64 %c = sub i64 %a, %b %d = trunc i64 %c to i32 ret i32 %d }~
~
exit 20~
0
====
@g = global i64 0 define i32 @main() { %q = getelementptr <{ i8, i32, i8 }>, ptr @g, i64 0, i32 1 %a = ptrtoint ptr %q to i64 %b = ptrtoint ptr @g to i64 %c = sub i64 %a, %b %d = trunc i64 %c to i32 ret i32 %d }~
~
exit 1~
0
====
@g = global i64 0 define i32 @main() { %q = getelementptr <{ i8, i32, i8 }>, ptr @g, i64 1, i32 2 %a = ptrtoint ptr %q to i64 %b = ptrtoint ptr @g to i64 %c = sub i64 %a, %b %d = trunc i64 %c to i32 ret i32 %d }~
~
exit 11~
0
====
@g = global i64 0 define i32 @main() { %q = getelementptr { i8, { i8, i64 }, <{ i8, i16 }> }, ptr @g, i64 0, i32 1, i32 1 %a = ptrtoint ptr %q to i64 %b = ptrtoint ptr @g to i64 %c = sub i64 %a, %b %d = trunc i64 %c to i32 ret i32 %d }~
~
exit 16~
0
====
@g = global i64 0 define i32 @main() { %q = getelementptr { i8, { i8, i64 }, <{ i8, i16 }> }, ptr @g, i64 0, i32 2, i32 1 %a = ptrtoint ptr %q to i64 %b = ptrtoint ptr @g to i64 %c = sub i64 %a, %b %d = trunc i64 %c to i32 ret i32 %d }~
~
exit 25~
0
====
@g = global i64 0 define i32 @main() { %q = getelementptr { i8, { i8, i64 }, <{ i8, i16 }> }, ptr @g, i64 1 %a = ptrtoint ptr %q to i64 %b = ptrtoint ptr @g to i64 %c = sub i64 %a, %b %d = trunc i64 %c to i32 ret i32 %d }~
~
exit 32~
0
====
@g = global i64 0 define i32 @main() { %q = getelementptr <{ i8, { i8, i64 } }>, ptr @g, i64 1 %a = ptrtoint ptr %q to i64 %b = ptrtoint ptr @g to i64 %c = sub i64 %a, %b %d = trunc i64 %c to i32 ret i32 %d }~
~
exit 17~
0
====
@g = global i64 0 define i32 @main() { %q = getelementptr { i8, i24 }, ptr @g, i64 0, i32 1 %a = ptrtoint ptr %q to i64 %b = ptrtoint ptr @g to i64 %c = sub i64 %a, %b %d = trunc i64 %c to i32 ret i32 %d }~
~
exit 4~
0
====
@g = global i64 0 define i32 @main() { %q = getelementptr { i8, i40, { } }, ptr @g, i64 0, i32 2 %a = ptrtoint ptr %q to i64 %b = ptrtoint ptr @g to i64 %c = sub i64 %a, %b %d = trunc i64 %c to i32 ret i32 %d }~
~
exit 16~
0
====
@g = global i64 0 define i32 @main() { %q = getelementptr { }, ptr @g, i64 7 %a = ptrtoint ptr %q to i64 %b = ptrtoint ptr @g to i64 %c = sub i64 %a, %b %d = trunc i64 %c to i32 ret i32 %d }~
~
exit 0~
0
====
%t = type { i32, [2 x i16] } @g = global i64 0 define i32 @main() { %q = getelementptr %t, ptr @g, i64 1, i32 1, i64 1 %a = ptrtoint ptr %q to i64 %b = ptrtoint ptr @g to i64 %c = sub i64 %a, %b %d = trunc i64 %c to i32 ret i32 %d }~
~
exit 14~
0
====
%u = type { i32, %t } %t = type { i32, i32 } @g = global i64 0 define i32 @main() { %q = getelementptr inbounds nuw %u, ptr @g, i64 0, i32 1, i32 1 %a = ptrtoint ptr %q to i64 %b = ptrtoint ptr @g to i64 %c = sub i64 %a, %b %d = trunc i64 %c to i32 ret i32 %d }~
~
exit 8~
0
====
# A pointer in front of memory, and round the end of all addresses.
define i32 @main() { %q = getelementptr i8, ptr null, i64 -1 %a = ptrtoint ptr %q to i64 %b = icmp eq i64 %a, -1 %c = zext i1 %b to i32 ret i32 %c }~
~
exit 1~
0
====
define i32 @main() { %p = inttoptr i64 -8 to ptr %q = getelementptr inbounds i64, ptr %p, i64 3 %a = ptrtoint ptr %q to i64 %b = trunc i64 %a to i32 ret i32 %b }~
~
exit 16~
0
====
define i32 @main() { %q = getelementptr i64, ptr null, i64 2305843009213693953 %a = ptrtoint ptr %q to i64 %b = trunc i64 %a to i32 ret i32 %b }~
~
exit 8~
0
====
# Constant ones, as an operand and as what a global holds.
@g = global [3 x i16] [i16 7, i16 8, i16 9] define i32 @main() { %v = load i16, ptr getelementptr ([3 x i16], ptr @g, i64 0, i64 2) %w = zext i16 %v to i32 ret i32 %w }~
~
exit 9~
0
====
@g = global [3 x i16] [i16 7, i16 8, i16 9] define i32 @main() { %v = load i16, ptr getelementptr inbounds (i16, ptr @g, i8 -1) %w = zext i16 %v to i32 ret i32 %w }~
~
trap bad-address at site 1 in @main~
3
====
@h = global ptr getelementptr ({ i8, i32 }, ptr @g, i64 0, i32 1) @g = global { i8, i32 } { i8 7, i32 8 } define i32 @main() { %p = load ptr, ptr @h %v = load i32, ptr %p ret i32 %v }~
~
exit 8~
0
====
%t = type { i8, i32 } @g = global [2 x %t] zeroinitializer define i32 @main() { store i32 3, ptr getelementptr (%t, ptr @g, i64 1, i32 1) %v = load i32, ptr getelementptr (i32, ptr @g, i64 3) ret i32 %v }~
~
exit 3~
0
====
# One within another: in order, with a step to a first item left out, by bytes, and as what a global holds.
@m = global [2 x [3 x [4 x i32]]] zeroinitializer define i32 @main() { store i32 7, ptr getelementptr inbounds ([4 x i32], ptr getelementptr inbounds ([3 x [4 x i32]], ptr getelementptr inbounds ([2 x [3 x [4 x i32]]], ptr @m, i64 0, i64 1), i64 0, i64 2), i64 0, i64 3) %v = load i32, ptr getelementptr (i8, ptr @m, i64 92) ret i32 %v }~
~
exit 7~
0
====
%p = type { i32, i32 } %q = type { i64, [3 x %p] } @q = global %q zeroinitializer define i32 @main() { store i32 5, ptr getelementptr inbounds (%p, ptr getelementptr inbounds (%q, ptr @q, i32 0, i32 1), i32 0, i32 1) %v = load i32, ptr getelementptr (i8, ptr @q, i64 12) ret i32 %v }~
~
exit 5~
0
====
@g = global [4 x i16] zeroinitializer define i32 @main() { store i8 9, ptr getelementptr (i8, ptr getelementptr inbounds ([2 x i16], ptr getelementptr (i8, ptr @g, i64 2), i64 0, i64 1), i64 -1) %v = load i8, ptr getelementptr (i8, ptr @g, i64 3) %w = zext i8 %v to i32 ret i32 %w }~
~
exit 9~
0
====
@m = global [2 x [2 x i8]] [[2 x i8] c"ab", [2 x i8] c"cd"] @h = global ptr getelementptr ([2 x i8], ptr getelementptr ([2 x [2 x i8]], ptr @m, i64 0, i64 1), i64 0, i64 1) define i32 @main() { %p = load ptr, ptr @h %v = load i8, ptr %p %w = zext i8 %v to i32 ret i32 %w }~
~
exit 100~
0
====
@g = global i8 6 define i32 @main() { %v = load i8, ptr getelementptr (i8, ptr getelementptr (i8, ptr @g, i64 -1), i8 1) %w = zext i8 %v to i32 ret i32 %w }~
~
exit 6~
0
====
@g = global [2 x i32] zeroinitializer define i32 @main() { %v = load i32, ptr getelementptr (i32, ptr getelementptr ([2 x i32], ptr @g, i64 0, i64 1), i64 1) ret i32 %v }~
~
trap bad-address at site 1 in @main~
3
====
"#;

/// Globals begin as they say.
/// A word that the global holds at a distance from its beginning.
static GLOBALS: &[u8] =
    br#"@g = global i32 -2 define i32 @main() { %v = load i32, ptr getelementptr (i8, ptr @g, i64 0) ret i32 %v }~
~
exit 4294967294~
0
====
@g = global i1 true define i32 @main() { %v = load i8, ptr getelementptr (i8, ptr @g, i64 0) %w = zext i8 %v to i32 ret i32 %w }~
~
exit 1~
0
====
@g = global i24 -1 define i32 @main() { %v = load i8, ptr getelementptr (i8, ptr @g, i64 2) %w = zext i8 %v to i32 ret i32 %w }~
~
exit 255~
0
====
@g = global i24 -1 define i32 @main() { %v = load i8, ptr getelementptr (i8, ptr @g, i64 3) %w = zext i8 %v to i32 ret i32 %w }~
~
exit 0~
0
====
@g = global i33 -1 define i32 @main() { %v = load i8, ptr getelementptr (i8, ptr @g, i64 4) %w = zext i8 %v to i32 ret i32 %w }~
~
exit 1~
0
====
@g = global i33 -1 define i32 @main() { %v = load i8, ptr getelementptr (i8, ptr @g, i64 7) %w = zext i8 %v to i32 ret i32 %w }~
~
exit 0~
0
====
@g = global ptr @g define i32 @main() { %v = load i64, ptr getelementptr (i8, ptr @g, i64 0) %w = trunc i64 %v to i32 ret i32 %w }~
~
exit 0~
0
====
@g = global ptr null define i32 @main() { %v = load i64, ptr getelementptr (i8, ptr @g, i64 0) %w = trunc i64 %v to i32 ret i32 %w }~
~
exit 0~
0
====
@g = global ptr @g define i32 @main() { %v = load i8, ptr getelementptr (i8, ptr @g, i64 5) %w = zext i8 %v to i32 ret i32 %w }~
~
exit 112~
0
====
# Undefined words are zero in a global.
@g = global i32 undef define i32 @main() { %v = load i32, ptr getelementptr (i8, ptr @g, i64 0) ret i32 %v }~
~
exit 0~
0
====
@g = global i32 poison define i32 @main() { %v = load i32, ptr getelementptr (i8, ptr @g, i64 0) ret i32 %v }~
~
exit 0~
0
====
@g = global [4 x i8] undef define i32 @main() { %v = load i32, ptr getelementptr (i8, ptr @g, i64 0) ret i32 %v }~
~
exit 0~
0
====
@g = global { i8, i32 } { i8 1, i32 undef } define i32 @main() { %v = load i64, ptr getelementptr (i8, ptr @g, i64 0) %w = trunc i64 %v to i32 ret i32 %w }~
~
exit 1~
0
====
@g = global [4 x i8] zeroinitializer define i32 @main() { %v = load i32, ptr getelementptr (i8, ptr @g, i64 0) ret i32 %v }~
~
exit 0~
0
====
@g = global [4 x i8] c"a\00\FFb" define i32 @main() { %v = load i32, ptr getelementptr (i8, ptr @g, i64 0) ret i32 %v }~
~
exit 1660878945~
0
====
@g = global [2 x i16] [i16 1, i16 2] define i32 @main() { %v = load i32, ptr getelementptr (i8, ptr @g, i64 0) ret i32 %v }~
~
exit 131073~
0
====
# Bytes between the fields are zero.
@g = global { i8, i32, i8 } { i8 1, i32 2, i8 3 } define i32 @main() { %v = load i32, ptr getelementptr (i8, ptr @g, i64 0) ret i32 %v }~
~
exit 1~
0
====
@g = global { i8, i32, i8 } { i8 1, i32 2, i8 3 } define i32 @main() { %v = load i32, ptr getelementptr (i8, ptr @g, i64 4) ret i32 %v }~
~
exit 2~
0
====
@g = global { i8, i32, i8 } { i8 1, i32 2, i8 3 } define i32 @main() { %v = load i32, ptr getelementptr (i8, ptr @g, i64 8) ret i32 %v }~
~
exit 3~
0
====
@g = global <{ i8, i16, i8 }> <{ i8 1, i16 2, i8 3 }> define i32 @main() { %v = load i32, ptr getelementptr (i8, ptr @g, i64 0) ret i32 %v }~
~
exit 50332161~
0
====
@g = global [2 x { i8, i16 }] [{ i8, i16 } { i8 1, i16 2 }, { i8, i16 } zeroinitializer] define i32 @main() { %v = load i32, ptr getelementptr (i8, ptr @g, i64 0) ret i32 %v }~
~
exit 131073~
0
====
@g = global [2 x { i8, i16 }] [{ i8, i16 } { i8 1, i16 2 }, { i8, i16 } zeroinitializer] define i32 @main() { %v = load i32, ptr getelementptr (i8, ptr @g, i64 4) ret i32 %v }~
~
exit 0~
0
====
%t = type { i8, %u } %u = type { i32 } @g = global %t { i8 1, %u { i32 2 } } define i32 @main() { %v = load i32, ptr getelementptr (i8, ptr @g, i64 4) ret i32 %v }~
~
exit 2~
0
====
%t = type { i8, %u } %u = type { i32 } @g = global %t zeroinitializer define i32 @main() { %v = load i32, ptr getelementptr (i8, ptr @g, i64 4) ret i32 %v }~
~
exit 0~
0
====
@g = global [3 x i24] [i24 1, i24 -1, i24 3] define i32 @main() { %v = load i32, ptr getelementptr (i8, ptr @g, i64 4) ret i32 %v }~
~
exit 16777215~
0
====
@g = global [2 x i8] c"\\\22" define i32 @main() { %v = load i16, ptr getelementptr (i8, ptr @g, i64 0) %w = zext i16 %v to i32 ret i32 %w }~
~
exit 8796~
0
====
# Room: at least 16 bytes each, and one after the other in the order of the text.
@a = global i8 1 @b = constant [17 x i8] zeroinitializer @c = global i8 2 define i32 @main() { %a = ptrtoint ptr @c to i64 %b = sub i64 %a, 123145302310912 %d = trunc i64 %b to i32 ret i32 %d }~
~
exit 48~
0
====
@a = global { } zeroinitializer @b = global [0 x i8] [] define i32 @main() { %a = ptrtoint ptr @b to i64 %b = sub i64 %a, 123145302310912 %d = trunc i64 %b to i32 ret i32 %d }~
~
exit 16~
0
====
@a = global { } zeroinitializer define i32 @main() { %v = load i8, ptr @a ret i32 0 }~
~
trap bad-address at site 1 in @main~
3
====
# A constant one is written like any other, and one global may point to a later one.
@g = constant i32 5 define i32 @main() { store i32 6, ptr @g %v = load i32, ptr @g ret i32 %v }~
~
exit 6~
0
====
@a = private unnamed_addr constant ptr @b, align 8 @b = internal global i8 66, section "x", align 1 define i32 @main() { %p = load ptr, ptr @a %v = load i8, ptr %p %w = zext i8 %v to i32 ret i32 %w }~
~
exit 66~
0
====
@g = global [16777216 x i8] zeroinitializer define i32 @main() { %v = load i8, ptr getelementptr (i8, ptr @g, i64 16777215) %w = zext i8 %v to i32 ret i32 %w }~
~
exit 0~
0
====
"#;

/// Whether addresses are computed, and globals begin as they should.
fn addresses_are_computed<R: Threads + Sync + Eprint>(rt: &R, alloc: Global) -> bool {
    all_told_runs(rt, alloc, &[ADDRESSES, GLOBALS])
}

#[test]
fn memory_is_read_and_written(rt: HostRuntime) -> Result<(), Fail> {
    assert!(rt;
        addresses_are_computed(&rt, rt.alloc()) && all_told_runs(&rt, rt.alloc(), &[BYTES, LOADS])
    );
    Ok(())
}
