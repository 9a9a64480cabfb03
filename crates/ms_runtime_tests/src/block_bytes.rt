//! Rows of what `check` says of blocks and of copies of bytes. Masks, sites and origins were worked out by hand.

/// Blocks begin poisoned or clean.
pub static BLOCKS: &[u8] = br#"check f~
define i32 @main() {
  %1 = call ptr @malloc(i64 5)
  %2 = getelementptr i8, ptr %1, i64 4
  %3 = load i8, ptr %2
  %4 = zext i8 %3 to i32
  ret i32 %4
}
declare ptr @malloc(i64)
~
~
report 1: exit at site 5 in @main, part 0, bits 0xff of i32
  origin 1: malloc at site 1 in @main
end: reported
reports: 1
blind: 0
verdict: poisoned
~
77
====
# Each call is a root of its own, and what is stored is clean.
check f~
define i32 @main() {
  %1 = call ptr @malloc(i64 4)
  %2 = call ptr @malloc(i64 4)
  store i16 1, ptr %2
  %3 = load i32, ptr %2
  ret i32 %3
}
declare ptr @malloc(i64)
~
~
report 1: exit at site 5 in @main, part 0, bits 0xffff0000 of i32
  origin 2: malloc at site 2 in @main
end: reported
reports: 1
blind: 0
verdict: poisoned
~
77
====
check f~
define i32 @main() {
  %1 = call ptr @calloc(i64 2, i64 3)
  %2 = getelementptr i8, ptr %1, i64 5
  %3 = load i8, ptr %2
  %4 = zext i8 %3 to i32
  ret i32 %4
}
declare ptr @calloc(i64, i64)
~
~
end: exit 0
reports: 0
blind: 0
verdict: clean
~
0
====
# Past the limit null is answered, which `free` takes.
check f~
define i32 @main() {
  %1 = call ptr @malloc(i64 67108865)
  call void @free(ptr %1)
  %2 = icmp eq ptr %1, null
  %3 = zext i1 %2 to i32
  ret i32 %3
}
declare ptr @malloc(i64)
declare void @free(ptr)
~
~
end: exit 1
reports: 0
blind: 0
verdict: clean
~
0
====
check f~
define i32 @main() {
  %1 = call ptr @calloc(i64 8388609, i64 8)
  %2 = icmp eq ptr %1, null
  %3 = zext i1 %2 to i32
  ret i32 %3
}
declare ptr @calloc(i64, i64)
~
~
end: exit 1
reports: 0
blind: 0
verdict: clean
~
0
====
check f~
define i32 @main() {
  %1 = call ptr @malloc(i64 8)
  %2 = getelementptr i8, ptr %1, i64 1
  call void @free(ptr %2)
  ret i32 0
}
declare ptr @malloc(i64)
declare void @free(ptr)
~
~
end: trap bad-free at site 3 in @main
reports: 0
blind: 0
verdict: clean
~
3
====
check f~
define i32 @main() {
  %1 = alloca i8
  call void @free(ptr %1)
  ret i32 0
}
declare void @free(ptr)
~
~
end: trap bad-free at site 2 in @main
reports: 0
blind: 0
verdict: clean
~
3
====
check f~
define i32 @main() {
  %1 = call ptr @malloc(i64 4)
  call void @free(ptr %1)
  %2 = load i32, ptr %1
  ret i32 %2
}
declare ptr @malloc(i64)
declare void @free(ptr)
~
~
end: trap bad-address at site 3 in @main
reports: 0
blind: 0
verdict: clean
~
3
====
# No address is used again.
check f~
define i32 @main() {
  %1 = call ptr @malloc(i64 4)
  store i32 7, ptr %1
  call void @free(ptr %1)
  %2 = call ptr @malloc(i64 4)
  %3 = load i32, ptr %2
  ret i32 %3
}
declare ptr @malloc(i64)
declare void @free(ptr)
~
~
report 1: exit at site 6 in @main, part 0, bits 0xffffffff of i32
  origin 2: malloc at site 4 in @main
end: reported
reports: 1
blind: 0
verdict: poisoned
~
77
====
"#;

/// Blocks that move keep their shadow.
pub static MOVED_BLOCKS: &[u8] = br#"check f~
define i32 @main() {
  %1 = call ptr @realloc(ptr null, i64 4)
  %2 = load i32, ptr %1
  ret i32 %2
}
declare ptr @realloc(ptr, i64)
~
~
report 1: exit at site 3 in @main, part 0, bits 0xffffffff of i32
  origin 1: realloc at site 1 in @main
end: reported
reports: 1
blind: 0
verdict: poisoned
~
77
====
check f~
define i32 @main() {
  %1 = call ptr @malloc(i64 4)
  store i32 undef, ptr %1
  %2 = call ptr @realloc(ptr %1, i64 8)
  %3 = load i32, ptr %2
  ret i32 %3
}
declare ptr @malloc(i64)
declare ptr @realloc(ptr, i64)
~
~
report 1: exit at site 5 in @main, part 0, bits 0xffffffff of i32
  origin 4: stored at site 2 in @main
  origin 2: undef at site 2 in @main
end: reported
reports: 1
blind: 0
verdict: poisoned
~
77
====
# The four bytes more are poisoned, and the copied ones clean.
check f~
define i32 @main() {
  %1 = call ptr @malloc(i64 4)
  store i32 7, ptr %1
  %2 = call ptr @realloc(ptr %1, i64 8)
  %3 = load i64, ptr %2
  %4 = lshr i64 %3, 32
  %5 = trunc i64 %4 to i32
  ret i32 %5
}
declare ptr @malloc(i64)
declare ptr @realloc(ptr, i64)
~
~
report 1: exit at site 7 in @main, part 0, bits 0xffffffff of i32
  origin 2: realloc at site 3 in @main
end: reported
reports: 1
blind: 0
verdict: poisoned
~
77
====
check f~
define i32 @main() {
  %1 = call ptr @malloc(i64 4)
  store i32 7, ptr %1
  %2 = call ptr @realloc(ptr %1, i64 8)
  %3 = load i32, ptr %2
  ret i32 %3
}
declare ptr @malloc(i64)
declare ptr @realloc(ptr, i64)
~
~
end: exit 7
reports: 0
blind: 0
verdict: clean
~
0
====
# The copied byte shares its cell with the three that are poisoned after it.
check f~
define i32 @main() {
  %1 = call ptr @malloc(i64 5)
  %2 = call ptr @realloc(ptr %1, i64 8)
  %3 = getelementptr i8, ptr %2, i64 4
  %4 = load i8, ptr %3
  %5 = zext i8 %4 to i32
  ret i32 %5
}
declare ptr @malloc(i64)
declare ptr @realloc(ptr, i64)
~
~
report 1: exit at site 6 in @main, part 0, bits 0xff of i32
  origin 2: realloc at site 2 in @main
end: reported
reports: 1
blind: 0
verdict: poisoned
~
77
====
check f~
define i32 @main() {
  %1 = call ptr @malloc(i64 5)
  %2 = call ptr @realloc(ptr %1, i64 8)
  %3 = getelementptr i8, ptr %2, i64 3
  %4 = load i8, ptr %3
  %5 = zext i8 %4 to i32
  ret i32 %5
}
declare ptr @malloc(i64)
declare ptr @realloc(ptr, i64)
~
~
report 1: exit at site 6 in @main, part 0, bits 0xff of i32
  origin 1: malloc at site 1 in @main
end: reported
reports: 1
blind: 0
verdict: poisoned
~
77
====
# A smaller block has nothing to poison.
check f~
define i32 @main() {
  %1 = call ptr @malloc(i64 8)
  %2 = call ptr @realloc(ptr %1, i64 4)
  %3 = load i32, ptr %2
  ret i32 %3
}
declare ptr @malloc(i64)
declare ptr @realloc(ptr, i64)
~
~
report 1: exit at site 4 in @main, part 0, bits 0xffffffff of i32
  origin 1: malloc at site 1 in @main
end: reported
reports: 1
blind: 0
verdict: poisoned
~
77
====
check f~
define i32 @main() {
  %1 = call ptr @malloc(i64 8)
  store i32 1, ptr %1
  %2 = call ptr @realloc(ptr %1, i64 2)
  %3 = load i16, ptr %2
  %4 = zext i16 %3 to i32
  ret i32 %4
}
declare ptr @malloc(i64)
declare ptr @realloc(ptr, i64)
~
~
end: exit 1
reports: 0
blind: 0
verdict: clean
~
0
====
check f~
define i32 @main() {
  %1 = call ptr @malloc(i64 4)
  %2 = call ptr @realloc(ptr %1, i64 8)
  %3 = load i8, ptr %1
  ret i32 0
}
declare ptr @malloc(i64)
declare ptr @realloc(ptr, i64)
~
~
end: trap bad-address at site 3 in @main
reports: 0
blind: 0
verdict: clean
~
3
====
# Where the limit refuses, the old block stays as it is.
check f~
define i32 @main() {
  %1 = call ptr @malloc(i64 4)
  store i32 7, ptr %1
  %2 = call ptr @realloc(ptr %1, i64 67108864)
  %3 = load i32, ptr %1
  ret i32 %3
}
declare ptr @malloc(i64)
declare ptr @realloc(ptr, i64)
~
~
end: exit 7
reports: 0
blind: 0
verdict: clean
~
0
====
check f~
define i32 @main() {
  %1 = alloca i8
  %2 = call ptr @realloc(ptr %1, i64 1)
  ret i32 0
}
declare ptr @realloc(ptr, i64)
~
~
end: trap bad-free at site 2 in @main
reports: 0
blind: 0
verdict: clean
~
3
====
# `calloc` is no root.
check f~
define i32 @main() {
  %1 = call ptr @calloc(i64 1, i64 2)
  %2 = call ptr @realloc(ptr %1, i64 4)
  %3 = load i32, ptr %2
  ret i32 %3
}
declare ptr @calloc(i64, i64)
declare ptr @realloc(ptr, i64)
~
~
report 1: exit at site 4 in @main, part 0, bits 0xffff0000 of i32
  origin 1: realloc at site 2 in @main
end: reported
reports: 1
blind: 0
verdict: poisoned
~
77
====
"#;

/// Copies take shadow and origins.
pub static COPIES: &[u8] = br#"check f~
define i32 @main() {
  %1 = alloca i16
  %2 = alloca i16
  store i8 7, ptr %1
  store i16 0, ptr %2
  %3 = call ptr @memcpy(ptr %2, ptr %1, i64 2)
  %4 = load i16, ptr %2
  %5 = zext i16 %4 to i32
  ret i32 %5
}
declare ptr @memcpy(ptr, ptr, i64)
~
~
report 1: exit at site 8 in @main, part 0, bits 0xff00 of i32
  origin 1: alloca at site 1 in @main
end: reported
reports: 1
blind: 0
verdict: poisoned
~
77
====
check f~
define i32 @main() {
  %1 = alloca i16
  %2 = alloca i16
  store i8 7, ptr %1
  store i16 0, ptr %2
  %3 = call ptr @memcpy(ptr %2, ptr %1, i64 1)
  %4 = load i16, ptr %2
  %5 = zext i16 %4 to i32
  ret i32 %5
}
declare ptr @memcpy(ptr, ptr, i64)
~
~
end: exit 7
reports: 0
blind: 0
verdict: clean
~
0
====
check f~
define i32 @main() {
  %1 = alloca i8
  %2 = alloca i8
  %3 = call ptr @memcpy(ptr %1, ptr %2, i64 2)
  ret i32 0
}
declare ptr @memcpy(ptr, ptr, i64)
~
~
end: trap bad-address at site 3 in @main
reports: 0
blind: 0
verdict: clean
~
3
====
check f~
define i32 @main() {
  %1 = alloca i16
  %2 = alloca i16
  store i8 7, ptr %1
  store i16 0, ptr %2
  %3 = call ptr @memmove(ptr %2, ptr %1, i64 2)
  %4 = load i16, ptr %2
  %5 = zext i16 %4 to i32
  ret i32 %5
}
declare ptr @memmove(ptr, ptr, i64)
~
~
report 1: exit at site 8 in @main, part 0, bits 0xff00 of i32
  origin 1: alloca at site 1 in @main
end: reported
reports: 1
blind: 0
verdict: poisoned
~
77
====
check f~
define i32 @main() {
  %1 = alloca i16
  %2 = alloca i16
  store i8 7, ptr %1
  store i16 0, ptr %2
  %3 = call ptr @memmove(ptr %2, ptr %1, i64 1)
  %4 = load i16, ptr %2
  %5 = zext i16 %4 to i32
  ret i32 %5
}
declare ptr @memmove(ptr, ptr, i64)
~
~
end: exit 7
reports: 0
blind: 0
verdict: clean
~
0
====
check f~
define i32 @main() {
  %1 = alloca i8
  %2 = alloca i8
  %3 = call ptr @memmove(ptr %1, ptr %2, i64 2)
  ret i32 0
}
declare ptr @memmove(ptr, ptr, i64)
~
~
end: trap bad-address at site 3 in @main
reports: 0
blind: 0
verdict: clean
~
3
====
check f~
define i32 @main() {
  %1 = alloca i16
  %2 = alloca i16
  store i8 7, ptr %1
  store i16 0, ptr %2
  call void @llvm.memcpy.p0.p0.i64(ptr %2, ptr %1, i64 2, i1 false)
  %3 = load i16, ptr %2
  %4 = zext i16 %3 to i32
  ret i32 %4
}
declare void @llvm.memcpy.p0.p0.i64(ptr, ptr, i64, i1)
~
~
report 1: exit at site 8 in @main, part 0, bits 0xff00 of i32
  origin 1: alloca at site 1 in @main
end: reported
reports: 1
blind: 0
verdict: poisoned
~
77
====
check f~
define i32 @main() {
  %1 = alloca i16
  %2 = alloca i16
  store i8 7, ptr %1
  store i16 0, ptr %2
  call void @llvm.memcpy.p0.p0.i64(ptr %2, ptr %1, i64 1, i1 false)
  %3 = load i16, ptr %2
  %4 = zext i16 %3 to i32
  ret i32 %4
}
declare void @llvm.memcpy.p0.p0.i64(ptr, ptr, i64, i1)
~
~
end: exit 7
reports: 0
blind: 0
verdict: clean
~
0
====
check f~
define i32 @main() {
  %1 = alloca i8
  %2 = alloca i8
  call void @llvm.memcpy.p0.p0.i64(ptr %1, ptr %2, i64 2, i1 false)
  ret i32 0
}
declare void @llvm.memcpy.p0.p0.i64(ptr, ptr, i64, i1)
~
~
end: trap bad-address at site 3 in @main
reports: 0
blind: 0
verdict: clean
~
3
====
check f~
define i32 @main() {
  %1 = alloca i16
  %2 = alloca i16
  store i8 7, ptr %1
  store i16 0, ptr %2
  call void @llvm.memmove.p0.p0.i64(ptr %2, ptr %1, i64 2, i1 false)
  %3 = load i16, ptr %2
  %4 = zext i16 %3 to i32
  ret i32 %4
}
declare void @llvm.memmove.p0.p0.i64(ptr, ptr, i64, i1)
~
~
report 1: exit at site 8 in @main, part 0, bits 0xff00 of i32
  origin 1: alloca at site 1 in @main
end: reported
reports: 1
blind: 0
verdict: poisoned
~
77
====
check f~
define i32 @main() {
  %1 = alloca i16
  %2 = alloca i16
  store i8 7, ptr %1
  store i16 0, ptr %2
  call void @llvm.memmove.p0.p0.i64(ptr %2, ptr %1, i64 1, i1 false)
  %3 = load i16, ptr %2
  %4 = zext i16 %3 to i32
  ret i32 %4
}
declare void @llvm.memmove.p0.p0.i64(ptr, ptr, i64, i1)
~
~
end: exit 7
reports: 0
blind: 0
verdict: clean
~
0
====
check f~
define i32 @main() {
  %1 = alloca i8
  %2 = alloca i8
  call void @llvm.memmove.p0.p0.i64(ptr %1, ptr %2, i64 2, i1 false)
  ret i32 0
}
declare void @llvm.memmove.p0.p0.i64(ptr, ptr, i64, i1)
~
~
end: trap bad-address at site 3 in @main
reports: 0
blind: 0
verdict: clean
~
3
====
# Downwards in one block.
check f~
define i32 @main() {
  %1 = alloca [3 x i8]
  store i16 0, ptr %1
  %2 = getelementptr i8, ptr %1, i64 1
  %3 = call ptr @memmove(ptr %1, ptr %2, i64 2)
  %4 = load i16, ptr %1
  %5 = zext i16 %4 to i32
  ret i32 %5
}
declare ptr @memmove(ptr, ptr, i64)
~
~
report 1: exit at site 7 in @main, part 0, bits 0xff00 of i32
  origin 1: alloca at site 1 in @main
end: reported
reports: 1
blind: 0
verdict: poisoned
~
77
====
# Two bytes of different cells come into one, which keeps the origin of the second.
check f~
define i32 @main() {
  %1 = alloca i64
  %2 = alloca i16
  store i32 undef, ptr %1
  %3 = getelementptr i8, ptr %1, i64 3
  %4 = call ptr @memcpy(ptr %2, ptr %3, i64 2)
  %5 = load i8, ptr %2
  %6 = zext i8 %5 to i32
  ret i32 %6
}
declare ptr @memcpy(ptr, ptr, i64)
~
~
report 1: exit at site 8 in @main, part 0, bits 0xff of i32
  origin 1: alloca at site 1 in @main
end: reported
reports: 1
blind: 0
verdict: poisoned
~
77
====
# A copy makes no pair, and its answer is clean.
check f~
define i32 @main() {
  %1 = alloca i32
  %2 = alloca i32
  store i32 undef, ptr %1
  %3 = call ptr @memcpy(ptr %2, ptr %1, i64 4)
  %4 = load i32, ptr %3
  ret i32 %4
}
declare ptr @memcpy(ptr, ptr, i64)
~
~
report 1: exit at site 6 in @main, part 0, bits 0xffffffff of i32
  origin 4: stored at site 3 in @main
  origin 3: undef at site 3 in @main
end: reported
reports: 1
blind: 0
verdict: poisoned
~
77
====
"#;
