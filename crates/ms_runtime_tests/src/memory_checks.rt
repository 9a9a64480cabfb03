//! Rows of what `check` says of memory and calls: shadow and origins of bytes, masks that are handed over, blocks of the heap. Masks, sites and origins were worked out by hand.

/// Memory keeps shadow and origins.
pub static MEMORY: &[u8] = br#"# The first poisoned byte gives the origin.
check f~
define i32 @main() {
  %1 = alloca [8 x i8]
  %2 = call ptr @memset(ptr %1, i32 0, i64 8)
  %3 = getelementptr i8, ptr %1, i64 3
  store i8 undef, ptr %3
  %4 = getelementptr i8, ptr %1, i64 4
  store i8 undef, ptr %4
  %5 = load i16, ptr %3
  %6 = zext i16 %5 to i32
  ret i32 %6
}
declare ptr @memset(ptr, i32, i64)
~
~
report 1: exit at site 9 in @main, part 0, bits 0xffff of i32
  origin 4: stored at site 4 in @main
  origin 2: undef at site 4 in @main
end: reported
reports: 1
blind: 0
verdict: poisoned
~
77
====
check f~
define i32 @main() {
  %1 = alloca [8 x i8]
  %2 = call ptr @memset(ptr %1, i32 0, i64 8)
  %3 = getelementptr i8, ptr %1, i64 3
  store i8 1, ptr %3
  %4 = getelementptr i8, ptr %1, i64 4
  store i8 undef, ptr %4
  %5 = load i16, ptr %3
  %6 = zext i16 %5 to i32
  ret i32 %6
}
declare ptr @memset(ptr, i32, i64)
~
~
report 1: exit at site 9 in @main, part 0, bits 0xff00 of i32
  origin 3: stored at site 6 in @main
  origin 2: undef at site 6 in @main
end: reported
reports: 1
blind: 0
verdict: poisoned
~
77
====
# The fourth byte is not stored, and lies in the cell of the three that are.
check f~
define i32 @main() {
  %1 = alloca i24
  store i24 undef, ptr %1
  %2 = getelementptr i8, ptr %1, i64 3
  %3 = load i8, ptr %2
  %4 = zext i8 %3 to i32
  ret i32 %4
}
~
~
report 1: exit at site 6 in @main, part 0, bits 0xff of i32
  origin 3: stored at site 2 in @main
  origin 2: undef at site 2 in @main
end: reported
reports: 1
blind: 0
verdict: poisoned
~
77
====
check f~
define i32 @main() {
  %1 = alloca i33
  store i33 undef, ptr %1
  %2 = getelementptr i8, ptr %1, i64 4
  %3 = load i8, ptr %2
  %4 = zext i8 %3 to i32
  ret i32 %4
}
~
~
report 1: exit at site 6 in @main, part 0, bits 0x1 of i32
  origin 3: stored at site 2 in @main
  origin 2: undef at site 2 in @main
end: reported
reports: 1
blind: 0
verdict: poisoned
~
77
====
# A copy takes the shadow as it was before.
check f~
define i32 @main() {
  %1 = alloca [8 x i8]
  %2 = call ptr @memset(ptr %1, i32 0, i64 8)
  store i8 undef, ptr %1
  %3 = getelementptr i8, ptr %1, i64 1
  %4 = call ptr @memmove(ptr %3, ptr %1, i64 7)
  %5 = getelementptr i8, ptr %1, i64 1
  %6 = load i8, ptr %5
  %7 = zext i8 %6 to i32
  ret i32 %7
}
declare ptr @memset(ptr, i32, i64)
declare ptr @memmove(ptr, ptr, i64)
~
~
report 1: exit at site 9 in @main, part 0, bits 0xff of i32
  origin 3: stored at site 3 in @main
  origin 2: undef at site 3 in @main
end: reported
reports: 1
blind: 0
verdict: poisoned
~
77
====
check f~
define i32 @main() {
  %1 = alloca [8 x i8]
  %2 = call ptr @memset(ptr %1, i32 0, i64 8)
  store i8 undef, ptr %1
  %3 = getelementptr i8, ptr %1, i64 1
  %4 = call ptr @memmove(ptr %3, ptr %1, i64 7)
  %5 = getelementptr i8, ptr %1, i64 2
  %6 = load i8, ptr %5
  %7 = zext i8 %6 to i32
  ret i32 %7
}
declare ptr @memset(ptr, i32, i64)
declare ptr @memmove(ptr, ptr, i64)
~
~
end: exit 0
reports: 0
blind: 0
verdict: clean
~
0
====
check f~
define i32 @main() {
  %1 = alloca ptr
  %2 = load ptr, ptr %1
  %3 = load i8, ptr %2
  ret i32 0
}
~
~
report 1: address at site 3 in @main, part 0, bits 0xffffffffffffffff of i64
  origin 1: alloca at site 1 in @main
end: reported
reports: 1
blind: 0
verdict: poisoned
~
77
====
"#;

/// Calls hand masks over.
pub static CALLS: &[u8] = br#"check f~
define i32 @f(i32 %0) {
  %2 = icmp eq i32 %0, 1
  br i1 %2, label %3, label %4
3:
  ret i32 7
4:
  %5 = sub i32 %0, 1
  %6 = call i32 @f(i32 %5)
  ret i32 %6
}
define i32 @main() {
  %1 = call i32 @f(i32 1023)
  ret i32 %1
}
~
~
end: exit 7
reports: 0
blind: 0
verdict: clean
~
0
====
check f~
define i32 @f(i32 %0) {
  %2 = icmp eq i32 %0, 1
  br i1 %2, label %3, label %4
3:
  ret i32 7
4:
  %5 = sub i32 %0, 1
  %6 = call i32 @f(i32 %5)
  ret i32 %6
}
define i32 @main() {
  %1 = call i32 @f(i32 1024)
  ret i32 %1
}
~
~
end: trap depth at site 5 in @f
reports: 0
blind: 0
verdict: clean
~
3
====
check f~
define i32 @g(i32 %0, i32 %1, i32 %2) {
  ret i32 %2
}
define i32 @main() {
  %1 = call i32 @g(i32 1, i32 2, i32 undef)
  %2 = call i32 @g(i32 3, i32 4, i32 5)
  ret i32 %1
}
~
~
report 1: exit at site 4 in @main, part 0, bits 0xffffffff of i32
  origin 1: undef at site 2 in @main
end: reported
reports: 1
blind: 0
verdict: poisoned
~
77
====
# A further call hands over a mask of its own, and the parameter keeps the one that it came with.
check f~
define i32 @g(i32 %0) {
  ret i32 %0
}
define i32 @f(i32 %0) {
  %2 = call i32 @g(i32 5)
  ret i32 %0
}
define i32 @main() {
  %1 = call i32 @f(i32 undef)
  ret i32 %1
}
~
~
report 1: exit at site 5 in @main, part 0, bits 0xffffffff of i32
  origin 1: undef at site 4 in @main
end: reported
reports: 1
blind: 0
verdict: poisoned
~
77
====
check f~
define i8 @f(i8 %0) {
  %2 = xor i8 %0, 15
  ret i8 %2
}
define i32 @main() {
  %1 = and i8 undef, 3
  %2 = call i8 @f(i8 %1)
  %3 = zext i8 %2 to i32
  ret i32 %3
}
~
~
report 1: exit at site 6 in @main, part 0, bits 0x3 of i32
  origin 1: undef at site 3 in @main
end: reported
reports: 1
blind: 0
verdict: poisoned
~
77
====
check f~
define void @f(i1 %0) {
  br i1 %0, label %2, label %2
2:
  ret void
}
define i32 @main() {
  call void @f(i1 undef)
  ret i32 0
}
~
~
report 1: branch at site 1 in @f, part 0, bits 0x1 of i1
  origin 1: undef at site 3 in @main
end: reported
reports: 1
blind: 0
verdict: poisoned
~
77
====
check f~
define ptr @f(ptr %0) {
  ret ptr %0
}
define i32 @main() {
  %1 = call ptr @f(ptr undef)
  %2 = call ptr @f(ptr null)
  %3 = icmp eq ptr %2, null
  %4 = zext i1 %3 to i32
  ret i32 %4
}
~
~
end: exit 1
reports: 0
blind: 0
verdict: clean
~
0
====
"#;

/// Blocks of the heap are poisoned.
pub static HEAP: &[u8] = br#"check f~
define i32 @main() {
  %1 = call ptr @malloc(i64 67108864)
  %2 = icmp ne ptr %1, null
  %3 = call ptr @malloc(i64 1)
  %4 = icmp eq ptr %3, null
  %5 = and i1 %2, %4
  %6 = zext i1 %5 to i32
  ret i32 %6
}
declare ptr @malloc(i64)
~
~
end: exit 1
reports: 0
blind: 0
verdict: clean
~
0
====
check f~
define i32 @main() {
  %1 = call ptr @calloc(i64 1, i64 1)
  %2 = load i8, ptr %1
  %3 = icmp eq i8 %2, 0
  br i1 %3, label %4, label %5
4:
  ret i32 0
5:
  ret i32 1
}
declare ptr @calloc(i64, i64)
~
~
end: exit 0
reports: 0
blind: 0
verdict: clean
~
0
====
check f~
define i32 @main() {
  %1 = call ptr @malloc(i64 1)
  %2 = load i8, ptr %1
  %3 = icmp eq i8 %2, 0
  br i1 %3, label %4, label %5
4:
  ret i32 0
5:
  ret i32 1
}
declare ptr @malloc(i64)
~
~
report 1: branch at site 4 in @main, part 0, bits 0x1 of i1
  origin 1: malloc at site 1 in @main
end: reported
reports: 1
blind: 0
verdict: poisoned
~
77
====
check f~
define i32 @main() {
  %1 = call ptr @calloc(i64 -1, i64 2)
  %2 = icmp eq ptr %1, null
  %3 = zext i1 %2 to i32
  ret i32 %3
}
declare ptr @calloc(i64, i64)
~
~
end: exit 1
reports: 0
blind: 0
verdict: clean
~
0
====
check f~
define i32 @main() {
  %1 = call ptr @malloc(i64 4)
  call void @free(ptr %1)
  call void @free(ptr %1)
  ret i32 0
}
declare ptr @malloc(i64)
declare void @free(ptr)
~
~
end: trap bad-free at site 3 in @main
reports: 0
blind: 0
verdict: clean
~
3
====
# What is copied keeps its shadow and its origin, and the rest is poisoned.
check f~
define i32 @main() {
  %1 = call ptr @malloc(i64 4)
  store i8 1, ptr %1
  %2 = call ptr @realloc(ptr %1, i64 8)
  %3 = getelementptr i8, ptr %2, i64 0
  %4 = load i8, ptr %3
  %5 = zext i8 %4 to i32
  ret i32 %5
}
declare ptr @malloc(i64)
declare ptr @realloc(ptr, i64)
~
~
end: exit 1
reports: 0
blind: 0
verdict: clean
~
0
====
check f~
define i32 @main() {
  %1 = call ptr @malloc(i64 4)
  store i8 1, ptr %1
  %2 = call ptr @realloc(ptr %1, i64 8)
  %3 = getelementptr i8, ptr %2, i64 1
  %4 = load i8, ptr %3
  %5 = zext i8 %4 to i32
  ret i32 %5
}
declare ptr @malloc(i64)
declare ptr @realloc(ptr, i64)
~
~
report 1: exit at site 7 in @main, part 0, bits 0xff of i32
  origin 1: malloc at site 1 in @main
end: reported
reports: 1
blind: 0
verdict: poisoned
~
77
====
check f~
define i32 @main() {
  %1 = call ptr @malloc(i64 4)
  store i8 1, ptr %1
  %2 = call ptr @realloc(ptr %1, i64 8)
  %3 = getelementptr i8, ptr %2, i64 4
  %4 = load i8, ptr %3
  %5 = zext i8 %4 to i32
  ret i32 %5
}
declare ptr @malloc(i64)
declare ptr @realloc(ptr, i64)
~
~
report 1: exit at site 7 in @main, part 0, bits 0xff of i32
  origin 2: realloc at site 3 in @main
end: reported
reports: 1
blind: 0
verdict: poisoned
~
77
====
check f~
define i32 @main() {
  %1 = alloca i32
  store i32 7, ptr %1
  call void @llvm.lifetime.start.p0(i64 4, ptr %1)
  %2 = load i32, ptr %1
  ret i32 %2
}
declare void @llvm.lifetime.start.p0(i64, ptr)
~
~
report 1: exit at site 5 in @main, part 0, bits 0xffffffff of i32
  origin 2: lifetime at site 3 in @main
end: reported
reports: 1
blind: 0
verdict: poisoned
~
77
====
"#;
