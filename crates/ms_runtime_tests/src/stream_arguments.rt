//! Rows of what `check` says of arguments about bytes, and of calls that read, write and end. Masks, sites and origins were worked out by hand.

/// Arguments about bytes are checked.
/// The byte that is set is checked at no call.
pub static BYTES: &[u8] = br#"check f~
define i32 @main() {
  %1 = call ptr @memset(ptr undef, i32 0, i64 0)
  ret i32 0
}
declare ptr @memset(ptr, i32, i64)
~
~
report 1: pointer at site 1 in @main, part 0, bits 0xffffffffffffffff of i64
  origin 1: undef at site 1 in @main
end: reported
reports: 1
blind: 0
verdict: poisoned
~
77
====
check f~
define i32 @main() {
  %1 = call ptr @memset(ptr null, i32 0, i64 undef)
  ret i32 0
}
declare ptr @memset(ptr, i32, i64)
~
~
report 1: size at site 1 in @main, part 2, bits 0xffffffffffffffff of i64
  origin 1: undef at site 1 in @main
end: reported
reports: 1
blind: 0
verdict: poisoned
~
77
====
check f~
define i32 @main() {
  %1 = call ptr @memset(ptr null, i32 undef, i64 0)
  ret i32 0
}
declare ptr @memset(ptr, i32, i64)
~
~
end: exit 0
reports: 0
blind: 0
verdict: clean
~
0
====
check f~
define i32 @main() {
  call void @llvm.memset.p0.i64(ptr undef, i8 0, i64 0, i1 false)
  ret i32 0
}
declare void @llvm.memset.p0.i64(ptr, i8, i64, i1)
~
~
report 1: pointer at site 1 in @main, part 0, bits 0xffffffffffffffff of i64
  origin 1: undef at site 1 in @main
end: reported
reports: 1
blind: 0
verdict: poisoned
~
77
====
check f~
define i32 @main() {
  call void @llvm.memset.p0.i64(ptr null, i8 0, i64 undef, i1 false)
  ret i32 0
}
declare void @llvm.memset.p0.i64(ptr, i8, i64, i1)
~
~
report 1: size at site 1 in @main, part 2, bits 0xffffffffffffffff of i64
  origin 1: undef at site 1 in @main
end: reported
reports: 1
blind: 0
verdict: poisoned
~
77
====
check f~
define i32 @main() {
  call void @llvm.memset.p0.i64(ptr null, i8 undef, i64 0, i1 false)
  ret i32 0
}
declare void @llvm.memset.p0.i64(ptr, i8, i64, i1)
~
~
end: exit 0
reports: 0
blind: 0
verdict: clean
~
0
====
check f~
define i32 @main() {
  %1 = call i32 @memcmp(ptr undef, ptr null, i64 0)
  ret i32 0
}
declare i32 @memcmp(ptr, ptr, i64)
~
~
report 1: pointer at site 1 in @main, part 0, bits 0xffffffffffffffff of i64
  origin 1: undef at site 1 in @main
end: reported
reports: 1
blind: 0
verdict: poisoned
~
77
====
check f~
define i32 @main() {
  %1 = call i32 @memcmp(ptr null, ptr undef, i64 0)
  ret i32 0
}
declare i32 @memcmp(ptr, ptr, i64)
~
~
report 1: pointer at site 1 in @main, part 1, bits 0xffffffffffffffff of i64
  origin 1: undef at site 1 in @main
end: reported
reports: 1
blind: 0
verdict: poisoned
~
77
====
check f~
define i32 @main() {
  %1 = call i32 @memcmp(ptr null, ptr null, i64 undef)
  ret i32 0
}
declare i32 @memcmp(ptr, ptr, i64)
~
~
report 1: size at site 1 in @main, part 2, bits 0xffffffffffffffff of i64
  origin 1: undef at site 1 in @main
end: reported
reports: 1
blind: 0
verdict: poisoned
~
77
====
check f~
define i32 @main() {
  %1 = call i32 @memcmp(ptr null, ptr null, i64 0)
  ret i32 0
}
declare i32 @memcmp(ptr, ptr, i64)
~
~
end: exit 0
reports: 0
blind: 0
verdict: clean
~
0
====
check f~
define i32 @main() {
  %1 = call i64 @strlen(ptr undef)
  ret i32 0
}
declare i64 @strlen(ptr)
~
~
report 1: pointer at site 1 in @main, part 0, bits 0xffffffffffffffff of i64
  origin 1: undef at site 1 in @main
end: reported
reports: 1
blind: 0
verdict: poisoned
~
77
====
check f~
@s = global [3 x i8] c"ab\00"
define i32 @main() {
  %1 = call i64 @strlen(ptr @s)
  %2 = trunc i64 %1 to i32
  ret i32 %2
}
declare i64 @strlen(ptr)
~
~
end: exit 2
reports: 0
blind: 0
verdict: clean
~
0
====
"#;

/// Arguments about input and output are checked.
pub static STREAMS: &[u8] = br#"# Also the bits that are not printed.
check f~
define i32 @main() {
  %1 = and i32 undef, 256
  %2 = call i32 @putchar(i32 %1)
  ret i32 0
}
declare i32 @putchar(i32)
~
~
report 1: value at site 2 in @main, part 0, bits 0x100 of i32
  origin 1: undef at site 1 in @main
end: reported
reports: 1
blind: 0
verdict: poisoned
~
77
====
check f~
define i32 @main() {
  %1 = call i32 @putchar(i32 321)
  ret i32 %1
}
declare i32 @putchar(i32)
~
A~
end: exit 65
reports: 0
blind: 0
verdict: clean
~
0
====
check f~
define i32 @main() {
  %1 = call i32 @puts(ptr undef)
  ret i32 0
}
declare i32 @puts(ptr)
~
~
report 1: pointer at site 1 in @main, part 0, bits 0xffffffffffffffff of i64
  origin 1: undef at site 1 in @main
end: reported
reports: 1
blind: 0
verdict: poisoned
~
77
====
check f~
@s = global [3 x i8] c"ab\00"
define i32 @main() {
  %1 = call i32 @puts(ptr @s)
  ret i32 %1
}
declare i32 @puts(ptr)
~
ab
~
end: exit 1
reports: 0
blind: 0
verdict: clean
~
0
====
check f~
define i32 @main() {
  %1 = call i64 @read(i32 undef, ptr null, i64 0)
  ret i32 0
}
declare i64 @read(i32, ptr, i64)
~
~
report 1: value at site 1 in @main, part 0, bits 0xffffffff of i32
  origin 1: undef at site 1 in @main
end: reported
reports: 1
blind: 0
verdict: poisoned
~
77
====
check f~
define i32 @main() {
  %1 = call i64 @read(i32 0, ptr undef, i64 0)
  ret i32 0
}
declare i64 @read(i32, ptr, i64)
~
~
report 1: pointer at site 1 in @main, part 1, bits 0xffffffffffffffff of i64
  origin 1: undef at site 1 in @main
end: reported
reports: 1
blind: 0
verdict: poisoned
~
77
====
check f~
define i32 @main() {
  %1 = call i64 @read(i32 0, ptr null, i64 undef)
  ret i32 0
}
declare i64 @read(i32, ptr, i64)
~
~
report 1: size at site 1 in @main, part 2, bits 0xffffffffffffffff of i64
  origin 1: undef at site 1 in @main
end: reported
reports: 1
blind: 0
verdict: poisoned
~
77
====
check f~
define i32 @main() {
  %1 = call i64 @read(i32 0, ptr null, i64 0)
  %2 = trunc i64 %1 to i32
  ret i32 %2
}
declare i64 @read(i32, ptr, i64)
~
~
end: exit 0
reports: 0
blind: 0
verdict: clean
~
0
====
check f~
define i32 @main() {
  %1 = call i64 @write(i32 undef, ptr null, i64 0)
  ret i32 0
}
declare i64 @write(i32, ptr, i64)
~
~
report 1: value at site 1 in @main, part 0, bits 0xffffffff of i32
  origin 1: undef at site 1 in @main
end: reported
reports: 1
blind: 0
verdict: poisoned
~
77
====
check f~
define i32 @main() {
  %1 = call i64 @write(i32 1, ptr undef, i64 0)
  ret i32 0
}
declare i64 @write(i32, ptr, i64)
~
~
report 1: pointer at site 1 in @main, part 1, bits 0xffffffffffffffff of i64
  origin 1: undef at site 1 in @main
end: reported
reports: 1
blind: 0
verdict: poisoned
~
77
====
check f~
define i32 @main() {
  %1 = call i64 @write(i32 1, ptr null, i64 undef)
  ret i32 0
}
declare i64 @write(i32, ptr, i64)
~
~
report 1: size at site 1 in @main, part 2, bits 0xffffffffffffffff of i64
  origin 1: undef at site 1 in @main
end: reported
reports: 1
blind: 0
verdict: poisoned
~
77
====
check f~
define i32 @main() {
  %1 = call i64 @write(i32 1, ptr null, i64 0)
  %2 = trunc i64 %1 to i32
  ret i32 %2
}
declare i64 @write(i32, ptr, i64)
~
~
end: exit 0
reports: 0
blind: 0
verdict: clean
~
0
====
"#;

/// Arguments about ends are checked.
/// The end of a run, and of lifetimes.
pub static ENDS: &[u8] = br#"check f~
define i32 @main() {
  %1 = and i32 undef, 1
  call void @exit(i32 %1)
  ret i32 0
}
declare void @exit(i32)
~
~
report 1: exit at site 2 in @main, part 0, bits 0x1 of i32
  origin 1: undef at site 1 in @main
end: reported
reports: 1
blind: 0
verdict: poisoned
~
77
====
check f~
define i32 @main() {
  call void @exit(i32 -1)
  ret i32 0
}
declare void @exit(i32)
~
~
end: exit 4294967295
reports: 0
blind: 0
verdict: clean
~
0
====
# Also outside `main`.
check f~
define void @f() {
  call void @exit(i32 3)
  ret void
}
define i32 @main() {
  call void @f()
  ret i32 0
}
declare void @exit(i32)
~
~
end: exit 3
reports: 0
blind: 0
verdict: clean
~
0
====
check f~
define void @f() {
  call void @exit(i32 undef)
  ret void
}
define i32 @main() {
  call void @f()
  ret i32 0
}
declare void @exit(i32)
~
~
report 1: exit at site 1 in @f, part 0, bits 0xffffffff of i32
  origin 1: undef at site 1 in @f
end: reported
reports: 1
blind: 0
verdict: poisoned
~
77
====
check f~
define i32 @main() {
  %1 = call i32 @putchar(i32 65)
  call void @abort()
  ret i32 undef
}
declare i32 @putchar(i32)
declare void @abort()
~
A~
end: trap abort at site 2 in @main
reports: 0
blind: 0
verdict: clean
~
3
====
check f~
define i32 @main() {
  call void @llvm.lifetime.start.p0(i64 undef, ptr null)
  ret i32 0
}
declare void @llvm.lifetime.start.p0(i64, ptr)
~
~
report 1: size at site 1 in @main, part 0, bits 0xffffffffffffffff of i64
  origin 1: undef at site 1 in @main
end: reported
reports: 1
blind: 0
verdict: poisoned
~
77
====
check f~
define i32 @main() {
  call void @llvm.lifetime.start.p0(i64 0, ptr undef)
  ret i32 0
}
declare void @llvm.lifetime.start.p0(i64, ptr)
~
~
report 1: pointer at site 1 in @main, part 1, bits 0xffffffffffffffff of i64
  origin 1: undef at site 1 in @main
end: reported
reports: 1
blind: 0
verdict: poisoned
~
77
====
check f~
define i32 @main() {
  call void @llvm.lifetime.start.p0(i64 0, ptr null)
  ret i32 0
}
declare void @llvm.lifetime.start.p0(i64, ptr)
~
~
end: exit 0
reports: 0
blind: 0
verdict: clean
~
0
====
check f~
define i32 @main() {
  call void @llvm.lifetime.end.p0(i64 undef, ptr null)
  ret i32 0
}
declare void @llvm.lifetime.end.p0(i64, ptr)
~
~
report 1: size at site 1 in @main, part 0, bits 0xffffffffffffffff of i64
  origin 1: undef at site 1 in @main
end: reported
reports: 1
blind: 0
verdict: poisoned
~
77
====
check f~
define i32 @main() {
  call void @llvm.lifetime.end.p0(i64 0, ptr undef)
  ret i32 0
}
declare void @llvm.lifetime.end.p0(i64, ptr)
~
~
report 1: pointer at site 1 in @main, part 1, bits 0xffffffffffffffff of i64
  origin 1: undef at site 1 in @main
end: reported
reports: 1
blind: 0
verdict: poisoned
~
77
====
# An end does nothing, for any range.
check f~
define i32 @main() {
  call void @llvm.lifetime.end.p0(i64 8, ptr null)
  ret i32 0
}
declare void @llvm.lifetime.end.p0(i64, ptr)
~
~
end: exit 0
reports: 0
blind: 0
verdict: clean
~
0
====
"#;
