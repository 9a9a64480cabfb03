//! Rows of what `check` says of bytes that are compared, and of strings. Masks, sites and origins were worked out by hand.

/// Bytes that are compared are checked.
pub static COMPARED: &[u8] = br#"# Also after the first byte that differs.
check f~
@s = global [2 x i8] c"ab"
define i32 @main() {
  %1 = alloca i16
  store i8 120, ptr %1
  %2 = call i32 @memcmp(ptr %1, ptr @s, i64 2)
  ret i32 %2
}
declare i32 @memcmp(ptr, ptr, i64)
~
~
report 1: first-bytes at site 3 in @main, part 1, bits 0xff of i8
  origin 1: alloca at site 1 in @main
end: reported
reports: 1
blind: 0
verdict: poisoned
~
77
====
check f~
@s = global [2 x i8] c"ab"
define i32 @main() {
  %1 = alloca i16
  store i8 120, ptr %1
  %2 = call i32 @memcmp(ptr %1, ptr @s, i64 1)
  ret i32 %2
}
declare i32 @memcmp(ptr, ptr, i64)
~
~
end: exit 1
reports: 0
blind: 0
verdict: clean
~
0
====
check f~
@s = global [2 x i8] c"ab"
define i32 @main() {
  %1 = and i8 undef, 15
  %2 = alloca i8
  store i8 %1, ptr %2
  %3 = call i32 @memcmp(ptr @s, ptr %2, i64 1)
  ret i32 %3
}
declare i32 @memcmp(ptr, ptr, i64)
~
~
report 1: second-bytes at site 4 in @main, part 0, bits 0xf of i8
  origin 3: stored at site 3 in @main
  origin 1: undef at site 1 in @main
end: reported
reports: 1
blind: 0
verdict: poisoned
~
77
====
check f~
@s = global [2 x i8] c"ab"
define i32 @main() {
  %1 = alloca i16
  store i8 97, ptr %1
  %2 = call i32 @memcmp(ptr @s, ptr %1, i64 1)
  ret i32 %2
}
declare i32 @memcmp(ptr, ptr, i64)
~
~
end: exit 0
reports: 0
blind: 0
verdict: clean
~
0
====
check f~
@s = global [2 x i8] c"ab"
@t = global [2 x i8] c"ac"
define i32 @main() {
  %1 = call i32 @memcmp(ptr @s, ptr @t, i64 2)
  ret i32 %1
}
declare i32 @memcmp(ptr, ptr, i64)
~
~
end: exit 4294967295
reports: 0
blind: 0
verdict: clean
~
0
====
# A range that is not good is not looked at; the other one is.
check f~
@s = global [2 x i8] c"ab"
define i32 @main() {
  %1 = alloca i8
  %2 = call i32 @memcmp(ptr %1, ptr @s, i64 2)
  ret i32 %2
}
declare i32 @memcmp(ptr, ptr, i64)
~
~
end: trap bad-address at site 2 in @main
reports: 0
blind: 0
verdict: clean
~
3
====
check f~
define i32 @main() {
  %1 = alloca i8
  %2 = call i32 @memcmp(ptr null, ptr %1, i64 1)
  ret i32 %2
}
declare i32 @memcmp(ptr, ptr, i64)
~
~
report 1: second-bytes at site 2 in @main, part 0, bits 0xff of i8
  origin 1: alloca at site 1 in @main
end: reported
reports: 1
blind: 0
verdict: poisoned
~
77
====
check f~
define i32 @main() {
  %1 = alloca i8
  store i8 1, ptr %1
  %2 = call i32 @memcmp(ptr %1, ptr null, i64 1)
  ret i32 %2
}
declare i32 @memcmp(ptr, ptr, i64)
~
~
end: trap bad-address at site 3 in @main
reports: 0
blind: 0
verdict: clean
~
3
====
"#;

/// Strings are checked up to their end.
pub static STRINGS: &[u8] = br#"check f~
define i32 @main() {
  %1 = alloca [3 x i8]
  store i8 65, ptr %1
  %2 = call i64 @strlen(ptr %1)
  ret i32 0
}
declare i64 @strlen(ptr)
~
~
report 1: string at site 3 in @main, part 1, bits 0xff of i8
  origin 1: alloca at site 1 in @main
end: reported
reports: 1
blind: 0
verdict: poisoned
~
77
====
check f~
define i32 @main() {
  %1 = alloca [4 x i8]
  store i16 65, ptr %1
  %2 = call i64 @strlen(ptr %1)
  %3 = trunc i64 %2 to i32
  ret i32 %3
}
declare i64 @strlen(ptr)
~
~
end: exit 1
reports: 0
blind: 0
verdict: clean
~
0
====
# This byte is 0 and poisoned, so it ends nothing.
check f~
define i32 @main() {
  %1 = alloca i8
  %2 = and i8 undef, 2
  store i8 %2, ptr %1
  %3 = call i64 @strlen(ptr %1)
  ret i32 0
}
declare i64 @strlen(ptr)
~
~
report 1: string at site 4 in @main, part 0, bits 0x2 of i8
  origin 3: stored at site 3 in @main
  origin 2: undef at site 2 in @main
end: reported
reports: 1
blind: 0
verdict: poisoned
~
77
====
# What stands before the pointer is not looked at, and offsets count from there.
check f~
define i32 @main() {
  %1 = alloca i16
  %2 = getelementptr i8, ptr %1, i64 1
  store i8 0, ptr %2
  %3 = call i64 @strlen(ptr %2)
  %4 = trunc i64 %3 to i32
  ret i32 %4
}
declare i64 @strlen(ptr)
~
~
end: exit 0
reports: 0
blind: 0
verdict: clean
~
0
====
check f~
define i32 @main() {
  %1 = alloca [3 x i8]
  %2 = getelementptr i8, ptr %1, i64 1
  store i8 65, ptr %2
  %3 = call i64 @strlen(ptr %2)
  ret i32 0
}
declare i64 @strlen(ptr)
~
~
report 1: string at site 4 in @main, part 1, bits 0xff of i8
  origin 1: alloca at site 1 in @main
end: reported
reports: 1
blind: 0
verdict: poisoned
~
77
====
check f~
@s = global [2 x i8] c"ab"
define i32 @main() {
  %1 = call i64 @strlen(ptr @s)
  ret i32 0
}
declare i64 @strlen(ptr)
~
~
end: trap bad-address at site 1 in @main
reports: 0
blind: 0
verdict: clean
~
3
====
check f~
define i32 @main() {
  %1 = call i64 @strlen(ptr null)
  ret i32 0
}
declare i64 @strlen(ptr)
~
~
end: trap bad-address at site 1 in @main
reports: 0
blind: 0
verdict: clean
~
3
====
# The report comes before the trap.
check f~
define i32 @main() {
  %1 = alloca i8
  %2 = call i64 @strlen(ptr %1)
  ret i32 0
}
declare i64 @strlen(ptr)
~
~
report 1: string at site 2 in @main, part 0, bits 0xff of i8
  origin 1: alloca at site 1 in @main
end: reported
reports: 1
blind: 0
verdict: poisoned
~
77
====
check f~
define i32 @main() {
  %1 = alloca [4 x i8]
  store i16 16961, ptr %1
  %2 = call i32 @puts(ptr %1)
  ret i32 %2
}
declare i32 @puts(ptr)
~
~
report 1: string at site 3 in @main, part 2, bits 0xff of i8
  origin 1: alloca at site 1 in @main
end: reported
reports: 1
blind: 0
verdict: poisoned
~
77
====
check f~
define i32 @main() {
  %1 = alloca [3 x i8]
  store i16 65, ptr %1
  %2 = call i32 @puts(ptr %1)
  ret i32 %2
}
declare i32 @puts(ptr)
~
A
~
end: exit 1
reports: 0
blind: 0
verdict: clean
~
0
====
check f~
define i32 @main() {
  %1 = alloca [3 x i8]
  %2 = call ptr @memset(ptr %1, i32 65, i64 3)
  %3 = call i32 @puts(ptr %1)
  ret i32 %3
}
declare ptr @memset(ptr, i32, i64)
declare i32 @puts(ptr)
~
~
end: trap bad-address at site 3 in @main
reports: 0
blind: 0
verdict: clean
~
3
====
check f~
define i32 @main() {
  %1 = call i32 @puts(ptr null)
  ret i32 %1
}
declare i32 @puts(ptr)
~
~
end: trap bad-address at site 1 in @main
reports: 0
blind: 0
verdict: clean
~
3
====
"#;
