//! Rows of runs of modules whose marked calls check strings.

/// Strings are checked.
/// Four bytes: a, b, 0, x. A check of a string ends at a clean zero byte, or with the allocation.
pub static STRINGS: &[u8] =
    br#"define i32 @main() { %p = alloca i32 store i32 2013291105, ptr %p call void @__msan_check_string(ptr %p, i32 1), !nosanitize !0 ret i32 0 }~
1~
10000000~
~
end: exit 0
reports: 0
blind: 0
~
0
====
define i32 @main() { %p = alloca i32 store i32 2013291105, ptr %p call void @__msan_poison(ptr %p, i64 3, i64 4, i32 9), !nosanitize !0 call void @__msan_check_string(ptr %p, i32 1), !nosanitize !0 ret i32 0 }~
1~
10000000~
~
end: exit 0
reports: 0
blind: 0
~
0
====
define i32 @main() { %p = alloca i32 store i32 2013291105, ptr %p call void @__msan_poison(ptr %p, i64 1, i64 4, i32 9), !nosanitize !0 call void @__msan_check_string(ptr %p, i32 1), !nosanitize !0 ret i32 0 }~
1~
10000000~
~
report 1: string at site 1 in @main, part 1, bits 0xff of i8
  origin 9: unknown
end: reported
reports: 1
blind: 0
~
77
====
define i32 @main() { %p = alloca i32 store i32 2013291105, ptr %p call void @__msan_poison(ptr %p, i64 2, i64 3, i32 9), !nosanitize !0 call void @__msan_check_string(ptr %p, i32 1), !nosanitize !0 ret i32 0 }~
1~
10000000~
~
report 1: string at site 1 in @main, part 2, bits 0xff of i8
  origin 9: unknown
end: reported
reports: 1
blind: 0
~
77
====
define i32 @main() { %p = alloca i32 store i32 2013291105, ptr %p call void @__msan_poison(ptr %p, i64 2, i64 3, i32 9), !nosanitize !0 %q = getelementptr i8, ptr %p, i64 1 call void @__msan_check_string(ptr %q, i32 1), !nosanitize !0 ret i32 0 }~
1~
10000000~
~
report 1: string at site 1 in @main, part 1, bits 0xff of i8
  origin 9: unknown
end: reported
reports: 1
blind: 0
~
77
====
define i32 @main() { %p = alloca i32 call void @__msan_poison(ptr %p, i64 3, i64 4, i32 9), !nosanitize !0 call void @__msan_check_string(ptr %p, i32 1), !nosanitize !0 ret i32 0 }~
1~
10000000~
~
report 1: string at site 1 in @main, part 3, bits 0xff of i8
  origin 9: unknown
end: reported
reports: 1
blind: 0
~
77
====
define i32 @main() { %p = alloca i32 call void @__msan_check_string(ptr %p, i32 1), !nosanitize !0 ret i32 0 }~
1~
10000000~
~
end: exit 0
reports: 0
blind: 0
~
0
====
define i32 @main() { %p = alloca i32 call void @__msan_check_string(ptr null, i32 1), !nosanitize !0 ret i32 0 }~
1~
10000000~
~
end: exit 0
reports: 0
blind: 0
~
0
====
define i32 @main() { %p = alloca i32 store i32 2013291105, ptr %p call void @__msan_poison(ptr %p, i64 0, i64 4, i32 9), !nosanitize !0 %q = getelementptr i8, ptr %p, i64 4 call void @__msan_check_string(ptr %q, i32 1), !nosanitize !0 ret i32 0 }~
1~
10000000~
~
end: exit 0
reports: 0
blind: 0
~
0
====
"#;

/// Strings are checked for which a format asks.
/// Four bytes: a, a poisoned b, a poisoned 0, a poisoned x.
pub static FORMATS: &[u8] =
    br#"@f = constant [3 x i8] c"%s\00" define i32 @main() { %p = alloca i32 store i32 2013291105, ptr %p call void @__msan_poison(ptr %p, i64 1, i64 4, i32 9), !nosanitize !0 call void @__msan_check_format(ptr @f, i32 1, ptr %p, i32 1), !nosanitize !0 ret i32 0 }~
1~
10000000~
~
report 1: string at site 1 in @main, part 1, bits 0xff of i8
  origin 9: unknown
end: reported
reports: 1
blind: 0
~
77
====
# Neither the format itself nor an argument that no directive takes.
@f = constant [3 x i8] c"%s\00" define i32 @main() { %p = alloca i32 store i32 2013291105, ptr %p call void @__msan_poison(ptr %p, i64 1, i64 4, i32 9), !nosanitize !0 call void @__msan_check_format(ptr @f, i32 0, ptr %p, i32 1), !nosanitize !0 ret i32 0 }~
1~
10000000~
~
end: exit 0
reports: 0
blind: 0
~
0
====
@f = constant [3 x i8] c"%s\00" define i32 @main() { %p = alloca i32 store i32 2013291105, ptr %p call void @__msan_poison(ptr %p, i64 1, i64 4, i32 9), !nosanitize !0 call void @__msan_check_format(ptr @f, i32 2, ptr %p, i32 1), !nosanitize !0 ret i32 0 }~
1~
10000000~
~
end: exit 0
reports: 0
blind: 0
~
0
====
# Text and `%%` take no argument, and each other directive one.
@f = constant [8 x i8] c"a%%%d%s\00" define i32 @main() { %p = alloca i32 store i32 2013291105, ptr %p call void @__msan_poison(ptr %p, i64 1, i64 4, i32 9), !nosanitize !0 call void @__msan_check_format(ptr @f, i32 2, ptr %p, i32 1), !nosanitize !0 ret i32 0 }~
1~
10000000~
~
report 1: string at site 1 in @main, part 1, bits 0xff of i8
  origin 9: unknown
end: reported
reports: 1
blind: 0
~
77
====
@f = constant [8 x i8] c"a%%%d%s\00" define i32 @main() { %p = alloca i32 store i32 2013291105, ptr %p call void @__msan_poison(ptr %p, i64 1, i64 4, i32 9), !nosanitize !0 call void @__msan_check_format(ptr @f, i32 1, ptr %p, i32 1), !nosanitize !0 ret i32 0 }~
1~
10000000~
~
end: exit 0
reports: 0
blind: 0
~
0
====
@f = constant [8 x i8] c"a%%%d%s\00" define i32 @main() { %p = alloca i32 store i32 2013291105, ptr %p call void @__msan_poison(ptr %p, i64 1, i64 4, i32 9), !nosanitize !0 call void @__msan_check_format(ptr @f, i32 3, ptr %p, i32 1), !nosanitize !0 ret i32 0 }~
1~
10000000~
~
end: exit 0
reports: 0
blind: 0
~
0
====
# Before a bad place, and after it.
@f = constant [8 x i8] c"%s%5d%s\00" define i32 @main() { %p = alloca i32 store i32 2013291105, ptr %p call void @__msan_poison(ptr %p, i64 1, i64 4, i32 9), !nosanitize !0 call void @__msan_check_format(ptr @f, i32 1, ptr %p, i32 1), !nosanitize !0 ret i32 0 }~
1~
10000000~
~
report 1: string at site 1 in @main, part 1, bits 0xff of i8
  origin 9: unknown
end: reported
reports: 1
blind: 0
~
77
====
@f = constant [8 x i8] c"%s%5d%s\00" define i32 @main() { %p = alloca i32 store i32 2013291105, ptr %p call void @__msan_poison(ptr %p, i64 1, i64 4, i32 9), !nosanitize !0 call void @__msan_check_format(ptr @f, i32 2, ptr %p, i32 1), !nosanitize !0 ret i32 0 }~
1~
10000000~
~
end: exit 0
reports: 0
blind: 0
~
0
====
@f = constant [8 x i8] c"%s%5d%s\00" define i32 @main() { %p = alloca i32 store i32 2013291105, ptr %p call void @__msan_poison(ptr %p, i64 1, i64 4, i32 9), !nosanitize !0 call void @__msan_check_format(ptr @f, i32 3, ptr %p, i32 1), !nosanitize !0 ret i32 0 }~
1~
10000000~
~
end: exit 0
reports: 0
blind: 0
~
0
====
# After the end of the format, and where it has none.
@f = constant [3 x i8] c"\00%s" define i32 @main() { %p = alloca i32 store i32 2013291105, ptr %p call void @__msan_poison(ptr %p, i64 1, i64 4, i32 9), !nosanitize !0 call void @__msan_check_format(ptr @f, i32 1, ptr %p, i32 1), !nosanitize !0 ret i32 0 }~
1~
10000000~
~
end: exit 0
reports: 0
blind: 0
~
0
====
@f = constant [2 x i8] c"%s" define i32 @main() { %p = alloca i32 store i32 2013291105, ptr %p call void @__msan_poison(ptr %p, i64 1, i64 4, i32 9), !nosanitize !0 call void @__msan_check_format(ptr @f, i32 1, ptr %p, i32 1), !nosanitize !0 ret i32 0 }~
1~
10000000~
~
end: exit 0
reports: 0
blind: 0
~
0
====
@f = constant [2 x i8] c"%s" define i32 @main() { %p = alloca i32 store i32 2013291105, ptr %p call void @__msan_poison(ptr %p, i64 1, i64 4, i32 9), !nosanitize !0 call void @__msan_check_format(ptr null, i32 1, ptr %p, i32 1), !nosanitize !0 ret i32 0 }~
1~
10000000~
~
end: exit 0
reports: 0
blind: 0
~
0
====
# Where no allocation is, there is no string.
@f = constant [3 x i8] c"%s\00" define i32 @main() { %p = alloca i32 store i32 2013291105, ptr %p call void @__msan_poison(ptr %p, i64 1, i64 4, i32 9), !nosanitize !0 call void @__msan_check_format(ptr @f, i32 1, ptr null, i32 1), !nosanitize !0 ret i32 0 }~
1~
10000000~
~
end: exit 0
reports: 0
blind: 0
~
0
====
"#;
