//! Rows of what calls of `printf` print. Texts and numbers were worked out by hand.

use ms_top_rows::calls::Case;

/// Text, `%%`, and calls in a row.
pub static TEXTS: [Case; 13] = [
    Case(
        "check f",
        r#"@f = constant [10 x i8] c"%d %s%lx\0A\00"
@s = constant [2 x i8] c"v\00"
define i32 @main() {
  %1 = call i32 (ptr, ...) @printf(ptr @f, i32 -5, ptr @s, i64 255)
  ret i32 %1
}
declare i32 @printf(ptr, ...)
"#,
        "-5 vff\n",
        "end: exit 7\nreports: 0\nblind: 0\nverdict: clean\n",
        0,
    ),
    // No argument: text alone, and `%%`.
    Case(
        "check f",
        r#"@f = constant [8 x i8] c"100%% a\00"
define i32 @main() {
  %1 = call i32 (ptr, ...) @printf(ptr @f)
  ret i32 %1
}
declare i32 @printf(ptr, ...)
"#,
        "100% a",
        "end: exit 6\nreports: 0\nblind: 0\nverdict: clean\n",
        0,
    ),
    Case(
        "check f",
        r#"@f = constant [3 x i8] c"%%\00"
define i32 @main() {
  %1 = call i32 (ptr, ...) @printf(ptr @f)
  ret i32 %1
}
declare i32 @printf(ptr, ...)
"#,
        "%",
        "end: exit 1\nreports: 0\nblind: 0\nverdict: clean\n",
        0,
    ),
    // The letters after `%%` are text, also where a directive stands beside it.
    Case(
        "check f",
        r#"@f = constant [8 x i8] c"%%%d%%d\00"
define i32 @main() {
  %1 = call i32 (ptr, ...) @printf(ptr @f, i32 5)
  ret i32 %1
}
declare i32 @printf(ptr, ...)
"#,
        "%5%d",
        "end: exit 4\nreports: 0\nblind: 0\nverdict: clean\n",
        0,
    ),
    // An empty format, and one that ends at its first zero byte.
    Case(
        "check f",
        r#"@f = constant [4 x i8] c"\00%d\00"
define i32 @main() {
  %1 = call i32 (ptr, ...) @printf(ptr @f)
  ret i32 %1
}
declare i32 @printf(ptr, ...)
"#,
        "",
        "end: exit 0\nreports: 0\nblind: 0\nverdict: clean\n",
        0,
    ),
    Case(
        "check f",
        r#"@f = constant [8 x i8] c"%d\00%s%q\00"
define i32 @main() {
  %1 = call i32 (ptr, ...) @printf(ptr @f, i32 4)
  ret i32 %1
}
declare i32 @printf(ptr, ...)
"#,
        "4",
        "end: exit 1\nreports: 0\nblind: 0\nverdict: clean\n",
        0,
    ),
    // Bytes that are no letters stand as they are.
    Case(
        "check f",
        r#"@f = constant [6 x i8] c"\09\22\5C.\0A\00"
define i32 @main() {
  %1 = call i32 (ptr, ...) @printf(ptr @f)
  ret i32 %1
}
declare i32 @printf(ptr, ...)
"#,
        "\t\"\\.\n",
        "end: exit 5\nreports: 0\nblind: 0\nverdict: clean\n",
        0,
    ),
    // A module's own function of this name is an ordinary one.
    Case(
        "check f",
        r#"define i32 @main() {
  %1 = call i32 @printf(ptr null)
  ret i32 %1
}
define i32 @printf(ptr %0) {
  ret i32 9
}
"#,
        "",
        "end: exit 9\nreports: 0\nblind: 0\nverdict: clean\n",
        0,
    ),
    // Surplus arguments are ignored, also a pointer to no string.
    Case(
        "check f",
        r#"@f = constant [2 x i8] c"a\00"
define i32 @main() {
  %1 = call i32 (ptr, ...) @printf(ptr @f, ptr null, i64 3)
  ret i32 %1
}
declare i32 @printf(ptr, ...)
"#,
        "a",
        "end: exit 1\nreports: 0\nblind: 0\nverdict: clean\n",
        0,
    ),
    Case(
        "check f",
        r#"@f = constant [3 x i8] c"%d\00"
define i32 @main() {
  %1 = call i32 (ptr, ...) @printf(ptr @f, i32 1, i32 2, ptr null)
  ret i32 %1
}
declare i32 @printf(ptr, ...)
"#,
        "1",
        "end: exit 1\nreports: 0\nblind: 0\nverdict: clean\n",
        0,
    ),
    // Directives side by side.
    Case(
        "check f",
        r#"@f = constant [7 x i8] c"%d%d%d\00"
define i32 @main() {
  %1 = call i32 (ptr, ...) @printf(ptr @f, i32 1, i32 -2, i32 3)
  ret i32 %1
}
declare i32 @printf(ptr, ...)
"#,
        "1-23",
        "end: exit 4\nreports: 0\nblind: 0\nverdict: clean\n",
        0,
    ),
    // What is printed stands in the order of the calls.
    Case(
        "check f",
        r#"@a = constant [2 x i8] c"a\00"
@d = constant [4 x i8] c"%d\0A\00"
@c = constant [2 x i8] c"c\00"
define i32 @main() {
  %1 = call i32 (ptr, ...) @printf(ptr @a)
  %2 = call i32 @putchar(i32 98)
  %3 = call i32 @puts(ptr @c)
  %4 = call i32 (ptr, ...) @printf(ptr @d, i32 %1)
  ret i32 %4
}
declare i32 @printf(ptr, ...)
declare i32 @putchar(i32)
declare i32 @puts(ptr)
"#,
        "abc\n1\n",
        "end: exit 2\nreports: 0\nblind: 0\nverdict: clean\n",
        0,
    ),
    // The count of bytes is a word as any other.
    Case(
        "check f",
        r#"@f = constant [3 x i8] c"%s\00"
@d = constant [3 x i8] c"%d\00"
@s = constant [3 x i8] c"ab\00"
define i32 @main() {
  %1 = call i32 (ptr, ...) @printf(ptr @f, ptr @s)
  %2 = call i32 (ptr, ...) @printf(ptr @d, i32 %1)
  ret i32 %2
}
declare i32 @printf(ptr, ...)
"#,
        "ab2",
        "end: exit 1\nreports: 0\nblind: 0\nverdict: clean\n",
        0,
    ),
];

/// Numbers and bytes.
pub static NUMBERS: [Case; 12] = [
    // The least numbers, and the greatest.
    Case(
        "check f",
        r#"@f = constant [15 x i8] c"%d %u %ld %lu.\00"
define i32 @main() {
  %1 = call i32 (ptr, ...) @printf(ptr @f, i32 -2147483648, i32 -1, i64 -9223372036854775808, i64 -1)
  ret i32 %1
}
declare i32 @printf(ptr, ...)
"#,
        "-2147483648 4294967295 -9223372036854775808 18446744073709551615.",
        "end: exit 65\nreports: 0\nblind: 0\nverdict: clean\n",
        0,
    ),
    Case(
        "check f",
        r#"@f = constant [7 x i8] c"%d %ld\00"
define i32 @main() {
  %1 = call i32 (ptr, ...) @printf(ptr @f, i32 2147483647, i64 9223372036854775807)
  ret i32 %1
}
declare i32 @printf(ptr, ...)
"#,
        "2147483647 9223372036854775807",
        "end: exit 30\nreports: 0\nblind: 0\nverdict: clean\n",
        0,
    ),
    // From half of all words on the unsigned number differs.
    Case(
        "check f",
        r#"@f = constant [7 x i8] c"%u %lu\00"
define i32 @main() {
  %1 = call i32 (ptr, ...) @printf(ptr @f, i32 -2147483648, i64 -9223372036854775808)
  ret i32 %1
}
declare i32 @printf(ptr, ...)
"#,
        "2147483648 9223372036854775808",
        "end: exit 30\nreports: 0\nblind: 0\nverdict: clean\n",
        0,
    ),
    // Of a zero one digit stands.
    Case(
        "check f",
        r#"@f = constant [21 x i8] c"%d %u %x %ld %lu %lx\00"
define i32 @main() {
  %1 = call i32 (ptr, ...) @printf(ptr @f, i32 0, i32 0, i32 0, i64 0, i64 0, i64 0)
  ret i32 %1
}
declare i32 @printf(ptr, ...)
"#,
        "0 0 0 0 0 0",
        "end: exit 11\nreports: 0\nblind: 0\nverdict: clean\n",
        0,
    ),
    Case(
        "check f",
        r#"@f = constant [10 x i8] c"%d %ld %u\00"
define i32 @main() {
  %1 = call i32 (ptr, ...) @printf(ptr @f, i32 -1, i64 -1, i32 1)
  ret i32 %1
}
declare i32 @printf(ptr, ...)
"#,
        "-1 -1 1",
        "end: exit 7\nreports: 0\nblind: 0\nverdict: clean\n",
        0,
    ),
    Case(
        "check f",
        r#"@f = constant [7 x i8] c"%d %ld\00"
define i32 @main() {
  %1 = call i32 (ptr, ...) @printf(ptr @f, i32 -10, i64 -100)
  ret i32 %1
}
declare i32 @printf(ptr, ...)
"#,
        "-10 -100",
        "end: exit 8\nreports: 0\nblind: 0\nverdict: clean\n",
        0,
    ),
    // The greatest power of ten.
    Case(
        "check f",
        r#"@f = constant [4 x i8] c"%lu\00"
define i32 @main() {
  %1 = call i32 (ptr, ...) @printf(ptr @f, i64 -8446744073709551616)
  ret i32 %1
}
declare i32 @printf(ptr, ...)
"#,
        "10000000000000000000",
        "end: exit 20\nreports: 0\nblind: 0\nverdict: clean\n",
        0,
    ),
    Case(
        "check f",
        r#"@f = constant [7 x i8] c"%x %lx\00"
define i32 @main() {
  %1 = call i32 (ptr, ...) @printf(ptr @f, i32 -1, i64 -1)
  ret i32 %1
}
declare i32 @printf(ptr, ...)
"#,
        "ffffffff ffffffffffffffff",
        "end: exit 25\nreports: 0\nblind: 0\nverdict: clean\n",
        0,
    ),
    Case(
        "check f",
        r#"@f = constant [7 x i8] c"%x %lx\00"
define i32 @main() {
  %1 = call i32 (ptr, ...) @printf(ptr @f, i32 -2147483648, i64 4294967296)
  ret i32 %1
}
declare i32 @printf(ptr, ...)
"#,
        "80000000 100000000",
        "end: exit 18\nreports: 0\nblind: 0\nverdict: clean\n",
        0,
    ),
    Case(
        "check f",
        r#"@f = constant [6 x i8] c"%lx%x\00"
define i32 @main() {
  %1 = call i32 (ptr, ...) @printf(ptr @f, i64 -2401053092612145151, i32 16)
  ret i32 %1
}
declare i32 @printf(ptr, ...)
"#,
        "deadbeef0000000110",
        "end: exit 18\nreports: 0\nblind: 0\nverdict: clean\n",
        0,
    ),
    // `%c` prints the low byte; hexadecimal digits of 0.
    Case(
        "check f",
        r#"@f = constant [9 x i8] c"%c%c%x%x\00"
define i32 @main() {
  %1 = call i32 (ptr, ...) @printf(ptr @f, i32 321, i32 66, i32 0, i32 48879)
  ret i32 %1
}
declare i32 @printf(ptr, ...)
"#,
        "AB0beef",
        "end: exit 7\nreports: 0\nblind: 0\nverdict: clean\n",
        0,
    ),
    // A zero byte is printed and counted too.
    Case(
        "check f",
        r#"@f = constant [5 x i8] c"a%cb\00"
define i32 @main() {
  %1 = call i32 (ptr, ...) @printf(ptr @f, i32 0)
  ret i32 %1
}
declare i32 @printf(ptr, ...)
"#,
        "a\0b",
        "end: exit 3\nreports: 0\nblind: 0\nverdict: clean\n",
        0,
    ),
];
