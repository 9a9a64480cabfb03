//! Names that are defined twice, or used and not defined.

use crate::answers::{Case, Want};

/// Names are defined once.
pub static DUPLICATES: [Case; 14] = [
    Case(
        r#"define i32 @main() {
  %1 = freeze i32 0
  ret i32 %1
}
define i32 @f() {
  %1 = freeze i32 0
  ret i32 %1
}
"#,
        Want::Valid,
    ),
    Case(
        r#"define i32 @main() {
  ret i32 0
}
define i32 @main() {
  ret i32 0
}
"#,
        Want::Duplicate("@main"),
    ),
    Case(
        r#"define i32 @main() {
  %a = freeze i32 1
  %a = freeze i32 2
  ret i32 %a
}
"#,
        Want::Duplicate("%a"),
    ),
    // A block and a result share their names.
    Case(
        r#"define i32 @main() {
  %a = add i32 1, 2
  br label %a
a:
  ret i32 0
}
"#,
        Want::Duplicate("%a"),
    ),
    Case(
        r#"define i32 @main() {
a:
  %a = freeze i32 1
  ret i32 0
}
"#,
        Want::Duplicate("%a"),
    ),
    Case(
        r#"define i32 @main() {
  br label %a
a:
  br label %a
a:
  ret i32 0
}
"#,
        Want::Duplicate("%a"),
    ),
    Case(
        r#"define i32 @main() {
  ret i32 0
}
define i32 @f(i32 %a, i32 %a) {
  ret i32 0
}
"#,
        Want::Duplicate("%a"),
    ),
    Case(
        r#"define i32 @main() {
  ret i32 0
}
define i32 @f(i32 %a) {
a:
  ret i32 0
}
"#,
        Want::Duplicate("%a"),
    ),
    // Functions have their own names, and types have theirs.
    Case(
        r#"%a = type { i8 }
@a = global i8 0
define i32 @main() {
  %a = freeze i32 1
  ret i32 %a
}
define i32 @f(i32 %a) {
  ret i32 %a
}
"#,
        Want::Valid,
    ),
    Case(
        r#"@word = global ptr zeroinitializer
define i32 @word() {
  ret i32 0
}
"#,
        Want::Duplicate("@word"),
    ),
    Case(
        r#"@g = global i8 0
declare void @g()
define i32 @main() {
  ret i32 0
}
"#,
        Want::Duplicate("@g"),
    ),
    // Types come before globals and functions.
    Case(
        r#"%word = type { i8 }
%word = type { i8 }
@word = global ptr zeroinitializer
define i32 @word() {
  ret i32 0
}
"#,
        Want::Duplicate("%word"),
    ),
    // The name of a function comes before what is in it, and this before the next function.
    Case(
        r#"define i32 @main() {
  ret i32 0
}
define i32 @main() {
  %a = freeze i32 1
  %a = freeze i32 2
  ret i32 %a
}
"#,
        Want::Duplicate("@main"),
    ),
    Case(
        r#"define i32 @main() {
  %a = freeze i32 1
  %a = freeze i32 2
  ret i32 %a
}
define i32 @main() {
  ret i32 0
}
"#,
        Want::Duplicate("%a"),
    ),
];

/// Names are known.
pub static UNKNOWNS: [Case; 11] = [
    // In each `getelementptr` within one another, the outermost first.
    Case(
        r#"@g = global ptr getelementptr (i8, ptr getelementptr (%t, ptr @h, i64 0), i64 0)
define i32 @main() {
  ret i32 0
}
"#,
        Want::Unknown(0, "%t"),
    ),
    Case(
        r#"define i32 @main() {
  %1 = load i8, ptr getelementptr (%s, ptr getelementptr (%t, ptr @h, i64 0), i64 0)
  ret i32 0
}
"#,
        Want::Unknown(1, "%s"),
    ),
    Case(
        r#"define i32 @main() {
  ret i32 %9
}
"#,
        Want::Unknown(1, "%9"),
    ),
    Case(
        r#"define i32 @main() {
  %1 = freeze i32 0
  ret i32 %1
}
define i32 @f() {
  %1 = freeze i32 0
  ret i32 %9
}
"#,
        Want::Unknown(4, "%9"),
    ),
    // A value of another function is unknown.
    Case(
        r#"define i32 @main() {
  %a = freeze i32 0
  ret i32 %a
}
define i32 @f() {
  ret i32 %a
}
"#,
        Want::Unknown(3, "%a"),
    ),
    Case(
        r#"define i32 @main() {
  %1 = add i32 1, 2
  br label %"a b"
}
"#,
        Want::Unknown(2, "%a b"),
    ),
    // The block that a phi names.
    Case(
        r#"define i32 @main() {
  br label %1
1:
  %2 = phi i8 [ 1, %9 ]
  ret i32 0
}
"#,
        Want::Unknown(2, "%9"),
    ),
    Case(
        r#"@g = global ptr @h
define i32 @main() {
  ret i32 0
}
"#,
        Want::Unknown(0, "@h"),
    ),
    Case(
        r#"%t = type { %u }
define i32 @main() {
  ret i32 0
}
"#,
        Want::Unknown(0, "%u"),
    ),
    Case(
        r#"define i32 @main() {
  %1 = call i32 @f()
  ret i32 %1
}
"#,
        Want::Unknown(1, "@f"),
    ),
    // What is outside of the functions comes first.
    Case(
        r#"@g = global %pair zeroinitializer
define i32 @main() {
  ret i32 %9
}
"#,
        Want::Unknown(0, "%pair"),
    ),
];
