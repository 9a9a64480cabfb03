//! Modules that break two clauses: the first clause is answered, wherever its fault stands.

use crate::answers::{Case, Want};

/// Modules with two faults, and the one that is answered.
pub static ORDERS: [Case; 9] = [
    Case(
        r#"define i32 @main() {
  ret i32 %9
}
define i32 @main() {
  ret i32 %9
}
"#,
        Want::Duplicate("@main"),
    ),
    Case(
        r#"define i32 @main() {
  %1 = zext i64 5 to i32
  ret i32 %9
}
"#,
        Want::Unknown(2, "%9"),
    ),
    Case(
        r#"define i32 @main() {
  br label %0
1:
  ret i64 0
}
"#,
        Want::TypeMismatch(2, 0),
    ),
    Case(
        r#"define i32 @f() {
  br label %0
}
"#,
        Want::BadPhi(1),
    ),
    Case(
        r#"declare void @f()
define void @g() {
  call void @f()
  ret void
}
"#,
        Want::NoMain,
    ),
    Case(
        r#"declare void @f()
define i32 @main() {
  %a = add i32 %b, 1
  %b = add i32 1, 2
  call void @f()
  ret i32 %a
}
"#,
        Want::BadExternal("@f"),
    ),
    Case(
        r#"define i32 @main() {
  %__msan.1 = alloca i32, !nosanitize !0
  %a = add i32 %b, 1
  %b = add i32 1, 2
  ret i32 0
}
!0 = !{}
"#,
        Want::Undefined(1, &[0]),
    ),
    Case(
        r#"define i32 @main() {
  %1 = freeze i32 %2
  %2 = freeze i32 0
  ret i32 0, !nosanitize !0
}
!0 = !{}
"#,
        Want::Undefined(1, &[0]),
    ),
    Case(
        r#"@g = global [ 67108865 x i8 ] zeroinitializer
define i32 @main() {
  ret i32 0, !nosanitize !0
}
!0 = !{}
"#,
        Want::BadMark(1),
    ),
];
