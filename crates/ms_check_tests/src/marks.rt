//! Marks on inserted code, and on what isn't.

use crate::answers::{Case, Want};

/// Modules with marks that fit or don't.
pub static MARKS: [Case; 16] = [
    Case(
        r#"define i32 @main() {
  %x = freeze i32 0
  ret i32 %x
}
"#,
        Want::Valid,
    ),
    Case(
        r#"define i32 @main() {
  %__msan.1 = alloca i32, !nosanitize !0
  ret i32 0
}
!0 = !{}
"#,
        Want::BadMark(1),
    ),
    // A use of a marked result, which isn't marked, and one that is.
    Case(
        r#"define i32 @main() {
  %x = freeze i32 0
  %__msan.1 = freeze i32 %x, !nosanitize !0
  %z = freeze i32 %__msan.1
  ret i32 0
}
!0 = !{}
"#,
        Want::BadMark(2),
    ),
    Case(
        r#"define i32 @main() {
  %x = freeze i32 0
  %__msan.1 = freeze i32 %x, !nosanitize !0
  %__msan.2 = freeze i32 %__msan.1, !nosanitize !0
  ret i32 0
}
!0 = !{}
"#,
        Want::Valid,
    ),
    // A marked result with a name of its own, which is the first fault of two.
    Case(
        r#"define i32 @main() {
  %y = freeze i32 0
  %x = freeze i32 %y, !nosanitize !0
  %z = freeze i32 0
  %w = freeze i32 %x
  ret i32 0
}
!0 = !{}
"#,
        Want::BadMark(2),
    ),
    // A use before the marked result that it names, where nothing leads.
    Case(
        r#"define i32 @main() {
  ret i32 0
1:
  %w = freeze i32 %x
  %v = freeze i32 0
  %x = freeze i32 0, !nosanitize !0
  ret i32 0
}
!0 = !{}
"#,
        Want::BadMark(2),
    ),
    Case(
        r#"define i32 @main() {
  %x = freeze i32 0
  ret i32 0, !nosanitize !0
}
!0 = !{}
"#,
        Want::BadMark(2),
    ),
    // A marked call of a function of the module, and of one of the runtime, and such a call without a mark.
    Case(
        r#"define void @f() {
  ret void
}
define i32 @main() {
  call void @f(), !nosanitize !0
  ret i32 0
}
!0 = !{}
"#,
        Want::BadMark(2),
    ),
    Case(
        r#"declare void @__msan_unpoison(ptr, i64)
define i32 @main() {
  call void @__msan_unpoison(ptr null, i64 0), !nosanitize !0
  ret i32 0
}
!0 = !{}
"#,
        Want::Valid,
    ),
    Case(
        r#"declare void @__msan_unpoison(ptr, i64)
define void @f() {
  ret void
}
define i32 @main() {
  call void @f()
  call void @__msan_unpoison(ptr null, i64 0)
  ret i32 0
}
"#,
        Want::BadMark(3),
    ),
    // A result that is named as inserted, without a mark.
    Case(
        r#"define i32 @main() {
  %__msan.5 = freeze i32 0
  ret i32 0
}
"#,
        Want::BadMark(1),
    ),
    // A slot is used with a mark, and then without.
    Case(
        r#"@g = global i32 0
@__msan_param_tls = global [ 100 x i64 ] zeroinitializer
define i32 @main() {
  %__msan.1 = load i32, ptr @__msan_param_tls, !nosanitize !0
  %x = load i32, ptr @g
  %y = load i32, ptr @__msan_param_tls
  ret i32 0
}
!0 = !{}
"#,
        Want::BadMark(2),
    ),
    // A type that is named as inserted.
    Case(
        r#"%pair = type { i8 }
%__msan.1 = type { i8 }
define i32 @main() {
  %x = alloca %pair
  %y = alloca %__msan.1
  ret i32 0
}
"#,
        Want::BadMark(2),
    ),
    Case(
        r#"@__msan_retval_tls = global i64 0
define i32 @main() {
  %__msan.01 = load i32, ptr @__msan_retval_tls, !nosanitize !0
  ret i32 0
}
!0 = !{}
"#,
        Want::Valid,
    ),
    // Sites go on in the next function.
    Case(
        r#"define i32 @main() {
  %__msan.1 = freeze i32 0, !nosanitize !0
  %y = freeze i32 0
  ret i32 0
}
define i32 @f() {
  %__msan.1 = freeze i32 0
  ret i32 0
}
!0 = !{}
"#,
        Want::BadMark(3),
    ),
    // A result of the program is used by what is inserted.
    Case(
        r#"define i32 @main() {
  %1 = add i32 1, 2
  %__msan.1 = add i32 %1, 2, !nosanitize !0
  ret i32 %__msan.1
}
!0 = !{}
"#,
        Want::BadMark(2),
    ),
];
