//! Uses of values that are or aren't defined on every path, with the one path that shows it.

use crate::answers::{Case, Want};

/// Modules whose uses are defined or aren't; the path of an answer is by the numbers of blocks.
pub static USES: [Case; 12] = [
    // One of two paths defines the value.
    Case(
        r#"define i32 @main() {
  %1 = icmp eq i32 1, 0
  br i1 %1, label %2, label %4
2:
  %3 = add i32 1, 2
  br label %4
4:
  ret i32 %3
}
"#,
        Want::Undefined(5, &[0, 2]),
    ),
    // It is carried round a loop.
    Case(
        r#"define i32 @main() {
  br label %1
1:
  %2 = phi i32 [ 0, %0 ], [ %3, %1 ]
  %3 = add i32 %2, 1
  %4 = icmp eq i32 %3, 0
  br i1 %4, label %5, label %1
5:
  ret i32 %3
}
"#,
        Want::Valid,
    ),
    // The loop comes round to a phi that takes it over the wrong edge.
    Case(
        r#"define i32 @main() {
  br label %1
1:
  %2 = phi i32 [ %3, %0 ], [ 0, %1 ]
  %3 = add i32 %2, 1
  %4 = icmp eq i32 %3, 0
  br i1 %4, label %5, label %1
5:
  ret i32 %3
}
"#,
        Want::Undefined(2, &[0]),
    ),
    // It is used where no path leads.
    Case(
        r#"define i32 @main() {
  ret i32 0
1:
  %2 = add i32 %4, 1
  br label %3
3:
  %4 = add i32 1, 2
  br label %1
}
"#,
        Want::Valid,
    ),
    // It is missing at the end of the block that a phi names.
    Case(
        r#"define i32 @main() {
  %1 = icmp eq i32 1, 0
  br i1 %1, label %2, label %4
2:
  %3 = add i32 1, 2
  br label %4
4:
  %5 = phi i32 [ %3, %2 ], [ %3, %0 ]
  ret i32 %5
}
"#,
        Want::Undefined(5, &[0]),
    ),
    // It is used before its definition, and in this.
    Case(
        r#"define i32 @main() {
  %1 = add i32 %2, 1
  %2 = add i32 1, 2
  ret i32 %1
}
"#,
        Want::Undefined(1, &[0]),
    ),
    Case(
        r#"define i32 @main() {
  br label %1
1:
  %2 = add i32 %2, 1
  %3 = icmp eq i32 %2, 0
  br i1 %3, label %4, label %1
4:
  ret i32 %2
}
"#,
        Want::Undefined(2, &[0, 1]),
    ),
    // A parameter is defined everywhere.
    Case(
        r#"define i32 @main() {
  ret i32 0
}
define i32 @f(i32 %0) {
  br label %2
2:
  ret i32 %0
}
"#,
        Want::Valid,
    ),
    // The fault is the second function's.
    Case(
        r#"define i32 @main() {
  br label %1
1:
  %2 = phi i32 [ 0, %0 ], [ %3, %1 ]
  %3 = add i32 %2, 1
  %4 = icmp eq i32 %3, 0
  br i1 %4, label %5, label %1
5:
  ret i32 %3
}
define i32 @g() {
  %1 = icmp eq i32 1, 0
  br i1 %1, label %2, label %4
2:
  %3 = add i32 1, 2
  br label %4
4:
  %5 = phi i32 [ %3, %2 ], [ %3, %0 ]
  ret i32 %5
}
"#,
        Want::Undefined(11, &[0]),
    ),
    // The first of two uses, on the path of the one case that leaves the definition out.
    Case(
        r#"define i32 @main() {
  switch i8 0, label %b [ i8 1, label %a i8 2, label %b ]
a:
  br label %d
b:
  %x = freeze i32 1
  br label %d
d:
  %s = add i32 1, %x
  %t = add i32 %x, 1
  ret i32 %t
}
"#,
        Want::Undefined(5, &[0, 1, 3]),
    ),
    // An instruction without a result stands between.
    Case(
        r#"define i32 @main() {
  ret i32 0
}
define i32 @f(i32 %0, ptr %1) {
  %3 = freeze i32 %0
  store i32 %3, ptr %1
  %4 = freeze i32 %3
  ret i32 %4
}
"#,
        Want::Valid,
    ),
    // Both ways lead to one block, in which the value of another stands.
    Case(
        r#"define i32 @main() {
  br i1 true, label %a, label %a
a:
  br i1 true, label %b, label %c
b:
  %x = freeze i32 1
  br label %c
c:
  ret i32 %x
}
"#,
        Want::Undefined(5, &[0, 1, 3]),
    ),
];
