//! Phis and branches, and functions that are or aren't `main`.

use crate::answers::{Case, Want};

/// Phis and branches.
pub static EDGES: [Case; 17] = [
    // A branch to the entry block.
    Case(
        r#"define i32 @main() {
  br label %0
}
"#,
        Want::BadPhi(1),
    ),
    // A phi with both edges.
    Case(
        r#"define i32 @main() {
  br i1 true, label %a, label %b
a:
  br label %c
b:
  br label %c
c:
  %p = phi i8 [ 1, %a ], [ 2, %b ]
  ret i32 0
}
"#,
        Want::Valid,
    ),
    // A phi that misses an edge.
    Case(
        r#"define i32 @main() {
  br i1 true, label %a, label %b
a:
  br label %c
b:
  br label %c
c:
  %p = phi i8 [ 1, %a ]
  ret i32 0
}
"#,
        Want::BadPhi(4),
    ),
    Case(
        r#"define i32 @main() {
  br i1 true, label %1, label %2
1:
  br label %2
2:
  %3 = phi i32 [ 1, %1 ]
  ret i32 %3
}
"#,
        Want::BadPhi(3),
    ),
    // A label that is no predecessor.
    Case(
        r#"define i32 @main() {
  br i1 true, label %a, label %b
a:
  br label %c
b:
  br label %c
c:
  %p = phi i8 [ 1, %a ], [ 2, %0 ]
  ret i32 0
}
"#,
        Want::BadPhi(4),
    ),
    // Two edges from one block, with equal operands, with unequal ones, and with `undef` and `poison`, which are one.
    Case(
        r#"define i32 @main() {
  br i1 true, label %a, label %a
a:
  %p = phi i8 [ 5, %0 ], [ 5, %0 ]
  ret i32 0
}
"#,
        Want::Valid,
    ),
    Case(
        r#"define i32 @main() {
  br i1 true, label %a, label %a
a:
  %p = phi i8 [ 5, %0 ], [ 6, %0 ]
  ret i32 0
}
"#,
        Want::BadPhi(2),
    ),
    Case(
        r#"define i32 @main() {
  br i1 true, label %a, label %a
a:
  %p = phi i8 [ undef, %0 ], [ poison, %0 ]
  ret i32 0
}
"#,
        Want::Valid,
    ),
    // One edge is named of two, and then two of one.
    Case(
        r#"define i32 @main() {
  br i1 true, label %a, label %a
a:
  %p = phi i8 [ 5, %0 ]
  ret i32 0
}
"#,
        Want::BadPhi(2),
    ),
    Case(
        r#"define i32 @main() {
  br label %a
a:
  %p = phi i8 [ 5, %0 ], [ 5, %0 ]
  ret i32 0
}
"#,
        Want::BadPhi(2),
    ),
    // An edge for each case, and for the default.
    Case(
        r#"define i32 @main() {
  switch i8 0, label %a [ i8 1, label %a i8 2, label %b ]
a:
  %p = phi i8 [ 7, %0 ], [ 7, %0 ]
  ret i32 0
b:
  ret i32 0
}
"#,
        Want::Valid,
    ),
    Case(
        r#"define i32 @main() {
  switch i8 0, label %a [ i8 1, label %a i8 2, label %b i8 3, label %a ]
a:
  %p = phi i8 [ 7, %0 ], [ 7, %0 ]
  ret i32 0
b:
  ret i32 0
}
"#,
        Want::BadPhi(2),
    ),
    // A case that goes to the entry block.
    Case(
        r#"define i32 @main() {
  br label %a
a:
  switch i8 0, label %b [ i8 2, label %b i8 0, label %0 ]
b:
  ret i32 0
}
"#,
        Want::BadPhi(2),
    ),
    // An edge from a block that nothing leads to.
    Case(
        r#"define i32 @main() {
  br label %a
a:
  %p = phi i8 [ 1, %0 ]
  ret i32 0
b:
  br label %a
}
"#,
        Want::BadPhi(2),
    ),
    // The second of two phis, and the first of two faults.
    Case(
        r#"define i32 @main() {
  br label %a
a:
  %p = phi i8 [ 1, %0 ]
  %q = phi i8 [ 1, %a ]
  ret i32 0
}
"#,
        Want::BadPhi(3),
    ),
    Case(
        r#"define i32 @main() {
  br label %a
a:
  %p = phi i8 [ 1, %a ]
  br label %0
}
"#,
        Want::BadPhi(2),
    ),
    // A phi and a parameter in a diamond.
    Case(
        r#"define i32 @main() {
  ret i32 0
}
define i8 @f(i1 %0) {
  %2 = freeze i8 0
  br i1 %0, label %3, label %5
3:
  %4 = freeze i8 %2
  br label %7
5:
  %6 = freeze i8 %2
  br label %7
7:
  %8 = phi i8 [ %4, %3 ], [ %6, %5 ]
  ret i8 %8
}
"#,
        Want::Valid,
    ),
];

/// Modules with and without `i32 @main()`.
pub static MAINS: [Case; 6] = [
    Case("", Want::NoMain),
    Case(
        r#"define i32 @main() {
  ret i32 0
}
"#,
        Want::Valid,
    ),
    Case(
        r#"define i64 @main() {
  ret i64 0
}
"#,
        Want::NoMain,
    ),
    Case(
        r#"define i32 @main(i8 %0) {
  ret i32 0
}
"#,
        Want::NoMain,
    ),
    Case(
        r#"define i32 @man() {
  ret i32 0
}
"#,
        Want::NoMain,
    ),
    Case(
        r#"declare i32 @main()
define i32 @f() {
  ret i32 0
}
"#,
        Want::NoMain,
    ),
];
