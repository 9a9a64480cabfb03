//! Operands, calls, jumps and initialisers whose types agree or don't.

use crate::answers::{Case, Want, agrees, fails};
use std::alloc::Global;
use std::test::Fail;

/// What stands before the instruction of a line, which has site 3.
const HEAD: &str = r#"%pair = type { i32, i8 }
@g = global i32 0
declare i32 @printf(ptr, ...)
declare void @free(ptr)
define i32 @main() {
  ret i32 0
}
define void @quiet() {
  ret void
}
define i32 @f(i32 %0, i64 %1, ptr %2) {
"#;

const TAIL: &str = "  ret i32 0\n}\n";

/// A line of `@f`, and the answer.
struct Line(&'static str, Want);

/// Values and globals.
static VALUES: [Line; 7] = [
    Line("  %4 = add i32 %0, %1\n", Want::TypeMismatch(3, 1)),
    Line("  %4 = add i32 %0, 7\n", Want::Valid),
    // A block, and then a function, is no value.
    Line("  %4 = add i32 %3, %0\n", Want::TypeMismatch(3, 0)),
    Line("  %4 = load i32, ptr @main\n", Want::TypeMismatch(3, 0)),
    Line("  %4 = load i32, ptr @g\n", Want::Valid),
    Line("  store i32 %0, ptr %1\n", Want::TypeMismatch(3, 1)),
    Line("  store i32 %0, ptr %2\n", Want::Valid),
];

/// Casts.
static CASTS: [Line; 7] = [
    Line("  %4 = trunc i64 %1 to i64\n", Want::TypeMismatch(3, 0)),
    Line("  %4 = trunc i64 %1 to i32\n", Want::Valid),
    Line("  %4 = sext i32 %0 to i31\n", Want::TypeMismatch(3, 0)),
    Line("  %4 = zext i64 5 to i32\n", Want::TypeMismatch(3, 0)),
    Line("  %4 = sext i32 %0 to i33\n", Want::Valid),
    Line("  %4 = inttoptr i64 %1 to ptr\n", Want::Valid),
    Line("  %4 = bitcast ptr %2 to i64\n", Want::TypeMismatch(3, 0)),
];

/// Indices of `getelementptr`.
static INDICES: [Line; 9] = [
    Line(
        "  %4 = getelementptr %pair, ptr %2, i64 0, i32 1\n",
        Want::Valid,
    ),
    Line(
        "  %4 = getelementptr %pair, ptr %2, i64 0, i32 2\n",
        Want::TypeMismatch(3, 2),
    ),
    Line(
        "  %4 = getelementptr %pair, ptr %2, i64 0, i32 %0\n",
        Want::TypeMismatch(3, 2),
    ),
    Line(
        "  %4 = getelementptr %pair, ptr %2, i64 0, i64 1\n",
        Want::TypeMismatch(3, 2),
    ),
    Line(
        "  %4 = getelementptr i32, ptr %2, i64 0, i32 0\n",
        Want::TypeMismatch(3, 2),
    ),
    Line(
        "  %4 = getelementptr %pair, ptr %0, i64 0\n",
        Want::TypeMismatch(3, 0),
    ),
    // Each of those within one another by itself.
    Line(
        "  %4 = load i8, ptr getelementptr (i8, ptr getelementptr (%pair, ptr @g, i64 0, i32 1), i64 -4)\n",
        Want::Valid,
    ),
    Line(
        "  %4 = load i8, ptr getelementptr (i8, ptr getelementptr (%pair, ptr @g, i64 0, i32 2), i64 0)\n",
        Want::TypeMismatch(3, 0),
    ),
    Line(
        "  %4 = load i8, ptr getelementptr (%pair, ptr getelementptr (i8, ptr @g, i64 0), i64 0, i32 2)\n",
        Want::TypeMismatch(3, 0),
    ),
];

/// Arguments and results of calls.
static ARGUMENTS: [Line; 5] = [
    Line("  call void @free()\n", Want::TypeMismatch(3, 0)),
    Line("  call void @free(ptr @g)\n", Want::Valid),
    Line(
        "  call void @free(ptr @g, ptr @g)\n",
        Want::TypeMismatch(3, 1),
    ),
    // A result that the function hasn't, and a variable that is called.
    Line("  %4 = call i32 @free(ptr @g)\n", Want::TypeMismatch(3, 0)),
    Line("  call void @g()\n", Want::TypeMismatch(3, 0)),
];

/// Types come before externals, so the last answer here says that the types agree.
static PRINTED: [Line; 4] = [
    Line(
        "  %4 = call i32 (ptr, ...) @printf()\n",
        Want::TypeMismatch(3, 0),
    ),
    Line(
        "  %4 = call i32 (ptr, ...) @printf(ptr @g, i8 1)\n",
        Want::TypeMismatch(3, 1),
    ),
    Line("  %4 = call i32 (ptr, ...) @printf(ptr @g)\n", Want::Valid),
    Line(
        "  %4 = call i32 (ptr, ...) @printf(ptr @g, i32 %0, i64 %1, ptr %2)\n",
        Want::Valid,
    ),
];

/// Branches, switches and returns.
pub static TERMINATORS: [Case; 11] = [
    Case(
        r#"define i32 @main() {
  ret i32 0
}
define i32 @f(i32 %0) {
  br label %2
2:
  switch i32 %0, label %2 [ i32 4, label %2 i32 4, label %2 ]
}
"#,
        Want::TypeMismatch(3, 0),
    ),
    Case(
        r#"define i32 @main() {
  ret i32 0
}
define i32 @f(i32 %0) {
  br label %2
2:
  switch i32 %0, label %2 [ i32 4, label %2 i32 5, label %2 ]
}
"#,
        Want::Valid,
    ),
    // A value is no block.
    Case(
        r#"define i32 @main() {
  ret i32 0
}
define i32 @f(i32 %0) {
  br label %0
}
"#,
        Want::TypeMismatch(2, 0),
    ),
    Case(
        r#"define i32 @main() {
  ret i32 0
}
define i32 @f(i8 %0) {
  %2 = freeze i8 0
  br i1 true, label %2, label %0
}
"#,
        Want::TypeMismatch(3, 0),
    ),
    Case(
        r#"define i32 @main() {
  ret i32 0
}
define i32 @f(i8 %0) {
  br i1 %0, label %2, label %2
2:
  ret i32 0
}
"#,
        Want::TypeMismatch(2, 0),
    ),
    Case(
        r#"define i32 @main() {
  br label %1
1:
  ret i32 0
}
"#,
        Want::Valid,
    ),
    Case(
        r#"define i32 @main() {
  ret void
}
"#,
        Want::TypeMismatch(1, 0),
    ),
    Case(
        r#"define i32 @main() {
  ret i64 0
}
"#,
        Want::TypeMismatch(1, 0),
    ),
    Case(
        r#"define i32 @main() {
  ret i32 0
}
define void @f() {
  ret i32 0
}
"#,
        Want::TypeMismatch(2, 0),
    ),
    Case(
        r#"define i32 @main() {
  %1 = alloca i32
  %2 = add i64 1, %1
  ret i32 0
}
"#,
        Want::TypeMismatch(2, 1),
    ),
    Case(
        r#"declare i32 @putchar(i32)
define i32 @main() {
  %1 = call i32 @putchar(i32 65, i32 66)
  ret i32 0
}
"#,
        Want::TypeMismatch(1, 1),
    ),
];

/// What stands before a global, which is the second, and after it.
const TYPES: &str = r#"%pair = type { i32, i8 }
@first = global i8 0
"#;

const MAIN: &str = r#"define i32 @main() {
  ret i32 0
}
"#;

/// Initialisers of the second global.
static INITIALISERS: [Line; 9] = [
    Line(
        r#"@g = global [ 2 x i8 ] c"ab"
"#,
        Want::Valid,
    ),
    Line(
        r#"@g = global [ 2 x i8 ] c"abc"
"#,
        Want::TypeMismatch(0, 1),
    ),
    Line(
        r#"@g = global [ 2 x i8 ] { i32 1, i8 zeroinitializer }
"#,
        Want::TypeMismatch(0, 1),
    ),
    Line(
        r#"@g = global %pair { i32 1, i8 zeroinitializer }
"#,
        Want::Valid,
    ),
    Line(
        r#"@g = global %pair < { i32 1, i8 zeroinitializer } >
"#,
        Want::TypeMismatch(0, 1),
    ),
    Line(
        r#"@g = global i8 { i32 1, i8 zeroinitializer }
"#,
        Want::TypeMismatch(0, 1),
    ),
    Line(
        r#"@g = global [ 2 x i8 ] [ i8 1, i8 2 ]
"#,
        Want::Valid,
    ),
    Line(
        r#"@g = global [ 2 x i8 ] [ i8 1 ]
"#,
        Want::TypeMismatch(0, 1),
    ),
    Line(
        r#"@g = global ptr @main
"#,
        Want::TypeMismatch(0, 1),
    ),
];

/// Whether the text of a line between these two is answered as the line says.
fn agrees_within<R: Eprint>(rt: &R, alloc: Global, head: &str, line: &Line, tail: &str) -> bool {
    let mut text = Vec::new(alloc);
    text.extend_from_slice(head.as_bytes()).is_ok()
        && text.extend_from_slice(line.0.as_bytes()).is_ok()
        && text.extend_from_slice(tail.as_bytes()).is_ok()
        && agrees(rt, alloc, &text, &line.1)
}

fn lines_agree_within<R: Eprint>(
    rt: &R,
    alloc: Global,
    head: &str,
    tail: &str,
    lines: &[Line],
) -> bool {
    for (number, line) in lines.iter().enumerate() {
        if !agrees_within(rt, alloc, head, line, tail) {
            return fails(rt, "row", number);
        }
    }
    true
}

fn all_agree_within<R: Eprint>(
    rt: &R,
    alloc: Global,
    head: &str,
    tail: &str,
    tables: &[&[Line]],
) -> bool {
    for (number, lines) in tables.iter().enumerate() {
        if !lines_agree_within(rt, alloc, head, tail, lines) {
            return fails(rt, "table", number);
        }
    }
    true
}

#[test]
fn types_of_lines_agree(rt: HostRuntime) -> Result<(), Fail> {
    assert!(rt;
        all_agree_within(
            &rt,
            rt.alloc(),
            HEAD,
            TAIL,
            &[&VALUES, &CASTS, &INDICES, &ARGUMENTS, &PRINTED]
        ) && all_agree_within(&rt, rt.alloc(), TYPES, MAIN, &[&INITIALISERS])
    );
    Ok(())
}
