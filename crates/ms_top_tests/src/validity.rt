//! Texts of modules that are read and aren't valid. Sites, operands and paths were counted by hand.

use ms_top_rows::calls::Case;
use ms_top_rows::told::all_told;
use std::test::Fail;

/// Names are defined once.
static DUPLICATES: &[u8] = br#"run f~
define i32 @main() {
  ret i32 0
}
define i32 @main() {
  ret i32 0
}
~
~
refused 9: duplicate @main
~
5
====
run f~
define i32 @main() {
  %a = add i32 1, 2
  %a = add i32 1, 2
  ret i32 0
}
~
~
refused 9: duplicate %a
~
5
====
# A block and a value share their names.
run f~
define i32 @main() {
  %a = add i32 1, 2
  br label %a
a:
  ret i32 0
}
~
~
refused 9: duplicate %a
~
5
====
# Types come before globals.
run f~
@g = global i8 0
@g = global i8 0
%t = type { i8 }
%t = type { i8 }
~
~
refused 9: duplicate %t
~
5
====
"#;

/// Names are known.
static UNKNOWNS: &[u8] = br#"run f~
define i32 @main() {
  ret i32 %9
}
~
~
refused 10: unknown %9 at site 1
~
5
====
run f~
define i32 @main() {
  %1 = add i32 1, 2
  br label %"a b"
}
~
~
refused 10: unknown %"a b" at site 2
~
5
====
run f~
@g = global ptr @h
define i32 @main() {
  ret i32 0
}
~
~
refused 10: unknown @h at site 0
~
5
====
run f~
define i32 @main() {
  %1 = call i32 @f()
  ret i32 %1
}
~
~
refused 10: unknown @f at site 1
~
5
====
# A name that stands twice comes first.
run f~
define i32 @main() {
  ret i32 %9
}
define i32 @main() {
  ret i32 0
}
~
~
refused 9: duplicate @main
~
5
====
"#;

/// Types agree.
static TYPES: &[u8] = br#"run f~
define i32 @main() {
  ret i64 0
}
~
~
refused 11: type at site 1, operand 0
~
5
====
run f~
define i32 @main() {
  %1 = zext i64 5 to i32
  ret i32 0
}
~
~
refused 11: type at site 1, operand 0
~
5
====
run f~
define i32 @main() {
  %1 = alloca i32
  %2 = add i64 1, %1
  ret i32 0
}
~
~
refused 11: type at site 2, operand 1
~
5
====
run f~
declare i32 @putchar(i32)
define i32 @main() {
  %1 = call i32 @putchar(i32 65, i32 66)
  ret i32 0
}
~
~
refused 11: type at site 1, operand 1
~
5
====
# An unknown name comes first, also after it.
run f~
define i32 @main() {
  %1 = zext i64 5 to i32
  ret i32 %9
}
~
~
refused 10: unknown %9 at site 2
~
5
====
"#;

/// Phis fit.
static PHIS: &[u8] = br#"run f~
define i32 @main() {
  br label %0
}
~
~
refused 12: phi at site 1
~
5
====
run f~
define i32 @main() {
  br i1 true, label %1, label %2
1:
  br label %2
2:
  %3 = phi i32 [ 1, %1 ]
  ret i32 %3
}
~
~
refused 12: phi at site 3
~
5
====
run f~
define i32 @main() {
  br i1 true, label %1, label %1
1:
  %2 = phi i32 [ 1, %0 ], [ 2, %0 ]
  ret i32 %2
}
~
~
refused 12: phi at site 2
~
5
====
# A type that doesn't agree comes first, also after it.
run f~
define i32 @main() {
  br label %0
1:
  ret i64 0
}
~
~
refused 11: type at site 2, operand 0
~
5
====
"#;

/// Main is there.
static MAINS: &[u8] = br#"run f~
~
~
refused 13: no main
~
5
====
run f~
define i32 @main(i32 %0) {
  ret i32 0
}
~
~
refused 13: no main
~
5
====
run f~
define i64 @main() {
  ret i64 0
}
~
~
refused 13: no main
~
5
====
# A branch to an entry block comes first.
run f~
define i64 @main() {
  br label %0
}
~
~
refused 12: phi at site 1
~
5
====
"#;

/// Externals are known.
static EXTERNALS: &[u8] = br#"run f~
declare i32 @putchar(i64)
define i32 @main() {
  %1 = call i32 @putchar(i64 65)
  ret i32 0
}
~
~
refused 14: external @putchar
~
5
====
run f~
declare void @f()
define i32 @main() {
  call void @f()
  ret i32 0
}
~
~
refused 14: external @f
~
5
====
run f~
@__msan_param_tls = global i8 0
define i32 @main() {
  ret i32 0
}
~
~
refused 14: external @__msan_param_tls
~
5
====
# That `main` is missing comes first.
run f~
declare void @f()
define void @g() {
  call void @f()
  ret void
}
~
~
refused 13: no main
~
5
====
"#;

/// Uses are defined.
static USES: &[u8] = br#"run f~
declare i32 @getchar()
define i32 @main() {
  %1 = call i32 @getchar()
  %2 = icmp eq i32 %1, 0
  br i1 %2, label %3, label %5
3:
  %4 = add i32 %1, 1
  br label %5
5:
  ret i32 %4
}
~
~
refused 15: undefined at site 6, path 0 2
~
5
====
run f~
define i32 @main() {
  %a = add i32 %b, 1
  %b = add i32 1, 2
  ret i32 %a
}
~
~
refused 15: undefined at site 1, path 0
~
5
====
run f~
define i32 @main() {
  br label %1
1:
  %2 = phi i32 [ %3, %0 ]
  %3 = add i32 %2, 1
  ret i32 %3
}
~
~
refused 15: undefined at site 2, path 0
~
5
====
# A callee that isn't known comes first.
run f~
declare void @f()
define i32 @main() {
  %a = add i32 %b, 1
  %b = add i32 1, 2
  call void @f()
  ret i32 %a
}
~
~
refused 14: external @f
~
5
====
"#;

/// Marks fit.
static MARKS: &[u8] = br#"run f~
define i32 @main() {
  %__msan.1 = alloca i32, !nosanitize !0
  ret i32 0
}
~
~
refused 16: mark at site 1
~
5
====
run f~
define i32 @main() {
  ret i32 0, !nosanitize !0
}
~
~
refused 16: mark at site 1
~
5
====
run f~
define i32 @main() {
  %1 = add i32 1, 2
  %__msan.1 = add i32 1, 2, !nosanitize !0
  ret i32 %__msan.1
}
~
~
refused 16: mark at site 2
~
5
====
# A use that isn't defined comes first, also after it.
run f~
define i32 @main() {
  %__msan.1 = alloca i32, !nosanitize !0
  %a = add i32 %b, 1
  %b = add i32 1, 2
  ret i32 0
}
~
~
refused 15: undefined at site 1, path 0
~
5
====
"#;

/// Sizes fit.
static SIZES: &[u8] = br#"run f~
@g = global [67108865 x i8] zeroinitializer
define i32 @main() {
  ret i32 0
}
~
~
refused 17: size of @g
~
5
====
run f~
%t = type { %t }
define i32 @main() {
  ret i32 0
}
~
~
refused 17: size of %t
~
5
====
# The globals have 16 MiB, and then one byte more.
run f~
@a = global [16777216 x i8] zeroinitializer
@b = global i8 0
define i32 @main() {
  ret i32 0
}
~
~
refused 17: size of @b
~
5
====
run f~
define i32 @main() {
  %1 = alloca [67108865 x i8]
  ret i32 0
}
~
~
refused 17: size of @main
~
5
====
# A mark comes first, also after it.
run f~
@g = global [67108865 x i8] zeroinitializer
define i32 @main() {
  ret i32 0, !nosanitize !0
}
~
~
refused 16: mark at site 1
~
5
====
"#;

#[test]
fn modules_are_refused(rt: HostRuntime) -> Result<(), Fail> {
    assert!(rt;
        all_told::<_, Case>(
            &rt,
            rt.alloc(),
            &[
                DUPLICATES, UNKNOWNS, TYPES, PHIS, MAINS, EXTERNALS, USES, MARKS, SIZES
            ]
        )
    );
    Ok(())
}
