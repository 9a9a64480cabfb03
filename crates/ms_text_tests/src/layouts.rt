//! Texts in the writer's layout, worked out by hand.

/// Names that need quotes, and bytes of a string that are written by their digits.
pub const ODD_NAMES: &str = r#"%"a b" = type { i8 }
@.str = constant [ 7 x i8 ] c"a\22\5C\0A\00~\FF"
@"1st" = global i8 0
@"" = global ptr @.str
@"\C8~\7F" = global %"a b" zeroinitializer
@-5 = global i8 -128
define void @"two words"(ptr %"p\22q", i32 %x_1$) {
"en try":
  %"5" = add i32 %x_1$, 5
  store i32 %"5", ptr %"p\22q"
  br label %c
c:
  ret void
}
"#;

/// Structs and arrays with their values, a call of `printf`, switches and phis.
pub const MANY_PARTS: &str = r#"%pair = type { i32, [ 2 x i8 ] }
%0 = type < { i8, ptr } >
%none = type { }
@g = global %pair { i32 -1, [ 2 x i8 ] [ i8 1, i8 undef ] }
@h = constant < { i8 } > < { i8 2 } >
@no_items = global [ 0 x i8 ] [ ]
@no_fields = global { } { }
@bit = global i1 true
@step = global ptr getelementptr (%pair, ptr @g, i64 -1, i32 1, i1 -1)
@within = global ptr getelementptr ([ 2 x i8 ], ptr getelementptr (%pair, ptr @g, i32 0, i32 1), i64 0, i64 1)
declare i32 @printf(ptr, ...)
declare void @free(ptr)
declare ptr @malloc(i64)
define i32 @main() {
  switch i8 undef, label %1 [ i8 -1, label %2 i8 2, label %x ]
1:
  switch i1 true, label %2 [ i1 -1, label %x i1 0, label %2 ]
2:
  %3 = phi i32 [ 0, %0 ], [ -2, %1 ]
  %4 = phi ptr [ @g, %0 ], [ null, %1 ]
  %5 = call i32 (ptr, ...) @printf(ptr @g, i32 %3)
  call void @free(ptr %4)
  switch i64 0, label %x [ ]
x:
  ret i32 0
}
"#;

/// Instructions of every other kind, of which some are marked.
pub const MARKED_PARTS: &str = r#"@__msan_retval_tls = global i64 0
declare i32 @putchar(i32)
declare void @__msan_check(i64, i32, i32, i32, i32, i32)
declare i32 @__msan_load_origin(ptr, i64)
define i32 @main() {
  %1 = alloca i32
  %2 = alloca [ 8 x i8 ], i64 1
  %__msan.0 = ptrtoint ptr %1 to i64, !nosanitize !0
  %__msan.1 = xor i64 %__msan.0, 87960930222080, !nosanitize !0
  %__msan.2 = call i32 @__msan_load_origin(ptr %1, i64 %__msan.0), !nosanitize !0
  call void @__msan_check(i64 %__msan.0, i32 32, i32 1, i32 3, i32 0, i32 3), !nosanitize !0
  %3 = load i32, ptr %1
  store i64 0, ptr @__msan_retval_tls, !nosanitize !0
  %4 = add nuw nsw i32 %3, 1
  %5 = ashr exact i32 %4, 1
  %6 = or disjoint i32 %5, poison
  %7 = trunc nsw i32 %6 to i16
  %8 = zext nneg i16 %7 to i64
  %9 = icmp samesign ule i64 %8, -9223372036854775808
  %10 = select i1 false, i1 %9, i1 true
  %11 = freeze ptr %2
  %12 = getelementptr [ 8 x i8 ], ptr %11, i64 0, i1 true, i64 %8
  store i8 127, ptr %12
  br i1 %10, label %13, label %14
13:
  unreachable
14:
  %15 = call i32 @putchar(i32 65)
  ret i32 %15
}
!0 = !{}
"#;

/// `main` returns 0.
pub const RETURNS_ZERO: &str = r#"define i32 @main() {
  ret i32 0
}
"#;

/// An unset word is compared with 0 and branched on.
pub const BRANCH_ON_UNSET: &str = r#"define i32 @main() {
  %1 = alloca i32
  %2 = load i32, ptr %1
  %3 = icmp eq i32 %2, 0
  br i1 %3, label %4, label %5
4:
  ret i32 0
5:
  ret i32 1
}
"#;

/// An unset word is and-ed with 0 and then branched on.
pub const MASKED_TO_ZERO: &str = r#"define i32 @main() {
  %1 = alloca i32
  %2 = load i32, ptr %1
  %3 = and i32 %2, 0
  %4 = icmp eq i32 %3, 0
  br i1 %4, label %5, label %6
5:
  ret i32 0
6:
  ret i32 1
}
"#;

/// A word of which four bits are undefined is compared with 16.
pub const ORDERED_COMPARE: &str = r#"define i32 @main() {
  %1 = and i8 undef, 15
  %2 = or i8 %1, 32
  %3 = icmp ult i8 %2, 16
  br i1 %3, label %4, label %5
4:
  ret i32 0
5:
  ret i32 1
}
"#;

/// An undefined condition selects one of two words.
pub const SELECT_UNDEF: &str = r#"define i32 @main() {
  %1 = select i1 undef, i32 6, i32 4
  ret i32 %1
}
"#;

/// A function calls itself, 1022 times deep.
pub const RECURSION: &str = r#"define i32 @f(i32 %0) {
  %2 = icmp eq i32 %0, 1
  br i1 %2, label %3, label %4
3:
  ret i32 7
4:
  %5 = sub i32 %0, 1
  %6 = call i32 @f(i32 %5)
  ret i32 %6
}
define i32 @main() {
  %1 = call i32 @f(i32 1023)
  ret i32 %1
}
"#;

/// A function gives its last argument back.
pub const NESTED_CALL: &str = r#"define i32 @g(i32 %0, i32 %1, i32 %2) {
  ret i32 %2
}
define i32 @main() {
  %1 = call i32 @g(i32 1, i32 2, i32 undef)
  %2 = call i32 @g(i32 3, i32 4, i32 5)
  ret i32 %1
}
"#;

/// A store to an address that the shadow would have.
pub const STORE_TO_SHADOW: &str = r#"define i32 @main() {
  %1 = alloca i32
  %2 = ptrtoint ptr %1 to i64
  %3 = xor i64 %2, 87960930222080
  %4 = inttoptr i64 %3 to ptr
  store i32 1, ptr %4
  ret i32 0
}
"#;
