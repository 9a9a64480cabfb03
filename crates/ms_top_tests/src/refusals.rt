//! Texts that are no module: the line names the cause and the place. Tokens and bytes were counted by hand.

use ms_top_rows::calls::Case;
use ms_top_rows::told::all_told;
use std::test::Fail;

/// Says why a text is refused.
static TEXTS: &[u8] = br#"check f~
?~
~
refused 1: bad byte at 0
~
5
====
check f~
"abc~
~
refused 2: open string at 0
~
5
====
check f~
define i32 @main() {~
~
refused 4: syntax at token 6, byte 20
~
5
====
check f~
define i32 @main() {
  %1 = fadd i32 1, 2
  ret i32 0
}
~
~
refused 5: outside floating point at token 8, byte 28
~
5
====
check f~
define i32 @main() {
  %2 = alloca i32
  ret i32 0
}
~
~
refused 7: numbering at token 6, byte 23
~
5
====
check f~
define i32 @main() {
  %__msan.x = add i32 1, 2
  ret i32 0
}
~
~
refused 8: reserved at token 6, byte 23
~
5
====
check f~
define i32 @main() {
  %1 = alloca i32, !nosanitize !0
  ret i32 0
}
~
~
refused 8: reserved at token 11, byte 40
~
5
====
check f~
@__msan_param_tls = global i8 0
~
~
refused 8: reserved at token 0, byte 0
~
5
====
# The lexer comes first.
check f~
define i32 @main() {
  %2 = alloca i32 ?
~
~
refused 1: bad byte at 39
~
5
====
"#;

/// Run reads inserted code.
static INSERTED: &[u8] = br#"run f~
define i32 @main() {
  %1 = alloca i32, !nosanitize !0
  ret i32 0
}
~
~
refused 16: mark at site 1
~
5
====
run f~
@__msan_param_tls = global i8 0
~
~
refused 13: no main
~
5
====
run f~
define i32 @main() {
  %__msan.x = add i32 1, 2
  ret i32 0
}
~
~
refused 8: reserved at token 6, byte 23
~
5
====
run f~
define i32 @main() {
  %2 = alloca i32
  ret i32 0
}
~
~
refused 7: numbering at token 6, byte 23
~
5
====
# Names that are kept, and that are no function's of the runtime and no inserted result's.
run f~
declare i64 @__msan_sizes(ptr)
~
~
refused 8: reserved at token 2, byte 12
~
5
====
run f~
define i32 @main() {
  call void @__msan_unpoisons()
  ret i32 0
}
~
~
refused 8: reserved at token 8, byte 33
~
5
====
run f~
define i32 @main() {
  %__msan. = freeze i32 0
  ret i32 0
}
~
~
refused 8: reserved at token 6, byte 23
~
5
====
"#;

/// Names each construct of entities.
static ENTITIES: &[u8] = br#"check f~
@g = global i65 0~
~
refused 5: outside wide integer at token 3, byte 12
~
5
====
check f~
@g = addrspace(1) global i8 0~
~
refused 5: outside address space at token 2, byte 5
~
5
====
check f~
@g = thread_local global i8 0~
~
refused 5: outside thread local at token 2, byte 5
~
5
====
check f~
declare void @f(ptr byval(i32))~
~
refused 5: outside by value at token 5, byte 20
~
5
====
check f~
declare i32 @f(ptr, ...)~
~
refused 5: outside variadic at token 6, byte 20
~
5
====
check f~
module asm "x"~
~
refused 5: outside assembly at token 0, byte 0
~
5
====
check f~
@g = alias i8, ptr @h~
~
refused 5: outside alias at token 2, byte 5
~
5
====
check f~
$c = comdat any~
~
refused 5: outside comdat at token 0, byte 0
~
5
====
check f~
@g = external global i8~
~
refused 5: outside external global at token 2, byte 5
~
5
====
check f~
%t = type opaque~
~
refused 5: outside opaque type at token 3, byte 10
~
5
====
check f~
@g = global i8* null~
~
refused 5: outside typed pointer at token 4, byte 14
~
5
====
check f~
@g = global <4 x i32> zeroinitializer~
~
refused 5: outside vector at token 4, byte 13
~
5
====
"#;

/// Names each construct of instructions.
static INSTRUCTIONS: &[u8] = br#"check f~
define i32 @main() {
  %1 = alloca <4 x i32>
~
~
refused 5: outside vector at token 10, byte 36
~
5
====
check f~
define i32 @main() {
  %1 = load [2 x i8], ptr null
~
~
refused 5: outside aggregate value at token 9, byte 33
~
5
====
check f~
define i32 @main() {
  %1 = call i32 %f(i32 0)
~
~
refused 5: outside indirect call at token 10, byte 37
~
5
====
check f~
define i32 @main() {
  %1 = call i8 (i8) @f(i8 0)
~
~
refused 5: outside function type at token 10, byte 36
~
5
====
check f~
define i32 @main() {
  invoke void @f() to label %1 unwind label %2
~
~
refused 5: outside exceptions at token 6, byte 23
~
5
====
check f~
define i32 @main() {
  indirectbr ptr null, []
~
~
refused 5: outside indirect branch at token 6, byte 23
~
5
====
check f~
define i32 @main() {
  fence seq_cst
~
~
refused 5: outside atomics at token 6, byte 23
~
5
====
check f~
define i32 @main() {
  store volatile i32 0, ptr null
~
~
refused 5: outside volatile at token 7, byte 29
~
5
====
check f~
define i32 @main() {
  %1 = va_arg ptr null, i32
~
~
refused 5: outside variable arguments at token 8, byte 28
~
5
====
check f~
define i32 @main() {
  call void @f(metadata i32 0)
~
~
refused 5: outside metadata operand at token 10, byte 36
~
5
====
check f~
define i32 @main() {
  call void @f() [ "x"() ]
~
~
refused 5: outside operand bundle at token 11, byte 38
~
5
====
check f~
define i32 @main() {
  ret i32 add (i32 1, i32 2)
~
~
refused 5: outside constant expression at token 8, byte 31
~
5
====
check f~
define i32 @main() {
  %1 = call i32 @main()
~
~
refused 5: outside call of main at token 10, byte 37
~
5
====
check f~
define i32 @main() {
  %1 = fcmp oeq double 0.0, 1.0
~
~
refused 5: outside floating point at token 8, byte 28
~
5
====
"#;

#[test]
fn texts_are_refused(rt: HostRuntime) -> Result<(), Fail> {
    assert!(rt; all_told::<_, Case>(&rt, rt.alloc(), &[TEXTS, INSERTED, ENTITIES, INSTRUCTIONS]));
    Ok(())
}
