//! Functions and what is read over in them, worked out by hand.

use crate::cases::Case;
use crate::cases::Want::{LeftOut, Numbering, Reserved, Syntax, Written};
use ms_ir::Form::{Instrumented, Plain};
use ms_text_grammar::Outside;

/// Functions with their parameters, blocks and numbers.
pub static FUNCTIONS: [Case; 40] = [
    Case(
        Plain,
        r#"define i32 @main() {
  ret i32 0
}
"#,
        Written(
            r#"define i32 @main() {
  ret i32 0
}
"#,
        ),
    ),
    Case(
        Plain,
        "define dso_local void @f() #0 !dbg !1 !prof !2 { ret void }",
        Written(
            r#"define void @f() {
  ret void
}
"#,
        ),
    ),
    Case(
        Plain,
        "define void @f() adds ad Add i0 i8x i { ret void }",
        Written(
            r#"define void @f() {
  ret void
}
"#,
        ),
    ),
    Case(
        Plain,
        "define external extern_weak void @f() { ret void }",
        Written(
            r#"define void @f() {
  ret void
}
"#,
        ),
    ),
    Case(Plain, "define void @f() !dbg {", Syntax(6, 22)),
    Case(
        Plain,
        "define void @f() !dbg !1 !nosanitize !2 {",
        Reserved(7, 25),
    ),
    Case(
        Instrumented,
        "define void @f() !dbg !1 !nosanitize !2 { ret void }",
        Written(
            r#"define void @f() {
  ret void
}
"#,
        ),
    ),
    Case(
        Plain,
        "define void @f(i8 %a, i8 %0, i8 noundef %\"b c\", i8) { ret void }",
        Written(
            r#"define void @f(i8 %a, i8 %0, i8 %"b c", i8 %1) {
  ret void
}
"#,
        ),
    ),
    Case(Plain, "define void @f(i8 %a %b)", Syntax(6, 21)),
    Case(Plain, "define void @f(i8 %a,)", Syntax(7, 21)),
    Case(Plain, "define void @f(i8 %a", Syntax(6, 20)),
    Case(
        Plain,
        "define void @f(i8 %a, i8 %__msan.0)",
        Reserved(8, 25),
    ),
    Case(Plain, "define void @f(i8 %1)", Numbering(5, 18)),
    Case(Plain, "define void @f(i8 %4294967296)", Numbering(5, 18)),
    Case(
        Plain,
        "define void @f(i8 %a, 1.5)",
        LeftOut(Outside::FloatingPoint, 7, 22),
    ),
    Case(
        Plain,
        "define void @f(i8 %a, -1e4)",
        LeftOut(Outside::FloatingPoint, 7, 22),
    ),
    Case(
        Plain,
        "define void @f(i8 %a, 18446744073709551616)",
        LeftOut(Outside::WideInteger, 7, 22),
    ),
    Case(
        Plain,
        "define void @f(i8 %a, -9223372036854775808)",
        Syntax(7, 22),
    ),
    Case(
        Plain,
        "define void @f(i8 %a, ...)",
        LeftOut(Outside::Variadic, 7, 22),
    ),
    Case(Plain, "define i32 @main() {", Syntax(6, 20)),
    Case(
        Plain,
        r#"define i32 @main() {
}
"#,
        Syntax(6, 21),
    ),
    Case(
        Plain,
        r#"define i32 @main() {
  %2 = add i32 1, 2
"#,
        Numbering(6, 23),
    ),
    Case(
        Plain,
        r#"define i32 @main() {
  %__msan.x = add i32 1, 2
"#,
        Reserved(6, 23),
    ),
    // Inserted code has names of this form.
    Case(
        Plain,
        r#"define i32 @main() {
  %__msan.1 = add i32 1, 2
"#,
        Reserved(6, 23),
    ),
    Case(
        Instrumented,
        r#"define i32 @main() {
  %__msan.x = add i32 1, 2
"#,
        Reserved(6, 23),
    ),
    Case(
        Plain,
        r#"define i32 @main() {
  1:
"#,
        Numbering(6, 23),
    ),
    Case(
        Plain,
        r#"define i32 @main() {
  %1 = fadd i32 1, 2
"#,
        LeftOut(Outside::FloatingPoint, 8, 28),
    ),
    Case(
        Plain,
        r#"define void @f(i1 %0, i32) {
  br i1 %0, label %3, label %x
4:
"#,
        Numbering(19, 60),
    ),
    Case(
        Plain,
        r#"define void @f(i1 %0, i32) {
  br i1 %0, label %3, label %x
3:
  ret void
x:
  ret void
}
"#,
        Written(
            r#"define void @f(i1 %0, i32 %1) {
  br i1 %0, label %3, label %x
3:
  ret void
x:
  ret void
}
"#,
        ),
    ),
    Case(
        Plain,
        "define void @f() { 0: br label %1 ret void }",
        Written(
            r#"define void @f() {
  br label %1
1:
  ret void
}
"#,
        ),
    ),
    Case(
        Plain,
        "define void @f() { \"0\": ret void }",
        Written(
            r#"define void @f() {
"0":
  ret void
}
"#,
        ),
    ),
    Case(
        Plain,
        "define void @f() { -5: ret void }",
        Written(
            r#"define void @f() {
-5:
  ret void
}
"#,
        ),
    ),
    Case(
        Plain,
        "define void @f() { \"a b\": ret void }",
        Written(
            r#"define void @f() {
"a b":
  ret void
}
"#,
        ),
    ),
    Case(
        Plain,
        "define void @f() { __msan: ret void }",
        Reserved(6, 19),
    ),
    Case(
        Plain,
        "define void @f() { call void @f() %1 = call i8 @h() ret void }",
        Written(
            r#"define void @f() {
  call void @f()
  %1 = call i8 @h()
  ret void
}
"#,
        ),
    ),
    Case(Plain, "define void @f() { ret void", Syntax(8, 27)),
    Case(Plain, "define void @f() { x: y: ret void }", Syntax(7, 22)),
    Case(Plain, "define void @f() { alloca i8,", Syntax(9, 29)),
    Case(
        Plain,
        "define void @f() { call void @f(i8 1,",
        Syntax(13, 37),
    ),
    Case(
        Plain,
        "declare i32 @printf(ptr) define void @f() { call i32 @printf(ptr @f, i8 1) call void @printf() ret void }",
        Written(
            r#"declare i32 @printf(ptr, ...)
define void @f() {
  %1 = call i32 (ptr, ...) @printf(ptr @f, i8 1)
  call void @printf()
  ret void
}
"#,
        ),
    ),
];

/// Instructions that are marked as inserted.
pub static MARKS: [Case; 10] = [
    Case(
        Instrumented,
        "define void @f() { load i8, ptr %p, align 1, !nosanitize !0 ret void }",
        Written(
            r#"define void @f() {
  %1 = load i8, ptr %p, !nosanitize !0
  ret void
}
!0 = !{}
"#,
        ),
    ),
    Case(
        Instrumented,
        "define void @f() { freeze i8 1, !nosanitize !5, align 4 ret void }",
        Written(
            r#"define void @f() {
  %1 = freeze i8 1, !nosanitize !0
  ret void
}
!0 = !{}
"#,
        ),
    ),
    Case(
        Instrumented,
        "define void @f() { freeze i8 1, !nosanitize !x(1) ret void }",
        Written(
            r#"define void @f() {
  %1 = freeze i8 1, !nosanitize !0
  ret void
}
!0 = !{}
"#,
        ),
    ),
    Case(
        Instrumented,
        "define void @f() { freeze i8 1, !nosanitize !{} ret void }",
        Written(
            r#"define void @f() {
  %1 = freeze i8 1
  ret void
}
"#,
        ),
    ),
    Case(
        Instrumented,
        "define void @f() { alloca i8, !nosanitize !1, !a !1 ret void }",
        Written(
            r#"define void @f() {
  %1 = alloca i8, !nosanitize !0
  ret void
}
!0 = !{}
"#,
        ),
    ),
    Case(
        Instrumented,
        "define void @f() { getelementptr i8, ptr %p, i8 1, !nosanitize !1 ret void }",
        Written(
            r#"define void @f() {
  %1 = getelementptr i8, ptr %p, i8 1, !nosanitize !0
  ret void
}
!0 = !{}
"#,
        ),
    ),
    Case(
        Instrumented,
        "define void @f() { phi i8 [ 1, %x ], !nosanitize !1 ret void, !nosanitize !1 }",
        Written(
            r#"define void @f() {
  %1 = phi i8 [ 1, %x ], !nosanitize !0
  ret void, !nosanitize !0
}
!0 = !{}
"#,
        ),
    ),
    Case(
        Instrumented,
        "define void @f() { call void @f(), !nosanitize !1 ret void }",
        Written(
            r#"define void @f() {
  call void @f(), !nosanitize !0
  ret void
}
!0 = !{}
"#,
        ),
    ),
    Case(
        Instrumented,
        "define void @f() { switch i8 %v, label %d [ i8 1, label %a i8 -1, label %b ] }",
        Written(
            r#"define void @f() {
  switch i8 %v, label %d [ i8 1, label %a i8 -1, label %b ]
}
"#,
        ),
    ),
    Case(
        Instrumented,
        "define void @f() { %__msan.0 = load i8, ptr @__msan_retval_tls call void @__msan_check() ret void }",
        Written(
            r#"define void @f() {
  %__msan.0 = load i8, ptr @__msan_retval_tls
  call void @__msan_check()
  ret void
}
"#,
        ),
    ),
];

/// Attributes, and brackets that match in them.
pub static SKIPPED: [Case; 16] = [
    Case(
        Plain,
        "declare void @f() nounwind(x [ 1 { } ( ) , @f ] a: ) y",
        Written(
            r#"declare void @f()
"#,
        ),
    ),
    Case(
        Plain,
        "declare void @f() nounwind(volatile ... 1.5 %4294967296 )",
        Written(
            r#"declare void @f()
"#,
        ),
    ),
    Case(Plain, "attributes #0 = { ( ] ) }", Syntax(5, 20)),
    Case(Plain, "attributes #0 = { ( x } )", Syntax(6, 22)),
    Case(Plain, "attributes #0 = { ( x )", Syntax(7, 23)),
    Case(
        Plain,
        "declare void @f() nounwind(x @__msan_check )",
        Reserved(8, 29),
    ),
    Case(
        Plain,
        "declare void @f() nounwind(%__msan.1 )",
        Reserved(7, 27),
    ),
    Case(
        Plain,
        "declare void @f() nounwind(__msan: )",
        Reserved(7, 27),
    ),
    Case(
        Instrumented,
        "declare void @f() nounwind(@__msan_check %__msan.1 )",
        Written(
            r#"declare void @f()
"#,
        ),
    ),
    Case(
        Instrumented,
        "declare void @f() nounwind(@__msan.1 )",
        Reserved(7, 27),
    ),
    Case(
        Plain,
        "declare void @f() align 4 \"a\"=\"b\" \"c\" #0 #dbg section exact slt",
        Written(
            r#"declare void @f()
"#,
        ),
    ),
    Case(Plain, "declare void @f() x", Syntax(5, 18)),
    Case(Plain, "declare void @f() align", Syntax(6, 23)),
    Case(Plain, "declare void @f() align x", Syntax(6, 24)),
    Case(
        Plain,
        "declare void @f() \"a\"=volatile",
        LeftOut(Outside::Volatile, 7, 22),
    ),
    Case(Plain, "declare void @f() dereferenceable(8", Syntax(8, 35)),
];

/// Each construct that is left out, by each word that shows it.
pub static LEFT_OUT: [Case; 57] = [
    Case(
        Plain,
        "define void @f() { %r = freeze bfloat",
        LeftOut(Outside::FloatingPoint, 9, 31),
    ),
    Case(
        Plain,
        "define void @f() { %r = freeze float",
        LeftOut(Outside::FloatingPoint, 9, 31),
    ),
    Case(
        Plain,
        "define void @f() { %r = freeze double",
        LeftOut(Outside::FloatingPoint, 9, 31),
    ),
    Case(
        Plain,
        "define void @f() { %r = freeze fp128",
        LeftOut(Outside::FloatingPoint, 9, 31),
    ),
    Case(
        Plain,
        "define void @f() { %r = freeze x86_fp80",
        LeftOut(Outside::FloatingPoint, 9, 31),
    ),
    Case(
        Plain,
        "define void @f() { %r = freeze ppc_fp128",
        LeftOut(Outside::FloatingPoint, 9, 31),
    ),
    Case(
        Plain,
        "define void @f() { %r = fneg",
        LeftOut(Outside::FloatingPoint, 8, 24),
    ),
    Case(
        Plain,
        "define void @f() { %r = fsub",
        LeftOut(Outside::FloatingPoint, 8, 24),
    ),
    Case(
        Plain,
        "define void @f() { %r = fmul",
        LeftOut(Outside::FloatingPoint, 8, 24),
    ),
    Case(
        Plain,
        "define void @f() { %r = fdiv",
        LeftOut(Outside::FloatingPoint, 8, 24),
    ),
    Case(
        Plain,
        "define void @f() { %r = frem",
        LeftOut(Outside::FloatingPoint, 8, 24),
    ),
    Case(
        Plain,
        "define void @f() { %r = fcmp",
        LeftOut(Outside::FloatingPoint, 8, 24),
    ),
    Case(
        Plain,
        "define void @f() { %r = fptrunc",
        LeftOut(Outside::FloatingPoint, 8, 24),
    ),
    Case(
        Plain,
        "define void @f() { %r = fpext",
        LeftOut(Outside::FloatingPoint, 8, 24),
    ),
    Case(
        Plain,
        "define void @f() { %r = fptoui",
        LeftOut(Outside::FloatingPoint, 8, 24),
    ),
    Case(
        Plain,
        "define void @f() { %r = fptosi",
        LeftOut(Outside::FloatingPoint, 8, 24),
    ),
    Case(
        Plain,
        "define void @f() { %r = uitofp",
        LeftOut(Outside::FloatingPoint, 8, 24),
    ),
    Case(
        Plain,
        "define void @f() { %r = sitofp",
        LeftOut(Outside::FloatingPoint, 8, 24),
    ),
    Case(
        Plain,
        "define void @f() { %r = extractelement",
        LeftOut(Outside::Vector, 8, 24),
    ),
    Case(
        Plain,
        "define void @f() { %r = insertelement",
        LeftOut(Outside::Vector, 8, 24),
    ),
    Case(
        Plain,
        "define void @f() { %r = shufflevector",
        LeftOut(Outside::Vector, 8, 24),
    ),
    Case(
        Plain,
        "define void @f() { %r = addrspacecast",
        LeftOut(Outside::AddressSpace, 8, 24),
    ),
    Case(
        Plain,
        "define void @f() { %r = insertvalue",
        LeftOut(Outside::AggregateValue, 8, 24),
    ),
    Case(
        Plain,
        "define void @f() { %r = extractvalue",
        LeftOut(Outside::AggregateValue, 8, 24),
    ),
    Case(
        Plain,
        "define void @f() { %r = invoke",
        LeftOut(Outside::Exceptions, 8, 24),
    ),
    Case(
        Plain,
        "define void @f() { %r = landingpad",
        LeftOut(Outside::Exceptions, 8, 24),
    ),
    Case(
        Plain,
        "define void @f() { %r = catchswitch",
        LeftOut(Outside::Exceptions, 8, 24),
    ),
    Case(
        Plain,
        "define void @f() { %r = catchpad",
        LeftOut(Outside::Exceptions, 8, 24),
    ),
    Case(
        Plain,
        "define void @f() { %r = cleanuppad",
        LeftOut(Outside::Exceptions, 8, 24),
    ),
    Case(
        Plain,
        "define void @f() { %r = cmpxchg",
        LeftOut(Outside::Atomics, 8, 24),
    ),
    Case(
        Plain,
        "define void @f() { %r = atomicrmw",
        LeftOut(Outside::Atomics, 8, 24),
    ),
    Case(
        Plain,
        "define void @f() { %r = va_arg",
        LeftOut(Outside::VariableArguments, 8, 24),
    ),
    Case(
        Plain,
        "define void @f() { resume",
        LeftOut(Outside::Exceptions, 6, 19),
    ),
    Case(
        Plain,
        "define void @f() { catchret",
        LeftOut(Outside::Exceptions, 6, 19),
    ),
    Case(
        Plain,
        "define void @f() { cleanupret",
        LeftOut(Outside::Exceptions, 6, 19),
    ),
    Case(
        Plain,
        "define void @f() { callbr",
        LeftOut(Outside::Exceptions, 6, 19),
    ),
    Case(
        Plain,
        "define void @f() { indirectbr",
        LeftOut(Outside::IndirectBranch, 6, 19),
    ),
    Case(
        Plain,
        "define void @f() { fence",
        LeftOut(Outside::Atomics, 6, 19),
    ),
    Case(
        Plain,
        "define void @f() { load atomic i8, ptr %p",
        LeftOut(Outside::Atomics, 7, 24),
    ),
    Case(
        Plain,
        "define void @f() { store volatile i8 1, ptr %p",
        LeftOut(Outside::Volatile, 7, 25),
    ),
    Case(
        Plain,
        "define void @f() { load <4 x i8>, ptr %p",
        LeftOut(Outside::AggregateValue, 7, 24),
    ),
    Case(
        Plain,
        "define void @f() { load [4 x i8], ptr %p",
        LeftOut(Outside::AggregateValue, 7, 24),
    ),
    Case(
        Plain,
        "define void @f() { load %t, ptr %p",
        LeftOut(Outside::AggregateValue, 7, 24),
    ),
    Case(
        Plain,
        "define void @f() { call void asm \"x\", \"\"()",
        LeftOut(Outside::Assembly, 8, 29),
    ),
    Case(
        Plain,
        "define void @f() { %r = add i8 1, blockaddress(@f, %x)",
        LeftOut(Outside::IndirectBranch, 12, 34),
    ),
    Case(
        Plain,
        "define void @f() { %r = load i8, ptr addrspace(1) %p",
        LeftOut(Outside::AddressSpace, 12, 37),
    ),
    Case(
        Plain,
        "define void @f() { %r = alloca <vscale x 4 x i8>",
        LeftOut(Outside::Vector, 10, 32),
    ),
    Case(
        Plain,
        "define void @f() personality ptr @h {",
        LeftOut(Outside::Exceptions, 5, 17),
    ),
    Case(
        Plain,
        "define void @f() comdat {",
        LeftOut(Outside::Comdat, 5, 17),
    ),
    Case(
        Plain,
        "declare void @f(ptr byval",
        LeftOut(Outside::ByValue, 5, 20),
    ),
    Case(
        Plain,
        "declare void @f(ptr inalloca",
        LeftOut(Outside::ByValue, 5, 20),
    ),
    Case(
        Plain,
        "declare void @f(ptr preallocated",
        LeftOut(Outside::ByValue, 5, 20),
    ),
    Case(
        Plain,
        "declare void @f(ptr byref",
        LeftOut(Outside::ByValue, 5, 20),
    ),
    Case(
        Plain,
        "declare void @f(ptr swifterror",
        LeftOut(Outside::ByValue, 5, 20),
    ),
    Case(
        Plain,
        "@g = ifunc i8, ptr @f",
        LeftOut(Outside::Alias, 2, 5),
    ),
    Case(
        Plain,
        "define void @f() $c {",
        LeftOut(Outside::Comdat, 5, 17),
    ),
    Case(
        Plain,
        "declare void @f(i8 metadata",
        LeftOut(Outside::MetadataOperand, 5, 19),
    ),
];
