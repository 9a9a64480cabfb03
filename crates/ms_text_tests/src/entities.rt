//! Entities of a module, worked out by hand.

use crate::cases::Case;
use crate::cases::Want::{
    BadByte, Kept, LeftOut, Numbering, OpenString, Reserved, Syntax, Written,
};
use ms_ir::Form::{Instrumented, Plain};
use ms_text_grammar::Outside;

/// What stands at the top of a text.
pub static ENTITIES: [Case; 38] = [
    Case(Plain, "", Written("")),
    Case(Plain, "@g = global i8 ~", BadByte(15)),
    Case(Plain, "@g = global i8 \"", OpenString(15)),
    Case(Plain, "? @g = ) \"", BadByte(0)),
    Case(Plain, "; a comment\n", Written("")),
    Case(
        Plain,
        "source_filename = \"a.c\" @g = global i8 0",
        Written(
            r#"@g = global i8 0
"#,
        ),
    ),
    Case(Plain, "source_filename = \"a.c\" x", Syntax(3, 24)),
    Case(Plain, "source_filename = a.c", Syntax(2, 18)),
    Case(
        Plain,
        "target datalayout = \"e\" target triple = \"e\"",
        Written(""),
    ),
    Case(Plain, "target cpu = \"e\"", Syntax(1, 7)),
    Case(
        Plain,
        "attributes #0 = { nounwind \"a\"=\"b\" } attributes #dbg = { }",
        Written(""),
    ),
    Case(Plain, "attributes 0 = { }", Syntax(1, 11)),
    Case(Plain, "attributes #0 = { @__msan_check }", Reserved(4, 18)),
    Case(
        Plain,
        "!0 = !{ i32 1 } !1 = distinct !DILocation(line: 1) !named = !{!0}",
        Written(""),
    ),
    Case(Plain, "!0 = distinct distinct !{ }", Syntax(3, 14)),
    Case(Plain, "!0 = !0", Syntax(3, 7)),
    Case(Plain, "asm \"x\"", LeftOut(Outside::Assembly, 0, 0)),
    Case(Plain, "module asm \"x\"", LeftOut(Outside::Assembly, 0, 0)),
    Case(Plain, "\n$c = comdat any", LeftOut(Outside::Comdat, 0, 1)),
    Case(Plain, ")", Syntax(0, 0)),
    Case(Plain, "*", LeftOut(Outside::TypedPointer, 0, 0)),
    Case(Plain, "!", Syntax(0, 0)),
    Case(Plain, "#0", Syntax(0, 0)),
    Case(
        Plain,
        r#"%t = type { i8 }
@g = global i8 1
@h = constant i8 2
declare void @f(i8)
"#,
        Written(
            r#"%t = type { i8 }
@g = global i8 1
@h = constant i8 2
declare void @f(i8)
"#,
        ),
    ),
    Case(
        Plain,
        "define void @f() { ret void } declare void @h(i8) @g = global i8 1 %t = type { i8 }",
        Written(
            r#"%t = type { i8 }
@g = global i8 1
declare void @h(i8)
define void @f() {
  ret void
}
"#,
        ),
    ),
    Case(
        Plain,
        r#"declare i32 @main()
"#,
        Kept,
    ),
    Case(
        Plain,
        "declare external void @f(i8 noundef %x, ptr) nounwind #0",
        Written(
            r#"declare void @f(i8, ptr)
"#,
        ),
    ),
    Case(
        Plain,
        "declare !dbg !1 void @f()",
        Written(
            r#"declare void @f()
"#,
        ),
    ),
    Case(
        Plain,
        "declare { i8 } @f()",
        LeftOut(Outside::AggregateValue, 1, 8),
    ),
    Case(
        Plain,
        "declare void @f(ptr, ...)",
        LeftOut(Outside::Variadic, 6, 21),
    ),
    Case(
        Plain,
        r#"declare i32 @printf(ptr, ...)
"#,
        Kept,
    ),
    Case(
        Plain,
        "declare void @printf(ptr, ...)",
        Written(
            r#"declare void @printf(ptr)
"#,
        ),
    ),
    Case(
        Plain,
        r#"declare i32 @printf(ptr, ptr)
"#,
        Kept,
    ),
    Case(
        Plain,
        "declare i32 @printf(i8, ...)",
        LeftOut(Outside::Variadic, 6, 24),
    ),
    Case(Plain, "declare void @f(i8, )", Syntax(6, 20)),
    Case(Plain, "declare void %f()", Syntax(2, 13)),
    Case(Plain, "declare void @__msan_check()", Reserved(2, 13)),
    Case(
        Instrumented,
        r#"declare i64 @__msan_size(ptr)
"#,
        Kept,
    ),
];

/// Global variables.
pub static GLOBALS: [Case; 23] = [
    Case(Plain, "@g = global i8 0", Kept),
    Case(
        Plain,
        "@g = global i8 0, align 8, section \"s\", !dbg !1",
        Written("@g = global i8 0"),
    ),
    Case(Plain, "@g = global i8 0, !nosanitize !1", Reserved(6, 18)),
    Case(
        Instrumented,
        "@g = global i8 0, !nosanitize !1",
        Written("@g = global i8 0"),
    ),
    Case(
        Plain,
        "@g = global i8 0, comdat",
        LeftOut(Outside::Comdat, 6, 18),
    ),
    Case(Plain, "@g = global i8 0, align", Syntax(7, 23)),
    Case(Plain, "@g = global i8 1 x", Syntax(5, 17)),
    Case(
        Plain,
        "@g = private unnamed_addr constant i8 5, align 4, !dbg !0",
        Written("@g = constant i8 5"),
    ),
    Case(
        Plain,
        "@g = internal constant [2 x i8] c\"a\\00\", align 1",
        Written("@g = constant [ 2 x i8 ] c\"a\\00\""),
    ),
    Case(
        Plain,
        "@g = external global i32",
        LeftOut(Outside::ExternalGlobal, 2, 5),
    ),
    Case(
        Plain,
        "@g = extern_weak global i32",
        LeftOut(Outside::ExternalGlobal, 2, 5),
    ),
    Case(
        Plain,
        "@g = thread_local global i8 0",
        LeftOut(Outside::ThreadLocal, 2, 5),
    ),
    Case(
        Plain,
        "@g = addrspace(1) global i8 0",
        LeftOut(Outside::AddressSpace, 2, 5),
    ),
    Case(
        Plain,
        "@g = alias i32, ptr @f",
        LeftOut(Outside::Alias, 2, 5),
    ),
    Case(Plain, "@g = i8 0", Syntax(2, 5)),
    Case(Plain, "@g global i8 0", Syntax(1, 3)),
    Case(Plain, "@__msan_param_tls = global i8 0", Reserved(0, 0)),
    Case(Instrumented, "@__msan_param_tls = global i8 0", Kept),
    Case(
        Instrumented,
        "@__msan_param_tl = global i8 0",
        Reserved(0, 0),
    ),
    Case(Plain, "@a$b._c-d = global i8 0", Kept),
    Case(
        Plain,
        "@\"a\\22b\\5C\" = global i8 255 declare i32 @printf(ptr)",
        Written(
            r#"@"a\22b\5C" = global i8 -1
declare i32 @printf(ptr, ...)"#,
        ),
    ),
    Case(Plain, "@0 = global i8 0", Written("@\"0\" = global i8 0")),
    Case(
        Plain,
        "@\"\\67\" = global i8 0",
        Written("@g = global i8 0"),
    ),
];

/// Values that globals begin with.
pub static VALUES: [Case; 41] = [
    Case(Plain, "@g = global i8 -128", Kept),
    Case(Plain, "@g = global i8 127", Kept),
    Case(Plain, "@g = global i8 255", Written("@g = global i8 -1")),
    Case(Plain, "@g = global i8 128", Written("@g = global i8 -128")),
    Case(Plain, "@g = global i8 007", Written("@g = global i8 7")),
    Case(Plain, "@g = global i8 256", Syntax(4, 15)),
    Case(Plain, "@g = global i8 -129", Syntax(4, 15)),
    Case(Plain, "@g = global i8 true", Syntax(4, 15)),
    Case(Plain, "@g = global i8 null", Syntax(4, 15)),
    Case(Plain, "@g = global i8 undef", Kept),
    Case(Plain, "@g = global i8 poison", Kept),
    Case(Plain, "@g = global i8 %1", Syntax(4, 15)),
    Case(Plain, "@g = global ptr @f", Kept),
    Case(
        Plain,
        "@g = global i8 add",
        LeftOut(Outside::ConstantExpression, 4, 15),
    ),
    Case(
        Plain,
        "@g = global i8 zext",
        LeftOut(Outside::ConstantExpression, 4, 15),
    ),
    Case(
        Plain,
        "@g = global i8 icmp",
        LeftOut(Outside::ConstantExpression, 4, 15),
    ),
    Case(
        Plain,
        "@g = global i8 select",
        LeftOut(Outside::ConstantExpression, 4, 15),
    ),
    Case(
        Plain,
        "@g = global i8 1.5",
        LeftOut(Outside::FloatingPoint, 4, 15),
    ),
    Case(
        Plain,
        "@g = global i64 18446744073709551615",
        Written("@g = global i64 -1"),
    ),
    Case(Plain, "@g = global i64 -9223372036854775808", Kept),
    Case(
        Plain,
        "@g = global i64 18446744073709551616",
        LeftOut(Outside::WideInteger, 4, 16),
    ),
    Case(
        Plain,
        "@g = global i64 -9223372036854775809",
        LeftOut(Outside::WideInteger, 4, 16),
    ),
    Case(Plain, "@g = global i1 true", Kept),
    Case(Plain, "@g = global i1 -1", Written("@g = global i1 true")),
    Case(Plain, "@g = global i1 0", Written("@g = global i1 false")),
    Case(Plain, "@g = global i1 2", Syntax(4, 15)),
    Case(Plain, "@g = global ptr null", Kept),
    Case(Plain, "@g = global ptr 1", Syntax(4, 16)),
    Case(
        Plain,
        "@g = global [2 x i8] [ i8 1, i8 undef ]",
        Written("@g = global [ 2 x i8 ] [ i8 1, i8 undef ]"),
    ),
    Case(
        Plain,
        "@g = global [2 x i8] c\"a\\00\"",
        Written("@g = global [ 2 x i8 ] c\"a\\00\""),
    ),
    Case(
        Plain,
        "@g = global [2 x i8] zeroinitializer",
        Written("@g = global [ 2 x i8 ] zeroinitializer"),
    ),
    Case(Plain, "@g = global [2 x i8] [ i8 1, ]", Syntax(12, 29)),
    Case(Plain, "@g = global { i8, ptr } { i8 1, ptr @g }", Kept),
    Case(
        Plain,
        "@g = global <{ i8 }> <{ i8 1 }>",
        Written("@g = global < { i8 } > < { i8 1 } >"),
    ),
    Case(
        Plain,
        "@g = global ptr getelementptr inbounds ([4 x i8], ptr @h, i64 0, i1 -1)",
        Written("@g = global ptr getelementptr ([ 4 x i8 ], ptr @h, i64 0, i1 -1)"),
    ),
    Case(
        Plain,
        "@g = global ptr getelementptr (i8, ptr %h, i64 0)",
        Syntax(9, 39),
    ),
    Case(
        Plain,
        "@g = global ptr getelementptr (i8, ptr @h, i64 true)",
        Syntax(12, 47),
    ),
    Case(
        Plain,
        "@g = global ptr getelementptr ([ 2 x i8 ], ptr getelementptr (%t, ptr @h, i64 0, i32 1), i64 0, i64 1)",
        Kept,
    ),
    Case(
        Plain,
        "@g = global ptr getelementptr inbounds (i8, ptr getelementptr nuw (i8, ptr getelementptr (i8, ptr @h), i64 -1), i8 1)",
        Written(
            "@g = global ptr getelementptr (i8, ptr getelementptr (i8, ptr getelementptr (i8, ptr @h), i64 -1), i8 1)",
        ),
    ),
    Case(
        Plain,
        "@g = global ptr getelementptr (i8, ptr getelementptr (i8, ptr null, i64 1), i64 1)",
        Syntax(14, 62),
    ),
    Case(
        Plain,
        "@g = global ptr getelementptr (i8, ptr getelementptr (i8, ptr @h, i64 1)",
        Syntax(19, 72),
    ),
];

/// Named types.
pub static TYPES: [Case; 20] = [
    Case(Plain, "%t = type { i32, ptr }", Kept),
    Case(
        Plain,
        "%t = type { [ 2 x { i8, ptr } ], <{ i064 }>, { }, %7 }",
        Written("%t = type { [ 2 x { i8, ptr } ], < { i64 } >, { }, %7 }"),
    ),
    Case(Plain, "%0 = type <{ }>", Written("%0 = type < { } >")),
    Case(Plain, "%4294967295 = type { }", Kept),
    Case(Plain, "%4294967296 = type { }", Numbering(0, 0)),
    Case(
        Plain,
        "%t = type opaque",
        LeftOut(Outside::OpaqueType, 3, 10),
    ),
    Case(Plain, "%t = type i32", Syntax(3, 10)),
    Case(
        Plain,
        "%t = type { i65 }",
        LeftOut(Outside::WideInteger, 4, 12),
    ),
    Case(
        Plain,
        "%t = type { [ 1 x half ] }",
        LeftOut(Outside::FloatingPoint, 7, 18),
    ),
    Case(
        Plain,
        "%t = type { x86_fp80 }",
        LeftOut(Outside::FloatingPoint, 4, 12),
    ),
    Case(
        Plain,
        "%t = type { <4 x i8> }",
        LeftOut(Outside::Vector, 5, 13),
    ),
    Case(Plain, "%t = type { i0 }", Syntax(4, 12)),
    Case(Plain, "%t = type { [ -1 x i8 ] }", Syntax(5, 14)),
    Case(Plain, "%t = type { [ 1 i8 ] }", Syntax(6, 16)),
    Case(Plain, "%t = type { i8 i8 }", Syntax(5, 15)),
    Case(Plain, "%t = type { i8, }", Syntax(6, 16)),
    Case(Plain, "%t = type { %4294967296 }", Numbering(4, 12)),
    Case(Plain, "%t = type { %__msan.1 }", Reserved(4, 12)),
    Case(
        Plain,
        "%t = type { i8* }",
        LeftOut(Outside::TypedPointer, 5, 14),
    ),
    Case(Plain, "%__msan.1 = type { }", Reserved(0, 0)),
];
