//! Instructions, each for itself, worked out by hand from the LLVM Language Reference.

use crate::cases::Case;
use crate::cases::Want::{Kept, LeftOut, Numbering, Reserved, Syntax, Written};
use ms_ir::Form::Plain;
use ms_text_grammar::Outside;

/// Operations on words.
pub static COMPUTATIONS: [Case; 57] = [
    Case(
        Plain,
        "add nuw nsw i32 %a, -1",
        Written("%1 = add nuw nsw i32 %a, -1"),
    ),
    Case(
        Plain,
        "%r = add nsw nuw i32 %a, 4294967295",
        Written("%r = add nuw nsw i32 %a, -1"),
    ),
    Case(Plain, "%r = sub nsw i64 0, %\"5\"", Kept),
    Case(Plain, "%r = mul nuw i1 true, false", Kept),
    Case(Plain, "%r = shl nuw i8 1, 7", Kept),
    Case(Plain, "%r = udiv exact i8 8, 2", Kept),
    Case(Plain, "%r = sdiv exact i8 8, 2", Kept),
    Case(Plain, "%r = lshr exact i8 8, 2", Kept),
    Case(Plain, "%r = ashr exact i8 8, 2", Kept),
    Case(Plain, "%r = urem i8 8, 3", Kept),
    Case(Plain, "%r = srem i8 8, 3", Kept),
    Case(Plain, "%r = and i8 8, 3", Kept),
    Case(Plain, "%r = or disjoint i8 8, 3", Kept),
    Case(Plain, "%r = xor i8 8, 3", Kept),
    Case(Plain, "add nuw nuw i32 %a, -1", Syntax(2, 8)),
    Case(Plain, "or exact i32 1, 2", Syntax(1, 3)),
    Case(Plain, "and nuw i32 1, 2", Syntax(1, 4)),
    Case(Plain, "urem exact i32 1, 2", Syntax(1, 5)),
    Case(Plain, "add ptr %a, %b", Syntax(1, 4)),
    Case(Plain, "add i8 256, 0", Syntax(2, 7)),
    Case(Plain, "add i8 1 %b", Syntax(3, 9)),
    Case(Plain, "ad i8 1, 2", Syntax(0, 0)),
    Case(Plain, "%r = adds i8 1, 2", Syntax(2, 5)),
    Case(Plain, "%r = Add i8 1, 2", Syntax(2, 5)),
    Case(Plain, "add i0 1, 2", Syntax(1, 4)),
    Case(Plain, "add i8x 1, 2", Syntax(1, 4)),
    Case(Plain, "add i 1, 2", Syntax(1, 4)),
    Case(Plain, "add i65 1, 2", LeftOut(Outside::WideInteger, 1, 4)),
    Case(
        Plain,
        "add i99999999999999999999 1, 2",
        LeftOut(Outside::WideInteger, 1, 4),
    ),
    Case(Plain, "%r = add i064 1, 2", Written("%r = add i64 1, 2")),
    Case(Plain, "%r = add i8 %4294967295, 0", Kept),
    Case(Plain, "%r = add i8 %4294967296, 0", Numbering(4, 12)),
    Case(Plain, "%r = add i8 %__msan.0, 0", Reserved(4, 12)),
    Case(Plain, "%r = icmp samesign ult ptr %a, null", Kept),
    Case(Plain, "%r = icmp eq i8 1, 2", Kept),
    Case(Plain, "%r = icmp ne i8 1, 2", Kept),
    Case(Plain, "%r = icmp ugt i8 1, 2", Kept),
    Case(Plain, "%r = icmp uge i8 1, 2", Kept),
    Case(Plain, "%r = icmp ule i8 1, 2", Kept),
    Case(Plain, "%r = icmp sgt i8 1, 2", Kept),
    Case(Plain, "%r = icmp sge i8 1, 2", Kept),
    Case(Plain, "%r = icmp slt i8 1, 2", Kept),
    Case(Plain, "%r = icmp sle i8 1, 2", Kept),
    Case(Plain, "icmp i32 %a, 0", Syntax(1, 5)),
    Case(Plain, "icmp eq samesign i32 %a, 0", Syntax(2, 8)),
    Case(Plain, "%r = zext nneg i8 %a to i64", Kept),
    Case(
        Plain,
        "%r = trunc nsw nuw i64 %a to i8",
        Written("%r = trunc nuw nsw i64 %a to i8"),
    ),
    Case(Plain, "%r = sext i8 %a to i64", Kept),
    Case(Plain, "%r = ptrtoint ptr %a to i64", Kept),
    Case(Plain, "%r = inttoptr i64 %a to ptr", Kept),
    Case(Plain, "%r = bitcast ptr %a to ptr", Kept),
    Case(Plain, "sext nneg i8 %a to i64", Syntax(1, 5)),
    Case(Plain, "zext i8 %a, i64", Syntax(3, 10)),
    Case(Plain, "%r = select i1 %c, i8 1, i8 2", Kept),
    Case(Plain, "select i1 %c, i8 1, i16 2", Syntax(7, 20)),
    Case(Plain, "select i8 %c, i8 1, i8 2", Syntax(1, 7)),
    Case(Plain, "%r = freeze i8 undef", Kept),
];

/// Memory, addresses and phis.
pub static MEMORY: [Case; 20] = [
    Case(
        Plain,
        "load i32, ptr %p, align 4, !dbg !7",
        Written("%1 = load i32, ptr %p"),
    ),
    Case(Plain, "load i32, %p", Syntax(3, 10)),
    Case(
        Plain,
        "load { i8 }, ptr %p",
        LeftOut(Outside::AggregateValue, 1, 5),
    ),
    Case(Plain, "load i8, ptr %p, !nosanitize !0", Reserved(6, 17)),
    Case(Plain, "store i32 1, ptr %p", Kept),
    Case(Plain, "%r = store i32 1, ptr %p", Syntax(2, 5)),
    Case(
        Plain,
        "getelementptr inbounds [4 x i8], ptr %p, i64 0, i64 %i, !dbg !1",
        Written("%1 = getelementptr [ 4 x i8 ], ptr %p, i64 0, i64 %i"),
    ),
    Case(
        Plain,
        "%r = getelementptr nuw nusw i8, ptr %p, i64 1",
        Written("%r = getelementptr i8, ptr %p, i64 1"),
    ),
    Case(Plain, "%r = getelementptr i8, ptr %p", Kept),
    Case(
        Plain,
        "%r = getelementptr i8, ptr %p, ptr %q",
        Syntax(8, 31),
    ),
    Case(
        Plain,
        "%r = getelementptr i8, ptr %p, i64 0, ret void",
        Syntax(11, 38),
    ),
    Case(
        Plain,
        "%r = getelementptr i8, ptr %p, !dbg !1, i64 0",
        Syntax(11, 40),
    ),
    Case(Plain, "alloca i32, align 4", Written("%1 = alloca i32")),
    Case(
        Plain,
        "alloca i8, i64 %n, align 16",
        Written("%1 = alloca i8, i64 %n"),
    ),
    Case(Plain, "%r = alloca i8, i32 1", Written("%r = alloca i8")),
    Case(Plain, "%r = alloca i8, i32 2", Kept),
    Case(Plain, "%r = alloca { i8, %t }", Kept),
    Case(Plain, "alloca i8, i64 1, i64 2", Syntax(6, 18)),
    Case(
        Plain,
        "phi i32 [ 0, %a ], [ %x, %0 ], !dbg !2",
        Written("%1 = phi i32 [ 0, %a ], [ %x, %0 ]"),
    ),
    Case(
        Plain,
        "store i8 1, ptr %p %r = phi i8 [ 0, %a ]",
        Syntax(8, 24),
    ),
];

/// Calls.
pub static CALLS: [Case; 22] = [
    Case(
        Plain,
        "call void @f(i32 noundef %a, ptr null) #3, !dbg !4",
        Written("call void @f(i32 %a, ptr null)"),
    ),
    Case(Plain, "call void @f()", Kept),
    Case(
        Plain,
        "call void @f() #dbg_value(i32 1)",
        Written("call void @f()"),
    ),
    Case(
        Plain,
        "call void @f() #dbg_value(i32 1), align 4",
        Syntax(10, 32),
    ),
    Case(
        Plain,
        "call void @main()",
        LeftOut(Outside::CallOfMain, 2, 10),
    ),
    Case(
        Plain,
        "call void %f()",
        LeftOut(Outside::IndirectCall, 2, 10),
    ),
    Case(
        Plain,
        "call void %0()",
        LeftOut(Outside::IndirectCall, 2, 10),
    ),
    Case(
        Plain,
        "%r = call i32 (ptr, ...) @printf(ptr @f)",
        Written("%r = call i32 @printf(ptr @f)"),
    ),
    Case(Plain, "%r = call i32 @printf(ptr @f, i8 1)", Kept),
    Case(Plain, "call i32 (i32) @printf(ptr @f)", Syntax(3, 10)),
    Case(
        Plain,
        "call i64 (ptr, ...) @printf(ptr @f)",
        LeftOut(Outside::FunctionType, 2, 9),
    ),
    Case(
        Plain,
        "call i32 (ptr, ...) @puts(ptr @f)",
        LeftOut(Outside::FunctionType, 7, 20),
    ),
    Case(
        Plain,
        "call void @f() [ \"deopt\"() ]",
        LeftOut(Outside::OperandBundle, 5, 15),
    ),
    Case(Plain, "tail call i8 @f()", Written("%1 = call i8 @f()")),
    Case(
        Plain,
        "%r = musttail call noundef zeroext i8 @f()",
        Written("%r = call i8 @f()"),
    ),
    Case(
        Plain,
        "%r = notail call ptr @f()",
        Written("%r = call ptr @f()"),
    ),
    Case(Plain, "tail i8 @f()", Syntax(1, 5)),
    Case(Plain, "%r = call void @f()", Syntax(3, 10)),
    Case(Plain, "call void @f(i8 1, )", Syntax(7, 19)),
    Case(Plain, "call void @f(i8 1 i8 2)", Syntax(6, 18)),
    Case(
        Plain,
        "call void @f(metadata i8 1)",
        LeftOut(Outside::MetadataOperand, 4, 13),
    ),
    Case(
        Plain,
        "call void @f(ptr byval(i8) %p)",
        LeftOut(Outside::ByValue, 5, 17),
    ),
];

/// What is attached to an instruction, and what stands between instructions.
pub static SUFFIXES: [Case; 12] = [
    Case(
        Plain,
        "freeze i8 1, align 4, !tbaa !5, !srcloc !{i64 1}",
        Written("%1 = freeze i8 1"),
    ),
    Case(Plain, "freeze i8 1, !a !b(1)", Written("%1 = freeze i8 1")),
    Case(
        Plain,
        "freeze i8 1, !a !nosanitize",
        Written("%1 = freeze i8 1"),
    ),
    Case(Plain, "freeze i8 1, align x", Syntax(5, 19)),
    Case(Plain, "freeze i8 1, x", Syntax(4, 13)),
    Case(Plain, "freeze i8 1, !a x", Syntax(5, 16)),
    Case(Plain, "freeze i8 1, !a ! x", Syntax(6, 18)),
    Case(Plain, "freeze i8 1, !nosanitize !5", Reserved(4, 13)),
    Case(
        Plain,
        "alloca i8, align 4, !a !1",
        Written("%1 = alloca i8"),
    ),
    Case(
        Plain,
        "#dbg_value(i8 1) freeze i8 1 #dbg_declare(ptr %p, !{})",
        Written("%1 = freeze i8 1"),
    ),
    Case(Plain, "#0 freeze i8 1", Syntax(0, 0)),
    Case(Plain, "freeze i8 -x", Syntax(2, 10)),
];

/// Instructions that end a block.
pub static TERMINATORS: [Case; 15] = [
    Case(Plain, "ret i32 %0", Kept),
    Case(Plain, "ret void, align 4, !tbaa !5", Written("ret void")),
    Case(Plain, "ret }", Syntax(1, 4)),
    Case(Plain, "br label %a", Kept),
    Case(Plain, "br i1 %c, label %a, label %\"1\"", Kept),
    Case(Plain, "br i1 undef, label %a, label %1", Kept),
    Case(Plain, "br i8 %c, label %a, label %b", Syntax(1, 3)),
    Case(Plain, "br label a", Syntax(2, 9)),
    Case(
        Plain,
        "switch i8 %v, label %d [ i8 1, label %a i8 -1, label %b ]",
        Kept,
    ),
    Case(Plain, "switch i1 %v, label %d [ ]", Kept),
    Case(
        Plain,
        "switch i8 %v, label %d [ i16 1, label %a ]",
        Syntax(7, 25),
    ),
    Case(
        Plain,
        "switch i8 %v, label %d [ i8 256, label %a ]",
        Syntax(8, 28),
    ),
    Case(
        Plain,
        "switch i8 %v, label %d [ i8 undef, label %a ]",
        Syntax(8, 28),
    ),
    Case(Plain, "unreachable, !dbg !1", Written("unreachable")),
    Case(Plain, "unreachable freeze i8 1 }", Syntax(4, 24)),
];
