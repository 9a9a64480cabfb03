//! Texts, and the lines of their sites.

/// A text, the number of sites that it has, and the lines of each site from 0 to one more than it has, after its number.
pub struct Sited(pub &'static [u8], pub u32, pub &'static [u8]);

/// Two texts that clang 19 wrote, one of them linked, and four by hand: without a file and with lines that are cut; with calls that were
/// inlined and a file whose name has escapes; with inserted instructions, long lines and bytes that aren't printed; and with cycles,
/// nodes that are missing or named twice, and huge numbers.
pub static SITED: [Sited; 6] = [
    Sited(
        b"; ModuleID = 'unset.c'
source_filename = \"unset.c\"

@.str = private unnamed_addr constant [6 x i8] c\"three\\00\", align 1, !dbg !0

; Function Attrs: noinline nounwind optnone uwtable
define dso_local i32 @main() #0 !dbg !15 {
  %1 = alloca i32, align 4
  %2 = alloca i32, align 4
  store i32 0, ptr %1, align 4
    #dbg_declare(ptr %2, !20, !DIExpression(), !21)
  %3 = load i32, ptr %2, align 4, !dbg !22
  %4 = icmp eq i32 %3, 3, !dbg !24
  br i1 %4, label %5, label %7, !dbg !25

5:                                                ; preds = %0
  %6 = call i32 @puts(ptr noundef @.str), !dbg !26
  br label %7, !dbg !26

7:                                                ; preds = %5, %0
  ret i32 0, !dbg !27
}

declare dso_local i32 @puts(ptr noundef) #1

attributes #0 = { nounwind }
attributes #1 = { nounwind }

!llvm.dbg.cu = !{!7}
!llvm.module.flags = !{!9, !10, !11, !12, !13}
!llvm.ident = !{!14}

!0 = !DIGlobalVariableExpression(var: !1, expr: !DIExpression())
!1 = distinct !DIGlobalVariable(scope: null, file: !2, line: 6, type: !3, isLocal: true, isDefinition: true)
!2 = !DIFile(filename: \"unset.c\", directory: \"/src\")
!3 = !DICompositeType(tag: DW_TAG_array_type, baseType: !4, size: 48, elements: !5)
!4 = !DIBasicType(name: \"char\", size: 8, encoding: DW_ATE_signed_char)
!5 = !{!6}
!6 = !DISubrange(count: 6)
!7 = distinct !DICompileUnit(language: DW_LANG_C11, file: !2, producer: \"clang\", isOptimized: false, runtimeVersion: 0, emissionKind: FullDebug, globals: !8, splitDebugInlining: false, nameTableKind: None)
!8 = !{!0}
!9 = !{i32 7, !\"Dwarf Version\", i32 5}
!10 = !{i32 2, !\"Debug Info Version\", i32 3}
!11 = !{i32 1, !\"wchar_size\", i32 4}
!12 = !{i32 7, !\"uwtable\", i32 2}
!13 = !{i32 7, !\"frame-pointer\", i32 2}
!14 = !{!\"clang\"}
!15 = distinct !DISubprogram(name: \"main\", scope: !2, file: !2, line: 3, type: !16, scopeLine: 3, flags: DIFlagPrototyped, spFlags: DISPFlagDefinition, unit: !7, retainedNodes: !19)
!16 = !DISubroutineType(types: !17)
!17 = !{!18}
!18 = !DIBasicType(name: \"int\", size: 32, encoding: DW_ATE_signed)
!19 = !{}
!20 = !DILocalVariable(name: \"wanted\", scope: !15, file: !2, line: 4, type: !18)
!21 = !DILocation(line: 4, column: 7, scope: !15)
!22 = !DILocation(line: 5, column: 7, scope: !23)
!23 = distinct !DILexicalBlock(scope: !15, file: !2, line: 5, column: 7)
!24 = !DILocation(line: 5, column: 14, scope: !23)
!25 = !DILocation(line: 5, column: 7, scope: !15)
!26 = !DILocation(line: 6, column: 5, scope: !23)
!27 = !DILocation(line: 7, column: 3, scope: !15)
",
        9,
        b"0
1
    text.ll:8: %1 = alloca i32, align 4
2
    text.ll:9: %2 = alloca i32, align 4
    unset.c:4:7: wanted
3
    text.ll:10: store i32 0, ptr %1, align 4
4
    text.ll:12: %3 = load i32, ptr %2, align 4
    unset.c:5:7
5
    text.ll:13: %4 = icmp eq i32 %3, 3
    unset.c:5:14
6
    text.ll:14: br i1 %4, label %5, label %7
    unset.c:5:7
7
    text.ll:17: %6 = call i32 @puts(ptr noundef @.str)
    unset.c:6:5
8
    text.ll:18: br label %7
    unset.c:6:5
9
    text.ll:21: ret i32 0
    unset.c:7:3
10
",
    ),
    Sited(
        b"; ModuleID = 'llvm-link'
source_filename = \"llvm-link\"

; Function Attrs: noinline nounwind optnone uwtable
define dso_local i32 @main() #0 !dbg !10 {
  %1 = alloca i32, align 4
  %2 = alloca i32, align 4
  store i32 0, ptr %1, align 4
    #dbg_declare(ptr %2, !15, !DIExpression(), !16)
  %3 = load i32, ptr %2, align 4, !dbg !17
  %4 = call i32 @f(i32 noundef %3), !dbg !18
  ret i32 %4, !dbg !19
}

; Function Attrs: noinline nounwind optnone uwtable
define dso_local i32 @f(i32 noundef %0) #0 !dbg !20 {
  %2 = alloca i32, align 4
  store i32 %0, ptr %2, align 4
    #dbg_declare(ptr %2, !23, !DIExpression(), !24)
  %3 = load i32, ptr %2, align 4, !dbg !25
  %4 = icmp ne i32 %3, 0, !dbg !25
  %5 = zext i1 %4 to i64, !dbg !25
  %6 = select i1 %4, i32 1, i32 2, !dbg !25
  ret i32 %6, !dbg !26
}

attributes #0 = { nounwind }

!llvm.dbg.cu = !{!0, !2}
!llvm.ident = !{!4, !4}
!llvm.module.flags = !{!5, !6, !7, !8, !9}

!0 = distinct !DICompileUnit(language: DW_LANG_C11, file: !1, producer: \"clang\", isOptimized: false, runtimeVersion: 0, emissionKind: FullDebug, splitDebugInlining: false, nameTableKind: None)
!1 = !DIFile(filename: \"two_a.c\", directory: \"/src\")
!2 = distinct !DICompileUnit(language: DW_LANG_C11, file: !3, producer: \"clang\", isOptimized: false, runtimeVersion: 0, emissionKind: FullDebug, splitDebugInlining: false, nameTableKind: None)
!3 = !DIFile(filename: \"two_b.c\", directory: \"/src\")
!4 = !{!\"clang\"}
!5 = !{i32 7, !\"Dwarf Version\", i32 5}
!6 = !{i32 2, !\"Debug Info Version\", i32 3}
!7 = !{i32 1, !\"wchar_size\", i32 4}
!8 = !{i32 7, !\"uwtable\", i32 2}
!9 = !{i32 7, !\"frame-pointer\", i32 2}
!10 = distinct !DISubprogram(name: \"main\", scope: !1, file: !1, line: 2, type: !11, scopeLine: 2, flags: DIFlagPrototyped, spFlags: DISPFlagDefinition, unit: !0, retainedNodes: !14)
!11 = !DISubroutineType(types: !12)
!12 = !{!13}
!13 = !DIBasicType(name: \"int\", size: 32, encoding: DW_ATE_signed)
!14 = !{}
!15 = !DILocalVariable(name: \"x\", scope: !10, file: !1, line: 2, type: !13)
!16 = !DILocation(line: 2, column: 22, scope: !10)
!17 = !DILocation(line: 2, column: 34, scope: !10)
!18 = !DILocation(line: 2, column: 32, scope: !10)
!19 = !DILocation(line: 2, column: 25, scope: !10)
!20 = distinct !DISubprogram(name: \"f\", scope: !3, file: !3, line: 1, type: !21, scopeLine: 1, flags: DIFlagPrototyped, spFlags: DISPFlagDefinition, unit: !2, retainedNodes: !14)
!21 = !DISubroutineType(types: !22)
!22 = !{!13, !13}
!23 = !DILocalVariable(name: \"y\", arg: 1, scope: !20, file: !3, line: 1, type: !13)
!24 = !DILocation(line: 1, column: 11, scope: !20)
!25 = !DILocation(line: 1, column: 23, scope: !20)
!26 = !DILocation(line: 1, column: 16, scope: !20)
",
        13,
        b"0
1
    text.ll:6: %1 = alloca i32, align 4
2
    text.ll:7: %2 = alloca i32, align 4
    two_a.c:2:22: x
3
    text.ll:8: store i32 0, ptr %1, align 4
4
    text.ll:10: %3 = load i32, ptr %2, align 4
    two_a.c:2:34
5
    text.ll:11: %4 = call i32 @f(i32 noundef %3)
    two_a.c:2:32
6
    text.ll:12: ret i32 %4
    two_a.c:2:25
7
    text.ll:17: %2 = alloca i32, align 4
    two_b.c:1:11: y
8
    text.ll:18: store i32 %0, ptr %2, align 4
    two_b.c:1:11: y
9
    text.ll:20: %3 = load i32, ptr %2, align 4
    two_b.c:1:23
10
    text.ll:21: %4 = icmp ne i32 %3, 0
    two_b.c:1:23
11
    text.ll:22: %5 = zext i1 %4 to i64
    two_b.c:1:23
12
    text.ll:23: %6 = select i1 %4, i32 1, i32 2
    two_b.c:1:23
13
    text.ll:24: ret i32 %6
    two_b.c:1:16
14
",
    ),
    Sited(
        b"define i32 @main() {
a: br label %b ; preds = none
b: switch i32 0, label %c [ ; a comment
    i32 1, label %c ]
c:
  %x =
    add i32 1, 2, !dbg !1
  ret i32 %x }
!1 = !DILocation(line: 3, scope: !1)
",
        4,
        b"0
1
    text.ll:2: br label %b
2
    text.ll:3: switch i32 0, label %c [ ; a comment ..
3
    text.ll:6: %x = ..
4
    text.ll:8: ret i32 %x
5
",
    ),
    Sited(
        b"define i32 @main() !dbg !1 {
  %x = add i32 1, 2, !dbg !4
  %y = add i32 1, 2, !dbg !6
  ret i32 %x, !dbg !8
}
!1 = distinct !DISubprogram(name: \"main\", scope: !2, file: !2, line: 1, unit: !3)
!2 = !DIFile(filename: \"\\C3\\BC.c\", directory: \"/src\")
!3 = distinct !DICompileUnit(language: DW_LANG_C11, file: !2)
!4 = !DILocation(line: 7, column: 3, scope: !5, inlinedAt: !6)
!5 = distinct !DISubprogram(name: \"f\", scope: !2, file: !2, line: 6, unit: !3)
!6 = distinct !DILocation(line: 2, column: 9, scope: !1)
!7 = distinct !DISubprogram(name: \"g\", scope: !2, file: !2, line: 11, unit: !3)
!8 = !DILocation(line: 12, scope: !7, inlinedAt: !4)
",
        3,
        b"0
1
    text.ll:2: %x = add i32 1, 2
    \xC3\xBC.c:7:3
    \xC3\xBC.c:2:9: inlined here
2
    text.ll:3: %y = add i32 1, 2
    \xC3\xBC.c:2:9
3
    text.ll:4: ret i32 %x
    \xC3\xBC.c:12
    \xC3\xBC.c:7:3: inlined here
    \xC3\xBC.c:2:9: inlined here
4
",
    ),
    Sited(
        b"define i32 @main() {
  %__msan.1 = alloca i32, !nosanitize !0
  %x = add\ti32 1, 2
  %__msan.2 = freeze i32 %x, !nosanitize !0
  %aaaaaaaaaaaaaaaaaaaaaaaaaaaaaaaaaaaaaaaaaaaaaaaaaaaaaaaaaaaaaaaaaaaaaaaaaaaaaaaaaaa = add i32 %x, 1
  %bbbbbbbbbbbbbbbbbbbbbbbbbbbbbbbbbbbbbbbbbbbbbbbbbbbbbbbbbbbbbbbbbbbbbbbbbbbbbbbbbbbbbbbbbb = add i32 %x, 1
  ret i32 %x
}
!0 = !{}
",
        4,
        b"0
1
    text.ll:3: %x = add?i32 1, 2
2
    text.ll:5: %aaaaaaaaaaaaaaaaaaaaaaaaaaaaaaaaaaaaaaaaaaaaaaaaaaaaaaaaaaaaaaaaaaaaaaaaaaaaaaaaaaa = add i32 %x, 1
3
    text.ll:6: %bbbbbbbbbbbbbbbbbbbbbbbbbbbbbbbbbbbbbbbbbbbbbbbbbbbbbbbbbbbbbbbbbbbbbbbbbbbbbbbbbbbbbbbbbb = add i3 ..
4
    text.ll:7: ret i32 %x
5
",
    ),
    Sited(
        b"define i32 @main() {
  %1 = add i32 1, 2, !dbg !1
  %2 = add i32 1, 2, !dbg !4
  %3 = add i32 1, 2, !dbg !99
  %4 = add i32 1, 2, !dbg !18446744073709551616
  %5 = add i32 1, 2, !dbg !6
  %6 = add i32 1, 2, !dbg !8
  %7 = add i32 1, 2, !dbg !9
  %8 = add i32 1, 2, !dbg !10
  %9 = add i32 1, 2, !dbg !12
  %aaaaaaaaaaaaaaaaaaaaaaaaaaaaaaaaaaaaaaaaaaaaaaaaaaaaaaaaaaaaaaaaaaaaaaaaaaaaaaaaaaaa = add i32 1, 2
  %bbbbbbbbbbbbbbbbbbbbbbbbbbbbbbbbbbbbbbbbbbbbbbbbbbbbbbbbbbbbbbbbbbbbbbbbbbbbbbbbbbbbb = add i32 1, 2
  ret i32 0, !dbg !13
}
!1 = !DILocation(line: 3, column: 1, scope: !2)
!2 = distinct !DILexicalBlock(scope: !3, line: 1)
!3 = distinct !DILexicalBlock(scope: !2, line: 2)
!4 = !DILocation(column: 0, scope: !5, line: 7)
!5 = distinct !DISubprogram(name: \"f\", file: !7, line: 5)
!6 = !DILocation(line: 0, scope: !5, inlinedAt: !4)
!7 = !DIFile(filename: \"m\\C3\\BCll\\09\\5Cx.c\", directory: \"/src\")
!8 = !DILocation(line: 0, scope: !5, inlinedAt: !8)
!9 = !DILocation(line: 8, column: 2, scope: !5, inlinedAt: !10)
!10 = !DILocation(line: 9, column: 3, scope: !11, inlinedAt: !99)
!11 = !DILexicalBlockFile(scope: !5, discriminator: 0)
!12 = !DILexicalBlock(line: 9, column: 3, scope: !5)
!13 = !DILocation(line: 18446744073709551616, column: 3, scope: !5)
!4 = !DILocation(line: 70, scope: !5)
",
        12,
        b"0
1
    text.ll:2: %1 = add i32 1, 2
2
    text.ll:3: %2 = add i32 1, 2
    m\xc3\xbcll?\\x.c:7
3
    text.ll:4: %3 = add i32 1, 2
4
    text.ll:5: %4 = add i32 1, 2
5
    text.ll:6: %5 = add i32 1, 2
    m\xc3\xbcll?\\x.c:7: inlined here
6
    text.ll:7: %6 = add i32 1, 2
7
    text.ll:8: %7 = add i32 1, 2
    m\xc3\xbcll?\\x.c:8:2
    m\xc3\xbcll?\\x.c:9:3: inlined here
8
    text.ll:9: %8 = add i32 1, 2
    m\xc3\xbcll?\\x.c:9:3
9
    text.ll:10: %9 = add i32 1, 2
10
    text.ll:11: %aaaaaaaaaaaaaaaaaaaaaaaaaaaaaaaaaaaaaaaaaaaaaaaaaaaaaaaaaaaaaaaaaaaaaaaaaaaaaaaaaaaa = add i32 1, 2
11
    text.ll:12: %bbbbbbbbbbbbbbbbbbbbbbbbbbbbbbbbbbbbbbbbbbbbbbbbbbbbbbbbbbbbbbbbbbbbbbbbbbbbbbbbbbbbb = add i32 1,  ..
12
    text.ll:13: ret i32 0
13
",
    ),
];
