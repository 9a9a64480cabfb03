//! Lines that show where each site stands, in the text and in its source.

use ms_top_rows::calls::{Beside, Call, Case, Row, all_agree, on_text, saying};
use std::test::Fail;

/// Branches on a variable that has no value, and tells its source, of which clang wrote the like.
const UNSET: &str = r#"define i32 @main() !dbg !4 {
  %1 = alloca i32, align 4
    #dbg_declare(ptr %1, !5, !DIExpression(), !6)
  %2 = load i32, ptr %1, align 4, !dbg !7
  %3 = icmp eq i32 %2, 3, !dbg !8
  br i1 %3, label %4, label %5, !dbg !9

4:
  br label %5, !dbg !9

5:
  ret i32 0, !dbg !10
}

!0 = !DIFile(filename: "unset.c", directory: "/home")
!1 = distinct !DICompileUnit(language: DW_LANG_C11, file: !0)
!2 = !DIBasicType(name: "int", size: 32)
!3 = !DISubroutineType(types: !{})
!4 = distinct !DISubprogram(name: "main", scope: !0, file: !0, line: 3, type: !3, unit: !1)
!5 = !DILocalVariable(name: "wanted", scope: !4, file: !0, line: 4, type: !2)
!6 = !DILocation(line: 4, column: 7, scope: !4)
!7 = !DILocation(line: 5, column: 7, scope: !4)
!8 = !DILocation(line: 5, column: 14, scope: !4)
!9 = !DILocation(line: 5, column: 7, scope: !4)
!10 = !DILocation(line: 7, column: 3, scope: !4)
"#;

const SHOWN: &str =
    "report 1: branch at site 4 in @main, part 0, bits 0x1 of i1\n    f:6: br i1 %3, label %4, label %5\n    unset.c:5:7\n  origin 1: alloca at site 1 in @main\n    f:2: %1 = alloca i32, align 4\n    unset.c:4:7: wanted\nend: reported\nreports: 1\nblind: 0\nverdict: poisoned\n";

const NOT_SHOWN: &str =
    "report 1: branch at site 4 in @main, part 0, bits 0x1 of i1\n  origin 1: alloca at site 1 in @main\nend: reported\nreports: 1\nblind: 0\nverdict: poisoned\n";

const TWO_SHOWN: &str =
    "input 1, 0 bytes: a\n\nreport 1: branch at site 4 in @main, part 0, bits 0x1 of i1\n    f:6: br i1 %3, label %4, label %5\n    unset.c:5:7\n  origin 1: alloca at site 1 in @main\n    f:2: %1 = alloca i32, align 4\n    unset.c:4:7: wanted\nend: reported\nreports: 1\nblind: 0\nverdict: poisoned\ninput 2, 0 bytes: b\n\nreport 1: branch at site 4 in @main, part 0, bits 0x1 of i1\n    f:6: br i1 %3, label %4, label %5\n    unset.c:5:7\n  origin 1: alloca at site 1 in @main\n    f:2: %1 = alloca i32, align 4\n    unset.c:4:7: wanted\nend: reported\nreports: 1\nblind: 0\nverdict: poisoned\n";

/// Divides by zero, without debug information.
const DIVIDES: &str = r#"define i32 @main() {
  %q = udiv i32 1, 0
  ret i32 %q
}
"#;

/// Uses a value before it is defined.
const EARLY: &str = r#"define i32 @main() {
  %y = add i32 %x, 1
  %x = add i32 2, 3
  ret i32 %y
}
"#;

static CASES: [Case; 8] = [
    Case("check --where f", UNSET, "", SHOWN, 77),
    Case("check f", UNSET, "", NOT_SHOWN, 77),
    Case(
        "run --where f",
        DIVIDES,
        "",
        "end: trap zero-divisor at site 1 in @main\n    f:2: %q = udiv i32 1, 0\nreports: 0\nblind: 0\n",
        3,
    ),
    Case(
        "run f",
        DIVIDES,
        "",
        "end: trap zero-divisor at site 1 in @main\nreports: 0\nblind: 0\n",
        3,
    ),
    Case(
        "check --where f",
        EARLY,
        "",
        "refused 15: undefined at site 1, path 0\n    f:2: %y = add i32 %x, 1\n",
        5,
    ),
    Case(
        "corpus --where f f",
        EARLY,
        "",
        "refused 15: undefined at site 1, path 0\n    f:2: %y = add i32 %x, 1\n",
        5,
    ),
    Case(
        "check f",
        EARLY,
        "",
        "refused 15: undefined at site 1, path 0\n",
        5,
    ),
    // A text that isn't read has no sites.
    Case(
        "check --where f",
        "define i32 @main() {",
        "",
        "refused 4: syntax at token 6, byte 20\n",
        5,
    ),
];

/// The words of a call on the file `f` and on two empty inputs, and the sections that it writes.
struct Sections(&'static str, &'static str);

impl Row for Sections {
    fn call(&self) -> Call<'static> {
        Call {
            beside: Beside::Letters(0),
            ..on_text(self.0, UNSET.as_bytes(), saying(self.1.as_bytes(), "", 77))
        }
    }
}

static SECTIONS: [Sections; 1] = [Sections("corpus --where f a b", TWO_SHOWN)];

#[test]
fn sites_are_shown_where_they_stand(rt: HostRuntime) -> Result<(), Fail> {
    assert!(rt; all_agree(&rt, rt.alloc(), &[&CASES]));
    Ok(())
}

#[test]
fn sections_show_where_sites_stand(rt: HostRuntime) -> Result<(), Fail> {
    assert!(rt; all_agree(&rt, rt.alloc(), &[&SECTIONS]));
    Ok(())
}
