//! Modules in other spellings, and such as have little to check.

use ms_top_rows::calls::{Call, Case, Wanted, agrees, on_text};
use ms_top_rows::told::all_told;
use std::alloc::Global;
use std::test::Fail;
use std::thread::Threads;

/// Other spellings run.
static SPELLINGS: &[u8] = br#"run f~
; a comment
target triple = "x"
define dso_local i32 @main() #0 {
%1=alloca i32, align 4
   store i32 12 , ptr %1, align 4 ; twelve
  load i32, ptr %1
  %3 = xor i32 %2, 0010
  ret i32 %3
}
attributes #0 = { nounwind }~
~
end: exit 6
reports: 0
blind: 0
~
0
====
run f~
define i32 @main() {
  ret i32 0
}~
~
end: exit 0
reports: 0
blind: 0
~
0
====
run f~
define i32 @main() { ret i32 -1 }~
~
end: exit 4294967295
reports: 0
blind: 0
~
0
====
run f~
define i32 @main() { 0: ret i32 -2147483648 }~
~
end: exit 2147483648
reports: 0
blind: 0
~
0
====
run f~
define i32 @main() { alloca i32, i32 1 store i32 7, ptr %1 %2 = load i32, ptr %1 ret i32 %2 }~
~
end: exit 7
reports: 0
blind: 0
~
0
====
run f~
define i32 @main() { %1 = and i32 12, 10 %2 = or i32 %1, 1 ret i32 %2 }~
~
end: exit 9
reports: 0
blind: 0
~
0
====
check f~
; a comment
target triple = "x"
define dso_local i32 @main() #0 {
%1=alloca i32, align 4
   store i32 12 , ptr %1, align 4 ; twelve
  load i32, ptr %1
  %3 = xor i32 %2, 0010
  ret i32 %3
}
attributes #0 = { nounwind }~
~
end: exit 6
reports: 0
blind: 0
verdict: clean
~
0
====
check f~
define i32 @main() {
  ret i32 0
}~
~
end: exit 0
reports: 0
blind: 0
verdict: clean
~
0
====
check f~
define i32 @main() { ret i32 -1 }~
~
end: exit 4294967295
reports: 0
blind: 0
verdict: clean
~
0
====
check f~
define i32 @main() { 0: ret i32 -2147483648 }~
~
end: exit 2147483648
reports: 0
blind: 0
verdict: clean
~
0
====
check f~
define i32 @main() { alloca i32, i32 1 store i32 7, ptr %1 %2 = load i32, ptr %1 ret i32 %2 }~
~
end: exit 7
reports: 0
blind: 0
verdict: clean
~
0
====
check f~
define i32 @main() { %1 = and i32 12, 10 %2 = or i32 %1, 1 ret i32 %2 }~
~
end: exit 9
reports: 0
blind: 0
verdict: clean
~
0
====
"#;

/// Modules of which `run` and `check` say the same, but that `check` calls each clean: the closing lines and the status.
static BEYOND: [Beyond; 13] = [
    Beyond(
        "define i32 @main() { a: ret i32 0 }",
        "end: exit 0\nreports: 0\nblind: 0\n",
        0,
    ),
    Beyond(
        "define i32 @main() { ret i32 0 ret i32 0 }",
        "end: exit 0\nreports: 0\nblind: 0\n",
        0,
    ),
    Beyond(
        "define i32 @main() { unreachable }",
        "end: trap unreachable at site 1 in @main\nreports: 0\nblind: 0\n",
        3,
    ),
    Beyond(
        "define i32 @main() { ret i32 0 } define i32 @f() { ret i32 0 }",
        "end: exit 0\nreports: 0\nblind: 0\n",
        0,
    ),
    Beyond(
        "declare void @f() define i32 @main() { ret i32 0 }",
        "end: exit 0\nreports: 0\nblind: 0\n",
        0,
    ),
    Beyond(
        "@g = global i8 0 define i32 @main() { ret i32 0 }",
        "end: exit 0\nreports: 0\nblind: 0\n",
        0,
    ),
    Beyond(
        "%t = type { } define i32 @main() { ret i32 0 }",
        "end: exit 0\nreports: 0\nblind: 0\n",
        0,
    ),
    Beyond(
        "define i32 @main() { %x = or i32 1, 2 ret i32 0 }",
        "end: exit 0\nreports: 0\nblind: 0\n",
        0,
    ),
    Beyond(
        "define i32 @main() { %1 = or disjoint i32 1, 2 ret i32 0 }",
        "end: exit 0\nreports: 0\nblind: 0\n",
        0,
    ),
    Beyond(
        "define i32 @main() { %1 = or i64 1, 2 ret i32 0 }",
        "end: exit 0\nreports: 0\nblind: 0\n",
        0,
    ),
    Beyond(
        "define i32 @main() { %1 = add i32 1, 2 ret i32 0 }",
        "end: exit 0\nreports: 0\nblind: 0\n",
        0,
    ),
    Beyond(
        "define i32 @main() { %1 = alloca i32, i32 2 ret i32 0 }",
        "end: exit 0\nreports: 0\nblind: 0\n",
        0,
    ),
    Beyond(
        "define i32 @main() { %1 = alloca i64 ret i32 0 }",
        "end: exit 0\nreports: 0\nblind: 0\n",
        0,
    ),
];

/// A module's text, its closing lines and the status.
#[derive(Clone, Copy)]
struct Beyond(&'static str, &'static str, u8);

/// The call of a row with these words, and with this verdict after the closing lines.
fn of_row(words: &'static str, row: &Beyond, verdict: &'static str) -> Call<'static> {
    let wanted = Wanted {
        out: b"",
        letters: 0,
        err: [row.1, verdict, ""],
        status: row.2,
    };
    on_text(words, row.0.as_bytes(), wanted)
}

/// Whether `run` and `check` say of each row's module the same, what the row says.
fn all_are_alike<R: Threads + Sync + Eprint>(rt: &R, alloc: Global, rows: &[Beyond]) -> bool {
    for row in rows {
        if !agrees(rt, alloc, &of_row("run f", row, ""))
            || !agrees(rt, alloc, &of_row("check f", row, "verdict: clean\n"))
        {
            return false;
        }
    }
    true
}

#[test]
fn other_forms_run(rt: HostRuntime) -> Result<(), Fail> {
    assert!(rt;
        all_told::<_, Case>(&rt, rt.alloc(), &[SPELLINGS])
            && all_are_alike(&rt, rt.alloc(), &BEYOND)
    );
    Ok(())
}
